//! A stream.

ghost use Rattle.std.specs.Prelude.{◌≡◌, ◌<◌, ◌≤◌, length, drop, Ok, Some, IfOk, MatchResult};
ghost use Rattle.ymx_hub.specs.Books.{Books};
ghost use Rattle.ymx_machine.specs.declared.types.Reply.TheVariants as reply;
ghost use Rattle.ymx_hub.specs.Turns.{ReadTurns};
ghost use Rattle.ymx_connect.specs.Streams.{ReadsUpTo};
ghost use Rattle.yamux.specs.Api.{WritesAll, Finishes};

use crate::error::Error;
use crate::halves::{Reader, Writer};
use crate::host::Runtime;
use std::marker::Model;
use ymx_hub::{Off, ReadHalf, WriteHalf};
use ymx_seats::{Parked, Recorder};

/// A stream of a session. Dropped before it was finished (`close_write`, `close`) and read to its end, it is reset, so that neither
/// side takes a part for the whole.
pub struct Stream<W: Runtime, R: Recorder = Off> {
    writer: Writer<W, R>,
    reader: Reader<W, R>,
}

impl<W: Runtime, R: Recorder> Model for Stream<W, R> {
    ghost use Rattle.yamux.specs.Api.{StreamView};

    ghost Value = { StreamView };

    ghost view = { λ stream. record { writer = stream.writer; reader = stream.reader } };
}

impl<W: Runtime, R: Recorder> Drop for Stream<W, R> {
    fn drop(self) {
        let Stream { writer, reader } = self;
        drop(writer);
        drop(reader);
    }
}

impl<W: Runtime, R: Recorder> Stream<W, R> {
    pub(crate) fn new(rt: W, caller: Parked<R>, halves: (WriteHalf<R>, ReadHalf<R>)) -> Stream<W, R>
        ensures { result ≡ record { writer = Some halves.0; reader = record { caller = caller; half = halves.1 } } }
    {
        let (writer, reader) = halves;
        Stream {
            writer: Writer::new(rt, writer),
            reader: Reader::new(rt, caller, reader),
        }
    }

    /// Waits for bytes, and moves those that are there and fit to the front of the buffer. 0 is the end: the peer has finished, and all
    /// was read.
    ///
    /// `Reset` where the stream was reset, `Closed` of the session, and `Lost` once what was there is read, before it waits or while it
    /// does. No byte is read then.
    pub fn read(&mut self, buffer: &mut [u8]) -> Result<usize, Error>
        requires { 0 < length buffer.old }
        ensures same { (self.new.writer ≡ self.old.writer) × (self.new.reader.caller ≡ self.old.reader.caller) × (self.new.reader.half.id ≡ self.old.reader.half.id) }
        ensures booked { IfOk result (λ count. Books R.KEEPS self.old.reader.half.seat self.new.reader.half.seat (ReadTurns self.old.reader.half.id (length buffer.old) buffer.new self.old.reader.half.seat.number (Ok count))) }
        ensures within { IfOk result (λ count. count ≤ length buffer.old) }
        ensures length { length buffer.new ≡ length buffer.old }
        ensures rest { MatchResult result (λ count. drop count buffer.new ≡ drop count buffer.old) (λ error. buffer.new ≡ buffer.old) }
    {
        self.reader.read(buffer)
    }

    /// Reads up to the end, and gives all bytes that were read, in order. It fails as `read` does, and with `Memory` where there is none
    /// for the bytes: what was read is gone then.
    pub fn read_all(&mut self) -> Result<Vec<u8>, Error>
        ensures same { (self.new.writer ≡ self.old.writer) × (self.new.reader.caller ≡ self.old.reader.caller) × (self.new.reader.half.id ≡ self.old.reader.half.id) }
        ensures booked { IfOk result (λ bytes. Books R.KEEPS self.old.reader.half.seat self.new.reader.half.seat (ReadsUpTo reply.ReadEnd self.old.reader.half.id self.old.reader.half.seat.number bytes.items)) }
    {
        self.reader.read_all()
    }

    /// Writes all bytes, and waits for credit (flow control). A call that fails resets the stream, and each later one fails in the same
    /// way.
    ///
    /// `Reset` where the peer has reset the stream, `Closed` and `Lost` of the session, and `Memory` where there is none for more than
    /// 262,144 unsent bytes, before it waits or while it does. `Finished` after `close_write`.
    pub fn write_all(&mut self, bytes: &[u8]) -> Result<(), Error>
        ensures same { self.new.reader ≡ self.old.reader }
        ensures booked { IfOk result (λ _. WritesAll R.KEEPS bytes.now self.old.writer self.new.writer) }
    {
        self.writer.write_all(bytes)
    }

    /// Finishes the stream: the peer reads what was written, and then the end (half-close). It may still be read.
    ///
    /// `Reset` where the peer has reset the stream, `Closed` and `Lost` of the session, and `Finished` where it was finished. After a
    /// write that failed it fails in the same way.
    pub fn close_write(&mut self) -> Result<(), Error>
        ensures same { self.new.reader ≡ self.old.reader }
        ensures booked { IfOk result (λ _. Finishes R.KEEPS self.old.writer self.new.writer) }
    {
        self.writer.finish()
    }

    /// Finishes the stream, unless it was, and reads no more, without a wait: what was written still arrives, and what comes is dropped.
    /// The stream is gone once the peer has finished too.
    ///
    /// It fails as `close_write` does, and the stream is reset then.
    pub fn close(self) -> Result<(), Error> {
        let Stream { writer, reader } = self;
        let mut writer = writer;
        let finished = match writer.finish() {
            Err(Error::Finished) => Ok(()),
            finished => finished,
        };
        drop(writer);
        let released = reader.close();
        finished.and(released)
    }

    /// Resets the stream, unless both sides have finished: what is not sent is dropped, and neither side reads or writes any more.
    pub fn reset(self) {
        drop(self);
    }

    /// Its two halves, which two threads may use.
    pub fn split(self) -> (Reader<W, R>, Writer<W, R>)
        ensures { (result.0 ≡ self.reader) × (result.1 ≡ self.writer) }
    {
        let Stream { writer, reader } = self;
        (reader, writer)
    }
}
