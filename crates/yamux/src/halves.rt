//! The two halves of a stream, for two threads.

ghost use Rattle.std.specs.Prelude.{◌≡◌, ◌<◌, ◌≤◌, length, drop, Ok, Some, IfOk, MatchResult};
ghost use Rattle.ymx_hub.specs.Books.{Books};
ghost use Rattle.ymx_machine.specs.declared.types.Reply.TheVariants as reply;
ghost use Rattle.ymx_hub.specs.Turns.{ReadTurns};
ghost use Rattle.ymx_connect.specs.Streams.{ReadsUpTo, Copies};
ghost use Rattle.yamux.specs.Api.{WritesAll, Finishes, CopiesAll};

use crate::error::Error;
use crate::host::Runtime;
use crate::pumps::discard;
use std::marker::Model;
use std::sync::Wait;
use ymx_hub::{HubFault, Off, ReadHalf, WriteHalf};
use ymx_seats::{Parked, Recorder};

/// Bytes that `read_all` and `copy` move at once.
const CHUNK: usize = 4_096;

/// The writing half of a stream. Dropped before it was closed, it resets the stream, so that the peer never takes a part for the
/// whole. A call that fails resets it too, and each later call fails in the same way.
pub struct Writer<W: Runtime, R: Recorder = Off> {
    rt: W,
    /// `None` once the stream was finished, or reset by this half.
    half: Option<WriteHalf<R>>,
    /// Why the stream was reset by this half, or not finished.
    pub(crate) failed: Option<Error>,
}

/// The reading half of a stream. Dropped before it gave the end, it has the stream reset as soon as its writer is closed too. To write
/// without reading, `close` it.
pub struct Reader<W: Runtime, R: Recorder = Off> {
    rt: W,
    /// Who opened or accepted the stream: a release shows it the history too.
    caller: Parked<R>,
    half: ReadHalf<R>,
}

impl<W: Runtime, R: Recorder> Model for Writer<W, R> {
    ghost use Rattle.std.specs.Prelude.{Option};
    ghost use Rattle.ymx_hub.specs.Halves.{HalfView};

    ghost Value = { Option HalfView };

    ghost view = { λ writer. writer.half };
}

impl<W: Runtime, R: Recorder> Model for Reader<W, R> {
    ghost use Rattle.yamux.specs.Api.{ReaderView};

    ghost Value = { ReaderView };

    ghost view = { λ reader. record { caller = reader.caller; half = reader.half } };
}

impl<W: Runtime, R: Recorder> Drop for Writer<W, R> {
    fn drop(self) {
        let Writer {
            rt,
            half,
            failed: _,
        } = self;
        if let Some(half) = half {
            let (seat, _) = half.reset(&rt);
            discard(seat);
        }
    }
}

impl<W: Runtime, R: Recorder> Drop for Reader<W, R> {
    fn drop(self) {
        let Reader {
            rt,
            caller: _,
            half,
        } = self;
        let (seat, _) = half.close(&rt);
        discard(seat);
    }
}

impl<W: Runtime, R: Recorder> Writer<W, R> {
    pub(crate) fn new(rt: W, half: WriteHalf<R>) -> Writer<W, R>
        ensures { result ≡ Some half }
    {
        Writer {
            rt,
            half: Some(half),
            failed: None,
        }
    }

    /// Writes all bytes, and waits for credit (flow control).
    ///
    /// `Reset` where the peer has reset the stream, `Closed` and `Lost` of the session, and `Memory` where there is none for more than
    /// 262,144 unsent bytes, before it waits or while it does. `Finished` after `Stream::close_write`.
    pub fn write_all(&mut self, bytes: &[u8]) -> Result<(), Error>
        ensures booked { IfOk result (λ _. WritesAll R.KEEPS bytes.now self.old self.new) }
    {
        let rt = self.rt;
        match &mut self.half {
            Some(half) => match half.write_all(&rt, bytes) {
                Ok(()) => Ok(()),
                Err(stop) => Err(self.fail(Error::from(stop))),
            },
            None => Err(self.failed.unwrap_or(Error::Finished)),
        }
    }

    /// The half of the hub, unless the stream was finished, or reset by this one.
    pub fn into_half(self) -> Option<WriteHalf<R>>
        ensures { result ≡ self }
    {
        let mut writer = self;
        writer.half.take()
    }

    /// Finishes the stream: the peer reads what was written, and then the end (half-close).
    ///
    /// `Reset` where the peer has reset the stream, and `Closed` and `Lost` of the session. After a call that failed it fails in the
    /// same way.
    pub fn close(self) -> Result<(), Error> {
        let mut writer = self;
        writer.finish()
    }

    /// The same, of a half that goes on to be there.
    pub(crate) fn finish(&mut self) -> Result<(), Error>
        ensures booked { IfOk result (λ _. Finishes R.KEEPS self.old self.new) }
    {
        let Some(half) = self.half.take() else {
            return Err(self.failed.unwrap_or(Error::Finished));
        };
        let (seat, finished) = half.finish(&self.rt);
        discard(seat);
        if let Err(fault) = finished {
            return Err(self.fail(Error::from(fault)));
        }
        Ok(())
    }

    /// Resets the stream, unless it was finished: each later call fails with this error, which it gives back.
    fn fail(&mut self, error: Error) -> Error {
        if let Some(half) = self.half.take() {
            let (seat, _) = half.reset(&self.rt);
            discard(seat);
        }
        self.failed = Some(error);
        error
    }
}

impl<W: Runtime, R: Recorder> Reader<W, R> {
    pub(crate) fn new(rt: W, caller: Parked<R>, half: ReadHalf<R>) -> Reader<W, R>
        ensures { result ≡ record { caller = caller; half = half } }
    {
        Reader { rt, caller, half }
    }

    /// Waits for bytes, and moves those that are there and fit to the front of the buffer. 0 is the end: the peer has finished, and all
    /// was read.
    ///
    /// `Reset` where the stream was reset, `Closed` of the session, and `Lost` once what was there is read, before it waits or while it
    /// does. No byte is read then.
    pub fn read(&mut self, buffer: &mut [u8]) -> Result<usize, Error>
        requires { 0 < length buffer.old }
        ensures same { (self.new.caller ≡ self.old.caller) × (self.new.half.id ≡ self.old.half.id) }
        ensures booked { IfOk result (λ count. Books R.KEEPS self.old.half.seat self.new.half.seat (ReadTurns self.old.half.id (length buffer.old) buffer.new self.old.half.seat.number (Ok count))) }
        ensures within { IfOk result (λ count. count ≤ length buffer.old) }
        ensures length { length buffer.new ≡ length buffer.old }
        ensures rest { MatchResult result (λ count. drop count buffer.new ≡ drop count buffer.old) (λ error. buffer.new ≡ buffer.old) }
    {
        let rt = self.rt;
        Ok(self.half.read(&rt, buffer)?)
    }

    /// Reads up to the end, and gives all bytes that were read, in order. It fails as `read` does, and with `Memory` where there is none
    /// for the bytes: what was read is gone then.
    pub fn read_all(&mut self) -> Result<Vec<u8>, Error>
        ensures same { (self.new.caller ≡ self.old.caller) × (self.new.half.id ≡ self.old.half.id) }
        ensures booked { IfOk result (λ bytes. Books R.KEEPS self.old.half.seat self.new.half.seat (ReadsUpTo reply.ReadEnd self.old.half.id self.old.half.seat.number bytes.items)) }
    {
        let rt = self.rt;
        let mut buffer = [0; CHUNK];
        let mut bytes = Vec::new(rt.alloc());
        for _ in rt.forever() {
            let count = self.read(&mut buffer)?;
            if count == 0 {
                return Ok(bytes);
            }
            ymx_memory::extend(&mut bytes, &buffer[..count])?;
        }
        unreachable!()
    }

    /// The half of the hub.
    pub fn into_half(self) -> ReadHalf<R>
        ensures { result ≡ self.half }
    {
        let Reader {
            rt: _,
            caller: _,
            half,
        } = self;
        half
    }

    /// Reads no more, without a wait: what comes is dropped, so that the peer's writes go on. What was written here arrives. The stream
    /// is gone once both sides have finished.
    ///
    /// `Closed`, where the session is closed here and the stream goes now.
    pub fn close(self) -> Result<(), Error> {
        let Reader { rt, caller, half } = self;
        let mut caller = caller.into_seat(rt.alloc());
        let (seat, released) = half.release(&rt, &mut caller);
        discard(caller);
        discard(seat);
        Ok(released?)
    }
}

/// Reads one stream up to its end, and writes all that was read to another, in order: how many bytes, at most the greatest `u64`. The
/// other stream is not finished by it. It fails as `read` and `write_all` do, and resets the other stream then: what it was given
/// is a part.
pub fn copy<W: Runtime, R: Recorder>(
    reader: &mut Reader<W, R>,
    writer: &mut Writer<W, R>,
) -> Result<u64, Error>
    ensures copied { IfOk result (λ count. CopiesAll R.KEEPS reader.old reader.new writer.old writer.new count) }
{
    let rt = writer.rt;
    let Some(half) = &mut writer.half else {
        return Err(writer.failed.unwrap_or(Error::Finished));
    };
    match copy_all(&rt, &mut reader.half, half) {
        Ok(copied) => Ok(copied),
        Err(fault) => Err(writer.fail(Error::from(fault))),
    }
}

/// The same, and the other stream is left as it is.
fn copy_all<W: Wait, R: Recorder>(
    rt: &W,
    reader: &mut ReadHalf<R>,
    writer: &mut WriteHalf<R>,
) -> Result<u64, HubFault>
    ensures same { (reader.new.id ≡ reader.old.id) × (writer.new.id ≡ writer.old.id) }
    ensures copied { IfOk result (λ count. Copies R.KEEPS reader.old writer.old reader.new.seat writer.new.seat count) }
{
    let mut buffer = [0; CHUNK];
    let mut copied = 0u64;
    for _ in rt.forever() {
        let count = match reader.read(rt, &mut buffer) {
            Ok(count) => count,
            Err(fault) => return Err(fault),
        };
        if count == 0 {
            return Ok(copied);
        }
        match writer.write_all(rt, &buffer[..count]) {
            Ok(()) => copied = copied.saturating_add(count as u64),
            Err(stop) => return Err(stop.fault),
        }
    }
    unreachable!()
}
