//! The two directions of a stream, by the halves that hold them.

ghost use Rattle.std.specs.Prelude.{◌≡◌, ◌+◌, ◌<◌, ◌≤◌, ◌++◌, ◌&&◌, [], true, false, not, length, take, drop, min, IsOk, IfOk, OnErr};
ghost use Rattle.ymx_machine.specs.shared.Limits.{first_credit, greatest_number};
ghost use Rattle.ymx_model.specs.session.Records.{writer_write, writer_send, writer_grant, writer_finish, writer_begin_fin, reader_arrive, reader_read, reader_announce, reader_end, reader_empty};
ghost use Rattle.ymx_model.specs.session.FramesDue.{is_empty};

use crate::{DeadHalf, DoneHalf, EndedHalf, RecvHalf, SendHalf};
use std::mem;
use ymx_memory::RefusedAllocation;
use ymx_ring::Pool;

/// The sending direction of a stream, by its half.
#[derive(Drop)]
pub(crate) enum Sending {
    /// Bytes may be written.
    Open(SendHalf),
    /// It was finished.
    Done(DoneHalf),
    /// The stream was reset.
    Dead(DeadHalf),
}

impl Sending {
    ghost use Rattle.ymx_half.specs.Directions.{writer_of, sends_nothing};
    ghost use Rattle.ymx_half.specs.Through.{writer_spend};

    /// Takes the first bytes that the credit allows, of which a dead half has none. See `SendHalf::write`.
    pub(crate) fn write(
        &mut self,
        pool: &mut Pool,
        bytes: &[u8],
    ) -> Result<usize, RefusedAllocation>
        requires { (writer_of self.old).finished ≡ false }
        ensures took_min { IfOk result (λ count. count ≡ min (length bytes.now) (writer_of self.old).credit) }
        ensures wrote { IfOk result (λ count. writer_of self.new ≡ writer_write (take count bytes.now) (writer_of self.old)) }
        ensures in_room { length (writer_of self.old).unsent + min (length bytes.now) (writer_of self.old).credit ≤ first_credit → IsOk result }
        ensures refused_unchanged { OnErr result (writer_of self.new ≡ writer_of self.old) }
        ensures same_state { sends_nothing self.new ≡ sends_nothing self.old }
    {
        match self {
            Sending::Open(half) => half.write(pool, bytes),
            Sending::Done(_) | Sending::Dead(_) => Ok(0),
        }
    }

    /// Bytes are written and go into a frame at once: only their credit is spent.
    pub(crate) fn spend(&mut self, count: u32)
        requires open { (writer_of self.old).finished ≡ false }
        requires credit { count ≤ (writer_of self.old).credit }
        ensures spent { writer_of self.new ≡ writer_spend count (writer_of self.old) }
        ensures same_state { sends_nothing self.new ≡ sends_nothing self.old }
    {
        if let Sending::Open(half) = self {
            half.spend(count);
        }
    }

    /// The peer lets `delta` bytes more be written.
    pub(crate) fn grant(&mut self, delta: u32)
        requires sends { sends_nothing self.old ≡ false }
        requires fits { (writer_of self.old).credit + delta ≤ greatest_number }
        ensures granted { writer_of self.new ≡ writer_grant delta (writer_of self.old) }
        ensures same_state { sends_nothing self.new ≡ sends_nothing self.old }
    {
        match self {
            Sending::Open(half) => half.grant(delta),
            Sending::Done(half) => half.grant(delta),
            Sending::Dead(_) => {}
        }
    }

    /// Moves the next bytes of a frame out into `buffer`.
    pub(crate) fn take(&mut self, pool: &mut Pool, buffer: &mut [u8]) -> usize
        ensures count { result ≡ min (length buffer.old) (length (writer_of self.old).unsent) }
        ensures taken { buffer.new ≡ take result (writer_of self.old).unsent ++ drop result buffer.old }
        ensures left { writer_of self.new ≡ writer_send result (writer_of self.old) }
        ensures same_state { sends_nothing self.new ≡ sends_nothing self.old }
    {
        match self {
            Sending::Open(half) => half.take(pool, buffer),
            Sending::Done(half) => half.take(pool, buffer),
            Sending::Dead(_) => 0,
        }
    }

    /// Nothing more is written. A half that is done stays so.
    pub(crate) fn finish(&mut self)
        requires { sends_nothing self.old ≡ false }
        ensures finished { writer_of self.new ≡ writer_finish (writer_of self.old) }
        ensures same_state { sends_nothing self.new ≡ sends_nothing self.old }
    {
        *self = match mem::replace(self, Sending::Dead(DeadHalf)) {
            Sending::Open(half) => Sending::Done(half.finish()),
            other => other,
        };
    }

    /// The frame with FIN begins, after the last byte.
    pub(crate) fn begin_fin(&mut self)
        requires due { ((writer_of self.old).finished && not (writer_of self.old).fin_sent) ≡ true }
        requires all_sent { (writer_of self.old).unsent ≡ [] }
        ensures goes { writer_of self.new ≡ writer_begin_fin (writer_of self.old) }
        ensures same_state { sends_nothing self.new ≡ sends_nothing self.old }
    {
        if let Sending::Done(half) = self {
            half.begin_fin();
        }
    }

    /// Gives memory back that isn't needed.
    pub(crate) fn shrink(&mut self) -> bool
        ensures { self.new ≡ self.old }
    {
        match self {
            Sending::Open(half) => half.shrink(),
            Sending::Done(half) => half.shrink(),
            Sending::Dead(_) => false,
        }
    }

    /// The stream is reset.
    pub(crate) fn reset(self, pool: &mut Pool) -> DeadHalf {
        match self {
            Sending::Open(half) => half.reset(pool),
            Sending::Done(half) => half.reset(pool),
            Sending::Dead(half) => half,
        }
    }

    pub(crate) fn credit(&self) -> u32
        ensures { result ≡ (writer_of self.now).credit }
    {
        match self {
            Sending::Open(half) => half.credit(),
            Sending::Done(half) => half.credit(),
            Sending::Dead(_) => 0,
        }
    }

    pub(crate) fn unsent_len(&self) -> usize
        ensures { result ≡ length (writer_of self.now).unsent }
    {
        match self {
            Sending::Open(half) => half.unsent_len(),
            Sending::Done(half) => half.unsent_len(),
            Sending::Dead(_) => 0,
        }
    }

    pub(crate) fn has_unsent(&self) -> bool
        ensures { result ≡ not (is_empty (writer_of self.now).unsent) }
    {
        self.unsent_len() > 0
    }

    pub(crate) fn is_finished(&self) -> bool
        ensures { result ≡ (writer_of self.now).finished }
    {
        matches!(self, Sending::Done(_))
    }

    pub(crate) fn is_fin_due(&self) -> bool
        ensures { result ≡ (writer_of self.now).finished && not (writer_of self.now).fin_sent }
    {
        match self {
            Sending::Done(half) => !half.is_fin_sent(),
            Sending::Open(_) | Sending::Dead(_) => false,
        }
    }
}

/// The receiving direction of a stream, by its half.
#[derive(Drop)]
pub(crate) enum Receiving {
    /// The peer's end has not arrived.
    Open(RecvHalf),
    /// It has.
    Ended(EndedHalf),
    /// The stream was reset.
    Dead(DeadHalf),
}

impl Receiving {
    ghost use Rattle.ymx_half.specs.Directions.{reader_of, receives_nothing};
    ghost use Rattle.ymx_half.specs.Passing.{reader_pass};

    /// These bytes come, before the end.
    pub(crate) fn arrive(&mut self, pool: &mut Pool, bytes: &[u8])
        requires receives { receives_nothing self.old ≡ false }
        requires open { (reader_of self.old).ended ≡ false }
        requires fits { length bytes.now ≤ (reader_of self.old).granted }
        ensures came { reader_of self.new ≡ reader_arrive bytes.now (reader_of self.old) }
        ensures same_state { receives_nothing self.new ≡ receives_nothing self.old }
    {
        if let Receiving::Open(half) = self {
            half.arrive(pool, bytes);
        }
    }

    /// Moves the first unread bytes into `buffer`.
    pub(crate) fn read(&mut self, pool: &mut Pool, buffer: &mut [u8]) -> usize
        ensures count { result ≡ min (length buffer.old) (length (reader_of self.old).unread) }
        ensures gave { buffer.new ≡ take result (reader_of self.old).unread ++ drop result buffer.old }
        ensures after { reader_of self.new ≡ reader_read result (reader_of self.old) }
        ensures same_state { receives_nothing self.new ≡ receives_nothing self.old }
    {
        match self {
            Receiving::Open(half) => half.read(pool, buffer),
            Receiving::Ended(half) => half.read(pool, buffer),
            Receiving::Dead(_) => 0,
        }
    }

    /// The unread bytes, as they lie in the ring.
    pub(crate) fn unread(&self) -> (&[u8], &[u8])
        ensures all { result.0.now ++ result.1.now ≡ (reader_of self.now).unread }
    {
        match self {
            Receiving::Open(half) => half.unread(),
            Receiving::Ended(half) => half.unread(),
            Receiving::Dead(_) => (&[], &[]),
        }
    }

    /// Drops the first unread bytes, as a read of them would take them out.
    pub(crate) fn consume(&mut self, pool: &mut Pool, count: usize) -> usize
        ensures count { result ≡ min count (length (reader_of self.old).unread) }
        ensures after { reader_of self.new ≡ reader_read result (reader_of self.old) }
        ensures same_state { receives_nothing self.new ≡ receives_nothing self.old }
    {
        match self {
            Receiving::Open(half) => half.consume(pool, count),
            Receiving::Ended(half) => half.consume(pool, count),
            Receiving::Dead(_) => 0,
        }
    }

    /// These bytes come, before the end, and are read at once.
    pub(crate) fn pass(&mut self, bytes: &[u8])
        requires receives { receives_nothing self.old ≡ false }
        requires open { (reader_of self.old).ended ≡ false }
        requires fits { length bytes.now ≤ (reader_of self.old).granted }
        ensures passed { reader_of self.new ≡ reader_pass (length bytes.now) (reader_of self.old) }
        ensures same_state { receives_nothing self.new ≡ receives_nothing self.old }
    {
        if let Receiving::Open(half) = self {
            half.pass(bytes);
        }
    }

    /// `n` of the owed bytes are announced.
    pub(crate) fn announce(&mut self, n: u32)
        ensures announced { reader_of self.new ≡ reader_announce n (reader_of self.old) }
        ensures same_state { receives_nothing self.new ≡ receives_nothing self.old }
    {
        match self {
            Receiving::Open(half) => half.announce(n),
            Receiving::Ended(half) => half.announce(n),
            Receiving::Dead(_) => {}
        }
    }

    /// The peer's end arrives. A half that has ended stays so.
    pub(crate) fn end(&mut self)
        requires { receives_nothing self.old ≡ false }
        ensures ended { reader_of self.new ≡ reader_end (reader_of self.old) }
        ensures same_state { receives_nothing self.new ≡ receives_nothing self.old }
    {
        *self = match mem::replace(self, Receiving::Dead(DeadHalf)) {
            Receiving::Open(half) => Receiving::Ended(half.end()),
            other => other,
        };
    }

    /// What is unread after the end is dropped.
    pub(crate) fn empty(&mut self, pool: &mut Pool)
        requires { (reader_of self.old).ended ≡ true }
        ensures emptied { reader_of self.new ≡ reader_empty (reader_of self.old) }
        ensures same_state { receives_nothing self.new ≡ receives_nothing self.old }
    {
        if let Receiving::Ended(half) = self {
            half.empty(pool);
        }
    }

    /// Gives memory back that isn't needed.
    pub(crate) fn shrink(&mut self) -> bool
        ensures { self.new ≡ self.old }
    {
        match self {
            Receiving::Open(half) => half.shrink(),
            Receiving::Ended(half) => half.shrink(),
            Receiving::Dead(_) => false,
        }
    }

    /// The stream is reset.
    pub(crate) fn reset(self, pool: &mut Pool) -> DeadHalf {
        match self {
            Receiving::Open(half) => half.reset(pool),
            Receiving::Ended(half) => half.reset(pool),
            Receiving::Dead(half) => half,
        }
    }

    pub(crate) fn unread_len(&self) -> usize
        ensures { result ≡ length (reader_of self.now).unread }
    {
        match self {
            Receiving::Open(half) => half.unread_len(),
            Receiving::Ended(half) => half.unread_len(),
            Receiving::Dead(_) => 0,
        }
    }

    pub(crate) fn granted(&self) -> u32
        ensures { result ≡ (reader_of self.now).granted }
    {
        match self {
            Receiving::Open(half) => half.granted(),
            Receiving::Ended(half) => half.granted(),
            Receiving::Dead(_) => 0,
        }
    }

    pub(crate) fn owed(&self) -> u32
        ensures { result ≡ (reader_of self.now).owed }
    {
        match self {
            Receiving::Open(half) => half.owed(),
            Receiving::Ended(half) => half.owed(),
            Receiving::Dead(_) => 0,
        }
    }

    pub(crate) fn has_ended(&self) -> bool
        ensures { result ≡ (reader_of self.now).ended }
    {
        matches!(self, Receiving::Ended(_))
    }
}
