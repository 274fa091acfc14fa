//! The receiving half of a stream, until its end arrives and after it.

ghost use Rattle.std.specs.Prelude.{◌≡◌, ◌+◌, ◌<◌, ◌≤◌, ◌++◌, length, take, drop, min, IfOk};
ghost use Rattle.ymx_machine.specs.shared.Limits.{first_credit, widest_window};
ghost use Rattle.ymx_model.specs.session.Records.{new_reader, reader_arrive, reader_read, reader_announce, reader_end, reader_empty};
ghost use Rattle.ymx_half.specs.Passing.{reader_pass};

use crate::{DeadHalf, FIRST_CREDIT, Kind, Open, Over};
use std::alloc::Global;
use std::marker::{Model, PhantomData};
use ymx_credit::Debt;
use ymx_memory::RefusedAllocation;
use ymx_ring::{Pool, Ring};

/// A receiving half, whose end has arrived or not (flow control). `RecvHalf` and `EndedHalf` are its two kinds.
///
/// A contract sees the bytes that came and were not read, how many bytes the peer may still send, and
/// how many were read and not yet announced to it. Until the end has arrived these are together always the window,
/// so whatever the peer may send has room.
#[derive(Drop)]
pub struct ReceivingHalf<K: Kind> {
    unread: Ring,
    granted: u32,
    debt: Debt,
    kind: PhantomData<K>,
}

/// A receiving half whose end has not arrived.
pub type RecvHalf = ReceivingHalf<Open>;

/// A receiving half whose end has arrived. What is unread can still be read. Nothing more comes, and so
/// no credit is returned.
pub type EndedHalf = ReceivingHalf<Over>;

impl<K: Kind> Model for ReceivingHalf<K> {
    ghost use Rattle.ymx_model.specs.session.Records.{Reader};

    ghost Value = { Reader };

    ghost use Rattle.ymx_half.specs.Windows.{reader_with, KeepsWindow};

    ghost view = { λ half. reader_with half.unread half.granted half.debt K.OVER };

    ghost invariant = { λ half. KeepsWindow half.unread half.granted half.debt K.OVER };
}

impl ReceivingHalf<Open> {
    /// Makes the half of a new stream, with memory for the whole window, in bytes: 262,144 to 16,777,216. The
    /// peer may send 262,144 bytes at first, and what the window has beyond these is owed to it. Without the
    /// memory it answers `RefusedAllocation`.
    ///
    /// Example: of a window of 1,048,576 bytes 786,432 are owed from the start.
    pub fn new(alloc: Global, pool: &mut Pool, window: u32) -> Result<RecvHalf, RefusedAllocation>
        requires narrowest { first_credit ≤ window }
        requires widest { window ≤ widest_window }
        ensures { IfOk result (λ half. half ≡ new_reader window) }
    {
        let unread = Ring::new_pooled(alloc, pool, window as usize)?;
        Ok(ReceivingHalf {
            unread,
            granted: FIRST_CREDIT,
            debt: Debt::starting(window, window - FIRST_CREDIT),
            kind: PhantomData,
        })
    }

    /// These bytes come. They are no more than the peer may send, and so there is room for them.
    pub fn arrive(&mut self, pool: &mut Pool, bytes: &[u8])
        requires { length bytes.now ≤ self.old.granted }
        ensures { self.new ≡ reader_arrive bytes.now self.old }
    {
        self.unread.put_pooled(pool, bytes);
        self.granted -= bytes.len() as u32;
    }

    /// These bytes come and are read at once, and so they are owed. They are no more than the peer may send. The unread
    /// bytes stay as they are: none of these is put among them.
    pub fn pass(&mut self, bytes: &[u8])
        requires { length bytes.now ≤ self.old.granted }
        ensures { self.new ≡ reader_pass (length bytes.now) self.old }
    {
        let granted = self.granted;
        let count = bytes.len() as u32;
        self.granted = granted - count;
        self.debt.read(count);
    }

    /// The peer's end has arrived.
    pub fn end(self) -> EndedHalf
        ensures { result ≡ reader_end self }
    {
        let ReceivingHalf {
            unread,
            granted,
            debt,
            ..
        } = self;
        ReceivingHalf {
            unread,
            granted,
            debt,
            kind: PhantomData,
        }
    }
}

impl ReceivingHalf<Over> {
    /// What is unread is dropped: the stream is given up.
    pub fn empty(&mut self, pool: &mut Pool)
        ensures { self.new ≡ reader_empty self.old }
    {
        self.unread.go_idle(pool);
    }
}

impl<K: Kind> ReceivingHalf<K> {
    /// Moves the first unread bytes into `buffer`, as many as are there and fit, and returns their
    /// number. They are owed to the peer from then on. The rest of `buffer` stays as it was. Where nothing is
    /// unread, and the end has arrived, it is reached.
    pub fn read(&mut self, pool: &mut Pool, buffer: &mut [u8]) -> usize
        ensures count { result ≡ min (length buffer.old) (length self.old.unread) }
        ensures gave { buffer.new ≡ take result self.old.unread ++ drop result buffer.old }
        ensures after { self.new ≡ reader_read result self.old }
    {
        let count = self.unread.take_pooled(pool, buffer);
        self.debt.read(count as u32);
        count
    }

    /// The unread bytes, as they lie in the ring: those up to the end of its block, and those that wrap round it. None is
    /// taken out.
    pub fn unread(&self) -> (&[u8], &[u8])
        ensures all { result.0.now ++ result.1.now ≡ self.now.unread }
    {
        self.unread.slices()
    }

    /// Drops the first `count` unread bytes, or as many as are there, as a read of them would take them out, and
    /// returns their number.
    pub fn consume(&mut self, pool: &mut Pool, count: usize) -> usize
        ensures count { result ≡ min count (length self.old.unread) }
        ensures after { self.new ≡ reader_read result self.old }
    {
        let taken = count.min(self.unread.len());
        self.unread.skip_pooled(pool, taken);
        self.debt.read(taken as u32);
        taken
    }

    /// `n` of the owed bytes (all, if they are fewer) are announced: the peer may send them from now on.
    /// The frame that opens or accepts the stream says the window even where the peer has ended already.
    ///
    /// Example: a window of 1,048,576 bytes is announced by the frame that opens or accepts the stream,
    /// with `n` 786,432; the peer may then send 1,048,576 bytes.
    pub fn announce(&mut self, n: u32)
        ensures { self.new ≡ reader_announce n self.old }
    {
        let announced = n.min(self.debt.owed());
        self.debt.announced_part(announced);
        self.granted += announced;
    }

    /// Gives a block back of which more memory is in use than the unread bytes need, for a fresh one. The half stays as it
    /// was. True where it did; it doesn't without memory for the fresh one.
    pub fn shrink(&mut self) -> bool
        ensures { self.new ≡ self.old }
    {
        let capacity = self.unread.capacity();
        self.unread.renew(capacity)
    }

    /// The stream is reset: the unread bytes are dropped, and `pool` has their block for the next stream.
    pub fn reset(self, pool: &mut Pool) -> DeadHalf {
        let ReceivingHalf { unread, .. } = self;
        unread.end(pool);
        DeadHalf
    }

    /// How many bytes wait to be read.
    pub fn unread_len(&self) -> usize
        ensures { result ≡ length self.now.unread }
    {
        self.unread.len()
    }

    /// How many bytes the peer may still send, or could have sent before its end.
    pub fn granted(&self) -> u32
        ensures { result ≡ self.now.granted }
    {
        self.granted
    }

    /// How many bytes were read and not yet announced.
    pub fn owed(&self) -> u32
        ensures { result ≡ self.now.owed }
    {
        self.debt.owed()
    }
}
