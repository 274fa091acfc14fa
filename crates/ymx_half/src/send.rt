//! The sending half of a stream, until it is finished and after that.

ghost use Rattle.std.specs.Prelude.{◌≡◌, ◌+◌, ◌≤◌, ◌++◌, [], false, length, take, drop, min, IsOk, IfOk, OnErr};
ghost use Rattle.ymx_machine.specs.shared.Limits.{first_credit, greatest_number};
ghost use Rattle.ymx_model.specs.session.Records.{new_writer, writer_write, writer_send, writer_grant, writer_finish, writer_begin_fin};

use crate::{DeadHalf, FIRST_CREDIT, Kind, Open, Over};
use std::alloc::Global;
use std::marker::{Model, PhantomData};
use ymx_credit::Credit;
use ymx_memory::RefusedAllocation;
use ymx_ring::{Pool, Ring};

/// A sending half, which was finished or not (flow control). `SendHalf` and `DoneHalf` are its two kinds.
///
/// A contract sees the credit, which is how many bytes may still be written, the bytes that were
/// written and belong to no frame yet, and whether the end went out.
#[derive(Drop)]
pub struct SendingHalf<K: Kind> {
    credit: Credit,
    unsent: Ring,
    fin_sent: bool,
    kind: PhantomData<K>,
}

/// A sending half to which bytes may still be written.
pub type SendHalf = SendingHalf<Open>;

/// A sending half that was finished: its unsent bytes still go out, and then its end. Nothing is
/// written to it.
pub type DoneHalf = SendingHalf<Over>;

impl<K: Kind> Model for SendingHalf<K> {
    ghost use Rattle.ymx_model.specs.session.Records.{Writer};

    ghost Value = { Writer };

    ghost use Rattle.ymx_half.specs.Unsent.{writer_with, KeepsUnsent};

    ghost view = { λ half. writer_with half.credit half.unsent K.OVER half.fin_sent };

    ghost invariant = { λ half. KeepsUnsent half.unsent K.OVER half.fin_sent };
}

impl SendingHalf<Open> {
    ghost use Rattle.ymx_half.specs.Through.{writer_spend};

    /// Makes the half of a new stream: 262,144 bytes may be written, and there is memory for so many
    /// unsent ones. Without that memory it answers `RefusedAllocation`.
    pub fn new(alloc: Global, pool: &mut Pool) -> Result<SendHalf, RefusedAllocation>
        ensures { IfOk result (λ half. half ≡ new_writer) }
    {
        let unsent = Ring::new_pooled(alloc, pool, FIRST_CREDIT as usize)?;
        Ok(SendingHalf {
            credit: Credit::new(FIRST_CREDIT),
            unsent,
            fin_sent: false,
            kind: PhantomData,
        })
    }

    /// Takes the first bytes that the credit allows, and returns their number.
    ///
    /// Takes memory only where more than 262,144 bytes would be unsent, which needs a peer that granted
    /// more. Without that memory it answers `RefusedAllocation`, and nothing has changed.
    ///
    /// Example: of 300,000 bytes a new half takes 262,144. The next write takes none, until the peer
    /// grants more.
    pub fn write(&mut self, pool: &mut Pool, bytes: &[u8]) -> Result<usize, RefusedAllocation>
        ensures took_min { IfOk result (λ count. count ≡ min (length bytes.now) self.old.credit) }
        ensures wrote { IfOk result (λ count. self.new ≡ writer_write (take count bytes.now) self.old) }
        ensures in_room { length self.old.unsent + min (length bytes.now) self.old.credit ≤ first_credit → IsOk result }
        ensures refused_unchanged { OnErr result (self.new ≡ self.old) }
    {
        let count = bytes.len().min(self.credit.left() as usize);
        let capacity = self.unsent.capacity();
        let needed = self.unsent.len() + count;
        // Twice as much at once, so that many small writes don't each move all unsent bytes.
        if needed > capacity && self.unsent.grow(needed.max(2 * capacity)).is_err() {
            self.unsent.grow(needed)?;
        }
        self.unsent.put_pooled(pool, &bytes[..count]);
        self.credit.spend(count as u32);
        Ok(count)
    }

    /// Bytes are written and go into a frame at once, and so their credit is spent. They are no more than may be
    /// written. The unsent bytes stay as they are: none of these is put among them.
    pub fn spend(&mut self, count: u32)
        requires { count ≤ self.old.credit }
        ensures { self.new ≡ writer_spend count self.old }
    {
        self.credit.spend(count);
    }

    /// Nothing more is written (half-close): the unsent bytes go out, and then the end.
    pub fn finish(self) -> DoneHalf
        ensures { result ≡ writer_finish self }
    {
        let SendingHalf {
            credit,
            unsent,
            fin_sent,
            ..
        } = self;
        SendingHalf {
            credit,
            unsent,
            fin_sent,
            kind: PhantomData,
        }
    }
}

impl SendingHalf<Over> {
    /// The frame with FIN begins (half-close): once, and after the last byte.
    pub fn begin_fin(&mut self)
        requires all_sent { self.old.unsent ≡ [] }
        requires once { self.old.fin_sent ≡ false }
        ensures { self.new ≡ writer_begin_fin self.old }
    {
        self.fin_sent = true;
    }

    /// Whether the frame with FIN has begun.
    pub fn is_fin_sent(&self) -> bool
        ensures { result ≡ self.now.fin_sent }
    {
        self.fin_sent
    }
}

impl<K: Kind> SendingHalf<K> {
    /// The peer lets `delta` bytes more be written (Window Update). The credit is then at most
    /// 4,294,967,295: above that the session broke (B6). A half that was
    /// finished is granted too, though nothing is written to it.
    pub fn grant(&mut self, delta: u32)
        requires { self.old.credit + delta ≤ greatest_number }
        ensures { self.new ≡ writer_grant delta self.old }
    {
        self.credit.grant(delta).unwrap();
    }

    /// Moves the next bytes of a frame out of the half into `buffer`, as many as are there and fit, and
    /// returns their number. The rest of `buffer` stays as it was.
    pub fn take(&mut self, pool: &mut Pool, buffer: &mut [u8]) -> usize
        ensures count { result ≡ min (length buffer.old) (length self.old.unsent) }
        ensures taken { buffer.new ≡ take result self.old.unsent ++ drop result buffer.old }
        ensures left { self.new ≡ writer_send result self.old }
    {
        self.unsent.take_pooled(pool, buffer)
    }

    /// Gives a block back of which more memory is in use than the unsent bytes need, or which is wider than the first
    /// credit and they, for a fresh one. The half stays as it was. True where it did; it doesn't without memory for the
    /// fresh one.
    pub fn shrink(&mut self) -> bool
        ensures { self.new ≡ self.old }
    {
        let capacity = self.unsent.len().max(FIRST_CREDIT as usize);
        self.unsent.renew(capacity)
    }

    /// The stream is reset: the unsent bytes and the end are dropped, and `pool` has their block for the next
    /// stream.
    pub fn reset(self, pool: &mut Pool) -> DeadHalf {
        let SendingHalf { unsent, .. } = self;
        unsent.end(pool);
        DeadHalf
    }

    /// How many bytes may still be written.
    pub fn credit(&self) -> u32
        ensures { result ≡ self.now.credit }
    {
        self.credit.left()
    }

    /// How many bytes belong to no frame yet.
    pub fn unsent_len(&self) -> usize
        ensures { result ≡ length self.now.unsent }
    {
        self.unsent.len()
    }
}
