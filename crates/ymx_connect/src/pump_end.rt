//! How a pump ended.

ghost use Rattle.std.specs.Prelude.{◌≡◌, ◌+◌, ◌-◌, ◌^◌, min};

use ymx_header::Fault;
use ymx_hub::Purged;
use ymx_memory::RefusedAllocation;
use ymx_seats::{Recorder, Seat};

/// Why a pump ended.
#[derive(Clone, Copy, Debug, PartialEq, Eq)]
pub enum PumpWhy {
    /// Of a read pump: the input ended. Of a write pump: nothing more will be due, as the session is closed, lost or
    /// broken, and the writer was ended.
    End,
    /// The device failed in this call. The session was told that its input ended.
    Device,
    /// The session broke: of a read pump alone.
    Broken(Fault),
    /// There was no memory for an entry. It holds the evidence: an allocation was refused.
    Memory(RefusedAllocation),
    /// The gate said so.
    Gate,
    /// No thread could be made for the pump, which has done nothing: of the write pump of both alone.
    NoThread,
}

/// The end of a pump.
pub struct PumpEnd<R: Recorder> {
    /// The pump's seat.
    pub seat: Seat<R>,
    /// How many bytes the writer took, or the feeds did; it stays at the greatest `u64`.
    pub moved: u64,
    /// Why it ended.
    pub why: PumpWhy,
}

/// The end of a read pump's look at the streams that were released.
pub struct PurgerEnd<R: Recorder> {
    /// The seat at which it looked.
    pub seat: Seat<R>,
    /// The evidence that each stream that was still released waited in the end; or there was no memory for an entry.
    pub purged: Result<Purged, RefusedAllocation>,
}

/// Why a pump stops while its seat is lent.
#[derive(Drop)]
pub(crate) struct Stop {
    /// How many bytes were moved before: written, or taken by feeds. Of a whole pump it stays at the greatest `u64`.
    pub(crate) moved: u64,
    /// Why.
    pub(crate) why: PumpWhy,
}

impl Stop {
    /// Before anything was moved.
    pub(crate) fn at_once(why: PumpWhy) -> Stop
        ensures { result ≡ record { moved = 0; why = why } }
    {
        Stop { moved: 0, why }
    }

    /// After so many bytes, which were moved.
    pub(crate) fn behind_bytes(moved: usize, why: PumpWhy) -> Stop
        ensures { result ≡ record { moved = moved; why = why } }
    {
        Stop {
            moved: moved as u64,
            why,
        }
    }

    /// The same, after so many bytes that were moved before.
    pub(crate) fn behind(self, moved: u64) -> Stop
        ensures { result ≡ record { moved = min (moved + self.moved) (2 ^ 64 - 1); why = self.why } }
    {
        Stop {
            moved: moved.saturating_add(self.moved),
            why: self.why,
        }
    }

    /// The end of the pump of this seat.
    pub(crate) fn of<R: Recorder>(self, seat: Seat<R>) -> PumpEnd<R>
        ensures { result ≡ record { seat = seat; moved = self.moved; why = self.why } }
    {
        let Stop { moved, why } = self;
        PumpEnd { seat, moved, why }
    }
}
