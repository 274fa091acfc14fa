//! The two pumps of a session, each of which runs in a thread of its own until the session is over.

ghost use Rattle.std.specs.Prelude.{◌≡◌, ◌<◌, ◌≤◌, vec_len, true, false};
ghost use Rattle.ymx_memory.specs.Bounds.{most_zeros};
ghost use Rattle.ymx_seats.specs.Views.{IsNewcomer};
ghost use Rattle.ymx_connect.specs.Pumping.{HasRead, HasWritten};

use crate::ending::Endings;
use crate::host::Runtime;
use std::alloc::Global;
use std::snapshot::Snapshot;
use std::sync::Arc;
use std::thread::Promise;
use ymx_connect::{Gate, PumpEnd, PumpIo, PumpWhy, PurgerEnd, read_pump, write_pump};
use ymx_header::FRAME_LENGTH;
use ymx_hub::Hub;
use ymx_memory::RefusedAllocation;
use ymx_model::{Inlet, Outlet};
use ymx_seats::{Parked, Recorder, Seat};

/// Bytes that the read pump reads at once: 13 whole frames of the longest that are sent. With 16 a session would take more
/// than 600,000 bytes.
pub(crate) const READ_BUFFER: usize = 13 * FRAME_LENGTH;

/// Bytes that the write pump writes at once: 16 whole frames of the longest that are sent.
pub(crate) const WRITE_BUFFER: usize = 16 * FRAME_LENGTH;

/// What a pump moves bytes through.
#[derive(Drop)]
pub(crate) struct Buffer {
    bytes: Vec<u8>,
    ghost not_empty: { 0 < vec_len bytes },
}

impl Buffer {
    /// A buffer of this length, which isn't 0.
    pub(crate) fn new(alloc: Global, length: usize) -> Result<Buffer, RefusedAllocation>
        requires { (0 < length) × (length ≤ most_zeros) }
    {
        let bytes = ymx_memory::zeros(alloc, length)?;
        Ok(Buffer { bytes })
    }
}

/// A pump that is to run over this device, as a caller that has made no call.
#[derive(Drop)]
pub(crate) struct Pump<W: Runtime, R: Recorder, D: Drop> {
    pub(crate) rt: W,
    pub(crate) hub: Arc<Hub<R>, Global>,
    pub(crate) seat: Parked<R>,
    pub(crate) device: D,
    pub(crate) buffer: Buffer,
    /// Where it leaves its end.
    pub(crate) ends: Arc<Endings, Global>,
}

/// How a pump ended.
#[derive(Drop)]
pub(crate) struct Pumped<R: Recorder, D: Drop> {
    /// Its device, after what it moved.
    pub(crate) device: D,
    /// Why it ended.
    pub(crate) why: PumpWhy,
    /// How many bytes it moved.
    pub(crate) moved: u64,
    /// What its seat has seen.
    pub(crate) parked: Parked<R>,
}

/// What the thread of a read pump promises of this reader: it is read on from where it was.
#[derive(Drop)]
pub(crate) struct ReadsOn<I> {
    pub(crate) before: Snapshot<I>,
}

/// What the thread of a write pump promises of this writer: it is written on from where it was.
#[derive(Drop)]
pub(crate) struct WritesOn<O> {
    pub(crate) before: Snapshot<O>,
}

impl<R: Recorder, I: Inlet + Drop> Promise<Pumped<R, I>> for ReadsOn<I> {
    ghost use Rattle.std.specs.Prelude.{◌≡◌, false};
    ghost use Rattle.ymx_connect.specs.Pumping.{HasRead};

    ghost kept_by = { λ promise pumped. R.KEEPS ≡ false → HasRead (I.failures promise.before.value) (I.failures pumped.device) (I.remaining promise.before.value) (I.remaining pumped.device) pumped.moved pumped.why pumped.parked };
}

impl<R: Recorder, O: Outlet + Drop> Promise<Pumped<R, O>> for WritesOn<O> {
    ghost use Rattle.std.specs.Prelude.{◌≡◌, true, false};
    ghost use Rattle.ymx_connect.specs.Pumping.{HasWritten};

    ghost kept_by = { λ promise pumped. R.KEEPS ≡ false → R.WITNESSED ≡ true → HasWritten R.role R.config (O.failures promise.before.value) (O.failures pumped.device) (O.contents promise.before.value) (O.contents pumped.device) (O.is_ended pumped.device) pumped.moved pumped.why pumped.parked };
}

/// Lets a pump run.
#[derive(Drop)]
struct AlwaysOpen;

impl Gate for AlwaysOpen {
    ghost has_refused = { λ _. false };
}

impl<W: Runtime, R: Recorder, I: Inlet + Drop> Pump<W, R, I> {
    /// Runs the read pump until it ends. After each feed it looks at the streams that were released, at another seat.
    pub(crate) fn read(self, purger: Parked<R>) -> Pumped<R, I>
        requires { IsNewcomer self.seat.number self.seat.seen }
        ensures { R.KEEPS ≡ false → HasRead (I.failures self.device) (I.failures result.device) (I.remaining self.device) (I.remaining result.device) result.moved result.why result.parked }
    {
        let rt = self.rt;
        let Buffer { mut bytes } = self.buffer;
        let mut device = self.device;
        let seat = self.seat.into_seat(rt.alloc());
        let seats = (seat, purger.into_seat(rt.alloc()));
        let lent = PumpIo(&mut device, &mut AlwaysOpen, bytes.as_mut_slice());
        let (ended, purged) = read_pump(&rt, &*self.hub, seats, lent);
        let PurgerEnd { seat, purged: _ } = purged;
        discard(seat);
        let PumpEnd { seat, moved, why } = ended;
        self.ends.reading.tell(&rt, why);
        Pumped {
            device,
            why,
            moved,
            parked: seat.into_parked(),
        }
    }
}

impl<W: Runtime, R: Recorder, O: Outlet + Drop> Pump<W, R, O> {
    /// Runs the write pump until it ends.
    pub(crate) fn write(self) -> Pumped<R, O>
        requires { IsNewcomer self.seat.number self.seat.seen }
        ensures { R.KEEPS ≡ false → R.WITNESSED ≡ true → HasWritten R.role R.config (O.failures self.device) (O.failures result.device) (O.contents self.device) (O.contents result.device) (O.is_ended result.device) result.moved result.why result.parked }
    {
        let rt = self.rt;
        let Buffer { mut bytes } = self.buffer;
        let mut device = self.device;
        let seat = self.seat.into_seat(rt.alloc());
        let lent = PumpIo(&mut device, &mut AlwaysOpen, bytes.as_mut_slice());
        let ended = write_pump(&rt, &*self.hub, seat, lent);
        let PumpEnd { seat, moved, why } = ended;
        self.ends.writing.tell(&rt, why);
        Pumped {
            device,
            why,
            moved,
            parked: seat.into_parked(),
        }
    }
}

/// Lets a seat go, with its entries.
pub(crate) fn discard<R: Recorder>(seat: Seat<R>) {
    let _ = seat.into_entries();
}
