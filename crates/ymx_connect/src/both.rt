//! Both pumps at once.

ghost use Rattle.std.specs.Prelude.{◌≡◌, ◌<◌, length, false, IsOk};
ghost use Rattle.ymx_hub.specs.Books.{Books};
ghost use Rattle.ymx_hub.specs.Releasing.{Purges};
ghost use Rattle.ymx_model.specs.devices.Devices.{has_failed};
ghost use Rattle.ymx_hub.specs.Pumped.{EmitsNoMore};
ghost use Rattle.ymx_connect.specs.Ends.{ReadEnd, WriteEndOrNone};
ghost use Rattle.ymx_connect.specs.Pumps.{PumpRead, PumpWrote};

use crate::gate::{Gate, PumpIo};
use crate::pump_end::{PumpEnd, PumpWhy, PurgerEnd, Stop};
use crate::reading::read_on;
use crate::start::{Start, await_begin, begin};
use crate::writing::write_on;
use std::sync::{Mutex, Wait};
use std::thread::{Threads, join_mut};
use ymx_hub::{Hub, Purged};
use ymx_memory::RefusedAllocation;
use ymx_model::{Inlet, Outlet};
use ymx_seats::{Recorder, Seat};

/// The write pump, unless it was given up: then it does nothing, and ends with `NoThread`.
#[tactic(auto, using(crate::proofs::Ends::write_ran))]
fn write_if_begun<R: Recorder, W: Wait, O: Outlet, G: Gate>(
    rt: &W,
    start: &Mutex<Start>,
    hub: &Hub<R>,
    seat: &mut Seat<R>,
    lent: PumpIo<'_, O, G>,
) -> Stop
    ensures wrote { PumpWrote R.KEEPS (length lent.entry.2.now) (has_failed (O.failures lent.entry.0.now) (O.failures lent.exit.0.now)) (O.contents lent.entry.0.now) (O.contents lent.exit.0.now) seat.old seat.new result.moved result.why }
    ensures ended { WriteEndOrNone R.KEEPS (O.failures lent.entry.0.now) (O.failures lent.exit.0.now) (O.is_ended lent.exit.0.now) (G.has_refused lent.exit.1.0.now) result.why }
    ensures out { result.why ≡ PumpWhy.End → EmitsNoMore R.WITNESSED R.role R.config seat.new.seen }
    ensures unmoved { result.why ≡ PumpWhy.NoThread → result.moved ≡ 0 }
    ensures unbooked { result.why ≡ PumpWhy.NoThread → seat.new ≡ seat.old }
    ensures unwritten { result.why ≡ PumpWhy.NoThread → lent.exit.0.now ≡ lent.entry.0.now }
{
    if begin(rt, start) {
        let PumpIo(device, gate, buffer) = lent;
        return write_on(rt, hub, seat, PumpIo(device, gate, buffer));
    }
    hub.mute(rt);
    Stop::at_once(PumpWhy::NoThread)
}

/// Runs a read pump and a write pump at once, each in a thread, until both have ended. Gives the read pump's end,
/// how it left the streams that were released, and then the write pump's end. The seats are of the read pump, of the same
/// for those streams, and of the write pump.
///
/// The write pump ends with `NoThread`, and has done no event and written no byte, where no thread can be made for it.
pub fn run_pumps<
    R: Recorder + Send + Sync,
    W: Wait + Threads + Sync,
    I: Inlet,
    O: Outlet + Send,
    G: Gate,
    H: Gate + Send,
>(
    rt: &W,
    hub: &Hub<R>,
    seats: (Seat<R>, Seat<R>, Seat<R>),
    reading: PumpIo<'_, I, G>,
    writing: PumpIo<'_, O, H>,
) -> (PumpEnd<R>, PurgerEnd<R>, PumpEnd<R>)
    requires read_buffer { 0 < length reading.2.now }
    requires write_buffer { 0 < length writing.2.now }
    ensures gave { PumpRead R.KEEPS (I.remaining reading.entry.0.now) (I.remaining reading.exit.0.now) seats.0 result.0.seat result.0.moved result.0.why }
    // What the read pump did of released streams stands in the list of the second seat: a stream is given up only where nothing more could come.
    ensures tended { Books R.KEEPS seats.1 result.1.seat (Purges seats.1.number) }
    // Where no entries are kept, all released streams are looked at in the end.
    ensures off { R.KEEPS ≡ false → IsOk result.1.purged }
    ensures wrote { PumpWrote R.KEEPS (length writing.entry.2.now) (has_failed (O.failures writing.entry.0.now) (O.failures writing.exit.0.now)) (O.contents writing.entry.0.now) (O.contents writing.exit.0.now) seats.2 result.2.seat result.2.moved result.2.why }
    ensures read { ReadEnd R.KEEPS (I.failures reading.entry.0.now) (I.failures reading.exit.0.now) (I.remaining reading.exit.0.now) (G.has_refused reading.exit.1.0.now) result.0.why }
    ensures written { WriteEndOrNone R.KEEPS (O.failures writing.entry.0.now) (O.failures writing.exit.0.now) (O.is_ended writing.exit.0.now) (H.has_refused writing.exit.1.0.now) result.2.why }
    // The write pump says End only where nothing is due and nothing will be, of the session that the history in the sight of its seat leads to.
    ensures out { result.2.why ≡ PumpWhy.End → EmitsNoMore R.WITNESSED R.role R.config result.2.seat.seen }
    // The write pump for which no thread could be made has done no event and written no byte: its seat and its writer are as they were.
    ensures unmoved { result.2.why ≡ PumpWhy.NoThread → result.2.moved ≡ 0 }
    ensures unbooked { result.2.why ≡ PumpWhy.NoThread → result.2.seat ≡ seats.2 }
    ensures unwritten { result.2.why ≡ PumpWhy.NoThread → writing.exit.0.now ≡ writing.entry.0.now }
{
    let (own, purger, mut write_seat) = seats;
    let mut read_seats = (own, purger);
    let start = Mutex::new(Start::new());
    let PumpIo(reader, read_gate, read_buffer) = reading;
    let PumpIo(writer, write_gate, write_buffer) = writing;
    let mut read = || -> (Stop, Result<Purged, RefusedAllocation>)
        requires { 0 < length read_buffer.now }
    {
        // The write pump has begun then, or was given up.
        await_begin(rt, &start);
        let lent = PumpIo(reader, read_gate, read_buffer);
        read_on(rt, hub, &mut read_seats, lent)
    };
    let mut write = || -> Stop {
        let lent = PumpIo(writer, write_gate, write_buffer);
        write_if_begun(rt, &start, hub, &mut write_seat, lent)
    };
    let (wrote, (fed, purged)) = join_mut(rt, &mut write, &mut read);
    let (own, seat) = read_seats;
    (
        fed.of(own),
        PurgerEnd { seat, purged },
        wrote.of(write_seat),
    )
}
