//! The write pump.

ghost use Rattle.std.specs.Prelude.{◌≡◌, ◌<◌, ◌⊎◌, length, Bool, true, IfOk, IfErr};
ghost use Rattle.std.specs.Io.KnownBytes.{Keeps};
ghost use Rattle.ymx_model.specs.devices.Devices.{has_failed};
ghost use Rattle.ymx_hub.specs.Books.{Books};
ghost use Rattle.ymx_hub.specs.Pumped.{EmitsNoMore};
ghost use Rattle.ymx_machine.specs.shared.Evidence.{evidence};
ghost use Rattle.ymx_connect.specs.Ends.{WriteEnd};
ghost use Rattle.ymx_connect.specs.Pumps.{PumpWrote, EndsWrite};
ghost use Rattle.ymx_connect.specs.Turns.{SaysEnd, TurnWrote, EmitsOrWakes};

use crate::gate::{Gate, PumpIo};
use crate::pump_end::{PumpEnd, PumpWhy, Stop};
use crate::reading::end_input;
use std::sync::Wait;
use ymx_hub::{Hub, Turn};
use ymx_model::{Outlet, push_all};
use ymx_seats::{Recorder, Seat};

/// The writer failed: the session is lost, and nothing goes out any more.
fn lose_writer<R: Recorder, W: Wait>(rt: &W, hub: &Hub<R>, seat: &mut Seat<R>) -> PumpWhy
    ensures ended { Books R.KEEPS seat.old seat.new (SaysEnd seat.old.number PumpWhy.Device result) }
    ensures reason { (result ≡ PumpWhy.Device) ⊎ ((R.KEEPS ≡ true) × (result ≡ PumpWhy.Memory evidence)) }
{
    let why = end_input(rt, hub, seat, PumpWhy::Device);
    hub.mute(rt);
    why
}

/// Nothing more will be due: ends the writer.
fn end_writer<R: Recorder, W: Wait, O: Outlet>(
    rt: &W,
    hub: &Hub<R>,
    seat: &mut Seat<R>,
    writer: &mut O,
) -> PumpWhy
    ensures kept { Keeps (O.contents writer.old) (O.contents writer.new) }
    ensures ended { Books R.KEEPS seat.old seat.new (EndsWrite seat.old.number result) }
    ensures unseen { result ≡ PumpWhy.End → seat.new ≡ seat.old }
    ensures reason { (has_refused : Bool) → WriteEnd R.KEEPS (O.failures writer.old) (O.failures writer.new) (O.is_ended writer.new) has_refused result }
{
    match writer.end() {
        Ok(()) => PumpWhy::End,
        Err(_) => lose_writer(rt, hub, seat),
    }
}

/// One turn: emits, and writes all of it; or waits until something is due, or nothing will be. At the pump's end it says
/// how many bytes were written.
fn write_turn<R: Recorder, W: Wait, O: Outlet, G: Gate>(
    rt: &W,
    hub: &Hub<R>,
    seat: &mut Seat<R>,
    lent: PumpIo<'_, O, G>,
) -> Result<usize, Stop>
    ensures length { length lent.exit.1.1.0.now ≡ length lent.entry.2.now }
    ensures turned { TurnWrote R.KEEPS (length lent.entry.2.now) (O.failures lent.entry.0.now) (O.failures lent.exit.0.now) (O.contents lent.entry.0.now) (O.contents lent.exit.0.now) seat.old seat.new result }
    ensures ended { IfErr result (λ stop. WriteEnd R.KEEPS (O.failures lent.entry.0.now) (O.failures lent.exit.0.now) (O.is_ended lent.exit.0.now) (G.has_refused lent.exit.1.0.now) stop.why) }
    ensures out { IfErr result (λ stop. stop.why ≡ PumpWhy.End → EmitsNoMore R.WITNESSED R.role R.config seat.new.seen) }
    ensures awake { IfOk result (λ count. EmitsOrWakes R.KEEPS R.WITNESSED R.role R.config (length lent.entry.2.now) lent.exit.1.1.0.now seat.old seat.new count) }
{
    let PumpIo(device, gate, buffer) = lent;
    let count = match hub.emit_turn(rt, seat, buffer) {
        Ok(Turn::Emitted(count)) => count,
        Ok(Turn::Idle) => {
            if !gate.before_wait() {
                return Err(Stop::at_once(PumpWhy::Gate));
            }
            hub.wait_until_due(rt, seat);
            return Ok(0);
        }
        Ok(Turn::Over) => return Err(Stop::at_once(end_writer(rt, hub, seat, device))),
        Err(refused) => {
            hub.mute(rt);
            return Err(Stop::at_once(PumpWhy::Memory(refused)));
        }
    };
    if let Err(moved) = push_all(device, &buffer[..count]) {
        return Err(Stop::behind_bytes(moved, lose_writer(rt, hub, seat)));
    }
    gate.after_write(count);
    Ok(count)
}

/// The write pump, while its seat is lent.
pub(crate) fn write_on<R: Recorder, W: Wait, O: Outlet, G: Gate>(
    rt: &W,
    hub: &Hub<R>,
    seat: &mut Seat<R>,
    lent: PumpIo<'_, O, G>,
) -> Stop
    ensures wrote { PumpWrote R.KEEPS (length lent.entry.2.now) (has_failed (O.failures lent.entry.0.now) (O.failures lent.exit.0.now)) (O.contents lent.entry.0.now) (O.contents lent.exit.0.now) seat.old seat.new result.moved result.why }
    ensures ended { WriteEnd R.KEEPS (O.failures lent.entry.0.now) (O.failures lent.exit.0.now) (O.is_ended lent.exit.0.now) (G.has_refused lent.exit.1.0.now) result.why }
    ensures out { result.why ≡ PumpWhy.End → EmitsNoMore R.WITNESSED R.role R.config seat.new.seen }
{
    let PumpIo(device, gate, buffer) = lent;
    let mut count = 0u64;
    for _ in rt.forever() {
        match write_turn(rt, hub, seat, PumpIo(device, gate, buffer)) {
            Ok(written) => count = count.saturating_add(written as u64),
            Err(stop) => return stop.behind(count),
        }
    }
    unreachable!()
}

/// Emits and writes until nothing more will be due, with no lock held while it writes, and then ends the writer.
///
/// It ends with `End` once the session is closed, or lost or broken with nothing due; with `Device` where the
/// writer failed in this call, which also ends the session's input; with `Gate` before a wait; and with `Memory`
/// where there is none for the entry of an event, which was not done.
pub fn write_pump<R: Recorder, W: Wait, O: Outlet, G: Gate>(
    rt: &W,
    hub: &Hub<R>,
    seat: Seat<R>,
    lent: PumpIo<'_, O, G>,
) -> PumpEnd<R>
    requires { 0 < length lent.2.now }
    ensures wrote { PumpWrote R.KEEPS (length lent.entry.2.now) (has_failed (O.failures lent.entry.0.now) (O.failures lent.exit.0.now)) (O.contents lent.entry.0.now) (O.contents lent.exit.0.now) seat result.seat result.moved result.why }
    ensures ended { WriteEnd R.KEEPS (O.failures lent.entry.0.now) (O.failures lent.exit.0.now) (O.is_ended lent.exit.0.now) (G.has_refused lent.exit.1.0.now) result.why }
    // It says End only where nothing is due and nothing will be, of the session that the history in the sight of its seat leads to.
    ensures out { result.why ≡ PumpWhy.End → EmitsNoMore R.WITNESSED R.role R.config result.seat.seen }
{
    let mut seat = seat;
    let PumpIo(device, gate, buffer) = lent;
    let stop = write_on(rt, hub, &mut seat, PumpIo(device, gate, buffer));
    stop.of(seat)
}
