//! The read pump.

ghost use Rattle.std.specs.Prelude.{◌≡◌, ◌<◌, ◌⊎◌, length, true, false, IfErr, IsOk};
ghost use Rattle.ymx_hub.specs.Books.{Books};
ghost use Rattle.ymx_hub.specs.Releasing.{Purges};
ghost use Rattle.ymx_machine.specs.shared.Evidence.{evidence};
ghost use Rattle.ymx_connect.specs.Ends.{ReadEnd, FeedEnd};
ghost use Rattle.ymx_connect.specs.Pumps.{PumpRead};
ghost use Rattle.ymx_connect.specs.Turns.{SaysEnd, TurnFed, FedAll, TurnRead};

use crate::gate::{Gate, PumpIo};
use crate::pump_end::{PumpEnd, PumpWhy, PurgerEnd, Stop};
use std::sync::Wait;
use ymx_hub::{FedAndPurged, Hub, Purged};
use ymx_memory::RefusedAllocation;
use ymx_model::{Inlet, Why};
use ymx_seats::{Recorder, Seat};

/// The seats of a read pump: its own, and that at which it looks at streams that were released.
type ReadSeats<R> = (Seat<R>, Seat<R>);

/// Feeds once, and looks at the streams that were released. Where 1,024 answers are unsent it waits once after it.
#[tactic(auto, using(crate::proofs::Feeds::fed_whole, crate::proofs::Feeds::fed_held, crate::proofs::Feeds::fed_broken))]
fn feed_turn<R: Recorder, W: Wait, G: Gate>(
    rt: &W,
    hub: &Hub<R>,
    seats: &mut ReadSeats<R>,
    gate: &mut G,
    bytes: &[u8],
) -> Result<(usize, Purged), Stop>
    ensures fed { TurnFed R.KEEPS seats.old.0 seats.new.0 bytes.now result }
    ensures tended { Books R.KEEPS seats.old.1 seats.new.1 (Purges seats.old.1.number) }
    ensures ended { IfErr result (λ stop. FeedEnd R.KEEPS (G.has_refused gate.new) stop.why) }
{
    let (own, purger) = seats;
    let FedAndPurged { fed, purged } = match hub.feed_and_purge(rt, own, purger, bytes) {
        Ok(done) => done,
        Err(refused) => return Err(Stop::at_once(PumpWhy::Memory(refused))),
    };
    let moved = fed.taken;
    match fed.why {
        Why::All => match purged {
            Ok(purged) => Ok((moved, purged)),
            Err(refused) => Err(Stop::behind_bytes(moved, PumpWhy::Memory(refused))),
        },
        Why::Broken(fault) => Err(Stop::behind_bytes(moved, PumpWhy::Broken(fault))),
        Why::Held => match purged {
            Ok(purged) => {
                if !gate.before_wait() {
                    return Err(Stop::behind_bytes(moved, PumpWhy::Gate));
                }
                hub.wait_for_room(rt);
                Ok((moved, purged))
            }
            Err(refused) => Err(Stop::behind_bytes(moved, PumpWhy::Memory(refused))),
        },
    }
}

/// Feeds until all is taken, and answers the evidence that the streams which were released were looked at after it. At
/// the pump's end it says how many bytes were taken.
fn feed_all<R: Recorder, W: Wait, G: Gate>(
    rt: &W,
    hub: &Hub<R>,
    seats: &mut ReadSeats<R>,
    gate: &mut G,
    bytes: &[u8],
) -> Result<Purged, Stop>
    ensures fed { FedAll R.KEEPS seats.old.0 seats.new.0 bytes.now result }
    ensures tended { Books R.KEEPS seats.old.1 seats.new.1 (Purges seats.old.1.number) }
    ensures ended { IfErr result (λ stop. FeedEnd R.KEEPS (G.has_refused gate.new) stop.why) }
{
    let mut at = 0;
    for _ in rt.forever() {
        match feed_turn(rt, hub, seats, gate, &bytes[at..]) {
            Ok((taken, purged)) => {
                at += taken;
                if at == bytes.len() {
                    return Ok(purged);
                }
            }
            Err(stop) => {
                return Err(Stop {
                    moved: at as u64 + stop.moved,
                    why: stop.why,
                });
            }
        }
    }
    unreachable!()
}

/// The input has ended, for this reason.
pub(crate) fn end_input<R: Recorder, W: Wait>(
    rt: &W,
    hub: &Hub<R>,
    seat: &mut Seat<R>,
    why: PumpWhy,
) -> PumpWhy
    ensures ended { Books R.KEEPS seat.old seat.new (SaysEnd seat.old.number why result) }
    ensures reason { (result ≡ why) ⊎ ((R.KEEPS ≡ true) × (result ≡ PumpWhy.Memory evidence)) }
{
    match hub.feed_end(rt, seat) {
        Ok(()) => why,
        Err(refused) => PumpWhy::Memory(refused),
    }
}

/// One turn: reads, and feeds all of it, with the evidence that the streams which were released were looked at after it.
/// At the pump's end it says how many bytes were taken.
#[tactic(auto, using(crate::proofs::Feeds::none_tended))]
fn read_turn<R: Recorder, W: Wait, I: Inlet, G: Gate>(
    rt: &W,
    hub: &Hub<R>,
    seats: &mut ReadSeats<R>,
    lent: PumpIo<'_, I, G>,
) -> Result<(usize, Purged), Stop>
    requires { 0 < length lent.2.now }
    ensures length { length lent.exit.1.1.0.now ≡ length lent.entry.2.now }
    ensures turned { TurnRead R.KEEPS (I.failures lent.entry.0.now) (I.failures lent.exit.0.now) (I.remaining lent.entry.0.now) (I.remaining lent.exit.0.now) seats.old.0 seats.new.0 result }
    ensures tended { Books R.KEEPS seats.old.1 seats.new.1 (Purges seats.old.1.number) }
    ensures ended { IfErr result (λ stop. ReadEnd R.KEEPS (I.failures lent.entry.0.now) (I.failures lent.exit.0.now) (I.remaining lent.exit.0.now) (G.has_refused lent.exit.1.0.now) stop.why) }
{
    let PumpIo(device, gate, buffer) = lent;
    if !gate.before_read() {
        return Err(Stop::at_once(PumpWhy::Gate));
    }
    let count = match device.pull(buffer) {
        Err(_) => return Err(Stop::at_once(end_input(rt, hub, &mut seats.0, PumpWhy::Device))),
        Ok(0) => return Err(Stop::at_once(end_input(rt, hub, &mut seats.0, PumpWhy::End))),
        Ok(count) => count,
    };
    gate.after_read(count);
    match feed_all(rt, hub, seats, gate, &buffer[..count]) {
        Ok(purged) => Ok((count, purged)),
        Err(stop) => return Err(stop),
    }
}

/// The read pump, while its seats are lent. It also answers how it left the streams that were released.
pub(crate) fn read_on<R: Recorder, W: Wait, I: Inlet, G: Gate>(
    rt: &W,
    hub: &Hub<R>,
    seats: &mut ReadSeats<R>,
    lent: PumpIo<'_, I, G>,
) -> (Stop, Result<Purged, RefusedAllocation>)
    requires { 0 < length lent.2.now }
    ensures gave { PumpRead R.KEEPS (I.remaining lent.entry.0.now) (I.remaining lent.exit.0.now) seats.old.0 seats.new.0 result.0.moved result.0.why }
    ensures tended { Books R.KEEPS seats.old.1 seats.new.1 (Purges seats.old.1.number) }
    ensures off { R.KEEPS ≡ false → IsOk result.1 }
    ensures ended { ReadEnd R.KEEPS (I.failures lent.entry.0.now) (I.failures lent.exit.0.now) (I.remaining lent.exit.0.now) (G.has_refused lent.exit.1.0.now) result.0.why }
{
    let PumpIo(device, gate, buffer) = lent;
    let mut count = 0u64;
    for _ in rt.forever() {
        match read_turn(rt, hub, seats, PumpIo(device, gate, buffer)) {
            Ok((taken, _)) => count = count.saturating_add(taken as u64),
            Err(stop) => return (stop.behind(count), hub.purge(rt, &mut seats.1)),
        }
    }
    unreachable!()
}

/// Reads and feeds until the input has ended, with no lock held while it reads. Where 1,024 answers are unsent it
/// waits until some went out, and then feeds the rest. In the hold of the lock of each feed, and at its end, it looks at the
/// streams that were released, at the second seat.
///
/// It ends with `End` at the end of the input, when the reader has nothing left, and with `Device` where the reader
/// failed in this call, and then has ended the session's input; with `Broken` where the session broke; with `Gate`
/// before a read or a wait; and with `Memory` where there is none for the entry of an event, which was not done.
/// Bytes that it read and could not feed are gone, so the caller closes the session then.
pub fn read_pump<R: Recorder, W: Wait, I: Inlet, G: Gate>(
    rt: &W,
    hub: &Hub<R>,
    seats: (Seat<R>, Seat<R>),
    lent: PumpIo<'_, I, G>,
) -> (PumpEnd<R>, PurgerEnd<R>)
    requires { 0 < length lent.2.now }
    ensures gave { PumpRead R.KEEPS (I.remaining lent.entry.0.now) (I.remaining lent.exit.0.now) seats.0 result.0.seat result.0.moved result.0.why }
    // What it did of released streams stands in the list of the second seat: a stream is given up only where nothing more could come.
    ensures tended { Books R.KEEPS seats.1 result.1.seat (Purges seats.1.number) }
    // Where no entries are kept, all released streams are looked at in the end.
    ensures off { R.KEEPS ≡ false → IsOk result.1.purged }
    ensures ended { ReadEnd R.KEEPS (I.failures lent.entry.0.now) (I.failures lent.exit.0.now) (I.remaining lent.exit.0.now) (G.has_refused lent.exit.1.0.now) result.0.why }
{
    let mut seats = seats;
    let PumpIo(device, gate, buffer) = lent;
    let (stop, purged) = read_on(rt, hub, &mut seats, PumpIo(device, gate, buffer));
    let (own, seat) = seats;
    (stop.of(own), PurgerEnd { seat, purged })
}
