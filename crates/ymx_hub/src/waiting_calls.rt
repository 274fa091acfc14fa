//! Calls that wait. Each turn is one event, and so one entry.

ghost use Rattle.std.specs.Prelude.{◌≡◌, ◌⊎◌, ◌<◌, ◌≤◌, length, drop, true, false, IfOk, IfErr, IfSome, MatchResult};
ghost use Rattle.ymx_hub.specs.Answers.{IsNotMemory};
ghost use Rattle.ymx_hub.specs.Books.{Books};
ghost use Rattle.ymx_machine.specs.declared.types.Reply.TheVariants as reply;
ghost use Rattle.ymx_model.specs.session.Sessions.{Session};
ghost use Rattle.ymx_model.specs.session.Emissions.{is_ready};
ghost use Rattle.ymx_hub.specs.WholeHistories.{IsHistoryOf};
ghost use Rattle.ymx_hub.specs.Rights.{MayWrite, MayRead, HaveHalves};
ghost use Rattle.ymx_hub.specs.Shown.{IsShown};
ghost use Rattle.ymx_hub.specs.Turns.{AcceptsInTurns, ReadTurns, EndsIn, PingTurns, WriteTurns};

use crate::awaiting::{await_wakeup, take_lock};
use crate::faults::HubFault;
use crate::hub::Hub;
use crate::undrained::Undrained;
use crate::write_fault::WriteFault;
use std::sync::Wait;
use ymx_model::{CallFault, Got, Wrote};
use ymx_seats::{Recorder, Seat};

impl<R: Recorder> Hub<R> {
    /// Waits for an offered stream, and gives a seat for each of its halves. `None` if there will be none.
    pub(crate) fn accept<W: Wait>(
        &self,
        rt: &W,
        seat: &mut Seat<R>,
    ) -> Result<Option<(u32, Seat<R>, Seat<R>)>, HubFault>
        ensures right { IfOk result (λ given. IfSome given (λ made. R.WITNESSED ≡ true → HaveHalves made.0 made.1 made.2)) }
        ensures booked { Books R.KEEPS seat.old seat.new (AcceptsInTurns seat.old.number result) }
    {
        let mut was_woken = false;
        let mut shared = take_lock(rt, &self.shared);
        for _ in rt.forever() {
            let was_due = shared.booked.due();
            match shared.booked.accept(seat) {
                Ok(Some(offer)) => {
                    self.unlock(shared, was_due);
                    return Ok(Some(offer));
                }
                Ok(None) => {
                    shared.waiters.add_acceptor();
                    shared = self.wakeups.offered.wait(rt, shared);
                    shared.waiters.remove_acceptor();
                    was_woken = true;
                }
                Err(fault) => {
                    let refused = none_or(fault);
                    if was_woken && refused.is_err() {
                        // The stream is still offered, and another may have memory for it.
                        self.wakeups.offered.notify_one();
                    }
                    return refused;
                }
            }
        }
        unreachable!()
    }

    /// Waits for bytes of a stream, and moves them to the front of the buffer. 0 is the end.
    pub(crate) fn read<W: Wait>(
        &self,
        rt: &W,
        seat: &mut Seat<R>,
        id: u32,
        buffer: &mut [u8],
    ) -> Result<usize, HubFault>
        requires room { 0 < length buffer.old }
        requires may { R.WITNESSED ≡ true → MayRead seat.old.right id }
        ensures right { seat.new.right ≡ seat.old.right }
        ensures booked { Books R.KEEPS seat.old seat.new (ReadTurns id (length buffer.old) buffer.new seat.old.number result) }
        ensures end { IfOk result (λ count. count ≡ 0 → Books R.KEEPS seat.old seat.new (EndsIn (λ told. told ≡ reply.ReadEnd))) }
        ensures within { IfOk result (λ count. count ≤ length buffer.old) }
        ensures length { length buffer.new ≡ length buffer.old }
        ensures rest { MatchResult result (λ count. drop count buffer.new ≡ drop count buffer.old) (λ fault. buffer.new ≡ buffer.old) }
        ensures off { R.KEEPS ≡ false → IsNotMemory result }
    {
        let mut shared = take_lock(rt, &self.shared);
        for _ in rt.forever() {
            let was_due = shared.booked.due();
            match shared.read(seat, id, buffer) {
                Ok(Got::Bytes(count)) => {
                    self.unlock(shared, was_due);
                    return Ok(count);
                }
                Ok(Got::End) => return Ok(0),
                Ok(Got::Wait) => {
                    shared = await_wakeup(
                        rt,
                        self.wakeups.reader(id),
                        &self.wakeups.budgets.reading,
                        &self.wakeups.budgets.all,
                        shared,
                    );
                }
                Err(fault) => return Err(fault),
            }
        }
        unreachable!()
    }

    /// Writes all bytes to a stream, and waits for credit.
    pub(crate) fn write_all<W: Wait>(
        &self,
        rt: &W,
        seat: &mut Seat<R>,
        id: u32,
        bytes: &[u8],
    ) -> Result<(), WriteFault>
        requires may { R.WITNESSED ≡ true → MayWrite seat.old.right id }
        ensures right { seat.new.right ≡ seat.old.right }
        ensures booked { Books R.KEEPS seat.old seat.new (WriteTurns id bytes.now seat.old.number result) }
        ensures within { IfErr result (λ stop. stop.taken ≤ length bytes.now) }
    {
        let mut taken = 0;
        let mut shared = take_lock(rt, &self.shared);
        for _ in rt.forever() {
            let was_due = shared.booked.due();
            match shared.write(seat, id, &bytes[taken..]) {
                Ok(Wrote::Took(count)) => {
                    taken += count;
                    if taken == bytes.len() {
                        self.unlock(shared, was_due);
                        return Ok(());
                    }
                    self.tell_due(was_due, shared.booked.due());
                }
                Ok(Wrote::Wait) => {
                    shared = await_wakeup(
                        rt,
                        self.wakeups.writer(id),
                        &self.wakeups.budgets.writing,
                        &self.wakeups.budgets.all,
                        shared,
                    );
                }
                Err(fault) => return Err(WriteFault { taken, fault }),
            }
        }
        unreachable!()
    }

    /// Pings the peer, waits for the answer, and returns the ping's number.
    ///
    /// Refused with `Closed`, `Lost`, and `PingsPending` while 16 pings wait; while it waits with `Closed` or `Lost`.
    /// `Memory` where there is none for an entry; the ping may then have been asked already.
    pub fn ping<W: Wait>(&self, rt: &W, seat: &mut Seat<R>) -> Result<u32, HubFault>
        // The entries of the ping, and of each look for its answer, stand in the list of its seat, in their order.
        ensures booked { Books R.KEEPS seat.old seat.new (PingTurns seat.old.number result) }
        // Where no entries are kept, it is not refused for lack of memory.
        ensures off { R.KEEPS ≡ false → IsNotMemory result }
    {
        let mut shared = take_lock(rt, &self.shared);
        let was_due = shared.booked.due();
        let number = match shared.booked.ping(seat) {
            Ok(number) => number,
            Err(fault) => return Err(fault),
        };
        self.tell_due(was_due, shared.booked.due());
        for _ in rt.forever() {
            match shared.booked.ponged(seat, number) {
                Ok(true) => return Ok(number),
                Ok(false) => {
                    shared.waiters.pingers = true;
                    shared = await_wakeup(
                        rt,
                        &self.wakeups.ponged,
                        &self.wakeups.budgets.pinging,
                        &self.wakeups.budgets.all,
                        shared,
                    );
                }
                Err(fault) => return Err(fault),
            }
        }
        unreachable!()
    }

    /// Waits until nothing is due. It is no event of the session. Where there is a journal, it shows the whole history to
    /// the seat in the hold of the lock in which it looks, so what it answers is of the session that this history leads to.
    ///
    /// `Undrained`: something is due, and a write pump of this hub has ended with `Device` or `Memory`, so that nothing
    /// goes out any more.
    #[tactic(auto, using(crate::proofs::Shown::grown))]
    pub fn drain<W: Wait>(&self, rt: &W, seat: &mut Seat<R>) -> Result<(), Undrained>
        // The list of the seat stays, and it has seen all that it had seen before.
        ensures shown { IsShown seat.old seat.new }
        // The answer is of the session that the history in its sight leads to.
        ensures due { (s : Session) × IsHistoryOf R.WITNESSED R.role R.config seat.new.seen s × MatchResult result (λ _. is_ready s ≡ false) (λ _. is_ready s ≡ true) }
    {
        let mut shared = take_lock(rt, &self.shared);
        for _ in rt.forever() {
            if !shared.booked.due() {
                shared.booked.show(seat);
                return Ok(());
            }
            if shared.is_mute {
                shared.booked.show(seat);
                return Err(Undrained);
            }
            shared.waiters.drainers = true;
            shared = self.wakeups.drained.wait(rt, shared);
        }
        unreachable!()
    }
}

/// What an accept answers that was refused for this reason: `None` if there will be no more streams.
fn none_or<T>(fault: HubFault) -> Result<Option<T>, HubFault>
    ensures { MatchResult result (λ none. (none ≡ None) × ((fault ≡ HubFault.Call CallFault.Lost) ⊎ (fault ≡ HubFault.Call CallFault.Closed))) (λ same. same ≡ fault) }
{
    match fault {
        HubFault::Call(CallFault::Lost) => Ok(None),
        HubFault::Call(CallFault::Closed) => Ok(None),
        other => Err(other),
    }
}
