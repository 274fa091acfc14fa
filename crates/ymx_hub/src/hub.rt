//! The hub, and its calls that wait for nothing but the lock.

ghost use Rattle.std.specs.Prelude.{◌≡◌, List, [], true, false, IfOk, IfErr, MatchResult};
ghost use Rattle.std.specs.List.Sorted.{IsPermutation};
ghost use Rattle.ymx_session.specs.Replies.{done_or};
ghost use Rattle.ymx_seats.specs.Tallies.{Tallies};
ghost use Rattle.ymx_seats.specs.Transcripts.{IsNew};
ghost use Rattle.ymx_seats.specs.Views.{SeatView, IsNewcomer};
ghost use Rattle.ymx_hub.specs.Booked.{config_of};
ghost use Rattle.ymx_hub.specs.Rights.{MayWrite, HaveHalves, SaysSole};
ghost use Rattle.ymx_hub.specs.Shown.{IsShown};
ghost use Rattle.ymx_hub.specs.Answers.{IsNotMemory, IsSeatFault};
ghost use Rattle.ymx_hub.specs.Books.{Books, Asks, Opens, OpensWith, Spends, Closes, to_finish, to_reset, to_go_away, to_close};

use crate::awaiting::take_lock;
use crate::booked::Booked;
use crate::end_fault::EndFault;
use crate::faults::HubFault;
use crate::shared::Shared;
use crate::wakeups::Wakeups;
use std::alloc::Global;
use std::sync::{Arc, Mutex, MutexGuard, Wait};
use ymx_memory::RefusedAllocation;
use ymx_seats::{NewJournal, Parked, Recorder, Seat, Transcript};
use ymx_session::{Session, Touched};

/// A session under one lock. What its recorder keeps of it is, whenever the lock is free, the history of the session.
#[derive(Drop)]
pub struct Hub<R: Recorder> {
    pub(crate) shared: Mutex<Shared<R>>,
    pub(crate) wakeups: Wakeups,
}

/// The seats of those who run a session by one call, none of which is taken yet.
#[derive(Drop)]
pub struct FirstSeats<R: Recorder> {
    /// Of who works with the session.
    pub caller: Parked<R>,
    /// Of the read pump.
    pub reader: Parked<R>,
    /// Of the read pump, for the streams that are released.
    pub purger: Parked<R>,
    /// Of the write pump.
    pub writer: Parked<R>,
    /// Of who closes the session where a pump can't run.
    pub closer: Parked<R>,
}

impl<R: Recorder> Hub<R> {
    /// A hub round a session that has done nothing, by a recorder that has no journal. `RefusedAllocation` where there is no memory
    /// for it: both are dropped then.
    pub fn new(
        alloc: Global,
        session: Session,
        recorder: R,
    ) -> Result<Arc<Hub<R>>, RefusedAllocation>
        requires new { IsNew session }
        requires unwitnessed { R.WITNESSED ≡ false }
    {
        let _ = recorder;
        Hub::over(alloc, Booked::new(alloc, session)?)
    }

    /// A hub round a session that has done nothing, with the journal that this opens. The recorder names the journal, and
    /// the role and the config of the session. `RefusedAllocation` where there is no memory for it: both are dropped then.
    pub fn witnessed(
        alloc: Global,
        session: Session,
        opened: NewJournal,
    ) -> Result<Arc<Hub<R>>, RefusedAllocation>
        requires new { IsNew session }
        requires witnessed { R.WITNESSED ≡ true }
        requires named { opened ≡ R.table }
        requires role { session.role ≡ R.role }
        requires config { config_of session ≡ R.config }
    {
        Hub::over(alloc, Booked::witnessed(alloc, session, opened)?)
    }

    /// `witnessed`, with the first seats of this hub, none of which has made a call.
    pub fn witnessed_with_seats(
        alloc: Global,
        session: Session,
        opened: NewJournal,
    ) -> Result<(Arc<Hub<R>>, FirstSeats<R>), RefusedAllocation>
        requires new { IsNew session }
        requires witnessed { R.WITNESSED ≡ true }
        requires named { opened ≡ R.table }
        requires role { session.role ≡ R.role }
        requires config { config_of session ≡ R.config }
        ensures caller { IfOk result (λ made. IsNewcomer made.1.caller.number made.1.caller.seen) }
        ensures reader { IfOk result (λ made. IsNewcomer made.1.reader.number made.1.reader.seen) }
        ensures writer { IfOk result (λ made. IsNewcomer made.1.writer.number made.1.writer.seen) }
    {
        let mut booked = Booked::witnessed(alloc, session, opened)?;
        let seats = first_seats(&mut booked);
        match Hub::over(alloc, booked) {
            Ok(hub) => Ok((hub, seats)),
            Err(refused) => Err(refused),
        }
    }

    /// A hub over what is booked, at which nobody waits.
    fn over(alloc: Global, booked: Booked<R>) -> Result<Arc<Hub<R>>, RefusedAllocation> {
        let touched = match Touched::new(alloc) {
            Ok(made) => made,
            Err(refused) => {
                // by a call, so that the drop of its parts is not proved here
                drop(booked);
                return Err(refused);
            }
        };
        let hub = Hub {
            shared: Mutex::new(Shared::new(booked, touched)),
            wakeups: Wakeups::new(),
        };
        ymx_memory::shared(alloc, hub)
    }

    /// A new seat, which has no entry; where there is a journal, none of the history that it has seen is its own. `Seats`
    /// after 4,294,967,295 of them, and `Closed` once the transcript was handed out, which is only where entries are kept.
    pub fn seat<W: Wait>(&self, rt: &W) -> Result<Seat<R>, HubFault>
        // The seat has made no call.
        ensures empty { IfOk result (λ seat. seat.entries ≡ []) }
        ensures newcomer { IfOk result (λ seat. IsNewcomer seat.number seat.seen) }
        // A refusal has one of two reasons, and memory is none of them.
        ensures refused { IfErr result (IsSeatFault R.KEEPS) }
    {
        take_lock(rt, &self.shared).booked.seat()
    }

    /// Shows the whole history so far to two seats at once, where there is a journal: both have then seen the same. So the
    /// later calls of each come after all that the other has seen. It is no event of the session.
    #[tactic(auto, using(crate::proofs::Shown::grown))]
    pub fn meet<W: Wait>(&self, rt: &W, one: &mut Seat<R>, other: &mut Seat<R>)
        // Each seat has seen all that it had seen before, and perhaps more; its list stays.
        ensures one { IsShown one.old one.new }
        ensures other { IsShown other.old other.new }
        // Where one has a half of a stream, nobody else has made its calls, unless another entry gave the stream too.
        ensures sole { SaysSole one.old.right one.old.number one.new.seen }
        ensures sole_other { SaysSole other.old.right other.old.number other.new.seen }
        // Both have then seen the same.
        ensures same { one.new.seen ≡ other.new.seen }
    {
        let mut shared = take_lock(rt, &self.shared);
        shared.booked.show(one);
        shared.booked.show(other);
    }

    /// `meet`, of three seats.
    #[tactic(auto, using(crate::proofs::Shown::grown))]
    pub fn meet_three<W: Wait>(
        &self,
        rt: &W,
        first: &mut Seat<R>,
        second: &mut Seat<R>,
        third: &mut Seat<R>,
    )
        // Each seat has seen all that it had seen before, and perhaps more; its list stays.
        ensures first { IsShown first.old first.new }
        ensures second { IsShown second.old second.new }
        ensures third { IsShown third.old third.new }
        // All have then seen the same.
        ensures same { (first.new.seen ≡ second.new.seen) × (first.new.seen ≡ third.new.seen) }
    {
        let mut shared = take_lock(rt, &self.shared);
        shared.booked.show(first);
        shared.booked.show(second);
        shared.booked.show(third);
    }

    /// Gives up the lock, and wakes a write pump where something is due now, and nothing was.
    pub(crate) fn unlock(&self, shared: MutexGuard<'_, Shared<R>>, was_due: bool) {
        let is_due = shared.booked.due();
        drop(shared);
        self.tell_due(was_due, is_due);
    }

    /// Wakes a write pump where something is due now, and nothing was.
    pub(crate) fn tell_due(&self, was_due: bool, is_due: bool) {
        if is_due && !was_due {
            self.wakeups.due.notify_one();
        }
    }

    /// Wakes all, as the session is lost, broken or closed.
    pub(crate) fn wake_all(&self, shared: MutexGuard<'_, Shared<R>>) {
        let mut shared = shared;
        let woken = shared.take_all();
        drop(shared);
        self.wakeups.notify(&woken);
        self.wakeups.due.notify_all();
    }

    /// Opens a stream, with a seat for each of its halves.
    pub(crate) fn open<W: Wait>(
        &self,
        rt: &W,
        seat: &mut Seat<R>,
    ) -> Result<(u32, Seat<R>, Seat<R>), HubFault>
        ensures booked { Books R.KEEPS seat.old seat.new (Opens seat.old.number result) }
        ensures empty { IfOk result (λ made. (made.1.entries ≡ []) × (made.2.entries ≡ [])) }
        ensures right { IfOk result (λ made. R.WITNESSED ≡ true → HaveHalves made.0 made.1 made.2) }
    {
        let mut shared = take_lock(rt, &self.shared);
        let was_due = shared.booked.due();
        let opened = shared.booked.open(seat);
        self.unlock(shared, was_due);
        opened
    }

    /// Opens a stream with these first bytes, with a seat for each of its halves.
    pub(crate) fn open_with<W: Wait>(
        &self,
        rt: &W,
        seat: &mut Seat<R>,
        bytes: &[u8],
    ) -> Result<(u32, usize, Seat<R>, Seat<R>), HubFault>
        ensures booked { Books R.KEEPS seat.old seat.new (OpensWith bytes.now seat.old.number result) }
        ensures empty { IfOk result (λ made. (made.2.entries ≡ []) × (made.3.entries ≡ [])) }
        ensures right { IfOk result (λ made. R.WITNESSED ≡ true → HaveHalves made.0 made.2 made.3) }
    {
        let mut shared = take_lock(rt, &self.shared);
        let was_due = shared.booked.due();
        let opened = shared.booked.open_with(seat, bytes);
        self.unlock(shared, was_due);
        opened
    }

    /// Half-closes a stream, and gives it up if its other half was spent.
    pub(crate) fn finish<W: Wait>(
        &self,
        rt: &W,
        seat: &mut Seat<R>,
        id: u32,
    ) -> Result<(), HubFault>
        requires may { R.WITNESSED ≡ true → MayWrite seat.old.right id }
        ensures right { seat.new.right ≡ seat.old.right }
        ensures booked { Books R.KEEPS seat.old seat.new (Spends (to_finish id) id seat.old.number result) }
        ensures off { R.KEEPS ≡ false → IsNotMemory result }
    {
        let mut shared = take_lock(rt, &self.shared);
        let was_due = shared.booked.due();
        let finished = shared.booked.finish(seat, id);
        self.unlock(shared, was_due);
        finished
    }

    /// Resets a stream, gives it up if its other half was spent, and wakes who waits at it.
    pub(crate) fn reset<W: Wait>(&self, rt: &W, seat: &mut Seat<R>, id: u32) -> Result<(), HubFault>
        requires may { R.WITNESSED ≡ true → MayWrite seat.old.right id }
        ensures right { seat.new.right ≡ seat.old.right }
        ensures booked { Books R.KEEPS seat.old seat.new (Spends (to_reset id) id seat.old.number result) }
        ensures off { R.KEEPS ≡ false → IsNotMemory result }
    {
        let mut shared = take_lock(rt, &self.shared);
        let was_due = shared.booked.due();
        let was_reset = shared.booked.reset(seat, id);
        self.unlock(shared, was_due);
        self.wakeups.reader(id).notify_all();
        self.wakeups.writer(id).notify_all();
        was_reset
    }

    /// Spends a half of a stream, and gives the stream up if its other half was spent.
    pub(crate) fn close_half<W: Wait>(
        &self,
        rt: &W,
        seat: &mut Seat<R>,
        id: u32,
    ) -> Result<(), HubFault>
        ensures right { seat.new.right ≡ seat.old.right }
        ensures booked { Books R.KEEPS seat.old seat.new (Closes id seat.old.number result) }
        ensures off { R.KEEPS ≡ false → IsNotMemory result }
    {
        let mut shared = take_lock(rt, &self.shared);
        let was_due = shared.booked.due();
        let closed = shared.booked.close_half(seat, id);
        self.unlock(shared, was_due);
        closed
    }

    /// Takes no more streams of the peer's. Refused, in this order, with `Closed` and `Lost`. `Memory`, and nothing is
    /// done, where there is none for the entry.
    pub fn go_away<W: Wait>(&self, rt: &W, seat: &mut Seat<R>) -> Result<(), HubFault>
        // Its one entry stands in the list of its seat, with the answer.
        ensures booked { Books R.KEEPS seat.old seat.new (Asks to_go_away done_or seat.old.number result) }
        // Where no entries are kept, it is not refused for lack of memory.
        ensures off { R.KEEPS ≡ false → IsNotMemory result }
    {
        let mut shared = take_lock(rt, &self.shared);
        let was_due = shared.booked.due();
        let said = shared.booked.go_away(seat);
        self.unlock(shared, was_due);
        said
    }

    /// Closes the session at once, and wakes all who wait: they answer `Closed`. `Memory`, and it is not closed, where
    /// there is none for the entry.
    pub fn close<W: Wait>(&self, rt: &W, seat: &mut Seat<R>) -> Result<(), HubFault>
        // Its one entry stands in the list of its seat, with the answer.
        ensures booked { Books R.KEEPS seat.old seat.new (Asks to_close done_or seat.old.number result) }
        // Where no entries are kept, it is not refused for lack of memory.
        ensures off { R.KEEPS ≡ false → IsNotMemory result }
    {
        let mut shared = take_lock(rt, &self.shared);
        let closed = shared.booked.close(seat);
        self.wake_all(shared);
        closed
    }

    /// Hands the transcript out, where entries are kept, once all seats that were given are handed in and their lists
    /// agree with it: each entry stands in it as often as in their lists, each list names its own seat, and its positions
    /// rise. Else the seats come back, perhaps in another order. From then on `seat` answers `Closed`.
    pub fn end<W: Wait>(&self, rt: &W, seats: Vec<Seat<R>>) -> Result<Transcript, EndFault<R>>
        requires { R.KEEPS ≡ true }
        ensures { MatchResult result (λ transcript. (all : List SeatView) × IsPermutation seats.items all × Tallies all transcript.entries) (λ fault. IsPermutation seats.items fault.seats.items) }
    {
        take_lock(rt, &self.shared).booked.end(seats)
    }
}

/// The first seats of what is booked.
fn first_seats<R: Recorder>(booked: &mut Booked<R>) -> FirstSeats<R>
    requires { (booked.old.given ≡ 0) × (booked.old.ended ≡ false) }
    ensures caller { IsNewcomer result.caller.number result.caller.seen }
    ensures reader { IsNewcomer result.reader.number result.reader.seen }
    ensures writer { IsNewcomer result.writer.number result.writer.seen }
{
    let Ok(caller) = booked.seat() else {
        unreachable!()
    };
    let Ok(reader) = booked.seat() else {
        unreachable!()
    };
    let Ok(purger) = booked.seat() else {
        unreachable!()
    };
    let Ok(writer) = booked.seat() else {
        unreachable!()
    };
    let Ok(closer) = booked.seat() else {
        unreachable!()
    };
    FirstSeats {
        caller: caller.into_parked(),
        reader: reader.into_parked(),
        purger: purger.into_parked(),
        writer: writer.into_parked(),
        closer: closer.into_parked(),
    }
}
