//! What a pump does in one hold of the lock. No device is touched under it.

ghost use Rattle.std.specs.Prelude.{◌≡◌, ◌≤◌, length, drop, false, IfOk, IsOk, MatchResult};
ghost use Rattle.ymx_model.specs.declared.types.Event.TheVariants as event;
ghost use Rattle.ymx_machine.specs.declared.types.Reply.TheVariants as reply;
ghost use Rattle.ymx_hub.specs.Books.{Books, Does};
ghost use Rattle.ymx_hub.specs.Pumped.{EmitsOnce, SeesTurn, IsAwake, emitted_count};
ghost use Rattle.ymx_hub.specs.Shown.{IsShown};
ghost use Rattle.ymx_hub.specs.Releasing.{Purges};

use crate::awaiting::{await_wakeup, take_lock, take_lock_at_once};
use crate::hub::Hub;
use crate::purged::Purged;
use crate::shared::Shared;
use std::sync::{MutexGuard, Wait};
use ymx_memory::RefusedAllocation;
use ymx_model::{Fed, Status, Why};
use ymx_seats::{Recorder, Seat};

/// One turn of a write pump.
#[derive(Clone, Copy, Debug, PartialEq, Eq)]
pub enum Turn {
    /// So many bytes were emitted, and stand at the front of the buffer.
    Emitted(usize),
    /// Nothing is due now.
    Idle,
    /// Nothing is due, and nothing will be: the session is closed, lost or broken.
    Over,
}

/// What a feed took, and how it left the streams that were released.
#[derive(Drop)]
pub struct FedAndPurged {
    /// What the feed took.
    pub fed: Fed,
    /// The evidence that each stream that is released waited after the feed; or there was no memory for an entry.
    pub purged: Result<Purged, RefusedAllocation>,
}

impl<R: Recorder> Hub<R> {
    /// Feeds bytes that came from the peer, and wakes whom they concern. `RefusedAllocation`, and nothing is
    /// done, where there is no memory for the entry. Streams that were released are left to `purge`.
    pub fn feed<W: Wait>(
        &self,
        rt: &W,
        seat: &mut Seat<R>,
        bytes: &[u8],
    ) -> Result<Fed, RefusedAllocation>
        // Its one entry stands in the list of its seat, with these bytes and the answer.
        ensures booked { Books R.KEEPS seat.old seat.new (Does (event.Feed bytes.now) reply.Fed seat.old.number result) }
        // It takes a beginning of the bytes.
        ensures within { IfOk result (λ fed. fed.taken ≤ length bytes.now) }
        // Where no entries are kept, it is not refused for lack of memory.
        ensures off { R.KEEPS ≡ false → IsOk result }
    {
        let mut shared = take_lock_at_once(rt, &self.shared);
        let was_due = shared.booked.due();
        let offered = shared.booked.offered_count();
        match shared.feed(seat, bytes) {
            Ok(fed) => {
                self.wake_concerned(shared, fed.why, was_due, offered);
                Ok(fed)
            }
            Err(refused) => Err(refused),
        }
    }

    /// Feeds as `feed` does, at the first seat, and in the same hold of the lock looks at the streams that were released, as
    /// `purge` does, at the second. `RefusedAllocation`, and nothing is done, where there is no memory for the entry of the
    /// feed.
    #[tactic(auto, using(crate::proofs::Released::purges_none, crate::proofs::Released::purges_among))]
    pub fn feed_and_purge<W: Wait>(
        &self,
        rt: &W,
        seat: &mut Seat<R>,
        purger: &mut Seat<R>,
        bytes: &[u8],
    ) -> Result<FedAndPurged, RefusedAllocation>
        // The one entry of the feed stands in the list of its seat, with these bytes and the answer.
        ensures booked { Books R.KEEPS seat.old seat.new (Does (event.Feed bytes.now) (λ done. reply.Fed done.fed) seat.old.number result) }
        // What it did of released streams stands in the list of the second seat: a stream is given up only where nothing more could come.
        ensures tended { Books R.KEEPS purger.old purger.new (Purges purger.old.number) }
        // It takes a beginning of the bytes.
        ensures within { IfOk result (λ done. done.fed.taken ≤ length bytes.now) }
        // Where no entries are kept, neither is refused for lack of memory.
        ensures off { R.KEEPS ≡ false → IsOk result }
        ensures off_settled { IfOk result (λ done. R.KEEPS ≡ false → IsOk done.purged) }
    {
        let mut shared = take_lock_at_once(rt, &self.shared);
        let was_due = shared.booked.due();
        let offered = shared.booked.offered_count();
        match shared.feed(seat, bytes) {
            Ok(fed) => {
                let purged = shared.purge(rt, purger);
                self.wake_concerned(shared, fed.why, was_due, offered);
                Ok(FedAndPurged { fed, purged })
            }
            Err(refused) => Err(refused),
        }
    }

    /// Gives up the lock, and wakes whom the last feed concerns, before which so many streams were offered: all, once
    /// the session no longer runs.
    fn wake_concerned(
        &self,
        shared: MutexGuard<'_, Shared<R>>,
        why: Why,
        was_due: bool,
        offered_before: usize,
    ) {
        let mut shared = shared;
        if shared.booked.status() != Status::Running {
            self.wake_all(shared);
            return;
        }
        shared.is_full = why == Why::Held;
        let woken = shared.take_concerned(offered_before);
        self.unlock(shared, was_due);
        self.wakeups.notify(&woken);
    }

    /// The peer's bytes have ended: wakes all who wait. `RefusedAllocation`, and nothing is done, where there is no
    /// memory for the entry.
    pub fn feed_end<W: Wait>(&self, rt: &W, seat: &mut Seat<R>) -> Result<(), RefusedAllocation>
        // Its one entry stands in the list of its seat.
        ensures booked { Books R.KEEPS seat.old seat.new (Does event.FeedEnd (λ _. reply.Done) seat.old.number result) }
        // Where no entries are kept, it is not refused for lack of memory.
        ensures off { R.KEEPS ≡ false → IsOk result }
    {
        let mut shared = take_lock_at_once(rt, &self.shared);
        let ended = shared.booked.feed_end(seat);
        self.wake_all(shared);
        ended
    }

    /// Waits once, unless a feed may take more than the last one did: 1,024 answers were unsent then, and nothing
    /// was emitted since.
    pub fn wait_for_room<W: Wait>(&self, rt: &W) {
        let mut shared = take_lock_at_once(rt, &self.shared);
        if shared.is_full && shared.booked.status() == Status::Running {
            shared.waiters.drainers = true;
            drop(self.wakeups.drained.wait(rt, shared));
        }
    }

    /// Emits into the buffer if something is due. The rest of the buffer stays as it was. Where nothing is due, and there
    /// is a journal, it shows the whole history to the seat, and the answer is of the session that this history leads to.
    /// `RefusedAllocation`, and nothing is done, where there is no memory for the entry.
    #[tactic(auto, using(crate::proofs::Shown::grown))]
    pub fn emit_turn<W: Wait>(
        &self,
        rt: &W,
        seat: &mut Seat<R>,
        buffer: &mut [u8],
    ) -> Result<Turn, RefusedAllocation>
        // Its one entry stands in the list of its seat, with the bytes at the front of the buffer. Where nothing is due, the list stays.
        ensures booked { EmitsOnce R.KEEPS (length buffer.old) buffer.new seat.old seat.new result }
        // The answer that nothing is due is of the session that the history in its sight leads to.
        ensures due { IfOk result (λ turn. SeesTurn R.WITNESSED R.role R.config seat.new.seen turn) }
        // After those bytes the buffer is as it was.
        ensures within { IfOk result (λ turn. emitted_count turn ≤ length buffer.old) }
        ensures length { length buffer.new ≡ length buffer.old }
        ensures rest { MatchResult result (λ turn. drop (emitted_count turn) buffer.new ≡ drop (emitted_count turn) buffer.old) (λ fault. buffer.new ≡ buffer.old) }
        // Where no entries are kept, it is not refused for lack of memory.
        ensures off { R.KEEPS ≡ false → IsOk result }
    {
        let mut shared = take_lock_at_once(rt, &self.shared);
        if !shared.booked.due() {
            shared.booked.show(seat);
            if shared.booked.status() == Status::Running {
                return Ok(Turn::Idle);
            }
            return Ok(Turn::Over);
        }
        let count = shared.booked.emit(seat, buffer)?;
        shared.is_full = false;
        let has_drainers = shared.waiters.take_drainers();
        drop(shared);
        if has_drainers {
            self.wakeups.drained.notify_all();
        }
        Ok(Turn::Emitted(count))
    }

    /// Waits until something is due, or nothing will be. It is no event of the session. Where there is a journal, it shows
    /// the whole history to the seat in the hold of the lock in which it last looked, so that what it found is of the
    /// session that this history leads to.
    #[tactic(auto, using(crate::proofs::Shown::grown))]
    pub fn wait_until_due<W: Wait>(&self, rt: &W, seat: &mut Seat<R>)
        // The list of the seat stays, and it has seen all that it had seen before.
        ensures shown { IsShown seat.old seat.new }
        // By the history in its sight something is due, or nothing will be.
        ensures due { IsAwake R.WITNESSED R.role R.config seat.new.seen }
    {
        let mut shared = take_lock(rt, &self.shared);
        for _ in rt.forever() {
            if shared.booked.due() || shared.booked.status() != Status::Running {
                shared.booked.show(seat);
                return;
            }
            shared = await_wakeup(
                rt,
                &self.wakeups.due,
                &self.wakeups.budgets.pumping,
                &self.wakeups.budgets.all,
                shared,
            );
        }
        unreachable!()
    }

    /// Notes that no write pump goes on, so that nothing goes out any more, and wakes those who drain: `drain` answers
    /// `Undrained` from then on where something is due. It is no event of the session.
    pub fn mute<W: Wait>(&self, rt: &W) {
        let mut shared = take_lock_at_once(rt, &self.shared);
        shared.is_mute = true;
        let has_drainers = shared.waiters.take_drainers();
        drop(shared);
        if has_drainers {
            self.wakeups.drained.notify_all();
        }
    }
}
