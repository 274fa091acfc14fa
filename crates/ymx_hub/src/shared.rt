//! What stands under the lock.

ghost use Rattle.std.specs.Prelude.{◌≡◌, ◌<◌, ◌≤◌, length, drop, true, false, IfOk, IsOk, MatchResult};
ghost use Rattle.ymx_model.specs.declared.types.Event.TheVariants as event;
ghost use Rattle.ymx_machine.specs.declared.types.Reply.TheVariants as reply;
ghost use Rattle.ymx_session.specs.Replies.{wrote_or, read_or, got_count};
ghost use Rattle.ymx_hub.specs.Answers.{IsNotMemory, GivesSome, took_count};
ghost use Rattle.ymx_hub.specs.Books.{Books, Asks, Does, to_write, to_read};
ghost use Rattle.ymx_hub.specs.Rights.{MayWrite, MayRead};

use crate::booked::Booked;
use crate::faults::HubFault;
use crate::wakeups::Waiters;
use ymx_memory::RefusedAllocation;
use ymx_model::{Fed, Got, Wrote};
use ymx_seats::{Recorder, Seat};
use ymx_session::Touched;

/// The session with its log, and who waits for what.
#[derive(Drop)]
pub(crate) struct Shared<R: Recorder> {
    pub(crate) booked: Booked<R>,
    pub(crate) waiters: Waiters,
    /// What the last feed touched.
    pub(crate) touched: Touched,
    /// A feed stopped at 1,024 unsent answers, and nothing was emitted since.
    pub(crate) is_full: bool,
    /// A write pump has given up, so that nothing goes out any more.
    pub(crate) is_mute: bool,
    /// A stream that the peer opened was rejected for lack of memory.
    pub(crate) has_lacked_memory: bool,
}

impl<R: Recorder> Shared<R> {
    /// Nobody waits, and nothing was touched.
    pub(crate) fn new(booked: Booked<R>, touched: Touched) -> Shared<R> {
        Shared {
            booked,
            waiters: Waiters::none(),
            touched,
            is_full: false,
            is_mute: false,
            has_lacked_memory: false,
        }
    }

    /// Feeds bytes that came from the peer, and notes the streams that they touch.
    pub(crate) fn feed(
        &mut self,
        seat: &mut Seat<R>,
        bytes: &[u8],
    ) -> Result<Fed, RefusedAllocation>
        ensures booked { Books R.KEEPS seat.old seat.new (Does (event.Feed bytes.now) reply.Fed seat.old.number result) }
        ensures within { IfOk result (λ fed. fed.taken ≤ length bytes.now) }
        ensures released { self.new.booked.released ≡ self.old.booked.released }
        ensures off { R.KEEPS ≡ false → IsOk result }
    {
        self.touched.clear();
        let fed = self.booked.feed(seat, bytes, &mut self.touched);
        if let Ok(fed) = &fed
            && fed.no_memory.get() > 0
        {
            self.has_lacked_memory = true;
        }
        fed
    }

    /// Reads from a stream, and notes who will wait where there is nothing to read.
    pub(crate) fn read(
        &mut self,
        seat: &mut Seat<R>,
        id: u32,
        buffer: &mut [u8],
    ) -> Result<Got, HubFault>
        requires may { R.WITNESSED ≡ true → MayRead seat.old.right id }
        ensures right { seat.new.right ≡ seat.old.right }
        ensures booked { Books R.KEEPS seat.old seat.new (Asks (to_read id (length buffer.old)) (λ given. read_or given buffer.new) seat.old.number result) }
        ensures within { IfOk result (λ got. got_count got ≤ length buffer.old) }
        ensures length { length buffer.new ≡ length buffer.old }
        ensures rest { MatchResult result (λ got. drop (got_count got) buffer.new ≡ drop (got_count got) buffer.old) (λ fault. buffer.new ≡ buffer.old) }
        ensures some { 0 < length buffer.old → IfOk result GivesSome }
        ensures released { self.new.booked.released ≡ self.old.booked.released }
        ensures off { R.KEEPS ≡ false → IsNotMemory result }
    {
        let got = self.booked.read(seat, id, buffer);
        if let Ok(Got::Wait) = got {
            self.waiters.add_reader(id);
        }
        got
    }

    /// Writes to a stream, and notes who will wait where there is no credit.
    pub(crate) fn write(
        &mut self,
        seat: &mut Seat<R>,
        id: u32,
        bytes: &[u8],
    ) -> Result<Wrote, HubFault>
        requires may { R.WITNESSED ≡ true → MayWrite seat.old.right id }
        ensures right { seat.new.right ≡ seat.old.right }
        ensures booked { Books R.KEEPS seat.old seat.new (Asks (to_write id bytes.now) wrote_or seat.old.number result) }
        ensures within { IfOk result (λ wrote. took_count wrote ≤ length bytes.now) }
        ensures released { self.new.booked.released ≡ self.old.booked.released }
    {
        let wrote = self.booked.write(seat, id, bytes);
        if let Ok(Wrote::Wait) = wrote {
            self.waiters.add_writer(id);
        }
        wrote
    }

    /// Takes those whom the last feed concerns, before which so many streams were offered.
    pub(crate) fn take_concerned(&mut self, offered_before: usize) -> Waiters {
        let mut woken = Waiters::none();
        if self.touched.is_all() {
            self.waiters.wake_streams(&mut woken);
        } else {
            for id in self.touched.ids() {
                wake_stream(&self.booked, *id, &mut self.waiters, &mut woken);
            }
        }
        let newly_offered = self.booked.offered_count().saturating_sub(offered_before);
        self.waiters.wake_acceptors(newly_offered, &mut woken);
        if self.touched.has_pong() {
            self.waiters.wake_pingers(&mut woken);
        }
        if !self.booked.due() && self.waiters.take_drainers() {
            woken.drainers = true;
        }
        woken
    }

    /// Takes all who wait.
    pub(crate) fn take_all(&mut self) -> Waiters {
        let mut woken = Waiters::none();
        self.waiters.wake_all(&mut woken);
        woken
    }
}

/// Moves who reads or writes this stream to those who are woken, if the call would no longer wait.
fn wake_stream<R: Recorder>(
    booked: &Booked<R>,
    id: u32,
    waiters: &mut Waiters,
    woken: &mut Waiters,
) {
    if waiters.has_reader(id) && !booked.read_waits(id) {
        waiters.wake_reader(id, woken);
    }
    if waiters.has_writer(id) && !booked.write_waits(id) {
        waiters.wake_writer(id, woken);
    }
}
