//! What comes and what goes, with its entries.

ghost use Rattle.std.specs.Prelude.{◌≡◌, ◌≤◌, length, take, drop, false, IfOk, IsOk, MatchResult};
ghost use Rattle.ymx_model.specs.declared.types.Event.TheVariants as event;
ghost use Rattle.ymx_machine.specs.declared.types.Reply.TheVariants as reply;
ghost use Rattle.ymx_machine.specs.shared.Replies.{bytes_told};
ghost use Rattle.ymx_session.specs.Touched.{NotesChanges, NotesOnly, StaysNoted};
ghost use Rattle.ymx_hub.specs.Books.{Books, Does};
ghost use Rattle.ymx_hub.specs.Gained.{GainedAlike};
ghost use Rattle.ymx_hub.specs.Steps.{StepsTold};

use crate::booked::Booked;
use ymx_memory::RefusedAllocation;
use ymx_model::{Event, Fed, Lent, Reply};
use ymx_seats::{Recorder, Seat};
use ymx_session::Touched;

impl<R: Recorder> Booked<R> {
    /// Feeds bytes that came from the peer, and notes the streams that they touch, and an answer to a ping, after what
    /// was noted before. A stream that isn't noted then is as it was, and a stream is noted only where the end of a
    /// header of its frames, or payload of it, was among the bytes taken.
    #[tactic(auto, using(crate::proofs::History::kept_after, crate::proofs::Journals::journaled_after, crate::proofs::Journals::all_after, crate::proofs::Journals::witnessed_after, crate::proofs::Books::books_one))]
    pub fn feed(
        &mut self,
        seat: &mut Seat<R>,
        bytes: &[u8],
        touched: &mut Touched,
    ) -> Result<Fed, RefusedAllocation>
        ensures released { self.new.released ≡ self.old.released }
        ensures booked { Books R.KEEPS seat.old seat.new (Does (event.Feed bytes.now) reply.Fed seat.old.number result) }
        ensures steps { StepsTold R.KEEPS (event.Feed bytes.now) reply.Fed seat.old.number result self.old self.new }
        ensures alike { GainedAlike self.old.entries self.new.entries seat.old.entries seat.new.entries }
        ensures within { IfOk result (λ fed. fed.taken ≤ length bytes.now) }
        ensures notes { NotesChanges self.old.session self.new.session touched.new }
        ensures kept { StaysNoted touched.old touched.new }
        ensures only { MatchResult result (λ fed. NotesOnly (take fed.taken bytes.now) self.old.session touched.old touched.new) (λ fault. touched.new ≡ touched.old) }
        ensures off { R.KEEPS ≡ false → IsOk result }
    {
        let event = Event::Feed(Lent::new(bytes));
        let room = self.log.prepare(self.alloc, seat, &event, &[], 1)?;
        let fed = self.session.feed_touching(bytes, touched);
        self.log.add(seat, room, &event, told(&fed));
        Ok(fed)
    }

    /// The peer's bytes have ended.
    pub fn feed_end(&mut self, seat: &mut Seat<R>) -> Result<(), RefusedAllocation>
        ensures booked { Books R.KEEPS seat.old seat.new (Does event.FeedEnd (λ _. reply.Done) seat.old.number result) }
        ensures steps { StepsTold R.KEEPS event.FeedEnd (λ _. reply.Done) seat.old.number result self.old self.new }
        ensures alike { GainedAlike self.old.entries self.new.entries seat.old.entries seat.new.entries }
        ensures off { R.KEEPS ≡ false → IsOk result }
    {
        match self.record_event(seat, &Event::FeedEnd, &mut [])? {
            Reply::Done => Ok(()),
            _ => unreachable!(),
        }
    }

    /// Emits into the buffer as much as is due and fits, and returns how many bytes stand at its front. The rest of
    /// the buffer stays as it was.
    pub fn emit(
        &mut self,
        seat: &mut Seat<R>,
        buffer: &mut [u8],
    ) -> Result<usize, RefusedAllocation>
        ensures booked { Books R.KEEPS seat.old seat.new (Does (event.Emit (length buffer.old)) (λ count. reply.Emitted (take count buffer.new)) seat.old.number result) }
        ensures steps { StepsTold R.KEEPS (event.Emit (length buffer.old)) (λ count. reply.Emitted (take count buffer.new)) seat.old.number result self.old self.new }
        ensures alike { GainedAlike self.old.entries self.new.entries seat.old.entries seat.new.entries }
        ensures within { IfOk result (λ count. count ≤ length buffer.old) }
        ensures length { length buffer.new ≡ length buffer.old }
        ensures rest { MatchResult result (λ count. drop count buffer.new ≡ drop count buffer.old) (λ fault. buffer.new ≡ buffer.old) }
        ensures off { R.KEEPS ≡ false → IsOk result }
    {
        match self.record_event(seat, &Event::Emit(buffer.len()), buffer)? {
            Reply::Emitted(count) => Ok(count),
            _ => unreachable!(),
        }
    }
}

/// The reply of a feed.
fn told(fed: &Fed) -> Reply<Lent<'static>>
    ensures reply { result ≡ reply.Fed fed.now }
    ensures short { bytes_told result ≡ 0 }
{
    Reply::Fed(*fed)
}
