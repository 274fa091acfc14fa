//! The one door to the session: an event is done, and its entry kept.

ghost use Rattle.std.specs.Prelude.{◌≡◌, ◌+◌, ◌<◌, ◌≤◌, ◌++◌, length, drop, Contains, true, false, IfOk, IsOk, MatchResult};
ghost use Rattle.ymx_machine.specs.shared.Replies.{bytes_told};
ghost use Rattle.ymx_model.specs.declared.types.Event.TheVariants as asked;
ghost use Rattle.ymx_model.specs.session.Emissions.{in_turn};
ghost use Rattle.ymx_model.specs.session.Histories.{Gives};
ghost use Rattle.ymx_session.specs.Applied.{IsSizeOf, IsSizeOfCall, IsReplyTo, IsDoneBy, in_buffer, counted};
ghost use Rattle.ymx_seats.specs.EntryRooms.{IsReady};
ghost use Rattle.ymx_seats.specs.Views.{kept_entries, entry, journal_after, whole_of, HasRight, IsBehind};
ghost use Rattle.ymx_hub.specs.Answers.{IsNotMemory, TakesNone};
ghost use Rattle.ymx_hub.specs.Books.{Books, Asks, Does, told_or};
ghost use Rattle.ymx_hub.specs.Gained.{GainedAlike};
ghost use Rattle.ymx_hub.specs.Rights.{MayDo};
ghost use Rattle.ymx_hub.specs.WholeHistories.{IsHistoryOf};
ghost use Rattle.ymx_hub.specs.Steps.{StepsAsked, StepsTold, entries_after};

use crate::booked::Booked;
use crate::faults::{HubFault, hub_fault};
use ymx_memory::RefusedAllocation;
use ymx_model::{Call, Event, Lent, Reply};
use ymx_seats::{EntryRoom, Log, Recorder, Seat};
use ymx_session::Session;

impl<R: Recorder> Booked<R> {
    /// Does an event with its entry, and returns the reply, which counts its bytes: they stand at the front of the buffer,
    /// which has the size that the event names. `RefusedAllocation`, and nothing is done, where there is no memory for the
    /// entry.
    #[tactic(auto, using(crate::proofs::History::kept_after, crate::proofs::Journals::journaled_after, crate::proofs::Journals::all_after, crate::proofs::Journals::witnessed_after, crate::proofs::Books::books_one))]
    pub(crate) fn record_event(
        &mut self,
        seat: &mut Seat<R>,
        event: &Event<Lent<'_>>,
        buffer: &mut [u8],
    ) -> Result<Reply<usize>, RefusedAllocation>
        requires size { IsSizeOf event.now (length buffer.old) }
        requires may { R.WITNESSED ≡ true → MayDo (Contains self.old.released) seat.old.right event.now }
        ensures right { seat.new.right ≡ seat.old.right }
        ensures released { self.new.released ≡ self.old.released }
        ensures booked { Books R.KEEPS seat.old seat.new (Does event.now (in_buffer buffer.new) seat.old.number result) }
        ensures steps { StepsTold R.KEEPS event.now (in_buffer buffer.new) seat.old.number result self.old self.new }
        ensures alike { GainedAlike self.old.entries self.new.entries seat.old.entries seat.new.entries }
        ensures answer { IfOk result (IsReplyTo event.now) }
        ensures within { IfOk result (λ told. counted told ≤ length buffer.old) }
        ensures rest { MatchResult result (λ told. drop (counted told) buffer.new ≡ drop (counted told) buffer.old) (λ refused. buffer.new ≡ buffer.old) }
        ensures off { R.KEEPS ≡ false → IsOk result }
    {
        let room = self.log.prepare(self.alloc, seat, event, &*buffer, 1)?;
        let told = record_prepared(&mut self.log, &mut self.session, seat, room, event, buffer);
        Ok(told)
    }

    /// Makes a call with its entry, as `record_event` does, and answers its refusal as a fault.
    pub(crate) fn ask(
        &mut self,
        seat: &mut Seat<R>,
        call: Call<Lent<'_>>,
        buffer: &mut [u8],
    ) -> Result<Reply<usize>, HubFault>
        requires size { IsSizeOfCall call (length buffer.old) }
        requires may { R.WITNESSED ≡ true → MayDo (Contains self.old.released) seat.old.right (asked.Call call) }
        ensures right { seat.new.right ≡ seat.old.right }
        ensures released { self.new.released ≡ self.old.released }
        ensures booked { Books R.KEEPS seat.old seat.new (Asks (asked.Call call.entry) (told_or buffer.new) seat.old.number result) }
        ensures steps { StepsAsked R.KEEPS (asked.Call call.entry) (told_or buffer.new) seat.old.number result self.old self.new }
        ensures alike { GainedAlike self.old.entries self.new.entries seat.old.entries seat.new.entries }
        ensures answer { IfOk result (IsDoneBy call.entry) }
        ensures within { IfOk result (λ told. counted told ≤ length buffer.old) }
        ensures rest { MatchResult result (λ told. drop (counted told) buffer.new ≡ drop (counted told) buffer.old) (λ fault. buffer.new ≡ buffer.old) }
        ensures off { R.KEEPS ≡ false → TakesNone call.entry → IsNotMemory result }
    {
        let event = Event::Call(call);
        match self.record_event(seat, &event, buffer)? {
            Reply::Refused(fault) => Err(hub_fault(fault)),
            told => Ok(told),
        }
    }
}

/// Does an event whose memory is found, adds its entry, and returns the reply, which counts its bytes.
pub(crate) fn record_prepared<R: Recorder>(
    log: &mut Log<R>,
    session: &mut Session,
    seat: &mut Seat<R>,
    room: EntryRoom,
    event: &Event<Lent<'_>>,
    buffer: &mut [u8],
) -> Reply<usize>
    requires size { IsSizeOf event.now (length buffer.old) }
    requires ready { IsReady R.KEEPS room event.now (length buffer.old) }
    requires room { R.KEEPS ≡ true → (0 < log.old.room) × (0 < seat.old.room) }
    requires history { IsHistoryOf R.WITNESSED R.role R.config (whole_of log.old.journal) session.old }
    ensures event { Gives in_turn session.old event.now (in_buffer buffer.new result) session.new }
    ensures answer { IsReplyTo event.now result }
    ensures within { counted result ≤ length buffer.old }
    ensures rest { drop (counted result) buffer.new ≡ drop (counted result) buffer.old }
    ensures number { seat.new.number ≡ seat.old.number }
    ensures right { seat.new.right ≡ seat.old.right }
    ensures start { seat.new.start ≡ seat.old.start }
    ensures entries { log.new.entries ≡ entries_after R.KEEPS seat.old.number event.now (in_buffer buffer.new result) log.old.entries }
    ensures seat_entries { seat.new.entries ≡ seat.old.entries ++ kept_entries R.KEEPS (entry (length log.old.entries) seat.old.number event.now (in_buffer buffer.new result)) }
    ensures left { R.KEEPS ≡ true → (log.new.room + 1 ≡ log.old.room) × (seat.new.room + 1 ≡ seat.old.room) }
    ensures journal { log.new.journal ≡ journal_after seat.old.number event.now (in_buffer buffer.new result) log.old.journal }
    ensures seen { seat.new.seen ≡ whole_of log.new.journal }
    ensures behind { IsBehind seat.old.number seat.old.seen log.old.journal }
    ensures known { HasRight seat.old.number seat.old.right log.old.journal }
    ensures history { IsHistoryOf R.WITNESSED R.role R.config (whole_of log.new.journal) session.new }
{
    let told = session.apply(event, buffer);
    log.add(seat, room, event, with_bytes(&told, buffer));
    told
}

/// The reply with the bytes that it counts, which stand at the front of this buffer. They are lent.
fn with_bytes<'b>(told: &Reply<usize>, buffer: &'b [u8]) -> Reply<Lent<'b>>
    requires { counted told.now ≤ length buffer.now }
    ensures reply { result ≡ in_buffer buffer.now told.now }
    ensures short { bytes_told result ≤ length buffer.now }
{
    match told {
        Reply::Opened(id) => Reply::Opened(*id),
        Reply::OpenedWith(id, taken) => Reply::OpenedWith(*id, *taken),
        Reply::Accepted(id) => Reply::Accepted(*id),
        Reply::Wrote(wrote) => Reply::Wrote(*wrote),
        Reply::Read(count) => Reply::Read(Lent::new(&buffer[..*count])),
        Reply::ReadEnd => Reply::ReadEnd,
        Reply::ReadWait => Reply::ReadWait,
        Reply::Done => Reply::Done,
        Reply::Pinged(number) => Reply::Pinged(*number),
        Reply::Ponged(back) => Reply::Ponged(*back),
        Reply::Refused(fault) => Reply::Refused(*fault),
        Reply::Fed(fed) => Reply::Fed(*fed),
        Reply::Emitted(count) => Reply::Emitted(Lent::new(&buffer[..*count])),
    }
}
