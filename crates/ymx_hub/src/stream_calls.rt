//! Bytes of a stream, and its halves that are spent, with their entries.

ghost use Rattle.std.specs.Prelude.{◌≡◌, ◌⊎◌, ℕ, ◌<◌, ◌≤◌, List, length, drop, Contains, true, false, IfOk, MatchResult};
ghost use Rattle.ymx_machine.specs.declared.types.Reply.TheVariants as reply;
ghost use Rattle.ymx_session.specs.Applied.{IsRefusal, in_buffer};
ghost use Rattle.ymx_session.specs.Replies.{done_or, wrote_or, read_or, got_count};
ghost use Rattle.ymx_hub.specs.Answers.{IsNotMemory, GivesSome, took_count};
ghost use Rattle.ymx_hub.specs.Books.{Books, Asks, Spends, Closes, to_write, to_read, to_finish, to_reset, to_end};
ghost use Rattle.ymx_hub.specs.Booked.{is_half_spent, spent};
ghost use Rattle.ymx_hub.specs.Gained.{GainedAlike};
ghost use Rattle.ymx_hub.specs.Rights.{MayWrite, MayRead};
ghost use Rattle.ymx_hub.specs.Steps.{StepsAsked, StepsSpent, StepsClosed};

use crate::booked::Booked;
use crate::faults::{HubFault, answered};
use crate::recording::record_prepared;
use ymx_model::{Call, CallFault, Event, Got, Lent, Reply, Wrote};
use ymx_seats::{Recorder, Seat};

impl<R: Recorder> Booked<R> {
    /// Writes the first of these bytes, as many as there is credit for, or says that there is none.
    pub fn write(&mut self, seat: &mut Seat<R>, id: u32, bytes: &[u8]) -> Result<Wrote, HubFault>
        requires may { R.WITNESSED ≡ true → MayWrite seat.old.right id }
        ensures right { seat.new.right ≡ seat.old.right }
        ensures released { self.new.released ≡ self.old.released }
        ensures booked { Books R.KEEPS seat.old seat.new (Asks (to_write id bytes.now) wrote_or seat.old.number result) }
        ensures steps { StepsAsked R.KEEPS (to_write id bytes.now) wrote_or seat.old.number result self.old self.new }
        ensures alike { GainedAlike self.old.entries self.new.entries seat.old.entries seat.new.entries }
        ensures within { IfOk result (λ wrote. took_count wrote ≤ length bytes.now) }
    {
        match self.ask(seat, Call::Write(id, Lent::new(bytes)), &mut []) {
            Ok(Reply::Wrote(wrote)) => Ok(wrote),
            Ok(_) => unreachable!(),
            Err(fault) => Err(fault),
        }
    }

    /// Moves the first unread bytes to the front of the buffer, as many as are there and fit: one at least, if it has
    /// room. The rest of the buffer stays as it was.
    pub fn read(&mut self, seat: &mut Seat<R>, id: u32, buffer: &mut [u8]) -> Result<Got, HubFault>
        requires may { R.WITNESSED ≡ true → MayRead seat.old.right id ⊎ Contains self.old.released id }
        ensures right { seat.new.right ≡ seat.old.right }
        ensures released { self.new.released ≡ self.old.released }
        ensures booked { Books R.KEEPS seat.old seat.new (Asks (to_read id (length buffer.old)) (λ given. read_or given buffer.new) seat.old.number result) }
        ensures steps { StepsAsked R.KEEPS (to_read id (length buffer.old)) (λ given. read_or given buffer.new) seat.old.number result self.old self.new }
        ensures alike { GainedAlike self.old.entries self.new.entries seat.old.entries seat.new.entries }
        ensures within { IfOk result (λ got. got_count got ≤ length buffer.old) }
        ensures length { length buffer.new ≡ length buffer.old }
        ensures rest { MatchResult result (λ got. drop (got_count got) buffer.new ≡ drop (got_count got) buffer.old) (λ fault. buffer.new ≡ buffer.old) }
        ensures some { 0 < length buffer.old → IfOk result GivesSome }
        ensures off { R.KEEPS ≡ false → IsNotMemory result }
    {
        match self.ask(seat, Call::Read(id, buffer.len()), buffer) {
            Ok(Reply::Read(count)) => Ok(Got::Bytes(count)),
            Ok(Reply::ReadEnd) => Ok(Got::End),
            Ok(Reply::ReadWait) => Ok(Got::Wait),
            Ok(_) => unreachable!(),
            Err(fault) => Err(fault),
        }
    }

    /// Notes that a half of a stream is spent. Whether the other half was spent before.
    fn spend(&mut self, id: u32) -> bool
        ensures second { result ≡ is_half_spent id self.old }
        ensures noted { self.new ≡ spent id self.old }
    {
        if self.half_spent.swap_remove(&id) {
            return true;
        }
        if self.unspent > 0 {
            self.unspent -= 1;
            let _has_room = self.half_spent.insert(id);
        }
        false
    }

    /// Half-closes a stream, and gives it up if its other half was spent. The half counts as spent even if there is
    /// no memory for the entries.
    pub fn finish(&mut self, seat: &mut Seat<R>, id: u32) -> Result<(), HubFault>
        requires may { R.WITNESSED ≡ true → MayWrite seat.old.right id }
        ensures right { seat.new.right ≡ seat.old.right }
        ensures booked { Books R.KEEPS seat.old seat.new (Spends (to_finish id) id seat.old.number result) }
        ensures steps { StepsSpent (to_finish id) R.KEEPS seat.old.number id result self.old self.new }
        ensures alike { GainedAlike self.old.entries self.new.entries seat.old.entries seat.new.entries }
        ensures off { R.KEEPS ≡ false → IsNotMemory result }
    {
        self.end_half(seat, id, HalfCall::Finish)
    }

    /// Resets a stream, and gives it up if its other half was spent. The half counts as spent even if there is no
    /// memory for the entries.
    pub fn reset(&mut self, seat: &mut Seat<R>, id: u32) -> Result<(), HubFault>
        requires may { R.WITNESSED ≡ true → MayWrite seat.old.right id }
        ensures right { seat.new.right ≡ seat.old.right }
        ensures booked { Books R.KEEPS seat.old seat.new (Spends (to_reset id) id seat.old.number result) }
        ensures steps { StepsSpent (to_reset id) R.KEEPS seat.old.number id result self.old self.new }
        ensures alike { GainedAlike self.old.entries self.new.entries seat.old.entries seat.new.entries }
        ensures off { R.KEEPS ≡ false → IsNotMemory result }
    {
        self.end_half(seat, id, HalfCall::Reset)
    }

    /// Ends a half of a stream by this call, and gives the stream up if its other half was spent.
    #[tactic(auto, using(crate::proofs::History::kept_after, crate::proofs::Journals::journaled_after, crate::proofs::Journals::all_after, crate::proofs::Journals::witnessed_after))]
    fn end_half(&mut self, seat: &mut Seat<R>, id: u32, half_call: HalfCall) -> Result<(), HubFault>
        requires may { R.WITNESSED ≡ true → MayWrite seat.old.right id }
        ensures right { seat.new.right ≡ seat.old.right }
        ensures booked { Books R.KEEPS seat.old seat.new (Spends (to_end half_call id) id seat.old.number result) }
        ensures steps { StepsSpent (to_end half_call id) R.KEEPS seat.old.number id result self.old self.new }
        ensures alike { GainedAlike self.old.entries self.new.entries seat.old.entries seat.new.entries }
        ensures off { R.KEEPS ≡ false → IsNotMemory result }
    {
        let second = self.spend(id);
        let entries = if second { 2 } else { 1 };
        let event = half_call.event(id);
        let forget = Event::Call(Call::Forget(id));
        let room = self.log.prepare(self.alloc, seat, &event, &[], entries)?;
        let next = self.log.prepare(self.alloc, seat, &forget, &[], entries)?;
        let told = record_prepared(
            &mut self.log,
            &mut self.session,
            seat,
            room,
            &event,
            &mut [],
        );
        let ended = done(&told);
        if !second {
            return answered(ended);
        }
        record_prepared(
            &mut self.log,
            &mut self.session,
            seat,
            next,
            &forget,
            &mut [],
        );
        answered(ended)
    }

    /// Spends a half of a stream without a word to the peer, and gives the stream up if its other half was spent.
    /// The half counts as spent even if there is no memory for the entry.
    pub fn close_half(&mut self, seat: &mut Seat<R>, id: u32) -> Result<(), HubFault>
        ensures right { seat.new.right ≡ seat.old.right }
        ensures released { self.new.released ≡ self.old.released }
        ensures booked { Books R.KEEPS seat.old seat.new (Closes id seat.old.number result) }
        ensures steps { StepsClosed (is_half_spent id self.old) R.KEEPS seat.old.number id result self.old self.new }
        ensures alike { GainedAlike self.old.entries self.new.entries seat.old.entries seat.new.entries }
        ensures off { R.KEEPS ≡ false → IsNotMemory result }
    {
        if !self.spend(id) {
            return Ok(());
        }
        match self.ask(seat, Call::Forget(id), &mut []) {
            Ok(Reply::Done) => Ok(()),
            Ok(_) => unreachable!(),
            Err(fault) => Err(fault),
        }
    }
}

/// The calls that end a half of a stream.
#[derive(Clone, Copy)]
enum HalfCall {
    Finish,
    Reset,
}

impl HalfCall {
    /// The event of this call, to be kept.
    fn event(self, id: u32) -> Event<Lent<'static>>
        ensures { result ≡ to_end self id }
    {
        match self {
            HalfCall::Finish => Event::Call(Call::Finish(id)),
            HalfCall::Reset => Event::Call(Call::Reset(id)),
        }
    }
}

/// What a call answered that answers nothing else.
fn done(told: &Reply<usize>) -> Result<(), CallFault>
    requires { (told.now ≡ reply.Done) ⊎ IsRefusal told.now }
    ensures { (buffer : List ℕ) → in_buffer buffer told.now ≡ done_or result }
{
    match told {
        Reply::Done => Ok(()),
        Reply::Refused(fault) => Err(*fault),
        _ => unreachable!(),
    }
}
