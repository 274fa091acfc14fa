//! Calls on the session, with their entries.

ghost use Rattle.std.specs.Prelude.{◌≡◌, false};
ghost use Rattle.ymx_session.specs.Replies.{done_or, pinged_or, ponged_or};
ghost use Rattle.ymx_hub.specs.Answers.{IsNotMemory};
ghost use Rattle.ymx_hub.specs.Books.{Books, Asks, to_ping, to_collect, to_go_away, to_close};
ghost use Rattle.ymx_hub.specs.Gained.{GainedAlike};
ghost use Rattle.ymx_hub.specs.Steps.{StepsAsked};

use crate::booked::Booked;
use crate::faults::HubFault;
use ymx_model::{Call, Reply};
use ymx_seats::{Recorder, Seat};

impl<R: Recorder> Booked<R> {
    /// Pings the peer, and returns the ping's number.
    ///
    /// Refused by the session, in this order, with `Closed`, `Lost`, and `PingsPending` while 16 pings are not collected.
    /// `Memory`, and nothing is asked, where there is none for the entry.
    pub fn ping(&mut self, seat: &mut Seat<R>) -> Result<u32, HubFault>
        ensures booked { Books R.KEEPS seat.old seat.new (Asks to_ping pinged_or seat.old.number result) }
        ensures steps { StepsAsked R.KEEPS to_ping pinged_or seat.old.number result self.old self.new }
        ensures alike { GainedAlike self.old.entries self.new.entries seat.old.entries seat.new.entries }
        ensures off { R.KEEPS ≡ false → IsNotMemory result }
    {
        match self.ask(seat, Call::Ping, &mut []) {
            Ok(Reply::Pinged(number)) => Ok(number),
            Ok(_) => unreachable!(),
            Err(fault) => Err(fault),
        }
    }

    /// Whether the answer to the ping of this number is back, which is then collected.
    ///
    /// Refused by the session with `Closed`, and where the answer isn't back with `Lost`. `Memory`, and nothing is
    /// collected, where there is none for the entry.
    pub fn ponged(&mut self, seat: &mut Seat<R>, number: u32) -> Result<bool, HubFault>
        ensures booked { Books R.KEEPS seat.old seat.new (Asks (to_collect number) ponged_or seat.old.number result) }
        ensures steps { StepsAsked R.KEEPS (to_collect number) ponged_or seat.old.number result self.old self.new }
        ensures alike { GainedAlike self.old.entries self.new.entries seat.old.entries seat.new.entries }
        ensures off { R.KEEPS ≡ false → IsNotMemory result }
    {
        match self.ask(seat, Call::Ponged(number), &mut []) {
            Ok(Reply::Ponged(back)) => Ok(back),
            Ok(_) => unreachable!(),
            Err(fault) => Err(fault),
        }
    }

    /// Takes no more streams of the peer's: a Go Away is due (go away).
    ///
    /// Refused by the session, in this order, with `Closed` and `Lost`. `Memory`, and nothing is done, where there is none
    /// for the entry.
    pub fn go_away(&mut self, seat: &mut Seat<R>) -> Result<(), HubFault>
        ensures booked { Books R.KEEPS seat.old seat.new (Asks to_go_away done_or seat.old.number result) }
        ensures steps { StepsAsked R.KEEPS to_go_away done_or seat.old.number result self.old self.new }
        ensures alike { GainedAlike self.old.entries self.new.entries seat.old.entries seat.new.entries }
        ensures off { R.KEEPS ≡ false → IsNotMemory result }
    {
        match self.ask(seat, Call::GoAway, &mut []) {
            Ok(Reply::Done) => Ok(()),
            Ok(_) => unreachable!(),
            Err(fault) => Err(fault),
        }
    }

    /// Closes the session at once: nothing more is emitted. The session never refuses it. `Memory`, and it is not closed,
    /// where there is none for the entry.
    pub fn close(&mut self, seat: &mut Seat<R>) -> Result<(), HubFault>
        ensures booked { Books R.KEEPS seat.old seat.new (Asks to_close done_or seat.old.number result) }
        ensures steps { StepsAsked R.KEEPS to_close done_or seat.old.number result self.old self.new }
        ensures alike { GainedAlike self.old.entries self.new.entries seat.old.entries seat.new.entries }
        ensures off { R.KEEPS ≡ false → IsNotMemory result }
    {
        match self.ask(seat, Call::Close, &mut []) {
            Ok(Reply::Done) => Ok(()),
            Ok(_) => unreachable!(),
            Err(fault) => Err(fault),
        }
    }
}
