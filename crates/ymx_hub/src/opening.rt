//! Streams that are handed out, with a seat for each half.

ghost use Rattle.std.specs.Prelude.{◌≡◌, ◌⊎◌, ◌+◌, ◌^◌, ◌<◌, ◌≤◌, [], None, true, IfOk, IfErr, IfSome, OnOk};
ghost use Rattle.indexmap.specs.IndexSet.{spare, IsUnchanged};
ghost use Rattle.ymx_session.specs.Applied.{IsReplyTo};
ghost use Rattle.ymx_hub.specs.Answers.{refused_seat};
ghost use Rattle.ymx_hub.specs.Books.{Books, Opens, OpensWith, AcceptsOnce, AsksStream, GivesStream, IsStreamOf, to_accept};
ghost use Rattle.ymx_seats.specs.declared.plays.Right.TheVariants.{Writes, Reads};
ghost use Rattle.ymx_seats.specs.Views.{HasNumbered, IsWitnessed, whole_of};
ghost use Rattle.ymx_hub.specs.Rights.{HaveHalves, handed_out, last_place};
ghost use Rattle.ymx_hub.specs.Gained.{GainedAlike};
ghost use Rattle.ymx_hub.specs.Steps.{IsNext, StepsOpened, StepsOpenedWith, StepsAccepted, StepsGiven};
ghost use Rattle.ymx_machine.specs.shared.Evidence.{evidence};

use crate::booked::Booked;
use crate::faults::{HubFault, hub_fault};
use crate::recording::record_prepared;
use crate::refused_seat::seats_left;
use indexmap::IndexSet;
use std::alloc::Global;
use std::marker::Brand;
use ymx_model::{Call, CallFault, Event, Lent, Reply};
use ymx_seats::{Log, ReadsOf, Recorder, RightName, Seat};

impl<R: Recorder> Booked<R> {
    /// Opens the next own stream, with a seat for each of its halves, which start after the entry of it.
    ///
    /// Without seats or memory for the halves and the entry, `Seats` or `Memory` comes, and nothing is done.
    pub fn open(&mut self, seat: &mut Seat<R>) -> Result<(u32, Seat<R>, Seat<R>), HubFault>
        ensures booked { Books R.KEEPS seat.old seat.new (Opens seat.old.number result) }
        ensures steps { StepsOpened R.KEEPS seat.old.number result self.old self.new }
        ensures alike { GainedAlike self.old.entries self.new.entries seat.old.entries seat.new.entries }
        ensures empty { IfOk result (λ made. (made.1.entries ≡ []) × (made.2.entries ≡ [])) }
        ensures right { IfOk result (λ made. R.WITNESSED ≡ true → HaveHalves made.0 made.1 made.2) }
    {
        match self.give(seat, &Event::Call(Call::Open)) {
            Ok(Some((id, _, first, second))) => Ok((id, first, second)),
            Ok(None) => unreachable!(),
            Err(fault) => Err(fault),
        }
    }

    /// Opens the next own stream with these first bytes, as `open`, and says how many of them were taken.
    pub fn open_with(
        &mut self,
        seat: &mut Seat<R>,
        bytes: &[u8],
    ) -> Result<(u32, usize, Seat<R>, Seat<R>), HubFault>
        ensures booked { Books R.KEEPS seat.old seat.new (OpensWith bytes.now seat.old.number result) }
        ensures steps { StepsOpenedWith bytes.now R.KEEPS seat.old.number result self.old self.new }
        ensures alike { GainedAlike self.old.entries self.new.entries seat.old.entries seat.new.entries }
        ensures empty { IfOk result (λ made. (made.2.entries ≡ []) × (made.3.entries ≡ [])) }
        ensures right { IfOk result (λ made. R.WITNESSED ≡ true → HaveHalves made.0 made.2 made.3) }
    {
        match self.give(seat, &Event::Call(Call::OpenWith(Lent::new(bytes)))) {
            Ok(Some(given)) => Ok(given),
            Ok(None) => unreachable!(),
            Err(fault) => Err(fault),
        }
    }

    /// One turn of an accept: the offered stream that came first, with a seat for each of its halves, or `None` if
    /// none is offered yet.
    pub fn accept(
        &mut self,
        seat: &mut Seat<R>,
    ) -> Result<Option<(u32, Seat<R>, Seat<R>)>, HubFault>
        ensures booked { Books R.KEEPS seat.old seat.new (AcceptsOnce seat.old.number result) }
        ensures steps { StepsAccepted R.KEEPS seat.old.number result self.old self.new }
        ensures right { IfOk result (λ given. IfSome given (λ made. R.WITNESSED ≡ true → HaveHalves made.0 made.1 made.2)) }
        ensures alike { GainedAlike self.old.entries self.new.entries seat.old.entries seat.new.entries }
    {
        match self.give(seat, &Event::Call(Call::Accept)) {
            Ok(Some((id, _, first, second))) => Ok(Some((id, first, second))),
            Ok(None) => Ok(None),
            Err(fault) => Err(fault),
        }
    }

    /// Makes a call that gives a stream: its id, how many first bytes were taken (0 where it carries none), and a seat for
    /// each of its halves. `None` where an accept finds no stream offered.
    #[tactic(auto, using(crate::proofs::History::kept_after, crate::proofs::Journals::journaled_after, crate::proofs::Journals::all_after, crate::proofs::Journals::witnessed_after))]
    fn give(
        &mut self,
        seat: &mut Seat<R>,
        event: &Event<Lent<'_>>,
    ) -> Result<Option<(u32, usize, Seat<R>, Seat<R>)>, HubFault>
        requires { AsksStream event.now }
        ensures booked { Books R.KEEPS seat.old seat.new (GivesStream event.now seat.old.number result) }
        ensures steps { StepsGiven event.now R.KEEPS seat.old.number result self.old self.new }
        ensures alike { GainedAlike self.old.entries self.new.entries seat.old.entries seat.new.entries }
        ensures none { IfOk result (λ given. given ≡ None → event.now ≡ to_accept) }
        ensures right { IfOk result (λ given. IfSome given (λ made. R.WITNESSED ≡ true → HaveHalves made.0 made.2 made.3)) }
    {
        make_room(self.given, self.unspent, &mut self.half_spent)?;
        let room = self.log.prepare(self.alloc, seat, event, &[], 1)?;
        let told = record_prepared(&mut self.log, &mut self.session, seat, room, event, &mut []);
        match given_by(event, &told) {
            Ok(Some((id, taken))) => {
                let (first, second) = hand_out::<R, Brand>(
                    &mut self.log,
                    self.alloc,
                    &mut self.given,
                    &mut self.unspent,
                    id,
                );
                Ok(Some((id, taken, first, second)))
            }
            Ok(None) => Ok(None),
            Err(fault) => Err(hub_fault(fault)),
        }
    }
}

/// Which stream a call gave that was answered so, and how many first bytes were taken: 0 where it carries none. `None` where
/// an accept found no stream offered.
fn given_by(event: &Event<Lent<'_>>, told: &Reply<usize>) -> Result<Option<(u32, usize)>, CallFault>
    requires asks { AsksStream event.now }
    requires answer { IsReplyTo event.now told.now }
    ensures { IsStreamOf event.now told.now result }
{
    match told {
        Reply::Opened(id) => Ok(Some((*id, 0))),
        Reply::OpenedWith(id, taken) => Ok(Some((*id, *taken))),
        Reply::Accepted(Some(id)) => Ok(Some((*id, 0))),
        Reply::Accepted(None) => Ok(None),
        Reply::Refused(fault) => Err(*fault),
        _ => unreachable!(),
    }
}

/// Makes room for one stream more of which a half is spent, where so many have both halves unspent. `Seats` where no two
/// seats more can be given, of which so many were, and `Memory` where there is none.
fn make_room(given: u32, unspent: usize, half_spent: &mut IndexSet<u32>) -> Result<(), HubFault>
    requires { unspent ≤ given }
    ensures keys { IsUnchanged half_spent.old half_spent.new }
    ensures keeps { spare half_spent.old ≤ spare half_spent.new }
    ensures room { OnOk result ((given + 2 < 2 ^ 32) × (unspent + 1 ≤ spare half_spent.new)) }
    ensures refused { IfErr result (λ fault. (fault ≡ HubFault.Memory evidence) ⊎ ((fault ≡ HubFault.Seats refused_seat) × (2 ^ 32 ≤ given + 2))) }
{
    seats_left(given, 2)?;
    ymx_memory::reserve_set(half_spent, unspent + 1)?;
    Ok(())
}

/// The seats of both halves of a stream that is handed out: the next two, of which the first may write it, and the second read it.
/// One stream more has both halves unspent.
#[tactic(auto, using(crate::proofs::Journals::numbered_next, crate::proofs::Journals::whole_with_caller))]
fn hand_out<R: Recorder, D: RightName>(
    log: &mut Log<R>,
    alloc: Global,
    given: &mut u32,
    unspent: &mut usize,
    _id: u32,
) -> (Seat<R>, Seat<R>)
    requires named { D.right ≡ Writes _id (last_place log.old.journal) }
    requires seats { given.old + 2 < 2 ^ 32 }
    requires streams { unspent.old + 1 < 2 ^ 64 }
    requires next { HasNumbered given.old log.old.journal }
    requires history { IsWitnessed R.WITNESSED R.role R.config (whole_of log.old.journal) }
    ensures first { IsNext given.old log.old.entries (whole_of log.old.journal) result.0 }
    ensures second { IsNext (given.old + 1) log.old.entries (whole_of log.old.journal) result.1 }
    ensures writes { R.WITNESSED ≡ true → result.0.right ≡ Writes _id (last_place log.old.journal) }
    ensures reads { R.WITNESSED ≡ true → result.1.right ≡ Reads _id (last_place log.old.journal) }
    ensures log { log.new ≡ record log.old { journal = handed_out _id log.old.journal } }
    ensures counted { (given.new ≡ given.old + 2) × (unspent.new ≡ unspent.old + 1) }
{
    let first = log.seat::<D>(alloc, *given);
    let second = log.seat::<ReadsOf<D>>(alloc, *given + 1);
    *given += 2;
    *unspent += 1;
    (first, second)
}
