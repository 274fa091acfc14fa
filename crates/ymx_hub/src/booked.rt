//! The value under the lock of a hub.

ghost use Rattle.std.specs.Prelude.{◌≡◌, ◌≢◌, ◌⊎◌, ◌+◌, ◌^◌, ◌<◌, ◌↔◌, List, [], ◌∷◌, length, true, false, Some, None, IsTrue, IfOk, IfErr, OnOk, OnErr, MatchResult};
ghost use Rattle.std.specs.List.Sorted.{IsPermutation};
ghost use Rattle.ymx_machine.specs.declared.types.Reply.TheVariants as reply;
ghost use Rattle.ymx_machine.specs.declared.types.Wrote.TheVariants as wrote;
ghost use Rattle.ymx_model.specs.session.Calls.{read_from, write_to};
ghost use Rattle.ymx_model.specs.session.Emissions.{is_ready};
ghost use Rattle.ymx_seats.specs.Tallies.{Tallies};
ghost use Rattle.ymx_seats.specs.Transcripts.{IsNew};
ghost use Rattle.ymx_seats.specs.Views.{SeatView, whole_of, with_caller, IsBehind};
ghost use Rattle.ymx_seats.specs.declared.plays.Right.TheVariants.{Free};
ghost use Rattle.ymx_hub.specs.Answers.{IsNotMemory, IsSeatFault, refused_seat};
ghost use Rattle.ymx_hub.specs.Booked.{fresh, config_of, IsUnused};
ghost use Rattle.ymx_hub.specs.WholeHistories.{IsHistoryOf};
ghost use Rattle.ymx_hub.specs.Rights.{SaysSole};
ghost use Rattle.ymx_hub.specs.Steps.{IsNext};
ghost use Rattle.ymx_hub.specs.declared.end_fault.EndWhy.TheVariants.{SeatsOut, OutOfOrder};

use crate::end_fault::{EndFault, EndWhy};
use crate::faults::HubFault;
use crate::refused_seat::seats_left;
use crate::released_ids::Released;
use indexmap::IndexSet;
use std::alloc::Global;
use std::marker::Model;
use ymx_memory::RefusedAllocation;
use ymx_model::{CallFault, Config, Role, Status};
use ymx_seats::{Log, NewJournal, NoHalf, Recorder, Seat, Transcript, agree, discard};
use ymx_session::Session;

/// A session, with what it was made, the log of its events, how many seats were given, how many streams have both
/// halves unspent, the ids of those with one half spent, and of those that are released. A contract sees all of these, and
/// whether the transcript was handed out. Until then the log is the history of the session, from the one of this role and
/// config that has done nothing; and where the recorder witnesses, its journal always is.
#[derive(Drop)]
pub struct Booked<R: Recorder> {
    pub(crate) alloc: Global,
    pub(crate) role: Role,
    pub(crate) config: Config,
    pub(crate) session: Session,
    pub(crate) log: Log<R>,
    pub(crate) given: u32,
    pub(crate) unspent: usize,
    pub(crate) half_spent: IndexSet<u32>,
    pub(crate) released: Released,
    pub(crate) ended: bool,
}

impl<R: Recorder> Model for Booked<R> {
    ghost use Rattle.std.specs.Prelude.{◌≤◌};
    ghost use Rattle.indexmap.specs.IndexSet.{spare};
    ghost use Rattle.ymx_seats.specs.Transcripts.{IsGood};
    ghost use Rattle.ymx_hub.specs.Booked.{BookedView, Kept, IsJournaled};
    ghost use Rattle.ymx_hub.specs.Rights.{AllReleased};

    ghost Value = { BookedView };

    ghost view = { λ s. record {
      role = s.role;
      config = s.config;
      session = s.session;
      entries = s.log.entries;
      journal = s.log.journal;
      given = s.given;
      unspent = s.unspent;
      half_spent = s.half_spent.keys;
      released = s.released;
      ended = s.ended;
    } };

    ghost invariant = { λ s. Kept R.KEEPS s.ended s.role s.config s.log.entries s.session × (s.unspent ≤ spare s.half_spent) × (s.unspent ≤ s.given) × IsGood s.role s.config × IsJournaled R.WITNESSED R.role R.config s.role s.config s.log.journal s.session s.given × AllReleased s.released s.log.journal };
}

impl<R: Recorder> Booked<R> {
    /// Holds a session that has done nothing, with no entries, no journal and no seats. `RefusedAllocation` where there is no memory
    /// for 1,024 streams that are released.
    pub fn new(alloc: Global, session: Session) -> Result<Booked<R>, RefusedAllocation>
        requires new { IsNew session }
        requires unwitnessed { R.WITNESSED ≡ false }
        ensures { IfOk result (λ booked. booked ≡ fresh session None) }
    {
        let released = Released::new(alloc)?;
        Ok(Booked::over(alloc, session, Log::new(alloc), released))
    }

    /// Holds a session that has done nothing, with no entries and no seats, and the journal that this opens. The recorder
    /// names the journal, and the session's role and config. `RefusedAllocation` where there is no memory for 1,024 streams that are
    /// released.
    pub fn witnessed(
        alloc: Global,
        session: Session,
        opened: NewJournal,
    ) -> Result<Booked<R>, RefusedAllocation>
        requires new { IsNew session }
        requires witnessed { R.WITNESSED ≡ true }
        requires named { opened ≡ R.table }
        requires role { session.role ≡ R.role }
        requires config { config_of session ≡ R.config }
        ensures { IfOk result (λ booked. booked ≡ fresh session (Some (record { whole = []; rights = [] }))) }
    {
        let released = Released::new(alloc)?;
        Ok(Booked::over(alloc, session, Log::witnessed(alloc, opened), released))
    }

    /// Holds a session that has done nothing, with this log, in which nothing is, and this list of the streams that are released, in
    /// which none is.
    #[tactic(auto, using(crate::proofs::Journals::journaled_new, crate::proofs::Journals::all_none))]
    fn over(alloc: Global, session: Session, log: Log<R>, released: Released) -> Booked<R>
        requires new { IsNew session }
        requires none { log.entries ≡ [] }
        requires free { released ≡ [] }
        requires journal { IsUnused R.WITNESSED R.role R.config session log.journal }
        ensures { result ≡ fresh session log.journal }
    {
        let config = Config {
            window: session.window(),
            first: session.next_id(),
        };
        Booked {
            alloc,
            role: session.role(),
            config,
            session,
            log,
            given: 0,
            unspent: 0,
            half_spent: IndexSet::new(alloc),
            released,
            ended: false,
        }
    }

    /// A new seat, whose entries come after those that are there, and which has seen the whole history, where there is a
    /// journal. `Closed` once the transcript was handed out, which is only where entries are kept, and `Seats` after
    /// 4,294,967,295 of them: nothing is changed then. Takes no memory.
    #[tactic(auto, using(crate::proofs::History::no_seat, crate::proofs::Journals::journaled_seat, crate::proofs::Journals::all_caller, crate::proofs::Journals::witnessed_now, crate::proofs::Journals::numbered_now))]
    pub fn seat(&mut self) -> Result<Seat<R>, HubFault>
        ensures spares { IsNotMemory result }
        ensures new { IfOk result (IsNext self.old.given self.old.entries (whole_of self.old.journal)) }
        ensures counted { MatchResult result (λ seat. self.new ≡ record self.old { given = self.old.given + 1; journal = with_caller Free self.old.journal }) (λ fault. self.new ≡ self.old) }
        ensures goes_on { OnOk result ((self.old.ended ≡ false) × (self.old.given + 1 < 2 ^ 32)) }
        ensures why { IfErr result (IsSeatFault R.KEEPS) }
        ensures refused { IfErr result (λ fault. ((fault ≡ HubFault.Call CallFault.Closed) × (self.old.ended ≡ true)) ⊎ ((fault ≡ HubFault.Seats refused_seat) × (self.old.ended ≡ false) × (self.old.given + 1 ≡ 2 ^ 32))) }
    {
        if self.ended {
            return Err(HubFault::Call(CallFault::Closed));
        }
        seats_left(self.given, 1)?;
        let seat = self.log.seat::<NoHalf>(self.alloc, self.given);
        self.given += 1;
        Ok(seat)
    }

    /// Shows the whole history to a seat, where there is a journal: it is the history of the session as it stands now.
    /// Nothing else changes.
    #[tactic(auto, using(crate::proofs::Journals::witnessed_now, crate::proofs::Journals::sole_now, crate::proofs::WholeHistories::history_now))]
    pub fn show(&mut self, seat: &mut Seat<R>)
        ensures same { self.new ≡ self.old }
        ensures seat { seat.new ≡ record seat.old { seen = whole_of self.old.journal } }
        ensures history { IsHistoryOf R.WITNESSED R.role R.config seat.new.seen self.old.session }
        ensures behind { IsBehind seat.old.number seat.old.seen self.old.journal }
        ensures sole { SaysSole seat.old.right seat.old.number seat.new.seen }
    {
        self.log.show(seat);
    }

    /// Whether something is due.
    pub fn due(&self) -> bool
        ensures { result ≡ is_ready self.now.session }
    {
        self.session.due()
    }

    /// Whether a read of a stream would have to wait.
    pub fn read_waits(&self, id: u32) -> bool
        ensures { IsTrue result ↔ ((read_from id 1 self.now.session).reply ≡ reply.ReadWait) }
    {
        self.session.read_waits(id)
    }

    /// Whether a write of one byte to a stream would have to wait.
    pub fn write_waits(&self, id: u32) -> bool
        ensures { IsTrue result ↔ ((write_to id (0 ∷ []) self.now.session).reply ≡ reply.Wrote wrote.Wait) }
    {
        self.session.write_waits(id)
    }

    /// How many streams of the peer's wait to be accepted: 256 at most.
    pub fn offered_count(&self) -> usize
        ensures { result ≡ length self.now.session.offered }
    {
        self.session.offered_count()
    }

    /// The state of the session.
    pub fn status(&self) -> Status
        ensures { result ≡ self.now.session.status }
    {
        self.session.status()
    }

    /// Hands the transcript out, which has the entries that were kept, once all seats that were given are handed in and
    /// their lists agree with it. Else nothing changes, and the seats come back: with `SeatsOut` where there are more or
    /// fewer than were given, and where the transcript was handed out before; else with `OutOfOrder`. It takes no memory.
    pub fn end(&mut self, seats: Vec<Seat<R>>) -> Result<Transcript, EndFault<R>>
        requires keeps { R.KEEPS ≡ true }
        ensures ended { MatchResult result (λ transcript. (all : List SeatView) × IsPermutation seats.items all × (length all ≡ self.old.given) × Tallies all transcript.entries) (λ fault. IsPermutation seats.items fault.seats.items) }
        ensures seats_out { IfErr result (λ fault. fault.why ≡ SeatsOut → (self.old.ended ≡ true) ⊎ (length seats.items ≢ self.old.given)) }
        ensures out_of_order { IfErr result (λ fault. fault.why ≡ OutOfOrder → (self.old.ended ≡ false) × (length seats.items ≡ self.old.given) × ((order : List SeatView) → IsPermutation seats.items order → Tallies order self.old.entries → ⊥)) }
        ensures handed_out { IfOk result (λ transcript. transcript ≡ record { role = self.old.role; config = self.old.config; entries = self.old.entries }) }
        ensures once { OnOk result ((self.old.ended ≡ false) × (self.new ≡ record self.old { entries = []; ended = true }) × (length seats.items ≡ self.old.given)) }
        ensures unchanged { OnErr result (self.new ≡ self.old) }
    {
        let mut seats = seats;
        if self.ended || seats.len() != self.given as usize {
            return Err(EndFault {
                why: EndWhy::SeatsOut,
                seats,
            });
        }
        if !agree(seats.as_mut_slice(), self.log.entries()) {
            return Err(EndFault {
                why: EndWhy::OutOfOrder,
                seats,
            });
        }
        discard(seats);
        self.ended = true;
        let entries = self.log.take_entries(self.alloc);
        Ok(Transcript::new(self.role, self.config, entries))
    }
}
