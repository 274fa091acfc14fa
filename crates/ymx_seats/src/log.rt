//! The entries so far, as they are kept under the lock.

ghost use Rattle.std.specs.Prelude.{◌≡◌, ◌-◌, ◌+◌, ◌<◌, ◌≤◌, ◌++◌, ◌∷◌, [], true, false, Some, None, vec_capacity, vec_len, length, slice_get, IsOk, IfOk, OnOk};
ghost use mathlib.Core.List.{IsPrefix};
ghost use Rattle.ymx_memory.specs.Bounds.{most_entries};
ghost use Rattle.ymx_seats.specs.Journals.{part, release_of};
ghost use Rattle.ymx_seats.specs.Views.{entry};

use crate::entry_room::{Copies, EntryRoom, copies_of, kept_reply};
use crate::journal::{Journal, NewJournal, Witness};
use crate::plays::{EntryName, RightName};
use crate::recorder::{Recorder, RecorderKey};
use crate::seat::Seat;
use std::alloc::Global;
use std::marker::{Brand, Model, PhantomData};
use std::mem;
use ymx_memory::RefusedAllocation;
use ymx_model::{Entry, Event, Lent, Reply};

/// The entries so far, and the journal, where the recorder witnesses. A contract sees both, and for how many more entries
/// there is memory. Their positions rise.
#[derive(Drop)]
pub struct Log<R: Recorder> {
    entries: Vec<Entry>,
    journal: Option<Journal<R>>,
    kind: PhantomData<R>,
}

impl<R: Recorder> Model for Log<R> {
    ghost use Rattle.std.specs.Prelude.{◌-◌, ◌≤◌, vec_capacity, vec_len};
    ghost use Rattle.ymx_seats.specs.Tallies.{RisesFrom, behind_all};
    ghost use Rattle.ymx_seats.specs.Views.{LogView, HasIf};

    ghost Value = { LogView };

    ghost view = { λ s. record { entries = s.entries.items; room = vec_capacity s.entries - vec_len s.entries; journal = s.journal } };

    ghost invariant = { λ s. RisesFrom 0 s.entries.items × (behind_all 0 s.entries.items ≤ vec_len s.entries) × HasIf R.WITNESSED s.journal };
}

impl<R: Recorder> Log<R> {
    ghost use Rattle.ymx_seats.specs.Tallies.{RisesFrom};
    ghost use Rattle.ymx_seats.specs.Views.{kept_entries, entry, journal_after, with_caller, released_by, whole_of, HasNumbered, HasRight, IsBehind, IsWitnessed, IsNewcomer};
    ghost use Rattle.ymx_seats.specs.EntryRooms.{IsReady};
    ghost use Rattle.ymx_machine.specs.shared.Replies.{bytes_told};

    /// No entries, and no journal.
    pub fn new(alloc: Global) -> Log<R>
        requires { R.WITNESSED ≡ false }
        ensures entries { result.entries ≡ [] }
        ensures journal { result.journal ≡ None }
    {
        Log {
            entries: Vec::new(alloc),
            journal: None,
            kind: PhantomData,
        }
    }

    /// No entries, with the journal that this opens.
    pub fn witnessed(alloc: Global, opened: NewJournal) -> Log<R>
        requires witnessed { R.WITNESSED ≡ true }
        requires named { opened ≡ R.table }
        ensures entries { result.entries ≡ [] }
        ensures journal { result.journal ≡ Some (record { whole = []; rights = [] }) }
    {
        Log {
            entries: Vec::new(alloc),
            journal: Some(opened.named()),
            kind: PhantomData,
        }
    }

    /// A new seat of this number, which is how many were given where there is a journal, and then may do what this names. Its
    /// entries come after those that are there, and it has seen the whole history, of which no entry is its own. Takes no memory.
    pub fn seat<D: RightName>(&mut self, alloc: Global, number: u32) -> Seat<R>
        requires next { HasNumbered number self.old.journal }
        requires history { IsWitnessed R.WITNESSED R.role R.config (whole_of self.old.journal) }
        ensures number { result.number ≡ number }
        ensures right { R.WITNESSED ≡ true → result.right ≡ D.right }
        ensures start { result.start ≡ length self.old.entries }
        ensures empty { result.entries ≡ [] }
        ensures seen { result.seen ≡ whole_of self.old.journal }
        ensures newcomer { IsNewcomer number result.seen }
        ensures counted { self.new ≡ record self.old { journal = with_caller D.right self.old.journal } }
    {
        let start = self.next_position();
        let witness = match &mut self.journal {
            Some(journal) => Some(journal.witness::<D>()),
            None => None,
        };
        Seat::with_witness(alloc, number, start, witness)
    }

    /// The position of the next entry: how many there are.
    pub fn next_position(&self) -> u64
        ensures { result ≡ length self.now.entries }
    {
        self.entries.len() as u64
    }

    /// Finds the memory for the entry of an event whose reply has at most the bytes of `buffer`, before the event, and
    /// room for `entries` entries in all, one or two. A recorder that keeps nothing needs none. `RefusedAllocation` where
    /// there is none; no entry is added.
    pub fn prepare(
        &mut self,
        alloc: Global,
        seat: &mut Seat<R>,
        event: &Event<Lent<'_>>,
        buffer: &[u8],
        entries: usize,
    ) -> Result<EntryRoom, RefusedAllocation>
        requires at_most { entries ≤ most_entries }
        ensures entries { self.new.entries ≡ self.old.entries }
        ensures journal { self.new.journal ≡ self.old.journal }
        ensures number { seat.new.number ≡ seat.old.number }
        ensures right { seat.new.right ≡ seat.old.right }
        ensures start { seat.new.start ≡ seat.old.start }
        ensures seat_entries { seat.new.entries ≡ seat.old.entries }
        ensures seen { seat.new.seen ≡ seat.old.seen }
        ensures ready { IfOk result (λ s. IsReady R.KEEPS s event.now (length buffer.now)) }
        ensures room { R.KEEPS ≡ true → OnOk result ((entries ≤ self.new.room) × (entries ≤ seat.new.room)) }
        ensures grows { (self.old.room ≤ self.new.room) × (seat.old.room ≤ seat.new.room) }
        ensures off { R.KEEPS ≡ false → IsOk result }
    {
        if !R::keeps(RecorderKey::new()) {
            return Ok(EntryRoom { copies: None });
        }
        ymx_memory::reserve(&mut self.entries, entries)?;
        seat.make_room(entries)?;
        Ok(EntryRoom {
            copies: Some(copies_of(alloc, event, buffer)?),
        })
    }

    /// Adds the entry of an event to the log and to its seat, in the memory of its room, and to the journal. What the seat
    /// had seen is a beginning of the journal's history before, and no other entry of that is the seat's. The seat has then
    /// seen all.
    pub fn add(
        &mut self,
        seat: &mut Seat<R>,
        room: EntryRoom,
        event: &Event<Lent<'_>>,
        reply: Reply<Lent<'_>>,
    )
        requires ready { IsReady R.KEEPS room event.now (bytes_told reply) }
        requires room { R.KEEPS ≡ true → (0 < self.old.room) × (0 < seat.old.room) }
        requires history { IsWitnessed R.WITNESSED R.role R.config (whole_of (journal_after seat.old.number event.now reply self.old.journal)) }
        ensures number { seat.new.number ≡ seat.old.number }
        ensures right { seat.new.right ≡ seat.old.right }
        ensures start { seat.new.start ≡ seat.old.start }
        ensures entries { self.new.entries ≡ self.old.entries ++ kept_entries R.KEEPS (entry (length self.old.entries) seat.old.number event.now reply.entry) }
        ensures seat_entries { seat.new.entries ≡ seat.old.entries ++ kept_entries R.KEEPS (entry (length self.old.entries) seat.old.number event.now reply.entry) }
        ensures left { R.KEEPS ≡ true → (self.new.room + 1 ≡ self.old.room) × (seat.new.room + 1 ≡ seat.old.room) }
        ensures journal { self.new.journal ≡ journal_after seat.old.number event.now reply.entry self.old.journal }
        ensures seen { seat.new.seen ≡ whole_of self.new.journal }
        ensures behind { IsBehind seat.old.number seat.old.seen self.old.journal }
        ensures known { HasRight seat.old.number seat.old.right self.old.journal }
    {
        self.attest(seat, event, &reply);
        let Some(copies) = room.copies else {
            return;
        };
        let position = self.entries.len() as u64;
        let number = seat.number();
        let Copies {
            mine,
            theirs,
            my_bytes,
            their_bytes,
        } = copies;
        seat.add(Entry {
            position,
            seat: number,
            event: mine,
            reply: kept_reply(&reply, my_bytes),
        });
        self.entries.push_reserved(Entry {
            position,
            seat: number,
            event: theirs,
            reply: kept_reply(&reply, their_bytes),
        });
    }

    /// Adds the entry of an event to the journal, if there is one.
    fn attest(&mut self, seat: &mut Seat<R>, event: &Event<Lent<'_>>, reply: &Reply<Lent<'_>>)
        requires history { IsWitnessed R.WITNESSED R.role R.config (whole_of (journal_after seat.old.number event.now reply.now self.old.journal)) }
        ensures log { self.new ≡ record self.old { journal = journal_after seat.old.number event.now reply.now self.old.journal } }
        ensures seat { seat.new ≡ record seat.old { seen = whole_of self.new.journal } }
        ensures behind { IsBehind seat.old.number seat.old.seen self.old.journal }
        ensures known { HasRight seat.old.number seat.old.right self.old.journal }
    {
        if let (Some(journal), Some(witness)) = (&mut self.journal, &mut seat.witness) {
            note::<R, Brand>(journal, witness, event, reply);
        }
    }

    /// Shows the whole history of the journal to this seat, if there is one.
    pub fn show(&mut self, seat: &mut Seat<R>)
        requires history { IsWitnessed R.WITNESSED R.role R.config (whole_of self.old.journal) }
        ensures same { self.new ≡ self.old }
        ensures seat { seat.new ≡ record seat.old { seen = whole_of self.old.journal } }
        ensures behind { IsBehind seat.old.number seat.old.seen self.old.journal }
        ensures known { HasRight seat.old.number seat.old.right self.old.journal }
    {
        if let (Some(journal), Some(witness)) = (&mut self.journal, &mut seat.witness) {
            journal.show(witness);
        }
    }

    /// The caller at this seat releases its reads to all, where there is a journal. It has seen what it had seen.
    pub fn release(&mut self, seat: &mut Seat<R>)
        ensures log { self.new ≡ record self.old { journal = released_by seat.old.number seat.old.right self.old.journal } }
        ensures seat { seat.new ≡ record seat.old { right = release_of seat.old.right } }
        ensures known { HasRight seat.old.number seat.old.right self.old.journal }
    {
        if let (Some(journal), Some(witness)) = (&mut self.journal, &mut seat.witness) {
            journal.release(witness);
        }
    }

    /// The entries so far. Their positions rise.
    pub fn entries(&self) -> &[Entry]
        ensures entries { result.now ≡ self.now.entries }
        ensures rising { RisesFrom 0 self.now.entries }
    {
        &self.entries
    }

    /// The entries, moved out. The journal stays.
    pub fn take_entries(&mut self, alloc: Global) -> Vec<Entry>
        ensures out { result.items ≡ self.old.entries }
        ensures none { self.new.entries ≡ [] }
        ensures journal { self.new.journal ≡ self.old.journal }
    {
        mem::replace(&mut self.entries, Vec::new(alloc))
    }
}

/// Adds the entry of an event to a journal.
fn note<R: Recorder, N: EntryName>(
    journal: &mut Journal<R>,
    witness: &mut Witness<R>,
    event: &Event<Lent<'_>>,
    reply: &Reply<Lent<'_>>,
)
    requires { N.entry ≡ entry (length journal.old.whole) witness.old.number event.now reply.now }
    ensures added { journal.new ≡ record journal.old { whole = journal.old.whole ++ entry (length journal.old.whole) witness.old.number event.now reply.now ∷ [] } }
    ensures witness { witness.new ≡ record { number = witness.old.number; right = witness.old.right; seen = journal.new.whole } }
    ensures before { IsPrefix witness.old.seen journal.old.whole }
    ensures mine { part witness.old.number journal.old.whole ≡ part witness.old.number witness.old.seen }
    ensures known { slice_get journal.old.rights witness.old.number ≡ Some witness.old.right }
{
    journal.add::<N>(witness);
}
