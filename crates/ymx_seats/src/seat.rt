//! The seat of a caller: its own list of what it did.

ghost use Rattle.std.specs.Prelude.{◌≡◌, ◌-◌, ◌+◌, ◌<◌, ◌≤◌, ◌++◌, ◌∷◌, [], false, None, vec_capacity, vec_len, OnOk};
ghost use Rattle.ymx_memory.specs.Bounds.{most_entries};

use crate::journal::Witness;
use crate::recorder::Recorder;
use std::alloc::Global;
use std::marker::{Model, PhantomData};
use ymx_memory::RefusedAllocation;
use ymx_model::Entry;

/// A caller, with the entries of its events. It must be handed in at the end: it cannot be dropped.
/// A contract sees its number, what it may do, the first position that its entries may have, the entries, for how many more there is
/// memory, and the history as it has seen it, if there is a journal: that is the history of a session.
pub struct Seat<R: Recorder> {
    number: u32,
    start: u64,
    entries: Vec<Entry>,
    pub(crate) witness: Option<Witness<R>>,
    kind: PhantomData<R>,
}

impl<R: Recorder> Model for Seat<R> {
    ghost use Rattle.std.specs.Prelude.{◌-◌, vec_capacity, vec_len};
    ghost use Rattle.ymx_seats.specs.Views.{SeatView, right_by, seen_by, IsOf, IsWitnessed};

    ghost Value = { SeatView };

    ghost view = { λ s. record { number = s.number; right = right_by s.witness; start = s.start; entries = s.entries.items; room = vec_capacity s.entries - vec_len s.entries; seen = seen_by s.witness } };

    ghost invariant = { λ s. IsOf s.number s.witness × IsWitnessed R.WITNESSED R.role R.config (seen_by s.witness) };
}

/// What is left of a seat that was dropped: its number, its start, and the history as it had seen it. It may be dropped, and
/// taken to another thread, where the seat goes on. A contract sees it as a seat with no entries.
#[derive(Drop)]
pub struct Parked<R: Recorder> {
    number: u32,
    start: u64,
    witness: Option<Witness<R>>,
}

impl<R: Recorder> Model for Parked<R> {
    ghost use Rattle.std.specs.Prelude.{[]};
    ghost use Rattle.ymx_seats.specs.Views.{SeatView, right_by, seen_by, IsOf, IsWitnessed};

    ghost Value = { SeatView };

    ghost view = { λ s. record { number = s.number; right = right_by s.witness; start = s.start; entries = []; room = 0; seen = seen_by s.witness } };

    ghost invariant = { λ s. IsOf s.number s.witness × IsWitnessed R.WITNESSED R.role R.config (seen_by s.witness) };
}

impl<R: Recorder> Parked<R> {
    /// The seat goes on, with no entries. Takes no memory.
    pub fn into_seat(self, alloc: Global) -> Seat<R>
        ensures { result ≡ self }
    {
        let Parked {
            number,
            start,
            witness,
        } = self;
        Seat::with_witness(alloc, number, start, witness)
    }
}

impl<R: Recorder> Seat<R> {
    ghost use Rattle.ymx_seats.specs.Views.{IsWitnessed, IsOf, right_by, seen_by};

    /// A seat with no entries, whose entries will have positions from `start` on, with this witness. Takes no memory.
    pub(crate) fn with_witness(
        alloc: Global,
        number: u32,
        start: u64,
        witness: Option<Witness<R>>,
    ) -> Seat<R>
        requires of { IsOf number witness }
        requires witnessed { IsWitnessed R.WITNESSED R.role R.config (seen_by witness) }
        ensures number { result.number ≡ number }
        ensures right { result.right ≡ right_by witness }
        ensures start { result.start ≡ start }
        ensures empty { result.entries ≡ [] }
        ensures room { result.room ≡ 0 }
        ensures seen { result.seen ≡ seen_by witness }
    {
        Seat {
            number,
            start,
            entries: Vec::new(alloc),
            witness,
            kind: PhantomData,
        }
    }

    /// A seat of no journal, with no entries, whose entries will have positions from `start` on. Takes no memory.
    pub fn new(alloc: Global, number: u32, start: u64) -> Seat<R>
        requires { R.WITNESSED ≡ false }
        ensures number { result.number ≡ number }
        ensures start { result.start ≡ start }
        ensures empty { result.entries ≡ [] }
        ensures seen { result.seen ≡ None }
    {
        Seat::with_witness(alloc, number, start, None)
    }

    /// What the seat has seen, where the recorder witnesses, is the history of a session of the role and the config that
    /// the recorder names. It does nothing at run time.
    pub fn history(&self)
        ensures { IsWitnessed R.WITNESSED R.role R.config self.now.seen }
    {
        let _ = &self.witness;
    }

    /// Its number: seats are numbered 0, 1, 2, .. as they are given.
    pub fn number(&self) -> u32
        ensures { result ≡ self.now.number }
    {
        self.number
    }

    /// The first position that its entries may have.
    pub fn start(&self) -> u64
        ensures { result ≡ self.now.start }
    {
        self.start
    }

    /// Finds memory for so many more entries, one or two. `RefusedAllocation` where there is none; the entries stay as
    /// they are.
    pub fn make_room(&mut self, count: usize) -> Result<(), RefusedAllocation>
        requires at_most { count ≤ most_entries }
        ensures number { self.new.number ≡ self.old.number }
        ensures right { self.new.right ≡ self.old.right }
        ensures start { self.new.start ≡ self.old.start }
        ensures entries { self.new.entries ≡ self.old.entries }
        ensures seen { self.new.seen ≡ self.old.seen }
        ensures ok { OnOk result (count ≤ self.new.room) }
        ensures room { self.old.room ≤ self.new.room }
    {
        ymx_memory::reserve(&mut self.entries, count)
    }

    /// Adds an entry after the others, in memory that was found before.
    pub fn add(&mut self, entry: Entry)
        requires { 0 < self.old.room }
        ensures number { self.new.number ≡ self.old.number }
        ensures right { self.new.right ≡ self.old.right }
        ensures start { self.new.start ≡ self.old.start }
        ensures entries { self.new.entries ≡ self.old.entries ++ entry ∷ [] }
        ensures seen { self.new.seen ≡ self.old.seen }
        ensures room { self.new.room + 1 ≡ self.old.room }
    {
        self.entries.push_reserved(entry);
    }

    /// Its entries, in their order.
    pub fn entries(&self) -> &[Entry]
        ensures { result.now ≡ self.now.entries }
    {
        &self.entries
    }

    /// Lets the seat go, with its entries. What it has seen stays known.
    pub fn into_parked(self) -> Parked<R>
        ensures { result ≡ record self { entries = []; room = 0 } }
    {
        let Seat {
            number,
            start,
            entries: _,
            witness,
            kind: _,
        } = self;
        Parked {
            number,
            start,
            witness,
        }
    }

    /// Its entries, moved out.
    pub fn into_entries(self) -> Vec<Entry>
        ensures { result.items ≡ self.entries }
    {
        let Seat {
            number: _,
            start: _,
            entries,
            witness: _,
            kind: _,
        } = self;
        entries
    }
}

/// Lets a list of seats go.
pub fn discard<R: Recorder>(mut seats: Vec<Seat<R>>) {
    while let Some(seat) = seats.pop() {
        let _ = seat.into_entries();
    }
    seats.destroy_empty();
}
