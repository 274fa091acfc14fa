//! The journal and its witnesses.

ghost use Rattle.std.specs.Prelude.{◌≡◌, ◌++◌, ◌∷◌, [], length, set, slice_get, Some};
ghost use mathlib.Core.List.{IsPrefix};
ghost use Rattle.ymx_seats.specs.Journals.{part, release_of};

use crate::plays::{
    Adds, Counts, EntryName, Knowledge, Naming, Numbers, OneHistory, ReleasesReads, RightName,
    Shows, Visit,
};
use atomic_table::{Badge, Seat, Table};
use std::alloc::Global;
use std::marker::{Model, PhantomData};
use std::mem;
use ymx_memory::{RefusedAllocation, table_of_words};

/// A journal with no entry, which has no name yet. A contract sees its table.
#[derive(Drop)]
pub struct NewJournal {
    table: Table<u8, Knowledge, (), OneHistory, Global>,
    keeper: Seat<u8, Knowledge>,
}

impl Model for NewJournal {
    ghost use Rattle.std.specs.Prelude.{◌≡◌, ◌<◌, []};
    ghost use Rattle.atomic_table.specs.Seated.{TableId};
    ghost use Rattle.ymx_seats.specs.Journals.{knower};

    ghost Value = { TableId };

    ghost view = { λ o. o.table.shared.table_id };

    ghost invariant = { λ o. (o.keeper.table_id ≡ o.table.shared.table_id) × (o.keeper.me ≡ (knower [] [], [])) × (0 < o.table.shared.table_id.words) };
}

impl NewJournal {
    /// A journal with no entry. `RefusedAllocation` where there is no memory for its one word.
    pub fn new(alloc: Global) -> Result<NewJournal, RefusedAllocation> {
        let (table, keeper) = table_of_words(alloc, &[0], &())?;
        Ok(NewJournal { table, keeper })
    }

    /// This journal under a name.
    pub fn named<J: Naming>(self) -> Journal<J>
        requires { self ≡ J.table }
        ensures whole { result.whole ≡ [] }
        ensures rights { result.rights ≡ [] }
    {
        let NewJournal { table, keeper } = self;
        Journal {
            table,
            keeper,
            of: PhantomData,
        }
    }
}

/// The whole history, and the right to add to it. A contract sees the entries, and what each caller may do that was numbered.
#[derive(Drop)]
pub struct Journal<J: Naming> {
    table: Table<u8, Knowledge, (), OneHistory, Global>,
    keeper: Seat<u8, Knowledge>,
    of: PhantomData<J>,
}

impl<J: Naming> Model for Journal<J> {
    ghost use Rattle.std.specs.Prelude.{◌≡◌, ◌<◌, []};
    ghost use Rattle.ymx_seats.specs.Journals.{JournalView, knower};

    ghost Value = { JournalView };

    ghost view = { λ j. record { whole = j.keeper.me.0.whole; rights = j.keeper.me.0.rights } };

    ghost invariant = { λ j. (j.keeper.table_id ≡ J.table) × (j.table.shared.table_id ≡ J.table) × (j.keeper.me ≡ (knower j.keeper.me.0.whole j.keeper.me.0.rights, [])) × (0 < j.table.shared.table_id.words) };
}

/// What a caller knows of the history. A contract sees its number, what it may do, and the history as it was at its last event,
/// in which all its entries stand.
#[derive(Drop)]
pub struct Witness<J: Naming> {
    badge: Badge<Knowledge>,
    of: PhantomData<J>,
}

impl<J: Naming> Model for Witness<J> {
    ghost use Rattle.std.specs.Prelude.{◌≡◌, [], ◌∷◌};
    ghost use Rattle.ymx_seats.specs.Journals.{WitnessView, witnessed, caller};

    ghost Value = { WitnessView };

    ghost view = { λ w. witnessed w.badge.views };

    ghost invariant = { λ w. (w.badge.table_id ≡ J.table) × (w.badge.views ≡ caller (witnessed w.badge.views).number (witnessed w.badge.views).right (witnessed w.badge.views).seen ∷ []) };
}

impl<J: Naming> Journal<J> {
    /// The witness of one more caller, which may do what this names, and has seen the whole history. None of its entries are
    /// that caller's.
    pub fn witness<D: RightName>(&mut self) -> Witness<J>
        ensures number { result.number ≡ length self.old.rights }
        ensures right { result.right ≡ D.right }
        ensures seen { result.seen ≡ self.old.whole }
        ensures none { part (length self.old.rights) self.old.whole ≡ [] }
        ensures whole { self.new.whole ≡ self.old.whole }
        ensures rights { self.new.rights ≡ self.old.rights ++ D.right ∷ [] }
    {
        let table = &self.table;
        let steps = &table.shared;
        steps.load::<Counts>(&mut self.keeper, 0);
        let pass = steps.split_seat::<Numbers<D>>(&mut self.keeper);
        Witness {
            badge: pass.into_badge(),
            of: PhantomData,
        }
    }

    /// Adds the entry that this names, which is of this caller. What the caller had seen is a beginning of the history
    /// before, which has no other entry of the caller; and the caller has then seen all.
    pub fn add<N: EntryName>(&mut self, me: &mut Witness<J>)
        requires { N.entry.seat ≡ me.old.number }
        ensures added { self.new.whole ≡ self.old.whole ++ N.entry ∷ [] }
        ensures rights { self.new.rights ≡ self.old.rights }
        ensures number { me.new.number ≡ me.old.number }
        ensures right { me.new.right ≡ me.old.right }
        ensures seen { me.new.seen ≡ self.new.whole }
        ensures before { IsPrefix me.old.seen self.old.whole }
        ensures mine { part me.old.number self.old.whole ≡ part me.old.number me.old.seen }
        ensures known { slice_get self.old.rights me.old.number ≡ Some me.old.right }
    {
        let table = &self.table;
        let steps = &table.shared;
        let pass = mem::replace(&mut me.badge, Badge::blank()).into_seat();
        steps.join_seat::<Visit>(&mut self.keeper, pass);
        steps.load::<Adds<N>>(&mut self.keeper, 0);
        me.badge = steps.split_seat::<Visit>(&mut self.keeper).into_badge();
    }

    /// Shows the whole history to this caller. What it had seen is a beginning of it, and no other entry is the caller's.
    pub fn show(&mut self, me: &mut Witness<J>)
        ensures same { self.new ≡ self.old }
        ensures number { me.new.number ≡ me.old.number }
        ensures right { me.new.right ≡ me.old.right }
        ensures seen { me.new.seen ≡ self.old.whole }
        ensures before { IsPrefix me.old.seen self.old.whole }
        ensures mine { part me.old.number self.old.whole ≡ part me.old.number me.old.seen }
        ensures known { slice_get self.old.rights me.old.number ≡ Some me.old.right }
    {
        let table = &self.table;
        let steps = &table.shared;
        let pass = mem::replace(&mut me.badge, Badge::blank()).into_seat();
        steps.join_seat::<Visit>(&mut self.keeper, pass);
        steps.load::<Shows>(&mut self.keeper, 0);
        me.badge = steps.split_seat::<Visit>(&mut self.keeper).into_badge();
    }
    /// This caller releases its reads to all. It has seen what it had seen.
    pub fn release(&mut self, me: &mut Witness<J>)
        ensures whole { self.new.whole ≡ self.old.whole }
        ensures rights { self.new.rights ≡ set self.old.rights me.old.number (release_of me.old.right) }
        ensures me { me.new ≡ record me.old { right = release_of me.old.right } }
        ensures known { slice_get self.old.rights me.old.number ≡ Some me.old.right }
    {
        let table = &self.table;
        let steps = &table.shared;
        let pass = mem::replace(&mut me.badge, Badge::blank()).into_seat();
        steps.join_seat::<Visit>(&mut self.keeper, pass);
        steps.load::<ReleasesReads>(&mut self.keeper, 0);
        me.badge = steps.split_seat::<Visit>(&mut self.keeper).into_badge();
    }
}
