//! What the passes of a journal know, and their steps.

use atomic_table::{Join, Play, Split, TableRule};
use std::collections::LinkedList;
use std::marker::{Brand, PhantomData};
use ymx_model::Entry;

/// Names one journal, with the session that it is of: its role, and with what it was made. A program picks the name
/// where it calls a function that is generic in it.
pub trait Naming {
    ghost use Rattle.atomic_table.specs.Seated.{TableId};
    ghost use Rattle.ymx_model.specs.declared.types.Role.{Role};
    ghost use Rattle.ymx_model.specs.declared.types.Config.{Config};

    ghost table: { TableId };

    ghost role: { Role };

    ghost config: { Config };
}

impl Naming for Brand {
    ghost use Rattle.ymx_model.specs.declared.types.Role.TheVariants.{Client};
    ghost use Rattle.ymx_seats.specs.Journals.{no_table, no_config};

    ghost table = { no_table };

    ghost role = { Client };

    ghost config = { no_config };
}

/// Names one entry. A caller picks it where it adds the entry.
pub trait EntryName {
    ghost use Rattle.ymx_model.specs.declared.types.Entry.{Entry};

    ghost entry: { Entry };
}

impl EntryName for Brand {
    ghost use Rattle.ymx_seats.specs.Journals.{no_entry};

    ghost entry = { no_entry };
}

/// What a caller may do to streams. No value of it is made.
pub enum Right {
    /// What is no call of a half, and reads that were released.
    Free,
    /// The calls of the writing half of this stream too, which the entry at this position gave.
    Writes(u32, u64),
    /// The reads of this stream too, which the entry at this position gave.
    Reads(u32, u64),
    /// The same. It had the reads of this stream, which the entry at this position gave, and released them to all.
    Released(u32, u64),
}

/// Names what one caller may do. The keeper picks it where it numbers the caller.
pub trait RightName {
    ghost use Rattle.ymx_seats.specs.declared.plays.Right.{Right};

    ghost right: { Right };
}

impl RightName for Brand {
    ghost use Rattle.ymx_seats.specs.declared.plays.Right.TheVariants.{Free};

    ghost right = { Free };
}

/// The right of a caller that is of no half.
pub struct NoHalf;

impl RightName for NoHalf {
    ghost use Rattle.ymx_seats.specs.declared.plays.Right.TheVariants.{Free};

    ghost right = { Free };
}

/// The right of the reading half of a stream, for whose writing half this names the right.
pub struct ReadsOf<D: RightName> {
    of: PhantomData<D>,
}

impl<D: RightName> RightName for ReadsOf<D> {
    ghost use Rattle.ymx_seats.specs.Journals.{reads_of};

    ghost right = { reads_of D.right };
}

/// What a pass knows. The keeper's knows the whole history, and what each caller may do that was numbered; that of a caller
/// knows its number, what it may do, and the history as it was seen. No value of it is made.
pub struct Knowledge {
    /// It is the keeper's.
    pub keeps: bool,
    /// What each caller may do, by its number.
    pub rights: LinkedList<Right>,
    /// The whole history.
    pub whole: LinkedList<Entry>,
    /// It has the number of a caller.
    pub speaks: bool,
    /// That number.
    pub number: u64,
    /// What that caller may do.
    pub right: Right,
    /// The history as that caller has seen it.
    pub seen: LinkedList<Entry>,
}

/// The rule of a journal.
pub(crate) struct OneHistory;

impl TableRule<u8, Knowledge, ()> for OneHistory {
    ghost use Rattle.ymx_seats.specs.Journals.{IsKept, knower};
    ghost use Rattle.std.specs.Prelude.{[]};

    ghost holds = { λ _ s. IsKept s.views };

    ghost first = { λ _. knower [] [] };
}

/// The keeper, who holds a caller's number, adds the entry that this names.
pub(crate) struct Adds<N: EntryName> {
    of: PhantomData<N>,
}

impl<N: EntryName> Play<u8, Knowledge> for Adds<N> {
    ghost use Rattle.ymx_seats.specs.Journals.{HasAdded};

    ghost then = { λ _ v _ w. HasAdded N.entry v w };
}

/// The keeper, who holds a caller's number, shows it the whole history.
pub(crate) struct Shows;

impl Play<u8, Knowledge> for Shows {
    ghost use Rattle.ymx_seats.specs.Journals.{HasShown};

    ghost then = { λ _ v _ w. HasShown v w };
}

/// The caller whose number the keeper holds releases its reads to all.
pub(crate) struct ReleasesReads;

impl Play<u8, Knowledge> for ReleasesReads {
    ghost use Rattle.ymx_seats.specs.Journals.{HasReleased};

    ghost then = { λ _ v _ w. HasReleased v w };
}

/// The keeper finds that no caller to come has an entry.
pub(crate) struct Counts;

impl Play<u8, Knowledge> for Counts {
    ghost use Rattle.ymx_seats.specs.Journals.{HasCounted};

    ghost then = { λ _ v _ w. HasCounted v w };
}

/// A caller's number goes to the keeper, and back.
pub(crate) struct Visit;

impl Join<Knowledge> for Visit {
    ghost use Rattle.ymx_seats.specs.Journals.{visited, nobody};

    ghost both = { visited };

    ghost spent = { nobody };
}

impl Split<Knowledge> for Visit {
    ghost use Rattle.ymx_seats.specs.Journals.{knower, visitor};

    ghost left = { λ v. knower v.whole v.rights };

    ghost right = { visitor };
}

/// The next caller is numbered, and may do what this names.
pub(crate) struct Numbers<D: RightName> {
    of: PhantomData<D>,
}

impl<D: RightName> Split<Knowledge> for Numbers<D> {
    ghost use Rattle.std.specs.Prelude.{◌++◌, ◌∷◌, [], length};
    ghost use Rattle.ymx_seats.specs.Journals.{knower, caller};

    ghost left = { λ v. knower v.whole (v.rights ++ D.right ∷ []) };

    ghost right = { λ v. caller (length v.rights) D.right v.whole };
}
