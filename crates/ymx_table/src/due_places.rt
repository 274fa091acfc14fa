//! Which records of the table have a frame due.

ghost use Rattle.std.specs.Prelude.{◌≡◌, ◌+◌, ◌<◌, ◌≤◌, ◌++◌, ◌∷◌, [], if◌then◌else◌, length, false, slice_set, slice_index_or, IsTrue, MatchOption};
ghost use Rattle.std.specs.List.{remove};
ghost use Rattle.ymx_machine.specs.shared.Limits.{most_records};
ghost use Rattle.ymx_table.specs.Flags.{set_count, IsFirst, IsNoneFrom};

use crate::flags::{WORDS, first_flag, has_flag, put_flag, take_flag_out};
use std::marker::Model;

/// For each record of a table, in its order, whether the stream has a frame due: at most 1,024 flags. A
/// contract sees their list.
///
/// They are the bits of 16 words, and how many are set is kept.
#[derive(Drop)]
pub(crate) struct DuePlaces {
    words: [u64; WORDS],
    len: usize,
    count: usize,
}

impl Model for DuePlaces {
    ghost use Rattle.std.specs.Prelude.{List, Bool};
    ghost use Rattle.ymx_table.specs.Flags.{flags_of, AreFlags};

    ghost Value = { List Bool };

    ghost view = { λ p. flags_of p.words p.len };

    ghost invariant = { λ p. AreFlags p.words p.len p.count };
}

impl DuePlaces {
    /// No flags: those of an empty table.
    pub(crate) fn new() -> DuePlaces
        ensures { result ≡ [] }
    {
        DuePlaces {
            words: [0; WORDS],
            len: 0,
            count: 0,
        }
    }

    /// How many flags are set.
    pub(crate) fn count(&self) -> usize
        ensures { result ≡ set_count self.now }
    {
        self.count
    }

    /// The flag of a record that is inserted after the others.
    pub(crate) fn push(&mut self, is_due: bool)
        requires { length self.old < most_records }
        ensures { self.new ≡ self.old ++ is_due ∷ [] }
    {
        put_flag(&mut self.words, self.len, is_due);
        self.len += 1;
        self.count = recount(self.count, false, is_due);
    }

    /// Sets or clears the flag of one record.
    pub(crate) fn set(&mut self, place: usize, is_due: bool)
        requires { place < length self.old }
        ensures { self.new ≡ slice_set self.old place is_due }
    {
        let was_due = has_flag(&self.words, place);
        put_flag(&mut self.words, place, is_due);
        self.count = recount(self.count, was_due, is_due);
    }

    /// Removes the flag of a record that is removed: those after it move up.
    pub(crate) fn remove(&mut self, place: usize)
        requires { place < length self.old }
        ensures { self.new ≡ remove self.old place }
    {
        let was_due = has_flag(&self.words, place);
        take_flag_out(&mut self.words, place);
        self.len -= 1;
        self.count = recount(self.count, was_due, false);
    }

    /// The first place from `from` on whose flag is set, or `None` if there is none.
    pub(crate) fn first_from(&self, from: usize) -> Option<usize>
        ensures { MatchOption result
            (IsNoneFrom (λ k. slice_index_or self.now k false) from)
            (IsFirst (λ k. slice_index_or self.now k false) from) }
    {
        first_flag(&self.words, from)
    }
}

/// How many flags are set once one of them has changed, which was set before or not, and is now or not.
fn recount(count: usize, was_due: bool, is_due: bool) -> usize
    requires counted { IsTrue was_due → 0 < count }
    requires few { count ≤ most_records }
    ensures { result + (if was_due then 1 else 0) ≡ count + (if is_due then 1 else 0) }
{
    count - usize::from(was_due) + usize::from(is_due)
}
