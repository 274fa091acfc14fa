//! The streams that were released.

ghost use Rattle.std.specs.Prelude.{◌≡◌, ◌≢◌, ◌+◌, ◌-◌, ◌<◌, ◌≤◌, ◌++◌, ◌∷◌, ℕ, [], length, swap_remove, slice_index_or, IfOk, IfErr, OnOk};
ghost use Rattle.ymx_machine.specs.shared.Limits.{most_records};

use std::alloc::Global;
use std::fmt;
use std::marker::Model;
use ymx_header::MOST_RECORDS;
use ymx_memory::RefusedAllocation;

/// A hub had no room for one stream more that is released: it has 1,024. It takes no bytes.
///
/// Only `ymx_hub` makes one, where it refuses a release. A contract sees nothing in it: that it is there says all.
#[derive(Clone, Copy, PartialEq, Eq)]
pub struct RefusedRelease {
    seal: (),
}

impl fmt::Debug for RefusedRelease {
    fn fmt<W: fmt::Write>(&self, f: &mut fmt::Formatter<W>) -> fmt::Result {
        f.write_str("RefusedRelease")
    }
}

/// The ids of the streams that were released, whose reading halves are unspent. There is room for 1,024, which is as many
/// streams as one session has.
#[derive(Drop)]
pub(crate) struct Released {
    ids: Vec<u32>,
}

impl Model for Released {
    ghost use Rattle.std.specs.Prelude.{ℕ, ◌≤◌, List, vec_capacity};
    ghost use Rattle.ymx_machine.specs.shared.Limits.{most_records};

    ghost Value = { List ℕ };

    ghost view = { λ r. r.ids.items };

    ghost invariant = { λ r. most_records ≤ vec_capacity r.ids };
}

impl Released {
    /// No stream is released. Takes memory for 1,024 ids.
    pub(crate) fn new(alloc: Global) -> Result<Released, RefusedAllocation>
        ensures { IfOk result (λ released. released ≡ []) }
    {
        let ids = ymx_memory::vec_with_capacity(alloc, MOST_RECORDS)?;
        Ok(Released { ids })
    }

    /// How many are released.
    pub(crate) fn len(&self) -> usize
        ensures { result ≡ length self.now }
    {
        self.ids.len()
    }

    /// The id at a place.
    pub(crate) fn at(&self, place: usize) -> u32
        requires { place < length self.now }
        ensures { (d : ℕ) → slice_index_or self.now place d ≡ result }
    {
        self.ids[place]
    }

    /// Whether there is room for one more.
    pub(crate) fn has_room(&self) -> Result<(), RefusedRelease>
        ensures room { OnOk result (length self.now < most_records) }
        ensures refused { IfErr result (λ _. most_records ≤ length self.now) }
    {
        if self.ids.len() >= MOST_RECORDS {
            return Err(RefusedRelease { seal: () });
        }
        Ok(())
    }

    /// One more is released.
    pub(crate) fn add(&mut self, id: u32)
        requires { length self.old < most_records }
        ensures { self.new ≡ self.old ++ id ∷ [] }
    {
        self.ids.push_reserved(id);
    }

    /// The one at a place is released no more. The last takes its place.
    pub(crate) fn remove(&mut self, place: usize)
        requires { place < length self.old }
        ensures ids { (d : ℕ) → self.new ≡ swap_remove self.old place (slice_index_or self.old place d) }
        ensures len { length self.new + 1 ≡ length self.old }
        ensures last { (d : ℕ) → place + 1 < length self.old → slice_index_or self.new place d ≡ slice_index_or self.old (length self.old - 1) d }
        ensures others { (k d : ℕ) → k ≢ place → k + 1 < length self.old → slice_index_or self.new k d ≡ slice_index_or self.old k d }
    {
        self.ids.swap_remove(place);
    }
}
