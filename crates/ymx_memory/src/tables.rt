//! Tables with an order, and those of words that threads share.

ghost use Rattle.std.specs.Prelude.{◌≡◌, ◌<◌, ◌≤◌, [], length, nat_eq, IfOk, IsOk, OnOk, OnErr};
ghost use Rattle.atomic_table.specs.Table.{opening};
ghost use Rattle.indexmap.specs.IndexMap.{insert_entry, spare, IsUnchanged};
ghost use Rattle.indexmap.specs.IndexSet.{spare as set_spare, IsEmpty as IsEmptySet, IsUnchanged as IsUnchangedSet, KeepsRoom, index_set_len};
ghost use Rattle.ymx_memory.specs.Bounds.{most_items, most_numbers};

use crate::refused::RefusedAllocation;
use atomic_table::{Seat, Table, TableRule};
use indexmap::{IndexMap, IndexSet};
use std::alloc::Global;

/// Puts the value under its key: in the place of the one that stood there, or after all others where the key is new.
///
/// `RefusedAllocation` where a new key needs memory and the allocator has none: the value is dropped, and the map is as
/// it was.
pub fn insert<V: Drop>(
    map: &mut IndexMap<u32, V>,
    key: u32,
    value: V,
) -> Result<(), RefusedAllocation>
    ensures entries { OnOk result (map.new.entries ≡ insert_entry nat_eq map.old.entries key value) }
    ensures refused_unchanged { OnErr result (IsUnchanged map.old map.new) }
    ensures succeeds { 0 < spare map.old → IsOk result }
{
    match map.insert(key, value) {
        Ok(_) => Ok(()),
        Err(_) => Err(RefusedAllocation::new()),
    }
}

/// Room in a map for one more key. A refusal leaves its entries.
pub fn reserve_map<V: Drop>(map: &mut IndexMap<u32, V>) -> Result<(), RefusedAllocation>
    ensures entries { IsUnchanged map.old map.new }
    ensures room { OnOk result (1 ≤ spare map.new) }
{
    match map.reserve(1) {
        Ok(()) => Ok(()),
        Err(_) => Err(RefusedAllocation::new()),
    }
}

/// An empty set with room for `capacity` numbers, at most 1,024.
pub fn set_with_capacity(alloc: Global, capacity: usize) -> Result<IndexSet<u32>, RefusedAllocation>
    requires at_most { capacity ≤ most_items }
    ensures empty { IfOk result IsEmptySet }
    ensures len { IfOk result (λ set. index_set_len set ≡ 0) }
    ensures room { IfOk result (λ set. capacity ≤ set_spare set) }
{
    match IndexSet::with_capacity(alloc, capacity) {
        Ok(set) => Ok(set),
        Err(_) => Err(RefusedAllocation::new()),
    }
}

/// Room in a set for so many more numbers, at most as many as there are of 32 bits. A refusal leaves its numbers.
pub fn reserve_set(set: &mut IndexSet<u32>, additional: usize) -> Result<(), RefusedAllocation>
    requires at_most { additional ≤ most_numbers }
    ensures keys { IsUnchangedSet set.old set.new }
    ensures ok { OnOk result (additional ≤ set_spare set.new) }
    ensures room { KeepsRoom set.old set.new }
{
    match set.reserve(additional) {
        Ok(()) => Ok(()),
        Err(_) => Err(RefusedAllocation::new()),
    }
}

/// A table of these words that threads share, with no slot, and its first seat.
pub fn table_of_words<S, V, K, P: TableRule<S, V, K>>(
    alloc: Global,
    words: &[u64],
    about: &K,
) -> Result<(Table<S, V, K, P, Global>, Seat<S, V>), RefusedAllocation>
    requires { P.holds about.now (opening words.now [] (P.first about.now)) }
    ensures { IfOk result (λ t. (t.0.shared.table_id.words ≡ length words.now) × (t.0.shared.table_id.slots ≡ 0) × (t.1.table_id ≡ t.0.shared.table_id) × (t.1.id ≡ 0) × (t.1.me ≡ (P.first about.now, [])) × (t.0.shared.key ≡ about.now)) }
{
    match Table::of_words(alloc, words, about) {
        Ok(made) => Ok(made),
        Err(_) => Err(RefusedAllocation::new()),
    }
}
