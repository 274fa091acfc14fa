//! Which streams their caller has.

ghost use Rattle.std.specs.Prelude.{◌≡◌, ◌<◌, ◌≤◌, ◌++◌, ◌&&◌, nat_eq, not, length, take, drop, slice_set};
ghost use Rattle.std.specs.List.{list_any};
ghost use Rattle.ymx_table.specs.Listing.{is_held, held_ids};

use crate::Table;
use ymx_half::{Stage, StreamRec};

impl Table {
    /// The ids of the streams that their caller has, which are those that were opened or accepted and not given up,
    /// without those in `but`: in the order of the table, as many as fit at the front of `ids`. It returns how many
    /// there are in all. The rest of `ids` stays as it was. Each record is looked at.
    pub fn held_ids(&self, but: &[u32], ids: &mut [u32]) -> usize
        ensures count { result ≡ length (held_ids but.now self.now.entries) }
        ensures listed { ids.new ≡ take (length ids.old) (held_ids but.now self.now.entries) ++ drop result ids.old }
    {
        let mut count = 0;
        for place in 0..self.records.len() {
            let (id, stream) = self.records.get_index(place).unwrap();
            if is_listed(but, *id, stream) {
                put_id(*id, count, ids);
                count += 1;
            }
        }
        count
    }
}

/// Whether the caller has this stream, and its id isn't in `but`.
fn is_listed(but: &[u32], id: u32, stream: &StreamRec) -> bool
    ensures { result ≡ (is_held stream.now && not (list_any (nat_eq id) but.now)) }
{
    matches!(stream.stage(), Stage::Live | Stage::Reset) && !but.contains(&id)
}

/// Writes an id to a place, if there is one.
fn put_id(id: u32, place: usize, ids: &mut [u32])
    ensures there { place < length ids.old → ids.new ≡ slice_set ids.old place id }
    ensures full { length ids.old ≤ place → ids.new ≡ ids.old }
{
    if place < ids.len() {
        ids[place] = id;
    }
}
