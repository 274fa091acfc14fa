//! The records of a session's streams by id, in the order in which they were made. A write changes one
//! record and nothing else. Which streams have a frame due is kept, and so are how many bytes of all streams are unsent
//! and the place in the order from which the next turn to send starts. An insertion takes memory, and a write only where more than 262,144
//! bytes of its stream would be unsent.
#![tactic(auto)]

ghost use Rattle.std.specs.Prelude.{◌≡◌, ◌^◌, ◌<◌, ◌≤◌, ◌↔◌, length, nat_eq, is_some, All, IsTrue, IsSome, MatchBool, MatchOption, IfOk, OnOk, OnErr, None};
ghost use Rattle.std.specs.List.{IsDistinct};
ghost use Rattle.std.specs.Map.{keys_of};
ghost use Rattle.std.specs.Option.{option_copied};
ghost use Rattle.ymx_model.specs.session.Records.{window_held};
ghost use Rattle.ymx_machine.specs.shared.Limits.{first_credit, most_records, widest_window};
ghost use Rattle.ymx_machine.specs.shared.Lists.{look};
ghost use Rattle.ymx_model.specs.session.Tables.{new_table, insert_record, remove_record};
ghost use Rattle.ymx_table.specs.Standing.{StandsAt};

mod due;
mod due_places;
mod flags;
mod law;
mod listing;
mod making;
mod stream;
mod turn;
mod unacknowledged;
mod unsent;

use due_places::DuePlaces;
use indexmap::IndexMap;
pub use law::others_keep;
use std::alloc::Global;
use std::marker::Model;
pub use turn::NextFrame;
use unsent::retotal;
use ymx_half::StreamRec;
use ymx_header::MOST_RECORDS;
use ymx_memory::RefusedAllocation;
use ymx_ring::Pool;

/// The records of a session by stream id. A contract sees the record `Table` of `ymx_model`: the window
/// of the session, the records with their ids in order, and the place of the next turn.
///
/// At most 1,024 records are there, under as many ids. A new one goes last; where one is removed, those
/// after it move up.
#[derive(Drop)]
pub struct Table {
    window: u32,
    records: IndexMap<u32, StreamRec>,
    turn: usize,
    due: DuePlaces,
    /// How many bytes of all streams were written and stand in no frame begun yet.
    unsent: u128,
    /// Where a record was found last. A following call on the same stream finds it there, and hashes no id.
    last: usize,
    /// The blocks of memory with which the streams' rings take turns, and those of streams that are gone.
    pool: Pool,
}

impl Model for Table {
    ghost use Rattle.ymx_model.specs.session.Tables.{Table as Records};
    ghost use Rattle.ymx_table.specs.Kept.{IsKept};

    ghost Value = { Records };

    ghost view = { λ t. record { window = t.window; entries = t.records.entries; turn = t.turn } };

    ghost invariant = { λ t. IsKept (record { window = t.window; entries = t.records.entries; turn = t.turn }) t.due t.unsent };
}

impl Table {
    /// Makes an empty table for a session of this window, in bytes: from 262,144 to 16,777,216. It takes
    /// the memory for what it keeps of streams that are gone.
    pub fn new(alloc: Global, window: u32) -> Result<Table, RefusedAllocation>
        requires narrowest { first_credit ≤ window }
        requires widest { window ≤ widest_window }
        ensures { IfOk result (λ table. table ≡ new_table window) }
    {
        Ok(Table {
            window,
            records: IndexMap::new(alloc),
            turn: 0,
            due: DuePlaces::new(),
            unsent: 0,
            last: 0,
            pool: Pool::new(alloc)?,
        })
    }

    /// The window of the session, in bytes: from 262,144 to 16,777,216.
    pub fn window(&self) -> u32
        ensures value { result ≡ self.now.window }
        ensures narrowest { first_credit ≤ result }
        ensures widest { result ≤ widest_window }
    {
        self.window
    }

    /// How many records there are: at most 1,024, each under an id of its own.
    pub fn len(&self) -> usize
        ensures count { result ≡ length self.now.entries }
        ensures few { result ≤ most_records }
        ensures turn_within { self.now.turn ≤ result }
        ensures ids_distinct { IsDistinct nat_eq (keys_of self.now.entries) }
        ensures ids_fit { All (λ id. id < 2 ^ 32) (keys_of self.now.entries) }
    {
        self.records.len()
    }

    /// Whether there is no record.
    pub fn is_empty(&self) -> bool
        ensures { IsTrue result ↔ (length self.now.entries ≡ 0) }
    {
        self.records.is_empty()
    }

    /// Whether 1,024 records are there, so that no other can be inserted.
    pub fn is_full(&self) -> bool
        ensures { MatchBool result (length self.now.entries ≡ most_records) (length self.now.entries < most_records) }
    {
        self.len() == MOST_RECORDS
    }

    /// Whether there is a record under this id.
    pub fn contains(&self, id: u32) -> bool
        ensures { result ≡ is_some (look id self.now.entries) }
    {
        self.records.contains_key(&id)
    }

    /// The record under this id, or `None` if there is none.
    pub fn get(&self, id: u32) -> Option<&StreamRec>
        ensures { option_copied result ≡ look id self.now.entries }
    {
        let place = self.find(id)?;
        Some(&self.records[place])
    }

    /// Looks a record up for the calls on its stream that follow: as long as they are on this stream alone, none
    /// of them hashes its id. The table stays as it was, whether or not there is such a record.
    pub fn locate(&mut self, id: u32)
        ensures { self.new ≡ self.old }
    {
        if let Some(place) = self.find(id) {
            self.last = place;
        }
    }

    /// Inserts the record of a new stream after the others. There has to be room for it, and no record
    /// under its id. It was made for the session's window: what is unread of it, granted and owed makes up
    /// that window.
    ///
    /// It takes memory. Without it it answers `RefusedAllocation`: the table is as it was, and the record is
    /// dropped.
    pub fn insert(&mut self, id: u32, stream: StreamRec) -> Result<(), RefusedAllocation>
        requires absent { look id self.old.entries ≡ None }
        requires room { length self.old.entries < most_records }
        requires of_window { window_held stream.reader ≡ self.old.window }
        ensures last { OnOk result (self.new ≡ insert_record id stream self.old) }
        ensures refused_unchanged { OnErr result (self.new ≡ self.old) }
    {
        let is_due = stream.is_due(self.window);
        let unsent = stream.unsent_len();
        ymx_memory::insert(&mut self.records, id, stream)?;
        self.due.push(is_due);
        self.unsent = retotal(self.unsent, 0, unsent);
        Ok(())
    }

    /// Removes the record under this id, which has to be there, and drops it. Those after it move up,
    /// and if the place of the next turn is after it, that moves up with them.
    pub fn remove(&mut self, id: u32)
        requires { IsSome (look id self.old.entries) }
        ensures { self.new ≡ remove_record id self.old }
    {
        let place = self.index_of(id);
        let unsent = self.records[place].unsent_len();
        let is_last = self.records.len() == 1;
        end_of(
            self.records.shift_remove_index(place),
            is_last,
            &mut self.pool,
        );
        self.due.remove(place);
        self.unsent = retotal(self.unsent, unsent, 0);
        if place < self.turn {
            self.turn -= 1;
        }
    }

    /// The place of a record in the order, or `None` if there is none under this id.
    fn find(&self, id: u32) -> Option<usize>
        ensures { MatchOption result (look id self.now.entries ≡ None) (StandsAt id self.now) }
    {
        self.find_near(id, self.last)
    }

    /// The same, where the record may well stand at the place `near`: if it does, no id is hashed.
    fn find_near(&self, id: u32, near: usize) -> Option<usize>
        ensures { MatchOption result (look id self.now.entries ≡ None) (StandsAt id self.now) }
    {
        if self.stands_at(id, near) {
            return Some(near);
        }
        self.records.get_index_of(&id)
    }

    /// Whether the record under this id stands at this place.
    fn stands_at(&self, id: u32, at: usize) -> bool
        ensures { IsTrue result → StandsAt id self.now at }
    {
        if at >= self.records.len() {
            return false;
        }
        let (key, _) = self.records.get_index(at).unwrap();
        *key == id
    }

    /// The place of a record that is there.
    fn index_of(&self, id: u32) -> usize
        requires { IsSome (look id self.now.entries) }
        ensures { StandsAt id self.now result }
    {
        self.find(id).unwrap()
    }

    /// The place of a record that is there, and may well stand at the place `near`.
    fn place_near(&self, id: u32, near: usize) -> usize
        requires { IsSome (look id self.now.entries) }
        ensures { StandsAt id self.now result }
    {
        self.find_near(id, near).unwrap()
    }
}

/// The record that was removed ends. Its memory is kept for the next stream; with the last one memory goes back that was
/// in use.
fn end_of(removed: Option<(u32, StreamRec)>, is_last: bool, pool: &mut Pool) {
    if let Some((_, stream)) = removed {
        stream.end(pool);
    }
    if is_last {
        pool.rest();
    }
}
