//! The connections of a tunnel by stream id, each with its device, and whose turn comes.

ghost use Rattle.std.specs.Prelude.{ℕ, ◌≡◌, ◌<◌, ◌≤◌, ◌⊎◌, ◌+◌, ◌-◌, ◌∷◌, ◌==◌, ◌&&◌, ◌||◌, if◌then◌else◌, not, [], length, nat_eq, nat_lt, min, slice_get, is_some, option_map, true, false, None, Some, Contains, OnOk, OnErr, IsOk, IfSome, IfNone, IsSome, MatchOption};
ghost use Rattle.std.specs.List.{list_any};
ghost use Rattle.std.specs.Map.{lookup, keys_of};
ghost use Rattle.std.specs.VecDeque.{deque_len, deque_capacity};
ghost use Rattle.ymx_session.specs.Touched.{is_noted, nothing_noted};
ghost use Rattle.ymx_engine.specs.Entries.{Rewrites};
ghost use Rattle.ymx_engine.specs.Directions.{is_over, new_directions};
ghost use Rattle.ymx_engine.specs.Turns.{Connection as ConnectionValue, connection_of, look, directions_of, held_mark, queue_mark, is_idle, Puts, SameConnections, SameQueues, KeepsConnections, Adds, Notes, Waits, Awaits, Attended, IsIdle, StaysOrAdds, WaitsAlone, AddsTurn, TakesTurn, Extends, StaysMissed, LeavesQueues, StandsBehind, IsDue, turns_left, without};

use crate::device::{Device, Readiness};
use crate::directions::Directions;
use indexmap::IndexMap;
use std::alloc::Global;
use std::collections::VecDeque;
use std::marker::Model;
use ymx_memory::RefusedAllocation;
use ymx_session::Touched;

/// A connection's device, and how its directions stand.
#[derive(Drop)]
pub(crate) struct Connection<D> {
    pub(crate) device: D,
    pub(crate) directions: Directions,
}

/// A connection, and in which queues it stands.
#[derive(Drop)]
pub(crate) struct Entry<D> {
    pub(crate) connection: Connection<D>,
    /// It waits for its turn.
    is_queued: bool,
    /// It waits until nothing waits for the wire.
    is_held: bool,
    /// It moves much: where it waits for a turn it stands among the busy ones.
    pub(crate) is_busy: bool,
}

/// Connections by stream id, those that may have something to move, each once in one of two queues, and those that are held back while
/// bytes wait for the wire.
///
/// Those that move much stand in a queue of their own, and the two queues take turns: so one that moves few bytes now and then
/// does not wait after all that move as many as they can. One moves much from a turn on that gave a whole frame, or left more to
/// move, until a turn gives less.
#[derive(Drop)]
pub(crate) struct Connections<D: Device + Drop> {
    pub(crate) by_id: IndexMap<u32, Entry<D>>,
    /// Those that move little.
    fresh: VecDeque<u32>,
    /// Those that move much.
    busy: VecDeque<u32>,
    held: VecDeque<u32>,
    /// The next turn is one of the busy ones'.
    is_for_busy: bool,
    /// A queue had no room for one that was to wait for a turn, and memory for it was refused. Memory for a turn of each
    /// is taken before it is added, so this never is.
    missed: Option<RefusedAllocation>,
    /// For how many turns at most the next frame of the wire waits, where it lacks a place.
    turns_to_place: Option<u128>,
}

impl<D: Device + Drop> Model for Connections<D> {
    ghost use Rattle.std.specs.Prelude.{◌&&◌, nat_lt, is_some};
    ghost use Rattle.std.specs.VecDeque.{deque_len, deque_capacity};
    ghost use Rattle.indexmap.specs.IndexMap.{spare};
    ghost use Rattle.ymx_engine.specs.Turns.{Connections as ConnectionsValue, AreListed, AreHeld};

    ghost Value = { ConnectionsValue };

    ghost use Rattle.ymx_engine.specs.Entries.{entries_seen};

    ghost view = { λ l. record { by_id = entries_seen D.seen l.by_id.entries; fresh = l.fresh.items; busy = l.busy.items; held = l.held.items; is_for_busy = l.is_for_busy; has_room = nat_lt (deque_len l.fresh) (deque_capacity l.fresh) && nat_lt (deque_len l.busy) (deque_capacity l.busy); has_place = nat_lt 0 (spare l.by_id); missed = is_some l.missed; turns_to_place = l.turns_to_place } };

    ghost invariant = { λ l. AreListed (entries_seen D.seen l.by_id.entries) l.fresh.items l.busy.items × AreHeld (entries_seen D.seen l.by_id.entries) l.held.items };
}

impl<D: Device + Drop> Connections<D> {
    /// There are none.
    pub(crate) fn new(alloc: Global) -> Connections<D>
        ensures none { result.by_id ≡ [] }
        ensures idle { IsIdle result }
        ensures held { result.held ≡ [] }
        ensures missed { result.missed ≡ false }
    {
        Connections {
            by_id: IndexMap::new(alloc),
            fresh: VecDeque::new(alloc),
            busy: VecDeque::new(alloc),
            held: VecDeque::new(alloc),
            is_for_busy: false,
            missed: None,
            turns_to_place: None,
        }
    }

    // ---- who is there

    /// How many there are.
    pub(crate) fn len(&self) -> usize
        ensures { result ≡ length self.now.by_id }
    {
        self.by_id.len()
    }

    /// The stream of the connection at this place.
    pub(crate) fn id_at(&self, place: usize) -> Option<u32>
        ensures { result ≡ slice_get (keys_of self.now.by_id) place }
    {
        match self.by_id.get_index(place) {
            Some((id, _)) => Some(*id),
            None => None,
        }
    }

    /// Whether this connection is there.
    pub(crate) fn contains(&self, id: u32) -> bool
        ensures { result ≡ is_some (connection_of id self.now) }
    {
        self.by_id.contains_key(&id)
    }

    /// Its device.
    pub(crate) fn device(&self, id: u32) -> Option<&D>
        ensures { option_map (λ d. D.seen d.now) result ≡ look id self.now }
    {
        match self.by_id.get(&id) {
            Some(found) => Some(&found.connection.device),
            None => None,
        }
    }

    /// How its directions stand.
    pub(crate) fn directions(&self, id: u32) -> Option<Directions>
        ensures { result ≡ directions_of id self.now }
    {
        match self.by_id.get(&id) {
            Some(found) => Some(found.connection.directions),
            None => None,
        }
    }

    /// Whether neither of its directions is open. So it is of one that is not there.
    pub(crate) fn is_over(&self, id: u32) -> bool
        ensures { MatchOption (directions_of id self.now) (result ≡ true) (λ w. result ≡ is_over w) }
    {
        match self.by_id.get(&id) {
            Some(found) => found.connection.directions.is_over(),
            None => true,
        }
    }

    // ---- who comes and goes

    /// Memory for one more, and for its turns.
    pub(crate) fn reserve(&mut self) -> Result<(), RefusedAllocation>
        ensures connections { SameConnections self.old self.new }
        ensures queues { SameQueues self.old self.new }
        ensures room { OnOk result ((self.new.has_room ≡ true) × (self.new.has_place ≡ true)) }
    {
        let all = self.by_id.len().saturating_add(1);
        ymx_memory::reserve_queue(&mut self.fresh, all, &self.by_id)?;
        ymx_memory::reserve_queue(&mut self.busy, all, &self.by_id)?;
        ymx_memory::reserve_queue(&mut self.held, all, &self.by_id)?;
        ymx_memory::reserve_map(&mut self.by_id)
    }

    /// Adds one, for which there is memory, and which is not there. It waits for a turn.
    pub(crate) fn add(&mut self, id: u32, device: D)
        requires free { connection_of id self.old ≡ None }
        requires room { self.old.has_room ≡ true }
        requires place { self.old.has_place ≡ true }
        ensures added { Adds id (record { seen = D.seen device; directions = new_directions }) self.old self.new }
    {
        let connection = Connection {
            device,
            directions: Directions::new(),
        };
        let entry = Entry {
            connection,
            is_queued: false,
            is_held: false,
            is_busy: false,
        };
        let _ = ymx_memory::insert(&mut self.by_id, id, entry);
        self.enqueue(id);
    }

    /// It is there no more. Gives its device.
    pub(crate) fn remove(&mut self, id: u32) -> Option<D>
        ensures given { option_map D.seen result ≡ look id self.old }
        ensures gone { Puts id None self.old self.new }
        // It waits for no turn any more.
        ensures queues { LeavesQueues id self.old self.new }
        ensures len { length self.new.by_id + (if is_some result then 1 else 0) ≡ length self.old.by_id }
    {
        let Some(entry) = self.by_id.swap_remove(&id) else {
            return None;
        };
        leave(&mut self.fresh, &mut self.busy, id, entry.is_queued);
        Some(entry.connection.device)
    }

    /// An event says this of the device of a connection, if it is there. It waits for a turn then.
    pub(crate) fn note(&mut self, id: u32, ready: Readiness)
        ensures noted { (was : ConnectionValue) → connection_of id self.old ≡ Some was → Notes id ready was self.old self.new }
        ensures waits { IsSome (connection_of id self.old) → self.old.has_room ≡ true → Waits id self.new }
        ensures none { connection_of id self.old ≡ None → self.new ≡ self.old }
        ensures turn { AddsTurn id self.old self.new }
    {
        if let Some(found) = self.by_id.get_mut(&id) {
            found.connection.device.note_event(ready);
            self.enqueue(id);
        }
    }

    // ---- whose turn comes

    /// How many wait for a turn.
    pub(crate) fn queued_count(&self) -> usize
        ensures count { result ≡ min (length self.now.fresh + length self.now.busy) usize.MAX }
        // Each connection waits once at most.
        ensures few { length self.now.fresh + length self.now.busy ≤ length self.now.by_id }
    {
        self.fresh.len().saturating_add(self.busy.len())
    }

    /// For how many turns a frame that lacks a place still waits: until each connection that waited for a turn as the frame came to
    /// wait has had it, and for none where no connection waits.
    fn turns_left(&self) -> u128
        ensures { result ≡ turns_left self.now }
    {
        // the two queues take turns; twice the sum of two lengths fits so
        let of_all = (self.fresh.len() as u128 + self.busy.len() as u128) * 2;
        match self.turns_to_place {
            Some(turns) => of_all.min(turns),
            None => of_all,
        }
    }

    /// Whether the next frame of the wire, which may lack a place, waits for a turn of a connection.
    pub(crate) fn puts_off(&mut self, lacks_place: bool) -> bool
        ensures waits { result ≡ (lacks_place && nat_lt 0 (turns_left self.old)) }
        // So many turns it waits, at most.
        ensures counts { self.new ≡ record self.old { turns_to_place = if lacks_place then Some (turns_left self.old) else None } }
        // Who waits for a turn as the frame comes to wait has it before the frame comes, and so has who was to have it before.
        ensures first { self.old.turns_to_place ≡ None → (id : ℕ) → Waits id self.old → IsDue id self.new }
        ensures due { (id : ℕ) → IsDue id self.old → IsDue id self.new }
    {
        let left = self.turns_left();
        self.count_turns(lacks_place.then_some(left));
        lacks_place && left > 0
    }

    /// Whether none waits for a turn.
    pub(crate) fn is_idle(&self) -> bool
        ensures { result ≡ is_idle self.now }
    {
        self.fresh.is_empty() && self.busy.is_empty()
    }

    /// Whether one waits for a turn that moves little.
    pub(crate) fn has_fresh(&self) -> bool
        ensures { result ≡ not (length self.now.fresh == 0) }
    {
        !self.fresh.is_empty()
    }

    /// Whether one that was to wait for a turn does not.
    pub(crate) fn has_missed(&self) -> bool
        ensures { result ≡ self.now.missed }
    {
        self.missed.is_some()
    }

    /// Whether one is held back.
    pub(crate) fn has_held(&self) -> bool
        ensures { result ≡ not (length self.now.held == 0) }
    {
        !self.held.is_empty()
    }

    /// It waits for a turn.
    pub(crate) fn enqueue(&mut self, id: u32)
        ensures connections { SameConnections self.old self.new }
        ensures turn { AddsTurn id self.old self.new }
        ensures waits { IsSome (connection_of id self.old) → self.old.has_room ≡ true → Waits id self.new }
        ensures awaits { IsSome (connection_of id self.old) → Awaits id self.new }
        ensures missed { self.old.has_room ≡ true → self.new.missed ≡ self.old.missed }
        ensures keys { keys_of self.new.by_id ≡ keys_of self.old.by_id }
        // It is marked then, and one that was marked stands in no queue a second time.
        ensures marked { IsSome (connection_of id self.old) → (queue_mark id self.new ≡ Some true) ⊎ (self.new.missed ≡ true) }
        ensures once { queue_mark id self.old ≡ Some true → (self.new.fresh ≡ self.old.fresh) × (self.new.busy ≡ self.old.busy) }
        ensures place { self.new.turns_to_place ≡ self.old.turns_to_place }
    {
        if let Some(found) = self.by_id.get_mut(&id) {
            if !found.is_queued {
                match stand(&mut self.fresh, &mut self.busy, id, found.is_busy) {
                    Ok(()) => found.is_queued = true,
                    Err(refused) => self.missed = Some(refused),
                }
            }
        }
    }

    /// It may have something to move once nothing waits for the wire.
    pub(crate) fn hold(&mut self, id: u32)
        ensures connections { SameConnections self.old self.new }
        ensures turns { (self.new.fresh ≡ self.old.fresh) × (self.new.busy ≡ self.old.busy) × (self.new.is_for_busy ≡ self.old.is_for_busy) × StaysMissed self.old self.new }
        ensures held { StaysOrAdds id self.old.held self.new.held }
        ensures attended { IsSome (connection_of id self.old) → Attended id self.new }
        // It is marked then, and one that was marked is not held back a second time.
        ensures marked { IsSome (connection_of id self.old) → (held_mark id self.new ≡ Some true) ⊎ (self.new.missed ≡ true) }
        ensures once { held_mark id self.old ≡ Some true → self.new.held ≡ self.old.held }
    {
        if let Some(found) = self.by_id.get_mut(&id) {
            if !found.is_held {
                match ymx_memory::push_back(&mut self.held, id) {
                    Ok(()) => found.is_held = true,
                    Err(refused) => self.missed = Some(refused),
                }
            }
        }
    }

    /// One had a turn. It waits for a further turn where it has `more` to move, or until nothing waits for the wire where
    /// it `holds`.
    pub(crate) fn end_turn(&mut self, id: u32, more: bool, holds: bool)
        ensures connections { SameConnections self.old self.new }
        ensures queues { Extends self.old self.new }
        ensures again { more ≡ true → IsSome (connection_of id self.old) → self.old.has_room ≡ true → Waits id self.new }
        ensures awaits { more ≡ true → IsSome (connection_of id self.old) → Awaits id self.new }
        ensures missed { StaysMissed self.old self.new }
        ensures held { StaysOrAdds id self.old.held self.new.held }
        ensures attended { holds ≡ true → IsSome (connection_of id self.old) → Attended id self.new }
        // Where it has no more to move it waits for no turn anew, and it is held back only where it holds.
        ensures rests { more ≡ false → (self.new.fresh ≡ self.old.fresh) × (self.new.busy ≡ self.old.busy) }
        ensures alone { WaitsAlone id self.old self.new }
        ensures free { holds ≡ false → self.new.held ≡ self.old.held }
    {
        if more {
            self.enqueue(id);
        } else if holds {
            self.hold(id);
        }
    }

    /// Whose turn it is.
    pub(crate) fn next(&mut self) -> Option<u32>
        ensures connections { SameConnections self.old self.new }
        ensures some { IfSome result (λ id. TakesTurn id self.old self.new) }
        ensures there { IfSome result (λ id. IsSome (connection_of id self.old)) }
        // It is marked as queued no more.
        ensures unmarked { IfSome result (λ id. IfSome (queue_mark id self.new) (λ b. b ≡ false)) }
        ensures none { IfNone result (IsIdle self.old × IsIdle self.new × SameQueues self.old self.new) }
        ensures missed { self.new.missed ≡ self.old.missed }
        ensures held { self.new.held ≡ self.old.held }
    {
        let id = pop(&mut self.fresh, &mut self.busy, &mut self.is_for_busy)?;
        note_turn(&mut self.by_id, id);
        self.turns_to_place = one_less(self.turns_to_place);
        Some(id)
    }

    /// Nothing waits for the wire: those that were held back have their turns.
    pub(crate) fn release(&mut self)
        ensures keeps { KeepsConnections self.old self.new }
        ensures none { self.new.held ≡ [] }
    {
        'held: for _ in 0..self.held.len() {
            let Some(id) = self.let_go() else {
                return;
            };
            self.enqueue(id);
        }
    }

    /// The first of those that are held back is so no more.
    fn let_go(&mut self) -> Option<u32>
        ensures connections { SameConnections self.old self.new }
        ensures turns { (self.new.fresh ≡ self.old.fresh) × (self.new.busy ≡ self.old.busy) × (self.new.is_for_busy ≡ self.old.is_for_busy) × (self.new.missed ≡ self.old.missed) }
        ensures some { IfSome result (λ id. self.old.held ≡ id ∷ self.new.held) }
        ensures none { IfNone result ((self.old.held ≡ []) × (self.new.held ≡ [])) }
    {
        let id = self.held.pop_front()?;
        note_let_go(&mut self.by_id, id);
        Some(id)
    }

    /// Those that missed a turn have something to move.
    pub(crate) fn enqueue_missed(&mut self)
        ensures keeps { KeepsConnections self.old self.new }
        ensures place { self.new.turns_to_place ≡ self.old.turns_to_place }
    {
        if self.missed.is_some() {
            self.missed = None;
            self.enqueue_all();
        }
    }

    /// All have something to move.
    pub(crate) fn enqueue_all(&mut self)
        ensures keeps { KeepsConnections self.old self.new }
        ensures held { self.new.held ≡ self.old.held }
        ensures all { (id : ℕ) → IsSome (connection_of id self.old) → Awaits id self.new }
        ensures place { self.new.turns_to_place ≡ self.old.turns_to_place }
    {
        'place: for place in 0..self.by_id.len() {
            let Some(id) = self.id_at(place) else {
                return;
            };
            self.enqueue(id);
        }
    }

    /// Bytes of the peer were fed: those that they touched have something to move, and the next frame has not waited for a place.
    pub(crate) fn on_touched(&mut self, touched: &mut Touched)
        ensures keeps { KeepsConnections self.old self.new }
        ensures all { (id : ℕ) → is_noted id touched.old ≡ true → IsSome (connection_of id self.old) → Awaits id self.new }
        // No other comes to wait for a turn.
        ensures only { (id : ℕ) → Waits id self.new → Waits id self.old ⊎ (is_noted id touched.old ≡ true) }
        ensures cleared { touched.new ≡ nothing_noted touched.old.blind }
        ensures anew { self.new.turns_to_place ≡ None }
    {
        self.enqueue_touched(touched);
        self.count_turns(None);
    }

    /// For so many turns the next frame still waits for a place.
    pub(crate) fn count_turns(&mut self, turns: Option<u128>)
        ensures { self.new ≡ record self.old { turns_to_place = turns } }
    {
        self.turns_to_place = turns;
    }

    /// Those that bytes of the peer touched have something to move.
    fn enqueue_touched(&mut self, touched: &mut Touched)
        ensures keeps { KeepsConnections self.old self.new }
        ensures all { (id : ℕ) → is_noted id touched.old ≡ true → IsSome (connection_of id self.old) → Awaits id self.new }
        // No other comes to wait for a turn.
        ensures only { (id : ℕ) → Waits id self.new → Waits id self.old ⊎ (is_noted id touched.old ≡ true) }
        ensures cleared { touched.new ≡ nothing_noted touched.old.blind }
    {
        self.enqueue_some(touched.ids());
        if touched.is_all() {
            self.enqueue_all();
        }
        touched.clear();
    }

    /// These have something to move.
    fn enqueue_some(&mut self, ids: &[u32])
        ensures keeps { KeepsConnections self.old self.new }
        ensures all { (id : ℕ) → list_any (nat_eq id) ids.now ≡ true → IsSome (connection_of id self.old) → Awaits id self.new }
        ensures only { (id : ℕ) → Waits id self.new → Waits id self.old ⊎ (list_any (nat_eq id) ids.now ≡ true) }
    {
        'id: for id in ids {
            self.enqueue(*id);
        }
    }
}

/// This one stands after all others in its queue. A refusal leaves both queues, and comes only where one is full.
fn stand(
    fresh: &mut VecDeque<u32>,
    busy: &mut VecDeque<u32>,
    id: u32,
    is_busy: bool,
) -> Result<(), RefusedAllocation>
    ensures fresh { StaysOrAdds id fresh.old.items fresh.new.items }
    ensures busy { StaysOrAdds id busy.old.items busy.new.items }
    ensures stands { OnOk result (StandsBehind id fresh.old.items busy.old.items fresh.new.items busy.new.items) }
    ensures refused { OnErr result ((fresh.new.items ≡ fresh.old.items) × (busy.new.items ≡ busy.old.items)) }
    ensures succeeds { deque_len fresh.old < deque_capacity fresh.old → deque_len busy.old < deque_capacity busy.old → IsOk result }
{
    match is_busy {
        true => ymx_memory::push_back(busy, id),
        false => ymx_memory::push_back(fresh, id),
    }
}

/// This one leaves the queues, if it stands in one.
fn leave(fresh: &mut VecDeque<u32>, busy: &mut VecDeque<u32>, id: u32, stands: bool)
    requires fresh { stands ≡ false → without id fresh.old.items ≡ fresh.old.items }
    requires busy { stands ≡ false → without id busy.old.items ≡ busy.old.items }
    ensures fresh { fresh.new.items ≡ without id fresh.old.items }
    ensures busy { busy.new.items ≡ without id busy.old.items }
{
    if stands {
        leave_queue(fresh, id);
        leave_queue(busy, id);
    }
}

/// This one leaves a queue. Each other keeps its place in the order.
fn leave_queue(queue: &mut VecDeque<u32>, id: u32)
    ensures { queue.new.items ≡ without id queue.old.items }
{
    queue.retain(|other| *other != id);
}

/// One turn less, if some are counted.
fn one_less(turns: Option<u128>) -> Option<u128>
    ensures { result ≡ option_map (λ n. n - 1) turns }
{
    match turns {
        Some(count) => Some(count.saturating_sub(1)),
        None => None,
    }
}

/// This one waits for no turn.
fn note_turn<D: Drop>(by_id: &mut IndexMap<u32, Entry<D>>, id: u32)
    ensures { Rewrites id (λ e. record e { is_queued = false }) by_id.old.entries by_id.new.entries }
{
    if let Some(found) = by_id.get_mut(&id) {
        found.is_queued = false;
    }
}

/// This one is held back no more.
fn note_let_go<D: Drop>(by_id: &mut IndexMap<u32, Entry<D>>, id: u32)
    ensures { Rewrites id (λ e. record e { is_held = false }) by_id.old.entries by_id.new.entries }
{
    if let Some(found) = by_id.get_mut(&id) {
        found.is_held = false;
    }
}

/// Takes the first out of the queue whose turn it is, and if that is empty, out of the other. Then the other's turn comes.
fn pop(fresh: &mut VecDeque<u32>, busy: &mut VecDeque<u32>, is_for_busy: &mut bool) -> Option<u32>
    ensures busy { IfSome result (λ id. (is_for_busy.old && not (length busy.old.items == 0) || (length fresh.old.items == 0)) ≡ true → (busy.old.items ≡ id ∷ busy.new.items) × (fresh.new.items ≡ fresh.old.items) × (is_for_busy.new ≡ false)) }
    ensures fresh { IfSome result (λ id. (is_for_busy.old && not (length busy.old.items == 0) || (length fresh.old.items == 0)) ≡ false → (fresh.old.items ≡ id ∷ fresh.new.items) × (busy.new.items ≡ busy.old.items) × (is_for_busy.new ≡ true)) }
    ensures none { IfNone result ((fresh.old.items ≡ []) × (busy.old.items ≡ []) × (fresh.new.items ≡ []) × (busy.new.items ≡ []) × (is_for_busy.new ≡ is_for_busy.old)) }
{
    if fresh.is_empty() && busy.is_empty() {
        return None;
    }
    let takes_busy = *is_for_busy && !busy.is_empty() || fresh.is_empty();
    *is_for_busy = !takes_busy;
    if takes_busy {
        busy.pop_front()
    } else {
        fresh.pop_front()
    }
}
