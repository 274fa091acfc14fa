//! The bounded queues of a session: the streams that wait to be accepted, and the answers that it owes.

ghost use Rattle.std.specs.Prelude.{◌≡◌, ◌<◌, ◌≤◌, ◌==◌, [], ◌∷◌, ◌++◌, length, drop, slice_get, position, IfOk, IfSome};
ghost use Rattle.ymx_machine.specs.shared.Lists.{drop_id};
ghost use Rattle.ymx_memory.specs.Bounds.{most_items};

use std::alloc::Global;
use std::collections::VecDeque;
use std::marker::Model;
use ymx_memory::RefusedAllocation;
use ymx_model::Response;

/// The ids of the streams that the peer has opened and that wait to be accepted, in the order in
/// which they came: at most 256 (this project's own). A contract sees the list of them.
pub type Backlog = BoundedQueue<u32, 256>;

/// Ping replies and rejections that have not been sent, the oldest first: at most 1,024 (this
/// project's own). A contract sees the list of them.
pub type Answers = BoundedQueue<Response, 1_024>;

/// At most `N` items, the oldest first, and `N` at most 1,024. The memory for all of them is taken at the start. A contract
/// sees the list of the items.
#[derive(Drop)]
pub struct BoundedQueue<T, const N: usize> {
    items: VecDeque<T>,
}

impl<T, const N: usize> Model for BoundedQueue<T, N> {
    ghost use Rattle.std.specs.Prelude.{List, ◌≤◌, length};
    ghost use Rattle.std.specs.Coded.{coded_list};
    ghost use Rattle.std.specs.VecDeque.{deque_capacity};

    ghost Value = { List T };

    ghost coded = { coded_list T.code };

    ghost view = { λ queue. queue.items.items };

    ghost invariant = { λ queue. (length queue.items.items ≤ N) × (N ≤ deque_capacity queue.items) };
}

impl<T: Copy, const N: usize> BoundedQueue<T, N> {
    /// At most so many items are in the queue.
    pub const LIMIT: usize = N;

    /// An empty queue. Takes the memory for all that will ever be in it, or answers `RefusedAllocation`.
    pub fn new(alloc: Global) -> Result<BoundedQueue<T, N>, RefusedAllocation>
        requires at_most { N ≤ most_items }
        ensures { IfOk result (λ queue. queue ≡ []) }
    {
        let items = ymx_memory::queue_with_capacity(alloc, N)?;
        Ok(BoundedQueue { items })
    }

    /// How many items are in the queue.
    pub fn len(&self) -> usize
        ensures len { result ≡ length self.now }
        ensures limit { length self.now ≤ N }
    {
        self.items.len()
    }

    /// Whether no item is in the queue.
    pub fn is_empty(&self) -> bool
        ensures { result ≡ (length self.now == 0) }
    {
        self.items.is_empty()
    }

    /// Whether there is no room for a further item.
    pub fn is_full(&self) -> bool
        ensures full { result ≡ (length self.now == N) }
        ensures limit { length self.now ≤ N }
    {
        self.items.len() == N
    }

    /// Puts an item after the others. Takes no memory.
    pub fn push(&mut self, item: T)
        requires { length self.old < N }
        ensures { self.new ≡ self.old ++ item ∷ [] }
    {
        self.items.push_back(item).unwrap();
    }

    /// The oldest item, which stays in the queue. `None` where the queue is empty.
    pub fn first(&self) -> Option<T>
        ensures { result ≡ slice_get self.now 0 }
    {
        self.items.front().copied()
    }

    /// Takes the oldest item out of the queue. `None` where the queue is empty.
    pub fn pop(&mut self) -> Option<T>
        ensures first { result ≡ slice_get self.old 0 }
        ensures rest { self.new ≡ drop 1 self.old }
    {
        self.items.pop_front()
    }
}

impl Backlog {
    /// This stream waits no more, as when it is reset. Without effect on one that does not wait.
    #[tactic(auto, using(crate::proofs::Places::drop_id_some, crate::proofs::Places::drop_id_none))]
    pub fn remove(&mut self, id: u32)
        ensures { self.new ≡ drop_id id self.old }
    {
        if let Some(place) = index_of(&self.items, id) {
            self.items.remove(place);
        }
    }
}

/// The place of the first occurrence of an id.
fn index_of(ids: &VecDeque<u32>, id: u32) -> Option<usize>
    ensures first { result ≡ position (λ x. x == id) ids.now.items }
    ensures within { IfSome result (λ place. place < length ids.now.items) }
{
    ids.iter().position(|x| *x == id)
}
