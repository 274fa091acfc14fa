//! Blocks of memory, in vectors and queues.

ghost use Rattle.std.specs.Prelude.{◌≡◌, ◌+◌, ◌*◌, ◌<◌, ◌≤◌, ◌-◌, length, ◌++◌, ◌∷◌, [], take, vec_len, vec_capacity, replicate, is_ok, if◌then◌else◌, IfOk, OnOk, OnErr, IsOk};
ghost use Rattle.std.specs.VecDeque.{deque_capacity, deque_len};
ghost use Rattle.circular_buffer.specs.Buffer.{buffer};
ghost use Rattle.ymx_memory.specs.Bounds.{widest_ring, most_written, most_items, most_text, most_zeros, most_entries};

use crate::refused::RefusedAllocation;
use circular_buffer::HeapCircularBuffer;
use indexmap::IndexMap;
use std::alloc::Global;
use std::collections::VecDeque;
use std::sync::Arc;

/// An empty ring that holds `capacity` bytes, at most 16,777,216: the widest window.
pub fn ring(alloc: Global, capacity: usize) -> Result<HeapCircularBuffer<u8>, RefusedAllocation>
    requires at_most { capacity ≤ widest_ring }
    ensures { IfOk result (λ ring. ring ≡ buffer [] capacity) }
{
    empty_ring(alloc, capacity)
}

/// An empty ring that is to take this one's place, with `capacity` bytes: at most twice as many as it has, and
/// 4,294,967,295 more, which is the greatest credit.
pub fn wider_ring(
    ring: &HeapCircularBuffer<u8>,
    capacity: usize,
) -> Result<HeapCircularBuffer<u8>, RefusedAllocation>
    requires at_most { capacity ≤ 2 * ring.now.capacity + most_written }
    ensures { IfOk result (λ ring. ring ≡ buffer [] capacity) }
{
    empty_ring(*ring.allocator(), capacity)
}

/// An empty ring of any size.
fn empty_ring(alloc: Global, capacity: usize) -> Result<HeapCircularBuffer<u8>, RefusedAllocation>
    ensures { IfOk result (λ ring. ring ≡ buffer [] capacity) }
{
    match HeapCircularBuffer::with_capacity(alloc, capacity) {
        Ok(ring) => Ok(ring),
        Err(_) => Err(RefusedAllocation::new()),
    }
}

/// An empty vector with room for `capacity` items, at most 1,024.
pub fn vec_with_capacity<T>(alloc: Global, capacity: usize) -> Result<Vec<T>, RefusedAllocation>
    requires at_most { capacity ≤ most_items }
    ensures empty { IfOk result (λ vec. vec.items ≡ []) }
    ensures room { IfOk result (λ vec. vec_capacity vec ≡ capacity) }
{
    match Vec::with_capacity(alloc, capacity) {
        Ok(vec) => Ok(vec),
        Err(_) => Err(RefusedAllocation::new()),
    }
}

/// No text, with room for `capacity` bytes, at most 262,144.
pub fn text_with_capacity(alloc: Global, capacity: usize) -> Result<Vec<u8>, RefusedAllocation>
    requires at_most { capacity ≤ most_text }
    ensures empty { IfOk result (λ text. text.items ≡ []) }
    ensures room { IfOk result (λ text. vec_capacity text ≡ capacity) }
{
    match Vec::with_capacity(alloc, capacity) {
        Ok(text) => Ok(text),
        Err(_) => Err(RefusedAllocation::new()),
    }
}

/// An empty queue with room for `capacity` items, at most 1,024.
pub fn queue_with_capacity<T>(
    alloc: Global,
    capacity: usize,
) -> Result<VecDeque<T>, RefusedAllocation>
    requires at_most { capacity ≤ most_items }
    ensures empty { IfOk result (λ queue. queue.items ≡ []) }
    ensures room { IfOk result (λ queue. deque_capacity queue ≡ capacity) }
{
    match VecDeque::with_capacity(alloc, capacity) {
        Ok(queue) => Ok(queue),
        Err(_) => Err(RefusedAllocation::new()),
    }
}

/// So many bytes, each 0: at most 1,000,000.
pub fn zeros(alloc: Global, count: usize) -> Result<Vec<u8>, RefusedAllocation>
    requires at_most { count ≤ most_zeros }
    ensures items { IfOk result (λ vec. vec.items ≡ replicate count 0) }
    ensures len { IfOk result (λ vec. vec_len vec ≡ count) }
{
    zeros_as_asked(alloc, count)
}

/// So many bytes, each 0, for what is made of `bytes`: at most twice as many as these.
pub fn zeros_for(alloc: Global, bytes: &[u8], count: usize) -> Result<Vec<u8>, RefusedAllocation>
    requires at_most { count ≤ 2 * length bytes.now }
    ensures items { IfOk result (λ vec. vec.items ≡ replicate count 0) }
    ensures len { IfOk result (λ vec. vec_len vec ≡ count) }
{
    zeros_as_asked(alloc, count)
}

/// So many bytes, each 0. Only for a count that a user's own argument names: no bound is known.
pub fn zeros_as_asked(alloc: Global, count: usize) -> Result<Vec<u8>, RefusedAllocation>
    ensures items { IfOk result (λ vec. vec.items ≡ replicate count 0) }
    ensures len { IfOk result (λ vec. vec_len vec ≡ count) }
{
    match vec![in alloc; 0u8; count] {
        Ok(vec) => Ok(vec),
        Err(_) => Err(RefusedAllocation::new()),
    }
}

/// A copy of these bytes.
pub fn copied(alloc: Global, bytes: &[u8]) -> Result<Vec<u8>, RefusedAllocation>
    ensures { IfOk result (λ vec. vec.items ≡ bytes.now) }
{
    match Vec::from_slice(alloc, bytes) {
        Ok(vec) => Ok(vec),
        Err(_) => Err(RefusedAllocation::new()),
    }
}

/// Room for one or two items more, as a call needs for its entries. A refusal leaves the room as it was, and it comes
/// only where there was too little.
pub fn reserve<T>(vec: &mut Vec<T>, additional: usize) -> Result<(), RefusedAllocation>
    requires at_most { additional ≤ most_entries }
    ensures items { vec.new.items ≡ vec.old.items }
    ensures len { vec_len vec.new ≡ vec_len vec.old }
    ensures room { OnOk result (vec_len vec.new + additional ≤ vec_capacity vec.new) }
    ensures capacity { vec_capacity vec.old ≤ vec_capacity vec.new }
    ensures succeeds { vec_len vec.old + additional ≤ vec_capacity vec.old → IsOk result }
    ensures refused_unchanged { OnErr result (vec_capacity vec.new ≡ vec_capacity vec.old) }
{
    make_room(vec, additional)
}

/// Room for as many more bytes as these. A refusal leaves the room as it was, and it comes only where there was too little.
pub fn reserve_for(vec: &mut Vec<u8>, bytes: &[u8]) -> Result<(), RefusedAllocation>
    ensures items { vec.new.items ≡ vec.old.items }
    ensures len { vec_len vec.new ≡ vec_len vec.old }
    ensures room { OnOk result (vec_len vec.new + length bytes.now ≤ vec_capacity vec.new) }
    ensures capacity { vec_capacity vec.old ≤ vec_capacity vec.new }
    ensures succeeds { vec_len vec.old + length bytes.now ≤ vec_capacity vec.old → IsOk result }
    ensures refused_unchanged { OnErr result (vec_capacity vec.new ≡ vec_capacity vec.old) }
{
    make_room(vec, bytes.len())
}

/// Room for so many more items, however many.
fn make_room<T>(vec: &mut Vec<T>, additional: usize) -> Result<(), RefusedAllocation>
    ensures items { vec.new.items ≡ vec.old.items }
    ensures len { vec_len vec.new ≡ vec_len vec.old }
    ensures room { OnOk result (vec_len vec.new + additional ≤ vec_capacity vec.new) }
    ensures capacity { vec_capacity vec.old ≤ vec_capacity vec.new }
    ensures succeeds { vec_len vec.old + additional ≤ vec_capacity vec.old → IsOk result }
    ensures refused_unchanged { OnErr result (vec_capacity vec.new ≡ vec_capacity vec.old) }
{
    match vec.reserve(additional) {
        Ok(()) => Ok(()),
        Err(_) => Err(RefusedAllocation::new()),
    }
}

/// Makes room in a queue for `additional` items beyond those that stand in it: at most one for each entry of this map,
/// and one. The items stay.
///
/// `RefusedAllocation` where the queue must grow and the allocator has no memory.
pub fn reserve_queue<T, V>(
    queue: &mut VecDeque<T>,
    additional: usize,
    map: &IndexMap<u32, V>,
) -> Result<(), RefusedAllocation>
    requires at_most { additional ≤ length map.now.entries + 1 }
    ensures items { queue.new.items ≡ queue.old.items }
    ensures len { deque_len queue.new ≡ deque_len queue.old }
    ensures room { OnOk result (deque_len queue.new + additional ≤ deque_capacity queue.new) }
    ensures capacity { deque_capacity queue.old ≤ deque_capacity queue.new }
{
    match queue.reserve(additional) {
        Ok(()) => Ok(()),
        Err(_) => Err(RefusedAllocation::new()),
    }
}

/// The item goes after those of a queue. A refusal drops it, and leaves the others: it comes only where the queue was
/// full.
///
/// `RefusedAllocation` where the queue must grow and the allocator has no memory.
pub fn push_back<T: Drop>(queue: &mut VecDeque<T>, item: T) -> Result<(), RefusedAllocation>
    ensures items { queue.new.items ≡ (if is_ok result then queue.old.items ++ item ∷ [] else queue.old.items) }
    ensures succeeds { deque_len queue.old < deque_capacity queue.old → IsOk result }
{
    match queue.push_back(item) {
        Ok(()) => Ok(()),
        Err(_) => Err(RefusedAllocation::new()),
    }
}

/// The bytes are cut to `count`, or filled up with zeros. A refusal leaves them. Only for a count that a user's own
/// argument names: no bound is known.
pub fn resize_as_asked(vec: &mut Vec<u8>, count: usize) -> Result<(), RefusedAllocation>
    ensures items { vec.new.items ≡ (if is_ok result then take count vec.old.items ++ replicate (count - vec_len vec.old) 0 else vec.old.items) }
    ensures len { vec_len vec.new ≡ (if is_ok result then count else vec_len vec.old) }
{
    match vec.resize(count, 0) {
        Ok(()) => Ok(()),
        Err(_) => Err(RefusedAllocation::new()),
    }
}

/// The value in a block of its own. A refusal drops it.
pub fn boxed<T: Drop>(alloc: Global, value: T) -> Result<Box<T, Global>, RefusedAllocation>
    ensures { IfOk result (λ whole. whole.value ≡ value) }
{
    match Box::new(alloc, value) {
        Ok(whole) => Ok(whole),
        Err(_) => Err(RefusedAllocation::new()),
    }
}

/// The value in a block that several may share. A refusal drops it.
pub fn shared<T: Drop>(alloc: Global, value: T) -> Result<Arc<T, Global>, RefusedAllocation> {
    match Arc::new(alloc, value) {
        Ok(whole) => Ok(whole),
        Err(_) => Err(RefusedAllocation::new()),
    }
}

/// One more handle to a shared block. It takes no memory.
///
/// `RefusedAllocation` where there are as many handles already as can be counted.
pub fn share<T>(whole: &Arc<T, Global>) -> Result<Arc<T, Global>, RefusedAllocation> {
    match Arc::try_clone(whole) {
        Ok(handle) => Ok(handle),
        Err(_) => Err(RefusedAllocation::new()),
    }
}

/// The item goes after the others. A refusal drops it, and leaves the others.
pub fn push<T: Drop>(vec: &mut Vec<T>, item: T) -> Result<(), RefusedAllocation>
    ensures items { vec.new.items ≡ (if is_ok result then vec.old.items ++ item ∷ [] else vec.old.items) }
{
    match vec.push(item) {
        Ok(()) => Ok(()),
        Err(_) => Err(RefusedAllocation::new()),
    }
}

/// The bytes go after the others. A refusal leaves those.
pub fn extend(vec: &mut Vec<u8>, bytes: &[u8]) -> Result<(), RefusedAllocation>
    ensures items { vec.new.items ≡ (if is_ok result then vec.old.items ++ bytes.now else vec.old.items) }
{
    match vec.extend_from_slice(bytes) {
        Ok(()) => Ok(()),
        Err(_) => Err(RefusedAllocation::new()),
    }
}
