//! A bounded ring of bytes: what is put in at the back is taken out at the front, in the same order.
//! A stream keeps the bytes that it has still to send in one ring, and those that wait to be read in another.
//! Memory is taken when a ring is made and when it grows, and never while bytes move.
#![tactic(auto)]

ghost use Rattle.std.specs.Prelude.{◌≡◌, ◌+◌, ◌*◌, ◌^◌, ◌<◌, ◌≤◌, ◌↔◌, [], ◌++◌, length, take, drop, min, IsTrue, MatchBool, IfOk, OnOk, OnErr};
ghost use Rattle.ymx_memory.specs.Bounds.{widest_ring, most_written};

mod pool;

use circular_buffer::HeapCircularBuffer;
pub use pool::Pool;
use std::alloc::Global;
use std::marker::Model;
use std::mem;
use ymx_memory::RefusedAllocation;

/// A block through which at most so many bytes went is not used. Its memory is in use for so many at most.
const MOST_UNWORN: usize = 16_384;

/// A queue of bytes in one block of memory. Its capacity is set when it is made, and only `grow` changes it.
///
/// A contract sees the list of its bytes, `items`, the next to be taken first, and its `capacity` in bytes.
/// The bytes wrap round the end of the block, so room that was taken free at the front is used again.
/// Dropping the ring gives its memory back.
#[derive(Drop)]
pub struct Ring {
    bytes: HeapCircularBuffer<u8>,
    /// How many bytes were put into the block since it was taken. So much of its memory is in use, or all of it.
    used: usize,
}

impl Model for Ring {
    ghost use Rattle.ymx_ring.specs.Ring.{Contents, contents_of, FitsCapacity};

    ghost Value = { Contents };

    ghost view = { λ ring. contents_of ring.bytes };

    ghost invariant = { λ ring. FitsCapacity (contents_of ring.bytes) };
}

impl Ring {
    /// Makes an empty ring that can hold `capacity` bytes.
    ///
    /// Takes memory for all of them at once: at most 16,777,216 bytes, the widest window. Without that memory
    /// it answers `RefusedAllocation`.
    ///
    /// Example: `Ring::new(alloc, 262_144)` is a ring for one yamux window, and its `room` is 262,144.
    pub fn new(alloc: Global, capacity: usize) -> Result<Ring, RefusedAllocation>
        requires at_most { capacity ≤ widest_ring }
        ensures empty { IfOk result (λ ring. ring.items ≡ []) }
        ensures of_capacity { IfOk result (λ ring. ring.capacity ≡ capacity) }
    {
        let bytes = ymx_memory::ring(alloc, capacity)?;
        Ok(Ring { bytes, used: 0 })
    }

    /// Puts all of `bytes` in at the back. They have to fit: at most `room` of them. Takes no memory.
    ///
    /// Example: `put(b"def")` to a ring of 4 bytes that holds `c` leaves `cdef`, and no room.
    pub fn put(&mut self, bytes: &[u8])
        requires { length self.old.items + length bytes.now ≤ self.old.capacity }
        ensures at_back { self.new.items ≡ self.old.items ++ bytes.now }
        ensures same_capacity { self.new.capacity ≡ self.old.capacity }
    {
        self.bytes.fill_from_slice(bytes);
        self.used = self.used.saturating_add(bytes.len());
    }

    /// Moves the first bytes out into `buffer`, as many as are there and fit, and returns their number.
    /// The rest of `buffer` stays as it was. Takes no memory.
    ///
    /// Example: from a ring that holds `abc`, `take` into a buffer of 2 bytes gives `ab`, returns 2
    /// and leaves `c`.
    pub fn take(&mut self, buffer: &mut [u8]) -> usize
        ensures count { result ≡ min (length buffer.old) (length self.old.items) }
        ensures taken { buffer.new ≡ take result self.old.items ++ drop result buffer.old }
        ensures left { self.new.items ≡ drop result self.old.items }
        ensures same_capacity { self.new.capacity ≡ self.old.capacity }
    {
        self.bytes.read_into(buffer)
    }

    /// As `put`. An empty ring first exchanges its block for the one of `pool` that was used last.
    pub fn put_pooled(&mut self, pool: &mut Pool, bytes: &[u8])
        requires { length self.old.items + length bytes.now ≤ self.old.capacity }
        ensures at_back { self.new.items ≡ self.old.items ++ bytes.now }
        ensures same_capacity { self.new.capacity ≡ self.old.capacity }
    {
        if !bytes.is_empty() {
            pool.lend(self);
        }
        self.put(bytes);
    }

    /// As `take`. A ring that gets empty gives its block to `pool`, for one that was used longer ago.
    pub fn take_pooled(&mut self, pool: &mut Pool, buffer: &mut [u8]) -> usize
        ensures count { result ≡ min (length buffer.old) (length self.old.items) }
        ensures taken { buffer.new ≡ take result self.old.items ++ drop result buffer.old }
        ensures left { self.new.items ≡ drop result self.old.items }
        ensures same_capacity { self.new.capacity ≡ self.old.capacity }
    {
        let count = self.len();
        if count == 0 || count > buffer.len() {
            return self.take(buffer);
        }
        // All go: `clear` leaves the place where the block's bytes begin, which `read_into` would move on.
        let (first, wrapped) = self.bytes.as_slices();
        let cut = first.len();
        buffer[..cut].copy_from_slice(first);
        buffer[cut..count].copy_from_slice(wrapped);
        self.go_idle(pool);
        count
    }

    /// As `skip`. A ring that gets empty gives its block to `pool`, for one that was used longer ago.
    pub fn skip_pooled(&mut self, pool: &mut Pool, count: usize)
        requires { count ≤ length self.old.items }
        ensures left { self.new.items ≡ drop count self.old.items }
        ensures same_capacity { self.new.capacity ≡ self.old.capacity }
    {
        if count < self.len() {
            self.skip(count);
        } else if count > 0 {
            self.go_idle(pool);
        }
    }

    /// As `clear`. The block goes to `pool`, for one that was used longer ago.
    pub fn go_idle(&mut self, pool: &mut Pool)
        ensures empty { self.new.items ≡ [] }
        ensures same_capacity { self.new.capacity ≡ self.old.capacity }
    {
        self.clear();
        pool.give_back(self);
    }

    /// As `new`, but with a block of this capacity that `pool` kept of a ring that is gone, where it has one.
    pub fn new_pooled(
        alloc: Global,
        pool: &mut Pool,
        capacity: usize,
    ) -> Result<Ring, RefusedAllocation>
        requires at_most { capacity ≤ widest_ring }
        ensures empty { IfOk result (λ ring. ring.items ≡ []) }
        ensures of_capacity { IfOk result (λ ring. ring.capacity ≡ capacity) }
    {
        match pool.kept(capacity) {
            Some(ring) => Ok(ring),
            None => Ring::new(alloc, capacity),
        }
    }

    /// Ends the ring. Its block is kept for the next one, if there is room for it in `pool`.
    pub fn end(self, pool: &mut Pool) {
        pool.keep(self);
    }

    /// Returns all bytes, as they lie in the ring's block: those up to its end, and after them those that wrap round
    /// it. None is taken out.
    ///
    /// Example: `abc` and nothing for a ring that holds `abc`, none of which wraps.
    pub fn slices(&self) -> (&[u8], &[u8])
        ensures all { result.0.now ++ result.1.now ≡ self.now.items }
    {
        self.bytes.as_slices()
    }

    /// Drops the first `count` bytes, of which there have to be so many, and keeps those after them. The ring
    /// keeps its memory.
    ///
    /// Example: `skip(1)` on a ring that holds `abc` leaves `bc`.
    pub fn skip(&mut self, count: usize)
        requires { count ≤ length self.old.items }
        ensures left { self.new.items ≡ drop count self.old.items }
        ensures same_capacity { self.new.capacity ≡ self.old.capacity }
    {
        let left = self.len() - count;
        self.bytes.truncate_front(left);
    }

    /// Drops all bytes. The ring keeps its memory, so all of its capacity is room again.
    ///
    /// Example: after `clear`, a ring of 4 bytes that held `abc` has a `room` of 4.
    pub fn clear(&mut self)
        ensures empty { self.new.items ≡ [] }
        ensures same_capacity { self.new.capacity ≡ self.old.capacity }
    {
        self.bytes.clear();
    }

    /// Keeps the first `count` bytes, of which there have to be so many, and drops those after them.
    /// The ring keeps its memory.
    ///
    /// Example: `keep(1)` on a ring that holds `abc` leaves `a`.
    pub fn keep(&mut self, count: usize)
        requires { count ≤ length self.old.items }
        ensures first { self.new.items ≡ take count self.old.items }
        ensures same_capacity { self.new.capacity ≡ self.old.capacity }
    {
        self.bytes.truncate_back(count);
    }

    /// Returns how many bytes are in the ring.
    ///
    /// Example: 3 for a ring that holds `abc`.
    pub fn len(&self) -> usize
        ensures count { result ≡ length self.now.items }
        ensures fits { result ≤ self.now.capacity }
    {
        self.bytes.len()
    }

    /// Returns whether there is no byte in the ring.
    ///
    /// Example: true for a ring just made.
    pub fn is_empty(&self) -> bool
        ensures { IsTrue result ↔ (self.now.items ≡ []) }
    {
        self.bytes.is_empty()
    }

    /// Returns how many more bytes fit: the capacity less what is in the ring.
    ///
    /// Example: 1 for a ring of 4 bytes that holds `abc`.
    pub fn room(&self) -> usize
        ensures { length self.now.items + result ≡ self.now.capacity }
    {
        self.capacity() - self.len()
    }

    /// Returns how many bytes the ring can hold, which is below 2^63.
    ///
    /// Example: 4 for a ring made by `Ring::new(alloc, 4)`, whatever it holds.
    pub fn capacity(&self) -> usize
        ensures value { result ≡ self.now.capacity }
        ensures holds_all { length self.now.items ≤ result }
        ensures below_limit { result < 2 ^ 63 }
    {
        self.bytes.capacity()
    }

    /// Gives the ring another capacity, in bytes, which has to hold the bytes that are there. They stay,
    /// in order. It is at most twice what it was, and 4,294,967,295 more, which is the greatest credit.
    ///
    /// Takes memory for the whole new capacity, and then gives the old memory back. Without that memory
    /// it answers `RefusedAllocation`, and the ring is unchanged.
    ///
    /// Example: `grow(8)` on a full ring of 4 bytes leaves its bytes and a `room` of 4.
    pub fn grow(&mut self, capacity: usize) -> Result<(), RefusedAllocation>
        requires holds_all { length self.old.items ≤ capacity }
        requires at_most { capacity ≤ 2 * self.old.capacity + most_written }
        ensures kept { OnOk result (self.new.items ≡ self.old.items) }
        ensures of_capacity { OnOk result (self.new.capacity ≡ capacity) }
        ensures refused_unchanged { OnErr result (self.new ≡ self.old) }
    {
        // The buffer's own `resize` pops and pushes each byte, so the two runs of bytes are copied as blocks.
        let mut wider = ymx_memory::wider_ring(&self.bytes, capacity)?;
        let (front, wrapped) = self.bytes.as_slices();
        wider.fill_from_slice(front);
        wider.fill_from_slice(wrapped);
        self.bytes = wider;
        self.used = self.len();
        Ok(())
    }

    /// Whether enough bytes went through the ring's block, since it was taken, that a fresh one would take less memory:
    /// more than 16,384.
    pub(crate) fn is_used(&self) -> bool {
        self.used > MOST_UNWORN
    }

    /// Exchanges a block that is used and empty for a fresh one of its capacity, and hands the used one out. `None` where
    /// it isn't, or there is no memory for another.
    pub(crate) fn refresh(&mut self) -> Option<Ring>
        ensures same { self.new ≡ self.old }
    {
        if !self.is_used() || !self.is_empty() {
            return None;
        }
        let bytes = ymx_memory::wider_ring(&self.bytes, self.capacity()).ok()?;
        Some(mem::replace(self, Ring { bytes, used: 0 }))
    }

    /// Exchanges a block that is used, or has another capacity, for a fresh one of this capacity, of which no memory is
    /// in use but for the bytes that are there. It has to hold them, and it is at most twice what it was, and
    /// 4,294,967,295 more.
    ///
    /// True where it did; else nothing has changed: the block isn't used, or there was no memory for another.
    pub fn renew(&mut self, capacity: usize) -> bool
        requires holds_all { length self.old.items ≤ capacity }
        requires at_most { capacity ≤ 2 * self.old.capacity + most_written }
        ensures { MatchBool result (self.new ≡ record { items = self.old.items; capacity = capacity }) (self.new ≡ self.old) }
    {
        let is_worth_it = self.is_used() || self.capacity() != capacity;
        is_worth_it && self.grow(capacity).is_ok()
    }
}
