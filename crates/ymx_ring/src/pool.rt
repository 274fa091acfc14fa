//! Blocks of memory that rings take turns with.

ghost use Rattle.std.specs.Prelude.{◌≡◌, ◌≤◌, [], IfSome};
ghost use Rattle.ymx_memory.specs.Bounds.{widest_ring};

use crate::Ring;
use std::alloc::Global;
use std::mem;
use ymx_memory::{RefusedAllocation, vec_with_capacity};

/// How many blocks are lent at most.
const MOST_LENT: usize = 16;

/// How many blocks of rings that are gone are kept at most, of which more than the first bytes are in use.
const MOST_KEPT: usize = 32;

/// How many are kept at most with those of which hardly any byte is in use: the rings of 64 streams. Each takes a few pages,
/// and to get one from the system takes longer than to serve a short connection.
const MOST_FRESH: usize = 128;

/// The room that is made for them, so that none is asked for where a ring ends: `shrink` puts the lent ones beside them.
const ROOM_FOR_KEPT: usize = MOST_FRESH + MOST_LENT;

/// How many bytes such a block holds at most: a stream's first credit. A wider one is given back at once.
const WIDEST_KEPT: usize = 262_144;

/// Blocks that rings use one after another, so that few of them are in use at a time and the processor's caches hold
/// them. A ring always has a block of its own: one that is put into while it is empty exchanges it for the block that
/// was given back last, and gives that one back as soon as it is empty again. Only empty blocks of one capacity are
/// exchanged, so no contract of a ring sees it.
///
/// Beside these it keeps the blocks of rings that are gone for the rings of later streams. Its blocks are rings too.
#[derive(Drop)]
pub struct Pool {
    /// The blocks that are lent: the first `given` were given back, the last of them last.
    lent: Vec<Ring>,
    given: usize,
    kept: Vec<Ring>,
}

impl Pool {
    /// Makes one with no block, and takes the memory for its lists: only `stock` takes more.
    pub fn new(alloc: Global) -> Result<Pool, RefusedAllocation> {
        Ok(Pool {
            lent: vec_with_capacity(alloc, MOST_LENT)?,
            given: 0,
            kept: vec_with_capacity(alloc, ROOM_FOR_KEPT)?,
        })
    }

    /// Has one more block of this capacity to lend, unless it has more than there are other streams, or 16. Without
    /// memory for it nothing changes.
    pub fn stock(&mut self, alloc: Global, others: usize, capacity: usize)
        requires at_most { capacity ≤ widest_ring }
    {
        if self.lent.len() <= others && self.lent.len() < MOST_LENT {
            if let Ok(block) = Ring::new(alloc, capacity) {
                let _stocked = ymx_memory::push(&mut self.lent, block);
            }
        }
    }

    /// Gives the blocks back that are used: the last stream has gone.
    pub fn rest(&mut self) {
        self.lent.retain(|block| !block.is_used());
        self.kept.retain(|block| !block.is_used());
        self.given = self.given.min(self.lent.len());
    }

    /// Gives back what is kept for rings to come, and the blocks that are lent beyond one for each of so many streams. Of
    /// the others each that is used is exchanged for a fresh one, so that rings go on taking turns with as many. Says
    /// whether any memory was given back: a block for which there is no fresh one stays.
    pub fn shrink(&mut self, streams: usize) -> bool {
        // The used ones go after all fresh ones: an allocator would hand them out again, with their memory in use.
        for block in &mut self.lent {
            if let Some(used) = block.refresh() {
                let _kept = ymx_memory::push(&mut self.kept, used);
            }
        }
        let has_given = !self.kept.is_empty() || self.lent.len() > streams;
        self.kept.clear();
        self.lent.truncate(streams);
        self.given = self.given.min(self.lent.len());
        has_given
    }

    /// Exchanges the block of a ring that is about to be put into for the one that was given back last, if it is empty.
    pub(crate) fn lend(&mut self, block: &mut Ring)
        ensures { block.new ≡ block.old }
    {
        if self.given > 0 && self.given <= self.lent.len() && block.is_empty() {
            self.given -= 1;
            exchange(block, &mut self.lent[self.given]);
        }
    }

    /// Takes the block of a ring that got empty, for one that was given back longer ago, if it is empty.
    pub(crate) fn give_back(&mut self, block: &mut Ring)
        ensures { block.new ≡ block.old }
    {
        let count = self.lent.len();
        if count > 0 && block.is_empty() {
            let at = self.given.min(count - 1);
            exchange(block, &mut self.lent[at]);
            self.given = at + 1;
        }
    }

    /// A block of this capacity that was kept, the last one.
    pub(crate) fn kept(&mut self, capacity: usize) -> Option<Ring>
        ensures { IfSome result (λ block. block ≡ record { items = []; capacity = capacity }) }
    {
        let last = self.kept.len().checked_sub(1)?;
        // A stream's two rings are kept one after the other, and may have two capacities.
        let before = last.saturating_sub(1);
        let at = if self.kept[last].capacity() == capacity {
            last
        } else {
            before
        };
        let mut block = self.kept.swap_remove(at);
        block.clear();
        if block.capacity() != capacity {
            return None;
        }
        Some(block)
    }

    /// Keeps the block of a ring that is gone, unless 32 are kept, or 128 where it isn't used, or it is wider than a
    /// stream's first credit.
    pub(crate) fn keep(&mut self, block: Ring) {
        let most = if block.is_used() {
            MOST_KEPT
        } else {
            MOST_FRESH
        };
        if self.kept.len() < most && block.capacity() <= WIDEST_KEPT {
            let _kept = ymx_memory::push(&mut self.kept, block);
        }
    }
}

/// Swaps two empty blocks of one capacity. Others stay where they are.
fn exchange(block: &mut Ring, other: &mut Ring)
    requires { block.old.items ≡ [] }
    ensures { block.new ≡ block.old }
{
    if other.is_empty() && other.capacity() == block.capacity() {
        mem::swap(block, other);
    }
}
