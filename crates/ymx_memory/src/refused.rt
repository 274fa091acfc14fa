//! The evidence that an allocation was refused, and a count of such.

ghost use Rattle.std.specs.Prelude.{◌≡◌, ◌<◌, ◌+◌, min, IfSome, IfNone};

use std::alloc::AllocError;
use std::fmt;
use std::marker::Model;

/// An allocation was refused, or was larger than a block of memory can be, or a shared block had more handles than can be
/// counted. It takes no bytes.
///
/// Only this crate makes one, where it answers for a refused allocation, or where a count of such isn't 0. A contract
/// sees nothing in it: that it is there says all.
#[derive(Clone, Copy, PartialEq, Eq)]
pub struct RefusedAllocation {
    seal: (),
}

impl RefusedAllocation {
    /// The allocator has refused, just now or when it was counted.
    pub(crate) fn new() -> RefusedAllocation {
        RefusedAllocation { seal: () }
    }
}

impl fmt::Debug for RefusedAllocation {
    fn fmt<W: fmt::Write>(&self, f: &mut fmt::Formatter<W>) -> fmt::Result {
        f.write_str("RefusedAllocation")
    }
}

/// A caller that asks for the standard library's error alone gets that.
impl From<RefusedAllocation> for AllocError {
    fn from(_refused: RefusedAllocation) -> AllocError {
        AllocError
    }
}

/// How many allocations were refused, at most 4,294,967,295. Only a [`RefusedAllocation`] makes it grow.
///
/// A contract sees the number.
#[derive(Clone, Copy, PartialEq, Eq)]
pub struct RefusalCount {
    count: u32,
}

impl Model for RefusalCount {
    ghost use Rattle.std.specs.Prelude.{ℕ};

    ghost Value = { ℕ };

    ghost view = { λ refusals. refusals.count };

    ghost inverse = { λ count. record { count = count } };
}

impl RefusalCount {
    /// None was refused.
    pub fn zero() -> RefusalCount
        ensures { result ≡ 0 }
    {
        RefusalCount { count: 0 }
    }

    /// One more was refused. The greatest number stays.
    pub fn add(&mut self, _refused: RefusedAllocation)
        ensures { self.new ≡ min (self.old + 1) 4294967295 }
    {
        self.count = self.count.saturating_add(1);
    }

    /// As many more were refused as `more` counts. The greatest number stays.
    pub fn add_all(&mut self, more: RefusalCount)
        ensures { self.new ≡ min (self.old + more) 4294967295 }
    {
        self.count = self.count.saturating_add(more.count);
    }

    /// The evidence of those that were counted. There is none only where none was refused.
    pub fn evidence(&self) -> Option<RefusedAllocation>
        ensures some { IfSome result (λ _. 0 < self.now) }
        ensures none { IfNone result (self.now ≡ 0) }
    {
        if self.count == 0 {
            return None;
        }
        Some(RefusedAllocation::new())
    }

    /// The number.
    pub fn get(self) -> u32
        ensures { result ≡ self }
    {
        self.count
    }
}

impl fmt::Debug for RefusalCount {
    fn fmt<W: fmt::Write>(&self, f: &mut fmt::Formatter<W>) -> fmt::Result {
        fmt::Display::fmt(&self.count, f)
    }
}
