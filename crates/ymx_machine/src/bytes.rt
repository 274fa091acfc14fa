//! Bytes that a contract sees as a list.

ghost use Rattle.std.specs.Prelude.{◌≡◌, ◌==◌, [], length, IfOk};

use std::alloc::Global;
use std::marker::Model;
use ymx_memory::RefusedAllocation;

/// Some bytes. A contract sees the list of them and nothing else: not where they lie, nor how many
/// more would fit.
#[derive(Drop)]
pub struct Bytes {
    items: Vec<u8>,
}

impl Model for Bytes {
    ghost use Rattle.std.specs.Prelude.{List, ℕ};

    ghost Value = { List ℕ };

    ghost view = { λ bytes. bytes.items.items };
}

/// Bytes that another has lent. A contract sees the list of them.
#[derive(Drop)]
pub struct Lent<'a> {
    bytes: &'a [u8],
}

impl<'a> Model for Lent<'a> {
    ghost use Rattle.std.specs.Prelude.{List, ℕ};

    ghost Value = { List ℕ };

    ghost view = { λ lent. lent.bytes.now };
}

impl<'a> Lent<'a> {
    /// These bytes.
    pub fn new(bytes: &'a [u8]) -> Lent<'a>
        ensures { result ≡ bytes.now }
    {
        Lent { bytes }
    }

    /// A copy of these bytes, or the refused allocation.
    pub fn to_owned(&self, alloc: Global) -> Result<Bytes, RefusedAllocation>
        ensures { IfOk result (λ copy. copy ≡ self.now) }
    {
        Bytes::from_slice(alloc, self.bytes)
    }

    /// The bytes in their order.
    pub fn as_slice(&self) -> &[u8]
        ensures { result.now ≡ self.now }
    {
        self.bytes
    }
}

impl Bytes {
    /// No bytes. Takes no memory.
    pub fn new(alloc: Global) -> Bytes
        ensures { result ≡ [] }
    {
        Bytes {
            items: Vec::new(alloc),
        }
    }

    /// A copy of these bytes, or the refused allocation.
    pub fn from_slice(alloc: Global, bytes: &[u8]) -> Result<Bytes, RefusedAllocation>
        ensures { IfOk result (λ copy. copy ≡ bytes.now) }
    {
        let items = ymx_memory::copied(alloc, bytes)?;
        Ok(Bytes { items })
    }

    /// The bytes of a vector, which are not copied.
    pub fn from_vec(items: Vec<u8>) -> Bytes
        ensures { result ≡ items.items }
    {
        Bytes { items }
    }

    /// The bytes in their order.
    pub fn as_slice(&self) -> &[u8]
        ensures { result.now ≡ self.now }
    {
        self.items.as_slice()
    }

    /// How many bytes there are.
    pub fn len(&self) -> usize
        ensures { result ≡ length self.now }
    {
        self.items.len()
    }

    /// Whether there are none.
    pub fn is_empty(&self) -> bool
        ensures { result ≡ (length self.now == 0) }
    {
        self.items.is_empty()
    }
}
