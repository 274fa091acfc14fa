//! The bytes of a header that comes in parts.

ghost use Rattle.std.specs.Prelude.{◌≡◌, ◌+◌, ◌-◌, ◌<◌, ◌≤◌, [], ◌++◌, length, take, IfSome, IfNone};
ghost use Rattle.ymx_header.specs.Headers.{header_of};

use std::marker::Model;
use ymx_header::{HEADER_LENGTH, Header, decode};

/// The first bytes of a header, fewer than twelve.
#[derive(Drop)]
pub struct HeaderBytes {
    bytes: [u8; 12],
    count: usize,
}

impl Model for HeaderBytes {
    ghost use Rattle.std.specs.Prelude.{List, ℕ, take, ◌<◌};

    ghost Value = { List ℕ };

    ghost view = { λ s. take s.count s.bytes };

    ghost invariant = { λ s. s.count < 12 };
}

impl HeaderBytes {
    /// No bytes.
    pub fn new() -> HeaderBytes
        ensures { result ≡ [] }
    {
        HeaderBytes {
            bytes: [0; 12],
            count: 0,
        }
    }

    /// How many bytes there are.
    pub fn len(&self) -> usize
        ensures len { result ≡ length self.now }
        ensures few { result < 12 }
    {
        self.count
    }

    /// Adds the first bytes of the input: all of them, or as many as make the header whole. Answers
    /// how many it took, and the header once it is whole; then no bytes are kept.
    pub fn add(&mut self, input: &[u8]) -> (usize, Option<Header>)
        ensures few { length self.old < 12 }
        ensures part { IfNone result.1 ((result.0 ≡ length input.now) × (length self.old + length input.now < 12) × (self.new ≡ self.old ++ input.now)) }
        ensures whole { IfSome result.1 (λ h. (result.0 ≡ 12 - length self.old) × (12 ≤ length self.old + length input.now) × (h ≡ header_of (self.old ++ take result.0 input.now)) × (self.new ≡ [])) }
    {
        if self.count == 0
            && let Some(bytes) = input.first_chunk::<12>()
        {
            return (HEADER_LENGTH, Some(decode(bytes)));
        }
        let missing = HEADER_LENGTH - self.count;
        if input.len() < missing {
            let end = self.count + input.len();
            self.bytes[self.count..end].copy_from_slice(input);
            self.count = end;
            return (input.len(), None);
        }
        self.bytes[self.count..].copy_from_slice(&input[..missing]);
        self.count = 0;
        (missing, Some(decode(&self.bytes)))
    }
}
