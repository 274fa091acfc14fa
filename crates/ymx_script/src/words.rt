//! The words of a line.

ghost use Rattle.std.specs.Prelude.{◌≡◌, ◌≤◌, ◌==◌, ◌∷◌, [], length, drop, IfOk, IfSome, MatchOption};
ghost use Rattle.std.specs.List.{position};
ghost use Rattle.ymx_memory.specs.Bounds.{most_zeros};
ghost use Rattle.ymx_script.specs.Words.{count, digits, direction, is, number, payload_word, side, words};

use std::alloc::Global;
use std::marker::Model;
use ymx_memory::{RefusedAllocation, zeros_for};
use ymx_model::{Bytes, Direction, Side};

/// The words of a line that are left. One space stands between two of them.
#[derive(Drop)]
pub(crate) struct Words<'a> {
    rest: &'a [u8],
    over: bool,
}

impl<'a> Model for Words<'a> {
    ghost use Rattle.std.specs.Prelude.{List, ℕ, [], if◌then◌else◌};
    ghost use Rattle.ymx_script.specs.Words.{words};

    ghost Value = { List (List ℕ) };

    ghost view = { λ w. if w.over then [] else words w.rest.now };
}

impl<'a> Words<'a> {
    pub(crate) fn new(line: &'a [u8]) -> Words<'a>
        ensures { result ≡ words line.entry.now }
    {
        Words {
            rest: line,
            over: false,
        }
    }

    /// The next word.
    pub(crate) fn next(&mut self) -> Option<&'a [u8]>
        ensures { MatchOption result ((self.old ≡ []) × (self.new ≡ [])) (λ word. self.old ≡ word.now ∷ self.new) }
    {
        if self.over {
            return None;
        }
        let bytes = self.rest;
        let Some(space) = space_in(bytes) else {
            self.over = true;
            return Some(bytes);
        };
        self.rest = bytes_from(bytes, space + 1);
        Some(&bytes[..space])
    }
}

/// The bytes from this place on.
pub(crate) fn bytes_from(bytes: &[u8], position: usize) -> &[u8]
    requires { position ≤ length bytes.now }
    ensures { result.now ≡ drop position bytes.entry.now }
{
    &bytes[position..]
}

/// The place of the first space.
fn space_in(bytes: &[u8]) -> Option<usize>
    ensures { result ≡ position (λ b. b == 32) bytes.now }
{
    bytes.iter().position(|b| *b == b' ')
}

/// Whether it is this word.
pub(crate) fn is(word: &[u8], name: &[u8]) -> bool
    ensures { result ≡ is name.now word.now }
{
    word == name
}

pub(crate) fn side_of(word: &[u8]) -> Option<Side>
    ensures { result ≡ side word.now }
{
    if is(word, b"A") {
        return Some(Side::A);
    }
    if is(word, b"B") {
        return Some(Side::B);
    }
    None
}

pub(crate) fn direction_of(word: &[u8]) -> Option<Direction>
    ensures { result ≡ direction word.now }
{
    if is(word, b"AB") {
        return Some(Direction::AB);
    }
    if is(word, b"BA") {
        return Some(Direction::BA);
    }
    None
}

/// A number: 1 to 10 decimal digits, at most 4,294,967,295.
pub(crate) fn number_of(word: &[u8]) -> Option<u32>
    ensures { result ≡ number word.now }
{
    if word.is_empty() || word.len() > 10 {
        return None;
    }
    value_of(word)
}

/// The number of these digits, at most 4,294,967,295.
fn value_of(word: &[u8]) -> Option<u32>
    ensures { result ≡ digits 0 word.now }
{
    let mut number: u64 = 0;
    for digit in word {
        if *digit < b'0' {
            return None;
        }
        if *digit > b'9' {
            return None;
        }
        number = 10 * number + u64::from(*digit - b'0');
        if number > 4_294_967_295 {
            return None;
        }
    }
    Some(number as u32)
}

/// A number of bytes, at most 1,000,000.
pub(crate) fn count_of(word: &[u8]) -> Option<usize>
    ensures count { result ≡ count word.now }
    ensures few { IfSome result (λ n. n ≤ most_zeros) }
{
    let count = number_of(word)?;
    if count > 1_000_000 {
        return None;
    }
    Some(count as usize)
}

/// Bytes: pairs of hexadecimal digits of either case; no bytes is `-`.
pub(crate) fn payload_of(alloc: Global, word: &[u8]) -> Result<Option<Bytes>, RefusedAllocation>
    ensures { IfOk result (λ found. found ≡ payload_word word.now) }
{
    if is(word, b"-") {
        return Ok(Some(Bytes::new(alloc)));
    }
    if word.is_empty() {
        return Ok(None);
    }
    let mut bytes = zeros_for(alloc, word, word.len() / 2)?;
    match hex::decode_to_slice(word, bytes.as_mut_slice()) {
        Ok(()) => Ok(Some(Bytes::from_vec(bytes))),
        Err(_) => Ok(None),
    }
}
