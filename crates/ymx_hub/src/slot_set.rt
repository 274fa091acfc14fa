//! Sets of slots. Streams share 1,024 slots, by their ids.

ghost use Rattle.std.specs.Prelude.{◌<◌};

use std::mem;

/// A set of the slots 0 to 1,023, a bit each. To add, take or look up a slot touches two words, and to go over the
/// set those that have bits.
#[derive(Drop)]
pub(crate) struct SlotSet {
    /// A bit for each of the words that has bits.
    filled: u64,
    words: [u64; 16],
}

impl SlotSet {
    /// No slot.
    pub(crate) fn none() -> SlotSet {
        SlotSet {
            filled: 0,
            words: [0; 16],
        }
    }

    /// Adds a slot.
    pub(crate) fn add(&mut self, slot: u32)
        requires { slot < 1_024 }
    {
        let place = slot / 64;
        self.words[place as usize] |= 1 << (slot % 64);
        self.filled |= 1 << place;
    }

    /// Takes a slot out: whether it was in the set.
    pub(crate) fn take(&mut self, slot: u32) -> bool
        requires { slot < 1_024 }
    {
        let place = slot / 64;
        let bit = 1u64 << (slot % 64);
        let word = self.words[place as usize];
        if word & bit == 0 {
            return false;
        }
        let left = word & !bit;
        self.words[place as usize] = left;
        if left == 0 {
            self.filled &= !(1 << place);
        }
        true
    }

    /// Whether a slot is in the set.
    pub(crate) fn has(&self, slot: u32) -> bool
        requires { slot < 1_024 }
    {
        let place = slot / 64;
        self.words[place as usize] & (1 << (slot % 64)) != 0
    }

    /// Moves all its slots to another set.
    pub(crate) fn move_to(&mut self, other: &mut SlotSet) {
        let mut filled = mem::take(&mut self.filled);
        other.filled |= filled;
        for _ in 0..filled.count_ones() {
            let place = (take_lowest(&mut filled) % 16) as usize;
            other.words[place] |= mem::take(&mut self.words[place]);
        }
    }

    /// A bit for each of the words that has bits.
    pub(crate) fn filled(&self) -> u64 {
        self.filled
    }

    /// The word at this place: the slots from 64 times its place on.
    pub(crate) fn word(&self, place: u32) -> u64
        requires { place < 16 }
    {
        self.words[place as usize]
    }
}

/// Takes the lowest bit out of a word that has bits: its place.
pub(crate) fn take_lowest(word: &mut u64) -> u32
    ensures { result < 64 }
{
    let place = word.trailing_zeros() % 64;
    *word &= word.wrapping_sub(1);
    place
}
