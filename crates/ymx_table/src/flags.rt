//! Flags as the bits of 16 words: the first flag is the lowest bit of the first word.

ghost use Rattle.std.specs.Prelude.{◌≡◌, ℕ, ◌+◌, ◌<◌, ◌==◌, if◌then◌else◌, nat_lt, MatchOption, IfSome};
ghost use Rattle.ymx_table.specs.Flags.{bit, flag, IsFirst, IsNoneFrom};

/// How many words the flags take.
pub(crate) const WORDS: usize = 16;

/// How many flags a word has.
const WORD_BITS: usize = 64;

/// Whether the flag at this place is set. None is from place 1,024 on.
pub(crate) fn has_flag(words: &[u64; WORDS], place: usize) -> bool
    ensures { result ≡ flag words.now place }
{
    let i = place / WORD_BITS;
    i < WORDS && has_bit(words[i], place % WORD_BITS)
}

/// Sets or clears the flag at this place.
pub(crate) fn put_flag(words: &mut [u64; WORDS], place: usize, is_set: bool)
    requires { place < 1024 }
    ensures { (k : ℕ) → flag words.new k ≡ (if k == place then is_set else flag words.old k) }
{
    words[place / WORD_BITS] = with_bit(words[place / WORD_BITS], place % WORD_BITS, is_set);
}

/// Takes out the flag at this place: those after it move up.
pub(crate) fn take_flag_out(words: &mut [u64; WORDS], place: usize)
    requires { place < 1024 }
    ensures { (k : ℕ) → flag words.new k ≡ (if nat_lt k place then flag words.old k else flag words.old (k + 1)) }
{
    for i in place / WORD_BITS..WORDS {
        let at = place.saturating_sub(i * WORD_BITS);
        let top = has_flag(words, (i + 1) * WORD_BITS);
        words[i] = without_bit(words[i], at, top);
    }
}

/// The first place from `from` on whose flag is set, or `None` if there is none. It looks at the words, 16
/// at most.
pub(crate) fn first_flag(words: &[u64; WORDS], from: usize) -> Option<usize>
    ensures { MatchOption result (IsNoneFrom (flag words.now) from) (IsFirst (flag words.now) from) }
{
    for i in from / WORD_BITS..WORDS {
        let start = from.saturating_sub(i * WORD_BITS);
        if let Some(at) = first_bit(words[i], start) {
            return Some(i * WORD_BITS + at);
        }
    }
    None
}

/// Whether this bit of the word is set.
fn has_bit(word: u64, at: usize) -> bool
    requires { at < 64 }
    ensures { result ≡ bit word at }
{
    (word >> at) & 1 == 1
}

/// The word with this bit set or cleared.
fn with_bit(word: u64, at: usize, is_set: bool) -> u64
    requires { at < 64 }
    ensures { (k : ℕ) → k < 64 → bit result k ≡ (if k == at then is_set else bit word k) }
{
    let one = 1 << at;
    if is_set { word | one } else { word & !one }
}

/// The word without this bit: those above it move down by one, and `top` comes in above them.
fn without_bit(word: u64, at: usize, top: bool) -> u64
    requires { at < 64 }
    ensures { (k : ℕ) → k < 64 → bit result k ≡ (if nat_lt k at then bit word k else if k == 63 then top else bit word (k + 1)) }
{
    let below = (1 << at) - 1;
    let kept = word & below;
    let moved = (word >> 1) & !below;
    kept | moved | (u64::from(top) << 63)
}

/// The first bit of the word from `from` on that is set, or `None` if there is none.
fn first_bit(word: u64, from: usize) -> Option<usize>
    requires { from < 64 }
    ensures first { MatchOption result (IsNoneFrom (bit word) from) (IsFirst (bit word) from) }
    ensures within { IfSome result (λ at. at < 64) }
{
    let rest = word >> from;
    if rest == 0 {
        None
    } else {
        Some(from + rest.trailing_zeros() as usize)
    }
}
