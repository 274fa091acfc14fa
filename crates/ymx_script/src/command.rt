//! What a line of a script says.

ghost use Rattle.std.specs.Prelude.{◌≡◌, ◌≤◌, IfOk};
ghost use Rattle.ymx_memory.specs.Bounds.{most_zeros};
ghost use Rattle.ymx_script.specs.Language.{bare_call, call_of, counted_call, numbered_call, of_one, of_two, of_three, of_four, other_of_three, command};

use crate::words::{Words, count_of, direction_of, is, number_of, payload_of, side_of};
use std::alloc::Global;
use ymx_memory::{RefusedAllocation, zeros};
use ymx_model::{Bytes, Call, Direction, Side, Step};

/// What a line says.
#[derive(Drop)]
pub enum Command {
    /// Nothing: it is empty, or a comment.
    Nothing,
    /// The first own id of a side; 0 stands for the least.
    First(Side, u32),
    /// The window of a side, in bytes.
    Window(Side, u32),
    /// A step of the world.
    Do(Step),
    /// A step that reads, of which only the number of bytes is printed.
    Skip(Step),
    /// Whether the world is quiet.
    Quiet,
    /// Whether a side has something due.
    Due(Side),
    /// What is on its way in a direction.
    Show(Direction),
}

/// What this line says, without its line feed. `None` if it is not of the language, and `RefusedAllocation` where
/// there is no memory for the bytes that it spells.
pub fn command_of(alloc: Global, line: &[u8]) -> Result<Option<Command>, RefusedAllocation>
    ensures { IfOk result (λ found. found ≡ command line.now) }
{
    if line.is_empty() || line[0] == b'#' {
        return Ok(Some(Command::Nothing));
    }
    let mut words = Words::new(line);
    let Some(first) = words.next() else {
        return Ok(None);
    };
    let Some(second) = words.next() else {
        return Ok(of_one(first));
    };
    let Some(third) = words.next() else {
        return Ok(of_two(first, second));
    };
    let Some(fourth) = words.next() else {
        return of_three(alloc, first, second, third);
    };
    if words.next().is_some() {
        return Ok(None);
    }
    of_four(alloc, first, second, third, fourth)
}

fn of_one(word: &[u8]) -> Option<Command>
    ensures { result ≡ of_one word.now }
{
    if is(word, b"quiet") {
        return Some(Command::Quiet);
    }
    None
}

fn of_two(verb: &[u8], word: &[u8]) -> Option<Command>
    ensures { result ≡ of_two verb.now word.now }
{
    if let Some(side) = side_of(verb) {
        return bare_call(side, word);
    }
    if is(verb, b"due") {
        return Some(Command::Due(side_of(word)?));
    }
    if is(verb, b"show") {
        return Some(Command::Show(direction_of(word)?));
    }
    if is(verb, b"stop") {
        return Some(Command::Do(Step::Stop(direction_of(word)?)));
    }
    if is(verb, b"end") {
        return Some(Command::Do(Step::End(direction_of(word)?)));
    }
    None
}

/// A call without arguments.
fn bare_call(side: Side, verb: &[u8]) -> Option<Command>
    ensures { result ≡ bare_call side verb.now }
{
    if is(verb, b"open") {
        return Some(Command::Do(Step::At(side, Call::Open)));
    }
    if is(verb, b"accept") {
        return Some(Command::Do(Step::At(side, Call::Accept)));
    }
    if is(verb, b"ping") {
        return Some(Command::Do(Step::At(side, Call::Ping)));
    }
    if is(verb, b"away") {
        return Some(Command::Do(Step::At(side, Call::GoAway)));
    }
    if is(verb, b"close") {
        return Some(Command::Do(Step::At(side, Call::Close)));
    }
    None
}

fn of_three(
    alloc: Global,
    verb: &[u8],
    word: &[u8],
    last: &[u8],
) -> Result<Option<Command>, RefusedAllocation>
    ensures { IfOk result (λ found. found ≡ of_three verb.now word.now last.now) }
{
    match side_of(verb) {
        Some(side) => call_of(alloc, side, word, last),
        None => Ok(other_of_three(verb, word, last)),
    }
}

/// A setting, an emission or a delivery.
fn other_of_three(verb: &[u8], word: &[u8], last: &[u8]) -> Option<Command>
    ensures { result ≡ other_of_three verb.now word.now last.now }
{
    if is(verb, b"first") {
        return Some(Command::First(side_of(word)?, number_of(last)?));
    }
    if is(verb, b"window") {
        return Some(Command::Window(side_of(word)?, number_of(last)?));
    }
    if is(verb, b"emit") {
        return Some(Command::Do(Step::Emit(side_of(word)?, count_of(last)?)));
    }
    if is(verb, b"deliver") {
        let direction = direction_of(word)?;
        let count = number_of(last)? as usize;
        return Some(Command::Do(Step::Deliver(direction, count)));
    }
    None
}

/// A call with one argument.
fn call_of(
    alloc: Global,
    side: Side,
    verb: &[u8],
    word: &[u8],
) -> Result<Option<Command>, RefusedAllocation>
    ensures { IfOk result (λ found. found ≡ call_of side verb.now word.now) }
{
    if is(verb, b"openwith") {
        let Some(bytes) = payload_of(alloc, word)? else {
            return Ok(None);
        };
        return Ok(Some(Command::Do(Step::At(side, Call::OpenWith(bytes)))));
    }
    Ok(numbered_call(side, verb, word))
}

/// A call on a stream or a ping.
fn numbered_call(side: Side, verb: &[u8], word: &[u8]) -> Option<Command>
    ensures { result ≡ numbered_call side verb.now word.now }
{
    if is(verb, b"finish") {
        return Some(Command::Do(Step::At(side, Call::Finish(number_of(word)?))));
    }
    if is(verb, b"reset") {
        return Some(Command::Do(Step::At(side, Call::Reset(number_of(word)?))));
    }
    if is(verb, b"forget") {
        return Some(Command::Do(Step::At(side, Call::Forget(number_of(word)?))));
    }
    if is(verb, b"ponged") {
        return Some(Command::Do(Step::At(side, Call::Ponged(number_of(word)?))));
    }
    None
}

fn of_four(
    alloc: Global,
    first: &[u8],
    verb: &[u8],
    word: &[u8],
    last: &[u8],
) -> Result<Option<Command>, RefusedAllocation>
    ensures { IfOk result (λ found. found ≡ of_four first.now verb.now word.now last.now) }
{
    let Some(side) = side_of(first) else {
        return Ok(None);
    };
    let Some(id) = number_of(word) else {
        return Ok(None);
    };
    if is(verb, b"write") {
        let Some(bytes) = payload_of(alloc, last)? else {
            return Ok(None);
        };
        return Ok(Some(Command::Do(Step::At(side, Call::Write(id, bytes)))));
    }
    match count_of(last) {
        Some(count) => counted_call(alloc, side, verb, id, count),
        None => Ok(None),
    }
}

/// A call that moves so many bytes of a stream, at most 1,000,000.
fn counted_call(
    alloc: Global,
    side: Side,
    verb: &[u8],
    id: u32,
    count: usize,
) -> Result<Option<Command>, RefusedAllocation>
    requires few { count ≤ most_zeros }
    ensures { IfOk result (λ found. found ≡ counted_call side verb.now id count) }
{
    if is(verb, b"fill") {
        let mut bytes = zeros(alloc, count)?;
        bytes.fill(b'x');
        let bytes = Bytes::from_vec(bytes);
        return Ok(Some(Command::Do(Step::At(side, Call::Write(id, bytes)))));
    }
    if is(verb, b"read") {
        return Ok(Some(Command::Do(Step::At(side, Call::Read(id, count)))));
    }
    if is(verb, b"skip") {
        return Ok(Some(Command::Skip(Step::At(side, Call::Read(id, count)))));
    }
    Ok(None)
}
