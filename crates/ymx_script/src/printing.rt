//! What is printed of an answer.

ghost use Rattle.std.specs.Prelude.{◌≡◌, ◌++◌, take, OnOk, codes};
ghost use Rattle.std.specs.Io.{StartsWith};
ghost use Rattle.ymx_script.specs.Printing.{accepted_text, answer_text, digits_text, fed_text, pipe_digits, pipe_text, read_text, refusal_text, stop_text, wrote_text, yes_or_no};

use std::alloc::Global;
use ymx_frames::append_number;
use ymx_memory::{RefusedAllocation, extend, zeros_for};
use ymx_model::{Answer, CallFault, Fed, Why, Wrote};

/// How many bytes of a pipe are shown.
const SHOWN: usize = 32;

/// Appends an answer, in words; `shown`: with the bytes that were read.
pub(crate) fn append_answer(
    alloc: Global,
    text: &mut Vec<u8>,
    shown: bool,
    answer: &Answer,
) -> Result<(), RefusedAllocation>
    ensures ok { OnOk result (text.new.items ≡ text.old.items ++ answer_text shown answer.now) }
    ensures kept { StartsWith text.new.items text.old.items }
{
    match answer {
        Answer::Opened(id) => append_number(text, b"opened ", *id),
        Answer::OpenedWith(id, count) => {
            append_number(text, b"opened ", *id)?;
            append_number(text, b" took ", *count)
        }
        Answer::Accepted(id) => append_accepted(text, *id),
        Answer::Wrote(wrote) => append_wrote(text, *wrote),
        Answer::Read(bytes) => append_read(alloc, text, shown, bytes.as_slice()),
        Answer::ReadEnd => extend(text, b"end"),
        Answer::ReadWait => extend(text, b"wait"),
        Answer::Done => extend(text, b"ok"),
        Answer::Pinged(number) => append_number(text, b"ping ", *number),
        Answer::Ponged(back) => append_yes_or_no(text, *back),
        Answer::Refused(fault) => append_refusal(text, *fault),
        Answer::Emitted(count) => append_number(text, b"emitted ", *count),
        Answer::Fed(fed) => append_fed(text, fed),
        Answer::NotStopped => extend(text, b"not stopped"),
    }
}

fn append_accepted(text: &mut Vec<u8>, id: Option<u32>) -> Result<(), RefusedAllocation>
    ensures ok { OnOk result (text.new.items ≡ text.old.items ++ accepted_text id) }
    ensures kept { StartsWith text.new.items text.old.items }
{
    match id {
        Some(id) => append_number(text, b"accepted ", id),
        None => extend(text, b"none"),
    }
}

fn append_wrote(text: &mut Vec<u8>, wrote: Wrote) -> Result<(), RefusedAllocation>
    ensures ok { OnOk result (text.new.items ≡ text.old.items ++ wrote_text wrote) }
    ensures kept { StartsWith text.new.items text.old.items }
{
    match wrote {
        Wrote::Took(count) => append_number(text, b"took ", count),
        Wrote::Wait => extend(text, b"wait"),
    }
}

pub(crate) fn append_yes_or_no(text: &mut Vec<u8>, yes: bool) -> Result<(), RefusedAllocation>
    ensures ok { OnOk result (text.new.items ≡ text.old.items ++ yes_or_no yes) }
    ensures kept { StartsWith text.new.items text.old.items }
{
    if yes {
        extend(text, b"yes")
    } else {
        extend(text, b"no")
    }
}

fn append_read(
    alloc: Global,
    text: &mut Vec<u8>,
    shown: bool,
    bytes: &[u8],
) -> Result<(), RefusedAllocation>
    ensures ok { OnOk result (text.new.items ≡ text.old.items ++ read_text shown bytes.now) }
    ensures kept { StartsWith text.new.items text.old.items }
{
    append_number(text, b"bytes ", bytes.len())?;
    if shown {
        append_digits(alloc, text, bytes)?;
    }
    Ok(())
}

/// Appends bytes in hexadecimal after a space, if there are any.
fn append_digits(alloc: Global, text: &mut Vec<u8>, bytes: &[u8]) -> Result<(), RefusedAllocation>
    ensures ok { OnOk result (text.new.items ≡ text.old.items ++ digits_text bytes.now) }
    ensures kept { StartsWith text.new.items text.old.items }
{
    if bytes.is_empty() {
        return Ok(());
    }
    let mut digits = zeros_for(alloc, bytes, 2 * bytes.len())?;
    let _ = hex::encode_to_slice(bytes, digits.as_mut_slice());
    extend(text, b" ")?;
    extend(text, digits.as_slice())
}

fn append_refusal(text: &mut Vec<u8>, fault: CallFault) -> Result<(), RefusedAllocation>
    ensures ok { OnOk result (text.new.items ≡ text.old.items ++ (codes "refused " ++ refusal_text fault)) }
    ensures kept { StartsWith text.new.items text.old.items }
{
    extend(text, b"refused ")?;
    extend(text, name_of(fault))
}

/// The number of a refusal and its name.
fn name_of(fault: CallFault) -> &'static [u8]
    ensures { result.now ≡ refusal_text fault }
{
    match fault {
        CallFault::NoStream => b"1 NoStream",
        CallFault::Finished => b"2 Finished",
        CallFault::Reset => b"3 Reset",
        CallFault::Lost => b"4 Lost",
        CallFault::Closed => b"5 Closed",
        CallFault::PeerAway => b"6 PeerAway",
        CallFault::OpensPending => b"7 OpensPending",
        CallFault::TooMany => b"8 TooMany",
        CallFault::Exhausted => b"9 Exhausted",
        CallFault::PingsPending => b"10 PingsPending",
        CallFault::OutOfMemory(_) => b"11 OutOfMemory",
    }
}

fn append_fed(text: &mut Vec<u8>, fed: &Fed) -> Result<(), RefusedAllocation>
    ensures ok { OnOk result (text.new.items ≡ text.old.items ++ fed_text fed.now) }
    ensures kept { StartsWith text.new.items text.old.items }
{
    append_stop(text, fed.why, fed.taken)?;
    let refused = fed.no_memory.get();
    if refused == 0 {
        return Ok(());
    }
    append_number(text, b" nomem ", refused)
}

/// Appends why a delivery stopped, and how many bytes it took.
fn append_stop(text: &mut Vec<u8>, why: Why, taken: usize) -> Result<(), RefusedAllocation>
    ensures ok { OnOk result (text.new.items ≡ text.old.items ++ stop_text why taken) }
    ensures kept { StartsWith text.new.items text.old.items }
{
    match why {
        Why::All => append_number(text, b"fed ", taken),
        Why::Held => append_number(text, b"held ", taken),
        Why::Broken(fault) => {
            append_number(text, b"broken ", taken)?;
            append_number(text, b" B", fault.number())
        }
    }
}

/// Appends what is on its way in a direction: how many bytes, and the first of them.
pub(crate) fn append_pipe(
    alloc: Global,
    text: &mut Vec<u8>,
    bytes: &[u8],
) -> Result<(), RefusedAllocation>
    ensures ok { OnOk result (text.new.items ≡ text.old.items ++ pipe_text bytes.now) }
    ensures kept { StartsWith text.new.items text.old.items }
{
    append_number(text, b"pipe ", bytes.len())?;
    append_pipe_digits(alloc, text, bytes)
}

/// Appends the first bytes on their way, with two dots if there are more.
fn append_pipe_digits(
    alloc: Global,
    text: &mut Vec<u8>,
    bytes: &[u8],
) -> Result<(), RefusedAllocation>
    ensures ok { OnOk result (text.new.items ≡ text.old.items ++ pipe_digits bytes.now) }
    ensures kept { StartsWith text.new.items text.old.items }
{
    append_digits(alloc, text, front_of(bytes, SHOWN))?;
    if bytes.len() > SHOWN {
        return extend(text, b"..");
    }
    Ok(())
}

/// The first bytes, at most so many.
fn front_of(bytes: &[u8], limit: usize) -> &[u8]
    ensures { result.now ≡ take limit bytes.entry.now }
{
    let count = bytes.len().min(limit);
    &bytes[..count]
}
