//! The lines that are printed of frames.

ghost use Rattle.std.specs.Prelude.{ℕ, List, ◌≡◌, ◌≤◌, ◌++◌, [], codes, length, take, OnOk, OnErr};
ghost use Rattle.std.specs.Io.{StartsWith};
ghost use Rattle.hex.specs.Hex.{encode_lower};
ghost use Rattle.std.specs.Int.{bytes_high_first};
ghost use Rattle.ymx_frames.specs.Lines.{fault_line, fields_text, flags_text, kind_word, line_text, preview, preview_text, rest_line};

use arrayvec::ArrayVec;
use itoa::{Buffer, Integer};
use std::marker::Model;
use ymx_header::{Fault, Header, TYPE_DATA, TYPE_PING, TYPE_WINDOW_UPDATE};
use ymx_memory::{RefusedAllocation, extend};

/// How many bytes of a payload a line shows.
const SHOWN: usize = 16;

/// What a line shows of a payload that comes in pieces: its first sixteen bytes, and whether there
/// are more.
#[derive(Drop)]
pub struct Preview {
    bytes: ArrayVec<u8, SHOWN>,
    more: bool,
}

impl Model for Preview {
    ghost use Rattle.ymx_frames.specs.Lines.{Preview as Shown};

    ghost Value = { Shown };

    ghost view = { λ p. record { bytes = p.bytes.items; more = p.more } };
}

impl Preview {
    /// Of no bytes.
    pub fn new() -> Preview
        ensures { result ≡ preview [] }
    {
        Preview {
            bytes: ArrayVec::new(),
            more: false,
        }
    }

    /// The next piece of the payload has come.
    pub fn add(&mut self, piece: &[u8])
        ensures { (payload : List ℕ) → self.old ≡ preview payload → self.new ≡ preview (payload ++ piece.now) }
    {
        let room = self.bytes.remaining_capacity();
        let fits = piece.len().min(room);
        let _ = self.bytes.try_extend_from_slice(&piece[..fits]);
        self.more |= room < piece.len();
    }

    /// Appends its text to a line.
    fn write(&self, text: &mut Vec<u8>) -> Result<(), RefusedAllocation>
        ensures ok { OnOk result (text.new.items ≡ text.old.items ++ preview_text self.now) }
        ensures kept { StartsWith text.new.items text.old.items }
    {
        let shown = self.bytes.as_slice();
        if shown.is_empty() {
            return Ok(());
        }
        write_digits(text, shown)?;
        if self.more {
            return extend(text, b"..");
        }
        Ok(())
    }
}

/// Appends a space and these bytes, at most sixteen, in hexadecimal.
fn write_digits(text: &mut Vec<u8>, shown: &[u8]) -> Result<(), RefusedAllocation>
    requires { length shown.now ≤ 16 }
    ensures ok { OnOk result (text.new.items ≡ text.old.items ++ (codes " " ++ encode_lower shown.now)) }
    ensures kept { StartsWith text.new.items text.old.items }
{
    let mut digits = [0; 2 * SHOWN];
    let digits = &mut digits[..2 * shown.len()];
    let _ = hex::encode_to_slice(shown, digits);
    extend(text, b" ")?;
    extend(text, digits)
}

/// Appends a name and a number in decimal digits.
pub fn append_number<N: Integer>(
    text: &mut Vec<u8>,
    name: &[u8],
    number: N,
) -> Result<(), RefusedAllocation>
    ensures ok { OnOk result (text.new.items ≡ text.old.items ++ (name.now ++ N.text number)) }
    ensures kept { StartsWith text.new.items text.old.items }
{
    let mut buffer = Buffer::new();
    extend(text, name)?;
    extend(text, buffer.format(number).as_bytes())
}

/// The word for a type of frame. A header of another type is never printed.
fn word_of(kind: u8) -> &'static [u8]
    ensures { result.now ≡ kind_word kind }
{
    match kind {
        TYPE_DATA => b"data",
        TYPE_WINDOW_UPDATE => b"window",
        TYPE_PING => b"ping",
        _ => b"away",
    }
}

/// The four digits of the flags of a header.
fn digits_of(flags: u16) -> [u8; 4]
    ensures { result ≡ encode_lower (bytes_high_first 2 flags) }
{
    let mut digits = [0; 4];
    let _ = hex::encode_to_slice(flags.to_be_bytes(), &mut digits);
    digits
}

/// Appends the type and the flags of a header.
fn write_kind(text: &mut Vec<u8>, header: &Header) -> Result<(), RefusedAllocation>
    ensures ok { OnOk result (text.new.items ≡ text.old.items ++ (kind_word header.now.kind ++ flags_text header.now.flags)) }
    ensures kept { StartsWith text.new.items text.old.items }
{
    extend(text, word_of(header.kind))?;
    extend(text, b" flags=")?;
    extend(text, &digits_of(header.flags))
}

/// Appends the fields of a header.
fn write_fields(text: &mut Vec<u8>, header: &Header) -> Result<(), RefusedAllocation>
    ensures ok { OnOk result (text.new.items ≡ text.old.items ++ fields_text header.now) }
    ensures kept { StartsWith text.new.items text.old.items }
{
    write_kind(text, header)?;
    append_number(text, b" id=", header.id)?;
    append_number(text, b" len=", header.length)
}

/// Appends the line of a frame. Where there is no memory for it nothing is appended.
pub fn write_line(
    text: &mut Vec<u8>,
    header: &Header,
    preview: &Preview,
) -> Result<(), RefusedAllocation>
    ensures ok { OnOk result (text.new.items ≡ text.old.items ++ line_text header.now preview.now) }
    ensures err { OnErr result (text.new.items ≡ text.old.items) }
{
    let start = text.len();
    let written = append_frame(text, header, preview);
    whole_or_none(text, start, written)
}

/// Appends the line of a fault, whose frame begins at this place of the input. Where there is no
/// memory for it nothing is appended.
pub fn write_fault(text: &mut Vec<u8>, fault: Fault, offset: u64) -> Result<(), RefusedAllocation>
    ensures ok { OnOk result (text.new.items ≡ text.old.items ++ fault_line fault offset) }
    ensures err { OnErr result (text.new.items ≡ text.old.items) }
{
    let start = text.len();
    let written = append_fault(text, fault, offset);
    whole_or_none(text, start, written)
}

/// Appends the line of a rest of so many bytes. Where there is no memory for it nothing is appended.
pub fn write_rest(text: &mut Vec<u8>, count: usize) -> Result<(), RefusedAllocation>
    ensures ok { OnOk result (text.new.items ≡ text.old.items ++ rest_line count) }
    ensures err { OnErr result (text.new.items ≡ text.old.items) }
{
    let start = text.len();
    let written = append_rest(text, count);
    whole_or_none(text, start, written)
}

/// Takes back what was appended after `start` if not all of it was.
fn whole_or_none(
    text: &mut Vec<u8>,
    start: usize,
    written: Result<(), RefusedAllocation>,
) -> Result<(), RefusedAllocation>
    ensures same { result ≡ written }
    ensures ok { OnOk written (text.new.items ≡ text.old.items) }
    ensures err { OnErr written (text.new.items ≡ take start text.old.items) }
{
    if written.is_err() {
        text.truncate(start);
    }
    written
}

/// Appends the line of a frame, or where there is no memory a beginning of it.
fn append_frame(
    text: &mut Vec<u8>,
    header: &Header,
    preview: &Preview,
) -> Result<(), RefusedAllocation>
    ensures ok { OnOk result (text.new.items ≡ text.old.items ++ line_text header.now preview.now) }
    ensures kept { StartsWith text.new.items text.old.items }
{
    write_fields(text, header)?;
    preview.write(text)?;
    extend(text, b"\n")
}

/// Appends the line of a fault, or where there is no memory a beginning of it.
fn append_fault(text: &mut Vec<u8>, fault: Fault, offset: u64) -> Result<(), RefusedAllocation>
    ensures ok { OnOk result (text.new.items ≡ text.old.items ++ fault_line fault offset) }
    ensures kept { StartsWith text.new.items text.old.items }
{
    append_number(text, b"fault B", fault.number())?;
    append_number(text, b" at ", offset)?;
    extend(text, b"\n")
}

/// Appends the line of a rest, or where there is no memory a beginning of it.
fn append_rest(text: &mut Vec<u8>, count: usize) -> Result<(), RefusedAllocation>
    ensures ok { OnOk result (text.new.items ≡ text.old.items ++ rest_line count) }
    ensures kept { StartsWith text.new.items text.old.items }
{
    append_number(text, b"rest ", count)?;
    extend(text, b"\n")
}
