//! `ymx frames`: the frames of a text, a line each.

ghost use Rattle.std.specs.Prelude.{ℕ, List, ◌≡◌, ◌<◌, ◌⊎◌, length, ⊤, IsTrue};
ghost use Rattle.std.specs.Io.KnownBytes.{Appends, Consumes, IsAtEnd};
ghost use Rattle.ymx_model.specs.devices.Devices.{has_failed};
ghost use Rattle.ymx_frames.specs.declared.print.FramesEnd.{FramesEnd as End};
ghost use Rattle.ymx_frames.specs.Outputs.{IsWhole, Prints};

use crate::printer::Printer;
use std::alloc::Global;
use std::sync::Wait;
use ymx_memory::{RefusedAllocation, zeros};
use ymx_model::{Inlet, Outlet, push_all};

/// How the printing of frames ended.
#[derive(Clone, Copy, Debug, PartialEq, Eq)]
pub enum FramesEnd {
    /// The input ended, and is whole frames.
    Good,
    /// A frame is bad.
    Fault,
    /// The input ended inside a frame.
    Rest,
    /// The reader failed.
    Reading,
    /// The writer failed.
    Writing,
    /// There was no memory. It holds the evidence: an allocation was refused.
    Memory(RefusedAllocation),
}

/// What is printed of an input, and whether that ends as `Good`, `Rest` or `Fault`, follows from the
/// input. (A law of the definitions: the function itself does nothing.)
pub fn one_printing()
    ensures { (limit : ℕ) (text : List ℕ) (end other : End) (output printed : List ℕ) → IsWhole end → IsWhole other →
        Prints limit text ⊤ end output → Prints limit text ⊤ other printed → (end ≡ other) × (output ≡ printed) }
{}

/// Bytes read at once.
const INPUT: usize = 65_536;

/// Bytes of lines for which there is room from the start: the shortest frame has 12 bytes, and the
/// longest line of one without payload 47.
const LINES: usize = 4 * INPUT;

/// Prints the frames that the reader gives, a line each, and what stands after them: the first bad
/// frame, or the beginning of one (framing). A Data frame whose payload is longer than `limit`, in
/// bytes, is bad. It reads 64 KiB at a time, and writes all lines of a read before it reads again.
pub fn frames<R: Inlet, W: Outlet>(
    rt: &impl Wait,
    alloc: Global,
    reader: &mut R,
    writer: &mut W,
    limit: u32,
) -> FramesEnd
    // What was read and what was written: at the ends `Good`, `Rest` and `Fault` all of the lines.
    ensures printed { (text : List ℕ) × (output : List ℕ)
        × Consumes (R.remaining reader.old) (R.remaining reader.new) text
        × Appends (W.contents writer.old) (W.contents writer.new) output
        × Prints limit text (IsAtEnd (R.remaining reader.new)) result output }

    // A device is blamed only if it failed, and one that failed is blamed.
    ensures reading { result ≡ FramesEnd.Reading → IsTrue (has_failed (R.failures reader.old) (R.failures reader.new)) }
    ensures writing { result ≡ FramesEnd.Writing → IsTrue (has_failed (W.failures writer.old) (W.failures writer.new)) }
    ensures reader_kept { (result ≡ FramesEnd.Reading) ⊎ (R.failures reader.new ≡ R.failures reader.old) }
    ensures writer_kept { (result ≡ FramesEnd.Writing) ⊎ (W.failures writer.new ≡ W.failures writer.old) }
{
    let mut room = match zeros(alloc, INPUT) {
        Ok(room) => room,
        Err(refused) => return FramesEnd::Memory(refused),
    };
    let input = room.as_mut_slice();
    let mut printer = match Printer::new(alloc, limit, LINES) {
        Ok(printer) => printer,
        Err(refused) => return FramesEnd::Memory(refused),
    };
    'round: for _ in rt.forever() {
        let Ok(count) = reader.pull(input) else {
            return FramesEnd::Reading;
        };
        let end = printer.print(&input[..count]);
        if push_all(writer, printer.lines()).is_err() {
            return FramesEnd::Writing;
        }
        if let Some(end) = end {
            return end;
        }
        printer.clear();
    }
    unreachable!()
}
