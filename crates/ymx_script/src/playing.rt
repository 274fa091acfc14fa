//! `ymx script`: a world driven by the lines of a text.

ghost use Rattle.std.specs.Prelude.{ℕ, List, Option, [], ◌≡◌, ◌<◌, ◌⊎◌, length, IsTrue, MatchOption};
ghost use Rattle.std.specs.Io.KnownBytes.{Appends, Consumes, IsAtEnd};
ghost use Rattle.ymx_model.specs.devices.Devices.{has_failed};
ghost use Rattle.ymx_script.specs.Outputs.{PrintsByEnd};
ghost use Rattle.ymx_script.specs.Reading.{IsReading};
ghost use Rattle.ymx_script.specs.Rounds.{HasEnded, RoundsHavePlayed};
ghost use Rattle.ymx_script.specs.Scripts.{IsTextPart};

use crate::lines::{Lines, ScriptEnd};
use std::alloc::Global;
use std::sync::Wait;
use ymx_memory::zeros;
use ymx_model::{Inlet, Outlet, push_all};

/// Bytes read at once.
const INPUT: usize = 65_536;

/// Plays the script that the reader gives: its lines say steps of two sessions joined by pipes, and the
/// answer of each is printed as a line. It ends at the end of the input, or at the first line that is none
/// of the language, whose number is printed. It reads 64 KiB at a time, and writes what the lines of a read
/// print before it reads again.
pub fn script<R: Inlet, W: Outlet>(
    rt: &impl Wait,
    alloc: Global,
    reader: &mut R,
    writer: &mut W,
) -> ScriptEnd
    // What was read and what was written: the printing of the answers that a run of a world gives for
    // the steps which the lines say; all of it at the ends `Good` and `Line`, and else a beginning.
    ensures printed { (text : List ℕ) × (output : List ℕ)
        × Consumes (R.remaining reader.old) (R.remaining reader.new) text
        × Appends (W.contents writer.old) (W.contents writer.new) output
        × PrintsByEnd text (IsAtEnd (R.remaining reader.new)) result output }

    // A device is blamed only if it failed, and one that failed is blamed.
    ensures reading { result ≡ ScriptEnd.Reading → IsTrue (has_failed (R.failures reader.old) (R.failures reader.new)) }
    ensures writing { result ≡ ScriptEnd.Writing → IsTrue (has_failed (W.failures writer.old) (W.failures writer.new)) }
    ensures reader_kept { (result ≡ ScriptEnd.Reading) ⊎ (R.failures reader.new ≡ R.failures reader.old) }
    ensures writer_kept { (result ≡ ScriptEnd.Writing) ⊎ (W.failures writer.new ≡ W.failures writer.old) }
{
    match zeros(alloc, INPUT) {
        Ok(mut input) => play_into(rt, alloc, reader, writer, input.as_mut_slice()),
        Err(refused) => ScriptEnd::Memory(refused),
    }
}

/// The same, with the buffer that is read into.
fn play_into<R: Inlet, W: Outlet>(
    rt: &impl Wait,
    alloc: Global,
    reader: &mut R,
    writer: &mut W,
    input: &mut [u8],
) -> ScriptEnd
    requires { 0 < length input.old }
    ensures { HasEnded (R.remaining reader.old) (R.remaining reader.new) (W.contents writer.old) (W.contents writer.new)
        (R.failures reader.old) (R.failures reader.new) (W.failures writer.old) (W.failures writer.new) result }
{
    let mut lines = Lines::new(alloc);
    let end = play_all(rt, reader, writer, &mut lines, input);
    // by a call, so that the drop of its parts is not proved here
    drop(lines);
    end
}

/// Plays piece after piece.
fn play_all<R: Inlet, W: Outlet>(
    rt: &impl Wait,
    reader: &mut R,
    writer: &mut W,
    lines: &mut Lines,
    input: &mut [u8],
) -> ScriptEnd
    requires room { 0 < length input.old }
    requires begins { IsReading [] [] lines.old }
    ensures { HasEnded (R.remaining reader.old) (R.remaining reader.new) (W.contents writer.old) (W.contents writer.new)
        (R.failures reader.old) (R.failures reader.new) (W.failures writer.old) (W.failures writer.new) result }
{
    'pieces: for _ in rt.forever() {
        if let Some(end) = play_piece(reader, writer, lines, input) {
            return end;
        }
    }
    unreachable!()
}

/// Reads a piece, plays it, and writes what it prints. Answers how the script ended, if it did.
fn play_piece<R: Inlet, W: Outlet>(
    reader: &mut R,
    writer: &mut W,
    lines: &mut Lines,
    input: &mut [u8],
) -> Option<ScriptEnd>
    requires room { 0 < length input.old }
    requires part { IsTextPart lines.old.part.items }
    ensures { (was had : Option (List ℕ)) (read written : ℕ) →
        RoundsHavePlayed was (R.remaining reader.old) had (W.contents writer.old) read (R.failures reader.old) written (W.failures writer.old) lines.old →
        MatchOption result
        (RoundsHavePlayed was (R.remaining reader.new) had (W.contents writer.new) read (R.failures reader.new) written (W.failures writer.new) lines.new)
        (λ end. HasEnded was (R.remaining reader.new) had (W.contents writer.new) read (R.failures reader.new) written (W.failures writer.new) end) }
{
    let Ok(count) = reader.pull(input) else {
        return Some(ScriptEnd::Reading);
    };
    let end = lines.round(&input[..count]);
    if push_all(writer, lines.text()).is_err() {
        return Some(ScriptEnd::Writing);
    }
    if let Some(end) = end {
        return Some(end);
    }
    lines.clear();
    None
}
