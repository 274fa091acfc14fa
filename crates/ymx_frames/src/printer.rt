//! Prints the frames of a text that comes in pieces.

ghost use Rattle.std.specs.Prelude.{ℕ, List, ◌≡◌, ◌+◌, ◌<◌, ◌≤◌, ◌++◌, [], length, take, Some, IfOk, OnOk, OnErr, IsSomeAnd, IfSome, IfNone, MatchOption, min, ◌^◌, ◌-◌};
ghost use Rattle.std.specs.Result.{result_unwrap_or};
ghost use Rattle.ymx_memory.specs.Bounds.{most_text};
ghost use Rattle.ymx_machine.specs.shared.Evidence.{evidence};
ghost use Rattle.ymx_header.specs.declared.fault.Fault.{Fault as FaultValue};
ghost use Rattle.ymx_cutter.specs.Cutters.Seen.{Broken};
ghost use Rattle.ymx_header.specs.Frames.{payload_length};
ghost use Rattle.ymx_frames.specs.Lines.{line_text, preview};
ghost use Rattle.ymx_frames.specs.Outputs.{IsOwnEnd, Prints, PrintsFault, PrintsFront};
ghost use Rattle.ymx_frames.specs.Printing.{HasPrinted, IsPrinting, NoFault};

use crate::lines::{Preview, write_fault, write_line, write_rest};
use crate::print::FramesEnd;
use std::alloc::Global;
use ymx_cutter::{Cutter, Item};
use ymx_header::{Fault, HEADER_LENGTH, Header, decode};
use ymx_memory::{RefusedAllocation, text_with_capacity};

/// Prints the frames of a text that comes in pieces. Of the frame begun it keeps the header and at
/// most sixteen bytes of payload.
#[derive(Drop)]
pub struct Printer {
    cutter: Cutter,
    header: Header,
    preview: Preview,
    /// Where the frame begun begins, as far as 64 bits go.
    offset: u64,
    lines: Vec<u8>,
}

impl Printer {
    /// Nothing is read yet. There is room for so many bytes of lines, at most 262,144, before more memory is needed.
    pub fn new(alloc: Global, limit: u32, room: usize) -> Result<Printer, RefusedAllocation>
        requires at_most { room ≤ most_text }
        ensures { IfOk result (λ printer. (printer.lines.items ≡ []) × IsPrinting limit [] [] printer) }
    {
        Ok(Printer {
            cutter: Cutter::new(limit),
            header: decode(&[0; HEADER_LENGTH]),
            preview: Preview::new(),
            offset: 0,
            lines: text_with_capacity(alloc, room)?,
        })
    }

    /// The lines that were printed and not yet taken.
    pub fn lines(&self) -> &[u8]
        ensures { result.now ≡ self.now.lines.items }
    {
        self.lines.as_slice()
    }

    /// The lines were taken.
    pub fn clear(&mut self)
        ensures { (limit : ℕ) (text done : List ℕ) → IsPrinting limit text (done ++ self.old.lines.items) self.old →
            IsPrinting limit text ((done ++ self.old.lines.items) ++ self.new.lines.items) self.new }
    {
        self.lines.clear();
    }

    /// Prints what one read gave: the next bytes of the input, or none at its end. Answers how the
    /// printing ends, if it does.
    pub fn print(&mut self, input: &[u8]) -> Option<FramesEnd>
        ensures printed { (limit : ℕ) (text done : List ℕ) → IsPrinting limit text (done ++ self.old.lines.items) self.old →
            MatchOption result
            (IsPrinting limit (text ++ input.now) (done ++ self.new.lines.items) self.new)
            (λ end. Prints limit (text ++ input.now) (input.now ≡ []) end (done ++ self.new.lines.items)) }
        ensures own { IfSome result IsOwnEnd }
        ensures ends { input.now ≡ [] → IsSomeAnd result IsOwnEnd }
    {
        if input.is_empty() {
            return end_of(self.print_end());
        }
        end_of(self.print_bytes(input))
    }

    /// Prints what the end of the input makes of the frame begun.
    fn print_end(&mut self) -> Result<Option<FramesEnd>, RefusedAllocation>
        ensures ok { (limit : ℕ) (text done : List ℕ) → IsPrinting limit text (done ++ self.old.lines.items) self.old →
            IfOk result (λ end. IfSome end (λ e. Prints limit text (Unit {0}) e (done ++ self.new.lines.items))) }
        ensures ends { IfOk result (λ end. IsSomeAnd end IsOwnEnd) }
        ensures err { OnErr result (self.new.lines.items ≡ self.old.lines.items) }
    {
        let count = self.cutter.begun();
        if count == 0 {
            return Ok(Some(FramesEnd::Good));
        }
        write_rest(&mut self.lines, count)?;
        Ok(Some(FramesEnd::Rest))
    }

    /// Prints what the next bytes of the input make, up to a fault.
    fn print_bytes(&mut self, input: &[u8]) -> Result<Option<FramesEnd>, RefusedAllocation>
        ensures ok { (limit : ℕ) (text done : List ℕ) → IsPrinting limit text (done ++ self.old.lines.items) self.old →
            IfOk result (λ end. MatchOption end
            (IsPrinting limit (text ++ input.now) (done ++ self.new.lines.items) self.new)
            (λ e. (e ≡ FramesEnd.Fault) × PrintsFault limit (text ++ input.now) (done ++ self.new.lines.items))) }
        ensures fault { IfOk result (λ end. IfSome end (λ e. e ≡ FramesEnd.Fault)) }
        ensures err { (limit : ℕ) (text done : List ℕ) → IsPrinting limit text (done ++ self.old.lines.items) self.old →
            OnErr result (PrintsFront limit (text ++ input.now) (done ++ self.new.lines.items)) }
    {
        let mut rest = input;
        while !rest.is_empty() {
            let (taken, fault) = self.print_item(rest)?;
            if let Some(fault) = fault {
                write_fault(&mut self.lines, fault, self.offset)?;
                return Ok(Some(FramesEnd::Fault));
            }
            rest = &rest[taken..];
        }
        Ok(None)
    }

    /// Prints what the first bytes of the input make. Answers how many they are, or the fault that
    /// was found.
    fn print_item(&mut self, input: &[u8]) -> Result<(usize, Option<Fault>), RefusedAllocation>
        ensures within { IfOk result (λ r. r.0 ≤ length input.now) }
        ensures goes_on { IfOk result (λ r. IfNone r.1 (0 < length input.now → 0 < r.0)) }
        ensures printing { (limit : ℕ) (text done : List ℕ) → HasPrinted limit text (done ++ self.old.lines.items) self.old →
            IfOk result (λ r. HasPrinted limit (text ++ take r.0 input.now) (done ++ self.new.lines.items) self.new) }
        ensures fault { (fault : FaultValue) → IfOk result (λ r. r.1 ≡ Some fault → self.new.cutter.seen ≡ Broken fault) }
        ensures no_fault { IfOk result (λ r. IfNone r.1 (NoFault self.new.cutter.seen)) }
        ensures err { OnErr result (self.new.lines.items ≡ self.old.lines.items) }
    {
        let (taken, item) = self.cutter.next(input);
        match item {
            None => {}
            Some(Item::Fault(fault)) => return Ok((taken, Some(fault))),
            Some(Item::Head(header)) => {
                self.header = header;
                self.preview = Preview::new();
                if header.payload_len() == 0 {
                    self.print_frame()?;
                }
            }
            Some(Item::Piece { last, .. }) => {
                self.preview.add(&input[..taken]);
                if last {
                    self.print_frame()?;
                }
            }
        }
        Ok((taken, None))
    }

    /// The frame begun is whole: prints its line.
    fn print_frame(&mut self) -> Result<(), RefusedAllocation>
        ensures printed { OnOk result (self.new.lines.items ≡ self.old.lines.items ++ line_text self.old.header self.old.preview) }
        ensures placed { OnOk result (self.new.offset ≡ min (self.old.offset + (12 + payload_length self.old.header)) (2 ^ 64 - 1)) }
        ensures fresh { OnOk result (self.new.preview ≡ preview []) }
        ensures kept { (self.new.cutter ≡ self.old.cutter) × (self.new.header ≡ self.old.header) }
        ensures err { OnErr result (self.new.lines.items ≡ self.old.lines.items) }
    {
        write_line(&mut self.lines, &self.header, &self.preview)?;
        let length = HEADER_LENGTH as u64 + u64::from(self.header.payload_len());
        self.offset = self.offset.saturating_add(length);
        self.preview = Preview::new();
        Ok(())
    }
}

/// How the printing ends, if it does. An allocation that was refused ends it.
fn end_of(printed: Result<Option<FramesEnd>, RefusedAllocation>) -> Option<FramesEnd>
    ensures { result ≡ result_unwrap_or printed (Some (FramesEnd.Memory evidence)) }
{
    match printed {
        Ok(end) => end,
        Err(refused) => Some(FramesEnd::Memory(refused)),
    }
}
