//! The lines of a script whose text comes in pieces.

ghost use Rattle.std.specs.Prelude.{◌≡◌, ◌++◌, ◌∷◌, [], true, false, List, ℕ, take, IfOk, IfSome, OnErr};
ghost use Rattle.ymx_script.specs.Outputs.{BlamesNoDevice, Leaves, Tells};
ghost use Rattle.ymx_script.specs.Reading.{IsAtMistake, IsFront, IsReading};
ghost use Rattle.ymx_script.specs.Scripts.{EndsLine, IsTextPart, PrintsWhole, has_feed};

use crate::player::{Player, feed_in};
use crate::words::bytes_from;
use std::alloc::Global;
use ymx_memory::{RefusedAllocation, extend};

/// The longest line, in bytes.
const LONGEST: usize = 65_536;

/// How a script ended.
#[derive(Clone, Copy, Debug, PartialEq, Eq)]
pub enum ScriptEnd {
    /// The input ended, and each of its lines was played.
    Good,
    /// The line of this number, counted from 1, is a mistake. The number stays at the greatest `u64`.
    Line(u64),
    /// The reader failed.
    Reading,
    /// The writer failed.
    Writing,
    /// There was no memory. It holds the evidence: an allocation was refused.
    Memory(RefusedAllocation),
}

/// A place in a script, what has come of its next line, and the number of that line.
#[derive(Drop)]
pub(crate) struct Lines {
    player: Player,
    part: Vec<u8>,
    number: u64,
}

impl Lines {
    /// At the start of a script.
    pub(crate) fn new(alloc: Global) -> Lines
        ensures { IsReading [] [] result }
    {
        Lines {
            player: Player::new(alloc),
            part: Vec::new(alloc),
            number: 1,
        }
    }

    /// More of the line has come. Answers `false` if it is too long.
    fn add(&mut self, piece: &[u8]) -> Result<bool, RefusedAllocation>
        requires one { has_feed piece.now ≡ false }
        requires part { IsTextPart self.old.part.items }
        ensures part { IfOk result (λ good. good ≡ true → IsTextPart self.new.part.items) }
        ensures good { IfOk result (λ good. good ≡ true → (text done : List ℕ) → IsReading text done self.old → IsReading (text ++ piece.now) done self.new) }
        ensures bad { IfOk result (λ good. good ≡ false → (text done more : List ℕ) → IsReading text done self.old → IsAtMistake (text ++ (piece.now ++ more)) done ⊥ self.new) }
        ensures err { OnErr result ((text done more : List ℕ) → IsReading text done self.old → IsFront (text ++ more) done self.new) }
    {
        extend(&mut self.part, piece)?;
        if self.part.len() > LONGEST {
            return Ok(false);
        }
        Ok(true)
    }

    /// The line has ended, and is played. Answers `false` if it is a mistake.
    fn end_line(&mut self) -> Result<bool, RefusedAllocation>
        requires { IsTextPart self.old.part.items }
        ensures part { IfOk result (λ good. good ≡ true → IsTextPart self.new.part.items) }
        ensures good { IfOk result (λ good. good ≡ true → (text done : List ℕ) → IsReading text done self.old → IsReading (text ++ 10 ∷ []) done self.new) }
        ensures bad { IfOk result (λ good. good ≡ false → (text done more : List ℕ) → IsReading text done self.old → IsAtMistake (text ++ 10 ∷ more) done ⊥ self.new) }
        ensures err { OnErr result ((text done more : List ℕ) → IsReading text done self.old → IsFront (text ++ more) done self.new) }
    {
        let good = self.player.play_line(self.part.as_slice())?;
        if !good {
            return Ok(false);
        }
        self.part.clear();
        self.number = self.number.saturating_add(1);
        Ok(true)
    }

    /// The first line of these bytes, which ends at this place, is played. Answers `false` if it is bad.
    fn next_line(&mut self, bytes: &[u8], end: usize) -> Result<bool, RefusedAllocation>
        requires ends { EndsLine bytes.now end }
        requires part { IsTextPart self.old.part.items }
        ensures part { IfOk result (λ good. good ≡ true → IsTextPart self.new.part.items) }
        ensures good { IfOk result (λ good. good ≡ true → (text done : List ℕ) → IsReading text done self.old → IsReading (text ++ (take end bytes.now ++ 10 ∷ [])) done self.new) }
        ensures bad { IfOk result (λ good. good ≡ false → (text done : List ℕ) → IsReading text done self.old → IsAtMistake (text ++ bytes.now) done ⊥ self.new) }
        ensures err { OnErr result ((text done : List ℕ) → IsReading text done self.old → IsFront (text ++ bytes.now) done self.new) }
    {
        let fits = self.add(&bytes[..end])?;
        if !fits {
            return Ok(false);
        }
        self.end_line()
    }

    /// More of the text has come. Answers `false` if a line of it is bad.
    fn read(&mut self, piece: &[u8]) -> Result<bool, RefusedAllocation>
        requires { IsTextPart self.old.part.items }
        ensures good { IfOk result (λ good. good ≡ true → (text done : List ℕ) → IsReading text done self.old → IsReading (text ++ piece.now) done self.new) }
        ensures bad { IfOk result (λ good. good ≡ false → (text done : List ℕ) → IsReading text done self.old → IsAtMistake (text ++ piece.now) done ⊥ self.new) }
        ensures err { OnErr result ((text done : List ℕ) → IsReading text done self.old → IsFront (text ++ piece.now) done self.new) }
    {
        let mut rest = piece;
        while let Some(end) = feed_in(rest) {
            let good = self.next_line(rest, end)?;
            if !good {
                return Ok(false);
            }
            rest = bytes_from(rest, end + 1);
        }
        self.add(rest)
    }

    /// The text has ended: what has come of a line is its last, and is played. Answers `false` if it is a
    /// mistake.
    fn finish(&mut self) -> Result<bool, RefusedAllocation>
        requires { IsTextPart self.old.part.items }
        ensures good { IfOk result (λ good. good ≡ true → (text done : List ℕ) → IsReading text done self.old → PrintsWhole text (done ++ self.new.player.text.items)) }
        ensures bad { IfOk result (λ good. good ≡ false → (text done : List ℕ) → IsReading text done self.old → IsAtMistake text done (Unit {0}) self.new) }
        ensures err { OnErr result ((text done more : List ℕ) → IsReading text done self.old → IsFront (text ++ more) done self.new) }
    {
        if self.part.is_empty() {
            return Ok(true);
        }
        self.player.play_line(self.part.as_slice())
    }

    /// Appends the line of a mistake, which ends the script.
    fn tell_mistake(&mut self) -> ScriptEnd
        ensures told { Tells self.old self.new result }
        ensures own { BlamesNoDevice result }
    {
        match self.player.append_error(self.number) {
            Ok(()) => ScriptEnd::Line(self.number),
            Err(refused) => ScriptEnd::Memory(refused),
        }
    }

    /// Plays a piece of the text, of which no bytes are the end. Answers how the script ended, if it did.
    pub(crate) fn round(&mut self, piece: &[u8]) -> Option<ScriptEnd>
        requires { IsTextPart self.old.part.items }
        ensures leaves { (text done : List ℕ) → IsReading text done self.old → Leaves text piece.now done self.new result }
        ensures own { IfSome result BlamesNoDevice }
    {
        if piece.is_empty() {
            return match self.finish() {
                Ok(true) => Some(ScriptEnd::Good),
                Ok(false) => Some(self.tell_mistake()),
                Err(refused) => Some(ScriptEnd::Memory(refused)),
            };
        }
        match self.read(piece) {
            Ok(true) => None,
            Ok(false) => Some(self.tell_mistake()),
            Err(refused) => Some(ScriptEnd::Memory(refused)),
        }
    }

    /// What was printed and is kept to be written.
    pub(crate) fn text(&self) -> &[u8]
        ensures { result.now ≡ self.now.player.text.items }
    {
        self.player.text()
    }

    /// What is kept was written.
    pub(crate) fn clear(&mut self)
        ensures { (text done : List ℕ) → IsReading text done self.old → IsReading text (done ++ self.old.player.text.items) self.new }
    {
        self.player.clear();
    }
}
