//! What a pump works with, and who may end it from outside.

ghost use Rattle.std.specs.Prelude.{◌≡◌, ◌||◌, Bool, not};

/// What is lent to a pump while it runs: the device that bytes come from or go to, who may end the pump, and the buffer that bytes are
/// moved through, no more at once than it holds.
#[derive(Drop)]
pub struct PumpIo<'a, D, G>(pub &'a mut D, pub &'a mut G, pub &'a mut [u8]);

/// Who is asked before a pump reads or waits, and told what it moved. An answer of `false` ends the pump with
/// `Gate`. No lock is held while it is asked.
///
/// A contract sees whether it has ever answered `false`. A gate that can't tell says `true` at all times.
pub trait Gate {
    /// Whether it has answered `false`.
    ghost has_refused: { Self → Bool };

    /// Whether the read pump may read.
    fn before_read(&mut self) -> bool
        ensures { has_refused self.new ≡ (has_refused self.old || not result) }
    {
        true
    }

    /// The read pump has read so many bytes, which are not yet fed.
    fn after_read(&mut self, _count: usize)
        ensures { has_refused self.new ≡ has_refused self.old }
    {}

    /// The write pump has written so many bytes: all that one emission gave.
    fn after_write(&mut self, _count: usize)
        ensures { has_refused self.new ≡ has_refused self.old }
    {}

    /// Whether the pump may wait: the write pump as nothing is due, the read pump as 1,024 answers are unsent.
    fn before_wait(&mut self) -> bool
        ensures { has_refused self.new ≡ (has_refused self.old || not result) }
    {
        true
    }
}
