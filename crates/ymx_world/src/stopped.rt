//! A run that stopped.

use std::fmt;
use ymx_memory::RefusedAllocation;
use ymx_model::Answer;

/// There was no memory of the world's own for a step of a run.
#[derive(Drop)]
pub struct Stopped {
    /// The answers of the steps before it. It did nothing, and no later one was made.
    pub answers: Vec<Answer>,
    /// What there was no memory for: an allocation that was refused.
    pub refused: RefusedAllocation,
}

/// It prints its name alone.
impl fmt::Debug for Stopped {
    fn fmt<W: fmt::Write>(&self, f: &mut fmt::Formatter<W>) -> fmt::Result {
        f.write_str("Stopped")
    }
}
