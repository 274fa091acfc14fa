//! A half that is over.

/// A half of a stream that was reset. It holds nothing, and nothing can be done with it (flags).
#[derive(Clone, Copy)]
pub struct DeadHalf;
