//! Why a drain ended with something due.

use thiserror::Error;

/// Something is due, and a write pump has given up, so that nothing goes out any more.
#[derive(Clone, Copy, Debug, PartialEq, Eq, Error)]
#[error("Undrained")]
pub struct Undrained;
