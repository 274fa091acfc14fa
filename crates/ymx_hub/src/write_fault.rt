//! Why a write stopped.

use crate::faults::HubFault;
use thiserror::Error;

/// Why a write stopped, and how many of its bytes had been taken. It prints as its fault.
#[derive(Clone, Copy, Debug, PartialEq, Eq, Error)]
#[error("{fault}")]
pub struct WriteFault {
    /// How many of the bytes were taken: the first so many.
    pub taken: usize,
    /// Why it stopped.
    pub fault: HubFault,
}
