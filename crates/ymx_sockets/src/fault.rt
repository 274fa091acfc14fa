//! Why something can't begin.

use std::alloc::{AllocError, AllocFailed};
use std::io;
use ymx_policy::{Outcome, Reason};

/// Why something can't begin.
#[derive(Clone, Copy)]
pub enum StartFault {
    /// The system refused, for this reason.
    Refused(Reason),
    /// There is no memory.
    OutOfMemory,
}

impl StartFault {
    /// What comes of a command that can't begin.
    pub fn outcome(self) -> Outcome {
        match self {
            StartFault::Refused(reason) => Outcome::Failed(Some(reason)),
            StartFault::OutOfMemory => Outcome::LackedMemory,
        }
    }
}

impl From<io::Error> for StartFault {
    fn from(error: io::Error) -> StartFault {
        StartFault::Refused(Reason::of(&error))
    }
}

impl From<AllocError> for StartFault {
    fn from(_refused: AllocError) -> StartFault {
        StartFault::OutOfMemory
    }
}

impl<T: Drop> From<AllocFailed<T>> for StartFault {
    fn from(_refused: AllocFailed<T>) -> StartFault {
        StartFault::OutOfMemory
    }
}
