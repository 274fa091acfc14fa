//! Why a delivery wasn't made.

use std::error::Error;
use std::fmt;
use ymx_memory::RefusedAllocation;

/// Why nothing was delivered. It prints its name alone.
#[derive(Clone, Copy, Debug, PartialEq, Eq)]
pub enum DeliveryFault {
    /// The text is longer than 262,144 bytes, the window that every stream starts with. Nothing was done.
    TooLong,
    /// There was no memory for one of the steps, at one side or in the world. It holds the evidence: an allocation
    /// was refused.
    Memory(RefusedAllocation),
}

impl fmt::Display for DeliveryFault {
    fn fmt<W: fmt::Write>(&self, f: &mut fmt::Formatter<W>) -> fmt::Result {
        f.write_str(match self {
            DeliveryFault::TooLong => "TooLong",
            DeliveryFault::Memory(_) => "Memory",
        })
    }
}

impl Error for DeliveryFault {}
