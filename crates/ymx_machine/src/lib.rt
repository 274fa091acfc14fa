//! The queue machine: the plain types of calls and answers, and (in `specs/`) what two sides that are joined by
//! pipes answer, as two bounded queues of bytes for each stream. It knows no session, and no frame.
#![tactic(auto)]

mod bytes;
mod types;

pub use bytes::{Bytes, Lent};
pub use types::{Answer, Call, CallFault, Direction, Fed, Reply, Side, Step, Why, Wrote};
