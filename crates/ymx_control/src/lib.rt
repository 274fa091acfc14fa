//! What a session remembers besides its streams: the streams offered to it, its own pings, who has
//! said Go Away, and the answers that it owes the peer. Each takes all its memory when it is made.
#![tactic(auto)]

mod away;
mod pings;
mod queues;

pub use away::Away;
pub use pings::Pings;
pub use queues::{Answers, Backlog};
