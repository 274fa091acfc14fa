//! Yamux frames from a stream of bytes that comes in any pieces: heads, pieces of payload and
//! faults. Nothing here takes memory, and payload is never copied.
#![tactic(auto)]

mod cutter;
mod header_bytes;
mod item;
mod laws;

pub use cutter::Cutter;
pub use item::Item;
pub use laws::{any_pieces, byte_by_byte, one_way, what_is_read};
