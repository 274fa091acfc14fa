//! The header of a yamux frame: twelve bytes and the five fields that they spell, the constants of
//! the wire, the limits of a session, and the faults that break one. Nothing here takes memory.
#![tactic(auto)]

mod fault;
mod header;
mod wire;

pub use fault::Fault;
pub use header::{Header, Kind, check, decode, encode, one_header, write_header};
pub use wire::{
    DATA_LIMIT, FIRST_CREDIT, FIRST_EXHAUSTED, FLAG_ACK, FLAG_FIN, FLAG_RST, FLAG_SYN,
    FRAME_LENGTH, GO_AWAY_INTERNAL_ERROR, GO_AWAY_NORMAL, GO_AWAY_PROTOCOL_ERROR, HEADER_LENGTH,
    MOST_RECORDS, MOST_UNACKNOWLEDGED, TYPE_DATA, TYPE_GO_AWAY, TYPE_PING, TYPE_WINDOW_UPDATE,
    VERSION, WIDEST_WINDOW,
};
