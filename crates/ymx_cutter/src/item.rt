//! What a cutter hands out.

use ymx_header::{Fault, Header};

/// A part of a frame, or why there are no more frames (framing).
#[derive(Clone, Copy, Debug, PartialEq, Eq)]
pub enum Item {
    /// A header is whole. Payload follows only if its type is Data and its length isn't 0: a frame
    /// without payload is its head alone.
    Head(Header),
    /// Bytes of the payload of the header handed out last.
    Piece {
        /// How many bytes, at least 1: they are the bytes that the call took.
        len: usize,
        /// Whether they end the payload.
        last: bool,
    },
    /// The header is bad: `BadVersion`, `UnknownType`, or `WindowExceeded` for Data longer than the
    /// limit.
    Fault(Fault),
}
