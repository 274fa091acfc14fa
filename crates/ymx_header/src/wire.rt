//! The constants of the wire, and the limits of a session.

/// The version of the protocol: 0, the only one (framing).
pub const VERSION: u8 = 0;

/// Bytes of a header (framing).
pub const HEADER_LENGTH: usize = 12;

/// Data: `length` bytes of payload follow the header (framing).
pub const TYPE_DATA: u8 = 0;
/// Window Update: `length` is a number of bytes by which the receiver may write more (flow control).
pub const TYPE_WINDOW_UPDATE: u8 = 1;
/// Ping: `length` is an opaque value, which the answer repeats (ping).
pub const TYPE_PING: u8 = 2;
/// Go Away: `length` is the code that says why (go away).
pub const TYPE_GO_AWAY: u8 = 3;

/// SYN: the frame opens its stream; on a Ping: an answer is asked (flags).
pub const FLAG_SYN: u16 = 1;
/// ACK: the frame accepts its stream; on a Ping: this is the answer (flags).
pub const FLAG_ACK: u16 = 2;
/// FIN: the sender writes no more on this stream, a half-close (flags).
pub const FLAG_FIN: u16 = 4;
/// RST: the stream is over in both directions, or was refused (flags).
pub const FLAG_RST: u16 = 8;

/// Go Away with no error: the sender takes no new streams (go away).
pub const GO_AWAY_NORMAL: u32 = 0;
/// Go Away after a fault of the receiver of this frame (go away).
pub const GO_AWAY_PROTOCOL_ERROR: u32 = 1;
/// Go Away after a fault of the sender's own (go away).
pub const GO_AWAY_INTERNAL_ERROR: u32 = 2;

/// The credit of each direction of a stream from the start, in bytes: the narrowest window (flow control).
pub const FIRST_CREDIT: u32 = 262_144;
/// The widest window that a session grants, in bytes (this project's own).
pub const WIDEST_WINDOW: u32 = 16_777_216;

/// The longest payload of a Data frame that is sent, in bytes (this project's own).
pub const DATA_LIMIT: u32 = 16_384;
/// The length of the longest frame that is sent, in bytes.
pub const FRAME_LENGTH: usize = HEADER_LENGTH + DATA_LIMIT as usize;

/// From this id on no stream is opened: there are two numbers of 32 bits more (stream identifiers).
pub const FIRST_EXHAUSTED: u32 = 4_294_967_294;
/// How many own streams may be neither acknowledged, reset nor forgotten (this project's own, and that of the Go package).
pub const MOST_UNACKNOWLEDGED: usize = 256;
/// How many streams a session has at most (this project's own).
pub const MOST_RECORDS: usize = 1_024;
