//! The five fields of a header and their twelve bytes.

ghost use Rattle.std.specs.Prelude.{◌≡◌, ◌↔◌, ◌<◌, ◌≢◌, ℕ, List, length, slice_index, Err, Ok, IsOk, ◌≤◌, ◌++◌, drop};
ghost use Rattle.ymx_header.specs.Headers.{spelling, header_of, IsInRange};
ghost use Rattle.ymx_header.specs.Faults.{check_of};
ghost use Rattle.ymx_header.specs.declared.header.Header.{Header};

use crate::fault::Fault;
use crate::wire::{
    FLAG_ACK, FLAG_FIN, FLAG_RST, FLAG_SYN, HEADER_LENGTH, TYPE_DATA, TYPE_GO_AWAY, TYPE_PING,
    TYPE_WINDOW_UPDATE, VERSION,
};
use byteorder::{BigEndian, ByteOrder};

/// The header of a frame, as it stands in the first twelve bytes (framing).
#[derive(Clone, Copy, Debug, PartialEq, Eq)]
pub struct Header {
    /// The version of the protocol. Only 0 is good.
    pub version: u8,
    /// The type: 0 Data, 1 Window Update, 2 Ping, 3 Go Away.
    pub kind: u8,
    /// The flags, of which the four lowest bits have a meaning.
    pub flags: u16,
    /// The stream; 0 is the session.
    pub id: u32,
    /// Payload bytes that follow, a delta in bytes, an opaque value or a code, as the type says.
    pub length: u32,
}

impl Header {
    ghost use Rattle.ymx_header.specs.Headers.{has_syn, has_ack, has_fin, has_rst};
    ghost use Rattle.ymx_header.specs.Frames.{payload_length};

    /// Whether the frame opens its stream, or asks for an answer (flags).
    pub fn has_syn(&self) -> bool
        ensures { result ≡ has_syn self.now }
    {
        self.flags & FLAG_SYN != 0
    }

    /// Whether the frame accepts its stream, or is an answer (flags).
    pub fn has_ack(&self) -> bool
        ensures { result ≡ has_ack self.now }
    {
        self.flags & FLAG_ACK != 0
    }

    /// Whether the sender writes no more on this stream (flags).
    pub fn has_fin(&self) -> bool
        ensures { result ≡ has_fin self.now }
    {
        self.flags & FLAG_FIN != 0
    }

    /// Whether the stream is reset or refused (flags).
    pub fn has_rst(&self) -> bool
        ensures { result ≡ has_rst self.now }
    {
        self.flags & FLAG_RST != 0
    }

    /// How many bytes of payload follow the header: as many as its length says if its type is Data,
    /// and else none (framing).
    pub fn payload_len(&self) -> u32
        ensures { result ≡ payload_length self.now }
    {
        if self.kind == TYPE_DATA {
            self.length
        } else {
            0
        }
    }
}

/// The type of a frame (framing).
#[derive(Clone, Copy, Debug, PartialEq, Eq)]
pub enum Kind {
    /// Type 0: payload of a stream.
    Data,
    /// Type 1: credit of a stream.
    Window,
    /// Type 2: a question or an answer about the connection.
    Ping,
    /// Type 3: the end of the session is near, or a fault was found.
    Away,
}

/// The twelve bytes of a header, in network order (framing).
pub fn encode(header: &Header) -> [u8; 12]
    ensures spelled { result ≡ spelling header.now }
    ensures reads_back { IsInRange header.now → header_of result ≡ header.now }
{
    let mut bytes = [0; 12];
    bytes[0] = header.version;
    bytes[1] = header.kind;
    BigEndian::write_u16(&mut bytes[2..4], header.flags);
    BigEndian::write_u32(&mut bytes[4..8], header.id);
    BigEndian::write_u32(&mut bytes[8..12], header.length);
    bytes
}

/// Writes the twelve bytes of a header at the front of a buffer, whose other bytes stay (framing).
pub fn write_header(header: &Header, buffer: &mut [u8])
    requires { 12 ≤ length buffer.old }
    ensures { buffer.new ≡ spelling header.now ++ drop 12 buffer.old }
{
    buffer[..HEADER_LENGTH].copy_from_slice(&encode(header));
}

/// The header that twelve bytes spell (framing). Every twelve bytes spell one, and only one.
pub fn decode(bytes: &[u8; 12]) -> Header
    ensures fields { result ≡ header_of bytes.now }
    ensures in_range { IsInRange result }
    ensures spells_back { spelling result ≡ bytes.now }
    ensures only { (h : Header) → IsInRange h → spelling h ≡ bytes.now → h ≡ result }
{
    Header {
        version: bytes[0],
        kind: bytes[1],
        flags: BigEndian::read_u16(&bytes[2..4]),
        id: BigEndian::read_u32(&bytes[4..8]),
        length: BigEndian::read_u32(&bytes[8..12]),
    }
}

/// The type of a frame. `BadVersion` (B1) exactly if the version is not 0; else `UnknownType` (B2)
/// exactly if the type is above 3 (framing).
pub fn check(header: &Header) -> Result<Kind, Fault>
    ensures checked { result ≡ check_of header.now }
    ensures bad_version { (result ≡ Err Fault.BadVersion) ↔ (header.now.version ≢ 0) }
    ensures unknown_type { (result ≡ Err Fault.UnknownType) ↔ ((header.now.version ≡ 0) × (3 < header.now.kind)) }
    ensures good { IsOk result ↔ ((header.now.version ≡ 0) × (header.now.kind ≤ 3)) }
{
    if header.version != VERSION {
        return Err(Fault::BadVersion);
    }
    match header.kind {
        TYPE_DATA => Ok(Kind::Data),
        TYPE_WINDOW_UPDATE => Ok(Kind::Window),
        TYPE_PING => Ok(Kind::Ping),
        TYPE_GO_AWAY => Ok(Kind::Away),
        _ => Err(Fault::UnknownType),
    }
}

/// Every header is spelled by twelve bytes that no other header is spelled by, and every twelve
/// bytes spell a header. (A law over definitions: the function itself does nothing.)
pub fn one_header()
    ensures to_bytes { (h : Header) → IsInRange h → (length (spelling h) ≡ 12) × (header_of (spelling h) ≡ h) }
    ensures from_bytes { (bytes : List ℕ) → length bytes ≡ 12 → ((k : ℕ) → slice_index bytes k < 256) → spelling (header_of bytes) ≡ bytes }
{}
