//! The frames that a stream sends.

ghost use Rattle.std.specs.Prelude.{◌≡◌, ◌≤◌, ◌++◌, length, drop};
ghost use Rattle.ymx_header.specs.Headers.{spelling};

use ymx_header::{HEADER_LENGTH, Header, TYPE_DATA, TYPE_WINDOW_UPDATE, VERSION, encode};

/// The header of a Window Update: `delta` bytes more may be written.
pub(crate) fn window_update(flags: u16, id: u32, delta: u32) -> Header
    ensures { result ≡ record { version = 0; kind = 1; flags = flags; id = id; length = delta } }
{
    Header {
        version: VERSION,
        kind: TYPE_WINDOW_UPDATE,
        flags,
        id,
        length: delta,
    }
}

/// The header of Data: `length` bytes of payload follow.
pub(crate) fn data(flags: u16, id: u32, length: u32) -> Header
    ensures { result ≡ record { version = 0; kind = 0; flags = flags; id = id; length = length } }
{
    Header {
        version: VERSION,
        kind: TYPE_DATA,
        flags,
        id,
        length,
    }
}

/// Writes a header into the first twelve bytes.
pub(crate) fn put_header(header: &Header, buffer: &mut [u8])
    requires { 12 ≤ length buffer.old }
    ensures { buffer.new ≡ spelling header.now ++ drop 12 buffer.old }
{
    buffer[..HEADER_LENGTH].copy_from_slice(&encode(header));
}
