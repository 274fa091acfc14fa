//! The line of PROXY protocol, version 1.

use arrayvec::ArrayVec;
use std::io::Write;
use std::net::SocketAddr;

/// What a connection gives before its own bytes. The longest line of PROXY protocol, version 1, has 56.
pub type ProxyHeader = ArrayVec<u8, 56>;

/// The PROXY protocol v1 header of a user at one address who has connected to the other.
pub(crate) fn proxy_header(user: Option<SocketAddr>, here: Option<SocketAddr>) -> ProxyHeader {
    let mut line = ProxyHeader::new();
    let _ = match (user, here) {
        (Some(SocketAddr::V4(user)), Some(SocketAddr::V4(here))) => {
            let (from, to, source, port) = (user.ip(), here.ip(), user.port(), here.port());
            write!(line, "PROXY TCP4 {from} {to} {source} {port}\r\n")
        }
        _ => write!(line, "PROXY UNKNOWN\r\n"),
    };
    line
}
