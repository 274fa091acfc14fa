//! The connection to a peer.

use crate::stream::Stream;
use crate::system::TcpConnection;
use std::net::{SocketAddr, SocketAddrV4};

/// A connection to a peer, which never waits, and whose bytes go out at once. No poll reports it yet.
#[derive(Drop)]
pub struct Peer {
    socket: TcpConnection,
    /// Where it is, if the system knows.
    pub address: Option<SocketAddrV4>,
}

impl Peer {
    /// A peer over this connection, which never waits.
    pub fn of(socket: TcpConnection) -> Peer {
        let address = match socket.peer() {
            Some(SocketAddr::V4(address)) => Some(address),
            _ => None,
        };
        Peer {
            socket: socket.to_peer(),
            address,
        }
    }

    /// Its connection, in which the system probes the peer after so many seconds of silence; never for 0.
    pub fn into_connection(self, keepalive: u32) -> TcpConnection {
        let Peer { socket, address: _ } = self;
        socket.prepare(keepalive);
        socket
    }
}
