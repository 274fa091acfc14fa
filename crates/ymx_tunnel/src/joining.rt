//! A connection joined to a stream: both ways at once, each in a thread of its own.

use crate::connections::{Connection, Connections};
use crate::direction::{Handover, from_peer, to_peer};
use std::net::TcpStream;
use std::thread;
use std::thread::Threads;
use yamux::{Reader, Runtime, Stream, Writer};
use ymx_seats::Recorder;

/// How a connection ended.
#[derive(Drop)]
pub(crate) enum Joining {
    /// Both copies were made, and have ended.
    Ended,
    /// Memory or a thread was wanting.
    Lacked,
}

/// Copies both ways until both copies have ended; meanwhile the connection is one of those that are open. At a fault of
/// one direction the connection is shut both ways. Where no memory or no thread is found the stream is reset, and the
/// connection is shut.
pub(crate) fn join_both<W: Runtime + Threads + Send + Sync, R: Recorder + Send + Sync>(
    rt: &W,
    connections: &Connections,
    socket: TcpStream,
    stream: Stream<W, R>,
) -> Joining {
    let Ok(connection) = connections.add(rt, rt.alloc(), socket) else {
        return Joining::Lacked;
    };
    let (reader, writer) = stream.split();
    let (reader, writer) = (Handover::new(reader), Handover::new(writer));
    let joined = copy_both(rt, &connection, &writer, &reader);
    drop(writer);
    drop(reader);
    connections.remove(rt, &connection);
    joined
}

/// Makes both copies, the one out of the stream in another thread. Each ends the half that is handed over to it. Without
/// a thread it shuts the connection, and makes none.
fn copy_both<'x, W: Runtime + Threads + Send + Sync, R: Recorder + Send + Sync>(
    rt: &'x W,
    connection: &'x Connection,
    writer: &'x Handover<Writer<W, R>>,
    reader: &'x Handover<Reader<W, R>>,
) -> Joining {
    thread::scope(thread::scope_env(), rt, move |scope| {
        let Ok(other) = scope.spawn(move || from_peer(rt, connection, reader)) else {
            connection.break_off();
            return Joining::Lacked;
        };
        let to_peer_lacked = to_peer(rt, connection, writer);
        let from_peer_lacked = other.join(rt);
        if to_peer_lacked.is_some() || from_peer_lacked.is_some() {
            return Joining::Lacked;
        }
        Joining::Ended
    })
}
