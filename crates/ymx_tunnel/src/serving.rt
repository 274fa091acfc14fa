//! The two servers of a tunnel: one opens a stream for each connection, and one makes a connection for each stream.

use crate::connections::Connections;
use crate::joining::{Joining, join_both};
use std::net::{Net, SocketAddr, TcpListener, TcpStream};
use std::sync::atomic::{AtomicBool, Ordering};
use std::thread;
use std::thread::Threads;
use yamux::{Error, Runtime, Session, Shut, Stream};
use ymx_seats::Recorder;

/// How many streams `serve_remote` serves at once by default.
pub const USUAL_WORKERS: u32 = 16;

/// How a server ended.
#[derive(Clone, Copy, PartialEq, Eq)]
pub struct Served {
    /// No connection could be accepted any more.
    pub accept_failed: bool,
    /// Somewhere no memory was found, or no thread.
    pub lacked_memory: bool,
}

/// What the workers of a server share.
#[derive(Drop)]
struct ServerState<'a, W: Runtime, S: Shut, R: Recorder> {
    session: &'a Session<W, S, R>,
    connections: &'a Connections,
    lacked_memory: AtomicBool,
}

/// Accepts connections, and has each served by a worker, a thread of its own that opens a stream and copies both ways.
/// A connection for which no thread can be made is closed, and so is one for which no stream can be opened. It ends
/// after `count` connections, or at an accept that fails; without `count` also at the first connection that is accepted
/// after the session was lost. The thread that sees that the session is over shuts the connections. It returns once all workers
/// have ended.
pub fn serve_local<
    W: Runtime + Threads + Send + Sync,
    S: Shut + Send + Sync,
    R: Recorder + Send + Sync,
>(
    rt: &W,
    session: &Session<W, S, R>,
    listener: &TcpListener,
    count: Option<u32>,
    connections: &Connections,
) -> Served {
    let state = ServerState::new(session, connections);
    let server = &state;
    let accept_failed = thread::scope(thread::scope_env(), rt, |scope| {
        for _ in 0..count.map_or(u64::MAX, u64::from) {
            let Ok((socket, _)) = listener.accept() else {
                return true;
            };
            if count.is_none() && !session.is_running() {
                return false;
            }
            if scope
                .spawn(move || serve_connection(rt, server, socket))
                .is_err()
            {
                server.lack_memory();
            }
        }
        false
    });
    state.served(accept_failed)
}

/// Accepts streams in so many workers, 16 by default, and at least one. Each connects to the target and copies
/// both ways, for one stream after the other. A stream for which no connection can be made is reset. The thread that sees that the session is over
/// shuts the connections. It returns once the session gives out no more streams and all workers have ended.
pub fn serve_remote<
    W: Runtime + Net<Stream = TcpStream, Listener = TcpListener> + Threads + Send + Sync,
    S: Shut + Send + Sync,
    R: Recorder + Send + Sync,
>(
    rt: &W,
    session: &Session<W, S, R>,
    target: SocketAddr,
    workers: Option<u32>,
    connections: &Connections,
) -> Served {
    let workers = workers.unwrap_or(USUAL_WORKERS);
    let state = ServerState::new(session, connections);
    let server = &state;
    thread::scope(thread::scope_env(), rt, |scope| {
        for _ in 1..workers {
            if scope
                .spawn(move || serve_streams(rt, server, target))
                .is_err()
            {
                server.lack_memory();
            }
        }
        serve_streams(rt, server, target);
    });
    state.served(false)
}

/// Opens a stream for a connection, and copies both ways. The connection is closed where no stream can be opened.
fn serve_connection<
    W: Runtime + Threads + Send + Sync,
    S: Shut + Send + Sync,
    R: Recorder + Send + Sync,
>(rt: &W, server: &ServerState<'_, W, S, R>, socket: TcpStream) {
    let _ = socket.set_nodelay(true);
    match server.session.open() {
        Ok(stream) => server.join(rt, socket, stream),
        Err(Error::Memory(_)) => server.lack_memory(),
        Err(_) => {}
    }
}

/// Accepts streams, one after the other, and serves each, until the session gives out no more. If it can't connect to the target for
/// one, this is dropped, and so reset.
fn serve_streams<
    W: Runtime + Net<Stream = TcpStream, Listener = TcpListener> + Threads + Send + Sync,
    S: Shut + Send + Sync,
    R: Recorder + Send + Sync,
>(rt: &W, server: &ServerState<'_, W, S, R>, target: SocketAddr) {
    for _ in rt.forever() {
        let Some(stream) = next_stream(rt, server) else {
            return;
        };
        let Ok(socket) = TcpStream::connect(rt, target) else {
            continue;
        };
        let _ = socket.set_nodelay(true);
        server.join(rt, socket, stream);
    }
}

/// The next stream, unless the session gives out no more.
fn next_stream<W: Runtime, S: Shut, R: Recorder>(
    rt: &W,
    server: &ServerState<'_, W, S, R>,
) -> Option<Stream<W, R>> {
    for _ in rt.forever() {
        match server.session.accept() {
            Ok(stream) => return stream,
            Err(Error::Memory(_)) => {
                server.lack_memory();
                thread::yield_now();
            }
            Err(_) => return None,
        }
    }
    unreachable!()
}

impl<'a, W: Runtime, S: Shut, R: Recorder> ServerState<'a, W, S, R> {
    /// Nothing has begun yet.
    fn new(
        session: &'a Session<W, S, R>,
        connections: &'a Connections,
    ) -> ServerState<'a, W, S, R> {
        ServerState {
            session,
            connections,
            lacked_memory: AtomicBool::new(false),
        }
    }

    /// Somewhere no memory was found, or no thread.
    fn lack_memory(&self) {
        self.lacked_memory.store(true, Ordering::SeqCst);
    }

    /// Copies both ways between a connection and a stream, and notes a lack of memory.
    fn join(&self, rt: &W, socket: TcpStream, stream: Stream<W, R>)
    where
        W: Threads + Send + Sync,
        R: Send + Sync,
    {
        match join_both(rt, self.connections, socket, stream) {
            Joining::Ended => {}
            Joining::Lacked => self.lack_memory(),
        }
    }

    /// How the server ended.
    fn served(&self, accept_failed: bool) -> Served {
        Served {
            accept_failed,
            lacked_memory: self.lacked_memory.load(Ordering::SeqCst),
        }
    }
}
