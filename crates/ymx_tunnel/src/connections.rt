//! The connections that are open, so that none outlives the session.
//!
//! A copy that waits for its connection doesn't see that the session is over. So the thread that sees it shuts the connections.

ghost use Rattle.std.specs.Prelude.{None};

use std::alloc::Global;
use std::net::{Shutdown, TcpStream};
use std::sync::atomic::{AtomicBool, Ordering};
use std::sync::{Arc, Mutex, Wait};
use ymx_memory::RefusedAllocation;
use ymx_model::{DeviceFault, Inlet, Outlet, ReaderInlet, WriterOutlet};

/// The connections of a server that are open.
#[derive(Drop)]
pub struct Connections {
    open: Mutex<OpenConnections>,
}

/// What stands under the lock.
#[derive(Drop)]
struct OpenConnections {
    connections: Vec<Arc<Connection, Global>>,
    /// How many were added so far; it stays at the greatest `u64`.
    added: u64,
    /// The session is over.
    is_over: bool,
}

/// A connection that is open.
#[derive(Drop)]
pub(crate) struct Connection {
    pub(crate) socket: TcpStream,
    number: u64,
    /// It has said that no more bytes come from it.
    has_ended: AtomicBool,
    /// Its writing side was shut, as no more bytes go to it.
    was_ended: AtomicBool,
    /// It failed, or was shut at a fault: what it reads then is no end.
    has_broken: AtomicBool,
}

impl Connection {
    /// A connection that was just made.
    fn new(socket: TcpStream, number: u64) -> Connection {
        Connection {
            socket,
            number,
            has_ended: AtomicBool::new(false),
            was_ended: AtomicBool::new(false),
            has_broken: AtomicBool::new(false),
        }
    }

    /// Shuts the connection both ways, so that both directions end.
    pub(crate) fn shut_down(&self) {
        self.was_ended.store(true, Ordering::SeqCst);
        let _ = self.socket.shutdown(Shutdown::Both);
    }

    /// The same, where what is read then is no end.
    pub(crate) fn break_off(&self) {
        self.has_broken.store(true, Ordering::SeqCst);
        self.shut_down();
    }

    /// Whether it failed. The system tells of a failure once: where it told a write, a read finds an end. But a
    /// connection that failed has no peer any more, and one that didn't has none only if it was ended here too.
    fn is_broken(&self) -> bool {
        self.has_broken.load(Ordering::SeqCst)
            || (!self.was_ended.load(Ordering::SeqCst) && self.socket.peer_addr().is_err())
    }

    /// Shuts the connection both ways, unless it has ended: then what came for it may still go out.
    fn shut(&self) {
        if !self.has_ended.load(Ordering::SeqCst) {
            self.shut_down();
        }
    }
}

impl Connections {
    /// None is open.
    pub fn new(alloc: Global) -> Connections {
        Connections {
            open: Mutex::new(OpenConnections {
                connections: Vec::new(alloc),
                added: 0,
                is_over: false,
            }),
        }
    }

    /// The session is over, and takes no more bytes: shuts each connection both ways from which more could come, and
    /// from now on each that is added. A connection that has ended its side gets what came for it.
    pub fn shut<W: Wait>(&self, rt: &W) {
        let mut open = self.open.lock(rt);
        open.is_over = true;
        for connection in open.connections.iter() {
            connection.shut();
        }
    }

    /// Adds a connection. `RefusedAllocation`, and it is closed, where there is no memory for it.
    pub(crate) fn add<W: Wait>(
        &self,
        rt: &W,
        alloc: Global,
        socket: TcpStream,
    ) -> Result<Arc<Connection, Global>, RefusedAllocation> {
        let mut open = self.open.lock(rt);
        let number = open.added;
        let connection = ymx_memory::shared(alloc, Connection::new(socket, number))?;
        let other = ymx_memory::share(&connection)?;
        ymx_memory::push(&mut open.connections, other)?;
        open.added = number.saturating_add(1);
        if open.is_over {
            connection.shut();
        }
        Ok(connection)
    }

    /// Removes a connection, which closes once its last owner drops it.
    pub(crate) fn remove<W: Wait>(&self, rt: &W, connection: &Connection) {
        let mut open = self.open.lock(rt);
        let place = open
            .connections
            .iter()
            .position(|other| other.number == connection.number);
        if let Some(place) = place {
            let removed = open.connections.swap_remove(place);
            drop(open);
            drop(removed);
        }
    }
}

/// What comes from an open connection. It notes the end, and takes none from a connection that has failed.
#[derive(Drop)]
pub(crate) struct TrackedReader<'a> {
    connection: &'a Connection,
    inlet: ReaderInlet<&'a TcpStream>,
    failures: u64,
}

/// What goes to an open connection. It notes the end, and a failure.
#[derive(Drop)]
pub(crate) struct TrackedWriter<'a> {
    connection: &'a Connection,
    outlet: WriterOutlet<&'a TcpStream>,
    was_shut: bool,
}

impl<'a> TrackedReader<'a> {
    /// What comes from this connection.
    pub(crate) fn new(connection: &'a Connection) -> TrackedReader<'a> {
        TrackedReader {
            connection,
            inlet: ReaderInlet {
                reader: &connection.socket,
                failures: 0,
            },
            failures: 0,
        }
    }
}

impl<'a> TrackedWriter<'a> {
    /// What goes to this connection.
    pub(crate) fn new(connection: &'a Connection) -> TrackedWriter<'a> {
        TrackedWriter {
            connection,
            outlet: WriterOutlet {
                writer: &connection.socket,
                failures: 0,
            },
            was_shut: false,
        }
    }
}

impl Inlet for TrackedReader<'_> {
    ghost remaining = { λ _. None };

    ghost failures = { λ s. s.failures };

    fn pull(&mut self, buffer: &mut [u8]) -> Result<usize, DeviceFault> {
        if self.failures == u64::MAX {
            return Err(DeviceFault);
        }
        match self.inlet.pull(buffer) {
            Ok(0) if !self.connection.is_broken() => {
                self.connection.has_ended.store(true, Ordering::SeqCst);
                Ok(0)
            }
            Ok(count) if count > 0 => Ok(count),
            _ => {
                self.failures += 1;
                Err(DeviceFault)
            }
        }
    }
}

impl Outlet for TrackedWriter<'_> {
    ghost contents = { λ _. None };

    ghost failures = { λ s. s.outlet.failures };

    ghost is_ended = { λ s. s.was_shut };

    fn push(&mut self, bytes: &[u8]) -> Result<usize, DeviceFault> {
        let pushed = self.outlet.push(bytes);
        if pushed.is_err() {
            self.connection.has_broken.store(true, Ordering::SeqCst);
        }
        pushed
    }

    fn end(&mut self) -> Result<(), DeviceFault> {
        self.connection.was_ended.store(true, Ordering::SeqCst);
        if self.outlet.failures == u64::MAX {
            return Err(DeviceFault);
        }
        match self.connection.socket.shutdown(Shutdown::Write) {
            Ok(()) => {
                self.was_shut = true;
                Ok(())
            }
            Err(_) => {
                self.connection.has_broken.store(true, Ordering::SeqCst);
                Err(self.outlet.fail())
            }
        }
    }
}
