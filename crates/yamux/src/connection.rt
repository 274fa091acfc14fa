//! What a session's bytes come from and go to, and how that is shut.

ghost use Rattle.std.specs.Prelude.{None};

use std::alloc::Global;
use std::net::{Shutdown, TcpStream};
use std::sync::Arc;
use ymx_memory::RefusedAllocation;
use ymx_model::{DeviceFault, Inlet, Outlet, ReaderInlet, WriterOutlet};

/// Where a session's bytes come from: an inlet that its thread owns.
pub trait OwnedInlet: Inlet + Send + Drop + 'static {}

impl<I: Inlet + Send + Drop + 'static> OwnedInlet for I {}

/// Where a session's bytes go to: an outlet that its thread owns.
pub trait OwnedOutlet: Outlet + Send + Drop + 'static {}

impl<O: Outlet + Send + Drop + 'static> OwnedOutlet for O {}

/// Shuts a connection while two threads use it.
pub trait Shut: Drop {
    /// Ends both directions at once: a `pull` or a `push` that waits returns, and so does each later one. If it does nothing, the drop
    /// of a session waits for the peer.
    fn shut(&self);
}

/// A connection: a session reads from it in one thread and writes to it in another, until a third shuts it.
#[derive(Drop)]
pub struct Connection<I: Drop, O: Drop, S: Shut> {
    /// Where bytes come from.
    pub reader: I,
    /// Where bytes go to. The end of the writer ends the writing side alone.
    pub writer: O,
    /// What shuts both.
    pub shutter: S,
}

/// What comes from a TCP connection.
#[derive(Drop)]
pub struct TcpReader {
    socket: Arc<TcpStream, Global>,
    failures: u64,
}

/// What goes to a TCP connection.
#[derive(Drop)]
pub struct TcpWriter {
    socket: Arc<TcpStream, Global>,
    failures: u64,
}

/// What shuts a TCP connection.
#[derive(Drop)]
pub struct TcpShut {
    socket: Arc<TcpStream, Global>,
}

impl Connection<TcpReader, TcpWriter, TcpShut> {
    /// A TCP connection, on which what is written goes out at once. `RefusedAllocation` where there is no memory for it.
    pub fn tcp(
        alloc: Global,
        socket: TcpStream,
    ) -> Result<Connection<TcpReader, TcpWriter, TcpShut>, RefusedAllocation> {
        let _ = socket.set_nodelay(true);
        let socket = ymx_memory::shared(alloc, socket)?;
        Ok(Connection {
            reader: TcpReader {
                socket: ymx_memory::share(&socket)?,
                failures: 0,
            },
            writer: TcpWriter {
                socket: ymx_memory::share(&socket)?,
                failures: 0,
            },
            shutter: TcpShut { socket },
        })
    }
}

impl Shut for TcpShut {
    fn shut(&self) {
        let _ = self.socket.shutdown(Shutdown::Both);
    }
}

impl Inlet for TcpReader {
    ghost remaining = { λ _. None };

    ghost failures = { λ s. s.failures };

    fn pull(&mut self, buffer: &mut [u8]) -> Result<usize, DeviceFault> {
        let mut inlet = ReaderInlet {
            reader: &*self.socket,
            failures: self.failures,
        };
        let pulled = inlet.pull(buffer);
        self.failures = inlet.failures;
        pulled
    }
}

impl Outlet for TcpWriter {
    ghost use Rattle.std.specs.Prelude.{true};

    ghost contents = { λ _. None };

    ghost failures = { λ s. s.failures };

    ghost is_ended = { λ _. true };

    fn push(&mut self, bytes: &[u8]) -> Result<usize, DeviceFault> {
        let mut outlet = WriterOutlet {
            writer: &*self.socket,
            failures: self.failures,
        };
        let pushed = outlet.push(bytes);
        self.failures = outlet.failures;
        pushed
    }

    /// Shuts the connection's writing side: the other end reads what was written, and then the end.
    fn end(&mut self) -> Result<(), DeviceFault> {
        if self.failures == u64::MAX {
            return Err(DeviceFault);
        }
        if self.socket.shutdown(Shutdown::Write).is_err() {
            self.failures += 1;
            return Err(DeviceFault);
        }
        Ok(())
    }
}
