//! Why the system refused, as the log says it.

use std::io::ErrorKind;
use std::{fmt, io};

/// Why the system refused. It prints as the log says it.
#[derive(Clone, Copy, PartialEq, Eq)]
pub enum Reason {
    InUse,
    NotPermitted,
    NotHere,
    Refused,
    Unreachable,
    TimedOut,
    Reset,
    /// The system has this number for it, or 0 where it gives none.
    Other(i32),
    /// No port of this machine is left to connect from.
    NoPort,
    NoDescriptor,
    NoMemory,
    NoThread,
}

impl Reason {
    /// The reason of this error.
    pub fn of(error: &io::Error) -> Reason {
        match error.kind() {
            ErrorKind::AddrInUse => Reason::InUse,
            ErrorKind::PermissionDenied => Reason::NotPermitted,
            ErrorKind::AddrNotAvailable => Reason::NotHere,
            ErrorKind::ConnectionRefused => Reason::Refused,
            ErrorKind::HostUnreachable | ErrorKind::NetworkUnreachable | ErrorKind::NetworkDown =>
                Reason::Unreachable,
            ErrorKind::TimedOut => Reason::TimedOut,
            ErrorKind::ConnectionReset | ErrorKind::ConnectionAborted | ErrorKind::BrokenPipe =>
                Reason::Reset,
            ErrorKind::OutOfMemory => Reason::NoMemory,
            _ => match error.raw_os_error().unwrap_or(0) {
                // None is left in the system, or in this process.
                23 | 24 => Reason::NoDescriptor,
                // There is no room for one more socket.
                105 => Reason::NoMemory,
                number => Reason::Other(number),
            },
        }
    }

    /// The reason of this error of a connect: an address that can't be had is a port there.
    pub fn of_connect(error: &io::Error) -> Reason {
        match Reason::of(error) {
            Reason::NotHere => Reason::NoPort,
            reason => reason,
        }
    }
}

impl fmt::Display for Reason {
    fn fmt<W: fmt::Write>(&self, f: &mut fmt::Formatter<W>) -> fmt::Result {
        match self {
            Reason::InUse => write!(f, "address in use"),
            Reason::NotPermitted => write!(f, "permission denied"),
            Reason::NotHere => write!(f, "no address of this machine"),
            Reason::Refused => write!(f, "refused"),
            Reason::Unreachable => write!(f, "unreachable"),
            Reason::TimedOut => write!(f, "timed out"),
            Reason::Reset => write!(f, "reset"),
            Reason::NoPort => write!(f, "no port left"),
            Reason::NoDescriptor => write!(f, "no descriptor left"),
            Reason::NoMemory => write!(f, "no memory"),
            Reason::NoThread => write!(f, "no thread"),
            Reason::Other(number) => write!(f, "error {number}"),
        }
    }
}
