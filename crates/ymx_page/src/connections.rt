//! Which connection it is, how it ended, and why it got no stream.

use std::fmt;
use std::net::SocketAddrV4;
use std::time::Instant;
use ymx_model::CallFault;
use ymx_policy::{Reason, source_text};

/// The labels under which endings are counted, in the order of [`Ending`].
pub(crate) const ENDINGS: &str = "ended connection_failed idle reset lost no_memory refused";

/// The labels under which it is counted why connections got no stream, in the order of [`Cause`].
pub(crate) const CAUSES: &str = "lost peer_away no_memory unwatched other";

/// Why one direction of a connection ended.
#[derive(Clone, Copy, PartialEq, Eq)]
pub enum Ending {
    /// Its sender ended it, and all was passed on.
    Ended,
    /// The connection failed, or could not be made.
    ConnectionFailed,
    /// No byte had moved for as long as it may last.
    Idle,
    Reset,
    Lost,
    OutOfMemory,
    /// The stream refused for another reason.
    Refused,
}

impl fmt::Display for Ending {
    fn fmt<W: fmt::Write>(&self, f: &mut fmt::Formatter<W>) -> fmt::Result {
        f.write_str(match self {
            Ending::Ended => "ended",
            Ending::ConnectionFailed => "connection failed",
            Ending::Idle => "idle",
            Ending::Reset => "reset",
            Ending::Lost => "lost",
            Ending::OutOfMemory => "no memory",
            Ending::Refused => "refused",
        })
    }
}

/// What went one way through a connection that has ended.
#[derive(Clone, Copy)]
pub struct Passed {
    /// How many bytes; it stays at the greatest `u64`.
    pub bytes: u64,
    /// Why it ended.
    pub ending: Ending,
}

/// Which connection it is.
#[derive(Clone, Copy)]
pub struct Origin {
    /// Its number: 1, 2, 3, ..
    pub number: u64,
    /// Who it is from: a user, or the peer that has opened its stream. None where that isn't known.
    pub from: Option<SocketAddrV4>,
    /// The number of the link that carries it: 1, 2, 3, .. None where there is one connection to the peer alone.
    pub link: Option<u32>,
    /// When it began. None where that isn't known.
    pub began: Option<Instant>,
}

impl fmt::Display for Origin {
    fn fmt<W: fmt::Write>(&self, f: &mut fmt::Formatter<W>) -> fmt::Result {
        write!(f, "connection {}{}", self.number, source_text(self.from))?;
        match self.link {
            Some(link) => write!(f, " by link {link}"),
            None => Ok(()),
        }
    }
}

/// How a connection ended.
#[derive(Clone, Copy)]
pub struct EndedConnection {
    /// From the connection into its stream, to the peer.
    pub to_peer: Passed,
    /// From the stream to the connection.
    pub from_peer: Passed,
    /// Why the connection failed, if it did and the system gives a reason.
    pub reason: Option<Reason>,
}

impl EndedConnection {
    /// Nothing was passed on, for this reason.
    pub fn of_nothing(ending: Ending, reason: Option<Reason>) -> EndedConnection {
        let passed = Passed { bytes: 0, ending };
        EndedConnection {
            to_peer: passed,
            from_peer: passed,
            reason,
        }
    }

    /// Whether it ended because memory was out.
    pub fn lacked_memory(&self) -> bool {
        self.to_peer.ending == Ending::OutOfMemory || self.from_peer.ending == Ending::OutOfMemory
    }

    /// Why it ended: as the first of its ways that didn't end well.
    pub(crate) fn ending(&self) -> Ending {
        match self.to_peer.ending {
            Ending::Ended => self.from_peer.ending,
            bad => bad,
        }
    }
}

/// Why a connection got no stream.
#[derive(Clone, Copy)]
pub enum Declined {
    /// The session refused one.
    BySession(CallFault),
    /// There was no memory for the connection.
    OutOfMemory,
    /// The system refused to watch the connection.
    Unwatched,
}

/// The same, as it is counted.
#[derive(Clone, Copy)]
pub(crate) enum Cause {
    Lost,
    PeerAway,
    NoMemory,
    Unwatched,
    Other,
}

impl Declined {
    /// As what it is counted.
    pub(crate) fn cause(self) -> Cause {
        match self {
            Declined::BySession(CallFault::Lost | CallFault::Closed) => Cause::Lost,
            Declined::BySession(CallFault::PeerAway) => Cause::PeerAway,
            Declined::BySession(CallFault::OutOfMemory(_)) | Declined::OutOfMemory =>
                Cause::NoMemory,
            Declined::Unwatched => Cause::Unwatched,
            Declined::BySession(_) => Cause::Other,
        }
    }
}

impl fmt::Display for Declined {
    fn fmt<W: fmt::Write>(&self, f: &mut fmt::Formatter<W>) -> fmt::Result {
        match self {
            Declined::BySession(CallFault::OutOfMemory(_)) | Declined::OutOfMemory => {
                write!(f, "Memory")
            }
            Declined::BySession(fault) => write!(f, "{fault}"),
            Declined::Unwatched => write!(f, "Unwatched"),
        }
    }
}
