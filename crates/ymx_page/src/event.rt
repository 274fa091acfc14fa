//! All that an endpoint logs or counts.

use crate::connections::{Declined, EndedConnection, Ending, Origin, Passed};
use arrayvec::ArrayString;
use std::fmt::{self, Write};
use std::net::SocketAddrV4;
use std::time::Instant;
use ymx_policy::{Fault, Named, Notice, Reason, fault_text, notice_text};

/// Room for the longest line, in bytes, and more: that of a connection with the greatest numbers and the longest reason has
/// 289.
const LINE: usize = 1_000;

/// A line, which takes no memory.
pub type Line = ArrayString<LINE>;

/// All that an endpoint logs or counts.
#[derive(Clone, Copy)]
pub enum Event {
    /// What went wrong: on the device for faults.
    Fault(Fault),
    /// Why: on the device for lines, always.
    Reason(Notice),
    /// On the device for lines, where `-v` asks for it.
    Notice(Notice),
    /// The system refused, for this reason, what this option asks for, and it goes on without.
    Refused(Named, Reason),
    /// A connection that had a stream has ended.
    Ended(Origin, EndedConnection),
    /// A connection was closed, as no stream was to be had for it.
    Declined(Origin, Declined),
    /// A connection to this target could not be made, for this reason.
    Unreached(SocketAddrV4, Reason),
    /// So many bytes have passed to the peer and from it.
    Passed(u64, u64),
    /// Users begin to wait as all of so many slots are used, or wait no more.
    Waiting(bool, usize),
    /// A connect to the peer has succeeded, or failed.
    Dialed(bool),
    /// A session with a peer begins, with so many slots.
    SessionBegan(usize),
    /// One with so many slots was lost or has ended, and whether another follows it.
    SessionEnded(usize, bool),
    /// So many streams of the peer at this address, if it is known, were rejected, as memory was out.
    Rejected(u64, Option<SocketAddrV4>),
}

impl Event {
    /// Whether it goes to the device for faults.
    pub fn is_fault(&self) -> bool {
        matches!(self, Event::Fault(_))
    }

    /// Its line of the log, now if the time is known. None where it has none.
    pub fn line(&self, is_verbose: bool, now: Option<Instant>) -> Option<Line> {
        let mut line = Line::new();
        let _ = match self {
            Event::Fault(fault) => write!(line, "{}", fault_text(*fault)),
            Event::Reason(notice) => write!(line, "{}", notice_text(*notice)),
            Event::Unreached(target, reason) => {
                let refused = Notice::Refused(Named::Target(*target), *reason);
                write!(line, "{}", notice_text(refused))
            }
            Event::Passed(_, _) | Event::Waiting(false, _) | Event::Dialed(_) => return None,
            Event::SessionBegan(_) | Event::SessionEnded(_, _) => return None,
            _ if !is_verbose => return None,
            Event::Waiting(true, slots) => {
                writeln!(line, "ymx: all {slots} stream slots are used: users wait")
            }
            Event::Notice(notice) => write!(line, "{}", notice_text(*notice)),
            Event::Refused(option, reason) => {
                write!(line, "{}", notice_text(Notice::Refused(*option, *reason)))
            }
            Event::Rejected(_, peer) => write!(line, "{}", notice_text(Notice::Rejected(*peer))),
            Event::Ended(origin, ended) => write_ended(&mut line, *origin, ended, now),
            Event::Declined(origin, why) => writeln!(line, "ymx: {origin}: no stream: {why}"),
        };
        Some(line)
    }
}

/// Writes how a connection ended: what it passed each way, and how long it lasted.
fn write_ended(
    line: &mut Line,
    origin: Origin,
    ended: &EndedConnection,
    now: Option<Instant>,
) -> fmt::Result {
    write!(line, "ymx: {origin}: ")?;
    write_passed(line, ended.to_peer, "to", ended.reason)?;
    write!(line, ", ")?;
    write_passed(line, ended.from_peer, "from", ended.reason)?;
    if let (Some(began), Some(now)) = (origin.began, now) {
        let lasted = now.duration_since(began);
        let (seconds, rest) = (lasted.as_secs(), lasted.subsec_millis());
        write!(line, ", {seconds}.{rest:03} s")?;
    }
    writeln!(line)
}

/// Writes what went to the peer, or from it, and why that way ended.
fn write_passed(line: &mut Line, passed: Passed, way: &str, reason: Option<Reason>) -> fmt::Result {
    let Passed { bytes, ending } = passed;
    write!(line, "{bytes} bytes {way} the peer ({ending}")?;
    if let (Ending::ConnectionFailed, Some(reason)) = (ending, reason) {
        write!(line, ": {reason}")?;
    }
    write!(line, ")")
}
