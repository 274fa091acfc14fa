//! The texts of faults and notices. They take no memory.

use crate::commands::{Fault, Named, Notice};
use arrayvec::ArrayString;
use std::fmt::{self, Write};
use std::net::SocketAddrV4;

/// Room for the longest text, in bytes, and more.
const ROOM: usize = 400;

/// The text of a fault or a notice.
pub type Text = ArrayString<ROOM>;

/// The text of a fault.
pub fn fault_text(fault: Fault) -> Text {
    let mut text = Text::new();
    let _ = match fault {
        Fault::CannotListen(address) => writeln!(text, "ymx: cannot listen at {address}"),
        Fault::CannotReach(address) => writeln!(text, "ymx: cannot reach {address}"),
        Fault::Broken(rule) => writeln!(text, "ymx: session broken: B{rule}"),
        Fault::OutOfMemory => writeln!(text, "ymx: out of memory"),
    };
    text
}

/// The text of a notice.
pub fn notice_text(notice: Notice) -> Text {
    let mut text = Text::new();
    let _ = match notice {
        Notice::Listening(address) => writeln!(text, "ymx: listening at {address}"),
        Notice::PeerCame(peer) => writeln!(text, "ymx: the peer has come{}", source_text(peer)),
        Notice::PeerGone(peer) => writeln!(text, "ymx: the peer has gone{}", source_text(peer)),
        Notice::PeerGoneSilent(peer) => {
            let from = source_text(peer);
            writeln!(text, "ymx: the peer has gone before its first frame{from}")
        }
        Notice::Unreached(address) => writeln!(text, "ymx: cannot reach {address}"),
        Notice::Denied(from) => {
            let from = source_text(from);
            writeln!(text, "ymx: rejected a peer{from}: --from denies it")
        }
        Notice::OverLimit(from) => {
            let from = source_text(from);
            writeln!(text, "ymx: rejected a peer{from}: --peers reached")
        }
        Notice::Refused(option, reason) => writeln!(text, "ymx: {option}: {reason}"),
        Notice::Rejected(peer) => {
            let from = source_text(peer);
            writeln!(text, "ymx: rejected streams{from}: no memory")
        }
        Notice::Broke(rule, peer) => {
            let (from, words) = (source_text(peer), rule_words(rule));
            writeln!(text, "ymx: B{rule}{from}: {words}")
        }
    };
    text
}

/// From where it came, as it ends a line: nothing where that isn't known.
pub fn source_text(from: Option<SocketAddrV4>) -> Text {
    let mut text = Text::new();
    if let Some(address) = from {
        let _ = write!(text, " from {address}");
    }
    text
}

impl fmt::Display for Named {
    fn fmt<W: fmt::Write>(&self, f: &mut fmt::Formatter<W>) -> fmt::Result {
        match self {
            Named::Listen(address) => write!(f, "--listen {address}"),
            Named::Peer(address) => write!(f, "--peer {address}"),
            Named::Bind(address) => write!(f, "--bind {address}"),
            Named::Target(address) => write!(f, "--target {address}"),
            Named::Peers => write!(f, "--peers"),
            Named::Links => write!(f, "--links"),
            Named::Status(address) => write!(f, "--status {address}"),
        }
    }
}

/// What was done against this rule: 1 for B1.
fn rule_words(rule: u8) -> &'static str {
    match rule {
        1 => "the version of a frame is not 0",
        2 => "the type of a frame is above 3",
        3 => "a stream was opened by an id that is not the opener's: both sides may be of one kind",
        4 => "a stream was opened that is there already",
        5 => "more bytes came than a frame or a window may have",
        6 => "a window was lifted above 4294967295 bytes",
        7 => "the code of a Go Away is above 2",
        8 => "the peer said that a rule was broken here",
        9 => "the peer said that it has failed",
        _ => "a rule was broken",
    }
}
