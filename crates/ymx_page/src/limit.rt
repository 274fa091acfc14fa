//! Which lines are left out, as one of their kind has just been logged: a peer that makes an endpoint log the same event for
//! ever fills no disk with it.

use crate::event::{Event, Line};
use arrayvec::ArrayVec;
use std::fmt::Write;
use std::net::Ipv4Addr;
use std::time::{Duration, Instant};
use ymx_policy::{Fault, Notice, Reason};

/// Of how many lines the kinds are remembered. A fault comes after a line with its reason.
const RECENT: usize = 16;

/// For how many seconds after a line others of its kind are left out.
const PAUSE: u64 = 1;

/// What an event that may repeat is about.
#[derive(Clone, Copy, PartialEq, Eq)]
enum Subject {
    Rule(u8),
    Broken,
    Silent,
    Rejected,
    Waiting,
    Target(Reason),
    Shortage(Reason),
}

/// What events have in common that differ by a port alone.
#[derive(Clone, Copy, PartialEq, Eq)]
struct Kind {
    subject: Subject,
    host: Option<Ipv4Addr>,
}

/// A line that was logged, by its kind, and when.
#[derive(Drop, Default)]
struct RecentLine {
    kind: Option<Kind>,
    at: Option<Instant>,
}

/// The lines that were logged last, of those that may be left out, and how many were left out.
#[derive(Drop, Default)]
pub struct LineLimit {
    recent: ArrayVec<RecentLine, RECENT>,
    /// How many were left out and not yet reported.
    left_out: u64,
    /// When it was last reported how many were.
    reported_at: Option<Instant>,
}

impl LineLimit {
    /// Whether the line of this event is left out now, and so counted. None is where the time is unknown.
    pub fn leaves_out(&mut self, event: &Event, now: Option<Instant>) -> bool {
        let kind = kind_of(event);
        if kind.is_none() {
            return false;
        }
        for line in self.recent.as_slice() {
            if line.kind == kind && is_recent(line.at, now) {
                self.left_out = self.left_out.saturating_add(1);
                return true;
            }
        }
        if self.recent.is_full() {
            self.recent.remove(0);
        }
        self.recent.push(RecentLine { kind, at: now });
        false
    }

    /// The line which reports how many were left out, once a second at most, or at the end. None where none is due.
    pub fn note(&self, now: Option<Instant>) -> Option<Line> {
        let is_due = self.left_out > 0 && !is_recent(self.reported_at, now);
        is_due.then(|| count_line(self.left_out, " like those before", "left out"))
    }

    /// That line was logged.
    pub fn note_reported(&mut self, now: Option<Instant>) {
        self.left_out = 0;
        self.reported_at = now;
    }
}

/// Whether this was less than a second ago. Where a time is unknown, it wasn't.
fn is_recent(at: Option<Instant>, now: Option<Instant>) -> bool {
    match (at, now) {
        (Some(at), Some(now)) => now.saturating_duration_since(at) < Duration::from_secs(PAUSE),
        _ => false,
    }
}

/// The line which reports that so many lines, which are further described by this, came to this.
pub fn count_line(count: u64, which: &str, fate: &str) -> Line {
    let mut line = Line::new();
    let (lines, were) = if count == 1 {
        ("line", "was")
    } else {
        ("lines", "were")
    };
    let _ = writeln!(line, "ymx: {count} {lines}{which} {were} {fate}");
    line
}

/// The kind of an event whose line may be left out: a rule that was broken, a peer that was rejected or sent no frame, streams
/// without memory, users without a slot, a target that can't be reached, and what the system is short of.
fn kind_of(event: &Event) -> Option<Kind> {
    let (subject, at) = match *event {
        Event::Fault(Fault::Broken(_)) => (Subject::Broken, None),
        Event::Reason(Notice::Broke(rule, at)) => (Subject::Rule(rule), at),
        Event::Reason(Notice::Refused(named, reason)) | Event::Refused(named, reason)
            if matches!(
                reason,
                Reason::NoDescriptor | Reason::NoMemory | Reason::NoThread
            ) => (Subject::Shortage(reason), named.address()),
        Event::Notice(Notice::PeerGoneSilent(at)) => (Subject::Silent, at),
        Event::Notice(Notice::Denied(at) | Notice::OverLimit(at)) => (Subject::Rejected, at),
        Event::Rejected(_, at) => (Subject::Rejected, at),
        Event::Waiting(true, _) => (Subject::Waiting, None),
        Event::Unreached(target, reason) => (Subject::Target(reason), Some(target)),
        _ => return None,
    };
    let host = at.map(|at| *at.ip());
    Some(Kind { subject, host })
}
