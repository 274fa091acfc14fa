//! How long a peer has been silent, and what is due then; and how slowly its line takes bytes.

ghost use Rattle.std.specs.Prelude.{◌≡◌};
ghost use Rattle.std.specs.Duration.{as_nanos};
ghost use Rattle.ymx_loop.specs.Silence.{IsDueAfter, is_sign};

use crate::socket::Socket;
use std::time::{Clock, Duration};
use ymx_engine::Device;
use ymx_sockets::{NoEvents, has_passed, time_of};

/// How many bytes count as activity that come while a payload is under way, or are acknowledged while an answer is: 4,096 of a
/// payload, after a header at most.
const LONG_PART: u64 = 4_108;

/// How many bytes that the system hasn't taken may stand before a ping that is due: what a tunnel may have read of its
/// connections for the wire.
const AHEAD: u64 = 262_336;

/// The peer was silent for too long, though it was pinged. Only [`Silence::due`] makes one.
#[derive(Drop)]
pub(crate) struct SilentPeer {
    seal: (),
}

/// Why the connection to a peer is given up.
#[derive(Drop)]
pub(crate) enum Cause {
    /// The peer counts as gone.
    Silent(SilentPeer),
    /// The system refused to report events.
    Unwatched(NoEvents),
}

/// What is due where a peer is silent.
#[derive(Drop)]
pub(crate) enum Due {
    /// Nothing, before so much time has gone by.
    In(Duration),
    /// A ping is due.
    Ping,
    /// It counts as gone.
    Loss(SilentPeer),
}

/// How many seconds a line may take no bytes at least that it was given.
const STILL: u64 = 10;

/// When the peer was last active, and whether it was pinged since. A whole frame is activity, and so are 4,096
/// bytes of the payload of one: a stranger to yamux shows none, and a slow line is not cut within a long frame.
#[derive(Clone, Copy)]
pub(crate) struct Silence {
    /// When it was last active or pinged, by the clock, or as much later as it has longer.
    since: Duration,
    was_asked: bool,
    /// How many bytes had come of it when it was last active.
    received: u64,
    /// How many the system had taken for it then.
    sent: u64,
    /// How long it may be silent before it is asked, and then before it counts as gone.
    pub(crate) patience: Duration,
    /// How much longer where bytes are on their way to it.
    slack: Duration,
    /// How many bytes it had acknowledged when it was last asked, or when that last gave it longer.
    acknowledged: u64,
    /// With so many the ping that it was asked by is among them.
    acknowledged_with_ping: u64,
}

impl Silence {
    /// It is active at this time, and may be silent for so many seconds. None where silence doesn't matter, or the time
    /// is unknown.
    pub(crate) fn new(now: Option<Duration>, seconds: Option<u32>) -> Option<Silence> {
        let patience = Duration::from_secs(seconds? as u64);
        Some(Silence {
            since: now?,
            was_asked: false,
            received: 0,
            sent: 0,
            patience,
            slack: patience.max(Duration::from_secs(STILL).saturating_sub(patience)),
            acknowledged: 0,
            acknowledged_with_ping: 0,
        })
    }

    /// So many bytes have come of the peer, of which this many stand after the last whole frame, or a payload is under way; and
    /// the system has taken so many for it. With activity the time begins anew.
    pub(crate) fn on_bytes(
        &mut self,
        now: Option<Duration>,
        received: u64,
        sent: u64,
        unframed: Option<usize>,
    ) {
        if is_sign(self.received, received, unframed) {
            self.received = received;
            self.sent = sent;
            self.was_asked = false;
            self.since = now.unwrap_or(self.since);
        }
    }

    /// What is due now, where so many bytes were sent, of which so many aren't acknowledged; nothing where the time is unknown. A peer
    /// that is pinged has as long again, and longer where 4,096 bytes are on their way to it, and after each 4,096 before the ping.
    pub(crate) fn due<F: Fn() -> u64>(
        &mut self,
        now: Option<Duration>,
        sent: u64,
        unacknowledged: F,
    ) -> Due
        requires { F.IsAlwaysCallable unacknowledged }
    {
        let Some(now) = now else {
            return Due::In(self.patience);
        };
        if self.was_asked && self.acknowledged < self.acknowledged_with_ping {
            let acknowledged = sent.saturating_sub(unacknowledged());
            if acknowledged.saturating_sub(self.acknowledged) >= LONG_PART {
                self.acknowledged = acknowledged;
                self.since = now.saturating_add(self.slack);
            }
        }
        let due = due_after(
            self.patience,
            now.saturating_sub(self.since),
            self.was_asked,
        );
        if matches!(due, Due::Ping) {
            self.was_asked = true;
            self.acknowledged = sent.saturating_sub(unacknowledged());
            self.acknowledged_with_ping = sent.saturating_add(AHEAD);
            self.since = now;
            if sent.saturating_sub(self.sent.min(self.acknowledged)) >= LONG_PART {
                self.since = now.saturating_add(self.slack);
            }
        }
        due
    }
}

/// For how many milliseconds a slow line takes no bytes at once.
const SLOW: u64 = 4;

/// How many bytes a line counts as slow for, once it was.
const SLOW_BYTES: u64 = 1 << 18;

/// How slowly a line takes bytes.
#[derive(Clone, Copy)]
pub(crate) struct Pace {
    /// Since when it takes none. None where it takes some.
    full_since: Option<Duration>,
    /// It counts as slow until it has taken so many.
    slow_until: u64,
}

impl Pace {
    /// Of one of which nothing is known yet: it begins as a slow one.
    pub(crate) fn new() -> Pace {
        Pace {
            full_since: None,
            slow_until: SLOW_BYTES,
        }
    }

    /// Whether the line of this wire is slow, as it stands now.
    pub(crate) fn is_slow<R: Clock>(&mut self, rt: &R, wire: &Socket) -> bool {
        if wire.may_push() != self.full_since.is_some() {
            return wire.pushed < self.slow_until;
        }
        let now = time_of(rt);
        if has_passed(self.full_since, now, Duration::from_millis(SLOW)) {
            self.slow_until = wire.pushed.saturating_add(SLOW_BYTES);
        }
        self.full_since = if wire.may_push() { None } else { now };
        wire.pushed < self.slow_until
    }
}

/// Whether the peer was active since so many bytes of it had come: `bytes` have by now, of which this many stand
/// after the last whole frame, or a payload is under way.
pub(crate) fn is_sign(before: u64, bytes: u64, unframed: Option<usize>) -> bool
    ensures { result ≡ is_sign before bytes unframed }
{
    match unframed {
        Some(behind) => before < bytes.saturating_sub(behind as u64),
        None => bytes.saturating_sub(before) >= LONG_PART,
    }
}

/// What is due after so long a silence. A loss only after a ping.
fn due_after(patience: Duration, passed: Duration, was_asked: bool) -> Due
    ensures { IsDueAfter (as_nanos patience) (as_nanos passed) was_asked result }
{
    match patience.checked_sub(passed) {
        Some(left) if left > Duration::ZERO => Due::In(left),
        _ if was_asked => Due::Loss(SilentPeer { seal: () }),
        _ => Due::Ping,
    }
}
