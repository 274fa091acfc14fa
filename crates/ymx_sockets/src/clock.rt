//! Times by the clock, which may be unknown.

use std::time::{Clock, Duration};

/// After how many seconds, at most, it is looked at again what no event reports.
pub const GLANCE: u64 = 1;

/// The shorter of two times, of which none is as long as can be.
pub fn shorter(time: Option<Duration>, other: Option<Duration>) -> Option<Duration> {
    match (time, other) {
        (Some(time), Some(other)) => Some(time.min(other)),
        (None, other) => other,
        (time, None) => time,
    }
}

/// The time by the clock, since some beginning. None where it can't be read.
pub fn time_of<R: Clock>(rt: &R) -> Option<Duration> {
    rt.monotonic().ok()
}

/// Whether so long has gone by since then. Where one of both times is unknown, it hasn't.
pub fn has_passed(since: Option<Duration>, now: Option<Duration>, limit: Duration) -> bool {
    match (since, now) {
        (Some(since), Some(now)) => now.saturating_sub(since) >= limit,
        _ => false,
    }
}
