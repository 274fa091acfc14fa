//! How two pumps begin.
//!
//! `join_mut` runs its first closure in a new thread, and in the calling one where none can be made, after the
//! second closure. The pump in the first would then run only once the other has ended. So it says that it has begun,
//! and the second pump waits for that, a bounded number of turns; after them the first one is given up.

use std::sync::{Mutex, Wait};
use std::thread;

/// How often the second pump gives way to other threads before it gives the first one up.
const TURNS: u32 = 1_000_000;

/// Whether the first pump has begun, and whether it was given up.
#[derive(Drop)]
pub(crate) struct Start {
    has_begun: bool,
    is_given_up: bool,
}

impl Start {
    /// The first pump has not begun, and was not given up: of two that are about to be run.
    pub(crate) fn new() -> Start {
        Start {
            has_begun: false,
            is_given_up: false,
        }
    }
}

/// Says that the first pump has begun. `false`, and it may not run, where it was given up before.
pub(crate) fn begin<W: Wait>(rt: &W, start: &Mutex<Start>) -> bool {
    let mut now = start.lock(rt);
    if now.is_given_up {
        return false;
    }
    now.has_begun = true;
    true
}

/// Waits a while until the first pump has begun, and gives it up if it doesn't.
pub(crate) fn await_begin<W: Wait>(rt: &W, start: &Mutex<Start>) {
    for _ in 0..TURNS {
        let has_begun = start.lock(rt).has_begun;
        if has_begun {
            return;
        }
        thread::yield_now();
    }
    let mut now = start.lock(rt);
    if !now.has_begun {
        now.is_given_up = true;
    }
}
