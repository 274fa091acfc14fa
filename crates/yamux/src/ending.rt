//! How a pump of a session ended, as the caller that waits for it learns it.
//!
//! A `JoinHandle` can't be shared by threads, and a session is. So a pump leaves its end here, and its thread is let run out.

use std::sync::{Condvar, Mutex, Wait};
use ymx_connect::PumpWhy;

/// Where the pumps of a session leave their ends.
#[derive(Drop)]
pub(crate) struct Endings {
    pub(crate) reading: Ending,
    pub(crate) writing: Ending,
}

/// Where a pump leaves its end.
#[derive(Drop)]
pub(crate) struct Ending {
    /// `None` while the pump has a thread.
    why: Mutex<Option<PumpWhy>>,
    changed: Condvar,
}

impl Endings {
    /// Neither pump has a thread yet.
    pub(crate) fn new() -> Endings {
        Endings {
            reading: Ending::new(),
            writing: Ending::new(),
        }
    }
}

impl Ending {
    /// The pump has no thread yet.
    fn new() -> Ending {
        Ending {
            why: Mutex::new(Some(PumpWhy::NoThread)),
            changed: Condvar::new(),
        }
    }

    /// The pump is about to get a thread.
    pub(crate) fn begin<W: Wait>(&self, rt: &W) {
        *self.why.lock(rt) = None;
    }

    /// The pump has ended so.
    pub(crate) fn tell<W: Wait>(&self, rt: &W, why: PumpWhy) {
        *self.why.lock(rt) = Some(why);
        self.changed.notify_all();
    }

    /// Waits until the pump has no thread: why.
    pub(crate) fn wait<W: Wait>(&self, rt: &W) -> PumpWhy {
        let mut why = self.why.lock(rt);
        for _ in rt.forever() {
            if let Some(why) = *why {
                return why;
            }
            why = self.changed.wait(rt, why);
        }
        unreachable!()
    }
}
