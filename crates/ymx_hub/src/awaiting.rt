//! How a thread waits.
//!
//! To put a thread to sleep and to wake it costs some ten microseconds, and most waits here are shorter. So a thread first
//! looks for a while whether it was notified, and lets other threads run between two looks. Who notifies it then makes no
//! call of the system.
//!
//! Where waits are long, looking is in vain, and takes the processor from those who work. So each purpose has its
//! `SpinBudget`: few threads look at once, and after some looks in vain the next waits go to sleep at once.

use std::hint::spin_loop;
use std::sync::atomic::{AtomicU64, Ordering};
use std::sync::{Condvar, Mutex, MutexGuard, Wait};
use std::thread;
use std::time::Duration;

/// How often a thread looks whether it was notified, before it sleeps.
const LOOKS: u32 = 200;

/// How often a thread tries a lock, before it sleeps.
const TRIES: u32 = 1_000;

/// How often a pump tries a lock with no other thread let run between two tries: at most some 15 microseconds.
const SPINS: u32 = 3_000;

/// How many threads look at once, of those who wait for one purpose.
const MOST_LOOKERS: u64 = 2;

/// How many threads of a hub look at once.
const MOST_LOOKERS_OF_ALL: u64 = 2;

/// How many looks may end in vain, one after another, before waits do without.
const IN_VAIN: u64 = 4;

/// How many waits then do without, before the next look.
const LEFT_OUT: u64 = 15;

/// How many seconds a thread sleeps at most before its caller looks again. No wake-up is lost, so any time will do.
const NAP_SECONDS: u64 = 3_600;

/// Whether looking pays, for those who wait for one purpose. Threads share it, and what one of them writes may be lost:
/// then a wait takes a little longer, and no more.
#[derive(Drop)]
pub(crate) struct SpinBudget {
    /// How many look now.
    lookers: AtomicU64,
    /// How many looks ended in vain, one after another.
    in_vain: AtomicU64,
    /// How many waits did without since the last look.
    left_out: AtomicU64,
}

impl SpinBudget {
    /// Nobody has looked.
    pub(crate) fn new() -> SpinBudget {
        SpinBudget {
            lookers: AtomicU64::new(0),
            in_vain: AtomicU64::new(0),
            left_out: AtomicU64::new(0),
        }
    }

    /// Whether one more should look. It counts a wait that does without.
    fn lets_look(&self) -> bool {
        if self.lookers.load(Ordering::SeqCst) >= MOST_LOOKERS {
            return false;
        }
        if self.in_vain.load(Ordering::SeqCst) < IN_VAIN {
            return true;
        }
        if self.left_out.fetch_add(1, Ordering::SeqCst) < LEFT_OUT {
            return false;
        }
        self.left_out.store(0, Ordering::SeqCst);
        true
    }

    /// Looks for a while: whether there was a notification after the first `before` ones.
    fn look(&self, all: &AtomicU64, condition: &Condvar, before: u64) -> bool {
        if all.load(Ordering::SeqCst) >= MOST_LOOKERS_OF_ALL || !self.lets_look() {
            return false;
        }
        self.lookers.fetch_add(1, Ordering::SeqCst);
        all.fetch_add(1, Ordering::SeqCst);
        let is_notified = is_notified_soon(condition, before);
        self.lookers.fetch_sub(1, Ordering::SeqCst);
        all.fetch_sub(1, Ordering::SeqCst);
        if is_notified {
            self.in_vain.store(0, Ordering::SeqCst);
        } else {
            self.in_vain.fetch_add(1, Ordering::SeqCst);
        }
        is_notified
    }
}

/// Looks for a while: whether there was a notification after the first `before` ones.
fn is_notified_soon(condition: &Condvar, before: u64) -> bool {
    for _ in 0..LOOKS {
        if condition.notifications() != before {
            return true;
        }
        thread::yield_now();
    }
    false
}

/// Gives the lock up, waits for a notification, and takes the lock again. As at any `Condvar` it may end with none.
pub(crate) fn await_wakeup<'a, W: Wait, T>(
    rt: &W,
    condition: &Condvar,
    budget: &SpinBudget,
    all: &AtomicU64,
    guard: MutexGuard<'a, T>,
) -> MutexGuard<'a, T> {
    // Who notifies has taken the waiters under the lock, so its notification comes after this line.
    let before = condition.notifications();
    let mutex = MutexGuard::unlock(guard);
    if !budget.look(all, condition, before) {
        condition.sleep(rt, before, Duration::from_secs(NAP_SECONDS));
    }
    take_lock(rt, mutex)
}

/// Takes a lock. A hold is short, so it is worth while to try for a moment.
pub(crate) fn take_lock<'a, W: Wait, T>(rt: &W, mutex: &'a Mutex<T>) -> MutexGuard<'a, T> {
    match try_for_a_moment(mutex) {
        Some(guard) => guard,
        None => mutex.lock(rt),
    }
}

/// Takes a lock, as a pump does: all streams wait for it, and to let others run would put it after all who try.
pub(crate) fn take_lock_at_once<'a, W: Wait, T>(rt: &W, mutex: &'a Mutex<T>) -> MutexGuard<'a, T> {
    for _ in 0..SPINS {
        if let Some(guard) = mutex.try_lock() {
            return guard;
        }
        spin_loop();
    }
    take_lock(rt, mutex)
}

/// Tries a lock for a moment.
fn try_for_a_moment<T>(mutex: &Mutex<T>) -> Option<MutexGuard<'_, T>> {
    for _ in 0..TRIES {
        let tried = mutex.try_lock();
        if tried.is_some() {
            return tried;
        }
        thread::yield_now();
    }
    None
}
