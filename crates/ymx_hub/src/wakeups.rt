//! Who waits, and who is woken.
//!
//! A thread that has to wait says so under the lock, in `Waiters`. Then it sleeps on a condition variable. There is one
//! for each purpose. Those who read or write a stream sleep on one of 1,024, its slot, which streams share by their ids.
//!
//! A thread that changes what others wait for takes those waiters out, still under the lock. It gives the lock up, and
//! notifies their condition variables. So a condition variable that nobody waits at costs nothing. No wake-up is lost
//! either: a waiter has said that it waits before its event can come.
//!
//! Those who wait for an offered stream are woken one by one, as one stream serves one of them. Each adds one to a count
//! before it sleeps, and takes it back once it has the lock again. So the count is never below the number of sleepers. A
//! feed notifies once for each stream that it offers, but no more often than the count says. So for each offered stream
//! a thread is awake or will be woken. A thread that wakes and finds the stream taken sleeps again, as nothing is
//! offered then. A thread that wakes and is refused leaves the stream, and notifies once more.
//!
//! The session says which streams a feed touched. A stream that was not touched is as it was, so who waits for it would
//! have to wait again. Of the streams that were touched, a reader is woken where bytes, the end or a reset came, and a
//! writer where credit or a reset came. Who would still have to wait stays among the waiters, for the next feed. Once
//! the session has stopped running, all are woken.

ghost use Rattle.std.specs.Prelude.{◌<◌};

use crate::awaiting::SpinBudget;
use crate::slot_set::{SlotSet, take_lowest};
use std::sync::Condvar;
use std::sync::atomic::AtomicU64;
use std::{array, mem};

/// How many slots the streams share, for reading and for writing each.
const SLOTS: u32 = 1_024;

/// Who waits, and for what; or who is to be woken.
#[derive(Drop)]
pub(crate) struct Waiters {
    /// The slots of those who read a stream.
    readers: SlotSet,
    /// The slots of those who write a stream.
    writers: SlotSet,
    /// How many wait for a stream that is offered.
    acceptors: usize,
    /// Somebody waits for the answer to a ping.
    pub(crate) pingers: bool,
    /// Somebody waits until nothing is due, or until fewer answers are unsent.
    pub(crate) drainers: bool,
}

impl Waiters {
    /// Nobody.
    pub(crate) fn none() -> Waiters {
        Waiters {
            readers: SlotSet::none(),
            writers: SlotSet::none(),
            acceptors: 0,
            pingers: false,
            drainers: false,
        }
    }

    /// Notes that somebody will wait for bytes of this stream.
    pub(crate) fn add_reader(&mut self, id: u32) {
        self.readers.add(slot_of(id));
    }

    /// Notes that somebody will wait for credit of this stream.
    pub(crate) fn add_writer(&mut self, id: u32) {
        self.writers.add(slot_of(id));
    }

    /// Notes that one more will wait for an offered stream.
    pub(crate) fn add_acceptor(&mut self) {
        self.acceptors = self.acceptors.saturating_add(1);
    }

    /// One that waited for an offered stream has the lock again.
    pub(crate) fn remove_acceptor(&mut self) {
        self.acceptors = self.acceptors.saturating_sub(1);
    }

    /// Whether somebody may wait for bytes of this stream: true too where one waits at another stream of its slot.
    pub(crate) fn has_reader(&self, id: u32) -> bool {
        self.readers.has(slot_of(id))
    }

    /// Whether somebody may wait for credit of this stream: true too where one waits at another stream of its slot.
    pub(crate) fn has_writer(&self, id: u32) -> bool {
        self.writers.has(slot_of(id))
    }

    /// Moves who reads this stream to those who are woken.
    pub(crate) fn wake_reader(&mut self, id: u32, woken: &mut Waiters) {
        let slot = slot_of(id);
        if self.readers.take(slot) {
            woken.readers.add(slot);
        }
    }

    /// Moves who writes this stream to those who are woken.
    pub(crate) fn wake_writer(&mut self, id: u32, woken: &mut Waiters) {
        let slot = slot_of(id);
        if self.writers.take(slot) {
            woken.writers.add(slot);
        }
    }

    /// So many of those who wait for an offered stream are woken, or as many as wait. They take themselves back.
    pub(crate) fn wake_acceptors(&self, count: usize, woken: &mut Waiters) {
        woken.acceptors = count.min(self.acceptors);
    }

    /// Moves who waits for the answer to a ping to those who are woken.
    pub(crate) fn wake_pingers(&mut self, woken: &mut Waiters) {
        if mem::take(&mut self.pingers) {
            woken.pingers = true;
        }
    }

    /// Takes those who wait until bytes went out: whether there are any.
    pub(crate) fn take_drainers(&mut self) -> bool {
        mem::take(&mut self.drainers)
    }

    /// Moves who reads or writes any stream to those who are woken.
    pub(crate) fn wake_streams(&mut self, woken: &mut Waiters) {
        self.readers.move_to(&mut woken.readers);
        self.writers.move_to(&mut woken.writers);
    }

    /// Moves all to those who are woken. Those who wait for an offered stream take themselves back.
    pub(crate) fn wake_all(&mut self, woken: &mut Waiters) {
        self.wake_streams(woken);
        self.wake_acceptors(self.acceptors, woken);
        self.wake_pingers(woken);
        if self.take_drainers() {
            woken.drainers = true;
        }
    }
}

/// The slot of a stream, 0 to 1,023. Ids of one side differ by two, so neighbours have slots of their own.
fn slot_of(id: u32) -> u32
    ensures { result < 1_024 }
{
    id / 2 % SLOTS
}

/// The condition variables that waiters sleep on.
#[derive(Drop)]
pub(crate) struct Wakeups {
    readers: [Condvar; 1_024],
    writers: [Condvar; 1_024],
    /// A stream is offered.
    pub(crate) offered: Condvar,
    /// The answer to a ping is back.
    pub(crate) ponged: Condvar,
    /// Bytes went out.
    pub(crate) drained: Condvar,
    /// Something is due.
    pub(crate) due: Condvar,
    pub(crate) budgets: Budgets,
}

/// The budgets of those who wait, by what they wait for.
#[derive(Drop)]
pub(crate) struct Budgets {
    /// That of those who read a stream.
    pub(crate) reading: SpinBudget,
    /// That of those who write a stream.
    pub(crate) writing: SpinBudget,
    /// That of those who wait for the answer to a ping.
    pub(crate) pinging: SpinBudget,
    /// That of write pumps, which wait until something is due.
    pub(crate) pumping: SpinBudget,
    /// How many threads of the hub look now.
    pub(crate) all: AtomicU64,
}

impl Budgets {
    fn new() -> Budgets {
        Budgets {
            reading: SpinBudget::new(),
            writing: SpinBudget::new(),
            pinging: SpinBudget::new(),
            pumping: SpinBudget::new(),
            all: AtomicU64::new(0),
        }
    }
}

impl Wakeups {
    /// Wakeups that nobody waits at. Takes no memory.
    pub(crate) fn new() -> Wakeups {
        Wakeups {
            readers: array::from_fn(|_| Condvar::new()),
            writers: array::from_fn(|_| Condvar::new()),
            offered: Condvar::new(),
            ponged: Condvar::new(),
            drained: Condvar::new(),
            due: Condvar::new(),
            budgets: Budgets::new(),
        }
    }

    /// What those who read this stream sleep on, and who reads another stream of its slot.
    pub(crate) fn reader(&self, id: u32) -> &Condvar {
        &self.readers[slot_of(id) as usize]
    }

    /// What those who write this stream sleep on, and who writes another stream of its slot.
    pub(crate) fn writer(&self, id: u32) -> &Condvar {
        &self.writers[slot_of(id) as usize]
    }

    /// Wakes these waiters. The lock is not held then.
    pub(crate) fn notify(&self, waiters: &Waiters) {
        notify_set(&self.readers, &waiters.readers);
        notify_set(&self.writers, &waiters.writers);
        for _ in 0..waiters.acceptors {
            self.offered.notify_one();
        }
        if waiters.pingers {
            self.ponged.notify_all();
        }
        if waiters.drainers {
            self.drained.notify_all();
        }
    }
}

/// Wakes all who sleep at the slots of this set.
fn notify_set(conditions: &[Condvar; 1_024], set: &SlotSet) {
    let mut filled = set.filled();
    for _ in 0..filled.count_ones() {
        let place = take_lowest(&mut filled) % 16;
        let mut word = set.word(place);
        for _ in 0..word.count_ones() {
            let slot = place * 64 + take_lowest(&mut word);
            conditions[slot as usize].notify_all();
        }
    }
}
