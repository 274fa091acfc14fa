//! The counts of an endpoint since it began.

use crate::event::Event;
use std::alloc::Global;
use std::collections::BTreeMap;
use std::time::Instant;
use ymx_policy::Reason;

/// The labels under which it is counted why connections to the target could not be made, in the order of [`Obstacle`].
pub(crate) const REASONS: &str = "refused unreachable timed_out no_port no_descriptor other";

/// Why a connection to the target could not be made, as it is counted.
#[derive(Clone, Copy)]
enum Obstacle {
    Refused,
    Unreachable,
    TimedOut,
    NoPort,
    NoDescriptor,
    Other,
}

/// The counts of an endpoint since it began. Each count stays at the greatest `u64`.
#[derive(Drop)]
pub struct Counts {
    /// When each connection began that is open, by its number.
    open_since: BTreeMap<u64, Instant>,
    /// Connections that have ended, by [`Ending`](crate::Ending).
    pub(crate) ended: [u64; 7],
    /// Connections that got no stream, by [`Cause`](crate::connections::Cause).
    pub(crate) declined: [u64; 5],
    /// Connections to the target that could not be made, by [`Obstacle`].
    pub(crate) unreached: [u64; 6],
    pub(crate) numbers: Numbers,
}

/// What is counted with no label.
#[derive(Drop, Default)]
pub(crate) struct Numbers {
    pub(crate) to_peer: u64,
    pub(crate) from_peer: u64,
    pub(crate) begun: u64,
    pub(crate) open: u64,
    pub(crate) sessions_begun: u64,
    /// The last session was lost or has ended, and none follows.
    is_lost: bool,
    pub(crate) sessions_ended: u64,
    /// The last connect to the peer failed.
    is_unreachable: bool,
    pub(crate) slots: u64,
    pub(crate) waiting: u64,
    pub(crate) rejected: u64,
    pub(crate) system_refusals: u64,
}

impl Counts {
    /// Nothing has been counted.
    pub fn new(alloc: Global) -> Counts {
        Counts {
            open_since: BTreeMap::new(alloc),
            ended: [0; 7],
            declined: [0; 5],
            unreached: [0; 6],
            numbers: Numbers::default(),
        }
    }

    /// A connection begins, now if the time is known. Its number: 1, 2, 3, ..
    pub fn begin(&mut self, now: Option<Instant>) -> u64 {
        add(&mut self.numbers.begun, 1);
        add(&mut self.numbers.open, 1);
        if let Some(now) = now {
            // Where there is no memory for it, this one's age isn't shown.
            let _ = self.open_since.insert(self.numbers.begun, now);
        }
        self.numbers.begun
    }

    /// Counts this.
    pub fn count(&mut self, event: &Event) {
        match event {
            Event::Ended(origin, ended) => {
                self.end(origin.number);
                add_at(&mut self.ended, ended.ending() as usize);
            }
            Event::Declined(origin, why) => {
                self.end(origin.number);
                add_at(&mut self.declined, why.cause() as usize);
            }
            Event::Unreached(_, reason) => {
                // a shortage is a refusal of the system too
                let is_short = matches!(
                    reason,
                    Reason::NoPort | Reason::NoDescriptor | Reason::NoMemory
                );
                add(&mut self.numbers.system_refusals, u64::from(is_short));
                add_at(&mut self.unreached, obstacle_of(*reason) as usize);
            }
            Event::Passed(to_peer, from_peer) => {
                add(&mut self.numbers.to_peer, *to_peer);
                add(&mut self.numbers.from_peer, *from_peer);
            }
            Event::Waiting(true, _) => add(&mut self.numbers.waiting, 1),
            Event::Waiting(false, _) => take(&mut self.numbers.waiting, 1),
            Event::Dialed(has_succeeded) => self.numbers.is_unreachable = !has_succeeded,
            Event::SessionBegan(slots) => {
                add(&mut self.numbers.sessions_begun, 1);
                add(&mut self.numbers.slots, *slots as u64);
                self.numbers.is_lost = false;
            }
            Event::SessionEnded(slots, reconnects) => {
                add(&mut self.numbers.sessions_ended, 1);
                take(&mut self.numbers.slots, *slots as u64);
                self.numbers.is_lost = !reconnects && self.sessions() == 0;
            }
            Event::Rejected(count, _) => add(&mut self.numbers.rejected, *count),
            Event::Refused(_, _) => add(&mut self.numbers.system_refusals, 1),
            Event::Fault(_) | Event::Reason(_) | Event::Notice(_) => {}
        }
    }

    /// How many sessions there are.
    pub(crate) fn sessions(&self) -> u64 {
        let begun = self.numbers.sessions_begun;
        begun.saturating_sub(self.numbers.sessions_ended)
    }

    /// What is wrong with the end, in a word. None if nothing is.
    pub(crate) fn trouble(&self) -> Option<&'static str> {
        match (self.numbers.is_lost, self.numbers.is_unreachable) {
            (true, _) => Some("lost\n"),
            (false, true) => Some("unreachable\n"),
            (false, false) => None,
        }
    }

    /// When the oldest connection began that is open. None where none is.
    pub fn oldest(&self) -> Option<Instant> {
        let (_, began) = self.open_since.first_key_value()?;
        Some(*began)
    }

    /// The connection of this number is open no more.
    fn end(&mut self, number: u64) {
        let _ = self.open_since.remove(&number);
        take(&mut self.numbers.open, 1);
    }
}

/// As what this reason is counted.
fn obstacle_of(reason: Reason) -> Obstacle {
    match reason {
        Reason::Refused => Obstacle::Refused,
        Reason::Unreachable => Obstacle::Unreachable,
        Reason::TimedOut => Obstacle::TimedOut,
        Reason::NoPort => Obstacle::NoPort,
        Reason::NoDescriptor => Obstacle::NoDescriptor,
        _ => Obstacle::Other,
    }
}

/// Counts one more in this place.
fn add_at(counts: &mut [u64], place: usize) {
    if let Some(count) = counts.get_mut(place) {
        add(count, 1);
    }
}

/// Counts so many more.
fn add(count: &mut u64, added: u64) {
    *count = count.saturating_add(added);
}

/// Counts so many less.
fn take(count: &mut u64, taken: u64) {
    *count = count.saturating_sub(taken);
}
