//! The own pings of a session.

ghost use Rattle.std.specs.Prelude.{◌≡◌, ◌<◌, ◌==◌, true, false, [], length, position, is_some, IfOk, IfSome, if◌then◌else◌};
ghost use Rattle.ymx_model.specs.session.Pings.{no_pings, is_pending, has_back, has_asked, ping_is_back, staged, next_number, first_asked, ask, receive_answer, begin_ping, collect};
ghost use Rattle.ymx_machine.specs.shared.Limits.{most_pings};
ghost use Rattle.ymx_control.specs.PendingPings.{ArePingsSound};
ghost use Rattle.ymx_control.specs.Numbers.{ArePendingBefore};

use std::alloc::Global;
use std::marker::Model;
use ymx_memory::RefusedAllocation;
use ymx_model::PingStage;

/// A ping that was asked and not collected.
#[derive(Clone, Copy)]
struct Ping {
    number: u32,
    stage: PingStage,
}

impl Model for Ping {
    ghost use Rattle.ymx_model.specs.session.Pings.{Ping as OnePing};

    ghost Value = { OnePing };

    ghost view = { λ ping. record { number = ping.number; stage = ping.stage } };

    ghost inverse = { λ one. record { number = one.number; stage = one.stage } };
}

/// The own pings that were asked and not collected, at most 16, and the number that is tried next
/// (ping). A contract sees both, the pings in the order in which they were asked.
#[derive(Drop)]
pub struct Pings {
    next: u32,
    pending: Vec<Ping>,
}

impl Model for Pings {
    ghost use Rattle.std.specs.Prelude.{◌≤◌};
    ghost use Rattle.std.specs.Vec.{vec_capacity};
    ghost use Rattle.ymx_model.specs.session.Pings.{Pings as AllPings};
    ghost use Rattle.ymx_machine.specs.shared.Limits.{most_pings};
    ghost use Rattle.ymx_control.specs.PendingPings.{ArePingsSound};

    ghost Value = { AllPings };

    ghost view = { λ pings. record { next = pings.next; pending = pings.pending.items } };

    ghost invariant = { λ pings. ArePingsSound (record { next = pings.next; pending = pings.pending.items }) × (most_pings ≤ vec_capacity pings.pending) };
}

impl Pings {
    /// At most so many pings are pending.
    pub const LIMIT: usize = 16;

    /// No ping is pending, and the first will have the number 0. Takes the memory for all that will
    /// ever be pending.
    pub fn new(alloc: Global) -> Result<Pings, RefusedAllocation>
        ensures { IfOk result (λ pings. pings ≡ no_pings) }
    {
        Pings::starting(alloc, 0)
    }

    /// The same, but the first ping will have the number `next`.
    pub fn starting(alloc: Global, next: u32) -> Result<Pings, RefusedAllocation>
        ensures { IfOk result (λ pings. pings ≡ record { next = next; pending = [] }) }
    {
        let pending = ymx_memory::vec_with_capacity(alloc, Self::LIMIT)?;
        Ok(Pings { next, pending })
    }

    /// How many pings are pending.
    pub fn len(&self) -> usize
        ensures len { result ≡ length self.now.pending }
        ensures sound { ArePingsSound self.now }
    {
        self.pending.len()
    }

    /// Whether no ping is pending.
    pub fn is_empty(&self) -> bool
        ensures { result ≡ (length self.now.pending == 0) }
    {
        self.pending.is_empty()
    }

    /// Whether no further ping can be asked before one is collected.
    pub fn is_full(&self) -> bool
        ensures full { result ≡ (length self.now.pending == most_pings) }
        ensures sound { ArePingsSound self.now }
    {
        self.pending.len() == Self::LIMIT
    }

    /// A ping is asked: its frame is due. Its number is the first that is not pending, counted up
    /// from the one after the last ping's, with 0 after 4,294,967,295.
    pub fn ask(&mut self) -> u32
        requires { length self.old.pending < most_pings }
        ensures number { result ≡ next_number self.old }
        ensures asked { self.new ≡ ask self.old }
        ensures skipped { ArePendingBefore self.old.next result self.old.pending }
        ensures fresh { is_pending result self.old.pending ≡ false }
    {
        let number = next_number(self.pending.as_slice(), self.next);
        let stage = PingStage::Asked;
        self.pending.push(Ping { number, stage }).unwrap();
        self.next = number.wrapping_add(1);
        number
    }

    /// The answer to this ping has come, so that its frame, if not begun, is no longer due. Without
    /// effect on a number that is not pending.
    pub fn receive_answer(&mut self, number: u32)
        ensures { self.new ≡ receive_answer number self.old }
    {
        self.set_stage(number, PingStage::Back);
    }

    /// The frame of this ping begins, and so is no longer due. Only of a ping whose frame is due, as
    /// `next_due` gives: another's answer, if it is back, would be forgotten.
    pub fn begin_frame(&mut self, number: u32)
        requires { has_asked number self.old.pending ≡ true }
        ensures { self.new ≡ begin_ping number self.old }
    {
        self.set_stage(number, PingStage::Sent);
    }

    /// Collects this ping if its answer is back, and tells whether it is: the number is no longer
    /// pending then.
    pub fn collect(&mut self, number: u32) -> bool
        ensures back { result ≡ has_back number self.old.pending }
        ensures collected { self.new ≡ (if result then collect number self.old else self.old) }
    {
        match back_at(self.pending.as_slice(), number) {
            Some(place) => {
                self.pending.remove(place);
                true
            }
            None => false,
        }
    }

    /// The number of the ping that was asked first, of those whose frame is due.
    pub fn next_due(&self) -> Option<u32>
        ensures first { result ≡ first_asked self.now.pending }
        ensures due { IfSome result (λ number. has_asked number self.now.pending ≡ true) }
    {
        first_asked(self.pending.as_slice())
    }

    /// Whether the frame of a ping is due.
    pub fn has_due(&self) -> bool
        ensures { result ≡ is_some (first_asked self.now.pending) }
    {
        self.next_due().is_some()
    }

    /// The ping of this number is at this stage.
    fn set_stage(&mut self, number: u32, stage: PingStage)
        ensures { self.new ≡ record self.old { pending = staged stage number self.old.pending } }
    {
        if let Some(place) = index_of(self.pending.as_slice(), number) {
            self.pending[place] = Ping { number, stage };
        }
    }
}

/// The place of a number among the pings.
fn index_of(pending: &[Ping], number: u32) -> Option<usize>
    ensures first { result ≡ position (λ p. p.number == number) pending.now }
    ensures within { IfSome result (λ place. place < length pending.now) }
{
    pending.iter().position(|p| p.number == number)
}

/// Whether a number is among the pings.
fn is_pending(pending: &[Ping], number: u32) -> bool
    ensures { result ≡ is_pending number pending.now }
{
    index_of(pending, number).is_some()
}

/// The place of a ping whose answer is back.
fn back_at(pending: &[Ping], number: u32) -> Option<usize>
    ensures back { is_some result ≡ has_back number pending.now }
    ensures first { IfSome result (λ place. position (λ p. p.number == number) pending.now ≡ Some place) }
    ensures within { IfSome result (λ place. place < length pending.now) }
{
    let place = index_of(pending, number)?;
    let ping = pending[place];
    is_back(ping.stage).then_some(place)
}

/// Whether the answer is back at this stage.
fn is_back(stage: PingStage) -> bool
    ensures { result ≡ ping_is_back stage }
{
    stage == PingStage::Back
}

/// The first number from `next` on that is not pending. At most 16 are, so that one of 17 in a row
/// is not.
fn next_number(pending: &[Ping], next: u32) -> u32
    ensures { result ≡ next_number (record { next = next; pending = pending.now }) }
{
    let mut number = next;
    for _ in 0..=Pings::LIMIT {
        if !is_pending(pending, number) {
            return number;
        }
        number = number.wrapping_add(1);
    }
    number
}

/// The number of the first ping whose frame is due.
fn first_asked(pending: &[Ping]) -> Option<u32>
    ensures { result ≡ first_asked pending.now }
{
    for ping in pending {
        if ping.stage == PingStage::Asked {
            return Some(ping.number);
        }
    }
    None
}
