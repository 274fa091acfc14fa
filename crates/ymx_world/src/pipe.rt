//! One direction of the world.

ghost use Rattle.std.specs.Prelude.{◌≡◌, ◌≤◌, ◌↔◌, false, length, take, vec_len, IsTrue, IfOk, OnOk, OnErr};
ghost use Rattle.ymx_model.specs.world.Worlds.{new_pipe, pushed, without_front, stopped_now, is_quiet_pipe};
ghost use Rattle.ymx_headline.specs.audit.Joints.{ended_pipe};
ghost use Rattle.ymx_world.specs.Acts.{IsAppended, IsEmitted, IsFed, IsEnded};
ghost use Rattle.ymx_world.specs.Driven.{is_open_pipe};

use std::alloc::Global;
use std::marker::Model;
use ymx_memory::RefusedAllocation;
use ymx_model::{Answer, Fed};
use ymx_session::Session;

/// The bytes that one session has emitted and the other not yet taken, in order. A contract sees them, and
/// whether the pipe was stopped and its end told.
#[derive(Drop)]
pub(crate) struct Pipe {
    bytes: Vec<u8>,
    /// How many of `bytes`, at their front, were delivered.
    delivered: usize,
    stopped: bool,
    ended: bool,
}

impl Model for Pipe {
    ghost use Rattle.std.specs.Prelude.{drop, vec_len, ◌≤◌};
    ghost use Rattle.ymx_model.specs.world.Worlds.{Pipe as PipeValue};

    ghost Value = { PipeValue };

    ghost view = { λ p. record { bytes = drop p.delivered p.bytes.items; stopped = p.stopped; ended = p.ended } };

    ghost invariant = { λ p. p.delivered ≤ vec_len p.bytes };
}

impl Pipe {
    /// Nothing is on its way.
    pub(crate) fn new(alloc: Global) -> Pipe
        ensures { result ≡ new_pipe }
    {
        Pipe {
            bytes: Vec::new(alloc),
            delivered: 0,
            stopped: false,
            ended: false,
        }
    }

    /// The bytes on their way.
    pub(crate) fn bytes(&self) -> &[u8]
        ensures { result.now ≡ self.now.bytes }
    {
        &self.bytes[self.delivered..]
    }

    /// Whether it is empty, and was neither stopped nor ended.
    pub(crate) fn is_quiet(&self) -> bool
        ensures { result ≡ is_quiet_pipe self.now }
    {
        self.bytes().is_empty() && !self.stopped && !self.ended
    }

    /// Whether it was neither stopped nor ended.
    pub(crate) fn is_open(&self) -> bool
        ensures { result ≡ is_open_pipe self.now }
    {
        !self.stopped && !self.ended
    }

    /// One emission into the first `room` bytes of `buffer`, which grows where it is shorter. What is emitted
    /// goes onto the pipe, or vanishes where it was stopped. Where there is no memory nothing is done.
    pub(crate) fn emit_from(
        &mut self,
        sender: &mut Session,
        buffer: &mut Vec<u8>,
        room: usize,
    ) -> Result<usize, RefusedAllocation>
        ensures emitted { IfOk result (λ count. IsEmitted room count sender.old sender.new self.old self.new) }
        ensures kept { OnErr result (sender.new ≡ sender.old) }
        ensures same { OnErr result (self.new ≡ self.old) }
    {
        lengthen(buffer, room)?;
        let into = &mut buffer.as_mut_slice()[..room];
        if self.stopped {
            return Ok(sender.emit(into));
        }
        self.compact();
        self.push_emission(sender, into)
    }

    /// One emission into this buffer goes onto the pipe, which was not stopped.
    fn push_emission(
        &mut self,
        sender: &mut Session,
        buffer: &mut [u8],
    ) -> Result<usize, RefusedAllocation>
        requires { self.old.stopped ≡ false }
        ensures emitted { IfOk result (λ count. IsEmitted (length buffer.old) count sender.old sender.new self.old self.new) }
        ensures kept { OnErr result (sender.new ≡ sender.old) }
        ensures same { OnErr result (self.new ≡ self.old) }
    {
        append_emission(&mut self.bytes, sender, buffer)
    }

    /// The first `count` bytes (all if there are fewer) are fed to the receiver, and those that it takes leave
    /// the pipe.
    pub(crate) fn deliver_to(&mut self, receiver: &mut Session, count: usize) -> Fed
        ensures { IsFed count result receiver.old receiver.new self.old self.new }
    {
        let fed = {
            let bytes = self.bytes();
            let count = count.min(bytes.len());
            receiver.feed(&bytes[..count])
        };
        self.delivered += fed.taken;
        fed
    }

    /// It loses what it carries, now and from now on.
    pub(crate) fn stop(&mut self)
        ensures { self.new ≡ stopped_now self.old }
    {
        self.bytes.clear();
        self.delivered = 0;
        self.stopped = true;
    }

    /// The receiver learns that the bytes have ended, if the pipe was stopped.
    pub(crate) fn end_at(&mut self, receiver: &mut Session) -> Answer
        ensures { IsEnded result receiver.old receiver.new self.old self.new }
    {
        if !self.stopped {
            return Answer::NotStopped;
        }
        receiver.feed_end();
        self.ended = true;
        Answer::Done
    }

    /// Moves the bytes on their way to the front, once more than half of all were delivered.
    fn compact(&mut self)
        ensures { self.new ≡ self.old }
    {
        let len = self.bytes.len();
        if self.delivered <= len / 2 {
            return;
        }
        let left = len - self.delivered;
        self.bytes.copy_within(self.delivered..len, 0);
        self.bytes.truncate(left);
        self.delivered = 0;
    }

    // ---- while histories are joined

    /// Whether its end was told.
    pub(crate) fn is_ended(&self) -> bool
        ensures { result ≡ self.now.ended }
    {
        self.ended
    }

    /// Bytes go onto it, or vanish where it was stopped.
    pub(crate) fn push(&mut self, bytes: &[u8]) -> Result<(), RefusedAllocation>
        ensures { OnOk result (self.new ≡ pushed bytes.now self.old) }
    {
        if self.stopped {
            return Ok(());
        }
        ymx_memory::extend(&mut self.bytes, bytes)?;
        Ok(())
    }

    /// Takes the first `count` bytes where these are the front.
    pub(crate) fn take_front(&mut self, front: &[u8], count: usize) -> bool
        ensures taken { IsTrue result → (count ≤ length front.now) × (length front.now ≤ length self.old.bytes) × (take (length front.now) self.old.bytes ≡ front.now) × (self.new ≡ without_front count self.old) }
        ensures same { result ≡ false → self.new ≡ self.old }
        ensures none { result ≡ false → count ≤ length front.now → length front.now ≤ length self.old.bytes → take (length front.now) self.old.bytes ≡ front.now → ⊥ }
    {
        if count > front.len() || !is_front(self.bytes(), front) {
            return false;
        }
        self.delivered += count;
        true
    }

    /// It is stopped, and its end is reported.
    pub(crate) fn end(&mut self)
        ensures { self.new ≡ ended_pipe }
    {
        self.delivered = self.bytes.len();
        self.stopped = true;
        self.ended = true;
    }
}

/// A buffer that is shorter is made so long.
fn lengthen(buffer: &mut Vec<u8>, length: usize) -> Result<(), RefusedAllocation>
    ensures { OnOk result (length ≤ vec_len buffer.new) }
{
    if buffer.len() < length {
        ymx_memory::resize_as_asked(buffer, length)?;
    }
    Ok(())
}

/// One emission into this buffer is appended to these bytes.
fn append_emission(
    bytes: &mut Vec<u8>,
    sender: &mut Session,
    buffer: &mut [u8],
) -> Result<usize, RefusedAllocation>
    ensures emitted { IfOk result (λ count. IsAppended (length buffer.old) count sender.old sender.new bytes.old.items bytes.new.items) }
    ensures kept { OnErr result (sender.new ≡ sender.old) }
    ensures same { OnErr result (bytes.new.items ≡ bytes.old.items) }
{
    ymx_memory::reserve_for(bytes, buffer)?;
    let count = sender.emit(buffer);
    bytes.extend_from_slice(&buffer[..count]).unwrap();
    Ok(count)
}

/// Whether these bytes are the front of those.
fn is_front(bytes: &[u8], front: &[u8]) -> bool
    ensures { IsTrue result ↔ (length front.now ≤ length bytes.now) × (take (length front.now) bytes.now ≡ front.now) }
{
    if front.len() > bytes.len() {
        return false;
    }
    &bytes[..front.len()] == front
}
