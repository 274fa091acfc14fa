//! Devices in memory, whose bytes and failures a contract sees.

ghost use Rattle.std.specs.Prelude.{◌≡◌, ◌↔◌, ◌<◌, ◌≤◌, ◌^◌, ◌-◌, [], ◌++◌, ◌||◌, ◌==◌, length, take, drop, min, true, false, IsErr, IfOk, OnOk, OnErr, IsTrue, Some, None};
ghost use Rattle.std.specs.Io.KnownBytes.{Keeps, ReadConsumes, WriteAppends};
ghost use Rattle.ymx_model.specs.devices.Devices.{CountsFailures, most_failures};
ghost use Rattle.ymx_model.specs.devices.Memories.{call_fails, after_failure, is_turn, after_success, turn_after};

use crate::device::{DeviceFault, Inlet, Outlet};
use std::alloc::Global;
use std::marker::Model;

/// Bytes in memory as an inlet, for tests: it may give few bytes a call, and fail at one of them.
#[derive(Drop)]
pub struct MemoryInlet<'a> {
    bytes: &'a [u8],
    most: usize,
    before_failure: Option<u64>,
    failures: u64,
}

impl<'a> Model for MemoryInlet<'a> {
    ghost use Rattle.std.specs.Prelude.{◌<◌, false};
    ghost use Rattle.ymx_model.specs.devices.Memories.{Memory};

    ghost Value = { Memory };

    ghost view = { λ s. record { bytes = s.bytes.now; most = s.most; before_failure = s.before_failure; failures = s.failures; is_ended = false } };

    ghost invariant = { λ s. 0 < s.most };
}

impl<'a> MemoryInlet<'a> {
    /// An inlet that gives these bytes, as many a call as fit, and never fails.
    pub fn new(bytes: &'a [u8]) -> MemoryInlet<'a>
        ensures { result ≡ record { bytes = bytes.entry.now; most = 2 ^ 64 - 1; before_failure = None; failures = 0; is_ended = false } }
    {
        MemoryInlet {
            bytes,
            most: usize::MAX,
            before_failure: None,
            failures: 0,
        }
    }

    /// The same, with at most so many bytes a call.
    pub fn in_pieces(self, most: usize) -> MemoryInlet<'a>
        requires { 0 < most }
        ensures { result ≡ record self.entry { most = most } }
    {
        MemoryInlet { most, ..self }
    }

    /// The same, but after so many more pulls one fails. Later pulls go on.
    pub fn failing_after(self, pulls: u64) -> MemoryInlet<'a>
        ensures { result ≡ record self.entry { before_failure = Some pulls } }
    {
        MemoryInlet {
            before_failure: Some(pulls),
            ..self
        }
    }

    /// The same, having failed so often already. At the greatest `u64` each call fails.
    pub fn having_failed(self, failures: u64) -> MemoryInlet<'a>
        ensures { result ≡ record self.entry { failures = failures } }
    {
        MemoryInlet { failures, ..self }
    }
}

impl Inlet for MemoryInlet<'_> {
    ghost remaining = { λ s. Some s.bytes };

    ghost failures = { λ s. s.failures };

    fn pull(&mut self, buffer: &mut [u8]) -> Result<usize, DeviceFault>
        ensures within { IfOk result (λ count. count ≤ length buffer.old) }
        ensures moved { ReadConsumes (Some self.old.bytes) (Some self.new.bytes) result buffer.new }
        ensures counted { CountsFailures result self.old.failures self.new.failures }
        ensures fails { IsErr result ↔ IsTrue (call_fails self.old) }
        ensures count { IfOk result (λ count. count ≡ min self.old.most (min (length buffer.old) (length self.old.bytes))) }
        ensures gave { IfOk result (λ count. self.new ≡ after_success self.old (drop count self.old.bytes)) }
        ensures err { OnErr result (self.new ≡ after_failure self.old) }
    {
        next_call(&mut self.before_failure, &mut self.failures)?;
        let count = self.most.min(buffer.len()).min(self.bytes.len());
        let (given, kept) = self.bytes.split_at(count);
        buffer[..count].copy_from_slice(given);
        self.bytes = kept;
        Ok(count)
    }
}

/// An outlet into memory, for tests: it may take few bytes a call, and fail at one of them.
#[derive(Drop)]
pub struct MemoryOutlet {
    bytes: Vec<u8>,
    most: usize,
    before_failure: Option<u64>,
    failures: u64,
    is_ended: bool,
}

impl Model for MemoryOutlet {
    ghost use Rattle.std.specs.Prelude.{◌<◌};
    ghost use Rattle.ymx_model.specs.devices.Memories.{Memory};

    ghost Value = { Memory };

    ghost view = { λ s. record { bytes = s.bytes.items; most = s.most; before_failure = s.before_failure; failures = s.failures; is_ended = s.is_ended } };

    ghost invariant = { λ s. 0 < s.most };
}

impl MemoryOutlet {
    /// An outlet that has taken nothing, takes all bytes of a call, and fails only where there is no
    /// memory for them.
    pub fn new(alloc: Global) -> MemoryOutlet
        ensures { result ≡ record { bytes = []; most = 2 ^ 64 - 1; before_failure = None; failures = 0; is_ended = false } }
    {
        MemoryOutlet {
            bytes: Vec::new(alloc),
            most: usize::MAX,
            before_failure: None,
            failures: 0,
            is_ended: false,
        }
    }

    /// The same, with at most so many bytes a call.
    pub fn in_pieces(self, most: usize) -> MemoryOutlet
        requires { 0 < most }
        ensures { result ≡ record self { most = most } }
    {
        MemoryOutlet { most, ..self }
    }

    /// The same, but after so many more calls one call fails. Later calls go on.
    pub fn failing_after(self, calls: u64) -> MemoryOutlet
        ensures { result ≡ record self { before_failure = Some calls } }
    {
        MemoryOutlet {
            before_failure: Some(calls),
            ..self
        }
    }

    /// The same, having failed so often already. At the greatest `u64` each call fails.
    pub fn having_failed(self, failures: u64) -> MemoryOutlet
        ensures { result ≡ record self { failures = failures } }
    {
        MemoryOutlet { failures, ..self }
    }

    /// The bytes taken so far.
    pub fn as_slice(&self) -> &[u8]
        ensures { result.now ≡ self.now.bytes }
    {
        self.bytes.as_slice()
    }
}

impl Outlet for MemoryOutlet {
    ghost contents = { λ s. Some s.bytes };

    ghost failures = { λ s. s.failures };

    ghost is_ended = { λ s. s.is_ended };

    fn push(&mut self, bytes: &[u8]) -> Result<usize, DeviceFault>
        ensures within { IfOk result (λ count. count ≤ length bytes.now) }
        ensures some { 0 < length bytes.now → IfOk result (λ count. 0 < count) }
        ensures moved { WriteAppends (Some self.old.bytes) (Some self.new.bytes) result bytes.now }
        ensures counted { CountsFailures result self.old.failures self.new.failures }
        ensures fails { IsTrue (call_fails self.old) → IsErr result }
        ensures count { IfOk result (λ count. count ≡ min self.old.most (length bytes.now)) }
        ensures took { IfOk result (λ count. self.new ≡ after_success self.old (self.old.bytes ++ take count bytes.now)) }
        ensures err { OnErr result (self.new ≡ after_failure self.old) }
    {
        next_call(&mut self.before_failure, &mut self.failures)?;
        let count = self.most.min(bytes.len());
        if self.bytes.extend_from_slice(&bytes[..count]).is_err() {
            self.failures += 1;
            return Err(DeviceFault);
        }
        Ok(count)
    }

    fn end(&mut self) -> Result<(), DeviceFault>
        ensures kept { Keeps (Some self.old.bytes) (Some self.new.bytes) }
        ensures counted { CountsFailures result self.old.failures self.new.failures }
        ensures fails { IsErr result ↔ IsTrue (call_fails self.old) }
        ensures ok { OnOk result (self.new ≡ record (after_success self.old self.old.bytes) { is_ended = true }) }
        ensures err { OnErr result (self.new ≡ after_failure self.old) }
    {
        next_call(&mut self.before_failure, &mut self.failures)?;
        self.is_ended = true;
        Ok(())
    }
}

/// Counts a call down, and answers whether it goes on.
fn next_call(before_failure: &mut Option<u64>, failures: &mut u64) -> Result<(), DeviceFault>
    ensures fails { IsErr result ↔ IsTrue (is_turn before_failure.old || failures.old == most_failures) }
    ensures turn { before_failure.new ≡ turn_after before_failure.old }
    ensures counted { CountsFailures result failures.old failures.new }
{
    let turn = *before_failure;
    *before_failure = match turn {
        None | Some(0) => None,
        Some(calls) => Some(calls - 1),
    };
    if turn == Some(0) || *failures == u64::MAX {
        *failures = failures.saturating_add(1);
        return Err(DeviceFault);
    }
    Ok(())
}
