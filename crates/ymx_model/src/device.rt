//! Devices: where bytes come from, and where they go to.

ghost use Rattle.std.specs.Prelude.{ℕ, List, Option, Bool, ◌≡◌, ◌<◌, ◌≤◌, length, true, IfOk, MatchResult};
ghost use Rattle.std.specs.Io.KnownBytes.{Keeps, ReadConsumes, WriteAppends};
ghost use Rattle.ymx_model.specs.devices.Devices.{CountsFailures};

use thiserror::Error;

/// A call on a device failed. Which way is the device's own affair.
#[derive(Clone, Copy, Debug, PartialEq, Eq, Error)]
#[error("DeviceFault")]
pub struct DeviceFault;

/// Where bytes come from.
///
/// A contract sees the bytes that are still to come, where the device can tell them (a socket or
/// standard input cannot), and how many calls have failed.
pub trait Inlet {
    /// The bytes still to give, if the device can tell.
    ghost remaining: { Self → Option (List ℕ) };

    /// How many calls have failed.
    ghost failures: { Self → ℕ };

    /// Moves the next bytes into the front of the buffer, and answers how many. 0 into a buffer that
    /// isn't empty is the end: none are left. A call that fails moves none.
    fn pull(&mut self, buffer: &mut [u8]) -> Result<usize, DeviceFault>
        ensures within { IfOk result (λ count. count ≤ length buffer.old) }
        ensures moved { ReadConsumes (remaining self.old) (remaining self.new) result buffer.new }
        ensures counted { CountsFailures result (failures self.old) (failures self.new) };
}

/// Where bytes go to.
///
/// A contract sees the bytes that were taken so far, where the device can tell them, how many calls
/// have failed, and whether it was ended.
pub trait Outlet {
    /// The bytes taken so far, if the device can tell.
    ghost contents: { Self → Option (List ℕ) };

    /// How many calls have failed.
    ghost failures: { Self → ℕ };

    /// Whether a call of `end` has succeeded. A device that can't tell says `true` at all times.
    ghost is_ended: { Self → Bool };

    /// Takes the first of these bytes, and answers how many: at least 1 if there are any. A call that
    /// fails takes none.
    fn push(&mut self, bytes: &[u8]) -> Result<usize, DeviceFault>
        ensures within { IfOk result (λ count. count ≤ length bytes.now) }
        ensures some { 0 < length bytes.now → IfOk result (λ count. 0 < count) }
        ensures moved { WriteAppends (contents self.old) (contents self.new) result bytes.now }
        ensures counted { CountsFailures result (failures self.old) (failures self.new) }
        ensures open { is_ended self.new ≡ is_ended self.old };

    /// No more bytes will be pushed: closes the writing side. Takes nothing.
    fn end(&mut self) -> Result<(), DeviceFault>
        ensures kept { Keeps (contents self.old) (contents self.new) }
        ensures counted { CountsFailures result (failures self.old) (failures self.new) }
        ensures ended { MatchResult result (λ _. is_ended self.new ≡ true) (λ _. is_ended self.new ≡ is_ended self.old) };
}
