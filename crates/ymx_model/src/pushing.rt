//! All of some bytes to an outlet.

ghost use Rattle.std.specs.Prelude.{ℕ, List, ◌≡◌, ◌≤◌, length, take, IfErr, IsTrue, OnOk, OnErr};
ghost use Rattle.std.specs.Io.{StartsWith};
ghost use Rattle.std.specs.Io.KnownBytes.{Appends};
ghost use Rattle.ymx_model.specs.devices.Devices.{has_failed};

use crate::device::Outlet;

/// Pushes all of these bytes. At a failure it answers how many the outlet has taken, a beginning of them.
pub fn push_all<O: Outlet>(outlet: &mut O, bytes: &[u8]) -> Result<(), usize>
    ensures ok { OnOk result (Appends (O.contents outlet.old) (O.contents outlet.new) bytes.now) }
    ensures kept { OnOk result (O.failures outlet.new ≡ O.failures outlet.old) }
    ensures taken { IfErr result (λ taken. (taken ≤ length bytes.now) × Appends (O.contents outlet.old) (O.contents outlet.new) (take taken bytes.now)) }
    ensures err { OnErr result ((part : List ℕ) × StartsWith bytes.now part × Appends (O.contents outlet.old) (O.contents outlet.new) part) }
    ensures failed { OnErr result (IsTrue (has_failed (O.failures outlet.old) (O.failures outlet.new))) }
{
    let mut taken = 0;
    'push: while taken < bytes.len() {
        match outlet.push(&bytes[taken..]) {
            Ok(count) => taken += count,
            Err(_) => return Err(taken),
        }
    }
    Ok(())
}
