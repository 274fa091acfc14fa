//! The evidence that a hub has no seat left.

ghost use Rattle.std.specs.Prelude.{◌≡◌, ◌+◌, ◌^◌, ◌<◌, ◌≤◌, IfErr, OnOk};

use std::fmt;

/// A hub had not enough seats left: it gives 4,294,967,295 in all. It takes no bytes.
///
/// Only `ymx_hub` makes one, where it refuses seats. A contract sees nothing in it: that it is there says all.
#[derive(Clone, Copy, PartialEq, Eq)]
pub struct RefusedSeat {
    seal: (),
}

impl fmt::Debug for RefusedSeat {
    fn fmt<W: fmt::Write>(&self, f: &mut fmt::Formatter<W>) -> fmt::Result {
        f.write_str("RefusedSeat")
    }
}

/// Whether so many more seats can be given, where so many were.
pub(crate) fn seats_left(given: u32, wanted: u32) -> Result<(), RefusedSeat>
    ensures left { OnOk result (given + wanted < 2 ^ 32) }
    ensures refused { IfErr result (λ _. 2 ^ 32 ≤ given + wanted) }
{
    if given > u32::MAX - wanted {
        return Err(RefusedSeat { seal: () });
    }
    Ok(())
}
