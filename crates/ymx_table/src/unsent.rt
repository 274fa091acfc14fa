//! How many bytes of all streams are unsent.

ghost use Rattle.std.specs.Prelude.{◌≡◌, ◌+◌, ◌*◌, ◌<◌, ◌≤◌, ◌^◌};
ghost use Rattle.ymx_machine.specs.shared.Limits.{most_records};
ghost use Rattle.ymx_table.specs.Unsent.{unsent_sum};

use crate::Table;

impl Table {
    /// How many bytes of all streams were written and stand in no frame begun yet. No record is looked at.
    pub fn unsent_sum(&self) -> u128
        ensures { result ≡ unsent_sum self.now }
    {
        self.unsent
    }
}

/// The sum once one of its parts has changed, which was `before` and is `after`.
pub(crate) fn retotal(total: u128, before: usize, after: usize) -> u128
    requires part { before ≤ total }
    requires few { total ≤ most_records * 2 ^ 64 }
    ensures { result + before ≡ total + after }
{
    total - before as u128 + after as u128
}
