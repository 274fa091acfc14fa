//! How many own streams the peer has not acknowledged.

ghost use Rattle.std.specs.Prelude.{◌≡◌, count_by};
ghost use Rattle.ymx_model.specs.session.Calls.{is_unacknowledged};

use crate::Table;
use ymx_half::{Stage, StreamRec};
use ymx_model::Role;

impl Table {
    /// How many streams that this side opened are neither acknowledged nor reset nor given up (flags). Each
    /// record is looked at.
    pub fn unacknowledged_count(&self, role: Role) -> usize
        ensures { result ≡ count_by (is_unacknowledged role) self.now.entries }
    {
        self.records
            .iter()
            .filter(|(id, stream)| is_unacknowledged(role, **id, stream))
            .count()
    }
}

/// Whether the stream of this id is such a one.
fn is_unacknowledged(role: Role, id: u32, stream: &StreamRec) -> bool
    ensures { result ≡ is_unacknowledged role (id, stream.now) }
{
    role.is_own(id) && stream.stage() == Stage::Live && !stream.is_acknowledged()
}
