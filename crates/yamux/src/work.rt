//! What a program does with a session whose history stands in proofs.

use crate::connection::Shut;
use crate::host::Runtime;
use crate::session::Session;
use ymx_seats::{Naming, Seat, Witnessed};

/// What a program does with a session, whatever the name of the session's journal: a function that is generic, which no
/// closure can be. `T` is what it answers.
pub trait Work<W: Runtime, T> {
    ghost use Rattle.ymx_model.specs.declared.types.Role.{Role};
    ghost use Rattle.ymx_model.specs.declared.types.Config.{Config};
    ghost use Rattle.ymx_model.specs.declared.types.Entry.{Entry};
    ghost use Rattle.std.specs.Prelude.{List, Option};
    ghost use Rattle.ymx_seats.specs.Views.{IsNewcomer};

    /// What its answer promises, of a session of this role and config, and of its history as the caller has seen it after the
    /// work. `with_history` promises the same of the one history in which it closes the session.
    ghost Keeps: { Self → Role → Config → Option (List Entry) → T → Type 0 };

    /// Works with this session as this caller, who has made no call. Threads that it starts may work with the session too.
    fn run<S: Shut, J: Naming + Send + Sync>(
        self,
        session: &Session<W, S, Witnessed<J>>,
        caller: &mut Seat<Witnessed<J>>,
    ) -> T
        requires fresh { IsNewcomer caller.old.number caller.old.seen }
        ensures { Keeps self J.role J.config caller.new.seen result };
}
