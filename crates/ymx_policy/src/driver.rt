//! The loop that executes an endpoint's commands.

ghost use Rattle.std.specs.Prelude.{◌≡◌, List, [], ◌∷◌, Option, max};
ghost use Rattle.ymx_policy.specs.Past.{Adds, HasEnded};
ghost use Rattle.ymx_policy.specs.declared.commands.Command.{Command as Issued};
ghost use Rattle.ymx_policy.specs.declared.commands.Outcome.{Outcome as Observed};

use crate::commands::{Action, Command, Outcome};
use crate::machine::State;
use crate::plan::Terms;
use std::sync::Wait;

/// What executes commands: the system, or a test.
pub trait World {
    /// The commands and their outcomes, the newest first, if it records them.
    ghost log: { Self → Option (List (Issued × Observed)) };

    /// Logs the command's words in order (the first and the last only with `-v`), performs its action, and returns the
    /// outcome.
    fn perform(&mut self, command: Command) -> Outcome
        ensures { Adds ((command, result) ∷ []) (log self.old) (log self.new) };
}

/// Runs an endpoint, or one of its links, by these terms: executes its commands, and gives it their outcomes, until it ends.
/// Returns the exit status.
pub fn run<R: Wait, W: World>(rt: &R, terms: &Terms, world: &mut W) -> u8
    // It has ended with this status by the tables alone: each command was theirs.
    ensures { HasEnded terms.now result (W.log world.old) (W.log world.new) }
{
    let mut state = State::new(terms);
    for _ in rt.forever() {
        let command = state.next_command(terms);
        let outcome = world.perform(command);
        if let Action::End(status) = command.action {
            return status;
        }
        state.on_outcome(terms, outcome);
    }
    unreachable!()
}

/// The exit status of an endpoint whose links end with these: the greatest.
pub fn greatest(one: u8, other: u8) -> u8
    ensures { result ≡ max one other }
{
    one.max(other)
}
