//! A run from new sessions, as `World::play` gives it.

ghost use Rattle.std.specs.Prelude.{◌≡◌, [], OnOk, OnErr};
ghost use Rattle.ymx_world.specs.Played.{IsOneMore, IsSamePlay};

use crate::world::World;
use std::alloc::Global;
use ymx_memory::RefusedAllocation;
use ymx_model::{Answer, Step};
use ymx_session::NewFault;

/// A run from two new sessions: what each step answered, and whether the world was quiet after it.
#[derive(Drop)]
pub struct Played {
    /// The answer of each step that was made, in their order.
    pub answers: Vec<Answer>,
    /// Whether the world was quiet after each of them (`World::quiet`).
    pub quiet: Vec<bool>,
    /// The world after the last of them.
    pub world: World,
}

/// Why a run wasn't made, or not to its end.
#[derive(Drop)]
pub enum PlayFault {
    /// The client's session wasn't made, or else the server's.
    Refused(NewFault),
    /// There was no memory of the world's own for a step: this allocation was refused. The step did nothing, and no
    /// later one was made; these are the steps before it.
    Stopped(Played, RefusedAllocation),
}

impl Played {
    /// No step was made yet.
    pub(crate) fn new(alloc: Global, world: World) -> Played
        ensures answers { result.answers.items ≡ [] }
        ensures quiet { result.quiet.items ≡ [] }
        ensures world { result.world ≡ world }
    {
        Played {
            answers: Vec::new(alloc),
            quiet: Vec::new(alloc),
            world,
        }
    }

    /// Makes one more step. Where there is no memory for it nothing is done.
    pub(crate) fn play_step(&mut self, step: &Step) -> Result<(), RefusedAllocation>
        ensures made { OnOk result (IsOneMore step.now self.old self.new) }
        ensures same { OnErr result (IsSamePlay self.old self.new) }
    {
        ymx_memory::reserve(&mut self.answers, 1)?;
        ymx_memory::reserve(&mut self.quiet, 1)?;
        let answer = self.world.step(step)?;
        self.answers.push_reserved(answer);
        self.quiet.push_reserved(self.world.quiet());
        Ok(())
    }
}
