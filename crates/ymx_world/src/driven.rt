//! What settling a world answers.

ghost use Rattle.std.specs.Prelude.{◌≡◌};
ghost use Rattle.ymx_world.specs.Driven.{no_memory_of};

use ymx_memory::RefusalCount;
use ymx_model::Answer;

/// What `World::drive` did.
#[derive(Clone, Copy, Debug, PartialEq, Eq)]
pub struct Driven {
    /// Whether the world is quiet now (`World::quiet`). If not, something was stopped, ended, closed or broken, and the
    /// world was left as it is.
    pub quiet: bool,
    /// How many streams were refused on the way because there was no memory for them, at both sides together; at most
    /// 4,294,967,295. Only a refused allocation makes it grow.
    pub no_memory: RefusalCount,
}

/// How many streams a step refused for lack of memory, as its answer says.
pub(crate) fn refused_by(answer: &Answer) -> RefusalCount
    ensures { result ≡ no_memory_of answer.now }
{
    match answer {
        Answer::Fed(fed) => fed.no_memory,
        _ => RefusalCount::zero(),
    }
}
