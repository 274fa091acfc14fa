//! Two transcripts, a client's and a server's, as one run of the queue machine.
ghost use Rattle.std.specs.Prelude.{◌≡◌, List, IfOk, IfSome, IfNone};
ghost use Rattle.ymx_model.specs.declared.types.Role.TheVariants.{Client, Server};
ghost use Rattle.ymx_machine.specs.declared.types.Step.{Step as TheStep};
ghost use Rattle.ymx_headline.specs.audit.Joints.{IsJointOrder};
ghost use Rattle.ymx_joined.specs.Certified.{AreCertified};

use std::alloc::Global;
use ymx_memory::RefusedAllocation;
use ymx_model::Step;
use ymx_seats::Transcript;
use ymx_world::World;

/// Finds steps in which the histories of a client's and a server's session are one run, of the two sessions joined by
/// pipes and of the queue machine. `None` only where the two have no joint order. `RefusedAllocation` where there is no memory
/// for the steps.
///
/// It is `World::audit` of the transcripts' entries. A transcript is the history of a session by its own invariant, so
/// nothing but the roles is asked of the caller, who finds them by `Transcript::role`.
pub fn certify(
    alloc: Global,
    client: &Transcript,
    server: &Transcript,
) -> Result<Option<Vec<Step>>, RefusedAllocation>
    requires client { client.now.role ≡ Client }
    requires server { server.now.role ≡ Server }
    ensures one_run { IfOk result (λ found. IfSome found (λ steps. AreCertified client.now server.now steps.items)) }
    ensures none { IfOk result (λ found. IfNone found ((steps : List TheStep) → IsJointOrder client.now.entries server.now.entries steps → ⊥)) }
{
    World::audit(alloc, client.entries(), server.entries())
}
