//! Why a call of a hub fails.

ghost use Rattle.std.specs.Prelude.{◌≡◌};
ghost use Rattle.ymx_hub.specs.Answers.{hub_answer, hub_fault_of, refused_seat, refused_release};
ghost use Rattle.ymx_machine.specs.shared.Evidence.{evidence};

use crate::refused_seat::RefusedSeat;
use crate::released_ids::RefusedRelease;
use thiserror::Error;
use ymx_memory::RefusedAllocation;
use ymx_model::CallFault;

/// Why a call of a hub fails.
#[derive(Clone, Copy, Debug, PartialEq, Eq, Error)]
pub enum HubFault {
    /// The session refused it. `OutOfMemory` never stands here.
    #[error("{0}")]
    Call(CallFault),
    /// There was no memory, for the session, for its halves or for the entry of the event. It holds the evidence: an
    /// allocation was refused.
    #[error("Memory")]
    Memory(RefusedAllocation),
    /// Not enough seats were left, of 4,294,967,295 in all. It holds the evidence.
    #[error("Seats")]
    Seats(RefusedSeat),
    /// No stream more could be released, of 1,024, which no one session has. It holds the evidence.
    #[error("Releases")]
    Releases(RefusedRelease),
}

impl From<RefusedAllocation> for HubFault {
    ghost use Rattle.std.specs.Prelude.{◌≡◌};
    ghost use Rattle.ymx_hub.specs.declared.faults.HubFault.TheVariants.{Memory};

    ghost from_gives = { λ _ fault. fault ≡ Memory evidence };

    fn from(refused: RefusedAllocation) -> HubFault {
        HubFault::Memory(refused)
    }
}

impl From<RefusedSeat> for HubFault {
    ghost use Rattle.std.specs.Prelude.{◌≡◌};
    ghost use Rattle.ymx_hub.specs.declared.faults.HubFault.TheVariants.{Seats};

    ghost from_gives = { λ _ fault. fault ≡ Seats refused_seat };

    fn from(refused: RefusedSeat) -> HubFault {
        HubFault::Seats(refused)
    }
}

impl From<RefusedRelease> for HubFault {
    ghost use Rattle.std.specs.Prelude.{◌≡◌};
    ghost use Rattle.ymx_hub.specs.declared.faults.HubFault.TheVariants.{Releases};

    ghost from_gives = { λ _ fault. fault ≡ Releases refused_release };

    fn from(refused: RefusedRelease) -> HubFault {
        HubFault::Releases(refused)
    }
}

/// What a hub answers for a refusal of its session.
pub(crate) fn hub_fault(fault: CallFault) -> HubFault
    ensures { result ≡ hub_fault_of fault }
{
    match fault {
        CallFault::OutOfMemory(refused) => HubFault::Memory(refused),
        other => HubFault::Call(other),
    }
}

/// What a hub answers for what its session answered.
pub(crate) fn answered<T: Drop>(given: Result<T, CallFault>) -> Result<T, HubFault>
    ensures { result ≡ hub_answer given }
{
    match given {
        Ok(answer) => Ok(answer),
        Err(fault) => Err(hub_fault(fault)),
    }
}
