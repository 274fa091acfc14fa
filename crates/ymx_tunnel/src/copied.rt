//! How a copy ended.

ghost use Rattle.std.specs.Prelude.{MatchResult};
ghost use Rattle.ymx_tunnel.specs.Copies.{EndsWell, StopsAt};

use ymx_hub::HubFault;
use ymx_memory::RefusedAllocation;
use ymx_model::CallFault;

/// Why a copy ended.
#[derive(Clone, Copy, Debug, PartialEq, Eq)]
pub enum CopyWhy {
    /// All was copied, and the end was passed on.
    End,
    /// What it was copied from failed: the reader, or the half of the stream for another reason than the two below, as
    /// that the session was closed, or that there was no memory.
    Source,
    /// What it was copied to failed: the writer, or the half of the stream for such a reason.
    Sink,
    /// The stream was reset.
    Reset,
    /// The session was lost.
    Lost,
}

/// The end of a copy.
#[derive(Drop)]
pub struct Copied<L> {
    /// How many bytes were copied; it stays at the greatest `u64`.
    pub bytes: u64,
    /// Why it ended.
    pub why: CopyWhy,
    /// The half of the stream refused for lack of memory. It holds the evidence: an allocation was refused.
    pub lack: Option<RefusedAllocation>,
    /// What is left of the half of the stream.
    pub left: L,
}

/// How a copy stopped whose half is not spent yet.
#[derive(Drop)]
pub(crate) struct Stop {
    /// How many bytes were copied.
    pub(crate) bytes: u64,
    /// Why it stopped.
    pub(crate) why: CopyWhy,
    /// The lack of memory, if that was it.
    pub(crate) lack: Option<RefusedAllocation>,
}

/// Why a copy ends at a fault of its half: of the stream, of the session, or else of the half itself. Beside it the want
/// of memory, if that was the fault.
pub(crate) fn why_of_fault(fault: HubFault, own: CopyWhy) -> (CopyWhy, Option<RefusedAllocation>)
    ensures { StopsAt fault own result.0 result.1 }
{
    match fault {
        HubFault::Call(CallFault::Reset) => (CopyWhy::Reset, None),
        HubFault::Call(CallFault::Lost) => (CopyWhy::Lost, None),
        HubFault::Memory(refused) => (own, Some(refused)),
        HubFault::Call(_) | HubFault::Seats(_) | HubFault::Releases(_) => (own, None),
    }
}

/// Why a copy ends whose sink answered its finish so.
pub(crate) fn why_of_finish(finished: Result<(), HubFault>) -> (CopyWhy, Option<RefusedAllocation>)
    ensures { MatchResult finished (λ _. EndsWell result.0 result.1) (λ fault. StopsAt fault CopyWhy.Sink result.0 result.1) }
{
    match finished {
        Ok(()) => (CopyWhy::End, None),
        Err(fault) => why_of_fault(fault, CopyWhy::Sink),
    }
}
