//! Why no session is made.

ghost use Rattle.ymx_session.specs.declared.new_fault.NewFault.TheVariants.{OutOfMemory as OutOfMemoryFault};
ghost use Rattle.ymx_machine.specs.shared.Evidence.{evidence};

use std::error::Error;
use std::fmt;
use ymx_memory::RefusedAllocation;

/// Why no session was made. It prints its name alone.
#[derive(Clone, Copy, Debug, PartialEq, Eq)]
pub enum NewFault {
    /// 1: the window is below 262,144 bytes, or above 16,777,216 (flow control).
    BadWindow,
    /// 2: the first id is one that the peer opens: even at a client, odd at a server (stream
    /// identifiers).
    BadFirst,
    /// 3: there was no memory for the session. It holds the evidence: an allocation was refused.
    OutOfMemory(RefusedAllocation),
}

impl From<RefusedAllocation> for NewFault {
    ghost use Rattle.std.specs.Prelude.{◌≡◌};

    ghost from_gives = { λ _ fault. fault ≡ OutOfMemoryFault evidence };

    fn from(refused: RefusedAllocation) -> NewFault {
        NewFault::OutOfMemory(refused)
    }
}

impl fmt::Display for NewFault {
    fn fmt<W: fmt::Write>(&self, f: &mut fmt::Formatter<W>) -> fmt::Result {
        f.write_str(match self {
            NewFault::BadWindow => "BadWindow",
            NewFault::BadFirst => "BadFirst",
            NewFault::OutOfMemory(_) => "OutOfMemory",
        })
    }
}

impl Error for NewFault {}
