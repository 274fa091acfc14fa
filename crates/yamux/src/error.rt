//! Why a call of a session or of a stream fails.

use std::{error, fmt};
use ymx_connect::PumpWhy;
use ymx_header::Fault;
use ymx_hub::{HubFault, Undrained, WriteFault};
use ymx_memory::RefusedAllocation;
use ymx_model::CallFault;
use ymx_session::NewFault;

/// Why a call fails. Its text says what to do.
#[derive(Clone, Copy, Debug, PartialEq, Eq)]
pub enum Error {
    /// The window of the config is below 262,144 bytes or above 16,777,216.
    BadWindow,
    /// The first id of the config is one that the peer opens: even at a client, odd at a server.
    BadFirst,
    /// This side has closed the session.
    Closed,
    /// The connection has ended or failed, or the session broke.
    Lost,
    /// The peer broke the rules, so the session broke. `Session::close` says it, other calls say `Lost`.
    Broken(Fault),
    /// The stream was reset, here or by the peer.
    Reset,
    /// The stream was finished here.
    Finished,
    /// The peer takes no more streams: it has said Go Away.
    PeerAway,
    /// 256 own streams are neither acknowledged, reset nor given up.
    OpensPending,
    /// 1,024 streams are there.
    TooMany,
    /// The ids of streams are used up, or some 1,431,655,764 streams were opened and accepted: each takes three of 4,294,967,295 seats, and
    /// a ping or a call that is refused takes one.
    Exhausted,
    /// 16 pings wait for their answers.
    PingsPending,
    /// There was no memory. It holds the evidence: an allocation was refused.
    Memory(RefusedAllocation),
    /// A thread of the session couldn't be made.
    NoThread,
}

impl fmt::Display for Error {
    fn fmt<W: fmt::Write>(&self, f: &mut fmt::Formatter<W>) -> fmt::Result {
        let text = match self {
            Error::BadWindow => "BadWindow: give a window from 262,144 to 16,777,216 bytes",
            Error::BadFirst =>
                "BadFirst: give an odd first id to a client, an even one to a server, or 0",
            Error::Closed => "Closed: this side has closed the session; make another",
            Error::Lost => "Lost: the connection has ended or failed; connect again",
            Error::Broken(fault) => {
                f.write_str("Broken: the peer broke the rules of yamux (")?;
                fmt::Display::fmt(fault, f)?;
                "); see that it speaks yamux, and has the other role"
            }
            Error::Reset => "Reset: the stream was cut off; take what came of it for a part",
            Error::Finished => "Finished: the stream was finished here; open another to write more",
            Error::PeerAway =>
                "PeerAway: the peer takes no more streams; open them in another session",
            Error::OpensPending =>
                "OpensPending: 256 streams wait for the peer; open more once it has accepted some",
            Error::TooMany => "TooMany: 1,024 streams are there; close some first",
            Error::Exhausted => "Exhausted: this session has had all its streams; make another",
            Error::PingsPending => "PingsPending: 16 pings wait; ping again once one was answered",
            Error::Memory(_) => "Memory: there was none; free some",
            Error::NoThread => "NoThread: no thread could be made; end some",
        };
        f.write_str(text)
    }
}

impl error::Error for Error {}

impl From<RefusedAllocation> for Error {
    ghost use Rattle.std.specs.Prelude.{◌≡◌};
    ghost use Rattle.yamux.specs.declared.error.Error.TheVariants.{Memory};
    ghost use Rattle.ymx_machine.specs.shared.Evidence.{evidence};

    ghost from_gives = { λ _ error. error ≡ Memory evidence };

    fn from(refused: RefusedAllocation) -> Error {
        Error::Memory(refused)
    }
}

impl From<NewFault> for Error {
    fn from(fault: NewFault) -> Error {
        match fault {
            NewFault::BadWindow => Error::BadWindow,
            NewFault::BadFirst => Error::BadFirst,
            NewFault::OutOfMemory(refused) => Error::Memory(refused),
        }
    }
}

impl From<CallFault> for Error {
    fn from(fault: CallFault) -> Error {
        match fault {
            CallFault::NoStream | CallFault::Reset => Error::Reset,
            CallFault::Finished => Error::Finished,
            CallFault::Lost => Error::Lost,
            CallFault::Closed => Error::Closed,
            CallFault::PeerAway => Error::PeerAway,
            CallFault::OpensPending => Error::OpensPending,
            CallFault::TooMany => Error::TooMany,
            CallFault::Exhausted => Error::Exhausted,
            CallFault::PingsPending => Error::PingsPending,
            CallFault::OutOfMemory(refused) => Error::Memory(refused),
        }
    }
}

impl From<HubFault> for Error {
    fn from(fault: HubFault) -> Error {
        match fault {
            HubFault::Call(fault) => Error::from(fault),
            HubFault::Memory(refused) => Error::Memory(refused),
            HubFault::Seats(_) => Error::Exhausted,
            HubFault::Releases(_) => Error::TooMany,
        }
    }
}

impl From<WriteFault> for Error {
    fn from(stop: WriteFault) -> Error {
        Error::from(stop.fault)
    }
}

impl From<Undrained> for Error {
    fn from(_undrained: Undrained) -> Error {
        Error::Lost
    }
}

/// What a pump's end says of the session.
pub(crate) fn said_by(why: PumpWhy) -> Result<(), Error> {
    match why {
        PumpWhy::End | PumpWhy::Gate => Ok(()),
        PumpWhy::Device => Err(Error::Lost),
        PumpWhy::Broken(fault) => Err(Error::Broken(fault)),
        PumpWhy::Memory(refused) => Err(Error::Memory(refused)),
        PumpWhy::NoThread => Err(Error::NoThread),
    }
}
