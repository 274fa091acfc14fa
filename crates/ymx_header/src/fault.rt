//! The faults that break a session.

use std::error::Error;
use std::fmt;

/// Why a session broke. A fault is printed as its number after a B, as `B5`.
///
/// From `BadVersion` to `BadGoAwayCode` this side found the fault, and tells the peer by a Go Away
/// frame with the code for a protocol error. The last two are what the peer's own Go Away frame said.
#[derive(Clone, Copy, Debug, PartialEq, Eq)]
pub enum Fault {
    /// B1: the version of a frame is not 0 (framing).
    BadVersion,
    /// B2: the type of a frame is above 3 (framing).
    UnknownType,
    /// B3: a SYN for stream 0, or for an id that only this side may open (stream identifiers).
    BadSyn,
    /// B4: a SYN for a stream that is there already (stream identifiers).
    StreamInUse,
    /// B5: a Data frame longer than the frame limit, or than the window granted (flow control).
    WindowExceeded,
    /// B6: a window update that lifts a credit above 4,294,967,295 bytes (flow control).
    CreditOverflow,
    /// B7: a Go Away code above 2 (go away).
    BadGoAwayCode,
    /// B8: the peer said Go Away 1, a protocol error (go away).
    PeerSawProtocolError,
    /// B9: the peer said Go Away 2, an internal error (go away).
    PeerSawInternalError,
}

impl Fault {
    ghost use Rattle.std.specs.Prelude.{◌≡◌};
    ghost use Rattle.ymx_header.specs.Faults.{fault_number};

    /// The number of the fault, from 1 to 9.
    pub fn number(self) -> u8
        ensures { result ≡ fault_number self }
    {
        match self {
            Fault::BadVersion => 1,
            Fault::UnknownType => 2,
            Fault::BadSyn => 3,
            Fault::StreamInUse => 4,
            Fault::WindowExceeded => 5,
            Fault::CreditOverflow => 6,
            Fault::BadGoAwayCode => 7,
            Fault::PeerSawProtocolError => 8,
            Fault::PeerSawInternalError => 9,
        }
    }
}

impl fmt::Display for Fault {
    ghost use Rattle.std.specs.Prelude.{Some};
    ghost use Rattle.ymx_header.specs.Faults.{fault_name};

    ghost output = { λ fault. Some (fault_name fault) };

    fn fmt<W: fmt::Write>(&self, f: &mut fmt::Formatter<W>) -> fmt::Result {
        let name = match self {
            Fault::BadVersion => "B1",
            Fault::UnknownType => "B2",
            Fault::BadSyn => "B3",
            Fault::StreamInUse => "B4",
            Fault::WindowExceeded => "B5",
            Fault::CreditOverflow => "B6",
            Fault::BadGoAwayCode => "B7",
            Fault::PeerSawProtocolError => "B8",
            Fault::PeerSawInternalError => "B9",
        };
        f.write_str(name)
    }
}

impl Error for Fault {}
