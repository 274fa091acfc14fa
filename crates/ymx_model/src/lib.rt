//! What the other crates of `ymx` speak in: the plain types of one session (those of calls and answers are the
//! machine's), the devices that bytes come from and go to, with what every user of a device needs, and (in `specs/`) the
//! definitions: one session by itself, and two sessions over pipes.
#![tactic(auto)]

mod device;
mod memory;
mod pushing;
mod retrying;
mod standard;
mod types;

pub use device::{DeviceFault, Inlet, Outlet};
pub use memory::{MemoryInlet, MemoryOutlet};
pub use pushing::push_all;
pub use retrying::{read, write};
pub use standard::{ReaderInlet, WriterOutlet};
pub use types::{
    Config, Entry, Event, FrameKind, GoAwayMark, Got, PingStage, Response, Role, Status,
};
pub use ymx_machine::{
    Answer, Bytes, Call, CallFault, Direction, Fed, Lent, Reply, Side, Step, Why, Wrote,
};
