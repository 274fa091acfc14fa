//! The tunnel of one end as a value: a session, the wire that carries it, and the device of each of its streams. It has
//! no thread, no lock and no socket, and none of its calls waits.
//!
//! Each call says which events happened, and what moved between streams, devices and the wire.
#![tactic(auto)]

mod block;
mod buffers;
mod calls;
mod connections;
mod device;
mod directions;
mod exchange;
mod joining;
mod passing;
mod reading;
mod row;
mod sending;
mod standing;
mod steps;
mod tunnel;
mod writing;

pub use device::{Device, Pulled, Pushed, Readiness};
pub use directions::{Directions, Flow};
pub use joining::{NotJoined, Registry};
pub use tunnel::{Served, Tunnel};
