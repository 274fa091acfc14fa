//! One session of a tunnel over sockets: a loop drives an engine by what epoll reports of its link, its listener and its connections.
//!
//! The loop waits for events only where it can move no byte without one. A socket is the same code over streams that record their
//! bytes, and is proved over every one.
#![tactic(auto)]

mod session;
mod silence;
mod socket;

pub use session::{Service, run_session};
