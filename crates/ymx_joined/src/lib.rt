//! What two ends promise, as the contracts of calls that are made of both.
//!
//! - `deliver` takes a text from one new session to another: all of it comes out, and then the end.
//! - `certify` makes of two transcripts, a client's and a server's, one run of the queue machine.
//! - `joined_histories` has the laws of two histories that are one run: each stream carries its bytes, and an echo comes back.
//! - `joined_tunnels` has the laws of two tunnels, with their devices, over two pipes: each of its functions does nothing,
//!   and its contract is the theorem.
#![tactic(auto)]

mod certifying;
mod delivery;
mod fault;
pub mod joined_histories;
pub mod joined_tunnels;
mod stages;

pub use certifying::certify;
pub use delivery::deliver;
pub use fault::DeliveryFault;
