//! Two sessions of `ymx_session`, joined by two pipes in memory: the client A, the server B, and what each
//! has emitted and the other not yet been fed. The caller that holds a `World` drives it by hand, a step at a time.
//!
//! The answers of a run are those of the queue machine (`run`, `play`).
//!
//! `world` is the type and its calls. Below it: `pipes` (the sessions and the pipes), `pipe` (one
//! direction), `calls` (a call on one session, and its answer), `audit` (a joint order of two histories),
//! `stopped` (a run that found no memory), `played` (a run from new sessions), `driven` (what driving a world answers).
#![tactic(auto)]

mod audit;
mod calls;
mod driven;
mod pipe;
mod pipes;
mod played;
mod stopped;
mod world;

pub use driven::Driven;
pub use played::{PlayFault, Played};
pub use stopped::Stopped;
pub use world::World;
