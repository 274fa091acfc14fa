//! What `ymx local`, `ymx remote` and `ymx selftest` do once their command lines are read: they make the connections,
//! run one endpoint of a tunnel over them, and log what went wrong. An endpoint has a link, or several, each in a thread of its own.
#![tactic(auto)]

mod link;
mod links;
mod selftest;

pub use links::run_end;
pub use selftest::run_selftest;
