//! The two counters of flow control: the credit of a writer, which is what it may still write, and
//! the debt of a reader, which is what it has read and not yet announced. Nothing here takes memory.
#![tactic(auto)]

mod credit;
mod debt;
mod flow;

pub use credit::Credit;
pub use debt::{Debt, is_half_owed};
pub use flow::window_is_kept;
