//! Pumps, which move bytes between a hub and its devices, and touch no device under the lock.
//!
//! `write_pump` takes what the hub emits to a writer, `read_pump` what a reader gives to the hub, and looks at the streams that were
//! released after each feed; `run_pumps` runs one pump of each kind at once. Of devices that tell their bytes: what was written is
//! what the emissions gave, and what was fed is a beginning of what was read. A `Gate` may end a pump from outside, and `PumpEnd`
//! says how one ended.
//!
//! The definitions of what stands in a history stand here too: of the pumps, of who worked, and of one stream (specs/).
#![tactic(auto)]

mod both;
mod gate;
mod pump_end;
mod reading;
mod start;
mod writing;

pub use both::run_pumps;
pub use gate::{Gate, PumpIo};
pub use pump_end::{PumpEnd, PumpWhy, PurgerEnd};
pub use reading::read_pump;
pub use writing::write_pump;
