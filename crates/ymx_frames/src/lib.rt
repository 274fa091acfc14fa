//! Prints the yamux frames of an input, a line each, up to its end or its first bad frame. Kept at a
//! time are one read of the input, the lines of that read, and of the frame begun its header and at
//! most sixteen bytes of payload.
//!
//! What is written is the lines of what was read, up to its end, its first bad frame, or a failure of a device.
#![tactic(auto)]

mod lines;
mod print;
mod printer;

pub use lines::append_number;
pub use print::{FramesEnd, frames, one_printing};
