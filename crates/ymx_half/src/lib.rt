//! One stream at one end: two halves, whose types say what may be done with them, and a record of both
//! with the marks of what is due. A write after `finish` and an arrival after the end don't compile.
//! Memory is taken where a stream is made, and where more than 262,144 bytes are unsent. A call that moves bytes is lent
//! the blocks with which the streams of a table take turns (`ymx_ring::Pool`); no contract depends on what they hold.
#![tactic(auto)]

mod dead;
mod directions;
mod frame;
mod kind;
mod receive;
mod send;
mod stream;

pub use dead::DeadHalf;
pub use kind::{Kind, Open, Over};
pub use receive::{EndedHalf, ReceivingHalf, RecvHalf};
pub use send::{DoneHalf, SendHalf, SendingHalf};
pub use stream::{Stage, StreamRec};
pub use ymx_header::FIRST_CREDIT;
pub use ymx_model::FrameKind;
