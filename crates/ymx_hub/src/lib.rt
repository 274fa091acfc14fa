//! A running session: one lock round it, and many callers in many threads.
//!
//! Each call, if it returns, adds to its seat the entry of its answer, where entries are kept or stand in proofs. With the
//! recorder `Off` no contract says what it answers.
//!
//! `Hub` is the session under its lock. `open_at_seat` and `accept_at_seat` hand out streams, each as a `WriteHalf` and a
//! `ReadHalf`; an `Opener` and an `Acceptor` do so with a seat of their own. `waiting_calls` has the calls that wait,
//! `moving` the turns of the pumps, and `releasing` the streams whose readers are done with them. `wakeups` and `shared` say
//! who waits and who is woken, and `awaiting` how a thread waits.
//!
//! `Booked` is what stands under the lock, and uses no threads: a session, the log of its events, and which streams are half
//! spent. `record_event` is the door that each event goes through, which adds its entry. Its calls stand in `opening` (a stream is
//! handed out), `stream_calls` (bytes, and halves that are spent), `session_calls` and `wire_calls` (what comes and goes).
#![tactic(auto)]

mod acceptor;
mod awaiting;
mod booked;
mod end_fault;
mod faults;
mod halves;
mod hub;
mod moving;
mod opener;
mod opening;
mod purged;
mod recording;
mod refused_seat;
mod released_ids;
mod releasing;
mod session_calls;
mod shared;
mod slot_set;
mod status;
mod stream_calls;
mod undrained;
mod waiting_calls;
mod wakeups;
mod wire_calls;
mod write_fault;

pub use acceptor::{Acceptor, accept_at_seat};
pub use booked::Booked;
pub use end_fault::{EndFault, EndWhy};
pub use faults::HubFault;
pub use halves::{ReadHalf, WriteHalf};
pub use hub::{FirstSeats, Hub};
pub use moving::{FedAndPurged, Turn};
pub use opener::{Opener, open_at_seat, open_with_at_seat};
pub use purged::Purged;
pub use refused_seat::RefusedSeat;
pub use released_ids::RefusedRelease;
pub use undrained::Undrained;
pub use write_fault::WriteFault;
pub use ymx_seats::{Full, Off, Recorder, Seat, Transcript};
