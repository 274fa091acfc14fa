//! Who did what to a session: recorders, seats and the transcript. It uses no threads.
//!
//! A caller of a running session has a `Seat`. With the recorder `Full` each event of the session becomes an
//! entry, which is added to the `Log` under the lock and to the seat of its caller; with `Off` none is kept.
//! The memory of an entry, its `EntryRoom`, is found before the event. At the end `agree` compares the seats with
//! the log, whose entries a `Transcript` then hands out.
#![tactic(auto)]

mod compare;
mod entry_room;
mod journal;
mod log;
mod plays;
mod recorder;
mod seat;
mod transcript;

pub use compare::{agree, same};
pub use entry_room::EntryRoom;
pub use journal::{Journal, NewJournal, Witness};
pub use log::Log;
pub use plays::{EntryName, Knowledge, Naming, NoHalf, ReadsOf, Right, RightName};
pub use recorder::{Full, Off, Recorder, Witnessed};
pub use seat::{Parked, Seat, discard};
pub use transcript::Transcript;
