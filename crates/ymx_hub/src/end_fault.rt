//! Why a hub hands out no transcript.

use thiserror::Error;
use ymx_seats::{Recorder, Seat};

/// Why there is no transcript. It prints its name alone.
#[derive(Clone, Copy, Debug, PartialEq, Eq, Error)]
pub enum EndWhy {
    /// Not every seat that was given is handed in, or the transcript was handed out before.
    #[error("SeatsOut")]
    SeatsOut,
    /// The lists of the seats and the log disagree.
    #[error("OutOfOrder")]
    OutOfOrder,
}

/// Why there is no transcript, with the seats that were handed in.
pub struct EndFault<R: Recorder> {
    /// Why.
    pub why: EndWhy,
    /// The seats, perhaps in another order.
    pub seats: Vec<Seat<R>>,
}
