//! How a session stands.

ghost use Rattle.std.specs.Prelude.{◌≡◌};
ghost use Rattle.ymx_model.specs.session.Sessions.{Session, is_running};
ghost use Rattle.ymx_hub.specs.WholeHistories.{IsHistoryOf};
ghost use Rattle.ymx_hub.specs.Shown.{IsShown};

use crate::awaiting::take_lock;
use crate::hub::Hub;
use std::sync::Wait;
use ymx_model::Status;
use ymx_seats::{Recorder, Seat};

impl<R: Recorder> Hub<R> {
    /// Whether the session goes on: it is neither lost, broken nor closed. It is no event of the session. Where there is a
    /// journal, it shows the whole history to the seat, and the answer is of the session that this history leads to.
    #[tactic(auto, using(crate::proofs::Shown::grown))]
    pub fn is_running<W: Wait>(&self, rt: &W, seat: &mut Seat<R>) -> bool
        // The list of the seat stays, and it has seen all that it had seen before.
        ensures shown { IsShown seat.old seat.new }
        // The answer is of the session that the history in its sight leads to.
        ensures status { (s : Session) × IsHistoryOf R.WITNESSED R.role R.config seat.new.seen s × (result ≡ is_running s.status) }
    {
        let mut shared = take_lock(rt, &self.shared);
        shared.booked.show(seat);
        shared.booked.status() == Status::Running
    }

    /// Whether a stream that the peer opened was rejected here for lack of memory. It is no event of the session.
    pub fn has_lacked_memory<W: Wait>(&self, rt: &W) -> bool {
        take_lock(rt, &self.shared).has_lacked_memory
    }
}
