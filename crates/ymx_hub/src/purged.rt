//! The evidence that streams which were released were looked at.

ghost use Rattle.ymx_hub.specs.Releasing.{AllWait};

use crate::shared::Shared;
use ymx_seats::Recorder;

/// The evidence that in one hold of the lock each stream that is released waited: a read of it found nothing, and more may
/// come. It takes no bytes.
///
/// Only a hub makes one, after a look at each of them, in the hold of the lock in which it looked. A contract sees nothing
/// in it: that it is there says all.
#[derive(Drop)]
pub struct Purged {
    seal: (),
}

impl Purged {
    /// The evidence, where each of them waits.
    pub(crate) fn of<R: Recorder>(_shared: &Shared<R>) -> Purged
        requires { AllWait _shared.now.booked.session _shared.now.booked.released }
    {
        Purged { seal: () }
    }
}
