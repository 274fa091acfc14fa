//! What lies at the address that C holds: a session, and which of its streams its caller has released.

ghost use Rattle.std.specs.Prelude.{◌≡◌, ◌≤◌, length};
ghost use Rattle.ymx_session.specs.Passing.{passing};
ghost use Rattle.ymx_session.specs.Releases.{looked_at};
ghost use Rattle.ymx_c.specs.Handles.{is_released, no_stream, if_released, DropsPayload, Purges};

use ymx_model::Status;
use ymx_session::{Passing, Releases, Session, Touched};

/// A session with its released streams, which are none of the caller's.
#[derive(Drop)]
pub(crate) struct Handle {
    pub(crate) session: Session,
    pub(crate) releases: Releases,
}

impl Handle {
    /// Whether the stream of this id was released.
    pub(crate) fn is_released(&self, id: u32) -> bool
        ensures { result ≡ is_released id self.now }
    {
        self.releases.contains(id)
    }

    /// What a call on a stream answers that was released.
    pub(crate) fn no_stream(&self) -> i64
        ensures { result ≡ no_stream self.now.session }
    {
        if self.session.status() == Status::Closed {
            -5
        } else {
            -1
        }
    }

    /// The first of these bytes that are payload of a released stream come, and are read at once: how many.
    pub(crate) fn drop_payload(&mut self, bytes: &[u8]) -> usize
        ensures drops { DropsPayload self.old.releases bytes.now result self.old.session self.new.session }
        ensures released { self.new.releases ≡ self.old.releases }
        ensures within { result ≤ length bytes.now }
    {
        let Some(payload) = self.released_payload() else {
            return 0;
        };
        let count = bytes.len().min(payload.missing as usize);
        if count > 0 {
            self.session.pass(&bytes[..count]);
        }
        count
    }

    /// The payload that comes next, if it is of a released stream.
    fn released_payload(&self) -> Option<Passing>
        ensures { result ≡ if_released self.now.releases (passing self.now.session) }
    {
        let payload = self.session.passing()?;
        if !self.is_released(payload.id) {
            return None;
        }
        Some(payload)
    }

    /// All released streams are looked at, if there are any.
    pub(crate) fn purge_all(&mut self)
        ensures { Purges self.old.releases self.old.releases self.old.session self.new }
    {
        if !self.releases.is_empty() {
            self.releases.purge_all(&mut self.session);
        }
    }

    /// The released streams that were touched are looked at, if there are any.
    pub(crate) fn purge(&mut self, touched: &Touched)
        ensures { Purges (looked_at self.old.releases touched.now self.old.session) self.old.releases self.old.session self.new }
    {
        if !self.releases.is_empty() {
            self.releases.purge(&mut self.session, touched);
        }
    }
}
