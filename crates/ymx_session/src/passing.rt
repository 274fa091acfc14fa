//! Payload that is passed on as it comes.

ghost use Rattle.std.specs.Prelude.{◌≡◌, ◌<◌, ◌≤◌, length, if◌then◌else◌, None, IsSome, IfSome};
ghost use Rattle.std.specs.Option.{ForSome, option_copied};
ghost use Rattle.ymx_law_session.specs.Limits.{IsWithin};
ghost use Rattle.ymx_machine.specs.shared.Lists.{look};
ghost use Rattle.ymx_session.specs.Passing.{passing, passing_behind, is_plain, is_read_up, IsPlainHeader, Passes};

use crate::state::State;
use ymx_half::{Stage, StreamRec};
use ymx_header::{Header, TYPE_DATA, VERSION, decode};
use ymx_model::Status;

/// Payload of a stream that comes, and that may be passed on.
#[derive(Clone, Copy, Debug, PartialEq, Eq)]
pub struct Passing {
    /// The stream.
    pub id: u32,
    /// How many bytes of this frame's payload are still to come: at least one.
    pub missing: u32,
}

impl State {
    /// The record of a stream, if the caller has the stream, its end hasn't come, and nothing of it is unread.
    fn read_up(&self, id: u32) -> Option<&StreamRec>
        ensures { option_copied result ≡ (if is_read_up (look id self.now.table.entries) then look id self.now.table.entries else None) }
    {
        let stream = self.table.get(id)?;
        let is_read_up = stream.stage() == Stage::Live
            && !stream.has_ended()
            && stream.unread_len() == 0;
        if !is_read_up {
            return None;
        }
        Some(stream)
    }

    /// The payload that comes, if it may be passed on.
    pub(crate) fn passing(&self) -> Option<Passing>
        ensures { result ≡ passing self.now }
    {
        if self.status != Status::Running {
            return None;
        }
        let payload = self.arriving.kept_payload()?;
        let _stream = self.read_up(payload.id)?;
        Some(payload)
    }

    /// How many bytes of payload the frame of this header has, where they may be passed on after the payload that comes
    /// and `ahead` bytes of further frames.
    pub(crate) fn passing_behind(&self, ahead: u32, header: &[u8; 12]) -> Option<u32>
        ensures value { result ≡ passing_behind ahead header.now self.now }
        ensures header { IfSome result (λ count. ForSome (passing self.now) (λ p. IsPlainHeader p.id count header.now)) }
    {
        if self.status != Status::Running || self.answers.is_full() || self.arriving.is_ending() {
            return None;
        }
        let payload = self.arriving.kept_payload()?;
        let stream = self.read_up(payload.id)?;
        let header = decode(header);
        let end = u64::from(payload.missing) + u64::from(ahead) + u64::from(header.length);
        let may_follow = is_plain(payload.id, &header)
            && header.length > 0
            && end <= u64::from(stream.granted());
        may_follow.then_some(header.length)
    }

    /// Passes these bytes on: they come, and are read at once.
    pub(crate) fn pass(&mut self, bytes: &[u8])
        requires within { IsWithin self.old }
        requires some { 0 < length bytes.now }
        requires there { IsSome (passing self.old) }
        requires few { ForSome (passing self.old) (λ p. length bytes.now ≤ p.missing) }
        ensures { ForSome (passing self.old) (λ p. Passes p.id bytes.now self.old self.new) }
    {
        let (id, end) = self.arriving.pass(bytes);
        self.table.pass(id, end, bytes);
    }
}

/// Whether a header is that of Data of this stream, without flags.
fn is_plain(id: u32, header: &Header) -> bool
    ensures { result ≡ is_plain id header.now }
{
    header.version == VERSION && header.kind == TYPE_DATA && header.flags == 0 && header.id == id
}
