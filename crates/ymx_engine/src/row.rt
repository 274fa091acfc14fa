//! Payload of several frames of one stream, which waits in a row.

ghost use Rattle.std.specs.Prelude.{◌≡◌, ◌+◌, ◌-◌, ◌<◌, ◌≤◌, ◌⊎◌, ◌&&◌, nat_le, min, [], length, take, drop, false, None, IfSome, IfNone};
ghost use Rattle.std.specs.Option.{ForSome};
ghost use Rattle.ymx_machine.specs.shared.Limits.{widest_window};
ghost use Rattle.ymx_session.specs.Passing.{passing, IsPlainHeader, PassesBehind};
ghost use Rattle.ymx_engine.specs.Devices.{IsPushed};
ghost use Rattle.ymx_engine.specs.Passes.{IsRow, MayFollow, counts_of, payload_of, row_len};

use crate::device::{Device, Pushed};
use std::io::IoSlice;
use ymx_header::HEADER_LENGTH;
use ymx_session::Session;

/// For fewer bytes in a row a call of the device is not worth making.
const LEAST_IN_ROW: usize = 4_096;

/// The first so many of these bytes, or all.
fn front(bytes: &[u8], count: usize) -> &[u8]
    ensures { result.now ≡ take count bytes.now }
{
    &bytes[..count.min(bytes.len())]
}

/// What stands after so many of these bytes.
fn behind(bytes: &[u8], count: usize) -> &[u8]
    ensures { result.now ≡ drop count bytes.now }
{
    &bytes[count.min(bytes.len())..]
}

/// Payload of one frame that waits: how many bytes of it, what waits after it, how many bytes the headers before it say, and
/// whether the row ended before it.
#[derive(Drop)]
struct Piece<'a> {
    count: u32,
    behind: &'a [u8],
    ahead: u32,
    has_ended: bool,
}

impl<'a> Piece<'a> {
    /// The payload that comes, of which so many bytes are missing, as far as it waits.
    fn first(missing: u32, waits: &'a [u8]) -> Piece<'a>
        ensures count { result.count ≡ min missing (length waits.now) }
        ensures behind { result.behind.now ≡ drop result.count waits.now }
        ensures ahead { result.ahead ≡ 0 }
        ensures goes_on { result.has_ended ≡ false }
    {
        let count = (missing as usize).min(waits.len());
        Piece {
            count: count as u32,
            behind: behind(waits, count),
            ahead: 0,
            has_ended: false,
        }
    }

    /// How many bytes of payload the header says that waits after it, where its frame stands in the row.
    fn following(&self, session: &Session) -> Option<u32>
        ensures goes_on { IfSome result (λ said. self.now.has_ended ≡ false) }
        ensures there { IfSome result (λ said. 12 ≤ length self.now.behind.now) }
        ensures few { IfSome result (λ said. self.now.ahead + said ≤ widest_window) }
        ensures header { IfSome result (λ said. ForSome (passing session.now) (λ p. IsPlainHeader p.id said (take 12 self.now.behind.now))) }
        ensures passes { IfSome result (λ said. ForSome (passing session.now) (λ p. PassesBehind p.id p.missing (self.now.ahead + said) session.now)) }
    {
        if self.has_ended {
            return None;
        }
        let header = self.behind.first_chunk::<HEADER_LENGTH>()?;
        session.passing_behind(self.ahead, header)
    }

    /// The payload of the next frame of the row, as far as it waits: none where the row ends.
    fn next(&self, session: &Session) -> Piece<'a>
        ensures { ForSome (passing session.now) (λ p. MayFollow p.id p.missing self.now.has_ended self.now.ahead self.now.behind.now result.count result.behind.now result.ahead result.has_ended session.now) }
    {
        match self.following(session) {
            Some(said) => {
                let count = (said as usize).min(self.behind.len() - HEADER_LENGTH);
                Piece {
                    count: count as u32,
                    behind: behind(self.behind, HEADER_LENGTH + count),
                    ahead: self.ahead + said,
                    has_ended: false,
                }
            }
            None => Piece {
                count: 0,
                behind: self.behind,
                ahead: self.ahead,
                has_ended: true,
            },
        }
    }
}

/// Payload of one stream that waits in a row: how many bytes of each of at most four frames, with a header of 12 bytes before
/// each but the first. Those that aren't there have none.
#[derive(Clone, Copy)]
pub(crate) struct Row {
    /// The stream.
    pub(crate) id: u32,
    first: u32,
    second: u32,
    third: u32,
    fourth: u32,
    /// Something else waits after it, so no more of the row comes.
    is_whole: bool,
}

/// The row that waits first. `None` where nothing waits, or no payload of it may be passed on.
pub(crate) fn row_of(session: &Session, waits: &[u8]) -> Option<Row>
    ensures some { IfSome result (λ row. IsRow row waits.now session.now) }
    ensures waits { IfSome result (λ row. 0 < length waits.now) }
    ensures none { IfNone result ((waits.now ≡ []) ⊎ (passing session.now ≡ None)) }
{
    if waits.is_empty() {
        return None;
    }
    let payload = session.passing()?;
    let first = Piece::first(payload.missing, waits);
    let second = first.next(session);
    let third = second.next(session);
    let fourth = third.next(session);
    let fifth = fourth.next(session);
    Some(Row {
        id: payload.id,
        first: first.count,
        second: second.count,
        third: third.count,
        fourth: fourth.count,
        is_whole: fifth.has_ended && !fourth.behind.is_empty(),
    })
}

impl Row {
    /// How many bytes of payload they are.
    pub(crate) fn len(&self) -> usize
        ensures { result ≡ row_len self.now }
    {
        self.first as usize + self.second as usize + self.third as usize + self.fourth as usize
    }

    /// How many bytes of each frame they are.
    pub(crate) fn counts(&self) -> [u32; 4]
        ensures { result ≡ counts_of self.now }
    {
        [self.first, self.second, self.third, self.fourth]
    }

    /// How many bytes of its first frame they are.
    pub(crate) fn count(&self) -> usize
        ensures { result ≡ self.now.first }
    {
        self.first as usize
    }

    /// Whether they are a whole row, after which something else waits, and many enough for a call of the device. A row at
    /// the end of what the wire gave may go on in its next read, and one long write costs less than two short ones.
    pub(crate) fn fills_a_call(&self) -> bool
        ensures { result ≡ (nat_le 4096 (row_len self.now) && self.now.is_whole) }
    {
        self.len() >= LEAST_IN_ROW && self.is_whole
    }

    /// The device takes the first of these bytes, in one call.
    pub(crate) fn push_to<D: Device>(&self, waits: &[u8], device: &mut D) -> Pushed
        ensures { IsPushed result (payload_of self.now waits.now) (D.seen device.old) (D.seen device.new) }
    {
        let second = behind(waits, self.first as usize + HEADER_LENGTH);
        let third = behind(second, self.second as usize + HEADER_LENGTH);
        let fourth = behind(third, self.third as usize + HEADER_LENGTH);
        device.push_pieces(&[
            IoSlice::new(front(waits, self.first as usize)),
            IoSlice::new(front(second, self.second as usize)),
            IoSlice::new(front(third, self.third as usize)),
            IoSlice::new(front(fourth, self.fourth as usize)),
        ])
    }
}
