//! Offers payload straight to its device.

ghost use Rattle.std.specs.Prelude.{ℕ, ◌≡◌, ◌+◌, ◌<◌, ◌≤◌, length, take, drop, nat_eq, false};
ghost use Rattle.ymx_model.specs.session.Feeds.{is_stuck};
ghost use Rattle.ymx_engine.specs.Passes.{IsRow, OffersOnce, Commits, behind_row, counts_of, payload_of};
ghost use Rattle.ymx_engine.specs.Served.{GainsNone};

use crate::calls::pass;
use crate::device::{Device, Pushed};
use crate::directions::Directions;
use crate::exchange::reset_and_shut;
use crate::row::Row;
use ymx_session::{Session, payload_follows};

/// Offers the row to its device in one call. How many of the bytes that wait came then: what the device took, which was read
/// on the stream at once, and the headers between. Where the device fails the stream is reset.
pub(crate) fn offer<D: Device>(
    session: &mut Session,
    row: Row,
    directions: &mut Directions,
    device: &mut D,
    waits: &[u8],
) -> usize
    requires row { IsRow row waits.now session.old }
    requires some { 0 < row.first }
    ensures offered { OffersOnce row.id waits.now result session.old session.new (D.seen device.old) (D.seen device.new) directions.old directions.new }
    // What came lies in the row.
    ensures in_row { result + length (behind_row (counts_of row) waits.now) ≤ length waits.now }
    ensures goes_on { result ≡ 0 → is_stuck session.new ≡ false }
    ensures others { (other : ℕ) → nat_eq row.id other ≡ false → GainsNone other session.old session.new }
    ensures status { session.new.status ≡ session.old.status }
{
    match row.push_to(waits, device) {
        Pushed::Took(count) => commit(session, row, waits, count),
        Pushed::NotNow => 0,
        Pushed::Failed => {
            reset_and_shut(session, row.id, directions, device);
            0
        }
    }
}

/// The device took the first `taken` bytes of a row: they come, and are read at once, each payload and then the header after
/// it. How many of the bytes that wait came then.
fn commit(session: &mut Session, row: Row, waits: &[u8], taken: usize) -> usize
    requires row { IsRow row waits.now session.old }
    requires first { 0 < row.first }
    requires some { 0 < taken }
    requires within { taken ≤ length (payload_of row waits.now) }
    ensures within { result ≤ length waits.now }
    ensures some { 0 < result }
    ensures in_row { result + length (behind_row (counts_of row) waits.now) ≤ length waits.now }
    ensures committed { Commits row.id (take taken (payload_of row waits.now)) waits.now (drop result waits.now) session.old session.new }
    ensures others { (other : ℕ) → nat_eq row.id other ≡ false → GainsNone other session.old session.new }
    ensures status { session.new.status ≡ session.old.status }
{
    payload_follows();
    let mut at = 0;
    let mut left = taken;
    'piece: for piece in &row.counts() {
        let count = left.min(*piece as usize);
        pass(session, row.id, &waits[at..at + count]);
        at += count;
        left -= count;
        if left == 0 {
            return at;
        }
        let _fed = session.feed(&waits[at..at + 12]);
        at += 12;
    }
    at
}
