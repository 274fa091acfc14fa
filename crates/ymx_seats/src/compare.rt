//! The comparison of the seats' lists with the log. It takes no memory.

ghost use Rattle.std.specs.Prelude.{◌≡◌, ◌↔◌, IsTrue, ◌<◌, List, All};
ghost use Rattle.std.specs.List.Sorted.{IsPermutation, IsNonDecreasingBy};
ghost use Rattle.ymx_seats.specs.Journals.{part};
ghost use Rattle.ymx_seats.specs.Tallies.{NumberedFrom, RisesFrom, Tallies};
ghost use Rattle.ymx_seats.specs.Views.{SeatView};

use crate::recorder::Recorder;
use crate::seat::Seat;
use ymx_model::{Bytes, Call, Entry, Event, Fed, Reply, Wrote};

/// Whether two calls are the same.
fn same_call(a: &Call<Bytes>, b: &Call<Bytes>) -> bool
    ensures { IsTrue result ↔ a.now ≡ b.now }
{
    match a {
        Call::Open => matches!(b, Call::Open),
        Call::OpenWith(x) => matches!(b, Call::OpenWith(y) if x.as_slice() == y.as_slice()),
        Call::Accept => matches!(b, Call::Accept),
        Call::Write(i, x) =>
            matches!(b, Call::Write(j, y) if *i == *j && x.as_slice() == y.as_slice()),
        Call::Read(i, x) => matches!(b, Call::Read(j, y) if *i == *j && *x == *y),
        Call::Finish(x) => matches!(b, Call::Finish(y) if *x == *y),
        Call::Reset(x) => matches!(b, Call::Reset(y) if *x == *y),
        Call::Forget(x) => matches!(b, Call::Forget(y) if *x == *y),
        Call::Ping => matches!(b, Call::Ping),
        Call::Ponged(x) => matches!(b, Call::Ponged(y) if *x == *y),
        Call::GoAway => matches!(b, Call::GoAway),
        Call::Close => matches!(b, Call::Close),
    }
}

/// Whether two events are the same.
fn same_event(a: &Event<Bytes>, b: &Event<Bytes>) -> bool
    ensures { IsTrue result ↔ a.now ≡ b.now }
{
    match a {
        Event::Call(x) => matches!(b, Event::Call(y) if same_call(x, y)),
        Event::Feed(x) => matches!(b, Event::Feed(y) if x.as_slice() == y.as_slice()),
        Event::FeedEnd => matches!(b, Event::FeedEnd),
        Event::Emit(x) => matches!(b, Event::Emit(y) if *x == *y),
    }
}

/// Whether two replies are the same.
fn same_reply(a: &Reply<Bytes>, b: &Reply<Bytes>) -> bool
    ensures { IsTrue result ↔ a.now ≡ b.now }
{
    match a {
        Reply::Opened(x) => matches!(b, Reply::Opened(y) if *x == *y),
        Reply::OpenedWith(i, x) => matches!(b, Reply::OpenedWith(j, y) if *i == *j && *x == *y),
        Reply::Accepted(x) => matches!(b, Reply::Accepted(y) if *x == *y),
        Reply::Wrote(x) => matches!(b, Reply::Wrote(y) if *x == *y),
        Reply::Read(x) => matches!(b, Reply::Read(y) if x.as_slice() == y.as_slice()),
        Reply::ReadEnd => matches!(b, Reply::ReadEnd),
        Reply::ReadWait => matches!(b, Reply::ReadWait),
        Reply::Done => matches!(b, Reply::Done),
        Reply::Pinged(x) => matches!(b, Reply::Pinged(y) if *x == *y),
        Reply::Ponged(x) => matches!(b, Reply::Ponged(y) if *x == *y),
        Reply::Refused(x) => matches!(b, Reply::Refused(y) if *x == *y),
        Reply::Fed(x) => matches!(b, Reply::Fed(y) if *x == *y),
        Reply::Emitted(x) => matches!(b, Reply::Emitted(y) if x.as_slice() == y.as_slice()),
    }
}

/// Whether two entries are the same.
pub fn same(a: &Entry, b: &Entry) -> bool
    ensures { IsTrue result ↔ a.now ≡ b.now }
{
    a.position == b.position
        && a.seat == b.seat
        && same_event(&a.event, &b.event)
        && same_reply(&a.reply, &b.reply)
}

/// Whether the entries that name this seat are just these, in this order.
fn is_part(number: u32, mine: &[Entry], all: &[Entry]) -> bool
    ensures { IsTrue result ↔ mine.now ≡ part number all.now }
{
    let mut at = 0;
    for entry in all {
        if entry.seat == number {
            if at >= mine.len() || !same(&mine[at], entry) {
                return false;
            }
            at += 1;
        }
    }
    at == mine.len()
}

/// Whether the positions rise from `start`.
fn rises(start: u64, mine: &[Entry]) -> bool
    ensures { IsTrue result ↔ RisesFrom start mine.now }
{
    // what follows the last position may not fit 64 bits
    let mut next = start as u128;
    for entry in mine {
        if (entry.position as u128) < next {
            return false;
        }
        next = entry.position as u128 + 1;
    }
    true
}

/// Whether each entry names a seat below this number.
fn are_within(count: usize, all: &[Entry]) -> bool
    ensures { IsTrue result ↔ All (λ e. e.seat < count) all.now }
{
    for entry in all {
        if entry.seat as usize >= count {
            return false;
        }
    }
    true
}

/// Whether the seats have the numbers from 0 on.
fn are_numbered<R: Recorder>(seats: &[Seat<R>]) -> bool
    ensures { IsTrue result ↔ NumberedFrom 0 seats.now }
{
    let mut next = 0;
    for seat in seats {
        if seat.number() as usize != next {
            return false;
        }
        next += 1;
    }
    true
}

/// Whether each seat's list is its part of the transcript, and rises.
fn are_parts<R: Recorder>(seats: &[Seat<R>], all: &[Entry]) -> bool
    ensures parts { IsTrue result → All (λ s. s.entries ≡ part s.number all.now) seats.now }
    ensures rising { IsTrue result → All (λ s. RisesFrom s.start s.entries) seats.now }
    ensures exact { All (λ s. s.entries ≡ part s.number all.now) seats.now → All (λ s. RisesFrom s.start s.entries) seats.now → IsTrue result }
{
    for seat in seats {
        if !is_part(seat.number(), seat.entries(), all) || !rises(seat.start(), seat.entries()) {
            return false;
        }
    }
    true
}

/// Puts the seats into the order of their numbers.
fn arrange<R: Recorder>(seats: &mut [Seat<R>])
    ensures permutation { IsPermutation seats.old seats.new }
    ensures sorted { IsNonDecreasingBy (λ s. s.number) seats.new }
{
    seats.sort_unstable_by_key(|seat| seat.number());
}

/// Whether the seats are numbered 0, 1, 2, .., each once, and each entry stands in the list of the seat that it
/// names, and nowhere else, at positions that rise from the seat's start. The seats may come in any order, and are
/// put into that of their numbers. The entries of `all` come in the order of their positions; in another order
/// `false` can be answered for lists that hold the same entries.
pub fn agree<R: Recorder>(seats: &mut [Seat<R>], all: &[Entry]) -> bool
    ensures seats { IsPermutation seats.old seats.new }
    ensures agree { IsTrue result → Tallies seats.new all.now }
    ensures exact { RisesFrom 0 all.now → (order : List SeatView) → IsPermutation seats.old order → Tallies order all.now → IsTrue result }
{
    arrange(seats);
    if !are_numbered(seats) {
        return false;
    }
    if !are_within(seats.len(), all) {
        return false;
    }
    are_parts(seats, all)
}
