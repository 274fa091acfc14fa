//! The memory of an entry, which is found before its event.

ghost use Rattle.std.specs.Prelude.{◌≡◌, ◌≤◌, [], length, vec_capacity, IfOk};
ghost use Rattle.ymx_machine.specs.shared.Replies.{bytes_told};
ghost use Rattle.ymx_seats.specs.EntryRooms.{Hold};

use std::alloc::Global;
use ymx_memory::RefusedAllocation;
use ymx_model::{Bytes, Call, Event, Lent, Reply};

/// What was found for an entry: its memory, where the recorder keeps it. It shows nobody which.
#[derive(Drop)]
pub struct EntryRoom {
    pub(crate) copies: Option<Copies>,
}

/// Memory for the two copies of an entry, one for the seat and one for the log.
#[derive(Drop)]
pub(crate) struct Copies {
    /// The event, for the seat.
    pub(crate) mine: Event<Bytes>,
    /// The event, for the log.
    pub(crate) theirs: Event<Bytes>,
    /// Room for the bytes of the reply, for the seat.
    pub(crate) my_bytes: Vec<u8>,
    /// The same, for the log.
    pub(crate) their_bytes: Vec<u8>,
}

/// The event with bytes of its own.
fn owned(alloc: Global, event: &Event<Lent<'_>>) -> Result<Event<Bytes>, RefusedAllocation>
    ensures { IfOk result (λ e. e ≡ event.now) }
{
    Ok(match event {
        Event::Call(call) => Event::Call(owned_call(alloc, call)?),
        Event::Feed(bytes) => Event::Feed(bytes.to_owned(alloc)?),
        Event::FeedEnd => Event::FeedEnd,
        Event::Emit(size) => Event::Emit(*size),
    })
}

/// The call with bytes of its own.
fn owned_call(alloc: Global, call: &Call<Lent<'_>>) -> Result<Call<Bytes>, RefusedAllocation>
    ensures { IfOk result (λ c. c ≡ call.now) }
{
    Ok(match call {
        Call::Open => Call::Open,
        Call::OpenWith(bytes) => Call::OpenWith(bytes.to_owned(alloc)?),
        Call::Accept => Call::Accept,
        Call::Write(id, bytes) => Call::Write(*id, bytes.to_owned(alloc)?),
        Call::Read(id, size) => Call::Read(*id, *size),
        Call::Finish(id) => Call::Finish(*id),
        Call::Reset(id) => Call::Reset(*id),
        Call::Forget(id) => Call::Forget(*id),
        Call::Ping => Call::Ping,
        Call::Ponged(number) => Call::Ponged(*number),
        Call::GoAway => Call::GoAway,
        Call::Close => Call::Close,
    })
}

/// The reply with bytes of its own, in memory found before.
pub(crate) fn kept_reply(reply: &Reply<Lent<'_>>, room: Vec<u8>) -> Reply<Bytes>
    requires empty { room.items ≡ [] }
    requires fits { bytes_told reply.now ≤ vec_capacity room }
    ensures { result ≡ reply.now }
{
    match reply {
        Reply::Opened(id) => Reply::Opened(*id),
        Reply::OpenedWith(id, count) => Reply::OpenedWith(*id, *count),
        Reply::Accepted(id) => Reply::Accepted(*id),
        Reply::Wrote(wrote) => Reply::Wrote(*wrote),
        Reply::Read(bytes) => Reply::Read(filled(room, bytes.as_slice())),
        Reply::ReadEnd => Reply::ReadEnd,
        Reply::ReadWait => Reply::ReadWait,
        Reply::Done => Reply::Done,
        Reply::Pinged(number) => Reply::Pinged(*number),
        Reply::Ponged(back) => Reply::Ponged(*back),
        Reply::Refused(fault) => Reply::Refused(*fault),
        Reply::Fed(fed) => Reply::Fed(*fed),
        Reply::Emitted(bytes) => Reply::Emitted(filled(room, bytes.as_slice())),
    }
}

/// These bytes, in memory found before.
fn filled(mut room: Vec<u8>, bytes: &[u8]) -> Bytes
    requires empty { room.items ≡ [] }
    requires fits { length bytes.now ≤ vec_capacity room }
    ensures { result ≡ bytes.now }
{
    match room.extend_from_slice(bytes) {
        Ok(()) => Bytes::from_vec(room),
        Err(_) => unreachable!(),
    }
}

/// No bytes, with room for as many as the buffer has.
fn with_room(alloc: Global, buffer: &[u8]) -> Result<Vec<u8>, RefusedAllocation>
    ensures { IfOk result (λ v. (v.items ≡ []) × (length buffer.now ≤ vec_capacity v)) }
{
    let mut room = Vec::new(alloc);
    ymx_memory::reserve_for(&mut room, buffer)?;
    Ok(room)
}

/// Memory for an entry of this event whose reply has at most the bytes of the buffer.
pub(crate) fn copies_of(
    alloc: Global,
    event: &Event<Lent<'_>>,
    buffer: &[u8],
) -> Result<Copies, RefusedAllocation>
    ensures { IfOk result (λ c. Hold c event.now (length buffer.now)) }
{
    Ok(Copies {
        mine: owned(alloc, event)?,
        theirs: owned(alloc, event)?,
        my_bytes: with_room(alloc, buffer)?,
        their_bytes: with_room(alloc, buffer)?,
    })
}
