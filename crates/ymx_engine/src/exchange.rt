//! What moves between a stream and its device in one turn.

ghost use Rattle.std.specs.Prelude.{◌≡◌, ◌⊎◌, ◌<◌, ◌≤◌, ◌++◌, ◌&&◌, not, [], length, take, min, true, false};
ghost use Rattle.ymx_model.specs.declared.types.Event.TheVariants as event;
ghost use Rattle.ymx_model.specs.session.Sessions.{is_running};
ghost use Rattle.ymx_machine.specs.declared.types.Call.TheVariants as call;
ghost use Rattle.ymx_machine.specs.shared.Events.{Reply};
ghost use Rattle.ymx_model.specs.session.Emissions.{in_turn};
ghost use Rattle.ymx_model.specs.session.Histories.{Gives};
ghost use Rattle.ymx_session.specs.Streams.{waiting, room_of};
ghost use Rattle.ymx_engine.specs.Devices.{IsPushed, IsShut, one_read};
ghost use Rattle.ymx_engine.specs.Served.{GainsNone};
ghost use Rattle.ymx_engine.specs.Serves.{Turn, Part, Delivers, TakesAndGives, GivesWhole, HearsEnd, HearsStop, is_silent, is_stopped};
ghost use Rattle.ymx_engine.specs.Directions.{is_open, may_push, may_pull, broken_off};

use crate::block::Block;
use crate::buffers::{BLOCK, FRAME};
use crate::calls::{Unreadable, ask, finish, is_stopped, reset, take_out};
use crate::device::{Device, Pulled, Pushed};
use crate::directions::{Directions, Flow};
use crate::sending::{put_due, send};
use std::io::IoSlice;
use ymx_model::Status;
use ymx_session::Session;

/// What a turn came to, or its reads.
#[derive(Clone, Copy)]
pub(crate) struct TurnEnd {
    /// More may be moved at once.
    pub(crate) more: bool,
    /// How many bytes the device gave.
    pub(crate) gave: usize,
}

impl TurnEnd {
    /// Nothing was moved, and nothing more may be.
    const NOTHING: TurnEnd = TurnEnd {
        more: false,
        gave: 0,
    };

    /// Whether a connection moves much that had this turn, and did before it or didn't.
    pub(crate) fn moves_much(self, before: bool) -> bool {
        self.more || self.gave >= FRAME || before && self.gave == 0
    }
}

/// One turn of a connection: at most one write to its device, and then at most two reads from it, of `most` bytes together at most.
/// What is due and what it gives waits after what waits for the wire. It makes at most 8 calls of the device.
pub(crate) fn serve<D: Device>(
    session: &mut Session,
    id: u32,
    directions: &mut Directions,
    device: &mut D,
    buffer: &mut [u8],
    outgoing: &mut Block,
    most: usize,
) -> TurnEnd
    requires room { one_read ≤ length buffer.old }
    ensures turn { Turn id most session.old session.new outgoing.old outgoing.new (D.seen device.old) (D.seen device.new) directions.old directions.new result.more result.gave }
    // A device that may take bytes, of which none wait, hears where the stream has ended, or is no more.
    ensures hears_end { may_push directions.old (D.seen device.old).marks ≡ true → waiting id session.old ≡ [] → HearsEnd id session.old directions.new }
    // One that may take none, as where its connection is still being made, hears where the stream takes none any more.
    ensures tells { may_push directions.old (D.seen device.old).marks ≡ false → HearsStop id session.old directions.new }
{
    let writes = deliver(session, id, directions, device, outgoing);
    on_stop(session, id, directions, device);
    let read = collect(session, id, directions, device, buffer, outgoing, most);
    TurnEnd {
        more: writes && directions.may_push(device) || read.more || is_untold(session, directions),
        gave: read.gave,
    }
}

/// Whether the session is over, and the direction to the peer still open.
fn is_untold(session: &Session, directions: &Directions) -> bool
    ensures { result ≡ (not (is_running session.now.status) && is_open directions.now.to_peer) }
{
    !matches!(session.status(), Status::Running) && directions.to_peer.is_open()
}

/// Writes to the device once, where it may take bytes. Where none wait on the stream it learns why, if no more come. Whether more
/// may be written at once.
fn deliver<D: Device>(
    session: &mut Session,
    id: u32,
    directions: &mut Directions,
    device: &mut D,
    outgoing: &mut Block,
) -> bool
    ensures delivered { Delivers id session.old session.new outgoing.old outgoing.new (D.seen device.old) (D.seen device.new) directions.old directions.new 3 }
    ensures goes_on { result ≡ true → may_push directions.new (D.seen device.new).marks ≡ true }
    // More may be written only where some could be.
    ensures some { result ≡ true → (may_push directions.old (D.seen device.old).marks ≡ true) × (0 < length (waiting id session.old)) }
    ensures hears_end { may_push directions.old (D.seen device.old).marks ≡ true → waiting id session.old ≡ [] → HearsEnd id session.old directions.new }
    ensures idle { may_push directions.old (D.seen device.old).marks ≡ false → (session.new ≡ session.old) × (directions.new ≡ directions.old) × (D.seen device.new ≡ D.seen device.old) }
    ensures stays { may_push directions.new (D.seen device.new).marks ≡ true → 0 < length (waiting id session.new) → result ≡ true }
    // It was told where no more come, unless more is to be written.
    ensures ends { may_push directions.new (D.seen device.new).marks ≡ true → is_silent id session.new ≡ true → result ≡ true }
    // One that may take bytes still has a stream that takes some, unless the session is over.
    ensures takes { may_push directions.new (D.seen device.new).marks ≡ true → is_running session.new.status ≡ true → is_stopped id session.new ≡ false }
{
    if !directions.may_push(device) {
        return false;
    }
    if session.unread_count(id) == 0 {
        on_silence(session, id, directions, device);
        return false;
    }
    if !push_once(session, id, directions, device, outgoing) {
        return false;
    }
    if session.unread_count(id) > 0 {
        return true;
    }
    on_silence(session, id, directions, device);
    false
}

/// Writes to the device once, all that waits. Whether it may take more.
fn push_once<D: Device>(
    session: &mut Session,
    id: u32,
    directions: &mut Directions,
    device: &mut D,
    outgoing: &mut Block,
) -> bool
    requires some { 0 < length (waiting id session.old) }
    ensures delivered { Delivers id session.old session.new outgoing.old outgoing.new (D.seen device.old) (D.seen device.new) directions.old directions.new 2 }
    ensures goes_on { result ≡ may_push directions.new (D.seen device.new).marks }
    ensures takes { may_push directions.new (D.seen device.new).marks ≡ true → is_running session.new.status ≡ true → is_stopped id session.new ≡ false }
{
    let (first, wrapped) = session.unread_slices(id);
    match push_all(device, first, wrapped) {
        Pushed::Took(count) => {
            take_out_announcing(session, id, count, outgoing);
            directions.may_push(device)
        }
        Pushed::NotNow => false,
        Pushed::Failed => {
            reset_and_shut(session, id, directions, device);
            false
        }
    }
}

/// Takes out the first `count` of the bytes that wait. Where credit falls due within them (flow control), it goes to the peer before
/// the rest is taken: each half of the window is announced as it is read, so that the peer can fill the other.
fn take_out_announcing(session: &mut Session, id: u32, count: usize, outgoing: &mut Block)
    requires some { 0 < count }
    requires there { count ≤ length (waiting id session.old) }
    ensures took { TakesAndGives id [] (take count (waiting id session.old)) session.old session.new outgoing.old outgoing.new }
    ensures takes { is_running session.new.status ≡ true → is_stopped id session.new ≡ false }
{
    let first = until_credit(session, id).max(1).min(count);
    take_out(session, id, first);
    if first < count {
        put_due(session, outgoing);
        take_out(session, id, count - first);
    }
}

/// How many of the bytes that wait are to be read until credit falls due, at half the window (flow control).
fn until_credit(session: &Session, id: u32) -> usize {
    let half = session.window() as usize / 2;
    let behind = half.saturating_sub(session.granted(id) as usize);
    session.unread_count(id).saturating_sub(behind)
}

/// Offers the device all of these bytes, which lie in two pieces, in one call.
fn push_all<D: Device>(device: &mut D, first: &[u8], wrapped: &[u8]) -> Pushed
    ensures { IsPushed result (first.now ++ wrapped.now) (D.seen device.old) (D.seen device.new) }
{
    if wrapped.is_empty() {
        return device.push(first);
    }
    device.push_pieces(&[IoSlice::new(first), IoSlice::new(wrapped)])
}

/// Nothing waits to be written: the device is ended at the stream's end, and shut where the stream is no more.
fn on_silence<D: Device>(
    session: &mut Session,
    id: u32,
    directions: &mut Directions,
    device: &mut D,
)
    requires none { waiting id session.old ≡ [] }
    requires open { is_open directions.old.from_peer ≡ true }
    ensures part { Part id session.old session.new [] [] (D.seen device.old) (D.seen device.new) directions.old directions.new 1 0 }
    ensures hears_end { HearsEnd id session.old directions.new }
    ensures none_came { GainsNone id session.old session.new }
{
    match ask(session, id) {
        Unreadable::Wait => {}
        Unreadable::End => {
            directions.from_peer = Flow::Ended;
            device.end();
        }
        Unreadable::Stopped => {
            directions.break_off();
            device.shut();
        }
    }
}

/// No byte goes to the device now, though some of it may come: it is shut once its stream takes none any more. So is one whose
/// connection is still being made, which may never be there.
fn on_stop<D: Device>(session: &mut Session, id: u32, directions: &mut Directions, device: &mut D)
    ensures part { Part id session.old session.new [] [] (D.seen device.old) (D.seen device.new) directions.old directions.new 1 0 }
    ensures tells { may_push directions.old (D.seen device.old).marks ≡ false → HearsStop id session.old directions.new }
    ensures same { session.new ≡ session.old }
{
    if !directions.to_peer.is_open() || directions.may_push(device) {
        return;
    }
    shut_if_stopped(session, id, directions, device);
}

/// The device is shut where its stream takes no bytes any more, though it was not finished here.
fn shut_if_stopped<D: Device>(
    session: &mut Session,
    id: u32,
    directions: &mut Directions,
    device: &mut D,
)
    ensures part { Part id session.old session.new [] [] (D.seen device.old) (D.seen device.new) directions.old directions.new 1 0 }
    ensures tells { HearsStop id session.old directions.new }
    ensures same { session.new ≡ session.old }
{
    if is_stopped(session, id) {
        directions.break_off();
        device.shut();
    }
}

/// The device failed: its stream is reset.
pub(crate) fn reset_and_shut<D: Device>(
    session: &mut Session,
    id: u32,
    directions: &mut Directions,
    device: &mut D,
)
    ensures reset { (told : Reply) × Gives in_turn session.old (event.Call (call.Reset id)) told session.new }
    ensures shut { IsShut (D.seen device.old) (D.seen device.new) }
    ensures broken { directions.new ≡ broken_off directions.old }
{
    reset(session, id);
    directions.break_off();
    device.shut();
}

/// At most two reads from the device, of `most` bytes together at most.
fn collect<D: Device>(
    session: &mut Session,
    id: u32,
    directions: &mut Directions,
    device: &mut D,
    buffer: &mut [u8],
    outgoing: &mut Block,
    most: usize,
) -> TurnEnd
    requires room { one_read ≤ length buffer.old }
    ensures part { Part id session.old session.new outgoing.old outgoing.new (D.seen device.old) (D.seen device.new) directions.old directions.new 4 result.gave }
    ensures within { result.gave ≤ most }
    ensures collects { 0 < most → may_pull directions.old (D.seen device.old).marks ≡ true → (0 < result.gave) ⊎ ((may_pull directions.new (D.seen device.new).marks ≡ false) ⊎ (room_of id session.new ≡ 0)) }
    ensures fills { 0 < most → GivesWhole result.gave (min most one_read) (room_of id session.new) directions.new (D.seen device.new).marks }
    ensures goes_on { result.more ≡ true → may_pull directions.new (D.seen device.new).marks ≡ true }
    ensures gains { result.more ≡ true → 0 < result.gave }
    ensures asks_on { 0 < most → may_pull directions.new (D.seen device.new).marks ≡ true → 0 < room_of id session.new → result.more ≡ true }
    // The stream says no more of its end than it did, unless it was reset.
    ensures ends { is_open directions.new.from_peer ≡ true → is_silent id session.new ≡ true → is_silent id session.old ≡ true }
    ensures stops { is_open directions.new.to_peer ≡ true → is_stopped id session.new ≡ true → is_stopped id session.old ≡ true }
{
    if most == 0 || !directions.may_pull(device) {
        return TurnEnd::NOTHING;
    }
    // what is due goes first, so that these bytes may go straight after it
    put_due(session, outgoing);
    let room = &mut buffer[..most.min(BLOCK)];
    let first = fill(session, id, directions, device, room, outgoing);
    let left = most - first.gave;
    if left == 0 || !first.more {
        return first;
    }
    put_due(session, outgoing);
    let room = &mut buffer[..left.min(BLOCK)];
    let second = fill(session, id, directions, device, room, outgoing);
    TurnEnd {
        more: second.more,
        gave: first.gave + second.gave,
    }
}

/// Reads from the device once, as many bytes as the stream takes, and the buffer has room for. More may be read at once as long as
/// none are lost.
fn fill<D: Device>(
    session: &mut Session,
    id: u32,
    directions: &mut Directions,
    device: &mut D,
    buffer: &mut [u8],
    outgoing: &mut Block,
) -> TurnEnd
    requires room { length buffer.old ≤ one_read }
    requires some { 0 < length buffer.old }
    requires open { is_open directions.old.to_peer ≡ true }
    ensures part { Part id session.old session.new outgoing.old outgoing.new (D.seen device.old) (D.seen device.new) directions.old directions.new 2 result.gave }
    // It is given all the room, or as much as the stream takes.
    ensures fills { GivesWhole result.gave (length buffer.old) (room_of id session.new) directions.new (D.seen device.new).marks }
    ensures within { result.gave ≤ length buffer.old }
    ensures collects { (0 < result.gave) ⊎ ((may_pull directions.new (D.seen device.new).marks ≡ false) ⊎ (room_of id session.new ≡ 0)) }
    ensures goes_on { result.more ≡ true → 0 < result.gave }
    ensures on { result.more ≡ true → may_pull directions.new (D.seen device.new).marks ≡ true }
    ensures asks_on { may_pull directions.new (D.seen device.new).marks ≡ true → 0 < room_of id session.new → result.more ≡ true }
    ensures ends { is_open directions.new.from_peer ≡ true → is_silent id session.new ≡ true → is_silent id session.old ≡ true }
    ensures stops { is_open directions.new.to_peer ≡ true → is_stopped id session.new ≡ true → is_stopped id session.old ≡ true }
{
    let room = session.room(id).min(buffer.len());
    if room == 0 {
        shut_if_stopped(session, id, directions, device);
        return TurnEnd::NOTHING;
    }
    let bytes = &mut buffer[..room];
    match device.pull(bytes) {
        Pulled::Gave(count) => {
            if send(session, id, &bytes[..count], outgoing) {
                let more = directions.may_pull(device);
                return TurnEnd { more, gave: count };
            }
            directions.lacked_memory = true;
            reset_and_shut(session, id, directions, device);
            return TurnEnd {
                more: false,
                gave: count,
            };
        }
        Pulled::NotNow => {}
        Pulled::Ended => {
            finish(session, id);
            directions.to_peer = Flow::Ended;
        }
        Pulled::Failed => reset_and_shut(session, id, directions, device),
    }
    TurnEnd::NOTHING
}
