//! The calls of a session, with numbers for answers.

ghost use Rattle.std.specs.Prelude.{◌≡◌, ◌<◌, ◌^◌, length, min, ◌⊎◌, pos, false, Some, None, IfOk, IfErr};
ghost use Rattle.std.specs.Ptr.{as_ptr};
ghost use Rattle.ymx_model.specs.declared.types.Event.TheVariants as event;
ghost use Rattle.ymx_machine.specs.declared.types.Call.TheVariants as call;
ghost use Rattle.ymx_model.specs.session.Emissions.{is_ready};
ghost use Rattle.ymx_model.specs.session.Sessions.{belongs_to};
ghost use Rattle.ymx_session.specs.NewSessions.{new_fault, IsNewFault};
ghost use Rattle.ymx_session.specs.Touched.{nothing_noted};
ghost use Rattle.ymx_session.specs.Opens.{opens_left};
ghost use Rattle.ymx_session.specs.Streams.{waiting, room_of, has_ended, unsent_of, unsent_total, next_of, is_acknowledged};
ghost use Rattle.ymx_c.specs.Answers.{refusal, status_number, flag, role_of, next_number};
ghost use Rattle.ymx_c.specs.Handles.{new_handle, AnswersIn, AnswersOf, FillsIn, FillsOf, ConsumesOf, told, at_most, at_most_total, ShowsOf, TellsEnd, TellsReset, ListsStreams, SaysGiven, SaysGivenOf, ReleasesOne, AnswersThenPurges, TouchesThenPurges, ToPayloadThenPurges, passing_of, TellsPassing, PassesSome, WritesOn};
ghost use Rattle.ymx_c.specs.NewAnswers.{new_refusal, config_of, IsMade, IsRefused, IsNoteMade, IsNoNote};
ghost use Rattle.ymx_c.specs.Readiness.{CountsOffered, ListsIds, IsCleared, IsPlaced, number_limit};

use crate::handle::Handle;
use crate::made::Made;
use std::alloc::Global;
use ymx_memory::RefusedAllocation;
use ymx_model::{CallFault, Config, FrameKind, Got, Role, Status, Wrote};
use ymx_session::{NewFault, Passing, Releases, Session, Touched};

/// There is nothing to do yet: no credit, or no bytes.
const WAIT: i64 = -12;

/// The number that stands for a refusal.
fn refusal(fault: CallFault) -> i64
    ensures { result ≡ refusal fault }
{
    match fault {
        CallFault::NoStream => -1,
        CallFault::Finished => -2,
        CallFault::Reset => -3,
        CallFault::Lost => -4,
        CallFault::Closed => -5,
        CallFault::PeerAway => -6,
        CallFault::OpensPending => -7,
        CallFault::TooMany => -8,
        CallFault::Exhausted => -9,
        CallFault::PingsPending => -10,
        CallFault::OutOfMemory(_) => -11,
    }
}

/// The number that says why no session was made.
fn new_refusal(fault: NewFault) -> i64
    ensures { result ≡ new_refusal fault }
{
    match fault {
        NewFault::BadWindow => -13,
        NewFault::BadFirst => -14,
        NewFault::OutOfMemory(_) => -11,
    }
}

/// 0 is the client, any other number the server.
fn role(number: u32) -> Role
    ensures { result ≡ role_of number }
{
    if number == 0 {
        Role::Client
    } else {
        Role::Server
    }
}

/// A session in a block of its own, of which no stream is released.
fn boxed(
    alloc: Global,
    number: u32,
    window: u32,
    first: u32,
) -> Result<Box<Handle, Global>, NewFault>
    ensures made { IfOk result (λ whole. whole.value ≡ new_handle number window first) }
    ensures may { IfOk result (λ whole. new_fault (role_of number) (config_of window first) ≡ None) }
    ensures refused { IfErr result (λ fault. IsNewFault (role_of number) (config_of window first) fault) }
{
    let session = Session::new(alloc, role(number), Config { window, first })?;
    let releases = Releases::new(alloc)?;
    let whole = ymx_memory::boxed(alloc, Handle { session, releases })?;
    Ok(whole)
}

/// A new session with its address, or NULL and why there is none.
pub(crate) fn make(alloc: Global, number: u32, window: u32, first: u32) -> Made<Handle>
    ensures { (IsMade number window first result.answer result.at × (result.value ≡ Some (new_handle number window first))) ⊎ (IsRefused number window first result.answer result.at × (result.value ≡ None)) }
{
    match boxed(alloc, number, window, first) {
        Ok(whole) => Made::of(whole),
        Err(fault) => Made::refused(new_refusal(fault)),
    }
}

/// A note of touched streams in a block of its own, with nothing noted.
fn boxed_touched(alloc: Global) -> Result<Box<Touched, Global>, RefusedAllocation>
    ensures { IfOk result (λ whole. whole.value ≡ nothing_noted false) }
{
    let touched = Touched::new(alloc)?;
    ymx_memory::boxed(alloc, touched)
}

/// A new note of touched streams with its address, or NULL where there is no memory.
pub(crate) fn make_touched(alloc: Global) -> Made<Touched>
    ensures { (IsNoteMade result.answer result.at × (result.value ≡ Some (nothing_noted false))) ⊎ (IsNoNote result.answer result.at × (result.value ≡ None)) }
{
    match boxed_touched(alloc) {
        Ok(whole) => Made::of(whole),
        Err(refused) => Made::refused(new_refusal(NewFault::OutOfMemory(refused))),
    }
}

// ---- calls on the session

/// The id, or the refusal.
pub(crate) fn open(handle: &mut Handle) -> i64
    ensures { AnswersIn handle.old (event.Call call.Open) result handle.new }
{
    match handle.session.open() {
        Ok(id) => id as i64,
        Err(fault) => refusal(fault),
    }
}

/// The id, 0 if none waits, or the refusal.
pub(crate) fn accept(handle: &mut Handle) -> i64
    ensures { AnswersIn handle.old (event.Call call.Accept) result handle.new }
{
    match handle.session.accept() {
        Ok(Some(id)) => id as i64,
        Ok(None) => 0,
        Err(fault) => refusal(fault),
    }
}

/// The ping's number, or the refusal.
pub(crate) fn ping(handle: &mut Handle) -> i64
    ensures { AnswersIn handle.old (event.Call call.Ping) result handle.new }
{
    match handle.session.ping() {
        Ok(number) => number as i64,
        Err(fault) => refusal(fault),
    }
}

/// 1 once the answer is back, 0 before, or the refusal.
pub(crate) fn ponged(handle: &mut Handle, number: u32) -> i64
    ensures { AnswersIn handle.old (event.Call (call.Ponged number)) result handle.new }
{
    match handle.session.ponged(number) {
        Ok(true) => 1,
        Ok(false) => 0,
        Err(fault) => refusal(fault),
    }
}

/// 0, or the refusal.
pub(crate) fn go_away(handle: &mut Handle) -> i64
    ensures { AnswersIn handle.old (event.Call call.GoAway) result handle.new }
{
    match handle.session.go_away() {
        Ok(()) => 0,
        Err(fault) => refusal(fault),
    }
}

/// Closes the session at once: nothing more is emitted, not even the rest of a frame begun, and each later call that can
/// be refused is refused. It answers 0, also where the session was closed before.
pub(crate) fn close(handle: &mut Handle) -> i64
    ensures { AnswersIn handle.old (event.Call call.Close) result handle.new }
{
    handle.session.close();
    0
}

/// How many offered streams wait to be accepted.
pub(crate) fn offered_count(handle: &mut Handle) -> i64
    ensures { CountsOffered handle.old.session result × (handle.new ≡ handle.old) }
{
    limited(handle.session.offered_count())
}

/// How many streams may be opened now.
pub(crate) fn opens_left(handle: &mut Handle) -> i64
    ensures { (result ≡ pos (opens_left handle.old.session)) × (handle.new ≡ handle.old) }
{
    number(handle.session.opens_left())
}

/// 1 where the peer is away, else 0.
pub(crate) fn is_peer_away(handle: &mut Handle) -> i64
    ensures { (result ≡ flag handle.old.session.away.there) × (handle.new ≡ handle.old) }
{
    flag(handle.session.is_peer_away())
}

// ---- calls on a stream

/// How many bytes were taken, `WAIT`, or the refusal.
pub(crate) fn write(handle: &mut Handle, id: u32, bytes: &[u8]) -> i64
    ensures { AnswersOf id handle.old (event.Call (call.Write id bytes.now)) result handle.new }
{
    if handle.is_released(id) {
        return handle.no_stream();
    }
    match handle.session.write(id, bytes) {
        Ok(Wrote::Took(count)) => number(count),
        Ok(Wrote::Wait) => WAIT,
        Err(fault) => refusal(fault),
    }
}

/// How many bytes stand at the front, 0 at the end, `WAIT`, or the refusal.
pub(crate) fn read(handle: &mut Handle, id: u32, buffer: &mut [u8]) -> i64
    ensures { FillsOf id handle.old (event.Call (call.Read id (length buffer.old))) result buffer.old buffer.new handle.new }
{
    if handle.is_released(id) {
        return handle.no_stream();
    }
    match handle.session.read(id, buffer) {
        Ok(Got::Bytes(count)) => number(count),
        Ok(Got::End) => 0,
        Ok(Got::Wait) => WAIT,
        Err(fault) => refusal(fault),
    }
}

/// How many bytes wait at the address that is written to `out`, where there is room for one; more may wait after
/// them.
pub(crate) fn unread(handle: &mut Handle, id: u32, out: &mut [*const u8]) -> i64
    ensures { ShowsOf id handle.old result × IsPlaced out.old out.new × (handle.new ≡ handle.old) }
{
    let bytes: &[u8] = if handle.is_released(id) {
        &[]
    } else {
        handle.session.unread(id)
    };
    if out.len() > 0 {
        out[0] = address(bytes);
    }
    limited(bytes.len())
}

/// Where the bytes lie.
fn address(bytes: &[u8]) -> *const u8
    ensures { result ≡ as_ptr bytes.entry }
{
    bytes.as_ptr()
}

/// 0, also at the end, `WAIT`, or the refusal.
pub(crate) fn consume(handle: &mut Handle, id: u32, count: u32) -> i64
    ensures { ConsumesOf id count handle.old result handle.new }
{
    if handle.is_released(id) {
        return handle.no_stream();
    }
    match handle.session.consume(id, count as usize) {
        Ok(Got::Bytes(_)) => 0,
        Ok(Got::End) => 0,
        Ok(Got::Wait) => WAIT,
        Err(fault) => refusal(fault),
    }
}

/// 0, or the refusal.
pub(crate) fn finish(handle: &mut Handle, id: u32) -> i64
    ensures { AnswersOf id handle.old (event.Call (call.Finish id)) result handle.new }
{
    if handle.is_released(id) {
        return handle.no_stream();
    }
    match handle.session.finish(id) {
        Ok(()) => 0,
        Err(fault) => refusal(fault),
    }
}

/// 0, or the refusal.
pub(crate) fn reset(handle: &mut Handle, id: u32) -> i64
    ensures { AnswersOf id handle.old (event.Call (call.Reset id)) result handle.new }
{
    if handle.is_released(id) {
        return handle.no_stream();
    }
    match handle.session.reset(id) {
        Ok(()) => 0,
        Err(fault) => refusal(fault),
    }
}

/// 0, or the refusal.
pub(crate) fn forget(handle: &mut Handle, id: u32) -> i64
    ensures { AnswersOf id handle.old (event.Call (call.Forget id)) result handle.new }
{
    if handle.is_released(id) {
        return handle.no_stream();
    }
    match handle.session.forget(id) {
        Ok(()) => 0,
        Err(fault) => refusal(fault),
    }
}

/// 0, or the refusal. The stream is none of the caller's from now on.
pub(crate) fn release(handle: &mut Handle, id: u32) -> i64
    ensures { ReleasesOne id handle.old result handle.new }
{
    match handle.releases.release(&mut handle.session, id) {
        Ok(()) => 0,
        Err(fault) => refusal(fault),
    }
}

// ---- what is asked of a stream

/// How many bytes a write would take.
pub(crate) fn room(handle: &mut Handle, id: u32) -> i64
    ensures { (result ≡ told id handle.old (at_most (room_of id handle.old.session))) × (handle.new ≡ handle.old) }
{
    if handle.is_released(id) {
        return 0;
    }
    limited(handle.session.room(id))
}

/// 1 where a read would answer the end, else 0.
pub(crate) fn is_at_end(handle: &mut Handle, id: u32) -> i64
    ensures { TellsEnd id handle.old result × (handle.new ≡ handle.old) }
{
    if handle.is_released(id) {
        return 0;
    }
    flag(handle.session.is_at_end(id))
}

/// 1 where the peer's end has arrived, else 0.
pub(crate) fn has_ended(handle: &mut Handle, id: u32) -> i64
    ensures { (result ≡ told id handle.old (flag (has_ended id handle.old.session))) × (handle.new ≡ handle.old) }
{
    if handle.is_released(id) {
        return 0;
    }
    flag(handle.session.has_ended(id))
}

/// How many bytes stand in no frame begun yet.
pub(crate) fn unsent(handle: &mut Handle, id: u32) -> i64
    ensures { (result ≡ told id handle.old (at_most (unsent_of id handle.old.session))) × (handle.new ≡ handle.old) }
{
    if handle.is_released(id) {
        return 0;
    }
    limited(handle.session.unsent(id))
}

/// How many bytes of all streams stand in no frame begun yet, of those that were released or forgotten too.
pub(crate) fn unsent_total(handle: &mut Handle) -> i64
    ensures { (result ≡ at_most_total (unsent_total handle.old.session)) × (handle.new ≡ handle.old) }
{
    limited_total(handle.session.unsent_total())
}

/// The number of the frame that begins next of a stream, also of one that was released or forgotten, and 8 more where the
/// rest of a frame of it goes before.
pub(crate) fn next_of(handle: &mut Handle, id: u32) -> i64
    ensures { (result ≡ next_number (belongs_to handle.old.session.outgoing.of id) (next_of id handle.old.session)) × (handle.new ≡ handle.old) }
{
    let kind = match handle.session.next_of(id) {
        None => 0,
        Some(FrameKind::Open | FrameKind::OpenWith | FrameKind::Accept) => 1,
        Some(FrameKind::Reset) => 2,
        Some(FrameKind::Credit) => 3,
        Some(FrameKind::Data) => 4,
        Some(FrameKind::Fin) => 5,
    };
    if handle.session.has_rest(id) {
        return kind + 8;
    }
    kind
}

/// How many bytes wait to be read.
pub(crate) fn unread_count(handle: &mut Handle, id: u32) -> i64
    ensures { (result ≡ told id handle.old (at_most (length (waiting id handle.old.session)))) × (handle.new ≡ handle.old) }
{
    if handle.is_released(id) {
        return 0;
    }
    limited(handle.session.unread_count(id))
}

/// 1 where the peer has acknowledged it, else 0.
pub(crate) fn is_acknowledged(handle: &mut Handle, id: u32) -> i64
    ensures { (result ≡ told id handle.old (flag (is_acknowledged id handle.old.session))) × (handle.new ≡ handle.old) }
{
    if handle.is_released(id) {
        return 0;
    }
    flag(handle.session.is_acknowledged(id))
}

/// 1 where it was reset, else 0.
pub(crate) fn is_reset(handle: &mut Handle, id: u32) -> i64
    ensures { TellsReset id handle.old result × (handle.new ≡ handle.old) }
{
    if handle.is_released(id) {
        return 0;
    }
    flag(handle.session.is_reset(id))
}

/// How many streams the caller has. As many of their ids as fit stand at the buffer's front.
pub(crate) fn streams(handle: &mut Handle, ids: &mut [u32]) -> i64
    ensures { ListsStreams handle.old result ids.old ids.new × (handle.new ≡ handle.old) }
{
    limited(handle.releases.streams(&handle.session, ids))
}

// ---- memory

/// 1 where memory of a stream was given back, 0 where none was, or the refusal.
pub(crate) fn shrink(handle: &mut Handle, id: u32) -> i64
    ensures { SaysGivenOf id handle.old result × (handle.new ≡ handle.old) }
{
    if handle.is_released(id) {
        return handle.no_stream();
    }
    match handle.session.shrink(id) {
        Ok(given) => flag(given),
        Err(fault) => refusal(fault),
    }
}

/// 1 where memory of no stream's was given back, else 0.
pub(crate) fn shrink_spare(handle: &mut Handle) -> i64
    ensures { SaysGiven result × (handle.new ≡ handle.old) }
{
    flag(handle.session.shrink_spare())
}

// ---- what comes and goes

/// How many bytes were taken.
pub(crate) fn feed(handle: &mut Handle, input: &[u8]) -> i64
    ensures { AnswersThenPurges handle.old (event.Feed input.now) result handle.new }
{
    let fed = handle.session.feed(input);
    handle.purge_all();
    number(fed.taken)
}

/// How many bytes were taken. The streams that they touched are noted.
pub(crate) fn feed_touching(handle: &mut Handle, input: &[u8], touched: &mut Touched) -> i64
    ensures { TouchesThenPurges handle.old touched.old input.now result handle.new touched.new }
{
    let fed = handle.session.feed_touching(input, touched);
    handle.purge(touched);
    number(fed.taken)
}

/// 0.
pub(crate) fn feed_end(handle: &mut Handle) -> i64
    ensures { AnswersThenPurges handle.old event.FeedEnd result handle.new }
{
    handle.session.feed_end();
    handle.purge_all();
    0
}

/// How many bytes stand at the front.
pub(crate) fn emit(handle: &mut Handle, buffer: &mut [u8]) -> i64
    ensures { FillsIn handle.old (event.Emit (length buffer.old)) result buffer.new handle.new }
{
    let count = handle.session.emit(buffer);
    number(count)
}

/// 1 or 0.
pub(crate) fn due(handle: &mut Handle) -> i64
    ensures { (result ≡ flag (is_ready handle.old.session)) × (handle.new ≡ handle.old) }
{
    flag(handle.session.due())
}

/// 0 running, 1 lost, 2 closed, and 100 and the fault's number where it broke.
pub(crate) fn status(handle: &mut Handle) -> i64
    ensures { (result ≡ status_number handle.old.session.status) × (handle.new ≡ handle.old) }
{
    match handle.session.status() {
        Status::Running => 0,
        Status::Lost => 1,
        Status::Closed => 2,
        Status::Broken(fault) => 100 + fault.number() as i64,
    }
}

// ---- without copies

/// How many bytes stand at the buffer's front, or 0, and then nothing has changed.
pub(crate) fn write_through(handle: &mut Handle, id: u32, bytes: &[u8], buffer: &mut [u8]) -> i64
    ensures { WritesOn id bytes.now buffer.old buffer.new handle.old result handle.new }
{
    if handle.is_released(id) {
        return 0;
    }
    match handle.session.write_through(id, bytes, buffer) {
        Some(count) => number(count),
        None => 0,
    }
}

/// How many bytes were taken. The streams that they touched are noted.
pub(crate) fn feed_to_payload(handle: &mut Handle, input: &[u8], touched: &mut Touched) -> i64
    ensures { ToPayloadThenPurges handle.old touched.old input.now result handle.new touched.new }
{
    let fed = handle.session.feed_to_payload(input, touched);
    let dropped = handle.drop_payload(&input[fed.taken..]);
    // what was dropped may have been the last of its stream, of which nothing was noted
    handle.purge_all();
    number(fed.taken + dropped)
}

/// The payload that may be passed on, unless its stream was released.
fn passing_of(handle: &Handle) -> Option<Passing>
    ensures { result ≡ passing_of handle.now }
{
    let payload = handle.session.passing()?;
    if handle.is_released(payload.id) {
        return None;
    }
    Some(payload)
}

/// How many bytes of the payload may still be passed on. The stream's id is written to `out`, where there is room for one.
pub(crate) fn passing(handle: &mut Handle, out: &mut [u32]) -> i64
    ensures { TellsPassing handle.old result out.old out.new × (handle.new ≡ handle.old) }
{
    match passing_of(handle) {
        Some(payload) => {
            if out.len() > 0 {
                out[0] = payload.id;
            }
            payload.missing as i64
        }
        None => 0,
    }
}

/// How many of the bytes were passed on.
pub(crate) fn pass(handle: &mut Handle, bytes: &[u8]) -> i64
    ensures { PassesSome handle.old bytes.now result handle.new }
{
    let Some(payload) = passing_of(handle) else {
        return 0;
    };
    let count = bytes.len().min(payload.missing as usize);
    if count > 0 {
        handle.session.pass(&bytes[..count]);
    }
    number(count)
}

// ---- the streams that were touched

/// How many ids are noted. As many of them as fit stand at the buffer's front.
pub(crate) fn touched_ids(touched: &mut Touched, buffer: &mut [u32]) -> i64
    ensures { ListsIds touched.old result buffer.old buffer.new × (touched.new ≡ touched.old) }
{
    let ids = touched.ids();
    let count = ids.len().min(buffer.len());
    buffer[..count].copy_from_slice(&ids[..count]);
    number(ids.len())
}

/// 1 where any stream may have changed, else 0.
pub(crate) fn touched_is_all(touched: &mut Touched) -> i64
    ensures { (result ≡ flag touched.old.all) × (touched.new ≡ touched.old) }
{
    flag(touched.is_all())
}

/// 1 where an answer to a ping came, else 0.
pub(crate) fn touched_has_pong(touched: &mut Touched) -> i64
    ensures { (result ≡ flag touched.old.ponged) × (touched.new ≡ touched.old) }
{
    flag(touched.has_pong())
}

/// 0.
pub(crate) fn touched_clear(touched: &mut Touched) -> i64
    ensures { IsCleared touched.old result touched.new }
{
    touched.clear();
    0
}

/// Gives back all that a note of touched streams keeps.
pub(crate) fn end_touched(touched: Touched) {
    let _ended = touched;
}

// ---- numbers

/// 1 for yes, 0 for no.
fn flag(is_so: bool) -> i64
    ensures { result ≡ flag is_so }
{
    if is_so { 1 } else { 0 }
}

/// A count as a number, and 4,294,967,295 for any that is larger.
fn limited(count: usize) -> i64
    ensures { result ≡ pos (min count number_limit) }
{
    count.min(u32::MAX as usize) as i64
}

/// A sum as a number, and the greatest answer for any that is larger.
fn limited_total(total: u128) -> i64
    ensures { result ≡ at_most_total total }
{
    total.min(i64::MAX as u128) as i64
}

/// A count as a number.
fn number(count: usize) -> i64
    requires { count < 2 ^ 63 }
    ensures { result ≡ pos count }
{
    count as i64
}

/// Gives back all that a session keeps.
pub(crate) fn end(handle: Handle) {
    let _ended = handle;
}
