//! A session for C: what `ymx.h` declares, under names that begin with `ymx_core_`.
//!
//! C holds a pointer that `ymx_core_new` wrote, and never reads what it points to. Each call takes that pointer,
//! requires that a session lies there which nobody else uses, and says by one number what became of it: 0 or
//! more is the answer, less than 0 a refusal. `face` has the calls over a session, with numbers for answers.
//!
//! The calls of `ymx.h` are C functions that look whether a pointer is NULL, and then call their namesakes here.
#![tactic(auto)]

mod face;
mod handle;
mod made;

ghost use Rattle.std.specs.Prelude.{◌≡◌, ◌⊎◌, pos, false, length};
ghost use Rattle.std.specs.Borrow.{full_share, sem};
ghost use Rattle.std.specs.Ptr.{lies_at, room_at};
ghost use Rattle.ymx_model.specs.declared.types.Event.TheVariants as event;
ghost use Rattle.ymx_machine.specs.declared.types.Call.TheVariants as call;
ghost use Rattle.ymx_model.specs.session.Emissions.{is_ready};
ghost use Rattle.ymx_model.specs.session.Sessions.{belongs_to};
ghost use Rattle.ymx_session.specs.Opens.{opens_left};
ghost use Rattle.ymx_session.specs.Streams.{waiting, room_of, has_ended, unsent_of, unsent_total, next_of, is_acknowledged};
ghost use Rattle.ymx_session.specs.Touched.{Noted, nothing_noted};
ghost use Rattle.ymx_session.specs.contracts.touched.Touched.{the_row as touched_row};
ghost use Rattle.ymx_c.specs.Answers.{status_number, flag, next_number};
ghost use Rattle.ymx_c.specs.contracts.handle.Handle.{the_row};
ghost use Rattle.ymx_c.specs.declared.handle.Handle.{Handle as HandleValue};
ghost use Rattle.ymx_c.specs.Handed.{handed};
ghost use Rattle.ymx_c.specs.NewAnswers.{IsMade, IsRefused, IsNoteMade, IsNoNote};
ghost use Rattle.ymx_c.specs.Handles.{new_handle, AnswersIn, AnswersOf, FillsIn, FillsOf, ConsumesOf, told, at_most, at_most_total, ShowsOf, TellsEnd, TellsReset, ListsStreams, SaysGiven, SaysGivenOf, ReleasesOne, AnswersThenPurges, TouchesThenPurges, ToPayloadThenPurges, TellsPassing, PassesSome, WritesOn};
ghost use Rattle.ymx_c.specs.Readiness.{CountsOffered, ListsIds, IsCleared, IsPlaced};

use crate::handle::Handle;
use crate::made::Made;
use std::alloc::Global;
use ymx_session::Touched;

/// Makes a session that has done nothing, and writes its address to `out`. 0, or why there is none, and then
/// NULL is written: -13 for a window below 262,144 or above 16,777,216 bytes (flow control), -14 for a first
/// stream id that the peer opens (stream identifiers), -11 where there is no memory. `role` is 0 for the
/// client, and anything else for the server; `first` is the first own id, or 0 for the least.
#[unsafe(no_mangle)]
pub extern "C" fn ymx_core_new(
    alloc: Global,
    role: u32,
    window: u32,
    first: u32,
    out: &mut *mut u8,
) -> i64
    ensures answer { IsMade role window first result out.new ⊎ IsRefused role window first result out.new }
    ensures* memory { sem 𝓛 (handed the_row out.new (new_handle role window first)) }
{
    let Made { at, answer } = face::make(alloc, role, window, first);
    *out = at as *mut u8;
    answer
}

/// Ends a session and gives back all that it keeps. What it lay in is room again.
#[unsafe(no_mangle)]
pub unsafe extern "C" fn ymx_core_drop(at: *mut u8)
    ghost old: { HandleValue }
    requires* { sem 𝓛 (lies_at the_row full_share at old) }
    ensures* { sem 𝓛 (room_at the_row at) }
{
    face::end(unsafe { (at as *mut Handle).read() });
}

// ---- the calls

/// Opens the next own stream: its id, or a refusal.
#[unsafe(no_mangle)]
pub unsafe extern "C" fn ymx_core_open(at: *mut u8) -> i64
    ghost old: { HandleValue }
    requires* { sem 𝓛 (lies_at the_row full_share at old) }
    ensures* { ∃ₛ (λ (now : HandleValue). sem 𝓛 (lies_at the_row full_share at now) ∗ ⌜ AnswersIn old (event.Call call.Open) result now ⌝) }
{
    face::open(unsafe { &mut *(at as *mut Handle) })
}

/// Takes the offered stream that came first: its id, 0 if none waits, or a refusal.
#[unsafe(no_mangle)]
pub unsafe extern "C" fn ymx_core_accept(at: *mut u8) -> i64
    ghost old: { HandleValue }
    requires* { sem 𝓛 (lies_at the_row full_share at old) }
    ensures* { ∃ₛ (λ (now : HandleValue). sem 𝓛 (lies_at the_row full_share at now) ∗ ⌜ AnswersIn old (event.Call call.Accept) result now ⌝) }
{
    face::accept(unsafe { &mut *(at as *mut Handle) })
}

/// How many streams of the peer's wait to be accepted.
#[unsafe(no_mangle)]
pub unsafe extern "C" fn ymx_core_offered_count(at: *mut u8) -> i64
    ghost old: { HandleValue }
    requires* { sem 𝓛 (lies_at the_row full_share at old) }
    ensures* { ∃ₛ (λ (now : HandleValue). sem 𝓛 (lies_at the_row full_share at now) ∗ ⌜ CountsOffered old.session result × (now ≡ old) ⌝) }
{
    face::offered_count(unsafe { &mut *(at as *mut Handle) })
}

/// How many streams may be opened now, one after another: at most 256.
#[unsafe(no_mangle)]
pub unsafe extern "C" fn ymx_core_opens_left(at: *mut u8) -> i64
    ghost old: { HandleValue }
    requires* { sem 𝓛 (lies_at the_row full_share at old) }
    ensures* { ∃ₛ (λ (now : HandleValue). sem 𝓛 (lies_at the_row full_share at now) ∗ ⌜ (result ≡ pos (opens_left old.session)) × (now ≡ old) ⌝) }
{
    face::opens_left(unsafe { &mut *(at as *mut Handle) })
}

/// Whether the peer has said Go Away (go away): 1, or 0.
#[unsafe(no_mangle)]
pub unsafe extern "C" fn ymx_core_is_peer_away(at: *mut u8) -> i64
    ghost old: { HandleValue }
    requires* { sem 𝓛 (lies_at the_row full_share at old) }
    ensures* { ∃ₛ (λ (now : HandleValue). sem 𝓛 (lies_at the_row full_share at now) ∗ ⌜ (result ≡ flag old.session.away.there) × (now ≡ old) ⌝) }
{
    face::is_peer_away(unsafe { &mut *(at as *mut Handle) })
}

/// Pings the peer (ping): the number of the ping, or a refusal.
#[unsafe(no_mangle)]
pub unsafe extern "C" fn ymx_core_ping(at: *mut u8) -> i64
    ghost old: { HandleValue }
    requires* { sem 𝓛 (lies_at the_row full_share at old) }
    ensures* { ∃ₛ (λ (now : HandleValue). sem 𝓛 (lies_at the_row full_share at now) ∗ ⌜ AnswersIn old (event.Call call.Ping) result now ⌝) }
{
    face::ping(unsafe { &mut *(at as *mut Handle) })
}

/// Whether the answer to the ping of this number is back: 1, 0 if not, or a refusal. With 1 it is collected.
#[unsafe(no_mangle)]
pub unsafe extern "C" fn ymx_core_ponged(at: *mut u8, number: u32) -> i64
    ghost old: { HandleValue }
    requires* { sem 𝓛 (lies_at the_row full_share at old) }
    ensures* { ∃ₛ (λ (now : HandleValue). sem 𝓛 (lies_at the_row full_share at now) ∗ ⌜ AnswersIn old (event.Call (call.Ponged number)) result now ⌝) }
{
    face::ponged(unsafe { &mut *(at as *mut Handle) }, number)
}

/// Takes no more streams of the peer's (go away): 0, or a refusal.
#[unsafe(no_mangle)]
pub unsafe extern "C" fn ymx_core_go_away(at: *mut u8) -> i64
    ghost old: { HandleValue }
    requires* { sem 𝓛 (lies_at the_row full_share at old) }
    ensures* { ∃ₛ (λ (now : HandleValue). sem 𝓛 (lies_at the_row full_share at now) ∗ ⌜ AnswersIn old (event.Call call.GoAway) result now ⌝) }
{
    face::go_away(unsafe { &mut *(at as *mut Handle) })
}

/// Closes the session at once: 0.
#[unsafe(no_mangle)]
pub unsafe extern "C" fn ymx_core_close(at: *mut u8) -> i64
    ghost old: { HandleValue }
    requires* { sem 𝓛 (lies_at the_row full_share at old) }
    ensures* { ∃ₛ (λ (now : HandleValue). sem 𝓛 (lies_at the_row full_share at now) ∗ ⌜ AnswersIn old (event.Call call.Close) result now ⌝) }
{
    face::close(unsafe { &mut *(at as *mut Handle) })
}

/// Writes to a stream: how many bytes were taken, -12 where there is no credit (flow control), or a refusal.
#[unsafe(no_mangle)]
pub unsafe extern "C" fn ymx_core_write(at: *mut u8, id: u32, bytes: &[u8]) -> i64
    ghost old: { HandleValue }
    requires* { sem 𝓛 (lies_at the_row full_share at old) }
    ensures* { ∃ₛ (λ (now : HandleValue). sem 𝓛 (lies_at the_row full_share at now) ∗ ⌜ AnswersOf id old (event.Call (call.Write id bytes.now)) result now ⌝) }
{
    face::write(unsafe { &mut *(at as *mut Handle) }, id, bytes)
}

/// Reads from a stream: how many bytes stand at the buffer's front, 0 at the end, -12 where nothing is
/// there yet, or a refusal.
#[unsafe(no_mangle)]
pub unsafe extern "C" fn ymx_core_read(at: *mut u8, id: u32, buffer: &mut [u8]) -> i64
    ghost old: { HandleValue }
    requires* { sem 𝓛 (lies_at the_row full_share at old) }
    ensures* { ∃ₛ (λ (now : HandleValue). sem 𝓛 (lies_at the_row full_share at now) ∗ ⌜ FillsOf id old (event.Call (call.Read id (length buffer.old))) result buffer.old buffer.new now ⌝) }
{
    face::read(unsafe { &mut *(at as *mut Handle) }, id, buffer)
}

/// Shows the first bytes that wait on a stream, as they lie in its ring: writes their address to the first place of
/// `out`, and answers how many they are, 0 if none waits. The address is good until the next call that changes the session.
#[unsafe(no_mangle)]
pub unsafe extern "C" fn ymx_core_unread(at: *mut u8, id: u32, out: &mut [*const u8]) -> i64
    ghost old: { HandleValue }
    requires* { sem 𝓛 (lies_at the_row full_share at old) }
    ensures* { ∃ₛ (λ (now : HandleValue). sem 𝓛 (lies_at the_row full_share at now) ∗ ⌜ ShowsOf id old result × IsPlaced out.old out.new × (now ≡ old) ⌝) }
{
    face::unread(unsafe { &mut *(at as *mut Handle) }, id, out)
}

/// Takes out the first `count` bytes that wait on a stream, or as many as are there, as a read of `count` bytes
/// does: 0, also at the end, -12 where nothing is there yet, or a refusal.
#[unsafe(no_mangle)]
pub unsafe extern "C" fn ymx_core_consume(at: *mut u8, id: u32, count: u32) -> i64
    ghost old: { HandleValue }
    requires* { sem 𝓛 (lies_at the_row full_share at old) }
    ensures* { ∃ₛ (λ (now : HandleValue). sem 𝓛 (lies_at the_row full_share at now) ∗ ⌜ ConsumesOf id count old result now ⌝) }
{
    face::consume(unsafe { &mut *(at as *mut Handle) }, id, count)
}

/// How many bytes a write to a stream would take now (flow control). 0 where it would be refused.
#[unsafe(no_mangle)]
pub unsafe extern "C" fn ymx_core_room(at: *mut u8, id: u32) -> i64
    ghost old: { HandleValue }
    requires* { sem 𝓛 (lies_at the_row full_share at old) }
    ensures* { ∃ₛ (λ (now : HandleValue). sem 𝓛 (lies_at the_row full_share at now) ∗ ⌜ (result ≡ told id old (at_most (room_of id old.session))) × (now ≡ old) ⌝) }
{
    face::room(unsafe { &mut *(at as *mut Handle) }, id)
}

/// Whether a read of a stream would answer the end (half-close): 1, or 0.
#[unsafe(no_mangle)]
pub unsafe extern "C" fn ymx_core_is_at_end(at: *mut u8, id: u32) -> i64
    ghost old: { HandleValue }
    requires* { sem 𝓛 (lies_at the_row full_share at old) }
    ensures* { ∃ₛ (λ (now : HandleValue). sem 𝓛 (lies_at the_row full_share at now) ∗ ⌜ TellsEnd id old result × (now ≡ old) ⌝) }
{
    face::is_at_end(unsafe { &mut *(at as *mut Handle) }, id)
}

/// Whether the peer's end of a stream has arrived, also with bytes unread (half-close): 1, or 0.
#[unsafe(no_mangle)]
pub unsafe extern "C" fn ymx_core_has_ended(at: *mut u8, id: u32) -> i64
    ghost old: { HandleValue }
    requires* { sem 𝓛 (lies_at the_row full_share at old) }
    ensures* { ∃ₛ (λ (now : HandleValue). sem 𝓛 (lies_at the_row full_share at now) ∗ ⌜ (result ≡ told id old (flag (has_ended id old.session))) × (now ≡ old) ⌝) }
{
    face::has_ended(unsafe { &mut *(at as *mut Handle) }, id)
}

/// How many bytes were written to a stream and stand in no frame begun yet.
#[unsafe(no_mangle)]
pub unsafe extern "C" fn ymx_core_unsent(at: *mut u8, id: u32) -> i64
    ghost old: { HandleValue }
    requires* { sem 𝓛 (lies_at the_row full_share at old) }
    ensures* { ∃ₛ (λ (now : HandleValue). sem 𝓛 (lies_at the_row full_share at now) ∗ ⌜ (result ≡ told id old (at_most (unsent_of id old.session))) × (now ≡ old) ⌝) }
{
    face::unsent(unsafe { &mut *(at as *mut Handle) }, id)
}

/// Which frame begins next of a stream, and whether the rest of one goes before: see `next_number`.
#[unsafe(no_mangle)]
pub unsafe extern "C" fn ymx_core_next_of(at: *mut u8, id: u32) -> i64
    ghost old: { HandleValue }
    requires* { sem 𝓛 (lies_at the_row full_share at old) }
    ensures* { ∃ₛ (λ (now : HandleValue). sem 𝓛 (lies_at the_row full_share at now) ∗ ⌜ (result ≡ next_number (belongs_to old.session.outgoing.of id) (next_of id old.session)) × (now ≡ old) ⌝) }
{
    face::next_of(unsafe { &mut *(at as *mut Handle) }, id)
}

/// How many bytes of all streams were written and stand in no frame begun yet, of those that are given up too.
#[unsafe(no_mangle)]
pub unsafe extern "C" fn ymx_core_unsent_total(at: *mut u8) -> i64
    ghost old: { HandleValue }
    requires* { sem 𝓛 (lies_at the_row full_share at old) }
    ensures* { ∃ₛ (λ (now : HandleValue). sem 𝓛 (lies_at the_row full_share at now) ∗ ⌜ (result ≡ at_most_total (unsent_total old.session)) × (now ≡ old) ⌝) }
{
    face::unsent_total(unsafe { &mut *(at as *mut Handle) })
}

/// How many bytes wait to be read on a stream.
#[unsafe(no_mangle)]
pub unsafe extern "C" fn ymx_core_unread_count(at: *mut u8, id: u32) -> i64
    ghost old: { HandleValue }
    requires* { sem 𝓛 (lies_at the_row full_share at old) }
    ensures* { ∃ₛ (λ (now : HandleValue). sem 𝓛 (lies_at the_row full_share at now) ∗ ⌜ (result ≡ told id old (at_most (length (waiting id old.session)))) × (now ≡ old) ⌝) }
{
    face::unread_count(unsafe { &mut *(at as *mut Handle) }, id)
}

/// Whether the peer has acknowledged a stream (flags): 1, or 0.
#[unsafe(no_mangle)]
pub unsafe extern "C" fn ymx_core_is_acknowledged(at: *mut u8, id: u32) -> i64
    ghost old: { HandleValue }
    requires* { sem 𝓛 (lies_at the_row full_share at old) }
    ensures* { ∃ₛ (λ (now : HandleValue). sem 𝓛 (lies_at the_row full_share at now) ∗ ⌜ (result ≡ told id old (flag (is_acknowledged id old.session))) × (now ≡ old) ⌝) }
{
    face::is_acknowledged(unsafe { &mut *(at as *mut Handle) }, id)
}

/// Whether a stream was reset, by either side (flags): 1, or 0.
#[unsafe(no_mangle)]
pub unsafe extern "C" fn ymx_core_is_reset(at: *mut u8, id: u32) -> i64
    ghost old: { HandleValue }
    requires* { sem 𝓛 (lies_at the_row full_share at old) }
    ensures* { ∃ₛ (λ (now : HandleValue). sem 𝓛 (lies_at the_row full_share at now) ∗ ⌜ TellsReset id old result × (now ≡ old) ⌝) }
{
    face::is_reset(unsafe { &mut *(at as *mut Handle) }, id)
}

/// The ids of the streams that the caller has, as many as fit, at the buffer's front: how many it has.
#[unsafe(no_mangle)]
pub unsafe extern "C" fn ymx_core_streams(at: *mut u8, ids: &mut [u32]) -> i64
    ghost old: { HandleValue }
    requires* { sem 𝓛 (lies_at the_row full_share at old) }
    ensures* { ∃ₛ (λ (now : HandleValue). sem 𝓛 (lies_at the_row full_share at now) ∗ ⌜ ListsStreams old result ids.old ids.new × (now ≡ old) ⌝) }
{
    face::streams(unsafe { &mut *(at as *mut Handle) }, ids)
}

/// Gives memory of a stream back that it doesn't need: 1, 0 where there was none to give, or a refusal.
#[unsafe(no_mangle)]
pub unsafe extern "C" fn ymx_core_shrink(at: *mut u8, id: u32) -> i64
    ghost old: { HandleValue }
    requires* { sem 𝓛 (lies_at the_row full_share at old) }
    ensures* { ∃ₛ (λ (now : HandleValue). sem 𝓛 (lies_at the_row full_share at now) ∗ ⌜ SaysGivenOf id old result × (now ≡ old) ⌝) }
{
    face::shrink(unsafe { &mut *(at as *mut Handle) }, id)
}

/// Gives the memory back that is kept for streams to come: 1, or 0 where there was none.
#[unsafe(no_mangle)]
pub unsafe extern "C" fn ymx_core_shrink_spare(at: *mut u8) -> i64
    ghost old: { HandleValue }
    requires* { sem 𝓛 (lies_at the_row full_share at old) }
    ensures* { ∃ₛ (λ (now : HandleValue). sem 𝓛 (lies_at the_row full_share at now) ∗ ⌜ SaysGiven result × (now ≡ old) ⌝) }
{
    face::shrink_spare(unsafe { &mut *(at as *mut Handle) })
}

/// Half-closes a stream (half-close): 0, or a refusal.
#[unsafe(no_mangle)]
pub unsafe extern "C" fn ymx_core_finish(at: *mut u8, id: u32) -> i64
    ghost old: { HandleValue }
    requires* { sem 𝓛 (lies_at the_row full_share at old) }
    ensures* { ∃ₛ (λ (now : HandleValue). sem 𝓛 (lies_at the_row full_share at now) ∗ ⌜ AnswersOf id old (event.Call (call.Finish id)) result now ⌝) }
{
    face::finish(unsafe { &mut *(at as *mut Handle) }, id)
}

/// Resets a stream (flags): 0, or a refusal.
#[unsafe(no_mangle)]
pub unsafe extern "C" fn ymx_core_reset(at: *mut u8, id: u32) -> i64
    ghost old: { HandleValue }
    requires* { sem 𝓛 (lies_at the_row full_share at old) }
    ensures* { ∃ₛ (λ (now : HandleValue). sem 𝓛 (lies_at the_row full_share at now) ∗ ⌜ AnswersOf id old (event.Call (call.Reset id)) result now ⌝) }
{
    face::reset(unsafe { &mut *(at as *mut Handle) }, id)
}

/// Gives a stream up: 0, or a refusal.
#[unsafe(no_mangle)]
pub unsafe extern "C" fn ymx_core_forget(at: *mut u8, id: u32) -> i64
    ghost old: { HandleValue }
    requires* { sem 𝓛 (lies_at the_row full_share at old) }
    ensures* { ∃ₛ (λ (now : HandleValue). sem 𝓛 (lies_at the_row full_share at now) ∗ ⌜ AnswersOf id old (event.Call (call.Forget id)) result now ⌝) }
{
    face::forget(unsafe { &mut *(at as *mut Handle) }, id)
}

/// Releases a stream: it is finished, what comes of it is dropped, and it is forgotten once the peer's end is there. 0, or a
/// refusal.
#[unsafe(no_mangle)]
pub unsafe extern "C" fn ymx_core_release(at: *mut u8, id: u32) -> i64
    ghost old: { HandleValue }
    requires* { sem 𝓛 (lies_at the_row full_share at old) }
    ensures* { ∃ₛ (λ (now : HandleValue). sem 𝓛 (lies_at the_row full_share at now) ∗ ⌜ ReleasesOne id old result now ⌝) }
{
    face::release(unsafe { &mut *(at as *mut Handle) }, id)
}

/// Feeds bytes that came from the peer (framing): how many were taken.
#[unsafe(no_mangle)]
pub unsafe extern "C" fn ymx_core_feed(at: *mut u8, input: &[u8]) -> i64
    ghost old: { HandleValue }
    requires* { sem 𝓛 (lies_at the_row full_share at old) }
    ensures* { ∃ₛ (λ (now : HandleValue). sem 𝓛 (lies_at the_row full_share at now) ∗ ⌜ AnswersThenPurges old (event.Feed input.now) result now ⌝) }
{
    face::feed(unsafe { &mut *(at as *mut Handle) }, input)
}

/// Feeds bytes that came from the peer, as `ymx_core_feed` does, and notes at `noted` the streams that they touch.
#[unsafe(no_mangle)]
pub unsafe extern "C" fn ymx_core_feed_touching(at: *mut u8, input: &[u8], noted: *mut u8) -> i64
    ghost old: { HandleValue × Noted }
    requires* { sem 𝓛 (lies_at the_row full_share at old.0) ∗ sem 𝓛 (lies_at touched_row full_share noted old.1) }
    ensures* { ∃ₛ (λ (now : HandleValue × Noted). sem 𝓛 (lies_at the_row full_share at now.0) ∗ sem 𝓛 (lies_at touched_row full_share noted now.1) ∗ ⌜ TouchesThenPurges old.0 old.1 input.now result now.0 now.1 ⌝) }
{
    face::feed_touching(
        unsafe { &mut *(at as *mut Handle) },
        input,
        unsafe { &mut *(noted as *mut Touched) },
    )
}

/// The peer's bytes have ended: 0.
#[unsafe(no_mangle)]
pub unsafe extern "C" fn ymx_core_feed_end(at: *mut u8) -> i64
    ghost old: { HandleValue }
    requires* { sem 𝓛 (lies_at the_row full_share at old) }
    ensures* { ∃ₛ (λ (now : HandleValue). sem 𝓛 (lies_at the_row full_share at now) ∗ ⌜ AnswersThenPurges old event.FeedEnd result now ⌝) }
{
    face::feed_end(unsafe { &mut *(at as *mut Handle) })
}

/// Emits what is due and fits (framing): how many bytes stand at the buffer's front.
#[unsafe(no_mangle)]
pub unsafe extern "C" fn ymx_core_emit(at: *mut u8, buffer: &mut [u8]) -> i64
    ghost old: { HandleValue }
    requires* { sem 𝓛 (lies_at the_row full_share at old) }
    ensures* { ∃ₛ (λ (now : HandleValue). sem 𝓛 (lies_at the_row full_share at now) ∗ ⌜ FillsIn old (event.Emit (length buffer.old)) result buffer.new now ⌝) }
{
    face::emit(unsafe { &mut *(at as *mut Handle) }, buffer)
}

/// Whether an emission into a buffer that isn't empty gives a byte: 1, or 0.
#[unsafe(no_mangle)]
pub unsafe extern "C" fn ymx_core_due(at: *mut u8) -> i64
    ghost old: { HandleValue }
    requires* { sem 𝓛 (lies_at the_row full_share at old) }
    ensures* { ∃ₛ (λ (now : HandleValue). sem 𝓛 (lies_at the_row full_share at now) ∗ ⌜ (result ≡ flag (is_ready old.session)) × (now ≡ old) ⌝) }
{
    face::due(unsafe { &mut *(at as *mut Handle) })
}

/// The state of the session: 0 running, 1 lost, 2 closed, 101 to 109 broken by the fault of that number.
#[unsafe(no_mangle)]
pub unsafe extern "C" fn ymx_core_status(at: *mut u8) -> i64
    ghost old: { HandleValue }
    requires* { sem 𝓛 (lies_at the_row full_share at old) }
    ensures* { ∃ₛ (λ (now : HandleValue). sem 𝓛 (lies_at the_row full_share at now) ∗ ⌜ (result ≡ status_number old.session.status) × (now ≡ old) ⌝) }
{
    face::status(unsafe { &mut *(at as *mut Handle) })
}

// ---- without copies

/// Writes bytes to a stream and emits the frame that carries them, at once: how many bytes stand at the buffer's front, or 0
/// where they don't go through, and then nothing has changed.
#[unsafe(no_mangle)]
pub unsafe extern "C" fn ymx_core_write_through(
    at: *mut u8,
    id: u32,
    bytes: &[u8],
    buffer: &mut [u8],
) -> i64
    ghost old: { HandleValue }
    requires* { sem 𝓛 (lies_at the_row full_share at old) }
    ensures* { ∃ₛ (λ (now : HandleValue). sem 𝓛 (lies_at the_row full_share at now) ∗ ⌜ WritesOn id bytes.now buffer.old buffer.new old result now ⌝) }
{
    face::write_through(unsafe { &mut *(at as *mut Handle) }, id, bytes, buffer)
}

/// Feeds bytes as `ymx_core_feed_touching` does, up to the first payload that may be passed on.
#[unsafe(no_mangle)]
pub unsafe extern "C" fn ymx_core_feed_to_payload(at: *mut u8, input: &[u8], noted: *mut u8) -> i64
    ghost old: { HandleValue × Noted }
    requires* { sem 𝓛 (lies_at the_row full_share at old.0) ∗ sem 𝓛 (lies_at touched_row full_share noted old.1) }
    ensures* { ∃ₛ (λ (now : HandleValue × Noted). sem 𝓛 (lies_at the_row full_share at now.0) ∗ sem 𝓛 (lies_at touched_row full_share noted now.1) ∗ ⌜ ToPayloadThenPurges old.0 old.1 input.now result now.0 now.1 ⌝) }
{
    face::feed_to_payload(
        unsafe { &mut *(at as *mut Handle) },
        input,
        unsafe { &mut *(noted as *mut Touched) },
    )
}

/// How many bytes of a payload may be passed on, or 0. Its stream's id is written to the first place of `out`.
#[unsafe(no_mangle)]
pub unsafe extern "C" fn ymx_core_passing(at: *mut u8, out: &mut [u32]) -> i64
    ghost old: { HandleValue }
    requires* { sem 𝓛 (lies_at the_row full_share at old) }
    ensures* { ∃ₛ (λ (now : HandleValue). sem 𝓛 (lies_at the_row full_share at now) ∗ ⌜ TellsPassing old result out.old out.new × (now ≡ old) ⌝) }
{
    face::passing(unsafe { &mut *(at as *mut Handle) }, out)
}

/// Passes bytes on that the caller has taken right from what came: how many of them.
#[unsafe(no_mangle)]
pub unsafe extern "C" fn ymx_core_pass(at: *mut u8, bytes: &[u8]) -> i64
    ghost old: { HandleValue }
    requires* { sem 𝓛 (lies_at the_row full_share at old) }
    ensures* { ∃ₛ (λ (now : HandleValue). sem 𝓛 (lies_at the_row full_share at now) ∗ ⌜ PassesSome old bytes.now result now ⌝) }
{
    face::pass(unsafe { &mut *(at as *mut Handle) }, bytes)
}

// ---- the streams that were touched

/// Makes a note of touched streams with nothing noted, and writes its address to `out`. 0, or -11 where there is no
/// memory, and then NULL is written.
#[unsafe(no_mangle)]
pub extern "C" fn ymx_core_touched_new(alloc: Global, out: &mut *mut u8) -> i64
    ensures answer { IsNoteMade result out.new ⊎ IsNoNote result out.new }
    ensures* memory { sem 𝓛 (handed touched_row out.new (nothing_noted false)) }
{
    let Made { at, answer } = face::make_touched(alloc);
    *out = at as *mut u8;
    answer
}

/// Ends a note of touched streams and gives back all that it keeps. What it lay in is room again.
#[unsafe(no_mangle)]
pub unsafe extern "C" fn ymx_core_touched_drop(at: *mut u8)
    ghost old: { Noted }
    requires* { sem 𝓛 (lies_at touched_row full_share at old) }
    ensures* { sem 𝓛 (room_at touched_row at) }
{
    face::end_touched(unsafe { (at as *mut Touched).read() });
}

/// The ids of the streams that are noted, as many as fit, at the buffer's front: how many are noted.
#[unsafe(no_mangle)]
pub unsafe extern "C" fn ymx_core_touched_ids(at: *mut u8, buffer: &mut [u32]) -> i64
    ghost old: { Noted }
    requires* { sem 𝓛 (lies_at touched_row full_share at old) }
    ensures* { ∃ₛ (λ (now : Noted). sem 𝓛 (lies_at touched_row full_share at now) ∗ ⌜ ListsIds old result buffer.old buffer.new × (now ≡ old) ⌝) }
{
    face::touched_ids(unsafe { &mut *(at as *mut Touched) }, buffer)
}

/// Whether any stream may have been touched: 1, or 0.
#[unsafe(no_mangle)]
pub unsafe extern "C" fn ymx_core_touched_is_all(at: *mut u8) -> i64
    ghost old: { Noted }
    requires* { sem 𝓛 (lies_at touched_row full_share at old) }
    ensures* { ∃ₛ (λ (now : Noted). sem 𝓛 (lies_at touched_row full_share at now) ∗ ⌜ (result ≡ flag old.all) × (now ≡ old) ⌝) }
{
    face::touched_is_all(unsafe { &mut *(at as *mut Touched) })
}

/// Whether an answer to a ping came: 1, or 0.
#[unsafe(no_mangle)]
pub unsafe extern "C" fn ymx_core_touched_has_pong(at: *mut u8) -> i64
    ghost old: { Noted }
    requires* { sem 𝓛 (lies_at touched_row full_share at old) }
    ensures* { ∃ₛ (λ (now : Noted). sem 𝓛 (lies_at touched_row full_share at now) ∗ ⌜ (result ≡ flag old.ponged) × (now ≡ old) ⌝) }
{
    face::touched_has_pong(unsafe { &mut *(at as *mut Touched) })
}

/// Nothing is noted from here on: 0.
#[unsafe(no_mangle)]
pub unsafe extern "C" fn ymx_core_touched_clear(at: *mut u8) -> i64
    ghost old: { Noted }
    requires* { sem 𝓛 (lies_at touched_row full_share at old) }
    ensures* { ∃ₛ (λ (now : Noted). sem 𝓛 (lies_at touched_row full_share at now) ∗ ⌜ IsCleared old result now ⌝) }
{
    face::touched_clear(unsafe { &mut *(at as *mut Touched) })
}
