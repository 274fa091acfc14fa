//! What a caller can ask of its streams. No call here changes anything.

ghost use Rattle.std.specs.Prelude.{◌≡◌, ◌⊎◌, ℕ, ◌+◌, ◌<◌, ◌≤◌, ◌↔◌, ◌==◌, ◌||◌, ◌++◌, List, [], ◌∷◌, length, take, drop, min, true, false, not, None, Some, is_some, IsTrue, IsSome, IfSome, IfNone, IfOk, IfErr, OnErr};
ghost use Rattle.std.specs.Option.{ForSome};
ghost use Rattle.ymx_model.specs.declared.types.Event.TheVariants as event;
ghost use Rattle.ymx_machine.specs.declared.types.Call.TheVariants as call;
ghost use Rattle.ymx_machine.specs.declared.types.Reply.TheVariants as reply;
ghost use Rattle.ymx_machine.specs.declared.types.CallFault.TheVariants.{Reset};
ghost use Rattle.ymx_machine.specs.shared.Limits.{first_credit, widest_window, most_unacknowledged, most_records};
ghost use Rattle.ymx_machine.specs.shared.Lists.{look, Distinct};
ghost use Rattle.ymx_model.specs.session.Sessions.{new_session, is_own, belongs_to};
ghost use Rattle.ymx_model.specs.session.Calls.{open_stream, open_with, accept, write_to, read_from, finish, reset, forget, ping, ponged, go_away, close, feed_end, takes_memory, unsent_count};
ghost use Rattle.ymx_model.specs.session.Feeds.{Feeds, is_stuck, why_of};
ghost use Rattle.ymx_model.specs.session.FramesDue.{frame};
ghost use Rattle.ymx_model.specs.session.Emissions.{Emits, in_turn, is_ready};
ghost use Rattle.ymx_model.specs.session.Histories.{Gives};
ghost use Rattle.ymx_table.specs.Listing.{held_ids};
ghost use Rattle.ymx_session.specs.NewSessions.{first_id, new_fault, IsNewFault};
ghost use Rattle.ymx_machine.specs.shared.Replies.{bytes_moved};
ghost use Rattle.ymx_session.specs.Streams.{waiting, room_of, granted_of, has_ended, unsent_of, unsent_total, next_of, is_acknowledged, stream_ids, header_begun, payload_left};
ghost use Rattle.ymx_session.specs.Opens.{opens_left, records_left};
ghost use Rattle.ymx_session.specs.Releases.{has_stream, goes_on, tended};
ghost use Rattle.ymx_session.specs.Passing.{passing, passing_behind, IsPlainHeader, PassesBehind, Passes, TakesUnpassed, FeedsSome};
ghost use Rattle.ymx_session.specs.Through.{goes_through, WritesThrough};
ghost use Rattle.ymx_session.specs.Touched.{NotesChanges, NotesOnly, StaysNoted};
ghost use Rattle.ymx_session.specs.Turns.{HasDue, FlowsPast, IsNearerBy};
ghost use Rattle.ymx_session.specs.Replies.{done_or, opened_or, opened_with_or, accepted_or, wrote_or, read_or, pinged_or, ponged_or, count_of, is_out_of_memory, stream_fault};

use crate::session::Session;
use ymx_half::Stage;
use ymx_model::{CallFault, FrameKind, Status, Wrote};

impl Session {
    /// The first bytes that wait to be read on a stream, as they lie in its ring: none is copied, and none is taken
    /// out. There are some if any byte waits. Those that wrap round the end of the ring come once those before them
    /// were consumed.
    ///
    /// Where `read` would be refused, or would answer `End` or `Wait`, there are none.
    pub fn unread(&self, id: u32) -> &[u8]
        ensures first { result.now ≡ take (length result.now) (waiting id self.now) }
        ensures some { 0 < length (waiting id self.now) → 0 < length result.now }
    {
        let (first, wrapped) = self.unread_slices(id);
        if first.is_empty() { wrapped } else { first }
    }

    /// All bytes that wait to be read on a stream, as they lie in its ring: those up to its end, and after them those
    /// that wrap round it. None is copied, and none is taken out.
    ///
    /// Where `read` would be refused, or would answer `End` or `Wait`, there are none.
    pub fn unread_slices(&self, id: u32) -> (&[u8], &[u8])
        ensures all { result.0.now ++ result.1.now ≡ waiting id self.now }
    {
        match self.state.stream(id) {
            Ok(stream) => stream.unread(),
            Err(_) => (&[], &[]),
        }
    }

    /// How many bytes of a stream came and wait to be read, also those that wrap round the end of its ring (`unread`
    /// lends those before). 0 where `read` would be refused with `Closed`, `NoStream` or `Reset`. One look-up.
    pub fn unread_count(&self, id: u32) -> usize
        ensures { result ≡ length (waiting id self.now) }
    {
        match self.state.stream(id) {
            Ok(stream) => stream.unread_len(),
            Err(_) => 0,
        }
    }

    /// How many bytes a `write` to a stream would take now, exactly: its credit (flow control). 0 where `write`
    /// would be refused. Lack of memory, for which `write` may be refused too, is not looked for.
    pub fn room(&self, id: u32) -> usize
        ensures exact { result ≡ room_of id self.now }
        ensures takes { (bytes : List ℕ) → bytes_moved (write_to id bytes self.now).reply ≡ min (length bytes) result }
    {
        self.state.room(id)
    }

    /// How many bytes the peer may still send on a stream, by the credit that was announced to it (flow control). With those
    /// that wait to be read, and those that were read and not announced yet, they make up the window, until its end has come.
    /// 0 where `read` would be refused with `Closed`, `NoStream` or `Reset`. One look-up.
    pub fn granted(&self, id: u32) -> u32
        ensures { result ≡ granted_of id self.now }
    {
        match self.state.stream(id) {
            Ok(stream) => stream.granted(),
            Err(_) => 0,
        }
    }

    /// Whether the peer has finished a stream and all was read: a `read` would answer `End` (half-close). False where
    /// it would be refused.
    pub fn is_at_end(&self, id: u32) -> bool
        ensures { IsTrue result ↔ ((read_from id 1 self.now).reply ≡ reply.ReadEnd) }
    {
        match self.state.stream(id) {
            Ok(stream) => stream.has_ended() && stream.unread_len() == 0,
            Err(_) => false,
        }
    }

    /// Whether a `read` into a buffer that isn't empty would answer `Wait`. False where it would be refused.
    pub fn read_waits(&self, id: u32) -> bool
        ensures { IsTrue result ↔ ((read_from id 1 self.now).reply ≡ reply.ReadWait) }
    {
        match self.state.stream(id) {
            Ok(stream) => {
                stream.unread_len() == 0 && !stream.has_ended() && !self.state.is_lost()
            }
            Err(_) => false,
        }
    }

    /// Whether a `write` of one byte would answer `Wait`, as there is no credit (flow control). False where it would be
    /// refused.
    pub fn write_waits(&self, id: u32) -> bool
        ensures { IsTrue result ↔ ((write_to id (0 ∷ []) self.now).reply ≡ reply.Wrote Wrote.Wait) }
    {
        match self.state.stream(id) {
            Ok(stream) => { stream.credit() == 0 && !stream.is_finished() && !self.state.is_lost() }
            Err(_) => false,
        }
    }

    /// Whether the peer's end of a stream, its FIN, has arrived (half-close): also while bytes wait to be read, which are
    /// then the last. From then on a stream that is finished on this side may be forgotten, and loses nothing that was
    /// written. False where `read` would be refused with `Closed`, `NoStream` or `Reset`. One look-up.
    pub fn has_ended(&self, id: u32) -> bool
        ensures { result ≡ has_ended id self.now }
    {
        match self.state.stream(id) {
            Ok(stream) => stream.has_ended(),
            Err(_) => false,
        }
    }

    /// How many bytes were written to a stream and stand in no frame begun yet (framing). 0 says that all that was
    /// written stands in frames, of which the last may be emitted in part. 0 where `read` would be refused with `Closed`,
    /// `NoStream` or `Reset`. One look-up.
    pub fn unsent(&self, id: u32) -> usize
        ensures { result ≡ unsent_of id self.now }
    {
        match self.state.stream(id) {
            Ok(stream) => stream.unsent_len(),
            Err(_) => 0,
        }
    }

    /// How many bytes of all streams were written and stand in no frame begun yet, of streams that were forgotten too
    /// (framing). 0 says that all that was written stands in frames; while `due` is true the last of these may be emitted
    /// in part. 0 once the session is closed, which drops them. No stream is looked at.
    pub fn unsent_total(&self) -> u128
        ensures { result ≡ unsent_total self.now }
    {
        if self.state.status == Status::Closed {
            return 0;
        }
        self.state.table.unsent_sum()
    }

    /// Which frame of a stream begins next, of those that are due of it (framing): the first in the order open, accept,
    /// reset, credit, data, end. So each that comes before it in this order has begun, or isn't due, and `None` says that
    /// of all of them. What has begun is out, but for the rest that `has_rest` tells of.
    ///
    /// It answers for each stream that the session still knows, also of one that was forgotten and has something to send.
    /// `None` where there is none, and in a session that isn't running, in which no frame begins. One look-up.
    pub fn next_of(&self, id: u32) -> Option<FrameKind>
        ensures { result ≡ next_of id self.now }
    {
        if self.state.status != Status::Running {
            return None;
        }
        let stream = self.state.table.get(id)?;
        stream.next_frame(self.state.table.window())
    }

    /// Whether a frame of this stream was emitted in part (framing). The next emission begins with the rest of it, which has
    /// fewer than 16,396 bytes.
    pub fn has_rest(&self, id: u32) -> bool
        ensures { result ≡ belongs_to self.now.outgoing.of id }
    {
        self.state.outgoing.of() == Some(id)
    }

    /// Whether the peer has acknowledged a stream by a frame with ACK (flags). Asked of a stream that was opened here: of
    /// one that the peer opened it is true only if the peer sends an ACK for it, which the standard doesn't have. False
    /// where `read` would be refused with `Closed`, `NoStream` or `Reset`. One look-up.
    pub fn is_acknowledged(&self, id: u32) -> bool
        ensures { result ≡ is_acknowledged id self.now }
    {
        match self.state.stream(id) {
            Ok(stream) => stream.is_acknowledged(),
            Err(_) => false,
        }
    }

    /// Whether a stream was reset, by this side or by the peer (flags), and isn't forgotten: its calls but `forget`
    /// answer `Reset`. False in a session that is closed. One look-up.
    pub fn is_reset(&self, id: u32) -> bool
        ensures { IsTrue result ↔ (stream_fault id self.now ≡ Some Reset) }
    {
        matches!(self.state.stream(id), Err(CallFault::Reset))
    }

    /// The ids of the caller's streams, which are those that were opened or accepted and not forgotten, also where they
    /// were reset, in whatever state the session is: in the order in which the session came to know them, as many as fit
    /// at the front of `ids`. It returns how many there are in all, at most 1,024. The rest of `ids` stays as it was.
    ///
    /// Each stream of the session is looked at.
    pub fn streams(&self, ids: &mut [u32]) -> usize
        ensures count { result ≡ length (stream_ids self.now) }
        ensures listed { ids.new ≡ take (length ids.old) (stream_ids self.now) ++ drop result ids.old }
    {
        self.streams_but(&[], ids)
    }

    /// The same, without the streams in `but`.
    pub(crate) fn streams_but(&self, but: &[u32], ids: &mut [u32]) -> usize
        ensures count { result ≡ length (held_ids but.now self.now.table.entries) }
        ensures listed { ids.new ≡ take (length ids.old) (held_ids but.now self.now.table.entries) ++ drop result ids.old }
    {
        self.state.table.held_ids(but, ids)
    }

    /// Whether the caller has a stream of this id.
    pub(crate) fn has_stream(&self, id: u32) -> bool
        ensures { result ≡ has_stream id self.now }
    {
        match self.state.table.get(id) {
            Some(stream) => matches!(stream.stage(), Stage::Live | Stage::Reset),
            None => false,
        }
    }

    /// Whether more may come of the stream.
    pub(crate) fn goes_on(&self, id: u32) -> bool
        ensures { result ≡ goes_on id self.now }
    {
        if self.state.status != Status::Running {
            return false;
        }
        match self.state.table.get(id) {
            Some(stream) => stream.stage() == Stage::Live && !stream.has_ended(),
            None => false,
        }
    }

    /// No two streams have the same id. It does nothing: its contract is a fact of every session.
    pub(crate) fn ids_differ(&self)
        ensures { Distinct self.now.table.entries }
    {
        let _within = &self.state;
    }
}
