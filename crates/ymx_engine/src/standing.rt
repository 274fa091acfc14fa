//! How a tunnel stands: whether it has work, and what its session and its connections say.

ghost use Rattle.std.specs.Prelude.{ℕ, ◌≡◌, ◌+◌, ◌≤◌, ◌==◌, ◌||◌, length, min, slice_get, true, false, option_map, IfSome, Option};
ghost use Rattle.std.specs.Map.{keys_of};
ghost use Rattle.ymx_model.specs.session.Sessions.{is_running};
ghost use Rattle.ymx_session.specs.Opens.{opens_left};
ghost use Rattle.ymx_engine.specs.Engines.{is_flushed, unframed};
ghost use Rattle.ymx_engine.specs.Runs.{IsOver};
ghost use Rattle.ymx_engine.specs.Served.{Serving, NoneWaits, NoneGives, NoneEnds, NoneStops, NoneHangs};
ghost use Rattle.ymx_engine.specs.Turns.{Waits, HasTurnSoon, look, directions_of, is_over_at};
ghost use Rattle.ymx_engine.specs.Work.{has_work, has_to_write, may_read_wire};

use crate::device::Device;
use crate::directions::Directions;
use crate::tunnel::Tunnel;
use ymx_model::Status;

impl<D: Device + Drop, W: Device + Drop> Tunnel<D, W> {
    /// Whether a round may move something though no event comes: a connection waits for a turn or missed one, the wire may
    /// have bytes or bytes of it wait to be fed, or something is due that the wire may take. If not, the caller may wait for
    /// the next event.
    pub fn has_work(&self) -> bool
        ensures exact { result ≡ has_work self.now }
        // At rest no bytes of a stream wait that its device may take now.
        ensures rest { Serving self.now → result ≡ false → NoneWaits self.now }
        // Where the wire may take bytes too, no stream takes bytes that its device may have.
        ensures gives { Serving self.now → result ≡ false → self.now.wire.marks.may_push ≡ true → NoneGives self.now }
        // In a session that is over no direction to the peer is open then.
        ensures hears { Serving self.now → result ≡ false → NoneHangs self.now }
        // So more may come on each stream whose device may take bytes now: where none may, the device was told.
        ensures ends { Serving self.now → result ≡ false → NoneEnds self.now }
        // And each stream takes bytes, or was finished here, whose direction to the peer is open, also while its connection is being made.
        ensures stops { Serving self.now → result ≡ false → NoneStops self.now }
    {
        self.may_move()
    }

    /// Whether a round may move something.
    fn may_move(&self) -> bool
        ensures { result ≡ has_work self.now }
    {
        !self.connections.is_idle()
            || self.connections.has_missed()
            || self.may_read_wire()
            || (self.wire.may_push() && self.has_to_write())
    }

    /// Whether bytes are to go to the wire, or a connection is held back until none are.
    fn has_to_write(&self) -> bool
        ensures { result ≡ has_to_write self.now }
    {
        self.session.due() || !self.outgoing.waiting().is_empty() || self.connections.has_held()
    }

    /// Whether the wire may have bytes, or bytes of it may be fed now.
    fn may_read_wire(&self) -> bool
        ensures { result ≡ may_read_wire self.now }
    {
        if self.incoming.waiting().is_empty() {
            self.wire.may_pull() && !self.is_wire_over
        } else {
            self.outgoing.waiting().is_empty() && matches!(self.session.status(), Status::Running)
        }
    }

    /// Whether the wire has failed, or has taken all that was due.
    pub fn is_over(&self) -> bool
        ensures exact { IfSome self.now.wire.failed (λ failed. result ≡ (failed || is_flushed self.now.engine)) }
        ensures over { result ≡ true → IsOver self.now }
    {
        self.wire.has_failed() || self.is_flushed()
    }

    /// Whether nothing is due, and the wire has taken all that was emitted.
    pub fn is_flushed(&self) -> bool
        ensures { result ≡ is_flushed self.now.engine }
    {
        self.outgoing.waiting().is_empty() && !self.session.due()
    }

    /// Whether neither way of a connection is open, or the stream has none.
    pub fn is_connection_over(&self, id: u32) -> bool
        ensures { result ≡ is_over_at id self.now.connections }
    {
        self.connections.is_over(id)
    }

    /// How the directions of a connection stand. `None` where the stream has none.
    pub fn directions(&self, id: u32) -> Option<Directions>
        ensures { result ≡ directions_of id self.now.connections }
    {
        self.connections.directions(id)
    }

    /// The device of a stream. `None` where it has none.
    pub fn device(&self, id: u32) -> Option<&D>
        ensures { option_map (λ device. D.seen device.now) result ≡ look id self.now.connections }
    {
        self.connections.device(id)
    }

    /// The stream of the connection at this place. `None` where there are no more than so many.
    pub fn id_at(&self, place: usize) -> Option<u32>
        ensures { result ≡ slice_get (keys_of self.now.connections.by_id) place }
    {
        self.connections.id_at(place)
    }

    /// How many connections there are.
    pub fn len(&self) -> usize
        ensures { result ≡ length self.now.connections.by_id }
    {
        self.connections.len()
    }

    /// Whether there is no connection.
    pub fn is_empty(&self) -> bool
        ensures { result ≡ (length self.now.connections.by_id == 0) }
    {
        self.connections.len() == 0
    }

    /// The wire.
    pub fn wire(&self) -> &W
        ensures { W.seen result.now ≡ self.now.wire }
    {
        &self.wire
    }

    /// How many connections wait for a turn.
    pub fn queued_count(&self) -> usize
        ensures count { result ≡ min (length self.now.connections.fresh + length self.now.connections.busy) usize.MAX }
        // Each connection waits once at most.
        ensures few { length self.now.connections.fresh + length self.now.connections.busy ≤ length self.now.connections.by_id }
        // A connection that waits has its turn within twice as many calls of `serve_next` as there are connections: each leaves it fewer before it.
        ensures soon { (id : ℕ) → Waits id self.now.connections → HasTurnSoon id self.now.connections }
    {
        self.connections.queued_count()
    }

    /// How many streams of the peer's were rejected for lack of memory, as the feeds of `read_wire` said. It stays at the
    /// greatest `u64`.
    pub fn no_memory(&self) -> u64
        ensures { result ≡ self.now.no_memory }
    {
        self.no_memory
    }

    /// How many streams wait to be accepted.
    pub fn offered_count(&self) -> usize
        ensures { result ≡ length self.now.engine.session.offered }
    {
        self.session.offered_count()
    }

    /// How many streams may be opened now, one after another. At 0 an opening is refused.
    pub fn opens_left(&self) -> usize
        ensures { result ≡ opens_left self.now.engine.session }
    {
        self.session.opens_left()
    }

    /// How many of the bytes that the wire gave stand after the last whole frame: those of a header that isn't whole, and
    /// those that the session hasn't taken. `None` while the payload of a frame is under way.
    pub fn unframed(&self) -> Option<usize>
        ensures { result ≡ unframed self.now.engine }
    {
        let begun = self.session.header_begun()?;
        Some(begun + self.incoming.waiting().len())
    }

    /// Whether the peer has said that it takes no more streams. It stays so.
    pub fn is_peer_away(&self) -> bool
        ensures { result ≡ self.now.engine.session.away.there }
    {
        self.session.is_peer_away()
    }

    /// The id of the next stream that is opened.
    pub fn next_id(&self) -> u32
        ensures { result ≡ self.now.engine.session.next }
    {
        self.session.next_id()
    }

    /// The state of the session.
    pub fn status(&self) -> Status
        ensures { result ≡ self.now.engine.session.status }
    {
        self.session.status()
    }
}
