//! What comes over the wire of a tunnel: it is fed to the session, or goes straight to the devices that take it.

ghost use Rattle.std.specs.Prelude.{ℕ, ◌≡◌, ◌+◌, ◌⊎◌, ◌<◌, ◌≤◌, ◌&&◌, ◌||◌, nat_lt, nat_le, if◌then◌else◌, [], length, true, false, None, Some, IfSome, IfNone, IsSome};
ghost use Rattle.std.specs.Option.{option_map_or};
ghost use Rattle.ymx_machine.specs.declared.types.Reply.TheVariants as reply;
ghost use Rattle.ymx_model.specs.declared.types.Event.TheVariants as event;
ghost use Rattle.ymx_model.specs.session.Emissions.{in_turn};
ghost use Rattle.ymx_model.specs.session.Feeds.{is_stuck};
ghost use Rattle.ymx_model.specs.session.Histories.{Gives};
ghost use Rattle.ymx_model.specs.session.Sessions.{is_running};
ghost use Rattle.ymx_session.specs.Passing.{passing};
ghost use Rattle.ymx_engine.specs.Engines.{KeepsWire};
ghost use Rattle.ymx_engine.specs.Wires.{count_on};
ghost use Rattle.ymx_engine.specs.Exchanges.{has_bytes};
ghost use Rattle.ymx_engine.specs.Moves.{Moves};
ghost use Rattle.ymx_engine.specs.Passes.{IsRow, row_len};
ghost use Rattle.ymx_engine.specs.Places.{is_put_off, may_open, lacks_place, feed_limit, IsFedOrWaits, FeedsToFull};
ghost use Rattle.ymx_engine.specs.InPlace.{OffersRow, PassesRow, PullsWire, ReadsInPlace};
ghost use Rattle.ymx_engine.specs.Runs.{Runs, Stays, Rests};
ghost use Rattle.ymx_engine.specs.Served.{Serving};
ghost use Rattle.ymx_engine.specs.Steps.{Keeps, ReadsOn, StaysOver};
ghost use Rattle.ymx_engine.specs.Turns.{connection_of, Awaits, IsDue, KeepsConnections, Waits, turns_left};
ghost use Rattle.ymx_engine.specs.Directions.{may_push};
ghost use Rattle.ymx_engine.specs.Work.{Reads};

use crate::device::{Device, Pulled};
use crate::row::{Row, row_of};
use crate::tunnel::Tunnel;
use ymx_header::{HEADER_LENGTH, TYPE_PING, decode};
use ymx_model::Status;

impl<D: Device + Drop, W: Device + Drop> Tunnel<D, W> {
    /// Reads from the wire once, where all that it gave before was fed, and feeds what waits. Payload of which `least` bytes
    /// of one frame wait, or a row of whole frames that fills a call, goes straight to the device that takes it. Once the wire
    /// has ended or failed the session is lost.
    ///
    /// A frame that opens a stream waits where 1,024 streams are there, and with it all after it, as long as a connection waits for
    /// a turn in which it may make place: until each that waits for one as the frame comes has had it. So no stream is rejected for
    /// one that has ended before it.
    ///
    /// This call alone lacks memory, as `no_memory` tells: where a feed rejects
    /// a stream of the peer's for lack of it.
    pub fn read_wire(&mut self, least: usize)
        ensures runs { Runs self.old self.new }
        ensures stays { Stays self.old self.new }
        ensures rests { Rests self.old self.new }
        // Where nothing waits to be fed and the wire may have bytes, it gives some, or may have none now.
        ensures reads { Reads self.old self.new }
        // All that waits is fed, as far as the session takes it now, and the next frame doesn't wait for a place.
        ensures fed { IsFedOrWaits self.new }
        // As long as the next frame waits for a place, nothing comes, and each connection is due that was to have its turn before it.
        ensures waits { is_put_off self.old ≡ true → (self.new.engine ≡ self.old.engine) × (self.new.wire ≡ self.old.wire) }
        ensures due { is_put_off self.old ≡ true → (id : ℕ) → IsDue id self.old.connections → IsDue id self.new.connections }
        // Where a frame comes to wait at this call, each connection that waits for a turn then has it before the frame comes.
        ensures first { is_put_off self.old ≡ false → is_put_off self.new ≡ true → (id : ℕ) → Waits id self.new.connections → IsDue id self.new.connections }
        // Nothing happens but steps that feed no byte of a frame while it waits.
        ensures placed { ReadsInPlace self.old self.new }
    {
        self.pull_wire();
        // each row that is passed on has a byte at least
        let rows = self.incoming.waiting().len().max(1);
        'payload: for turn in 0..rows {
            match self.advance(least) {
                Some(row) => self.pass(row),
                None => return,
            }
        }
    }

    /// Reads from the wire once, where all that it gave before was fed. What it gives waits to be fed.
    fn pull_wire(&mut self)
        ensures runs { Runs self.old self.new }
        ensures stays { Stays self.old self.new }
        ensures rests { Rests self.old self.new }
        ensures reads { Reads self.old self.new }
        ensures full { has_bytes self.old.engine.incoming ≡ true → self.new ≡ self.old }
        ensures pulls { (self.new ≡ self.old) ⊎ PullsWire self.old self.new }
    {
        if !self.incoming.waiting().is_empty() || !self.wire.may_pull() || self.is_wire_over {
            return;
        }
        match self.incoming.pull_from(&mut self.wire) {
            Pulled::Gave(_) | Pulled::NotNow => self.connections.count_turns(None),
            Pulled::Ended | Pulled::Failed => {
                self.lose();
                self.connections.count_turns(None);
            }
        }
    }

    /// The session hears that no more bytes come from the wire. All connections have a turn.
    pub(crate) fn lose(&mut self)
        ensures lost { is_running self.new.engine.session.status ≡ false }
        ensures over { self.new.is_wire_over ≡ true }
        ensures wire { self.new.wire ≡ self.old.wire }
        ensures connections { KeepsConnections self.old.connections self.new.connections }
        ensures memory { self.new.no_memory ≡ self.old.no_memory }
        ensures event { Gives in_turn self.old.engine.session event.FeedEnd reply.Done self.new.engine.session }
        ensures bytes { KeepsWire self.old.engine self.new.engine }
        ensures serves { Serving self.old → Serving self.new }
    {
        self.is_wire_over = true;
        self.session.feed_end();
        self.connections.enqueue_all();
    }

    /// Feeds what waits up to a row of payload that is worth a call of its device, which may take some. `None` where all that
    /// can be fed now was fed, or where the next frame waits for a place.
    ///
    /// Payload goes into its stream's ring where its device may not take bytes now, or where a call of it is not worth
    /// making. It is worth one where `least` bytes of the frame wait, or where a row fills a call.
    fn advance(&mut self, least: usize) -> Option<Row>
        ensures keeps { Keeps self.old self.new }
        ensures placed { ReadsInPlace self.old self.new }
        // It stops where a row may be passed on, or where the session takes no more now.
        ensures row { IfSome result (λ row. IsRow row self.new.engine.incoming self.new.engine.session × (0 < row.first)) }
        ensures rest { IfNone result (IsFedOrWaits self.new) }
        ensures few { length self.new.engine.incoming ≤ length self.old.engine.incoming }
        ensures waits { is_put_off self.old ≡ true → (result ≡ None) × (self.new.engine ≡ self.old.engine) }
        ensures due { is_put_off self.old ≡ true → (id : ℕ) → IsDue id self.old.connections → IsDue id self.new.connections }
        // Where a frame comes to wait, each connection that waits for a turn then has it before the frame comes.
        ensures first { (is_put_off self.old ≡ false) ⊎ (self.old.connections.turns_to_place ≡ None) → is_put_off self.new ≡ true → (id : ℕ) → Waits id self.new.connections → IsDue id self.new.connections }
        ensures anew { IfSome result (λ row. self.new.connections.turns_to_place ≡ None) }
    {
        // each turn that goes on feeds a byte at least
        let turns = self.incoming.waiting().len().max(1);
        'payload: for turn in 0..turns {
            if self.puts_off_next() {
                return None;
            }
            if self.feed_to_payload() {
                continue 'payload;
            }
            let Some(row) = row_of(&self.session, self.incoming.waiting()) else {
                return None;
            };
            if self.is_worth_a_call(&row, least) {
                return Some(row);
            }
            self.feed_payload(row.count().max(1));
        }
        None
    }

    /// Whether the device of this row may take bytes, and there are so many in its first frame, one at least, or the row fills a
    /// call.
    fn is_worth_a_call(&self, row: &Row, least: usize) -> bool
        ensures { result ≡ (nat_lt 0 row.now.first && (nat_le least row.now.first || (nat_le 4096 (row_len row.now) && row.now.is_whole)) && option_map_or (λ l. may_push l.directions l.seen.marks) (connection_of row.now.id self.now.connections) false) }
    {
        row.count() > 0
            && (row.count() >= least || row.fills_a_call())
            && self.connections.may_push(row.id)
    }

    /// Whether the next frame waits for a place.
    fn puts_off_next(&mut self) -> bool
        ensures exact { result ≡ is_put_off self.old }
        ensures same { is_put_off self.new ≡ is_put_off self.old }
        ensures keeps { Keeps self.old self.new }
        ensures engine { self.new.engine ≡ self.old.engine }
        // So many turns it waits, at most.
        ensures counts { self.new.connections ≡ record self.old.connections { turns_to_place = if lacks_place self.old.engine then Some (turns_left self.old.connections) else None } }
        // Who waits for a turn as the frame comes to wait has it before the frame comes, and so has who was to have it before.
        ensures first { self.old.connections.turns_to_place ≡ None → (id : ℕ) → Waits id self.old.connections → IsDue id self.new.connections }
        ensures due { (id : ℕ) → IsDue id self.old.connections → IsDue id self.new.connections }
    {
        let lacks_place = self.lacks_place();
        self.connections.puts_off(lacks_place)
    }

    /// Whether a frame comes next that may open a stream, and there is no place for one.
    fn lacks_place(&self) -> bool
        ensures { result ≡ lacks_place self.now.engine }
    {
        self.session.records_left() == 0
            && matches!(self.session.header_begun(), Some(0))
            && may_open(self.incoming.waiting())
    }

    /// How many bytes are fed at once, so that none follows a header that takes the last place.
    fn feed_limit(&self) -> usize
        ensures { result ≡ feed_limit self.now.engine.session }
    {
        let places = self.session.records_left();
        let limit = match self.session.header_begun() {
            Some(begun) => HEADER_LENGTH * places.max(1) - begun,
            None => self.session.payload_left() as usize + HEADER_LENGTH * places,
        };
        limit.max(1)
    }

    /// Feeds what waits up to a payload that may be passed on, or to where the places may be taken. Whether it stopped there, and
    /// more waits.
    fn feed_to_payload(&mut self) -> bool
        // Where none waits for a place.
        requires placed { is_put_off self.old ≡ false }
        ensures keeps { Keeps self.old self.new }
        ensures goes_on { result ≡ true → length self.new.engine.incoming < length self.old.engine.incoming }
        ensures rest { result ≡ false → (self.new.engine.incoming ≡ []) ⊎ ((is_stuck self.new.engine.session ≡ true) ⊎ IsSome (passing self.new.engine.session)) }
        ensures few { length self.new.engine.incoming ≤ length self.old.engine.incoming }
        ensures placed { FeedsToFull self.old.engine self.new.engine }
        // The next frame has not waited yet.
        ensures anew { self.new.connections.turns_to_place ≡ None }
    {
        let limit = self.feed_limit();
        let fed = self
            .incoming
            .feed_to_payload(&mut self.session, limit, &mut self.touched);
        self.connections.on_touched(&mut self.touched);
        self.on_fed(fed.no_memory.get());
        if fed.taken < limit {
            return false;
        }
        !self.incoming.waiting().is_empty()
    }

    /// Feeds the first of the bytes that wait, so many at most, and no more than lack of the payload that is under way.
    fn feed_payload(&mut self, most: usize)
        ensures keeps { Keeps self.old self.new }
        ensures some { is_stuck self.old.engine.session ≡ false → 0 < most → 0 < length self.old.engine.incoming → length self.new.engine.incoming < length self.old.engine.incoming }
        ensures few { length self.new.engine.incoming ≤ length self.old.engine.incoming }
        ensures most { length self.old.engine.incoming ≤ length self.new.engine.incoming + most }
        ensures placed { FeedsToFull self.old.engine self.new.engine }
        ensures anew { self.new.connections.turns_to_place ≡ None }
    {
        let lack = (self.session.payload_left() as usize).max(1);
        let fed = self
            .incoming
            .feed_some(&mut self.session, most.min(lack), &mut self.touched);
        self.connections.on_touched(&mut self.touched);
        self.on_fed(fed.no_memory.get());
    }

    /// A feed was made, at which so many streams were rejected for lack of memory. Those that missed a turn have one, and where the
    /// session runs no more all have.
    fn on_fed(&mut self, rejected: u32)
        ensures engine { self.new.engine ≡ self.old.engine }
        ensures wire { self.new.wire ≡ self.old.wire }
        ensures over { self.new.is_wire_over ≡ self.old.is_wire_over }
        ensures connections { KeepsConnections self.old.connections self.new.connections }
        ensures memory { self.new.no_memory ≡ count_on self.old.no_memory rejected }
        ensures all { is_running self.new.engine.session.status ≡ false → (id : ℕ) → IsSome (connection_of id self.new.connections) → Awaits id self.new.connections }
        ensures place { self.new.connections.turns_to_place ≡ self.old.connections.turns_to_place }
    {
        self.no_memory = self.no_memory.saturating_add(rejected as u64);
        self.connections.enqueue_missed();
        if self.session.status() != Status::Running {
            self.connections.enqueue_all();
        }
    }

    /// Offers a row of payload that waits to its connection's device, in one call. What the device takes came and was read on
    /// the stream at once, with no stay in its ring. What it doesn't take of the first frame goes into the ring, and what it
    /// doesn't take of the others at the next `advance`. Where the device fails, its stream is reset and the device shut.
    fn pass(&mut self, row: Row)
        requires row { IsRow row self.old.engine.incoming self.old.engine.session }
        requires some { 0 < row.first }
        ensures runs { ReadsOn self.old self.new }
        ensures stays { Stays self.old self.new }
        ensures rests { Rests self.old self.new }
        ensures wire { self.new.wire ≡ self.old.wire }
        ensures over { self.new.is_wire_over ≡ self.old.is_wire_over }
        ensures closed { StaysOver self.old.connections self.new.connections }
        // Less of it waits after the call.
        ensures some { length self.new.engine.incoming < length self.old.engine.incoming }
        // What came lies in the row.
        ensures passed { PassesRow row self.old self.new }
    {
        let taken = self.offer(row);
        if taken < row.count() {
            self.feed_payload(row.count() - taken);
        }
    }

    /// Offers a row to its connection's device, if it may take bytes. How many of the bytes that wait came then. The connection
    /// has a turn then, as the end of the stream may have come with them, and a device that failed is dropped.
    fn offer(&mut self, row: Row) -> usize
        requires row { IsRow row self.old.engine.incoming self.old.engine.session }
        requires some { 0 < row.first }
        ensures runs { ReadsOn self.old self.new }
        ensures stays { Stays self.old self.new }
        ensures rests { Rests self.old self.new }
        ensures wire { self.new.wire ≡ self.old.wire }
        ensures over { self.new.is_wire_over ≡ self.old.is_wire_over }
        ensures closed { StaysOver self.old.connections self.new.connections }
        ensures taken { length self.new.engine.incoming + result ≡ length self.old.engine.incoming }
        ensures passed { OffersRow row result self.old self.new }
        ensures goes_on { result ≡ 0 → is_stuck self.new.engine.session ≡ false }
    {
        let taken = self
            .connections
            .offer(row, &mut self.session, self.incoming.waiting());
        self.incoming.drop_front(taken);
        taken
    }
}

/// Whether the first frame of these bytes may open a stream: it does, or its header isn't whole yet.
fn may_open(waits: &[u8]) -> bool
    ensures { result ≡ may_open waits.now }
{
    let Some(header) = waits.first_chunk::<HEADER_LENGTH>() else {
        return !waits.is_empty();
    };
    let header = decode(header);
    header.kind < TYPE_PING && header.has_syn()
}
