//! What the connection of a stream does in its turn, and with payload that is passed on.

ghost use Rattle.std.specs.Prelude.{ℕ, ◌≡◌, ◌+◌, ◌<◌, ◌≤◌, ◌&&◌, ◌==◌, length, nat_eq, false, None, Some, IfSome, IfNone};
ghost use Rattle.std.specs.Option.{option_map_or};
ghost use Rattle.ymx_model.specs.session.Feeds.{is_stuck};
ghost use Rattle.ymx_engine.specs.Devices.{one_read};
ghost use Rattle.ymx_engine.specs.Passes.{IsRow, behind_row, counts_of};
ghost use Rattle.ymx_engine.specs.Served.{GainsNone};
ghost use Rattle.ymx_engine.specs.Serves.{Turn};
ghost use Rattle.ymx_engine.specs.Steps.{TakesPart, PassesPart, OffersPart};
ghost use Rattle.ymx_engine.specs.Turns.{Connection as ConnectionValue, connection_of, Puts, SameQueues};
ghost use Rattle.ymx_engine.specs.Directions.{may_push, may_pull};

use crate::block::Block;
use crate::connections::Connections;
use crate::device::Device;
use crate::exchange::serve;
use crate::passing::offer;
use crate::row::Row;
use ymx_session::Session;

/// What a turn of a connection came to.
#[derive(Clone, Copy)]
pub(crate) struct Chunk {
    /// It has more to move at once.
    more: bool,
    /// Its device may have bytes.
    may_give: bool,
    /// How many bytes its device gave.
    gave: usize,
}

impl Chunk {
    /// Whether it waits until nothing waits for the wire: it was not to be read, and its device may have bytes.
    fn is_put_off(&self, most: usize) -> bool
        ensures { result ≡ ((most == 0) && self.now.may_give) }
    {
        most == 0 && self.may_give
    }
}

impl<D: Device + Drop> Connections<D> {
    /// The connection of this stream has its turn, if it is there, and gives `most` bytes at most: with 0 it isn't read. It
    /// waits for a further turn where it has more to move, or until nothing waits for the wire where it was not to be read and
    /// may have bytes. How many bytes its device gave.
    pub(crate) fn serve(
        &mut self,
        id: u32,
        session: &mut Session,
        buffer: &mut [u8],
        outgoing: &mut Block,
        most: usize,
    ) -> usize
        requires room { one_read ≤ length buffer.old }
        ensures served { (was : ConnectionValue) → connection_of id self.old ≡ Some was → TakesPart id most was session.old session.new outgoing.old outgoing.new self.old self.new result }
        ensures none { connection_of id self.old ≡ None → (self.new ≡ self.old) × (session.new ≡ session.old) × (outgoing.new ≡ outgoing.old) × (result ≡ 0) }
    {
        match self.take_part(id, session, buffer, outgoing, most) {
            Some(part) => {
                self.end_turn(id, part.more, part.is_put_off(most));
                part.gave
            }
            None => 0,
        }
    }

    /// The connection of this stream has its turn, if it is there.
    fn take_part(
        &mut self,
        id: u32,
        session: &mut Session,
        buffer: &mut [u8],
        outgoing: &mut Block,
        most: usize,
    ) -> Option<Chunk>
        requires room { one_read ≤ length buffer.old }
        ensures some { IfSome result (λ part. (was : ConnectionValue) × (connection_of id self.old ≡ Some was) × (now : ConnectionValue) × Puts id (Some now) self.old self.new × Turn id most session.old session.new outgoing.old outgoing.new was.seen now.seen was.directions now.directions part.more part.gave × (part.may_give ≡ may_pull now.directions now.seen.marks)) }
        ensures none { IfNone result (connection_of id self.old ≡ None) }
        ensures same { IfNone result (self.new ≡ self.old) }
        ensures idle { IfNone result ((session.new ≡ session.old) × (outgoing.new ≡ outgoing.old)) }
        ensures queues { SameQueues self.old self.new }
    {
        let Some(found) = self.by_id.get_mut(&id) else {
            return None;
        };
        let connection = &mut found.connection;
        let turn = serve(
            session,
            id,
            &mut connection.directions,
            &mut connection.device,
            buffer,
            outgoing,
            most,
        );
        let may_give = connection.directions.may_pull(&connection.device);
        found.is_busy = turn.moves_much(found.is_busy);
        Some(Chunk {
            more: turn.more,
            may_give,
            gave: turn.gave,
        })
    }

    /// Whether bytes may go to the device of this stream now.
    pub(crate) fn may_push(&self, id: u32) -> bool
        ensures { result ≡ option_map_or (λ l. may_push l.directions l.seen.marks) (connection_of id self.now) false }
    {
        match self.by_id.get(&id) {
            Some(found) => found
                .connection
                .directions
                .may_push(&found.connection.device),
            None => false,
        }
    }

    /// Offers a row of payload that waits to its connection's device, if that is there and may take bytes. How many of the
    /// bytes that wait came then. The connection waits for a turn then.
    pub(crate) fn offer(&mut self, row: Row, session: &mut Session, waits: &[u8]) -> usize
        requires row { IsRow row waits.now session.old }
        requires some { 0 < row.first }
        ensures passed { PassesPart row.id waits.now session.old session.new self.old self.new result }
        ensures in_row { result + length (behind_row (counts_of row) waits.now) ≤ length waits.now }
        ensures place { self.new.turns_to_place ≡ self.old.turns_to_place }
        ensures goes_on { result ≡ 0 → is_stuck session.new ≡ false }
        ensures others { (other : ℕ) → nat_eq row.id other ≡ false → GainsNone other session.old session.new }
        ensures status { session.new.status ≡ session.old.status }
    {
        if !self.may_push(row.id) {
            return 0;
        }
        let taken = self.offer_row(row, session, waits);
        self.enqueue(row.id);
        taken
    }

    /// Offers a row of payload that waits to its connection's device, if that is there.
    fn offer_row(&mut self, row: Row, session: &mut Session, waits: &[u8]) -> usize
        requires row { IsRow row waits.now session.old }
        requires some { 0 < row.first }
        ensures offered { (was : ConnectionValue) → connection_of row.id self.old ≡ Some was → OffersPart row.id was waits.now session.old session.new self.old self.new result }
        ensures in_row { result + length (behind_row (counts_of row) waits.now) ≤ length waits.now }
        ensures place { self.new.turns_to_place ≡ self.old.turns_to_place }
        ensures none { connection_of row.id self.old ≡ None → (self.new ≡ self.old) × (session.new ≡ session.old) × (result ≡ 0) }
        ensures queues { SameQueues self.old self.new }
        ensures goes_on { result ≡ 0 → is_stuck session.new ≡ false }
        ensures others { (other : ℕ) → nat_eq row.id other ≡ false → GainsNone other session.old session.new }
        ensures status { session.new.status ≡ session.old.status }
    {
        let Some(found) = self.by_id.get_mut(&row.id) else {
            return 0;
        };
        let connection = &mut found.connection;
        offer(
            session,
            row,
            &mut connection.directions,
            &mut connection.device,
            waits,
        )
    }
}
