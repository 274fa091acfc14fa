//! The two halves of a stream.

ghost use Rattle.std.specs.Prelude.{◌≡◌, ◌<◌, ◌≤◌, length, drop, true, false, IfOk, IfErr, MatchResult};
ghost use Rattle.ymx_machine.specs.declared.types.Reply.TheVariants as reply;
ghost use Rattle.ymx_seats.specs.Views.{IsWitnessed};
ghost use Rattle.ymx_hub.specs.Answers.{IsNotMemory};
ghost use Rattle.ymx_hub.specs.Books.{Books, Spends, Closes, to_finish, to_reset};
ghost use Rattle.ymx_hub.specs.Releasing.{Releases, IsDropped};
ghost use Rattle.ymx_hub.specs.Rights.{MayWrite, MayRead, HaveHalves, SaysSole};
ghost use Rattle.ymx_hub.specs.Shown.{BooksShown, IsShown};
ghost use Rattle.ymx_hub.specs.Turns.{ReadTurns, EndsIn, WriteTurns};

use crate::faults::HubFault;
use crate::hub::Hub;
use crate::write_fault::WriteFault;
use std::alloc::Global;
use std::marker::Model;
use std::sync::{Arc, Wait};
use ymx_memory::RefusedAllocation;
use ymx_seats::{Recorder, Seat};

/// Two handles of one hub, one for each half of a stream.
pub(crate) type HubTwice<R> = (Arc<Hub<R>, Global>, Arc<Hub<R>, Global>);

/// Two more handles of this hub, for the two halves of a stream that is to be opened or accepted. They are made before, so
/// that a stream that is there has its halves. `RefusedAllocation` where there is no memory for a handle: then neither is
/// made.
pub(crate) fn hub_twice<R: Recorder>(
    hub: &Arc<Hub<R>, Global>,
) -> Result<HubTwice<R>, RefusedAllocation> {
    let one = ymx_memory::share(hub)?;
    let other = ymx_memory::share(hub)?;
    Ok((one, other))
}

/// Both halves of a stream, of which its id and the seats of its halves are given.
pub(crate) fn both_halves<R: Recorder>(
    hubs: HubTwice<R>,
    given: (u32, Seat<R>, Seat<R>),
) -> (WriteHalf<R>, ReadHalf<R>)
    requires { R.WITNESSED ≡ true → HaveHalves given.0 given.1 given.2 }
    ensures writer { (result.0.id ≡ given.0) × (result.0.seat ≡ given.1) }
    ensures reader { (result.1.id ≡ given.0) × (result.1.seat ≡ given.2) }
{
    let (one, other) = hubs;
    let (id, writer, reader) = given;
    (
        WriteHalf::new(one, writer, id),
        ReadHalf::new(other, reader, id),
    )
}

/// The writing half of a stream. It must be spent, by `finish` or `reset`: it cannot be dropped. The caller that spends the
/// second half of a stream gives the stream up too.
pub struct WriteHalf<R: Recorder> {
    hub: Arc<Hub<R>, Global>,
    seat: Seat<R>,
    id: u32,
}

/// The reading half of a stream. It must be spent, by `close` or `release`: it cannot be dropped. The caller that spends the
/// second half of a stream gives the stream up too.
pub struct ReadHalf<R: Recorder> {
    hub: Arc<Hub<R>, Global>,
    seat: Seat<R>,
    id: u32,
}

impl<R: Recorder> Model for WriteHalf<R> {
    ghost use Rattle.std.specs.Prelude.{◌≡◌, true};
    ghost use Rattle.ymx_hub.specs.Rights.{MayWrite};
    ghost use Rattle.ymx_hub.specs.Halves.{HalfView};

    ghost Value = { HalfView };

    ghost view = { λ half. record { id = half.id; seat = half.seat } };

    ghost invariant = { λ half. R.WITNESSED ≡ true → MayWrite half.seat.right half.id };
}

impl<R: Recorder> Model for ReadHalf<R> {
    ghost use Rattle.std.specs.Prelude.{◌≡◌, true};
    ghost use Rattle.ymx_hub.specs.Rights.{MayRead};
    ghost use Rattle.ymx_hub.specs.Halves.{HalfView};

    ghost Value = { HalfView };

    ghost view = { λ half. record { id = half.id; seat = half.seat } };

    ghost invariant = { λ half. R.WITNESSED ≡ true → MayRead half.seat.right half.id };
}

impl<R: Recorder> WriteHalf<R> {
    /// The half of this stream.
    pub(crate) fn new(hub: Arc<Hub<R>, Global>, seat: Seat<R>, id: u32) -> WriteHalf<R>
        requires { R.WITNESSED ≡ true → MayWrite seat.right id }
        ensures { (result.id ≡ id) × (result.seat ≡ seat) }
    {
        WriteHalf { hub, seat, id }
    }

    /// What the seat of this half has seen, where the recorder witnesses, is the history of a session of the role and the
    /// config that the recorder names. It does nothing at run time.
    pub fn history(&self)
        ensures { IsWitnessed R.WITNESSED R.role R.config self.now.seat.seen }
    {
        self.seat.history();
    }

    /// Shows the whole history so far to this half and to another seat, as `Hub::meet` does.
    pub fn meet<W: Wait>(&mut self, rt: &W, other: &mut Seat<R>)
        ensures same { self.new.id ≡ self.old.id }
        ensures mine { IsShown self.old.seat self.new.seat }
        ensures theirs { IsShown other.old other.new }
        // Its caller may write the stream, and in the history that it has then seen nobody else has, unless another entry gave the
        // stream too.
        ensures may { R.WITNESSED ≡ true → MayWrite self.old.seat.right self.old.id }
        ensures sole { SaysSole self.old.seat.right self.old.seat.number self.new.seat.seen }
        ensures seen { other.new.seen ≡ self.new.seat.seen }
    {
        self.hub.meet(rt, &mut self.seat, other);
    }

    /// Writes all bytes, and waits for credit (flow control). At a fault the first `taken` of them were written.
    ///
    /// Refused with `Closed`, with `Reset` where the peer has reset the stream, and with `Lost`, before it waits or
    /// while it does. `Memory` where there is none for an entry, or for more than 262,144 unsent bytes.
    pub fn write_all<W: Wait>(&mut self, rt: &W, bytes: &[u8]) -> Result<(), WriteFault>
        // It stays the half of its stream.
        ensures same { self.new.id ≡ self.old.id }
        // The entries of its turns stand in the list of its seat: together they took the bytes that were written.
        ensures booked { Books R.KEEPS self.old.seat self.new.seat (WriteTurns self.old.id bytes.now self.old.seat.number result) }
        // At a fault these were a beginning of the bytes.
        ensures within { IfErr result (λ stop. stop.taken ≤ length bytes.now) }
    {
        self.hub.write_all(rt, &mut self.seat, self.id, bytes)
    }

    /// Half-closes the stream: the peer reads what was written, and then the end (half-close). The half is spent
    /// whatever is answered.
    ///
    /// Refused with `Closed`, `Reset` and `Lost`. `Memory`, and nothing is done, where there is none for the entries.
    pub fn finish<W: Wait>(self, rt: &W) -> (Seat<R>, Result<(), HubFault>)
        // The entries of this call stand in the list of its seat, with the answer.
        ensures booked { Books R.KEEPS self.seat result.0 (Spends (to_finish self.id) self.id self.seat.number result.1) }
        // Its caller may write the stream, and may do so still.
        ensures may { R.WITNESSED ≡ true → MayWrite self.seat.right self.id }
        ensures right { result.0.right ≡ self.seat.right }
        // Where no entries are kept, it is not refused for lack of memory.
        ensures off { R.KEEPS ≡ false → IsNotMemory result.1 }
    {
        let WriteHalf { hub, mut seat, id } = self;
        let result = hub.finish(rt, &mut seat, id);
        (seat, result)
    }

    /// Resets the stream: what is not sent is dropped, and neither side reads or writes any more (flags). The half is
    /// spent whatever is answered.
    ///
    /// Refused with `Closed`, with `Reset` where the peer was first, and with `Lost`. `Memory`, and nothing is done,
    /// where there is none for the entries.
    pub fn reset<W: Wait>(self, rt: &W) -> (Seat<R>, Result<(), HubFault>)
        // The entries of this call stand in the list of its seat, with the answer.
        ensures booked { Books R.KEEPS self.seat result.0 (Spends (to_reset self.id) self.id self.seat.number result.1) }
        // Its caller may write the stream, and may do so still.
        ensures may { R.WITNESSED ≡ true → MayWrite self.seat.right self.id }
        ensures right { result.0.right ≡ self.seat.right }
        // Where no entries are kept, it is not refused for lack of memory.
        ensures off { R.KEEPS ≡ false → IsNotMemory result.1 }
    {
        let WriteHalf { hub, mut seat, id } = self;
        let result = hub.reset(rt, &mut seat, id);
        (seat, result)
    }
}

impl<R: Recorder> ReadHalf<R> {
    /// The half of this stream.
    pub(crate) fn new(hub: Arc<Hub<R>, Global>, seat: Seat<R>, id: u32) -> ReadHalf<R>
        requires { R.WITNESSED ≡ true → MayRead seat.right id }
        ensures { (result.id ≡ id) × (result.seat ≡ seat) }
    {
        ReadHalf { hub, seat, id }
    }

    /// What the seat of this half has seen, where the recorder witnesses, is the history of a session of the role and the
    /// config that the recorder names. It does nothing at run time.
    pub fn history(&self)
        ensures { IsWitnessed R.WITNESSED R.role R.config self.now.seat.seen }
    {
        self.seat.history();
    }

    /// Shows the whole history so far to this half and to another seat, as `Hub::meet` does.
    pub fn meet<W: Wait>(&mut self, rt: &W, other: &mut Seat<R>)
        ensures same { self.new.id ≡ self.old.id }
        ensures mine { IsShown self.old.seat self.new.seat }
        ensures theirs { IsShown other.old other.new }
        // Its caller may read the stream, and in the history that it has then seen nobody else has, unless another entry gave the
        // stream too.
        ensures may { R.WITNESSED ≡ true → MayRead self.old.seat.right self.old.id }
        ensures sole { SaysSole self.old.seat.right self.old.seat.number self.new.seat.seen }
        ensures seen { other.new.seen ≡ self.new.seat.seen }
    {
        self.hub.meet(rt, &mut self.seat, other);
    }

    /// Waits for bytes, and moves those that are there and fit to the front of the buffer. 0 is the end: the peer
    /// has finished, and all was read. The rest of the buffer stays as it was, and all of it where the call is refused.
    ///
    /// Refused with `Closed` and with `Reset`, and with `Lost` once what was there is read, before it waits or while it
    /// does. `Memory` where there is none for an entry: no byte is read then.
    pub fn read<W: Wait>(&mut self, rt: &W, buffer: &mut [u8]) -> Result<usize, HubFault>
        requires { 0 < length buffer.old }
        // It stays the half of its stream.
        ensures same { self.new.id ≡ self.old.id }
        // The entries of its turns stand in the list of its seat: the last has the bytes at the front of the buffer, or the end.
        ensures booked { Books R.KEEPS self.old.seat self.new.seat (ReadTurns self.old.id (length buffer.old) buffer.new self.old.seat.number result) }
        ensures end { IfOk result (λ count. count ≡ 0 → Books R.KEEPS self.old.seat self.new.seat (EndsIn (λ told. told ≡ reply.ReadEnd))) }
        // After those bytes the buffer is as it was, and all of it where the call is refused.
        ensures within { IfOk result (λ count. count ≤ length buffer.old) }
        ensures length { length buffer.new ≡ length buffer.old }
        ensures rest { MatchResult result (λ count. drop count buffer.new ≡ drop count buffer.old) (λ fault. buffer.new ≡ buffer.old) }
        // Where no entries are kept, it is not refused for lack of memory.
        ensures off { R.KEEPS ≡ false → IsNotMemory result }
    {
        self.hub.read(rt, &mut self.seat, self.id, buffer)
    }

    /// Spends the half, whatever is answered. If the other half was spent, the stream is given up, and unread bytes are
    /// dropped.
    ///
    /// Refused with `Closed`, and `Memory` where there is none for the entry, only where the stream is given up.
    pub fn close<W: Wait>(self, rt: &W) -> (Seat<R>, Result<(), HubFault>)
        // The entry of the stream that is given up stands in the list of its seat, with the answer; none where it is not given up.
        ensures booked { Books R.KEEPS self.seat result.0 (Closes self.id self.seat.number result.1) }
        // Its caller may read the stream, and may do so still.
        ensures may { R.WITNESSED ≡ true → MayRead self.seat.right self.id }
        ensures right { result.0.right ≡ self.seat.right }
        // Where no entries are kept, it is not refused for lack of memory.
        ensures off { R.KEEPS ≡ false → IsNotMemory result.1 }
    {
        let ReadHalf { hub, mut seat, id } = self;
        let result = hub.close_half(rt, &mut seat, id);
        (seat, result)
    }

    /// Hands the half to the hub: what has come of the stream is read and dropped, so that the peer gets its credit back.
    /// Once nothing more can come, as the peer's end is there, it was reset or the session is lost, the half is spent as
    /// by `close`; until then each call of `Hub::purge` does the same. So a stream that was finished isn't given up
    /// before the peer's end, and nothing that was written is lost.
    ///
    /// In the same hold of the lock the whole history is shown to its seat and to another, as by `Hub::meet`.
    ///
    /// Refused with `Closed`, only where the stream is given up now, with `Memory` where there is none for an entry, and
    /// with `Releases`, and nothing is done, while 1,024 others are released, which no one session has.
    pub fn release<W: Wait>(self, rt: &W, other: &mut Seat<R>) -> (Seat<R>, Result<(), HubFault>)
        // Its entries stand in the list of its seat: the stream is given up only where nothing more could come.
        ensures booked { BooksShown R.KEEPS self.seat result.0 (Releases self.id self.seat.number result.1) }
        // Nothing that has come is left: nothing more comes, or a read of the stream waits.
        ensures dropped { IfOk result.1 (λ _. IsDropped R.KEEPS R.WITNESSED R.role R.config self.id self.seat result.0) }
        // The other seat has seen all that it had seen before, and now the same; its list stays.
        ensures other { IsShown other.old other.new }
        ensures same { other.new.seen ≡ result.0.seen }
        // Where no entries are kept, it is not refused for lack of memory.
        ensures off { R.KEEPS ≡ false → IsNotMemory result.1 }
    {
        let ReadHalf { hub, mut seat, id } = self;
        let result = hub.release(rt, &mut seat, id, other);
        (seat, result)
    }
}
