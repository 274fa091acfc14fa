//! Who opens streams.

ghost use Rattle.std.specs.Prelude.{◌≡◌, IfOk};
ghost use Rattle.ymx_hub.specs.Books.{Books};
ghost use Rattle.ymx_hub.specs.Halves.{OpensHalves, OpensHalvesWith};

use crate::faults::HubFault;
use crate::halves::{ReadHalf, WriteHalf, both_halves, hub_twice};
use crate::hub::Hub;
use std::alloc::Global;
use std::marker::Model;
use std::sync::{Arc, Wait};
use ymx_seats::{Recorder, Seat};

/// Opens streams of a hub. A contract sees its seat.
pub struct Opener<R: Recorder> {
    hub: Arc<Hub<R>, Global>,
    seat: Seat<R>,
}

impl<R: Recorder> Model for Opener<R> {
    ghost use Rattle.ymx_seats.specs.Views.{SeatView};

    ghost Value = { SeatView };

    ghost view = { λ opener. opener.seat };
}

impl<R: Recorder> Opener<R> {
    /// Opens streams of this hub, at this seat.
    pub fn new(hub: Arc<Hub<R>, Global>, seat: Seat<R>) -> Opener<R>
        ensures { result ≡ seat }
    {
        Opener { hub, seat }
    }

    /// Gives back the seat, at which no more streams are opened. It is handed in at `Hub::end`.
    pub fn into_seat(self) -> Seat<R>
        ensures { result ≡ self }
    {
        let Opener { hub: _, seat } = self;
        seat
    }

    /// Opens a stream at the seat of this opener. It does, and is refused, as `open_at_seat`.
    pub fn open<W: Wait>(&mut self, rt: &W) -> Result<(WriteHalf<R>, ReadHalf<R>), HubFault>
        ensures booked { Books R.KEEPS self.old self.new (OpensHalves self.old.number result) }
        ensures paired { IfOk result (λ made. made.1.id ≡ made.0.id) }
    {
        open_at_seat(rt, &self.hub, &mut self.seat)
    }

    /// Opens a stream with these first bytes at the seat of this opener, as `open_with_at_seat`.
    pub fn open_with<W: Wait>(
        &mut self,
        rt: &W,
        bytes: &[u8],
    ) -> Result<(WriteHalf<R>, ReadHalf<R>, usize), HubFault>
        ensures booked { Books R.KEEPS self.old self.new (OpensHalvesWith bytes.now self.old.number result) }
        ensures paired { IfOk result (λ made. made.1.id ≡ made.0.id) }
    {
        open_with_at_seat(rt, &self.hub, &mut self.seat, bytes)
    }
}

/// Opens a stream of this hub at this seat. It doesn't wait for the peer, and bytes may be written at once.
///
/// Refused by the session, in this order, with `Closed`, `Lost`, `PeerAway` after the peer's Go Away, `Exhausted`
/// where the ids are used up, `OpensPending` while 256 own streams are neither acknowledged, reset nor given up,
/// and `TooMany` while 1,024 streams are there. `Seats` where no two seats are left, and `Memory` where there is
/// none for the stream, its halves or the entry: no stream is opened then.
pub fn open_at_seat<R: Recorder, W: Wait>(
    rt: &W,
    hub: &Arc<Hub<R>, Global>,
    seat: &mut Seat<R>,
) -> Result<(WriteHalf<R>, ReadHalf<R>), HubFault>
    // Its one entry stands in the list of the seat, with the answer.
    ensures booked { Books R.KEEPS seat.old seat.new (OpensHalves seat.old.number result) }
    // Whatever the recorder keeps, both halves are of one stream.
    ensures paired { IfOk result (λ made. made.1.id ≡ made.0.id) }
{
    let hubs = hub_twice(hub)?;
    match hub.open(rt, seat) {
        Ok(opened) => Ok(both_halves(hubs, opened)),
        Err(fault) => Err(fault),
    }
}

/// Opens a stream of this hub with these first bytes at this seat, and says how many of them were taken: the first
/// 262,144 at most. It is refused as `open_at_seat` is.
pub fn open_with_at_seat<R: Recorder, W: Wait>(
    rt: &W,
    hub: &Arc<Hub<R>, Global>,
    seat: &mut Seat<R>,
    bytes: &[u8],
) -> Result<(WriteHalf<R>, ReadHalf<R>, usize), HubFault>
    // Its one entry stands in the list of the seat, with the answer.
    ensures booked { Books R.KEEPS seat.old seat.new (OpensHalvesWith bytes.now seat.old.number result) }
    // Whatever the recorder keeps, both halves are of one stream.
    ensures paired { IfOk result (λ made. made.1.id ≡ made.0.id) }
{
    let hubs = hub_twice(hub)?;
    match hub.open_with(rt, seat, bytes) {
        Ok((id, taken, one, other)) => {
            let (writer, reader) = both_halves(hubs, (id, one, other));
            Ok((writer, reader, taken))
        }
        Err(fault) => Err(fault),
    }
}
