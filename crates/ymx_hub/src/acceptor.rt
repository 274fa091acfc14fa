//! Who accepts streams.

ghost use Rattle.std.specs.Prelude.{◌≡◌, IfSome, IfOk};
ghost use Rattle.ymx_hub.specs.Books.{Books};
ghost use Rattle.ymx_hub.specs.Halves.{AcceptsHalves};

use crate::faults::HubFault;
use crate::halves::{ReadHalf, WriteHalf, both_halves, hub_twice};
use crate::hub::Hub;
use std::alloc::Global;
use std::marker::Model;
use std::sync::{Arc, Wait};
use ymx_seats::{Recorder, Seat};

/// Accepts streams of a hub. A contract sees its seat.
pub struct Acceptor<R: Recorder> {
    hub: Arc<Hub<R>, Global>,
    seat: Seat<R>,
}

impl<R: Recorder> Model for Acceptor<R> {
    ghost use Rattle.ymx_seats.specs.Views.{SeatView};

    ghost Value = { SeatView };

    ghost view = { λ acceptor. acceptor.seat };
}

impl<R: Recorder> Acceptor<R> {
    /// Accepts streams of this hub, at this seat.
    pub fn new(hub: Arc<Hub<R>, Global>, seat: Seat<R>) -> Acceptor<R>
        ensures { result ≡ seat }
    {
        Acceptor { hub, seat }
    }

    /// Gives back the seat, at which no more streams are accepted. It is handed in at `Hub::end`.
    pub fn into_seat(self) -> Seat<R>
        ensures { result ≡ self }
    {
        let Acceptor { hub: _, seat } = self;
        seat
    }

    /// Waits for a stream that the peer opens, at the seat of this acceptor. It does, and is refused, as `accept_at_seat`.
    pub fn accept<W: Wait>(
        &mut self,
        rt: &W,
    ) -> Result<Option<(WriteHalf<R>, ReadHalf<R>)>, HubFault>
        ensures booked { Books R.KEEPS self.old self.new (AcceptsHalves self.old.number result) }
        ensures paired { IfOk result (λ offer. IfSome offer (λ made. made.1.id ≡ made.0.id)) }
    {
        accept_at_seat(rt, &self.hub, &mut self.seat)
    }
}

/// Waits at this seat for a stream that the peer opens. `None` once the session is closed, or lost with none left.
///
/// `Seats` where no two seats are left, and `Memory` where there is none for its halves or the entry: no stream is
/// taken then, and the same call may be made again.
pub fn accept_at_seat<R: Recorder, W: Wait>(
    rt: &W,
    hub: &Arc<Hub<R>, Global>,
    seat: &mut Seat<R>,
) -> Result<Option<(WriteHalf<R>, ReadHalf<R>)>, HubFault>
    // The entries of its waits and of its answer stand in the list of the seat.
    ensures booked { Books R.KEEPS seat.old seat.new (AcceptsHalves seat.old.number result) }
    // Whatever the recorder keeps, both halves are of one stream.
    ensures paired { IfOk result (λ offer. IfSome offer (λ made. made.1.id ≡ made.0.id)) }
{
    let hubs = hub_twice(hub)?;
    let offer = match hub.accept(rt, seat) {
        Ok(Some(offer)) => offer,
        Ok(None) => return Ok(None),
        Err(fault) => return Err(fault),
    };
    Ok(Some(both_halves(hubs, offer)))
}
