//! Calls of who proves what stands in a session's history: each takes the seat of its caller, who has then seen what it did.
//!
//! Each half of a stream is a caller of its own, with a history that it has seen. The caller that spends a half here has then seen the whole
//! history, in which all stands that the half did.

ghost use Rattle.std.specs.Prelude.{◌≡◌, IfOk, IfSome};
ghost use Rattle.ymx_connect.specs.Told.{StandsIn, ClosesHalf};
ghost use Rattle.yamux.specs.Api.{OpensAt, AcceptsAt, FinishesAt};

use crate::connection::Shut;
use crate::error::Error;
use crate::halves::{Reader, Writer};
use crate::host::Runtime;
use crate::pumps::discard;
use crate::session::Session;
use crate::stream::Stream;
use ymx_hub::{accept_at_seat, open_at_seat};
use ymx_seats::{Naming, Seat, Witnessed};

impl<W: Runtime, S: Shut, J: Naming> Session<W, S, Witnessed<J>> {
    /// `open`, by this caller.
    pub fn open_at(&self, caller: &mut Seat<Witnessed<J>>) -> Result<Stream<W, Witnessed<J>>, Error>
        ensures grows { StandsIn caller.old.seen caller.new.seen }
        ensures opened { IfOk result (OpensAt caller.old caller.new) }
    {
        let own = self.parked()?;
        match open_at_seat(&self.rt, &self.hub, caller) {
            Ok(halves) => Ok(Stream::new(self.rt, own, halves)),
            Err(fault) => Err(Error::from(fault)),
        }
    }

    /// `accept`, by this caller.
    pub fn accept_at(
        &self,
        caller: &mut Seat<Witnessed<J>>,
    ) -> Result<Option<Stream<W, Witnessed<J>>>, Error>
        ensures grows { StandsIn caller.old.seen caller.new.seen }
        ensures accepted { IfOk result (λ offer. IfSome offer (AcceptsAt caller.old caller.new)) }
    {
        let own = self.parked()?;
        match accept_at_seat(&self.rt, &self.hub, caller) {
            Ok(Some(halves)) => Ok(Some(Stream::new(self.rt, own, halves))),
            Ok(None) => Ok(None),
            Err(fault) => Err(Error::from(fault)),
        }
    }

    /// Finishes the stream, as `Writer::close` does, and shows the whole history to this caller.
    pub fn finish_at(
        &self,
        writer: Writer<W, Witnessed<J>>,
        caller: &mut Seat<Witnessed<J>>,
    ) -> Result<(), Error>
        ensures grows { StandsIn caller.old.seen caller.new.seen }
        // Nobody else has written, finished or reset the stream in the history that the caller has then seen, unless another entry
        // gave the stream too.
        ensures finished { IfOk result (λ _. FinishesAt writer caller.old caller.new) }
    {
        let failed = writer.failed;
        let Some(half) = writer.into_half() else {
            return Err(failed.unwrap_or(Error::Finished));
        };
        let (mut last, finished) = half.finish(&self.rt);
        self.hub.meet(&self.rt, caller, &mut last);
        caller.history();
        discard(last);
        match finished {
            Ok(()) => Ok(()),
            Err(fault) => Err(Error::from(fault)),
        }
    }

    /// Reads no more, and shows the whole history to this caller. Where its writer is spent, the stream is given up at once: it is
    /// reset unless both sides have finished. `Closed`, only where the stream is given up.
    pub fn close_at(
        &self,
        reader: Reader<W, Witnessed<J>>,
        caller: &mut Seat<Witnessed<J>>,
    ) -> Result<(), Error>
        ensures grows { StandsIn caller.old.seen caller.new.seen }
        // Nobody else has read the stream in the history that the caller has then seen, unless another entry gave the stream too.
        ensures closed { IfOk result (λ _. ClosesHalf caller.old caller.new reader.half) }
    {
        let (mut last, closed) = reader.into_half().close(&self.rt);
        self.hub.meet(&self.rt, caller, &mut last);
        caller.history();
        discard(last);
        match closed {
            Ok(()) => Ok(()),
            Err(fault) => Err(Error::from(fault)),
        }
    }
}
