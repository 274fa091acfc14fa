//! A session.

ghost use Rattle.std.specs.Prelude.{◌≡◌, ◌<◌, ◌≤◌, None, IfOk, IfSome};
ghost use Rattle.ymx_memory.specs.Bounds.{most_zeros};
ghost use Rattle.ymx_seats.specs.Views.{IsNewcomer};
ghost use Rattle.yamux.specs.Api.{IsOpened, IsAccepted};
ghost use Rattle.ymx_session.specs.NewSessions.{new_fault};

use crate::connection::{Connection, OwnedInlet, OwnedOutlet, Shut, TcpShut};
use crate::ending::{Ending, Endings};
use crate::error::{Error, said_by};
use crate::host::{Host, Runtime};
use crate::pumps::{Buffer, Pump, READ_BUFFER, WRITE_BUFFER, discard};
use crate::stream::Stream;
use std::alloc::Global;
use std::net::TcpStream;
use std::sync::{Arc, Mutex};
use std::thread;
use ymx_connect::PumpWhy;
use ymx_hub::{Hub, Off, accept_at_seat, open_at_seat, open_with_at_seat};
use ymx_model::{Config, Role};
use ymx_seats::{Parked, Recorder, Seat};
use ymx_session::Session as Core;

/// A running session over a connection. It owns the connection, and two threads that move its bytes. Threads may share it by `&` or in
/// an `Arc`. Its drop aborts it, and its threads have ended then.
pub struct Session<W: Runtime, S: Shut = TcpShut, R: Recorder = Off> {
    pub(crate) rt: W,
    pub(crate) hub: Arc<Hub<R>, Global>,
    shutter: S,
    /// Who closes the session.
    closer: Mutex<Seat<R>>,
    pub(crate) ends: Arc<Endings, Global>,
}

impl<W: Runtime, S: Shut, R: Recorder> Drop for Session<W, S, R> {
    fn drop(self) {
        let Session {
            rt,
            hub,
            shutter,
            closer,
            ends,
        } = self;
        let mut seat = closer.into_inner();
        let _ = hub.close(&rt, &mut seat);
        discard(seat);
        shutter.shut();
        let _ = ends.writing.wait(&rt);
        let _ = ends.reading.wait(&rt);
    }
}

impl<W: Host> Session<W> {
    /// The side that called, over this connection.
    ///
    /// `BadWindow` and `BadFirst` where the config is refused, `Memory` and `NoThread` where there is none. No byte was sent then.
    pub fn client(rt: W, socket: TcpStream, config: Config) -> Result<Session<W>, Error>
        ensures may { IfOk result (λ _. new_fault Role.Client config ≡ None) }
    {
        let connection = Connection::tcp(rt.alloc(), socket)?;
        Session::over(rt, connection, Role::Client, config)
    }

    /// The side that was called, over this connection. It fails as `client` does.
    pub fn server(rt: W, socket: TcpStream, config: Config) -> Result<Session<W>, Error>
        ensures may { IfOk result (λ _. new_fault Role.Server config ≡ None) }
    {
        let connection = Connection::tcp(rt.alloc(), socket)?;
        Session::over(rt, connection, Role::Server, config)
    }
}

impl<W: Host, S: Shut + Send + Sync + 'static> Session<W, S> {
    /// The session of this role over any connection that can be shut. It fails as `client` does.
    pub fn over<I: OwnedInlet, O: OwnedOutlet>(
        rt: W,
        connection: Connection<I, O, S>,
        role: Role,
        config: Config,
    ) -> Result<Session<W, S>, Error>
        ensures may { IfOk result (λ _. new_fault role config ≡ None) }
    {
        let machine = Core::new(rt.alloc(), role, config)?;
        let hub = Hub::new(rt.alloc(), machine, Off)?;
        Session::over_hub(rt, connection, hub)
    }
}

impl<W: Host, S: Shut + Send + Sync + 'static, R: Recorder + Send + Sync + 'static> Session<
    W,
    S,
    R,
> {
    /// The session of a hub, over any connection that can be shut. `Memory` and `NoThread` where there is none, and `Exhausted` where
    /// the hub has no seat left.
    pub fn over_hub<I: OwnedInlet, O: OwnedOutlet>(
        rt: W,
        connection: Connection<I, O, S>,
        hub: Arc<Hub<R>, Global>,
    ) -> Result<Session<W, S, R>, Error> {
        let session = Session::without_pumps(rt, hub, connection.shutter)?;
        let purger = session.parked()?;
        let pump = session.pump(connection.reader, READ_BUFFER, &session.ends.reading)?;
        let reading = thread::spawn(
            &rt,
            move ||
                requires { IsNewcomer pump.seat.number pump.seat.seen }
            {
                let _ = pump.read(purger);
            },
        );
        if reading.is_err() {
            return Err(session.without_thread(&session.ends.reading));
        }
        let pump = session.pump(connection.writer, WRITE_BUFFER, &session.ends.writing)?;
        let writing = thread::spawn(
            &rt,
            move ||
                requires { IsNewcomer pump.seat.number pump.seat.seen }
            {
                let _ = pump.write();
            },
        );
        if writing.is_err() {
            return Err(session.without_thread(&session.ends.writing));
        }
        Ok(session)
    }
}

impl<W: Runtime, S: Shut, R: Recorder> Session<W, S, R> {
    /// The session of a hub, whose pumps have no threads yet.
    pub(crate) fn without_pumps(
        rt: W,
        hub: Arc<Hub<R>, Global>,
        shutter: S,
    ) -> Result<Session<W, S, R>, Error> {
        let ends = ymx_memory::shared(rt.alloc(), Endings::new())?;
        let closer = Mutex::new(hub.seat(&rt)?);
        Ok(Session {
            rt,
            hub,
            shutter,
            closer,
            ends,
        })
    }

    /// A pump over this device, which is about to get a thread.
    pub(crate) fn pump<D: Drop>(
        &self,
        device: D,
        buffer: usize,
        end: &Ending,
    ) -> Result<Pump<W, R, D>, Error>
        requires { (0 < buffer) × (buffer ≤ most_zeros) }
        ensures { IfOk result (λ pump. (pump.device ≡ device) × IsNewcomer pump.seat.number pump.seat.seen) }
    {
        let rt = self.rt;
        let pump = Pump {
            rt,
            hub: ymx_memory::share(&self.hub)?,
            seat: self.parked()?,
            device,
            buffer: Buffer::new(rt.alloc(), buffer)?,
            ends: ymx_memory::share(&self.ends)?,
        };
        end.begin(&rt);
        Ok(pump)
    }

    /// `NoThread`, of a pump for which no thread could be made.
    pub(crate) fn without_thread(&self, end: &Ending) -> Error {
        end.tell(&self.rt, PumpWhy::NoThread);
        Error::NoThread
    }

    /// What is left of a new seat, which has made no call.
    pub(crate) fn parked(&self) -> Result<Parked<R>, Error>
        ensures { IfOk result (λ parked. IsNewcomer parked.number parked.seen) }
    {
        let seat = self.hub.seat(&self.rt)?;
        Ok(seat.into_parked())
    }

    /// The hub, whose calls take the seat of who makes them: what it has seen then, its contracts say.
    pub fn hub(&self) -> &Hub<R> {
        &self.hub
    }

    /// Opens a stream (stream identifiers). It doesn't wait for the peer, and bytes may be written at once.
    ///
    /// Refused, in this order, with `Closed`, `Lost`, `PeerAway` after the peer's Go Away, `Exhausted` where the ids are used up,
    /// `OpensPending` while 256 own streams are neither acknowledged, reset nor given up, and `TooMany` while 1,024 streams are there.
    /// `Memory` where there is none for the stream.
    pub fn open(&self) -> Result<Stream<W, R>, Error>
        ensures opened { IfOk result (IsOpened R.KEEPS) }
    {
        let rt = self.rt;
        let mut seat = self.hub.seat(&rt)?;
        let opened = open_at_seat(&rt, &self.hub, &mut seat);
        let caller = seat.into_parked();
        match opened {
            Ok(halves) => Ok(Stream::new(rt, caller, halves)),
            Err(fault) => Err(Error::from(fault)),
        }
    }

    /// Opens a stream and writes these bytes to it: the first go out with its SYN, in one frame. It waits for credit where there are more
    /// than 262,144. It fails as `open` and `Stream::write_all` do.
    pub fn open_with(&self, bytes: &[u8]) -> Result<Stream<W, R>, Error> {
        let rt = self.rt;
        let mut seat = self.hub.seat(&rt)?;
        let opened = open_with_at_seat(&rt, &self.hub, &mut seat, bytes);
        let caller = seat.into_parked();
        let (writer, reader, taken) = opened?;
        let mut stream = Stream::new(rt, caller, (writer, reader));
        if taken < bytes.len() {
            stream.write_all(&bytes[taken..])?;
        }
        Ok(stream)
    }

    /// Waits for a stream that the peer opens, and acknowledges it. `None` once the session is closed, or lost with none left.
    ///
    /// `Memory` where there is none for its halves: the stream can still be accepted then.
    pub fn accept(&self) -> Result<Option<Stream<W, R>>, Error>
        ensures accepted { IfOk result (λ offer. IfSome offer (IsAccepted R.KEEPS)) }
    {
        let rt = self.rt;
        let mut seat = self.hub.seat(&rt)?;
        let offer = accept_at_seat(&rt, &self.hub, &mut seat);
        let caller = seat.into_parked();
        match offer {
            Ok(Some(halves)) => Ok(Some(Stream::new(rt, caller, halves))),
            Ok(None) => Ok(None),
            Err(fault) => Err(Error::from(fault)),
        }
    }

    /// Pings the peer, and waits for the answer (ping). `Closed` and `Lost`, and `PingsPending` while 16 pings wait.
    pub fn ping(&self) -> Result<(), Error> {
        let rt = self.rt;
        let mut seat = self.hub.seat(&rt)?;
        let ponged = self.hub.ping(&rt, &mut seat);
        discard(seat);
        let _ = ponged?;
        Ok(())
    }

    /// Takes no more streams of the peer's (go away). Streams that are there go on. `Closed` and `Lost`.
    pub fn go_away(&self) -> Result<(), Error> {
        let rt = self.rt;
        let mut seat = self.hub.seat(&rt)?;
        let said = self.hub.go_away(&rt, &mut seat);
        discard(seat);
        Ok(said?)
    }

    /// Whether the session goes on: it is neither closed, lost nor broken.
    pub fn is_running(&self) -> bool {
        let rt = self.rt;
        let mut seat = self.closer.lock(&rt);
        self.hub.is_running(&rt, &mut seat)
    }

    /// Closes the session at once, and shuts its connection: what was not sent is lost. Each call that waits, of its streams too, answers
    /// `Closed`. It doesn't wait.
    pub fn abort(&self) {
        let rt = self.rt;
        let mut seat = self.closer.lock(&rt);
        let _ = self.hub.close(&rt, &mut seat);
        drop(seat);
        self.shutter.shut();
    }

    /// Waits until all that was written has gone out, closes the session, ends the connection's writing side, and waits until the peer
    /// has ended its side. There is no timeout: `abort`, or a drop, does without that wait.
    ///
    /// `Lost`, `Broken` or `Memory` where something may not have gone out, or the peer's end was none.
    pub fn close(self) -> Result<(), Error> {
        let rt = self.rt;
        let mut seat = self.closer.lock(&rt);
        let drained = self.hub.drain(&rt, &mut seat);
        let closed = self.hub.close(&rt, &mut seat);
        drop(seat);
        let written = said_by(self.ends.writing.wait(&rt));
        if written.is_err() {
            // The peer learns of no end, so it may wait for ever.
            self.shutter.shut();
        }
        said_by(self.ends.reading.wait(&rt))?;
        written?;
        drained?;
        Ok(closed?)
    }
}
