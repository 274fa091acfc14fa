//! What touches the system's sockets: connections, listeners, and their events. Each function makes the
//! calls that it names, in that order, and decides nothing. No contract sees which bytes the sockets carry, nor what the
//! system does, so this file is to be reviewed. No other makes such a call: sockets that never wait are private here.

ghost use Rattle.std.specs.Prelude.{◌≡◌, ◌<◌, ◌^◌, ◌==◌, length, None};
ghost use Rattle.std.specs.Slice.Iter.{iter_rest, iter_steps};
ghost use Rattle.std.specs.Iterator.Runs.{EveryRun, ItemsMapTo};
ghost use Rattle.mio.specs.declared.event.event.Event.{Event as SystemEvent};
ghost use Rattle.mio.specs.Events.{items};
ghost use Rattle.libc.specs.Net.{SockOption};
ghost use Rattle.ymx_sockets.specs.Counts.{CountsOne};

use crate::drain::Drain;
use crate::fault::StartFault;
use crate::proxy::{ProxyHeader, proxy_header};
use crate::source::Source;
use crate::stream::Stream;
use libc::net as c;
use libc::types::pollfd;
use mio::event::Iter;
use mio::unix::SourceFd;
use mio::{Interest, Token};
use std::alloc::Global;
use std::io::{ErrorKind, IoSlice, Read, Write};
use std::net::{Net, Shutdown, SocketAddr, SocketAddrV4, TcpListener, TcpStream};
use std::os::fd::AsRawFd;
use std::sync::Arc;
use std::time::Duration;
use std::{io, net};
use ymx_model::{read, write};
use ymx_policy::keepalive_of;

/// How often a write of several pieces that a signal interrupted is made again before it counts as failed.
const RETRIES: u32 = 1_000_000;
/// How many connections may wait in the system to be accepted.
const BACKLOG: i32 = 4_096;
/// How many events are taken at once.
const EVENTS: usize = 256;
/// What stands for SIGUSR1 in place of a descriptor.
const SIGNAL: i32 = -2;

/// The system refused to report events. Only a call that it refused makes one.
#[derive(Drop)]
pub struct NoEvents {
    /// What kind of error it was.
    pub kind: ErrorKind,
    seal: (),
}

/// What the system answered, where it was asked to report events.
fn or_no_events(answer: io::Result<()>) -> Result<(), NoEvents> {
    answer.map_err(|why| NoEvents {
        kind: why.kind(),
        seal: (),
    })
}

/// A connection whose calls never wait. It is closed when it is dropped, and aborted before, unless it has ended and
/// was finished here: so whatever cuts it, its other side sees a reset, and no end.
pub struct TcpConnection {
    inner: mio::net::TcpStream,
    /// Where its other side is, if that connected: the system doesn't know it any more once that has broken it.
    from: Option<SocketAddr>,
    /// It has not ended.
    gives: bool,
    /// It was not finished here.
    takes: bool,
}

impl Drop for TcpConnection {
    fn drop(self) {
        if self.gives || self.takes {
            abort(&self.inner);
        }
        let TcpConnection {
            inner: _,
            from: _,
            gives: _,
            takes: _,
        } = self;
    }
}

/// Aborts a connection, by a connect to an address of the family AF_UNSPEC: its other side sees a reset. What is unsent is lost.
fn abort(connection: &mio::net::TcpStream) {
    let unspecified = [0u8; c::_SS_SIZE];
    let _ = unsafe { c::connect(connection.as_raw_fd(), &unspecified, 16) };
}

impl TcpConnection {
    /// One that waits, made one that never does.
    pub fn of(connection: TcpStream) -> io::Result<TcpConnection> {
        connection.set_nonblocking(true)?;
        Ok(TcpConnection::new(mio::net::TcpStream::from_std(connection), None))
    }

    fn new(inner: mio::net::TcpStream, from: Option<SocketAddr>) -> TcpConnection {
        TcpConnection {
            inner,
            from,
            gives: true,
            takes: true,
        }
    }

    /// One to a peer, which is closed and not aborted where it is dropped.
    pub(crate) fn to_peer(self) -> TcpConnection {
        let mut connection = self;
        connection.gives = false;
        connection.takes = false;
        connection
    }

    /// Its PROXY protocol v1 header: who has connected, and where to.
    pub fn proxy_header(&self) -> ProxyHeader {
        proxy_header(self.from, self.inner.local_addr().ok())
    }

    /// Whether one that was begun is there, after so many milliseconds at most. The error is why it can't be made.
    pub fn is_there(&self, milliseconds: i32) -> io::Result<bool> {
        events_of(self.inner.as_raw_fd(), c::POLLOUT, milliseconds);
        match self.inner.take_error()? {
            Some(error) => Err(error),
            None => Ok(self.inner.peer_addr().is_ok()),
        }
    }

    /// What `prepare` says of a socket.
    pub fn prepare(&self, keepalive: u32) {
        prepare(&self.inner, keepalive);
    }

    /// How many of the bytes that it took the other side hasn't acknowledged. `release/parts.c` answers that to this call; where
    /// the program is linked without it, the answer is 0.
    pub fn unacknowledged(&self) -> u64 {
        let (mut value, mut size) = ([0u8; 16], 4);
        let socket = self.inner.as_raw_fd();
        let (level, name) = (c::IPPROTO_TCP, c::TCP_USER_TIMEOUT);
        let _ = unsafe { c::getsockopt(socket, level, name, &mut value, &mut size) };
        u64::from(u32::from_ne_bytes([value[0], value[1], value[2], value[3]]))
    }
}

/// What the system reports of a descriptor that is asked for these events, once it has one or so many milliseconds are over.
pub fn events_of(descriptor: i32, events: i16, milliseconds: i32) -> i16 {
    let mut asked = [pollfd {
        fd: descriptor,
        events,
        revents: 0,
    }];
    c::poll(&mut asked, milliseconds);
    asked[0].revents
}

/// What is written to this socket goes out at once. Where nothing comes for so many seconds, the system asks the other side for a
/// sign, and fails the connection where none comes; never for 0. All that a listener accepts is so from the start.
pub fn prepare<S: AsRawFd>(socket: &S, keepalive: u32) {
    set(socket, c::IPPROTO_TCP, c::TCP_NODELAY, 1);
    if let Some(keepalive) = keepalive_of(keepalive) {
        set(socket, c::IPPROTO_TCP, c::TCP_KEEPIDLE, keepalive.idle);
        set(socket, c::IPPROTO_TCP, c::TCP_KEEPINTVL, keepalive.interval);
        set(socket, c::IPPROTO_TCP, c::TCP_KEEPCNT, keepalive.probes);
        set(socket, c::SOL_SOCKET, c::SO_KEEPALIVE, 1);
    }
}

/// Sets this option of a socket.
fn set<S: AsRawFd>(socket: &S, level: i32, option: i32, value: u32)
    requires { SockOption level option }
{
    let mut bytes = [0u8; 16];
    bytes[..4].copy_from_slice(&value.to_ne_bytes());
    let _ = unsafe { c::setsockopt(socket.as_raw_fd(), level, option, &bytes, 4) };
}

impl Stream for TcpConnection {
    ghost left = { λ _. None };

    ghost had = { λ _. None };

    fn register(&mut self, poll: &Poll, source: Source) -> Result<(), NoEvents> {
        let both = Interest::READABLE | Interest::WRITABLE;
        let registry = poll.inner.registry();
        or_no_events(registry.register(&mut self.inner, Token(source.token()), both))
    }

    fn peer(&self) -> Option<SocketAddr> {
        self.from.or_else(|| self.inner.peer_addr().ok())
    }

    fn take_fault(&self) -> io::Result<Option<io::Error>> {
        self.inner.take_error()
    }

    fn read(&mut self, buffer: &mut [u8]) -> io::Result<usize> {
        let read = read(&mut &self.inner, buffer);
        self.gives &= buffer.is_empty() || !matches!(read, Ok(0));
        read
    }

    fn write(&mut self, bytes: &[u8]) -> io::Result<usize> {
        write(&mut &self.inner, bytes)
    }

    fn write_pieces(&mut self, pieces: &[IoSlice<'_>]) -> io::Result<usize> {
        'again: for _ in 0..RETRIES {
            match self.inner.write_vectored(pieces) {
                Err(e) if e.kind() == ErrorKind::Interrupted => {}
                done => return done,
            }
        }
        self.inner.write_vectored(pieces)
    }

    fn finish(&mut self) {
        let _ = self.inner.shutdown(Shutdown::Write);
        self.takes = false;
    }

    fn shut(&mut self) {
        let _ = self.inner.shutdown(Shutdown::Both);
    }

    fn abort(&self) {
        abort(&self.inner);
    }
}

/// Begins to connect to this address. It doesn't wait.
pub fn begin_connect<R: Net>(rt: &R, address: SocketAddr) -> io::Result<TcpConnection> {
    Ok(TcpConnection::new(mio::net::TcpStream::connect(rt, address)?, None))
}

/// A listener that a poll reports. Its calls never wait. It is closed when it is dropped.
#[derive(Drop)]
pub(crate) struct Listener {
    inner: mio::net::TcpListener,
}

impl Listener {
    /// One that waits, made one that never does. From now on this poll reports when a connection comes.
    pub(crate) fn new(listener: TcpListener, poll: &Poll) -> io::Result<Listener> {
        listener.set_nonblocking(true)?;
        let mut inner = mio::net::TcpListener::from_std(listener);
        let registry = poll.inner.registry();
        registry.register(
            &mut inner,
            Token(Source::Listener.token()),
            Interest::READABLE,
        )?;
        Ok(Listener { inner })
    }

    /// The next connection. Where none waits the error is `WouldBlock`.
    pub(crate) fn next(&self) -> io::Result<TcpConnection> {
        let (connection, from) = self.inner.accept()?;
        Ok(TcpConnection::new(connection, Some(from)))
    }

    /// Whether a connection waits, which stays there.
    pub(crate) fn is_awaited(&self) -> bool {
        events_of(self.inner.as_raw_fd(), c::POLLIN, 0) & c::POLLIN != 0
    }

    /// Nobody listens any more, at none of its duplicates: their polls report that.
    pub(crate) fn close_all(&self) {
        c::shutdown(self.inner.as_raw_fd(), c::SHUT_RDWR);
    }
}

/// What waits until something that was registered with it is ready, and the last events.
#[derive(Drop)]
pub struct Poll {
    inner: mio::Poll,
    events: mio::Events,
    /// What a signal asks for.
    drain: Option<Arc<Drain, Global>>,
    /// How often it has waited. It stays at the greatest `u64`.
    waits: u64,
    /// How often events were taken, with a wait or without. It stays at the greatest `u64`.
    looks: u64,
}

impl Poll {
    /// One with which nothing is registered.
    pub fn new<R: Net>(rt: &R, alloc: Global) -> Result<Poll, StartFault> {
        Ok(Poll {
            events: mio::Events::with_capacity(alloc, EVENTS)?,
            inner: mio::Poll::new(rt)?,
            drain: None,
            waits: 0,
            looks: 0,
        })
    }

    /// From now on each wait and each look asks for this drain once the program was sent SIGUSR1: where the program is linked so,
    /// the poll reports that by a descriptor which no file has. Elsewhere the system refuses that, and nothing is registered.
    pub fn on_signal(&mut self, drain: Arc<Drain, Global>) {
        let mut signal = SourceFd(&SIGNAL);
        let registry = self.inner.registry();
        let _ = registry.register(
            &mut signal,
            Token(Source::Signal.token()),
            Interest::READABLE,
        );
        self.drain = Some(drain);
    }

    /// Takes events, after so long a wait at most, and heeds a signal.
    fn take(&mut self, limit: Option<Duration>) -> Result<(), NoEvents>
        ensures { (self.new.waits ≡ self.old.waits) × (self.new.looks ≡ self.old.looks) }
    {
        let taken = or_no_events(self.inner.poll(&mut self.events, limit));
        let mut events = self.events.iter();
        let is_signalled = events.any(|event| event.token() == Token(Source::Signal.token()));
        if let (true, Some(drain)) = (is_signalled, &self.drain) {
            drain.note_asked();
        }
        taken
    }

    /// Waits for events, and no longer than the limit, if there is one. They take the place of those that were there.
    pub fn wait(&mut self, limit: Option<Duration>) -> Result<(), NoEvents>
        ensures waits { CountsOne self.old.waits self.new.waits }
        ensures looks { CountsOne self.old.looks self.new.looks }
    {
        self.waits = self.waits.saturating_add(1);
        self.looks = self.looks.saturating_add(1);
        self.take(limit)
    }

    /// Takes the events that are there, which take the place of those before. It doesn't wait.
    pub fn look(&mut self) -> Result<(), NoEvents>
        ensures waits { self.new.waits ≡ self.old.waits }
        ensures looks { CountsOne self.old.looks self.new.looks }
    {
        self.looks = self.looks.saturating_add(1);
        self.take(Some(Duration::ZERO))
    }

    /// Each event, as the system gave it: [`SocketEvent::of`] reads it.
    pub fn events(&self) -> Iter<'_>
        ensures rest { iter_rest result ≡ items self.now.events }
        ensures len { length (iter_rest result) < 2 ^ 64 }
        ensures runs { EveryRun (iter_steps {A = SystemEvent}) (λ p. ItemsMapTo p (λ e. e.now) (iter_rest p.from)) }
    {
        self.events.iter()
    }
}

/// What an event reports of its source. What has failed may be used, and fails then.
#[derive(Clone, Copy)]
pub struct SocketEvent {
    pub source: Source,
    /// It may give bytes, or its end.
    pub can_read: bool,
    /// It may take bytes.
    pub can_write: bool,
    /// Its end is near.
    pub is_closing: bool,
}

impl SocketEvent {
    /// What this event reports.
    pub fn of(event: &mio::event::Event) -> SocketEvent {
        let Token(token) = event.token();
        let is_closing = event.is_read_closed() || event.is_error();
        SocketEvent {
            source: Source::of(token),
            can_read: event.is_readable() || is_closing,
            can_write: event.is_writable() || is_closing,
            is_closing,
        }
    }
}

/// What ends the wait of a poll from another thread.
#[derive(Drop)]
pub(crate) struct Waker {
    inner: mio::Waker,
}

impl Waker {
    /// One that ends the waits of this poll.
    pub(crate) fn new(poll: &Poll) -> io::Result<Waker> {
        let inner = mio::Waker::new(poll.inner.registry(), Token(Source::Listener.token()))?;
        Ok(Waker { inner })
    }

    /// Ends the wait that is under way, or else the next.
    pub(crate) fn wake(&self) {
        let _ = self.inner.wake();
    }
}

/// Connects to this address.
pub fn connect<R: Net<Stream = TcpStream>>(rt: &R, address: SocketAddr) -> io::Result<TcpStream> {
    TcpStream::connect(rt, address)
}

/// Listens at this address. Where the system refuses so long a backlog, its own stays.
pub fn listen<R: Net<Stream = TcpStream, Listener = TcpListener>>(
    rt: &R,
    address: SocketAddr,
) -> io::Result<TcpListener> {
    let listener = TcpListener::bind(rt, address)?;
    let _ = libc::net::listen(listener.as_raw_fd(), BACKLOG);
    Ok(listener)
}

/// One more that listens there, too.
pub(crate) fn duplicate(listener: &TcpListener) -> io::Result<TcpListener> {
    listener.try_clone()
}

/// Where this one listens, which was to listen here.
pub fn local_address(listener: &TcpListener, address: SocketAddrV4) -> SocketAddrV4 {
    match listener.local_addr() {
        Ok(SocketAddr::V4(address)) => address,
        _ => address,
    }
}

/// The next connection that comes.
pub fn accept(listener: &TcpListener) -> io::Result<TcpStream> {
    let (connection, _) = listener.accept()?;
    Ok(connection)
}

/// Writes all of these bytes.
pub fn send(mut connection: &TcpStream, bytes: &[u8]) -> io::Result<()> {
    connection.write_all(bytes)
}

/// Reads to the end what comes, after what was received before.
pub fn receive(mut connection: &TcpStream, received: &mut Vec<u8>) -> io::Result<usize> {
    connection.read_to_end(received)
}

/// The other side reads what was written, and then the end.
pub fn finish(connection: &TcpStream) -> io::Result<()> {
    connection.shutdown(Shutdown::Write)
}

/// Sends back all that comes, and then the end.
pub fn echo(connection: &TcpStream) {
    let _ = io::copy(&mut &*connection, &mut &*connection);
    let _ = connection.shutdown(Shutdown::Write);
}
