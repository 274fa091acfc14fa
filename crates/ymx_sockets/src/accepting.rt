//! Listeners: of users, and of peers.

use crate::Host;
use crate::clock::shorter;
use crate::logging::Context;
use crate::peer::Peer;
use crate::system::{Listener, Poll, TcpConnection, listen, local_address};
use std::io;
use std::io::ErrorKind;
use std::net::{SocketAddr, SocketAddrV4, TcpListener};
use std::time::Duration;
use ymx_model::Outlet;
use ymx_page::Event;
use ymx_policy::{Named, Networks, Notice, Outcome, Peers, Reason};

/// How often an accept whose connection went away meanwhile is made again in a row.
const RETRIES: u32 = 1_024;

/// How many seconds go by until it is tried again to accept a connection for which there was no descriptor or no memory.
const RETRY: u64 = 1;

/// A listener whose connections a poll reports.
#[derive(Drop)]
pub struct Acceptor {
    /// None where no more are accepted.
    listener: Option<Listener>,
    /// It keeps listening when descriptors or memory run out.
    keeps_listening: bool,
    /// How many connections were open when there was no descriptor or no memory for one more.
    full_at: Option<usize>,
    /// Why the system last refused to accept one, until that is logged.
    refusal: Option<Reason>,
    /// No more are accepted, as none can be.
    has_failed: bool,
}

impl Acceptor {
    /// Of this listener, which this poll reports.
    pub(crate) fn new(
        listener: TcpListener,
        keeps_listening: bool,
        poll: &Poll,
    ) -> io::Result<Acceptor> {
        Ok(Acceptor {
            listener: Some(Listener::new(listener, poll)?),
            keeps_listening,
            full_at: None,
            refusal: None,
            has_failed: false,
        })
    }

    /// The next connection that waits, where so many are open. None where none waits, or none can be accepted now.
    pub(crate) fn accept(&mut self, open: usize) -> Option<TcpConnection> {
        match next(self.listener.as_ref()?) {
            Ok(connection) => {
                self.full_at = None;
                connection
            }
            Err(reason) => {
                self.on_refusal(reason, open);
                None
            }
        }
    }

    /// Notes why none was accepted. A lack of descriptors or memory is logged once, and not at each try.
    fn on_refusal(&mut self, reason: Reason, open: usize) {
        if self.keeps_listening && matches!(reason, Reason::NoDescriptor | Reason::NoMemory) {
            if self.full_at.is_none() {
                self.refusal = Some(reason);
            }
            self.full_at = Some(open);
        } else {
            self.refusal = Some(reason);
            self.fail();
        }
    }

    /// Whether there may be a descriptor or memory again, as fewer are open than where there was none.
    pub(crate) fn has_room(&self, open: usize) -> bool {
        self.full_at.is_some_and(|full| open < full)
    }

    /// After how long it is to be tried again to accept one. None where it needn't be.
    pub fn limit(&self) -> Option<Duration> {
        let is_full = self.full_at.is_some() && !self.is_over();
        is_full.then_some(Duration::from_secs(RETRY))
    }

    /// Whether no more are accepted.
    pub fn is_over(&self) -> bool {
        self.listener.is_none()
    }

    /// Whether one waits, which stays there.
    pub fn is_awaited(&self) -> bool {
        self.listener.as_ref().is_some_and(|it| it.is_awaited())
    }

    /// No more are accepted, nor elsewhere where they come in through a duplicate.
    pub(crate) fn close_all(&mut self) {
        if let Some(listener) = &self.listener {
            listener.close_all();
        }
        self.stop();
    }

    /// No more are accepted.
    pub fn stop(&mut self) {
        self.listener = None;
    }

    /// No more can be accepted.
    pub(crate) fn fail(&mut self) {
        self.has_failed = true;
        self.stop();
    }

    /// One can't be served, as the system refuses to watch it. No more are accepted, unless it keeps listening.
    pub fn fail_unwatched(&mut self) {
        if !self.keeps_listening {
            self.fail();
        }
    }

    /// Why the system has refused to accept one, if it keeps listening and that wasn't logged.
    pub(crate) fn take_refusal(&mut self) -> Option<Reason> {
        if self.has_failed {
            return None;
        }
        self.refusal.take()
    }

    /// That none can be accepted any more, and the system's reason, if it is known. None where one may be.
    pub fn failure(&self) -> Option<Option<Reason>> {
        self.has_failed.then_some(self.refusal)
    }
}

/// What came of an accept.
#[derive(Drop)]
pub enum Incoming {
    /// A peer that is admitted.
    Peer(Peer),
    /// A connection that was closed. Others may wait.
    Closed,
    /// None.
    Nobody,
}

/// The listener for peers.
#[derive(Drop)]
pub struct PeerAcceptor {
    pub acceptor: Acceptor,
    /// Where it is.
    pub local_address: SocketAddrV4,
    /// From where they may connect.
    from: Networks,
}

impl PeerAcceptor {
    /// Listens where these peers connect to, and admits them, as this poll reports.
    pub fn listen<R: Host>(
        rt: &R,
        peers: Peers,
        keeps_listening: bool,
        poll: &Poll,
    ) -> io::Result<PeerAcceptor> {
        let listener = listen(rt, SocketAddr::V4(peers.address))?;
        let local_address = local_address(&listener, peers.address);
        Ok(PeerAcceptor {
            acceptor: Acceptor::new(listener, keeps_listening, poll)?,
            local_address,
            from: peers.from,
        })
    }

    /// The next connection. One from elsewhere than --from allows is closed unread.
    pub fn next<R: Host, D: Outlet>(&mut self, context: Context<'_, '_, R, D>) -> Incoming {
        let Some(socket) = self.acceptor.accept(0) else {
            if let Some(reason) = self.acceptor.take_refusal() {
                context.log(Event::Refused(Named::Bind(self.local_address), reason));
            }
            return Incoming::Nobody;
        };
        let peer = Peer::of(socket);
        if self.from.admits(peer.address) {
            return Incoming::Peer(peer);
        }
        context.log(Event::Notice(Notice::Denied(peer.address)));
        Incoming::Closed
    }

    /// Waits until a connection may come, and for so long at most. The error is that none can be accepted any more.
    pub fn wait(&self, poll: &mut Poll, limit: Option<Duration>) -> Result<(), Outcome> {
        if let Some(why) = self.acceptor.failure() {
            return Err(Outcome::Failed(why));
        }
        let waited = poll.wait(shorter(limit, self.acceptor.limit()));
        waited.map_err(|_| Outcome::Failed(None))
    }
}

/// The next connection, or none where none waits: tried again where it went away meanwhile, or a signal interrupts it.
fn next(listener: &Listener) -> Result<Option<TcpConnection>, Reason> {
    for _ in 0..RETRIES {
        match listener.next() {
            Ok(connection) => return Ok(Some(connection)),
            Err(e) => match e.kind() {
                ErrorKind::Interrupted | ErrorKind::ConnectionAborted => {}
                ErrorKind::WouldBlock => return Ok(None),
                _ => return Err(Reason::of(&e)),
            },
        }
    }
    Err(Reason::Reset)
}
