//! The users of a `local`: what its links share of them, and which link takes which user.

use crate::Host;
use crate::accepting::Acceptor;
use crate::drain::Drain;
use crate::fault::StartFault;
use crate::logging::Context;
use crate::system::{Poll, TcpConnection, duplicate, listen};
use std::alloc::{AllocError, Global};
use std::io;
use std::net::{SocketAddr, SocketAddrV4, TcpListener};
use std::sync::atomic::{AtomicU32, AtomicUsize, Ordering};
use std::sync::{Arc, Mutex};
use std::time::Duration;
use ymx_model::Outlet;
use ymx_page::Event;
use ymx_policy::{Named, Outcome, Users as Wanted};

/// How many milliseconds a link that is ahead of its share lets go by before it accepts one more, and how many where the last
/// one was left to it.
const TURN: u64 = 10;

const SHORT_TURN: u64 = 1;

/// After so many rounds in which it never had to wait it accepts one more too.
const ROUNDS: u32 = 64;

/// What the links of an endpoint share.
#[derive(Drop)]
pub struct Shared {
    /// Through which it is asked to take no more connections.
    pub drain: Arc<Drain, Global>,
    /// How many users are to come, or as many as do.
    count: Option<u32>,
    /// How many of them have come, or are being accepted.
    reserved: AtomicU32,
    /// How many have come.
    come: AtomicU32,
    /// How many are open now, on all links.
    open: AtomicUsize,
    /// There is one link alone.
    is_alone: bool,
    /// How many links there are still.
    pub links: AtomicUsize,
    /// How many of them have a session.
    pub sessions: AtomicUsize,
    listening: Mutex<SharedListener>,
}

/// The listener that links share, until each has it.
#[derive(Drop)]
struct SharedListener {
    listener: Option<TcpListener>,
    /// How many links are still to have it.
    takers: usize,
    /// A link has opened it.
    is_asked: bool,
}

impl Shared {
    /// So many links, to which so many users are to come.
    pub fn new(
        alloc: Global,
        count: Option<u32>,
        links: usize,
    ) -> Result<Arc<Shared, Global>, AllocError> {
        let shared = Shared {
            drain: Arc::new(alloc, Drain::new(alloc))?,
            count,
            reserved: AtomicU32::new(0),
            come: AtomicU32::new(0),
            open: AtomicUsize::new(0),
            is_alone: links <= 1,
            links: AtomicUsize::new(links),
            sessions: AtomicUsize::new(0),
            listening: Mutex::new(SharedListener {
                listener: None,
                takers: links,
                is_asked: false,
            }),
        };
        Ok(Arc::new(alloc, shared)?)
    }

    /// The listener for users, for one more link, and whether that is the first: it opens the listener at this address. The others
    /// have duplicates, and the last one itself. None where the first couldn't open it.
    pub fn open<R: Host>(
        &self,
        rt: &R,
        address: SocketAddrV4,
    ) -> io::Result<Option<(TcpListener, bool)>> {
        let mut listening = self.listening.lock(rt);
        let is_first = !listening.is_asked;
        if is_first {
            listening.is_asked = true;
            listening.listener = Some(listen(rt, SocketAddr::V4(address))?);
        }
        listening.takers = listening.takers.saturating_sub(1);
        let taken = match &listening.listener {
            Some(listener) if listening.takers > 0 => Some(duplicate(listener)?),
            _ => listening.listener.take(),
        };
        Ok(taken.map(|listener| (listener, is_first)))
    }

    /// Whether a link has a session.
    pub fn has_sessions(&self) -> bool {
        self.sessions.load(Ordering::SeqCst) > 0
    }

    /// Whether no more users are to come: as many have come, or it drains.
    pub fn is_over(&self) -> bool {
        match self.count {
            Some(count) if self.come.load(Ordering::SeqCst) >= count => true,
            _ => self.drain.is_asked(),
        }
    }

    /// Whether users are still to come, of a count.
    pub fn is_short(&self) -> bool {
        self.count.is_some() && !self.is_over()
    }

    /// Whether one more user may be accepted, who is counted.
    fn reserve(&self) -> bool {
        let Some(count) = self.count else {
            return true;
        };
        let may_come = self.reserved.fetch_add(1, Ordering::SeqCst) < count;
        if !may_come {
            self.reserved.fetch_sub(1, Ordering::SeqCst);
        }
        may_come
    }

    /// Who was counted has come, or hasn't.
    fn commit(&self, has_come: bool) {
        if has_come {
            self.come.fetch_add(1, Ordering::SeqCst);
        } else {
            self.reserved.fetch_sub(1, Ordering::SeqCst);
        }
    }
}

/// The users who come to one link.
#[derive(Drop)]
pub struct Users {
    pub acceptor: Acceptor,
    shared: Arc<Shared, Global>,
    /// Where they come in.
    address: SocketAddrV4,
    /// Some may wait.
    may_wait: bool,
    /// How many are open here.
    open: usize,
    /// How many rounds have gone by since one was accepted.
    rounds: u32,
    /// No other link took the last one.
    is_left: bool,
}

impl Users {
    /// They come to this listener, which this poll reports.
    pub fn new(
        listener: TcpListener,
        wanted: Wanted,
        shared: Arc<Shared, Global>,
        poll: &Poll,
    ) -> Result<Users, StartFault> {
        let mut users = Users {
            acceptor: Acceptor::new(listener, wanted.keeps_listening, poll)?,
            shared,
            address: wanted.address,
            may_wait: true,
            open: 0,
            rounds: 0,
            is_left: false,
        };
        users.note_event();
        Ok(users)
    }

    /// An event reports that somebody waits, or it is time to look. Where no more are to come, nobody listens for them.
    pub fn note_event(&mut self) {
        self.may_wait = true;
        if self.shared.is_over() {
            self.acceptor.close_all();
        }
    }

    /// Whether somebody may wait who is to be accepted now, where so many are open.
    pub fn may_accept(&self, open: usize) -> bool {
        let may_wait = self.may_wait || self.acceptor.has_room(open);
        may_wait && !self.acceptor.is_over() && !self.yields(open)
    }

    /// Whether somebody waits, who stays there.
    pub fn are_waiting(&mut self) -> bool {
        self.may_wait = self.may_wait && self.acceptor.is_awaited();
        self.may_wait
    }

    /// Whether more are open here than its share, where so many are: one link alone never has more.
    fn is_ahead(&self, open: usize) -> bool {
        let all = self.shared.open.load(Ordering::SeqCst);
        let others = self.shared.links.load(Ordering::SeqCst).saturating_sub(1);
        open.saturating_mul(others) > all.saturating_sub(self.open)
    }

    /// Whether others have their turn first, as it is ahead, and no time went by since one was accepted.
    fn yields(&self, open: usize) -> bool {
        self.rounds < ROUNDS && self.is_ahead(open)
    }

    /// The next user, where so many are open. None where nobody waits, or nobody can be accepted now.
    pub fn accept(&mut self, open: usize) -> Option<TcpConnection> {
        self.rounds = 0;
        self.may_wait = false;
        if !self.shared.reserve() {
            return None;
        }
        let accepted = self.acceptor.accept(open);
        self.shared.commit(accepted.is_some());
        self.is_left = accepted.is_some() && self.is_ahead(open);
        if accepted.is_some() {
            self.note_event();
        }
        accepted
    }

    /// How long a wait may last. None for as long as no event comes.
    pub fn limit(&self) -> Option<Duration> {
        if self.may_wait && !self.acceptor.is_over() && self.yields(self.open) {
            let turn = if self.is_left { SHORT_TURN } else { TURN };
            return Some(Duration::from_millis(turn));
        }
        self.acceptor.limit()
    }

    /// So long a wait is over.
    pub fn note_waited(&mut self) {
        self.rounds = ROUNDS;
        if self.acceptor.limit().is_some() {
            self.note_event();
        }
    }

    /// One more round begins, in which so many are open here. Logs why the system has refused to accept one, if it has and that
    /// wasn't logged.
    pub fn note_open<R: Host, D: Outlet>(&mut self, context: Context<'_, '_, R, D>, open: usize) {
        self.rounds = self.rounds.saturating_add(1);
        let all = &self.shared.open;
        if open > self.open {
            all.fetch_add(open - self.open, Ordering::SeqCst);
        } else {
            all.fetch_sub(self.open - open, Ordering::SeqCst);
        }
        self.open = open;
        if let Some(reason) = self.acceptor.take_refusal() {
            context.log(Event::Refused(Named::Listen(self.address), reason));
        }
    }

    /// Whether as many are accepted as come.
    pub fn is_endless(&self) -> bool {
        self.shared.count.is_none()
    }

    /// The session was lost, and none follows: where there are other links, users are left to them.
    pub fn note_loss(&mut self) {
        if !self.shared.is_alone {
            self.acceptor.stop();
        }
    }

    /// Why nobody comes any more. None where somebody may.
    pub fn end(&self) -> Option<Outcome> {
        match self.acceptor.failure() {
            Some(reason) => Some(Outcome::NoUsers(reason)),
            None => self.acceptor.is_over().then_some(Outcome::AllCame),
        }
    }
}
