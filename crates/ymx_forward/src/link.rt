//! A link: one connection to a peer after another. It executes an endpoint's commands over sockets, in one thread.

ghost use Rattle.std.specs.Prelude.{None};

use crate::links::PeerBacklog;
use std::alloc::Global;
use std::io::ErrorKind;
use std::net::SocketAddr;
use std::sync::Arc;
use std::sync::atomic::Ordering;
use std::time::Duration;
use std::{io, thread};
use ymx_loop::{Service, run_session};
use ymx_model::{CallFault, Outlet};
use ymx_page::{Declined, Event};
use ymx_policy::{
    Action, Command, Dial, Endpoint, Outcome, Peers, Plan, Reason, Session, Terms,
    Users as UserSource, World, run,
};
use ymx_sockets::{
    Context, GLANCE, Host, Incoming, Peer, PeerAcceptor, Poll, Shared, StartFault, Stream,
    TcpConnection, Users, begin_connect, has_passed, local_address, prepare, time_of,
};

/// How many users are rejected at once at most: as many as wait in the system.
const WAITING: u32 = 4_096;

/// A link of an endpoint.
#[derive(Drop)]
pub(crate) struct Link<'a, 's, R, D> {
    context: Context<'a, 's, R, D>,
    endpoint: Endpoint,
    terms: Terms,
    /// What it shares with other links.
    shared: Arc<Shared, Global>,
    /// Others may ask for the drain, so it is woken then.
    is_woken: bool,
    /// Where peers are handed to it, if another thread admits them.
    backlog: Option<&'a PeerBacklog>,
    /// What reports events to it, once it needs that.
    poll: Option<Poll>,
    /// Its seat among those whom a drain wakes.
    seat: Option<usize>,
    /// What its sessions serve.
    service: Option<Service>,
    /// Where its peer connects.
    incoming: Option<PeerAcceptor>,
    /// The peer that is there.
    peer: Option<Peer>,
    /// Back off for a second before the next connect.
    backs_off: bool,
    /// It has a thread. Without one it can't do its first command.
    has_thread: bool,
    /// It counts among those that are left.
    is_left: bool,
}

/// Runs a link of the endpoint of this plan. Its exit status.
pub(crate) fn run_link<'a, 's, R: Host, D: Outlet>(
    context: Context<'a, 's, R, D>,
    plan: &Plan,
    shared: Arc<Shared, Global>,
    backlog: Option<&'a PeerBacklog>,
    has_thread: bool,
) -> u8 {
    let terms = plan.terms().of_link();
    let mut link = Link {
        context,
        endpoint: plan.endpoint,
        terms,
        shared,
        is_woken: plan.status.is_some(),
        backlog,
        poll: None,
        seat: None,
        service: None,
        incoming: None,
        peer: None,
        backs_off: false,
        has_thread,
        is_left: true,
    };
    let status = run(context.rt, &terms, &mut link);
    link.leave();
    status
}

impl<'a, 's, R: Host, D: Outlet> Link<'a, 's, R, D> {
    /// It is left no more. Whether no other is.
    fn leave(&mut self) -> bool {
        let was_left = self.is_left;
        self.is_left = false;
        was_left && self.shared.links.fetch_sub(1, Ordering::SeqCst) == 1
    }

    /// Its poll, made where there is none yet. A drain ends its waits.
    fn prepare(&mut self) -> Result<&mut Poll, StartFault> {
        if self.poll.is_none() {
            let Context { rt, alloc, .. } = self.context;
            let mut poll = Poll::new(rt, alloc)?;
            poll.on_signal(Arc::try_clone(&self.shared.drain)?);
            if self.is_woken {
                self.seat = Some(self.shared.drain.wakes(rt, alloc, &poll)?);
            }
            self.poll = Some(poll);
        }
        self.poll.as_mut().ok_or(StartFault::OutOfMemory)
    }

    /// Performs this action. The error is why something can't begin.
    fn execute(&mut self, action: Action) -> Result<Outcome, StartFault> {
        match action {
            Action::ListenForPeer(peers) => self.listen_for_peer(peers),
            Action::ListenForUsers(users) => self.listen_for_users(users),
            Action::Connect(dial) => Ok(self.connect(dial)),
            Action::AwaitPeer => Ok(self.await_peer()),
            // its peers are admitted elsewhere
            Action::AdmitPeers => Ok(Outcome::AllCame),
            Action::AwaitUser => Ok(self.await_user()),
            Action::Serve(session) => self.serve(session),
            Action::RejectUsers if self.shared.has_sessions() => Ok(Outcome::Done),
            Action::RejectUsers => Ok(self.close_waiting().err().unwrap_or(Outcome::Done)),
            Action::Pause(seconds) => {
                self.pause(seconds);
                Ok(Outcome::Done)
            }
            Action::End(_) => Ok(Outcome::Done),
        }
    }

    // ---- where users and peers come in

    /// Listens for its peer.
    fn listen_for_peer(&mut self, peers: Peers) -> Result<Outcome, StartFault> {
        let keeps_listening = self.terms.session.reconnects;
        let rt = self.context.rt;
        let incoming = PeerAcceptor::listen(rt, peers, keeps_listening, self.prepare()?)?;
        let listening_at = incoming.local_address;
        self.incoming = Some(incoming);
        Ok(Outcome::Listening(listening_at))
    }

    /// Listens for users, as the first link, or shares its listener. Where that found that nobody can, it has none.
    fn listen_for_users(&mut self, wanted: UserSource) -> Result<Outcome, StartFault> {
        let shared = Arc::try_clone(&self.shared)?;
        let Some((listener, is_first)) = shared.open(self.context.rt, wanted.address)? else {
            return Ok(Outcome::AllCame);
        };
        prepare(&listener, self.terms.session.options.keepalive);
        let listening_at = local_address(&listener, wanted.address);
        let users = Users::new(listener, wanted, shared, self.prepare()?)?;
        let names_users = matches!(
            self.endpoint,
            Endpoint::Local {
                names_users: true,
                ..
            }
        );
        self.service = Some(Service::Users(users, names_users));
        Ok(match is_first {
            true => Outcome::Listening(listening_at),
            false => Outcome::Done,
        })
    }

    // ---- its peer

    /// Connects to its peer, unless no more sessions are to begin.
    fn connect(&mut self, dial: Dial) -> Outcome {
        let reached = self.reach(dial);
        if !matches!(reached, Ok(None)) {
            self.context.log(Event::Dialed(reached.is_ok()));
        }
        match reached {
            Ok(Some(peer)) => {
                self.peer = Some(peer);
                Outcome::PeerCame
            }
            Ok(None) => Outcome::AllCame,
            Err(error) => {
                self.backs_off = self.shared.has_sessions();
                Outcome::Failed(Some(Reason::of_connect(&error)))
            }
        }
    }

    /// The peer that it connects to. After its limit, if it has one, the error is `TimedOut`. None where no more sessions are to begin.
    fn reach(&mut self, dial: Dial) -> io::Result<Option<Peer>> {
        let rt = self.context.rt;
        let began = time_of(rt);
        // so that a signal is seen meanwhile
        let _ = self.prepare();
        let socket = begin_connect(rt, SocketAddr::V4(dial.address))?;
        for _ in rt.forever() {
            if self.is_drained() {
                return Ok(None);
            }
            if socket.is_there(1_000 * GLANCE as i32)? {
                return Ok(Some(Peer::of(socket)));
            }
            if let Some(seconds) = dial.limit {
                if has_passed(began, time_of(rt), Duration::from_secs(seconds as u64)) {
                    return Err(io::Error::from(ErrorKind::TimedOut));
                }
            }
        }
        unreachable!()
    }

    /// Whether no more sessions are to begin, as a signal may have asked just now.
    fn is_drained(&mut self) -> bool {
        if let Some(poll) = &mut self.poll {
            let _ = poll.look();
        }
        self.shared.drain.is_asked()
    }

    /// Waits until a peer is handed to it, or connects.
    fn await_peer(&mut self) -> Outcome {
        let met = match self.backlog {
            Some(backlog) => backlog.next(self.context.rt).ok_or(Outcome::AllCame),
            None => self.meet(),
        };
        match met {
            Ok(peer) => {
                self.peer = Some(peer);
                Outcome::PeerCame
            }
            Err(outcome) => outcome,
        }
    }

    /// Waits until its peer connects. Where others may follow it, users that come meanwhile are rejected; else they wait, and nobody
    /// listens for another peer then.
    fn meet(&mut self) -> Result<Peer, Outcome> {
        let context = self.context;
        let reconnects = self.terms.session.reconnects;
        for _ in self.context.rt.forever() {
            if self.shared.drain.is_asked() {
                return Err(Outcome::AllCame);
            }
            if reconnects {
                self.close_waiting()?;
            }
            let Some(incoming) = &mut self.incoming else {
                return Err(Outcome::Failed(None));
            };
            match incoming.next(context) {
                Incoming::Peer(peer) => {
                    if !reconnects {
                        self.incoming = None;
                    }
                    return Ok(peer);
                }
                Incoming::Closed => {}
                Incoming::Nobody => self.await_incoming()?,
            }
        }
        unreachable!()
    }

    /// Waits until a peer may connect.
    fn await_incoming(&mut self) -> Result<(), Outcome> {
        let limit = match &self.service {
            Some(Service::Users(users, _)) => users.limit(),
            _ => None,
        };
        match (&self.incoming, &mut self.poll) {
            (Some(incoming), Some(poll)) => incoming.wait(poll, limit),
            _ => Err(Outcome::Failed(None)),
        }
    }

    // ---- its users

    /// Waits until a user waits, who stays there.
    fn await_user(&mut self) -> Outcome {
        if self.backs_off {
            self.backs_off = false;
            self.pause(1);
        }
        for _ in self.context.rt.forever() {
            let (Some(Service::Users(users, _)), Some(poll)) = (&mut self.service, &mut self.poll)
            else {
                return Outcome::NoUsers(None);
            };
            users.note_event();
            if let Some(end) = users.end() {
                return end;
            }
            if users.acceptor.is_awaited() {
                return Outcome::UserCame;
            }
            if poll.wait(None).is_err() {
                return Outcome::NoUsers(None);
            }
        }
        unreachable!()
    }

    /// Rejects the users that wait here. The one that came first is the last: so none is rejected that comes because it was.
    fn close_waiting(&mut self) -> Result<(), Outcome> {
        let context = self.context;
        let Some(Service::Users(users, _)) = &mut self.service else {
            return Ok(());
        };
        users.note_event();
        if let Some(first) = users.accept(0) {
            'closed: for _ in 1..WAITING {
                match users.accept(0) {
                    Some(user) => decline(context, user),
                    None => break 'closed,
                }
            }
            decline(context, first);
        }
        match users.end() {
            Some(end) => Err(end),
            None => Ok(()),
        }
    }

    // ---- its sessions

    /// Runs a session with the peer that is there. A link that is handed peers has its poll anew for the next: another may need
    /// the descriptor.
    fn serve(&mut self, session: Session) -> Result<Outcome, StartFault> {
        let outcome = self.run_session(session);
        if let Some(backlog) = self.backlog {
            if let Some(seat) = self.seat.take() {
                self.shared.drain.forget(self.context.rt, seat);
            }
            self.poll = None;
            backlog.leave(self.context.rt);
        }
        outcome
    }

    /// Runs a session with the peer that is there, where there is a poll for it.
    fn run_session(&mut self, session: Session) -> Result<Outcome, StartFault> {
        let Some(peer) = self.peer.take() else {
            return Ok(Outcome::Failed(None));
        };
        if let Endpoint::Remote {
            target,
            workers,
            ..
        } = self.endpoint
        {
            let drain = Arc::try_clone(&self.shared.drain)?;
            self.service = Some(Service::Target(target, workers, drain));
        }
        self.prepare()?;
        let (Some(service), Some(poll)) = (&mut self.service, &mut self.poll) else {
            return Ok(Outcome::Failed(None));
        };
        self.shared.sessions.fetch_add(1, Ordering::SeqCst);
        if let Service::Users(users, _) = service {
            users.note_event();
        }
        let mut end = run_session(self.context, poll, service, peer, session);
        self.shared.sessions.fetch_sub(1, Ordering::SeqCst);
        self.backs_off = session.reconnects && !end.is_arrival_logged;
        let is_link = self.terms.link_count > 1 && !session.reconnects;
        end.lacks_peer |= is_link && self.leave() && self.shared.is_short();
        Ok(Outcome::SessionEnded(end))
    }

    /// Lets so many seconds go by, or fewer where no more sessions are to begin.
    fn pause(&mut self, seconds: u64) {
        for _ in 0..seconds / GLANCE {
            if self.is_drained() {
                return;
            }
            thread::sleep(self.context.rt, Duration::from_secs(GLANCE));
        }
    }
}

impl<R: Host, D: Outlet> World for Link<'_, '_, R, D> {
    ghost log = { λ _. None };

    fn perform(&mut self, command: Command) -> Outcome {
        self.context.log_words(command.words);
        if !self.has_thread {
            return Outcome::NoThread;
        }
        self.execute(command.action)
            .unwrap_or_else(StartFault::outcome)
    }
}

/// Closes a user for whom there is no session.
fn decline<R: Host, D: Outlet>(context: Context<'_, '_, R, D>, user: TcpConnection) {
    let origin = context.begin(user.peer());
    let why = Declined::BySession(CallFault::Lost);
    context.log(Event::Declined(origin, why));
}
