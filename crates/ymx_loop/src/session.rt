//! The loop that runs one session of a tunnel: what it does between two looks at the events.
//!
//! All that moves is moved by calls of [`ymx_engine::Tunnel`], which owns the wire and the connections. Each function
//! here that makes such calls has a clause that they are all it did: `Runs`.

ghost use Rattle.std.specs.Prelude.{◌≡◌, ◌⊎◌, length, true, false, None, Some, IfOk, IfErr, not};
ghost use Rattle.ymx_engine.specs.Runs.{Runs, IsOver};
ghost use Rattle.ymx_engine.specs.Served.{Serving};
ghost use Rattle.ymx_engine.specs.Turns.{Connection as ConnectionValue, connection_of};
ghost use Rattle.ymx_engine.specs.Directions.{is_over};
ghost use Rattle.ymx_engine.specs.Work.{ServesOne, WorksOnce};
ghost use Rattle.ymx_sockets.specs.Counts.{CountsOne};
ghost use Rattle.ymx_loop.specs.Loops.{NeedsEvents, WaitsInNeed, WorksBetween};
ghost use Rattle.ymx_loop.specs.declared.session.Outcome.TheVariants as OutcomeOf;
ghost use Rattle.ymx_law_session.specs.Limits.{IsWithin};
ghost use Rattle.ymx_model.specs.session.Sessions.{is_running};

use crate::silence::{Cause, Due, Pace, Silence, is_sign};
use crate::socket::{Socket, close};
use std::alloc::Global;
use std::net::{SocketAddr, SocketAddrV4};
use std::sync::Arc;
use std::time::Duration;
use ymx_engine::{Device, NotJoined, Readiness, Registry, Tunnel};
use ymx_header::{FIRST_EXHAUSTED, MOST_RECORDS};
use ymx_model::{CallFault, Config, Outlet, Role, Status};
use ymx_page::{Declined, EndedConnection, Ending, Event, Origin};
use ymx_policy::{Notice, Reason, Session as Asked, SessionEnd};
use ymx_session::{NewFault, Session};
use ymx_sockets::{
    Context, Drain, GLANCE, Host, NoEvents, Peer, Poll, ProxyHeader, SocketEvent, Source, Stream,
    TcpConnection, Users, begin_connect, has_passed, shorter, time_of,
};

/// How many connections are accepted at most before bytes move again.
const ACCEPTS: u32 = 64;

/// How many bytes of a frame's payload go straight to their connection at least, in one call with up to three more frames of its
/// stream. Fewer go through the stream's ring, as a copy of them costs less than a call.
const LEAST_STRAIGHT: usize = 8_192;

/// How many bytes of connections are taken before they are written to the wire.
const UNWRITTEN: u64 = 131_072;

/// How many seconds nothing may move where a session was lost and another follows, and how many a peer may be silent at the
/// end before its connection is closed, where others may wait.
const PATIENCE: u64 = 10;

/// How many seconds a session lasts at least after which a reconnect comes at once.
const LASTING: u64 = 1;

/// What a session serves.
#[derive(Drop)]
pub enum Service {
    /// The users of a `local`, the yamux client, and whether each stream begins with a PROXY protocol header that names its user.
    Users(Users, bool),
    /// The target of a `remote`, the yamux server, for so many streams at once. Once it drains, no more streams are taken.
    Target(SocketAddrV4, u32, Arc<Drain, Global>),
}

impl Service {
    /// Its role in the session.
    fn role(&self) -> Role {
        match self {
            Service::Users(_, _) => Role::Client,
            Service::Target(_, _, _) => Role::Server,
        }
    }

    /// Whether no more connections are to come, as it drains.
    fn is_drained(&self) -> bool {
        match self {
            Service::Users(_, _) => false,
            Service::Target(_, _, drain) => drain.is_asked(),
        }
    }
}

/// Registers connections with a poll, each under the token of its stream.
#[derive(Drop)]
struct Tokens<'a> {
    poll: &'a Poll,
}

impl<S: Stream + Drop> Registry<Socket<S>> for Tokens<'_> {
    ghost told = { λ _. None };

    fn register(&mut self, id: u32, device: &mut Socket<S>) -> bool {
        device.register(self.poll, Source::Stream(id))
    }
}

/// How a loop came to its end.
#[derive(Clone, Copy, PartialEq, Eq)]
enum Outcome {
    /// This side and all its connections had ended, and the wire had taken all that was due or had failed.
    Over,
    /// The session was lost, another one follows, and nothing had moved for too long.
    Left,
    /// The system refused to report events.
    Unwatched,
}

/// Runs such a session with this peer, in this thread alone, and returns how it ended. Once its service has ended it sends all
/// that is due, closes its writing side, and waits for the peer to close the connection.
///
/// A client ends after its count of connections, or at an accept that fails. Without a count it also ends at the first
/// connection that is accepted after the session was lost or, where another session follows, as soon as it is lost. A
/// server ends with the session. Both end only once all connections have. Where another session follows, connections
/// that have taken nothing for ten seconds since the loss are closed.
pub fn run_session<R: Host, D: Outlet>(
    context: Context<'_, '_, R, D>,
    poll: &mut Poll,
    service: &mut Service,
    peer: Peer,
    session: Asked,
) -> SessionEnd {
    let began = time_of(context.rt);
    let address = peer.address;
    let mut how = match Socket::wire(peer.into_connection(session.options.keepalive), poll) {
        Ok(wire) => run_over(context, poll, service, wire, (session, address)),
        Err(_) => SessionEnd {
            lacks_peer: true,
            ..SessionEnd::clean()
        },
    };
    how.peer = address;
    how.has_lasted = has_passed(began, time_of(context.rt), Duration::from_secs(LASTING));
    how
}

/// Runs such a session over this wire, with the peer at this address, if it is known, and closes the wire.
fn run_over<R: Host, D: Outlet>(
    context: Context<'_, '_, R, D>,
    poll: &mut Poll,
    service: &mut Service,
    wire: Socket,
    asked: (Asked, Option<SocketAddrV4>),
) -> SessionEnd {
    let (session, peer) = asked;
    let tunnel = match new_tunnel(context.alloc, wire, service.role(), session.options.window) {
        Ok(tunnel) => tunnel,
        Err(_) => {
            return SessionEnd {
                lacked_memory: true,
                ..SessionEnd::clean()
            };
        }
    };
    let mut session_loop = SessionLoop {
        context,
        tunnel,
        service,
        session,
        peer,
        how: SessionEnd::clean(),
        unwritten: 0,
        passed: (0, 0),
        rejected: 0,
        is_end_logged: false,
        is_full: false,
        watched_at: time_of(context.rt),
        pace: Pace::new(),
        has_first_frame: !session.needs_first_frame,
        is_leaving: false,
        still_since: None,
        silence: Silence::new(time_of(context.rt), session.options.ping),
        pending: None,
    };
    let outcome = session_loop.run(poll);
    session_loop.note_users();
    session_loop.log_counts();
    session_loop.log_end();
    let how = session_loop.ended(outcome);
    let limit = session_loop.close_limit();
    let SessionLoop { tunnel, .. } = session_loop;
    let mut wire = tunnel.into_wire();
    close(context.rt, poll, &mut wire, how.broken.is_some(), limit);
    how
}

/// One session of a tunnel's end.
#[derive(Drop)]
struct SessionLoop<'a, 's, R, D> {
    context: Context<'a, 's, R, D>,
    tunnel: Tunnel<Socket, Socket>,
    service: &'a mut Service,
    session: Asked,
    /// Where the peer is, if that is known.
    peer: Option<SocketAddrV4>,
    /// What was noted of how it ends.
    how: SessionEnd,
    /// How many bytes connections have given since the wire was last written to.
    unwritten: u64,
    /// How many bytes have passed to the peer, and from it, since that was counted.
    passed: (u64, u64),
    /// How many of the peer's streams were counted as rejected, as memory was out.
    rejected: u64,
    is_end_logged: bool,
    /// It was logged that users wait as all slots are used.
    is_full: bool,
    /// When it was last looked for connections that are idle for too long.
    watched_at: Option<Duration>,
    pace: Pace,
    /// The peer's first frame has come, or isn't waited for.
    has_first_frame: bool,
    /// Go Away was sent.
    is_leaving: bool,
    /// Since when nothing has moved. None where something just did.
    still_since: Option<Duration>,
    silence: Option<Silence>,
    /// The number of the ping that the peer was last sent, until its answer is collected.
    pending: Option<u32>,
}

impl<R: Host, D: Outlet> SessionLoop<'_, '_, R, D> {
    /// Runs until this side and all its connections have ended, and the wire has taken all that is due or has failed. Where
    /// another session follows, it is also left once the session is lost and nothing has moved for too long.
    fn run(&mut self, poll: &mut Poll) -> Outcome
        requires serves { Serving self.old.tunnel }
        ensures runs { Runs self.old.tunnel self.new.tunnel }
        // It waits for events only where nothing can be moved without one.
        ensures waits { WaitsInNeed self.old.tunnel self.new.tunnel poll.old.waits poll.new.waits }
        // Between two looks at the events it works a whole round.
        ensures rounds { WorksBetween self.old.tunnel self.new.tunnel poll.old.looks poll.new.looks }
        // A loop that wasn't left is over: nothing is due, or the wire has failed, and no connection is left.
        ensures over { result ≡ OutcomeOf.Over → IsOver self.new.tunnel × (length self.new.tunnel.connections.by_id ≡ 0) }
    {
        let context = self.context;
        context.log(Event::SessionBegan(self.slots()));
        if self.session.needs_first_frame {
            self.ask();
        }
        for _ in self.context.rt.forever() {
            if self.is_over() {
                return Outcome::Over;
            }
            let limit = self.on_silence();
            if let Err(refused) = self.await_events(poll, limit) {
                self.give_up_wire(Cause::Unwatched(refused));
                self.leave_all();
                return Outcome::Unwatched;
            }
            if self.is_to_be_left() {
                self.leave_all();
                return Outcome::Left;
            }
            self.take_turn(poll);
        }
        unreachable!()
    }

    /// Looks whether the peer is silent: then it is pinged, and given up where no answer comes. How long it may be
    /// silent yet, or None if for ever.
    fn on_silence(&mut self) -> Option<Duration>
        ensures { Runs self.old.tunnel self.new.tunnel }
    {
        if self.is_lost() {
            return None;
        }
        let now = time_of(self.context.rt);
        let mut silence = self.silence?;
        let wire = self.tunnel.wire();
        silence.on_bytes(now, wire.pulled, wire.pushed, self.tunnel.unframed());
        let due = silence.due(now, wire.pushed, || wire.socket.unacknowledged());
        self.silence = Some(silence);
        match due {
            Due::In(left) => Some(left),
            Due::Ping => {
                self.ask();
                Some(silence.patience)
            }
            Due::Loss(silent) => {
                self.give_up_wire(Cause::Silent(silent));
                Some(Duration::ZERO)
            }
        }
    }

    /// Pings the peer, unless the answer to the last ping is still to come.
    fn ask(&mut self)
        ensures { Runs self.old.tunnel self.new.tunnel }
    {
        if let Some(number) = self.pending
            && matches!(self.tunnel.ponged(number), Ok(false))
        {
            return;
        }
        self.pending = self.tunnel.ping().ok();
    }

    /// The connection to the peer is cut off, for this cause alone.
    fn give_up_wire(&mut self, _cause: Cause)
        ensures runs { Runs self.old.tunnel self.new.tunnel }
        ensures lost { is_running self.new.tunnel.engine.session.status ≡ false }
    {
        self.tunnel.give_up_wire();
    }

    /// Waits for events for so long at most, unless something can be done without one, and notes them.
    fn await_events(&mut self, poll: &mut Poll, limit: Option<Duration>) -> Result<(), NoEvents>
        ensures runs { Runs self.old.tunnel self.new.tunnel }
        ensures waits { Serving self.old.tunnel → (poll.new.waits ≡ poll.old.waits) ⊎ (NeedsEvents self.old.tunnel × CountsOne poll.old.waits poll.new.waits) }
        ensures looked { CountsOne poll.old.looks poll.new.looks }
    {
        if self.has_work() {
            self.still_since = None;
            poll.look()?;
        } else {
            if self.still_since.is_none() {
                self.still_since = time_of(self.context.rt);
            }
            poll.wait(shorter(self.timeout(), limit))?;
            if poll.events().next().is_some() {
                self.still_since = None;
            } else if let Service::Users(users, _) = &mut *self.service {
                users.note_waited();
            }
        }
        self.note_all(poll);
        Ok(())
    }

    /// How long it waits for events. None if for as long as none comes.
    fn timeout(&self) -> Option<Duration> {
        let may_idle = self.session.options.idle.is_some() && !self.tunnel.is_empty();
        let is_left = self.session.reconnects && self.is_lost();
        let glance = (may_idle || is_left).then_some(Duration::from_secs(GLANCE));
        match &*self.service {
            Service::Users(users, _) => shorter(users.limit(), glance),
            Service::Target(_, _, _) => glance,
        }
    }

    /// Does what can be done now.
    fn take_turn(&mut self, poll: &Poll)
        ensures runs { Runs self.old.tunnel self.new.tunnel }
        // The wire is read and written, and each connection that waits for a turn comes nearer, has it or leaves.
        ensures works { WorksOnce self.old.tunnel self.new.tunnel }
    {
        self.note_pace();
        self.accept_users(poll);
        self.note_users();
        self.tunnel.read_wire(LEAST_STRAIGHT);
        self.log_peer();
        self.abort_idle();
        self.heed_drain();
        self.accept_streams(poll);
        self.serve_queued();
        self.unwritten = 0;
        self.tunnel.flush();
        self.end_lost_wire();
        self.note_pace();
        self.log_counts();
    }

    /// Notes whether the line is slow.
    fn note_pace(&mut self)
        ensures { Runs self.old.tunnel self.new.tunnel }
    {
        let is_slow = self.pace.is_slow(self.context.rt, self.tunnel.wire());
        self.tunnel.note_pace(is_slow);
    }

    // ---- what it looks at

    /// Whether something can be done with no event.
    fn has_work(&self) -> bool
        // Where it has none, nothing can be moved without an event.
        ensures { Serving self.now.tunnel → result ≡ false → NeedsEvents self.now.tunnel }
    {
        let has_offer = self.free_target().is_some() && self.tunnel.offered_count() > 0;
        has_offer || self.has_user() || self.tunnel.has_work()
    }

    /// Whether a user may wait who is to be accepted now: those that come for the next session are left to it, and others
    /// to when there is a slot, and the peer's first frame has come.
    fn has_user(&self) -> bool {
        let Service::Users(users, _) = &*self.service else {
            return false;
        };
        if !users.may_accept(self.tunnel.len()) || self.leaves_users() {
            return false;
        }
        let can_open_later = !self.is_lost()
            && !self.tunnel.is_peer_away()
            && self.tunnel.next_id() < FIRST_EXHAUSTED;
        let has_slot = self.has_first_frame && self.tunnel.len() < self.slots();
        !can_open_later || has_slot && self.tunnel.opens_left() > 0
    }

    /// How many connections it may have at once.
    fn slots(&self) -> usize {
        match &*self.service {
            Service::Users(_, _) => MOST_RECORDS,
            Service::Target(_, workers, _) => *workers as usize,
        }
    }

    /// Where a stream goes to that is accepted now. None where it has to wait, or none is accepted at all.
    fn free_target(&self) -> Option<SocketAddrV4> {
        match &*self.service {
            Service::Target(target, _, _) if self.tunnel.len() < self.slots() => Some(*target),
            _ => None,
        }
    }

    /// Whether users wait as all slots are used: at a `remote` their streams do.
    fn keeps_waiting(&mut self) -> bool
        ensures { self.new.tunnel ≡ self.old.tunnel }
    {
        if self.tunnel.len() < self.slots() || self.is_lost() {
            return false;
        }
        match &mut *self.service {
            Service::Users(users, _) => users.are_waiting(),
            Service::Target(_, _, _) => self.tunnel.offered_count() > 0,
        }
    }

    /// Whether this side and all its connections have ended, and nothing more goes over the wire.
    fn is_over(&self) -> bool
        ensures { result ≡ true → IsOver self.now.tunnel × (length self.now.tunnel.connections.by_id ≡ 0) }
    {
        let is_side_over = match &*self.service {
            Service::Users(users, _) => users.acceptor.is_over() || self.leaves_users(),
            Service::Target(_, _, _) => {
                (self.is_lost() || self.is_leaving) && self.tunnel.offered_count() == 0
            }
        };
        is_side_over && self.tunnel.is_empty() && self.tunnel.is_over()
    }

    /// Whether the session is over.
    fn is_lost(&self) -> bool
        ensures { result ≡ not (is_running self.now.tunnel.engine.session.status) }
    {
        !matches!(self.tunnel.status(), Status::Running)
    }

    /// Whether the session was lost, another one follows, and nothing has moved for too long.
    fn is_to_be_left(&self) -> bool
        ensures { result ≡ true → is_running self.now.tunnel.engine.session.status ≡ false }
    {
        if !self.session.reconnects || !self.is_lost() {
            return false;
        }
        let now = time_of(self.context.rt);
        has_passed(self.still_since, now, Duration::from_secs(PATIENCE))
    }

    /// Whether users are left to the next session: another one follows, and this one is over, or its peer takes no more streams.
    fn leaves_users(&self) -> bool {
        self.session.reconnects && (self.is_lost() || self.tunnel.is_peer_away())
    }

    // ---- events

    /// Notes the events that are there.
    fn note_all(&mut self, poll: &Poll)
        ensures { Runs self.old.tunnel self.new.tunnel }
    {
        'event: for event in poll.events() {
            self.note(SocketEvent::of(event));
        }
    }

    /// Notes an event.
    fn note(&mut self, socket_event: SocketEvent)
        ensures { Runs self.old.tunnel self.new.tunnel }
    {
        let ready = Readiness {
            can_pull: socket_event.can_read,
            can_push: socket_event.can_write,
            is_closing: socket_event.is_closing,
        };
        match socket_event.source {
            Source::Link if self.tunnel.wire().has_failed() => {}
            Source::Link => self.tunnel.note_wire(ready),
            Source::Listener | Source::Signal => {
                if let Service::Users(users, _) = &mut *self.service {
                    users.note_event();
                }
            }
            Source::Stream(id) => self.tunnel.note_connection(id, ready),
        }
    }

    // ---- users who come

    /// Opens a stream for each user that waits, as far as there is a slot.
    fn accept_users(&mut self, poll: &Poll)
        ensures { Runs self.old.tunnel self.new.tunnel }
    {
        'accept: for _ in 0..ACCEPTS {
            if !self.has_user() {
                return;
            }
            let open = self.tunnel.len();
            let Service::Users(users, _) = &mut *self.service else {
                return;
            };
            let Some(socket) = users.accept(open) else {
                return;
            };
            self.begin_user(socket, poll);
        }
    }

    /// Notes how many users are open.
    fn note_users(&mut self)
        ensures { self.new.tunnel ≡ self.old.tunnel }
    {
        let open = self.tunnel.len();
        if let Service::Users(users, _) = &mut *self.service {
            users.note_open(self.context, open);
        }
    }

    /// Opens a stream for a user.
    fn begin_user(&mut self, socket: TcpConnection, poll: &Poll)
        ensures { Runs self.old.tunnel self.new.tunnel }
    {
        let context = self.context;
        let origin = context.begin(socket.peer());
        let proxy_header = match &*self.service {
            Service::Users(_, true) => socket.proxy_header(),
            _ => ProxyHeader::new(),
        };
        let device = Socket::connected(socket, origin, proxy_header);
        if let Err(why) = self.tunnel.open(device, &mut Tokens { poll }) {
            self.decline(origin, why);
        }
    }

    /// Says why a user got no stream. Once the session is lost it is the last one, unless others are counted on.
    fn decline(&mut self, origin: Origin, why: NotJoined)
        ensures { self.new.tunnel ≡ self.old.tunnel }
    {
        let context = self.context;
        let declined = match why {
            NotJoined::BySession(fault) => Declined::BySession(fault),
            // no id is given twice, so this never is
            NotJoined::Twice => Declined::BySession(CallFault::NoStream),
            NotJoined::OutOfMemory(_) => Declined::OutOfMemory,
            NotJoined::Unregistered => Declined::Unwatched,
        };
        match declined {
            Declined::BySession(CallFault::OutOfMemory(_)) | Declined::OutOfMemory => {
                self.how.lacked_memory = true;
            }
            Declined::Unwatched => {
                // he counts as one that could not be accepted
                self.how.accept_failed = true;
                if let Service::Users(users, _) = &mut *self.service {
                    users.acceptor.fail_unwatched();
                }
            }
            Declined::BySession(_) => {}
        }
        let is_lost = self.is_lost();
        if let Service::Users(users, _) = &mut *self.service {
            if is_lost && users.is_endless() {
                users.acceptor.stop();
            }
        }
        context.log(Event::Declined(origin, declined));
    }

    // ---- streams that come

    /// Sends Go Away, once, if it drains.
    fn heed_drain(&mut self)
        ensures { Runs self.old.tunnel self.new.tunnel }
    {
        if !self.is_leaving && !self.is_lost() && self.service.is_drained() {
            let _ = self.tunnel.go_away();
            self.is_leaving = true;
        }
    }

    /// Begins a connection to the target for each stream that waits, as far as the limit lets it.
    fn accept_streams(&mut self, poll: &Poll)
        ensures { Runs self.old.tunnel self.new.tunnel }
    {
        'offered: for _ in 0..self.tunnel.offered_count() {
            let Some(target) = self.free_target() else {
                return;
            };
            self.begin_stream(target, poll);
        }
    }

    /// Begins a connection to the target for the stream that came first. If it can't begin, the stream is reset.
    fn begin_stream(&mut self, target: SocketAddrV4, poll: &Poll)
        ensures { Runs self.old.tunnel self.new.tunnel }
    {
        let context = self.context;
        let origin = context.begin(self.tunnel.wire().socket.peer());
        let socket = match begin_connect(context.rt, SocketAddr::V4(target)) {
            Ok(socket) => socket,
            Err(error) => {
                if self.tunnel.reject() {
                    let why = Reason::of_connect(&error);
                    context.log(Event::Unreached(target, why));
                    self.log_ended(origin, Ending::ConnectionFailed, Some(why));
                }
                return;
            }
        };
        socket.prepare(self.session.options.keepalive);
        let joined = self
            .tunnel
            .accept(Socket::begun(socket, origin), &mut Tokens { poll });
        match joined {
            Ok(_) => {}
            Err(NotJoined::OutOfMemory(_)) => {
                self.how.lacked_memory = true;
                self.log_ended(origin, Ending::OutOfMemory, None);
            }
            Err(_) => self.log_ended(origin, Ending::ConnectionFailed, None),
        }
    }

    /// A connection to the target was never there, for this reason.
    fn log_ended(&self, origin: Origin, ending: Ending, why: Option<Reason>) {
        let ended = EndedConnection::of_nothing(ending, why);
        self.context.log(Event::Ended(origin, ended));
    }

    // ---- bytes

    /// Serves each connection that has something to move now, once, unless they give much: that is written first, and
    /// the peer read.
    fn serve_queued(&mut self)
        ensures runs { Runs self.old.tunnel self.new.tunnel }
        ensures turns { ServesOne self.old.tunnel self.new.tunnel }
    {
        'queued: for _ in 0..self.tunnel.queued_count() {
            if !self.serve_next() {
                return;
            }
        }
    }

    /// Serves the connection whose turn it is, and drops it if it is over. Whether another may be served.
    fn serve_next(&mut self) -> bool
        ensures runs { Runs self.old.tunnel self.new.tunnel }
        ensures turns { ServesOne self.old.tunnel self.new.tunnel }
    {
        let Some(served) = self.tunnel.serve_next() else {
            return false;
        };
        self.unwritten = self.unwritten.saturating_add(served.gave as u64);
        if let Some(socket) = self.tunnel.device(served.id) {
            let passed = socket.take_passed();
            self.add_passed(passed);
        }
        if self.tunnel.is_connection_over(served.id) {
            self.forget(served.id);
        }
        self.unwritten < UNWRITTEN
    }

    /// So many bytes more have passed to the peer and from it.
    fn add_passed(&mut self, passed: (u64, u64))
        ensures { self.new.tunnel ≡ self.old.tunnel }
    {
        let (to_peer, from_peer) = self.passed;
        self.passed = (
            to_peer.saturating_add(passed.0),
            from_peer.saturating_add(passed.1),
        );
    }

    /// Aborts each connection, looking once a second, on which no byte has moved for too long.
    fn abort_idle(&mut self)
        ensures { self.new.tunnel ≡ self.old.tunnel }
    {
        let Some(seconds) = self.session.options.idle else {
            return;
        };
        let now = time_of(self.context.rt);
        if !has_passed(self.watched_at, now, Duration::from_secs(GLANCE)) {
            return;
        }
        self.watched_at = now;
        'connection: for index in 0..self.tunnel.len() {
            let id = self.tunnel.id_at(index);
            if let Some(socket) = id.and_then(|id| self.tunnel.device(id)) {
                socket.abort_if_idle(now, Duration::from_secs(seconds as u64));
            }
        }
    }

    /// Drops a connection, and logs how it ended.
    fn forget(&mut self, id: u32)
        // Nothing of it is left to move.
        requires over { (connection : ConnectionValue) → connection_of id self.old.tunnel.connections ≡ Some connection → (is_over connection.directions ≡ true) ⊎ (is_running self.old.tunnel.engine.session.status ≡ false) }
        ensures runs { Runs self.old.tunnel self.new.tunnel }
        ensures status { self.new.tunnel.engine.session.status ≡ self.old.tunnel.engine.session.status }
    {
        let context = self.context;
        let directions = self.tunnel.directions(id);
        let is_lost = self.is_lost();
        if let (Some(socket), Some(directions)) = (self.tunnel.forget(id), directions) {
            self.add_passed(socket.take_passed());
            let ended = socket.ended(directions, is_lost);
            self.how.lacked_memory |= ended.lacked_memory();
            let unreached = socket.unreached();
            if let (Some(why), Service::Target(target, _, _)) = (unreached, &*self.service) {
                context.log(Event::Unreached(*target, why));
            }
            if let Some(origin) = socket.origin {
                context.log(Event::Ended(origin, ended));
            }
        }
    }

    /// Lets go of all connections of a session that is over.
    fn leave_all(&mut self)
        requires { is_running self.old.tunnel.engine.session.status ≡ false }
        ensures { Runs self.old.tunnel self.new.tunnel }
    {
        'left: for _ in 0..self.tunnel.len() {
            let Some(id) = self.tunnel.id_at(0) else {
                return;
            };
            self.forget(id);
        }
    }

    /// Once the session is lost and all that is due is sent, nothing more goes over the wire, though connections may
    /// still come.
    fn end_lost_wire(&mut self)
        ensures { Runs self.old.tunnel self.new.tunnel }
    {
        if self.is_lost() && !self.tunnel.wire().was_ended() && self.tunnel.is_flushed() {
            self.tunnel.end_wire();
        }
    }

    // ---- what is logged

    /// Logs, once each, that the peer has come, where it reconnects, and that the session was lost. A peer that has
    /// broken a rule has sent no frame.
    fn log_peer(&mut self)
        ensures { self.new.tunnel ≡ self.old.tunnel }
    {
        let is_broken = matches!(self.tunnel.status(), Status::Broken(_));
        let pulled = self.tunnel.wire().pulled;
        let has_spoken = !is_broken && is_sign(0, pulled, self.tunnel.unframed());
        self.has_first_frame |= has_spoken;
        let reconnects = self.session.reconnects;
        if reconnects && has_spoken && !self.how.is_arrival_logged {
            self.how.is_arrival_logged = true;
            self.context.log(Event::Notice(Notice::PeerCame(self.peer)));
        }
        if self.is_lost() {
            self.log_end();
        }
    }

    /// Logs, once, that the session was lost or has ended, and which rule was broken. Where it was lost and none follows, users
    /// are left to other links.
    fn log_end(&mut self)
        ensures { self.new.tunnel ≡ self.old.tunnel }
    {
        if self.is_end_logged {
            return;
        }
        self.is_end_logged = true;
        let (context, peer) = (self.context, self.peer);
        if let Status::Broken(fault) = self.tunnel.status() {
            context.log(Event::Reason(Notice::Broke(fault.number(), peer)));
        }
        let reconnects = self.session.reconnects;
        context.log(Event::SessionEnded(self.slots(), reconnects));
        if reconnects || !self.is_lost() {
            return;
        }
        if let Service::Users(users, _) = &mut *self.service {
            users.note_loss();
        }
        context.log(Event::Notice(match self.has_first_frame {
            true => Notice::PeerGone(peer),
            false => Notice::PeerGoneSilent(peer),
        }));
    }

    /// Counts the bytes that have passed, logs where users begin to wait for a slot, or wait no more, and the streams that were
    /// rejected, as memory was out, each once.
    fn log_counts(&mut self)
        ensures { self.new.tunnel ≡ self.old.tunnel }
    {
        let (context, (to_peer, from_peer)) = (self.context, self.passed);
        if to_peer > 0 || from_peer > 0 {
            context.log(Event::Passed(to_peer, from_peer));
            self.passed = (0, 0);
        }
        let is_full = self.keeps_waiting();
        if is_full != self.is_full {
            self.is_full = is_full;
            context.log(Event::Waiting(is_full, self.slots()));
        }
        let rejected = self.tunnel.no_memory();
        if rejected > self.rejected {
            let more = rejected - self.rejected;
            self.rejected = rejected;
            context.log(Event::Rejected(more, self.peer));
        }
    }

    // ---- how it ends

    /// How the session ended.
    fn ended(&self, outcome: Outcome) -> SessionEnd {
        let mut how = self.how;
        if let Service::Users(users, _) = &*self.service {
            let failure = users.acceptor.failure();
            how.accept_failed |= !self.session.reconnects && failure.is_some();
            how.accept_reason = failure.unwrap_or(None);
        }
        if let Status::Broken(fault) = self.tunnel.status() {
            how.broken = Some(fault.number());
        }
        how.lacked_memory |= self.tunnel.no_memory() > 0;
        how.lacks_peer = outcome == Outcome::Unwatched;
        how.is_peer_away = self.tunnel.is_peer_away();
        how
    }

    /// After how long a silence the connection is closed at the end, though the peer hasn't closed it. Where others wait for
    /// that, or no more streams were to be taken, the peer isn't waited for without end.
    fn close_limit(&self) -> Option<Duration> {
        match self.session.options.ping {
            Some(seconds) if !self.session.reconnects => Some(Duration::from_secs(seconds as u64)),
            None if !self.session.reconnects && !self.service.is_drained() => None,
            _ => Some(Duration::from_secs(PATIENCE)),
        }
    }
}

/// A tunnel with a new session over this wire, of which nothing was moved.
#[tactic(auto, using(crate::proofs::Sessions::within))]
fn new_tunnel(
    alloc: Global,
    wire: Socket,
    role: Role,
    window: u32,
) -> Result<Tunnel<Socket, Socket>, NewFault>
    ensures { IfOk result Serving }
{
    let session = Session::new(alloc, role, Config { window, first: 0 })?;
    Ok(Tunnel::new(alloc, session, wire)?)
}
