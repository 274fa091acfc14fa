//! An endpoint as a state machine: at each stage it gives one command, and the outcome leads to the next.

ghost use Rattle.std.specs.Prelude.{◌≡◌, Some};
ghost use Rattle.ymx_policy.specs.Machine.{after, after_awaiting_peer, after_awaiting_user, after_connecting, after_opening_peers, after_opening_users, after_rejecting, after_serving, next_command, begins, after_session, peer_fault, action_at, ends, fails, fault_of, fresh, goes, proceeds, longer, next, end_session, session_end_words, refusal, serving, silence, unreached};

use crate::commands::{
    Action, Command, Dial, Fault, Named, Notice, Outcome, Peers, SessionEnd, Words,
};
use crate::plan::{Mode, Terms};
use crate::reason::Reason;
use std::net::SocketAddrV4;

/// What an endpoint waits for.
#[derive(Clone, Copy)]
pub enum Stage {
    OpeningPeers,
    OpeningUsers,
    Connecting,
    AwaitingPeer,
    AdmittingPeers,
    AwaitingUser,
    Serving,
    /// All users that wait are rejected, as their peer can't be reached.
    RejectingUsers,
    Pausing,
    Over,
}

/// Where an endpoint has come to.
#[derive(Clone, Copy)]
pub struct State {
    pub stage: Stage,
    /// What is to be logged now.
    pub words: Words,
    /// Where it meets its peer: at port 0 the port that the system chose.
    pub peers: SocketAddrV4,
    /// How many seconds are to go by before the next connect, or 0.
    pub pause: u64,
    /// How many connects may fail before users are rejected.
    pub retries_left: u64,
    /// It has logged a fault, or does so now.
    pub has_faulted: bool,
}

// ---- where it goes

/// Where it goes on once what a stage is for is there.
fn next(stage: Stage, mode: Mode, reconnects: bool) -> Stage
    ensures { result ≡ next stage mode reconnects }
{
    match (stage, mode) {
        (Stage::OpeningPeers, Mode::LocalAwaits) => Stage::OpeningUsers,
        (Stage::OpeningUsers, Mode::LocalDials) if reconnects => Stage::AwaitingUser,
        (Stage::OpeningUsers, Mode::LocalDials) => Stage::Serving,
        (Stage::OpeningPeers, Mode::RemoteAdmits) => Stage::AdmittingPeers,
        (Stage::OpeningPeers | Stage::OpeningUsers, _) => Stage::AwaitingPeer,
        (Stage::Connecting, Mode::LocalDials) if !reconnects => Stage::OpeningUsers,
        (Stage::Connecting | Stage::AwaitingPeer, _) => Stage::Serving,
        (Stage::AwaitingUser | Stage::Pausing, _) => Stage::Connecting,
        (Stage::RejectingUsers, _) => Stage::AwaitingUser,
        (Stage::AdmittingPeers | Stage::Serving | Stage::Over, _) => Stage::Over,
    }
}

/// Where it goes on after a session.
fn after_session(mode: Mode, reconnects: bool, is_lost: bool, pause: u64) -> Stage
    ensures { result ≡ after_session mode reconnects is_lost pause }
{
    match mode {
        _ if !reconnects => Stage::Over,
        Mode::LocalDials if is_lost => Stage::RejectingUsers,
        Mode::LocalDials => Stage::AwaitingUser,
        Mode::RemoteDials if pause == 0 => Stage::Connecting,
        Mode::RemoteDials => Stage::Pausing,
        _ => Stage::AwaitingPeer,
    }
}

/// The pause after a pause of so many seconds.
fn longer(seconds: u64) -> u64
    ensures { result ≡ longer seconds }
{
    if seconds == 0 {
        return 1;
    }
    seconds.saturating_mul(2).min(30)
}

// ---- what it logs

/// Nothing.
const SILENCE: Words = Words {
    first: None,
    reason: None,
    fault: None,
    last: None,
};

/// This alone.
fn begins_with(first: Option<Notice>) -> Words
    ensures { result ≡ record silence { first = first } }
{
    Words { first, ..SILENCE }
}

/// That the system refused what an option asks for, where the reason is known.
fn refusal(named: Named, why: Option<Reason>) -> Option<Notice>
    ensures { result ≡ refusal named why }
{
    Some(Notice::Refused(named, why?))
}

/// This fault, after its reason.
fn fails(reason: Option<Notice>, fault: Fault) -> Words
    ensures { result ≡ fails reason (Some fault) }
{
    Words {
        reason,
        fault: Some(fault),
        ..SILENCE
    }
}

/// What is logged after a session, besides this: whether the peer at this address had arrived.
fn session_end_words(
    terms: &Terms,
    is_arrival_logged: bool,
    peer: Option<SocketAddrV4>,
    words: Words,
) -> Words
    ensures { result ≡ session_end_words terms.now.mode terms.now.session.reconnects is_arrival_logged peer words }
{
    match terms.mode {
        _ if !terms.session.reconnects => words,
        Mode::LocalDials if is_arrival_logged => Words {
            first: Some(Notice::PeerGone(peer)),
            ..words
        },
        Mode::LocalDials => Words {
            first: Some(Notice::PeerGoneSilent(peer)),
            ..words
        },
        _ => Words {
            last: Some(Notice::PeerGone(peer)),
            ..words
        },
    }
}

/// What is logged of a session that ended so: of a failed accept, a broken rule and lack of memory the first, and after these
/// a peer that can't be had. A session logs itself which rule was broken.
fn fault_of(users: SocketAddrV4, session_fault: Fault, how: SessionEnd) -> Words
    ensures { result ≡ fault_of users session_fault how }
{
    if how.accept_failed {
        return fails(
            refusal(Named::Listen(users), how.accept_reason),
            Fault::CannotListen(users),
        );
    }
    match how.broken {
        Some(rule) => fails(None, Fault::Broken(rule)),
        None if how.lacked_memory => fails(None, Fault::OutOfMemory),
        None if how.lacks_peer => fails(None, session_fault),
        None => SILENCE,
    }
}

// ---- the machine

impl State {
    /// An endpoint that has done nothing yet.
    pub fn new(terms: &Terms) -> State
        ensures { result ≡ fresh terms.now }
    {
        // A mistake at a port of its own comes first, but a `local` without `--keep` connects first.
        let stage = match terms.mode {
            Mode::LocalDials if terms.session.reconnects => Stage::OpeningUsers,
            Mode::LocalDials | Mode::RemoteDials => Stage::Connecting,
            Mode::RemoteServes => Stage::AwaitingPeer,
            Mode::LocalAwaits | Mode::RemoteAwaits | Mode::RemoteAdmits => Stage::OpeningPeers,
        };
        State {
            stage,
            words: SILENCE,
            peers: terms.peer,
            pause: 0,
            retries_left: 0,
            has_faulted: false,
        }
    }

    /// The command that is due now.
    pub fn next_command(&self, terms: &Terms) -> Command
        ensures { result ≡ next_command terms.now self.now }
    {
        let action = match self.stage {
            Stage::OpeningPeers => Action::ListenForPeer(Peers {
                address: terms.peer,
                from: terms.from,
            }),
            Stage::OpeningUsers => Action::ListenForUsers(terms.users),
            Stage::Connecting => Action::Connect(Dial {
                address: terms.peer,
                limit: terms.limit,
            }),
            Stage::AwaitingPeer => Action::AwaitPeer,
            Stage::AdmittingPeers => Action::AdmitPeers,
            Stage::AwaitingUser => Action::AwaitUser,
            Stage::Serving => Action::Serve(terms.session),
            Stage::RejectingUsers => Action::RejectUsers,
            Stage::Pausing => Action::Pause(self.pause),
            Stage::Over => Action::End(if self.has_faulted { 1 } else { 0 }),
        };
        Command {
            words: self.words,
            action,
        }
    }

    /// Takes the outcome of the last command.
    pub fn on_outcome(&mut self, terms: &Terms, outcome: Outcome)
        ensures { self.new ≡ after terms.now self.old outcome }
    {
        let (why, no_thread) = (outcome.why(), Some(Reason::NoThread));
        let (peers, users) = (self.peers, terms.users.address);
        let no_users = Fault::CannotListen(users);
        let no_peer = Fault::CannotReach(terms.peer);
        match (self.stage, outcome) {
            (Stage::Over, _) => {}
            (Stage::Serving, _) => self.on_session_end(terms, outcome),
            (Stage::Pausing, _) => self.go_on(terms, SILENCE),
            (_, Outcome::AllCame) => self.go(Stage::Over, SILENCE),
            (Stage::OpeningPeers, Outcome::Listening(address)) => {
                self.go_on(terms, begins_with(Some(Notice::Listening(address))));
                self.peers = address;
            }
            (Stage::OpeningUsers, Outcome::Listening(address)) => {
                self.go_on(terms, begins_with(Some(Notice::Listening(address))))
            }
            (Stage::OpeningUsers, Outcome::Done) => self.go_on(terms, SILENCE),
            (Stage::OpeningPeers | Stage::OpeningUsers, Outcome::LackedMemory) => {
                self.end(None, Fault::OutOfMemory)
            }
            (Stage::OpeningPeers, Outcome::NoThread) => {
                self.end(refusal(Named::Peers, no_thread), Fault::CannotListen(peers))
            }
            (Stage::OpeningUsers, Outcome::NoThread) => {
                self.end(refusal(Named::Links, no_thread), no_peer)
            }
            (Stage::Connecting, Outcome::NoThread) => {
                self.on_connect_failed(terms, refusal(Named::Links, no_thread))
            }
            (Stage::Connecting | Stage::AwaitingPeer, Outcome::PeerCame)
            | (Stage::AwaitingUser, Outcome::UserCame) => self.go_on(terms, SILENCE),
            (Stage::AwaitingPeer | Stage::RejectingUsers, Outcome::NoUsers(_))
            | (Stage::OpeningUsers | Stage::AwaitingUser, _) => {
                self.end(refusal(Named::Listen(users), why), no_users)
            }
            (Stage::OpeningPeers | Stage::AwaitingPeer | Stage::AdmittingPeers, _) => {
                self.end(refusal(Named::Bind(peers), why), Fault::CannotListen(peers))
            }
            (Stage::Connecting, _) => {
                self.on_connect_failed(terms, refusal(Named::Peer(terms.peer), why))
            }
            (Stage::RejectingUsers, _) => self.go_on(terms, SILENCE),
        }
    }

    /// Where a session can't be had: the option that is named, and the fault.
    fn session_fault(&self, terms: &Terms) -> (Named, Fault)
        ensures { result ≡ (serving terms.now.mode terms.now.users.address terms.now.peer self.now.peers, peer_fault terms.now.mode terms.now.peer self.now.peers) }
    {
        let users = Named::Listen(terms.users.address);
        match terms.mode {
            Mode::LocalDials => (users, Fault::CannotReach(terms.peer)),
            Mode::LocalAwaits => (users, Fault::CannotListen(self.peers)),
            Mode::RemoteDials => (Named::Peer(terms.peer), Fault::CannotReach(terms.peer)),
            _ => (Named::Bind(self.peers), Fault::CannotListen(self.peers)),
        }
    }

    /// Goes on here, and logs this.
    fn go(&mut self, stage: Stage, words: Words)
        ensures { self.new ≡ goes self.old stage words }
    {
        self.stage = stage;
        self.words = words;
    }

    /// Goes on, as its command is done, and logs this.
    fn go_on(&mut self, terms: &Terms, words: Words)
        ensures { self.new ≡ proceeds terms.now self.old words }
    {
        self.go(
            next(self.stage, terms.mode, terms.session.reconnects),
            words,
        );
    }

    /// Logs this fault after its reason, and ends.
    fn end(&mut self, reason: Option<Notice>, fault: Fault)
        ensures { self.new ≡ ends self.old reason fault }
    {
        self.go(Stage::Over, fails(reason, fault));
        self.has_faulted = true;
    }

    /// The connect failed.
    fn on_connect_failed(&mut self, terms: &Terms, reason: Option<Notice>)
        ensures { self.new ≡ unreached terms.now.mode terms.now.session.reconnects terms.now.peer reason self.old }
    {
        if !terms.session.reconnects {
            self.end(reason, Fault::CannotReach(terms.peer));
            return;
        }
        let refused = begins_with(reason);
        let unreached = Words {
            last: Some(Notice::Unreached(terms.peer)),
            ..refused
        };
        match terms.mode {
            Mode::RemoteDials => {
                self.go(Stage::Pausing, unreached);
                self.pause = longer(self.pause);
            }
            _ if self.retries_left == 0 => self.go(Stage::RejectingUsers, refused),
            _ => {
                self.go(Stage::Pausing, unreached);
                self.pause = 1;
                self.retries_left -= 1;
            }
        }
    }

    /// The session has ended, or could not begin.
    fn on_session_end(&mut self, terms: &Terms, outcome: Outcome)
        ensures { self.new ≡ after_serving terms.now self.old outcome }
    {
        let users = terms.users.address;
        let (named, session_fault) = self.session_fault(terms);
        let clean = SessionEnd::clean();
        match outcome {
            Outcome::SessionEnded(how) => self.end_session(
                terms,
                how,
                fault_of(users, session_fault, how),
            ),
            Outcome::LackedMemory => self.end_session(
                terms,
                clean,
                fails(None, Fault::OutOfMemory),
            ),
            _ => self.end_session(
                terms,
                clean,
                fails(refusal(named, outcome.why()), session_fault),
            ),
        }
    }

    /// Goes on after a session that ended so, and logs this of it.
    fn end_session(&mut self, terms: &Terms, how: SessionEnd, words: Words)
        ensures { self.new ≡ end_session terms.now self.old how words }
    {
        let is_lost = !(how.is_arrival_logged || how.is_peer_away);
        self.pause = if how.has_lasted {
            0
        } else {
            longer(self.pause)
        };
        self.retries_left = if how.is_peer_away { 10 } else { 0 };
        self.stage = after_session(terms.mode, terms.session.reconnects, is_lost, self.pause);
        self.words = session_end_words(terms, how.is_arrival_logged, how.peer, words);
        self.has_faulted = self.has_faulted || words.fault.is_some();
    }
}
