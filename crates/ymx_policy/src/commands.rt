//! What an endpoint is commanded to do, and what comes of it.

ghost use Rattle.std.specs.Prelude.{◌≡◌};
ghost use Rattle.ymx_policy.specs.Machine.{clean, why_of};

use crate::options::{Networks, SessionOptions};
use crate::reason::Reason;
use std::net::SocketAddrV4;

/// Where users come from.
#[derive(Clone, Copy)]
pub struct Users {
    /// Where they connect to.
    pub address: SocketAddrV4,
    /// How many are to come, or as many as do.
    pub count: Option<u32>,
    /// It keeps listening when descriptors or memory run out.
    pub keeps_listening: bool,
}

/// How the system sees whether the other side of a connection in which nothing comes is still there.
#[derive(Clone, Copy)]
pub struct Keepalive {
    /// After how many seconds of silence it sends the first probe.
    pub idle: u32,
    /// How many seconds lie between two probes.
    pub interval: u32,
    /// After how many unanswered probes the connection fails.
    pub probes: u32,
}

/// What a session is to be like.
#[derive(Clone, Copy)]
pub struct Session {
    pub options: SessionOptions,
    /// The session pings first; users wait for the peer's first frame.
    pub needs_first_frame: bool,
    /// Another session follows: leftovers are cut off after a timeout, and the peer's arrival is logged at its
    /// first frame.
    pub reconnects: bool,
}

/// Where peers come from.
#[derive(Clone, Copy)]
pub struct Peers {
    /// Where they connect to.
    pub address: SocketAddrV4,
    /// From where they may. A connection from elsewhere is closed unread.
    pub from: Networks,
}

/// Where it connects to.
#[derive(Clone, Copy)]
pub struct Dial {
    /// Where the peer listens.
    pub address: SocketAddrV4,
    /// Connect timeout in seconds; None is the system's own.
    pub limit: Option<u32>,
}

/// An option of the command line, and its address, as they are named where the system refuses it.
#[derive(Clone, Copy)]
pub enum Named {
    Listen(SocketAddrV4),
    Peer(SocketAddrV4),
    Bind(SocketAddrV4),
    Target(SocketAddrV4),
    Peers,
    Links,
    Status(SocketAddrV4),
}

impl Named {
    /// Its address, if it has one.
    pub fn address(self) -> Option<SocketAddrV4> {
        match self {
            Named::Listen(at) | Named::Peer(at) | Named::Bind(at) => Some(at),
            Named::Target(at) | Named::Status(at) => Some(at),
            Named::Peers | Named::Links => None,
        }
    }
}

/// What is logged on a line of its own: with `-v`, and always where it is the reason of a fault.
#[derive(Clone, Copy)]
pub enum Notice {
    /// It listens here.
    Listening(SocketAddrV4),
    /// The first frame of the peer at this address, if it is known, has come, in a session that another follows.
    PeerCame(Option<SocketAddrV4>),
    /// The peer at this address, if it is known, has gone.
    PeerGone(Option<SocketAddrV4>),
    /// The peer at this address, if it is known, has gone before its first frame.
    PeerGoneSilent(Option<SocketAddrV4>),
    /// The peer at this address can't be reached, and is tried again.
    Unreached(SocketAddrV4),
    /// A connection from this address, if it is known, was closed, as peers may not come from there.
    Denied(Option<SocketAddrV4>),
    /// The peer at this address, if it is known, was closed, as there are as many as --peers allows.
    OverLimit(Option<SocketAddrV4>),
    /// The system refused, for this reason, what this option asks for.
    Refused(Named, Reason),
    /// Streams of the peer at this address, if it is known, were rejected, as there was no memory for them.
    Rejected(Option<SocketAddrV4>),
    /// In a session with the peer at this address, if it is known, this rule of yamux was broken: 1 for B1.
    Broke(u8, Option<SocketAddrV4>),
}

/// What went wrong, which is always logged.
#[derive(Clone, Copy)]
pub enum Fault {
    /// No connection can be accepted at this address.
    CannotListen(SocketAddrV4),
    /// The peer at this address can't be reached.
    CannotReach(SocketAddrV4),
    /// A side broke this rule of yamux: 1 for B1.
    Broken(u8),
    OutOfMemory,
}

/// What is logged before an action, in this order.
#[derive(Clone, Copy)]
pub struct Words {
    /// First, with `-v`.
    pub first: Option<Notice>,
    /// Then, always: the reason of the fault that follows.
    pub reason: Option<Notice>,
    /// Then the fault.
    pub fault: Option<Fault>,
    /// Last, with `-v`.
    pub last: Option<Notice>,
}

/// How a session ended. If nothing here is so, it was over by the peer's end or its own.
#[derive(Clone, Copy, Default)]
pub struct SessionEnd {
    /// A user could not be accepted, and none will be.
    pub accept_failed: bool,
    /// Why not, if the system says so.
    pub accept_reason: Option<Reason>,
    /// A side broke this rule: 1 for B1.
    pub broken: Option<u8>,
    /// Where the peer was, if that is known.
    pub peer: Option<SocketAddrV4>,
    /// Somewhere there was no memory.
    pub lacked_memory: bool,
    /// Its peer can't be had: the system refused to watch it, or no link is left for users who were to come.
    pub lacks_peer: bool,
    /// It went on for a second at least.
    pub has_lasted: bool,
    /// Its peer had sent Go Away.
    pub is_peer_away: bool,
    /// Its peer's arrival was logged.
    pub is_arrival_logged: bool,
}

impl SessionEnd {
    /// That of one in which nothing went wrong.
    pub fn clean() -> SessionEnd
        ensures { result ≡ clean }
    {
        SessionEnd::default()
    }
}

/// What is to be done.
#[derive(Clone, Copy)]
pub enum Action {
    ListenForPeer(Peers),
    ListenForUsers(Users),
    Connect(Dial),
    /// Wait until the peer connects. One that isn't admitted is closed, and so are users that come meanwhile and can't wait.
    AwaitPeer,
    /// Hand each peer that connects to a link, until no more are to be admitted. One too many is closed.
    AdmitPeers,
    /// Wait until a user is there, who isn't accepted yet.
    AwaitUser,
    /// Run a session with the peer that is there.
    Serve(Session),
    /// Close all users that have come and wait now.
    RejectUsers,
    /// Let so many seconds go by.
    Pause(u64),
    /// End with this exit status.
    End(u8),
}

/// What an endpoint is to do: log these words, and then perform this action.
#[derive(Clone, Copy)]
pub struct Command {
    pub words: Words,
    pub action: Action,
}

/// What happened.
#[derive(Clone, Copy)]
pub enum Outcome {
    /// It listens, at this address.
    Listening(SocketAddrV4),
    /// It can't be done: the system refuses it, for this reason if one is known.
    Failed(Option<Reason>),
    LackedMemory,
    /// No thread could be made for a link.
    NoThread,
    PeerCame,
    UserCame,
    /// All have come that were to: users or, at a `remote`, peers.
    AllCame,
    /// No user can be accepted any more, for this reason if one is known.
    NoUsers(Option<Reason>),
    SessionEnded(SessionEnd),
    Done,
}

impl Outcome {
    /// Why it can't be done, if that is known.
    pub(crate) fn why(self) -> Option<Reason>
        ensures { result ≡ why_of self }
    {
        match self {
            Outcome::Failed(why) | Outcome::NoUsers(why) => why,
            _ => None,
        }
    }
}
