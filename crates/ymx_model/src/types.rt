//! The plain types of one session: its role, its events, and what its history keeps.

ghost use Rattle.std.specs.Prelude.{◌≡◌};
ghost use Rattle.ymx_model.specs.session.Sessions.{is_own};

use ymx_header::Fault;
use ymx_machine::{Bytes, Call, Reply};

/// Which side of the connection a session is. The client opens odd stream ids, the server even ones
/// (stream identifiers).
#[derive(Clone, Copy, Debug, PartialEq, Eq)]
pub enum Role {
    /// The side that connected: ids 1, 3, 5, ..
    Client,
    /// The side that was connected to: ids 2, 4, 6, ..
    Server,
}

impl Role {
    /// Whether the streams of this id are opened by this side: odd ids by the client, even ones by the
    /// server (stream identifiers).
    pub fn is_own(self, id: u32) -> bool
        ensures { result ≡ is_own self id }
    {
        match self {
            Role::Client => id % 2 == 1,
            Role::Server => id % 2 == 0,
        }
    }
}

/// What a session is made with.
#[derive(Clone, Copy, Debug, PartialEq, Eq)]
pub struct Config {
    /// Bytes that the peer may have unread on one stream of this session: 262,144 to 16,777,216
    /// (flow control). It is also the longest payload of a Data frame that is accepted.
    pub window: u32,
    /// The first own stream id, or 0 for 1 at a client and 2 at a server.
    pub first: u32,
}

/// What a read answers.
#[derive(Clone, Copy, Debug, PartialEq, Eq)]
pub enum Got {
    /// So many bytes stand at the front of the buffer.
    Bytes(usize),
    /// The peer has finished, and all its bytes were read.
    End,
    /// Nothing is there yet.
    Wait,
}

/// The state of a session as a whole.
#[derive(Clone, Copy, Debug, PartialEq, Eq)]
pub enum Status {
    /// The peer's bytes may still come.
    Running,
    /// The peer's bytes have ended.
    Lost,
    /// A fault was found, or the peer said one. For every rule of a call such a session is lost too.
    Broken(Fault),
    /// The session was closed here, whatever it was before.
    Closed,
}

/// One event of a session. Its bytes are owned or lent.
#[derive(Drop)]
pub enum Event<B> {
    /// A call.
    Call(Call<B>),
    /// A feed of these bytes.
    Feed(B),
    /// The peer's bytes have ended.
    FeedEnd,
    /// An emission into a buffer of so many bytes.
    Emit(usize),
}

/// One event of a running session, as its history keeps it.
#[derive(Drop)]
pub struct Entry {
    /// Its place in the history: 0, 1, 2, ..
    pub position: u64,
    /// The caller that made it.
    pub seat: u32,
    /// What was asked.
    pub event: Event<Bytes>,
    /// What was answered.
    pub reply: Reply<Bytes>,
}

/// How far an own ping has come (ping).
#[derive(Clone, Copy, PartialEq, Eq)]
pub enum PingStage {
    /// Its frame is due.
    Asked,
    /// Its frame has begun.
    Sent,
    /// Its answer is back.
    Back,
}

/// How far the own Go Away has come (go away).
#[derive(Clone, Copy, PartialEq, Eq)]
pub enum GoAwayMark {
    /// Not said.
    Unsaid,
    /// Its frame is due.
    Due,
    /// Its frame has begun.
    Sent,
}

/// What a session owes the peer an answer of.
#[derive(Clone, Copy, Debug, PartialEq, Eq)]
pub enum Response {
    /// The answer to a ping of this value (ping).
    Pong(u32),
    /// The rejection of the stream of this id (flags).
    Reject(u32),
}

/// A frame of a stream, in the order in which those that are due go out (flags).
#[derive(Clone, Copy, PartialEq, Eq)]
pub enum FrameKind {
    /// A Window Update with SYN, which opens the stream and announces its window.
    Open,
    /// Data with SYN, which opens the stream with a beginning of the unsent bytes.
    OpenWith,
    /// A Window Update with ACK, which accepts the stream and announces its window.
    Accept,
    /// A Window Update with RST: the stream is over in both directions.
    Reset,
    /// A Window Update of all bytes that are owed.
    Credit,
    /// Data: a beginning of the unsent bytes.
    Data,
    /// A Window Update with FIN, after the last byte (half-close).
    Fin,
}
