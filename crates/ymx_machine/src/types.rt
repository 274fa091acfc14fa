//! The plain types of calls and of the steps of two sides, and what they answer.

use crate::bytes::Bytes;
use std::fmt;
use thiserror::Error;
use ymx_header::Fault;
use ymx_memory::{RefusalCount, RefusedAllocation};

/// Why a call was refused. It prints its name alone.
#[derive(Clone, Copy, PartialEq, Eq, Error)]
pub enum CallFault {
    /// 1: there is no such stream, or it was given up.
    #[error("NoStream")]
    NoStream,
    /// 2: the stream was finished here, so nothing more is written to it.
    #[error("Finished")]
    Finished,
    /// 3: the stream was reset, here or by the peer.
    #[error("Reset")]
    Reset,
    /// 4: the peer's bytes have ended, or the session broke.
    #[error("Lost")]
    Lost,
    /// 5: the session was closed here.
    #[error("Closed")]
    Closed,
    /// 6: the peer takes no more streams (go away).
    #[error("PeerAway")]
    PeerAway,
    /// 7: 256 own streams are not yet acknowledged, reset or forgotten.
    #[error("OpensPending")]
    OpensPending,
    /// 8: 1,024 streams are there.
    #[error("TooMany")]
    TooMany,
    /// 9: the stream ids are used up (stream identifiers).
    #[error("Exhausted")]
    Exhausted,
    /// 10: 16 own pings have not been collected (ping).
    #[error("PingsPending")]
    PingsPending,
    /// 11: there was no memory for the call. It holds the evidence: an allocation was refused.
    #[error("OutOfMemory")]
    OutOfMemory(RefusedAllocation),
}

/// Its name too.
impl fmt::Debug for CallFault {
    fn fmt<W: fmt::Write>(&self, f: &mut fmt::Formatter<W>) -> fmt::Result {
        fmt::Display::fmt(self, f)
    }
}

/// What a write answers.
#[derive(Clone, Copy, Debug, PartialEq, Eq)]
pub enum Wrote {
    /// The first so many bytes were taken.
    Took(usize),
    /// There is no credit: the peer's window is full.
    Wait,
}

/// Why a feed stopped.
#[derive(Clone, Copy, Debug, PartialEq, Eq)]
pub enum Why {
    /// All bytes were taken.
    All,
    /// 1,024 answers are unsent, so no further frame is taken until some are emitted.
    Held,
    /// The session broke, now or before.
    Broken(Fault),
}

/// What a feed answers.
#[derive(Clone, Copy, Debug, PartialEq, Eq)]
pub struct Fed {
    /// How many of the bytes were taken.
    pub taken: usize,
    /// How many streams were refused because there was no memory for them; at most 4,294,967,295. Only a refused
    /// allocation makes it grow.
    pub no_memory: RefusalCount,
    /// Why it stopped.
    pub why: Why,
}

/// A call on a session. Its bytes are owned or lent.
#[derive(Drop)]
pub enum Call<B> {
    /// Open the next own stream.
    Open,
    /// Open the next own stream, with these first bytes.
    OpenWith(B),
    /// Take the offered stream that came first.
    Accept,
    /// Write these bytes to a stream.
    Write(u32, B),
    /// Read at most so many bytes from a stream.
    Read(u32, usize),
    /// Half-close a stream.
    Finish(u32),
    /// Reset a stream.
    Reset(u32),
    /// Give a stream up.
    Forget(u32),
    /// A ping: asks the peer for an answer.
    Ping,
    /// Whether the answer to this ping is back.
    Ponged(u32),
    /// Take no more streams of the peer's.
    GoAway,
    /// Close the session.
    Close,
}

/// What an event of a session answers. Its bytes are owned or lent.
#[derive(Drop)]
pub enum Reply<B> {
    /// A stream was opened.
    Opened(u32),
    /// A stream was opened, and the first so many bytes were taken.
    OpenedWith(u32, usize),
    /// A stream was accepted, or none is offered yet.
    Accepted(Option<u32>),
    /// A write.
    Wrote(Wrote),
    /// A read gave these bytes.
    Read(B),
    /// A read found the end.
    ReadEnd,
    /// A read found nothing yet.
    ReadWait,
    /// The call was done.
    Done,
    /// A ping of this number was asked.
    Pinged(u32),
    /// Whether the ping's answer was back.
    Ponged(bool),
    /// The call was refused, and changed nothing.
    Refused(CallFault),
    /// A feed.
    Fed(Fed),
    /// An emission gave these bytes.
    Emitted(B),
}

/// A side of the world: A is the client, B the server.
#[derive(Clone, Copy, Debug, PartialEq, Eq)]
pub enum Side {
    /// The client.
    A,
    /// The server.
    B,
}

/// A direction of the world's pipes.
#[derive(Clone, Copy, Debug, PartialEq, Eq)]
pub enum Direction {
    /// What A emits.
    AB,
    /// What B emits.
    BA,
}

/// A step of two sessions joined by pipes.
#[derive(Drop)]
pub enum Step {
    /// A call at a side.
    At(Side, Call<Bytes>),
    /// One emission of a side, into so many bytes, goes onto its pipe.
    Emit(Side, usize),
    /// The first so many bytes of a pipe (all if there are fewer) are fed at its other end.
    Deliver(Direction, usize),
    /// A pipe loses what it carries, now and from now on.
    Stop(Direction),
    /// The receiver of a stopped pipe learns that it has ended.
    End(Direction),
}

/// What a world step answers.
#[derive(Drop)]
pub enum Answer {
    /// A stream was opened.
    Opened(u32),
    /// A stream was opened, and the first so many bytes were taken.
    OpenedWith(u32, usize),
    /// A stream was accepted, or none is offered yet.
    Accepted(Option<u32>),
    /// A write.
    Wrote(Wrote),
    /// A read gave these bytes.
    Read(Bytes),
    /// A read found the end.
    ReadEnd,
    /// A read found nothing yet.
    ReadWait,
    /// The call, the stop or the end was done.
    Done,
    /// A ping of this number was asked.
    Pinged(u32),
    /// Whether the ping's answer was back.
    Ponged(bool),
    /// The call was refused, and changed nothing.
    Refused(CallFault),
    /// So many bytes were emitted.
    Emitted(usize),
    /// A delivery.
    Fed(Fed),
    /// The pipe was not stopped, so its end is not told.
    NotStopped,
}
