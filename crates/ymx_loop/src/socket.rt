//! A socket that never waits, as a device of an engine.

ghost use Rattle.std.specs.Prelude.{ℕ, List, ◌≡◌, ◌+◌, ◌-◌, ◌^◌, ◌<◌, ◌≤◌, ◌||◌, ◌&&◌, ◌++◌, nat_le, length, take, is_some, min, true, false, IfSome, IfNone, IsOk, MatchResult, None};
ghost use Rattle.std.specs.Io.{WritesAtMost};
ghost use Rattle.std.specs.Io.Slices.{io_slices_bytes};
ghost use Rattle.ymx_engine.specs.Devices.{IsEnded, IsNoted, IsPulled, IsPushed, IsShut, gives, is_end, is_pull_failure, is_push_failure, may_have_more, pulled_count, pushed_count, takes};
ghost use Rattle.ymx_engine.specs.declared.device.Pulled.TheVariants as Pulled;

use std::cell::Cell;
use std::io;
use std::io::{ErrorKind, IoSlice};
use std::time::Duration;
use ymx_engine::{Device, Directions, Flow, Pulled, Pushed, Readiness};
use ymx_page::{EndedConnection, Ending, Origin, Passed};
use ymx_policy::Reason;
use ymx_sockets::{
    Host, NoEvents, Poll, ProxyHeader, Source, Stream, TcpConnection, has_passed, time_of,
};

/// How many bytes that still come are read at once.
const DROPPED: usize = 8_192;

/// Whether a socket has its peer.
#[derive(Clone, Copy, PartialEq, Eq)]
enum ConnectState {
    /// Its connection is being made.
    Connecting,
    /// It is there.
    Connected,
    /// It could not be made.
    Unreachable,
    /// No byte had moved for too long.
    Idle,
}

/// What was the matter with a socket.
#[derive(Clone, Copy)]
enum SocketFault {
    /// It gave no bytes, and no end.
    Pull,
    /// It took no bytes.
    Push,
}

/// What events and calls have shown of a socket.
#[derive(Clone, Copy)]
struct Marks {
    /// It may have bytes now, or its end.
    may_pull: bool,
    /// It may take bytes now.
    may_push: bool,
    /// Its end is near: a short read does not say that nothing is left.
    is_closing: bool,
}

impl Marks {
    /// An event reports this.
    fn note(&mut self, ready: Readiness)
        ensures { self.new ≡ record { may_pull = self.old.may_pull || ready.can_pull; may_push = self.old.may_push || ready.can_push; is_closing = self.old.is_closing || ready.is_closing } }
    {
        self.may_pull |= ready.can_pull;
        self.may_push |= ready.can_push;
        self.is_closing |= ready.is_closing;
    }

    /// A call for so many bytes answered this. One that gave fewer shows that none are left, unless the end is near.
    fn note_pulled(&mut self, pulled: Pulled, room: usize)
        ensures { self.new ≡ record self.old { may_pull = self.old.may_pull && may_have_more pulled room self.old.is_closing } }
    {
        self.may_pull &= match pulled {
            Pulled::Gave(given) => given >= room || self.is_closing,
            Pulled::NotNow | Pulled::Ended | Pulled::Failed => false,
        };
    }

    /// A call with bytes answered this, and took all of them or not.
    fn note_pushed(&mut self, pushed: Pushed, took_all: bool)
        ensures { self.new ≡ record self.old { may_push = self.old.may_push && (takes pushed && took_all) } }
    {
        self.may_push &= match pushed {
            Pushed::Took(_) => took_all,
            Pushed::NotNow | Pushed::Failed => false,
        };
    }
}

/// A socket, and what it has moved. A contract sees the bytes that its stream records, and whether it said that no more
/// come, whether its end was passed on, whether it has failed, whether it was shut, and its marks.
#[derive(Drop)]
pub(crate) struct Socket<S: Stream = TcpConnection> {
    /// Which connection it is. None of one that carries a session, and not a stream.
    pub(crate) origin: Option<Origin>,
    pub(crate) socket: S,
    state: Cell<ConnectState>,
    /// What was first the matter with a call of it.
    failure: Option<SocketFault>,
    /// Why, where the system gives a reason.
    reason: Option<Reason>,
    /// How many bytes it gave. It stays at the greatest `u64`.
    pub(crate) pulled: u64,
    /// How many it took. It stays at the greatest `u64`.
    pub(crate) pushed: u64,
    /// It has said that no more bytes come from it.
    has_ended: bool,
    /// Its writing side was shut, as the stream's end was read.
    was_finished: bool,
    /// It was shut both ways.
    was_shut: bool,
    marks: Marks,
    proxy_header: ProxyHeader,
    /// How many bytes it had given and taken when that was last counted.
    passed: Cell<(u64, u64)>,
    /// How many had moved as it was last looked at, and since when no more have.
    still: Cell<(u64, Option<Duration>)>,
}

impl<S: Stream + Drop> Socket<S> {
    /// The connection of a user, which is there. It may be used at once, and gives these bytes before its own.
    pub(crate) fn connected(socket: S, origin: Origin, proxy_header: ProxyHeader) -> Socket<S> {
        Socket::new(socket, Some(origin), ConnectState::Connected, proxy_header)
    }

    /// The connection of a session, which is there, and which this poll reports.
    pub(crate) fn wire(socket: S, poll: &Poll) -> Result<Socket<S>, NoEvents> {
        let mut wire = Socket::new(socket, None, ConnectState::Connected, ProxyHeader::new());
        wire.socket.register(poll, Source::Link)?;
        Ok(wire)
    }

    /// A connection that was begun. It may be there at once, as on the same machine: then it may take bytes. So may one
    /// that can't be made, so that it fails.
    pub(crate) fn begun(socket: S, origin: Origin) -> Socket<S> {
        let mut begun = Socket::new(
            socket,
            Some(origin),
            ConnectState::Connecting,
            ProxyHeader::new(),
        );
        begun.look();
        begun.marks.may_pull = false;
        begun.marks.may_push = begun.state.get() != ConnectState::Connecting;
        begun
    }

    /// One of which nothing was moved.
    fn new(
        socket: S,
        origin: Option<Origin>,
        state: ConnectState,
        proxy_header: ProxyHeader,
    ) -> Socket<S> {
        Socket {
            origin,
            socket,
            state: Cell::new(state),
            failure: None,
            reason: None,
            pulled: 0,
            pushed: 0,
            has_ended: false,
            was_finished: false,
            was_shut: false,
            marks: Marks {
                may_pull: true,
                may_push: true,
                is_closing: false,
            },
            proxy_header,
            passed: Cell::new((0, 0)),
            still: Cell::new((0, None)),
        }
    }

    /// From now on this poll reports it as this source. False where the system refuses.
    pub(crate) fn register(&mut self, poll: &Poll, source: Source) -> bool
        ensures { ⟦<Socket<S> as Device>⟧.seen self.new ≡ ⟦<Socket<S> as Device>⟧.seen self.old }
    {
        self.socket.register(poll, source).is_ok()
    }

    /// Whether no more bytes come from it, as it said so or failed.
    pub(crate) fn is_over(&self) -> bool {
        self.has_ended || self.failure.is_some()
    }

    /// Whether nothing more goes to it.
    pub(crate) fn was_ended(&self) -> bool {
        self.was_finished || self.was_shut
    }

    /// Why it could not be made. None where that isn't so.
    pub(crate) fn unreached(&self) -> Option<Reason> {
        let is_unreachable = self.state.get() == ConnectState::Unreachable;
        is_unreachable.then_some(self.reason.unwrap_or(Reason::Other(0)))
    }

    /// How many bytes it has given and taken since this was last asked.
    pub(crate) fn take_passed(&self) -> (u64, u64) {
        let (pulled, pushed) = self.passed.replace((self.pulled, self.pushed));
        (
            self.pulled.saturating_sub(pulled),
            self.pushed.saturating_sub(pushed),
        )
    }

    /// Aborts it where no byte has moved for so long by this time: each call of it fails then, and an event reports that.
    pub(crate) fn abort_if_idle(&self, now: Option<Duration>, limit: Duration) {
        let moved = self.pulled.saturating_add(self.pushed);
        let (before, since) = self.still.get();
        if before != moved || since.is_none() {
            self.still.set((moved, now));
        } else if has_passed(since, now, limit) && self.state.get() != ConnectState::Idle {
            self.state.set(ConnectState::Idle);
            self.socket.abort();
        }
    }

    /// How its connection ended, whose directions stand so, in a session that was lost or wasn't.
    pub(crate) fn ended(&self, directions: Directions, is_lost: bool) -> EndedConnection {
        let of_stream = if is_lost { Ending::Lost } else { Ending::Reset };
        let (to_peer, from_peer) = match self.failure {
            _ if directions.lacked_memory => (Ending::OutOfMemory, of_stream),
            _ if self.state.get() == ConnectState::Idle => (Ending::Idle, Ending::Idle),
            Some(SocketFault::Pull) => (Ending::ConnectionFailed, of_stream),
            Some(SocketFault::Push) => (Ending::ConnectionFailed, Ending::ConnectionFailed),
            None => (of_stream, of_stream),
        };
        EndedConnection {
            to_peer: Passed {
                bytes: self.pulled,
                ending: ending_of(directions.to_peer, to_peer),
            },
            from_peer: Passed {
                bytes: self.pushed,
                ending: ending_of(directions.from_peer, from_peer),
            },
            reason: self.reason,
        }
    }

    /// Looks whether a connection that was begun is there, or can't be made.
    fn look(&mut self)
        ensures { self.new ≡ record self.old { state = self.new.state; reason = self.new.reason } }
    {
        if self.socket.peer().is_some() {
            self.state = Cell::new(ConnectState::Connected);
            return;
        }
        match self.socket.take_fault() {
            Ok(None) => {}
            Ok(Some(error)) | Err(error) => {
                self.reason = Some(Reason::of(&error));
                self.state = Cell::new(ConnectState::Unreachable);
            }
        }
    }

    /// A call of it failed, with this error if the system gave one.
    fn fail(&mut self, fault: SocketFault, error: Option<&io::Error>)
        ensures failed { is_some self.new.failure ≡ true }
        ensures rest { self.new ≡ record self.old { failure = self.new.failure; reason = self.new.reason } }
    {
        if self.failure.is_none() {
            self.failure = Some(fault);
            if let Some(error) = error {
                self.reason = Some(Reason::of(error));
            }
        }
    }

    /// Whether a call of it fails while its connection isn't there. None where it is.
    fn early(&mut self) -> Option<bool>
        ensures failed { IfSome result (λ fails. is_some self.new.failure ≡ (is_some self.old.failure || fails)) }
        ensures there { IfNone result (self.new ≡ self.old) }
        ensures rest { self.new ≡ record self.old { failure = self.new.failure; reason = self.new.reason } }
    {
        match self.state.get() {
            ConnectState::Connecting => Some(false),
            ConnectState::Unreachable | ConnectState::Idle => {
                self.fail(SocketFault::Push, None);
                Some(true)
            }
            ConnectState::Connected => None,
        }
    }

    /// Moves the first bytes that stand before its own into the front of this buffer. How many.
    fn give_proxy_header(&mut self, buffer: &mut [u8]) -> usize
        ensures within { result ≤ length buffer.new }
        ensures some { 0 < length buffer.old → 0 < length self.old.proxy_header.items → 0 < result }
        ensures given { self.old.proxy_header.items ≡ take result buffer.new ++ self.new.proxy_header.items }
        ensures rest { self.new ≡ record self.old { proxy_header = self.new.proxy_header } }
    {
        let count = self.proxy_header.len().min(buffer.len());
        let (given, left) = self.proxy_header.as_slice().split_at(count);
        buffer[..count].copy_from_slice(given);
        let mut proxy_header = ProxyHeader::new();
        let _ = proxy_header.try_extend_from_slice(left);
        self.proxy_header = proxy_header;
        count
    }

    /// What came of a read into a buffer that has room. Where a write reported a failure, a read finds an end.
    fn on_read(&mut self, read: io::Result<usize>) -> Pulled
        ensures count { MatchResult read (λ count. pulled_count result ≡ count) (λ _. pulled_count result ≡ 0) }
        ensures some { gives result ≡ true → 0 < pulled_count result }
        ensures ok { result ≡ Pulled.Ended → IsOk read × (pulled_count result ≡ 0) }
        ensures ended { self.new.has_ended ≡ (self.old.has_ended || is_end result) }
        ensures failed { is_some self.new.failure ≡ (is_some self.old.failure || is_pull_failure result) }
        ensures rest { self.new ≡ record self.old { failure = self.new.failure; reason = self.new.reason; has_ended = self.new.has_ended; pulled = self.new.pulled } }
    {
        match read {
            Ok(count) if count > 0 => {
                self.pulled = self.pulled.saturating_add(count as u64);
                Pulled::Gave(count)
            }
            Ok(_) if self.was_ended() || self.failure.is_none() => {
                self.has_ended = true;
                Pulled::Ended
            }
            Err(e) if e.kind() == ErrorKind::WouldBlock => Pulled::NotNow,
            failed => {
                self.fail(SocketFault::Pull, failed.as_ref().err());
                Pulled::Failed
            }
        }
    }

    /// What came of a write. `is_empty` says whether there was nothing to write.
    fn on_written(&mut self, written: io::Result<usize>, is_empty: bool) -> Pushed
        ensures within { (bytes : List ℕ) → WritesAtMost written bytes → pushed_count result ≤ length bytes }
        ensures some { takes result ≡ true → is_empty ≡ false → 0 < pushed_count result }
        ensures count { MatchResult written (λ count. pushed_count result ≡ count) (λ _. pushed_count result ≡ 0) }
        ensures failed { is_some self.new.failure ≡ (is_some self.old.failure || is_push_failure result) }
        ensures rest { self.new ≡ record self.old { failure = self.new.failure; reason = self.new.reason; pushed = self.new.pushed } }
    {
        match written {
            Ok(count) if count > 0 || is_empty => {
                self.pushed = self.pushed.saturating_add(count as u64);
                Pushed::Took(count)
            }
            Err(e) if e.kind() == ErrorKind::WouldBlock => Pushed::NotNow,
            failed => {
                self.fail(SocketFault::Push, failed.as_ref().err());
                Pushed::Failed
            }
        }
    }
}

/// Why a flow ended that stands so, if it broke off for this reason.
fn ending_of(flow: Flow, broken: Ending) -> Ending {
    match flow {
        Flow::Ended => Ending::Ended,
        Flow::Open | Flow::Broken => broken,
    }
}

/// Whether these pieces have no more than so many bytes together.
fn fit(pieces: &[IoSlice<'_>], count: usize) -> bool
    ensures { result ≡ nat_le (length (io_slices_bytes pieces.now)) count }
{
    let mut left = count;
    'piece: for at in 0..pieces.len() {
        let bytes = pieces[at].as_slice().len();
        if bytes > left {
            return false;
        }
        left -= bytes;
    }
    true
}

impl<S: Stream + Drop> Device for Socket<S> {
    ghost use Rattle.std.specs.Prelude.{Some, is_some};
    ghost use Rattle.std.specs.Io.KnownBytes.{prepend_known};
    ghost use Rattle.ymx_loop.specs.Sockets.{marks_of};

    ghost seen = { λ s. record { left = prepend_known s.proxy_header.items (S.left s.socket); had = S.had s.socket; over = Some s.has_ended; ended = Some s.was_finished; failed = Some (is_some s.failure); shut = Some s.was_shut; marks = marks_of s.marks; calls = 0 } };

    #[tactic(auto, using(crate::proofs::Bytes::none_consumed, crate::proofs::Bytes::all_kept, crate::proofs::Bytes::head_given, crate::proofs::Bytes::own_given))]
    fn pull(&mut self, buffer: &mut [u8]) -> Pulled
        ensures { IsPulled result buffer.new (⟦<Socket<S> as Device>⟧.seen self.old) (⟦<Socket<S> as Device>⟧.seen self.new) }
    {
        let pulled = match self.early() {
            Some(true) => Pulled::Failed,
            Some(false) => Pulled::NotNow,
            None if buffer.is_empty() => Pulled::NotNow,
            None if !self.proxy_header.is_empty() => Pulled::Gave(self.give_proxy_header(buffer)),
            None => {
                let read = self.socket.read(buffer);
                self.on_read(read)
            }
        };
        self.marks.note_pulled(pulled, buffer.len());
        pulled
    }

    #[tactic(auto, using(crate::proofs::Bytes::none_appended, crate::proofs::Bytes::all_kept))]
    fn push(&mut self, bytes: &[u8]) -> Pushed
        ensures { IsPushed result bytes.now (⟦<Socket<S> as Device>⟧.seen self.old) (⟦<Socket<S> as Device>⟧.seen self.new) }
    {
        let pushed = match self.early() {
            Some(true) => Pushed::Failed,
            Some(false) => Pushed::NotNow,
            None => {
                let written = self.socket.write(bytes);
                self.on_written(written, bytes.is_empty())
            }
        };
        self.marks
            .note_pushed(pushed, pushed.count() >= bytes.len());
        pushed
    }

    #[tactic(auto, using(crate::proofs::Bytes::none_appended, crate::proofs::Bytes::all_kept))]
    fn push_pieces(&mut self, pieces: &[IoSlice<'_>]) -> Pushed
        ensures { IsPushed result (io_slices_bytes pieces.now) (⟦<Socket<S> as Device>⟧.seen self.old) (⟦<Socket<S> as Device>⟧.seen self.new) }
    {
        let pushed = match self.early() {
            Some(true) => Pushed::Failed,
            Some(false) => Pushed::NotNow,
            None => {
                let written = self.socket.write_pieces(pieces);
                self.on_written(written, fit(pieces, 0))
            }
        };
        self.marks.note_pushed(pushed, fit(pieces, pushed.count()));
        pushed
    }

    /// Shuts the writing side: the other end reads what was written, and then the end.
    fn end(&mut self)
        ensures { IsEnded (⟦<Socket<S> as Device>⟧.seen self.old) (⟦<Socket<S> as Device>⟧.seen self.new) }
    {
        self.was_finished = true;
        if self.state.get() == ConnectState::Connected {
            self.socket.finish();
        }
    }

    /// Aborts it, so that its other end sees a reset, and no end; a wire is shut both ways. One that is still being made is made
    /// no more. A call of it answers at once then.
    fn shut(&mut self)
        ensures { IsShut (⟦<Socket<S> as Device>⟧.seen self.old) (⟦<Socket<S> as Device>⟧.seen self.new) }
    {
        self.was_shut = true;
        self.marks.may_pull = true;
        self.marks.may_push = true;
        if self.origin.is_none() {
            self.socket.shut();
        } else {
            self.socket.abort();
        }
    }

    /// An event came. A connection that was being made is there now, or can't be made.
    fn note_event(&mut self, ready: Readiness)
        ensures { IsNoted ready (⟦<Socket<S> as Device>⟧.seen self.old) (⟦<Socket<S> as Device>⟧.seen self.new) }
    {
        if self.state.get() == ConnectState::Connecting {
            self.look();
        }
        self.marks.note(ready);
    }

    fn may_pull(&self) -> bool {
        self.marks.may_pull
    }

    fn may_push(&self) -> bool {
        self.marks.may_push
    }

    fn has_failed(&self) -> bool {
        self.failure.is_some()
    }
}

/// Nothing more goes over the wire. Unless the session broke, what still comes is dropped, until the peer has closed
/// its side too, or nothing has come for so long, if there is a limit.
pub(crate) fn close<R: Host>(
    rt: &R,
    poll: &mut Poll,
    wire: &mut Socket,
    is_broken: bool,
    limit: Option<Duration>,
) {
    wire.end();
    if is_broken {
        return;
    }
    let mut dropped = [0u8; DROPPED];
    let mut still_since = None;
    for _ in rt.forever() {
        let before = wire.pulled;
        'drop: for _ in rt.forever() {
            if wire.is_over() || !matches!(wire.pull(&mut dropped), Pulled::Gave(_)) {
                break 'drop;
            }
        }
        let now = time_of(rt);
        if wire.pulled != before || still_since.is_none() {
            still_since = now;
        }
        let is_too_still = limit.is_some_and(|limit| has_passed(still_since, now, limit));
        if wire.is_over() || is_too_still || poll.wait(limit).is_err() {
            return;
        }
    }
    unreachable!()
}
