//! The page of an endpoint, served over HTTP at an address of its own, in a thread of its own. The first
//! line of a request is read, up to 8,192 bytes, and within two seconds. One that is stuck holds up no other.

use crate::Host;
use crate::clock::GLANCE;
use crate::drain::Drain;
use crate::fault::StartFault;
use crate::logging::Context;
use crate::source::Source;
use crate::stream::Stream;
use crate::system::{Listener, Poll, TcpConnection, listen};
use std::alloc::Global;
use std::collections::VecDeque;
use std::io::ErrorKind;
use std::net::{SocketAddr, SocketAddrV4};
use std::time::{Clock, Duration, Instant};
use ymx_model::Outlet;
use ymx_page::{Answer, RequestLine, Standing, answer_to};

/// How many are answered at once at most. Where one more comes, the oldest is closed.
const AT_ONCE: usize = 16;

/// How many bytes are read at once.
const PART: usize = 1_024;

/// How often one reads or writes at most until others have their turns.
const CALLS: usize = 8;

/// How many seconds one has to ask, and to take the answer.
const PATIENCE: u64 = 2;

/// The server of the page, and its clients.
#[derive(Drop)]
pub struct Page {
    alloc: Global,
    poll: Poll,
    listener: Listener,
    clients: VecDeque<Client>,
}

impl Page {
    /// A page at this address, which is served once it is run, until the endpoint has ended.
    pub fn new<R: Host>(
        rt: &R,
        alloc: Global,
        address: SocketAddrV4,
        ended: &Drain,
    ) -> Result<Page, StartFault> {
        let listener = listen(rt, SocketAddr::V4(address))?;
        let poll = Poll::new(rt, alloc)?;
        let _ = ended.wakes(rt, alloc, &poll)?;
        Ok(Page {
            alloc,
            listener: Listener::new(listener, &poll)?,
            poll,
            clients: VecDeque::new(alloc),
        })
    }

    /// Serves until the endpoint has ended, and the clients that are there then.
    pub fn run<R: Host, D: Outlet>(
        &mut self,
        context: Context<'_, '_, R, D>,
        drain: &Drain,
        ended: &Drain,
    ) {
        for _ in context.rt.forever() {
            let is_over = ended.is_asked();
            if is_over && self.clients.is_empty() {
                return;
            }
            // where somebody is there it waits not for long
            let limit = (!self.clients.is_empty()).then_some(Duration::from_secs(GLANCE));
            match self.poll.wait(limit) {
                Err(e) if e.kind != ErrorKind::Interrupted => return,
                _ => {}
            }
            if !is_over {
                self.let_in(context.rt);
            }
            self.serve_all(context, drain);
        }
        unreachable!()
    }

    /// Accepts the clients that wait.
    fn let_in<R: Clock>(&mut self, rt: &R) {
        for _ in 0..AT_ONCE {
            match self.listener.next() {
                Ok(socket) => self.greet(rt, socket),
                Err(e) if e.kind() == ErrorKind::WouldBlock => return,
                Err(_) => {}
            }
        }
    }

    /// Somebody has come, over this connection. Where too many are there the oldest goes.
    fn greet<R: Clock>(&mut self, rt: &R, socket: TcpConnection) {
        let mut socket = socket.to_peer();
        if socket.register(&self.poll, Source::Link).is_err() {
            return;
        }
        let (Ok(since), Ok(line)) = (Instant::now(rt), RequestLine::new(self.alloc)) else {
            return;
        };
        if self.clients.len() >= AT_ONCE {
            drop(self.clients.pop_front());
        }
        let client = Client {
            socket,
            since,
            line,
            answer: None,
            written: 0,
        };
        drop(self.clients.push_back(client));
    }

    /// Goes on with each client.
    fn serve_all<R: Host, D: Outlet>(&mut self, context: Context<'_, '_, R, D>, drain: &Drain) {
        for _ in 0..self.clients.len() {
            let Some(client) = self.clients.pop_front() else {
                return;
            };
            let mut client = client;
            if client.go_on(context, drain) == Step::Waits {
                drop(self.clients.push_back(client));
            }
        }
    }
}

/// A client.
#[derive(Drop)]
struct Client {
    socket: TcpConnection,
    /// When it came.
    since: Instant,
    /// What has come of the first line.
    line: RequestLine,
    /// What is to be answered, once that line is there.
    answer: Option<String>,
    /// How many bytes of the answer were taken.
    written: usize,
}

/// How far one came.
#[derive(Clone, Copy, PartialEq, Eq)]
enum Step {
    /// It can't go on now.
    Waits,
    /// It has done this part.
    Done,
    /// It has gone.
    Gone,
}

impl Client {
    /// Goes on as far as it can now. What still comes after its answer is dropped: else the answer could be lost with the
    /// connection.
    fn go_on<R: Host, D: Outlet>(&mut self, context: Context<'_, '_, R, D>, drain: &Drain) -> Step {
        match self.since.elapsed(context.rt) {
            Ok(passed) if passed < Duration::from_secs(PATIENCE) => {}
            _ => return Step::Gone,
        }
        if self.answer.is_none() {
            match self.read() {
                Step::Done => self.decide(context, drain),
                other => return other,
            }
        }
        match self.write() {
            Step::Done => self.read(),
            other => other,
        }
    }

    /// Reads what has come, until its first line is there. After that it forgets it.
    fn read(&mut self) -> Step {
        let mut buffer = [0u8; PART];
        for _ in 0..CALLS {
            match self.socket.read(&mut buffer) {
                Ok(0) => return Step::Gone,
                Ok(count) => {
                    if self.answer.is_none() && self.line.feed(&buffer[..count]) {
                        return Step::Done;
                    }
                }
                Err(e) if e.kind() == ErrorKind::WouldBlock => return Step::Waits,
                Err(_) => return Step::Gone,
            }
        }
        Step::Waits
    }

    /// Decides on the answer, and does what the request wants.
    fn decide<R: Host, D: Outlet>(&mut self, context: Context<'_, '_, R, D>, drain: &Drain) {
        let rt = context.rt;
        let (answer, wants_body) = answer_to(self.line.bytes());
        if answer == Answer::Drain {
            drain.ask(rt);
        }
        let sink = context.sink.lock(rt);
        let age = match sink.counts.oldest() {
            Some(began) => began.elapsed(rt).unwrap_or(Duration::ZERO),
            None => Duration::ZERO,
        };
        let standing = Standing {
            age: age.as_secs(),
            is_draining: drain.is_asked(),
            wants_body,
        };
        self.answer = answer.text(context.alloc, &sink.counts, standing).ok();
    }

    /// Writes the rest of its answer, and then the end.
    fn write(&mut self) -> Step {
        let Some(answer) = &self.answer else {
            return Step::Gone;
        };
        let bytes = answer.as_bytes();
        for _ in 0..CALLS {
            let from = self.written.min(bytes.len());
            if from == bytes.len() {
                self.socket.finish();
                return Step::Done;
            }
            match self.socket.write(&bytes[from..]) {
                Ok(0) => return Step::Gone,
                Ok(count) => self.written = from + count,
                Err(e) if e.kind() == ErrorKind::WouldBlock => return Step::Waits,
                Err(_) => return Step::Gone,
            }
        }
        Step::Waits
    }
}
