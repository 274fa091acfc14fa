//! `ymx local` and `ymx remote`: one link or several, each in a thread of its own, and what they share.

ghost use Rattle.std.specs.Prelude.{None};

use crate::link::run_link;
use crossbeam_channel::{Receiver, Sender, bounded};
use std::alloc::{AllocError, Global};
use std::net::SocketAddrV4;
use std::sync::atomic::{AtomicUsize, Ordering};
use std::sync::{Arc, Mutex, Wait};
use std::thread;
use std::thread::{Threads, join_mut};
use ymx_model::Outlet;
use ymx_page::Event;
use ymx_policy::{
    Action, Command, Fault, Mode, Named, Notice, Outcome, Peers, Plan, Terms, World, greatest, run,
};
use ymx_sockets::{
    Context, Drain, Host, Incoming, Page, Peer, PeerAcceptor, Poll, Shared, StartFault, context_of,
    new_sink,
};

/// Runs an endpoint by this plan, and beside it its page, if it has one. `ymx local` forwards each connection that comes as
/// a stream of a session with its peer; `ymx remote` connects each stream of its peers to the target. Writes faults to `errors`. To
/// `lines` go their reasons, before each, and all that `-v` asks for. Returns the exit status, the greatest of its links: 0 where no
/// fault was logged, else 1.
pub fn run_end<R: Host + Threads + Sync, D: Outlet + Send>(
    rt: &R,
    alloc: Global,
    plan: Plan,
    errors: &mut D,
    lines: &mut D,
) -> u8 {
    let sink = new_sink(alloc, plan.is_verbose, errors, lines);
    let context = context_of(rt, alloc, &sink);
    let terms = plan.terms();
    let Ok(shared) = Shared::new(alloc, terms.users.count, terms.link_count as usize) else {
        context.report(None, Fault::OutOfMemory);
        return 1;
    };
    let end = End {
        context,
        plan,
        terms,
        shared,
        status: Mutex::new(0),
    };
    match plan.status {
        None => end.run(),
        Some(address) => end.run_beside_page(address),
    }
    context.finish();
    *end.status.lock(rt)
}

/// An endpoint of a tunnel.
#[derive(Drop)]
struct End<'a, 's, R, D> {
    context: Context<'a, 's, R, D>,
    plan: Plan,
    terms: Terms,
    shared: Arc<Shared, Global>,
    /// The greatest exit status of the links that have ended.
    status: Mutex<u8>,
}

impl<'a, 's, R: Host + Threads + Sync, D: Outlet + Send> End<'a, 's, R, D> {
    /// Runs it, and beside it its page at this address.
    fn run_beside_page(&self, address: SocketAddrV4) {
        let context = self.context;
        let Context { rt, alloc, .. } = context;
        let ended = Drain::new(alloc);
        let mut page = match Page::new(rt, alloc, address, &ended) {
            Ok(page) => page,
            Err(StartFault::Refused(reason)) => {
                let refused = Notice::Refused(Named::Status(address), reason);
                return self.fail(Some(refused), Fault::CannotListen(address));
            }
            Err(StartFault::OutOfMemory) => return self.fail(None, Fault::OutOfMemory),
        };
        join_mut(
            rt,
            &mut || page.run(context, &self.shared.drain, &ended),
            &mut || {
                self.run();
                ended.ask(rt);
            },
        );
    }

    /// Runs its links.
    fn run(&self) {
        match self.terms.mode {
            Mode::RemoteAdmits => {
                if self.run_peers().is_err() {
                    self.fail(None, Fault::OutOfMemory);
                }
            }
            _ if self.terms.link_count > 1 => self.run_links(),
            _ => self.run_link(None, None, true),
        }
    }

    /// Logs this fault, and before it its reason, if that is known. No link runs.
    fn fail(&self, reason: Option<Notice>, fault: Fault) {
        self.context.report(reason, fault);
        self.note_status(1);
    }

    /// A link has ended with this exit status.
    fn note_status(&self, status: u8) {
        let mut greatest_yet = self.status.lock(self.context.rt);
        *greatest_yet = greatest(*greatest_yet, status);
    }

    /// Runs the link of this number, or one for a peer of this backlog after another. Whether it has a thread.
    fn run_link(&self, number: Option<u32>, backlog: Option<&PeerBacklog>, has_thread: bool) {
        let mut context = self.context;
        context.link = number;
        match Arc::try_clone(&self.shared) {
            Ok(shared) => self.note_status(run_link(
                context, &self.plan, shared, backlog, has_thread,
            )),
            Err(_) => self.fail(None, Fault::OutOfMemory),
        }
    }

    /// Runs each link, the first in this thread.
    fn run_links(&self) {
        thread::scope(thread::scope_env(), self.context.rt, move |scope| {
            for number in 2..=self.terms.link_count {
                if scope
                    .spawn(move || self.run_link(Some(number), None, true))
                    .is_err()
                {
                    self.run_link(Some(number), None, false);
                }
            }
            self.run_link(Some(1), None, true);
        });
    }

    // ---- peers

    /// Makes a thread for each link, and then admits peers to them.
    fn run_peers(&self) -> Result<(), AllocError> {
        let links = self.terms.link_count as usize;
        let (give, peers) = bounded::<Peer, Global>(self.context.alloc, links)?;
        let backlog = &PeerBacklog {
            peers,
            links,
            taken: AtomicUsize::new(0),
            keeps: self.plan.keeps,
            shared: Arc::try_clone(&self.shared)?,
        };
        thread::scope(thread::scope_env(), self.context.rt, move |scope| {
            let mut admission = Admission {
                context: self.context,
                backlog,
                give,
                has_threads: true,
                listening: None,
            };
            for _ in 0..backlog.links {
                admission.has_threads &= scope
                    .spawn(move || self.run_link(None, Some(backlog), true))
                    .is_ok();
            }
            self.note_status(run(self.context.rt, &self.terms, &mut admission));
        });
        Ok(())
    }
}

/// Who admits peers: it executes the commands of an endpoint that has links for them.
#[derive(Drop)]
struct Admission<'a, 's, R, D> {
    context: Context<'a, 's, R, D>,
    backlog: &'a PeerBacklog,
    give: Sender<Peer, Global>,
    /// Each link has a thread.
    has_threads: bool,
    /// Where peers connect, once it listens, and what reports that.
    listening: Option<(Poll, PeerAcceptor)>,
}

impl<R: Host, D: Outlet> Admission<'_, '_, R, D> {
    /// Listens for these peers. A drain ends its waits.
    fn listen(&mut self, peers: Peers) -> Result<Outcome, StartFault> {
        let Context { rt, alloc, .. } = self.context;
        let drain = &self.backlog.shared.drain;
        let mut poll = Poll::new(rt, alloc)?;
        poll.on_signal(Arc::try_clone(drain)?);
        let _ = drain.wakes(rt, alloc, &poll)?;
        let incoming = PeerAcceptor::listen(rt, peers, true, &poll)?;
        let listening_at = incoming.local_address;
        self.listening = Some((poll, incoming));
        Ok(Outcome::Listening(listening_at))
    }

    /// Hands each peer that comes to a link. Where none waits for one it is closed.
    fn admit(&mut self) -> Outcome {
        let context = self.context;
        let Some((poll, incoming)) = &mut self.listening else {
            return Outcome::Failed(None);
        };
        for _ in context.rt.forever() {
            if self.backlog.shared.drain.is_asked() {
                return Outcome::AllCame;
            }
            match incoming.next(context) {
                Incoming::Peer(peer) if self.backlog.take_slot() => {
                    let _ = self.give.send(context.rt, peer);
                }
                Incoming::Peer(peer) => {
                    context.log(Event::Notice(Notice::OverLimit(peer.address)));
                }
                Incoming::Closed => {}
                Incoming::Nobody => {
                    if let Err(outcome) = incoming.wait(poll, None) {
                        return outcome;
                    }
                }
            }
        }
        unreachable!()
    }
}

impl<R: Host, D: Outlet> World for Admission<'_, '_, R, D> {
    ghost log = { λ _. None };

    fn perform(&mut self, command: Command) -> Outcome {
        self.context.log_words(command.words);
        match command.action {
            _ if !self.has_threads => Outcome::NoThread,
            Action::ListenForPeer(peers) => self.listen(peers).unwrap_or_else(StartFault::outcome),
            Action::AdmitPeers => self.admit(),
            _ => Outcome::Done,
        }
    }
}

/// Where peers wait for a link.
#[derive(Drop)]
pub(crate) struct PeerBacklog {
    peers: Receiver<Peer, Global>,
    /// How many links there are.
    links: usize,
    /// How many of them have a peer, or are handed one.
    taken: AtomicUsize,
    keeps: bool,
    shared: Arc<Shared, Global>,
}

impl PeerBacklog {
    /// The next peer. None where no more are to come.
    pub(crate) fn next<R: Wait>(&self, rt: &R) -> Option<Peer> {
        let peer = self.peers.recv(rt).ok()?;
        if self.shared.drain.is_asked() {
            return None;
        }
        Some(peer)
    }

    /// Takes a link, if one is free. Only one thread does.
    fn take_slot(&self) -> bool {
        let is_free = self.taken.load(Ordering::SeqCst) < self.links;
        if is_free {
            self.taken.fetch_add(1, Ordering::SeqCst);
        }
        is_free
    }

    /// A link is free again. Without `--keep` no more peers are admitted once none is left.
    pub(crate) fn leave<R: Wait>(&self, rt: &R) {
        if self.taken.fetch_sub(1, Ordering::SeqCst) == 1 && !self.keeps {
            self.shared.drain.ask(rt);
        }
    }
}
