//! The log and the counters, under one lock that threads share.

use crate::Host;
use std::alloc::{AllocError, Global};
use std::net::SocketAddr;
use std::sync::Mutex;
use std::time::Instant;
use ymx_model::{Outlet, push_all};
use ymx_page::{Counts, Event, LineLimit, Origin};
use ymx_policy::{Fault, Notice, Words};

/// The devices for faults and lines, and the counters.
#[derive(Drop)]
pub struct Sink<'a, D> {
    errors: &'a mut D,
    lines: &'a mut D,
    is_verbose: bool,
    pub(crate) counts: Counts,
    limit: LineLimit,
}

/// A log, with nothing counted yet.
pub fn new_sink<'a, D: Outlet>(
    alloc: Global,
    is_verbose: bool,
    errors: &'a mut D,
    lines: &'a mut D,
) -> Mutex<Sink<'a, D>> {
    let counts = Counts::new(alloc);
    Mutex::new(Sink {
        errors,
        lines,
        is_verbose,
        counts,
        limit: LineLimit::default(),
    })
}

impl<D: Outlet> Sink<'_, D> {
    /// Counts the event and logs its line, if it has one. A failed write is ignored.
    fn take(&mut self, event: &Event, now: Option<Instant>) {
        self.counts.count(event);
        let Some(line) = event.line(self.is_verbose, now) else {
            return;
        };
        if self.limit.leaves_out(event, now) {
            return;
        }
        let mut text = self.limit.note(now).unwrap_or_default();
        let has_note = !text.is_empty();
        let _ = text.try_push_str(line.as_str());
        let bytes = text.as_str().as_bytes();
        let written = if event.is_fault() {
            push_all(self.errors, bytes)
        } else {
            push_all(self.lines, bytes)
        };
        if written.is_ok() && has_note {
            self.limit.note_reported(now);
        }
    }

    /// Logs at the end how many lines were left out, if any were.
    fn finish(&mut self) {
        if let Some(note) = self.limit.note(None) {
            let _ = push_all(self.lines, note.as_str().as_bytes());
        }
    }
}

/// What each function of a link needs: the runtime, memory, the log.
pub struct Context<'a, 's, R, D> {
    pub rt: &'a R,
    pub alloc: Global,
    pub sink: &'a Mutex<Sink<'s, D>>,
    /// The number of the link that it is of, if there are several.
    pub link: Option<u32>,
}

impl<R, D> Clone for Context<'_, '_, R, D> {
    fn clone(&self) -> Result<Self, AllocError> {
        Ok(*self)
    }
}

impl<R, D> Copy for Context<'_, '_, R, D> {}

/// The context of a log.
pub fn context_of<'a, 's, R, D>(
    rt: &'a R,
    alloc: Global,
    sink: &'a Mutex<Sink<'s, D>>,
) -> Context<'a, 's, R, D> {
    let link = None;
    Context {
        rt,
        alloc,
        sink,
        link,
    }
}

impl<R: Host, D: Outlet> Context<'_, '_, R, D> {
    /// Logs the event, and counts it.
    pub fn log(&self, event: Event) {
        let now = Instant::now(self.rt).ok();
        let mut sink = self.sink.lock(self.rt);
        sink.take(&event, now);
    }

    /// Logs at the end how many lines were left out, if any were.
    pub fn finish(&self) {
        self.sink.lock(self.rt).finish();
    }

    /// Logs the words of a command, in their order.
    pub fn log_words(&self, words: Words) {
        if let Some(first) = words.first {
            self.log(Event::Notice(first));
        }
        if let Some(fault) = words.fault {
            self.report(words.reason, fault);
        }
        if let Some(last) = words.last {
            self.log(Event::Notice(last));
        }
    }

    /// Logs this fault, and before it its reason, if that is known.
    pub fn report(&self, reason: Option<Notice>, fault: Fault) {
        if let Some(reason) = reason {
            self.log(Event::Reason(reason));
        }
        self.log(Event::Fault(fault));
    }

    /// A connection begins, of somebody at this address, if it is known.
    pub fn begin(&self, from: Option<SocketAddr>) -> Origin {
        let began = Instant::now(self.rt).ok();
        let from = match from {
            Some(SocketAddr::V4(address)) => Some(address),
            _ => None,
        };
        let mut sink = self.sink.lock(self.rt);
        Origin {
            number: sink.counts.begin(began),
            from,
            link: self.link,
            began,
        }
    }
}
