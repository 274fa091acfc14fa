//! How an endpoint is asked to take no more connections: a `local` no more users, a `remote` no more peers and streams.

use crate::fault::StartFault;
use crate::system::{Poll, Waker};
use std::alloc::Global;
use std::sync::atomic::{AtomicBool, Ordering};
use std::sync::{Arc, Mutex, Wait};

/// Whether an endpoint was asked to take no more connections, and which polls that wakes.
#[derive(Drop)]
pub struct Drain {
    is_asked: AtomicBool,
    /// End the waits in which somebody may come. None where one has left.
    sleepers: Mutex<Vec<Option<Arc<Waker, Global>>>>,
}

impl Drain {
    /// It was not asked.
    pub fn new(alloc: Global) -> Drain {
        Drain {
            is_asked: AtomicBool::new(false),
            sleepers: Mutex::new(Vec::new(alloc)),
        }
    }

    /// From now on it takes no more connections. Asked once more it does nothing further.
    pub fn ask<R: Wait>(&self, rt: &R) {
        self.note_asked();
        let sleepers = self.sleepers.lock(rt);
        for sleeper in sleepers.as_slice() {
            if let Some(waker) = sleeper {
                waker.wake();
            }
        }
    }

    /// It was asked by a signal, which each poll reports.
    pub(crate) fn note_asked(&self) {
        self.is_asked.store(true, Ordering::SeqCst);
    }

    /// Whether it was asked.
    pub fn is_asked(&self) -> bool {
        self.is_asked.load(Ordering::SeqCst)
    }

    /// This poll is woken when it is asked, at once where it was asked before. The seat that it has until it
    /// leaves. Fails only where there is no memory for that.
    pub fn wakes<R: Wait>(&self, rt: &R, alloc: Global, poll: &Poll) -> Result<usize, StartFault> {
        let waker = Arc::new(alloc, Waker::new(poll)?)?;
        let mut sleepers = self.sleepers.lock(rt);
        if self.is_asked() {
            waker.wake();
        }
        let free = sleepers.as_slice().iter().position(|it| it.is_none());
        let seat = free.unwrap_or(sleepers.len());
        match sleepers.as_mut_slice().get_mut(seat) {
            Some(sleeper) => *sleeper = Some(waker),
            None => sleepers.push(Some(waker))?,
        }
        Ok(seat)
    }

    /// Who has this seat leaves.
    pub fn forget<R: Wait>(&self, rt: &R, seat: usize) {
        let mut sleepers = self.sleepers.lock(rt);
        if let Some(sleeper) = sleepers.as_mut_slice().get_mut(seat) {
            *sleeper = None;
        }
    }
}
