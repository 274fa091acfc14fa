//! Streams whose users are done with them, and whose bytes are still to arrive.

ghost use Rattle.std.specs.Prelude.{◌≡◌, ◌≢◌, ◌&&◌, ◌||◌, ◌<◌, ◌≤◌, ◌==◌, filter, ℕ, [], ◌∷◌, ◌++◌, length, take, drop, true, false, not, None, Some, IfOk, IfErr, OnOk, OnErr};
ghost use Rattle.ymx_machine.specs.shared.Limits.{most_records};
ghost use Rattle.ymx_machine.specs.shared.Lists.{look};
ghost use Rattle.ymx_model.specs.session.Sessions.{is_running, is_closed};
ghost use Rattle.ymx_table.specs.Listing.{held_ids};
ghost use Rattle.ymx_session.specs.Releases.{is_among, has_stream, goes_on, tended, let_go, release_fault, with_released, tended_all, forgets, looked_at, left_of, is_quiet, OnlyEnds};

use crate::session::Session;
use crate::touched::Touched;
use std::alloc::Global;
use std::marker::Model;
use ymx_header::MOST_RECORDS;
use ymx_memory::RefusedAllocation;
use ymx_model::{CallFault, Status};

/// The streams of one session that were released: their users are done with them, and what was written to them is still
/// to arrive, as after `Close` of Go's package. Its owner lends it the session.
///
/// A stream that is released is finished. What still comes of it is read and dropped, so that the peer gets its credit
/// back, and it is forgotten once the peer's end is there, or it was reset, or the session runs no more. So its record
/// goes when both ends are out, and no byte that was written is lost, but where the peer resets or the connection fails.
/// All of that is done by `finish`, `read` and `forget` of the session, and by nothing else.
///
/// From then on the id is none of the caller's: `contains` says so, and the caller asks it first. A session has at most
/// 1,024 streams, so no more are ever released. Memory is taken by `new` alone.
#[derive(Drop)]
pub struct Releases {
    ids: Vec<u32>,
}

impl Model for Releases {
    ghost use Rattle.std.specs.Prelude.{ℕ, List, vec_capacity};
    ghost use Rattle.ymx_session.specs.Releases.{KeepsReleased};

    ghost Value = { List ℕ };

    ghost view = { λ r. r.ids.items };

    ghost invariant = { λ r. KeepsReleased r.ids.items (vec_capacity r.ids) };
}

impl Releases {
    /// No stream is released. Takes memory for 1,024 ids; without it it answers `RefusedAllocation`.
    pub fn new(alloc: Global) -> Result<Releases, RefusedAllocation>
        ensures { IfOk result (λ releases. releases ≡ []) }
    {
        let ids = ymx_memory::vec_with_capacity(alloc, MOST_RECORDS)?;
        Ok(Releases { ids })
    }

    /// Whether no stream is released, so that there is nothing to purge.
    pub fn is_empty(&self) -> bool
        ensures { result ≡ (length self.now == 0) }
    {
        self.ids.len() == 0
    }

    /// Whether the stream of this id was released, and isn't forgotten yet. The released ids are looked through.
    pub fn contains(&self, id: u32) -> bool
        ensures { result ≡ is_among id self.now }
    {
        self.ids.contains(&id)
    }

    /// The ids of the session's streams that its caller has, as `Session::streams`, without those that were released.
    pub fn streams(&self, session: &Session, ids: &mut [u32]) -> usize
        ensures count { result ≡ length (held_ids self.now session.now.table.entries) }
        ensures listed { ids.new ≡ take (length ids.old) (held_ids self.now session.now.table.entries) ++ drop result ids.old }
    {
        session.streams_but(self.ids.as_slice(), ids)
    }

    /// Releases a stream. It is finished, what waits of it is dropped, and where nothing more can come, as the peer's end
    /// is there, it was reset or the session is lost, it is forgotten at once (half-close).
    ///
    /// The first refusal that applies, in this order, is answered: `Closed`, `NoStream`, also where the stream was
    /// released before, and `TooMany` while 1,024 others are released, which no one session has. Nothing changes then.
    pub fn release(&mut self, session: &mut Session, id: u32) -> Result<(), CallFault>
        ensures may { IfOk result (λ done. release_fault self.old id session.old ≡ None) }
        ensures refused { IfErr result (λ fault. release_fault self.old id session.old ≡ Some fault) }
        // It is finished, and then read up or forgotten; it is among the released ones only if more may come.
        ensures lets_go { OnOk result (session.new ≡ let_go id session.old) }
        ensures kept { OnOk result (self.new ≡ with_released (goes_on id session.old) id self.old) }
        // These are calls of the definitions on its stream, and other streams stay as they were.
        ensures calls { OnOk result (OnlyEnds (id ∷ []) session.old session.new) }
        ensures others { OnOk result ((other : ℕ) → other ≢ id → look other session.new.table.entries ≡ look other session.old.table.entries) }
        // Where it stays, nothing of it is unread, and its end has not come.
        ensures quiet { OnOk result (goes_on id session.old ≡ true → is_quiet (look id session.new.table.entries) ≡ true) }
        // A refusal changes nothing.
        ensures session_unchanged { OnErr result (session.new ≡ session.old) }
        ensures unchanged { OnErr result (self.new ≡ self.old) }
    {
        self.may_release(session, id)?;
        let _ = session.finish(id);
        if session.tend(id) {
            self.add(id);
        }
        Ok(())
    }

    /// Looks at the released streams that were touched: what came of them is read and dropped, and those of which
    /// nothing more can come are forgotten, and are released no more. Where any stream may have been touched, or the
    /// session runs no more, all are looked at. To be called after each `feed_touching`, and after `feed_end`.
    pub fn purge(&mut self, session: &mut Session, touched: &Touched)
        ensures tends { session.new ≡ tended_all (looked_at self.old touched.now session.old) session.old }
        ensures left { self.new ≡ left_of (forgets (looked_at self.old touched.now session.old) session.old) self.old session.new }
        ensures calls { OnlyEnds self.old session.old session.new }
        ensures others { (other : ℕ) → is_among other self.old ≡ false → look other session.new.table.entries ≡ look other session.old.table.entries }
        ensures quiet { (id : ℕ) → is_closed session.old.status ≡ false → is_among id (looked_at self.old touched.now session.old) ≡ true → is_among id self.new ≡ true → is_quiet (look id session.new.table.entries) ≡ true }
    {
        session.ids_differ();
        if looks_at_all(session, touched) {
            self.purge_all(session);
        } else if self.tend_touched(session, touched.ids()) {
            self.forget_gone(session);
        }
    }

    /// Looks at all released streams, as `purge` does. To be called after a `feed` that notes nothing.
    pub fn purge_all(&mut self, session: &mut Session)
        ensures tends { session.new ≡ tended_all self.old session.old }
        ensures left { self.new ≡ left_of (forgets self.old session.old) self.old session.new }
        ensures calls { OnlyEnds self.old session.old session.new }
        ensures others { (other : ℕ) → is_among other self.old ≡ false → look other session.new.table.entries ≡ look other session.old.table.entries }
        ensures quiet { (id : ℕ) → is_closed session.old.status ≡ false → is_among id self.new ≡ true → is_quiet (look id session.new.table.entries) ≡ true }
    {
        session.ids_differ();
        if tend_all(session, self.ids.as_slice()) {
            self.forget_gone(session);
        }
    }

    /// Why the stream isn't released.
    fn may_release(&self, session: &Session, id: u32) -> Result<(), CallFault>
        ensures may { IfOk result (λ done. release_fault self.now id session.now ≡ None) }
        ensures refused { IfErr result (λ fault. release_fault self.now id session.now ≡ Some fault) }
    {
        if session.status() == Status::Closed {
            return Err(CallFault::Closed);
        }
        if self.contains(id) || !session.has_stream(id) {
            return Err(CallFault::NoStream);
        }
        if self.ids.len() >= MOST_RECORDS {
            return Err(CallFault::TooMany);
        }
        Ok(())
    }

    /// One more is released.
    fn add(&mut self, id: u32)
        requires { length self.old < most_records }
        ensures { self.new ≡ self.old ++ id ∷ [] }
    {
        self.ids.push_reserved(id);
    }

    /// The released ones among those that were touched get their calls. Whether any was forgotten.
    fn tend_touched(&self, session: &mut Session, touched: &[u32]) -> bool
        ensures tends { session.new ≡ tended_all (filter (λ x. is_among x self.now) touched.now) session.old }
        ensures forgot { result ≡ forgets (filter (λ x. is_among x self.now) touched.now) session.old }
    {
        let mut forgot = false;
        for id in touched {
            if self.contains(*id) {
                forgot |= !session.tend(*id);
            }
        }
        forgot
    }

    /// Those are released no more that the caller of the session has no more.
    fn forget_gone(&mut self, session: &Session)
        ensures { self.new ≡ filter (λ x. has_stream x session.now) self.old }
    {
        self.ids.retain(|id| session.has_stream(*id));
    }
}

/// Whether all released streams are looked at, and not only those that were touched.
fn looks_at_all(session: &Session, touched: &Touched) -> bool
    ensures { result ≡ (touched.now.all || not (is_running session.now.status)) }
{
    touched.is_all() || session.status() != Status::Running
}

/// These streams get their calls. Whether any was forgotten.
fn tend_all(session: &mut Session, ids: &[u32]) -> bool
    ensures tends { session.new ≡ tended_all ids.now session.old }
    ensures forgot { result ≡ forgets ids.now session.old }
{
    let mut forgot = false;
    for id in ids {
        forgot |= !session.tend(*id);
    }
    forgot
}
