//! Streams whose readers are done with them. What comes of such a stream is read and dropped, so that the peer gets its
//! credit back, and its reading half is spent once nothing more can come.

ghost use Rattle.std.specs.Prelude.{◌≡◌, ◌≢◌, ◌⊎◌, ℕ, ◌+◌, ◌-◌, ◌<◌, ◌≤◌, ◌++◌, ◌∷◌, [], length, swap_remove, slice_index_or, Contains, true, false, Ok, IfOk, IfErr, OnOk, OnErr, IsOk};
ghost use Rattle.ymx_machine.specs.shared.Evidence.{evidence};
ghost use Rattle.ymx_machine.specs.shared.Limits.{most_records};
ghost use Rattle.ymx_seats.specs.Journals.{release_of};
ghost use Rattle.ymx_seats.specs.Views.{released_by};
ghost use Rattle.ymx_hub.specs.Answers.{IsNotMemory, refused_release};
ghost use Rattle.ymx_hub.specs.Books.{Books};
ghost use Rattle.ymx_hub.specs.Releasing.{ReadsUp, ReadsOut, Looks, Releases, LooksAmong, Purges, PurgesAmong, Waits, WaitFrom, AllWait, IsDropped, SpentAlike, spent_by, spares_memory, OthersStay, LeavesSome, ReleasesOne};
ghost use Rattle.ymx_hub.specs.Rights.{MayRead};
ghost use Rattle.ymx_hub.specs.Shown.{BooksShown, IsShown};

use crate::awaiting::take_lock;
use crate::booked::Booked;
use crate::faults::HubFault;
use crate::hub::Hub;
use crate::purged::Purged;
use crate::released_ids::RefusedRelease;
use crate::shared::Shared;
use std::sync::Wait;
use ymx_memory::RefusedAllocation;
use ymx_model::Got;
use ymx_seats::{Recorder, Seat};

/// Bytes that are read at once, and dropped.
const CHUNK: usize = 4_096;

/// How a look at a released stream ended.
#[derive(Drop)]
enum Look {
    /// A read of it would wait.
    Waits,
    /// There was no memory for the entry of a read.
    Lacks(RefusedAllocation),
    /// Nothing more can come, and its reading half is spent, which was answered so.
    Spent(Result<(), HubFault>),
}

impl<R: Recorder> Booked<R> {
    /// Reads what has come of a stream, and drops it. Whether nothing more can come; else the stream waits.
    #[tactic(auto, using(crate::proofs::Released::alike_none, crate::proofs::Released::alike_on, crate::proofs::Released::stay_none, crate::proofs::Released::stay_read))]
    fn read_up<W: Wait>(
        &mut self,
        rt: &W,
        seat: &mut Seat<R>,
        id: u32,
    ) -> Result<bool, RefusedAllocation>
        requires may { R.WITNESSED ≡ true → MayRead seat.old.right id ⊎ Contains self.old.released id }
        ensures right { seat.new.right ≡ seat.old.right }
        ensures released { self.new.released ≡ self.old.released }
        ensures booked { Books R.KEEPS seat.old seat.new (ReadsUp id seat.old.number result) }
        ensures waits { IfOk result (λ over. over ≡ false → Waits self.new.session id) }
        ensures halves { SpentAlike self.old self.new }
        ensures others { OthersStay id self.old.session self.new.session }
        ensures off { R.KEEPS ≡ false → IsOk result }
    {
        let mut buffer = [0; CHUNK];
        for _ in rt.forever() {
            match self.read(seat, id, &mut buffer) {
                Ok(Got::Bytes(_) | Got::Wait) => {}
                Ok(Got::End) => return Ok(true),
                Err(HubFault::Memory(refused)) => return Err(refused),
                Err(HubFault::Call(_)) => return Ok(true),
                Err(HubFault::Seats(_)) => return Ok(true),
                Err(HubFault::Releases(_)) => return Ok(true),
            }
            if self.read_waits(id) {
                return Ok(false);
            }
        }
        unreachable!()
    }

    /// Reads what has come of a released stream, unless a read of it waits. Where nothing more can come its reading half is
    /// spent.
    #[tactic(auto, using(crate::proofs::Released::looks_none, crate::proofs::Released::looks_wait, crate::proofs::Released::looks_lack, crate::proofs::Released::looks_spent, crate::proofs::Released::alike_none, crate::proofs::Released::spent_on, crate::proofs::Released::stay_none, crate::proofs::Released::stay_on, crate::proofs::Released::stay_closed, crate::proofs::Released::no_release))]
    fn look<W: Wait>(&mut self, rt: &W, seat: &mut Seat<R>, id: u32) -> Look
        requires may { R.WITNESSED ≡ true → MayRead seat.old.right id ⊎ Contains self.old.released id }
        ensures right { seat.new.right ≡ seat.old.right }
        ensures released { self.new.released ≡ self.old.released }
        ensures booked { Books R.KEEPS seat.old seat.new (Looks id seat.old.number result) }
        ensures waits { result ≡ Look.Waits → Waits self.new.session id }
        ensures still { Waits self.old.session id → result ≡ Look.Waits }
        ensures halves { SpentAlike (spent_by result id self.old) self.new }
        ensures others { OthersStay id self.old.session self.new.session }
        ensures named { result ≡ Look.Spent (Err (HubFault.Releases refused_release)) → ⊥ }
        ensures off { R.KEEPS ≡ false → spares_memory result }
    {
        if self.read_waits(id) {
            return Look::Waits;
        }
        match self.read_up(rt, seat, id) {
            Ok(false) => Look::Waits,
            Ok(true) => Look::Spent(self.close_half(seat, id)),
            Err(refused) => Look::Lacks(refused),
        }
    }

    /// Whether there is room for one stream more that is released.
    fn has_room(&self) -> Result<(), RefusedRelease>
        ensures room { OnOk result (length self.now.released < most_records) }
        ensures refused { IfErr result (λ _. most_records ≤ length self.now.released) }
    {
        self.released.has_room()
    }

    /// How many streams are released.
    fn released_count(&self) -> usize
        ensures { result ≡ length self.now.released }
    {
        self.released.len()
    }

    /// The released stream at a place.
    fn released_at(&self, place: usize) -> u32
        requires { place < length self.now.released }
        ensures { (d : ℕ) → slice_index_or self.now.released place d ≡ result }
    {
        self.released.at(place)
    }

    /// Lists a stream among those that are released, as its reader releases its reads to all.
    #[tactic(auto, using(crate::proofs::Journals::journaled_released, crate::proofs::Journals::all_listed))]
    fn list(&mut self, seat: &mut Seat<R>, id: u32)
        requires room { length self.old.released < most_records }
        requires may { R.WITNESSED ≡ true → MayRead seat.old.right id }
        ensures seat { seat.new ≡ record seat.old { right = release_of seat.old.right } }
        ensures listed { self.new ≡ record self.old { released = self.old.released ++ id ∷ []; journal = released_by seat.old.number seat.old.right self.old.journal } }
    {
        self.log.release(seat);
        self.released.add(id);
    }

    /// The stream at a place is released no more. The last takes its place.
    #[tactic(auto, using(crate::proofs::Journals::all_removed))]
    fn unlist(&mut self, place: usize)
        requires { place < length self.old.released }
        ensures ids { (d : ℕ) → self.new.released ≡ swap_remove self.old.released place (slice_index_or self.old.released place d) }
        ensures len { length self.new.released + 1 ≡ length self.old.released }
        ensures last { (d : ℕ) → place + 1 < length self.old.released → slice_index_or self.new.released place d ≡ slice_index_or self.old.released (length self.old.released - 1) d }
        ensures others { (k d : ℕ) → k ≢ place → k + 1 < length self.old.released → slice_index_or self.new.released k d ≡ slice_index_or self.old.released k d }
        ensures rest { self.new ≡ record self.old { released = self.new.released } }
    {
        self.released.remove(place);
    }
}

impl<R: Recorder> Shared<R> {
    /// Releases a stream: what has come of it is read and dropped, and it is looked at until nothing more can come; so long its
    /// reading half stays unspent. `Releases`, and nothing is done, where there is no room for it.
    #[tactic(auto, using(crate::proofs::Released::releases_wait, crate::proofs::Released::releases_lack, crate::proofs::Released::releases_spent, crate::proofs::Released::releases_none, crate::proofs::Released::release_done, crate::proofs::Released::books_right, crate::proofs::Released::alike_listed))]
    fn release<W: Wait>(&mut self, rt: &W, seat: &mut Seat<R>, id: u32) -> Result<(), HubFault>
        requires may { R.WITNESSED ≡ true → MayRead seat.old.right id }
        ensures booked { Books R.KEEPS seat.old seat.new (Releases id seat.old.number result) }
        ensures refused { result ≡ Err (HubFault.Releases refused_release) → most_records ≤ length self.old.booked.released }
        ensures done { IfOk result (λ _. (Waits self.new.booked.session id × Contains self.new.booked.released id) ⊎ Books R.KEEPS seat.old seat.new (ReadsOut id seat.old.number (Ok tt))) }
        ensures listed { ReleasesOne id result self.old.booked.released self.new.booked.released self.old.booked self.new.booked }
        ensures rest { self.new ≡ record self.old { booked = self.new.booked } }
        ensures off { R.KEEPS ≡ false → IsNotMemory result }
    {
        self.booked.has_room()?;
        match self.booked.look(rt, seat, id) {
            Look::Waits => {
                self.booked.list(seat, id);
                Ok(())
            }
            Look::Lacks(refused) => {
                self.booked.list(seat, id);
                Err(HubFault::Memory(refused))
            }
            Look::Spent(answer) => answer,
        }
    }

    /// Looks at the released stream at a place. It is released no more where its half is spent.
    #[tactic(auto, using(crate::proofs::Released::looks_among, crate::proofs::Released::leaves_none, crate::proofs::Released::leaves_one, crate::proofs::Released::wait_on, crate::proofs::Released::wait_gone))]
    fn purge_at<W: Wait>(
        &mut self,
        rt: &W,
        seat: &mut Seat<R>,
        place: usize,
    ) -> Result<(), RefusedAllocation>
        requires { place < length self.old.booked.released }
        ensures booked { Books R.KEEPS seat.old seat.new (LooksAmong self.old.booked.released seat.old.number) }
        ensures wait { IfOk result (λ _. WaitFrom self.old.booked.session self.old.booked.released (place + 1) → WaitFrom self.new.booked.session self.new.booked.released place) }
        ensures left { LeavesSome self.old.booked.released self.new.booked.released self.old.booked self.new.booked }
        ensures within { place ≤ length self.new.booked.released }
        ensures rest { self.new ≡ record self.old { booked = self.new.booked } }
        ensures off { R.KEEPS ≡ false → IsOk result }
    {
        let id = self.booked.released_at(place);
        match self.booked.look(rt, seat, id) {
            Look::Waits => Ok(()),
            Look::Lacks(refused) => Err(refused),
            Look::Spent(answer) => {
                self.booked.unlist(place);
                unless_lacking(answer)
            }
        }
    }

    /// Looks at all released streams, each once and at no other, so that each that is left waits. Without memory for an entry those
    /// that are left are looked at by the next call.
    #[tactic(auto, using(crate::proofs::Released::among_none, crate::proofs::Released::among_more, crate::proofs::Released::some_none, crate::proofs::Released::some_more))]
    pub(crate) fn purge<W: Wait>(
        &mut self,
        rt: &W,
        seat: &mut Seat<R>,
    ) -> Result<Purged, RefusedAllocation>
        ensures booked { Books R.KEEPS seat.old seat.new (PurgesAmong self.old.booked.released seat.old.number) }
        ensures wait { IfOk result (λ _. AllWait self.new.booked.session self.new.booked.released) }
        ensures left { LeavesSome self.old.booked.released self.new.booked.released self.old.booked self.new.booked }
        ensures rest { self.new ≡ record self.old { booked = self.new.booked } }
        ensures off { R.KEEPS ≡ false → IsOk result }
    {
        // From the last place on, so that who comes into the place of another was looked at.
        let count = self.booked.released_count();
        for done in 0..count {
            self.purge_at(rt, seat, count - 1 - done)?;
        }
        Ok(Purged::of(self))
    }
}

/// The lack of memory for an entry, if that is the answer: any other refusal stands in the entry.
fn unless_lacking(answer: Result<(), HubFault>) -> Result<(), RefusedAllocation>
    ensures lacks { OnErr result (answer ≡ Err (HubFault.Memory evidence)) }
    ensures spares { IsNotMemory answer → IsOk result }
{
    match answer {
        Err(HubFault::Memory(refused)) => Err(refused),
        _ => Ok(()),
    }
}

impl<R: Recorder> Hub<R> {
    /// Releases a stream, whose reading half stays unspent until nothing more can come, and shows the whole history to its
    /// seat and to another.
    #[tactic(auto, using(crate::proofs::Shown::grown, crate::proofs::Shown::booked_shown, crate::proofs::Released::is_dropped))]
    pub(crate) fn release<W: Wait>(
        &self,
        rt: &W,
        seat: &mut Seat<R>,
        id: u32,
        other: &mut Seat<R>,
    ) -> Result<(), HubFault>
        requires may { R.WITNESSED ≡ true → MayRead seat.old.right id }
        ensures booked { BooksShown R.KEEPS seat.old seat.new (Releases id seat.old.number result) }
        ensures dropped { IfOk result (λ _. IsDropped R.KEEPS R.WITNESSED R.role R.config id seat.old seat.new) }
        ensures other { IsShown other.old other.new }
        ensures same { other.new.seen ≡ seat.new.seen }
        ensures off { R.KEEPS ≡ false → IsNotMemory result }
    {
        let mut shared = take_lock(rt, &self.shared);
        let was_due = shared.booked.due();
        let released = shared.release(rt, seat, id);
        shared.booked.show(seat);
        shared.booked.show(other);
        self.unlock(shared, was_due);
        released
    }

    /// Looks at the streams that were released: reads what came of each and drops it, and gives it up once nothing more can
    /// come. It waits for nothing but the lock. The caller of `feed` calls it after each of them, with a seat of its own;
    /// a read pump calls `feed_and_purge`.
    ///
    /// The evidence says that each stream that is still released waited then. Without memory for an entry it answers
    /// `RefusedAllocation`: the streams that are left are looked at by the next call.
    #[tactic(auto, using(crate::proofs::Released::purges_among))]
    pub fn purge<W: Wait>(&self, rt: &W, seat: &mut Seat<R>) -> Result<Purged, RefusedAllocation>
        // Its entries stand in the list of its seat: a stream is given up only where nothing more could come.
        ensures booked { Books R.KEEPS seat.old seat.new (Purges seat.old.number) }
        // Where no entries are kept, it is not refused for lack of memory.
        ensures off { R.KEEPS ≡ false → IsOk result }
    {
        let mut shared = take_lock(rt, &self.shared);
        let was_due = shared.booked.due();
        let purged = shared.purge(rt, seat);
        self.unlock(shared, was_due);
        purged
    }
}
