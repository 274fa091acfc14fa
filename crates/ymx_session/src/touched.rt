//! Which streams what came has changed.

ghost use Rattle.std.specs.Prelude.{◌≡◌, ◌+◌, ◌≤◌, [], length, nat_eq, true, false, IfOk};
ghost use Rattle.std.specs.List.{IsDistinct};
ghost use Rattle.indexmap.specs.IndexSet.{index_set_len, spare};
ghost use Rattle.ymx_machine.specs.shared.Limits.{most_records};
ghost use Rattle.ymx_session.specs.Touched.{nothing_noted, note, note_head};

use indexmap::IndexSet;
use std::alloc::Global;
use std::marker::Model;
use ymx_header::{Header, MOST_RECORDS, TYPE_GO_AWAY, TYPE_PING};
use ymx_memory::RefusedAllocation;

/// How many ids are taken out one by one. The index of a set holds up to 12 in a group, and a group that was once too
/// full stays marked, and later searches go on after it, until the whole index is cleared. So few mark none.
const FEW: usize = 12;

/// The streams that what came has touched, each once, in the order in which they were first touched, and whether
/// an answer to a ping came. The caller owns it and lends it to each `feed_touching`, which adds to it.
///
/// A frame touches its stream by its header, unless the header is bad, and by each piece of its payload that a
/// record takes. So a caller that waits for a stream that isn't among them waits on: its record is as it was.
///
/// It holds 1,024 ids at most. Where more streams are touched before a `clear`, it says `is_all`: any may have
/// changed. Memory is taken by `new` alone.
#[derive(Drop)]
pub struct Touched {
    ids: IndexSet<u32>,
    /// The id that was touched last. Pieces of one payload then cost no look-up each.
    last: Option<u32>,
    all: bool,
    ponged: bool,
    blind: bool,
}

impl Model for Touched {
    ghost use Rattle.std.specs.Prelude.{◌+◌};
    ghost use Rattle.indexmap.specs.IndexSet.{index_set_len, spare};
    ghost use Rattle.ymx_session.specs.Touched.{Noted, KeepsIds};

    ghost Value = { Noted };

    ghost view = { λ t. record { ids = t.ids.keys; all = t.all; ponged = t.ponged; blind = t.blind } };

    ghost invariant = { λ t. KeepsIds t.ids.keys (index_set_len t.ids + spare t.ids) t.last t.all t.ponged t.blind };
}

impl Touched {
    /// Nothing was touched. Takes memory for 1,024 ids; without it it answers `RefusedAllocation`.
    pub fn new(alloc: Global) -> Result<Touched, RefusedAllocation>
        ensures { IfOk result (λ touched. touched ≡ nothing_noted false) }
    {
        let ids = ymx_memory::set_with_capacity(alloc, MOST_RECORDS)?;
        Ok(Touched {
            ids,
            last: None,
            all: false,
            ponged: false,
            blind: false,
        })
    }

    /// One that nobody asks, and that says `is_all`. Takes no memory.
    pub(crate) fn blind(alloc: Global) -> Touched
        ensures { result ≡ nothing_noted true }
    {
        Touched {
            ids: IndexSet::new(alloc),
            last: None,
            all: true,
            ponged: true,
            blind: true,
        }
    }

    /// The ids of the streams that were touched since the last `clear`: each once, the first touched first, and
    /// 1,024 at most.
    pub fn ids(&self) -> &[u32]
        ensures value { result.now ≡ self.now.ids }
        ensures once { IsDistinct nat_eq result.now }
        ensures few { length result.now ≤ most_records }
    {
        self.ids.as_slice()
    }

    /// Whether more than 1,024 streams were touched, so that any may have changed.
    pub fn is_all(&self) -> bool
        ensures { result ≡ self.now.all }
    {
        self.all
    }

    /// Whether an answer to a ping came.
    pub fn has_pong(&self) -> bool
        ensures { result ≡ self.now.ponged }
    {
        self.ponged
    }

    /// Nothing was touched from here on. The memory is kept.
    pub fn clear(&mut self)
        ensures { self.new ≡ nothing_noted self.old.blind }
    {
        forget_ids(&mut self.ids);
        self.last = None;
        self.all = self.blind;
        self.ponged = self.blind;
    }

    /// A stream is touched.
    pub(crate) fn note(&mut self, id: u32)
        ensures { self.new ≡ note id self.old }
    {
        if self.all || self.last == Some(id) {
            return;
        }
        if self.ids.contains(&id) {
            self.last = Some(id);
        } else if self.ids.len() < MOST_RECORDS {
            let _has_room = self.ids.insert(id);
            self.last = Some(id);
        } else {
            self.all = true;
        }
    }

    /// Notes whom a header touches, which by itself has no fault.
    pub(crate) fn note_head(&mut self, header: &Header)
        ensures { self.new ≡ note_head header.now self.old }
    {
        match header.kind {
            TYPE_PING => self.ponged |= !header.has_syn(),
            TYPE_GO_AWAY => {}
            _ => self.note(header.id),
        }
    }
}

/// Takes all ids out, and keeps the memory. The cost is that of the ids that are there: a session is fed up to twice a
/// frame, mostly of one stream, and a set that is cleared writes the 8 KiB of its whole index.
fn forget_ids(ids: &mut IndexSet<u32>)
    ensures none { ids.new.keys ≡ [] }
    ensures once { IsDistinct nat_eq ids.new.keys }
    ensures room { index_set_len ids.old + spare ids.old ≤ spare ids.new }
{
    if ids.len() <= FEW {
        ids.truncate(0);
    } else {
        ids.clear();
    }
}
