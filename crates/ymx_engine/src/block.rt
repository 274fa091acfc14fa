//! Memory for bytes on their way to the peer or from it.

ghost use Rattle.std.specs.Prelude.{ℕ, List, ◌≡◌, ◌≤◌, ◌<◌, ◌+◌, ◌++◌, ◌⊎◌, [], length, take, drop, true, false, IfOk, IsSome};
ghost use Rattle.ymx_memory.specs.Bounds.{most_zeros};
ghost use Rattle.ymx_model.specs.declared.types.Event.TheVariants as event;
ghost use Rattle.ymx_machine.specs.declared.types.Reply.TheVariants as reply;
ghost use Rattle.ymx_model.specs.session.Emissions.{in_turn, is_ready};
ghost use Rattle.ymx_model.specs.session.Feeds.{is_stuck};
ghost use Rattle.ymx_model.specs.session.Histories.{Gives};
ghost use Rattle.ymx_session.specs.Passing.{passing, FeedsSome};
ghost use Rattle.ymx_session.specs.Streams.{room_of};
ghost use Rattle.ymx_session.specs.Through.{WritesThrough};
ghost use Rattle.ymx_session.specs.Touched.{NotesChanges};
ghost use Rattle.ymx_engine.specs.Devices.{IsPulled, one_read, pulled_count};

use crate::buffers::WIRE;
use crate::device::{Device, Pulled};
use std::alloc::Global;
use std::marker::Model;
use ymx_memory::RefusedAllocation;
use ymx_model::Fed;
use ymx_session::{Session, Touched};

/// Memory of which some bytes in a row wait. A contract sees those bytes. Where none waits, all of the memory is room.
#[derive(Drop)]
pub(crate) struct Block {
    memory: Vec<u8>,
    at: usize,
    end: usize,
    /// A device has filled all of the memory at once.
    was_filled: bool,
}

impl Model for Block {
    ghost use Rattle.std.specs.Prelude.{List, ℕ, ◌≡◌, ◌≤◌, take, drop, vec_len};
    ghost use Rattle.ymx_engine.specs.Devices.{one_read};

    ghost Value = { List ℕ };

    ghost view = { λ b. drop b.at (take b.end b.memory.items) };

    ghost invariant = { λ b. (b.at ≤ b.end) × (b.end ≤ vec_len b.memory) × (one_read ≤ vec_len b.memory) × (b.at ≡ b.end → b.end ≡ 0) };
}

impl Block {
    /// So much memory, in bytes, of which none waits: from 131,072 to 1,000,000.
    pub(crate) fn new(alloc: Global, size: usize) -> Result<Block, RefusedAllocation>
        requires some { one_read ≤ size }
        requires at_most { size ≤ most_zeros }
        ensures { IfOk result (λ block. block ≡ []) }
    {
        let memory = ymx_memory::zeros(alloc, size)?;
        Ok(Block {
            memory,
            at: 0,
            end: 0,
            was_filled: false,
        })
    }

    /// The bytes that wait.
    pub(crate) fn waiting(&self) -> &[u8]
        ensures { result.now ≡ self.now }
    {
        &self.memory[self.at..self.end]
    }

    /// The first `count` bytes are gone.
    pub(crate) fn drop_front(&mut self, count: usize)
        requires { count ≤ length self.old }
        ensures { self.new ≡ drop count self.old }
    {
        self.at += count;
        if self.at == self.end {
            self.at = 0;
            self.end = 0;
        }
    }

    /// How many bytes have room after those that wait.
    pub(crate) fn room(&self) -> usize {
        self.memory.len() - self.end
    }

    /// An emission of the session waits after what waits.
    pub(crate) fn emit_behind(&mut self, session: &mut Session)
        ensures emitted { (room : ℕ) × (out : List ℕ) × Gives in_turn session.old (event.Emit room) (reply.Emitted out) session.new × (self.new ≡ self.old ++ out) }
        ensures some { is_ready session.old ≡ true → 0 < length self.new }
    {
        let count = session.emit(&mut self.memory[self.end..]);
        self.end += count;
    }

    /// These bytes are written to a stream, and the frame that carries them waits after what waits, if nothing else is to
    /// go first. Whether it does.
    pub(crate) fn write_through(&mut self, session: &mut Session, id: u32, bytes: &[u8]) -> bool
        ensures went { result ≡ true → (size : ℕ) × (out : List ℕ) × WritesThrough id bytes.now size out session.old session.new × (self.new ≡ self.old ++ out) }
        ensures room { result ≡ true → room_of id session.new + length bytes.now ≡ room_of id session.old }
        ensures stays { result ≡ false → (session.new ≡ session.old) × (self.new ≡ self.old) }
    {
        match session.write_through(id, bytes, &mut self.memory[self.end..]) {
            Some(count) => {
                self.end += count;
                true
            }
            None => false,
        }
    }

    /// What a device gives waits. It is given room for 131,072 bytes at least, and where it fills that, for more from then on.
    pub(crate) fn pull_from<D: Device>(&mut self, device: &mut D) -> Pulled
        requires { self.old ≡ [] }
        ensures { (buffer : List ℕ) × (one_read ≤ length buffer) × IsPulled result buffer (D.seen device.old) (D.seen device.new) × (self.new ≡ take (pulled_count result) buffer) }
    {
        if self.was_filled {
            self.grow();
        }
        let pulled = device.pull(self.memory.as_mut_slice());
        self.at = 0;
        self.end = match pulled {
            Pulled::Gave(count) => count,
            _ => 0,
        };
        self.was_filled = self.end == self.memory.len();
        pulled
    }

    /// Its memory, in which no bytes wait, becomes that of `WIRE` bytes, if it has less and that can be had.
    fn grow(&mut self)
        requires { self.old ≡ [] }
        ensures { self.new ≡ [] }
    {
        if self.memory.len() >= WIRE {
            return;
        }
        if let Ok(memory) = ymx_memory::zeros(*self.memory.allocator(), WIRE) {
            self.memory = memory;
            self.at = 0;
            self.end = 0;
        }
    }

    /// The session is fed the first of the bytes that wait, so many at most, and what it takes waits no more.
    pub(crate) fn feed_some(
        &mut self,
        session: &mut Session,
        count: usize,
        touched: &mut Touched,
    ) -> Fed
        ensures fed { FeedsSome session.old self.old result session.new }
        ensures few { result.taken ≤ count }
        ensures rest { self.new ≡ drop result.taken self.old }
        ensures some { is_stuck session.old ≡ false → 0 < count → 0 < length self.old → 0 < result.taken }
        ensures stops { result.taken < count → result.taken < length self.old → is_stuck session.new ≡ true }
        ensures notes { NotesChanges session.old session.new touched.new }
    {
        let waiting = self.waiting();
        let front = &waiting[..count.min(waiting.len())];
        let fed = session.feed_touching(front, touched);
        self.drop_front(fed.taken);
        fed
    }

    /// The session is fed the first of the bytes that wait, so many at most, up to a payload that may be passed on. What it takes
    /// waits no more.
    pub(crate) fn feed_to_payload(
        &mut self,
        session: &mut Session,
        most: usize,
        touched: &mut Touched,
    ) -> Fed
        ensures fed { FeedsSome session.old self.old result session.new }
        ensures few { result.taken ≤ most }
        ensures rest { self.new ≡ drop result.taken self.old }
        ensures stops { result.taken < most → result.taken < length self.old → (is_stuck session.new ≡ true) ⊎ IsSome (passing session.new) }
        ensures notes { NotesChanges session.old session.new touched.new }
    {
        let waiting = self.waiting();
        let front = &waiting[..most.min(waiting.len())];
        let fed = session.feed_to_payload(front, touched);
        self.drop_front(fed.taken);
        fed
    }
}
