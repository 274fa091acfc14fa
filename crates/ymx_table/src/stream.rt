//! What calls and frames do to one stream. Each changes the record under one id, which has to be there,
//! and nothing else.

ghost use Rattle.std.specs.Prelude.{◌≡◌, ◌+◌, ◌≤◌, ◌++◌, length, take, drop, min, true, false, Some, IsSome, IfSome, IsOk, IfOk, OnErr};
ghost use Rattle.std.specs.Option.{ForSome};
ghost use Rattle.ymx_machine.specs.shared.Limits.{first_credit, greatest_number};
ghost use Rattle.ymx_table.specs.Changes.{ChangesRecord, TakesLent, ReturnsLent};
ghost use Rattle.ymx_machine.specs.shared.Phases.{takes, is_offered, is_lingering};
ghost use Rattle.ymx_model.specs.session.Records.{takes_payload, end_write, end_read, end_finish, end_accept, end_reset, end_forget, receive_piece, receive_head, receive_rst};
ghost use Rattle.ymx_machine.specs.shared.Lists.{look};
ghost use Rattle.ymx_model.specs.session.FramesDue.{frame};
ghost use Rattle.ymx_model.specs.session.Tables.{with_record, pass_turn};
ghost use Rattle.ymx_half.specs.Stages.{phase_of};
ghost use Rattle.ymx_half.specs.Passing.{MayPass, passed};
ghost use Rattle.ymx_half.specs.Through.{MaySend, sent};

use crate::Table;
use crate::unsent::retotal;
use ymx_half::{Stage, StreamRec};
use ymx_memory::RefusedAllocation;
use ymx_ring::Pool;

impl Table {
    // ---- calls

    /// Takes the first bytes that the stream's credit allows, and returns their number. The stream was
    /// not finished here.
    ///
    /// Takes memory only where more than 262,144 bytes of the stream would be unsent. Without that memory
    /// it answers `RefusedAllocation`, and nothing has changed.
    pub fn write(&mut self, id: u32, bytes: &[u8]) -> Result<usize, RefusedAllocation>
        requires there { IsSome (look id self.old.entries) }
        requires open { ForSome (look id self.old.entries) (λ e. e.writer.finished ≡ false) }
        ensures took_min { IfOk result (λ count. ForSome (look id self.old.entries) (λ e. count ≡ min (length bytes.now) e.writer.credit)) }
        ensures wrote { IfOk result (λ count. self.new ≡ with_record id (end_write (take count bytes.now)) self.old) }
        ensures in_room { ForSome (look id self.old.entries) (λ e. length e.writer.unsent + min (length bytes.now) e.writer.credit ≤ first_credit → IsOk result) }
        ensures refused_unchanged { OnErr result (self.new ≡ self.old) }
    {
        let place = self.index_of(id);
        self.last = place;
        let stream = &mut self.records[place];
        let before = stream.unsent_len();
        let wrote = stream.write(&mut self.pool, bytes);
        self.unsent = retotal(self.unsent, before, stream.unsent_len());
        let is_due = stream.is_due(self.window);
        self.due.set(place, is_due);
        wrote
    }

    /// Writes these bytes, and begins the frame of Data that carries them: it goes to the front of `buffer`, which has
    /// room for it, and its number of bytes is returned (framing). The stream was not finished here, nothing of it is
    /// unsent, its credit is enough, and they are at most 16,384 bytes. None of them is put among the unsent bytes. The
    /// rest of `buffer` stays as it was. The stream was served: the next turn starts just after it.
    pub fn write_through(&mut self, id: u32, bytes: &[u8], buffer: &mut [u8]) -> usize
        requires there { IsSome (look id self.old.entries) }
        requires may { ForSome (look id self.old.entries) (MaySend bytes.now) }
        requires fits { 12 + length bytes.now ≤ length buffer.old }
        ensures count { result ≡ 12 + length bytes.now }
        ensures written { buffer.new ≡ frame 0 0 id (length bytes.now) bytes.now ++ drop result buffer.old }
        ensures goes { self.new ≡ pass_turn id (with_record id (sent bytes.now) self.old) }
    {
        let place = self.index_of(id);
        let stream = &mut self.records[place];
        let before = stream.unsent_len();
        let count = stream.write_through(id, bytes, buffer);
        self.unsent = retotal(self.unsent, before, stream.unsent_len());
        let is_due = stream.is_due(self.window);
        self.due.set(place, is_due);
        self.turn = place + 1;
        self.last = place;
        count
    }

    /// Moves the stream's first unread bytes into `buffer`, as many as are there and fit, and returns their
    /// number. The rest of `buffer` stays as it was.
    pub fn read(&mut self, id: u32, buffer: &mut [u8]) -> usize
        requires { IsSome (look id self.old.entries) }
        ensures count { ForSome (look id self.old.entries) (λ e. result ≡ min (length buffer.old) (length e.reader.unread)) }
        ensures gave { ForSome (look id self.old.entries) (λ e. buffer.new ≡ take result e.reader.unread ++ drop result buffer.old) }
        ensures after { self.new ≡ with_record id (end_read result) self.old }
    {
        let place = self.index_of(id);
        self.last = place;
        let stream = &mut self.records[place];
        let count = stream.read(&mut self.pool, buffer);
        let is_due = stream.is_due(self.window);
        self.due.set(place, is_due);
        count
    }

    /// Drops the stream's first `count` unread bytes, or as many as are there, as a read of them would take them
    /// out, and returns their number.
    pub fn consume(&mut self, id: u32, count: usize) -> usize
        requires { IsSome (look id self.old.entries) }
        ensures count { ForSome (look id self.old.entries) (λ e. result ≡ min count (length e.reader.unread)) }
        ensures after { self.new ≡ with_record id (end_read result) self.old }
    {
        let place = self.index_of(id);
        self.last = place;
        let stream = &mut self.records[place];
        let taken = stream.consume(&mut self.pool, count);
        let is_due = stream.is_due(self.window);
        self.due.set(place, is_due);
        taken
    }

    /// Nothing more is written to the stream (half-close). It is neither reset nor given up.
    pub fn finish(&mut self, id: u32)
        requires there { IsSome (look id self.old.entries) }
        requires up { ForSome (look id self.old.entries) (λ e. takes e.phase ≡ true) }
        ensures { self.new ≡ with_record id end_finish self.old }
    {
        self.change(id, |stream, _| stream.finish());
    }

    /// An offered stream is accepted. Its ACK is due, unless the session is lost.
    pub fn accept(&mut self, id: u32, lost: bool)
        requires there { IsSome (look id self.old.entries) }
        requires offered { ForSome (look id self.old.entries) (λ e. is_offered e.phase ≡ true) }
        ensures { self.new ≡ with_record id (end_accept lost) self.old }
    {
        self.change(id, |stream, _| stream.accept(lost));
    }

    /// Resets a stream that was neither reset nor given up before (flags). Its unread bytes, and its unsent bytes of no
    /// frame begun, are dropped; an ACK, credit and a FIN that were due are due no more; its RST is due.
    ///
    /// `stage` is where it stands then: `Reset` while its caller still has it, `Lingering` where it is given up.
    pub fn reset(&mut self, id: u32, stage: Stage)
        requires there { IsSome (look id self.old.entries) }
        requires up { ForSome (look id self.old.entries) (λ e. takes e.phase ≡ true) }
        requires over { takes (phase_of stage) ≡ false }
        ensures { self.new ≡ with_record id (end_reset (phase_of stage)) self.old }
    {
        self.change(id, |stream, pool| stream.reset(pool, stage));
    }

    /// The stream is given up, and lingers until what it still has to send went out. In a lost session that
    /// is nothing. It wasn't given up before.
    pub fn forget(&mut self, id: u32, lost: bool)
        requires there { IsSome (look id self.old.entries) }
        requires held { ForSome (look id self.old.entries) (λ e. is_lingering e.phase ≡ false) }
        ensures { self.new ≡ with_record id (end_forget lost) self.old }
    {
        self.change(id, |stream, pool| stream.forget(pool, lost));
    }

    /// Gives memory back that the stream doesn't need: see `StreamRec::shrink`. The table stays as it was. True where it
    /// gave some back; false too where there is no such stream.
    pub fn shrink(&mut self, id: u32) -> bool
        ensures { self.new ≡ self.old }
    {
        self.change(id, |stream, _| stream.shrink())
            .unwrap_or(false)
    }

    /// Gives the memory back that is kept for the streams to come, and what is in use of the blocks with which streams
    /// take turns: they go on taking turns with fresh ones. The table stays as it was. True where it gave some back.
    pub fn shrink_spare(&mut self) -> bool
        ensures { self.new ≡ self.old }
    {
        self.pool.shrink(self.records.len())
    }

    // ---- frames that come

    /// A piece of a payload comes, and after it the peer's end if `fin` (flow control). A stream that takes
    /// payload has granted so many bytes. Where there is no record nothing changes.
    pub fn receive_piece(&mut self, id: u32, fin: bool, bytes: &[u8])
        requires { IfSome (look id self.old.entries) (λ e. takes_payload e ≡ true → length bytes.now ≤ e.reader.granted) }
        ensures { self.new ≡ with_record id (receive_piece fin bytes.now) self.old }
    {
        let Some(place) = self.find(id) else {
            return;
        };
        self.last = place;
        let stream = &mut self.records[place];
        stream.receive_piece(&mut self.pool, fin, bytes);
        let is_due = stream.is_due(self.window);
        self.due.set(place, is_due);
    }

    /// A piece of a payload comes, and after it the peer's end if `fin`, and is read at once: `receive_piece` of these
    /// bytes, and then a read of as many (flow control). The stream takes payload, has granted so many bytes, and
    /// nothing of it is unread. Where there is no record nothing changes.
    pub fn pass(&mut self, id: u32, fin: bool, bytes: &[u8])
        requires { IfSome (look id self.old.entries) (MayPass bytes.now) }
        ensures { self.new ≡ with_record id (passed fin bytes.now) self.old }
    {
        self.change(id, |stream, _| stream.pass(fin, bytes));
    }

    /// The head of a frame without RST comes (flags, flow control): the peer acknowledges the stream if
    /// `acknowledges`, `delta` bytes more may be written, and the peer's end comes if `ends`. The credit with
    /// the delta is at most 4,294,967,295 bytes: above that the session broke (B6). Where there is no record
    /// nothing changes.
    pub fn receive_head(&mut self, id: u32, acknowledges: bool, delta: u32, ends: bool)
        requires { IfSome (look id self.old.entries) (λ e. takes e.phase ≡ true → e.writer.credit + delta ≤ greatest_number) }
        ensures { self.new ≡ with_record id (receive_head acknowledges delta ends) self.old }
    {
        self.change(
            id,
            |stream, _| stream.receive_head(acknowledges, delta, ends),
        );
    }

    /// The peer has reset the stream, which is not one that is only offered: the record of such a one is
    /// removed instead (flags).
    pub fn receive_rst(&mut self, id: u32)
        requires there { IsSome (look id self.old.entries) }
        requires not_offered { ForSome (look id self.old.entries) (λ e. is_offered e.phase ≡ false) }
        ensures { self.new ≡ with_record id receive_rst self.old }
    {
        self.change(id, |stream, pool| stream.receive_rst(pool));
    }

    /// Changes the record under this id, and its flag with it. The closure is lent the blocks of the table too. `None` if
    /// there is no record.
    fn change<R, F: FnOnce(&mut StreamRec, &mut Pool) -> R>(
        &mut self,
        id: u32,
        change: F,
    ) -> Option<R>
        requires { IfSome (look id self.old.entries) (λ e. TakesLent F.FnOnce change e) }
        ensures { ChangesRecord (ReturnsLent F.FnOnce change) id self.old result self.new }
    {
        let place = self.find(id)?;
        self.last = place;
        let stream = &mut self.records[place];
        let before = stream.unsent_len();
        let answer = change(stream, &mut self.pool);
        self.unsent = retotal(self.unsent, before, stream.unsent_len());
        let is_due = stream.is_due(self.window);
        self.due.set(place, is_due);
        Some(answer)
    }
}
