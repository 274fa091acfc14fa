//! The record of a stream.

ghost use Rattle.std.specs.Prelude.{◌≡◌, ◌+◌, ◌<◌, ◌≤◌, ◌++◌, ℕ, true, false, length, take, drop, min, is_some, Some, IsOk, IfOk, OnErr};
ghost use Rattle.ymx_machine.specs.shared.Limits.{first_credit, greatest_number, widest_window};
ghost use Rattle.ymx_header.specs.Headers.{spelling};
ghost use Rattle.ymx_machine.specs.shared.Phases.{takes, is_offered, is_lingering};
ghost use Rattle.ymx_machine.specs.shared.Phases.Phase.{Live as LivePhase, Offered as OfferedPhase};
ghost use Rattle.ymx_model.specs.session.Records.{new_end, dead_writer, dead_reader, only_due, writer_send, takes_payload, end_write, end_read, end_finish, end_accept, end_reset, end_forget, receive_data, receive_piece, receive_credit, receive_fin, receive_head, receive_rst};
ghost use Rattle.ymx_model.specs.session.FramesDue.{is_due, credit_due, next_kind, begin_frame, spelled, frame};

use crate::directions::{Receiving, Sending};
use crate::frame::{data, put_header, window_update};
use crate::{DeadHalf, FIRST_CREDIT, FrameKind, RecvHalf, SendHalf};
use std::alloc::Global;
use std::marker::Model;
use std::mem;
use ymx_credit::is_half_owed;
use ymx_header::{FLAG_ACK, FLAG_FIN, FLAG_RST, FLAG_SYN, HEADER_LENGTH, Header};
use ymx_memory::RefusedAllocation;
use ymx_ring::Pool;

/// How far a stream has come at this end.
#[derive(Clone, Copy, PartialEq, Eq)]
pub enum Stage {
    /// The peer opened it, and nobody has accepted it yet.
    Offered,
    /// It was opened here, or accepted.
    Live,
    /// It was reset, here or by the peer.
    Reset,
    /// It was given up, and stays until what it still has to send went out.
    Lingering,
}

impl Stage {
    ghost use Rattle.ymx_half.specs.Stages.{phase_of};

    /// Whether the stream takes what comes.
    fn takes(self) -> bool
        ensures { result ≡ takes (phase_of self) }
    {
        matches!(self, Stage::Offered | Stage::Live)
    }
}

/// What is due of a stream besides credit, data and end, and whether it is acknowledged (flags).
#[derive(Clone, Copy)]
struct Marks {
    /// The frame that opens the stream.
    syn: bool,
    /// It is Data.
    with_data: bool,
    /// The frame that accepts the stream.
    ack: bool,
    /// The frame that resets the stream.
    rst: bool,
    /// A credit frame of all that is owed, however little.
    credit_at_once: bool,
    /// The peer has acknowledged the stream.
    acked: bool,
}

impl Marks {
    ghost use Rattle.ymx_half.specs.Ends.{marks_of};

    /// Only these are due, whatever was.
    fn only(self, syn: bool, rst: bool) -> Marks
        ensures { marks_of result ≡ only_due syn rst (marks_of self) }
    {
        Marks {
            syn,
            with_data: syn && self.with_data,
            ack: false,
            rst,
            credit_at_once: false,
            acked: self.acked,
        }
    }
}

/// One end of a stream: how far it has come, its two halves, and what is due of it. A contract sees the
/// record of these, and each method's contract is one function on it.
///
/// ```text
///                  opened         offered
///                     |              |
///                     v              v
///                 +------+ accept +---------+
///                 | Live |<-------| Offered |--- RST --> the record goes
///                 +------+        +---------+
///                  |   |             |   |
///                  |   | reset       |   |
///           forget |   | RST   reset |   | forget
///                  |   v             v   |
///                  |  +---------------+  |
///                  |  |     Reset     |  |
///                  |  +---------------+  |
///                  |          |          |
///                  |          | forget   |
///                  v          v          v
///               +---------------------------+
///               |         Lingering         |--- nothing is due --> the record goes
///               +---------------------------+
///
///   sending:     Open --- finish --> Done ---+--- reset, RST or forget --> Dead
///                  +-------------------------+
///
///   receiving:   Open ---- FIN ---> Ended ---+--- reset, RST or forget --> Dead
///                  +-------------------------+
/// ```
///
/// A stream that was finished here, and whose peer has ended, keeps its halves when it is forgotten: its
/// unsent bytes and its FIN still go out. Only in a lost session nothing does. An offered stream can be
/// reset and forgotten too, but a session refuses both calls until it is accepted (`NoStream`).
///
/// The session's window isn't kept here: the methods that need it take it, in bytes.
#[derive(Drop)]
pub struct StreamRec {
    stage: Stage,
    writer: Sending,
    reader: Receiving,
    marks: Marks,
}

impl Model for StreamRec {
    ghost use Rattle.ymx_model.specs.session.Records.{End};

    ghost Value = { End };

    ghost use Rattle.ymx_half.specs.Ends.{end_of, HasHalves};

    ghost view = { λ stream. end_of stream.stage stream.writer stream.reader stream.marks };

    ghost invariant = { λ stream. HasHalves stream.stage stream.writer stream.reader };
}

impl StreamRec {
    ghost use Rattle.ymx_half.specs.Stages.{phase_of};
    ghost use Rattle.ymx_half.specs.Frames.{frame_payload};
    ghost use Rattle.ymx_half.specs.Passing.{MayPass, passed};
    ghost use Rattle.ymx_half.specs.Through.{MaySend, sent};

    /// Makes the record of a stream that is opened here, with memory for 262,144 unsent bytes and for
    /// all of the window, in bytes. A SYN is due, which carries data if `with_data`. Without the memory it
    /// answers `RefusedAllocation`.
    ///
    /// Example: at a session of 1,048,576 bytes the peer may send 262,144 at first, and hears of the
    /// other 786,432 by the SYN. A SYN that carries data announces nothing, so a credit frame of 786,432
    /// is due next.
    pub fn opened(
        alloc: Global,
        pool: &mut Pool,
        window: u32,
        with_data: bool,
    ) -> Result<StreamRec, RefusedAllocation>
        requires narrowest { first_credit ≤ window }
        requires widest { window ≤ widest_window }
        ensures { IfOk result (λ stream. stream ≡ new_end window LivePhase true with_data) }
    {
        let writer = Sending::Open(SendHalf::new(alloc, pool)?);
        let reader = Receiving::Open(RecvHalf::new(alloc, pool, window)?);
        let marks = Marks {
            syn: true,
            with_data,
            ack: false,
            rst: false,
            credit_at_once: with_data && FIRST_CREDIT < window,
            acked: false,
        };
        Ok(StreamRec {
            stage: Stage::Live,
            writer,
            reader,
            marks,
        })
    }

    /// Makes the record of a stream that the peer opened, with memory as for `opened`. Nothing is due of
    /// it yet. Before it is accepted no ACK and no credit is; bytes that are written, an end and a reset
    /// are due at once. Without the memory it answers `RefusedAllocation`.
    pub fn offered(
        alloc: Global,
        pool: &mut Pool,
        window: u32,
    ) -> Result<StreamRec, RefusedAllocation>
        requires narrowest { first_credit ≤ window }
        requires widest { window ≤ widest_window }
        ensures { IfOk result (λ stream. stream ≡ new_end window OfferedPhase false false) }
    {
        let writer = Sending::Open(SendHalf::new(alloc, pool)?);
        let reader = Receiving::Open(RecvHalf::new(alloc, pool, window)?);
        let marks = Marks {
            syn: false,
            with_data: false,
            ack: false,
            rst: false,
            credit_at_once: false,
            acked: false,
        };
        Ok(StreamRec {
            stage: Stage::Offered,
            writer,
            reader,
            marks,
        })
    }

    // ---- queries

    /// How far the stream has come.
    pub fn stage(&self) -> Stage
        ensures { phase_of result ≡ self.now.phase }
    {
        self.stage
    }

    /// Whether it was finished here, so that nothing more is written.
    pub fn is_finished(&self) -> bool
        ensures { result ≡ self.now.writer.finished }
    {
        self.writer.is_finished()
    }

    /// How many bytes may still be written.
    pub fn credit(&self) -> u32
        ensures { result ≡ self.now.writer.credit }
    {
        self.writer.credit()
    }

    /// How many bytes were written and belong to no frame yet.
    pub fn unsent_len(&self) -> usize
        ensures { result ≡ length self.now.writer.unsent }
    {
        self.writer.unsent_len()
    }

    /// Whether the peer's end has arrived.
    pub fn has_ended(&self) -> bool
        ensures { result ≡ self.now.reader.ended }
    {
        self.reader.has_ended()
    }

    /// How many bytes wait to be read.
    pub fn unread_len(&self) -> usize
        ensures { result ≡ length self.now.reader.unread }
    {
        self.reader.unread_len()
    }

    /// The unread bytes, as they lie in the stream's ring: those up to the end of its block, and those that wrap round it.
    /// None is taken out.
    pub fn unread(&self) -> (&[u8], &[u8])
        ensures all { result.0.now ++ result.1.now ≡ self.now.reader.unread }
    {
        self.reader.unread()
    }

    /// How many bytes the peer may still send.
    pub fn granted(&self) -> u32
        ensures { result ≡ self.now.reader.granted }
    {
        self.reader.granted()
    }

    /// Whether the peer has acknowledged the stream.
    pub fn is_acknowledged(&self) -> bool
        ensures { result ≡ self.now.marks.acked }
    {
        self.marks.acked
    }

    /// Whether payload that comes is used: the stream is neither reset nor given up, and the peer's end
    /// has not arrived.
    pub fn takes_payload(&self) -> bool
        ensures { result ≡ takes_payload self.now }
    {
        self.stage.takes() && !self.reader.has_ended()
    }

    /// Whether any frame is due, at a session of this window.
    pub fn is_due(&self, window: u32) -> bool
        ensures { result ≡ is_due window self.now }
    {
        self.marks.syn
            || self.marks.ack
            || self.marks.rst
            || self.credit_due(window)
            || self.writer.has_unsent()
            || self.writer.is_fin_due()
    }

    /// Whether a credit frame is due: the end has not arrived, and at least half the window is owed, or
    /// what a SYN with data could not announce.
    fn credit_due(&self, window: u32) -> bool
        ensures { result ≡ credit_due window self.now }
    {
        self.stage == Stage::Live
            && !self.reader.has_ended()
            && (self.marks.credit_at_once || is_half_owed(window, self.reader.owed()))
    }

    // ---- calls

    /// Takes the first bytes that the credit allows, and returns their number. A stream that was reset
    /// has no credit.
    ///
    /// Takes memory only where more than 262,144 bytes would be unsent, which needs a peer that granted
    /// more. Without that memory it answers `RefusedAllocation`, and nothing has changed.
    ///
    /// Example: of 300,000 bytes a new stream takes 262,144, and then none, until the peer grants more.
    pub fn write(&mut self, pool: &mut Pool, bytes: &[u8]) -> Result<usize, RefusedAllocation>
        requires { self.old.writer.finished ≡ false }
        ensures took_min { IfOk result (λ count. count ≡ min (length bytes.now) self.old.writer.credit) }
        ensures wrote { IfOk result (λ count. self.new ≡ end_write (take count bytes.now) self.old) }
        ensures in_room { length self.old.writer.unsent + min (length bytes.now) self.old.writer.credit ≤ first_credit → IsOk result }
        ensures refused_unchanged { OnErr result (self.new ≡ self.old) }
    {
        self.writer.write(pool, bytes)
    }

    /// Moves the first unread bytes into `buffer`, as many as are there and fit, and returns their
    /// number. They are owed to the peer from then on. The rest of `buffer` stays as it was.
    ///
    /// Example: of a window of 262,144 bytes the first 131,071 that are read make no credit due, and one
    /// byte more does.
    pub fn read(&mut self, pool: &mut Pool, buffer: &mut [u8]) -> usize
        ensures count { result ≡ min (length buffer.old) (length self.old.reader.unread) }
        ensures gave { buffer.new ≡ take result self.old.reader.unread ++ drop result buffer.old }
        ensures after { self.new ≡ end_read result self.old }
    {
        self.reader.read(pool, buffer)
    }

    /// Drops the first `count` unread bytes, or as many as are there, as a read of them would take them out, and
    /// returns their number. The caller has seen them by `unread`.
    pub fn consume(&mut self, pool: &mut Pool, count: usize) -> usize
        ensures count { result ≡ min count (length self.old.reader.unread) }
        ensures after { self.new ≡ end_read result self.old }
    {
        self.reader.consume(pool, count)
    }

    /// Nothing more is written (half-close): the unsent bytes go out, and then the end.
    pub fn finish(&mut self)
        requires { takes self.old.phase ≡ true }
        ensures { self.new ≡ end_finish self.old }
    {
        self.writer.finish();
    }

    /// An offered stream is accepted. An ACK is due, unless the session is lost.
    pub fn accept(&mut self, lost: bool)
        requires { is_offered self.old.phase ≡ true }
        ensures { self.new ≡ end_accept lost self.old }
    {
        self.stage = Stage::Live;
        self.marks.ack = !lost;
    }

    /// Both directions of a stream that was neither reset nor given up are over (flags): what is unread
    /// and unsent is dropped, and `pool` has its memory. An RST is due, after a SYN that hasn't gone out, and nothing
    /// else. The stream is then at `stage`, which is `Reset` or `Lingering`.
    pub fn reset(&mut self, pool: &mut Pool, stage: Stage)
        requires up { takes self.old.phase ≡ true }
        requires over { takes (phase_of stage) ≡ false }
        ensures { self.new ≡ end_reset (phase_of stage) self.old }
    {
        self.drop_halves(pool, stage);
        self.marks = self.marks.only(self.marks.syn, true);
    }

    /// The stream is given up, which it wasn't before, and is `Lingering` from then on.
    ///
    /// In a lost session nothing is sent any more. A stream that was reset stays so. One that was finished
    /// here, and whose peer has ended, drops what is unread, and still sends its bytes and its FIN. Any
    /// other is reset.
    pub fn forget(&mut self, pool: &mut Pool, lost: bool)
        requires { is_lingering self.old.phase ≡ false }
        ensures { self.new ≡ end_forget lost self.old }
    {
        if lost {
            self.drop_halves(pool, Stage::Lingering);
            self.marks = self.marks.only(false, false);
            return;
        }
        if self.stage != Stage::Reset {
            if self.writer.is_finished() && self.reader.has_ended() {
                self.reader.empty(pool);
            } else {
                self.reset(pool, Stage::Lingering);
            }
        }
        self.stage = Stage::Lingering;
    }

    /// Both halves are over.
    fn drop_halves(&mut self, pool: &mut Pool, stage: Stage)
        requires { takes (phase_of stage) ≡ false }
        ensures { self.new ≡ record self.old { phase = phase_of stage; writer = dead_writer; reader = dead_reader } }
    {
        mem::replace(&mut self.writer, Sending::Dead(DeadHalf)).reset(pool);
        mem::replace(&mut self.reader, Receiving::Dead(DeadHalf)).reset(pool);
        self.stage = stage;
    }

    /// Gives memory back: the blocks of its rings of which more is in use than their bytes need, and unsent bytes' block
    /// that grew, for fresh ones. The stream stays as it was. True where it gave one back; for lack of memory it keeps
    /// what it has.
    pub fn shrink(&mut self) -> bool
        ensures { self.new ≡ self.old }
    {
        let sending = self.writer.shrink();
        let receiving = self.reader.shrink();
        sending || receiving
    }

    /// The record goes: the blocks of its rings are kept for the next stream.
    pub fn end(self, pool: &mut Pool) {
        let StreamRec { writer, reader, .. } = self;
        writer.reset(pool);
        reader.reset(pool);
    }

    // ---- frames that come

    /// A piece of a payload comes, and after it the peer's end if `fin` (flow control). A stream that takes
    /// payload has room for all that it granted, and may be sent so much less from then on. Any other stream
    /// drops the piece and the end.
    ///
    /// Example: a new stream takes 262,144 bytes, and then none, until it has announced more.
    pub fn receive_piece(&mut self, pool: &mut Pool, fin: bool, bytes: &[u8])
        requires { takes_payload self.old ≡ true → length bytes.now ≤ self.old.reader.granted }
        ensures { self.new ≡ receive_piece fin bytes.now self.old }
    {
        self.receive_data(pool, bytes);
        if fin {
            self.receive_fin();
        }
    }

    /// A piece of a payload comes, and after it the peer's end if `fin`, and is read at once: `receive_piece` of these
    /// bytes, and then a read of as many (flow control). None of them is put among the unread bytes, of which there
    /// are none.
    ///
    /// Example: of a window of 262,144 bytes the first 131,071 that are passed make no credit due, and one byte more
    /// does.
    pub fn pass(&mut self, fin: bool, bytes: &[u8])
        requires { MayPass bytes.now self.old }
        ensures { self.new ≡ passed fin bytes.now self.old }
    {
        self.reader.pass(bytes);
        if fin {
            self.receive_fin();
        }
    }

    /// The head of a frame without RST comes (flags, flow control): the peer acknowledges the stream if
    /// `acknowledges`, `delta` bytes more may be written, and the peer's end comes if `ends`.
    ///
    /// A stream that was reset or given up drops the delta and the end, and one whose end came before drops
    /// the end. The credit with the delta is at most 4,294,967,295 bytes: above that the session broke (B6).
    pub fn receive_head(&mut self, acknowledges: bool, delta: u32, ends: bool)
        requires { takes self.old.phase ≡ true → self.old.writer.credit + delta ≤ greatest_number }
        ensures { self.new ≡ receive_head acknowledges delta ends self.old }
    {
        if acknowledges {
            self.marks.acked = true;
        }
        self.receive_credit(delta);
        if ends {
            self.receive_fin();
        }
    }

    /// The peer has reset the stream (flags): what is unread and unsent is dropped, and `pool` has its memory;
    /// nothing is due any more. The record of an offered stream goes instead.
    pub fn receive_rst(&mut self, pool: &mut Pool)
        requires { is_offered self.old.phase ≡ false }
        ensures { self.new ≡ receive_rst self.old }
    {
        let stage = match self.stage {
            Stage::Lingering => Stage::Lingering,
            _ => Stage::Reset,
        };
        self.drop_halves(pool, stage);
        self.marks = self.marks.only(false, false);
    }

    /// Payload comes, which a stream that doesn't take it drops.
    fn receive_data(&mut self, pool: &mut Pool, bytes: &[u8])
        requires { takes_payload self.old ≡ true → length bytes.now ≤ self.old.reader.granted }
        ensures { self.new ≡ receive_data bytes.now self.old }
    {
        if self.takes_payload() {
            self.reader.arrive(pool, bytes);
        }
    }

    /// `delta` bytes more may be written, unless the stream was reset or given up.
    fn receive_credit(&mut self, delta: u32)
        requires { takes self.old.phase ≡ true → self.old.writer.credit + delta ≤ greatest_number }
        ensures { self.new ≡ receive_credit delta self.old }
    {
        if self.stage.takes() {
            self.writer.grant(delta);
        }
    }

    /// The peer's end comes (half-close). A stream that takes payload has ended, and returns no credit
    /// from then on.
    fn receive_fin(&mut self)
        ensures { self.new ≡ receive_fin self.old }
    {
        if self.takes_payload() {
            self.reader.end();
            self.marks.credit_at_once = false;
        }
    }

    // ---- frames that go

    /// The frame that goes next, at a session of this window: of those that are due the first in the order
    /// open, accept, reset, credit, data, end. `None` exactly if none is due.
    ///
    /// Example: credit is due of a stream of 262,144 bytes once 131,072 are owed, and not once its end
    /// has arrived.
    pub fn next_frame(&self, window: u32) -> Option<FrameKind>
        ensures next { result ≡ next_kind window self.now }
        ensures due { is_some result ≡ is_due window self.now }
    {
        if self.marks.syn {
            Some(if self.marks.with_data {
                FrameKind::OpenWith
            } else {
                FrameKind::Open
            })
        } else if self.marks.ack {
            Some(FrameKind::Accept)
        } else if self.marks.rst {
            Some(FrameKind::Reset)
        } else if self.credit_due(window) {
            Some(FrameKind::Credit)
        } else if self.writer.has_unsent() {
            Some(FrameKind::Data)
        } else if self.writer.is_fin_due() {
            Some(FrameKind::Fin)
        } else {
            None
        }
    }

    /// How many bytes such a frame of this stream has, header and payload, where Data carries at most
    /// `limit` bytes of payload.
    ///
    /// Example: with 20,000 bytes unsent and a limit of 16,384, Data has 16,396 bytes, and the one after
    /// it 3,628.
    pub fn frame_len(&self, kind: FrameKind, limit: u32) -> usize
        ensures { (window id : ℕ) → length (spelled kind window limit id self.now) ≡ result }
    {
        HEADER_LENGTH + self.payload_len(kind, limit) as usize
    }

    /// Begins the frame that goes next: writes all of it to the front of `buffer`, which has room for it,
    /// and returns how many bytes it has (framing). The rest of `buffer` stays as it was.
    ///
    /// `id` is the stream's, `window` the session's, and `limit` as in `frame_len`. The payload moves from
    /// the unsent bytes straight into `buffer`. A window or a credit that the frame announces is granted
    /// from now on.
    pub fn begin_frame(
        &mut self,
        pool: &mut Pool,
        kind: FrameKind,
        window: u32,
        limit: u32,
        id: u32,
        buffer: &mut [u8],
    ) -> usize
        requires next { next_kind window self.old ≡ Some kind }
        requires fits { length (spelled kind window limit id self.old) ≤ length buffer.old }
        ensures count { result ≡ length (spelled kind window limit id self.old) }
        ensures written { buffer.new ≡ spelled kind window limit id self.old ++ drop result buffer.old }
        ensures goes { self.new ≡ begin_frame window limit kind self.old }
    {
        let header = self.header(kind, window, limit, id);
        let count = self.payload_len(kind, limit) as usize;
        put_header(&header, buffer);
        self.mark_begun(kind, window);
        self.put_payload(pool, count, buffer);
        HEADER_LENGTH + count
    }

    /// Writes these bytes, and begins the frame of Data that carries them, and nothing else: it goes to the front of
    /// `buffer`, which has room for it, and its number of bytes is returned (framing). None of the bytes is put among
    /// the unsent ones, of which there are none. The rest of `buffer` stays as it was. `id` is the stream's.
    ///
    /// Example: of a credit of 262,144 bytes, 5 bytes leave 262,139, and the frame has 17.
    pub fn write_through(&mut self, id: u32, bytes: &[u8], buffer: &mut [u8]) -> usize
        requires may { MaySend bytes.now self.old }
        requires fits { 12 + length bytes.now ≤ length buffer.old }
        ensures count { result ≡ 12 + length bytes.now }
        ensures written { buffer.new ≡ frame 0 0 id (length bytes.now) bytes.now ++ drop result buffer.old }
        ensures after { self.new ≡ sent bytes.now self.old }
    {
        let count = bytes.len();
        put_header(&data(0, id, count as u32), buffer);
        buffer[HEADER_LENGTH..HEADER_LENGTH + count].copy_from_slice(bytes);
        self.writer.spend(count as u32);
        HEADER_LENGTH + count
    }

    /// How many bytes the payload of such a frame has.
    fn payload_len(&self, kind: FrameKind, limit: u32) -> u32
        ensures { result ≡ length (frame_payload kind limit self.now) }
    {
        match kind {
            FrameKind::OpenWith | FrameKind::Data => self
                .writer
                .unsent_len()
                .min(limit as usize) as u32,
            _ => 0,
        }
    }

    /// The header of such a frame (framing).
    fn header(&self, kind: FrameKind, window: u32, limit: u32, id: u32) -> Header
        ensures { spelled kind window limit id self.now ≡ spelling result ++ frame_payload kind limit self.now }
    {
        let delta = window.saturating_sub(FIRST_CREDIT);
        let count = self.payload_len(kind, limit);
        match kind {
            FrameKind::Open => window_update(FLAG_SYN, id, delta),
            FrameKind::OpenWith => data(FLAG_SYN, id, count),
            FrameKind::Accept => window_update(FLAG_ACK, id, delta),
            FrameKind::Reset => window_update(FLAG_RST, id, 0),
            FrameKind::Credit => window_update(0, id, self.reader.owed()),
            FrameKind::Data => data(0, id, count),
            FrameKind::Fin => window_update(FLAG_FIN, id, 0),
        }
    }

    /// What a frame changes but for its payload.
    fn mark_begun(&mut self, kind: FrameKind, window: u32)
        requires { next_kind window self.old ≡ Some kind }
        ensures { self.new ≡ begin_frame window 0 kind self.old }
    {
        match kind {
            FrameKind::Open => {
                self.reader.announce(window.saturating_sub(FIRST_CREDIT));
                self.marks.syn = false;
            }
            FrameKind::OpenWith => {
                self.marks.syn = false;
                self.marks.with_data = false;
            }
            FrameKind::Accept => {
                self.reader.announce(window.saturating_sub(FIRST_CREDIT));
                self.marks.ack = false;
            }
            FrameKind::Reset => self.marks.rst = false,
            FrameKind::Credit => {
                self.reader.announce(self.reader.owed());
                self.marks.credit_at_once = false;
            }
            FrameKind::Data => {}
            FrameKind::Fin => self.writer.begin_fin(),
        }
    }

    /// Moves the next `count` unsent bytes to the place after a header.
    fn put_payload(&mut self, pool: &mut Pool, count: usize, buffer: &mut [u8])
        requires there { count ≤ length self.old.writer.unsent }
        requires fits { 12 + count ≤ length buffer.old }
        ensures written { buffer.new ≡ take 12 buffer.old ++ take count self.old.writer.unsent ++ drop (12 + count) buffer.old }
        ensures goes { self.new ≡ record self.old { writer = writer_send count self.old.writer } }
    {
        self.writer
            .take(pool, &mut buffer[HEADER_LENGTH..HEADER_LENGTH + count]);
    }
}
