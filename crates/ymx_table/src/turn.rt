//! Whose turn it is to send: streams with a frame due take turns in the order of the table.

ghost use Rattle.std.specs.Prelude.{◌≡◌, ◌≤◌, ◌++◌, length, drop, true, false, IfSome, IfNone, MatchOption};
ghost use Rattle.std.specs.Option.{ForSome};
ghost use Rattle.ymx_model.specs.session.FramesDue.{begin_frame, spelled};
ghost use Rattle.ymx_machine.specs.shared.Lists.{look};
ghost use Rattle.ymx_model.specs.session.Tables.{with_record, pass_turn, any_due, round};
ghost use Rattle.ymx_model.specs.session.Emissions.{is_first};
ghost use Rattle.ymx_table.specs.Turns.{IsTurn, IsNextFrame};

use crate::Table;
use crate::unsent::retotal;
use ymx_half::FrameKind;

/// A frame of a stream that can go now.
#[derive(Clone, Copy)]
pub struct NextFrame {
    /// The stream's id.
    pub id: u32,
    /// Which of its frames it is.
    pub kind: FrameKind,
    /// How many bytes it has, header and payload.
    pub length: usize,
    /// Where the record of the stream stands, so that nobody searches for it again.
    pub place: usize,
}

impl Table {
    /// The frame that goes next: that of the first stream with one due, going round the order from the place
    /// of the next turn. Data carries at most `limit` bytes of payload. `None` if no stream has a frame due.
    ///
    /// No record but its own is looked at, however many have nothing due.
    ///
    /// Example: of the streams 1, 3 and 5, all with a frame due, 5 is next once 3 was served, and then 1.
    pub fn next_frame(&self, limit: u32) -> Option<NextFrame>
        ensures none { IfNone result (any_due self.now.window self.now.entries ≡ false) }
        ensures turn { IfSome result (λ next. is_first next.id (round self.now) ≡ true) }
        ensures frame { IfSome result (λ next. IsNextFrame limit next self.now) }
    {
        let place = self.next_place()?;
        let (id, stream) = self.records.get_index(place).unwrap();
        let kind = stream.next_frame(self.window).unwrap();
        Some(NextFrame {
            id: *id,
            kind,
            length: stream.frame_len(kind, limit),
            place,
        })
    }

    /// Begins the frame of a stream that goes next of it: writes all of it to the front of `buffer`, which has
    /// room for it, and returns how many bytes it has (framing). Data carries at most `limit` bytes of payload.
    /// The rest of `buffer` stays as it was. The stream was served: the next turn starts just after it.
    pub fn begin_frame(&mut self, next: NextFrame, limit: u32, buffer: &mut [u8]) -> usize
        requires next { IsNextFrame limit next self.old }
        requires fits { next.length ≤ length buffer.old }
        ensures count { result ≡ next.length }
        ensures written { ForSome (look next.id self.old.entries) (λ e. buffer.new ≡ spelled next.kind self.old.window limit next.id e ++ drop result buffer.old) }
        ensures goes { self.new ≡ pass_turn next.id (with_record next.id (begin_frame self.old.window limit next.kind) self.old) }
    {
        let place = self.place_near(next.id, next.place);
        let stream = &mut self.records[place];
        let before = stream.unsent_len();
        let count = stream.begin_frame(
            &mut self.pool,
            next.kind,
            self.window,
            limit,
            next.id,
            buffer,
        );
        self.unsent = retotal(self.unsent, before, stream.unsent_len());
        let is_due = stream.is_due(self.window);
        self.due.set(place, is_due);
        self.turn = place + 1;
        self.last = place;
        count
    }

    /// The place of the stream whose turn it is, or `None` if no stream has a frame due.
    fn next_place(&self) -> Option<usize>
        ensures { MatchOption result (any_due self.now.window self.now.entries ≡ false) (λ at. IsTurn at self.now) }
    {
        match self.due.first_from(self.turn) {
            Some(place) => Some(place),
            None => self.due.first_from(0),
        }
    }
}
