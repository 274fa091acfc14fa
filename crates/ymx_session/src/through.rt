//! Bytes that are written and go out at once.

ghost use Rattle.std.specs.Prelude.{◌≡◌, ◌+◌, ◌++◌, length, take, drop, true, false};
ghost use Rattle.ymx_model.specs.session.FramesDue.{frame};
ghost use Rattle.ymx_model.specs.session.Emissions.{is_ready};
ghost use Rattle.ymx_session.specs.Streams.{room_of};
ghost use Rattle.ymx_session.specs.Through.{goes_through, WritesThrough};

use crate::state::State;
use ymx_header::{DATA_LIMIT, HEADER_LENGTH};

impl State {
    /// Whether so many bytes that are written to a stream go out at once into a buffer of this size.
    pub(crate) fn goes_through(&mut self, id: u32, count: usize, size: usize) -> bool
        ensures goes { result ≡ goes_through id count size self.old }
        ensures same { self.new ≡ self.old }
    {
        self.table.locate(id);
        0 < count
            && count <= DATA_LIMIT as usize
            && HEADER_LENGTH + count <= size
            && count <= self.room(id)
            && !self.is_due()
    }

    /// Writes these bytes, and puts the frame that carries them into `buffer`.
    pub(crate) fn put_through(&mut self, id: u32, bytes: &[u8], buffer: &mut [u8]) -> usize
        requires { goes_through id (length bytes.now) (length buffer.old) self.old ≡ true }
        ensures count { result ≡ 12 + length bytes.now }
        ensures event { WritesThrough id bytes.now (length buffer.old) (take result buffer.new) self.old self.new }
        ensures written { buffer.new ≡ frame 0 0 id (length bytes.now) bytes.now ++ drop result buffer.old }
        ensures quiet { is_ready self.new ≡ false }
        ensures room { room_of id self.new + length bytes.now ≡ room_of id self.old }
    {
        self.outgoing.clear();
        self.table.write_through(id, bytes, buffer)
    }
}
