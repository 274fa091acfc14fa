//! A stream of bytes that never waits, as a socket has it. One of the system's records no bytes; one that does shows a
//! contract each of them. A socket is the same code over both, so what is proved of it over any stream holds of that which
//! ships.

ghost use Rattle.std.specs.Prelude.{◌≡◌, ℕ, List, Option};
ghost use Rattle.std.specs.Io.{ReadsAtMost, WritesAtMost};
ghost use Rattle.std.specs.Io.KnownBytes.{ReadConsumes, WriteAppends};
ghost use Rattle.std.specs.Io.Slices.{io_slices_bytes};

use crate::source::Source;
use crate::system::{NoEvents, Poll};
use std::io;
use std::io::IoSlice;
use std::net::SocketAddr;

/// A stream of bytes each way, whose calls never wait. A contract sees the bytes that it has still to give and those that
/// it has taken, where it records them.
pub trait Stream {
    /// What it has still to give.
    ghost left: { Self → Option (List ℕ) };

    /// What it has taken.
    ghost had: { Self → Option (List ℕ) };

    /// From now on this poll reports as this source when it may give bytes or take some. It is registered once.
    fn register(&mut self, poll: &Poll, source: Source) -> Result<(), NoEvents>
        ensures { (left self.new ≡ left self.old) × (had self.new ≡ had self.old) };

    /// Reads once into the front of this buffer, and returns how many bytes. None, and no fault, where no more come.
    fn read(&mut self, buffer: &mut [u8]) -> io::Result<usize>
        ensures bound { ReadsAtMost result buffer.new }
        ensures bytes { ReadConsumes (left self.old) (left self.new) result buffer.new }
        ensures had { had self.new ≡ had self.old };

    /// Writes the first of these bytes once, and returns how many.
    fn write(&mut self, bytes: &[u8]) -> io::Result<usize>
        ensures bound { WritesAtMost result bytes.now }
        ensures bytes { WriteAppends (had self.old) (had self.new) result bytes.now }
        ensures left { left self.new ≡ left self.old };

    /// Writes the first bytes of these pieces once, and returns how many.
    fn write_pieces(&mut self, pieces: &[IoSlice<'_>]) -> io::Result<usize>
        ensures bound { WritesAtMost result (io_slices_bytes pieces.now) }
        ensures bytes { WriteAppends (had self.old) (had self.new) result (io_slices_bytes pieces.now) }
        ensures left { left self.new ≡ left self.old };

    /// Shuts its writing side alone: the other end reads what was written, and then the end.
    fn finish(&mut self)
        ensures { (left self.new ≡ left self.old) × (had self.new ≡ had self.old) };

    /// Shuts it both ways: the other end reads what was written, and then the end.
    fn shut(&mut self)
        ensures { (left self.new ≡ left self.old) × (had self.new ≡ had self.old) };

    /// Aborts it: the other end sees a reset, and no end. What was written may be lost.
    fn abort(&self);

    /// Who is at its other end. None while nobody is.
    fn peer(&self) -> Option<SocketAddr>;

    /// Why it could not be made, if it couldn't and that wasn't logged.
    fn take_fault(&self) -> io::Result<Option<io::Error>>;
}
