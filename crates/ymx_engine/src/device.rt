//! Devices that never wait.

ghost use Rattle.std.specs.Prelude.{◌≡◌, IfSome};
ghost use Rattle.std.specs.Io.Slices.{io_slices_bytes};
ghost use Rattle.ymx_engine.specs.Devices.{Seen, IsPulled, IsPushed, IsEnded, IsShut, IsNoted, pushed_count};

use std::io::IoSlice;

/// What a call for bytes answered.
#[derive(Clone, Copy)]
pub enum Pulled {
    /// So many bytes came.
    Gave(usize),
    /// None are there yet.
    NotNow,
    /// No more will come.
    Ended,
    /// The device failed.
    Failed,
}

/// What a call with bytes answered.
#[derive(Clone, Copy)]
pub enum Pushed {
    /// So many bytes were taken.
    Took(usize),
    /// There is no room yet.
    NotNow,
    /// The device failed.
    Failed,
}

impl Pushed {
    /// How many bytes were taken.
    pub fn count(self) -> usize
        ensures { result ≡ pushed_count self }
    {
        match self {
            Pushed::Took(count) => count,
            Pushed::NotNow | Pushed::Failed => 0,
        }
    }
}

/// What an event says of a device.
#[derive(Clone, Copy)]
pub struct Readiness {
    /// It may have bytes, or its end.
    pub can_pull: bool,
    /// It may take bytes.
    pub can_push: bool,
    /// Its end is near: fewer bytes than there was room for don't say that none are left.
    pub is_closing: bool,
}

/// A connection whose calls never wait, as a socket that is not blocking.
///
/// A contract sees the bytes that it has still to give, those that it has taken, whether it said that no more come,
/// whether it was ended, whether it was shut, and whether it has failed, each where the device can tell; and its marks:
/// whether it may have bytes now, and whether it may take some. A mark goes off only where a call moved fewer bytes than
/// it was given room for or offered, or answered 'not now', an end or a failure, and each of these turns it off. It goes
/// on only by what an event says, or where the device is shut.
pub trait Device {
    /// What a contract sees.
    ghost seen: { Self → Seen };

    /// Moves the next bytes into the front of the buffer, and says how many.
    fn pull(&mut self, buffer: &mut [u8]) -> Pulled
        ensures { IsPulled result buffer.new (seen self.old) (seen self.new) };

    /// Takes the first of these bytes, and says how many.
    fn push(&mut self, bytes: &[u8]) -> Pushed
        ensures { IsPushed result bytes.now (seen self.old) (seen self.new) };

    /// Takes the first of these bytes, which lie in several pieces, in one call, and says how many.
    fn push_pieces(&mut self, pieces: &[IoSlice<'_>]) -> Pushed
        ensures { IsPushed result (io_slices_bytes pieces.now) (seen self.old) (seen self.new) };

    /// No more bytes will be pushed. Bytes may still come.
    fn end(&mut self)
        ensures { IsEnded (seen self.old) (seen self.new) };

    /// Shuts it both ways, without a word of good order.
    fn shut(&mut self)
        ensures { IsShut (seen self.old) (seen self.new) };

    /// An event says this of it. No byte moves.
    fn note_event(&mut self, ready: Readiness)
        ensures { IsNoted ready (seen self.old) (seen self.new) };

    /// Whether it may have bytes now, or its end.
    fn may_pull(&self) -> bool
        ensures { result ≡ (seen self.now).marks.may_pull };

    /// Whether it may take bytes now.
    fn may_push(&self) -> bool
        ensures { result ≡ (seen self.now).marks.may_push };

    /// Whether it has failed.
    fn has_failed(&self) -> bool
        ensures { IfSome (seen self.now).failed (λ b. result ≡ b) };
}
