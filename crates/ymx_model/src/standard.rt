//! Readers and writers of the standard library as devices.

ghost use Rattle.std.specs.Prelude.{◌≡◌, ◌+◌, ◌<◌, ◌-◌, ◌^◌, true};

use crate::device::{DeviceFault, Inlet, Outlet};
use crate::retrying::{read, write};
use std::io::{Read, Write};

/// A reader as an inlet.
#[derive(Drop)]
pub struct ReaderInlet<R> {
    /// The reader.
    pub reader: R,
    /// How many calls have failed.
    pub failures: u64,
}

impl<R: Read> Inlet for ReaderInlet<R> {
    ghost remaining = { λ s. R.remaining s.reader };

    ghost failures = { λ s. s.failures };

    fn pull(&mut self, buffer: &mut [u8]) -> Result<usize, DeviceFault> {
        if self.failures == u64::MAX {
            return Err(DeviceFault);
        }
        match read(&mut self.reader, buffer) {
            Ok(count) => Ok(count),
            Err(_) => {
                self.failures += 1;
                Err(DeviceFault)
            }
        }
    }
}

/// A writer as an outlet.
#[derive(Drop)]
pub struct WriterOutlet<W> {
    /// The writer.
    pub writer: W,
    /// How many calls have failed.
    pub failures: u64,
}

impl<W> WriterOutlet<W> {
    /// Counts a failure of a call that was made past it, as of one that shuts the writer.
    pub fn fail(&mut self) -> DeviceFault
        requires { self.old.failures < 2 ^ 64 - 1 }
        ensures { self.new ≡ record self.old { failures = self.old.failures + 1 } }
    {
        self.failures += 1;
        DeviceFault
    }
}

impl<W: Write> Outlet for WriterOutlet<W> {
    ghost contents = { λ s. W.contents s.writer };

    ghost failures = { λ s. s.failures };

    ghost is_ended = { λ _. true };

    fn push(&mut self, bytes: &[u8]) -> Result<usize, DeviceFault> {
        if self.failures == u64::MAX {
            return Err(DeviceFault);
        }
        match write(&mut self.writer, bytes) {
            Ok(count) if count > 0 || bytes.is_empty() => Ok(count),
            _ => {
                self.failures += 1;
                Err(DeviceFault)
            }
        }
    }

    fn end(&mut self) -> Result<(), DeviceFault> {
        if self.failures == u64::MAX {
            return Err(DeviceFault);
        }
        match self.writer.flush() {
            Ok(()) => Ok(()),
            Err(_) => {
                self.failures += 1;
                Err(DeviceFault)
            }
        }
    }
}
