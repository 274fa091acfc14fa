//! Reads and writes that a signal doesn't end.

ghost use Rattle.std.specs.Io.{ReadsAtMost, WritesAtMost};
ghost use Rattle.std.specs.Io.KnownBytes.{ReadConsumes, WriteAppends};

use std::io;
use std::io::{ErrorKind, Read, Write};

/// How often a call that a signal interrupted is made again before it counts as failed.
const RETRIES: u32 = 1_000_000;

/// One read, made again where a signal interrupts it, up to a million times.
pub fn read<R: Read>(reader: &mut R, buffer: &mut [u8]) -> io::Result<usize>
    ensures bound { ReadsAtMost result buffer.new }
    ensures bytes { ReadConsumes (R.remaining reader.old) (R.remaining reader.new) result buffer.new }
{
    'again: for _ in 0..RETRIES {
        match reader.read(buffer) {
            Err(e) if e.kind() == ErrorKind::Interrupted => {}
            done => return done,
        }
    }
    reader.read(buffer)
}

/// One write, made again where a signal interrupts it, up to a million times.
pub fn write<W: Write>(writer: &mut W, bytes: &[u8]) -> io::Result<usize>
    ensures bound { WritesAtMost result bytes.now }
    ensures bytes { WriteAppends (W.contents writer.old) (W.contents writer.new) result bytes.now }
{
    'again: for _ in 0..RETRIES {
        match writer.write(bytes) {
            Err(e) if e.kind() == ErrorKind::Interrupted => {}
            done => return done,
        }
    }
    writer.write(bytes)
}
