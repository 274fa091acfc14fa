//! One direction of a connection that is joined to a stream: a copy between the connection and a half of the stream.

ghost use Rattle.std.specs.Prelude.{◌<◌, vec_len, IfOk};

use crate::connections::{Connection, TrackedReader, TrackedWriter};
use crate::copied::{Copied, CopyWhy};
use crate::copying::{copy_in, copy_out};
use std::alloc::Global;
use std::sync::{Mutex, Wait};
use yamux::{Reader, Runtime, Writer};
use ymx_memory::RefusedAllocation;
use ymx_seats::Recorder;

/// Bytes that a copy reads at once.
const COPY_BUFFER: usize = 65_536;

/// A half of a stream, for the thread that ends it. Where none takes it, it is dropped, and so reset.
#[derive(Drop)]
pub(crate) struct Handover<H: Drop> {
    half: Mutex<Option<H>>,
}

impl<H: Drop> Handover<H> {
    /// Nobody has taken it yet.
    pub(crate) fn new(half: H) -> Handover<H> {
        Handover {
            half: Mutex::new(Some(half)),
        }
    }

    /// Takes it. `None` if it was taken before.
    fn take<R: Wait>(&self, rt: &R) -> Option<H> {
        self.half.lock(rt).take()
    }
}

/// Copies from the connection into the stream by the half that is handed over, and ends it: the lack of memory that
/// ended it, if that was it.
pub(crate) fn to_peer<W: Runtime, R: Recorder>(
    rt: &W,
    connection: &Connection,
    handover: &Handover<Writer<W, R>>,
) -> Option<RefusedAllocation> {
    let Some(writer) = handover.take(rt) else {
        connection.break_off();
        return None;
    };
    let mut buffer = match copy_buffer(rt.alloc()) {
        Ok(buffer) => buffer,
        Err(refused) => {
            connection.break_off();
            return Some(refused);
        }
    };
    let Some(sink) = writer.into_half() else {
        connection.break_off();
        return None;
    };
    let mut inlet = TrackedReader::new(connection);
    let Copied {
        bytes: _,
        why,
        lack,
        left,
    } = copy_in(rt, &mut inlet, sink, buffer.as_mut_slice());
    let _ = left.into_entries();
    shut_unless_ended(connection, why);
    lack
}

/// Copies from the stream out to the connection by the half that is handed over, and ends it: the lack of memory that
/// ended it, if that was it.
pub(crate) fn from_peer<W: Runtime, R: Recorder>(
    rt: &W,
    connection: &Connection,
    handover: &Handover<Reader<W, R>>,
) -> Option<RefusedAllocation> {
    let Some(reader) = handover.take(rt) else {
        connection.break_off();
        return None;
    };
    let mut buffer = match copy_buffer(rt.alloc()) {
        Ok(buffer) => buffer,
        Err(refused) => {
            connection.break_off();
            return Some(refused);
        }
    };
    let mut outlet = TrackedWriter::new(connection);
    let source = reader.into_half();
    let Copied {
        bytes: _,
        why,
        lack,
        left,
    } = copy_out(rt, source, &mut outlet, buffer.as_mut_slice());
    let _ = left.into_entries();
    shut_unless_ended(connection, why);
    lack
}

/// The buffer of one copy.
fn copy_buffer(alloc: Global) -> Result<Vec<u8>, RefusedAllocation>
    ensures { IfOk result (λ buffer. 0 < vec_len buffer) }
{
    ymx_memory::zeros(alloc, COPY_BUFFER)
}

/// One direction has ended for this reason. At a fault the connection is shut both ways, so that the other direction ends too. It
/// doesn't take that for an end: where the stream was reset or the session lost, its half of the stream says so.
fn shut_unless_ended(connection: &Connection, why: CopyWhy) {
    match why {
        CopyWhy::End => {}
        CopyWhy::Reset | CopyWhy::Lost => connection.shut_down(),
        CopyWhy::Source | CopyWhy::Sink => connection.break_off(),
    }
}
