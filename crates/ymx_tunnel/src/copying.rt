//! Copies between a device and a half of a stream.

ghost use Rattle.std.specs.Prelude.{Result, Ok, Err, ◌≡◌, ◌⊎◌, ◌<◌, length, true, IsTrue};
ghost use Rattle.ymx_model.specs.devices.Devices.{has_failed};
ghost use Rattle.ymx_hub.specs.declared.faults.HubFault.{HubFault as Fault};
ghost use Rattle.ymx_tunnel.specs.Copies.{CopiesIn, CopiesOut, EndsWell, StopsAt, StopsFor};

use crate::copied::{Copied, CopyWhy, Stop, why_of_fault, why_of_finish};
use crate::ends::{Sink, Source};
use std::sync::Wait;
use ymx_model::{Inlet, Outlet, push_all};

/// Copies what the reader gives into the sink, up to the reader's end; then it finishes the sink. At a fault it
/// resets it. It reads into the buffer, which isn't empty, and takes no memory.
///
/// `Source`: the reader failed. `Reset`, `Lost`: the sink said so. `Sink`: the sink refused for another reason; `lack`
/// says whether that was lack of memory.
pub fn copy_in<W: Wait, I: Inlet, S: Sink>(
    rt: &W,
    reader: &mut I,
    sink: S,
    buffer: &mut [u8],
) -> Copied<S::Left>
    requires { 0 < length buffer.old }
    // A beginning of what the reader gave; at `End` all of it.
    ensures moved { CopiesIn (I.remaining reader.old) (I.remaining reader.new) (S.taken sink) (S.taken_in_all result.left) result.bytes result.why }
    // The end was passed on at `End` alone, and a reader that failed passed no end on.
    ensures finished { result.why ≡ CopyWhy.End → (last : S) × S.Finishes last result.left (Ok tt) }
    ensures reset { result.why ≡ CopyWhy.Source → (last : S) × (answer : Result (Unit {0}) Fault) × S.Resets last result.left answer }
    // At any other end it was reset, for the reader or for a fault by which it had refused; or its finish was refused for that reason.
    ensures spent { EndsWell result.why result.lack ⊎ ((last : S) × (answer : Result (Unit {0}) Fault) × StopsFor (S.HasRefused last) CopyWhy.Source CopyWhy.Sink result.why result.lack × S.Resets last result.left answer) ⊎ ((last : S) × (fault : Fault) × StopsAt fault CopyWhy.Sink result.why result.lack × S.Finishes last result.left (Err fault)) }
    // The reader is blamed if it failed, and only then.
    ensures source { result.why ≡ CopyWhy.Source → IsTrue (has_failed (I.failures reader.old) (I.failures reader.new)) }
    ensures reader_kept { (result.why ≡ CopyWhy.Source) ⊎ (I.failures reader.new ≡ I.failures reader.old) }
{
    let mut sink = sink;
    let Stop { bytes, why, lack } = fill(rt, reader, &mut sink, buffer);
    if why != CopyWhy::End {
        let (left, _) = sink.reset(rt);
        return Copied {
            bytes,
            why,
            lack,
            left,
        };
    }
    let (left, finished) = sink.finish(rt);
    let (why, lack) = why_of_finish(finished);
    Copied {
        bytes,
        why,
        lack,
        left,
    }
}

/// Copies what the reader gives into the sink, up to the reader's end, and says how it stopped.
fn fill<W: Wait, I: Inlet, S: Sink>(rt: &W, reader: &mut I, sink: &mut S, buffer: &mut [u8]) -> Stop
    requires { 0 < length buffer.old }
    ensures moved { CopiesIn (I.remaining reader.old) (I.remaining reader.new) (S.taken sink.old) (S.taken sink.new) result.bytes result.why }
    ensures why { EndsWell result.why result.lack ⊎ StopsFor (S.HasRefused sink.new) CopyWhy.Source CopyWhy.Sink result.why result.lack }
    ensures source { result.why ≡ CopyWhy.Source → IsTrue (has_failed (I.failures reader.old) (I.failures reader.new)) }
    ensures reader_kept { (result.why ≡ CopyWhy.Source) ⊎ (I.failures reader.new ≡ I.failures reader.old) }
{
    let mut bytes = 0u64;
    'round: for _ in rt.forever() {
        let Ok(count) = reader.pull(buffer) else {
            return Stop {
                bytes,
                why: CopyWhy::Source,
                lack: None,
            };
        };
        if count == 0 {
            return Stop {
                bytes,
                why: CopyWhy::End,
                lack: None,
            };
        }
        match sink.write_all(rt, &buffer[..count]) {
            Ok(()) => bytes = bytes.saturating_add(count as u64),
            Err(stop) => {
                bytes = bytes.saturating_add(stop.taken as u64);
                let (why, lack) = why_of_fault(stop.fault, CopyWhy::Sink);
                return Stop { bytes, why, lack };
            }
        }
    }
    unreachable!()
}

/// Copies what the source gives into the writer, up to the source's end, and then ends the writer. It closes the
/// source in any case. It reads into the buffer, which isn't empty, and takes no memory.
///
/// `Sink`: the writer failed. `Reset`, `Lost`: the source said so. `Source`: the source refused for another reason;
/// `lack` says whether that was lack of memory.
pub fn copy_out<W: Wait, S: Source, O: Outlet>(
    rt: &W,
    source: S,
    writer: &mut O,
    buffer: &mut [u8],
) -> Copied<S::Left>
    requires { 0 < length buffer.old }
    // A beginning of what the source gave; at `End` all of it.
    ensures moved { CopiesOut (S.given source) (S.given_in_all result.left) (O.contents writer.old) (O.contents writer.new) result.bytes result.why }
    ensures ended { result.why ≡ CopyWhy.End → S.EndedBefore result.left }
    // Then the writer was ended.
    ensures tells { result.why ≡ CopyWhy.End → O.is_ended writer.new ≡ true }
    // At any other end the writer failed, or the source had refused by a fault for that reason.
    ensures why { EndsWell result.why result.lack ⊎ StopsFor (S.RefusedBefore result.left) CopyWhy.Sink CopyWhy.Source result.why result.lack }
    // The writer is blamed if it failed, and only then.
    ensures sink { result.why ≡ CopyWhy.Sink → IsTrue (has_failed (O.failures writer.old) (O.failures writer.new)) }
    ensures writer_kept { (result.why ≡ CopyWhy.Sink) ⊎ (O.failures writer.new ≡ O.failures writer.old) }
{
    let mut source = source;
    let Stop { bytes, why, lack } = empty(rt, &mut source, writer, buffer);
    let (left, _) = source.close(rt);
    if why == CopyWhy::End && writer.end().is_err() {
        return Copied {
            bytes,
            why: CopyWhy::Sink,
            lack: None,
            left,
        };
    }
    Copied {
        bytes,
        why,
        lack,
        left,
    }
}

/// Copies what the source gives into the writer, up to the source's end, and says how it stopped.
fn empty<W: Wait, S: Source, O: Outlet>(
    rt: &W,
    source: &mut S,
    writer: &mut O,
    buffer: &mut [u8],
) -> Stop
    requires { 0 < length buffer.old }
    ensures moved { CopiesOut (S.given source.old) (S.given source.new) (O.contents writer.old) (O.contents writer.new) result.bytes result.why }
    ensures ended { result.why ≡ CopyWhy.End → S.HasEnded source.new }
    ensures why { EndsWell result.why result.lack ⊎ StopsFor (S.HasRefused source.new) CopyWhy.Sink CopyWhy.Source result.why result.lack }
    ensures sink { result.why ≡ CopyWhy.Sink → IsTrue (has_failed (O.failures writer.old) (O.failures writer.new)) }
    ensures writer_kept { (result.why ≡ CopyWhy.Sink) ⊎ (O.failures writer.new ≡ O.failures writer.old) }
{
    let mut bytes = 0u64;
    'round: for _ in rt.forever() {
        let count = match source.read(rt, buffer) {
            Ok(count) => count,
            Err(fault) => {
                let (why, lack) = why_of_fault(fault, CopyWhy::Source);
                return Stop { bytes, why, lack };
            }
        };
        if count == 0 {
            return Stop {
                bytes,
                why: CopyWhy::End,
                lack: None,
            };
        }
        match push_all(writer, &buffer[..count]) {
            Ok(()) => bytes = bytes.saturating_add(count as u64),
            Err(taken) => {
                return Stop {
                    bytes: bytes.saturating_add(taken as u64),
                    why: CopyWhy::Sink,
                    lack: None,
                };
            }
        }
    }
    unreachable!()
}
