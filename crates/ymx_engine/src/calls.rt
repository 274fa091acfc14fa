//! Calls on one stream of a session, each with what its callers need to know.

ghost use Rattle.std.specs.Prelude.{◌≡◌, ◌<◌, ◌≤◌, [], length, take, true, false, Some};
ghost use Rattle.ymx_model.specs.declared.types.Event.TheVariants as event;
ghost use Rattle.ymx_machine.specs.declared.types.Call.TheVariants as call;
ghost use Rattle.ymx_machine.specs.shared.Events.{Reply};
ghost use Rattle.ymx_machine.specs.declared.types.Reply.TheVariants as reply;
ghost use Rattle.ymx_model.specs.session.Calls.{read_from};
ghost use Rattle.ymx_model.specs.session.Emissions.{in_turn};
ghost use Rattle.ymx_model.specs.session.Histories.{Gives};
ghost use Rattle.ymx_session.specs.declared.passing.Passing.{Passing};
ghost use Rattle.ymx_session.specs.Passing.{passing, Passes};
ghost use Rattle.ymx_session.specs.Streams.{waiting, room_of};
ghost use Rattle.ymx_engine.specs.Events.{took_count, bytes_of, is_read_end, is_refusal, is_stop, is_memory_refusal};

use ymx_model::{CallFault, Got, Wrote};
use ymx_session::Session;

/// Writes bytes, one at least, for which there is credit. Whether the stream took them: it takes none for lack of memory.
pub(crate) fn write(session: &mut Session, id: u32, bytes: &[u8]) -> bool
    requires some { 0 < length bytes.now }
    requires fits { length bytes.now ≤ room_of id session.old }
    ensures took { result ≡ true → (told : Reply) × Gives in_turn session.old (event.Call (call.Write id bytes.now)) told session.new × (take (took_count told) bytes.now ≡ bytes.now) × (is_refusal told ≡ false) }
    ensures refused { result ≡ false → (told : Reply) × Gives in_turn session.old (event.Call (call.Write id bytes.now)) told session.new × (took_count told ≡ 0) × (is_memory_refusal told ≡ true) × (0 < length bytes.now) }
{
    match session.write(id, bytes) {
        Ok(Wrote::Took(_)) => true,
        _ => false,
    }
}

/// Whether the stream takes no bytes any more, though it was not finished here.
pub(crate) fn is_stopped(session: &mut Session, id: u32) -> bool
    ensures same { session.new ≡ session.old }
    ensures happened { (told : Reply) × Gives in_turn session.old (event.Call (call.Write id [])) told session.new × (is_stop told ≡ result) }
{
    match session.write(id, &[]) {
        Ok(_) => false,
        Err(CallFault::Finished) => false,
        Err(_) => true,
    }
}

/// Takes out the first `count` of the bytes that wait.
pub(crate) fn take_out(session: &mut Session, id: u32, count: usize)
    requires { 0 < length (waiting id session.old) }
    ensures { (told : Reply) × Gives in_turn session.old (event.Call (call.Read id count)) told session.new × (bytes_of told ≡ take count (waiting id session.old)) × (is_read_end told ≡ false) × (is_refusal told ≡ false) }
{
    let _ = session.consume(id, count);
}

/// What a stream says of which no byte waits.
#[derive(Clone, Copy)]
pub(crate) enum Unreadable {
    /// More may come.
    Wait,
    /// Its end was read.
    End,
    /// It was reset, or the session is over.
    Stopped,
}

/// Asks for a byte where none waits.
pub(crate) fn ask(session: &mut Session, id: u32) -> Unreadable
    requires { waiting id session.old ≡ [] }
    ensures happened { (told : Reply) × Gives in_turn session.old (event.Call (call.Read id 1)) told session.new × (bytes_of told ≡ []) × (is_read_end told ≡ true → result ≡ Unreadable.End) × (result ≡ Unreadable.End → is_read_end told ≡ true) × (is_refusal told ≡ true → result ≡ Unreadable.Stopped) × (result ≡ Unreadable.Stopped → is_refusal told ≡ true) }
    ensures waits { result ≡ Unreadable.Wait → (read_from id 1 session.old).reply ≡ reply.ReadWait }
{
    match session.consume(id, 1) {
        Ok(Got::End) => Unreadable::End,
        Ok(_) => Unreadable::Wait,
        Err(_) => Unreadable::Stopped,
    }
}

/// Bytes of a payload that is passed on come, and are read on their stream.
pub(crate) fn pass(session: &mut Session, id: u32, bytes: &[u8])
    requires payload { (payload : Passing) × (passing session.old ≡ Some payload) × (payload.id ≡ id) × (length bytes.now ≤ payload.missing) }
    requires some { 0 < length bytes.now }
    ensures { Passes id bytes.now session.old session.new }
{
    let _stream = id;
    session.pass(bytes);
}

/// Half-closes a stream.
pub(crate) fn finish(session: &mut Session, id: u32)
    ensures { (told : Reply) × Gives in_turn session.old (event.Call (call.Finish id)) told session.new }
{
    let _ = session.finish(id);
}

/// Resets a stream.
pub(crate) fn reset(session: &mut Session, id: u32)
    ensures { (told : Reply) × Gives in_turn session.old (event.Call (call.Reset id)) told session.new }
{
    let _ = session.reset(id);
}
