//! Bytes of a device go straight into frames for the wire.

ghost use Rattle.std.specs.Prelude.{◌≡◌, ◌≤◌, ◌<◌, ◌+◌, ℕ, [], length, take, drop, true, false};
ghost use Rattle.ymx_model.specs.declared.types.Event.TheVariants as event;
ghost use Rattle.ymx_machine.specs.declared.types.Call.TheVariants as call;
ghost use Rattle.ymx_machine.specs.shared.Events.{Reply};
ghost use Rattle.ymx_model.specs.session.Emissions.{in_turn, is_ready};
ghost use Rattle.ymx_model.specs.session.Histories.{Gives};
ghost use Rattle.ymx_model.specs.session.Sessions.{Session as SessionValue};
ghost use Rattle.ymx_session.specs.Streams.{waiting, room_of};
ghost use Rattle.ymx_engine.specs.Events.{took_count, is_memory_refusal};
ghost use Rattle.ymx_engine.specs.Serves.{TakesAndGives, PutsDue};

use crate::block::Block;
use crate::buffers::FRAMES;
use crate::calls::write;
use ymx_header::DATA_LIMIT;
use ymx_session::Session;

/// What is due waits after what waits for the wire, where nothing waits or there is room for eight whole frames.
pub(crate) fn put_due(session: &mut Session, outgoing: &mut Block)
    ensures put { PutsDue session.old session.new outgoing.old outgoing.new }
    ensures due { is_ready session.old ≡ true → 0 < length outgoing.new }
    ensures more { 0 < length outgoing.old → 0 < length outgoing.new }
    ensures waits { (id : ℕ) → waiting id session.new ≡ waiting id session.old }
{
    if !session.due() {
        return;
    }
    if outgoing.waiting().is_empty() || outgoing.room() >= FRAMES {
        outgoing.emit_behind(session);
    }
}

/// Writes bytes, one at least, for which there is credit. As far as nothing else is to go first they go straight into
/// frames that wait for the wire; the rest goes into the stream's ring. Whether the stream took them all: the ring may
/// lack memory for the rest.
pub(crate) fn send(session: &mut Session, id: u32, bytes: &[u8], outgoing: &mut Block) -> bool
    requires some { 0 < length bytes.now }
    requires fits { length bytes.now ≤ room_of id session.old }
    ensures took { result ≡ true → TakesAndGives id bytes.now [] session.old session.new outgoing.old outgoing.new }
    // There is room for so much less.
    ensures left { result ≡ true → room_of id session.new + length bytes.now ≡ room_of id session.old }
    ensures refused { result ≡ false → (count : ℕ) × (between : SessionValue) × (told : Reply) × TakesAndGives id (take count bytes.now) [] session.old between outgoing.old outgoing.new × Gives in_turn between (event.Call (call.Write id (drop count bytes.now))) told session.new × (took_count told ≡ 0) × (is_memory_refusal told ≡ true) × (0 < length (drop count bytes.now)) }
{
    let count = send_through(session, id, bytes, outgoing);
    let rest = &bytes[count..];
    if rest.is_empty() {
        return true;
    }
    write(session, id, rest)
}

/// Writes bytes for which there is credit, and puts them into frames that wait for the wire, as far as nothing else is
/// to go first. How many of them.
fn send_through(session: &mut Session, id: u32, bytes: &[u8], outgoing: &mut Block) -> usize
    requires { length bytes.now ≤ room_of id session.old }
    ensures within { result ≤ length bytes.now }
    ensures sent { TakesAndGives id (take result bytes.now) [] session.old session.new outgoing.old outgoing.new }
    ensures room { room_of id session.new + result ≡ room_of id session.old }
{
    let mut done = 0;
    'frame: for _ in 0..bytes.len() {
        let count = (DATA_LIMIT as usize).min(bytes.len() - done);
        if !outgoing.write_through(session, id, &bytes[done..done + count]) {
            return done;
        }
        done += count;
    }
    done
}
