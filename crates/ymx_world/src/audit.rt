//! A joint order of the histories of two sessions.

ghost use Rattle.std.specs.Prelude.{◌≡◌, ◌<◌, ◌+◌, ◌++◌, length, drop, List, true, false, IfOk, IfSome, IfNone};
ghost use Rattle.ymx_machine.specs.declared.types.Step.{Step as TheStep};
ghost use Rattle.ymx_model.specs.world.Worlds.{Pipe as PipeValue};
ghost use Rattle.ymx_model.specs.session.Emissions.{in_turn};
ghost use Rattle.ymx_headline.specs.audit.Joints.{into, sent_into, Gets, world_steps, Advances, IsStuck, IsJointOrder};
ghost use Rattle.ymx_headline.specs.audit.Told.{AreAnswered, AreOneRun};

use crate::calls::same_call;
use crate::pipe::Pipe;
use crate::world::World;
use std::alloc::Global;
use ymx_memory::RefusedAllocation;
use ymx_model::{Bytes, Call, Direction, Entry, Event, Reply, Side, Step};

/// A copy of a call.
fn copy_of(alloc: Global, call: &Call<Bytes>) -> Result<Call<Bytes>, RefusedAllocation>
    ensures { IfOk result (λ copy. copy ≡ call.now) }
{
    Ok(same_call!(call, bytes => Bytes::from_slice(alloc, bytes.as_slice())?))
}

/// The pipe that a side reads.
fn into_side(side: Side) -> Direction
    ensures { result ≡ into side }
{
    match side {
        Side::A => Direction::BA,
        Side::B => Direction::AB,
    }
}

/// Takes the next entry of a side, if it may come now.
fn advance(
    alloc: Global,
    side: Side,
    entry: &Entry,
    to: &mut Pipe,
    from: &mut Pipe,
    steps: &mut Vec<Step>,
) -> Result<bool, RefusedAllocation>
    ensures gets { IfOk result (λ yes. yes ≡ true → Gets entry.now.event entry.now.reply from.old from.new) }
    ensures puts { IfOk result (λ yes. yes ≡ true → to.new ≡ sent_into entry.now.event entry.now.reply to.old) }
    ensures steps { IfOk result (λ yes. yes ≡ true → steps.new.items ≡ steps.old.items ++ world_steps side from.old entry.now.event) }
    ensures same { IfOk result (λ yes. yes ≡ false → (from.new ≡ from.old) × (to.new ≡ to.old) × (steps.new.items ≡ steps.old.items)) }
    ensures none { IfOk result (λ yes. yes ≡ false → (q : PipeValue) → Gets entry.now.event entry.now.reply from.old q → ⊥) }
{
    match &entry.event {
        Event::Call(call) => {
            let copy = copy_of(alloc, call)?;
            ymx_memory::push(steps, Step::At(side, copy))?;
            Ok(true)
        }
        Event::Emit(room) => match &entry.reply {
            Reply::Emitted(bytes) => {
                to.push(bytes.as_slice())?;
                ymx_memory::push(steps, Step::Emit(side, *room))?;
                Ok(true)
            }
            _ => Ok(false),
        },
        Event::Feed(bytes) => {
            if from.is_ended() {
                return Ok(true);
            }
            match &entry.reply {
                Reply::Fed(fed) => {
                    if !from.take_front(bytes.as_slice(), fed.taken) {
                        return Ok(false);
                    }
                    ymx_memory::push(steps, Step::Deliver(into_side(side), bytes.len()))?;
                    Ok(true)
                }
                _ => Ok(false),
            }
        }
        Event::FeedEnd => {
            from.end();
            ymx_memory::push(steps, Step::Stop(into_side(side)))?;
            ymx_memory::push(steps, Step::End(into_side(side)))?;
            Ok(true)
        }
    }
}

/// Takes the entry at this place, if there is one and it may come now.
fn try_next(
    alloc: Global,
    side: Side,
    entries: &[Entry],
    at: usize,
    to: &mut Pipe,
    from: &mut Pipe,
    steps: &mut Vec<Step>,
) -> Result<bool, RefusedAllocation>
    ensures within { IfOk result (λ yes. yes ≡ true → at < length entries.now) }
    ensures taken { IfOk result (λ yes. yes ≡ true → Advances side (drop at entries.now) (drop (at + 1) entries.now) to.old from.old to.new from.new steps.old.items steps.new.items) }
    ensures same { IfOk result (λ yes. yes ≡ false → (from.new ≡ from.old) × (to.new ≡ to.old) × (steps.new.items ≡ steps.old.items)) }
    ensures stuck { IfOk result (λ yes. yes ≡ false → IsStuck from.old (drop at entries.now)) }
{
    if at >= entries.len() {
        return Ok(false);
    }
    let entry = &entries[at];
    let yes = advance(alloc, side, entry, to, from, steps)?;
    Ok(yes)
}

impl World {
    /// Steps of the world in which the histories of its two sides, A's and B's, each keep their order: `None`
    /// only if there are none. A call and an emission are steps; a feed is the delivery of its bytes, which
    /// stand at the front of what the other side has emitted and no feed has taken; the end of the input is a
    /// stop and an end, and a feed after it has no step. `RefusedAllocation` where there is no memory for the steps.
    pub fn audit(
        alloc: Global,
        a: &[Entry],
        b: &[Entry],
    ) -> Result<Option<Vec<Step>>, RefusedAllocation>
        ensures some { IfOk result (λ found. IfSome found (λ steps. IsJointOrder a.now b.now steps.items)) }
        ensures none { IfOk result (λ found. IfNone found ((steps : List TheStep) → IsJointOrder a.now b.now steps → ⊥)) }
        // Where both histories replay from sessions, the replies of the entries that have a step are the answers
        // of a run of these sessions' world over the steps, and of each queue machine that agrees with it.
        ensures answered { IfOk result (λ found. IfSome found (λ steps. AreAnswered in_turn a.now b.now steps.items)) }
        // Where both histories replay from new sessions, a client's and a server's, they are one run: of the new world
        // of these sessions over the steps, and of the queue machine.
        ensures one_run { IfOk result (λ found. IfSome found (λ steps. AreOneRun in_turn a.now b.now steps.items)) }
    {
        // It takes the next entry of A if that may come now, and else that of B. What may come now still may after
        // entries of the other side, and leaves the same, so no order is missed.
        let mut steps = Vec::new(alloc);
        let mut ab = Pipe::new(alloc);
        let mut ba = Pipe::new(alloc);
        let mut i = 0;
        let mut j = 0;
        while i < a.len() || j < b.len() {
            let first = try_next(alloc, Side::A, a, i, &mut ab, &mut ba, &mut steps)?;
            if first {
                i += 1;
            } else {
                let second = try_next(alloc, Side::B, b, j, &mut ba, &mut ab, &mut steps)?;
                if !second {
                    return Ok(None);
                }
                j += 1;
            }
        }
        Ok(Some(steps))
    }
}
