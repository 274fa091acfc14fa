//! The steps of a delivery, each with where the world stands before it and after it. The one error is lack of
//! memory; each other answer is proved to be impossible.

ghost use Rattle.std.specs.Prelude.{◌≡◌, ◌<◌, ◌≤◌, ℕ, List, [], length, IfOk};
ghost use Rattle.ymx_machine.specs.shared.Evidence.{evidence};
ghost use Rattle.ymx_machine.specs.declared.types.CallFault.TheVariants.{OutOfMemory};
ghost use Rattle.ymx_machine.specs.shared.Limits.{first_credit};
ghost use Rattle.ymx_headline.specs.Laws.{IsOpenWorld};
ghost use Rattle.ymx_joined.specs.Stages.{IsNewWorld, Stands, IsWritable, IsComing, IsDecided, IsReadable, IsRead};

use std::alloc::Global;
use ymx_memory::{RefusalCount, RefusedAllocation};
use ymx_model::{Answer, Bytes, Call, CallFault, Side, Step};
use ymx_world::World;

/// What a call that was refused answers here: its lack of memory. There is no other refusal.
fn call_refused(fault: CallFault) -> RefusedAllocation
    requires { fault ≡ OutOfMemory evidence }
{
    match fault {
        CallFault::OutOfMemory(refused) => refused,
        _ => unreachable!(),
    }
}

/// What a stream that was refused answers here: its lack of memory, which was counted.
fn stream_refused(no_memory: RefusalCount) -> RefusedAllocation
    requires { 0 < no_memory }
{
    match no_memory.evidence() {
        Some(refused) => refused,
        None => unreachable!(),
    }
}

/// A opens a stream, and gets its number.
pub(crate) fn open(world: &mut World) -> Result<u32, RefusedAllocation>
    requires { IsNewWorld world.old }
    ensures { IfOk result (λ id. Stands id (IsWritable first_credit []) world.new) }
{
    let answer = world.step(&Step::At(Side::A, Call::Open))?;
    match answer {
        Answer::Opened(id) => Ok(id),
        Answer::Refused(fault) => Err(call_refused(fault)),
        _ => unreachable!(),
    }
}

/// A writes all of these bytes to the stream.
pub(crate) fn write(
    alloc: Global,
    world: &mut World,
    id: u32,
    bytes: &[u8],
) -> Result<(), RefusedAllocation>
    requires { Stands id (IsWritable (length bytes.now) []) world.old }
    ensures { IfOk result (λ _. Stands id (IsWritable 0 bytes.now) world.new) }
{
    let copy = Bytes::from_slice(alloc, bytes)?;
    let answer = world.step(&Step::At(Side::A, Call::Write(id, copy)))?;
    match answer {
        Answer::Wrote(_) => Ok(()),
        Answer::Refused(fault) => Err(call_refused(fault)),
        _ => unreachable!(),
    }
}

/// A finishes the stream.
pub(crate) fn finish(world: &mut World, id: u32) -> Result<(), RefusedAllocation>
    requires { (bytes : List ℕ) × Stands id (IsWritable 0 bytes) world.old }
    ensures { IfOk result (λ _. (bytes : List ℕ) → Stands id (IsWritable 0 bytes) world.old → Stands id (IsComing id bytes) world.new) }
{
    let answer = world.step(&Step::At(Side::A, Call::Finish(id)))?;
    match answer {
        Answer::Done => Ok(()),
        _ => unreachable!(),
    }
}

/// Carries all that is under way to the other side, and answers how many streams were refused for lack of memory.
pub(crate) fn drive(world: &mut World) -> Result<RefusalCount, RefusedAllocation>
    requires { IsOpenWorld world.old }
    ensures { IfOk result (λ no_memory. (id : ℕ) (bytes : List ℕ) → Stands id (IsComing id bytes) world.old → Stands id (IsDecided no_memory id bytes) world.new) }
{
    let driven = world.drive()?;
    prove!(driven.quiet);
    Ok(driven.no_memory)
}

/// B accepts the stream. There is none only where B has refused it, as it had no memory for it. Then `no_memory`, which
/// counts the streams that were refused on the way, has the evidence.
pub(crate) fn accept(world: &mut World, no_memory: RefusalCount) -> Result<u32, RefusedAllocation>
    requires { (id : ℕ) × (bytes : List ℕ) × Stands id (IsDecided no_memory id bytes) world.old }
    ensures { IfOk result (λ at. (id : ℕ) (bytes : List ℕ) → Stands id (IsDecided no_memory id bytes) world.old → (at ≡ id) × Stands id (IsReadable bytes) world.new) }
{
    let answer = world.step(&Step::At(Side::B, Call::Accept))?;
    match answer {
        Answer::Accepted(found) => match found {
            Some(id) => Ok(id),
            None => Err(stream_refused(no_memory)),
        },
        _ => unreachable!(),
    }
}

/// B reads all that is left, at most `max` bytes. `None` is the end.
pub(crate) fn read(
    world: &mut World,
    id: u32,
    max: usize,
) -> Result<Option<Bytes>, RefusedAllocation>
    requires room { 0 < max }
    requires stands { (rest : List ℕ) × (length rest ≤ max) × Stands id (IsReadable rest) world.old }
    ensures told { IfOk result (λ found. (rest : List ℕ) → length rest ≤ max → Stands id (IsReadable rest) world.old → IsRead rest found) }
    ensures after { IfOk result (λ found. (rest : List ℕ) → length rest ≤ max → Stands id (IsReadable rest) world.old → Stands id (IsReadable []) world.new) }
{
    let answer = world.step(&Step::At(Side::B, Call::Read(id, max)))?;
    match answer {
        Answer::Read(bytes) => Ok(Some(bytes)),
        Answer::ReadEnd => Ok(None),
        _ => unreachable!(),
    }
}
