//! The call `deliver`.

ghost use Rattle.std.specs.Prelude.{◌≡◌, ◌<◌, ◌≤◌, ℕ, List, length, IfOk, IfErr};
ghost use Rattle.ymx_machine.specs.shared.Evidence.{evidence};
ghost use Rattle.ymx_machine.specs.shared.Limits.{first_credit};
ghost use Rattle.ymx_session.specs.declared.new_fault.NewFault.TheVariants.{OutOfMemory};
ghost use Rattle.ymx_joined.specs.Stages.{IsNewWorld, Stands, IsComing, IsDecided, IsReadable};
ghost use Rattle.ymx_joined.specs.declared.fault.DeliveryFault.TheVariants.{TooLong, Memory};

use crate::fault::DeliveryFault;
use crate::stages::{accept, drive, finish, open, read, write};
use std::alloc::Global;
use ymx_header::FIRST_CREDIT;
use ymx_memory::{RefusalCount, RefusedAllocation};
use ymx_model::Config;
use ymx_session::NewFault;
use ymx_world::World;

/// Sends a text from one new session to another, over one stream, and gives back what came out.
///
/// The client opens a stream, writes the text and finishes. When nothing is on its way any more the server
/// accepts the stream, reads what is there, and reads again, which answers the end. What came out is the
/// text. There is no other outcome but for `TooLong`, where the text is longer than 262,144 bytes, and
/// `Memory`, where an allocation was refused, of which it holds the evidence: no refusal, no wait, no byte too few or
/// too many, and no fault.
pub fn deliver(alloc: Global, text: &[u8]) -> Result<Vec<u8>, DeliveryFault>
    ensures bytes { IfOk result (λ bytes. bytes.items ≡ text.now) }
    ensures too_long { first_credit < length text.now → result ≡ Err TooLong }
    ensures memory { length text.now ≤ first_credit → IfErr result (λ fault. fault ≡ Memory evidence) }
{
    if text.len() > FIRST_CREDIT as usize {
        return Err(DeliveryFault::TooLong);
    }
    match deliver_fitting(alloc, text) {
        Ok(bytes) => Ok(bytes),
        Err(refused) => Err(DeliveryFault::Memory(refused)),
    }
}

/// A world of two sessions with the least windows.
fn begin(alloc: Global) -> Result<World, RefusedAllocation>
    ensures { IfOk result (λ world. IsNewWorld world) }
{
    let config = Config {
        window: FIRST_CREDIT,
        first: 0,
    };
    match World::new(alloc, config, config) {
        Ok(world) => Ok(world),
        Err(fault) => Err(not_made(fault)),
    }
}

/// What a world that wasn't made answers here: its lack of memory. There is no other fault.
fn not_made(fault: NewFault) -> RefusedAllocation
    requires { fault ≡ OutOfMemory evidence }
{
    match fault {
        NewFault::OutOfMemory(refused) => refused,
        _ => unreachable!(),
    }
}

/// Sends a text that fits the window.
fn deliver_fitting(alloc: Global, text: &[u8]) -> Result<Vec<u8>, RefusedAllocation>
    requires { length text.now ≤ first_credit }
    ensures { IfOk result (λ bytes. bytes.items ≡ text.now) }
{
    let mut world = begin(alloc)?;
    let delivered = deliver_between(alloc, &mut world, text);
    // by a call, so that the drop of its parts is not proved here
    drop(world);
    delivered
}

/// Sends a text that fits the window between two sessions that have done nothing.
fn deliver_between(
    alloc: Global,
    world: &mut World,
    text: &[u8],
) -> Result<Vec<u8>, RefusedAllocation>
    requires new { IsNewWorld world.old }
    requires fits { length text.now ≤ first_credit }
    ensures { IfOk result (λ bytes. bytes.items ≡ text.now) }
{
    send(alloc, world, text)?;
    let no_memory = drive(world)?;
    let max = text.len() + 1;
    receive(alloc, world, max, no_memory)
}

/// What A does: it opens a stream, writes the text and finishes.
fn send(alloc: Global, world: &mut World, text: &[u8]) -> Result<(), RefusedAllocation>
    requires new { IsNewWorld world.old }
    requires fits { length text.now ≤ first_credit }
    ensures { IfOk result (λ _. (id : ℕ) × Stands id (IsComing id text.now) world.new) }
{
    let id = open(world)?;
    write(alloc, world, id, text)?;
    finish(world, id)?;
    Ok(())
}

/// What B does: it accepts the stream and reads to the end. `max` is at least 1, and at least the number of bytes
/// that are there. `no_memory` counts the streams that were refused on the way for lack of memory.
fn receive(
    alloc: Global,
    world: &mut World,
    max: usize,
    no_memory: RefusalCount,
) -> Result<Vec<u8>, RefusedAllocation>
    requires room { 0 < max }
    requires stands { (id : ℕ) × (bytes : List ℕ) × (length bytes ≤ max) × Stands id (IsDecided no_memory id bytes) world.old }
    ensures { IfOk result (λ got. (id : ℕ) (bytes : List ℕ) → length bytes ≤ max → Stands id (IsDecided no_memory id bytes) world.old → got.items ≡ bytes) }
{
    let id = accept(world, no_memory)?;
    read_to_end(alloc, world, id, max)
}

/// Reads a stream that B has accepted to the end. `max` is at least 1, and at least the number of bytes that are left.
fn read_to_end(
    alloc: Global,
    world: &mut World,
    id: u32,
    max: usize,
) -> Result<Vec<u8>, RefusedAllocation>
    requires room { 0 < max }
    requires stands { (rest : List ℕ) × (length rest ≤ max) × Stands id (IsReadable rest) world.old }
    ensures { IfOk result (λ bytes. (rest : List ℕ) → length rest ≤ max → Stands id (IsReadable rest) world.old → bytes.items ≡ rest) }
{
    let found = read(world, id, max)?;
    let Some(bytes) = found else {
        return Ok(Vec::new(alloc));
    };
    let end = read(world, id, max)?;
    prove!(end.is_none());
    ymx_memory::copied(alloc, bytes.as_slice())
}
