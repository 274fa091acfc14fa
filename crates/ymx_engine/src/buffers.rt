//! The memory for bytes that a tunnel has under way.

ghost use Rattle.std.specs.Prelude.{◌≡◌, ◌≤◌, [], length, IfOk};
ghost use Rattle.ymx_engine.specs.Devices.{one_read};

use crate::block::Block;
use std::alloc::Global;
use ymx_memory::RefusedAllocation;
use ymx_session::Touched;

/// How many bytes are read from a device at once.
pub(crate) const BLOCK: usize = 131_072;

/// How many bytes a connection gives at most in one turn: two reads.
pub(crate) const TURN: usize = 2 * BLOCK;

/// How many bytes of a payload a frame carries at most.
pub(crate) const FRAME: usize = 16_384;

/// Eight whole frames of 16,384 bytes. Once so many bytes wait for the peer, no connection is read.
pub(crate) const FRAMES: usize = 131_168;

/// How many bytes are written to the peer at once: sixteen whole frames, which a turn of a connection fills. So many are read
/// from it at once, too, when it has once given `FRAMES` at once: an idle tunnel keeps no more.
pub(crate) const WIRE: usize = 2 * FRAMES;

/// The memory for bytes under way, and for the ids of streams that were touched.
///
/// It is made before the tunnel, so that a tunnel either has all of it or isn't made.
#[derive(Drop)]
pub(crate) struct Buffers {
    pub(crate) outgoing: Block,
    pub(crate) incoming: Block,
    pub(crate) buffer: Vec<u8>,
    pub(crate) touched: Touched,
}

impl Buffers {
    /// Takes the memory, in which no bytes wait.
    pub(crate) fn new(alloc: Global) -> Result<Buffers, RefusedAllocation>
        ensures empty { IfOk result (λ memory. (memory.outgoing ≡ []) × (memory.incoming ≡ [])) }
        ensures space { IfOk result (λ memory. one_read ≤ length memory.buffer.items) }
    {
        Ok(Buffers {
            outgoing: Block::new(alloc, WIRE)?,
            incoming: Block::new(alloc, FRAMES)?,
            buffer: ymx_memory::zeros(alloc, BLOCK)?,
            touched: Touched::new(alloc)?,
        })
    }
}
