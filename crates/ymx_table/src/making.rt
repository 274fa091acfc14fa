//! Records of new streams, with the memory of streams that are gone where there is some.

ghost use Rattle.std.specs.Prelude.{◌≡◌, ◌≤◌, length, take, min, true, false, IfOk};
ghost use Rattle.ymx_machine.specs.shared.Limits.{first_credit};
ghost use Rattle.ymx_machine.specs.shared.Phases.Phase.{Live as LivePhase, Offered as OfferedPhase};
ghost use Rattle.ymx_model.specs.session.Records.{new_end, end_write};

use crate::Table;
use std::alloc::Global;
use ymx_half::{FIRST_CREDIT, StreamRec};
use ymx_memory::RefusedAllocation;

impl Table {
    /// Makes the record of a stream that is opened here, with as many of these first bytes as its credit allows, and
    /// says how many these are. See `StreamRec::opened`. It takes memory where no stream left any; without it it
    /// answers `RefusedAllocation`. The table is as it was.
    pub fn opened(
        &mut self,
        alloc: Global,
        with_data: bool,
        bytes: &[u8],
    ) -> Result<(StreamRec, usize), RefusedAllocation>
        ensures took { IfOk result (λ made. made.1 ≡ min (length bytes.now) first_credit) }
        ensures made { IfOk result (λ made. made.0 ≡ end_write (take made.1 bytes.now) (new_end self.old.window LivePhase true with_data)) }
        ensures same { self.new ≡ self.old }
    {
        let window = self.window();
        self.pool
            .stock(alloc, self.records.len(), FIRST_CREDIT as usize);
        let mut stream = StreamRec::opened(alloc, &mut self.pool, window, with_data)?;
        let count = stream.write(&mut self.pool, bytes).unwrap();
        Ok((stream, count))
    }

    /// Makes the record of a stream that the peer opened. See `StreamRec::offered`. It takes memory where no stream
    /// left any; without it it answers `RefusedAllocation`. The table is as it was.
    pub fn offered(&mut self, alloc: Global) -> Result<StreamRec, RefusedAllocation>
        ensures made { IfOk result (λ stream. stream ≡ new_end self.old.window OfferedPhase false false) }
        ensures same { self.new ≡ self.old }
        ensures narrowest { first_credit ≤ self.old.window }
    {
        let window = self.window();
        self.pool
            .stock(alloc, self.records.len(), FIRST_CREDIT as usize);
        StreamRec::offered(alloc, &mut self.pool, window)
    }
}
