//! Calls on one stream.

ghost use Rattle.std.specs.Prelude.{◌≡◌, ◌<◌, ◌≤◌, ◌↔◌, ◌++◌, [], ◌∷◌, length, take, drop, true, false, None, Some, IsTrue, IfOk, IfErr};
ghost use Rattle.ymx_machine.specs.declared.types.Call.TheVariants as call;
ghost use Rattle.ymx_machine.specs.declared.types.CallFault.TheVariants.{Reset};
ghost use Rattle.ymx_machine.specs.declared.types.Reply.TheVariants.{ReadEnd, ReadWait, Wrote as WroteReply};
ghost use Rattle.ymx_machine.specs.shared.Lists.{look};
ghost use Rattle.ymx_model.specs.session.Calls.{write_to, read_from, finish, reset, forget, takes_memory};
ghost use Rattle.ymx_session.specs.Releases.{has_stream, goes_on};
ghost use Rattle.ymx_session.specs.Streams.{waiting, room_of, has_ended, unsent_of, unsent_total, is_acknowledged};
ghost use Rattle.ymx_session.specs.Replies.{wrote_or, read_or, count_of, done_or, is_out_of_memory, stream_fault};

use crate::state::State;
use ymx_half::{Stage, StreamRec};
use ymx_model::{CallFault, Got, Status, Wrote};

impl State {
    /// The stream that the caller has under this id, or why the caller has none.
    pub(crate) fn stream(&self, id: u32) -> Result<&StreamRec, CallFault>
        ensures there { IfOk result (λ stream. look id self.now.table.entries ≡ Some stream.now) }
        ensures may { IfOk result (λ stream. stream_fault id self.now ≡ None) }
        ensures refused { IfErr result (λ fault. stream_fault id self.now ≡ Some fault) }
    {
        if self.status == Status::Closed {
            return Err(CallFault::Closed);
        }
        let Some(stream) = self.table.get(id) else {
            return Err(CallFault::NoStream);
        };
        match stream.stage() {
            Stage::Reset => Err(CallFault::Reset),
            Stage::Offered | Stage::Lingering => Err(CallFault::NoStream),
            Stage::Live => Ok(stream),
        }
    }

    /// Writes as much as the credit allows.
    pub(crate) fn write(&mut self, id: u32, bytes: &[u8]) -> Result<Wrote, CallFault>
        ensures outcome { is_out_of_memory result ≡ false → (wrote_or result ≡ (write_to id bytes.now self.old).reply) × (self.new ≡ (write_to id bytes.now self.old).next) }
        ensures out_of_memory { is_out_of_memory result ≡ true → (takes_memory (call.Write id bytes.now) self.old ≡ true) × (self.new ≡ self.old) }
    {
        self.table.locate(id);
        let stream = self.stream(id)?;
        if stream.is_finished() {
            return Err(CallFault::Finished);
        }
        if self.is_lost() {
            return Err(CallFault::Lost);
        }
        if bytes.is_empty() {
            return Ok(Wrote::Took(0));
        }
        if stream.credit() == 0 {
            return Ok(Wrote::Wait);
        }
        match self.table.write(id, bytes) {
            Ok(count) => Ok(Wrote::Took(count)),
            Err(refused) => Err(CallFault::OutOfMemory(refused)),
        }
    }

    /// Reads what is there, as far as it fits.
    pub(crate) fn read(&mut self, id: u32, buffer: &mut [u8]) -> Result<Got, CallFault>
        ensures reply { read_or result buffer.new ≡ (read_from id (length buffer.old) self.old).reply }
        ensures state { self.new ≡ (read_from id (length buffer.old) self.old).next }
        ensures within { count_of result ≤ length buffer.old }
        ensures rest { buffer.new ≡ take (count_of result) buffer.new ++ drop (count_of result) buffer.old }
    {
        self.table.locate(id);
        let stream = self.stream(id)?;
        if buffer.is_empty() {
            return Ok(Got::Bytes(0));
        }
        if stream.unread_len() > 0 {
            let count = self.table.read(id, buffer);
            return Ok(Got::Bytes(count));
        }
        if stream.has_ended() {
            return Ok(Got::End);
        }
        if self.is_lost() {
            return Err(CallFault::Lost);
        }
        Ok(Got::Wait)
    }

    /// Drops the first unread bytes, as a read of them would take them out.
    pub(crate) fn consume(&mut self, id: u32, count: usize) -> Result<Got, CallFault>
        ensures reply { read_or result (take count (waiting id self.old)) ≡ (read_from id count self.old).reply }
        ensures state { self.new ≡ (read_from id count self.old).next }
        ensures within { count_of result ≤ count }
        ensures there { count_of result ≤ length (waiting id self.old) }
    {
        self.table.locate(id);
        let stream = self.stream(id)?;
        if count == 0 {
            return Ok(Got::Bytes(0));
        }
        let has_bytes = stream.unread_len() > 0;
        if has_bytes {
            let taken = self.table.consume(id, count);
            return Ok(Got::Bytes(taken));
        }
        if stream.has_ended() {
            return Ok(Got::End);
        }
        if self.is_lost() {
            return Err(CallFault::Lost);
        }
        Ok(Got::Wait)
    }

    /// How many bytes may be written now.
    pub(crate) fn room(&self, id: u32) -> usize
        ensures { result ≡ room_of id self.now }
    {
        let Ok(stream) = self.stream(id) else {
            return 0;
        };
        if stream.is_finished() || self.is_lost() {
            return 0;
        }
        stream.credit() as usize
    }

    /// Gives memory of a stream back that it doesn't need.
    pub(crate) fn shrink(&mut self, id: u32) -> Result<bool, CallFault>
        ensures same { self.new ≡ self.old }
        ensures may { IfOk result (λ shrunk. stream_fault id self.old ≡ None) }
        ensures refused { IfErr result (λ fault. stream_fault id self.old ≡ Some fault) }
    {
        self.stream(id)?;
        Ok(self.table.shrink(id))
    }

    /// Half-closes a stream.
    pub(crate) fn finish(&mut self, id: u32) -> Result<(), CallFault>
        ensures reply { done_or result ≡ (finish id self.old).reply }
        ensures state { self.new ≡ (finish id self.old).next }
    {
        let stream = self.stream(id)?;
        if stream.is_finished() {
            return Err(CallFault::Finished);
        }
        if self.is_lost() {
            return Err(CallFault::Lost);
        }
        self.table.finish(id);
        Ok(())
    }

    /// Resets a stream.
    pub(crate) fn reset(&mut self, id: u32) -> Result<(), CallFault>
        ensures reply { done_or result ≡ (reset id self.old).reply }
        ensures state { self.new ≡ (reset id self.old).next }
    {
        self.stream(id)?;
        if self.is_lost() {
            return Err(CallFault::Lost);
        }
        self.table.reset(id, Stage::Reset);
        Ok(())
    }

    /// Gives a stream up.
    pub(crate) fn forget(&mut self, id: u32) -> Result<(), CallFault>
        ensures reply { done_or result ≡ (forget id self.old).reply }
        ensures state { self.new ≡ (forget id self.old).next }
    {
        if self.status == Status::Closed {
            return Err(CallFault::Closed);
        }
        let Some(stream) = self.table.get(id) else {
            return Err(CallFault::NoStream);
        };
        if !matches!(stream.stage(), Stage::Live | Stage::Reset) {
            return Err(CallFault::NoStream);
        }
        let lost = self.is_lost();
        self.table.forget(id, lost);
        self.drop_if_done(id);
        Ok(())
    }
}
