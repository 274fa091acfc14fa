//! What a call answers, as the reply of its event. A reply counts its bytes, which stand at the front of a buffer.

ghost use Rattle.std.specs.Prelude.{◌≡◌, ◌⊎◌, ℕ, List, Bool, Option};
ghost use Rattle.ymx_machine.specs.declared.types.Reply.TheVariants as reply;
ghost use Rattle.ymx_machine.specs.declared.types.Wrote.{Wrote as WroteValue};
ghost use Rattle.ymx_session.specs.Applied.{in_buffer, counted, IsRefusal};
ghost use Rattle.ymx_session.specs.Replies.{done_or, opened_or, opened_with_or, accepted_or, wrote_or, read_or, pinged_or, ponged_or, count_of};

use ymx_model::{CallFault, Got, Reply, Wrote};

/// The reply of a call that answers nothing else.
pub(crate) fn done(given: Result<(), CallFault>) -> Reply<usize>
    ensures reply { (buffer : List ℕ) → in_buffer buffer result ≡ done_or given }
    ensures answer { (result ≡ reply.Done) ⊎ IsRefusal result }
    ensures none { counted result ≡ 0 }
{
    match given {
        Ok(()) => Reply::Done,
        Err(fault) => Reply::Refused(fault),
    }
}

/// The reply of `open`.
pub(crate) fn opened(given: Result<u32, CallFault>) -> Reply<usize>
    ensures reply { (buffer : List ℕ) → in_buffer buffer result ≡ opened_or given }
    ensures answer { ((id : ℕ) × (result ≡ reply.Opened id)) ⊎ IsRefusal result }
    ensures none { counted result ≡ 0 }
{
    match given {
        Ok(id) => Reply::Opened(id),
        Err(fault) => Reply::Refused(fault),
    }
}

/// The reply of `open_with`.
pub(crate) fn opened_with(given: Result<(u32, usize), CallFault>) -> Reply<usize>
    ensures reply { (buffer : List ℕ) → in_buffer buffer result ≡ opened_with_or given }
    ensures answer { ((id : ℕ) × (taken : ℕ) × (result ≡ reply.OpenedWith id taken)) ⊎ IsRefusal result }
    ensures none { counted result ≡ 0 }
{
    match given {
        Ok((id, taken)) => Reply::OpenedWith(id, taken),
        Err(fault) => Reply::Refused(fault),
    }
}

/// The reply of `accept`.
pub(crate) fn accepted(given: Result<Option<u32>, CallFault>) -> Reply<usize>
    ensures reply { (buffer : List ℕ) → in_buffer buffer result ≡ accepted_or given }
    ensures answer { ((id : Option ℕ) × (result ≡ reply.Accepted id)) ⊎ IsRefusal result }
    ensures none { counted result ≡ 0 }
{
    match given {
        Ok(id) => Reply::Accepted(id),
        Err(fault) => Reply::Refused(fault),
    }
}

/// The reply of `write`.
pub(crate) fn wrote(given: Result<Wrote, CallFault>) -> Reply<usize>
    ensures reply { (buffer : List ℕ) → in_buffer buffer result ≡ wrote_or given }
    ensures answer { ((wrote : WroteValue) × (result ≡ reply.Wrote wrote)) ⊎ IsRefusal result }
    ensures none { counted result ≡ 0 }
{
    match given {
        Ok(wrote) => Reply::Wrote(wrote),
        Err(fault) => Reply::Refused(fault),
    }
}

/// The reply of `read`.
pub(crate) fn read(given: Result<Got, CallFault>) -> Reply<usize>
    ensures reply { (buffer : List ℕ) → in_buffer buffer result ≡ read_or given buffer }
    ensures answer { (((count : ℕ) × (result ≡ reply.Read count)) ⊎ (result ≡ reply.ReadEnd) ⊎ (result ≡ reply.ReadWait)) ⊎ IsRefusal result }
    ensures count { counted result ≡ count_of given }
{
    match given {
        Ok(Got::Bytes(count)) => Reply::Read(count),
        Ok(Got::End) => Reply::ReadEnd,
        Ok(Got::Wait) => Reply::ReadWait,
        Err(fault) => Reply::Refused(fault),
    }
}

/// The reply of `ping`.
pub(crate) fn pinged(given: Result<u32, CallFault>) -> Reply<usize>
    ensures reply { (buffer : List ℕ) → in_buffer buffer result ≡ pinged_or given }
    ensures answer { ((number : ℕ) × (result ≡ reply.Pinged number)) ⊎ IsRefusal result }
    ensures none { counted result ≡ 0 }
{
    match given {
        Ok(number) => Reply::Pinged(number),
        Err(fault) => Reply::Refused(fault),
    }
}

/// The reply of `ponged`.
pub(crate) fn ponged(given: Result<bool, CallFault>) -> Reply<usize>
    ensures reply { (buffer : List ℕ) → in_buffer buffer result ≡ ponged_or given }
    ensures answer { ((back : Bool) × (result ≡ reply.Ponged back)) ⊎ IsRefusal result }
    ensures none { counted result ≡ 0 }
{
    match given {
        Ok(back) => Reply::Ponged(back),
        Err(fault) => Reply::Refused(fault),
    }
}
