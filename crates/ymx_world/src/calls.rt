//! A call on one session of the world, and its answer.

ghost use Rattle.std.specs.Prelude.{◌≡◌, ◌≤◌, length, IfOk, OnErr};
ghost use Rattle.ymx_machine.specs.shared.Steps.{answer_of};
ghost use Rattle.ymx_session.specs.Applied.{IsSizeOfCall, in_buffer, counted};
ghost use Rattle.ymx_world.specs.Acts.{IsCalled};

use std::alloc::Global;
use ymx_memory::RefusedAllocation;
use ymx_model::{Answer, Bytes, Call, Event, Lent, Reply};
use ymx_session::Session;

/// The same call, with its bytes made anew.
macro_rules! same_call {
    ($call:expr, $bytes:ident => $made:expr) => {
        match $call {
            Call::Open => Call::Open,
            Call::OpenWith($bytes) => Call::OpenWith($made),
            Call::Accept => Call::Accept,
            Call::Write(id, $bytes) => Call::Write(*id, $made),
            Call::Read(id, max) => Call::Read(*id, *max),
            Call::Finish(id) => Call::Finish(*id),
            Call::Reset(id) => Call::Reset(*id),
            Call::Forget(id) => Call::Forget(*id),
            Call::Ping => Call::Ping,
            Call::Ponged(number) => Call::Ponged(*number),
            Call::GoAway => Call::GoAway,
            Call::Close => Call::Close,
        }
    };
}

pub(crate) use same_call;

/// Makes a call. Where there is no memory for the bytes of a read, the call is not made.
pub(crate) fn make_call(
    alloc: Global,
    session: &mut Session,
    call: &Call<Bytes>,
) -> Result<Answer, RefusedAllocation>
    ensures called { IfOk result (λ given. IsCalled call.now given session.old session.new) }
    ensures same { OnErr result (session.new ≡ session.old) }
{
    let mut buffer = ymx_memory::zeros_as_asked(alloc, size_of(call))?;
    let told = session.apply(&Event::Call(lent(call)), buffer.as_mut_slice());
    Ok(answer(told, buffer))
}

/// The size of the buffer of a call: how many bytes a read may give, and 0 for any other.
fn size_of(call: &Call<Bytes>) -> usize
    ensures { IsSizeOfCall call.now result }
{
    match call {
        Call::Read(_, max) => *max,
        _ => 0,
    }
}

/// The call, with its bytes lent.
fn lent(call: &Call<Bytes>) -> Call<Lent<'_>>
    ensures { result ≡ call.now }
{
    same_call!(call, bytes => Lent::new(bytes.as_slice()))
}

/// What the world answers for a reply that counts its bytes, which stand at the front of this buffer.
fn answer(told: Reply<usize>, buffer: Vec<u8>) -> Answer
    requires { counted told ≤ length buffer.items }
    ensures { result ≡ answer_of (in_buffer buffer.items told) }
{
    match told {
        Reply::Opened(id) => Answer::Opened(id),
        Reply::OpenedWith(id, taken) => Answer::OpenedWith(id, taken),
        Reply::Accepted(id) => Answer::Accepted(id),
        Reply::Wrote(wrote) => Answer::Wrote(wrote),
        Reply::Read(count) => {
            let mut bytes = buffer;
            bytes.truncate(count);
            Answer::Read(Bytes::from_vec(bytes))
        }
        Reply::ReadEnd => Answer::ReadEnd,
        Reply::ReadWait => Answer::ReadWait,
        Reply::Done => Answer::Done,
        Reply::Pinged(number) => Answer::Pinged(number),
        Reply::Ponged(back) => Answer::Ponged(back),
        Reply::Refused(fault) => Answer::Refused(fault),
        Reply::Fed(fed) => Answer::Fed(fed),
        Reply::Emitted(count) => Answer::Emitted(count),
    }
}
