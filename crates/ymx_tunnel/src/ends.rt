//! The ends of a copy that are halves of streams: where bytes go, and where they come from.

ghost use Rattle.std.specs.Prelude.{ℕ, List, Option, Result, ◌≡◌, ◌<◌, ◌≤◌, length, take, IfErr, IfOk, MatchResult};
ghost use Rattle.std.specs.Io.KnownBytes.{Appends, Keeps, WriteAppends};
ghost use Rattle.ymx_hub.specs.declared.faults.HubFault.{HubFault as Fault};

use std::sync::Wait;
use ymx_hub::{HubFault, WriteFault};

/// Where the bytes of a copy go, as the writing half of a stream. It must be spent, by `finish` or `reset`.
///
/// A contract sees the bytes that it has taken, where it can tell them, and reads them from what is left of it too.
pub trait Sink {
    /// What is left of it once it is spent.
    type Left;

    /// The bytes taken so far, if it can tell.
    ghost taken: { Self → Option (List ℕ) };

    /// The bytes taken in all, if what is left can tell.
    ghost taken_in_all: { Self.Left → Option (List ℕ) };

    /// A write of it was refused for this reason.
    ghost HasRefused: { Self → Fault → Type 0 };

    /// It was finished, this is left of it, and this was answered.
    ghost Finishes: { Self → Self.Left → Result (Unit {0}) Fault → Type 0 };

    /// It was reset, this is left of it, and this was answered.
    ghost Resets: { Self → Self.Left → Result (Unit {0}) Fault → Type 0 };

    /// Takes all these bytes. At a fault it has taken the first `taken` of them.
    fn write_all<W: Wait>(&mut self, rt: &W, bytes: &[u8]) -> Result<(), WriteFault>
        ensures within { IfErr result (λ stop. stop.taken ≤ length bytes.now) }
        ensures took { MatchResult result (λ _. Appends (taken self.old) (taken self.new) bytes.now)
            (λ stop. Appends (taken self.old) (taken self.new) (take stop.taken bytes.now)) }
        ensures refused { IfErr result (λ stop. HasRefused self.new stop.fault) };

    /// No more bytes come: they were all.
    fn finish<W: Wait>(self, rt: &W) -> (Self::Left, Result<(), HubFault>)
        ensures kept { Keeps (taken self) (taken_in_all result.0) }
        ensures finished { Finishes self result.0 result.1 };

    /// No more bytes come, though there may have been more.
    fn reset<W: Wait>(self, rt: &W) -> (Self::Left, Result<(), HubFault>)
        ensures kept { Keeps (taken self) (taken_in_all result.0) }
        ensures reset { Resets self result.0 result.1 };
}

/// Where the bytes of a copy come from, as the reading half of a stream. It must be spent, by `close`.
///
/// A contract sees the bytes that it has given, where it can tell them, and reads them from what is left of it too.
pub trait Source {
    /// What is left of it once it is spent.
    type Left;

    /// The bytes given so far, if it can tell.
    ghost given: { Self → Option (List ℕ) };

    /// The bytes given in all, if what is left can tell.
    ghost given_in_all: { Self.Left → Option (List ℕ) };

    /// It has said that no more bytes come.
    ghost HasEnded: { Self → Type 0 };

    /// It had said so before it was closed, and this is left of it.
    ghost EndedBefore: { Self.Left → Type 0 };

    /// A read of it was refused for this reason.
    ghost HasRefused: { Self → Fault → Type 0 };

    /// One was refused so before it was closed, and this is left of it.
    ghost RefusedBefore: { Self.Left → Fault → Type 0 };

    /// Moves the next bytes to the front of the buffer, and answers how many. 0 is the end.
    fn read<W: Wait>(&mut self, rt: &W, buffer: &mut [u8]) -> Result<usize, HubFault>
        requires { 0 < length buffer.old }
        ensures within { IfOk result (λ count. count ≤ length buffer.old) }
        ensures gave { WriteAppends (given self.old) (given self.new) result buffer.new }
        ensures ended { IfOk result (λ count. count ≡ 0 → HasEnded self.new) }
        ensures refused { IfErr result (λ fault. HasRefused self.new fault) };

    /// No more bytes are wanted.
    fn close<W: Wait>(self, rt: &W) -> (Self::Left, Result<(), HubFault>)
        ensures kept { Keeps (given self) (given_in_all result.0) }
        ensures ended { HasEnded self → EndedBefore result.0 }
        ensures refused { (fault : Fault) → HasRefused self fault → RefusedBefore result.0 fault };
}
