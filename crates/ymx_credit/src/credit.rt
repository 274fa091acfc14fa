//! The credit of a writer.

ghost use Rattle.std.specs.Prelude.{◌≡◌, ◌+◌, ◌-◌, ◌<◌, ◌≤◌, ◌↔◌, IsOk, OnOk, OnErr, Err};

use std::marker::Model;
use ymx_header::Fault;

/// How many bytes may still be written to a stream (flow control): at most 4,294,967,295. A contract
/// sees that number.
#[derive(Clone, Copy)]
pub struct Credit {
    left: u32,
}

impl Model for Credit {
    ghost use Rattle.std.specs.Prelude.{ℕ, ◌≤◌};

    ghost Value = { ℕ };

    ghost view = { λ credit. credit.left };

    ghost invariant = { λ credit. credit.left ≤ 4294967295 };

    ghost inverse = { λ left. record { left = left } };
}

impl Credit {
    /// So many bytes may be written.
    pub fn new(left: u32) -> Credit
        ensures { result ≡ left }
    {
        Credit { left }
    }

    /// How many bytes may still be written.
    pub fn left(&self) -> u32
        ensures left { result ≡ self.now }
        ensures limit { self.now ≤ 4294967295 }
    {
        self.left
    }

    /// `n` bytes are written. The caller sees to it that they are no more than may be.
    pub fn spend(&mut self, n: u32)
        requires { n ≤ self.old }
        ensures { self.new ≡ self.old - n }
    {
        self.left -= n;
    }

    /// The peer lets `delta` bytes more be written (Window Update). `CreditOverflow` (B6) exactly if
    /// the sum is above 4,294,967,295; the credit then stays as it is.
    pub fn grant(&mut self, delta: u32) -> Result<(), Fault>
        ensures good { IsOk result ↔ (self.old + delta ≤ 4294967295) }
        ensures overflow { (result ≡ Err Fault.CreditOverflow) ↔ (4294967295 < self.old + delta) }
        ensures granted { OnOk result (self.new ≡ self.old + delta) }
        ensures unchanged { OnErr result (self.new ≡ self.old) }
    {
        self.left = self.left.checked_add(delta).ok_or(Fault::CreditOverflow)?;
        Ok(())
    }
}
