//! The debt of a reader.

ghost use Rattle.std.specs.Prelude.{◌≡◌, ◌+◌, ◌-◌, ◌*◌, ◌≤◌, ◌↔◌, nat_le, IsSome, IfSome};

use std::marker::Model;

/// The window of one direction of a stream, and how many of its bytes were read and not yet
/// announced to the peer (flow control). A contract sees a record of both.
#[derive(Clone, Copy)]
pub struct Debt {
    window: u32,
    owed: u32,
}

impl Model for Debt {
    ghost use Rattle.std.specs.Prelude.{◌≤◌};
    ghost use Rattle.ymx_credit.specs.Debts.{Owing};

    ghost Value = { Owing };

    ghost view = { λ debt. record { window = debt.window; owed = debt.owed } };

    ghost invariant = { λ debt. debt.owed ≤ debt.window };

    ghost inverse = { λ owing. record { window = owing.window; owed = owing.owed } };
}

impl Debt {
    /// Nothing is owed of a window of so many bytes.
    pub fn new(window: u32) -> Debt
        ensures { result ≡ record { window = window; owed = 0 } }
    {
        Debt::starting(window, 0)
    }

    /// So many bytes of the window are owed from the start: the peer's first credit is smaller than
    /// the window by these.
    pub fn starting(window: u32, owed: u32) -> Debt
        requires { owed ≤ window }
        ensures { result ≡ record { window = window; owed = owed } }
    {
        Debt { window, owed }
    }

    /// The window, in bytes.
    pub fn window(&self) -> u32
        ensures { result ≡ self.now.window }
    {
        self.window
    }

    /// How many bytes were read and not yet announced.
    pub fn owed(&self) -> u32
        ensures owed { result ≡ self.now.owed }
        ensures within { self.now.owed ≤ self.now.window }
    {
        self.owed
    }

    /// `n` bytes more were read. The peer never has more unread here than its window, so what is
    /// owed stays within it.
    pub fn read(&mut self, n: u32)
        requires { self.old.owed + n ≤ self.old.window }
        ensures { self.new ≡ record self.old { owed = self.old.owed + n } }
    {
        self.owed += n;
    }

    /// The bytes to announce now: all that are owed, once they are at least half the window; none
    /// before. Of a window of 262,144 bytes the first 131,071 wait, and one byte more makes 131,072
    /// due.
    pub fn due(&self) -> Option<u32>
        ensures half { IsSome result ↔ (self.now.window ≤ 2 * self.now.owed) }
        ensures all { IfSome result (λ n. n ≡ self.now.owed) }
    {
        is_half_owed(self.window, self.owed).then_some(self.owed)
    }

    /// All that is owed is announced: how many bytes these are. Nothing is owed then.
    pub fn announced(&mut self) -> u32
        ensures all { result ≡ self.old.owed }
        ensures none_left { self.new ≡ record self.old { owed = 0 } }
    {
        let owed = self.owed;
        self.owed = 0;
        owed
    }

    /// `n` of the bytes that are owed are announced, as by the frame that opens or accepts a stream.
    pub fn announced_part(&mut self, n: u32)
        requires { n ≤ self.old.owed }
        ensures { self.new ≡ record self.old { owed = self.old.owed - n } }
    {
        self.owed -= n;
    }
}

/// Whether at least half of a window, in bytes, is owed: only then is it announced (flow control).
///
/// Example: of a window of 262,145 bytes 131,072 are less than half, and 131,073 are enough.
pub fn is_half_owed(window: u32, owed: u32) -> bool
    ensures { result ≡ nat_le window (2 * owed) }
{
    u64::from(window) <= 2 * u64::from(owed)
}
