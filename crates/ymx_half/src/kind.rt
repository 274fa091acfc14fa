//! Whether a half is open, or its end is there.

/// The kind of a half: each direction of a stream has one that is open and one that is over, and both kinds share what
/// serves both.
pub trait Kind: Drop {
    ghost use Rattle.std.specs.Prelude.{Bool};

    ghost OVER: { Bool };
}

/// The kind of a half that was not finished, or whose end has not arrived.
#[derive(Drop)]
pub struct Open;

/// The kind of a half that was finished, or whose end has arrived.
#[derive(Drop)]
pub struct Over;

impl Kind for Open {
    ghost use Rattle.std.specs.Prelude.{false};

    ghost OVER = { false };
}

impl Kind for Over {
    ghost use Rattle.std.specs.Prelude.{true};

    ghost OVER = { true };
}
