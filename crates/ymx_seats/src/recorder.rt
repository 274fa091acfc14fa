//! What a hub keeps of what is done to its session.

use crate::plays::Naming;
use std::marker::PhantomData;

/// What a recorder is asked with. This crate alone can make one.
#[derive(Drop)]
pub struct RecorderKey {
    _mine: (),
}

impl RecorderKey {
    /// The key of this crate.
    pub(crate) fn new() -> RecorderKey {
        RecorderKey { _mine: () }
    }
}

/// Whether each event becomes an entry at run time, as contracts see by `KEEPS`, and whether it becomes one in proofs, by
/// `WITNESSED`. All recorders share all bodies: only the keeping differs. The caller that holds a session can't ask which one it
/// has, so nothing else depends on it.
pub trait Recorder: Naming + Drop {
    ghost use Rattle.std.specs.Prelude.{Bool, ◌≡◌};

    ghost KEEPS: { Bool };

    ghost WITNESSED: { Bool };

    /// Whether entries are kept.
    fn keeps(key: RecorderKey) -> bool
        ensures { result ≡ KEEPS };
}

/// Keeps nothing, and takes no memory.
#[derive(Drop)]
pub struct Off;

/// Keeps every entry, in the transcript and in the seat of its caller.
#[derive(Drop)]
pub struct Full;

/// Keeps nothing at run time, and every entry in proofs: a journal of this name has the whole history, and each seat knows
/// it as it was at its last event.
#[derive(Drop)]
pub struct Witnessed<J: Naming> {
    of: PhantomData<J>,
}

impl Naming for Off {
    ghost use Rattle.ymx_model.specs.declared.types.Role.TheVariants.{Client};
    ghost use Rattle.ymx_seats.specs.Journals.{no_table, no_config};

    ghost table = { no_table };

    ghost role = { Client };

    ghost config = { no_config };
}

impl Recorder for Off {
    ghost use Rattle.std.specs.Prelude.{true, false};

    ghost KEEPS = { false };

    ghost WITNESSED = { false };

    fn keeps(_key: RecorderKey) -> bool {
        false
    }
}

impl Naming for Full {
    ghost use Rattle.ymx_model.specs.declared.types.Role.TheVariants.{Client};
    ghost use Rattle.ymx_seats.specs.Journals.{no_table, no_config};

    ghost table = { no_table };

    ghost role = { Client };

    ghost config = { no_config };
}

impl Recorder for Full {
    ghost use Rattle.std.specs.Prelude.{true, false};

    ghost KEEPS = { true };

    ghost WITNESSED = { false };

    fn keeps(_key: RecorderKey) -> bool {
        true
    }
}

impl<J: Naming> Naming for Witnessed<J> {
    ghost table = { J.table };

    ghost role = { J.role };

    ghost config = { J.config };
}

impl<J: Naming> Recorder for Witnessed<J> {
    ghost use Rattle.std.specs.Prelude.{true, false};

    ghost KEEPS = { false };

    ghost WITNESSED = { true };

    fn keeps(_key: RecorderKey) -> bool {
        false
    }
}
