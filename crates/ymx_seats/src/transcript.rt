//! The transcript that a hub hands out at its end.

ghost use Rattle.std.specs.Prelude.{◌≡◌};
ghost use Rattle.ymx_seats.specs.Transcripts.{IsGood, IsReplayable};

use std::marker::Model;
use ymx_model::{Config, Entry, Role};

/// All events of a session in their order, with what they answered. A contract sees which side the session was,
/// with which config it was made, and the entries; and that these are the history of that session: from the one
/// that has done nothing each event gives its reply.
#[derive(Drop)]
pub struct Transcript {
    role: Role,
    config: Config,
    entries: Vec<Entry>,
}

impl Model for Transcript {
    ghost use Rattle.ymx_seats.specs.Transcripts.{IsReplayable, TranscriptView};

    ghost Value = { TranscriptView };

    ghost view = { λ t. record { role = t.role; config = t.config; entries = t.entries.items } };

    ghost invariant = { λ t. IsReplayable (record { role = t.role; config = t.config; entries = t.entries.items }) };
}

impl Transcript {
    /// The transcript of these entries, which are the history of a session of this role and config.
    pub fn new(role: Role, config: Config, entries: Vec<Entry>) -> Transcript
        requires { IsReplayable (record { role = role; config = config; entries = entries.items }) }
        ensures { result ≡ record { role = role; config = config; entries = entries.items } }
    {
        Transcript {
            role,
            config,
            entries,
        }
    }

    /// Which side of the connection the session was.
    pub fn role(&self) -> Role
        ensures { result ≡ self.now.role }
    {
        self.role
    }

    /// With what the session was made. Its first id is that of the first own stream, and never 0.
    pub fn config(&self) -> Config
        ensures config { result ≡ self.now.config }
        ensures good { IsGood self.now.role result }
    {
        self.config
    }

    /// The entries in their order: their positions are 0, 1, 2, ..
    pub fn entries(&self) -> &[Entry]
        ensures entries { result.now ≡ self.now.entries }
        ensures replays { IsReplayable self.now }
    {
        &self.entries
    }
}
