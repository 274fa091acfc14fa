//! What a poll reports, by the token under which it was registered.

/// What a poll reports.
#[derive(Clone, Copy)]
pub enum Source {
    /// The connection to the peer. `release/parts.c` knows it by its token.
    Link,
    /// A listener, or what wakes the poll.
    Listener,
    /// SIGUSR1.
    Signal,
    /// The connection of this stream. No id is given twice in a session, so an event that comes late is of a stream that is gone.
    Stream(u32),
}

impl Source {
    /// Its token.
    pub(crate) fn token(self) -> usize {
        match self {
            Source::Link => 0,
            Source::Listener => 1,
            Source::Signal => usize::MAX,
            Source::Stream(id) => id as usize + 1,
        }
    }

    /// What has this token.
    pub(crate) fn of(token: usize) -> Source {
        match token {
            0 => Source::Link,
            1 => Source::Listener,
            _ => u32::try_from(token - 1).map_or(Source::Signal, Source::Stream),
        }
    }
}
