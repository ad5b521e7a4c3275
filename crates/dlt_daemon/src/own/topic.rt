//! The contexts of the daemon as a program of its own.

/// The id of the daemon as an application.
pub const APPLICATION: [u8; 4] = *b"DA1\0";

/// What a context of the daemon is of.
#[derive(Clone, Copy, PartialEq, Eq)]
pub enum Topic {
    /// Clients.
    Clients,
    /// External applications.
    Programs,
    /// Log levels.
    Levels,
    /// The offline trace.
    Trace,
}

/// The contexts, by their places.
pub const TOPICS: [Topic; 4] = [Topic::Clients, Topic::Programs, Topic::Levels, Topic::Trace];

impl Topic {
    /// Its place.
    pub fn place(self) -> usize {
        match self {
            Topic::Clients => 0,
            Topic::Programs => 1,
            Topic::Levels => 2,
            Topic::Trace => 3,
        }
    }

    /// The id of its context.
    pub fn ctid(self) -> [u8; 4] {
        match self {
            Topic::Clients => *b"CLI\0",
            Topic::Programs => *b"PRG\0",
            Topic::Levels => *b"LVL\0",
            Topic::Trace => *b"TRC\0",
        }
    }

    /// The description of its context.
    pub fn words(self) -> &'static [u8] {
        match self {
            Topic::Clients => b"clients",
            Topic::Programs => b"external applications",
            Topic::Levels => b"log levels",
            Topic::Trace => b"offline trace",
        }
    }
}
