//! A log call of a script, as a picture shows it.

ghost use Rattle.std.specs.Prelude.{◌≡◌};
ghost use Rattle.dl_call_timeline.specs.Calls.{counted, teller_of};

use dl_picture::{Bin, no_bin};

/// An overflow record: it tells of calls that are missing.
#[derive(Clone, Copy, PartialEq, Eq, Hash)]
pub struct RecordName {
    /// The line of the script in which it was told; 0 where none is known.
    pub line: u64,
    /// The client that was handed it at its coming; 0 where the ring of an application was full.
    pub client: u32,
}

/// What became of a log call.
#[derive(Clone, Copy, PartialEq, Eq)]
pub enum Outcome {
    /// It was admitted: a client has it, or it waits for the next one.
    Admitted,
    /// It lies in its ring.
    InRing,
    /// A level filtered it.
    Filtered,
    /// It was lost where a ring was full, or refused where the buffer was.
    Missing {
        /// The overflow record that tells of it, where one does.
        told: Option<RecordName>,
    },
}

/// A log call of a script.
#[derive(Clone, Copy, PartialEq, Eq)]
pub struct Call {
    /// The number of its writer, from 1.
    pub writer: u8,
    /// The number of its line, from 1.
    pub line: u64,
    /// Its timestamp, in units of 0.1 ms.
    pub ticks: u32,
    /// What became of it.
    pub outcome: Outcome,
}

impl Call {
    /// The overflow record that tells of it, where it is missing and one does.
    pub fn teller(&self) -> Option<RecordName>
        ensures { result ≡ teller_of self.now }
    {
        match self.outcome {
            Outcome::Missing { told } => told,
            Outcome::Admitted => None,
            Outcome::InRing => None,
            Outcome::Filtered => None,
        }
    }

    /// What it counts itself, with its line. In its ring it counts nothing.
    pub fn counted(&self) -> Bin
        ensures { result ≡ counted self.now }
    {
        let line = Bin {
            first_line: self.line,
            last_line: self.line,
            ..no_bin()
        };
        match self.outcome {
            Outcome::Admitted => Bin {
                messages: 1,
                ..line
            },
            Outcome::InRing => no_bin(),
            Outcome::Filtered => Bin {
                filtered: 1,
                ..line
            },
            Outcome::Missing { told: _ } => Bin { missing: 1, ..line },
        }
    }
}
