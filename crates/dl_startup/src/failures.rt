//! What went wrong in a run, and the status that it ends with.

ghost use Rattle.std.specs.Prelude.{◌≡◌};
ghost use Rattle.dl_startup.specs.Failures.{is_unserved, status_of, unserved, with_trace};

use crate::status::Status;
use dl_bytes::{Done, TraceEnd};
use dl_events::Event;

/// What went wrong in a run whose report was made.
#[derive(Clone, Copy, PartialEq, Eq)]
pub struct Failures {
    /// A net failed.
    pub net: bool,
    /// The folder failed.
    pub folder: bool,
    /// A frame needed a trace file with a number above 999999.
    pub names_spent: bool,
    /// The journal was full.
    pub journal_full: bool,
    /// The report was not written whole.
    pub output: bool,
    /// Some part of the work ran out of memory.
    pub memory: bool,
}

impl Failures {
    /// The same, with what the end of a trace adds to it.
    pub fn with_trace(self, end: Option<TraceEnd>) -> Failures
        ensures { result ≡ with_trace end self }
    {
        match end {
            None => self,
            Some(TraceEnd::Failed) => Failures {
                folder: true,
                ..self
            },
            Some(TraceEnd::Spent) => Failures {
                names_spent: true,
                ..self
            },
            Some(TraceEnd::NoMemory) => Failures {
                memory: true,
                ..self
            },
        }
    }

    /// The status of the run: that of the gravest failure.
    pub fn status(self) -> Status
        ensures { result ≡ status_of self }
    {
        if self.net {
            Status::NetFault
        } else if self.folder {
            Status::FolderFault
        } else if self.names_spent {
            Status::NamesSpent
        } else if self.journal_full {
            Status::JournalFull
        } else if self.output {
            Status::WriteFault
        } else if self.memory {
            Status::OutOfMemory
        } else {
            Status::Ok
        }
    }
}

/// Whether the event is a Store or a Reset for which there was no memory.
fn is_unserved(event: &Event) -> bool
    ensures { result ≡ is_unserved event.now }
{
    matches!(
        event,
        Event::Request {
            done: Done::NoMemory,
            ..
        }
    )
}

/// Whether some Store or Reset had no memory.
pub fn unserved(events: &[Event]) -> bool
    ensures { result ≡ unserved events.now }
{
    events.iter().any(|event| is_unserved(event))
}
