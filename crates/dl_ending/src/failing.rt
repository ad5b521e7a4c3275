//! What the account of a run and its log storage tell of what went wrong.

ghost use Rattle.std.specs.Prelude.{◌≡◌};
ghost use Rattle.dl_ending.specs.Ending.{failures_with, is_unheard, unheard};
ghost use Rattle.dl_ending.specs.Storage.{has_failed, has_no_memory, is_spent, some_end, with_storage};

use dl_account::Account;
use dl_bytes::TraceEnd;
use dl_events::{Event, Why};
use dl_startup::{Failures, unserved};
use dl_storage::{StoreEnd, StoreEnds};

/// Whether a client was closed at a request for which there was no memory.
fn is_unheard(event: &Event) -> bool
    ensures { result ≡ is_unheard event.now }
{
    matches!(
        event,
        Event::Close {
            why: Why::NoMemory,
            ..
        }
    )
}

/// Whether some client was.
fn unheard(events: &[Event]) -> bool
    ensures { result ≡ unheard events.now }
{
    events.iter().any(|event| is_unheard(event))
}

/// What went wrong in a run, with what its account tells: memory ran out for a Store, for a Reset or for a client's request, or
/// the trace ended.
pub fn failures_with(account: &Account, failures: Failures) -> Failures
    ensures { result ≡ failures_with account.now failures }
{
    let events = account.events();
    let memory = failures.memory || unserved(events) || unheard(events);
    let known = Failures { memory, ..failures };
    known.with_trace(account.ends().trace.end)
}

/// Whether a filter ended since the folder failed.
fn has_failed(end: &StoreEnd) -> bool
    ensures { result ≡ has_failed end.now.end }
{
    matches!(end.end, Some(TraceEnd::Failed))
}

/// Whether a filter ended since no file can have the next number.
fn is_spent(end: &StoreEnd) -> bool
    ensures { result ≡ is_spent end.now.end }
{
    matches!(end.end, Some(TraceEnd::Spent))
}

/// Whether a filter ended since memory ran out.
fn has_no_memory(end: &StoreEnd) -> bool
    ensures { result ≡ has_no_memory end.now.end }
{
    matches!(end.end, Some(TraceEnd::NoMemory))
}

/// Whether some filter's files failed.
fn some_failed(ends: &[StoreEnd]) -> bool
    ensures { result ≡ some_end has_failed ends.now }
{
    ends.iter().any(|end| has_failed(end))
}

/// Whether the numbers of some filter's files are spent.
fn some_spent(ends: &[StoreEnd]) -> bool
    ensures { result ≡ some_end is_spent ends.now }
{
    ends.iter().any(|end| is_spent(end))
}

/// Whether some filter ran out of memory.
fn some_wanted(ends: &[StoreEnd]) -> bool
    ensures { result ≡ some_end has_no_memory ends.now }
{
    ends.iter().any(|end| has_no_memory(end))
}

/// What went wrong in a run, with what the ends of its filters add.
pub fn with_storage(ends: &StoreEnds, failures: Failures) -> Failures
    ensures { result ≡ with_storage ends.now.filters failures }
{
    let ends = ends.filters.all();
    Failures {
        folder: failures.folder || some_failed(ends),
        names_spent: failures.names_spent || some_spent(ends),
        memory: failures.memory || some_wanted(ends),
        ..failures
    }
}
