//! The report is written, and the status found.

ghost use Rattle.std.specs.Prelude.{◌≡◌, IfOk};
ghost use Rattle.dl_ending.specs.Ending.{Finishes, is_unheard, unheard};
ghost use Rattle.dl_serve.specs.Closed.{failures_of, has_wanted, is_short, is_spent, is_starved, starved, text_of};

use crate::closed::Closed;
use crate::faults::Faults;
use dl_bytes::{Bytes, OutOfMemory, TraceEnd};
use dl_channel::ChannelEnd;
use dl_events::{Event, RecordList, Why};
use dl_outside::{Sink, write_text};
use dl_report::report;
use dl_startup::{Failures, Status, unserved};
use std::alloc::Global;

/// Whether a client was closed at a request for which there was no memory.
fn is_unheard(event: &Event) -> bool
    ensures { result ≡ is_unheard event.now }
{
    matches!(
        event,
        Event::Close {
            why: Why::NoMemory,
            ..
        }
    )
}

/// Whether some client was.
fn unheard(events: &[Event]) -> bool
    ensures { result ≡ unheard events.now }
{
    events.iter().any(|event| is_unheard(event))
}

/// Whether a channel ended since memory ran out.
fn is_starved(end: &Option<ChannelEnd>) -> bool
    ensures { result ≡ is_starved end.now }
{
    matches!(end, Some(ChannelEnd::NoMemory))
}

/// Whether some channel did.
fn starved(ends: &[Option<ChannelEnd>]) -> bool
    ensures { result ≡ starved ends.now }
{
    ends.iter().any(|end| is_starved(end))
}

/// Whether a frame found no name for its trace file.
fn is_spent(end: Option<TraceEnd>) -> bool
    ensures { result ≡ is_spent end }
{
    matches!(end, Some(TraceEnd::Spent))
}

/// Whether memory ran out for the trace.
fn is_short(end: Option<TraceEnd>) -> bool
    ensures { result ≡ is_short end }
{
    matches!(end, Some(TraceEnd::NoMemory))
}

/// Whether memory ran out.
fn has_wanted<L>(closed: &Closed<L>) -> bool
    ensures { result ≡ has_wanted closed.now }
{
    let events = closed.events.events();
    closed.memory
        || unserved(events)
        || unheard(events)
        || starved(closed.ends.all())
        || is_short(closed.state.trace.end)
}

/// What went wrong, by what folder and nets counted before and count now.
pub fn failures_of<L>(closed: &Closed<L>, before: Faults, now: Faults, full: bool) -> Failures
    ensures { result ≡ failures_of closed.now before now full }
{
    Failures {
        net: now.net > before.net || now.users > before.users,
        folder: now.folder > before.folder,
        names_spent: is_spent(closed.state.trace.end),
        journal_full: full,
        output: false,
        memory: has_wanted(closed),
    }
}

/// The report of a server that closed. No call of this process is in it.
fn report_of<L>(alloc: Global, closed: &Closed<L>) -> Result<Bytes, OutOfMemory>
    ensures { IfOk result (λ text. text ≡ text_of closed.now) }
{
    report(
        alloc,
        &RecordList::none(),
        closed.events.events(),
        &[],
        &closed.state,
        closed.backlog,
        None,
    )
}

/// Writes the report of a server that closed, and finds the status: that of the gravest failure. Where there is no memory for the report, nothing is
/// written.
pub fn finish<L, O: Sink>(
    alloc: Global,
    closed: &Closed<L>,
    failures: Failures,
    out: &mut O,
) -> Status
    ensures { Finishes (text_of closed.now) failures (O.told out.old) (O.told out.new) result }
{
    let Ok(text) = report_of(alloc, closed) else {
        return Status::OutOfMemory;
    };
    let output = write_text(out, text.all()).is_err();
    Failures { output, ..failures }.status()
}
