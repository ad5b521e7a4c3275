//! How a run ends: its report is written, and its status is found.

ghost use Rattle.std.specs.Prelude.{◌≡◌, IfOk};
ghost use Rattle.std.specs.List.{All};
ghost use Rattle.dl_report.specs.Counts.{HasStreams};
ghost use Rattle.dl_startup.specs.Failures.{unserved};
ghost use Rattle.dl_replay.specs.Finish.{Finishes, frames_for, report_for};

use crate::task::Task;
use dl_bytes::{Bytes, OutOfMemory};
use dl_outside::{Sink, write_text};
use dl_report::report;
use dl_startup::{Failures, Status, unserved};
use dl_world::Played;
use std::alloc::Global;

/// The report of what was played, with the frames of the clients where the task shows them.
fn report_for(alloc: Global, task: Task, played: &Played) -> Result<Bytes, OutOfMemory>
    requires { All (HasStreams (frames_for task played.now)) played.now.ends.links }
    ensures { IfOk result (λ text. text ≡ report_for task played.now) }
{
    let frames = match task {
        Task::Steps => Some(&played.streams),
        Task::Generate { .. } => None,
    };
    report(
        alloc,
        &played.records,
        played.events.events(),
        played.specs.all(),
        &played.ends,
        played.backlog,
        frames,
    )
}

/// Writes the report of what was played, and finds the status of the run.
pub fn finish<O: Sink>(
    alloc: Global,
    task: Task,
    played: &Played,
    failed: bool,
    out: &mut O,
) -> Status
    requires { All (HasStreams (frames_for task played.now)) played.now.ends.links }
    ensures { Finishes (report_for task played.now) failed played.now.ends.trace.end (unserved played.now.events.events)
        (O.told out.old) (O.told out.new) result }
{
    let Ok(text) = report_for(alloc, task, played) else {
        return Status::OutOfMemory;
    };
    let written = write_text(out, text.all()).is_ok();
    let failures = Failures {
        net: false,
        folder: failed,
        names_spent: false,
        journal_full: false,
        output: !written,
        memory: unserved(played.events.events()),
    };
    failures.with_trace(played.ends.trace.end).status()
}
