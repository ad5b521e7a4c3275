//! The program: what the words ask for is played, the report is written, and the status answered.

ghost use Rattle.dl_startup.specs.Input.{GaveAtMost};
ghost use Rattle.dl_replay.specs.Finish.{Ends};
ghost use Rattle.dl_replay.specs.Playing.{OwnFiles, Plays};
ghost use Rattle.dl_replay.specs.Program.{Asks, ChangesOwnFiles, Replays, Runs, Serves};
ghost use Rattle.dl_replay.specs.Task.{IsWithin};
ghost use Rattle.dl_script.specs.Playable.{IsPlayable};

use crate::begin::{Start, begin};
use crate::finish::finish;
use crate::task::{Task, task_of};
use dl_outside::{Folder, Sink, Source};
use dl_startup::{Status, trace_over};
use dl_trace::TraceFault;
use dl_world::{Played, play};
use std::alloc::Global;

/// The program's name, with which each line on standard error begins.
const PROGRAM: &[u8] = b"dlt_replay";

/// The words that it takes, as the line says it that refuses others.
const USAGE: &[u8] = b"dlt_replay steps or generate NUMBER CALLS";

/// Plays what a run begins with: first its trace is made over the files that stand. The answer is what was played, or why
/// nothing was.
fn play_start<F: Folder>(alloc: Global, start: Start, folder: &mut F) -> Result<Played, Status>
    requires { IsPlayable start.steps }
    ensures plays { Plays start (F.told folder.old) (F.told folder.new) result }
    ensures others { OwnFiles start (F.told folder.old).files (F.told folder.new).files }
{
    let Start {
        conf,
        stored,
        steps,
    } = start;
    let trace = match trace_over(alloc, folder, &conf) {
        Ok(trace) => trace,
        Err(TraceFault::Failed) => return Err(Status::FolderFault),
        Err(TraceFault::OutOfMemory) => return Err(Status::OutOfMemory),
    };
    match play(alloc, &conf, stored, trace, &steps, folder) {
        Ok(played) => Ok(played),
        Err(_) => Err(Status::OutOfMemory),
    }
}

/// Plays what a run begins with, and writes its report.
fn perform<F: Folder, O: Sink>(
    alloc: Global,
    task: Task,
    start: Start,
    folder: &mut F,
    out: &mut O,
) -> Status
    requires { IsPlayable start.steps }
    ensures ends { Ends task start (F.told folder.old) (F.told folder.new) (O.told out.old) (O.told out.new) result }
    ensures others { OwnFiles start (F.told folder.old).files (F.told folder.new).files }
{
    let before = folder.faults();
    let played = match play_start(alloc, start, folder) {
        Ok(played) => played,
        Err(status) => return status,
    };
    let failed = folder.faults() > before;
    finish(alloc, task, &played, failed, out)
}

/// Does what a task asks for.
fn serve<F: Folder, I: Source, O: Sink>(
    alloc: Global,
    task: Task,
    input: &mut I,
    folder: &mut F,
    out: &mut O,
) -> Status
    requires { IsWithin task }
    ensures outcome { Serves task (I.told input.old) (I.told input.new) (F.told folder.old) (F.told folder.new)
        (O.told out.old) (O.told out.new) result }
    ensures at_most { GaveAtMost (I.told input.old).left (I.told input.new).left }
    ensures others { ChangesOwnFiles (F.told folder.old).files (F.told folder.new).files }
{
    match begin(alloc, task, input, folder) {
        Ok(start) => perform(alloc, task, start, folder, out),
        Err(status) => status,
    }
}

/// Does what the words ask for.
fn ask<F: Folder, I: Source, O: Sink>(
    alloc: Global,
    words: &[String],
    input: &mut I,
    folder: &mut F,
    out: &mut O,
) -> Status
    ensures asked { Asks words.now (I.told input.old) (I.told input.new) (F.told folder.old) (F.told folder.new)
        (O.told out.old) (O.told out.new) result }
    ensures at_most { GaveAtMost (I.told input.old).left (I.told input.new).left }
    ensures others { ChangesOwnFiles (F.told folder.old).files (F.told folder.new).files }
{
    match task_of(words) {
        Some(task) => serve(alloc, task, input, folder, out),
        None => Status::WordsRefused,
    }
}

/// What `replay` does, with the status by its name.
fn run<F: Folder, I: Source, O: Sink, E: Sink>(
    alloc: Global,
    words: &[String],
    input: &mut I,
    folder: &mut F,
    out: &mut O,
    err: &mut E,
) -> Status
    ensures { Runs words.now (I.told input.old) (I.told input.new) (F.told folder.old) (F.told folder.new)
        (O.told out.old) (O.told out.new) (E.told err.old) (E.told err.new) result }
{
    let status = ask(alloc, words, input, folder, out);
    status.say(PROGRAM, USAGE, err);
    status
}

/// Plays a script: that of the input with the word `steps`, one that a number makes with `generate NUMBER CALLS`; the words
/// are those of the command line, the program's name first. The configuration, the stored one and the trace files are those
/// of the folder. What came of it is written to `out`. The answer is the exit status, the number of a `Status`. Each
/// status but `Ok` is said on `err` in one line, and a fault of `err` changes nothing.
pub fn replay<F: Folder, I: Source, O: Sink, E: Sink>(
    alloc: Global,
    words: &[String],
    input: &mut I,
    folder: &mut F,
    out: &mut O,
    err: &mut E,
) -> u8
    ensures { Replays words.now (I.told input.old) (I.told input.new) (F.told folder.old) (F.told folder.new)
        (O.told out.old) (O.told out.new) (E.told err.old) (E.told err.new) result }
{
    run(alloc, words, input, folder, out, err).number()
}
