//! What a run begins with: the configurations of the folder, and the steps of the task.

ghost use Rattle.std.specs.Prelude.{◌≡◌, ◌≤◌, IfOk};
ghost use Rattle.dl_startup.specs.Input.{GaveAtMost};
ghost use Rattle.dl_replay.specs.Begin.{Begins, MakesSteps, TakesSteps};
ghost use Rattle.dl_replay.specs.Task.{IsWithin};
ghost use Rattle.dl_script.specs.Playable.{IsPlayable};

use crate::task::Task;
use dl_bytes::{Conf, Stored};
use dl_outside::{Folder, Source};
use dl_script::laws::{what_is_generated_can_be_played, what_is_read_can_be_played};
use dl_script::{ScriptError, ScriptKind, generate, read_steps};
use dl_script_model::StepList;
use dl_startup::{CONF_NAME, ReadError, Status, read_text, set_up};
use std::alloc::Global;

/// What a run begins with.
#[derive(Drop)]
pub struct Start {
    /// The configuration.
    pub conf: Conf,
    /// The stored configuration.
    pub stored: Stored,
    /// The steps that are played.
    pub steps: StepList,
}

/// The steps of the script that the input has, or why they aren't there.
fn read_script<I: Source>(alloc: Global, input: &mut I) -> Result<StepList, Status>
    ensures steps { TakesSteps Task.Steps (I.told input.old)
        (I.told input.new) result }
    ensures at_most { GaveAtMost (I.told input.old).left (I.told input.new).left }
    ensures playable { IfOk result IsPlayable }
{
    let text = match read_text(alloc, input) {
        Ok(text) => text,
        Err(ReadError::Long) => {
            return Err(Status::ScriptRefused {
                line: 0,
                kind: ScriptKind::Size,
            });
        }
        Err(ReadError::Fault) => return Err(Status::ReadFault),
        Err(ReadError::OutOfMemory) => return Err(Status::OutOfMemory),
    };
    what_is_read_can_be_played();
    match read_steps(alloc, &text) {
        Ok(steps) => Ok(steps),
        Err(ScriptError::Fault { line, kind }) => Err(Status::ScriptRefused { line, kind }),
        Err(ScriptError::OutOfMemory) => Err(Status::OutOfMemory),
    }
}

/// The steps that a number makes.
fn make_script(alloc: Global, number: u64, calls: u32) -> Result<StepList, Status>
    requires { calls ≤ 1000000 }
    ensures steps { MakesSteps number calls result }
    ensures playable { IfOk result IsPlayable }
{
    what_is_generated_can_be_played();
    match generate(alloc, number, calls) {
        Ok(steps) => Ok(steps),
        Err(_) => Err(Status::OutOfMemory),
    }
}

/// The steps of the task, or why they aren't there.
fn steps_for<I: Source>(alloc: Global, task: Task, input: &mut I) -> Result<StepList, Status>
    requires { IsWithin task }
    ensures steps { TakesSteps task (I.told input.old)
        (I.told input.new) result }
    ensures at_most { GaveAtMost (I.told input.old).left (I.told input.new).left }
    ensures playable { IfOk result IsPlayable }
{
    match task {
        Task::Steps => read_script(alloc, input),
        Task::Generate { number, calls } => make_script(alloc, number, calls),
    }
}

/// What a run of the task begins with: first the configuration is read, then the stored one, then the script.
pub fn begin<F: Folder, I: Source>(
    alloc: Global,
    task: Task,
    input: &mut I,
    folder: &mut F,
) -> Result<Start, Status>
    requires { IsWithin task }
    ensures begins { Begins task
        (I.told input.old)
        (I.told input.new)
        (F.told folder.old)
        (F.told folder.new) result }
    ensures at_most { GaveAtMost (I.told input.old).left (I.told input.new).left }
    ensures playable { IfOk result (λ start. IsPlayable start.steps) }
{
    let setup = match set_up(alloc, folder, CONF_NAME) {
        Ok(setup) => setup,
        Err(status) => return Err(status),
    };
    match steps_for(alloc, task, input) {
        Ok(steps) => Ok(Start {
            conf: setup.conf,
            stored: setup.stored,
            steps,
        }),
        Err(status) => Err(status),
    }
}
