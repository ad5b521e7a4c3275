//! What a run begins with: its words, the configurations, the filters of its log storage, the scenario and the trace, read in this order.

ghost use Rattle.std.specs.Prelude.{IfOk, map, string_bytes};
ghost use Rattle.dl_script.specs.Playable.{IsRunnable};
ghost use Rattle.dl_words.specs.Run.{run_said};
ghost use Rattle.dl_live.specs.Begin.{Asks, Begins, BeginsAs, MakesTrace, ReadsScenario};

use crate::filtering::read_filters;
use crate::scenario::scenario_in;
use dl_bytes::{Conf, Stored};
use dl_outside::Folder;
use dl_script_model::Scenario;
use dl_startup::{SetupError, Status, set_up, trace_over};
use dl_storage::FilterList;
use dl_trace::{Trace, TraceFault};
use dl_words::{RunWords, WordsFault, run_words};
use std::alloc::Global;

/// What a run begins with.
#[derive(Drop)]
pub struct Begun {
    /// The configuration.
    pub conf: Conf,
    /// The stored configuration.
    pub stored: Stored,
    /// The filters of the log storage.
    pub filters: FilterList,
    /// The scenario that is played.
    pub scenario: Scenario,
    /// The trace, where a directory is named.
    pub trace: Option<Trace>,
    /// The port on which clients are waited for.
    pub port: u16,
}

/// What the words ask for.
fn ask<'a>(alloc: Global, words: &'a [String]) -> Result<RunWords<'a>, Status>
    ensures { Asks (map string_bytes words.entry.now) result }
{
    match run_words(alloc, words) {
        Ok(asked) => Ok(asked),
        Err(WordsFault::Refused) => Err(Status::WordsRefused),
        Err(WordsFault::OutOfMemory) => Err(Status::OutOfMemory),
    }
}

/// The scenario of this name.
fn read_scenario<F: Folder>(alloc: Global, folder: &mut F, name: &str) -> Result<Scenario, Status>
    ensures read { ReadsScenario name.now (F.told folder.old) (F.told folder.new) result }
    ensures runnable { IfOk result IsRunnable }
{
    match scenario_in(alloc, folder, name) {
        Ok(scenario) => Ok(scenario),
        Err(SetupError::Fault { line, kind }) => Err(Status::ScriptRefused { line, kind }),
        Err(SetupError::Folder) => Err(Status::FolderFault),
        Err(SetupError::OutOfMemory) => Err(Status::OutOfMemory),
    }
}

/// The trace of this configuration.
fn make_trace<F: Folder>(
    alloc: Global,
    folder: &mut F,
    conf: &Conf,
) -> Result<Option<Trace>, Status>
    ensures { MakesTrace conf.now (F.told folder.old) (F.told folder.new) result }
{
    match trace_over(alloc, folder, conf) {
        Ok(trace) => Ok(trace),
        Err(TraceFault::Failed) => Err(Status::FolderFault),
        Err(TraceFault::OutOfMemory) => Err(Status::OutOfMemory),
    }
}

/// What a run begins with that these words ask for.
fn begin_as<F: Folder>(alloc: Global, asked: RunWords, folder: &mut F) -> Result<Begun, Status>
    ensures begins { BeginsAs (run_said asked.entry) (F.told folder.old) (F.told folder.new) result }
    ensures runnable { IfOk result (λ begun. IsRunnable begun.scenario) }
{
    let setup = match set_up(alloc, folder, asked.conf) {
        Ok(setup) => setup,
        Err(status) => return Err(status),
    };
    let filters = match read_filters(alloc, folder) {
        Ok(filters) => filters,
        Err(status) => return Err(status),
    };
    let scenario = match read_scenario(alloc, folder, asked.scenario) {
        Ok(scenario) => scenario,
        Err(status) => return Err(status),
    };
    match make_trace(alloc, folder, &setup.conf) {
        Ok(trace) => Ok(Begun {
            conf: setup.conf,
            stored: setup.stored,
            filters,
            scenario,
            trace,
            port: asked.port,
        }),
        Err(status) => Err(status),
    }
}

/// What a run begins with that the words ask for, the program's name first; or the status of a run that does not begin. Then
/// no file has changed, and nothing was written.
pub fn begin<F: Folder>(alloc: Global, words: &[String], folder: &mut F) -> Result<Begun, Status>
    ensures begins { Begins (map string_bytes words.now) (F.told folder.old) (F.told folder.new) result }
    ensures runnable { IfOk result (λ begun. IsRunnable begun.scenario) }
{
    match ask(alloc, words) {
        Ok(asked) => begin_as(alloc, asked, folder),
        Err(status) => Err(status),
    }
}
