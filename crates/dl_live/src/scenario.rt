//! The scenario that a run plays.

ghost use Rattle.std.specs.Prelude.{◌≡◌, IfOk};
ghost use Rattle.dl_outside.specs.Outside.{Stays};
ghost use Rattle.dl_script.specs.Playable.{IsRunnable};
ghost use Rattle.dl_live.specs.Scenario.{SaysScenario};
ghost use Rattle.dl_startup.specs.Setup.{HasCause};

use dl_outside::{Folder, FolderFault};
use dl_script::laws::what_is_read_can_be_run;
use dl_script::{ScriptError, read_scenario};
use dl_script_fields::ScriptKind;
use dl_script_model::Scenario;
use dl_startup::SetupError;
use std::alloc::Global;

/// The scenario of this name. Where there is none, that is a fault of line 0.
pub fn scenario_in<F: Folder>(
    alloc: Global,
    folder: &mut F,
    name: &str,
) -> Result<Scenario, SetupError<ScriptKind>>
    ensures said { SaysScenario name.now (F.told folder.old).files result }
    ensures runnable { IfOk result IsRunnable }
    ensures stays { Stays (F.told folder.old).files (F.told folder.new).files }
    ensures cause { HasCause (F.told folder.old).faults (F.told folder.new).faults result }
    ensures unchanged { (F.told folder.new).changes ≡ (F.told folder.old).changes }
    ensures unappended { (F.told folder.new).appends ≡ (F.told folder.old).appends }
{
    let text = match folder.read(name) {
        Ok(Some(text)) => text,
        Ok(None) => {
            return Err(SetupError::Fault {
                line: 0,
                kind: ScriptKind::Missing,
            });
        }
        Err(FolderFault::Failed) => return Err(SetupError::Folder),
        Err(FolderFault::OutOfMemory) => return Err(SetupError::OutOfMemory),
    };
    what_is_read_can_be_run();
    match read_scenario(alloc, text.all()) {
        Ok(scenario) => Ok(scenario),
        Err(ScriptError::Fault { line, kind }) => Err(SetupError::Fault { line, kind }),
        Err(ScriptError::OutOfMemory) => Err(SetupError::OutOfMemory),
    }
}
