//! A step script from the input, with its text.

ghost use Rattle.std.specs.Prelude.{IfOk};
ghost use Rattle.dl_script.specs.Playable.{IsPlayable};
ghost use Rattle.dl_why.specs.Program.{ReadsScript};

use dl_outside::Source;
use dl_script::laws::what_is_read_can_be_played;
use dl_script::{ScriptError, ScriptKind, read_steps};
use dl_script_model::StepList;
use dl_startup::{ReadError, Status, read_text};
use std::alloc::Global;

/// A step script.
#[derive(Drop)]
pub struct Script {
    /// Its text.
    pub text: Vec<u8>,
    /// Its steps.
    pub steps: StepList,
}

/// The script that the input has, or why there is none.
pub fn read_script<I: Source>(alloc: Global, input: &mut I) -> Result<Script, Status>
    ensures reads { ReadsScript (I.told input.old) (I.told input.new) result }
    ensures playable { IfOk result (λ script. IsPlayable script.steps) }
{
    let text = match read_text(alloc, input) {
        Ok(text) => text,
        Err(ReadError::Long) => {
            return Err(Status::ScriptRefused {
                line: 0,
                kind: ScriptKind::Size,
            });
        }
        Err(ReadError::Fault) => return Err(Status::ReadFault),
        Err(ReadError::OutOfMemory) => return Err(Status::OutOfMemory),
    };
    what_is_read_can_be_played();
    match read_steps(alloc, &text) {
        Ok(steps) => Ok(Script { text, steps }),
        Err(ScriptError::Fault { line, kind }) => Err(Status::ScriptRefused { line, kind }),
        Err(ScriptError::OutOfMemory) => Err(Status::OutOfMemory),
    }
}
