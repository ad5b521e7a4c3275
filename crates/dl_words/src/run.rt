//! The words of `dlt_run` that play a scenario.

ghost use Rattle.std.specs.Prelude.{◌≤◌, IfOk, map, string_bytes};
ghost use Rattle.dl_words.specs.Run.{SaysRun};

use crate::command::run_command;
use crate::parse::{WordsFault, number, parse, text};
use std::alloc::Global;

/// What `dlt_run [--conf NAME] [--port N] SCENARIO` asks for.
#[derive(Clone, Copy)]
pub struct RunWords<'a> {
    /// The name of the configuration.
    pub conf: &'a str,
    /// The port on which clients are waited for.
    pub port: u16,
    /// The name of the scenario.
    pub scenario: &'a str,
}

/// What the words ask for, the program's name first.
pub fn run_words<'a>(alloc: Global, words: &'a [String]) -> Result<RunWords<'a>, WordsFault>
    ensures said { SaysRun (map string_bytes words.entry.now) result }
    ensures port { IfOk result (λ asked. 1 ≤ asked.port) }
{
    let Ok(command) = run_command(alloc) else {
        return Err(WordsFault::OutOfMemory);
    };
    let matches = match parse(command, words) {
        Ok(matches) => matches,
        Err(fault) => return Err(fault.plain()),
    };
    Ok(RunWords {
        conf: text(&matches, "conf", "dlt.conf"),
        port: number(&matches, "port", 3490, 65535) as u16,
        scenario: text(&matches, "SCENARIO", ""),
    })
}
