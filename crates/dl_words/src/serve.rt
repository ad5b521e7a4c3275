//! The words of `dlt_run --serve`.

ghost use Rattle.std.specs.Prelude.{◌≡◌, ◌≤◌, IfOk, map, string_bytes};
ghost use Rattle.dl_words.specs.Serve.{SaysOptions, SaysServe, asks_to_serve};

use crate::command::serve_command;
use crate::parse::{WordsFault, number, parse, text};
use std::alloc::Global;

/// What `dlt_run --serve [--conf NAME] [--port N] [--users N] [--rounds N]` asks for.
#[derive(Clone, Copy)]
pub struct ServeWords<'a> {
    /// The name of the configuration.
    pub conf: &'a str,
    /// The port on which clients are waited for.
    pub port: u16,
    /// The port on which programs are waited for that log.
    pub users: u16,
    /// How many rounds are made, 1 to 1,000,000,000.
    pub rounds: u32,
}

/// Whether the first word behind the program's name is `--serve`.
pub fn asks_to_serve(words: &[String]) -> bool
    ensures { result ≡ asks_to_serve (map string_bytes words.now) }
{
    match words {
        [_, word, ..] => word.as_str() == "--serve",
        _ => false,
    }
}

/// What the words from `--serve` on ask for.
fn options<'a>(alloc: Global, words: &'a [String]) -> Result<ServeWords<'a>, WordsFault>
    ensures said { SaysOptions (map string_bytes words.entry.now) result }
    ensures ports { IfOk result (λ asked. (1 ≤ asked.port) × (1 ≤ asked.users)) }
    ensures rounds { IfOk result (λ asked. 1 ≤ asked.rounds) }
{
    let Ok(command) = serve_command(alloc) else {
        return Err(WordsFault::OutOfMemory);
    };
    let matches = match parse(command, words) {
        Ok(matches) => matches,
        Err(fault) => return Err(fault.plain()),
    };
    Ok(ServeWords {
        conf: text(&matches, "conf", "dlt.conf"),
        port: number(&matches, "port", 3490, 65535) as u16,
        users: number(&matches, "users", 3491, 65535) as u16,
        rounds: number(&matches, "rounds", 1_000_000_000, 1_000_000_000) as u32,
    })
}

/// What the words ask for, the program's name first.
pub fn serve_words<'a>(alloc: Global, words: &'a [String]) -> Result<ServeWords<'a>, WordsFault>
    ensures said { SaysServe (map string_bytes words.entry.now) result }
    ensures ports { IfOk result (λ asked. (1 ≤ asked.port) × (1 ≤ asked.users)) }
    ensures rounds { IfOk result (λ asked. 1 ≤ asked.rounds) }
{
    if asks_to_serve(words) {
        options(alloc, &words[1..])
    } else {
        Err(WordsFault::Refused)
    }
}
