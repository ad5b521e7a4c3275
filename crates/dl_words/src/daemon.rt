//! The words of `dlt_daemon`.

ghost use Rattle.std.specs.Prelude.{◌≡◌, ◌≤◌, IfOk, IfSome, map, string_bytes};
ghost use Rattle.dl_words.specs.Daemon.{SaysDaemon};

use crate::command::daemon_command;
use crate::parse::{ParseFault, given_number, number, parse, text};
use std::alloc::Global;

/// What `dlt_daemon [--conf NAME] [--port N] [--users N] [--status SECONDS]` asks for.
#[derive(Clone, Copy)]
pub struct DaemonWords<'a> {
    /// The name of the configuration.
    pub conf: &'a str,
    /// The port on which clients are waited for.
    pub port: u16,
    /// The port on which programs are waited for that log.
    pub users: u16,
    /// After how many seconds the status is said again, where it is to be said.
    pub status: Option<u32>,
}

/// The seconds, which are fewer than 2^32.
fn seconds(given: Option<u64>) -> Option<u32>
    requires { IfSome given (λ number. number ≤ 4294967295) }
    ensures { result ≡ given }
{
    match given {
        Some(number) => Some(number as u32),
        None => None,
    }
}

/// What the words ask for, the program's name first.
pub fn daemon_words<'a>(alloc: Global, words: &'a [String]) -> Result<DaemonWords<'a>, ParseFault>
    ensures said { SaysDaemon (map string_bytes words.entry.now) result }
    ensures ports { IfOk result (λ asked. (1 ≤ asked.port) × (1 ≤ asked.users)) }
    ensures status { IfOk result (λ asked. IfSome asked.status (λ seconds. 1 ≤ seconds)) }
{
    let Ok(command) = daemon_command(alloc) else {
        return Err(ParseFault::OutOfMemory);
    };
    let matches = match parse(command, words) {
        Ok(matches) => matches,
        Err(fault) => return Err(fault),
    };
    let status = given_number(&matches, "status", 4294967295);
    Ok(DaemonWords {
        conf: text(&matches, "conf", "dlt.conf"),
        port: number(&matches, "port", 3490, 65535) as u16,
        users: number(&matches, "users", 3491, 65535) as u16,
        status: seconds(status),
    })
}
