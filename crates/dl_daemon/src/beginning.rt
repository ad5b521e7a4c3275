//! What a daemon begins with: the words, the configurations and the trace.

ghost use Rattle.std.specs.Prelude.{◌≡◌, map, string_bytes};
ghost use Rattle.dl_serve.specs.Begin.{BeginsAs};
ghost use Rattle.dl_words.specs.Daemon.{daemon_said};
ghost use Rattle.dl_daemon.specs.Begin.{Asks, refusal, serving};

use dl_outside::Folder;
use dl_serve::{Begun, begin_as};
use dl_startup::Status;
use dl_words::{DaemonWords, ParseFault, ServeWords, daemon_words};
use std::alloc::Global;

/// The status of words that ask for no daemon: help and the version are none.
fn refusal(fault: ParseFault) -> Status
    ensures { result ≡ refusal fault }
{
    match fault {
        ParseFault::Help | ParseFault::Version | ParseFault::Refused => Status::WordsRefused,
        ParseFault::OutOfMemory => Status::OutOfMemory,
    }
}

/// What the words ask for, the program's name first.
pub fn ask<'a>(alloc: Global, words: &'a [String]) -> Result<DaemonWords<'a>, Status>
    ensures { Asks (map string_bytes words.entry.now) result }
{
    match daemon_words(alloc, words) {
        Ok(asked) => Ok(asked),
        Err(fault) => Err(refusal(fault)),
    }
}

/// What a daemon begins with that this asks for; or the status of a program that does not begin. Then no file has changed.
pub fn begin<F: Folder>(alloc: Global, asked: DaemonWords, folder: &mut F) -> Result<Begun, Status>
    ensures { BeginsAs (serving (daemon_said asked.entry)) (F.told folder.old) (F.told folder.new) result }
{
    let words = ServeWords {
        conf: asked.conf,
        port: asked.port,
        users: asked.users,
        rounds: 0,
    };
    begin_as(alloc, words, folder)
}
