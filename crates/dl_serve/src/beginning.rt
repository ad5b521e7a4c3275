//! What serving begins with: the words, the configurations and the trace, read in this order.

ghost use Rattle.std.specs.Prelude.{map, string_bytes};
ghost use Rattle.dl_words.specs.Serve.{serve_said};
ghost use Rattle.dl_serve.specs.Begin.{Asks, Begins, BeginsAs, MakesTrace};

use dl_bytes::{Conf, Stored};
use dl_outside::Folder;
use dl_startup::{Status, set_up, trace_over};
use dl_trace::{Trace, TraceFault};
use dl_words::{ServeWords, WordsFault, serve_words};
use std::alloc::Global;

/// What serving begins with.
#[derive(Drop)]
pub struct Begun {
    /// The configuration.
    pub conf: Conf,
    /// The stored configuration.
    pub stored: Stored,
    /// The trace, where a directory is named.
    pub trace: Option<Trace>,
    /// The port on which clients are waited for.
    pub port: u16,
    /// The port on which programs are waited for that log.
    pub users: u16,
    /// How many rounds are made.
    pub rounds: u32,
}

/// What the words ask for.
fn ask<'a>(alloc: Global, words: &'a [String]) -> Result<ServeWords<'a>, Status>
    ensures { Asks (map string_bytes words.entry.now) result }
{
    match serve_words(alloc, words) {
        Ok(asked) => Ok(asked),
        Err(WordsFault::Refused) => Err(Status::WordsRefused),
        Err(WordsFault::OutOfMemory) => Err(Status::OutOfMemory),
    }
}

/// The trace of this configuration.
fn make_trace<F: Folder>(
    alloc: Global,
    folder: &mut F,
    conf: &Conf,
) -> Result<Option<Trace>, Status>
    ensures { MakesTrace conf.now (F.told folder.old) (F.told folder.new) result }
{
    match trace_over(alloc, folder, conf) {
        Ok(trace) => Ok(trace),
        Err(TraceFault::Failed) => Err(Status::FolderFault),
        Err(TraceFault::OutOfMemory) => Err(Status::OutOfMemory),
    }
}

/// What serving begins with that these words ask for; or the status of a program that does not serve. Then no file has changed, and nothing was
/// written.
pub fn begin_as<F: Folder>(
    alloc: Global,
    asked: ServeWords,
    folder: &mut F,
) -> Result<Begun, Status>
    ensures { BeginsAs (serve_said asked.entry) (F.told folder.old) (F.told folder.new) result }
{
    let setup = match set_up(alloc, folder, asked.conf) {
        Ok(setup) => setup,
        Err(status) => return Err(status),
    };
    match make_trace(alloc, folder, &setup.conf) {
        Ok(trace) => Ok(Begun {
            conf: setup.conf,
            stored: setup.stored,
            trace,
            port: asked.port,
            users: asked.users,
            rounds: asked.rounds,
        }),
        Err(status) => Err(status),
    }
}

/// What serving begins with that the words ask for, the program's name first; or the status of a program that does not serve. Then no file has
/// changed, and nothing was written.
pub fn begin<F: Folder>(alloc: Global, words: &[String], folder: &mut F) -> Result<Begun, Status>
    ensures { Begins (map string_bytes words.now) (F.told folder.old) (F.told folder.new) result }
{
    match ask(alloc, words) {
        Ok(asked) => begin_as(alloc, asked, folder),
        Err(status) => Err(status),
    }
}
