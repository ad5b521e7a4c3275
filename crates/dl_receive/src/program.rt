//! The program: a stream from a port, its lines to standard output, and a status.

ghost use Rattle.std.specs.Prelude.{Some};
ghost use Rattle.dl_receive.specs.ProgramRun.{AskedFor, Asks, Receives, Runs};
ghost use Rattle.dl_receive.specs.Program.{told};

use crate::counting::Counting;
use crate::listen::listen;
use crate::status::Status;
use crate::words::asked_port;
use dl_outside::{Dial, DialFault, Sink, Source, write_text};
use std::alloc::Global;

/// How a run of the program ended.
#[derive(Drop)]
pub struct Received<S> {
    /// The exit status.
    pub status: u8,
    /// The source that the port gave. There is none where the words were refused, nothing was reached, or there was no
    /// memory for a connection.
    pub source: Option<S>,
}

/// The same, with the status by its name.
struct Ended<S> {
    status: Status,
    source: Option<S>,
}

/// Connects to a port, and prints what comes from there.
fn connect<D: Dial, O: Sink>(
    alloc: Global,
    counting: Counting,
    port: u16,
    dial: &mut D,
    out: &mut O,
) -> Ended<D::S>
    ensures { Asks counting (Some port) D.S.told (told (D.told dial.old) (O.told out.old)) (told (D.told dial.new) (O.told out.new)) result }
{
    let mut source = match dial.dial(port) {
        Ok(source) => source,
        Err(DialFault::Failed) => {
            return Ended {
                status: Status::NetFault,
                source: None,
            };
        }
        Err(DialFault::OutOfMemory) => {
            return Ended {
                status: Status::OutOfMemory,
                source: None,
            };
        }
    };
    let status = listen(alloc, counting, &mut source, out);
    Ended {
        status,
        source: Some(source),
    }
}

/// The same with the port that the words name, if they do.
fn ask<D: Dial, O: Sink>(
    alloc: Global,
    counting: Counting,
    words: &[String],
    dial: &mut D,
    out: &mut O,
) -> Ended<D::S>
    ensures { AskedFor counting words.now D.S.told (told (D.told dial.old) (O.told out.old)) (told (D.told dial.new) (O.told out.new)) result }
{
    let Some(port) = asked_port(words) else {
        return Ended {
            status: Status::WordsRefused,
            source: None,
        };
    };
    connect(alloc, counting, port, dial, out)
}

/// What `receive` does, with the status by its name.
fn run<D: Dial, O: Sink, E: Sink>(
    alloc: Global,
    counting: Counting,
    words: &[String],
    dial: &mut D,
    out: &mut O,
    err: &mut E,
) -> Ended<D::S>
    ensures { Runs counting words.now D.S.told (D.told dial.old) (D.told dial.new) (O.told out.old) (O.told out.new)
        (E.told err.old) (E.told err.new) result }
{
    let ended = ask(alloc, counting, words, dial, out);
    if ended.status != Status::Ok {
        let _ = write_text(err, ended.status.line());
    }
    ended
}

/// Receives what comes from the port that the words name, and writes a line to `out` for each message, once it has come:
/// `log` with its session, counter, application, context and length, `overflow` for the report of lost messages of an
/// application, or `other`, behind a line `gap` where messages that are counted with it are missing. The words are those of the
/// command line, the program's name first. Each status but `Ok` is said on `err` in one line, and a fault of `err`
/// changes nothing.
pub fn receive<D: Dial, O: Sink, E: Sink>(
    alloc: Global,
    counting: Counting,
    words: &[String],
    dial: &mut D,
    out: &mut O,
    err: &mut E,
) -> Received<D::S>
    ensures { Receives counting words.now D.S.told (D.told dial.old) (D.told dial.new) (O.told out.old) (O.told out.new)
        (E.told err.old) (E.told err.new) result }
{
    let Ended { status, source } = run(alloc, counting, words, dial, out, err);
    Received {
        status: status.number(),
        source,
    }
}
