//! What the words ask for.

ghost use Rattle.std.specs.Prelude.{◌≡◌, drop, map, string_bytes};
ghost use Rattle.dl_why_words.specs.Command.{find_command, steps_command, stream_command, trace_command};
ghost use Rattle.dl_why_words.specs.Words.{Finds, Says, find_in, steps_in, stream_in, trace_in};

use crate::command::{find_command, steps_command, stream_command, trace_command};
use crate::parse::{WhyFault, all_given, given, parse, required};
use crate::task::{Task, task_of};
use std::alloc::Global;

/// What the words ask for.
#[derive(Drop)]
pub enum WhyWords<'a> {
    /// `steps [--picture FILE] [FILE]`: what became of each log call of a script.
    Steps {
        /// The name of its file; standard input has it where none is named.
        script: Option<&'a str>,
        /// The name of the file that a picture goes into, where one is wanted.
        picture: Option<&'a str>,
    },
    /// `trace [--picture FILE] [FILE]..`: what is missing of traces.
    Trace {
        /// The names of files and of folders.
        names: Vec<&'a str>,
        /// The name of the file that a picture goes into, where one is wanted.
        picture: Option<&'a str>,
    },
    /// `stream [--picture FILE] FILE`: what is missing of a stream as a client recorded it.
    Stream {
        /// The name of its file.
        name: &'a str,
        /// The name of the file that a picture goes into, where one is wanted.
        picture: Option<&'a str>,
    },
    /// `find APID CTID TIME|COUNTER [FILE]..`: where a message is.
    Find {
        /// The application's id.
        apid: &'a str,
        /// The context's id.
        ctid: &'a str,
        /// The message's time, or its counter.
        when: &'a str,
        /// The names of files and of folders.
        names: Vec<&'a str>,
    },
}

/// What the words from `steps` on ask for.
fn steps_words<'a>(alloc: Global, words: &'a [String]) -> Result<WhyWords<'a>, WhyFault>
    ensures { Finds steps_command steps_in (map string_bytes words.entry.now) result }
{
    let Ok(command) = steps_command(alloc) else {
        return Err(WhyFault::OutOfMemory);
    };
    let matches = match parse(command, words) {
        Ok(matches) => matches,
        Err(fault) => return Err(fault),
    };
    let script = given(&matches, "FILE");
    let picture = given(&matches, "picture");
    Ok(WhyWords::Steps { script, picture })
}

/// What the words from `trace` on ask for.
fn trace_words<'a>(alloc: Global, words: &'a [String]) -> Result<WhyWords<'a>, WhyFault>
    ensures { Finds trace_command trace_in (map string_bytes words.entry.now) result }
{
    let Ok(command) = trace_command(alloc) else {
        return Err(WhyFault::OutOfMemory);
    };
    let matches = match parse(command, words) {
        Ok(matches) => matches,
        Err(fault) => return Err(fault),
    };
    let Ok(names) = all_given(alloc, &matches, "FILE") else {
        return Err(WhyFault::OutOfMemory);
    };
    Ok(WhyWords::Trace {
        names,
        picture: given(&matches, "picture"),
    })
}

/// What the words from `stream` on ask for.
fn stream_words<'a>(alloc: Global, words: &'a [String]) -> Result<WhyWords<'a>, WhyFault>
    ensures { Finds stream_command stream_in (map string_bytes words.entry.now) result }
{
    let Ok(command) = stream_command(alloc) else {
        return Err(WhyFault::OutOfMemory);
    };
    let matches = match parse(command, words) {
        Ok(matches) => matches,
        Err(fault) => return Err(fault),
    };
    Ok(WhyWords::Stream {
        name: required(&matches, "FILE"),
        picture: given(&matches, "picture"),
    })
}

/// What the words from `find` on ask for.
fn find_words<'a>(alloc: Global, words: &'a [String]) -> Result<WhyWords<'a>, WhyFault>
    ensures { Finds find_command find_in (map string_bytes words.entry.now) result }
{
    let Ok(command) = find_command(alloc) else {
        return Err(WhyFault::OutOfMemory);
    };
    let matches = match parse(command, words) {
        Ok(matches) => matches,
        Err(fault) => return Err(fault),
    };
    let Ok(names) = all_given(alloc, &matches, "FILE") else {
        return Err(WhyFault::OutOfMemory);
    };
    let apid = required(&matches, "APID");
    let ctid = required(&matches, "CTID");
    let when = required(&matches, "WHEN");
    Ok(WhyWords::Find {
        apid,
        ctid,
        when,
        names,
    })
}

/// The words behind the program's name.
fn behind_name(words: &[String]) -> &[String]
    ensures { map string_bytes result.now ≡ drop 1 (map string_bytes words.now) }
{
    if words.is_empty() { words } else { &words[1..] }
}

/// What the words of the command line ask for, the program's name first.
pub fn why_words<'a>(alloc: Global, words: &'a [String]) -> Result<WhyWords<'a>, WhyFault>
    ensures { Says (map string_bytes words.entry.now) result }
{
    let task = task_of(words);
    let words = behind_name(words);
    match task {
        Task::Steps => steps_words(alloc, words),
        Task::Trace => trace_words(alloc, words),
        Task::Stream => stream_words(alloc, words),
        Task::Find => find_words(alloc, words),
        Task::Help => Err(WhyFault::Help),
        Task::Version => Err(WhyFault::Version),
        Task::Unknown => Err(WhyFault::Refused),
    }
}
