//! The commands of `dlt_why`.

ghost use Rattle.std.specs.Prelude.{◌≡◌, IfOk, codes, false};
ghost use Rattle.clap.specs.Words.{app_of, rule_of};
ghost use Rattle.dl_words.specs.Command.{option};
ghost use Rattle.dl_why_words.specs.Command.{file, file_if_any, files, find_command, needed, steps_command, stream_command, trace_command};

use clap::{Arg, ArgAction, Command};
use std::alloc::{AllocError, Global};

/// The option `--picture FILE`.
fn picture<'a>(alloc: Global) -> Arg<'a>
    ensures rule { rule_of result ≡ option (codes "picture") }
    ensures own { result.global ≡ false }
{
    Arg::new(alloc, "picture").long("picture")
}

/// The names of files, any number of them.
fn files<'a>(alloc: Global) -> Arg<'a>
    ensures rule { rule_of result ≡ files }
    ensures own { result.global ≡ false }
{
    Arg::new(alloc, "FILE").action(ArgAction::Append)
}

/// The name of a file.
fn file<'a>(alloc: Global) -> Arg<'a>
    ensures rule { rule_of result ≡ file }
    ensures own { result.global ≡ false }
{
    Arg::new(alloc, "FILE").required(true)
}

/// The name of a file, where one is given.
fn file_if_any<'a>(alloc: Global) -> Arg<'a>
    ensures rule { rule_of result ≡ file_if_any }
    ensures own { result.global ≡ false }
{
    Arg::new(alloc, "FILE")
}

/// A word that must be there.
fn needed<'a>(alloc: Global, name: &'a str) -> Arg<'a>
    ensures rule { rule_of result ≡ needed name.now }
    ensures own { result.global ≡ false }
{
    Arg::new(alloc, name).required(true)
}

/// The command `steps`.
pub fn steps_command<'a>(alloc: Global) -> Result<Command<'a>, AllocError>
    ensures { IfOk result (λ command. app_of command ≡ steps_command) }
{
    Command::new(alloc, "steps")
        .arg(picture(alloc))?
        .arg(file_if_any(alloc))
}

/// The command `trace`.
pub fn trace_command<'a>(alloc: Global) -> Result<Command<'a>, AllocError>
    ensures { IfOk result (λ command. app_of command ≡ trace_command) }
{
    Command::new(alloc, "trace")
        .arg(picture(alloc))?
        .arg(files(alloc))
}

/// The command `stream`.
pub fn stream_command<'a>(alloc: Global) -> Result<Command<'a>, AllocError>
    ensures { IfOk result (λ command. app_of command ≡ stream_command) }
{
    Command::new(alloc, "stream")
        .arg(picture(alloc))?
        .arg(file(alloc))
}

/// The command `find`.
pub fn find_command<'a>(alloc: Global) -> Result<Command<'a>, AllocError>
    ensures { IfOk result (λ command. app_of command ≡ find_command) }
{
    Command::new(alloc, "find")
        .arg(needed(alloc, "APID"))?
        .arg(needed(alloc, "CTID"))?
        .arg(needed(alloc, "WHEN"))?
        .arg(files(alloc))
}
