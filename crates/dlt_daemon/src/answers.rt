//! The words of the command line, and what is answered to those that ask for no daemon.

use crate::asked::Asked;
use dl_startup::Status;
use dl_words::ParseFault;
use std::env;
use std::io::ErrorKind;
use std::process::ExitCode;
use std::rt::Env;

/// The words that the program takes.
const USAGE: &str =
    "usage: dlt_daemon [--conf NAME] [--port N] [--users N] [--status SECONDS] [--status-file NAME] [--sync SECONDS] [--until-eof] [--verbose]";

/// What help says besides.
const HELP: &str = "
Serves clients and programs of DLT version 1 in the current folder, until it is killed.

  --conf NAME         the configuration; dlt.conf where none is named
  --port N            where clients dial in; 3490
  --users N           where programs dial in that log; 3491
  --status SECONDS    says what is counted, each so many seconds
  --status-file NAME  has the last of these lines in this file, too
  --sync SECONDS      brings the trace files to the disk, each so many seconds
  --until-eof         ends in order when standard input ends
  --verbose           says on standard error which clients and programs come and go
  --help              this
  --version           which version it is

DLT_BIND_ADDRESS of the environment is the address to listen on; 127.0.0.1 where it is not set.
DLT_USERS_ADDRESS is the same for programs that log.";

/// The words of the command line, where there is memory for them. No words stand for such as are no text.
fn words(rt: &(impl Env + AllocGlobal)) -> Option<Vec<String>> {
    match env::args(rt) {
        Ok(args) => args.collect(rt.alloc()).ok(),
        Err(error) if error.kind() == ErrorKind::OutOfMemory => None,
        Err(_) => Some(Vec::new(rt.alloc())),
    }
}

/// Says why no daemon runs, and gives the status.
pub fn refused(rt: &HostRuntime, line: &str, status: Status) -> ExitCode {
    let _ = rt.eprintln(line);
    ExitCode::from(status.number())
}

/// What is answered to words that ask for no daemon.
pub fn answer(rt: &HostRuntime, fault: ParseFault) -> ExitCode {
    match fault {
        ParseFault::Help => {
            let _ = println!(rt; "{USAGE}\n{HELP}");
            ExitCode::SUCCESS
        }
        ParseFault::Version => {
            let _ = rt.println("dlt_daemon 1");
            ExitCode::SUCCESS
        }
        ParseFault::Refused => {
            let _ = eprintln!(rt; "dlt_daemon: {USAGE}");
            ExitCode::from(Status::WordsRefused.number())
        }
        ParseFault::OutOfMemory => refused(rt, "dlt_daemon: out of memory", Status::OutOfMemory),
    }
}

/// What the words of the command line ask for, or the status of a program that runs no daemon for them.
pub fn asked(rt: &HostRuntime) -> Result<Asked, ExitCode> {
    let Some(words) = words(rt) else {
        return Err(answer(rt, ParseFault::OutOfMemory));
    };
    match Asked::of(rt.alloc(), words) {
        Ok(asked) if asked.is_refused => Err(answer(rt, ParseFault::Refused)),
        Ok(asked) => Ok(asked),
        Err(_) => Err(answer(rt, ParseFault::OutOfMemory)),
    }
}
