//! `dlt_replay steps` plays the script of standard input, and `dlt_replay generate NUMBER CALLS` one that a number makes. It
//! prints what came of it. The configuration and the trace files are those of the current folder.
//!
//! Proved: that `main` is safe and ends; what it writes is promised by `replay` of `dl_replay`. Rests on tests: one stored run, `tests/programs`,
//! `tests/rows`.
#![tactic(auto)]

use dl_real::{Directory, Reading, Writing, say_troubles};
use dl_replay::{Status, replay};
use std::env;
use std::io::ErrorKind;
use std::process::ExitCode;
use std::rt::Env;

/// The words of the command line, where there is memory for them. No words stand for such as are no text.
fn words(rt: &(impl Env + AllocGlobal)) -> Option<Vec<String>> {
    match env::args(rt) {
        Ok(args) => args.collect(rt.alloc()).ok(),
        Err(error) if error.kind() == ErrorKind::OutOfMemory => None,
        Err(_) => Some(Vec::new(rt.alloc())),
    }
}

fn main(rt: HostRuntime) -> ExitCode {
    let Some(words) = words(&rt) else {
        let _ = rt.eprintln("dlt_replay: out of memory");
        return ExitCode::from(Status::OutOfMemory.number());
    };
    let mut input = Reading::over(rt.stdin());
    let mut folder = Directory::over(rt);
    let mut out = Writing::over(rt.stdout());
    let mut err = Writing::over(rt.stderr());
    let status = replay(
        rt.alloc(),
        &words,
        &mut input,
        &mut folder,
        &mut out,
        &mut err,
    );
    if status != 0 {
        // which file it was, and why
        say_troubles(&rt, "dlt_replay", folder.troubles());
    }
    ExitCode::from(status)
}
