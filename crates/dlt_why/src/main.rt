//! `dlt_why steps [FILE]` plays the script of a file or of standard input, and prints what became of each of its log calls. `dlt_why trace [FOLDER|FILE]..` reads
//! trace files, and `dlt_why stream FILE` a stream as a client recorded it, and prints which messages are missing of each session, where, and
//! what the traces tell of the cause. No file is changed but that of a picture.
//!
//! Proved: that `main` is safe and ends; what it writes is promised by `tell_why` of `dl_why`. Rests on tests: one stored run, `tests/programs`,
//! `tests/day`, `tests/find`.
#![tactic(auto)]

use dl_real::{Directory, Reading, Writing, say_troubles};
use dl_why::{Status, tell_why};
use std::env;
use std::io::ErrorKind;
use std::process::ExitCode;
use std::rt::Env;

/// The words of the command line, where there is memory for them. No words stand for such as are no text.
fn words(rt: &(impl Env + AllocGlobal)) -> Option<Vec<String>> {
    match env::args(rt) {
        Ok(args) => args.collect(rt.alloc()).ok(),
        Err(error) if error.kind() == ErrorKind::OutOfMemory => None,
        Err(_) => Some(Vec::new(rt.alloc())),
    }
}

/// The status of a script that is refused, or that isn't there.
const NO_SCRIPT: u8 = 4;

/// Whether `steps` was asked for, with this name among its words.
fn is_script(words: &[String], name: &str) -> bool {
    words.iter().any(|word| word.as_str() == "steps")
        && words.iter().any(|word| word.as_str() == name)
}

/// Says what went wrong with files: which one, and why. A script that isn't there has no fault, so its name is said.
fn say_files(rt: &HostRuntime, status: u8, words: &[String], folder: &Directory<HostRuntime>) {
    if status == NO_SCRIPT {
        if let Some(name) = folder.absent() {
            if is_script(words, name) {
                let _ = eprintln!(rt; "dlt_why: {name}: not found");
            }
        }
    }
    if status != 0 {
        say_troubles(rt, "dlt_why", folder.troubles());
    }
}

fn main(rt: HostRuntime) -> ExitCode {
    let Some(words) = words(&rt) else {
        let _ = rt.eprintln("dlt_why: out of memory");
        return ExitCode::from(Status::OutOfMemory.number());
    };
    let alloc = rt.alloc();
    let mut input = Reading::over(rt.stdin());
    let mut folder = Directory::with_pictures(rt);
    let mut out = Writing::over(rt.stdout());
    let mut err = Writing::over(rt.stderr());
    let status = tell_why(alloc, &words, &mut input, &mut folder, &mut out, &mut err);
    say_files(&rt, status, &words, &folder);
    ExitCode::from(status)
}
