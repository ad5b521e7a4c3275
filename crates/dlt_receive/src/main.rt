//! `dlt_receive PORT`: connects to a daemon on this machine, and prints each message that it sends, and where messages
//! are missing. `dlt_receive HOST:PORT` connects to one on another machine. With `--contexts` before or behind that word
//! each context's messages are counted by themselves, as COVESA's programs count.
//!
//! Proved: that `main` is safe and ends. Rests on tests: one stored run, `tests/programs`, `tests/receive`, and by hand beside dlt-daemon 2.18.8.
#![tactic(auto)]

use dl_real::{TcpDial, Writing};
use dl_receive::{Counting, Status, receive};
use std::alloc::Global;
use std::env;
use std::io::ErrorKind;
use std::process::ExitCode;
use std::rt::Env;

/// The words of the command line, where there is memory for them. No words stand for such as are no text.
fn words(rt: &(impl Env + AllocGlobal)) -> Option<Vec<String>> {
    match env::args(rt) {
        Ok(args) => args.collect(rt.alloc()).ok(),
        Err(error) if error.kind() == ErrorKind::OutOfMemory => None,
        Err(_) => Some(Vec::new(rt.alloc())),
    }
}

/// The word that asks for messages to be counted by context.
const CONTEXTS: &str = "--contexts";

/// What is answered to `--help`.
const HELP: &str = "usage: dlt_receive [--contexts] [HOST:]PORT

Connects to a DLT daemon, and prints a line for each message that it sends, and one where messages are missing.

  HOST        where the daemon runs; this machine where none is named
  PORT        the port on which it takes clients; 3490 is the usual one
  --contexts  counts the messages of each context by themselves, as COVESA's programs do
  --help      this
  --version   which version it is";

/// What messages are counted by, and the words without the one that says so. A second such word stays, and is refused.
fn counted(mut words: Vec<String>) -> (Counting, Vec<String>) {
    match words.iter().position(|word| word.as_str() == CONTEXTS) {
        Some(at) if at > 0 => {
            words.remove(at);
            (Counting::Contexts, words)
        }
        Some(_) | None => (Counting::Sessions, words),
    }
}

/// A text of its own.
fn owned(alloc: Global, text: &str) -> Option<String> {
    String::from_str(alloc, text).ok()
}

/// The host of a word `HOST:PORT`, and the word without it; an IPv6 address stands in brackets.
fn host_and_port(word: &str) -> Option<(&str, &str)> {
    let (host, port) = word.rsplit_once(':')?;
    let bare = match host.strip_prefix('[') {
        Some(rest) => rest.strip_suffix(']')?,
        None => host,
    };
    if bare.is_empty() {
        None
    } else {
        Some((bare, port))
    }
}

/// The host that the one word names, where it names one, and the words with the port alone; nothing where memory runs out.
fn parted(alloc: Global, words: Vec<String>) -> Option<(Option<String>, Vec<String>)> {
    let [program, word] = words.as_slice() else {
        return Some((None, words));
    };
    let Some((host, port)) = host_and_port(word.as_str()) else {
        return Some((None, words));
    };
    let mut bare = Vec::new(alloc);
    bare.push(owned(alloc, program.as_str())?).ok()?;
    bare.push(owned(alloc, port)?).ok()?;
    Some((Some(owned(alloc, host)?), bare))
}

/// What the words ask for help or the version with, where they do: one word alone.
fn answer(words: &[String]) -> Option<&'static str> {
    let [_, word] = words else {
        return None;
    };
    match word.as_str() {
        "--help" => Some(HELP),
        "--version" => Some("dlt_receive 1"),
        _ => None,
    }
}

/// Says that memory ran out.
fn out_of_memory(rt: &HostRuntime) -> ExitCode {
    let _ = rt.eprintln("dlt_receive: out of memory");
    ExitCode::from(Status::OutOfMemory.number())
}

fn main(rt: HostRuntime) -> ExitCode {
    let alloc = rt.alloc();
    let Some(words) = words(&rt) else {
        return out_of_memory(&rt);
    };
    if let Some(text) = answer(&words) {
        let _ = rt.println(text);
        return ExitCode::SUCCESS;
    }
    let (counting, words) = counted(words);
    let Some((host, words)) = parted(alloc, words) else {
        return out_of_memory(&rt);
    };
    let mut out = Writing::over(rt.stdout());
    let mut err = Writing::over(rt.stderr());
    let mut dial = TcpDial::over(rt, host);
    let received = receive(alloc, counting, &words, &mut dial, &mut out, &mut err);
    if received.status == Status::NetFault.number() {
        let why = dial.why();
        let _ = eprintln!(&rt; "dlt_receive: {why}");
    }
    ExitCode::from(received.status)
}
