//! `dlt_run SCENARIO` plays a scenario: its writers log in threads of their own beside the daemon, its clients dial in, and what came of it
//! is printed. `dlt_run --serve` serves external applications instead, which log over a second port, and the clients that dial in, for a number of rounds.
//! The configuration and the trace files are those of the current folder. The daemon listens on loopback, or on the address that `DLT_BIND_ADDRESS`
//! of the environment gives.
//!
//! Proved: that `main` is safe; what it does is promised by `run` of `dl_live` and `serve` of `dl_serve`. Rests on tests: one stored run,
//! `tests/live`, `tests/serve`.
//!
//! Chosen: a `DLT_BIND_ADDRESS` that is no address is refused with status 8 before the words are looked at, since the net is made first.
#![tactic(auto)]

use dl_live::{Status, run};
use dl_real::{Directory, Writing, say_troubles};
use dl_real_daemon::{BIND_ADDRESS, BindFault, OpenGate, SystemClock, TcpNet, bind_address};
use dl_serve::serve;
use dl_words::asks_to_serve;
use std::env;
use std::io::ErrorKind;
use std::process::ExitCode;
use std::rt::Env;

/// The words of the command line, where there is memory for them. No words stand for such as are no text.
fn words(rt: &(impl Env + AllocGlobal)) -> Option<Vec<String>> {
    match env::args(rt) {
        Ok(args) => args.collect(rt.alloc()).ok(),
        Err(error) if error.kind() == ErrorKind::OutOfMemory => None,
        Err(_) => Some(Vec::new(rt.alloc())),
    }
}

/// Says why nothing is run, and gives the status.
fn refused(rt: &HostRuntime, line: &str, status: Status) -> ExitCode {
    let _ = rt.eprintln(line);
    ExitCode::from(status.number())
}

/// Says what went wrong with files: which one, and why. A scenario that isn't there has no fault, so its name is said.
fn say_files(rt: &HostRuntime, status: u8, folder: &Directory<HostRuntime>) {
    if status == NO_SCENARIO {
        if let Some(name) = folder.absent() {
            let _ = eprintln!(rt; "dlt_run: {name}: not found");
        }
    }
    if status != 0 {
        say_troubles(rt, "dlt_run", folder.troubles());
    }
}

/// The same of the port of a net.
fn say_port(rt: &HostRuntime, status: u8, net: &TcpNet<HostRuntime>) {
    if status != 0 {
        say_troubles(rt, "dlt_run", net.troubles());
    }
}

/// The status of a run whose scenario is refused.
const NO_SCENARIO: u8 = 4;

fn main(rt: HostRuntime) -> ExitCode {
    let Some(words) = words(&rt) else {
        return refused(&rt, "dlt_run: out of memory", Status::OutOfMemory);
    };
    let address = match bind_address(&rt) {
        Ok(address) => address,
        Err(BindFault::NoAddress) => {
            let status = refused(&rt, "dlt_run: net fault", Status::NetFault);
            let _ = eprintln!(&rt; "dlt_run: {BIND_ADDRESS}: no address");
            return status;
        }
        Err(BindFault::OutOfMemory) => {
            return refused(&rt, "dlt_run: out of memory", Status::OutOfMemory);
        }
    };
    let mut folder = Directory::over(rt);
    let mut net = TcpNet::make(rt, address);
    let clock = SystemClock::make(rt);
    let mut out = Writing::over(rt.stdout());
    let mut err = Writing::over(rt.stderr());
    if asks_to_serve(&words) {
        let mut users = TcpNet::beside(rt, &net);
        let served = serve(
            &rt,
            rt.alloc(),
            &words,
            &mut folder,
            &mut net,
            &mut users,
            &clock,
            &mut out,
            &mut err,
        );
        let status = served.status;
        say_files(&rt, status, &folder);
        say_port(&rt, status, &net);
        say_port(&rt, status, &users);
        return ExitCode::from(status);
    }
    let ended = run(
        &rt,
        rt.alloc(),
        &words,
        &mut folder,
        &mut net,
        &clock,
        &OpenGate,
        &mut out,
        &mut err,
    );
    let status = ended.status;
    say_files(&rt, status, &folder);
    say_port(&rt, status, &net);
    // The clients end with their links.
    drop(ended);
    let _read = net.finish();
    ExitCode::from(status)
}
