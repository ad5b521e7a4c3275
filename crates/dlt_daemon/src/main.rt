//! `dlt_daemon` serves external applications, which log over a port of their own, and the clients that dial in, for as long as it runs. The configuration
//! and the trace files are those of the current folder. The daemon listens on loopback, or on the address that `DLT_BIND_ADDRESS` of the environment
//! gives; for external applications on loopback, or on that of `DLT_USERS_ADDRESS`. It keeps no event, so its memory does not grow; with `--status SECONDS` it says a line of what it counts each so many seconds, and with
//! `--until-eof` it ends in order when its standard input ends. Where few numbers for clients or external applications are left, the next session begins in
//! the same process. One daemon runs in a folder.
//!
//! Proved: that `main` is safe; what it does is promised by `keep` of `dl_daemon`. Rests on tests: one stored run of `--help`, `tests/daemon`,
//! `tests/outside`, `tests/rests`, `tests/seats`.
#![tactic(auto)]

mod answers;
mod aside;
mod asked;
mod begin;
mod causes;
mod ending;
mod idle;
mod kept_conf;
mod news;
mod own;
mod preparing;
mod session;
mod status_output;
mod watching;

use crate::answers::{answer, asked};
use crate::aside::put_aside;
use crate::asked::Asked;
use crate::idle::{IdleCounts, clients_rule, programs_rule};
use crate::own::{Own, OwnSetting};
use crate::preparing::{Prepared, prepare};
use crate::watching::Watching;
use dl_daemon::keep;
use dl_outside::{Clock, Folder, Net, Sink};
use dl_real::{Writing, say_troubles};
use dl_real_daemon::{SystemClock, TcpNet};
use dl_startup::Status;
use dl_words::daemon_words;
use std::process::ExitCode;
use std::sync::Wait;

/// What the daemon has before it listens, or the status of one that doesn't run.
fn prepared(rt: &HostRuntime, asked: &Asked) -> Result<Prepared, ExitCode> {
    match daemon_words(rt.alloc(), &asked.words) {
        Ok(said) => prepare(rt, asked, &said),
        Err(fault) => Err(answer(rt, fault)),
    }
}

/// What the daemon logs as a program of its own, where it does and there is memory for it.
fn own_of(rt: &HostRuntime, setting: Option<OwnSetting>) -> Option<Own> {
    Own::make(rt.alloc(), setting?, std::process::id(rt.process())).ok()
}

/// Keeps the daemon running, one session behind the other, and gives the status of the last one. It may wait.
fn keep_on<R: Wait, F: Folder, N: Net, C: Clock, O: Sink>(
    waits: &R,
    rt: HostRuntime,
    words: &[String],
    folder: &mut F,
    net: &mut N,
    users: &mut N,
    clock: &C,
    watch: &mut Watching<HostRuntime, O>,
) -> Status
where
    N::L: Drop,
{
    let mut err = Writing::over(rt.stderr());
    for _session in 0..u64::MAX {
        let ended = keep(
            waits,
            rt.alloc(),
            words,
            folder,
            net,
            users,
            clock,
            watch,
            &mut err,
        );
        match &ended.left {
            Some(left) if watch.begins_session(&left.figures) => put_aside(&rt, folder),
            _ => return ended.status,
        }
    }
    Status::Ok
}

fn main(rt: HostRuntime) -> ExitCode {
    let asked = match asked(&rt) {
        Ok(asked) => asked,
        Err(status) => return status,
    };
    let mut prepared = match prepared(&rt, &asked) {
        Ok(prepared) => prepared,
        Err(status) => return status,
    };
    let mut net = TcpNet::make(rt, prepared.address);
    net.be_watchful();
    let mut users = TcpNet::beside_at(rt, &net, prepared.users);
    net.seat(clients_rule());
    users.seat(programs_rule());
    let idle = IdleCounts::of(net.made_room(), users.made_room());
    let clock = SystemClock::make(rt);
    let begins = prepared.begins.take();
    let taken = prepared.taken.shared();
    let tidings = net.tidings();
    let own = own_of(&rt, prepared.own.take());
    let mut watch = Watching::over(
        rt,
        &asked,
        begins,
        own,
        taken,
        idle,
        tidings.as_ref(),
        clock.now(),
    );
    let status = keep_on(
        &rt,
        rt,
        &asked.words,
        &mut prepared.folder,
        &mut net,
        &mut users,
        &clock,
        &mut watch,
    );
    say_troubles(&rt, "dlt_daemon", net.troubles());
    say_troubles(&rt, "dlt_daemon", users.troubles());
    ExitCode::from(status.number())
}
