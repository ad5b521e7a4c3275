//! What is said on standard error while the daemon runs: of its trace always; of clients and programs where that is asked for. Where standard error takes
//! nothing now, a line is left out: nothing waits for it.

use crate::causes::{Count, closed, ended, trace_cause};
use crate::idle::Idle;
use crate::session::NewSession;
use dl_bytes::{Moment, TraceEnd};
use dl_daemon::{ChannelEnds, Figures, Passed, Server, closes_behind, ends_behind, figures_of};
use dl_events::{Closes, Unkept};
use dl_outside::Link;
use dl_real::has_room;
use std::io::Eprint;

/// The number of the descriptor of standard error.
const STANDARD_ERROR: i32 = 2;

/// How many channels are looked at for those that are open.
const MOST_CHANNELS: usize = 64;

/// What was said so far.
#[derive(Clone, Copy)]
pub struct News {
    // whether clients and programs are told of
    is_verbose: bool,
    // of the trace
    has_ended: bool,
    renewed: u64,
    unstored: u64,
    // faults of the ports, and when they were told last, in seconds since the beginning of 1970
    faults: u64,
    told: u32,
    // what the sessions before this one counted
    counted: Figures,
    // of clients and programs
    clients: u32,
    closes: Option<Closes>,
    programs: u32,
    open_programs: usize,
    ends: Option<ChannelEnds>,
    dropped: u64,
    idle: Idle,
}

/// Says that one has connected, by its number.
fn say_connected<R: Eprint + AllocGlobal>(rt: &R, who: &str, number: u64) {
    if has_room(STANDARD_ERROR) {
        let _ = eprintln!(rt; "dlt_daemon: {who} {number} connected");
    }
}

/// Says what a count stands at, where it has risen.
fn say_risen<R: Eprint + AllocGlobal>(rt: &R, what: &str, before: u64, now: u64) {
    if now > before && has_room(STANDARD_ERROR) {
        let _ = eprintln!(rt; "dlt_daemon: {what}: {now}");
    }
}

/// Says how many have disconnected for each cause of which there are more now.
fn say_disconnected<R: Eprint + AllocGlobal>(rt: &R, who: &str, counts: &[Count]) {
    for count in counts {
        if count.now > count.before && has_room(STANDARD_ERROR) {
            let (why, now) = (count.cause.words(), count.now);
            let _ = eprintln!(rt; "dlt_daemon: {who} disconnected, {why}: {now}");
        }
    }
}

/// Says that the trace was begun anew, and how many messages it lacks.
fn say_restarted<R: Eprint + AllocGlobal>(rt: &R, lacks: u64) {
    if has_room(STANDARD_ERROR) {
        let _ = eprintln!(rt;
            "dlt_daemon: offline trace restarted: {lacks} messages since it ended are in no trace file"
        );
    }
}

/// How many channels are open.
fn open_channels<L: Link>(server: &Server<Unkept, L>) -> usize {
    let mut open = 0;
    for place in 0..MOST_CHANNELS {
        if server.channels.at(place).is_none() {
            break;
        }
        open = place + 1;
    }
    open
}

impl News {
    /// Nothing was said; of clients and programs only where that is asked for.
    pub fn none(is_verbose: bool) -> News {
        News {
            is_verbose,
            has_ended: false,
            renewed: 0,
            unstored: 0,
            faults: 0,
            told: 0,
            counted: Figures::nothing(),
            clients: 0,
            closes: None,
            programs: 0,
            open_programs: 0,
            ends: None,
            dropped: 0,
            idle: Idle {
                clients: 0,
                programs: 0,
            },
        }
    }

    /// Says that the trace was begun anew, or ended.
    fn tell_trace<R: Eprint + AllocGlobal>(
        &mut self,
        rt: &R,
        end: Option<TraceEnd>,
        passed: &Passed,
    ) {
        if passed.renewed != self.renewed {
            let lacks = passed.unstored.saturating_sub(self.unstored);
            say_restarted(rt, lacks);
            self.renewed = passed.renewed;
            self.unstored = passed.unstored;
            self.has_ended = false;
        }
        if let Some(end) = end {
            if !self.has_ended && has_room(STANDARD_ERROR) {
                let why = trace_cause(end);
                let _ = eprintln!(rt;
                    "dlt_daemon: offline trace ended, {why}: messages from now on are in no trace file"
                );
            }
            self.has_ended = true;
        }
    }

    /// Says how many faults the ports had, once a second at most.
    fn tell_faults<R: Eprint + AllocGlobal>(&mut self, rt: &R, passed: &Passed, now: u32) {
        let faults = passed.client_faults.saturating_add(passed.program_faults);
        if faults != self.faults && now != self.told {
            say_risen(rt, "accepts that failed", self.faults, faults);
            self.faults = faults;
            self.told = now;
        }
    }

    /// Says which clients came, and how clients went.
    fn tell_clients<R: Eprint + AllocGlobal>(&mut self, rt: &R, came: u32, now: Closes) {
        for client in self.clients..came {
            let number = self.counted.clients.saturating_add(client as u64);
            say_connected(rt, "client", number.saturating_add(1));
        }
        self.clients = came;
        if let Some(before) = self.closes {
            say_disconnected(rt, "clients", &closed(before, now));
        }
        self.closes = Some(now);
    }

    /// Says how programs went.
    fn tell_ends<R: Eprint + AllocGlobal>(&mut self, rt: &R, now: ChannelEnds) {
        if let Some(before) = self.ends {
            say_disconnected(rt, "external applications", &ended(before, now));
        }
        self.ends = Some(now);
    }

    /// Says which programs came, and how programs went.
    fn tell_programs<R: Eprint + AllocGlobal, L: Link>(
        &mut self,
        rt: &R,
        server: &Server<Unkept, L>,
        passed: &Passed,
    ) {
        let came = server.programs.len();
        for program in self.programs..came {
            let number = self.counted.channels.saturating_add(program as u64);
            say_connected(rt, "external application", number.saturating_add(1));
        }
        let open = open_channels(server);
        if self.ends.is_none() || came != self.programs || open != self.open_programs {
            let before = self.counted.ends;
            let now = figures_of(server, *passed).ends;
            self.tell_ends(rt, ends_behind(&before, &now));
        }
        self.programs = came;
        self.open_programs = open;
    }

    /// Says that a session begins behind one that counted this, and behind the others, which with it counted all this.
    pub fn begin_session<R: Eprint + AllocGlobal>(
        &mut self,
        rt: &R,
        session: &NewSession,
        last: &Figures,
        counted: &Figures,
    ) {
        if last.ended {
            say_restarted(rt, last.unstored.saturating_sub(self.unstored));
        }
        if has_room(STANDARD_ERROR) {
            let (number, lost) = (session.number, session.lost);
            let (clients, programs) = (session.clients, session.programs);
            let _ = eprintln!(rt;
                "dlt_daemon: session {number} begins, few numbers were left: {clients} clients and {programs} external applications are disconnected, {lost} messages that waited for a client are lost"
            );
        }
        self.has_ended = false;
        self.renewed = 0;
        self.unstored = 0;
        self.counted = *counted;
        self.clients = 0;
        self.closes = None;
        self.programs = 0;
        self.open_programs = 0;
        self.ends = None;
    }

    /// Says how many were disconnected, since nothing went through their connections, for others that came.
    fn tell_idle<R: Eprint + AllocGlobal>(&mut self, rt: &R, now: Idle) {
        let before = self.idle;
        say_risen(
            rt,
            "clients disconnected for others, idle",
            before.clients,
            now.clients,
        );
        say_risen(
            rt,
            "external applications disconnected for others, idle",
            before.programs,
            now.programs,
        );
        self.idle = now;
    }

    /// Says what has happened since it was called last.
    pub fn tell<R: Eprint + AllocGlobal, L: Link>(
        &mut self,
        rt: &R,
        server: &Server<Unkept, L>,
        passed: &Passed,
        idle: Idle,
        now: Moment,
    ) {
        let end = server.core.trace_state().and_then(|state| state.end);
        self.tell_trace(rt, end, passed);
        self.tell_faults(rt, passed, now.secs);
        if self.is_verbose {
            let before = self.counted.closes;
            let now = server.journal.closes();
            let closes = closes_behind(&before, &now);
            self.tell_clients(rt, server.clients.len(), closes);
            self.tell_programs(rt, server, passed);
            let dropped = self.counted.dropped.saturating_add(server.dropped as u64);
            say_risen(
                rt,
                "connections refused, no place free",
                self.dropped,
                dropped,
            );
            self.dropped = dropped;
            self.tell_idle(rt, idle);
        }
    }
}
