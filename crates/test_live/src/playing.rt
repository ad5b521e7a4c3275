//! A run over a folder, a net and sinks in memory, and what is looked at of it.

use dl_account::Account;
use dl_bytes::{Moment, OutOfMemory};
use dl_events::{Answer, ClaimList, Event, Record, Why};
use dl_live::{Ended, run};
use dl_memory::{
    MemoryFolder, MemoryNet, MemorySink, Passing, Sign, SignGate, StandingClock, Wanted, WatchedNet,
};
use dl_outside::{Folder, Gate};
use std::alloc::Global;
use std::collections::VecDeque;
use std::sync::Wait;
use std::thread::Threads;

/// When all calls are made.
const START: StandingClock = StandingClock {
    moment: Moment {
        secs: 0,
        micros: 0,
        ticks: 0,
    },
};

/// How many bytes the link of a client has room for, where it is to take all.
pub const MUCH: usize = 1_000_000;

/// How many turns a gate holds a worker at most.
pub const PATIENCE: u64 = 20_000_000;

/// A net whose clients are watched.
pub type Clients = WatchedNet<MemoryNet>;

/// The words, the folder and the sinks of a run.
#[derive(Drop)]
pub struct Stage {
    words: Vec<String>,
    folder: MemoryFolder,
    out: MemorySink,
    err: MemorySink,
}

/// The words of a command line that plays the scenario `s`.
fn words(alloc: Global) -> Result<Vec<String>, OutOfMemory> {
    let mut words = Vec::with_capacity(alloc, 2)?;
    words.push(String::from_str(alloc, "dlt_run")?)?;
    words.push(String::from_str(alloc, "s")?)?;
    Ok(words)
}

impl Stage {
    /// The stage of a run with this configuration and this scenario.
    pub fn make(alloc: Global, conf: &str, scenario: &str) -> Result<Stage, OutOfMemory> {
        let mut folder = MemoryFolder::make(alloc, 8, MUCH)?;
        let _ = folder.put("dlt.conf", conf.as_bytes());
        let _ = folder.put("s", scenario.as_bytes());
        Ok(Stage {
            words: words(alloc)?,
            folder,
            out: MemorySink::make(alloc, 1000),
            err: MemorySink::make(alloc, 1000),
        })
    }

    /// Whether just this was printed, and nothing said.
    pub fn has(&self, report: &str) -> bool {
        self.out.bytes() == report.as_bytes() && self.err.bytes().is_empty()
    }
}

/// The net and the gate of a run.
#[derive(Drop)]
pub struct Doors {
    pub net: Clients,
    pub gate: SignGate,
}

impl Doors {
    /// A net whose links have room for so many bytes each, and a gate at which the first writer's call of this number waits until a client was sent the
    /// wanted bytes; none does where the number is 0.
    pub fn make(
        alloc: Global,
        room: usize,
        call: u64,
        wanted: Wanted,
    ) -> Result<Doors, OutOfMemory> {
        let sign = Sign::make(alloc)?;
        let held = Passing { writer: 1, call };
        let gate = SignGate::make(held, sign.share()?, PATIENCE);
        let net = MemoryNet::make(alloc, room, VecDeque::new(alloc));
        let net = WatchedNet::make(net, wanted, sign);
        Ok(Doors { net, gate })
    }
}

/// What is looked at of a run.
#[derive(Clone, Copy)]
pub struct Seen {
    /// The exit status.
    pub status: u8,
    /// The last client that was closed as too slow, with its room and its need; zeros where there is none.
    pub slow: (u32, u64, u64),
    /// How many injections the writers of the first application were given.
    pub injected: u64,
    /// How many calls the daemon took.
    pub taken: u64,
    /// How many claims the daemon noted, and how many the rings took.
    pub claims: (u64, u64),
    /// Whether two writers made a thousand calls each, and those behind the daemon's taking of their claims were filtered, or queued.
    pub filtered: bool,
    pub queued: bool,
}

/// What is looked at of a run that came to no account.
const NOTHING: Seen = Seen {
    status: 255,
    slow: (0, 0, 0),
    injected: 0,
    taken: 0,
    claims: (0, 0),
    filtered: false,
    queued: false,
};

/// Adds what an event tells.
fn add(seen: &mut Seen, event: &Event) {
    match event {
        Event::Log { .. } => seen.taken = seen.taken.saturating_add(1),
        Event::Claim { .. } => seen.claims.0 = seen.claims.0.saturating_add(1),
        Event::Close {
            client,
            why: Why::Slow { room, need },
        } => seen.slow = (*client, *room, *need),
        _ => {}
    }
}

/// How many claims the rings took.
fn claimed(claims: &ClaimList) -> u64 {
    let mut count = 0u64;
    for writer in 0..claims.writers() {
        count = count.saturating_add(claims.of(writer + 1).len() as u64);
    }
    count
}

/// Whether these are the records of a thousand calls of a writer, in order. Those at version 0, before the daemon took the claim, were
/// filtered; the others, at version 1, were answered with this.
fn are_of_claimer(records: &[Record], behind: Answer) -> bool {
    let mut call = 0u64;
    let mut version = 0u64;
    for record in records {
        call = call.saturating_add(1);
        let expected = match record.version {
            0 => Answer::Filtered,
            _ => behind,
        };
        let is_in_turn = record.item.call == call && record.version >= version;
        if !is_in_turn || record.version > 1 || record.answer != expected {
            return false;
        }
        version = record.version;
    }
    call == 1000
}

/// Whether there are two such writers.
fn are_of_claimers(account: &Account, behind: Answer) -> bool {
    let records = account.records();
    records.writers() == 2
        && are_of_claimer(records.of(1), behind)
        && are_of_claimer(records.of(2), behind)
}

/// What is looked at of an account.
fn look_at(account: &Account) -> Seen {
    let mut seen = NOTHING;
    for event in account.events() {
        add(&mut seen, event);
    }
    seen.claims.1 = claimed(account.claims());
    if !account.apps().is_empty() {
        seen.injected = account.injected(0);
    }
    seen.filtered = are_of_claimers(account, Answer::Filtered);
    seen.queued = are_of_claimers(account, Answer::Queued);
    seen
}

/// Looks at a run that ended.
fn seen_of<L>(ended: &Ended<L>) -> Seen {
    let mut seen = match &ended.account {
        Some(account) => look_at(account),
        None => NOTHING,
    };
    seen.status = ended.status;
    seen
}

/// Plays the scenario of a stage over this net, with this gate.
pub fn play<R: Threads + Wait + Sync, G: Gate + Sync>(
    rt: &R,
    alloc: Global,
    stage: &mut Stage,
    net: &mut Clients,
    gate: &G,
) -> Seen {
    let ended = run(
        rt,
        alloc,
        &stage.words,
        &mut stage.folder,
        net,
        &START,
        gate,
        &mut stage.out,
        &mut stage.err,
    );
    let seen = seen_of(&ended);
    drop(ended);
    seen
}
