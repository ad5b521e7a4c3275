//! What became of all log calls of a journal, for one client.

ghost use Rattle.std.specs.Prelude.{◌≡◌, ◌+◌, ◌<◌, ◌^◌, ◌++◌, ◌∷◌, [], ℕ, List, IfOk, OnOk, IfSome, drop, length};
ghost use Rattle.dl_events.specs.declared.event.Event.{Event};
ghost use Rattle.dl_model.specs.Accounts.{AreNumbered};
ghost use Rattle.dl_model.specs.Setting.{Setting};
ghost use Rattle.dl_model.specs.WholeAccounts.{records_by, source_of_records};
ghost use Rattle.dl_laws.specs.Fates as law;
ghost use Rattle.dl_laws.specs.Fates.{next_client};
ghost use Rattle.dl_report.specs.Clients.{ComeAndGo};
ghost use Rattle.dl_report.specs.Losses.{told};
ghost use Rattle.dl_fates.specs.Followed.{IsFollowing};
ghost use Rattle.dl_fates.specs.Found.{TellsAll, TellsWhole};
ghost use Rattle.dl_fates.specs.declared.fate.CallName.{CallName};

use crate::fate::{CallName, Fate};
use crate::follower::Follower;
use dl_bytes::OutOfMemory;
use dl_events::Event;
use dl_report::{Sources, admitted_by};
use std::alloc::Global;
use std::collections::HashMap;

/// What became of the log calls that the daemon took, for one client. It takes memory for each of them.
#[derive(Drop)]
pub struct Fates {
    /// The client's number.
    pub client: u32,
    /// The calls that the daemon took.
    pub calls: HashMap<CallName, Fate>,
}

/// The client that comes next.
fn next_client(events: &[Event]) -> Option<u32>
    ensures { result ≡ next_client events.now }
{
    for event in events {
        if let Event::Connect { client } = event {
            return Some(*client);
        }
    }
    None
}

/// The client that comes next behind the first event, where that is known before it.
fn next_behind(event: &Event, behind: &[Event], next: Option<u32>) -> Option<u32>
    requires { next ≡ next_client (event.now ∷ behind.now) }
    ensures { result ≡ next_client behind.now }
{
    match event {
        Event::Connect { .. } => next_client(behind),
        Event::Log { .. }
        | Event::Lost { .. }
        | Event::User { .. }
        | Event::Claim { .. }
        | Event::Level { .. }
        | Event::Request { .. }
        | Event::Close { .. } => next,
    }
}

/// Notes what becomes of the call that an event logs, where it logs one, and where that is the first time.
fn note_call(
    calls: &mut HashMap<CallName, Fate>,
    follower: &Follower,
    sources: &Sources<'_, '_>,
    event: &Event,
    next: Option<u32>,
) -> Result<(), OutOfMemory>
    requires numbered { (number : ℕ) → AreNumbered (records_by number sources.now.records.now) }
    ensures { (setting : Setting) (target : CallName → law.Fate) (before after : List Event) → setting.ecu ≡ sources.now.ecu → IsFollowing sources.now before follower.now → next ≡ next_client after
        → TellsAll (source_of_records setting sources.now.records.now sources.now.specs.now) follower.now.waiting.limit follower.now.client target calls.old before (event.now ∷ after)
        → OnOk result (TellsAll (source_of_records setting sources.now.records.now sources.now.specs.now) follower.now.waiting.limit follower.now.client target calls.new (before ++ event.now ∷ []) after) }
{
    let Event::Log { writer, call, .. } = event else {
        return Ok(());
    };
    let name = CallName {
        writer: *writer,
        call: *call,
    };
    if calls.get(&name).is_some() {
        return Ok(());
    }
    let size = admitted_by(sources, event).size;
    calls.insert(name, follower.fate(size, next))?;
    Ok(())
}

/// What became of the log calls of a journal, for one client, where the buffer keeps so many bytes. It goes through the events once.
pub fn find_fates(
    alloc: Global,
    client: u32,
    sources: &Sources<'_, '_>,
    events: &[Event],
    buffer: u32,
) -> Result<Fates, OutOfMemory>
    requires numbered { (number : ℕ) → AreNumbered (records_by number sources.now.records.now) }
    requires clients { ComeAndGo events.now }
    requires losses { told events.now < 2 ^ 63 }
    ensures client { IfOk result (λ fates. fates.client ≡ client) }
    ensures fates { IfOk result (λ fates. (setting : Setting) → setting.ecu ≡ sources.now.ecu
        → TellsWhole (source_of_records setting sources.now.records.now sources.now.specs.now) buffer client events.now fates.calls) }
{
    let mut follower = Follower::new(client, buffer);
    let mut calls = HashMap::new(alloc);
    let mut next = next_client(events);
    for place in 0..events.len() {
        let event = &events[place];
        next = next_behind(event, &events[place + 1..], next);
        note_call(&mut calls, &follower, sources, event, next)?;
        follower.note(sources, event)?;
    }
    Ok(Fates { client, calls })
}
