//! What records and events say of each application and each client, gathered in one pass over each.

ghost use Rattle.std.specs.Prelude.{◌≡◌, ◌≤◌, ◌<◌, ◌+◌, ◌*◌, ◌-◌, ◌^◌, ◌==◌, ◌++◌, ◌∷◌, ℕ, [], List, OnOk, IfOk, if◌then◌else◌, length, map, slice_get, option_to_list};
ghost use Rattle.std.specs.List.{filter_map, flat_map};
ghost use Rattle.dl_events.specs.declared.event.Event.{Event};
ghost use Rattle.dl_events.specs.declared.record.Record.{Record};
ghost use Rattle.dl_report.specs.Tally.{IsTally};
ghost use Rattle.dl_report.specs.Counts.{Each, IsCount, AreAtMost, HasCounted, HasNoted, changed_at, with_answer, with_loss, close_in, why_in, no_counts};

use dl_bytes::{AppSpec, OutOfMemory};
use dl_events::{Answer, Event, Record, RecordList, Why};
use std::alloc::Global;

/// What became of an application's calls.
#[derive(Clone, Copy, PartialEq, Eq)]
pub struct AppCounts {
    /// How many calls its ring took.
    pub queued: u128,
    /// How many its levels filtered.
    pub filtered: u128,
    /// How many a full ring refused.
    pub lost: u128,
    /// How many of the lost ones the journal reports.
    pub reported: u128,
}

/// A client that went.
#[derive(Clone, Copy, PartialEq, Eq)]
pub struct Closed {
    /// The client's number.
    pub client: u32,
    /// Why it went.
    pub why: Why,
}

/// What the records and the events say of applications and clients.
#[derive(Drop)]
pub struct Tally {
    /// The counts of each application, by their numbers from 0.
    pub apps: Vec<AppCounts>,
    /// The clients that went, in the order of the events.
    pub closes: Vec<Closed>,
}

/// Counts an answer.
fn add_answer(counts: &mut AppCounts, answer: Answer)
    requires { AreAtMost (2 ^ 127) (2 ^ 128) 0 counts.old }
    ensures { counts.new ≡ with_answer answer counts.old }
{
    match answer {
        Answer::Queued => counts.queued += 1,
        Answer::Filtered => counts.filtered += 1,
        Answer::Lost => counts.lost += 1,
    }
}

/// Counts the answer to a call, where its application has a place.
fn count_record(table: &mut [AppCounts], call: &Record)
    requires { Each (AreAtMost (2 ^ 127) (2 ^ 128)) table.old }
    ensures { HasCounted (call.now ∷ []) table.old table.new }
{
    let place = call.item.app as usize;
    if place < table.len() {
        add_answer(&mut table[place], call.answer);
    }
}

/// Counts the answers to the calls of a writer.
fn count_records(table: &mut [AppCounts], records: &[Record])
    requires { Each (AreAtMost (2 ^ 126) (2 ^ 128)) table.old }
    ensures counted { HasCounted records.now table.old table.new }
    ensures short { length records.now < 2 ^ 64 }
{
    for record in records {
        count_record(table, record);
    }
}

/// Counts the answers to all calls.
fn count_answers(table: &mut [AppCounts], records: &RecordList)
    requires { Each (AreAtMost 0 (2 ^ 128)) table.old }
    ensures size { length table.new ≡ length table.old }
    ensures counts { (events : List Event) → Each (IsCount [] events) table.old → Each (IsCount (flat_map (λ (rs : List Record). rs) records.now) events) table.new }
    ensures bounds { (losses : ℕ) → Each (AreAtMost 0 losses) table.old → Each (AreAtMost (2 ^ 72) losses) table.new }
{
    for place in 0..records.writers() {
        count_records(table, records.of(place + 1));
    }
}

/// Counts the losses that an event reports, where their application has a place.
fn count_loss(table: &mut [AppCounts], app: u8, count: u64)
    requires { Each (AreAtMost (2 ^ 128) (2 ^ 128 - 2 ^ 64)) table.old }
    ensures { table.new ≡ changed_at app (with_loss count) table.old }
{
    let place = app as usize;
    if place < table.len() {
        table[place].reported += count as u128;
    }
}

/// Notes what an event says of an application or a client.
fn count_event(
    table: &mut [AppCounts],
    closes: &mut Vec<Closed>,
    event: &Event,
) -> Result<(), OutOfMemory>
    requires { Each (AreAtMost (2 ^ 128) (2 ^ 128 - 2 ^ 64)) table.old }
    ensures table { HasNoted (event.now ∷ []) table.old table.new }
    ensures closes { OnOk result (closes.new.items ≡ closes.old.items ++ option_to_list (close_in event.now)) }
{
    match event {
        Event::Lost { app, count, .. } => count_loss(table, *app, *count),
        Event::Close { client, why } => closes.push(Closed {
            client: *client,
            why: *why,
        })?,
        Event::Log { .. }
        | Event::User { .. }
        | Event::Claim { .. }
        | Event::Level { .. }
        | Event::Connect { .. }
        | Event::Request { .. } => {}
    }
    Ok(())
}

/// Counts the losses that the events report, and gathers the clients that went.
fn count_events(
    alloc: Global,
    table: &mut [AppCounts],
    events: &[Event],
) -> Result<Vec<Closed>, OutOfMemory>
    requires { Each (AreAtMost 0 0) table.old }
    ensures size { length table.new ≡ length table.old }
    ensures table { IfOk result (λ _. HasNoted events.now table.old table.new) }
    ensures closes { IfOk result (λ closes. closes.items ≡ filter_map close_in events.now) }
{
    let mut closes = Vec::new(alloc);
    for event in events {
        count_event(table, &mut closes, event)?;
    }
    Ok(closes)
}

/// A table in which nothing was counted yet.
fn no_counts(alloc: Global, specs: &[AppSpec]) -> Result<Vec<AppCounts>, OutOfMemory>
    ensures { IfOk result (λ table. table.items ≡ map (λ _. no_counts) specs.now) }
{
    let none = AppCounts {
        queued: 0,
        filtered: 0,
        lost: 0,
        reported: 0,
    };
    specs.iter().map(|_| none).collect(alloc)
}

/// Counts what the records and the events say, and gathers the clients that went.
fn count_into(
    alloc: Global,
    table: &mut [AppCounts],
    records: &RecordList,
    events: &[Event],
) -> Result<Vec<Closed>, OutOfMemory>
    requires bounds { Each (AreAtMost 0 0) table.old }
    requires counts { Each (IsCount [] []) table.old }
    ensures size { length table.new ≡ length table.old }
    ensures counts { IfOk result (λ _. Each (IsCount (flat_map (λ (rs : List Record). rs) records.now) events.now) table.new) }
    ensures bounds { IfOk result (λ _. Each (AreAtMost (2 ^ 72) (2 ^ 128)) table.new) }
    ensures closes { IfOk result (λ closes. closes.items ≡ filter_map close_in events.now) }
{
    let closes = count_events(alloc, table, events)?;
    count_answers(table, records);
    Ok(closes)
}

/// Counts what the records and the events say of these applications and of all clients.
pub fn count_all(
    alloc: Global,
    records: &RecordList,
    events: &[Event],
    specs: &[AppSpec],
) -> Result<Tally, OutOfMemory>
    ensures { IfOk result (λ tally. IsTally (flat_map (λ (rs : List Record). rs) records.now) events.now (length specs.now) tally) }
{
    let mut apps = no_counts(alloc, specs)?;
    let closes = count_into(alloc, &mut apps, records, events)?;
    Ok(Tally { apps, closes })
}
