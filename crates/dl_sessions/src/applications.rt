//! What a stream has of each application: its messages, and what its reports tell of lost ones.

ghost use Rattle.std.specs.Prelude.{◌≡◌, ◌++◌, ◌∷◌, [], List, IfOk, OnOk, not, unwrap_or, if◌then◌else◌};
ghost use Rattle.std.specs.HashMap as hash;
ghost use Rattle.dl_sessions.specs.Applications.{AreOf, has_hole, is_first as is_first_of, is_heard, next_number, no_tally, noted_message, noted_report, owner, same_position, tally_by, tally_of, told_by};
ghost use Rattle.dl_sessions.specs.Gaps.{same_source, source_of};
ghost use Rattle.dl_sessions.specs.declared.session.Told.{Told};
ghost use Rattle.dl_sessions.specs.declared.session.Told.TheVariants as told;

use crate::session::{Entry, Lost, Position, Session, Source, Tally};
use dl_bytes::OutOfMemory;
use std::alloc::Global;
use std::collections::HashMap;

/// The applications of a stream. It takes memory for each of them, and for each place where their reports tell of lost messages.
#[derive(Drop)]
pub struct Applications {
    /// What is counted of each application.
    tallies: HashMap<Source, Tally>,
    /// How many messages were reported as lost before a message.
    told: HashMap<Position, u64>,
    /// The applications, in the order of their first messages or reports.
    sources: Vec<Source>,
}

/// The application of a session.
pub fn source_of(session: &Session) -> Source
    ensures { result ≡ source_of session.now }
{
    Source { apid: session.apid }
}

/// What is counted of an application that has no message.
fn no_tally() -> Tally
    ensures { result ≡ no_tally }
{
    Tally {
        messages: 0,
        sessions: 0,
        reports: 0,
        lost: 0,
        has_hole: false,
    }
}

/// The number of an application's next message.
pub fn next_number(tally: &Tally) -> u64
    ensures { result ≡ next_number tally.now }
{
    tally.messages.saturating_add(1)
}

/// What is counted of an application with one message more, before which messages are missing or not, and which is the first of its session or not.
fn noted_message(tally: &Tally, is_behind_hole: bool, is_first: bool) -> Tally
    ensures { result ≡ noted_message tally.now is_behind_hole is_first }
{
    Tally {
        messages: next_number(tally),
        sessions: tally.sessions.saturating_add(if is_first { 1 } else { 0 }),
        has_hole: is_behind_hole,
        ..*tally
    }
}

/// What is counted of an application with one report more.
fn noted_report(tally: &Tally, count: u32) -> Tally
    ensures { result ≡ noted_report tally.now count }
{
    Tally {
        reports: tally.reports.saturating_add(1),
        lost: tally.lost.saturating_add(count as u64),
        ..*tally
    }
}

/// The number of the message before which the messages were lost that a report tells: the last one, where messages are missing before it; else
/// the next one.
fn owner(tally: &Tally) -> u64
    ensures { result ≡ owner tally.now }
{
    if tally.has_hole {
        tally.messages
    } else {
        next_number(tally)
    }
}

/// Whether a message or a report came of an application.
fn is_heard(tally: &Tally) -> bool
    ensures { result ≡ is_heard tally.now }
{
    tally.messages != 0 || tally.reports != 0
}

/// What is counted of an application so far.
fn tally_so_far(tallies: &HashMap<Source, Tally>, source: &Source) -> Tally
    ensures { result ≡ unwrap_or (hash.get same_source tallies.now source.now) no_tally }
{
    match tallies.get(source) {
        Some(tally) => *tally,
        None => no_tally(),
    }
}

/// How many messages were reported as lost before a message so far.
fn told_so_far(told: &HashMap<Position, u64>, position: &Position) -> u64
    ensures { result ≡ unwrap_or (hash.get same_position told.now position.now) 0 }
{
    match told.get(position) {
        Some(count) => *count,
        None => 0,
    }
}

/// Adds an application of which nothing came before.
fn push_first(sources: &mut Vec<Source>, tally: &Tally, source: Source) -> Result<(), OutOfMemory>
    ensures { OnOk result (sources.new.items ≡ sources.old.items ++ (if is_heard tally.now then [] else source ∷ [])) }
{
    if !is_heard(tally) {
        sources.push(source)?;
    }
    Ok(())
}

impl Applications {
    /// The applications of a stream that has no message yet.
    pub fn new(alloc: Global) -> Applications
        ensures { AreOf [] result }
    {
        Applications {
            tallies: HashMap::new(alloc),
            told: HashMap::new(alloc),
            sources: Vec::new(alloc),
        }
    }

    /// Notes a message, before which messages are missing or not, and which is the first of its session or not. Answers its number among those of its
    /// application.
    pub fn note_message(
        &mut self,
        entry: &Entry,
        is_behind_hole: bool,
        is_first: bool,
    ) -> Result<u64, OutOfMemory>
        ensures { (stream : List Told) → AreOf stream self.old → is_behind_hole ≡ has_hole stream (told.Log entry.now) → is_first ≡ is_first_of stream (told.Log entry.now)
            → IfOk result (λ number. (number ≡ next_number (tally_of (source_of entry.now.session) stream)) × AreOf (stream ++ told.Log entry.now ∷ []) self.new) }
    {
        let source = source_of(&entry.session);
        let tally = tally_so_far(&self.tallies, &source);
        push_first(&mut self.sources, &tally, source)?;
        let noted = noted_message(&tally, is_behind_hole, is_first);
        self.tallies.insert(source, noted)?;
        Ok(noted.messages)
    }

    /// Notes a report of lost messages.
    pub fn note_report(&mut self, report: &Lost) -> Result<(), OutOfMemory>
        ensures { (stream : List Told) → AreOf stream self.old → OnOk result (AreOf (stream ++ told.Lost report.now ∷ []) self.new) }
    {
        let source = report.source;
        let tally = tally_so_far(&self.tallies, &source);
        push_first(&mut self.sources, &tally, source)?;
        self.tallies
            .insert(source, noted_report(&tally, report.count))?;
        let position = Position {
            source,
            number: owner(&tally),
        };
        let told = told_so_far(&self.told, &position).saturating_add(report.count as u64);
        self.told.insert(position, told)?;
        Ok(())
    }

    /// The applications, in the order of their first messages or reports.
    pub fn sources(&self) -> &[Source]
        ensures { result.now ≡ self.now.sources.items }
    {
        &self.sources
    }

    /// What is counted of an application.
    pub fn tally(&self, source: &Source) -> Tally
        ensures { result ≡ tally_by self.now source.now }
    {
        tally_so_far(&self.tallies, source)
    }

    /// How many messages were reported as lost before a message.
    pub fn told(&self, position: &Position) -> u64
        ensures { result ≡ told_by self.now position.now }
    {
        told_so_far(&self.told, position)
    }
}
