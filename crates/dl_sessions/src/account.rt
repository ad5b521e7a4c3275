//! The account: message after message.

ghost use Rattle.std.specs.Prelude.{◌≡◌, ◌++◌, ◌∷◌, ◌&&◌, [], List, IfOk, OnOk, nat_eq, not, unwrap_or, if◌then◌else◌};
ghost use Rattle.std.specs.HashMap as hash;
ghost use Rattle.std.specs.List.{flat_map};
ghost use Rattle.dl_sessions.specs.Printing.{application_by, hole_by, losses_by, missing_by, missing_of, open_by, open_of, session_by};
ghost use Rattle.dl_sessions.specs.Text.{printed};
ghost use Rattle.dl_sessions.specs.Account.{IsAfter, KeepsContexts, KeepsTotals, NotedContext, NotedSession, hole_if, holes, noted, no_totals, sessions, totals_of};
ghost use Rattle.dl_sessions.specs.Gaps.{begins_anew, entries, gap, goes_on, latest_of, may_begin, of_context, of_session, unsure, passed, same_session, same_source, source_of, turn, turn_of};
ghost use Rattle.dl_sessions.specs.declared.session.Entry.{Entry};
ghost use Rattle.dl_sessions.specs.declared.session.Told.{Told};
ghost use Rattle.dl_sessions.specs.declared.session.Told.TheVariants as told;

use crate::applications::{Applications, next_number, source_of};
use crate::session::{
    Context, Entry, Hole, Latest, Losses, Position, Session, Source, Told, Totals, Turn,
};
use crate::text::{
    is_open, missing, push_application as push_application_line, push_hole as push_hole_line,
    push_totals, told_alone,
};
use dl_bytes::{Id, OutOfMemory};
use std::alloc::Global;
use std::collections::HashMap;

/// The daemon's own APID, `DA1`: its buffer's losses are reported in its name.
const DAEMON: [u8; 4] = *b"DA1\0";

/// The account of a stream of messages. It takes memory for each session, each context, each application, and each hole.
#[derive(Drop)]
pub struct Account {
    /// What is counted of each session.
    totals: HashMap<Session, Totals>,
    /// The last message of each context.
    contexts: HashMap<Context, Latest>,
    /// The applications.
    applications: Applications,
    /// The sessions, in the order of their first messages.
    sessions: Vec<Session>,
    /// The holes, in the order of the stream.
    holes: Vec<Hole>,
    /// How many messages came.
    messages: u64,
}

/// What is kept of a message.
pub fn latest_of(entry: &Entry) -> Latest
    ensures { result ≡ latest_of entry.now }
{
    Latest {
        mcnt: entry.mcnt,
        ticks: entry.ticks,
    }
}

/// Whether the program that counts has begun anew with a message: it counts from 0 again, and the timestamp falls back.
fn begins_anew(last: Latest, entry: &Entry) -> bool
    ensures { result ≡ begins_anew last entry.now }
{
    entry.ticks < last.ticks && entry.mcnt == 0
}

/// How many counters were passed over since the last message.
pub fn gap(last: Option<Latest>, entry: &Entry) -> u8
    ensures { result ≡ gap last entry.now }
{
    match last {
        Some(last) if begins_anew(last, entry) => 0,
        Some(last) => passed(Some(last), entry),
        None => 0,
    }
}

/// All counters that were passed over since the last message.
fn passed(last: Option<Latest>, entry: &Entry) -> u8
    ensures { result ≡ passed last entry.now }
{
    match last {
        Some(last) => entry.mcnt.wrapping_sub(last.mcnt).wrapping_sub(1),
        None => 0,
    }
}

/// Whether who counts may have begun anew with a message: another counter was due, and this one is 0 or its timestamp falls back.
fn may_begin(last: Latest, entry: &Entry) -> bool
    ensures { result ≡ may_begin last entry.now }
{
    passed(Some(last), entry) != 0 && (entry.mcnt == 0 || entry.ticks < last.ticks)
}

/// The counters that were passed over since the last message, where who counts may have begun anew.
fn unsure(last: Option<Latest>, entry: &Entry) -> u8
    ensures { result ≡ unsure last entry.now }
{
    match last {
        Some(last) if may_begin(last, entry) => passed(Some(last), entry),
        Some(_) => 0,
        None => 0,
    }
}

/// Whether a message goes on from its context's last counter, or is the first, 0, of a new context.
pub fn goes_on(last: Option<Latest>, entry: &Entry) -> bool
    ensures { result ≡ goes_on last entry.now }
{
    gap(last, entry) == 0 && (last.is_some() || entry.mcnt == 0)
}

/// What a message is to its context.
fn turn(last: Option<Latest>, entry: &Entry) -> Turn
    ensures { result ≡ turn last entry.now }
{
    Turn {
        missing: passed(last, entry),
        unsure: unsure(last, entry),
        goes_on: goes_on(last, entry),
    }
}

/// Whether a message goes on from its session's last counter, and not from its context's.
pub fn of_session(last: Option<Latest>, in_context: bool, entry: &Entry) -> u64
    ensures { result ≡ of_session last in_context entry.now }
{
    if last.is_some() && gap(last, entry) == 0 && !in_context {
        1
    } else {
        0
    }
}

/// Whether a message goes on from its context's last counter, and that of its session is met again or steps back; or whether it is an account.
pub fn of_context(last: Option<Latest>, in_context: bool, entry: &Entry) -> u64
    ensures { result ≡ of_context last in_context entry.now }
{
    if (gap(last, entry) >= 127 && in_context) || entry.calls.are_told {
        1
    } else {
        0
    }
}

/// What is counted of a session that has no message.
fn no_totals() -> Totals
    ensures { result ≡ no_totals }
{
    Totals {
        messages: 0,
        first: None,
        last: None,
        by_session: 0,
        by_context: 0,
        open_session: 0,
        open_context: 0,
        of_session: 0,
        of_context: 0,
    }
}

/// What is counted of a session with one message more, which is this to its context.
fn noted(totals: &Totals, entry: &Entry, turn: Turn) -> Totals
    ensures { result ≡ noted totals.now entry.now turn }
{
    let last = totals.last;
    let of_session = of_session(last, turn.goes_on, entry);
    let of_context = of_context(last, turn.goes_on, entry);
    Totals {
        messages: totals.messages.saturating_add(1),
        first: totals.first.or(Some(latest_of(entry))),
        last: Some(latest_of(entry)),
        by_session: totals.by_session.saturating_add(passed(last, entry) as u64),
        by_context: totals.by_context.saturating_add(turn.missing as u64),
        open_session: totals
            .open_session
            .saturating_add(unsure(last, entry) as u64),
        open_context: totals.open_context.saturating_add(turn.unsure as u64),
        of_session: totals.of_session.saturating_add(of_session),
        of_context: totals.of_context.saturating_add(of_context),
    }
}

/// What a message is to its session.
#[derive(Clone, Copy)]
struct Step {
    /// How many counters were passed over before it, where the session counts its messages.
    by_session: u8,
    /// The same where the session may have begun anew; else 0.
    unsure: u8,
    /// Whether it is the first of its session.
    is_first: bool,
}

/// Notes a message of its context. Answers what it is to it.
fn note_context(contexts: &mut HashMap<Context, Latest>, entry: &Entry) -> Result<Turn, OutOfMemory>
    ensures { (es : List Entry) → KeepsContexts contexts.old es → IfOk result (λ turn. NotedContext es entry.now turn contexts.new) }
{
    let context = Context {
        ecu: entry.session.ecu,
        apid: entry.session.apid,
        seid: entry.session.seid,
        ctid: entry.ctid,
    };
    let last = contexts.insert(context, latest_of(entry))?;
    Ok(turn(last, entry))
}

/// What is counted of a session so far.
fn totals_so_far(totals: &HashMap<Session, Totals>, session: &Session) -> Totals
    ensures { result ≡ unwrap_or (hash.get same_session totals.now session.now) no_totals }
{
    match totals.get(session) {
        Some(totals) => *totals,
        None => no_totals(),
    }
}

/// Notes a message of its session.
fn note_session(
    totals: &mut HashMap<Session, Totals>,
    entry: &Entry,
    turn: Turn,
) -> Result<Step, OutOfMemory>
    ensures { (es : List Entry) → KeepsTotals totals.old es → turn ≡ turn_of es entry.now → IfOk result (λ step. NotedSession es entry.now step totals.new) }
{
    let old = totals_so_far(totals, &entry.session);
    let step = Step {
        by_session: passed(old.last, entry),
        unsure: unsure(old.last, entry),
        is_first: old.last.is_none(),
    };
    totals.insert(entry.session, noted(&old, entry, turn))?;
    Ok(step)
}

/// Whether messages are missing, by one of the countings.
fn is_missing(by_session: u8, by_context: u8) -> bool
    ensures { result ≡ not (nat_eq by_session 0 && nat_eq by_context 0) }
{
    by_session != 0 || by_context != 0
}

/// Adds a session that is the first time there.
fn push_first(
    sessions: &mut Vec<Session>,
    is_first: bool,
    session: &Session,
) -> Result<(), OutOfMemory>
    ensures { OnOk result (sessions.new.items ≡ sessions.old.items ++ (if is_first then session.now ∷ [] else [])) }
{
    if is_first {
        sessions.push(*session)?;
    }
    Ok(())
}

/// Adds a hole, where something is missing.
fn push_hole(holes: &mut Vec<Hole>, hole: Hole) -> Result<(), OutOfMemory>
    ensures { OnOk result (holes.new.items ≡ holes.old.items ++ hole_if hole) }
{
    if is_missing(hole.by_session, hole.by_context) {
        holes.push(hole)?;
    }
    Ok(())
}

/// Adds the lines of holes.
fn push_holes(
    text: &mut Vec<u8>,
    totals: &HashMap<Session, Totals>,
    applications: &Applications,
    holes: &[Hole],
) -> Result<(), OutOfMemory>
    ensures { OnOk result (text.new.items ≡ text.old.items ++ flat_map (hole_by totals.now applications.now) holes.now) }
{
    for hole in holes {
        let position = Position {
            source: source_of(&hole.entry.session),
            number: hole.number,
        };
        let counted = totals_so_far(totals, &hole.entry.session);
        let tally = applications.tally(&position.source);
        let told = told_alone(&counted, &tally, applications.told(&position));
        push_hole_line(text, &counted, hole, told)?;
    }
    Ok(())
}

/// Adds the lines of sessions.
fn push_sessions(
    text: &mut Vec<u8>,
    totals: &HashMap<Session, Totals>,
    sessions: &[Session],
) -> Result<(), OutOfMemory>
    ensures { OnOk result (text.new.items ≡ text.old.items ++ flat_map (session_by totals.now) sessions.now) }
{
    for session in sessions {
        push_totals(text, session, &totals_so_far(totals, session))?;
    }
    Ok(())
}

/// Whether a session is of this application.
fn is_of_source(source: &Source, session: &Session) -> bool
    ensures { result ≡ same_source (source_of session.now) source.now }
{
    session.apid == source.apid
}

/// How many messages of a session are missing, where it is of this application.
fn missing_of(totals: &HashMap<Session, Totals>, source: &Source, session: &Session) -> u64
    ensures { result ≡ missing_of totals.now source.now session.now }
{
    if is_of_source(source, session) {
        missing(&totals_so_far(totals, session))
    } else {
        0
    }
}

/// How many messages of an application are missing in its sessions.
fn missing_in(totals: &HashMap<Session, Totals>, source: &Source, sessions: &[Session]) -> u64
    ensures { result ≡ missing_by totals.now source.now sessions.now }
{
    let mut total: u64 = 0;
    for session in sessions {
        total = total.saturating_add(missing_of(totals, source, session));
    }
    total
}

/// 1 for a session that is of this application, and of which what is missing is open.
fn open_of(totals: &HashMap<Session, Totals>, source: &Source, session: &Session) -> u64
    ensures { result ≡ open_of totals.now source.now session.now }
{
    if is_of_source(source, session) && is_open(&totals_so_far(totals, session)) {
        1
    } else {
        0
    }
}

/// How many sessions of an application are open.
fn open_in(totals: &HashMap<Session, Totals>, source: &Source, sessions: &[Session]) -> u64
    ensures { result ≡ open_by totals.now source.now sessions.now }
{
    let mut total: u64 = 0;
    for session in sessions {
        total = total.saturating_add(open_of(totals, source, session));
    }
    total
}

/// What was told of an application's lost messages, and of those that the buffer refused.
fn losses_of(applications: &Applications, source: &Source) -> Losses
    ensures { result ≡ losses_by applications.now source.now }
{
    let tally = applications.tally(source);
    let buffer = Source {
        apid: Id::from_bytes(DAEMON),
    };
    let first = Position {
        source: *source,
        number: 1,
    };
    let next = Position {
        source: *source,
        number: next_number(&tally),
    };
    Losses {
        messages: tally.messages,
        sessions: tally.sessions,
        told: tally.lost,
        before: applications.told(&first),
        behind: applications.told(&next),
        buffer: applications.tally(&buffer).lost,
    }
}

impl Account {
    /// The account of a stream that has no message yet.
    pub fn new(alloc: Global) -> Account
        ensures { IsAfter [] result }
    {
        Account {
            totals: HashMap::new(alloc),
            contexts: HashMap::new(alloc),
            applications: Applications::new(alloc),
            sessions: Vec::new(alloc),
            holes: Vec::new(alloc),
            messages: 0,
        }
    }

    /// Notes a message of a session.
    fn note_log(&mut self, entry: &Entry) -> Result<(), OutOfMemory>
        ensures { (stream : List Told) → IsAfter stream self.old → OnOk result (IsAfter (stream ++ told.Log entry.now ∷ []) self.new) }
    {
        let turn = note_context(&mut self.contexts, entry)?;
        let step = note_session(&mut self.totals, entry, turn)?;
        push_first(&mut self.sessions, step.is_first, &entry.session)?;
        let is_behind_hole = is_missing(step.by_session, turn.missing);
        let number = self
            .applications
            .note_message(entry, is_behind_hole, step.is_first)?;
        self.messages = self.messages.saturating_add(1);
        let hole = Hole {
            place: self.messages,
            number,
            entry: *entry,
            by_session: step.by_session,
            by_context: turn.missing,
            open_session: step.unsure,
            open_context: turn.unsure,
        };
        push_hole(&mut self.holes, hole)
    }

    /// Notes the next message of the stream.
    pub fn add(&mut self, told: &Told) -> Result<(), OutOfMemory>
        ensures { (stream : List Told) → IsAfter stream self.old → OnOk result (IsAfter (stream ++ told.now ∷ []) self.new) }
    {
        match told {
            Told::Log(entry) => self.note_log(entry),
            Told::Lost(report) => {
                self.messages = self.messages.saturating_add(1);
                self.applications.note_report(report)
            }
            Told::Unstored(_) => {
                self.messages = self.messages.saturating_add(1);
                Ok(())
            }
            Told::Other => {
                self.messages = self.messages.saturating_add(1);
                Ok(())
            }
        }
    }

    /// The sessions, in the order of their first messages.
    pub fn sessions(&self) -> &[Session]
        ensures { (stream : List Told) → IsAfter stream self.now → result.now ≡ sessions (entries stream) }
    {
        &self.sessions
    }

    /// The holes, in the order of the stream.
    pub fn holes(&self) -> &[Hole]
        ensures { (stream : List Told) → IsAfter stream self.now → result.now ≡ holes stream }
    {
        &self.holes
    }

    /// What is counted of a session.
    pub fn totals(&self, session: &Session) -> Totals
        ensures { (stream : List Told) → IsAfter stream self.now → result ≡ totals_of session.now (entries stream) }
    {
        totals_so_far(&self.totals, session)
    }

    /// Adds the line of an application.
    fn push_application(&self, text: &mut Vec<u8>, source: &Source) -> Result<(), OutOfMemory>
        ensures { OnOk result (text.new.items ≡ text.old.items ++ application_by self.now source.now) }
    {
        let missing = missing_in(&self.totals, source, &self.sessions);
        let unsure = open_in(&self.totals, source, &self.sessions);
        let losses = losses_of(&self.applications, source);
        push_application_line(text, source, missing, unsure, &losses)
    }

    /// Adds the lines of applications.
    fn push_applications(&self, text: &mut Vec<u8>) -> Result<(), OutOfMemory>
        ensures { OnOk result (text.new.items ≡ text.old.items ++ flat_map (application_by self.now) self.now.applications.sources.items) }
    {
        let sources = self.applications.sources();
        for source in sources {
            self.push_application(text, source)?;
        }
        Ok(())
    }

    /// Adds the text of the account.
    pub fn print(&self, text: &mut Vec<u8>) -> Result<(), OutOfMemory>
        ensures { (stream : List Told) → IsAfter stream self.now → OnOk result (text.new.items ≡ text.old.items ++ printed stream) }
    {
        push_holes(text, &self.totals, &self.applications, &self.holes)?;
        push_sessions(text, &self.totals, &self.sessions)?;
        self.push_applications(text)
    }
}
