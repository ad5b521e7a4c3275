//! The rows of a script's log calls.

ghost use Rattle.std.specs.Prelude.{◌≡◌, ◌+◌, ◌++◌, ◌∷◌, [], ℕ, List, IfOk, OnOk, count_by, unwrap_or};
ghost use Rattle.std.specs.HashMap as hash;
ghost use Rattle.std.specs.Option.{option_map_or};
ghost use Rattle.dl_text.specs.IdText.{id_text};
ghost use Rattle.dl_script_fields.specs.Spells.{severity_word};
ghost use Rattle.dl_model.specs.Accounts.{AreNumbered};
ghost use Rattle.dl_model.specs.WholeAccounts.{records_by};
ghost use Rattle.dl_laws.specs.Fates.{InRing};
ghost use Rattle.dl_fates.specs.Found.{or_later, said, same_call};
ghost use Rattle.dl_fates.specs.Rows.{capacity_in, fate_words, heard_words, is_by, lead_words, level_word, level_words, line_words, lost_words, name_words, place_words, ring_words, shown_words, told_words};
ghost use Rattle.dl_fates.specs.Written.{KeepsCounts, fate_in, heard_by, more_by, row_by, rows_found, same_writer};
ghost use Rattle.dl_fates.specs.declared.call.CallAt.{CallAt};

use crate::claims::push_claim;
use crate::fate::{CallName, Fate};
use crate::fates::Fates;
use crate::storage::push_storage;
use crate::{CallAt, ClaimAt, StoredCalls};
use dl_bytes::{AppSpec, Id, Level, OutOfMemory, Severity};
use dl_events::{Answer, Record, RecordList};
use dl_report::record_of;
use dl_text::push_id;
use itoa::{Buffer, Integer};
use std::alloc::Global;
use std::collections::HashMap;

/// A writer by its number.
#[derive(Clone, Copy, PartialEq, Eq, Hash)]
pub struct WriterName {
    /// The number, 1 to 32.
    pub number: u8,
}

/// Adds a label, and behind it a number in decimal digits.
fn push_number<I: Integer>(text: &mut Vec<u8>, label: &[u8], number: I) -> Result<(), OutOfMemory>
    ensures { OnOk result (text.new.items ≡ text.old.items ++ (label.now ++ I.text number)) }
{
    let mut buffer = Buffer::new();
    text.extend_from_slice(label)?;
    text.extend_from_slice(buffer.format(number).as_bytes())
}

/// Adds a label, and behind it a word.
fn push_word(text: &mut Vec<u8>, label: &[u8], word: &[u8]) -> Result<(), OutOfMemory>
    ensures { OnOk result (text.new.items ≡ text.old.items ++ (label.now ++ word.now)) }
{
    text.extend_from_slice(label)?;
    text.extend_from_slice(word)
}

/// Adds a label, and behind it an id.
fn push_named(text: &mut Vec<u8>, label: &[u8], id: &Id) -> Result<(), OutOfMemory>
    ensures { OnOk result (text.new.items ≡ text.old.items ++ (label.now ++ id_text id.now)) }
{
    text.extend_from_slice(label)?;
    push_id(text, id)
}

/// A severity as a word.
fn severity_word(severity: Severity) -> &'static [u8]
    ensures { result.now ≡ severity_word severity }
{
    match severity {
        Severity::Fatal => b"fatal",
        Severity::Error => b"error",
        Severity::Warn => b"warn",
        Severity::Info => b"info",
        Severity::Debug => b"debug",
        Severity::Verbose => b"verbose",
    }
}

/// A level as a word.
#[tactic(auto, unfolding(crate::specs::Rows::level_word))]
fn level_word(level: Level) -> &'static [u8]
    ensures { result.now ≡ level_word level }
{
    match level.number() {
        0 => b"off",
        1 => b"fatal",
        2 => b"error",
        3 => b"warn",
        4 => b"info",
        5 => b"debug",
        _ => b"verbose",
    }
}

/// How many calls and claims the ring of an application holds.
#[tactic(auto, unfolding(crate::specs::Rows::capacity_in))]
fn capacity_in(specs: &[AppSpec], app: u8) -> u16
    ensures { result ≡ capacity_in specs.now app }
{
    match specs.get(app as usize) {
        Some(spec) => spec.capacity,
        None => 0,
    }
}

/// What was found of a call, for a client.
pub fn fate_in(fates: &Fates, call: &Record) -> Fate
    ensures { said result ≡ fate_in fates.now call.now }
{
    let name = CallName {
        writer: call.item.writer,
        call: call.item.call,
    };
    match call.answer {
        Answer::Filtered => Fate::Filtered,
        Answer::Lost => Fate::RingFull,
        Answer::Queued => found(fates, &name),
    }
}

/// What was found of a call that its ring took.
fn found(fates: &Fates, name: &CallName) -> Fate
    ensures { said result ≡ or_later (hash.get same_call fates.now.calls name.now) InRing }
{
    match fates.calls.get(name) {
        Some(fate) => *fate,
        None => Fate::InRing,
    }
}

/// Adds where a client has a call, if it has it.
fn push_heard(text: &mut Vec<u8>, client: u32, fate: Fate) -> Result<(), OutOfMemory>
    ensures { OnOk result (text.new.items ≡ text.old.items ++ heard_words client (said fate)) }
{
    let Fate::InStream { place } = fate else {
        return Ok(());
    };
    push_number(text, b"; client ", client)?;
    push_number(text, b" has it as frame ", place as u128 + 1)
}

/// Adds where clients have a call.
fn push_all_heard(text: &mut Vec<u8>, clients: &[Fates], call: &Record) -> Result<(), OutOfMemory>
    ensures { OnOk result (text.new.items ≡ text.old.items ++ heard_by clients.now call.now) }
{
    for fates in clients {
        push_heard(text, fates.client, fate_in(fates, call))?;
    }
    Ok(())
}

/// What became of a call, in words: its fate for a client that never comes.
#[tactic(auto, unfolding(crate::specs::Rows::lead_words))]
fn lead_words(fate: Fate) -> &'static [u8]
    ensures { result.now ≡ lead_words (said fate) }
{
    match fate {
        Fate::Filtered => b"filtered: the level was ",
        Fate::RingFull => b"lost: the ring of ",
        Fate::InRing => b"waits in the ring of ",
        Fate::InBacklog { .. } => b"waits for the next client as frame ",
        Fate::BufferFull { next: None } => {
            b"refused: the buffer was full, and nobody came to be told"
        }
        Fate::BufferFull { next: Some(_) } => b"refused: the buffer was full, and client ",
        Fate::InStream { .. } | Fate::ForOthers => b"sent",
    }
}

/// Adds a number in decimal digits.
fn push_decimal<I: Integer>(text: &mut Vec<u8>, number: I) -> Result<(), OutOfMemory>
    ensures { OnOk result (text.new.items ≡ text.old.items ++ I.text number) }
{
    let mut buffer = Buffer::new();
    text.extend_from_slice(buffer.format(number).as_bytes())
}

/// Adds the level that filtered a call, and its version.
fn push_level(text: &mut Vec<u8>, call: &Record) -> Result<(), OutOfMemory>
    ensures { OnOk result (text.new.items ≡ text.old.items ++ level_words call.now) }
{
    text.extend_from_slice(level_word(call.held))?;
    push_number(text, b", version ", call.version)
}

/// Adds the ring that was full.
fn push_ring(text: &mut Vec<u8>, specs: &[AppSpec], call: &Record) -> Result<(), OutOfMemory>
    ensures { OnOk result (text.new.items ≡ text.old.items ++ ring_words specs.now call.now) }
{
    push_id(text, &call.item.apid)?;
    push_number(text, b" held ", capacity_in(specs, call.item.app))?;
    push_number(text, b" of ", capacity_in(specs, call.item.app))
}

/// Adds the line in which the daemon was told of a lost call.
fn push_line(text: &mut Vec<u8>, line: Option<u64>) -> Result<(), OutOfMemory>
    ensures { OnOk result (text.new.items ≡ text.old.items ++ line_words line) }
{
    match line {
        Some(line) => push_number(text, b"; told in line ", line),
        None => text.extend_from_slice(b"; told at the end"),
    }
}

/// Adds the ring that was full, and the line in which the daemon was told.
fn push_lost(
    text: &mut Vec<u8>,
    specs: &[AppSpec],
    told: Option<u64>,
    call: &Record,
) -> Result<(), OutOfMemory>
    ensures { OnOk result (text.new.items ≡ text.old.items ++ lost_words specs.now told call.now) }
{
    push_ring(text, specs, call)?;
    push_line(text, told)
}

/// Adds the client that was told, if one was.
fn push_told(text: &mut Vec<u8>, next: Option<u32>) -> Result<(), OutOfMemory>
    ensures { OnOk result (text.new.items ≡ text.old.items ++ told_words next) }
{
    match next {
        None => Ok(()),
        Some(client) => {
            push_decimal(text, client)?;
            text.extend_from_slice(b" was told")
        }
    }
}

/// Adds the numbers that show what became of a call, and where the clients have it that do.
fn push_shown(
    text: &mut Vec<u8>,
    specs: &[AppSpec],
    clients: &[Fates],
    told: Option<u64>,
    call: &Record,
    fate: Fate,
) -> Result<(), OutOfMemory>
    ensures { OnOk result (text.new.items ≡ text.old.items ++ shown_words specs.now told call.now (said fate) (heard_by clients.now call.now)) }
{
    match fate {
        Fate::Filtered => push_level(text, call),
        Fate::RingFull => push_lost(text, specs, told, call),
        Fate::InRing => push_id(text, &call.item.apid),
        Fate::InBacklog { place } => push_decimal(text, place as u128 + 1),
        Fate::BufferFull { next } => push_told(text, next),
        Fate::InStream { .. } | Fate::ForOthers => push_all_heard(text, clients, call),
    }
}

/// Adds the line of a call, its writer and its number.
fn push_place(text: &mut Vec<u8>, line: u64, call: &Record) -> Result<(), OutOfMemory>
    ensures { OnOk result (text.new.items ≡ text.old.items ++ place_words line call.now) }
{
    push_number(text, b"line ", line)?;
    push_number(text, b": writer ", call.item.writer)?;
    push_number(text, b" call ", call.item.call)
}

/// Adds the application of a call, its context and its severity.
fn push_names(text: &mut Vec<u8>, call: &Record) -> Result<(), OutOfMemory>
    ensures { OnOk result (text.new.items ≡ text.old.items ++ name_words call.now) }
{
    push_named(text, b" ", &call.item.apid)?;
    push_named(text, b" ", &call.item.ctid)?;
    push_word(text, b" ", severity_word(call.item.severity))?;
    text.extend_from_slice(b": ")
}

/// What rows are made of: the applications, what became of each call for a client that never comes and for those that came, the claims and
/// those that the daemon took, and where the frames of calls are stored.
#[derive(Drop)]
pub struct Findings<'s> {
    /// The applications.
    pub specs: &'s [AppSpec],
    /// For a client that never comes.
    pub nobody: Fates,
    /// For each client that came.
    pub clients: Vec<Fates>,
    /// The lines that claim places.
    pub claims: &'s [ClaimAt],
    /// The slots of the claims that the daemon took.
    pub taken: Vec<u16>,
    /// The directory of the trace files.
    pub directory: &'s [u8],
    /// Where the frames of calls are stored, where a trace is kept.
    pub stored: Option<StoredCalls>,
}

/// Adds what became of a call.
fn push_fate(
    text: &mut Vec<u8>,
    findings: &Findings<'_>,
    told: Option<u64>,
    call: &Record,
) -> Result<(), OutOfMemory>
    ensures { OnOk result (text.new.items ≡ text.old.items ++ fate_words findings.now.specs.now told call.now (fate_in findings.now.nobody call.now) (heard_by findings.now.clients.items call.now)) }
{
    let fate = fate_in(&findings.nobody, call);
    text.extend_from_slice(lead_words(fate))?;
    push_shown(text, findings.specs, &findings.clients, told, call, fate)
}

/// Adds what is said besides of a call: of the claim that it names, and where its frame is stored.
fn push_more(
    text: &mut Vec<u8>,
    findings: &Findings<'_>,
    at: &CallAt,
    call: &Record,
) -> Result<(), OutOfMemory>
    ensures { OnOk result (text.new.items ≡ text.old.items
        ++ more_by findings.now.claims.now findings.now.taken.items findings.now.directory.now findings.now.stored at.now call.now) }
{
    push_claim(text, findings.claims, &findings.taken, at, call)?;
    push_storage(text, findings.directory, &findings.stored, call)
}

/// Adds the row of a call, where it has a record.
fn push_row(
    text: &mut Vec<u8>,
    findings: &Findings<'_>,
    at: &CallAt,
    call: Option<&Record>,
) -> Result<(), OutOfMemory>
    ensures { OnOk result (text.new.items ≡ text.old.items ++ option_map_or (λ r. row_by findings.now.specs.now findings.now.nobody findings.now.clients.items
        (more_by findings.now.claims.now findings.now.taken.items findings.now.directory.now findings.now.stored) at.now r.now) call.entry []) }
{
    let Some(call) = call else {
        return Ok(());
    };
    push_place(text, at.line, call)?;
    push_names(text, call)?;
    push_fate(text, findings, at.told, call)?;
    push_more(text, findings, at, call)?;
    text.extend_from_slice(b"\n")
}

/// How many calls a writer has so far.
fn count_so_far(counts: &HashMap<WriterName, u64>, writer: &WriterName) -> u64
    ensures { result ≡ unwrap_or (hash.get same_writer counts.now writer.now) 0 }
{
    match counts.get(writer) {
        Some(count) => *count,
        None => 0,
    }
}

/// Counts a call of a writer, and gives its number among the writer's calls.
pub fn count_call(counts: &mut HashMap<WriterName, u64>, at: &CallAt) -> Result<u64, OutOfMemory>
    ensures { (before : List CallAt) → KeepsCounts counts.old before
        → IfOk result (λ number. (number ≡ 1 + count_by (is_by at.now.writer) before) × KeepsCounts counts.new (before ++ at.now ∷ [])) }
{
    let writer = WriterName { number: at.writer };
    let Some(number) = count_so_far(counts, &writer).checked_add(1) else {
        return Err(OutOfMemory);
    };
    counts.insert(writer, number)?;
    Ok(number)
}

/// Adds the rows of the calls of a script, by the records of the run and what was found of each.
pub fn push_rows(
    alloc: Global,
    text: &mut Vec<u8>,
    records: &RecordList,
    findings: &Findings<'_>,
    calls: &[CallAt],
) -> Result<(), OutOfMemory>
    requires { (number : ℕ) → AreNumbered (records_by number records.now) }
    ensures { OnOk result (text.new.items ≡ text.old.items ++ rows_found records.now findings.now calls.now) }
{
    let mut counts = HashMap::new(alloc);
    for at in calls {
        let number = count_call(&mut counts, at)?;
        push_row(text, findings, at, record_of(records, at.writer, number))?;
    }
    Ok(())
}
