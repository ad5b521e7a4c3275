//! The accounts that programs give of their own calls, beside what a stream has of these, and the daemon's records of messages that were not stored.

ghost use Rattle.std.specs.Prelude.{◌≡◌, ◌+◌, ◌++◌, ◌∷◌, [], List, IfOk, OnOk, Some, None, length, unwrap_or, if◌then◌else◌};
ghost use Rattle.std.specs.HashMap as hash;
ghost use Rattle.dl_sessions.specs.Calls.{calls_in};
ghost use Rattle.dl_sessions.specs.Gaps.{context_of, counted, entries, same_context};
ghost use Rattle.dl_sessions.specs.Ledger.{HasPut, IsLedgerOf, KeepsSince, Notes, about, about_text, account_text, accounts_text, ahead_words, calls_text, filtered_text, heading_text, no_since, place_text, queued_text, record_text, unstored_text, verdict_text, with_account, with_message};
ghost use Rattle.dl_sessions.specs.declared.session.Entry.{Entry};
ghost use Rattle.dl_sessions.specs.declared.session.Told.{Told};
ghost use Rattle.dl_sessions.specs.declared.session.Told.TheVariants as told;

use crate::account::{gap, latest_of};
use crate::session::{Calls, Context, Entry, Since, Told};
use crate::text::{push_counted, push_number, push_session, push_time};
use dl_bytes::{Id, OutOfMemory};
use dl_text::push_id;
use std::alloc::Global;
use std::collections::HashMap;

/// The context of a message.
fn context_of(entry: &Entry) -> Context
    ensures { result ≡ context_of entry.now }
{
    Context {
        ecu: entry.session.ecu,
        apid: entry.session.apid,
        seid: entry.session.seid,
        ctid: entry.ctid,
    }
}

/// The context that an account is about.
fn about(entry: &Entry, calls: &Calls) -> Context
    ensures { result ≡ about entry.now calls.now }
{
    Context {
        ecu: entry.session.ecu,
        apid: entry.session.apid,
        seid: entry.session.seid,
        ctid: calls.ctid,
    }
}

/// The calls that a message tells of, where it is an account.
fn calls_in(entry: &Entry) -> Option<Calls>
    ensures { result ≡ calls_in entry.now.calls }
{
    if entry.calls.are_told {
        Some(entry.calls)
    } else {
        None
    }
}

/// What came of a context since its last account, where nothing came.
fn no_since() -> Since
    ensures { result ≡ no_since }
{
    Since {
        accounts: 0,
        messages: 0,
        missing: 0,
        last: None,
    }
}

/// The same with one message more.
fn with_message(since: &Since, entry: &Entry) -> Since
    ensures { result ≡ with_message since.now entry.now }
{
    Since {
        accounts: since.accounts,
        messages: since.messages.saturating_add(1),
        missing: since.missing.saturating_add(gap(since.last, entry) as u64),
        last: Some(latest_of(entry)),
    }
}

/// The same with one account more.
fn with_account(since: &Since) -> Since
    ensures { result ≡ with_account since.now }
{
    Since {
        accounts: since.accounts.saturating_add(1),
        messages: 0,
        missing: 0,
        last: None,
    }
}

/// What came of a context since its last account so far.
fn since_so_far(kept: &HashMap<Context, Since>, context: &Context) -> Since
    ensures { result ≡ unwrap_or (hash.get same_context kept.now context.now) no_since }
{
    match kept.get(context) {
        Some(since) => *since,
        None => no_since(),
    }
}

/// Adds how an account goes together with what came since the one before, where so many accounts are missing.
fn push_verdict(
    text: &mut Vec<u8>,
    calls: &Calls,
    since: &Since,
    lacking: u64,
) -> Result<(), OutOfMemory>
    ensures { OnOk result (text.new.items ≡ text.old.items ++ verdict_text calls.now since.now lacking) }
{
    if since.accounts == 0 {
        return text.extend_from_slice(b"; the first one here");
    }
    if lacking != 0 {
        return text.extend_from_slice(b"; one before it is missing, or it began anew");
    }
    if calls.queued < since.messages {
        push_number(text, b"; refused: ", since.messages)?;
        return text.extend_from_slice(b" here since the one before");
    }
    let passed = since.messages as u128 + since.missing as u128;
    if calls.queued as u128 + (calls.lost as u128) < passed {
        push_number(text, b"; refused: counters of ", passed)?;
        return text.extend_from_slice(b" since the one before");
    }
    push_number(text, b"; ", since.messages)?;
    push_counted(
        text,
        b" here since the one before, ",
        calls.queued - since.messages,
        b" missing behind the program",
    )
}

/// Adds how many calls a level filtered.
fn push_filtered(text: &mut Vec<u8>, calls: &Calls) -> Result<(), OutOfMemory>
    ensures { OnOk result (text.new.items ≡ text.old.items ++ filtered_text calls.now) }
{
    push_number(text, b" filtered ", calls.filtered)?;
    push_number(text, b" by level ", calls.level as u64)
}

/// Adds how many messages a program queued, and how many calls it lost.
fn push_queued(text: &mut Vec<u8>, calls: &Calls) -> Result<(), OutOfMemory>
    ensures { OnOk result (text.new.items ≡ text.old.items ++ queued_text calls.now) }
{
    push_number(text, b", queued ", calls.queued)?;
    push_number(text, b", lost ", calls.lost)
}

/// Adds what a program counted of a context's calls.
#[tactic(auto, unfolding(crate::specs::Ledger::calls_text))]
fn push_calls(text: &mut Vec<u8>, calls: &Calls) -> Result<(), OutOfMemory>
    ensures { OnOk result (text.new.items ≡ text.old.items ++ calls_text calls.now) }
{
    push_filtered(text, calls)?;
    push_queued(text, calls)
}

/// Adds the number of an account in the stream, its timestamp, and whose it is.
fn push_place(text: &mut Vec<u8>, place: u64, entry: &Entry) -> Result<(), OutOfMemory>
    ensures { OnOk result (text.new.items ≡ text.old.items ++ place_text place entry.now) }
{
    push_number(text, b"account ", place)?;
    text.extend_from_slice(b" ")?;
    push_time(text, entry.ticks as u128)?;
    push_session(text, &entry.session)
}

/// Adds the context that an account is about.
fn push_about(text: &mut Vec<u8>, ctid: &Id) -> Result<(), OutOfMemory>
    ensures { OnOk result (text.new.items ≡ text.old.items ++ about_text ctid.now) }
{
    text.extend_from_slice(b" ")?;
    push_id(text, ctid)?;
    text.extend_from_slice(b": by its own account")
}

/// Adds what stands before the counts of an account.
#[tactic(auto, unfolding(crate::specs::Ledger::heading_text))]
fn push_heading(text: &mut Vec<u8>, place: u64, entry: &Entry, ctid: &Id) -> Result<(), OutOfMemory>
    ensures { OnOk result (text.new.items ≡ text.old.items ++ heading_text place entry.now ctid.now) }
{
    push_place(text, place, entry)?;
    push_about(text, ctid)
}

/// What is said of an account: what came since the one before, and how many accounts are missing.
#[derive(Clone, Copy)]
struct Beside {
    since: Since,
    lacking: u64,
}

/// Adds the line of an account.
#[tactic(auto, unfolding(crate::specs::Ledger::account_text))]
fn push_account(
    text: &mut Vec<u8>,
    place: u64,
    entry: &Entry,
    calls: &Calls,
    beside: &Beside,
) -> Result<(), OutOfMemory>
    ensures { OnOk result (text.new.items ≡ text.old.items ++ account_text place entry.now calls.now beside.now.since beside.now.lacking) }
{
    push_heading(text, place, entry, &calls.ctid)?;
    push_calls(text, calls)?;
    push_verdict(text, calls, &beside.since, beside.lacking)?;
    text.extend_from_slice(b"\n")
}

/// Adds between which messages those stand that were not stored.
#[tactic(auto, unfolding(crate::specs::Ledger::ahead_words))]
fn push_ahead(text: &mut Vec<u8>, place: u64) -> Result<(), OutOfMemory>
    ensures { OnOk result (text.new.items ≡ text.old.items ++ ahead_words place) }
{
    if place <= 1 {
        return text.extend_from_slice(b" messages before this record");
    }
    push_counted(
        text,
        b" messages between message ",
        place - 1,
        b" and this record",
    )
}

/// Adds the number in the stream of a record of messages that were not stored, and how many these are.
#[tactic(auto, unfolding(crate::specs::Ledger::record_text))]
fn push_record(text: &mut Vec<u8>, place: u64, count: u32) -> Result<(), OutOfMemory>
    ensures { OnOk result (text.new.items ≡ text.old.items ++ record_text place count) }
{
    push_number(text, b"unstored ", place)?;
    push_number(text, b": ", count as u64)?;
    push_ahead(text, place)
}

/// Adds the line of a record of messages that were not stored.
fn push_unstored(text: &mut Vec<u8>, place: u64, count: u32) -> Result<(), OutOfMemory>
    ensures { OnOk result (text.new.items ≡ text.old.items ++ unstored_text place count) }
{
    push_record(text, place, count)?;
    text.extend_from_slice(b", of all applications: the trace had ended\n")
}

/// Notes a message of its context. Answers what came since the context's last account, with it.
fn note_message(kept: &mut HashMap<Context, Since>, entry: &Entry) -> Result<Since, OutOfMemory>
    ensures value { IfOk result (λ since. since ≡ with_message (unwrap_or (hash.get same_context kept.old (context_of entry.now)) no_since) entry.now) }
    ensures kept { IfOk result (λ since. HasPut kept.old kept.new (context_of entry.now) since) }
{
    let context = context_of(entry);
    let since = with_message(&since_so_far(kept, &context), entry);
    kept.insert(context, since)?;
    Ok(since)
}

/// Notes an account, and adds its line.
fn note_account(
    kept: &mut HashMap<Context, Since>,
    text: &mut Vec<u8>,
    place: u64,
    entry: &Entry,
    calls: &Calls,
) -> Result<(), OutOfMemory>
    ensures { (before : List Told) → calls_in entry.now.calls ≡ Some calls.now → KeepsSince kept.old (entries before) → place ≡ counted (length before + 1)
        → OnOk result (Notes before (told.Log entry.now) kept.new text.old.items text.new.items) }
{
    let context = about(entry, calls);
    let since = since_so_far(kept, &context);
    let own = note_message(kept, entry)?;
    kept.insert(context, with_account(&since))?;
    let beside = Beside {
        since,
        lacking: own.missing,
    };
    push_account(text, place, entry, calls, &beside)
}

/// Notes a message of a session, and adds its line where it is an account.
fn note_entry(
    kept: &mut HashMap<Context, Since>,
    text: &mut Vec<u8>,
    place: u64,
    entry: &Entry,
) -> Result<(), OutOfMemory>
    ensures { (before : List Told) → KeepsSince kept.old (entries before) → place ≡ counted (length before + 1)
        → OnOk result (Notes before (told.Log entry.now) kept.new text.old.items text.new.items) }
{
    match calls_in(entry) {
        Some(calls) => note_account(kept, text, place, entry, &calls),
        None => {
            note_message(kept, entry)?;
            Ok(())
        }
    }
}

/// Notes a message with this place in the stream, and adds its line where it is an account, or a record of messages that were not stored.
fn note(
    kept: &mut HashMap<Context, Since>,
    text: &mut Vec<u8>,
    place: u64,
    told: &Told,
) -> Result<(), OutOfMemory>
    ensures { (before : List Told) → KeepsSince kept.old (entries before) → place ≡ counted (length before + 1)
        → OnOk result (Notes before told.now kept.new text.old.items text.new.items) }
{
    match told {
        Told::Log(entry) => note_entry(kept, text, place, entry),
        Told::Unstored(count) => push_unstored(text, place, *count),
        Told::Lost(_) => Ok(()),
        Told::Other => Ok(()),
    }
}

/// The accounts that programs give of their own calls, with a line for each. It takes memory for each context and for each line.
#[derive(Drop)]
pub struct Ledger {
    /// What came of each context since its last account.
    kept: HashMap<Context, Since>,
    /// The lines.
    text: Vec<u8>,
    /// How many messages came.
    messages: u64,
}

impl Ledger {
    /// The accounts of a stream that has no message yet.
    pub fn new(alloc: Global) -> Ledger
        ensures { IsLedgerOf [] result }
    {
        Ledger {
            kept: HashMap::new(alloc),
            text: Vec::new(alloc),
            messages: 0,
        }
    }

    /// Notes the next message of the stream.
    pub fn add(&mut self, told: &Told) -> Result<(), OutOfMemory>
        ensures { (stream : List Told) → IsLedgerOf stream self.old → OnOk result (IsLedgerOf (stream ++ told.now ∷ []) self.new) }
    {
        self.messages = self.messages.saturating_add(1);
        note(&mut self.kept, &mut self.text, self.messages, told)?;
        Ok(())
    }

    /// Adds the lines of the accounts, in their order.
    pub fn print(&self, text: &mut Vec<u8>) -> Result<(), OutOfMemory>
        ensures { (stream : List Told) → IsLedgerOf stream self.now → OnOk result (text.new.items ≡ text.old.items ++ accounts_text stream) }
    {
        text.extend_from_slice(&self.text)
    }
}
