//! What is said of the claim that a log call names.

ghost use Rattle.std.specs.Prelude.{◌≡◌, ◌++◌, ◌∷◌, [], IfOk, OnOk, Some, true, if◌then◌else◌};
ghost use Rattle.dl_fates.specs.Claims.{claim_line, claim_words, claimed_words, is_named, is_taken, is_unset, never_words, slot_claimed, slots_claimed};

use crate::{CallAt, ClaimAt};
use dl_bytes::OutOfMemory;
use dl_events::{Answer, Event, Record};
use itoa::Buffer;
use std::alloc::Global;

/// The slot that an event claims: 64 times the application's number and the place.
fn slot_claimed(event: &Event) -> Option<u16>
    ensures { result ≡ slot_claimed event.now }
{
    match event {
        Event::Claim { claim, .. } => Some(64 * claim.app() as u16 + claim.place() as u16),
        Event::Log { .. }
        | Event::Lost { .. }
        | Event::User { .. }
        | Event::Level { .. }
        | Event::Connect { .. }
        | Event::Request { .. }
        | Event::Close { .. } => None,
    }
}

/// Adds a slot, where there is one.
fn push_slot(slots: &mut Vec<u16>, event: &Event) -> Result<(), OutOfMemory>
    ensures { OnOk result (slots.new.items ≡ slots.old.items ++ slots_claimed (event.now ∷ [])) }
{
    if let Some(slot) = slot_claimed(event) {
        slots.push(slot)?;
    }
    Ok(())
}

/// The slots of the claims that the daemon took.
pub fn slots_claimed(alloc: Global, events: &[Event]) -> Result<Vec<u16>, OutOfMemory>
    ensures { IfOk result (λ slots. slots.items ≡ slots_claimed events.now) }
{
    let mut slots = Vec::new(alloc);
    for event in events {
        push_slot(&mut slots, event)?;
    }
    Ok(slots)
}

/// Whether a claim is of the call's writer and of its id, in a line before it.
fn is_named(claim: &ClaimAt, at: &CallAt, call: &Record) -> bool
    ensures { result ≡ is_named at.now call.now claim.now }
{
    claim.writer == at.writer && claim.ctid == call.item.ctid && claim.line < at.line
}

/// The line of the claim that a call names, with one claim more behind those of which it is known.
fn line_behind(line: Option<u64>, claim: &ClaimAt, at: &CallAt, call: &Record) -> Option<u64>
    ensures { result ≡ (if is_named at.now call.now claim.now then Some claim.now.line else line) }
{
    if is_named(claim, at, call) {
        Some(claim.line)
    } else {
        line
    }
}

/// The line of the claim that a call names.
fn claim_line(claims: &[ClaimAt], at: &CallAt, call: &Record) -> Option<u64>
    ensures { result ≡ claim_line claims.now at.now call.now }
{
    let mut line = None;
    for claim in claims {
        line = line_behind(line, claim, at, call);
    }
    line
}

/// Whether the daemon took the claim of a call's slot.
fn is_taken(taken: &[u16], call: &Record) -> bool
    ensures { result ≡ is_taken taken.now call.now }
{
    taken.iter().any(|slot| *slot == call.slot)
}

/// Whether a call was filtered while its slot had not been given a level yet.
fn is_unset(call: &Record) -> bool
    ensures { result ≡ is_unset call.now }
{
    match call.answer {
        Answer::Filtered => call.version == 0,
        Answer::Queued | Answer::Lost => false,
    }
}

/// What is said of a claim that the daemon never took.
#[tactic(auto, unfolding(crate::specs::Claims::never_words))]
fn never_words() -> &'static [u8]
    ensures { result.now ≡ never_words }
{
    b", never taken"
}

/// Adds the line of a claim.
fn push_line(text: &mut Vec<u8>, line: u64) -> Result<(), OutOfMemory>
    ensures { OnOk result (text.new.items ≡ text.old.items ++ claimed_words line true) }
{
    let mut buffer = Buffer::new();
    text.extend_from_slice(b"; claimed in line ")?;
    text.extend_from_slice(buffer.format(line).as_bytes())
}

/// Adds the line of a claim, and whether the daemon took it.
fn push_claimed(text: &mut Vec<u8>, line: u64, is_taken: bool) -> Result<(), OutOfMemory>
    ensures { OnOk result (text.new.items ≡ text.old.items ++ claimed_words line is_taken) }
{
    push_line(text, line)?;
    if is_taken {
        return Ok(());
    }
    text.extend_from_slice(never_words())
}

/// Adds what is said of the claim that a call names, where it was filtered before its slot was given a level.
pub fn push_claim(
    text: &mut Vec<u8>,
    claims: &[ClaimAt],
    taken: &[u16],
    at: &CallAt,
    call: &Record,
) -> Result<(), OutOfMemory>
    ensures { OnOk result (text.new.items ≡ text.old.items ++ claim_words claims.now taken.now at.now call.now) }
{
    if !is_unset(call) {
        return Ok(());
    }
    match claim_line(claims, at, call) {
        Some(line) => push_claimed(text, line, is_taken(taken, call)),
        None => Ok(()),
    }
}
