//! The lines of messages.

ghost use Rattle.std.specs.Prelude.{◌≡◌, ◌++◌, ◌∷◌, List, [], Some, OnOk, IfOk, if◌then◌else◌};
ghost use Rattle.dl_receive.specs.Counting.{entry_with, same_counted};
ghost use Rattle.dl_receive.specs.Receiving.{kept, Keeps};
ghost use Rattle.dl_receive.specs.Text.{gap, gap_before, gap_line, kind_line, lines_of, log_line, names, other_line, overflow_line, passed_over};

use crate::counting::{Counted, Counter, Entry};
use crate::kind::Kind;
use dl_bytes::{Id, OutOfMemory};
use dl_text::push_id;
use itoa::{Buffer, Integer};
use std::alloc::Global;
use std::collections::HashMap;

/// Turns messages into lines, and keeps the last message counter of all that are counted together. It takes memory for its lines, until
/// they are taken, and for each counter.
#[derive(Drop)]
pub struct Printer {
    /// The last message counter of those that are counted together.
    counters: HashMap<Counted, u8>,
    /// The lines that were not taken yet.
    text: Vec<u8>,
}

/// Adds a number in decimal digits.
fn push_number<I: Integer>(text: &mut Vec<u8>, number: I) -> Result<(), OutOfMemory>
    ensures { OnOk result (text.new.items ≡ text.old.items ++ I.text number) }
{
    let mut buffer = Buffer::new();
    text.extend_from_slice(buffer.format(number).as_bytes())
}

/// Adds the line of a gap, where there is one.
fn push_gap(text: &mut Vec<u8>, seid: u32, missing: u8) -> Result<(), OutOfMemory>
    ensures { OnOk result (text.new.items ≡ text.old.items ++ gap_line seid missing) }
{
    if missing == 0 {
        return Ok(());
    }
    text.extend_from_slice(b"gap ")?;
    push_number(text, seid)?;
    text.extend_from_slice(b" ")?;
    push_number(text, missing)?;
    text.extend_from_slice(b"\n")
}

/// Adds an application and a context, each behind a blank.
fn push_names(text: &mut Vec<u8>, apid: &Id, ctid: &Id) -> Result<(), OutOfMemory>
    ensures { OnOk result (text.new.items ≡ text.old.items ++ names apid.now ctid.now) }
{
    text.extend_from_slice(b" ")?;
    push_id(text, apid)?;
    text.extend_from_slice(b" ")?;
    push_id(text, ctid)
}

/// Adds the line of a log message.
fn push_log(
    text: &mut Vec<u8>,
    seid: u32,
    mcnt: u8,
    apid: &Id,
    ctid: &Id,
    len: u16,
) -> Result<(), OutOfMemory>
    ensures { OnOk result (text.new.items ≡ text.old.items ++ log_line seid mcnt apid.now ctid.now len) }
{
    text.extend_from_slice(b"log ")?;
    push_number(text, seid)?;
    text.extend_from_slice(b" ")?;
    push_number(text, mcnt)?;
    push_names(text, apid, ctid)?;
    text.extend_from_slice(b" ")?;
    push_number(text, len)?;
    text.extend_from_slice(b"\n")
}

/// Adds the line of a report of lost messages.
fn push_overflow(text: &mut Vec<u8>, apid: &Id, counter: u32) -> Result<(), OutOfMemory>
    ensures { OnOk result (text.new.items ≡ text.old.items ++ overflow_line apid.now counter) }
{
    text.extend_from_slice(b"overflow ")?;
    push_id(text, apid)?;
    text.extend_from_slice(b" ")?;
    push_number(text, counter)?;
    text.extend_from_slice(b"\n")
}

/// Adds the line of any other message.
fn push_other(text: &mut Vec<u8>, len: u16) -> Result<(), OutOfMemory>
    ensures { OnOk result (text.new.items ≡ text.old.items ++ other_line len) }
{
    text.extend_from_slice(b"other ")?;
    push_number(text, len)?;
    text.extend_from_slice(b"\n")
}

/// Adds the line of a message of this kind.
fn push_kind(text: &mut Vec<u8>, kind: Kind) -> Result<(), OutOfMemory>
    ensures { OnOk result (text.new.items ≡ text.old.items ++ kind_line kind) }
{
    match kind {
        Kind::Log {
            seid,
            mcnt,
            apid,
            ctid,
            len,
        } => push_log(text, seid, mcnt, &apid, &ctid, len),
        Kind::Overflow { apid, counter } => push_overflow(text, &apid, counter),
        Kind::Other { len } => push_other(text, len),
    }
}

/// How many counters were passed over from one message to the next that is counted with it.
fn passed_over(last: u8, mcnt: u8) -> u8
    ensures { result ≡ passed_over last mcnt }
{
    mcnt.wrapping_sub(last).wrapping_sub(1)
}

impl Printer {
    /// A printer that printed nothing.
    pub fn new(alloc: Global) -> Printer
        ensures text { result.text.items ≡ [] }
        ensures keeps { Keeps result [] }
    {
        Printer {
            counters: HashMap::new(alloc),
            text: Vec::new(alloc),
        }
    }

    /// Notes the counter of a message, and answers how many of those that are counted with it are missing before it.
    fn note(&mut self, counter: Counter) -> Result<u8, OutOfMemory>
        ensures missing { (before : List Entry) → Keeps self.old before → IfOk result (λ missing. missing ≡ gap before counter) }
        ensures noted { OnOk result ((who : Counted) → kept self.new who ≡ (if same_counted counter.counted who then Some counter.mcnt else kept self.old who)) }
        ensures text { self.new.text ≡ self.old.text }
    {
        let last = self.counters.insert(counter.counted, counter.mcnt)?;
        Ok(match last {
            Some(last) => passed_over(last, counter.mcnt),
            None => 0,
        })
    }

    /// Adds the line of the gap before a message with this counter, where there is one, and notes the counter.
    fn add_gap(&mut self, counter: Counter) -> Result<(), OutOfMemory>
        ensures keeps { (before : List Entry) → Keeps self.old before → OnOk result ((kind : Kind) → Keeps self.new (before ++ entry_with kind (Some counter) ∷ [])) }
        ensures text { (before : List Entry) → Keeps self.old before
            → OnOk result (self.new.text.items ≡ self.old.text.items ++ gap_line counter.counted.seid (gap before counter)) }
    {
        let counted = counter.counted;
        let missing = self.note(counter)?;
        push_gap(&mut self.text, counted.seid, missing)
    }

    /// The same before any message: one without a counter has no gap.
    fn add_before(&mut self, counter: Option<Counter>) -> Result<(), OutOfMemory>
        ensures keeps { (before : List Entry) → Keeps self.old before → OnOk result ((kind : Kind) → Keeps self.new (before ++ entry_with kind counter ∷ [])) }
        ensures text { (before : List Entry) → Keeps self.old before → OnOk result (self.new.text.items ≡ self.old.text.items ++ gap_before before counter) }
    {
        match counter {
            Some(counter) => self.add_gap(counter),
            None => Ok(()),
        }
    }

    /// Adds the lines of a message.
    pub fn print(&mut self, entry: Entry) -> Result<(), OutOfMemory>
        ensures keeps { (before : List Entry) → Keeps self.old before → OnOk result (Keeps self.new (before ++ entry ∷ [])) }
        ensures text { (before : List Entry) → Keeps self.old before → OnOk result (self.new.text.items ≡ self.old.text.items ++ lines_of before entry) }
    {
        self.add_before(entry.counter)?;
        push_kind(&mut self.text, entry.kind)
    }

    /// The lines that were not taken yet.
    pub fn text(&self) -> &[u8]
        ensures { result.now ≡ self.now.text.items }
    {
        &self.text
    }

    /// Lets the lines go that were taken.
    pub fn clear(&mut self)
        ensures text { self.new.text.items ≡ [] }
        ensures counters { self.new.counters ≡ self.old.counters }
    {
        self.text.clear();
    }
}
