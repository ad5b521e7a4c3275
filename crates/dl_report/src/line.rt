//! The lines of the report.

ghost use Rattle.std.specs.Prelude.{◌≡◌, ◌<◌, ◌^◌, ◌++◌, ◌∷◌, [], OnOk, if◌then◌else◌, codes, slice_index, map};
ghost use Rattle.std.specs.List.{flat_map};
ghost use Rattle.hex.specs.Hex.{upper_digits};
ghost use Rattle.dl_model.specs.Report.{why_word, client_line, hex_byte, frame_line, backlog_line, file_line, end_line, dropped_line};
ghost use Rattle.dl_report.specs.Counts.{AreAtMost};
ghost use Rattle.dl_report.specs.Line.{counted_line, stream_end};

use crate::count::AppCounts;
use dl_bytes::{Backlog, Id, LinkEnd, OutOfMemory, TraceEnd, TraceFile};
use dl_events::Why;
use dl_text::push_id;
use itoa::{Buffer, Integer};

/// Adds a label, and behind it a number in decimal digits.
fn push_number<I: Integer>(text: &mut Vec<u8>, label: &[u8], number: I) -> Result<(), OutOfMemory>
    ensures { OnOk result (text.new.items ≡ text.old.items ++ (label.now ++ I.text number)) }
{
    let mut buffer = Buffer::new();
    text.extend_from_slice(label)?;
    text.extend_from_slice(buffer.format(number).as_bytes())
}

/// The word for why a client went.
fn why_word(why: Why) -> &'static [u8]
    ensures { result.now ≡ why_word why }
{
    match why {
        Why::Left => b"left",
        Why::Broken => b"broken",
        Why::Slow { .. } => b"slow",
        Why::Malformed => b"malformed",
        Why::TooMany => b"toomany",
        Why::NoMemory => b"nomemory",
        Why::Stuck { .. } => b"stuck",
        Why::Stopped => b"stopped",
    }
}

/// The word for whether a client's link took all of its stream.
fn state_word(complete: bool) -> &'static [u8]
    ensures { result.now ≡ (if complete then codes "complete" else codes "cut") }
{
    if complete { b"complete" } else { b"cut" }
}

/// Adds the end of a client's line.
fn push_stream(text: &mut Vec<u8>, link: &LinkEnd) -> Result<(), OutOfMemory>
    ensures { OnOk result (text.new.items ≡ text.old.items ++ stream_end link.now) }
{
    push_number(text, b" ", link.frames)?;
    push_number(text, b" ", link.bytes)?;
    text.extend_from_slice(b" ")?;
    text.extend_from_slice(state_word(link.complete))?;
    text.extend_from_slice(b"\n")
}

/// Adds a client's line.
pub fn push_client(text: &mut Vec<u8>, link: &LinkEnd, why: Why) -> Result<(), OutOfMemory>
    ensures { OnOk result (text.new.items ≡ text.old.items ++ client_line link.now why) }
{
    push_number(text, b"client ", link.client)?;
    text.extend_from_slice(b" ")?;
    text.extend_from_slice(why_word(why))?;
    push_stream(text, link)
}

/// Adds the backlog's line, where frames wait or were refused.
pub fn push_backlog(text: &mut Vec<u8>, backlog: Backlog) -> Result<(), OutOfMemory>
    ensures { OnOk result (text.new.items ≡ text.old.items ++ backlog_line backlog) }
{
    if backlog.frames == 0 && backlog.refused == 0 {
        return Ok(());
    }
    push_number(text, b"backlog ", backlog.frames)?;
    push_number(text, b" ", backlog.bytes)?;
    push_number(text, b" ", backlog.refused)?;
    text.extend_from_slice(b"\n")
}

/// Adds an application's line.
pub fn push_app(text: &mut Vec<u8>, apid: &Id, counts: &AppCounts) -> Result<(), OutOfMemory>
    requires { AreAtMost (2 ^ 72) (2 ^ 128) 0 counts.now }
    ensures { OnOk result (text.new.items ≡ text.old.items ++ counted_line apid.now counts.now) }
{
    text.extend_from_slice(b"app ")?;
    push_id(text, apid)?;
    let calls = counts.queued + counts.filtered + counts.lost;
    push_number(text, b" calls ", calls)?;
    push_number(text, b" queued ", counts.queued)?;
    push_number(text, b" filtered ", counts.filtered)?;
    push_number(text, b" lost ", counts.lost)?;
    push_number(text, b" reported ", counts.reported)?;
    text.extend_from_slice(b"\n")
}

/// Adds a trace file's line.
pub fn push_file(text: &mut Vec<u8>, file: &TraceFile) -> Result<(), OutOfMemory>
    ensures { OnOk result (text.new.items ≡ text.old.items ++ file_line file.now) }
{
    text.extend_from_slice(b"file ")?;
    text.extend_from_slice(file.name.all())?;
    push_number(text, b" ", file.bytes)?;
    text.extend_from_slice(b"\n")
}

/// Adds why the trace ended, where it did.
pub fn push_end(text: &mut Vec<u8>, end: Option<TraceEnd>) -> Result<(), OutOfMemory>
    ensures { OnOk result (text.new.items ≡ text.old.items ++ end_line end) }
{
    match end {
        None => Ok(()),
        Some(TraceEnd::Failed) => text.extend_from_slice(b"trace ended failed\n"),
        Some(TraceEnd::Spent) => text.extend_from_slice(b"trace ended spent\n"),
        Some(TraceEnd::NoMemory) => text.extend_from_slice(b"trace ended memory\n"),
    }
}

/// Adds how many links were dropped, where some were.
pub fn push_dropped(text: &mut Vec<u8>, dropped: u32) -> Result<(), OutOfMemory>
    ensures { OnOk result (text.new.items ≡ text.old.items ++ dropped_line dropped) }
{
    if dropped == 0 {
        return Ok(());
    }
    push_number(text, b"dropped ", dropped)?;
    text.extend_from_slice(b"\n")
}
