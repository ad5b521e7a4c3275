//! The report as a whole.

ghost use Rattle.std.specs.Prelude.{◌≡◌, ◌≤◌, ◌<◌, ◌^◌, ◌-◌, ◌++◌, ◌==◌, ℕ, List, [], Option, None, OnOk, IfOk, length, slice_get, option_map, unwrap_or};
ghost use Rattle.std.specs.List.{filter_map, flat_map, All};
ghost use Rattle.dl_events.specs.declared.event.Event.{Event};
ghost use Rattle.dl_events.specs.declared.record.Record.{Record};
ghost use Rattle.dl_model.specs.Report.{why_of, client_lines, frame_line, frame_lines, app_lines, file_line, report};
ghost use Rattle.dl_report.specs.Counts.{Each, IsCount, AreAtMost, close_in, why_in, HasStreams, link_lines};

use crate::count::{AppCounts, Closed, count_all};
use crate::frame::push_frame;
use crate::line::{push_app, push_backlog, push_client, push_dropped, push_end, push_file};
use dl_bytes::{
    AppSpec, Backlog, Bytes, Ends, FrameList, LinkEnd, OutOfMemory, Sequence, TraceFile,
};
use dl_events::{Event, RecordList, Why};
use std::alloc::Global;

/// Why a client went, where it did.
fn reason(closes: &[Closed], client: u32) -> Option<Why>
    ensures { result ≡ slice_get (filter_map (why_in client) closes.now) 0 }
{
    for closed in closes {
        if closed.client == client {
            return Some(closed.why);
        }
    }
    None
}

/// Adds the lines of a client's frames.
fn push_frames(text: &mut Vec<u8>, frames: &[Bytes]) -> Result<(), OutOfMemory>
    ensures { OnOk result (text.new.items ≡ text.old.items ++ flat_map frame_line frames.now) }
{
    for frame in frames {
        push_frame(text, frame.all())?;
    }
    Ok(())
}

/// Adds the lines of a client's frames, where they are given.
fn push_stream(
    text: &mut Vec<u8>,
    frames: Option<&FrameList>,
    link: &LinkEnd,
) -> Result<(), OutOfMemory>
    requires { HasStreams (option_map (λ f. f.now) frames) link.now }
    ensures { OnOk result (text.new.items ≡ text.old.items ++ frame_lines (option_map (λ f. f.now) frames.entry) link.now.client) }
{
    match frames {
        None => Ok(()),
        Some(frames) => push_frames(text, frames.of(link.client)),
    }
}

/// Adds a client's line and those of its frames, where it went.
fn push_link(
    text: &mut Vec<u8>,
    why: Option<Why>,
    frames: Option<&FrameList>,
    link: &LinkEnd,
) -> Result<(), OutOfMemory>
    requires { HasStreams (option_map (λ f. f.now) frames) link.now }
    ensures { OnOk result (text.new.items ≡ text.old.items ++ link_lines why (option_map (λ f. f.now) frames.entry) link.now) }
{
    let Some(why) = why else {
        return Ok(());
    };
    push_client(text, link, why)?;
    push_stream(text, frames, link)
}

/// Adds the lines of all clients.
fn push_links(
    text: &mut Vec<u8>,
    closes: &[Closed],
    frames: Option<&FrameList>,
    links: &[LinkEnd],
) -> Result<(), OutOfMemory>
    requires { All (HasStreams (option_map (λ f. f.now) frames)) links.now }
    ensures { (events : List Event) → closes.now ≡ filter_map close_in events
        → OnOk result (text.new.items ≡ text.old.items ++ flat_map (client_lines events (option_map (λ f. f.now) frames.entry)) links.now) }
{
    for link in links {
        let why = reason(closes, link.client);
        push_link(text, why, frames, link)?;
    }
    Ok(())
}

/// Adds the lines of all applications, by the table of their counts.
fn push_apps(text: &mut Vec<u8>, specs: &[AppSpec], table: &[AppCounts]) -> Result<(), OutOfMemory>
    requires size { length table.now ≡ length specs.now }
    requires bounds { Each (AreAtMost (2 ^ 72) (2 ^ 128)) table.now }
    ensures { (records : List (List Record)) (events : List Event) → Each (IsCount (flat_map (λ (rs : List Record). rs) records) events) table.now
        → OnOk result (text.new.items ≡ text.old.items ++ app_lines records events 0 specs.now) }
{
    for (number, spec) in specs.iter().enumerate() {
        push_app(text, &spec.apid, &table[number])?;
    }
    Ok(())
}

/// Adds the lines of all trace files.
fn push_files(text: &mut Vec<u8>, files: &[TraceFile]) -> Result<(), OutOfMemory>
    ensures { OnOk result (text.new.items ≡ text.old.items ++ flat_map file_line files.now) }
{
    for file in files {
        push_file(text, file)?;
    }
    Ok(())
}

/// The report of a run, by its records, its events, the applications of this process, and what stood at its end. The
/// frames of the clients are printed where they are given.
///
/// It reads the records and the events once. Of what it is given nothing is changed, also where memory runs out.
pub fn report(
    alloc: Global,
    records: &RecordList,
    events: &[Event],
    specs: &[AppSpec],
    ends: &Ends,
    backlog: Backlog,
    frames: Option<&FrameList>,
) -> Result<Bytes, OutOfMemory>
    requires streams { All (HasStreams (option_map (λ f. f.now) frames)) ends.now.links }
    ensures text { IfOk result (λ text. text ≡ report records.now events.now specs.now ends.now backlog (option_map (λ f. f.now) frames.entry)) }
{
    let tally = count_all(alloc, records, events, specs)?;
    let mut text = Vec::new(alloc);
    push_links(&mut text, &tally.closes, frames, ends.links.all())?;
    push_backlog(&mut text, backlog)?;
    push_apps(&mut text, specs, &tally.apps)?;
    push_files(&mut text, ends.trace.files.all())?;
    push_end(&mut text, ends.trace.end)?;
    push_dropped(&mut text, ends.dropped)?;
    Ok(Sequence::over(text))
}
