//! The status line.

ghost use Rattle.std.specs.Prelude.{◌≡◌, ◌++◌, IfOk, OnOk};
ghost use Rattle.dl_daemon.specs.Line.{comers, cut_off, ended, expelled, gone, outside, status_line, traffic, trace_word, went};

use crate::figures::{ChannelEnds, Figures};
use dl_bytes::{Bytes, OutOfMemory, Sequence};
use dl_events::Closes;
use itoa::{Buffer, Integer};
use std::alloc::Global;

/// Adds a label, and behind it a number in decimal digits.
fn push_number<I: Integer>(text: &mut Vec<u8>, label: &[u8], number: I) -> Result<(), OutOfMemory>
    ensures { OnOk result (text.new.items ≡ text.old.items ++ (label.now ++ I.text number)) }
{
    let mut buffer = Buffer::new();
    text.extend_from_slice(label)?;
    text.extend_from_slice(buffer.format(number).as_bytes())
}

/// Adds who came, and who is there.
#[tactic(auto, unfolding(crate::specs::Line::comers))]
fn push_comers(text: &mut Vec<u8>, figures: &Figures) -> Result<(), OutOfMemory>
    ensures { OnOk result (text.new.items ≡ text.old.items ++ comers figures.now) }
{
    push_number(text, b"clients ", figures.clients)?;
    push_number(text, b" open ", figures.open_clients)?;
    push_number(text, b" channels ", figures.channels)?;
    push_number(text, b" open ", figures.open_channels)
}

/// Adds what became of frames and links.
#[tactic(auto, unfolding(crate::specs::Line::traffic))]
fn push_traffic(text: &mut Vec<u8>, figures: &Figures) -> Result<(), OutOfMemory>
    ensures { OnOk result (text.new.items ≡ text.old.items ++ traffic figures.now) }
{
    push_number(text, b" frames ", figures.frames)?;
    push_number(text, b" waiting ", figures.waiting)?;
    push_number(text, b" refused ", figures.refused)?;
    push_number(text, b" dropped ", figures.dropped)
}

/// Adds the faults of both nets, the trace files, how often the trace was begun anew, how often one of its files was taken away, and how many frames it did
/// not store.
#[tactic(auto, unfolding(crate::specs::Line::outside))]
fn push_outside(text: &mut Vec<u8>, figures: &Figures) -> Result<(), OutOfMemory>
    ensures { OnOk result (text.new.items ≡ text.old.items ++ outside figures.now) }
{
    push_number(text, b" faults ", figures.client_faults)?;
    push_number(text, b" ", figures.program_faults)?;
    push_number(text, b" files ", figures.files)?;
    push_number(text, b" ", figures.bytes)?;
    push_number(text, b" renewed ", figures.renewed)?;
    push_number(text, b" taken ", figures.taken)?;
    push_number(text, b" unstored ", figures.unstored)
}

/// Adds how many clients went by themselves, or were closed as too slow.
#[tactic(auto, unfolding(crate::specs::Line::gone))]
fn push_gone(text: &mut Vec<u8>, closes: &Closes) -> Result<(), OutOfMemory>
    ensures { OnOk result (text.new.items ≡ text.old.items ++ gone closes.now) }
{
    push_number(text, b" left ", closes.left)?;
    push_number(text, b" broken ", closes.broken)?;
    push_number(text, b" slow ", closes.slow)
}

/// Adds how many clients were closed for what they sent.
#[tactic(auto, unfolding(crate::specs::Line::expelled))]
fn push_expelled(text: &mut Vec<u8>, closes: &Closes) -> Result<(), OutOfMemory>
    ensures { OnOk result (text.new.items ≡ text.old.items ++ expelled closes.now) }
{
    push_number(text, b" malformed ", closes.malformed)?;
    push_number(text, b" requests ", closes.too_many)?;
    push_number(text, b" memory ", closes.no_memory)
}

/// Adds how many programs went by themselves.
#[tactic(auto, unfolding(crate::specs::Line::ended))]
fn push_ended(text: &mut Vec<u8>, ends: &ChannelEnds) -> Result<(), OutOfMemory>
    ensures { OnOk result (text.new.items ≡ text.old.items ++ ended ends.now) }
{
    push_number(text, b" left ", ends.left)?;
    push_number(text, b" broken ", ends.broken)
}

/// Adds how many channels of programs were ended by the daemon.
#[tactic(auto, unfolding(crate::specs::Line::cut_off))]
fn push_cut_off(text: &mut Vec<u8>, ends: &ChannelEnds) -> Result<(), OutOfMemory>
    ensures { OnOk result (text.new.items ≡ text.old.items ++ cut_off ends.now) }
{
    push_number(text, b" bad ", ends.bad)?;
    push_number(text, b" slow ", ends.slow)?;
    push_number(text, b" memory ", ends.no_memory)
}

/// Adds how clients and programs went, and what clients left.
#[tactic(auto, unfolding(crate::specs::Line::went))]
fn push_went(text: &mut Vec<u8>, figures: &Figures) -> Result<(), OutOfMemory>
    ensures { OnOk result (text.new.items ≡ text.old.items ++ went figures.now) }
{
    text.extend_from_slice(b" closed")?;
    push_gone(text, &figures.closes)?;
    push_expelled(text, &figures.closes)?;
    push_number(text, b" untaken ", figures.untaken)?;
    text.extend_from_slice(b" programs")?;
    push_ended(text, &figures.ends)?;
    push_cut_off(text, &figures.ends)
}

/// The word for whether the trace goes on.
fn trace_word(ended: bool) -> &'static [u8]
    ensures { result.now ≡ trace_word ended }
{
    if ended { b" ended" } else { b"" }
}

/// The line of these figures, with its end.
pub fn status_line(alloc: Global, figures: &Figures) -> Result<Bytes, OutOfMemory>
    ensures { IfOk result (λ text. text ≡ status_line figures.now) }
{
    let mut text = Vec::new(alloc);
    push_comers(&mut text, figures)?;
    push_traffic(&mut text, figures)?;
    push_outside(&mut text, figures)?;
    push_went(&mut text, figures)?;
    text.extend_from_slice(trace_word(figures.ended))?;
    text.extend_from_slice(b"\n")?;
    Ok(Sequence::over(text))
}
