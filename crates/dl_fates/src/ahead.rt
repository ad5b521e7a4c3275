//! Where lost calls are told, from a line of a script on: kept line by line, from the last one back.

ghost use Rattle.std.specs.Prelude.{◌≡◌, ◌∷◌, ◌==◌, ◌||◌, [], ℕ, List, OnOk, false, if◌then◌else◌};
ghost use Rattle.std.specs.HashMap as hash;
ghost use Rattle.std.specs.Option.{option_map_or, option_and_then};
ghost use Rattle.std.specs.Str.{bytes_eq};
ghost use Rattle.dl_fates.specs.Lines.{StepAt};
ghost use Rattle.dl_fates.specs.Told.{counts, finishes, pushes};
ghost use Rattle.dl_fates.specs.Ahead.{Foretells, KeepsLoaded, KeepsLosses, KeepsRefused, line_at};
ghost use Rattle.dl_fates.specs.declared.ahead.WriterName.{WriterName};

use crate::owners::owner_of;
use dl_bytes::{Id, OutOfMemory};
use dl_script_model::Step;
use std::alloc::Global;
use std::collections::HashMap;

/// A writer by its number.
#[derive(Clone, Copy, PartialEq, Eq, Hash)]
pub struct WriterName {
    /// The number, 1 to 32.
    pub number: u8,
}

/// Where lost calls are told that were counted, refused or loaded before a line.
#[derive(Drop)]
pub struct Ahead {
    /// Of each application: its next `losses` line.
    pub losses: HashMap<Id, u64>,
    /// Of each writer: where its call is told that its ring refused.
    pub refused: HashMap<WriterName, Option<u64>>,
    /// Of each writer: where its call is told that was loaded.
    pub loaded: HashMap<WriterName, Option<u64>>,
}

/// The writer whose open call a step finishes: by its next call, or by a line that claims or announces for it.
fn finished_by(step: &Step) -> Option<u8>
    ensures { (writer : ℕ) → finishes writer step.now ≡ option_map_or (λ other. other == writer) result false }
{
    match step {
        Step::Load(call) | Step::Call(call) | Step::Log(call) => Some(call.writer),
        Step::Claim(asked) | Step::Register(asked) => Some(asked.writer),
        Step::Announce { writer } => Some(*writer),
        _ => None,
    }
}

/// The writer whose refused call a step counts: by a `count`, or as it finishes the call.
fn counted_by(step: &Step) -> Option<u8>
    ensures { (writer : ℕ) → (finishes writer step.now || counts writer step.now) ≡ option_map_or (λ other. other == writer) result false }
{
    match step {
        Step::Count { writer } => Some(*writer),
        _ => finished_by(step),
    }
}

/// Where a call of an application is told that is counted.
pub fn told_counted(losses: &HashMap<Id, u64>, owner: Option<Id>) -> Option<u64>
    ensures { result ≡ option_and_then (λ apid. hash.get bytes_eq losses.now apid) owner }
{
    let apid = owner?;
    losses.get(&apid).copied()
}

/// What is kept of a writer.
pub fn line_at(lines: &HashMap<WriterName, Option<u64>>, writer: u8) -> Option<u64>
    ensures { result ≡ line_at lines.now (record { number = writer }) }
{
    match lines.get(&WriterName { number: writer }) {
        Some(line) => *line,
        None => None,
    }
}

/// Keeps a line of a writer.
fn keep(
    lines: &mut HashMap<WriterName, Option<u64>>,
    writer: u8,
    line: Option<u64>,
) -> Result<(), OutOfMemory>
    ensures { OnOk result ((other : WriterName) → line_at lines.new other ≡ (if writer == other.number then line else line_at lines.old other)) }
{
    lines.insert(WriterName { number: writer }, line)?;
    Ok(())
}

/// Notes a line that takes the losses of an application.
fn note_losses(losses: &mut HashMap<Id, u64>, line: u64, step: &Step) -> Result<(), OutOfMemory>
    ensures { (steps : List StepAt) → KeepsLosses losses.old steps → OnOk result (KeepsLosses losses.new (record { line = line; step = step.now } ∷ steps)) }
{
    if let Step::Losses { apid } = step {
        losses.insert(*apid, line)?;
    }
    Ok(())
}

/// Notes a line that counts the refused call of a writer.
fn note_refused(
    refused: &mut HashMap<WriterName, Option<u64>>,
    losses: &HashMap<Id, u64>,
    owners: &[Id],
    step: &Step,
) -> Result<(), OutOfMemory>
    ensures { (line : ℕ) (steps : List StepAt) → KeepsLosses losses.now steps → KeepsRefused owners.now refused.old steps
        → OnOk result (KeepsRefused owners.now refused.new (record { line = line; step = step.now } ∷ steps)) }
{
    match counted_by(step) {
        Some(writer) => keep(
            refused,
            writer,
            told_counted(losses, owner_of(owners, writer)),
        ),
        None => Ok(()),
    }
}

/// Notes a line that pushes the loaded call of a writer.
fn note_pushed(
    loaded: &mut HashMap<WriterName, Option<u64>>,
    refused: &HashMap<WriterName, Option<u64>>,
    step: &Step,
) -> Result<(), OutOfMemory>
    ensures { OnOk result ((other : WriterName) → line_at loaded.new other ≡ (if pushes other.number step.now then line_at refused.now other else line_at loaded.old other)) }
{
    match step {
        Step::Push { writer } => keep(loaded, *writer, line_at(refused, *writer)),
        _ => Ok(()),
    }
}

/// Notes a line that pushes the loaded call of a writer, or finishes it.
fn note_loaded(
    loaded: &mut HashMap<WriterName, Option<u64>>,
    refused: &HashMap<WriterName, Option<u64>>,
    losses: &HashMap<Id, u64>,
    owners: &[Id],
    step: &Step,
) -> Result<(), OutOfMemory>
    ensures { (line : ℕ) (steps : List StepAt) → KeepsLosses losses.now steps → KeepsRefused owners.now refused.now steps → KeepsLoaded owners.now loaded.old steps
        → OnOk result (KeepsLoaded owners.now loaded.new (record { line = line; step = step.now } ∷ steps)) }
{
    match finished_by(step) {
        Some(writer) => keep(
            loaded,
            writer,
            told_counted(losses, owner_of(owners, writer)),
        ),
        None => note_pushed(loaded, refused, step),
    }
}

impl Ahead {
    /// Behind the last line.
    pub fn new(alloc: Global) -> Ahead
        ensures { (owners : List (List ℕ)) → Foretells owners [] result }
    {
        Ahead {
            losses: HashMap::new(alloc),
            refused: HashMap::new(alloc),
            loaded: HashMap::new(alloc),
        }
    }

    /// Notes the line before, where the writers belong to these applications.
    pub fn note(&mut self, owners: &[Id], line: u64, step: &Step) -> Result<(), OutOfMemory>
        ensures { (steps : List StepAt) → Foretells owners.now steps self.old
            → OnOk result (Foretells owners.now (record { line = line; step = step.now } ∷ steps) self.new) }
    {
        note_loaded(&mut self.loaded, &self.refused, &self.losses, owners, step)?;
        note_refused(&mut self.refused, &self.losses, owners, step)?;
        note_losses(&mut self.losses, line, step)
    }
}
