//! A script, line by line.

ghost use Rattle.std.specs.Prelude.{◌≡◌, ◌≤◌, length};
ghost use Rattle.std.specs.List.{list_all};
ghost use Rattle.dl_script.specs.Earlier.{nothing};
ghost use Rattle.dl_text.specs.Faults.{size_limit};
ghost use Rattle.dl_text.specs.Lines.{is_blank, lines_of};
ghost use Rattle.dl_script.specs.Line.{is_ignored, step_of, scenario_line_of};
ghost use Rattle.dl_script.specs.Script.{entries, steps_of, scenario_of, Reads, Judges};

use crate::by_word::{scenario_line, step};
use crate::claim::Known;
use crate::error::ScriptError;
use crate::scratch::Scratch;
use dl_script_fields::{LineError, ScriptKind};
use dl_script_model::{Scenario, ScenarioLine, Step, StepList};
use dl_text::{SIZE_LIMIT, is_blank, lines};
use std::alloc::Global;

/// Whether all bytes are blanks.
fn is_empty(line: &[u8]) -> bool
    ensures { result ≡ list_all is_blank line.now }
{
    line.iter().all(|b| is_blank(*b))
}

/// Whether a line says nothing: a comment, or blanks alone.
fn says_nothing(line: &[u8]) -> bool
    ensures { result ≡ is_ignored line.now }
{
    match line {
        [b'#', ..] => true,
        _ => is_empty(line),
    }
}

/// The step that a line says after the lines before it.
#[tactic(auto, unfolding(crate::specs::Script::judged))]
fn judged_step<'a>(
    alloc: Global,
    known: &mut Known,
    scratch: &mut Scratch<'a>,
    line: &'a [u8],
) -> Result<Step, LineError>
    ensures { Judges step_of line.now result known.old known.new }
{
    let said = step(alloc, scratch, line)?;
    known.admit(said.claim)?;
    match said.line {
        Some(step) => Ok(step),
        None => Err(LineError::Fault(ScriptKind::Payload)),
    }
}

/// The line of a scenario that a line says after the lines before it.
#[tactic(auto, unfolding(crate::specs::Script::judged))]
fn judged_line<'a>(
    alloc: Global,
    known: &mut Known,
    scratch: &mut Scratch<'a>,
    line: &'a [u8],
) -> Result<ScenarioLine, LineError>
    ensures { Judges scenario_line_of line.now result known.old known.new }
{
    let said = scenario_line(alloc, scratch, line)?;
    known.admit(said.claim)?;
    match said.line {
        Some(line) => Ok(line),
        None => Err(LineError::Fault(ScriptKind::Payload)),
    }
}

/// The steps of a text, or its first bad line.
#[tactic(auto, unfolding(crate::specs::Script::entries))]
fn steps(alloc: Global, text: &[u8]) -> Result<Vec<Step>, ScriptError>
    requires { length text.now ≤ size_limit }
    ensures { Reads (λ v. v.items) result (entries step_of nothing 1 (lines_of text.now)) }
{
    let mut known = Known::new(alloc);
    let mut steps = Vec::new(alloc);
    let mut scratch = Scratch::new(alloc);
    let mut number = 0;
    for line in lines(text) {
        number += 1;
        if says_nothing(line) {
            continue;
        }
        match judged_step(alloc, &mut known, &mut scratch, line) {
            Ok(step) => steps.push(step)?,
            Err(error) => return Err(ScriptError::at(number, error)),
        }
    }
    Ok(steps)
}

/// The lines of a scenario of a text, or its first bad line.
#[tactic(auto, unfolding(crate::specs::Script::entries))]
fn scenario_lines(alloc: Global, text: &[u8]) -> Result<Vec<ScenarioLine>, ScriptError>
    requires { length text.now ≤ size_limit }
    ensures { Reads (λ v. v.items) result (entries scenario_line_of nothing 1 (lines_of text.now)) }
{
    let mut known = Known::new(alloc);
    let mut scenario = Vec::new(alloc);
    let mut scratch = Scratch::new(alloc);
    let mut place = 0;
    for line in lines(text) {
        place += 1;
        if says_nothing(line) {
            continue;
        }
        match judged_line(alloc, &mut known, &mut scratch, line) {
            Ok(entry) => scenario.push(entry)?,
            Err(error) => return Err(ScriptError::at(place, error)),
        }
    }
    Ok(scenario)
}

/// The step script that a text is, or its first bad line and what is wrong with it. The text has at most 16,777,216
/// bytes. Memory is taken line by line, so out of memory may come before a line that is bad.
#[tactic(auto, unfolding(crate::specs::Script::script_of))]
pub fn read_steps(alloc: Global, text: &[u8]) -> Result<StepList, ScriptError>
    ensures { Reads (λ list. list) result (steps_of text.now) }
{
    if text.len() > SIZE_LIMIT {
        return Err(ScriptError::Fault {
            line: 0,
            kind: ScriptKind::Size,
        });
    }
    Ok(StepList::over(steps(alloc, text)?))
}

/// The scenario that a text is, or its first bad line and what is wrong with it. The text has at most 16,777,216 bytes.
/// Memory is taken line by line, so out of memory may come before a line that is bad.
#[tactic(auto, unfolding(crate::specs::Script::script_of))]
pub fn read_scenario(alloc: Global, text: &[u8]) -> Result<Scenario, ScriptError>
    ensures { Reads (λ list. list) result (scenario_of text.now) }
{
    if text.len() > SIZE_LIMIT {
        return Err(ScriptError::Fault {
            line: 0,
            kind: ScriptKind::Size,
        });
    }
    Ok(Scenario::over(scenario_lines(alloc, text)?))
}
