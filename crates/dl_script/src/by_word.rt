//! What a line of a step script or of a scenario says: its word chooses what its fields are.

ghost use Rattle.std.specs.Prelude.{◌≡◌};
ghost use Rattle.dl_script_model.specs.declared.step.Step.TheVariants as step;
ghost use Rattle.dl_script_fields.specs.Fields.{texts};
ghost use Rattle.dl_script_fields.specs.Kind.{Says};
ghost use Rattle.dl_script_lines.specs.Word.{step_word, scenario_word};
ghost use Rattle.dl_script.specs.Line.{called, step_by_word, scenario_by_word, line_of_text, step_of, scenario_line_of};
ghost use Rattle.dl_script_lines.specs.declared.word.StepWord.TheVariants as word;
ghost use Rattle.dl_script_lines.specs.declared.word.ScenarioWord.TheVariants as scene;

use crate::claim::Claim;
use crate::read::{Read, all_calls, one_call, says};
use crate::scratch::Scratch;
use dl_bytes::Payload;
use dl_script_fields::{LineError, ScriptKind, cut_into, worded};
use dl_script_lines::{
    Call, ScenarioWord, StepWord, app, app_id, bare, claim, client_bytes, client_number, clock,
    context, leave, levels, log_call, scenario_word, step_word, user, writer_number,
};
use dl_script_model::{ScenarioLine, Step};
use std::alloc::Global;
use std::str::from_utf8;

/// What a log call declares and says: the step that `load`, `call` or `log` is.
fn loaded(call: Call) -> Read<Step>
    ensures { result ≡ called step.Load call }
{
    let claim = one_call(&call);
    match call.into_line() {
        Some(line) => says(claim, Step::Load(line)),
        None => Read { claim, line: None },
    }
}

fn called(call: Call) -> Read<Step>
    ensures { result ≡ called step.Call call }
{
    let claim = one_call(&call);
    match call.into_line() {
        Some(line) => says(claim, Step::Call(line)),
        None => Read { claim, line: None },
    }
}

fn logged(call: Call) -> Read<Step>
    ensures { result ≡ called step.Log call }
{
    let claim = one_call(&call);
    match call.into_line() {
        Some(line) => says(claim, Step::Log(line)),
        None => Read { claim, line: None },
    }
}

/// `app`
#[tactic(auto, unfolding(crate::specs::Line::step_by_word))]
fn app_step(alloc: Global, fields: &[&str]) -> Result<Read<Step>, LineError>
    ensures { Says (λ x. x) result (step_by_word word.App (texts fields.now)) }
{
    let app = app(alloc, fields)?;
    Ok(says(Claim::App { apid: app.apid }, Step::App(app)))
}

/// `context`
#[tactic(auto, unfolding(crate::specs::Line::step_by_word))]
fn context_step(alloc: Global, fields: &[&str]) -> Result<Read<Step>, LineError>
    ensures { Says (λ x. x) result (step_by_word word.Context (texts fields.now)) }
{
    let context = context(alloc, fields)?;
    let (apid, ctid) = (context.apid, context.ctid);
    Ok(says(Claim::Context { apid, ctid }, Step::Context(context)))
}

/// `writer`
#[tactic(auto, unfolding(crate::specs::Line::step_by_word))]
fn writer_step(fields: &[&str]) -> Result<Read<Step>, LineError>
    ensures { Says (λ x. x) result (step_by_word word.Writer (texts fields.now)) }
{
    let apid = app_id(fields)?;
    Ok(says(Claim::Writer { apid }, Step::Writer { apid }))
}

/// `clock`
#[tactic(auto, unfolding(crate::specs::Line::step_by_word))]
fn clock_step(fields: &[&str]) -> Result<Read<Step>, LineError>
    ensures { Says (λ x. x) result (step_by_word word.Clock (texts fields.now)) }
{
    let clock = clock(fields)?;
    Ok(says(Claim::Nothing, clock))
}

/// `load`
#[tactic(auto, unfolding(crate::specs::Line::step_by_word))]
fn load_step(alloc: Global, payload: &mut Payload, fields: &[&str]) -> Result<Read<Step>, LineError>
    ensures { Says (λ x. x) result (step_by_word word.Load (texts fields.now)) }
{
    let call = log_call(alloc, payload, fields, 0, u32::MAX)?;
    Ok(loaded(call))
}

/// `push`
#[tactic(auto, unfolding(crate::specs::Line::step_by_word))]
fn push_step(fields: &[&str]) -> Result<Read<Step>, LineError>
    ensures { Says (λ x. x) result (step_by_word word.Push (texts fields.now)) }
{
    let writer = writer_number(fields)?;
    Ok(says(Claim::OfWriter { writer }, Step::Push { writer }))
}

/// `count`
#[tactic(auto, unfolding(crate::specs::Line::step_by_word))]
fn count_step(fields: &[&str]) -> Result<Read<Step>, LineError>
    ensures { Says (λ x. x) result (step_by_word word.Count (texts fields.now)) }
{
    let writer = writer_number(fields)?;
    Ok(says(Claim::OfWriter { writer }, Step::Count { writer }))
}

/// `call`
#[tactic(auto, unfolding(crate::specs::Line::step_by_word))]
fn call_step(alloc: Global, payload: &mut Payload, fields: &[&str]) -> Result<Read<Step>, LineError>
    ensures { Says (λ x. x) result (step_by_word word.Call (texts fields.now)) }
{
    let call = log_call(alloc, payload, fields, 0, u32::MAX)?;
    Ok(called(call))
}

/// `log`
#[tactic(auto, unfolding(crate::specs::Line::step_by_word))]
fn log_step(alloc: Global, payload: &mut Payload, fields: &[&str]) -> Result<Read<Step>, LineError>
    ensures { Says (λ x. x) result (step_by_word word.Log (texts fields.now)) }
{
    let call = log_call(alloc, payload, fields, 0, u32::MAX)?;
    Ok(logged(call))
}

/// `claim`
#[tactic(auto, unfolding(crate::specs::Line::step_by_word))]
fn claim_step(alloc: Global, fields: &[&str]) -> Result<Read<Step>, LineError>
    ensures { Says (λ x. x) result (step_by_word word.Claim (texts fields.now)) }
{
    let asked = claim(alloc, fields)?;
    let (writer, ctid) = (asked.writer, asked.ctid);
    Ok(says(Claim::Place { writer, ctid }, Step::Claim(asked)))
}

/// `announce`
#[tactic(auto, unfolding(crate::specs::Line::step_by_word))]
fn announce_step(fields: &[&str]) -> Result<Read<Step>, LineError>
    ensures { Says (λ x. x) result (step_by_word word.Announce (texts fields.now)) }
{
    let writer = writer_number(fields)?;
    Ok(says(Claim::OfWriter { writer }, Step::Announce { writer }))
}

/// `register`
#[tactic(auto, unfolding(crate::specs::Line::step_by_word))]
fn register_step(alloc: Global, fields: &[&str]) -> Result<Read<Step>, LineError>
    ensures { Says (λ x. x) result (step_by_word word.Register (texts fields.now)) }
{
    let asked = claim(alloc, fields)?;
    let (writer, ctid) = (asked.writer, asked.ctid);
    Ok(says(Claim::Place { writer, ctid }, Step::Register(asked)))
}

/// `take`
#[tactic(auto, unfolding(crate::specs::Line::step_by_word))]
fn take_step(fields: &[&str]) -> Result<Read<Step>, LineError>
    ensures { Says (λ x. x) result (step_by_word word.Take (texts fields.now)) }
{
    let apid = app_id(fields)?;
    Ok(says(Claim::OfApp { apid }, Step::Take { apid }))
}

/// `losses`
#[tactic(auto, unfolding(crate::specs::Line::step_by_word))]
fn losses_step(fields: &[&str]) -> Result<Read<Step>, LineError>
    ensures { Says (λ x. x) result (step_by_word word.Losses (texts fields.now)) }
{
    let apid = app_id(fields)?;
    Ok(says(Claim::OfApp { apid }, Step::Losses { apid }))
}

/// `levels`
#[tactic(auto, unfolding(crate::specs::Line::step_by_word))]
fn levels_step(fields: &[&str]) -> Result<Read<Step>, LineError>
    ensures { Says (λ x. x) result (step_by_word word.Levels (texts fields.now)) }
{
    let levels = levels(fields)?;
    Ok(says(Claim::Nothing, Step::Levels(levels)))
}

/// `level`
#[tactic(auto, unfolding(crate::specs::Line::step_by_word))]
fn level_step(fields: &[&str]) -> Result<Read<Step>, LineError>
    ensures { Says (λ x. x) result (step_by_word word.Level (texts fields.now)) }
{
    bare(fields)?;
    Ok(says(Claim::Nothing, Step::Level))
}

/// `connect`
#[tactic(auto, unfolding(crate::specs::Line::step_by_word))]
fn connect_step(fields: &[&str]) -> Result<Read<Step>, LineError>
    ensures { Says (λ x. x) result (step_by_word word.Connect (texts fields.now)) }
{
    bare(fields)?;
    Ok(says(Claim::Connect, Step::Connect))
}

/// `bytes`
#[tactic(auto, unfolding(crate::specs::Line::step_by_word))]
fn bytes_step(alloc: Global, fields: &[&str]) -> Result<Read<Step>, LineError>
    ensures { Says (λ x. x) result (step_by_word word.Bytes (texts fields.now)) }
{
    let (client, bytes) = client_bytes(alloc, fields)?;
    Ok(says(Claim::OfClient { client }, Step::Bytes { client, bytes }))
}

/// `close`
#[tactic(auto, unfolding(crate::specs::Line::step_by_word))]
fn close_step(fields: &[&str]) -> Result<Read<Step>, LineError>
    ensures { Says (λ x. x) result (step_by_word word.Close (texts fields.now)) }
{
    let client = client_number(fields)?;
    Ok(says(Claim::OfClient { client }, Step::Close { client }))
}

/// `user`
#[tactic(auto, unfolding(crate::specs::Line::step_by_word))]
fn user_step(alloc: Global, fields: &[&str]) -> Result<Read<Step>, LineError>
    ensures { Says (λ x. x) result (step_by_word word.User (texts fields.now)) }
{
    let user = user(alloc, fields)?;
    Ok(says(Claim::User, user))
}

/// `inject`
#[tactic(auto, unfolding(crate::specs::Line::step_by_word))]
fn inject_step(fields: &[&str]) -> Result<Read<Step>, LineError>
    ensures { Says (λ x. x) result (step_by_word word.Inject (texts fields.now)) }
{
    let apid = app_id(fields)?;
    Ok(says(Claim::OfApp { apid }, Step::Inject { apid }))
}

/// What the fields of a line of a step script say, by its word.
fn step_by_word(
    alloc: Global,
    payload: &mut Payload,
    word: StepWord,
    fields: &[&str],
) -> Result<Read<Step>, LineError>
    ensures { Says (λ x. x) result (step_by_word word (texts fields.now)) }
{
    match word {
        StepWord::App => app_step(alloc, fields),
        StepWord::Context => context_step(alloc, fields),
        StepWord::Writer => writer_step(fields),
        StepWord::Clock => clock_step(fields),
        StepWord::Load => load_step(alloc, payload, fields),
        StepWord::Push => push_step(fields),
        StepWord::Count => count_step(fields),
        StepWord::Call => call_step(alloc, payload, fields),
        StepWord::Log => log_step(alloc, payload, fields),
        StepWord::Claim => claim_step(alloc, fields),
        StepWord::Announce => announce_step(fields),
        StepWord::Register => register_step(alloc, fields),
        StepWord::Take => take_step(fields),
        StepWord::Losses => losses_step(fields),
        StepWord::Levels => levels_step(fields),
        StepWord::Level => level_step(fields),
        StepWord::Connect => connect_step(fields),
        StepWord::Bytes => bytes_step(alloc, fields),
        StepWord::Close => close_step(fields),
        StepWord::User => user_step(alloc, fields),
        StepWord::Inject => inject_step(fields),
    }
}

/// What the fields of a line of a scenario say, by its word.
#[tactic(auto, unfolding(crate::specs::Line::scenario_by_word))]
fn scenario_by_word(
    alloc: Global,
    payload: &mut Payload,
    word: ScenarioWord,
    fields: &[&str],
) -> Result<Read<ScenarioLine>, LineError>
    ensures { Says (λ x. x) result (scenario_by_word word (texts fields.now)) }
{
    match word {
        ScenarioWord::App => {
            let app = app(alloc, fields)?;
            Ok(says(Claim::App { apid: app.apid }, ScenarioLine::App(app)))
        }
        ScenarioWord::Context => {
            let context = context(alloc, fields)?;
            let (apid, ctid) = (context.apid, context.ctid);
            Ok(says(
                Claim::Context { apid, ctid },
                ScenarioLine::Context(context),
            ))
        }
        ScenarioWord::Writer => {
            let apid = app_id(fields)?;
            Ok(says(Claim::Writer { apid }, ScenarioLine::Writer { apid }))
        }
        ScenarioWord::Register => {
            let asked = claim(alloc, fields)?;
            let (writer, ctid) = (asked.writer, asked.ctid);
            Ok(says(Claim::Place { writer, ctid }, ScenarioLine::Register(asked)))
        }
        ScenarioWord::Calls => {
            let call = log_call(alloc, payload, fields, 1, 1_000_000)?;
            Ok(all_calls(call))
        }
        ScenarioWord::Client => {
            bare(fields)?;
            Ok(says(Claim::Client, ScenarioLine::Client))
        }
        ScenarioWord::Send => {
            let (client, bytes) = client_bytes(alloc, fields)?;
            let count = bytes.all().len();
            Ok(says(
                Claim::Send {
                    client,
                    bytes: count,
                },
                ScenarioLine::Send { client, bytes },
            ))
        }
        ScenarioWord::Leave => {
            let (client, bytes) = leave(fields)?;
            Ok(says(
                Claim::Leave { client },
                ScenarioLine::Leave { client, bytes },
            ))
        }
    }
}

/// What a line of a step script says that is text.
fn step_in<'a>(
    alloc: Global,
    scratch: &mut Scratch<'a>,
    line: &'a str,
) -> Result<Read<Step>, LineError>
    ensures { Says (λ x. x) result (line_of_text step_word step_by_word line.now) }
{
    let (first, rest) = worded(line);
    let Some(word) = step_word(first) else {
        return Err(LineError::Fault(ScriptKind::Word));
    };
    if !cut_into(&mut scratch.fields, rest)? {
        return Err(LineError::Fault(ScriptKind::Fields));
    }
    step_by_word(alloc, &mut scratch.payload, word, &scratch.fields)
}

/// What a line of a step script says, or what is wrong with it. The scratch takes its fields and its arguments.
pub fn step<'a>(
    alloc: Global,
    scratch: &mut Scratch<'a>,
    line: &'a [u8],
) -> Result<Read<Step>, LineError>
    ensures { Says (λ x. x) result (step_of line.now) }
{
    match from_utf8(line) {
        Ok(text) => step_in(alloc, scratch, text),
        Err(_) => Err(LineError::Fault(ScriptKind::NotUtf8)),
    }
}

/// What a line of a scenario says that is text.
fn scenario_line_in<'a>(
    alloc: Global,
    scratch: &mut Scratch<'a>,
    line: &'a str,
) -> Result<Read<ScenarioLine>, LineError>
    ensures { Says (λ x. x) result (line_of_text scenario_word scenario_by_word line.now) }
{
    let (first, rest) = worded(line);
    let Some(word) = scenario_word(first) else {
        return Err(LineError::Fault(ScriptKind::Word));
    };
    if !cut_into(&mut scratch.fields, rest)? {
        return Err(LineError::Fault(ScriptKind::Fields));
    }
    scenario_by_word(alloc, &mut scratch.payload, word, &scratch.fields)
}

/// What a line of a scenario says, or what is wrong with it. The scratch takes its fields and its arguments.
pub fn scenario_line<'a>(
    alloc: Global,
    scratch: &mut Scratch<'a>,
    line: &'a [u8],
) -> Result<Read<ScenarioLine>, LineError>
    ensures { Says (λ x. x) result (scenario_line_of line.now) }
{
    match from_utf8(line) {
        Ok(text) => scenario_line_in(alloc, scratch, text),
        Err(_) => Err(LineError::Fault(ScriptKind::NotUtf8)),
    }
}
