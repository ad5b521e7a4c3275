//! Step lists that a number makes.

ghost use Rattle.std.specs.Prelude.{◌≡◌, ◌≤◌, ◌<◌, ◌++◌, [], IfOk, OnOk, None};
ghost use Rattle.dl_args.specs.Argument.{written};
ghost use Rattle.dl_args.specs.declared.arg.Arg.TheVariants.{Uint};
ghost use Rattle.dl_args.specs.declared.width.Width.TheVariants.{W32};
ghost use Rattle.dl_script.specs.Generated.{next, draw, app_id, context_id, severity_at, level_request, declares, call, call_at, take_at, losses_at, request_at, turn, started, generated};
ghost use Rattle.dl_script_model.specs.declared.step.Step.TheVariants as step;

use dl_args::{Width, add_uint};
use dl_bytes::{Bytes, Id, OutOfMemory, OwnLevel, Payload, Severity};
use dl_script_model::{AppLine, CallArguments, CallLine, ContextLine, Step, StepList};
use std::alloc::Global;

/// The whole of a SetLogLevel request for every context, but for its level.
const REQUEST: [u8; 31] = [
    0x21, 0x00, 0x00, 0x1f, 0x16, 0x01, b'A', b'P', b'P', 0x00, b'C', b'O', b'N', 0x00, 0x01, 0x00,
    0x00, 0x00, 0x00, 0x00, 0x00, 0x00, 0x00, 0x00, 0x00, 0x00, 0x00, 0x00, 0x00, 0x00, 0x00,
];

/// The place of the level in it.
const LEVEL_PLACE: usize = 26;

/// A source of draws: a linear congruential generator, of which the upper bits are used.
#[derive(Drop)]
struct Draws {
    word: u64,
}

impl Draws {
    /// A draw below n.
    #[tactic(auto, unfolding(crate::specs::Generated::draw))]
    fn draw(&mut self, n: u8) -> u8
        requires { 0 < n }
        ensures value { result ≡ (draw n self.old.word).0 }
        ensures range { result < n }
        ensures word { self.new.word ≡ (draw n self.old.word).1 }
    {
        self.word = self
            .word
            .wrapping_mul(6_364_136_223_846_793_005)
            .wrapping_add(1_442_695_040_888_963_407);
        (self.word / (1 << 33) % n as u64) as u8
    }
}

/// The id of an application, 1 to 4.
fn app_id(k: u8) -> Id
    requires { k < 5 }
    ensures { result ≡ app_id k }
{
    Id::from_bytes([b'G', b'E', b'N', b'0' + k])
}

/// The id of a context, 0 or another number.
fn context_id(c: u8) -> Id
    ensures { result ≡ context_id c }
{
    if c == 0 {
        Id::from_bytes(*b"CTXA")
    } else {
        Id::from_bytes(*b"CTXB")
    }
}

/// The severity of a number, 1 to 6.
fn severity_at(s: u8) -> Severity
    ensures { result ≡ severity_at s }
{
    match s {
        1 => Severity::Fatal,
        2 => Severity::Error,
        3 => Severity::Warn,
        4 => Severity::Info,
        5 => Severity::Debug,
        _ => Severity::Verbose,
    }
}

/// A context with no description.
fn context(alloc: Global, k: u8, c: u8, level: OwnLevel) -> Step
    requires { k < 5 }
    ensures { result ≡ step.Context (record { apid = app_id k; ctid = context_id c; level = level; text = [] }) }
{
    Step::Context(ContextLine {
        apid: app_id(k),
        ctid: context_id(c),
        level,
        text: Bytes::over(Vec::new(alloc)),
    })
}

/// Adds the lines that declare an application.
fn push_app(alloc: Global, steps: &mut Vec<Step>, k: u8) -> Result<(), OutOfMemory>
    requires { k < 5 }
    ensures { OnOk result (steps.new.items ≡ steps.old.items ++ declares k) }
{
    let apid = app_id(k);
    steps.push(Step::App(AppLine {
        apid,
        capacity: 8,
        text: Bytes::over(Vec::new(alloc)),
    }))?;
    steps.push(context(alloc, k, 0, OwnLevel::of(-1).unwrap()))?;
    steps.push(context(alloc, k, 1, OwnLevel::of(4).unwrap()))?;
    steps.push(Step::Writer { apid })?;
    steps.push(Step::Writer { apid })?;
    Ok(())
}

/// The arguments of a call: its number, as a number of 32 bits.
fn arguments(alloc: Global, i: u32) -> Result<CallArguments, OutOfMemory>
    ensures { IfOk result (λ arguments. arguments ≡ record { bytes = written (Uint None None W32 i); args = 1 }) }
{
    let mut payload = Payload::new();
    add_uint(&mut payload, Width::W32, i as u128).unwrap();
    CallArguments::of(alloc, &payload)
}

/// Adds a call with its number: its writer, its context and its severity are drawn.
#[tactic(auto, unfolding(crate::specs::Generated::call_at))]
fn push_call(
    alloc: Global,
    steps: &mut Vec<Step>,
    draws: &mut Draws,
    i: u32,
) -> Result<(), OutOfMemory>
    ensures steps { OnOk result (steps.new.items ≡ steps.old.items ++ (call_at i draws.old.word).0) }
    ensures word { OnOk result (draws.new.word ≡ (call_at i draws.old.word).1) }
{
    let writer = 1 + draws.draw(8);
    let ctid = context_id(draws.draw(2));
    let severity = severity_at(1 + draws.draw(6));
    let payload = arguments(alloc, i)?;
    steps.push(Step::Call(CallLine {
        writer,
        ctid,
        severity,
        at: i,
        payload,
    }))?;
    Ok(())
}

/// Adds a take of an application, in one of two cases.
#[tactic(auto, unfolding(crate::specs::Generated::take_at))]
fn push_take(steps: &mut Vec<Step>, draws: &mut Draws) -> Result<(), OutOfMemory>
    ensures steps { OnOk result (steps.new.items ≡ steps.old.items ++ (take_at draws.old.word).0) }
    ensures word { OnOk result (draws.new.word ≡ (take_at draws.old.word).1) }
{
    if draws.draw(2) == 0 {
        let apid = app_id(1 + draws.draw(4));
        steps.push(Step::Take { apid })?;
    }
    Ok(())
}

/// Adds the losses of each application, at each thousandth call.
#[tactic(auto, unfolding(crate::specs::Generated::losses_at))]
fn push_losses(steps: &mut Vec<Step>, i: u32) -> Result<(), OutOfMemory>
    ensures { OnOk result (steps.new.items ≡ steps.old.items ++ losses_at i) }
{
    if i % 1000 == 0 {
        steps.push(Step::Losses { apid: app_id(1) })?;
        steps.push(Step::Losses { apid: app_id(2) })?;
        steps.push(Step::Losses { apid: app_id(3) })?;
        steps.push(Step::Losses { apid: app_id(4) })?;
    }
    Ok(())
}

/// The request for a level.
fn level_request(alloc: Global, level: u8) -> Result<Bytes, OutOfMemory>
    ensures { IfOk result (λ bytes. bytes ≡ level_request level) }
{
    let mut request = REQUEST;
    request[LEVEL_PLACE] = level;
    Ok(Bytes::over(Vec::from_slice(alloc, &request)?))
}

/// Adds a request for a level that is drawn, at each call that is a multiple of 2000.
#[tactic(auto, unfolding(crate::specs::Generated::request_at))]
fn push_request(
    alloc: Global,
    steps: &mut Vec<Step>,
    draws: &mut Draws,
    i: u32,
) -> Result<(), OutOfMemory>
    ensures steps { OnOk result (steps.new.items ≡ steps.old.items ++ (request_at i draws.old.word).0) }
    ensures word { OnOk result (draws.new.word ≡ (request_at i draws.old.word).1) }
{
    if i % 2000 == 0 {
        let bytes = level_request(alloc, 1 + draws.draw(6))?;
        steps.push(Step::Bytes { client: 1, bytes })?;
    }
    Ok(())
}

/// Adds the steps of a call with its number.
#[tactic(auto, unfolding(crate::specs::Generated::turn))]
fn push_turn(
    alloc: Global,
    steps: &mut Vec<Step>,
    draws: &mut Draws,
    i: u32,
) -> Result<(), OutOfMemory>
    ensures steps { OnOk result (steps.new.items ≡ steps.old.items ++ (turn i draws.old.word).0) }
    ensures word { OnOk result (draws.new.word ≡ (turn i draws.old.word).1) }
{
    push_call(alloc, steps, draws, i)?;
    push_take(steps, draws)?;
    push_losses(steps, i)?;
    push_request(alloc, steps, draws, i)?;
    Ok(())
}

/// The steps before the first call: four applications, and a client.
#[tactic(auto, unfolding(crate::specs::Generated::started))]
fn start(alloc: Global) -> Result<Vec<Step>, OutOfMemory>
    ensures { IfOk result (λ steps. steps.items ≡ started) }
{
    let mut steps = Vec::new(alloc);
    push_app(alloc, &mut steps, 1)?;
    push_app(alloc, &mut steps, 2)?;
    push_app(alloc, &mut steps, 3)?;
    push_app(alloc, &mut steps, 4)?;
    steps.push(Step::Connect)?;
    Ok(steps)
}

/// The step list of a number, with so many calls: the same at each run.
pub fn generate(alloc: Global, number: u64, calls: u32) -> Result<StepList, OutOfMemory>
    requires { calls ≤ 1000000 }
    ensures { IfOk result (λ list. list ≡ generated number calls) }
{
    let mut steps = start(alloc)?;
    let mut draws = Draws { word: number };
    for i in 0..calls {
        push_turn(alloc, &mut steps, &mut draws, i + 1)?;
    }
    Ok(StepList::over(steps))
}
