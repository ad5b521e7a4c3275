//! What the lines of a scenario ask of a writer.

ghost use Rattle.std.specs.Prelude.{◌≡◌, ◌+◌, ◌*◌, IfSome, [], find, replicate, option_map};
ghost use Rattle.std.specs.Option.{option_map_or};
ghost use Rattle.dl_crew.specs.Calls.{calls_in, content, context_named, has_name, register_in};

use crate::own::Own;
use dl_bytes::{Ctx, Id, Payload, Sequence, Severity};
use dl_script_model::{ClaimLine, Scenario, ScenarioLine};

/// What all workers share: the lines of a scenario, and the contexts that were declared for them.
#[derive(Drop)]
pub struct Plan {
    /// The lines.
    pub lines: Scenario,
    /// The declared contexts of all applications.
    pub contexts: Sequence<Ctx>,
}

/// Calls of a writer, one like the other.
#[derive(Drop)]
pub struct AskedCalls {
    /// The context under which it logs.
    pub ctx: Ctx,
    /// How grave they are.
    pub severity: Severity,
    /// The arguments of each.
    pub payload: Payload,
    /// How many calls.
    pub count: u32,
}

/// What a line asks this writer to claim: nothing where it is no `register` line of the writer's.
pub fn asked_claim(writer: u8, line: &ScenarioLine) -> Option<&ClaimLine>
    ensures { option_map (λ asked. asked.now) result ≡ register_in writer line.now }
{
    match line {
        ScenarioLine::Register(asked) if asked.writer == writer => Some(asked),
        _ => None,
    }
}

/// The calls that a line asks of this writer of this application, which claimed these contexts of its own so far: none where it
/// is no `calls` line of the writer's.
pub fn asked_calls(
    contexts: &[Ctx],
    own: &Own,
    app: u8,
    writer: u8,
    line: &ScenarioLine,
) -> Option<AskedCalls>
    ensures calls { option_map_or (λ c. replicate c.count (content c.ctx c.severity c.payload)) result [] ≡ calls_in contexts.now own.now app writer line.now }
    ensures app { IfSome result (λ c. c.ctx.app ≡ app) }
{
    match line {
        ScenarioLine::Calls {
            writer: number,
            ctid,
            severity,
            count,
            payload,
        } if *number == writer => {
            let ctx = named(contexts, own, app, *ctid)?;
            Some(AskedCalls {
                ctx,
                severity: *severity,
                payload: Payload::of(payload.bytes(), payload.args()),
                count: *count,
            })
        }
        _ => None,
    }
}

// The context of this application that an id names: the last of the writer's own that has it, or else the declared one.
fn named(contexts: &[Ctx], own: &Own, app: u8, ctid: Id) -> Option<Ctx>
    ensures found { result ≡ context_named contexts.now own.now app ctid }
    ensures app { IfSome result (λ ctx. ctx.app ≡ app) }
{
    match own.last(app, ctid) {
        Some(ctx) => Some(ctx),
        None => declared(contexts, app, ctid),
    }
}

// The declared context of this application that has this id.
fn declared(contexts: &[Ctx], app: u8, ctid: Id) -> Option<Ctx>
    ensures found { result ≡ find (has_name app ctid) contexts.now }
    ensures app { IfSome result (λ ctx. ctx.app ≡ app) }
{
    contexts
        .iter()
        .copied()
        .find(|ctx| ctx.app() == app && ctx.ctid() == ctid)
}
