//! What a line says, with what it declares and asks of the lines before it.

ghost use Rattle.std.specs.Prelude.{◌≡◌};
ghost use Rattle.dl_script.specs.Line.{says, calls};
ghost use Rattle.dl_script.specs.declared.claim.Claim.TheVariants as claim;

use crate::claim::Claim;
use dl_script_lines::Call;
use dl_script_model::ScenarioLine;

/// What a line says, and what it declares or asks.
#[derive(Drop)]
pub struct Read<T> {
    /// What it declares, and what it asks of the lines before it.
    pub claim: Claim,
    /// The line, or nothing where its arguments don't fit a log call.
    pub line: Option<T>,
}

/// What a line declares or asks, and what it says.
pub fn says<T>(claim: Claim, line: T) -> Read<T>
    ensures { result ≡ says claim line }
{
    Read {
        claim,
        line: Some(line),
    }
}

/// What one log call asks of the lines before it.
pub fn one_call(call: &Call) -> Claim
    ensures { result ≡ claim.Calls call.now.writer call.now.ctid 1 }
{
    Claim::Calls {
        writer: call.writer,
        ctid: call.ctid,
        count: 1,
    }
}

/// The log calls of a line of a scenario, whose number is their count.
pub fn all_calls(call: Call) -> Read<ScenarioLine>
    ensures { result ≡ calls call }
{
    let Call {
        writer,
        ctid,
        severity,
        number: count,
        payload,
    } = call;
    let claim = Claim::Calls {
        writer,
        ctid,
        count,
    };
    let line = match payload {
        Some(payload) => Some(ScenarioLine::Calls {
            writer,
            ctid,
            severity,
            count,
            payload,
        }),
        None => None,
    };
    Read { claim, line }
}
