//! The lines of a script that claim places.

ghost use Rattle.std.specs.Prelude.{◌≡◌, ◌++◌, ◌∷◌, [], IfOk, OnOk};
ghost use Rattle.std.specs.Option.{option_map_or};
ghost use Rattle.dl_fates.specs.ClaimLines as claims;
ghost use Rattle.dl_fates.specs.Lines.{placed};

use crate::call::{count_of, number_at};
use crate::lines::numbers_in;
use dl_bytes::{Id, OutOfMemory};
use dl_script_model::Step;
use std::alloc::Global;

/// A line of a script that claims a place.
#[derive(Clone, Copy, PartialEq, Eq)]
pub struct ClaimAt {
    /// The number of the line, from 1.
    pub line: u64,
    /// The number of its writer.
    pub writer: u8,
    /// The id of the context.
    pub ctid: Id,
}

/// The claim that a line makes, if it makes one.
fn claim_at(line: u64, step: &Step) -> Option<ClaimAt>
    ensures { option_map_or (λ claim. claim ∷ []) result [] ≡ claims.claim_at line step.now }
{
    match step {
        Step::Claim(asked) | Step::Register(asked) => Some(ClaimAt {
            line,
            writer: asked.writer,
            ctid: asked.ctid,
        }),
        _ => None,
    }
}

/// Adds a claim, where there is one.
fn push_claim(claims: &mut Vec<ClaimAt>, claim: Option<ClaimAt>) -> Result<(), OutOfMemory>
    ensures { OnOk result (claims.new.items ≡ claims.old.items ++ option_map_or (λ one. one ∷ []) claim []) }
{
    if let Some(claim) = claim {
        claims.push(claim)?;
    }
    Ok(())
}

/// The claims of lines of these numbers, in order.
fn claims_from(alloc: Global, numbers: &[u64], steps: &[Step]) -> Result<Vec<ClaimAt>, OutOfMemory>
    ensures { IfOk result (λ all. all.items ≡ claims.claims_from (placed numbers.now steps.now)) }
{
    let mut claims = Vec::new(alloc);
    for place in 0..count_of(numbers, steps) {
        push_claim(
            &mut claims,
            claim_at(number_at(numbers, place), &steps[place]),
        )?;
    }
    Ok(claims)
}

/// The claims of a script with these steps, in the order of its lines.
pub fn claims_in(alloc: Global, text: &[u8], steps: &[Step]) -> Result<Vec<ClaimAt>, OutOfMemory>
    ensures { IfOk result (λ all. all.items ≡ claims.claims_in text.now steps.now) }
{
    let numbers = numbers_in(alloc, text)?;
    claims_from(alloc, &numbers, steps)
}
