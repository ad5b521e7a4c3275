//! The log calls of a script.

ghost use Rattle.std.specs.Prelude.{◌≡◌, ◌<◌, ◌++◌, ◌∷◌, [], List, IfOk, OnOk, get_or, length, min};
ghost use Rattle.std.specs.Option.{option_map_or};
ghost use Rattle.dl_fates.specs.Lines.{StepAt, placed};
ghost use Rattle.dl_fates.specs.Calls as calls;
ghost use Rattle.dl_fates.specs.Ahead.{Foretells};

use crate::ahead::{Ahead, line_at, told_counted};
use crate::lines::numbers_in;
use crate::owners::{owner_of, owners_in};
use dl_bytes::{Id, OutOfMemory};
use dl_script_model::Step;
use std::alloc::Global;

/// A log call of a script.
#[derive(Clone, Copy, PartialEq, Eq)]
pub struct CallAt {
    /// The number of its line, from 1.
    pub line: u64,
    /// The number of its writer.
    pub writer: u8,
    /// The number of the line in which the daemon is told of it, where its ring refuses it; none where the end of the run tells it.
    pub told: Option<u64>,
}

/// The call that a line begins, if it begins one.
fn call_at(ahead: &Ahead, owners: &[Id], line: u64, step: &Step) -> Option<CallAt>
    ensures { (steps : List StepAt) → Foretells owners.now steps ahead.now → option_map_or (λ call. call ∷ []) result [] ≡ calls.call_at owners.now line step.now steps }
{
    match step {
        Step::Load(call) => Some(CallAt {
            line,
            writer: call.writer,
            told: line_at(&ahead.loaded, call.writer),
        }),
        Step::Call(call) | Step::Log(call) => Some(CallAt {
            line,
            writer: call.writer,
            told: told_counted(&ahead.losses, owner_of(owners, call.writer)),
        }),
        _ => None,
    }
}

/// Adds a call, where there is one.
fn push_call(calls: &mut Vec<CallAt>, call: Option<CallAt>) -> Result<(), OutOfMemory>
    ensures { OnOk result (calls.new.items ≡ calls.old.items ++ option_map_or (λ one. one ∷ []) call []) }
{
    if let Some(call) = call {
        calls.push(call)?;
    }
    Ok(())
}

/// The number of the line at a place.
pub fn number_at(numbers: &[u64], place: usize) -> u64
    requires { place < length numbers.now }
    ensures { result ≡ get_or numbers.now place 0 }
{
    numbers[place]
}

/// How many lines say a step.
pub fn count_of(numbers: &[u64], steps: &[Step]) -> usize
    ensures { result ≡ min (length numbers.now) (length steps.now) }
{
    numbers.len().min(steps.len())
}

/// The calls of lines of these numbers, of writers of these applications, in order.
fn calls_from(
    alloc: Global,
    numbers: &[u64],
    owners: &[Id],
    steps: &[Step],
) -> Result<Vec<CallAt>, OutOfMemory>
    ensures { IfOk result (λ all. all.items ≡ calls.calls_from owners.now (placed numbers.now steps.now)) }
{
    let mut ahead = Ahead::new(alloc);
    let mut calls = Vec::new(alloc);
    let mut place = count_of(numbers, steps);
    while place > 0 {
        place -= 1;
        let line = number_at(numbers, place);
        let step = &steps[place];
        push_call(&mut calls, call_at(&ahead, owners, line, step))?;
        ahead.note(owners, line, step)?;
    }
    calls.reverse();
    Ok(calls)
}

/// The log calls of a script with these steps, in the order of its lines.
pub fn calls_in(alloc: Global, text: &[u8], steps: &[Step]) -> Result<Vec<CallAt>, OutOfMemory>
    ensures { IfOk result (λ all. all.items ≡ calls.calls_in text.now steps.now) }
{
    let numbers = numbers_in(alloc, text)?;
    let owners = owners_in(alloc, steps)?;
    calls_from(alloc, &numbers, &owners, steps)
}
