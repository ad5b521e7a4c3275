//! Whose application each writer of a script belongs to.

ghost use Rattle.std.specs.Prelude.{◌≡◌, ◌++◌, ◌∷◌, [], IfOk, OnOk};
ghost use Rattle.dl_fates.specs.Told as told;

use dl_bytes::{Id, OutOfMemory};
use dl_script_model::Step;
use std::alloc::Global;

/// Adds the application of the writer that a step declares, where it declares one.
fn push_owner(owners: &mut Vec<Id>, step: &Step) -> Result<(), OutOfMemory>
    ensures { OnOk result (owners.new.items ≡ owners.old.items ++ told.owners_in (step.now ∷ [])) }
{
    if let Step::Writer { apid } = step {
        owners.push(*apid)?;
    }
    Ok(())
}

/// The applications of the writers that these steps declare, in their order.
pub fn owners_in(alloc: Global, steps: &[Step]) -> Result<Vec<Id>, OutOfMemory>
    ensures { IfOk result (λ owners. owners.items ≡ told.owners_in steps.now) }
{
    let mut owners = Vec::new(alloc);
    for step in steps {
        push_owner(&mut owners, step)?;
    }
    Ok(owners)
}

/// The application of the writer of this number, from 1.
pub fn owner_of(owners: &[Id], writer: u8) -> Option<Id>
    ensures { result ≡ told.owner_of owners.now writer }
{
    if writer == 0 {
        return None;
    }
    owners.get(writer as usize - 1).copied()
}
