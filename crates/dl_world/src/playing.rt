//! A run of steps, from the first to the end.

ghost use Rattle.std.specs.Prelude.{◌≤◌, [], List, IfSome};
ghost use Rattle.dl_model.specs.TraceFiles.{StoredFile};
ghost use Rattle.dl_trace.specs.Made.{IsMade};
ghost use Rattle.dl_trace.specs.State as traces;
ghost use Rattle.dl_script.specs.Playable.{IsPlayable};
ghost use Rattle.dl_core.specs.Files.{ChangesOwnFiles};
ghost use Rattle.dl_world.specs.Played.{Plays};

use crate::played::Played;
use crate::world::World;
use dl_bytes::{Conf, OutOfMemory, Stored};
use dl_outside::Folder;
use dl_script_model::StepList;
use dl_trace::Trace;
use std::alloc::Global;

/// Plays steps: all that they ask for happens, one after the other, and then the end of a run. The trace was made of the same
/// configuration and has stored nothing yet. What the clients are sent, their links take at once.
pub fn play<F: Folder>(
    alloc: Global,
    conf: &Conf,
    stored: Stored,
    trace: Option<Trace>,
    steps: &StepList,
    folder: &mut F,
) -> Result<Played, OutOfMemory>
    requires trace { IfSome trace (IsMade conf.now) }
    requires stood { IfSome trace (λ made. (stood : List StoredFile) × traces.IsAfter stood [] made) }
    requires playable { IsPlayable steps.now }
    ensures played { Plays conf.now stored trace steps.now (F.told folder.old) (F.told folder.new) result }
    ensures others { ChangesOwnFiles trace (F.told folder.old).files (F.told folder.new).files }
    ensures later { (F.told folder.old).faults ≤ (F.told folder.new).faults }
{
    let mut world = World::make(alloc, conf, stored, trace)?;
    for step in steps.all() {
        world.step(step, folder)?;
    }
    world.end(folder)?;
    world.into_played()
}
