//! Claims of writers, up to their rings.

ghost use Rattle.std.specs.Prelude.{◌≡◌, ◌≢◌, [], OnOk};
ghost use Rattle.dl_bytes.specs.Id.{zero_id};
ghost use Rattle.dl_script_model.specs.declared.step.Step.TheVariants as line;
ghost use Rattle.dl_script_model.specs.Steps.{act_of};
ghost use Rattle.dl_world.specs.Follows.{Doing};
ghost use Rattle.dl_world.specs.Known.{HasPlace};

use crate::world::World;
use dl_bytes::OutOfMemory;
use dl_script_model::ClaimLine;

impl World {
    /// A writer claims the next place of its application, once its open call is finished. The claim waits.
    pub fn claim(&mut self, asked: &ClaimLine) -> Result<(), OutOfMemory>
        requires place { HasPlace asked.now.writer self.old.calls }
        requires named { asked.now.ctid ≢ zero_id }
        ensures does { OnOk result (Doing (λ setting. act_of setting [] (line.Claim asked.now)) self.old self.new) }
        ensures core { self.new.core ≡ self.old.core }
    {
        self.calls.finish(asked.writer)?;
        self.calls.claim(asked)
    }

    /// The push of a writer's first claim that waits, once its open call is finished.
    pub fn announce(&mut self, writer: u8) -> Result<(), OutOfMemory>
        ensures does { OnOk result (Doing (λ setting. act_of setting [] (line.Announce writer)) self.old self.new) }
        ensures core { self.new.core ≡ self.old.core }
    {
        self.calls.finish(writer)?;
        let _went = self.calls.announce(writer)?;
        Ok(())
    }

    /// A claim, and the pushes of all that wait until the ring refuses one.
    pub fn register(&mut self, asked: &ClaimLine) -> Result<(), OutOfMemory>
        requires place { HasPlace asked.now.writer self.old.calls }
        requires named { asked.now.ctid ≢ zero_id }
        ensures does { OnOk result (Doing (λ setting. act_of setting [] (line.Register asked.now)) self.old self.new) }
        ensures core { self.new.core ≡ self.old.core }
    {
        self.claim(asked)?;
        self.calls.announce_all(asked.writer)
    }
}
