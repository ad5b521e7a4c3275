//! Log calls, up to their rings and counts.

ghost use Rattle.std.specs.Prelude.{◌≡◌, OnOk};
ghost use Rattle.dl_script_model.specs.declared.step.Step.TheVariants as line;
ghost use Rattle.dl_script_model.specs.Steps.{act_of, begin_call, count, finish, push, whole_call};
ghost use Rattle.dl_core.specs.Files.{Leaves};
ghost use Rattle.dl_world.specs.Follows.{Does, Doing, Loads};

use crate::world::World;
use dl_bytes::OutOfMemory;
use dl_outside::Folder;
use dl_script_model::CallLine;

impl World {
    /// What a writer's open call still needs.
    pub fn finish(&mut self, writer: u8) -> Result<(), OutOfMemory>
        ensures does { OnOk result (Doing (λ setting. finish writer) self.old self.new) }
        ensures core { self.new.core ≡ self.old.core }
    {
        self.calls.finish(writer)
    }

    /// The push of a writer's call.
    pub fn push(&mut self, writer: u8) -> Result<(), OutOfMemory>
        ensures does { OnOk result (Doing (λ setting. push writer) self.old self.new) }
        ensures core { self.new.core ≡ self.old.core }
    {
        self.calls.push(writer)
    }

    /// The count of a writer's call.
    pub fn count(&mut self, writer: u8) -> Result<(), OutOfMemory>
        ensures does { OnOk result (Doing (λ setting. count writer) self.old self.new) }
        ensures core { self.new.core ≡ self.old.core }
    {
        self.calls.count(writer)
    }

    /// A new call, once the writer's open one is finished: its load gives what its context's slot holds.
    pub fn begin_call(&mut self, call: &CallLine) -> Result<(), OutOfMemory>
        ensures does { OnOk result (Doing (λ setting. begin_call setting call.now) self.old self.new) }
        ensures core { self.new.core ≡ self.old.core }
    {
        self.calls.finish(call.writer)?;
        self.load(call)
    }

    /// The load of a call, whose writer has no open one.
    fn load(&mut self, call: &CallLine) -> Result<(), OutOfMemory>
        ensures loads { OnOk result (Loads call.now self.old self.new) }
        ensures core { self.new.core ≡ self.old.core }
    {
        let Some(context) = self.calls.context_of(call) else {
            return Ok(());
        };
        let slot = context.slot();
        let seen = self.core.registry().held(slot);
        self.calls.load(call, context, seen)
    }

    /// A whole call.
    pub fn whole_call(&mut self, call: &CallLine) -> Result<(), OutOfMemory>
        ensures does { OnOk result (Doing (λ setting. whole_call setting call.now) self.old self.new) }
        ensures core { self.new.core ≡ self.old.core }
    {
        self.begin_call(call)?;
        self.finish(call.writer)
    }

    /// A whole call, and the daemon's take of what is next in its application's ring.
    pub fn log<F: Folder>(&mut self, call: &CallLine, folder: &mut F) -> Result<(), OutOfMemory>
        ensures does { OnOk result (Does (λ setting answers. act_of setting answers (line.Log call.now)) self.old self.new (F.told folder.old) (F.told folder.new)) }
        ensures leaves { Leaves self.old.core self.new.core (F.told folder.old) (F.told folder.new) }
    {
        self.whole_call(call)?;
        match self.calls.owner(call.writer) {
            Some(app) => self.take_log(app, folder),
            None => Ok(()),
        }
    }
}
