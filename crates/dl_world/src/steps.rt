//! The lines of a script, each as what it does to the world.

ghost use Rattle.std.specs.Prelude.{◌≡◌, ◌≤◌, ◌<◌, ◌+◌, [], OnOk, IsSomeAnd, length};
ghost use Rattle.dl_script_model.specs.declared.step.Step.TheVariants as line;
ghost use Rattle.dl_script_model.specs.Marks.{Clocked, moment_at};
ghost use Rattle.dl_script_model.specs.Steps.{act_of, just};
ghost use Rattle.dl_world_calls.specs.State.{app_named};
ghost use Rattle.dl_core.specs.Files.{Leaves};
ghost use Rattle.dl_world.specs.Follows.{Does, Doing, next_level};
ghost use Rattle.dl_world.specs.Known.{MayCome};

use crate::world::World;
use dl_bytes::{Bytes, Id, Moment, OutOfMemory, UserMsg};
use dl_events::Why;
use dl_outside::Folder;
use dl_script_model::{AppLine, ContextLine, LevelEvents, Step};

/// How many microseconds a second has.
const SECOND: u32 = 1_000_000;

impl World {
    /// What a line of a script does.
    pub fn step<F: Folder>(&mut self, step: &Step, folder: &mut F) -> Result<(), OutOfMemory>
        requires known { MayCome step.now self.old }
        ensures does { OnOk result (Does (λ setting answers. act_of setting answers step.now) self.old self.new (F.told folder.old) (F.told folder.new)) }
        ensures leaves { Leaves self.old.core self.new.core (F.told folder.old) (F.told folder.new) }
    {
        match step {
            Step::App(app) => self.declare_app(app, folder),
            Step::Context(context) => self.declare_context(context, folder),
            Step::Writer { apid } => self.calls.add_writer(*apid),
            Step::Clock { secs, micros } => self.set_clock(*secs, *micros),
            Step::Load(call) => self.begin_call(call),
            Step::Push { writer } => self.push(*writer),
            Step::Count { writer } => self.count(*writer),
            Step::Call(call) => self.whole_call(call),
            Step::Log(call) => self.log(call, folder),
            Step::Claim(asked) => self.claim(asked),
            Step::Announce { writer } => self.announce(*writer),
            Step::Register(asked) => self.register(asked),
            Step::Take { apid } => self.take_of(*apid, folder),
            Step::Losses { apid } => self.losses_of(*apid, folder),
            Step::Levels(levels) => self.set_levels(*levels),
            Step::Level => self.level(),
            Step::Connect => self.connect(),
            Step::Bytes { client, bytes } => self.receive(*client, bytes.all(), folder),
            Step::Close { client } => self.close(*client, Why::Left),
            Step::User { channel, bytes } => self.hear(*channel, bytes.all(), folder),
            Step::Inject { apid } => self.injection_of(*apid),
        }
    }

    /// An application is declared, and registers.
    fn declare_app<F: Folder>(&mut self, app: &AppLine, folder: &mut F) -> Result<(), OutOfMemory>
        requires few { length self.old.calls.apps < 16 }
        requires text { length app.now.text ≤ 255 }
        ensures does { OnOk result (Does (λ setting answers. act_of setting answers (line.App app.now)) self.old self.new (F.told folder.old) (F.told folder.new)) }
        ensures leaves { Leaves self.old.core self.new.core (F.told folder.old) (F.told folder.new) }
    {
        self.calls.add_app(app)?;
        let text = Bytes::over(Vec::from_slice(self.alloc, app.text.all())?);
        let msg = UserMsg::RegisterApp {
            apid: app.apid,
            pid: 0,
            text,
        };
        self.tell(0, msg, folder)
    }

    /// A context is declared, and registers.
    fn declare_context<F: Folder>(
        &mut self,
        context: &ContextLine,
        folder: &mut F,
    ) -> Result<(), OutOfMemory>
        requires few { IsSomeAnd (app_named self.old.calls context.now.apid) (λ app. length app.contexts + app.claimed < 64) }
        requires text { length context.now.text ≤ 255 }
        ensures does { OnOk result (Does (λ setting answers. act_of setting answers (line.Context context.now)) self.old self.new (F.told folder.old) (F.told folder.new)) }
        ensures leaves { Leaves self.old.core self.new.core (F.told folder.old) (F.told folder.new) }
    {
        self.calls.add_context(context)?;
        let text = Bytes::over(Vec::from_slice(self.alloc, context.text.all())?);
        let msg = UserMsg::RegisterContext {
            apid: context.apid,
            ctid: context.ctid,
            position: 0,
            level: context.level,
            trace: -1,
            pid: 0,
            text,
        };
        self.tell(0, msg, folder)
    }

    /// Later events have this moment.
    fn set_clock(&mut self, secs: u32, micros: u32) -> Result<(), OutOfMemory>
        ensures does { OnOk result (Doing (λ setting. just (Clocked (moment_at secs micros))) self.old self.new) }
        ensures trace { self.new.core ≡ self.old.core }
    {
        self.moment = Moment {
            secs,
            micros: micros % SECOND,
            ticks: 0,
        };
        Ok(())
    }

    /// Level events wait from now on, or no longer.
    fn set_levels(&mut self, levels: LevelEvents) -> Result<(), OutOfMemory>
        ensures does { OnOk result (Doing (λ setting. act_of setting [] (line.Levels levels)) self.old self.new) }
        ensures trace { self.new.core ≡ self.old.core }
    {
        self.later = levels == LevelEvents::Later;
        Ok(())
    }

    /// The next Level event that waits is noted.
    fn level(&mut self) -> Result<(), OutOfMemory>
        ensures does { OnOk result (Doing (next_level) self.old self.new) }
        ensures trace { self.new.core.trace ≡ self.old.core.trace }
    {
        let _noted = self.note_level()?;
        Ok(())
    }

    /// The daemon takes the next call or claim of the ring of the application of this id.
    fn take_of<F: Folder>(&mut self, apid: Id, folder: &mut F) -> Result<(), OutOfMemory>
        ensures does { OnOk result (Does (λ setting answers. act_of setting answers (line.Take apid)) self.old self.new (F.told folder.old) (F.told folder.new)) }
        ensures leaves { Leaves self.old.core self.new.core (F.told folder.old) (F.told folder.new) }
    {
        match self.calls.number_of(apid) {
            Some(app) => self.take_log(app, folder),
            None => Ok(()),
        }
    }

    /// The daemon takes the count of its lost calls.
    fn losses_of<F: Folder>(&mut self, apid: Id, folder: &mut F) -> Result<(), OutOfMemory>
        ensures does { OnOk result (Does (λ setting answers. act_of setting answers (line.Losses apid)) self.old self.new (F.told folder.old) (F.told folder.new)) }
        ensures leaves { Leaves self.old.core self.new.core (F.told folder.old) (F.told folder.new) }
    {
        match self.calls.number_of(apid) {
            Some(app) => self.take_losses(app, folder),
            None => Ok(()),
        }
    }

    /// It takes its oldest injection.
    fn injection_of(&mut self, apid: Id) -> Result<(), OutOfMemory>
        ensures does { OnOk result (Doing (λ setting. act_of setting [] (line.Inject apid)) self.old self.new) }
        ensures trace { self.new.core ≡ self.old.core }
    {
        if let Some(app) = self.calls.number_of(apid) {
            self.take_injection(app);
        }
        Ok(())
    }
}
