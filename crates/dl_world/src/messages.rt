//! User messages: those of a script's own declarations, and those that come on channels.

ghost use Rattle.std.specs.Prelude.{◌≡◌, None, OnOk, map};
ghost use Rattle.std.specs.List.{All};
ghost use Rattle.dl_events.specs.declared.event.Event.TheVariants as event;
ghost use Rattle.dl_script_model.specs.Marks.{moment};
ghost use Rattle.dl_script_model.specs.Steps.{hear, in_sequence, tell};
ghost use Rattle.dl_registry.specs.Kept.{owed_change};
ghost use Rattle.dl_world.specs.Fed.{CanBeTold};
ghost use Rattle.dl_core.specs.Files.{Leaves};
ghost use Rattle.dl_world.specs.Follows.{Does, noting};

use crate::delivery::make_room;
use crate::world::World;
use dl_bytes::{OutOfMemory, UserMsg};
use dl_outside::Folder;

impl World {
    /// A user message comes on a channel.
    pub fn tell<F: Folder>(
        &mut self,
        channel: u16,
        msg: UserMsg,
        folder: &mut F,
    ) -> Result<(), OutOfMemory>
        requires fit { CanBeTold msg }
        ensures does { OnOk result (Does (λ setting answers. tell setting channel msg) self.old self.new (F.told folder.old) (F.told folder.new)) }
        ensures leaves { Leaves self.old.core self.new.core (F.told folder.old) (F.told folder.new) }
    {
        self.note_levels()?;
        self.note_message(channel, msg, folder)?;
        self.note_levels_now()
    }

    /// Notes a user message.
    fn note_message<F: Folder>(
        &mut self,
        channel: u16,
        msg: UserMsg,
        folder: &mut F,
    ) -> Result<(), OutOfMemory>
        requires fit { CanBeTold msg }
        requires settled { owed_change self.old.core.registry ≡ None }
        ensures does { OnOk result (Does (λ setting answers. noting (λ now. event.User channel msg (moment now)) setting) self.old self.new (F.told folder.old) (F.told folder.new)) }
        ensures leaves { Leaves self.old.core self.new.core (F.told folder.old) (F.told folder.new) }
    {
        let need = self.core.user_need(&msg);
        make_room(&self.core, &mut self.journal, 1, need)?;
        let _refused = self
            .core
            .user(channel, msg, self.moment, folder, &mut self.journal)?;
        self.deliver()
    }

    /// Bytes come on a channel: each message that they make whole is noted in turn.
    pub fn hear<F: Folder>(
        &mut self,
        channel: u8,
        bytes: &[u8],
        folder: &mut F,
    ) -> Result<(), OutOfMemory>
        ensures does { OnOk result (Does (λ setting answers. hear setting channel bytes.now) self.old self.new (F.told folder.old) (F.told folder.new)) }
        ensures leaves { Leaves self.old.core self.new.core (F.told folder.old) (F.told folder.new) }
    {
        let messages = self.channels.cut(self.alloc, channel, bytes)?;
        self.tell_each(channel as u16, messages, folder)
    }

    /// Messages come on a channel, one after the other.
    fn tell_each<F: Folder>(
        &mut self,
        channel: u16,
        messages: Vec<UserMsg>,
        folder: &mut F,
    ) -> Result<(), OutOfMemory>
        requires fit { All CanBeTold messages.items }
        ensures does { OnOk result (Does (λ setting answers. in_sequence (map (tell setting channel) messages.items)) self.old self.new (F.told folder.old) (F.told folder.new)) }
        ensures leaves { Leaves self.old.core self.new.core (F.told folder.old) (F.told folder.new) }
    {
        for msg in messages {
            self.tell(channel, msg, folder)?;
        }
        Ok(())
    }
}
