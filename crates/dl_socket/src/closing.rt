//! The applications of a channel that ends.

ghost use Rattle.std.specs.Prelude.{◌≡◌, ◌≤◌, None, OnOk};
ghost use Rattle.dl_bytes.specs.Limits.{admitted_limit};
ghost use Rattle.dl_channel_turns.specs.State.{side};
ghost use Rattle.dl_registry.specs.Kept.{first_app, owed_change};
ghost use Rattle.dl_socket.specs.Closing.{HasUnregistered};

use crate::messenger::Messenger;
use dl_bytes::{Moment, OutOfMemory, UserMsg};
use dl_core::Core;
use dl_events::Journal;
use dl_outside::Folder;

/// Unregisters all applications of a channel, in the order in which they came. Where memory ran out the first ones were.
pub fn unregister_all<J: Journal, F: Folder>(
    core: &mut Core,
    messenger: &mut Messenger,
    journal: &mut J,
    channel: u16,
    moment: Moment,
    folder: &mut F,
) -> Result<(), OutOfMemory>
    requires settled { owed_change core.old.registry ≡ None }
    requires few { core.old.hub.admitted ≤ admitted_limit }
    ensures unregistered { HasUnregistered channel moment (side core.old messenger.old.outboxes (J.events journal.old) (F.told folder.old))
        (side core.new messenger.new.outboxes (J.events journal.new) (F.told folder.new)) }
    ensures none_left { OnOk result (first_app core.new.registry.registry channel ≡ None) }
    ensures settled { owed_change core.new.registry ≡ None }
    ensures few { core.new.hub.admitted ≤ admitted_limit }
    ensures rest { messenger.new ≡ record messenger.old { outboxes = messenger.new.outboxes } }
{
    while let Some(apid) = core.registry().first_app(channel) {
        let msg = UserMsg::UnregisterApp { apid, pid: 0 };
        match messenger.take_in(core, journal, channel, msg, moment, folder) {
            Ok(()) => {}
            Err(_) => return Err(OutOfMemory),
        }
    }
    Ok(())
}
