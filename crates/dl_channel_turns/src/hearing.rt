//! A program is listened to.

ghost use Rattle.std.specs.Prelude.{◌≡◌, ◌≤◌, ◌+◌, [], None};
ghost use Rattle.dl_bytes.specs.Limits.{admitted_limit};
ghost use Rattle.dl_registry.specs.Kept.{owed_change};
ghost use Rattle.dl_channel_turns.specs.State.{seen};
ghost use Rattle.dl_channel_turns.specs.Turns.{IsTurn, Stays};

use crate::gathered::Gathered;
use crate::outboxes::Outboxes;
use crate::serving::serve_each;
use dl_bytes::{LINK_PIECE, Moment};
use dl_channel::{ChannelEnd, Inbox};
use dl_core::Core;
use dl_events::Journal;
use dl_outside::{Folder, Gave, Link};

/// Asks a channel's link once for at most 4096 bytes, and takes in the messages that they make whole, in order. Each message that has frames
/// is admitted, behind the Closes of the clients that are too slow for them, log messages that come one behind the other together; any other
/// goes to the registry, and the Level events that it owes follow, each put for its channel. The answer is why the channel ends, where it does.
pub fn hear<J: Journal, L: Link, F: Folder>(
    core: &mut Core,
    outboxes: &mut Outboxes,
    journal: &mut J,
    inbox: &mut Inbox,
    gathered: &mut Gathered,
    channel: u16,
    link: &mut L,
    at: Moment,
    folder: &mut F,
) -> Option<ChannelEnd>
    requires none { gathered.old ≡ [] }
    requires settled { owed_change core.old.registry ≡ None }
    requires few { core.old.hub.admitted + 4096 ≤ admitted_limit }
    ensures turn { let s = seen L.told J.events F.told in IsTurn channel at result
        (s link.old inbox.old core.old outboxes.old journal.old folder.old) (s link.new inbox.new core.new outboxes.new journal.new folder.new) }
    ensures stays { result ≡ None → Stays (L.told link.old) (L.told link.new) }
    ensures settled { owed_change core.new.registry ≡ None }
    ensures few { core.new.hub.admitted ≤ admitted_limit }
    ensures none { gathered.new ≡ [] }
{
    inbox.is_within();
    let mut buffer = [0; LINK_PIECE];
    match link.recv(&mut buffer) {
        Gave::Bytes(count) => {
            let piece = &buffer[..count];
            let served = serve_each(
                core, outboxes, journal, inbox, gathered, channel, piece, at, folder,
            );
            gathered.clear();
            match served {
                Ok(()) => None,
                Err(end) => Some(end),
            }
        }
        Gave::NotYet => None,
        Gave::End => Some(ChannelEnd::Left),
        Gave::Failed => Some(ChannelEnd::Broken),
    }
}
