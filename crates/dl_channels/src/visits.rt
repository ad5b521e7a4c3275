//! One channel in a round. Nothing here knows where its link and its end are kept.

ghost use Rattle.std.specs.Prelude.{◌≡◌, ◌≤◌, ◌||◌, ◌==◌, None, is_some};
ghost use Rattle.dl_bytes.specs.Limits.{admitted_limit};
ghost use Rattle.dl_registry.specs.Kept.{owed_change};
ghost use Rattle.dl_socket.specs.Channels.{IsOpen};
ghost use Rattle.dl_socket.specs.Turns.{seen};
ghost use Rattle.dl_channels.specs.Visits.{Ends, Hears, HearsOpen, Pumps, PumpsOpen};

use dl_bytes::{Moment, TURN_FRAMES};
use dl_channel::ChannelEnd;
use dl_core::Core;
use dl_events::Journal;
use dl_outside::{Folder, Link};
use dl_socket::Channels;

/// Ends a channel that is open: its link is shut, and its applications are unregistered. Answers whether it is closed: where memory ran out it
/// stays open, and the next call goes on.
pub fn end_channel<J: Journal, L: Link, F: Folder>(
    channels: &mut Channels,
    core: &mut Core,
    journal: &mut J,
    channel: u16,
    link: &mut L,
    moment: Moment,
    folder: &mut F,
) -> bool
    requires open { IsOpen channel channels.old }
    requires settled { owed_change core.old.registry ≡ None }
    requires few { core.old.hub.admitted ≤ admitted_limit }
    ensures ends { let s = seen L.told J.events F.told in Ends channel moment result
        (s link.old core.old journal.old folder.old) (s link.new core.new journal.new folder.new) channels.old channels.new }
    ensures settled { owed_change core.new.registry ≡ None }
    ensures few { core.new.hub.admitted ≤ admitted_limit }
{
    link.shut();
    channels
        .close(core, journal, channel, moment, folder)
        .is_ok()
}

/// Listens to a channel that is open and has no cause to end, and ends it where there is one then. Nobody is listened to where the core may not admit
/// so many frames more as a turn may need. The answer is the cause.
fn hear_open<J: Journal, L: Link, F: Folder>(
    channels: &mut Channels,
    core: &mut Core,
    journal: &mut J,
    channel: u16,
    link: &mut L,
    moment: Moment,
    folder: &mut F,
) -> Option<ChannelEnd>
    requires open { IsOpen channel channels.old }
    requires settled { owed_change core.old.registry ≡ None }
    requires few { core.old.hub.admitted ≤ admitted_limit }
    ensures hears { let s = seen L.told J.events F.told in HearsOpen channel moment result
        (s link.old core.old journal.old folder.old) (s link.new core.new journal.new folder.new) channels.old channels.new }
    ensures settled { owed_change core.new.registry ≡ None }
    ensures few { core.new.hub.admitted ≤ admitted_limit }
{
    if !core.may_admit(TURN_FRAMES) {
        return None;
    }
    match channels.turn(core, journal, channel, link, moment, folder) {
        Some(end) => {
            let _closed = end_channel(channels, core, journal, channel, link, moment, folder);
            Some(end)
        }
        None => None,
    }
}

/// Listens to a channel that is open, and ends it where there is a cause. One that had a cause before goes on ending for it. Answers whether anything
/// moved: the channel ends, or its link did not say that nothing had come.
pub fn hear_channel<J: Journal, L: Link, F: Folder>(
    channels: &mut Channels,
    core: &mut Core,
    journal: &mut J,
    channel: u16,
    end: &mut Option<ChannelEnd>,
    link: &mut L,
    moment: Moment,
    folder: &mut F,
) -> bool
    requires open { IsOpen channel channels.old }
    requires settled { owed_change core.old.registry ≡ None }
    requires few { core.old.hub.admitted ≤ admitted_limit }
    ensures hears { let s = seen L.told J.events F.told in Hears channel moment end.old end.new
        (s link.old core.old journal.old folder.old) (s link.new core.new journal.new folder.new) channels.old channels.new }
    ensures moves { result ≡ (is_some end.new || ((L.told link.new).idles == (L.told link.old).idles)) }
    ensures settled { owed_change core.new.registry ≡ None }
    ensures few { core.new.hub.admitted ≤ admitted_limit }
{
    match *end {
        Some(_) => {
            let _closed = end_channel(channels, core, journal, channel, link, moment, folder);
            true
        }
        None => {
            let idles = link.idles();
            let cause = hear_open(channels, core, journal, channel, link, moment, folder);
            *end = cause;
            cause.is_some() || link.idles() == idles
        }
    }
}

/// Sends a channel that is open and has no cause to end what waits for it, and ends it where there is one then. The answer is the cause.
fn pump_open<J: Journal, L: Link, F: Folder>(
    channels: &mut Channels,
    core: &mut Core,
    journal: &mut J,
    channel: u16,
    link: &mut L,
    moment: Moment,
    folder: &mut F,
) -> Option<ChannelEnd>
    requires open { IsOpen channel channels.old }
    requires settled { owed_change core.old.registry ≡ None }
    requires few { core.old.hub.admitted ≤ admitted_limit }
    ensures pumps { let s = seen L.told J.events F.told in PumpsOpen channel moment result
        (s link.old core.old journal.old folder.old) (s link.new core.new journal.new folder.new) channels.old channels.new }
    ensures settled { owed_change core.new.registry ≡ None }
    ensures few { core.new.hub.admitted ≤ admitted_limit }
{
    match channels.pump(channel, link) {
        Some(end) => {
            let _closed = end_channel(channels, core, journal, channel, link, moment, folder);
            Some(end)
        }
        None => None,
    }
}

/// Sends a channel that is open what waits for it, and ends it where there is a cause. One that had a cause before is left.
pub fn pump_channel<J: Journal, L: Link, F: Folder>(
    channels: &mut Channels,
    core: &mut Core,
    journal: &mut J,
    channel: u16,
    end: &mut Option<ChannelEnd>,
    link: &mut L,
    moment: Moment,
    folder: &mut F,
)
    requires open { IsOpen channel channels.old }
    requires settled { owed_change core.old.registry ≡ None }
    requires few { core.old.hub.admitted ≤ admitted_limit }
    ensures pumps { let s = seen L.told J.events F.told in Pumps channel moment end.old end.new
        (s link.old core.old journal.old folder.old) (s link.new core.new journal.new folder.new) channels.old channels.new }
    ensures settled { owed_change core.new.registry ≡ None }
    ensures few { core.new.hub.admitted ≤ admitted_limit }
{
    match *end {
        Some(_) => {}
        None => {
            *end = pump_open(channels, core, journal, channel, link, moment, folder);
        }
    }
}
