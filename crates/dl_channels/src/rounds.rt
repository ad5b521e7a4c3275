//! All channels that are open, in the order in which they came.

ghost use Rattle.std.specs.Prelude.{◌≡◌, ◌≤◌, ◌<◌, ◌^◌, [], None, length, OnErr, OnOk};
ghost use Rattle.dl_bytes.specs.Limits.{admitted_limit};
ghost use Rattle.dl_registry.specs.Kept.{owed_change};
ghost use Rattle.dl_socket.specs.Channels.{open_in};
ghost use Rattle.dl_channels.specs.Accepting.{AreLinked};
ghost use Rattle.dl_channels.specs.Rounds.{HearsAll, PumpsAll, StopsAll, StopsSome, is_at, place_behind, scene};

use crate::visits::{end_channel, hear_channel, pump_channel};
use dl_bytes::{Moment, OutOfMemory};
use dl_channel::ChannelEnd;
use dl_core::Core;
use dl_events::Journal;
use dl_outside::{Folder, Link, LinkList};
use dl_socket::Channels;

/// Whether a channel is at this place of those that are open.
fn is_at(channels: &Channels, place: usize, channel: u16) -> bool
    ensures { result ≡ is_at (open_in channels.now) place channel }
{
    match channels.at(place) {
        Some(other) => other == channel,
        None => false,
    }
}

/// Where the next channel stands, behind a visit to the one that was at this place: it moves up where that one is gone.
fn place_behind(channels: &Channels, place: usize, channel: u16) -> usize
    requires { place < 2 ^ 63 }
    ensures { result ≡ place_behind (open_in channels.now) place channel }
{
    if is_at(channels, place, channel) {
        place + 1
    } else {
        place
    }
}

/// Listens to each channel that is open, in the order in which they came, and ends those for which there is a cause. Answers whether anything moved.
pub fn hear_all<J: Journal, L: Link, F: Folder>(
    channels: &mut Channels,
    core: &mut Core,
    journal: &mut J,
    links: &mut LinkList<L>,
    ends: &mut [Option<ChannelEnd>],
    moment: Moment,
    folder: &mut F,
) -> bool
    requires linked { AreLinked links.old channels.old }
    requires enough { channels.old.opened ≤ length ends.old }
    requires settled { owed_change core.old.registry ≡ None }
    requires few { core.old.hub.admitted ≤ admitted_limit }
    ensures hears { let s = scene L.told J.events F.told in HearsAll moment result
        (s links.old ends.old channels.old core.old journal.old folder.old) (s links.new ends.new channels.new core.new journal.new folder.new) }
    ensures linked { AreLinked links.new channels.new }
    ensures ends { length ends.new ≡ length ends.old }
    ensures opened { channels.new.opened ≡ channels.old.opened }
    ensures settled { owed_change core.new.registry ≡ None }
    ensures few { core.new.hub.admitted ≤ admitted_limit }
{
    let mut moved = false;
    let mut place = 0;
    while let Some(channel) = channels.at(place) {
        channels.are_apart();
        let link = links.of_mut(channel as u32);
        let end = &mut ends[channel as usize - 1];
        moved |= hear_channel(channels, core, journal, channel, end, link, moment, folder);
        place = place_behind(channels, place, channel);
    }
    moved
}

/// Sends each channel that is open what waits for it, in the order in which they came, and ends those for which there is a cause.
pub fn pump_channels<J: Journal, L: Link, F: Folder>(
    channels: &mut Channels,
    core: &mut Core,
    journal: &mut J,
    links: &mut LinkList<L>,
    ends: &mut [Option<ChannelEnd>],
    moment: Moment,
    folder: &mut F,
)
    requires linked { AreLinked links.old channels.old }
    requires enough { channels.old.opened ≤ length ends.old }
    requires settled { owed_change core.old.registry ≡ None }
    requires few { core.old.hub.admitted ≤ admitted_limit }
    ensures pumps { let s = scene L.told J.events F.told in PumpsAll moment
        (s links.old ends.old channels.old core.old journal.old folder.old) (s links.new ends.new channels.new core.new journal.new folder.new) }
    ensures linked { AreLinked links.new channels.new }
    ensures ends { length ends.new ≡ length ends.old }
    ensures opened { channels.new.opened ≡ channels.old.opened }
    ensures settled { owed_change core.new.registry ≡ None }
    ensures few { core.new.hub.admitted ≤ admitted_limit }
{
    let mut place = 0;
    while let Some(channel) = channels.at(place) {
        channels.are_apart();
        let link = links.of_mut(channel as u32);
        let end = &mut ends[channel as usize - 1];
        pump_channel(channels, core, journal, channel, end, link, moment, folder);
        place = place_behind(channels, place, channel);
    }
}

/// Ends each channel that is open, in the order in which they came, as the daemon stops, and shuts their links. Where memory ran out the others stay
/// open, and the next call goes on.
pub fn close_channels<J: Journal, L: Link, F: Folder>(
    channels: &mut Channels,
    core: &mut Core,
    journal: &mut J,
    links: &mut LinkList<L>,
    moment: Moment,
    folder: &mut F,
) -> Result<(), OutOfMemory>
    requires linked { AreLinked links.old channels.old }
    requires settled { owed_change core.old.registry ≡ None }
    requires few { core.old.hub.admitted ≤ admitted_limit }
    ensures closed { OnOk result (let s = scene L.told J.events F.told in StopsAll moment
        (s links.old [] channels.old core.old journal.old folder.old) (s links.new [] channels.new core.new journal.new folder.new)) }
    ensures stopped { OnErr result (let s = scene L.told J.events F.told in StopsSome moment
        (s links.old [] channels.old core.old journal.old folder.old) (s links.new [] channels.new core.new journal.new folder.new)) }
    ensures linked { AreLinked links.new channels.new }
    ensures settled { owed_change core.new.registry ≡ None }
    ensures few { core.new.hub.admitted ≤ admitted_limit }
{
    while let Some(channel) = channels.at(0) {
        channels.are_apart();
        let link = links.of_mut(channel as u32);
        let closed = end_channel(channels, core, journal, channel, link, moment, folder);
        if !closed {
            return Err(OutOfMemory);
        }
    }
    Ok(())
}
