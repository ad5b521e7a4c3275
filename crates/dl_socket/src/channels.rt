//! The channels of external applications.

ghost use Rattle.std.specs.Prelude.{◌≡◌, ◌<◌, ◌≤◌, ◌+◌, ◌^◌, ℕ, length, nat_eq, None, IfErr, IfNone, IfOk, IfSome, IsSome, OnErr, OnOk, OnSome, slice_get};
ghost use Rattle.std.specs.List.{IsDistinct};
ghost use Rattle.dl_bytes.specs.Limits.{admitted_limit, message_limit};
ghost use Rattle.dl_channel_turns.specs.Turns.{Stays};
ghost use Rattle.dl_hub.specs.State.{outbox_of};
ghost use Rattle.dl_rounds.specs.Ready.{AreLinked, KeepsRoom};
ghost use Rattle.dl_registry.specs.Kept.{owed_change};
ghost use Rattle.dl_turns.specs.Events.{HasServed};
ghost use Rattle.dl_socket.specs.Channels.{IsOpen, Opens, Refuses, channel_limit, none_opened, open_channel_limit, open_in, with_channel};
ghost use Rattle.dl_socket.specs.Closing.{HasBegunToClose, HasClosed};
ghost use Rattle.dl_socket.specs.Listening.{HaveHeard, HaveListeners, HaveShut, clients_of};
ghost use Rattle.dl_socket.specs.Turns.{HasAsked, HasPumped, HasTurned, seen, side_of};

use crate::closing::unregister_all;
use crate::fault::ChannelFault;
use crate::messenger::Messenger;
use dl_bytes::{CHANNEL_LIMIT, Moment, OPEN_CHANNEL_LIMIT, OutOfMemory};
use dl_channel::{ChannelEnd, Inbox, Outbox};
use dl_core::Core;
use dl_events::{Journal, Why};
use dl_message::Cutter;
use dl_outside::{Folder, Link, LinkList};
use dl_rounds::{ListenerPool, close_all, listen_all};
use dl_turns::client_turn;
use indexmap::IndexMap;
use std::alloc::Global;
use std::marker::Model;
use std::sync::Wait;

/// The channels that are open, each of an external application, which logs over a connection. They have the numbers 1, 2 and so on, each used once.
#[derive(Drop)]
pub struct Channels {
    alloc: Global,
    messenger: Messenger,
    inboxes: IndexMap<u16, Inbox>,
    opened: u16,
    at_once: u16,
    in_all: u16,
}

impl Model for Channels {
    ghost use Rattle.dl_socket.specs.Channels as state;
    ghost use Rattle.dl_socket.specs.Channels.{Fits};

    ghost Value = { state.Channels };

    ghost view = { λ c. record {
      outboxes = c.messenger.outboxes;
      inboxes = c.inboxes.entries;
      opened = c.opened;
      at_once = c.at_once;
      in_all = c.in_all;
    } };

    ghost invariant = { λ c. Fits (record {
      outboxes = c.messenger.outboxes;
      inboxes = c.inboxes.entries;
      opened = c.opened;
      at_once = c.at_once;
      in_all = c.in_all;
    }) };
}

impl Channels {
    /// No channel yet, for a run that ends.
    pub fn make(alloc: Global) -> Result<Channels, OutOfMemory>
        ensures { IfOk result (λ channels. channels ≡ none_opened open_channel_limit channel_limit) }
    {
        Channels::make_for(alloc, OPEN_CHANNEL_LIMIT, CHANNEL_LIMIT)
    }

    /// The same for a run in which so many channels may be open at once, and so many come in all.
    pub fn make_for(alloc: Global, at_once: u16, in_all: u16) -> Result<Channels, OutOfMemory>
        ensures { IfOk result (λ channels. channels ≡ none_opened at_once in_all) }
    {
        Ok(Channels {
            alloc,
            messenger: Messenger::make(alloc)?,
            inboxes: IndexMap::new(alloc),
            opened: 0,
            at_once,
            in_all,
        })
    }

    /// Opens a channel, and answers its number.
    pub fn open(&mut self) -> Result<u16, ChannelFault>
        ensures opened { IfOk result (λ channel. Opens channel self.old self.new) }
        ensures refused { IfErr result (λ fault. Refuses fault self.old) }
        ensures kept { OnErr result (self.new ≡ self.old) }
    {
        if self.opened == self.in_all {
            return Err(ChannelFault::Spent);
        }
        if self.inboxes.len() >= usize::from(self.at_once) {
            return Err(ChannelFault::Full);
        }
        let channel = self.opened + 1;
        match self.add(channel) {
            Ok(()) => Ok(channel),
            Err(_) => Err(ChannelFault::OutOfMemory),
        }
    }

    /// A channel under this number, the next one, comes as the last.
    fn add(&mut self, channel: u16) -> Result<(), OutOfMemory>
        requires { (channel ≡ self.old.opened + 1) × (channel ≤ self.old.in_all) }
        ensures added { OnOk result (self.new ≡ with_channel channel self.old) }
        ensures kept { OnErr result (self.new ≡ self.old) }
    {
        let inbox = Inbox::make(self.alloc)?;
        let outbox = Outbox::make(self.alloc)?;
        self.messenger.add(channel, outbox)?;
        if let Err(full) = self.inboxes.insert(channel, inbox) {
            self.messenger.remove(channel);
            return Err(full.into());
        }
        self.opened = channel;
        Ok(())
    }

    /// The channel that is open at this place, in the order of their numbers.
    pub fn at(&self, place: usize) -> Option<u16>
        ensures place { result ≡ slice_get (open_in self.now) place }
        ensures open { IfSome result (λ channel. IsOpen channel self.now) }
        // Its number was given.
        ensures number { IfSome result (λ channel. (0 < channel) × (channel ≤ self.now.opened)) }
    {
        match self.inboxes.get_index(place) {
            Some((channel, _)) => Some(*channel),
            None => None,
        }
    }

    /// What always holds of the channels that are open, for callers whose own promise rests on it. It costs nothing.
    pub fn are_apart(&self)
        // None is open twice.
        ensures apart { IsDistinct nat_eq (open_in self.now) }
        ensures few { length self.now.inboxes < 2 ^ 63 }
    {
        let _open = self.inboxes.iter();
    }

    /// The turn of a channel that is open: its link is asked once for at most 4096 bytes, and the messages that they make whole are taken in, in
    /// order, each with the Level events that it owes, which are put for their channels. The answer is why the channel ends, where it does.
    pub fn turn<J: Journal, L: Link, F: Folder>(
        &mut self,
        core: &mut Core,
        journal: &mut J,
        channel: u16,
        link: &mut L,
        moment: Moment,
        folder: &mut F,
    ) -> Option<ChannelEnd>
        requires open { IsOpen channel self.old }
        requires settled { owed_change core.old.registry ≡ None }
        requires few { core.old.hub.admitted + 4096 ≤ admitted_limit }
        ensures turn { let s = seen L.told J.events F.told in HasTurned channel moment result
            (s link.old core.old journal.old folder.old) (s link.new core.new journal.new folder.new) self.old self.new }
        ensures stays { IfNone result (Stays (L.told link.old) (L.told link.new)) }
        ensures settled { owed_change core.new.registry ≡ None }
        ensures few { core.new.hub.admitted ≤ admitted_limit }
    {
        match self.inboxes.get_mut(&channel) {
            Some(inbox) => self
                .messenger
                .hear(core, journal, inbox, channel, link, moment, folder),
            None => unreachable!(),
        }
    }

    /// Sends what waits for a channel that is open, until nothing is left or its link takes nothing more. The answer is why the channel ends, where
    /// it does.
    pub fn pump<L: Link>(&mut self, channel: u16, link: &mut L) -> Option<ChannelEnd>
        requires { IsOpen channel self.old }
        ensures { HasPumped channel result (L.told link.old) (L.told link.new) self.old self.new }
    {
        self.messenger.pump(channel, link)
    }

    /// Ends a channel that is open: each of its applications that is there is unregistered first, in the order in which they came, as if the program
    /// had done it with pid 0. Where memory ran out the channel stays open, and the next call does the rest.
    pub fn close<J: Journal, F: Folder>(
        &mut self,
        core: &mut Core,
        journal: &mut J,
        channel: u16,
        moment: Moment,
        folder: &mut F,
    ) -> Result<(), OutOfMemory>
        requires open { IsOpen channel self.old }
        requires settled { owed_change core.old.registry ≡ None }
        requires few { core.old.hub.admitted ≤ admitted_limit }
        ensures closed { let s = side_of J.events F.told in OnOk result (HasClosed channel moment
            (s core.old self.old journal.old folder.old) (s core.new self.new journal.new folder.new) self.old self.new) }
        ensures unclosed { let s = side_of J.events F.told in OnErr result (HasBegunToClose channel moment
            (s core.old self.old journal.old folder.old) (s core.new self.new journal.new folder.new) self.old self.new) }
        ensures settled { owed_change core.new.registry ≡ None }
        ensures few { core.new.hub.admitted ≤ admitted_limit }
    {
        unregister_all(core, &mut self.messenger, journal, channel, moment, folder)?;
        self.messenger.remove(channel);
        self.inboxes.shift_remove(&channel);
        Ok(())
    }

    /// The turn of a client of the daemon that is open: its link is asked once for at most 4096 bytes, and the requests that they make whole are
    /// served in order, each with the Level events that it owes, which are put for their channels. The client is closed where its link has ended or
    /// failed, where a request is refused, and where a bad header stands behind the requests. The answer is the cause, and none where the client is
    /// still open. No external application is sent an injection.
    pub fn request_turn<R: Wait, J: Journal, L: Link, F: Folder>(
        &mut self,
        rt: &R,
        core: &mut Core,
        journal: &mut J,
        cutter: &mut Cutter,
        served: &mut u32,
        client: u32,
        link: &mut L,
        folder: &mut F,
    ) -> Option<Why>
        requires limit { cutter.old.limit ≡ message_limit }
        requires open { IsSome (outbox_of core.old.hub client) }
        requires served { HasServed client served.old core.old }
        requires settled { owed_change core.old.registry ≡ None }
        requires spare { 1 ≤ J.spare journal.old }
        ensures turn { let s = seen L.told J.events F.told in HasAsked client result cutter.old cutter.new
            (s link.old core.old journal.old folder.old) (s link.new core.new journal.new folder.new) self.old self.new }
        ensures limit { cutter.new.limit ≡ message_limit }
        ensures open { IfNone result (IsSome (outbox_of core.new.hub client)) }
        ensures served { HasServed client served.new core.new }
        ensures settled { owed_change core.new.registry ≡ None }
        ensures spare { IfNone result (J.spare journal.old ≤ J.spare journal.new) }
        ensures noted { OnSome result (J.spare journal.old ≤ J.spare journal.new + 1) }
    {
        let registry = core.registry();
        registry.slots_are_apart();
        self.messenger.learn(registry);
        client_turn(
            rt,
            self.alloc,
            core,
            &mut self.messenger,
            journal,
            cutter,
            served,
            client,
            link,
            folder,
        )
    }
    /// Listens to each client of the daemon that is open once, in the order of their numbers: each has such a turn. Answers whether anything moved.
    pub fn listen_all<R: Wait, J: Journal, L: Link, F: Folder>(
        &mut self,
        rt: &R,
        core: &mut Core,
        journal: &mut J,
        links: &mut LinkList<L>,
        seats: &mut ListenerPool,
        folder: &mut F,
    ) -> bool
        requires linked { AreLinked links.old core.old (J.spare journal.old) }
        requires heard { HaveListeners seats.old core.old }
        ensures serves { let s = clients_of L.told J.events F.told in HaveHeard result core.old
            (s links.old seats.old core.old journal.old folder.old) (s links.new seats.new core.new journal.new folder.new) self.old self.new }
        ensures linked { AreLinked links.new core.new (J.spare journal.new) }
        ensures heard { HaveListeners seats.new core.new }
        ensures room { KeepsRoom core.old core.new (J.spare journal.old) (J.spare journal.new) }
    {
        let registry = core.registry();
        registry.slots_are_apart();
        self.messenger.learn(registry);
        listen_all(
            rt,
            self.alloc,
            core,
            &mut self.messenger,
            journal,
            links,
            seats,
            folder,
        )
    }

    /// Closes each client of the daemon that is open, in the order of their numbers, as the daemon stops: each has its closing turns before that.
    pub fn close_clients<R: Wait, J: Journal, L: Link, F: Folder>(
        &mut self,
        rt: &R,
        core: &mut Core,
        journal: &mut J,
        links: &mut LinkList<L>,
        seats: &mut ListenerPool,
        folder: &mut F,
    )
        requires linked { AreLinked links.old core.old (J.spare journal.old) }
        requires heard { HaveListeners seats.old core.old }
        ensures serves { let s = clients_of L.told J.events F.told in HaveShut L.told core.old
            (s links.old seats.old core.old journal.old folder.old) (s links.new seats.new core.new journal.new folder.new) self.old self.new }
        ensures none { (number : ℕ) → outbox_of core.new.hub number ≡ None }
        ensures linked { AreLinked links.new core.new (J.spare journal.new) }
        ensures heard { HaveListeners seats.new core.new }
    {
        let registry = core.registry();
        registry.slots_are_apart();
        self.messenger.learn(registry);
        close_all(
            rt,
            self.alloc,
            core,
            &mut self.messenger,
            journal,
            links,
            seats,
            folder,
        );
    }
}
