//! Clients that come and go, and what is sent to them.

ghost use Rattle.std.specs.Prelude.{◌≡◌, ◌≤◌, ◌<◌, ◌+◌, ◌↔◌, ◌∷◌, [], ℕ, List, Some, None, Err, length, IfOk, OnErr, OnOk, IsSome, IsSomeAnd, IsTrue};
ghost use Rattle.dl_events.specs.Journal as notes;
ghost use Rattle.dl_events.specs.Journal.{one_more};
ghost use Rattle.dl_events.specs.declared.event.Event.TheVariants as event;
ghost use Rattle.dl_registry.specs.Kept.{owed_change};
ghost use Rattle.dl_model.specs.Backlog.{outbox_limit};
ghost use Rattle.dl_hub.specs.State.{changed, outbox_of, shut, without, Comes, HasPlace, IsFull, IsSameHub, IsSpent, MayAsk};
ghost use Rattle.dl_hub.specs.Pumping.{Pumps, HasFailed, HasWaited, IsOnlySent};
ghost use Rattle.dl_hub.specs.declared.hub.HubFault.TheVariants as HubFault;
ghost use Rattle.dl_hub.specs.declared.hub.Pumped.TheVariants as Pumped;
ghost use Rattle.dl_core.specs.Closing.{MayEnd};
ghost use Rattle.dl_core.specs.Follows.{AddsAlone};

use crate::daemon::Core;
use dl_events::{Event, Journal, Why};
use dl_hub::{HubFault, Pumped};
use dl_outside::Link;

impl Core {
    /// Connects a client, and answers its number, from 1. Where no client is open it is handed the backlog.
    pub fn connect<J: Journal>(&mut self, journal: &mut J) -> Result<u32, HubFault>
        requires spare { 1 ≤ J.spare journal.old }
        requires settled { owed_change self.old.registry ≡ None }
        ensures spent { (result ≡ Err HubFault.Spent) ↔ IsSpent self.old.hub }
        ensures full { (result ≡ Err HubFault.Full) ↔ IsFull self.old.hub }
        ensures refused { OnErr result ((self.new ≡ self.old) × (journal.new ≡ journal.old)) }
        ensures number { IfOk result (λ number. number ≡ length self.old.hub.clients + 1) }
        ensures after { IfOk result (λ number. AddsAlone (event.Connect number ∷ []) self.old self.new) }
        ensures event { IfOk result (λ number. notes.Adds (J.events journal.old) (J.events journal.new) (event.Connect number)) }
        ensures noted { OnOk result (J.noted journal.new ≡ one_more (J.noted journal.old)) }
        ensures spare { OnOk result (J.spare journal.new + 1 ≡ J.spare journal.old) }
        ensures rest { self.new ≡ record self.old { hub = self.new.hub } }
        ensures admitted { self.new.hub.admitted ≡ self.old.hub.admitted }
        ensures comes { OnOk result (Comes self.old.hub self.new.hub) }
        ensures same { IsSameHub self.old.hub self.new.hub }
    {
        let client = self.hub.connect()?;
        journal.note(Event::Connect { client });
        Ok(client)
    }

    /// Whether one more client may connect: fewer came than may, and fewer are open than may be at once.
    pub fn may_connect(&self) -> bool
        ensures { IsTrue result ↔ HasPlace self.now.hub }
    {
        self.hub.has_place()
    }

    /// Whether a client may ask something: it is open, and has fewer requests than it may have.
    pub fn may_ask(&self, client: u32) -> bool
        ensures { IsTrue result ↔ MayAsk self.now.hub client }
    {
        self.hub.may_ask(client)
    }

    /// Ends a client's connection for this cause: what its link has not taken is dropped.
    pub fn close<J: Journal>(&mut self, client: u32, why: Why, journal: &mut J)
        requires open { IsSome (outbox_of self.old.hub client) }
        requires cause { MayEnd self.old.hub client why }
        requires spare { 1 ≤ J.spare journal.old }
        requires settled { owed_change self.old.registry ≡ None }
        ensures after { AddsAlone (event.Close client why ∷ []) self.old self.new }
        ensures event { notes.Adds (J.events journal.old) (J.events journal.new) (event.Close client why) }
        ensures noted { J.noted journal.new ≡ one_more (J.noted journal.old) }
        ensures spare { J.spare journal.new + 1 ≡ J.spare journal.old }
        ensures value { self.new ≡ record self.old { hub = changed client shut self.old.hub } }
        ensures limit { IsSomeAnd (outbox_of self.old.hub client) (λ outbox. outbox.capacity ≡ outbox_limit self.old.hub.buffer) }
    {
        self.hub.close(client);
        journal.note(Event::Close { client, why });
    }

    /// Sends a client's outbox through its link, until nothing is left or the link takes nothing more.
    pub fn pump<L: Link>(&mut self, client: u32, link: &mut L) -> Pumped
        requires { IsSome (outbox_of self.old.hub client) }
        ensures sent { Pumps client self.old.hub self.new.hub (L.told link.old) (L.told link.new) }
        ensures all { result ≡ Pumped.All → IsSomeAnd (outbox_of self.new.hub client) (λ outbox. outbox.bytes ≡ []) }
        ensures some { result ≡ Pumped.Busy → IsSomeAnd (outbox_of self.new.hub client) (λ outbox. 0 < length outbox.bytes) }
        ensures failed { result ≡ Pumped.Failed → IsSomeAnd (outbox_of self.new.hub client) (λ outbox. 0 < length outbox.bytes) }
        ensures faults { HasFailed result (L.told link.old) (L.told link.new) }
        ensures waits { HasWaited result (L.told link.old) (L.told link.new) }
        ensures link { IsOnlySent (L.told link.old) (L.told link.new) }
        ensures rest { self.new ≡ record self.old { hub = self.new.hub } }
    {
        self.hub.pump(client, link)
    }

    /// Takes bytes from the front of a client's outbox, since its link took them.
    pub fn took(&mut self, client: u32, count: usize)
        requires { IsSomeAnd (outbox_of self.old.hub client) (λ outbox. count ≤ length outbox.bytes) }
        ensures { self.new ≡ record self.old { hub = changed client (without count) self.old.hub } }
    {
        self.hub.took(client, count);
    }
}
