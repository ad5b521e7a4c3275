//! What lines declare, and what they ask of the lines before them.

ghost use Rattle.std.specs.Prelude.{◌≡◌, ◌<◌, ◌+◌, IfSome, nat_le, length, count_by, is_some};
ghost use Rattle.dl_script.specs.Earlier.{nothing, is_app, is_of, is_on, is_context, is_claimed_on, places_on, claims_for, numbered, logs_under, Admits};
ghost use Rattle.dl_script.specs.declared.claim.Claim.TheVariants as claim;

use dl_bytes::{APP_LIMIT, CALL_LIMIT, CLIENT_LIMIT, CONTEXT_LIMIT, Id, WRITER_LIMIT};
use dl_script_fields::{LineError, ScriptKind};
use indexmap::IndexSet;
use std::alloc::Global;
use std::marker::Model;

/// The most bytes that one client sends.
const SENT_LIMIT: u64 = 1_000_000;

/// What a line declares, and what it asks of the lines before it.
#[derive(Clone, Copy)]
pub enum Claim {
    /// Nothing.
    Nothing,
    /// It declares an application.
    App { apid: Id },
    /// It declares a context of an application.
    Context { apid: Id, ctid: Id },
    /// It declares a writer of an application.
    Writer { apid: Id },
    /// A writer claims a place of its application for a context.
    Place { writer: u8, ctid: Id },
    /// A writer logs so many calls under a context of its application.
    Calls { writer: u8, ctid: Id, count: u32 },
    /// It names a writer.
    OfWriter { writer: u8 },
    /// It names an application.
    OfApp { apid: Id },
    /// It declares a client, of which a step script may have any number.
    Connect,
    /// It declares a client of a scenario.
    Client,
    /// It names a client.
    OfClient { client: u32 },
    /// It brings user messages.
    User,
    /// A client sends so many bytes.
    Send { client: u32, bytes: usize },
    /// A client leaves.
    Leave { client: u32 },
}

/// A context as lines name it.
#[derive(Clone, Copy, PartialEq, Eq, Hash)]
pub struct ContextName {
    /// The application's id.
    pub apid: Id,
    /// The context's id.
    pub ctid: Id,
}

/// A place that a writer claims.
#[derive(Clone, Copy)]
pub struct PlaceName {
    /// The writer's number.
    pub writer: u8,
    /// Its application's id.
    pub apid: Id,
    /// The id of the context that is to have it.
    pub ctid: Id,
}

/// A client as lines declare it.
#[derive(Clone, Copy)]
pub struct Client {
    /// How many bytes it sends.
    pub sent: u64,
    /// Whether a line says when it leaves.
    pub leaves: bool,
}

/// What the lines so far declare, and what a further line may not be.
#[derive(Drop)]
pub struct Known {
    apps: Vec<Id>,
    contexts: IndexSet<ContextName>,
    places: Vec<PlaceName>,
    writers: Vec<Id>,
    clients: Vec<Client>,
    calls: u64,
    user: bool,
}

impl Model for Known {
    ghost use Rattle.std.specs.Prelude.{◌≤◌};
    ghost use Rattle.dl_script.specs.Earlier.{Declared};

    ghost Value = { Declared };

    ghost view = { λ k. record {
      apps = k.apps.items;
      contexts = k.contexts.keys;
      places = k.places.items;
      writers = k.writers.items;
      clients = k.clients.items;
      calls = k.calls;
      user = k.user;
    } };

    ghost invariant = { λ k. k.calls ≤ 1000000 };
}

impl Known {
    /// What no line declares.
    pub fn new(alloc: Global) -> Known
        ensures { result ≡ nothing }
    {
        Known {
            apps: Vec::new(alloc),
            contexts: IndexSet::new(alloc),
            places: Vec::new(alloc),
            writers: Vec::new(alloc),
            clients: Vec::new(alloc),
            calls: 0,
            user: false,
        }
    }

    /// Takes a line with this claim, where it may follow.
    pub fn admit(&mut self, claim: Claim) -> Result<(), LineError>
        ensures { Admits claim result self.old self.new }
    {
        match claim {
            Claim::Nothing => Ok(()),
            Claim::App { apid } => self.app(apid),
            Claim::Context { apid, ctid } => self.context(apid, ctid),
            Claim::Writer { apid } => self.writer(apid),
            Claim::Place { writer, ctid } => self.place(writer, ctid),
            Claim::Calls {
                writer,
                ctid,
                count,
            } => self.calls(writer, ctid, count),
            Claim::OfWriter { writer } => self.of_writer(writer),
            Claim::OfApp { apid } => self.of_app(apid),
            Claim::Connect => self.connect(),
            Claim::Client => self.client(),
            Claim::OfClient { client } => self.of_client(client),
            Claim::User => {
                self.user = true;
                Ok(())
            }
            Claim::Send { client, bytes } => self.send(client, bytes),
            Claim::Leave { client } => self.leave(client),
        }
    }

    /// Whether an application is declared.
    fn is_app(&self, apid: &Id) -> bool
        ensures { result ≡ is_app self.now apid.now }
    {
        self.apps.contains(apid)
    }

    /// Whether a context of an application is declared.
    fn is_context(&self, apid: &Id, ctid: &Id) -> bool
        ensures { result ≡ is_context self.now apid.now ctid.now }
    {
        self.contexts.contains(&ContextName {
            apid: *apid,
            ctid: *ctid,
        })
    }

    /// How many contexts of an application are declared.
    fn contexts_of(&self, apid: &Id) -> usize
        ensures { result ≡ count_by (is_of apid.now) self.now.contexts }
    {
        let mut count = 0;
        for context in self.contexts.iter() {
            if context.apid == *apid {
                count += 1;
            }
        }
        count
    }

    /// Whether a place of an application is claimed.
    fn is_claimed_on(&self, apid: &Id) -> bool
        ensures { result ≡ is_claimed_on self.now apid.now }
    {
        self.places.iter().any(|place| place.apid == *apid)
    }

    /// How many places of an application are claimed.
    fn claims_on(&self, apid: &Id) -> usize
        ensures { result ≡ count_by (is_on apid.now) self.now.places }
    {
        let mut count = 0;
        for place in self.places.iter() {
            if place.apid == *apid {
                count += 1;
            }
        }
        count
    }

    /// Whether an application has as many contexts and claims as it can have places.
    fn is_full(&self, apid: &Id) -> bool
        ensures { result ≡ nat_le 64 (places_on self.now apid.now) }
    {
        self.contexts_of(apid).saturating_add(self.claims_on(apid)) >= CONTEXT_LIMIT
    }

    /// Whether a writer claims a place for this id.
    fn claims_for(&self, writer: u8, ctid: &Id) -> bool
        ensures { result ≡ claims_for self.now writer ctid.now }
    {
        self.places
            .iter()
            .any(|place| place.writer == writer && place.ctid == *ctid)
    }

    /// The application of a writer.
    fn owner(&self, writer: u8) -> Option<Id>
        ensures { result ≡ numbered self.now.writers writer }
    {
        if writer == 0 {
            return None;
        }
        self.writers.get(writer as usize - 1).copied()
    }

    /// Whether a writer names a context of its application.
    fn logs_under(&self, writer: u8, ctid: &Id) -> bool
        ensures { result ≡ logs_under self.now writer ctid.now }
    {
        match self.owner(writer) {
            Some(apid) => self.is_context(&apid, ctid) || self.claims_for(writer, ctid),
            None => false,
        }
    }

    /// The place of a client, which is counted from 1.
    fn place_of(&self, client: u32) -> Option<usize>
        ensures known { is_some result ≡ is_some (numbered self.now.clients client) }
        ensures place { IfSome result (λ place. (place + 1 ≡ client) × (place < length self.now.clients)) }
    {
        if client == 0 || self.clients.len() < client as usize {
            return None;
        }
        Some(client as usize - 1)
    }

    /// An application is declared.
    fn app(&mut self, apid: Id) -> Result<(), LineError>
        ensures { Admits (claim.App apid) result self.old self.new }
    {
        if self.user {
            return Err(LineError::Fault(ScriptKind::Order));
        }
        if self.is_app(&apid) {
            return Err(LineError::Fault(ScriptKind::Twice));
        }
        if self.apps.len() >= APP_LIMIT {
            return Err(LineError::Fault(ScriptKind::Limit));
        }
        self.apps.push(apid)?;
        Ok(())
    }

    /// A context of an application is declared.
    fn context(&mut self, apid: Id, ctid: Id) -> Result<(), LineError>
        ensures { Admits (claim.Context apid ctid) result self.old self.new }
    {
        if self.user || self.is_claimed_on(&apid) {
            return Err(LineError::Fault(ScriptKind::Order));
        }
        if !self.is_app(&apid) {
            return Err(LineError::Fault(ScriptKind::Unknown));
        }
        if self.is_context(&apid, &ctid) {
            return Err(LineError::Fault(ScriptKind::Twice));
        }
        if self.is_full(&apid) {
            return Err(LineError::Fault(ScriptKind::Limit));
        }
        self.contexts.insert(ContextName { apid, ctid })?;
        Ok(())
    }

    /// A writer of an application is declared.
    fn writer(&mut self, apid: Id) -> Result<(), LineError>
        ensures { Admits (claim.Writer apid) result self.old self.new }
    {
        if !self.is_app(&apid) {
            return Err(LineError::Fault(ScriptKind::Unknown));
        }
        if self.writers.len() >= WRITER_LIMIT {
            return Err(LineError::Fault(ScriptKind::Limit));
        }
        self.writers.push(apid)?;
        Ok(())
    }

    /// A writer claims a place of its application.
    fn place(&mut self, writer: u8, ctid: Id) -> Result<(), LineError>
        ensures { Admits (claim.Place writer ctid) result self.old self.new }
    {
        let Some(apid) = self.owner(writer) else {
            return Err(LineError::Fault(ScriptKind::Unknown));
        };
        if self.is_full(&apid) {
            return Err(LineError::Fault(ScriptKind::Limit));
        }
        self.places.push(PlaceName { writer, apid, ctid })?;
        Ok(())
    }

    /// A writer logs so many calls.
    fn calls(&mut self, writer: u8, ctid: Id, count: u32) -> Result<(), LineError>
        ensures { Admits (claim.Calls writer ctid count) result self.old self.new }
    {
        if !self.logs_under(writer, &ctid) {
            return Err(LineError::Fault(ScriptKind::Unknown));
        }
        if self.calls + count as u64 > CALL_LIMIT as u64 {
            return Err(LineError::Fault(ScriptKind::Limit));
        }
        self.calls += count as u64;
        Ok(())
    }

    /// A writer is named.
    fn of_writer(&mut self, writer: u8) -> Result<(), LineError>
        ensures { Admits (claim.OfWriter writer) result self.old self.new }
    {
        if writer == 0 || self.writers.len() < writer as usize {
            return Err(LineError::Fault(ScriptKind::Unknown));
        }
        Ok(())
    }

    /// An application is named.
    fn of_app(&mut self, apid: Id) -> Result<(), LineError>
        ensures { Admits (claim.OfApp apid) result self.old self.new }
    {
        if !self.is_app(&apid) {
            return Err(LineError::Fault(ScriptKind::Unknown));
        }
        Ok(())
    }

    /// A client of a step script is declared.
    fn connect(&mut self) -> Result<(), LineError>
        ensures { Admits claim.Connect result self.old self.new }
    {
        self.clients.push(Client {
            sent: 0,
            leaves: false,
        })?;
        Ok(())
    }

    /// A client of a scenario is declared.
    fn client(&mut self) -> Result<(), LineError>
        ensures { Admits claim.Client result self.old self.new }
    {
        if self.clients.len() >= CLIENT_LIMIT as usize {
            return Err(LineError::Fault(ScriptKind::Limit));
        }
        self.clients.push(Client {
            sent: 0,
            leaves: false,
        })?;
        Ok(())
    }

    /// A client is named.
    fn of_client(&mut self, client: u32) -> Result<(), LineError>
        ensures { Admits (claim.OfClient client) result self.old self.new }
    {
        if self.place_of(client).is_none() {
            return Err(LineError::Fault(ScriptKind::Unknown));
        }
        Ok(())
    }

    /// A client sends so many bytes.
    fn send(&mut self, client: u32, bytes: usize) -> Result<(), LineError>
        ensures { Admits (claim.Send client bytes) result self.old self.new }
    {
        let Some(place) = self.place_of(client) else {
            return Err(LineError::Fault(ScriptKind::Unknown));
        };
        let Client { sent, leaves } = self.clients[place];
        if sent.saturating_add(bytes as u64) > SENT_LIMIT {
            return Err(LineError::Fault(ScriptKind::Limit));
        }
        self.clients[place] = Client {
            sent: sent + bytes as u64,
            leaves,
        };
        Ok(())
    }

    /// A client leaves.
    fn leave(&mut self, client: u32) -> Result<(), LineError>
        ensures { Admits (claim.Leave client) result self.old self.new }
    {
        let Some(place) = self.place_of(client) else {
            return Err(LineError::Fault(ScriptKind::Unknown));
        };
        let Client { sent, leaves } = self.clients[place];
        if leaves {
            return Err(LineError::Fault(ScriptKind::Twice));
        }
        self.clients[place] = Client { sent, leaves: true };
        Ok(())
    }
}
