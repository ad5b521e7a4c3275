//! What the daemon logs as a program of its own: its contexts, and the messages that wait for its own link.

use crate::own::message::Message;
use crate::own::topic::{APPLICATION, TOPICS};
use dl_bytes::{Id, Level, OwnLevel};
use dl_client::{Area, Call, Client, Context, Logged, Opening, Sender, filled};
use dl_outside::Sends;
use dl_real_daemon::OwnLink;
use std::alloc::{AllocError, Global};

/// How many bytes can wait for the link.
const QUEUE: usize = 262_144;

/// The most bytes of the arguments of a message.
const PAYLOAD: usize = 1390;

/// A context before it is registered.
const NO_CONTEXT: Context = Context {
    apid: APPLICATION,
    ctid: [0; 4],
    level: 0,
    mcnt: 0,
    filtered: 0,
    queued: 0,
    lost: 0,
};

/// The contexts of the daemon, and what waits.
#[derive(Drop)]
pub struct OwnSender {
    contexts: [Context; 4],
    queue: Vec<u8>,
    used: usize,
    sender: Sender,
    accounts: u8,
    /// How many messages were queued.
    pub queued: u64,
}

/// The state of the client library, over this memory, of which so many bytes wait.
fn client<'a>(
    contexts: &'a mut [Context],
    queue: &'a mut [u8],
    used: usize,
    sender: Sender,
    accounts: u8,
) -> Client<'a> {
    let used = used.min(queue.len());
    Client {
        contexts,
        queue: Area { bytes: queue, used },
        sender,
        accounts,
        untold: true,
    }
}

impl OwnSender {
    /// One without contexts, of a control unit and a process.
    pub fn make(alloc: Global, ecu: Id, pid: u32) -> Result<OwnSender, AllocError> {
        Ok(OwnSender {
            contexts: [NO_CONTEXT; 4],
            queue: Vec::from_elem(alloc, 0, QUEUE)?,
            used: 0,
            sender: Sender {
                ecu: ecu.bytes(),
                session: pid,
            },
            accounts: 0,
            queued: 0,
        })
    }

    /// What that state has come to.
    fn keep(&mut self, used: usize, accounts: u8) {
        self.used = used;
        self.accounts = accounts;
    }

    /// Queues the registration of the application.
    fn register_application(&mut self) {
        let pid = self.sender.session;
        let mut client = client(
            &mut self.contexts,
            self.queue.as_mut_slice(),
            self.used,
            self.sender,
            self.accounts,
        );
        let _ = dl_client::register_app(&mut client, &APPLICATION, pid, b"DLT daemon");
        let (used, accounts) = (client.queue.used, client.accounts);
        self.keep(used, accounts);
    }

    /// Queues the registration of a context.
    fn register_context(&mut self, place: usize, opening: &Opening, ticks: u32) {
        let mut client = client(
            &mut self.contexts,
            self.queue.as_mut_slice(),
            self.used,
            self.sender,
            self.accounts,
        );
        let _ = dl_client::open(&mut client, place, opening, ticks);
        let (used, accounts) = (client.queue.used, client.accounts);
        self.keep(used, accounts);
    }

    /// The counter of the context at this place goes on from here.
    fn count_on(&mut self, place: usize, mcnt: u8) {
        if let Some(context) = self.contexts.get_mut(place) {
            context.mcnt = mcnt;
        }
    }

    /// Whether nothing waits for the link.
    pub fn is_empty(&self) -> bool {
        self.used == 0
    }

    /// Lets go what waits for a link that is gone, which has perhaps taken a part of a message.
    pub fn clear(&mut self) {
        self.used = 0;
    }

    /// Queues the registrations of the application and of its contexts, which ask for this level. Counters go on.
    pub fn register(&mut self, level: Level, ticks: u32) {
        let Some(own) = OwnLevel::of(level.number() as i8) else {
            return;
        };
        let pid = self.sender.session;
        self.register_application();
        for topic in &TOPICS {
            let opening = Opening {
                apid: APPLICATION,
                ctid: topic.ctid(),
                level: level.number(),
                own,
                pid,
                text: topic.words(),
            };
            let mcnt = match self.contexts.get(topic.place()) {
                Some(context) => context.mcnt,
                None => 0,
            };
            self.register_context(topic.place(), &opening, ticks);
            self.count_on(topic.place(), mcnt);
        }
    }

    /// The context at this place has this level from now on, as the daemon told it.
    pub fn obey(&mut self, place: usize, level: u8, ticks: u32) {
        let mut client = client(
            &mut self.contexts,
            self.queue.as_mut_slice(),
            self.used,
            self.sender,
            self.accounts,
        );
        let _ = dl_client::obey(&mut client, place, level, ticks);
        let (used, accounts) = (client.queue.used, client.accounts);
        self.keep(used, accounts);
    }

    /// A log call.
    fn log(&mut self, place: usize, call: &Call, payload: &[u8]) -> Logged {
        let mut client = client(
            &mut self.contexts,
            self.queue.as_mut_slice(),
            self.used,
            self.sender,
            self.accounts,
        );
        let logged = dl_client::log(&mut client, place, call, payload);
        let (used, accounts) = (client.queue.used, client.accounts);
        self.keep(used, accounts);
        logged
    }

    /// Says a message. Where its context's level filters it, or the queue has no room, that is counted as for any program.
    pub fn say(&mut self, message: &Message, ticks: u32) {
        let mut bytes = [0; PAYLOAD];
        let mut payload = Area {
            bytes: &mut bytes,
            used: 0,
        };
        let args = message.push(&mut payload);
        if args == 0 {
            return;
        }
        let call = Call {
            severity: message.severity(),
            verbose: true,
            args,
            ticks,
        };
        if self.log(message.topic().place(), &call, filled(&payload)) == Logged::Queued {
            self.queued = self.queued.saturating_add(1);
        }
    }

    /// The link took so many of the bytes that wait.
    fn took(&mut self, count: usize) {
        let mut client = client(
            &mut self.contexts,
            self.queue.as_mut_slice(),
            self.used,
            self.sender,
            self.accounts,
        );
        if count <= filled(&client.queue).len() {
            dl_client::took(&mut client, count);
        }
        let (used, accounts) = (client.queue.used, client.accounts);
        self.keep(used, accounts);
    }

    /// Sends what waits, as far as the link takes it. Answers whether the link stays.
    pub fn send(&mut self, link: &mut OwnLink) -> bool {
        let sent = match self.queue.get(..self.used) {
            Some(piece) if !piece.is_empty() => link.send(piece),
            _ => return true,
        };
        match sent {
            Sends::Bytes(count) => self.took(count),
            Sends::Busy => {}
            Sends::Failed => return false,
        }
        true
    }
}
