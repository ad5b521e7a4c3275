//! Requests of clients: what a request needs is got ready first, so that serving it takes no memory.

ghost use Rattle.std.specs.Prelude.{◌≡◌, ◌≤◌, ◌<◌, ◌+◌, [], None, length, is_some, IfOk, OnErr, IsSome, IsSomeAnd, IfSome};
ghost use Rattle.dl_bytes.specs.Limits.{request_limit};
ghost use Rattle.dl_bytes.specs.declared.outcome.Done.{Done};
ghost use Rattle.dl_control.specs.Reply.{control_reply};
ghost use Rattle.dl_events.specs.Journal.{one_more};
ghost use Rattle.dl_model.specs.Reply.{apid_of, asked, ctid_of, info_reply, version_reply};
ghost use Rattle.dl_model.specs.Traffic as traffic;
ghost use Rattle.dl_hub.specs.Follows as hub;
ghost use Rattle.dl_registry.specs.Kept.{owed_change};
ghost use Rattle.dl_hub.specs.State.{changed, client_of, outbox_of, with_reply, HasRoom};
ghost use Rattle.dl_core.specs.Serving.{Answers, Asks, Serves, IsReady, IsReplyFor, IsRequest, injection_in};
ghost use Rattle.dl_core.specs.Serving.{frame_for, reply_for, reply_now, served_for, served_now, wanted_for};
ghost use Rattle.dl_core.specs.Waiting.{other_at, others, waiting};
ghost use Rattle.dl_core.specs.Serving as serving;

use crate::daemon::Core;
use dl_bytes::{
    Bytes, Done, Frame, Htyp, Id, Injection, Level, Order, OutOfMemory, OwnLevel, SLOTS,
};
use dl_control::{
    DAEMON_APID, DAEMON_CTID, Reply, Request, RequestFault, read_request, write_reply,
};
use dl_events::{Event, Journal};
use dl_headers::{REPLY_HEADER_LEN, write_reply_headers};
use dl_message::read_message;
use dl_model::Software;
use dl_outside::{Folder, FolderFault};
use dl_registry::InfoFault;
use dl_services::{Want, serve, wish_of};
use std::marker::Model;

/// The file that has the stored configuration.
pub const STORED_NAME: &str = "dlt_stored.cfg";

/// How many bytes a reply without a body has.
const BARE_REPLY: u64 = 23;

/// How many bytes the reply to GetDefaultLogLevel has.
const DEFAULT_REPLY: u64 = BARE_REPLY + 1;

/// A request for which all memory was taken.
#[derive(Drop)]
pub struct Ready {
    client: u32,
    frame: Bytes,
    request: Result<Request, RequestFault>,
    target: (Id, Id),
    want: Want,
    reply: Option<Bytes>,
}

impl Model for Ready {
    ghost use Rattle.std.specs.Prelude.{◌≡◌};
    ghost use Rattle.dl_model.specs.Reply.{apid_of, asked, ctid_of};
    ghost use Rattle.dl_core.specs.Serving as serving;

    ghost Value = { serving.Ready };

    ghost view = { λ r. record { client = r.client; frame = r.frame; want = r.want; reply = r.reply } };

    ghost invariant = { λ r. (r.request ≡ asked r.frame) × (r.target ≡ (apid_of r.frame, ctid_of r.frame)) };
}

impl Ready {
    /// The data that the request sends to an application, with the application's number: it is to be pushed before the
    /// request is served.
    pub fn injection(&self) -> Option<(u8, Injection)>
        ensures { result ≡ injection_in self.now.want }
    {
        match &self.want {
            Want::Inject(app, injection) => Some((*app, injection.copy())),
            Want::Nothing | Want::Put(_, _) | Want::Remove => None,
        }
    }
}

impl Core {
    /// Takes all the memory that a request of this client needs, room in the journal for it and its Level events included.
    /// Nothing changes but what the journal can take.
    pub fn prepare<J: Journal>(
        &mut self,
        client: u32,
        frame: Bytes,
        journal: &mut J,
    ) -> Result<Ready, OutOfMemory>
        requires request { IsRequest frame }
        requires open { IsSome (outbox_of self.old.hub client) }
        requires few { IsSomeAnd (client_of self.old.hub client) (λ c. c.replies < request_limit) }
        requires settled { owed_change self.old.registry ≡ None }
        ensures ready { IfOk result (λ ready. IsReady self.old ready) }
        ensures client { IfOk result (λ ready. (ready.client ≡ client) × (ready.frame ≡ frame)) }
        ensures unchanged { self.new ≡ self.old }
        ensures events { J.events journal.new ≡ J.events journal.old }
        ensures noted { J.noted journal.new ≡ J.noted journal.old }
        ensures reserved { IfOk result (λ ready. (answer : Done) → J.spare journal.old + 1 + waiting (served_now self.old ready.frame answer) ≤ J.spare journal.new) }
        ensures refused { OnErr result (J.spare journal.new ≡ J.spare journal.old) }
    {
        let (request, (apid, ctid)) = asked_by(frame.all());
        let want = wish_of(
            self.alloc,
            &self.registry,
            &request,
            (apid, ctid),
            self.injection,
            self.level,
        )?;
        let reply = self.long_reply(&request, (apid, ctid))?;
        let Some(spare) = journal.spare().checked_add(1 + self.changes_of(&request)) else {
            return Err(OutOfMemory);
        };
        journal.reserve(spare)?;
        Ok(Ready {
            client,
            frame,
            request,
            target: (apid, ctid),
            want,
            reply,
        })
    }

    /// How many Level events a request can owe at most.
    fn changes_of(&self, request: &Result<Request, RequestFault>) -> u64
        ensures value { result ≡ serving.changes_of self.now.level self.now.registry request.now }
        ensures limit { result ≤ 1024 }
    {
        match self.level_set(request) {
            Some(level) => self.others(level),
            None => 0,
        }
    }

    /// The level that a request gives contexts, where it sets levels: with no own level they follow the default level.
    fn level_set(&self, request: &Result<Request, RequestFault>) -> Option<Level>
        ensures { result ≡ serving.level_set self.now.level self.now.registry.registry request.now }
    {
        match request {
            Ok(Request::SetLogLevel { level, .. } | Request::SetAllLogLevel { level }) => {
                let own = OwnLevel::of(*level)?;
                Some(own.effective(self.registry.default_level()))
            }
            Ok(Request::SetDefault { level }) => Level::of(*level),
            Ok(Request::Reset) => Some(self.level),
            _ => None,
        }
    }

    /// How many slots' contexts have another level than this.
    fn others(&self, level: Level) -> u64
        ensures value { result ≡ others level self.now.registry }
        ensures limit { result ≤ 1024 }
    {
        let mut count = 0;
        for slot in 0..SLOTS {
            if self.is_other(slot, level) {
                count += 1;
            }
        }
        count
    }

    /// Whether a slot's context has another level than this.
    fn is_other(&self, slot: u16, level: Level) -> bool
        ensures { result ≡ is_some (other_at level self.now.registry.registry slot) }
    {
        match self.registry.effective(slot) {
            Some(found) => found != level,
            None => false,
        }
    }

    /// Serves a request that was got ready: the folder is asked for what it wants, the event is noted, and the reply is put into the
    /// client's stream. `pushed` says of an injection whether the application's queue took it.
    pub fn request<F: Folder, J: Journal>(
        &mut self,
        ready: Ready,
        pushed: bool,
        folder: &mut F,
        journal: &mut J,
    )
        requires ready { IsReady self.old ready }
        requires open { IsSome (outbox_of self.old.hub ready.client) }
        requires few { IsSomeAnd (client_of self.old.hub ready.client) (λ c. c.replies < request_limit) }
        requires room { (answer : Done) → HasRoom (length (reply_now self.old ready.frame answer)) self.old.hub ready.client }
        requires spare { 1 ≤ J.spare journal.old }
        requires settled { owed_change self.old.registry ≡ None }
        ensures served { Serves ready pushed self.old self.new (F.told folder.old) (F.told folder.new) (J.events journal.old) (J.events journal.new) }
        ensures asked { Asks ready.want (F.told folder.old) (F.told folder.new) }
        ensures noted { J.noted journal.new ≡ one_more (J.noted journal.old) }
        ensures spare { J.spare journal.new + 1 ≡ J.spare journal.old }
        ensures rest { self.new ≡ record self.old { registry = self.new.registry; hub = self.new.hub } }
    {
        let Ready {
            client,
            frame,
            request,
            target,
            want,
            reply,
        } = ready;
        let done = carry_out(&want, pushed, folder);
        self.answer(client, &request, target, want, reply, done);
        journal.note(Event::Request {
            client,
            frame,
            done,
        });
    }

    /// How many bytes the reply to a request has: at most 65,535, as its length has two bytes.
    pub fn request_need(&self, frame: &[u8]) -> Result<u64, OutOfMemory>
        requires { IsRequest frame.now }
        ensures size { IfOk result (λ need. (answer : Done) → need ≡ length (reply_now self.now frame.now answer)) }
        ensures limit { IfOk result (λ need. need ≤ 65535) }
    {
        // The reply's headers have four of the control unit's id.
        let _id = self.ecu.bytes();
        let (request, target) = asked_by(frame);
        self.reply_need(&request, target)
    }

    /// The same of what is asked for these ids.
    fn reply_need(
        &self,
        request: &Result<Request, RequestFault>,
        target: (Id, Id),
    ) -> Result<u64, OutOfMemory>
        ensures { IfOk result (λ need. (answer : Done) → need ≡ 23 + length (reply_for self.now request.now target answer).body) }
    {
        match request {
            Ok(
                Request::GetLogInfo {
                    options,
                    apid,
                    ctid,
                },
            ) => self.info_need(*options, *apid, *ctid),
            Ok(Request::GetDefault) => Ok(DEFAULT_REPLY),
            Ok(Request::Version) => Ok(version_need(self.software)),
            Ok(
                Request::SetLogLevel { .. }
                | Request::SetAllLogLevel { .. }
                | Request::Store
                | Request::Reset
                | Request::SetDefault { .. }
                | Request::Inject { .. }
                | Request::Other { .. },
            )
            | Err(RequestFault::Short { .. } | RequestFault::Excess { .. }) => Ok(BARE_REPLY),
        }
    }

    /// How many bytes the reply to GetLogInfo has.
    fn info_need(&self, options: u8, apid: Id, ctid: Id) -> Result<u64, OutOfMemory>
        ensures { IfOk result (λ need. need ≡ 23 + length (info_reply self.now.registry.registry options apid ctid).body) }
    {
        if options != 6 && options != 7 {
            return Ok(BARE_REPLY);
        }
        match self.registry.info(options, apid, ctid) {
            Ok(body) => Ok(BARE_REPLY + body.all().len() as u64),
            Err(InfoFault::Nobody | InfoFault::TooLong) => Ok(BARE_REPLY),
            Err(InfoFault::OutOfMemory) => Err(OutOfMemory),
        }
    }

    /// The frame of a reply that has a body. Such a request changes nothing, and wants nothing.
    fn long_reply(
        &mut self,
        request: &Result<Request, RequestFault>,
        target: (Id, Id),
    ) -> Result<Option<Bytes>, OutOfMemory>
        ensures unchanged { self.new ≡ self.old }
        ensures long { IfOk result (λ reply. IfSome reply (λ bytes. (answer : Done) →
            (bytes ≡ frame_for self.old request.now target answer) × (length bytes ≤ 65535))) }
        ensures kind { IfOk result (λ reply. is_some reply ≡ serving.has_body request.now) }
    {
        if !has_body(request) {
            return Ok(None);
        }
        let reply = self.serve(request, target, Want::Nothing, Done::Yes)?;
        match write_reply(self.alloc, self.ecu, &reply) {
            Ok(frame) => Ok(Some(frame)),
            Err(_) => Err(OutOfMemory),
        }
    }

    /// Serves a request, and puts its reply into the client's stream: the one that was written, or one without a body.
    fn answer(
        &mut self,
        client: u32,
        request: &Result<Request, RequestFault>,
        target: (Id, Id),
        want: Want,
        reply: Option<Bytes>,
        done: Done,
    )
        requires want { want ≡ wanted_for self.old request.now target }
        requires long { IsReplyFor self.old request.now target done reply }
        requires kind { is_some reply ≡ serving.has_body request.now }
        requires open { IsSome (outbox_of self.old.hub client) }
        requires few { IsSomeAnd (client_of self.old.hub client) (λ c. c.replies < request_limit) }
        requires room { HasRoom (length (frame_for self.old request.now target done)) self.old.hub client }
        ensures registry { self.new.registry ≡ served_for self.old request.now done }
        ensures reply { hub.Adds (traffic.Reply client (frame_for self.old request.now target done)) self.old.hub self.new.hub }
        ensures value { self.new.hub ≡ changed client (with_reply (frame_for self.old request.now target done)) self.old.hub }
        ensures rest { self.new ≡ record self.old { registry = self.new.registry; hub = self.new.hub } }
    {
        match reply {
            Some(reply) => self.hub.reply(client, reply.all()),
            None => self.serve_bare(client, request, target, want, done),
        }
    }

    /// Serves a request whose reply has no body.
    fn serve_bare(
        &mut self,
        client: u32,
        request: &Result<Request, RequestFault>,
        target: (Id, Id),
        want: Want,
        done: Done,
    )
        requires want { want ≡ wanted_for self.old request.now target }
        requires bare { (reply_for self.old request.now target done).body ≡ [] }
        requires open { IsSome (outbox_of self.old.hub client) }
        requires few { IsSomeAnd (client_of self.old.hub client) (λ c. c.replies < request_limit) }
        requires room { HasRoom (length (frame_for self.old request.now target done)) self.old.hub client }
        ensures registry { self.new.registry ≡ served_for self.old request.now done }
        ensures reply { hub.Adds (traffic.Reply client (frame_for self.old request.now target done)) self.old.hub self.new.hub }
        ensures value { self.new.hub ≡ changed client (with_reply (frame_for self.old request.now target done)) self.old.hub }
        ensures rest { self.new ≡ record self.old { registry = self.new.registry; hub = self.new.hub } }
    {
        match self.serve(request, target, want, done) {
            Ok(reply) => {
                let frame = bare_reply(self.ecu, &reply);
                self.hub.reply(client, frame.bytes());
            }
            Err(OutOfMemory) => {}
        }
    }

    /// Serves a request: the registry becomes what it makes of it. Memory is taken for a reply with a body alone.
    fn serve(
        &mut self,
        request: &Result<Request, RequestFault>,
        target: (Id, Id),
        want: Want,
        done: Done,
    ) -> Result<Reply, OutOfMemory>
        requires { want ≡ wanted_for self.old request.now target }
        ensures reply { IfOk result (λ reply. reply ≡ reply_for self.old request.now target done) }
        ensures memory { OnErr result (0 < length (reply_for self.old request.now target done).body) }
        ensures registry { self.new.registry ≡ served_for self.old request.now done }
        ensures rest { self.new ≡ record self.old { registry = self.new.registry } }
    {
        serve(
            self.alloc,
            &mut self.registry,
            request,
            target,
            self.software,
            self.injection,
            self.level,
            want,
            done,
        )
    }
}

/// How many bytes the reply of this program to GetSoftwareVersion has.
fn version_need(software: Software) -> u64
    ensures { result ≡ 23 + length (version_reply software).body }
{
    match software {
        Software::Run => BARE_REPLY + 13,
        Software::Daemon => BARE_REPLY + 16,
    }
}

/// What a message asks, or the fault that its payload has, and for which ids.
fn asked_by(frame: &[u8]) -> (Result<Request, RequestFault>, (Id, Id))
    requires { IsRequest frame.now }
    ensures request { result.0 ≡ asked frame.now }
    ensures target { result.1 ≡ (apid_of frame.now, ctid_of frame.now) }
{
    let parts = read_message(frame).unwrap();
    let order = if Htyp(parts.standard.htyp).has_big_numbers() {
        Order::Big
    } else {
        Order::Little
    };
    let start = parts.start;
    let request = read_request(&frame[start..], order);
    let head = parts.extended.unwrap();
    (request, (head.apid, head.ctid))
}

/// Whether the reply to it has a body.
fn has_body(request: &Result<Request, RequestFault>) -> bool
    ensures { result ≡ serving.has_body request.now }
{
    matches!(
        request,
        Ok(Request::GetLogInfo { .. } | Request::GetDefault | Request::Version)
    )
}

/// Has the folder do what a request wants of it, and tells what came of it.
fn carry_out<F: Folder>(want: &Want, pushed: bool, folder: &mut F) -> Done
    ensures answers { Answers want.now pushed result (F.told folder.old) (F.told folder.new) }
    ensures asked { Asks want.now (F.told folder.old) (F.told folder.new) }
{
    match want {
        Want::Nothing => Done::Yes,
        Want::Put(text, _) => done_by(folder.put(STORED_NAME, text.all())),
        Want::Remove => done_by(folder.remove(STORED_NAME)),
        Want::Inject(_, _) if pushed => Done::Yes,
        Want::Inject(_, _) => Done::Failed,
    }
}

/// What came of it, by the folder's answer.
fn done_by(answer: Result<(), FolderFault>) -> Done
    ensures { result ≡ serving.done_by answer }
{
    match answer {
        Ok(()) => Done::Yes,
        Err(FolderFault::Failed) => Done::Failed,
        Err(FolderFault::OutOfMemory) => Done::NoMemory,
    }
}

/// The frame of a reply without a body.
fn bare_reply(ecu: Id, reply: &Reply) -> Frame
    requires { reply.now.body ≡ [] }
    ensures value { result ≡ control_reply ecu reply.now }
    ensures len { length result ≡ 23 }
{
    let (apid, ctid) = (Id::from_bytes(DAEMON_APID), Id::from_bytes(DAEMON_CTID));
    let mut frame = Frame::new();
    write_reply_headers(&mut frame, ecu, apid, ctid, REPLY_HEADER_LEN + 5);
    frame.extend_from_slice(&reply.service.to_le_bytes());
    frame.extend_from_slice(&[reply.status]);
    frame
}
