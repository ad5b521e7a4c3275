//! An application of this process, with its contexts.

ghost use Rattle.std.specs.Prelude.{◌≡◌, ◌<◌, ◌≤◌, ◌+◌, List, length, true, IfOk, IfSome, IfNone, OnErr, MatchResult, All, Some, Ok, Err, slice_get};
ghost use Rattle.std.specs.Borrow.{sem};
ghost use Rattle.dl_bytes.specs.UserMessage.{IsFit};
ghost use Rattle.dl_desk.specs.Apps.{context_fault, contexts, declared_app, is_registered, next_context, registers, with_context};
ghost use Rattle.dl_desk.specs.Lending.{LendsApp};
ghost use Rattle.dl_desk.specs.Made.{IsAppOf, IsMadeWith, IsUnused, MakesWriter, writer_fault};
ghost use Rattle.dl_desk.specs.declared.fault.AppFault.{AppFault};
ghost use Rattle.dl_desk.specs.declared.fault.WriterFault.{WriterFault};

use crate::desk::Desk;
use crate::fault::{AppFault, WriterFault};
use dl_bytes::{
    AppSpec, Bytes, CONTEXT_LIMIT, Ctx, Id, OutOfMemory, OwnLevel, TEXT_LIMIT, UserMsg,
};
use dl_writer::{Owner, Writer};
use std::alloc::Global;
use std::marker::Model;

// The process id of an application of this process.
const NO_PROCESS: u32 = 0;

// The trace status that a context asks for: none of its own.
const NO_TRACE_STATUS: i8 = -1;

/// An application of a desk: it declares contexts, and makes a writer for each thread that logs.
#[derive(Drop)]
pub struct App {
    number: u8,
    apid: Id,
    // its registration, and then those of its contexts
    hello: Vec<UserMsg>,
    // whether a writer of it was made
    started: bool,
}

impl Model for App {
    ghost use Rattle.dl_desk.specs.Apps.{AppState};
    ghost use Rattle.dl_desk.specs.AppInside.{app_state, IsApp};

    ghost Value = { AppState };

    ghost view = { app_state };

    ghost invariant = { IsApp };
}

impl App {
    /// The application of this number, without contexts.
    pub(crate) fn declared(alloc: Global, number: u8, spec: &AppSpec) -> Result<App, OutOfMemory>
        requires number { number < 16 }
        requires text { length spec.now.text ≤ 255 }
        ensures { IfOk result (λ app. app ≡ declared_app number spec.now) }
    {
        let text = copied(alloc, spec.text.all())?;
        let own = UserMsg::RegisterApp {
            apid: spec.apid,
            pid: NO_PROCESS,
            text,
        };
        let mut hello = Vec::new(alloc);
        hello.push(own)?;
        Ok(App {
            number,
            apid: spec.apid,
            hello,
            started: false,
        })
    }

    /// Declares a context with its description, at most 255 bytes, and the level that it asks for. The handle is what its
    /// calls are logged under. Once a writer of the application was made the answer is `Started`: further contexts are for
    /// its writers to claim.
    pub fn context(&mut self, ctid: Id, text: &[u8], level: OwnLevel) -> Result<Ctx, AppFault>
        ensures fault { IfSome (context_fault self.old ctid text.now) (λ fault. result ≡ Err fault) }
        ensures memory { IfNone (context_fault self.old ctid text.now) (MatchResult result (λ _. Unit {0}) (λ fault. fault ≡ AppFault.OutOfMemory)) }
        ensures refused { OnErr result (self.new ≡ self.old) }
        ensures handle { IfOk result (λ ctx. ctx ≡ next_context self.old ctid) }
        ensures declared { IfOk result (λ _. self.new ≡ with_context self.old ctid level text.now) }
    {
        if self.started {
            return Err(AppFault::Started);
        }
        if self.hello.len() > CONTEXT_LIMIT {
            return Err(AppFault::ContextsFull);
        }
        if self.registers(ctid) {
            return Err(AppFault::Twice);
        }
        if text.len() > TEXT_LIMIT {
            return Err(AppFault::TooLong);
        }
        let text = copied(*self.hello.allocator(), text)?;
        let place = self.contexts();
        self.add(ctid, text, level)?;
        Ok(Ctx::of(self.number, place, self.apid, ctid))
    }

    /// What the application tells the daemon of itself: its registration, and then those of its contexts, in the order in
    /// which they were declared.
    pub fn hello(&self) -> &[UserMsg]
        ensures value { result.now ≡ self.now.hello }
        ensures fit { All IsFit result.now }
    {
        &self.hello
    }

    /// A writer for a thread of the application, which was made with this desk. Its number is one more than that of the
    /// writer made before, whatever application that is of. It takes the memory for the claims of contexts that will wait
    /// for the ring.
    pub fn writer(&mut self, desk: &mut Desk) -> Result<Writer, WriterFault>
        requires { IsAppOf desk.old self.old }
        ensures fault { IfSome (writer_fault desk.old) (λ fault. result ≡ Err fault) }
        ensures memory { IfNone (writer_fault desk.old) (MatchResult result (λ _. Unit {0}) (λ fault. fault ≡ WriterFault.OutOfMemory)) }
        ensures refused { OnErr result (desk.new ≡ desk.old) }
        ensures same { OnErr result (self.new ≡ self.old) }
        ensures started { IfOk result (λ _. self.new ≡ record self.old { started = true }) }
        ensures number { IfOk result (λ w. w.push.number ≡ length desk.old.owners + 1) }
        ensures app { IfOk result (λ w. w.app ≡ self.old.number) }
        ensures apid { IfOk result (λ w. w.apid ≡ self.old.apid) }
        ensures base { IfOk result (λ w. w.base ≡ contexts self.old) }
        ensures unused { IfOk result IsUnused }
        ensures made { IfOk result (λ w. IsMadeWith desk.new w) }
        ensures desk { IfOk result (λ _. MakesWriter self.old.number desk.old desk.new) }
    {
        let owner = Owner {
            app: self.number,
            apid: self.apid,
            base: self.contexts(),
        };
        let writer = desk.make_writer(owner)?;
        self.started = true;
        Ok(writer)
    }
}

impl App {
    // How many contexts it has, at most 64.
    fn contexts(&self) -> u8
        ensures value { result ≡ contexts self.now }
        ensures range { result ≤ 64 }
    {
        (self.hello.len() - 1) as u8
    }

    // Whether it has a context of this id.
    fn registers(&self, ctid: Id) -> bool
        ensures { result ≡ is_registered ctid self.now.hello }
    {
        self.hello.iter().any(|msg| is_of(msg, ctid))
    }

    // Adds the registration of a context.
    fn add(&mut self, ctid: Id, text: Bytes, level: OwnLevel) -> Result<(), OutOfMemory>
        requires few { length self.old.hello ≤ 64 }
        requires text { length text ≤ 255 }
        ensures added { IfOk result (λ _. self.new ≡ with_context self.old ctid level text) }
        ensures refused { OnErr result (self.new ≡ self.old) }
    {
        self.hello.push(UserMsg::RegisterContext {
            apid: self.apid,
            ctid,
            position: 0,
            level,
            trace: NO_TRACE_STATUS,
            pid: NO_PROCESS,
            text,
        })?;
        Ok(())
    }
}

// Whether the message registers a context of this id.
fn is_of(msg: &UserMsg, ctid: Id) -> bool
    ensures { result ≡ registers ctid msg.now }
{
    match msg {
        UserMsg::RegisterContext { ctid: other, .. } => *other == ctid,
        _ => false,
    }
}

// A copy of a description.
pub(crate) fn copied(alloc: Global, text: &[u8]) -> Result<Bytes, OutOfMemory>
    ensures { IfOk result (λ copy. copy ≡ text.now) }
{
    Ok(Bytes::over(Vec::from_slice(alloc, text)?))
}

/// The applications of a desk, in the order of their numbers.
#[derive(Drop)]
pub struct AppList {
    pub(crate) apps: Vec<App>,
}

impl Model for AppList {
    ghost use Rattle.std.specs.Prelude.{List, ◌≤◌, length};
    ghost use Rattle.dl_desk.specs.Apps.{AppState};

    ghost Value = { List AppState };

    ghost view = { λ l. l.apps.items };

    ghost invariant = { λ l. length l.apps.items ≤ 16 };
}

impl AppList {
    /// How many applications there are.
    pub fn len(&self) -> u32
        ensures { result ≡ length self.now }
    {
        self.apps.len() as u32
    }

    /// The application at this place, from 0.
    pub fn of(&self, place: u32) -> &App
        requires { place < length self.now }
        ensures { slice_get self.now place ≡ Some result.now }
    {
        &self.apps[place as usize]
    }

    /// The application at this place, from 0, to call it.
    pub fn of_mut(&mut self, place: u32) -> &mut App
        requires { place < length self.old }
        ensures value { slice_get self.old place ≡ Some result.now }
        ensures* writes_back { sem 𝓛 (LendsApp self.entry place result) }
    {
        &mut self.apps[place as usize]
    }
}
