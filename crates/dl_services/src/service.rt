//! Serving a request: what it makes of the registry, and the reply.

ghost use Rattle.std.specs.Prelude.{◌≡◌, ◌<◌, ◌∷◌, [], ◌++◌, Option, IfOk, OnErr, length, unwrap_or};
ghost use Rattle.std.specs.Result.{result_ok};
ghost use Rattle.dl_bytes.specs.Payload.{Arguments};
ghost use Rattle.dl_model.specs.declared.context.Context.{Context};
ghost use Rattle.dl_model.specs.Registry.{App, reset};
ghost use Rattle.dl_model.specs.Reply.{bare, own_requested, default_requested, status_of, done_status, reset_status, inject_status, info_reply, now_stored, where_done, version_name, version_reply};
ghost use Rattle.dl_registry.specs.Kept.{slots, with_registry};
ghost use Rattle.dl_services.specs.Service.{Replies, Leaves, HasBody};
ghost use Rattle.dl_services.specs.Wish.{stores, removes, sends, Wants};

use crate::status::{DONE, FAILED, NO_CONTEXT, NOT_SUPPORTED, TOO_LONG, folder_status};
use crate::wish::Want;
use dl_bytes::{Bytes, Done, Id, Level, OutOfMemory, OwnLevel};
use dl_control::{Reply, Request, RequestFault};
use dl_model::{SetFault, Software};
use dl_registry::{InfoFault, Registry};
use std::alloc::Global;

/// The service ids of requests that are no injections.
mod id {
    pub const SET_LOG_LEVEL: u32 = 0x01;

    pub const GET_LOG_INFO: u32 = 0x03;

    pub const GET_DEFAULT: u32 = 0x04;

    pub const STORE: u32 = 0x05;

    pub const RESET: u32 = 0x06;

    pub const SET_DEFAULT: u32 = 0x11;

    pub const VERSION: u32 = 0x13;

    pub const SET_ALL_LOG_LEVEL: u32 = 0xf08;
}

/// The id that means all.
const ALL: [u8; 4] = [0; 4];

/// The name of a program's version.
fn version_name(software: Software) -> &'static [u8]
    ensures { result.now ≡ version_name software }
{
    match software {
        Software::Run => b"dlt_run 1",
        Software::Daemon => b"dlt_daemon 1",
    }
}

/// Serves a request: the registry becomes what the request makes of it, and the reply tells how it went. `target` is APID
/// and CTID of the request's message, `software` the program that is asked, `injection` whether clients may send data to applications, `level` the level of
/// `ContextLogLevel`, `wish` what `wish_of` gave for the same of these, and `done` what came of it; where nothing was
/// wished it is not looked at. Memory is taken for the body of a reply alone.
pub fn serve(
    alloc: Global,
    registry: &mut Registry,
    request: &Result<Request, RequestFault>,
    target: (Id, Id),
    software: Software,
    injection: bool,
    level: Level,
    wish: Want,
    done: Done,
) -> Result<Reply, OutOfMemory>
    requires { Wants injection level registry.old target request.now wish }
    ensures reply { IfOk result (Replies software injection level registry.old target request.now done) }
    ensures registry { Leaves injection level registry.old request.now done registry.new }
    ensures memory { OnErr result (HasBody software injection level registry.old target request.now done) }
    ensures unchanged { OnErr result (registry.new ≡ registry.old) }
{
    match request {
        Ok(Request::SetLogLevel { apid, ctid, level }) => {
            let status = set_own(registry, *apid, *ctid, *level);
            Ok(bare(alloc, id::SET_LOG_LEVEL, status))
        }
        Ok(Request::SetAllLogLevel { level }) => {
            let status = set_own(registry, Id::from_bytes(ALL), Id::from_bytes(ALL), *level);
            Ok(bare(alloc, id::SET_ALL_LOG_LEVEL, status))
        }
        Ok(
            Request::GetLogInfo {
                options,
                apid,
                ctid,
            },
        ) => log_info(alloc, registry, *options, *apid, *ctid),
        Ok(Request::GetDefault) => default_level(alloc, registry),
        Ok(Request::Store) => Ok(store(alloc, registry, wish, done)),
        Ok(Request::Reset) => Ok(reset(alloc, registry, level, wish, done)),
        Ok(Request::SetDefault { level }) => Ok(set_default(alloc, registry, *level)),
        Ok(Request::Version) => version(alloc, software),
        Ok(Request::Inject { service, .. }) => Ok(inject(alloc, *service, wish, done)),
        Ok(Request::Other { service }) => Ok(bare(alloc, *service, NOT_SUPPORTED)),
        Err(RequestFault::Short { service } | RequestFault::Excess { service }) => {
            Ok(bare(alloc, *service, FAILED))
        }
    }
}

/// A reply without a body.
fn bare(alloc: Global, service: u32, status: u8) -> Reply
    ensures { result ≡ bare service status }
{
    let body = Bytes::over(Vec::new(alloc));
    Reply {
        service,
        status,
        body,
    }
}

/// SetLogLevel, and SetAllLogLevel with both ids zero: the own level of all contexts that match. It gives the reply's status.
fn set_own(registry: &mut Registry, apid: Id, ctid: Id, level: i8) -> u8
    ensures status { result ≡ status_of (own_requested (slots registry.old) registry.old.registry apid ctid level) }
    ensures registry { registry.new ≡ with_registry registry.old (unwrap_or (own_requested (slots registry.old) registry.old.registry apid ctid level) registry.old.registry) }
{
    let Some(own) = OwnLevel::of(level) else {
        return FAILED;
    };
    match registry.set_own(apid, ctid, own) {
        Ok(_) => DONE,
        Err(SetFault::Nobody | SetFault::Worn) => FAILED,
    }
}

/// SetDefaultLogLevel.
fn set_default(alloc: Global, registry: &mut Registry, level: u8) -> Reply
    ensures reply { result ≡ bare 0x11 (status_of (default_requested (slots registry.old) registry.old.registry level)) }
    ensures registry { registry.new ≡ with_registry registry.old (unwrap_or (default_requested (slots registry.old) registry.old.registry level) registry.old.registry) }
{
    let Some(level) = Level::of(level) else {
        return bare(alloc, id::SET_DEFAULT, FAILED);
    };
    match registry.set_default(level) {
        Ok(()) => bare(alloc, id::SET_DEFAULT, DONE),
        Err(SetFault::Nobody | SetFault::Worn) => bare(alloc, id::SET_DEFAULT, FAILED),
    }
}

/// StoreConfiguration: what was written is what is stored.
fn store(alloc: Global, registry: &mut Registry, wish: Want, done: Done) -> Reply
    requires { wish ≡ stores registry.old.registry }
    ensures reply { result ≡ bare 0x05 (done_status done) }
    ensures registry { registry.new ≡ with_registry registry.old (where_done done (now_stored registry.old.registry) registry.old.registry) }
{
    if let (Want::Put(_, stored), Done::Yes) = (wish, done) {
        registry.keep(stored);
    }
    bare(alloc, id::STORE, folder_status(done))
}

/// ResetToFactoryDefault: where the file is gone, so are all levels that were set.
fn reset(alloc: Global, registry: &mut Registry, level: Level, wish: Want, done: Done) -> Reply
    requires { wish ≡ removes (result_ok (reset (slots registry.old) registry.old.registry level)) }
    ensures reply { result ≡ bare 0x06 (reset_status (result_ok (reset (slots registry.old) registry.old.registry level)) done) }
    ensures registry { registry.new ≡ with_registry registry.old (where_done done
        (unwrap_or (result_ok (reset (slots registry.old) registry.old.registry level)) registry.old.registry) registry.old.registry) }
{
    let Want::Remove = wish else {
        return bare(alloc, id::RESET, FAILED);
    };
    if done == Done::Yes {
        registry.reset(level).unwrap();
    }
    bare(alloc, id::RESET, folder_status(done))
}

/// GetLogInfo.
fn log_info(
    alloc: Global,
    registry: &Registry,
    options: u8,
    apid: Id,
    ctid: Id,
) -> Result<Reply, OutOfMemory>
    ensures reply { IfOk result (λ reply. reply ≡ info_reply registry.now.registry options apid ctid) }
    ensures memory { OnErr result (0 < length (info_reply registry.now.registry options apid ctid).body) }
{
    if options != 6 && options != 7 {
        return Ok(bare(alloc, id::GET_LOG_INFO, NOT_SUPPORTED));
    }
    match registry.info(options, apid, ctid) {
        Ok(body) => Ok(Reply {
            service: id::GET_LOG_INFO,
            status: options,
            body,
        }),
        Err(InfoFault::Nobody) => Ok(bare(alloc, id::GET_LOG_INFO, NO_CONTEXT)),
        Err(InfoFault::TooLong) => Ok(bare(alloc, id::GET_LOG_INFO, TOO_LONG)),
        Err(InfoFault::OutOfMemory) => Err(OutOfMemory),
    }
}

/// GetDefaultLogLevel.
fn default_level(alloc: Global, registry: &Registry) -> Result<Reply, OutOfMemory>
    ensures { IfOk result (λ reply. reply ≡ record { service = 0x04; status = 0; body = registry.now.registry.level ∷ [] }) }
{
    let level = registry.default_level().number();
    let body = Vec::from_slice(alloc, &[level])?;
    Ok(Reply {
        service: id::GET_DEFAULT,
        status: DONE,
        body: Bytes::over(body),
    })
}

/// GetSoftwareVersion: the name behind its length.
fn version(alloc: Global, software: Software) -> Result<Reply, OutOfMemory>
    ensures { IfOk result (λ reply. reply ≡ version_reply software) }
{
    let name = version_name(software);
    let mut body = Vec::with_capacity(alloc, 4 + name.len())?;
    body.extend_from_slice(&(name.len() as u32).to_le_bytes())?;
    body.extend_from_slice(name)?;
    Ok(Reply {
        service: id::VERSION,
        status: DONE,
        body: Bytes::over(body),
    })
}

/// An injection: whether its data went into the queue.
fn inject(alloc: Global, service: u32, wish: Want, done: Done) -> Reply
    ensures { (body : Arguments) (target : Option (App × Context)) → wish ≡ sends service body target → result ≡ bare service (inject_status target done) }
{
    match (wish, done) {
        (Want::Inject(_, _), Done::Yes) => bare(alloc, service, DONE),
        _ => bare(alloc, service, FAILED),
    }
}
