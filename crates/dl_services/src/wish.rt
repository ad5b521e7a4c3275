//! What a request wants done before it is served.

ghost use Rattle.std.specs.Prelude.{◌≡◌, IfOk, OnErr, Ok};
ghost use Rattle.std.specs.Result.{result_ok};
ghost use Rattle.dl_model.specs.Reply.{injected};
ghost use Rattle.dl_model.specs.Setting.{Setting};
ghost use Rattle.dl_control.specs.declared.request.Request.TheVariants as asked;
ghost use Rattle.dl_model.specs.Registry.{reset};
ghost use Rattle.dl_registry.specs.Kept.{slots};
ghost use Rattle.dl_services.specs.Wish.{stores, removes, sends, target_of, number_and_place, Wants};

use dl_bytes::{Bytes, Id, Injection, Level, OutOfMemory, Payload, Stored};
use dl_conf::write_stored;
use dl_control::{Request, RequestFault};
use dl_registry::Registry;
use std::alloc::Global;

/// What a request wants of the folder that has the stored configuration, or of the queue of an application.
#[derive(Drop)]
pub enum Want {
    /// Nothing: the request is served as it is.
    Nothing,
    /// The stored configuration is to be written: the bytes of its file, and the levels that they tell.
    Put(Bytes, Stored),
    /// The file of the stored configuration is to be removed.
    Remove,
    /// Data are to be put into the queue of the application with this number.
    Inject(u8, Injection),
}

/// The channel of the applications of this process.
const THIS_PROCESS: u16 = 0;

/// What a request wants. `target` is APID and CTID of its message, `injection` whether clients may send data to
/// applications, `level` the level of `ContextLogLevel`. Only a Store takes memory.
pub fn wish_of(
    alloc: Global,
    registry: &Registry,
    request: &Result<Request, RequestFault>,
    target: (Id, Id),
    injection: bool,
    level: Level,
) -> Result<Want, OutOfMemory>
    ensures want { IfOk result (Wants injection level registry.now target request.now) }
    ensures memory { OnErr result (request.now ≡ Ok asked.Store) }
{
    match request {
        Ok(Request::Store) => to_store(alloc, registry),
        Ok(Request::Reset) => Ok(to_reset(registry, level)),
        Ok(Request::Inject { service, body }) => {
            Ok(to_inject(registry, target, injection, *service, body))
        }
        Ok(
            Request::SetLogLevel { .. }
            | Request::SetAllLogLevel { .. }
            | Request::GetLogInfo { .. }
            | Request::GetDefault
            | Request::SetDefault { .. }
            | Request::Version
            | Request::Other { .. },
        )
        | Err(RequestFault::Short { .. } | RequestFault::Excess { .. }) => Ok(Want::Nothing),
    }
}

/// The default level and all own levels, to be written.
fn to_store(alloc: Global, registry: &Registry) -> Result<Want, OutOfMemory>
    ensures { IfOk result (λ want. want ≡ stores registry.now.registry) }
{
    let stored = registry.stored_now()?;
    let text = write_stored(alloc, registry.default_level(), &stored)?;
    Ok(Want::Put(text, stored))
}

/// The file is to be removed, where the registry can be reset.
fn to_reset(registry: &Registry, level: Level) -> Want
    ensures { result ≡ removes (result_ok (reset (slots registry.now) registry.now.registry level)) }
{
    if registry.reset_fits(level) {
        Want::Remove
    } else {
        Want::Nothing
    }
}

/// Data for the context that has both ids, where it is one of this process.
fn to_inject(
    registry: &Registry,
    target: (Id, Id),
    injection: bool,
    service: u32,
    body: &Payload,
) -> Want
    ensures { (setting : Setting) → setting.injection ≡ injection → result ≡ sends service body.now (injected setting registry.now.registry target.0 target.1) }
{
    if !injection {
        return Want::Nothing;
    }
    match context_of(registry, target.0, target.1) {
        Some((app, place)) => {
            let body = body.copy();
            let injection = Injection {
                place,
                service,
                body,
            };
            Want::Inject(app, injection)
        }
        None => Want::Nothing,
    }
}

/// The application's number and the context's place, where both ids are a context of this process.
fn context_of(registry: &Registry, apid: Id, ctid: Id) -> Option<(u8, u8)>
    ensures { result ≡ number_and_place (target_of registry.now.registry apid ctid) }
{
    let slot = registry.find(apid, ctid)?;
    let app = (slot / 64) as u8;
    let place = (slot % 64) as u8;
    if registry.channel_of(app)? == THIS_PROCESS {
        Some((app, place))
    } else {
        None
    }
}
