//! What a message registers.

ghost use Rattle.std.specs.Prelude.{◌≡◌};
ghost use Rattle.dl_channel_turns.specs.Levels.{registration_of, unless_refused};

use dl_bytes::{Id, UserMsg};
use dl_registry::RegistryFault;

/// A context that registers.
#[derive(Clone, Copy)]
pub struct Registration {
    pub apid: Id,
    pub ctid: Id,
    /// Where it stands in its program's own table.
    pub position: u32,
}

/// What a message registers, where it registers a context.
pub fn registration_in(msg: &UserMsg) -> Option<Registration>
    ensures { result ≡ registration_of msg.now }
{
    match msg {
        UserMsg::RegisterContext {
            apid,
            ctid,
            position,
            ..
        } => Some(Registration {
            apid: *apid,
            ctid: *ctid,
            position: *position,
        }),
        UserMsg::RegisterApp { .. }
        | UserMsg::UnregisterApp { .. }
        | UserMsg::UnregisterContext { .. }
        | UserMsg::Log(_)
        | UserMsg::LogLevel { .. }
        | UserMsg::Injection { .. }
        | UserMsg::Overflow { .. } => None,
    }
}

/// What was asked for, where it was not refused.
pub fn accepted(asked: Option<Registration>, refusal: Option<RegistryFault>) -> Option<Registration>
    ensures { result ≡ unless_refused refusal asked }
{
    match refusal {
        None => asked,
        Some(_) => None,
    }
}
