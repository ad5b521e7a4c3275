//! The fields of a known length, by kind of user message. Each reader gives nothing where bytes are missing.

ghost use Rattle.dl_bytes.specs.Number.{at, Gives};
ghost use Rattle.dl_user.specs.Fields.{signed_at, app_at, unregister_app_at, context_at, unregister_context_at, setting_at, service_at, overflow_at};

use dl_bytes::{Cursor, Id, UserMsg};

/// Kind 2, before the text.
#[derive(Clone, Copy)]
pub struct AppFields {
    /// The application's id.
    pub apid: Id,
    /// The process id of the application.
    pub pid: u32,
    /// The length of the text in bytes.
    pub len: u32,
}

/// Kind 4, before the text.
#[derive(Clone, Copy)]
pub struct ContextFields {
    /// The application's id.
    pub apid: Id,
    /// The context's id.
    pub ctid: Id,
    /// The context's place in the application's own table.
    pub position: u32,
    /// The log level that it registers with, which is still to be judged.
    pub level: i8,
    /// The trace status.
    pub trace: i8,
    /// The process id of the application.
    pub pid: u32,
    /// The length of the text in bytes.
    pub len: u32,
}

/// Kind 6.
#[derive(Clone, Copy)]
pub struct SettingFields {
    /// The log level, which is still to be judged.
    pub level: u8,
    /// The trace status.
    pub trace: i8,
    /// The context's place in the application's own table.
    pub position: u32,
}

/// Kind 7, before the body.
#[derive(Clone, Copy)]
pub struct ServiceFields {
    /// The context's place in the application's own table.
    pub position: u32,
    /// The service id.
    pub service: u32,
    /// The length of the body in bytes.
    pub len: u32,
}

/// A signed number of one byte.
#[tactic(auto, unfolding(crate::specs::Fields::signed_at))]
fn signed(cursor: &mut Cursor) -> Option<i8>
    ensures { Gives (λ x. x) result cursor.new (signed_at (at cursor.old)) }
{
    let byte = cursor.u8()?;
    Some(byte.cast_signed())
}

/// The fields of kind 2 before the text.
#[tactic(auto, unfolding(crate::specs::Fields::app_at))]
pub fn app(cursor: &mut Cursor) -> Option<AppFields>
    ensures { Gives (λ x. x) result cursor.new (app_at (at cursor.old)) }
{
    let apid = cursor.id()?;
    let pid = cursor.u32()?;
    let len = cursor.u32()?;
    Some(AppFields { apid, pid, len })
}

/// Kind 3, which has no other fields.
#[tactic(auto, unfolding(crate::specs::Fields::unregister_app_at))]
pub fn unregister_app(cursor: &mut Cursor) -> Option<UserMsg>
    ensures { Gives (λ x. x) result cursor.new (unregister_app_at (at cursor.old)) }
{
    let apid = cursor.id()?;
    let pid = cursor.u32()?;
    Some(UserMsg::UnregisterApp { apid, pid })
}

/// The fields of kind 4 before the text.
#[tactic(auto, unfolding(crate::specs::Fields::context_at))]
pub fn context(cursor: &mut Cursor) -> Option<ContextFields>
    ensures { Gives (λ x. x) result cursor.new (context_at (at cursor.old)) }
{
    let apid = cursor.id()?;
    let ctid = cursor.id()?;
    let position = cursor.u32()?;
    let level = signed(cursor)?;
    let trace = signed(cursor)?;
    let pid = cursor.u32()?;
    let len = cursor.u32()?;
    Some(ContextFields {
        apid,
        ctid,
        position,
        level,
        trace,
        pid,
        len,
    })
}

/// Kind 5, which has no other fields.
#[tactic(auto, unfolding(crate::specs::Fields::unregister_context_at))]
pub fn unregister_context(cursor: &mut Cursor) -> Option<UserMsg>
    ensures { Gives (λ x. x) result cursor.new (unregister_context_at (at cursor.old)) }
{
    let apid = cursor.id()?;
    let ctid = cursor.id()?;
    let pid = cursor.u32()?;
    Some(UserMsg::UnregisterContext { apid, ctid, pid })
}

/// The fields of kind 6.
#[tactic(auto, unfolding(crate::specs::Fields::setting_at))]
pub fn setting(cursor: &mut Cursor) -> Option<SettingFields>
    ensures { Gives (λ x. x) result cursor.new (setting_at (at cursor.old)) }
{
    let level = cursor.u8()?;
    let trace = signed(cursor)?;
    let position = cursor.u32()?;
    Some(SettingFields {
        level,
        trace,
        position,
    })
}

/// The fields of kind 7 before the body.
#[tactic(auto, unfolding(crate::specs::Fields::service_at))]
pub fn service(cursor: &mut Cursor) -> Option<ServiceFields>
    ensures { Gives (λ x. x) result cursor.new (service_at (at cursor.old)) }
{
    let position = cursor.u32()?;
    let service = cursor.u32()?;
    let len = cursor.u32()?;
    Some(ServiceFields {
        position,
        service,
        len,
    })
}

/// Kind 8, which has no other fields.
#[tactic(auto, unfolding(crate::specs::Fields::overflow_at))]
pub fn overflow(cursor: &mut Cursor) -> Option<UserMsg>
    ensures { Gives (λ x. x) result cursor.new (overflow_at (at cursor.old)) }
{
    let counter = cursor.u32()?;
    let apid = cursor.id()?;
    Some(UserMsg::Overflow { counter, apid })
}
