//! Reading a user message from the front of a channel's bytes.

ghost use Rattle.std.specs.Prelude.{◌≡◌, IfOk};
ghost use Rattle.dl_bytes.specs.Number.{At, at};
ghost use Rattle.dl_user.specs.Front.{IsFront};
ghost use Rattle.dl_user.specs.Reading.{Returns, Copies, limited_at, registered_level as registered_level_of, inner_len as inner_len_of, log_at, register_app_at, register_context_at, log_level_at, injection_at, kind_at, fields_at, message_at};

use crate::fault::{ReadError, Stop, UserFault};
use crate::fields;
use crate::write::MARKER;
use dl_bytes::{
    Bytes, Cursor, FRAME_LIMIT, Level, Order, OutOfMemory, OwnLevel, PAYLOAD_LIMIT, TEXT_LIMIT,
    UserMsg,
};
use dl_headers::{HeaderFault, read_front};
use std::alloc::Global;

/// Bytes of their own memory.
fn copied(alloc: Global, bytes: &[u8]) -> Result<Bytes, OutOfMemory>
    ensures { IfOk result (λ copy. copy ≡ bytes.now) }
{
    Ok(Bytes::over(Vec::from_slice(alloc, bytes)?))
}

/// The next `len` bytes, which may be at most `limit`.
#[tactic(auto, unfolding(crate::specs::Reading::limited_at))]
fn limited<'a>(cursor: &mut Cursor<'a>, len: u32, limit: usize) -> Result<&'a [u8], Stop>
    ensures { Returns (λ bytes. bytes.now) result cursor.new (limited_at limit len (at cursor.old)) }
{
    if len as usize > limit {
        return Err(Stop::Bad(UserFault::TooLong(len)));
    }
    cursor.bytes(len as usize).ok_or(Stop::NeedMore)
}

/// The level that a context registers with. For no level of its own -1 stands, and in messages of libdlt -2.
#[tactic(auto, unfolding(crate::specs::Reading::registered_level))]
fn registered_level(number: i8) -> Result<OwnLevel, Stop>
    ensures { result ≡ registered_level_of number }
{
    OwnLevel::of(if number == -2 { -1 } else { number }).ok_or(Stop::Bad(UserFault::Level(number)))
}

/// LEN of the message that begins here. It shows in its first four bytes whether it can be one.
#[tactic(auto, unfolding(crate::specs::Reading::inner_len))]
fn inner_len(bytes: &[u8]) -> Result<u16, Stop>
    ensures { result ≡ inner_len_of bytes.now }
{
    match read_front(bytes) {
        Ok(front) if front.len as usize > FRAME_LIMIT => {
            Err(Stop::Bad(UserFault::TooLong(front.len as u32)))
        }
        Ok(front) => Ok(front.len),
        Err(HeaderFault::Short(_)) => Err(Stop::NeedMore),
        Err(fault) => Err(Stop::Bad(UserFault::Inner(fault))),
    }
}

/// Kind 1: a log message.
#[tactic(auto, unfolding(crate::specs::Reading::log_at))]
fn log(alloc: Global, cursor: &mut Cursor) -> Result<UserMsg, ReadError>
    ensures { Copies result cursor.new (log_at (at cursor.old)) }
{
    let len = inner_len(cursor.rest)?;
    let message = cursor.bytes(len as usize).ok_or(Stop::NeedMore)?;
    Ok(UserMsg::Log(copied(alloc, message)?))
}

/// Kind 2: an application registers.
#[tactic(auto, unfolding(crate::specs::Reading::register_app_at))]
fn register_app(alloc: Global, cursor: &mut Cursor) -> Result<UserMsg, ReadError>
    ensures { Copies result cursor.new (register_app_at (at cursor.old)) }
{
    let app = fields::app(cursor).ok_or(Stop::NeedMore)?;
    let text = limited(cursor, app.len, TEXT_LIMIT)?;
    Ok(UserMsg::RegisterApp {
        apid: app.apid,
        pid: app.pid,
        text: copied(alloc, text)?,
    })
}

/// Kind 4: a context registers.
#[tactic(auto, unfolding(crate::specs::Reading::register_context_at))]
fn register_context(alloc: Global, cursor: &mut Cursor) -> Result<UserMsg, ReadError>
    ensures { Copies result cursor.new (register_context_at (at cursor.old)) }
{
    let context = fields::context(cursor).ok_or(Stop::NeedMore)?;
    let level = registered_level(context.level)?;
    let text = limited(cursor, context.len, TEXT_LIMIT)?;
    Ok(UserMsg::RegisterContext {
        apid: context.apid,
        ctid: context.ctid,
        position: context.position,
        level,
        trace: context.trace,
        pid: context.pid,
        text: copied(alloc, text)?,
    })
}

/// Kind 6: the level of a context.
#[tactic(auto, unfolding(crate::specs::Reading::log_level_at))]
fn log_level(cursor: &mut Cursor) -> Result<UserMsg, Stop>
    ensures { Returns (λ msg. msg) result cursor.new (log_level_at (at cursor.old)) }
{
    let setting = fields::setting(cursor).ok_or(Stop::NeedMore)?;
    let Some(level) = Level::of(setting.level) else {
        return Err(Stop::Bad(UserFault::Level(setting.level.cast_signed())));
    };
    Ok(UserMsg::LogLevel {
        level,
        trace: setting.trace,
        position: setting.position,
    })
}

/// Kind 7: data for a service.
#[tactic(auto, unfolding(crate::specs::Reading::injection_at))]
fn injection(alloc: Global, cursor: &mut Cursor) -> Result<UserMsg, ReadError>
    ensures { Copies result cursor.new (injection_at (at cursor.old)) }
{
    let service = fields::service(cursor).ok_or(Stop::NeedMore)?;
    let body = limited(cursor, service.len, PAYLOAD_LIMIT)?;
    Ok(UserMsg::Injection {
        position: service.position,
        service: service.service,
        body: copied(alloc, body)?,
    })
}

/// The kind of the message, behind its marker.
#[tactic(auto, unfolding(crate::specs::Reading::kind_at))]
fn kind(cursor: &mut Cursor) -> Result<u32, Stop>
    ensures { Returns (λ kind. kind) result cursor.new (kind_at (at cursor.old)) }
{
    let front = cursor.bytes(4).ok_or(Stop::NeedMore)?;
    if front != MARKER.as_slice() {
        return Err(Stop::Bad(UserFault::Marker));
    }
    cursor.u32().ok_or(Stop::NeedMore)
}

/// A message, from its marker on.
#[tactic(auto, unfolding(crate::specs::Reading::message_at, crate::specs::Reading::fields_at))]
fn message(alloc: Global, cursor: &mut Cursor) -> Result<UserMsg, ReadError>
    ensures { Copies result cursor.new (message_at (at cursor.old)) }
{
    match kind(cursor)? {
        1 => log(alloc, cursor),
        2 => register_app(alloc, cursor),
        3 => Ok(fields::unregister_app(cursor).ok_or(Stop::NeedMore)?),
        4 => register_context(alloc, cursor),
        5 => Ok(fields::unregister_context(cursor).ok_or(Stop::NeedMore)?),
        6 => Ok(log_level(cursor)?),
        7 => injection(alloc, cursor),
        8 => Ok(fields::overflow(cursor).ok_or(Stop::NeedMore)?),
        kind => Err(ReadError::Stop(Stop::Bad(UserFault::Kind(kind)))),
    }
}

/// The message at the front, and how many bytes it takes.
pub fn front(alloc: Global, bytes: &[u8]) -> Result<(UserMsg, usize), ReadError>
    ensures { IsFront bytes.now result }
{
    let mut cursor = Cursor {
        rest: bytes,
        order: Order::Little,
    };
    let msg = message(alloc, &mut cursor)?;
    Ok((msg, bytes.len() - cursor.rest.len()))
}
