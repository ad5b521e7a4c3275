//! Control requests, read from the payload of a control message.

ghost use Rattle.std.specs.Prelude.{◌≡◌, IfOk, IfErr, Ok, Some};
ghost use Rattle.dl_bytes.specs.Number.{at, Gives, number_at};
ghost use Rattle.dl_control.specs.declared.request.Request.{Request};
ghost use Rattle.dl_control.specs.Request.{IsLaidOut, IsWithinLimit, IsFault};
ghost use Rattle.dl_control.specs.Reading.{log_level_at, log_info_at, all_levels_at, default_level_at, injection_of, request_of, request_in};

use dl_bytes::{Cursor, Id, Order, PAYLOAD_LIMIT, Payload};

/// What a diagnostic client asks. In `SetLogLevel` and `GetLogInfo` an id of zero bytes stands for all ids. Reserved
/// bytes that a request has besides are not looked at.
#[derive(Drop)]
pub enum Request {
    /// Service 0x01: sets the log level of contexts.
    SetLogLevel {
        /// APID: the application, or all of them.
        apid: Id,
        /// CTID: the context, or all of them.
        ctid: Id,
        /// The log level, 0 (off) to 6 (verbose), or -1 for the default level. Other values are read too.
        level: i8,
    },
    /// Service 0x03: asks which applications and contexts there are.
    GetLogInfo {
        /// What is asked of them: 6 for log level and trace status, 7 for their descriptions too. Other values are
        /// read too.
        options: u8,
        /// APID: the application, or all of them.
        apid: Id,
        /// CTID: the context, or all of them.
        ctid: Id,
    },
    /// Service 0x04: asks for the default level.
    GetDefault,
    /// Service 0x05: stores the configuration.
    Store,
    /// Service 0x06: resets to the factory default.
    Reset,
    /// Service 0x11: sets the default level.
    SetDefault {
        /// The log level, 0 (off) to 6 (verbose). Other values are read too.
        level: u8,
    },
    /// Service 0x13: asks for the version of the software.
    Version,
    /// Service 0xF08: sets the log level of all contexts.
    SetAllLogLevel {
        /// The log level, as in `SetLogLevel`.
        level: i8,
    },
    /// A service from 0xFFF on: data for an application.
    Inject {
        /// The service id, from 0xFFF on.
        service: u32,
        /// The data, at most 1390 bytes. It is no arguments: the payload counts none.
        body: Payload,
    },
    /// Any other service. What follows the service id is not looked at.
    Other {
        /// The service id.
        service: u32,
    },
}

/// Why a payload is no request.
#[derive(Clone, Copy, Debug, PartialEq, Eq)]
pub enum RequestFault {
    /// Bytes are missing.
    Short {
        /// The service id, or 0 where bytes of the id itself are missing.
        service: u32,
    },
    /// There are more bytes than the service has, or an injection tells a length above 1390.
    Excess {
        /// The service id.
        service: u32,
    },
}

/// The first service id of injections.
const FIRST_INJECTION: u32 = 0xfff;

/// The reserved bytes behind the fields of a request, whatever they are.
const RESERVED: usize = 4;

/// The request that a payload is, its numbers in this order.
#[tactic(auto, unfolding(crate::specs::Reading::request_of))]
pub fn read_request(payload: &[u8], order: Order) -> Result<Request, RequestFault>
    // What is read is laid out so.
    ensures found { IfOk result (λ request. IsLaidOut order request payload.now × IsWithinLimit request) }
    // What is laid out so is read.
    ensures only { (request : Request) → IsLaidOut order request payload.now → IsWithinLimit request → result ≡ Ok request }
    // Short comes only where more bytes would make a request, Excess only where none of at most 1390 bytes would.
    ensures fault { IfErr result (IsFault order payload.now) }
    // Which of them it is.
    ensures exact { result ≡ request_in order payload.now }
{
    let mut cursor = Cursor {
        rest: payload,
        order,
    };
    let Some(service) = cursor.u32() else {
        return Err(RequestFault::Short { service: 0 });
    };
    request_of_service(service, &mut cursor)
}

/// The request behind its service id.
#[tactic(auto, unfolding(crate::specs::Reading::request_of))]
fn request_of_service(service: u32, cursor: &mut Cursor) -> Result<Request, RequestFault>
    ensures { result ≡ request_of (Some (service, at cursor.old)) }
{
    let request = match service {
        0x01 => log_level(cursor),
        0x03 => log_info(cursor),
        0x04 => return Ok(Request::GetDefault),
        0x05 => return Ok(Request::Store),
        0x06 => return Ok(Request::Reset),
        0x11 => default_level(cursor),
        0x13 => return Ok(Request::Version),
        0xf08 => all_levels(cursor),
        FIRST_INJECTION.. => return injection(service, cursor),
        _ => return Ok(Request::Other { service }),
    };
    match request {
        None => Err(RequestFault::Short { service }),
        Some(_) if !cursor.rest.is_empty() => Err(RequestFault::Excess { service }),
        Some(request) => Ok(request),
    }
}

#[tactic(auto, unfolding(crate::specs::Reading::log_level_at))]
fn log_level(cursor: &mut Cursor) -> Option<Request>
    ensures { Gives (λ x. x) result cursor.new (log_level_at (at cursor.old)) }
{
    let apid = cursor.id()?;
    let ctid = cursor.id()?;
    let level = cursor.u8()?.cast_signed();
    let _reserved = cursor.bytes(RESERVED)?;
    Some(Request::SetLogLevel { apid, ctid, level })
}

#[tactic(auto, unfolding(crate::specs::Reading::log_info_at))]
fn log_info(cursor: &mut Cursor) -> Option<Request>
    ensures { Gives (λ x. x) result cursor.new (log_info_at (at cursor.old)) }
{
    let options = cursor.u8()?;
    let apid = cursor.id()?;
    let ctid = cursor.id()?;
    let _reserved = cursor.bytes(RESERVED)?;
    Some(Request::GetLogInfo {
        options,
        apid,
        ctid,
    })
}

#[tactic(auto, unfolding(crate::specs::Reading::default_level_at))]
fn default_level(cursor: &mut Cursor) -> Option<Request>
    ensures { Gives (λ x. x) result cursor.new (default_level_at (at cursor.old)) }
{
    let level = cursor.u8()?;
    let _reserved = cursor.bytes(RESERVED)?;
    Some(Request::SetDefault { level })
}

#[tactic(auto, unfolding(crate::specs::Reading::all_levels_at))]
fn all_levels(cursor: &mut Cursor) -> Option<Request>
    ensures { Gives (λ x. x) result cursor.new (all_levels_at (at cursor.old)) }
{
    let byte = cursor.u8()?;
    let _reserved = cursor.bytes(RESERVED)?;
    let level = byte.cast_signed();
    Some(Request::SetAllLogLevel { level })
}

/// An injection, from its length on.
#[tactic(auto, unfolding(crate::specs::Reading::injection_of, crate::specs::Reading::body_at))]
fn injection(service: u32, cursor: &mut Cursor) -> Result<Request, RequestFault>
    ensures { result ≡ injection_of service (number_at 4 (at cursor.old)) }
{
    let Some(length) = cursor.u32() else {
        return Err(RequestFault::Short { service });
    };
    let length = length as usize;
    if length > PAYLOAD_LIMIT {
        return Err(RequestFault::Excess { service });
    }
    let Some(bytes) = cursor.bytes(length) else {
        return Err(RequestFault::Short { service });
    };
    if !cursor.rest.is_empty() {
        return Err(RequestFault::Excess { service });
    }
    let mut body = Payload::new();
    body.extend_from_slice(bytes);
    Ok(Request::Inject { service, body })
}
