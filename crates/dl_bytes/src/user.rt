//! What an external application tells the daemon: user messages.

ghost use Rattle.std.specs.Prelude.{◌≡◌, ◌↔◌, IfOk, IsTrue};
ghost use Rattle.dl_bytes.specs.UserMessage.{IsFit, HoldsMessage};

use crate::htyp::Htyp;
use crate::id::Id;
use crate::level::{Level, OwnLevel};
use crate::limits::{FRAME_LIMIT, PAYLOAD_LIMIT, TEXT_LIMIT};
use crate::list::Bytes;
use byteorder::{BigEndian, ByteOrder};
use std::alloc::{AllocError, Global};

/// A user message, by its kind.
#[derive(Drop)]
pub enum UserMsg {
    /// Kind 1: a whole message, from its standard header on.
    Log(Bytes),
    /// Kind 2: an application is there, with its process id and its description.
    RegisterApp {
        /// The application's id.
        apid: Id,
        /// The process id of the application.
        pid: u32,
        /// The description, at most 255 bytes.
        text: Bytes,
    },
    /// Kind 3: an application is gone.
    UnregisterApp {
        /// The application's id.
        apid: Id,
        /// The process id of the application.
        pid: u32,
    },
    /// Kind 4: an application has a context, with its place in the application's own table, the log level and the
    /// trace status that it asks for, and its description.
    RegisterContext {
        /// The application's id.
        apid: Id,
        /// The context's id.
        ctid: Id,
        /// The context's place in the application's own table.
        position: u32,
        /// The log level that it asks for; none to follow the default level.
        level: OwnLevel,
        /// The trace status, which this project carries and does not use.
        trace: i8,
        /// The process id of the application.
        pid: u32,
        /// The description, at most 255 bytes.
        text: Bytes,
    },
    /// Kind 5: an application has a context no longer.
    UnregisterContext {
        /// The application's id.
        apid: Id,
        /// The context's id.
        ctid: Id,
        /// The process id of the application.
        pid: u32,
    },
    /// Kind 6: the daemon tells an application the log level and the trace status of a context.
    LogLevel {
        /// The context's log level.
        level: Level,
        /// The trace status, which this project carries and does not use.
        trace: i8,
        /// The context's place in the application's own table.
        position: u32,
    },
    /// Kind 7: the daemon hands a context the data of a service.
    Injection {
        /// The context's place in the application's own table.
        position: u32,
        /// The service id.
        service: u32,
        /// The data, at most 1390 bytes.
        body: Bytes,
    },
    /// Kind 8: an application lost this many messages.
    Overflow {
        /// How many messages were lost.
        counter: u32,
        /// The application's id.
        apid: Id,
    },
}

impl UserMsg {
    /// Whether it is within the limits: a text of at most 255 bytes, a body of at most 1390, and in a log message
    /// one whole message of at most 1984 bytes.
    pub fn is_fit(&self) -> bool
        ensures { IsTrue result ↔ IsFit self.now }
    {
        match self {
            UserMsg::Log(message) => is_message(message.all()),
            UserMsg::RegisterApp { text, .. } | UserMsg::RegisterContext { text, .. } => {
                text.all().len() <= TEXT_LIMIT
            }
            UserMsg::Injection { body, .. } => body.all().len() <= PAYLOAD_LIMIT,
            UserMsg::UnregisterApp { .. }
            | UserMsg::UnregisterContext { .. }
            | UserMsg::LogLevel { .. }
            | UserMsg::Overflow { .. } => true,
        }
    }

    /// The same message once more.
    pub fn copy(&self, alloc: Global) -> Result<UserMsg, AllocError>
        ensures { IfOk result (λ copy. copy ≡ self.now) }
    {
        Ok(match self {
            UserMsg::Log(message) => UserMsg::Log(message.copy(alloc)?),
            UserMsg::RegisterApp { apid, pid, text } => UserMsg::RegisterApp {
                apid: *apid,
                pid: *pid,
                text: text.copy(alloc)?,
            },
            UserMsg::UnregisterApp { apid, pid } => UserMsg::UnregisterApp {
                apid: *apid,
                pid: *pid,
            },
            UserMsg::RegisterContext {
                apid,
                ctid,
                position,
                level,
                trace,
                pid,
                text,
            } => UserMsg::RegisterContext {
                apid: *apid,
                ctid: *ctid,
                position: *position,
                level: *level,
                trace: *trace,
                pid: *pid,
                text: text.copy(alloc)?,
            },
            UserMsg::UnregisterContext { apid, ctid, pid } => UserMsg::UnregisterContext {
                apid: *apid,
                ctid: *ctid,
                pid: *pid,
            },
            UserMsg::LogLevel {
                level,
                trace,
                position,
            } => UserMsg::LogLevel {
                level: *level,
                trace: *trace,
                position: *position,
            },
            UserMsg::Injection {
                position,
                service,
                body,
            } => UserMsg::Injection {
                position: *position,
                service: *service,
                body: body.copy(alloc)?,
            },
            UserMsg::Overflow { counter, apid } => UserMsg::Overflow {
                counter: *counter,
                apid: *apid,
            },
        })
    }
}

/// Whether the bytes are one whole message, as far as HTYP and LEN tell.
fn is_message(bytes: &[u8]) -> bool
    ensures { IsTrue result ↔ HoldsMessage bytes.now }
{
    if bytes.len() < 4 || FRAME_LIMIT < bytes.len() {
        return false;
    }
    let htyp = Htyp(bytes[0]);
    let len = BigEndian::read_u16(&bytes[2..]);
    htyp.version() == 1 && len >= htyp.header_len() && len as usize == bytes.len()
}
