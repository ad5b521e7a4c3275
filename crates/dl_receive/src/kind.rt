//! What a message is to a receiver.

ghost use Rattle.std.specs.Prelude.{◌≡◌, length, None};
ghost use Rattle.dl_bytes.specs.Htyp.{len_of};
ghost use Rattle.dl_headers.specs.Reading.{front_fault};
ghost use Rattle.dl_receive.specs.MessageKind.{headed, kind_of, lost_by};
ghost use Rattle.std.specs.Option.{option_map_or};

use byteorder::{ByteOrder, LittleEndian};
use dl_bytes::{Htyp, Id};
use dl_headers::{Extended, Standard};
use dl_message::read_message;

/// What a message is.
#[derive(Clone, Copy, PartialEq, Eq)]
pub enum Kind {
    /// A log message that tells its session.
    Log {
        /// SEID: the session.
        seid: u32,
        /// MCNT: the message counter.
        mcnt: u8,
        /// APID: the application.
        apid: Id,
        /// CTID: the context.
        ctid: Id,
        /// LEN: the bytes of the message.
        len: u16,
    },
    /// The report of lost messages of an application.
    Overflow {
        /// APID: the application.
        apid: Id,
        /// How many were lost.
        counter: u32,
    },
    /// Any other message.
    Other {
        /// LEN: the bytes of the message.
        len: u16,
    },
}

/// MSIN of a control message that responds.
const RESPONSE: u8 = 0x26;

/// The payload of the report of lost messages, up to its counter: service 0x14, status 0, an overflow.
const OVERFLOW: [u8; 6] = [0x14, 0, 0, 0, 0, 1];

/// How many messages were lost, where the payload reports that.
fn lost(htyp: Htyp, msin: u8, payload: &[u8]) -> Option<u32>
    ensures { result ≡ lost_by htyp.0 msin payload.now }
{
    if msin == RESPONSE
        && !htyp.has_big_numbers()
        && payload.len() == 10
        && payload.starts_with(&OVERFLOW)
    {
        Some(LittleEndian::read_u32(&payload[6..]))
    } else {
        None
    }
}

/// What a log message is; it may not tell its session.
fn log_kind(standard: &Standard, extended: Extended) -> Kind
    ensures { result ≡ option_map_or (λ seid. Kind.Log seid standard.now.mcnt extended.apid extended.ctid standard.now.len) standard.now.session (Kind.Other standard.now.len) }
{
    let len = standard.len;
    let mcnt = standard.mcnt;
    match standard.session {
        Some(seid) => Kind::Log {
            seid,
            mcnt,
            apid: extended.apid,
            ctid: extended.ctid,
            len,
        },
        None => Kind::Other { len },
    }
}

/// What a message with an extended header is.
fn headed(standard: &Standard, extended: Extended, payload: &[u8]) -> Kind
    ensures { result ≡ headed standard.now payload.now extended }
{
    let apid = extended.apid;
    let len = standard.len;
    if extended.msin >> 1 & 0x07 == 0 {
        return log_kind(standard, extended);
    }
    match lost(Htyp(standard.htyp), extended.msin, payload) {
        Some(counter) => Kind::Overflow { apid, counter },
        None => Kind::Other { len },
    }
}

/// What a message of these parts is.
fn kind_in(standard: &Standard, extended: Option<Extended>, payload: &[u8]) -> Kind
    ensures { result ≡ option_map_or (headed standard.now payload.now) extended (Kind.Other standard.now.len) }
{
    let len = standard.len;
    match extended {
        Some(extended) => headed(standard, extended, payload),
        None => Kind::Other { len },
    }
}

/// What a whole message is.
pub fn kind_of(message: &[u8]) -> Kind
    requires front { front_fault message.now ≡ None }
    requires len { length message.now ≡ len_of message.now }
    ensures { result ≡ kind_of message.now }
{
    let Ok(parts) = read_message(message) else {
        return Kind::Other { len: 0 };
    };
    let standard = parts.standard;
    let start = parts.start;
    kind_in(&standard, parts.extended, &message[start..])
}
