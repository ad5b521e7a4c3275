//! Control replies, written as whole messages.

ghost use Rattle.std.specs.Prelude.{◌≡◌, ◌<◌, ◌↔◌, IfOk, Err, length};
ghost use Rattle.dl_control.specs.Reply.{control_reply};

use byteorder::{ByteOrder, LittleEndian};
use dl_bytes::{Bytes, Frame, Id, OutOfMemory};
use dl_headers::{REPLY_HEADER_LEN, write_reply_headers};
use std::alloc::Global;

/// What the daemon replies to a request.
#[derive(Drop)]
pub struct Reply {
    /// The service id of the request.
    pub service: u32,
    /// The status: 0 where it is done, 1 where it is not supported, 2 where it failed, 10 where memory ran out. Of
    /// service 0x03 it is 6 or 7 as the options are, 8 where no context matches, 9 where the reply would be too long.
    pub status: u8,
    /// What the service tells besides.
    pub body: Bytes,
}

/// Why a reply was not written.
#[derive(Clone, Copy, Debug, PartialEq, Eq)]
pub enum ReplyFault {
    /// The message would have more than 65,535 bytes, the most that its field LEN can tell.
    TooLong,
    /// There is no memory for it.
    OutOfMemory,
}

impl From<OutOfMemory> for ReplyFault {
    ghost use Rattle.dl_control.specs.declared.reply.ReplyFault.TheVariants.{OutOfMemory};

    ghost from_gives = { λ _ fault. fault ≡ OutOfMemory };

    fn from(_error: OutOfMemory) -> ReplyFault {
        ReplyFault::OutOfMemory
    }
}

/// APID of the daemon itself, `DA1`.
pub const DAEMON_APID: [u8; 4] = *b"DA1\0";

/// CTID of the daemon itself, `DC1`.
pub const DAEMON_CTID: [u8; 4] = *b"DC1\0";

/// The bytes of a reply before its body: the headers, the service id and the status.
const HEAD_LEN: usize = REPLY_HEADER_LEN as usize + 4 + 1;

/// The message by which the daemon of this ECU replies: a control response of application `DA1` and context `DC1`.
/// Where it is not too long, only memory can be wanting.
pub fn write_reply(alloc: Global, ecu: Id, reply: &Reply) -> Result<Bytes, ReplyFault>
    ensures ok { IfOk result (λ message. message ≡ control_reply ecu reply.now) }
    ensures too_long { (result ≡ Err ReplyFault.TooLong) ↔ (65535 < length (control_reply ecu reply.now)) }
{
    let body = reply.body.all();
    let Ok(len) = u16::try_from(HEAD_LEN + body.len()) else {
        return Err(ReplyFault::TooLong);
    };
    let mut headers = Frame::new();
    let (apid, ctid) = (Id::from_bytes(DAEMON_APID), Id::from_bytes(DAEMON_CTID));
    write_reply_headers(&mut headers, ecu, apid, ctid, len);
    let mut service = [0; 4];
    LittleEndian::write_u32(&mut service, reply.service);
    let mut message = Vec::with_capacity(alloc, len as usize)?;
    message.extend_from_slice(headers.bytes())?;
    message.extend_from_slice(&service)?;
    message.extend_from_slice(&[reply.status])?;
    message.extend_from_slice(body)?;
    Ok(Bytes::over(message))
}
