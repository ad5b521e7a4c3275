//! The messages that the daemon makes.

ghost use Rattle.std.specs.Prelude.{◌≡◌};
ghost use Rattle.dl_message.specs.Frames.{log_message, overflow_record};

use byteorder::{ByteOrder, LittleEndian};
use dl_bytes::{Frame, Htyp, Id, Item};
use dl_headers::{
    Extended, REPLY_HEADER_LEN, Standard, write_extended, write_reply_headers, write_standard,
};

/// HTYP of a log message: all parts of the headers, a little-endian payload, version 1.
const LOG_HTYP: u8 = 0x3d;

/// The service of an overflow record.
const OVERFLOW_SERVICE: u32 = 0x14;

/// The frame of a log call, as the daemon stores and sends it.
pub fn log_frame(ecu: Id, item: &Item) -> Frame
    ensures { result ≡ log_message ecu item.now }
{
    let mut frame = Frame::new();
    write_log_frame(&mut frame, ecu, item);
    frame
}

/// Writes the frame of a log call in place of what `frame` held. One frame that the caller keeps serves many calls, so that
/// its room is blanked once, and never moved.
pub fn write_log_frame(frame: &mut Frame, ecu: Id, item: &Item)
    ensures { frame.new ≡ log_message ecu item.now }
{
    frame.clear();
    let payload = item.payload.bytes();
    write_standard(
        frame,
        &Standard {
            htyp: LOG_HTYP,
            mcnt: item.mcnt,
            len: Htyp(LOG_HTYP).header_len() + payload.len() as u16,
            ecu: Some(ecu),
            session: Some(item.writer as u32),
            ticks: Some(item.at),
        },
    );
    write_extended(
        frame,
        &Extended {
            msin: 16 * item.severity.number() + 1,
            noar: item.payload.args(),
            apid: item.apid,
            ctid: item.ctid,
        },
    );
    frame.extend_from_slice(payload);
}

/// The frame that reports lost messages of an application, `counter` of them since the report before.
pub fn overflow_frame(ecu: Id, apid: Id, ctid: Id, counter: u32) -> Frame
    ensures { result ≡ overflow_record ecu apid ctid counter }
{
    let mut payload = [0; 10];
    LittleEndian::write_u32(&mut payload[..4], OVERFLOW_SERVICE);
    payload[5] = 1;
    LittleEndian::write_u32(&mut payload[6..], counter);
    let mut frame = Frame::new();
    let len = REPLY_HEADER_LEN + payload.len() as u16;
    write_reply_headers(&mut frame, ecu, apid, ctid, len);
    frame.extend_from_slice(&payload);
    frame
}
