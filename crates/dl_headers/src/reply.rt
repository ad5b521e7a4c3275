//! The headers of the control messages by which the daemon replies.

ghost use Rattle.std.specs.Prelude.{◌≡◌, ◌≤◌, ◌+◌, ◌++◌, length};
ghost use Rattle.dl_headers.specs.Reply.{reply_headers};

use crate::header::{Extended, Standard};
use crate::write::{write_extended, write_standard};
use dl_bytes::{Frame, Id};

/// HTYP: version 1, with the field ECU and an extended header, and a payload whose numbers have their lowest byte first.
const HTYP: u8 = 0x25;

/// MCNT: replies are not counted.
const MCNT: u8 = 0;

/// MSIN: a control message, a response.
const MSIN: u8 = 0x26;

/// NOAR: the payload counts as one argument.
const NOAR: u8 = 1;

/// How many bytes the headers of a reply have: 8 of the standard header and 10 of the extended header.
pub const REPLY_HEADER_LEN: u16 = 18;

/// Adds the headers of a reply that tells these ids. `len` is LEN: the bytes of the headers and of the payload together.
pub fn write_reply_headers(into: &mut Frame, ecu: Id, apid: Id, ctid: Id, len: u16)
    requires { length into.old + 18 ≤ 1984 }
    ensures written { into.new ≡ into.old ++ reply_headers ecu apid ctid len }
    ensures len { length into.new ≡ length into.old + 18 }
{
    write_standard(
        into,
        &Standard {
            htyp: HTYP,
            mcnt: MCNT,
            len,
            ecu: Some(ecu),
            session: None,
            ticks: None,
        },
    );
    write_extended(
        into,
        &Extended {
            msin: MSIN,
            noar: NOAR,
            apid,
            ctid,
        },
    );
}
