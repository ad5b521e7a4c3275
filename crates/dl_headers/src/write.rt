//! Headers as bytes.

ghost use Rattle.std.specs.Prelude.{◌≡◌, ◌≤◌, ◌+◌, ◌++◌, length};
ghost use Rattle.byteorder.specs.Endian.{big_bytes};
ghost use Rattle.dl_bytes.specs.Htyp.{version};
ghost use Rattle.dl_headers.specs.Header.{standard_header, extended_header, storage_header};

use crate::header::{Extended, Standard};
use byteorder::{BigEndian, ByteOrder, LittleEndian};
use dl_bytes::{Frame, Id, Moment};

/// Adds the bytes of a standard header, at most 16.
pub fn write_standard(into: &mut Frame, head: &Standard)
    requires version { version head.now.htyp ≡ 1 }
    requires room { length into.old + 16 ≤ 1984 }
    ensures written { into.new ≡ into.old ++ standard_header head.now }
    ensures len { length into.new ≤ length into.old + 16 }
{
    let mut front = [head.htyp, head.mcnt, 0, 0];
    BigEndian::write_u16(&mut front[2..], head.len);
    into.extend_from_slice(&front);
    if let Some(ecu) = head.ecu {
        into.extend_from_slice(&ecu.bytes());
    }
    if let Some(session) = head.session {
        write_number(into, session);
    }
    if let Some(ticks) = head.ticks {
        write_number(into, ticks);
    }
}

/// Adds the bytes of an extended header, which are 10.
pub fn write_extended(into: &mut Frame, head: &Extended)
    requires { length into.old + 10 ≤ 1984 }
    ensures written { into.new ≡ into.old ++ extended_header head.now }
    ensures len { length into.new ≡ length into.old + 10 }
{
    into.extend_from_slice(&[head.msin, head.noar]);
    into.extend_from_slice(&head.apid.bytes());
    into.extend_from_slice(&head.ctid.bytes());
}

/// The header that stands before each message in a trace file: when it came, and which control unit stored it.
pub fn storage_header(ecu: Id, moment: Moment) -> [u8; 16]
    ensures { result ≡ storage_header ecu moment }
{
    let mut header = [0; 16];
    header[..4].copy_from_slice(b"DLT\x01");
    LittleEndian::write_u32(&mut header[4..8], moment.secs);
    LittleEndian::write_u32(&mut header[8..12], moment.micros);
    header[12..].copy_from_slice(&ecu.bytes());
    header
}

/// Adds a number of four bytes, the highest first, as all numbers of headers are.
fn write_number(into: &mut Frame, number: u32)
    requires { length into.old + 4 ≤ 1984 }
    ensures { into.new ≡ into.old ++ big_bytes 4 number }
{
    let mut bytes = [0; 4];
    BigEndian::write_u32(&mut bytes, number);
    into.extend_from_slice(&bytes);
}
