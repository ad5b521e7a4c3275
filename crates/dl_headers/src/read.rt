//! Headers from bytes.

ghost use Rattle.std.specs.Prelude.{◌≡◌, ℕ, ◌<◌, ◌≤◌, ◌+◌, ◌^◌, List, ◌++◌, length, drop, is_some, true, if◌then◌else◌, IfOk, IfSome, Option};
ghost use Rattle.std.specs.Result.{result_err};
ghost use Rattle.byteorder.specs.Endian.{big_bytes};
ghost use Rattle.dl_bytes.specs.Htyp.{htyp_of, len_of, standard_len};
ghost use Rattle.dl_headers.specs.Header.{standard_header, extended_header, optional, IsStandard, IsExtended};
ghost use Rattle.dl_headers.specs.Reading.{mcnt_of, front_fault, standard_fault, extended_fault};

use crate::fault::HeaderFault;
use crate::header::{Extended, Front, Standard};
use byteorder::{BigEndian, ByteOrder};
use dl_bytes::{Cursor, Htyp, Id, Order};

/// Reads the four bytes that every standard header begins with. They tell how long the headers and the message are.
pub fn read_front(bytes: &[u8]) -> Result<Front, HeaderFault>
    ensures fault { result_err result ≡ front_fault bytes.now }
    ensures htyp { IfOk result (λ front. front.htyp.0 ≡ htyp_of bytes.now) }
    ensures mcnt { IfOk result (λ front. front.mcnt ≡ mcnt_of bytes.now) }
    ensures len { IfOk result (λ front. front.len ≡ len_of bytes.now) }
{
    if bytes.len() < 4 {
        return Err(HeaderFault::Short(4));
    }
    let front = Front {
        htyp: Htyp(bytes[0]),
        mcnt: bytes[1],
        len: BigEndian::read_u16(&bytes[2..]),
    };
    if front.htyp.version() != 1 {
        return Err(HeaderFault::Version(front.htyp.version()));
    }
    if front.len < front.htyp.header_len() {
        return Err(HeaderFault::Length(front.len));
    }
    Ok(front)
}

/// Reads a standard header. Bytes may stand behind it.
pub fn read_standard(bytes: &[u8]) -> Result<Standard, HeaderFault>
    ensures fault { result_err result ≡ standard_fault bytes.now }
    ensures htyp { IfOk result (λ head. head.htyp ≡ htyp_of bytes.now) }
    ensures len { IfOk result (λ head. head.len ≡ len_of bytes.now) }
    ensures head { IfOk result (λ head.
        bytes.now ≡ standard_header head ++ drop (standard_len head.htyp) bytes.now) }
    ensures standard { IfOk result IsStandard }
    ensures again { (head : Standard) (rest : List ℕ) →
        IsStandard head → bytes.now ≡ standard_header head ++ rest → result ≡ Ok head }
{
    let front = read_front(bytes)?;
    let len = front.htyp.standard_len();
    if bytes.len() < len as usize {
        return Err(HeaderFault::Short(len));
    }
    let (ecu, rest) = optional_id(&bytes[4..], front.htyp.has_ecu());
    let (session, rest) = optional_number(rest, front.htyp.has_session());
    let (ticks, _) = optional_number(rest, front.htyp.has_ticks());
    Ok(Standard {
        htyp: front.htyp.0,
        mcnt: front.mcnt,
        len: front.len,
        ecu,
        session,
        ticks,
    })
}

/// Reads an extended header. Bytes may stand behind it.
pub fn read_extended(bytes: &[u8]) -> Result<Extended, HeaderFault>
    ensures fault { result_err result ≡ extended_fault bytes.now }
    ensures head { IfOk result (λ head. bytes.now ≡ extended_header head ++ drop 10 bytes.now) }
    ensures extended { IfOk result IsExtended }
    ensures again { (head : Extended) (rest : List ℕ) →
        IsExtended head → bytes.now ≡ extended_header head ++ rest → result ≡ Ok head }
{
    if bytes.len() < 10 {
        return Err(HeaderFault::Short(10));
    }
    Ok(Extended {
        msin: bytes[0],
        noar: bytes[1],
        apid: Id::from_bytes([bytes[2], bytes[3], bytes[4], bytes[5]]),
        ctid: Id::from_bytes([bytes[6], bytes[7], bytes[8], bytes[9]]),
    })
}

/// The field ECU where it is there, and what stands behind it.
fn optional_id(bytes: &[u8], there: bool) -> (Option<Id>, &[u8])
    requires { there ≡ true → 4 ≤ length bytes.now }
    ensures there { is_some result.0 ≡ there }
    ensures size { IfSome result.0 (λ id. length id ≡ 4) }
    ensures spelled { bytes.now ≡ optional (λ id. id) result.0 ++ result.1.now }
    ensures again { (field : Option (List ℕ)) (rest : List ℕ) → is_some field ≡ there → IfSome field (λ id. length id ≡ 4)
        → bytes.now ≡ optional (λ id. id) field ++ rest → (result.0 ≡ field) × (result.1.now ≡ rest) }
    ensures len { length bytes.now ≡ (if there then 4 else 0) + length result.1.now }
{
    if !there {
        return (None, bytes);
    }
    let mut cursor = Cursor {
        rest: bytes,
        order: Order::Big,
    };
    let id = cursor.id();
    (id, cursor.rest)
}

/// A field of four bytes where it is there, and what stands behind it.
fn optional_number(bytes: &[u8], there: bool) -> (Option<u32>, &[u8])
    requires { there ≡ true → 4 ≤ length bytes.now }
    ensures there { is_some result.0 ≡ there }
    ensures size { IfSome result.0 (λ n. n < 2 ^ 32) }
    ensures spelled { bytes.now ≡ optional (big_bytes 4) result.0 ++ result.1.now }
    ensures again { (field : Option ℕ) (rest : List ℕ) → is_some field ≡ there → IfSome field (λ n. n < 2 ^ 32)
        → bytes.now ≡ optional (big_bytes 4) field ++ rest → (result.0 ≡ field) × (result.1.now ≡ rest) }
    ensures len { length bytes.now ≡ (if there then 4 else 0) + length result.1.now }
{
    if !there {
        return (None, bytes);
    }
    let mut cursor = Cursor {
        rest: bytes,
        order: Order::Big,
    };
    let number = cursor.u32();
    (number, cursor.rest)
}
