//! The parts of a whole message.

ghost use Rattle.std.specs.Prelude.{◌≡◌, ℕ, ◌≤◌, ◌+◌, List, ◌++◌, length, true, if◌then◌else◌, is_some, None, IfSome, IfOk, IsOkAnd, Option};
ghost use Rattle.std.specs.Result.{result_err};
ghost use Rattle.dl_bytes.specs.Htyp.{len_of, header_len};
ghost use Rattle.dl_headers.specs.declared.header.Extended as Header;
ghost use Rattle.dl_headers.specs.Header.{extended_header, optional, IsExtended};
ghost use Rattle.dl_headers.specs.Reading.{front_fault};
ghost use Rattle.dl_headers.specs.Message.{Message, IsMessage};
ghost use Rattle.dl_message.specs.Parts.{message_of};
ghost use Rattle.dl_message.specs.Requests.{asks, asks_by};

use dl_bytes::Htyp;
use dl_headers::{Extended, HeaderFault, Standard, read_extended, read_standard};

/// Where the parts of a message are.
#[derive(Clone, Copy)]
pub struct Parts {
    /// The standard header.
    pub standard: Standard,
    /// The extended header, where UEH of HTYP says that there is one.
    pub extended: Option<Extended>,
    /// Where the payload begins, in bytes from the front of the message. It goes to the end of the message.
    pub start: usize,
}

impl Parts {
    /// Whether the message asks for something: a control message that is a request.
    pub fn is_request(&self) -> bool
        ensures { result ≡ asks_by self.now.extended }
    {
        self.extended.is_some_and(|head| head.is_request())
    }
}

/// Reads the headers of a whole message.
pub fn read_message(bytes: &[u8]) -> Result<Parts, HeaderFault>
    requires { front_fault bytes.now ≡ None → length bytes.now ≡ len_of bytes.now }
    ensures fault { result_err result ≡ front_fault bytes.now }
    ensures message { IfOk result (λ parts. IsMessage (message_of parts bytes.now) bytes.now) }
    ensures start { IfOk result (λ parts. parts.start ≡ header_len parts.standard.htyp) }
    ensures within { IfOk result (λ parts. parts.start ≤ length bytes.now) }
    ensures request { IfOk result (λ parts. asks_by parts.extended ≡ asks bytes.now) }
    ensures again { (m : Message) → IsMessage m bytes.now → IsOkAnd result (λ parts. message_of parts bytes.now ≡ m) }
{
    let standard = read_standard(bytes)?;
    let htyp = Htyp(standard.htyp);
    let behind = &bytes[htyp.standard_len() as usize..];
    let (extended, _payload) = optional_extended(behind, htyp.has_extended());
    Ok(Parts {
        standard,
        extended,
        start: htyp.header_len() as usize,
    })
}

/// The extended header where it is there, and what stands behind it.
fn optional_extended(bytes: &[u8], there: bool) -> (Option<Extended>, &[u8])
    requires { there ≡ true → 10 ≤ length bytes.now }
    ensures there { is_some result.0 ≡ there }
    ensures extended { IfSome result.0 IsExtended }
    ensures spelled { bytes.now ≡ optional extended_header result.0 ++ result.1.now }
    ensures again { (field : Option Header.Extended) (rest : List ℕ) → is_some field ≡ there → IfSome field IsExtended
        → bytes.now ≡ optional extended_header field ++ rest → (result.0 ≡ field) × (result.1.now ≡ rest) }
    ensures len { length bytes.now ≡ (if there then 10 else 0) + length result.1.now }
{
    if there {
        (read_extended(bytes).ok(), &bytes[10..])
    } else {
        (None, bytes)
    }
}
