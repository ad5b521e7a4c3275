//! Ids of four bytes: of an ECU, an application (APID) or a context (CTID).

ghost use Rattle.std.specs.Prelude.{◌≡◌, ◌↔◌, IsTrue, length};
ghost use Rattle.std.specs.List.{list_all};
ghost use Rattle.dl_bytes.specs.Id.{id_of, zero_id, is_visible};

use std::marker::Model;

/// Names an ECU, an application or a context. A name of fewer than four letters is filled with zero bytes.
#[derive(Clone, Copy, PartialEq, Eq, Hash)]
pub struct Id {
    bytes: [u8; 4],
}

impl Model for Id {
    ghost use Rattle.std.specs.Prelude.{List, ℕ};

    ghost Value = { List ℕ };

    ghost view = { λ i. i.bytes };

    ghost inverse = { λ bytes. record { bytes = bytes } };
}

/// Why a text is no id: the first that applies, in this order.
#[derive(Clone, Copy, Debug, PartialEq, Eq)]
pub enum IdFault {
    /// It has no byte.
    Empty,
    /// It has more than four bytes.
    Long,
    /// It has a byte outside 0x21 to 0x7E.
    NotAscii,
}

impl Id {
    /// The id of a name of one to four visible ASCII letters.
    pub fn of(text: &str) -> Result<Id, IdFault>
        ensures { result ≡ id_of text.now }
    {
        Id::from_name(text.as_bytes())
    }

    /// The same of a name as bytes, which may be no text.
    pub fn from_name(name: &[u8]) -> Result<Id, IdFault>
        ensures { result ≡ id_of name.now }
    {
        if name.is_empty() {
            return Err(IdFault::Empty);
        }
        if name.len() > 4 {
            return Err(IdFault::Long);
        }
        if !are_visible(name) {
            return Err(IdFault::NotAscii);
        }
        let mut bytes = [0; 4];
        bytes[..name.len()].copy_from_slice(name);
        Ok(Id { bytes })
    }

    /// The id that these four bytes are, whatever they are.
    pub fn from_bytes(bytes: [u8; 4]) -> Id
        ensures { result ≡ bytes }
    {
        Id { bytes }
    }

    /// The four bytes, as they stand in a header.
    pub fn bytes(&self) -> [u8; 4]
        ensures value { result ≡ self.now }
        ensures len { length self.now ≡ 4 }
    {
        self.bytes
    }

    /// Whether all four bytes are zero, as in a header that names nothing.
    pub fn is_zero(&self) -> bool
        ensures { IsTrue result ↔ (self.now ≡ zero_id) }
    {
        self.bytes == [0; 4]
    }
}

/// Whether all are visible ASCII letters.
fn are_visible(text: &[u8]) -> bool
    ensures { result ≡ list_all is_visible text.now }
{
    text.iter().all(|b| 0x21 <= *b && *b <= 0x7e)
}
