//! The fields of the headers.

ghost use Rattle.std.specs.Prelude.{◌≡◌, is_some};
ghost use Rattle.dl_bytes.specs.Htyp.{has_ecu, has_session, has_ticks};
ghost use Rattle.dl_headers.specs.Msin.{is_request};

use dl_bytes::{Htyp, Id};

/// The standard header, with which every message begins. Its optional fields are there exactly where the bits of
/// HTYP say so.
#[derive(Clone, Copy)]
pub struct Standard {
    /// HTYP: which parts there are, the byte order of the payload, and the version.
    pub htyp: u8,
    /// MCNT: the message counter.
    pub mcnt: u8,
    /// LEN: the bytes of the standard header, the extended header and the payload together.
    pub len: u16,
    /// ECU: which control unit sent the message.
    pub ecu: Option<Id>,
    /// SEID: the session, here the number of the writer.
    pub session: Option<u32>,
    /// TMSP: the timestamp, in units of 0.1 ms.
    pub ticks: Option<u32>,
    ghost ecu_as_told: { is_some ecu ≡ has_ecu htyp },
    ghost session_as_told: { is_some session ≡ has_session htyp },
    ghost ticks_as_told: { is_some ticks ≡ has_ticks htyp },
}

/// The extended header, of a log or control message.
#[derive(Clone, Copy)]
pub struct Extended {
    /// MSIN: the kind of message, with its severity or its direction.
    pub msin: u8,
    /// NOAR: how many arguments the payload has.
    pub noar: u8,
    /// APID: the application.
    pub apid: Id,
    /// CTID: the context.
    pub ctid: Id,
}

impl Extended {
    /// Whether the message asks for something: MSTP is a control message and MTIN a request. The other bits of MSIN
    /// don't matter.
    pub fn is_request(&self) -> bool
        ensures { result ≡ is_request self.now.msin }
    {
        self.msin >> 1 & 0x07 == 3 && self.msin >> 4 == 1
    }
}

/// The four bytes that every standard header begins with.
#[derive(Clone, Copy)]
pub struct Front {
    /// HTYP: which parts there are, the byte order of the payload, and the version.
    pub htyp: Htyp,
    /// MCNT: the message counter.
    pub mcnt: u8,
    /// LEN: the bytes of the standard header, the extended header and the payload together.
    pub len: u16,
}
