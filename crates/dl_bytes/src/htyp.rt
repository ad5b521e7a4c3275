//! What HTYP, the first byte of a message, tells of the headers.

ghost use Rattle.std.specs.Prelude.{◌≡◌, ◌≤◌};
ghost use Rattle.dl_bytes.specs.Htyp as htyp_bits;

/// HTYP: which parts the headers of a message have, the byte order of its payload, and the protocol's version.
#[derive(Clone, Copy, PartialEq, Eq)]
pub struct Htyp(pub u8);

impl Htyp {
    /// UEH: whether an extended header follows the standard header.
    pub fn has_extended(self) -> bool
        ensures { result ≡ htyp_bits.has_extended self.0 }
    {
        self.0 & 0x01 != 0
    }

    /// MSBF: whether the numbers of the payload have their highest byte first.
    pub fn has_big_numbers(self) -> bool
        ensures { result ≡ htyp_bits.has_big_numbers self.0 }
    {
        self.0 & 0x02 != 0
    }

    /// WEID: whether the field ECU is there.
    pub fn has_ecu(self) -> bool
        ensures { result ≡ htyp_bits.has_ecu self.0 }
    {
        self.0 & 0x04 != 0
    }

    /// WSID: whether the field SEID is there.
    pub fn has_session(self) -> bool
        ensures { result ≡ htyp_bits.has_session self.0 }
    {
        self.0 & 0x08 != 0
    }

    /// WTMS: whether the field TMSP is there.
    pub fn has_ticks(self) -> bool
        ensures { result ≡ htyp_bits.has_ticks self.0 }
    {
        self.0 & 0x10 != 0
    }

    /// VERS: the version of the protocol, 0 to 7.
    pub fn version(self) -> u8
        ensures { result ≡ htyp_bits.version self.0 }
    {
        self.0 >> 5
    }

    /// The bytes of the standard header, 4 to 16.
    pub fn standard_len(self) -> u16
        ensures value { result ≡ htyp_bits.standard_len self.0 }
        ensures range { result ≤ 16 }
    {
        let mut len = 4;
        if self.has_ecu() {
            len += 4;
        }
        if self.has_session() {
            len += 4;
        }
        if self.has_ticks() {
            len += 4;
        }
        len
    }

    /// The bytes of the standard header and, where there is one, the extended header, 4 to 26.
    pub fn header_len(self) -> u16
        ensures value { result ≡ htyp_bits.header_len self.0 }
        ensures range { result ≤ 26 }
    {
        if self.has_extended() {
            self.standard_len() + 10
        } else {
            self.standard_len()
        }
    }
}
