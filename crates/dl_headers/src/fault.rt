//! Why bytes are no header.

/// What is wrong with the bytes where a header should stand.
#[derive(Clone, Copy, Debug, PartialEq, Eq)]
pub enum HeaderFault {
    /// Fewer bytes than the header has: this many were wanted.
    Short(u16),
    /// The version of the protocol in HTYP, which isn't 1.
    Version(u8),
    /// LEN, which is less than the headers that HTYP tells of, or more than is allowed here.
    Length(u16),
}
