//! The bytes, and how many are used.

ghost use Rattle.std.specs.Prelude.{◌≤◌, length};

/// Bytes in memory that was handed in. The first `used` ones hold something.
#[repr(C)]
#[derive(Drop)]
pub struct Area<'a> {
    /// The memory.
    pub bytes: &'a mut [u8],
    /// How many bytes hold something.
    pub used: usize,
    ghost inside: { used ≤ length bytes.now },
}
