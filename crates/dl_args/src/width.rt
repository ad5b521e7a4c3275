//! How many bits a number has.

ghost use Rattle.std.specs.Prelude.{◌≡◌, ◌↔◌, ◌<◌, ◌^◌, IsTrue, FitsSigned};
ghost use Rattle.dl_args.specs.Width.{tyle_of, width_of, byte_count, int_type};

/// How many bits a number has: the field TYLE of a type info.
#[derive(Clone, Copy, PartialEq, Eq)]
pub enum Width {
    /// 8 bits, TYLE 1.
    W8,
    /// 16 bits, TYLE 2.
    W16,
    /// 32 bits, TYLE 3.
    W32,
    /// 64 bits, TYLE 4.
    W64,
    /// 128 bits, TYLE 5.
    W128,
}

impl Width {
    /// The width of this TYLE, 1 to 5.
    pub(crate) fn of_tyle(tyle: u32) -> Option<Width>
        ensures { result ≡ width_of tyle }
    {
        match tyle {
            1 => Some(Width::W8),
            2 => Some(Width::W16),
            3 => Some(Width::W32),
            4 => Some(Width::W64),
            5 => Some(Width::W128),
            _ => None,
        }
    }

    /// Its TYLE.
    pub(crate) fn tyle(self) -> u32
        ensures { result ≡ tyle_of self }
    {
        match self {
            Width::W8 => 1,
            Width::W16 => 2,
            Width::W32 => 3,
            Width::W64 => 4,
            Width::W128 => 5,
        }
    }

    /// How many bytes such a number has.
    pub(crate) fn byte_count(self) -> usize
        ensures { result ≡ byte_count self }
    {
        match self {
            Width::W8 => 1,
            Width::W16 => 2,
            Width::W32 => 4,
            Width::W64 => 8,
            Width::W128 => 16,
        }
    }
}

/// Whether a signed number of this width can have this value.
pub fn sint_fits(width: Width, value: i128) -> bool
    ensures { IsTrue result ↔ FitsSigned (int_type width) value }
{
    match width {
        Width::W8 => i8::try_from(value).is_ok(),
        Width::W16 => i16::try_from(value).is_ok(),
        Width::W32 => i32::try_from(value).is_ok(),
        Width::W64 => i64::try_from(value).is_ok(),
        Width::W128 => true,
    }
}

/// Whether an unsigned number of this width can have this value.
pub fn uint_fits(width: Width, value: u128) -> bool
    ensures { IsTrue result ↔ (value < 256 ^ byte_count width) }
{
    match width {
        Width::W8 => u8::try_from(value).is_ok(),
        Width::W16 => u16::try_from(value).is_ok(),
        Width::W32 => u32::try_from(value).is_ok(),
        Width::W64 => u64::try_from(value).is_ok(),
        Width::W128 => true,
    }
}
