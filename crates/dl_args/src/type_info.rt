//! The type info: the four bytes with which each argument begins.

ghost use Rattle.std.specs.Prelude.{◌≡◌, ◌↔◌, IsTrue};
ghost use Rattle.dl_args.specs.TypeInfo.{kind_of, has_name};

use crate::width::Width;

/// TYLE, bits 0 to 3: how many bits a number has.
pub const TYLE: u32 = 0xf;
/// TYLE of 8 bits.
pub const TYLE_8: u32 = 1;
/// BOOL, bit 4: a truth value.
pub const BOOL: u32 = 0x10;
/// SINT, bit 5: a signed number.
pub const SINT: u32 = 0x20;
/// UINT, bit 6: an unsigned number.
pub const UINT: u32 = 0x40;
/// STRG, bit 9: a text.
pub const STRG: u32 = 0x200;
/// RAWD, bit 10: bytes of any meaning.
pub const RAWD: u32 = 0x400;
/// VARI, bit 11: a name, and the unit of a number, come with the value.
pub const VARI: u32 = 0x800;
/// SCOD, bits 15 to 17: the coding of a text.
pub const SCOD: u32 = 0x3_8000;
/// SCOD of a text in ASCII.
pub const ASCII: u32 = 0;
/// SCOD of a text in UTF-8.
pub const UTF8: u32 = 0x8000;
/// All bits but TYLE, VARI and SCOD: exactly one of them says the kind.
pub const KIND: u32 = !(TYLE | VARI | SCOD);

/// What an argument is, apart from its name.
#[derive(Clone, Copy)]
pub enum Kind {
    Bool,
    Sint(Width),
    Uint(Width),
    Text { utf8: bool },
    Raw,
}

/// The kind that a type info says, or nothing where it says no kind that is read here.
#[tactic(auto, unfolding(crate::specs::TypeInfo::kind_of))]
pub fn kind_of(info: u32) -> Option<Kind>
    ensures { result ≡ kind_of info }
{
    let tyle = info & TYLE;
    match info & KIND {
        BOOL if tyle <= TYLE_8 => Some(Kind::Bool),
        SINT => Some(Kind::Sint(Width::of_tyle(tyle)?)),
        UINT => Some(Kind::Uint(Width::of_tyle(tyle)?)),
        STRG => match info & SCOD {
            ASCII => Some(Kind::Text { utf8: false }),
            UTF8 => Some(Kind::Text { utf8: true }),
            _ => None,
        },
        RAWD => Some(Kind::Raw),
        _ => None,
    }
}

/// Whether a name comes with the value.
pub fn has_name(info: u32) -> bool
    ensures { result ≡ has_name info }
{
    info & VARI != 0
}
