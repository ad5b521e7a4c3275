//! The fields behind a type info, read from the front. Each gives nothing where it passes the end.

ghost use Rattle.std.specs.Prelude.{◌≡◌, option_map};
ghost use Rattle.std.specs.Io.BufRead.{strip_last};
ghost use Rattle.dl_bytes.specs.Number.{at, Gives};
ghost use Rattle.dl_args.specs.Fields.{text_at, name_at, names_at, named_bytes_at, unsigned_at, signed_at};

use crate::width::Width;
use dl_bytes::Cursor;

/// A text of this many bytes, one of which may be its closing zero.
#[tactic(auto, unfolding(crate::specs::Fields::text_at))]
fn text<'a>(cursor: &mut Cursor<'a>, len: u16) -> Option<&'a [u8]>
    ensures { Gives (λ x. x.now) result cursor.new (text_at len (at cursor.old)) }
{
    let field = cursor.bytes(usize::from(len))?;
    Some(unclosed(field))
}

/// A text without its closing zero, if it has one.
pub fn unclosed(field: &[u8]) -> &[u8]
    ensures { result.now ≡ strip_last 0 field.now }
{
    match field {
        [text @ .., 0] => text,
        _ => field,
    }
}

/// A name, where there is one.
#[tactic(auto, unfolding(crate::specs::Fields::name_at))]
pub fn name<'a>(cursor: &mut Cursor<'a>, named: bool) -> Option<Option<&'a [u8]>>
    ensures { Gives (option_map (λ x. x.now)) result cursor.new (name_at named (at cursor.old)) }
{
    if !named {
        return Some(None);
    }
    let len = cursor.u16()?;
    let name = text(cursor, len)?;
    Some(Some(name))
}

/// A name and a unit, where there are any: their lengths stand before both.
#[tactic(auto, unfolding(crate::specs::Fields::names_at))]
pub fn names<'a>(
    cursor: &mut Cursor<'a>,
    named: bool,
) -> Option<(Option<&'a [u8]>, Option<&'a [u8]>)>
    ensures { Gives (λ x. (option_map (λ y. y.now) x.0, option_map (λ y. y.now) x.1)) result cursor.new (names_at named (at cursor.old)) }
{
    if !named {
        return Some((None, None));
    }
    let name_len = cursor.u16()?;
    let unit_len = cursor.u16()?;
    let name = text(cursor, name_len)?;
    let unit = text(cursor, unit_len)?;
    Some((Some(name), Some(unit)))
}

/// Bytes, with a name where there is one: it stands between their length and them.
#[tactic(auto, unfolding(crate::specs::Fields::named_bytes_at))]
pub fn named_bytes<'a>(cursor: &mut Cursor<'a>, named: bool) -> Option<(Option<&'a [u8]>, &'a [u8])>
    ensures { Gives (λ x. (option_map (λ y. y.now) x.0, x.1.now)) result cursor.new (named_bytes_at named (at cursor.old)) }
{
    let len = cursor.u16()?;
    let name = name(cursor, named)?;
    let bytes = cursor.bytes(usize::from(len))?;
    Some((name, bytes))
}

/// An unsigned number.
#[tactic(auto, unfolding(crate::specs::Fields::unsigned_at))]
pub fn unsigned(cursor: &mut Cursor, width: Width) -> Option<u128>
    ensures { Gives (λ x. x) result cursor.new (unsigned_at width (at cursor.old)) }
{
    Some(match width {
        Width::W8 => u128::from(cursor.u8()?),
        Width::W16 => u128::from(cursor.u16()?),
        Width::W32 => u128::from(cursor.u32()?),
        Width::W64 => u128::from(cursor.u64()?),
        Width::W128 => cursor.u128()?,
    })
}

/// A signed number, in two's complement.
#[tactic(auto, unfolding(crate::specs::Fields::signed_at))]
pub fn signed(cursor: &mut Cursor, width: Width) -> Option<i128>
    ensures { Gives (λ x. x) result cursor.new (signed_at width (at cursor.old)) }
{
    Some(match width {
        Width::W8 => i128::from(cursor.u8()?.cast_signed()),
        Width::W16 => i128::from(cursor.u16()?.cast_signed()),
        Width::W32 => i128::from(cursor.u32()?.cast_signed()),
        Width::W64 => i128::from(cursor.u64()?.cast_signed()),
        Width::W128 => cursor.u128()?.cast_signed(),
    })
}
