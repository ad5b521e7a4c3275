//! Reading the arguments of a payload, in either byte order.

ghost use Rattle.std.specs.Prelude.{◌≡◌, ◌++◌, ℕ, List, length, IfOk, IfErr, OnOk, IsOk, Ok, Err};
ghost use Rattle.dl_bytes.specs.Number.{at};
ghost use Rattle.dl_args.specs.declared.arg.Arg.{Arg};
ghost use Rattle.dl_args.specs.Borrowed.{arg_in};
ghost use Rattle.dl_args.specs.Coming.{all_of};
ghost use Rattle.dl_args.specs.Reading.{Returns, ReturnsAll, bool_at, sint_at, uint_at, text_arg_at, raw_at, kind_at, arg_at, arguments_of};
ghost use Rattle.dl_args.specs.ReadForm.{AreSpellings};
ghost use Rattle.dl_args.specs.Refusals.{IsFault};

use crate::arg::{ArgFault, ArgList};
use crate::arg_ref::ArgRef;
use crate::fields;
use crate::type_info::{Kind, has_name, kind_of};
use crate::width::Width;
use dl_bytes::{Cursor, Order, OutOfMemory, Sequence};
use std::alloc::Global;
use std::marker::Model;

/// Reads the arguments of a payload one after the other. Each refers into the payload, so no memory is taken.
///
/// It gives the arguments in order, then the fault of the first that can't be read, if there is one. After the last
/// argument and after a fault it stays where it is.
#[derive(Drop)]
pub struct ArgReader<'a> {
    cursor: Cursor<'a>,
    /// How many bytes the whole payload has.
    whole: usize,
    /// How many arguments are still to be read.
    left: u8,
}

impl<'a> Model for ArgReader<'a> {
    ghost use Rattle.dl_bytes.specs.Number.{at};
    ghost use Rattle.dl_args.specs.Coming.{Coming, coming, IsLeft};

    ghost Value = { Coming };

    ghost view = { λ r. coming r.whole r.left (at r.cursor) };

    ghost invariant = { λ r. IsLeft r.whole (at r.cursor) };
}

impl<'a> ArgReader<'a> {
    ghost use Rattle.dl_args.specs.Coming.{coming_of, GivesNext};

    /// A reader of the first `count` arguments of a payload, the field NOAR. Bytes after them are ignored.
    pub fn make(payload: &'a [u8], order: Order, count: u8) -> ArgReader<'a>
        ensures { result ≡ coming_of order count payload.now }
    {
        ArgReader {
            cursor: Cursor {
                rest: payload,
                order,
            },
            whole: payload.len(),
            left: count,
        }
    }

    /// The next argument, or why it can't be read; nothing where all are read. A fault is never out of memory.
    #[inline(always)]
    #[tactic(auto, unfolding(crate::specs::Coming::coming))]
    pub fn next_arg(&mut self) -> Option<Result<ArgRef<'a>, ArgFault>>
        ensures { GivesNext self.old result self.new }
    {
        if self.left == 0 {
            return None;
        }
        let mut cursor = self.cursor;
        let place = self.whole - cursor.rest.len();
        Some(match read_arg(&mut cursor, place) {
            Ok(arg) => {
                self.cursor = cursor;
                self.left -= 1;
                Ok(arg)
            }
            Err(fault) => Err(fault),
        })
    }
}

/// Copies of the first `count` arguments of a payload, the field NOAR. Bytes after them are ignored. They are read once;
/// where memory runs out the rest is read too, so that out of memory never hides a fault.
#[tactic(auto, using(crate::proofs::ArgLoop::coming_is, crate::proofs::ArgLoop::is_found, crate::proofs::ArgLoop::only_these, crate::proofs::ArgLoop::only_fault, crate::proofs::ArgLoop::is_no_want, crate::proofs::Places::fault_is, crate::proofs::Places::fault_found))]
pub fn read_args(
    alloc: Global,
    payload: &[u8],
    order: Order,
    count: u8,
) -> Result<ArgList, ArgFault>
    // What is read is in the form that is read.
    ensures found { IfOk result (λ args. (front : List ℕ) × (rest : List ℕ)
        × AreSpellings order args front × (payload.now ≡ front ++ rest) × (length args ≡ count)) }
    // What is in that form is read, unless memory runs out.
    ensures only { (args : List Arg) (front rest : List ℕ) → AreSpellings order args front → payload.now ≡ front ++ rest
        → length args ≡ count → ReturnsAll result (Ok args) }
    // Why it can't be read, and where the argument begins that can't be.
    ensures fault { IfErr result (IsFault order count payload.now) }
    // Which answer it is.
    ensures exact { ReturnsAll result (arguments_of order count payload.now) }
    // Want of memory comes only where every argument can be read.
    ensures memory { result ≡ Err ArgFault.OutOfMemory → IsOk (arguments_of order count payload.now) }
{
    match copy_args(alloc, ArgReader::make(payload, order, count)) {
        Ok(read) => read,
        Err(_) => {
            check_args(ArgReader::make(payload, order, count))?;
            Err(ArgFault::OutOfMemory)
        }
    }
}

/// The fault of the first argument that can't be read, if there is one.
fn check_args(reader: ArgReader) -> Result<(), ArgFault>
    ensures all { OnOk result (IsOk (all_of reader.entry)) }
    ensures first { IfErr result (λ fault. all_of reader.entry ≡ Err fault) }
{
    let mut unread = reader;
    while let Some(arg) = unread.next_arg() {
        arg?;
    }
    Ok(())
}

/// Copies of the arguments that come, or the fault of the first that can't be read.
fn copy_args(alloc: Global, reader: ArgReader) -> Result<Result<ArgList, ArgFault>, OutOfMemory>
    ensures { IfOk result (λ read. read ≡ all_of reader.entry) }
{
    let mut unread = reader;
    let mut args = Vec::with_capacity(alloc, usize::from(unread.left))?;
    while let Some(arg) = unread.next_arg() {
        match arg {
            Ok(arg) => args.push(arg.to_owned(alloc)?)?,
            Err(fault) => return Ok(Err(fault)),
        }
    }
    Ok(Ok(Sequence::over(args)))
}

/// The argument at the front, which begins at this place of the payload.
#[inline(always)]
#[tactic(auto, unfolding(crate::specs::Reading::arg_at))]
fn read_arg<'a>(cursor: &mut Cursor<'a>, place: usize) -> Result<ArgRef<'a>, ArgFault>
    ensures { Returns arg_in result cursor.new (arg_at place (at cursor.old)) }
{
    let info = cursor.u32().ok_or(ArgFault::Short(place))?;
    let kind = kind_of(info).ok_or(ArgFault::Unsupported(place, info))?;
    read_kind(cursor, place, kind, has_name(info))
}

/// An argument of this kind, behind its type info.
#[inline(always)]
#[tactic(auto, unfolding(crate::specs::Reading::kind_at))]
fn read_kind<'a>(
    cursor: &mut Cursor<'a>,
    place: usize,
    kind: Kind,
    named: bool,
) -> Result<ArgRef<'a>, ArgFault>
    ensures { Returns arg_in result cursor.new (kind_at kind place named (at cursor.old)) }
{
    match kind {
        Kind::Bool => read_bool(cursor, place, named),
        Kind::Sint(width) => read_sint(cursor, place, named, width),
        Kind::Uint(width) => read_uint(cursor, place, named, width),
        Kind::Text { utf8 } => read_text(cursor, place, named, utf8),
        Kind::Raw => read_raw(cursor, place, named),
    }
}

#[inline(always)]
#[tactic(auto, unfolding(crate::specs::Reading::bool_at))]
fn read_bool<'a>(cursor: &mut Cursor<'a>, place: usize, named: bool) -> Result<ArgRef<'a>, ArgFault>
    ensures { Returns arg_in result cursor.new (bool_at place named (at cursor.old)) }
{
    let short = ArgFault::Short(place);
    let name = fields::name(cursor, named).ok_or(short)?;
    let value = match cursor.u8().ok_or(short)? {
        0 => false,
        1 => true,
        _ => return Err(ArgFault::Value(place)),
    };
    Ok(ArgRef::Bool { name, value })
}

#[inline(always)]
#[tactic(auto, unfolding(crate::specs::Reading::sint_at))]
fn read_sint<'a>(
    cursor: &mut Cursor<'a>,
    place: usize,
    named: bool,
    width: Width,
) -> Result<ArgRef<'a>, ArgFault>
    ensures { Returns arg_in result cursor.new (sint_at width place named (at cursor.old)) }
{
    let short = ArgFault::Short(place);
    let (name, unit) = fields::names(cursor, named).ok_or(short)?;
    let value = fields::signed(cursor, width).ok_or(short)?;
    Ok(ArgRef::Sint {
        name,
        unit,
        width,
        value,
    })
}

#[inline(always)]
#[tactic(auto, unfolding(crate::specs::Reading::uint_at))]
fn read_uint<'a>(
    cursor: &mut Cursor<'a>,
    place: usize,
    named: bool,
    width: Width,
) -> Result<ArgRef<'a>, ArgFault>
    ensures { Returns arg_in result cursor.new (uint_at width place named (at cursor.old)) }
{
    let short = ArgFault::Short(place);
    let (name, unit) = fields::names(cursor, named).ok_or(short)?;
    let value = fields::unsigned(cursor, width).ok_or(short)?;
    Ok(ArgRef::Uint {
        name,
        unit,
        width,
        value,
    })
}

#[inline(always)]
#[tactic(auto, unfolding(crate::specs::Reading::text_arg_at))]
fn read_text<'a>(
    cursor: &mut Cursor<'a>,
    place: usize,
    named: bool,
    utf8: bool,
) -> Result<ArgRef<'a>, ArgFault>
    ensures { Returns arg_in result cursor.new (text_arg_at utf8 place named (at cursor.old)) }
{
    let (name, field) = fields::named_bytes(cursor, named).ok_or(ArgFault::Short(place))?;
    Ok(ArgRef::Text {
        name,
        bytes: fields::unclosed(field),
        utf8,
    })
}

#[inline(always)]
#[tactic(auto, unfolding(crate::specs::Reading::raw_at))]
fn read_raw<'a>(cursor: &mut Cursor<'a>, place: usize, named: bool) -> Result<ArgRef<'a>, ArgFault>
    ensures { Returns arg_in result cursor.new (raw_at place named (at cursor.old)) }
{
    let (name, bytes) = fields::named_bytes(cursor, named).ok_or(ArgFault::Short(place))?;
    Ok(ArgRef::Raw { name, bytes })
}
