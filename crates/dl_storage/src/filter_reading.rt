//! The lines of `dlt_storage.cfg`, one after the other.

ghost use Rattle.std.specs.Prelude.{◌≡◌, ◌≤◌, ◌<◌, ◌++◌, ◌∷◌, [], length, map, option_map, true, false, IfOk, OnOk, Some, None};
ghost use Rattle.dl_startup.specs.declared.storage_kind.StorageKind.TheVariants as wrong;
ghost use Rattle.std.specs.List.{filter_map, list_any};
ghost use Rattle.std.specs.Str.{bytes_eq};
ghost use Rattle.dl_text.specs.Faults.{size_limit, first_fault};
ghost use Rattle.dl_text.specs.Lines.{lines_of};
ghost use Rattle.dl_conf.specs.Conf.{without_return};
ghost use Rattle.dl_storage.specs.FilterLine.{line_said};
ghost use Rattle.dl_storage.specs.FilterWhole.{fault_by, fault_in, name_in, wanted_in, wanted_of};
ghost use Rattle.dl_storage.specs.FiltersHeld.{held_in, names_held, refused_by, IsWell};

use crate::filter::Filter;
use crate::filter_line::line_filter;
use crate::filter_list::FILTER_LIMIT;
use crate::line_filter::LineFilter;
use arrayvec::ArrayVec;
use dl_bytes::{Bytes, OutOfMemory};
use dl_startup::StorageKind;
use dl_text::lines;
use std::alloc::Global;

/// The text without the carriage return at its end, where it has one: the last line may end with one, as the others do.
pub fn without_return(text: &[u8]) -> &[u8]
    ensures value { result.now ≡ without_return text.now }
    ensures len { length result.now ≤ length text.now }
{
    if text.len() > 0 && text[text.len() - 1] == b'\r' {
        &text[..text.len() - 1]
    } else {
        text
    }
}

/// Whether one of the names is this one.
fn is_taken(names: &[&[u8]], name: &[u8]) -> bool
    ensures { result ≡ list_any (λ other. bytes_eq other name.now) (names_held names.now) }
{
    for other in names {
        if *other == name {
            return true;
        }
    }
    false
}

/// What is wrong with a filter of this name behind those of other names.
fn fault_of(names: &[&[u8]], name: &[u8]) -> Option<StorageKind>
    ensures twice { list_any (λ other. bytes_eq other name.now) (names_held names.now) ≡ true → result ≡ Some wrong.Twice }
    ensures many { list_any (λ other. bytes_eq other name.now) (names_held names.now) ≡ false → 16 ≤ length names.now → result ≡ Some wrong.TooMany }
    ensures none { list_any (λ other. bytes_eq other name.now) (names_held names.now) ≡ false → length names.now < 16 → result ≡ None }
{
    if is_taken(names, name) {
        Some(StorageKind::Twice)
    } else if names.len() >= FILTER_LIMIT {
        Some(StorageKind::TooMany)
    } else {
        None
    }
}

/// Adds the name of a line's filter, where it says one and nothing is wrong with it.
fn take_in<'a>(names: &mut ArrayVec<&'a [u8], 16>, line: &'a [u8]) -> Result<(), StorageKind>
    ensures fault { result ≡ refused_by (fault_by (names_held names.old.items) (line_said line.now)) }
    ensures names { OnOk result (names_held names.new.items ≡ names_held names.old.items ++ filter_map name_in (line.now ∷ [])) }
{
    let filter = match line_filter(line) {
        Ok(Some(filter)) => filter,
        Ok(None) => return Ok(()),
        Err(kind) => return Err(kind),
    };
    match fault_of(names.as_slice(), filter.name) {
        None => {
            names.push(filter.name);
            Ok(())
        }
        Some(kind) => Err(kind),
    }
}

/// The first line at fault, and what is wrong with it.
pub fn faulty_line(text: &[u8]) -> Option<(u32, StorageKind)>
    requires { length text.now ≤ size_limit }
    ensures { result ≡ first_fault fault_in (lines_of text.now) }
{
    let mut names = ArrayVec::new();
    let mut number = 0;
    for line in lines(text) {
        number += 1;
        match take_in(&mut names, line) {
            Ok(()) => {}
            Err(kind) => return Some((number, kind)),
        }
    }
    None
}

/// The filter of a line, with a name of its own.
fn kept(alloc: Global, filter: &LineFilter<'_>) -> Result<Filter, OutOfMemory>
    requires { IsWell filter.now }
    ensures { IfOk result (λ kept. wanted_of kept ≡ held_in filter.now) }
{
    Ok(Filter {
        name: Bytes::over(Vec::from_slice(alloc, filter.name)?),
        apid: filter.apid,
        ctid: filter.ctid,
        severity: filter.severity,
        size: filter.size,
        max: filter.max,
    })
}

/// The filter that a line says, where it says one.
fn filter_on(alloc: Global, line: &[u8]) -> Result<Option<Filter>, OutOfMemory>
    ensures { IfOk result (λ found. option_map wanted_of found ≡ wanted_in line.now) }
{
    match line_filter(line) {
        Ok(Some(filter)) => Ok(Some(kept(alloc, &filter)?)),
        Ok(None) => Ok(None),
        Err(_) => Ok(None),
    }
}

/// The filters that the lines of a text say.
pub fn filters_in(alloc: Global, text: &[u8]) -> Result<Vec<Filter>, OutOfMemory>
    ensures { IfOk result (λ filters. map wanted_of filters.items ≡ filter_map wanted_in (lines_of text.now)) }
{
    let mut filters = Vec::new(alloc);
    for line in lines(text) {
        if let Some(filter) = filter_on(alloc, line)? {
            filters.push(filter)?;
        }
    }
    Ok(filters)
}
