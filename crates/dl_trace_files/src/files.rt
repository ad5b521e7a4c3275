//! The files of a trace: those that are named, and the trace files of the folders that are named.

ghost use Rattle.std.specs.Prelude.{◌≡◌, ◌++◌, ◌∷◌, [], IfOk, OnOk, filter, map, string_bytes};
ghost use Rattle.std.specs.List.{flat_map, list_all, list_any};
ghost use Rattle.std.specs.Str.{bytes_eq};
ghost use Rattle.dl_outside.specs.Folder.{Answers};
ghost use Rattle.dl_trace_files.specs.Files.{files_asked, files_of, front_in, is_digit, is_file, is_numbered, is_trace_name, listed, or_itself, plain, with_name, with_names};
ghost use Rattle.dl_trace_files.specs.Left.{ReadsFolder};

use crate::names::{TRACE_FRONT, front_in, plain};
use dl_bytes::{OutOfMemory, Sequence};
use dl_outside::{Folder, FolderFault, Name, NameList};
use std::alloc::Global;

/// Whether all of these letters are digits.
fn are_digits(letters: &[u8]) -> bool
    ensures { result ≡ list_all is_digit letters.now }
{
    letters.iter().all(|b| b.is_ascii_digit())
}

/// Whether a name ends as those of trace files do: six digits and `.dlt`.
fn is_numbered(rest: &[u8]) -> bool
    ensures { result ≡ is_numbered rest.now }
{
    if rest.len() != 10 {
        return false;
    }
    let (number, ending) = rest.split_at(6);
    are_digits(number) && ending == b".dlt".as_slice()
}

/// Whether a name that begins so is that of a trace file.
fn is_trace_name(front: &str, name: &str) -> bool
    ensures { result ≡ is_trace_name front.now name.now }
{
    let name = name.as_bytes();
    if name.len() < front.len() {
        return false;
    }
    is_numbered(&name[front.len()..])
}

/// Those of these names that trace files have.
fn numbered(front: &str, names: NameList) -> NameList
    ensures { result ≡ filter (is_trace_name front.now) names }
{
    let mut kept = names.into_vec();
    kept.retain(|name| is_trace_name(front, name.as_str()));
    Sequence::over(kept)
}

/// The trace files whose names begin so, in the order of their numbers.
fn listed<F: Folder>(folder: &mut F, front: &str) -> Result<NameList, FolderFault>
    ensures found { Answers (F.told folder.old).files result (λ all. listed all front.now) }
    ensures looks { ReadsFolder (F.told folder.old) (F.told folder.new) result }
{
    match folder.names(front) {
        Ok(names) => Ok(numbered(front, names)),
        Err(fault) => Err(fault),
    }
}

/// Whether a name is among these.
pub fn has(names: &[Name], name: &str) -> bool
    ensures { result ≡ list_any (bytes_eq name.now) names.now }
{
    names.iter().any(|other| name == other.as_str())
}

/// Whether a file has this name.
fn is_file<F: Folder>(folder: &mut F, name: &str) -> Result<bool, FolderFault>
    ensures found { Answers (F.told folder.old).files result (λ all. is_file all name.now) }
    ensures looks { ReadsFolder (F.told folder.old) (F.told folder.new) result }
{
    match folder.names(name) {
        Ok(names) => Ok(has(names.all(), name)),
        Err(fault) => Err(fault),
    }
}

/// A list of one name.
pub fn alone(alloc: Global, name: &str) -> Result<NameList, OutOfMemory>
    ensures { IfOk result (λ names. names ≡ name.now ∷ []) }
{
    let mut names = Vec::new(alloc);
    names.push(Name::over(String::from_str(alloc, name)?))?;
    Ok(Sequence::over(names))
}

/// These names, or else this one.
fn or_itself(alloc: Global, name: &str, names: NameList) -> Result<NameList, OutOfMemory>
    ensures { IfOk result (λ all. all ≡ or_itself name.now names) }
{
    if names.all().is_empty() {
        alone(alloc, name)
    } else {
        Ok(names)
    }
}

/// The trace files of a folder, or else the name by which it was asked for.
fn in_folder<F: Folder>(
    alloc: Global,
    folder: &mut F,
    plain_name: &str,
    name: &str,
) -> Result<NameList, FolderFault>
    ensures found { Answers (F.told folder.old).files result (λ all. or_itself name.now (listed all (front_in plain_name.now))) }
    ensures looks { ReadsFolder (F.told folder.old) (F.told folder.new) result }
{
    let Ok(front) = front_in(alloc, plain_name) else {
        return Err(FolderFault::OutOfMemory);
    };
    let files = match listed(folder, front.as_str()) {
        Ok(files) => files,
        Err(fault) => return Err(fault),
    };
    match or_itself(alloc, name, files) {
        Ok(files) => Ok(files),
        Err(_) => Err(FolderFault::OutOfMemory),
    }
}

/// The files that a name stands for, which is this one where it has no part that names nothing.
fn files_by<F: Folder>(
    alloc: Global,
    folder: &mut F,
    plain_name: &str,
    name: &str,
) -> Result<NameList, FolderFault>
    requires { plain_name.now ≡ plain name.now }
    ensures found { Answers (F.told folder.old).files result (λ all. files_of all name.now) }
    ensures looks { ReadsFolder (F.told folder.old) (F.told folder.new) result }
{
    match is_file(folder, plain_name) {
        Ok(true) => match alone(alloc, plain_name) {
            Ok(names) => Ok(names),
            Err(_) => Err(FolderFault::OutOfMemory),
        },
        Ok(false) => in_folder(alloc, folder, plain_name, name),
        Err(fault) => Err(fault),
    }
}

/// The files that a name stands for.
fn files_of<F: Folder>(alloc: Global, folder: &mut F, name: &str) -> Result<NameList, FolderFault>
    ensures found { Answers (F.told folder.old).files result (λ all. files_of all name.now) }
    ensures looks { ReadsFolder (F.told folder.old) (F.told folder.new) result }
{
    match plain(alloc, name) {
        Ok(plain_name) => files_by(alloc, folder, plain_name.as_str(), name),
        Err(_) => Err(FolderFault::OutOfMemory),
    }
}

/// Adds names.
fn add(all: &mut Vec<Name>, names: NameList) -> Result<(), OutOfMemory>
    ensures { OnOk result (all.new.items ≡ all.old.items ++ names) }
{
    all.append(&mut names.into_vec())?;
    Ok(())
}

/// The files that these names stand for, in their order.
fn named<F: Folder>(alloc: Global, folder: &mut F, names: &[&str]) -> Result<NameList, FolderFault>
    ensures found { Answers (F.told folder.old).files result (λ all. flat_map (files_of all) (map (λ name. name.now) names.now)) }
    ensures looks { ReadsFolder (F.told folder.old) (F.told folder.new) result }
{
    let mut all = Vec::new(alloc);
    for name in names {
        let files = match files_of(alloc, folder, name) {
            Ok(files) => files,
            Err(fault) => return Err(fault),
        };
        if add(&mut all, files).is_err() {
            return Err(FolderFault::OutOfMemory);
        }
    }
    Ok(Sequence::over(all))
}

/// Adds a name that isn't among these.
fn add_once(all: &mut Vec<Name>, name: Name) -> Result<(), OutOfMemory>
    ensures { OnOk result (all.new.items ≡ with_name all.old.items name) }
{
    if !has(all, name.as_str()) {
        all.push(name)?;
    }
    Ok(())
}

/// These names, each once.
fn once(alloc: Global, names: NameList) -> Result<NameList, OutOfMemory>
    ensures { IfOk result (λ kept. kept ≡ with_names [] names) }
{
    let mut all = Vec::new(alloc);
    for name in names.into_vec() {
        add_once(&mut all, name)?;
    }
    Ok(Sequence::over(all))
}

/// The files that these names stand for, in their order, each once.
#[tactic(auto, using(crate::proofs::Naming::each_once))]
fn named_once<F: Folder>(
    alloc: Global,
    folder: &mut F,
    names: &[&str],
) -> Result<NameList, FolderFault>
    ensures found { Answers (F.told folder.old).files result (λ all. with_names [] (flat_map (files_of all) (map (λ name. name.now) names.now))) }
    ensures looks { ReadsFolder (F.told folder.old) (F.told folder.new) result }
{
    let files = match named(alloc, folder, names) {
        Ok(files) => files,
        Err(fault) => return Err(fault),
    };
    match once(alloc, files) {
        Ok(files) => Ok(files),
        Err(_) => Err(FolderFault::OutOfMemory),
    }
}

/// The files that are asked for by these names, each once; without a name the trace files of the current folder.
pub fn files_asked<F: Folder>(
    alloc: Global,
    folder: &mut F,
    names: &[&str],
) -> Result<NameList, FolderFault>
    ensures found { Answers (F.told folder.old).files result (λ all. files_asked all (map (λ name. name.now) names.now)) }
    ensures looks { ReadsFolder (F.told folder.old) (F.told folder.new) result }
{
    if names.is_empty() {
        listed(folder, TRACE_FRONT)
    } else {
        named_once(alloc, folder, names)
    }
}
