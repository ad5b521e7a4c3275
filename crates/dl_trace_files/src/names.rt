//! Names of files and folders, without the parts that name nothing: `./storage/w` and `storage/w/` are one.

ghost use Rattle.std.specs.Prelude.{◌≡◌, IfOk, OnOk, string_bytes};
ghost use Rattle.dl_trace_files.specs.Files.{front_in, is_open, names_nothing, plain, root_of, with_part, within};

use dl_bytes::OutOfMemory;
use std::alloc::Global;

/// What the names of trace files begin with.
pub const TRACE_FRONT: &str = "dlt_offlinetrace.";

/// Whether a part of a name is empty, or a point.
fn names_nothing(part: &str) -> bool
    ensures { result ≡ names_nothing part.now }
{
    part.is_empty() || part == "."
}

/// Whether a part stands right behind the name of a folder, which is the current one or the root.
fn is_open(folder: &str) -> bool
    ensures { result ≡ is_open folder.now }
{
    folder.is_empty() || folder == "/"
}

/// Goes into a folder, which is the current one where it has no name.
fn go_into(folder: &mut String, part: &str) -> Result<(), OutOfMemory>
    ensures { OnOk result (string_bytes folder.new ≡ within (string_bytes folder.old) part.now) }
{
    if !is_open(folder.as_str()) {
        folder.push_str("/")?;
    }
    folder.push_str(part)
}

/// Goes on by a part of a name, which may name nothing.
fn go_on(folder: &mut String, part: &str) -> Result<(), OutOfMemory>
    ensures { OnOk result (string_bytes folder.new ≡ with_part (string_bytes folder.old) part.now) }
{
    if names_nothing(part) {
        return Ok(());
    }
    go_into(folder, part)
}

/// Where a name begins: at the root, or in the current folder.
fn root_of(name: &str) -> &str
    ensures { result.now ≡ root_of name.now }
{
    if name.as_bytes().starts_with(b"/") {
        "/"
    } else {
        ""
    }
}

/// A name without the parts that name nothing; that of the current folder is empty.
pub fn plain(alloc: Global, name: &str) -> Result<String, OutOfMemory>
    ensures { IfOk result (λ text. string_bytes text ≡ plain name.now) }
{
    let mut folder = String::from_str(alloc, root_of(name))?;
    let mut rest = name;
    while let Some((part, behind)) = rest.split_once('/') {
        go_on(&mut folder, part)?;
        rest = behind;
    }
    go_on(&mut folder, rest)?;
    Ok(folder)
}

/// What the names of a folder's trace files begin with.
pub fn front_in(alloc: Global, folder: &str) -> Result<String, OutOfMemory>
    ensures { IfOk result (λ front. string_bytes front ≡ front_in folder.now) }
{
    let mut front = String::from_str(alloc, folder)?;
    go_into(&mut front, TRACE_FRONT)?;
    Ok(front)
}
