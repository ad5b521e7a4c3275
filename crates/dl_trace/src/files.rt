//! The list of files beside a folder: what one piece more changes.

ghost use Rattle.std.specs.Prelude.{◌≡◌, ◌≤◌, ◌<◌, ◌+◌, ◌-◌, ◌^◌, ℕ, All, length, is_ok, if◌then◌else◌};
ghost use Rattle.std.specs.Str.{IsAscii};
ghost use Rattle.dl_trace.specs.Pieces.{last_size};
ghost use Rattle.dl_trace.specs.Steps.{Begins, Extends, RemovesAll, end_of, going, gone_names, grown_last, last_name, names_of, with_new};
ghost use Rattle.dl_trace.specs.Storing.{HasCause};

use crate::name::as_text;
use dl_bytes::{Bytes, TraceEnd, TraceFile};
use dl_outside::{Folder, FolderFault};

/// Why a trace ends where a folder refuses a call.
pub fn end_of(fault: FolderFault) -> TraceEnd
    ensures { result ≡ end_of fault }
{
    match fault {
        FolderFault::Failed => TraceEnd::Failed,
        FolderFault::OutOfMemory => TraceEnd::NoMemory,
    }
}

/// How many of the oldest files go, so that the others have together at most `limit` bytes.
fn going(files: &[TraceFile], limit: u64) -> usize
    ensures value { result ≡ going limit files.now }
    ensures within { result ≤ length files.now }
{
    let mut first = files.len();
    let mut room = limit;
    while first > 0 && files[first - 1].bytes <= room {
        first -= 1;
        room -= files[first].bytes;
    }
    first
}

/// Takes files away, the oldest first.
fn remove_all<F: Folder>(folder: &mut F, files: &[TraceFile]) -> Result<(), TraceEnd>
    requires { All (λ (file : TraceFile). IsAscii file.name) files.now }
    ensures folder { RemovesAll (F.told folder.old).files (F.told folder.new).files result (names_of files.now) }
    ensures cause { HasCause (F.told folder.old).faults (F.told folder.new).faults result }
    ensures appends { (F.told folder.new).appends ≡ (F.told folder.old).appends }
{
    for file in files {
        match folder.remove(as_text(file.name.all())) {
            Ok(()) => {}
            Err(fault) => return Err(end_of(fault)),
        }
    }
    Ok(())
}

/// Adds a piece to the newest file.
pub fn extend_file<F: Folder>(
    files: &mut Vec<TraceFile>,
    folder: &mut F,
    piece: &[u8],
) -> Result<(), TraceEnd>
    requires some { 0 < length files.old.items }
    requires small { last_size files.old.items + length piece.now < 2 ^ 64 }
    requires text { All (λ (file : TraceFile). IsAscii file.name) files.old.items }
    ensures files { files.new.items ≡ (if is_ok result then grown_last (length piece.now) files.old.items else files.old.items) }
    ensures folder { Extends (F.told folder.old).files (F.told folder.new).files result (last_name files.old.items) piece.now }
    ensures cause { HasCause (F.told folder.old).faults (F.told folder.new).faults result }
    ensures appends { (F.told folder.new).appends ≤ (F.told folder.old).appends + 1 }
{
    let newest = files.len() - 1;
    match folder.append(as_text(files[newest].name.all()), piece) {
        Ok(()) => {
            files[newest].bytes += piece.len() as u64;
            Ok(())
        }
        Err(fault) => Err(end_of(fault)),
    }
}

/// Begins a file of this name with a piece. Then, of the others, the oldest go that have no room in `limit` bytes.
pub fn begin_file<F: Folder>(
    files: &mut Vec<TraceFile>,
    folder: &mut F,
    name: Bytes,
    piece: &[u8],
    limit: u64,
) -> Result<(), TraceEnd>
    requires name { IsAscii name }
    requires text { All (λ (file : TraceFile). IsAscii file.name) files.old.items }
    ensures files { files.new.items ≡ (if is_ok result then with_new limit name (length piece.now) files.old.items else files.old.items) }
    ensures folder { Begins (F.told folder.old).files (F.told folder.new).files result name piece.now (gone_names limit files.old.items) }
    ensures cause { HasCause (F.told folder.old).faults (F.told folder.new).faults result }
    ensures appends { (F.told folder.new).appends ≤ (F.told folder.old).appends + 1 }
{
    if files.reserve(1).is_err() {
        return Err(TraceEnd::NoMemory);
    }
    match folder.append(as_text(name.all()), piece) {
        Ok(()) => {}
        Err(fault) => return Err(end_of(fault)),
    }
    let gone = going(files, limit);
    remove_all(folder, &files[..gone])?;
    files.drain(..gone);
    let bytes = piece.len() as u64;
    files.push(TraceFile { name, bytes }).unwrap();
    Ok(())
}
