//! Files in an empty folder.

use dl_outside::{Folder, NameList};
use dl_real::Directory;
use std::alloc::Global;
use std::fs::Files;
use std::io;
use std::os::unix::fs::symlink;

/// Whether the folder has these names with this prefix.
fn has_names<F: Folder>(folder: &mut F, prefix: &str, wanted: &[&str]) -> bool {
    match folder.names(prefix) {
        Ok(names) => are(&names, wanted),
        Err(_) => false,
    }
}

/// Whether these are the names.
fn are(names: &NameList, wanted: &[&str]) -> bool {
    let all = names.all();
    all.len() == wanted.len()
        && all
            .iter()
            .zip(wanted)
            .all(|(name, other)| name.as_str() == *other)
}

/// Whether a file has these bytes.
fn has_bytes<F: Folder>(folder: &mut F, name: &str, wanted: &[u8]) -> bool {
    match folder.read(name) {
        Ok(Some(bytes)) => bytes.all() == wanted,
        _ => false,
    }
}

/// Whether the folder knows that there is no such file.
fn has_none<F: Folder>(folder: &mut F, name: &str) -> bool {
    match (folder.read(name), folder.size(name)) {
        (Ok(None), Ok(None)) => true,
        _ => false,
    }
}

/// Whether every call on this name is refused as a fault, and counted.
fn is_refused<F: Folder>(folder: &mut F, name: &str) -> bool {
    let before = folder.faults();
    let all = folder.read(name).is_err()
        && folder.size(name).is_err()
        && folder.put(name, b"x").is_err()
        && folder.append(name, b"x").is_err()
        && folder.remove(name).is_err();
    all && folder.faults().saturating_sub(before) == 5
}

/// Whether five pieces are added to two files.
fn adds<F: Folder>(folder: &mut F) -> bool {
    folder.append("trace/b.2", b"one").is_ok()
        && folder.append("trace/b.2", b"two").is_ok()
        && folder.append("trace/b.1", b"other").is_ok()
        && folder.append("trace/b.2", b"").is_ok()
        && folder.append("trace/b.2", b"three").is_ok()
}

/// Whether three files are put.
fn puts<F: Folder>(folder: &mut F) -> bool {
    folder.put("trace/b.1", b"newer").is_ok()
        && folder.put("trace/b.1", b"new!").is_ok()
        && folder.put("trace/c", b"").is_ok()
}

/// Whether a file is removed, and again where it is gone.
fn removes<F: Folder>(folder: &mut F) -> bool {
    folder.remove("trace/b.2").is_ok() && folder.remove("trace/b.2").is_ok()
}

/// Whether an empty folder has what is added and put.
fn fills<F: Folder>(folder: &mut F) -> [bool; 7] {
    [
        has_names(folder, "trace/", &[]),
        has_none(folder, "trace/b.2"),
        adds(folder),
        has_bytes(folder, "trace/b.2", b"onetwothree"),
        puts(folder),
        has_bytes(folder, "trace/b.1", b"new!"),
        has_names(folder, "trace/b.", &["trace/b.1", "trace/b.2"]),
    ]
}

/// Whether a removed file is gone, and begins anew.
fn begins_anew<F: Folder>(folder: &mut F) -> [bool; 5] {
    [
        removes(folder),
        has_none(folder, "trace/b.2"),
        folder.append("trace/b.2", b"again").is_ok(),
        has_bytes(folder, "trace/b.2", b"again"),
        folder.size("trace/b.2") == Ok(Some(5)),
    ]
}

/// How often calls failed, were to change a file, and added to one.
fn counts<F: Folder>(folder: &F) -> (u64, u64, u64) {
    (folder.faults(), folder.changes(), folder.appends())
}

/// Whether an empty folder is filled and begun anew, and how often that changed a file.
fn is_filled<F: Folder>(folder: &mut F) -> bool {
    fills(folder) == [true; 7] && begins_anew(folder) == [true; 5] && counts(folder) == (0, 11, 6)
}

#[test]
fn files(rt: HostRuntime) {
    assert!(rt; is_so(rt, Trial::Fills));
}

/// So many bytes, no two pieces of them alike.
fn pattern(alloc: Global, len: u32) -> Option<Vec<u8>> {
    let mut bytes = Vec::with_capacity(alloc, len as usize).ok()?;
    for n in 0..len {
        bytes.push((n % 251) as u8).ok()?;
    }
    Some(bytes)
}

/// Whether a file that is put is read whole.
fn reads_whole<F: Folder>(alloc: Global, folder: &mut F) -> bool {
    match pattern(alloc, 20000) {
        Some(bytes) => { folder.put("large", &bytes).is_ok() && has_bytes(folder, "large", &bytes) }
        None => false,
    }
}

#[test]
fn a_large_file_is_read_whole(rt: HostRuntime) {
    assert!(rt; is_so(rt, Trial::ReadsWhole));
}

/// Names of what is no plain file below the folder.
const REFUSED: [&str; 5] = ["", "there", "there/link", "there/dangling", "way"];

/// The place of the first of these names that isn't refused.
fn other<F: Folder>(folder: &mut F, names: &[&str]) -> Option<usize> {
    for (place, name) in names.iter().enumerate() {
        if !is_refused(folder, name) {
            return Some(place);
        }
    }
    None
}

/// Names that lie elsewhere, or may.
const ELSEWHERE: [&str; 4] = [
    "/etc/hostname",
    "../up",
    "there/../../up",
    "there/../dlt_offlinetrace.00001.dlt",
];

/// Whether nothing is written under any of these names.
fn writes_none<F: Folder>(folder: &mut F, names: &[&str]) -> bool {
    let before = folder.faults();
    for name in names {
        let some = folder.put(name, b"x").is_ok()
            || folder.append(name, b"x").is_ok()
            || folder.remove(name).is_ok();
        if some {
            return false;
        }
    }
    folder.faults().saturating_sub(before) == 12
}

/// Whether names that go up are read, and trace files of such names are written.
fn goes_up<F: Folder>(folder: &mut F) -> [bool; 4] {
    [
        has_bytes(folder, "there/../there/plain", b"stays"),
        folder
            .append("there/../dlt_offlinetrace.000001.dlt", b"x")
            .is_ok(),
        has_bytes(folder, "dlt_offlinetrace.000001.dlt", b"x"),
        folder
            .remove("there/../dlt_offlinetrace.000001.dlt")
            .is_ok(),
    ]
}

/// Whether what is written stays below the folder, but for trace files.
fn stays_below<F: Folder>(folder: &mut F) -> bool {
    folder.put("there/plain", b"stays").is_ok()
        && writes_none(folder, &ELSEWHERE)
        && goes_up(folder) == [true; 4]
}

#[test]
fn what_is_written_stays_below(rt: HostRuntime) {
    assert!(rt; is_so(rt, Trial::StaysBelow));
}

/// Links to a plain file, to nothing, and to a directory.
fn link_all<R: Files>(rt: &R) -> io::Result<()> {
    symlink(rt, "plain", "there/link")?;
    symlink(rt, "nowhere", "there/dangling")?;
    symlink(rt, "there", "way")
}

/// Whether the plain file alone is there, is found by a directory that is a link, and is added to.
fn stays<F: Folder>(folder: &mut F) -> [bool; 5] {
    [
        has_names(folder, "there/", &["there/plain"]),
        has_bytes(folder, "there/plain", b"stays"),
        // The directories on the way may be links.
        has_bytes(folder, "way/plain", b"stays"),
        folder.append("way/plain", b"!").is_ok(),
        has_bytes(folder, "there/plain", b"stays!"),
    ]
}

/// Whether plain files alone are touched, where links lie beside one.
fn touches_plain<R: Files, F: Folder>(rt: &R, folder: &mut F) -> bool {
    folder.put("there/plain", b"stays").is_ok()
        && link_all(rt).is_ok()
        && other(folder, &REFUSED).is_none()
        && stays(folder) == [true; 5]
}

#[test]
fn only_plain_files_are_touched(rt: HostRuntime) {
    assert!(rt; is_so(rt, Trial::TouchesPlain));
}

/// Whether a plain file isn't removed, none is made, and one of which no byte can be read is refused.
fn refuses<F: Folder>(folder: &mut F) -> [bool; 5] {
    [
        folder.remove("process/status").is_err(),
        folder.put("process/none", b"x").is_err(),
        folder.append("process/none", b"x").is_err(),
        folder.read("process/mem").is_err(),
        has_none(folder, "process/none"),
    ]
}

/// Whether what the system refuses is a fault: plain files that can't be removed or made, and one of which no byte can be read.
fn are_faults<R: Files, F: Folder>(rt: &R, folder: &mut F) -> bool {
    symlink(rt, "/proc/self", "process").is_ok()
        && refuses(folder) == [true; 5]
        && counts(folder) == (4, 3, 1)
}

#[test]
fn what_the_system_refuses_is_a_fault(rt: HostRuntime) {
    assert!(rt; is_so(rt, Trial::AreFaults));
}

/// What is tried, each by the function of its name.
#[derive(Clone, Copy)]
enum Trial {
    Fills,
    ReadsWhole,
    StaysBelow,
    TouchesPlain,
    AreFaults,
}

/// Whether what is tried is as it should be.
fn tried<R: Files, F: Folder>(rt: &R, alloc: Global, folder: &mut F, trial: Trial) -> bool {
    match trial {
        Trial::Fills => is_filled(folder),
        Trial::ReadsWhole => reads_whole(alloc, folder),
        Trial::StaysBelow => stays_below(folder),
        Trial::TouchesPlain => touches_plain(rt, folder),
        Trial::AreFaults => are_faults(rt, folder),
    }
}

/// The same over the current folder.
fn is_so(rt: HostRuntime, trial: Trial) -> bool {
    let mut folder = Directory::over(rt);
    tried(&rt, rt.alloc(), &mut folder, trial)
}
