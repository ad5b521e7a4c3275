//! Why the system refused a call, in a few words for who reads a line on standard error.

use std::io::{Error, ErrorKind};

/// The number by which the system says that this process has no descriptor left.
const NO_DESCRIPTOR: i32 = 24;

/// The number by which the system says that nobody has a descriptor left.
const NO_DESCRIPTOR_AT_ALL: i32 = 23;

/// Why a name could not be read or written. A name that this project refuses itself has the kinds `InvalidInput`, which is not
/// below the folder, and `InvalidData`, which is no plain file.
fn file_reason(kind: ErrorKind) -> Option<&'static str> {
    match kind {
        ErrorKind::NotFound => Some("not found"),
        ErrorKind::AlreadyExists => Some("is there already"),
        ErrorKind::StorageFull => Some("no space left"),
        ErrorKind::QuotaExceeded => Some("the quota is used up"),
        ErrorKind::FileTooLarge => Some("the file may grow no more"),
        ErrorKind::ReadOnlyFilesystem => Some("the file system may only be read"),
        ErrorKind::NotADirectory => Some("a part of the name is no directory"),
        ErrorKind::IsADirectory => Some("is a directory"),
        ErrorKind::FilesystemLoop => Some("too many links"),
        ErrorKind::InvalidFilename => Some("the name is too long"),
        ErrorKind::InvalidInput => Some("not below this folder"),
        ErrorKind::InvalidData => Some("no plain file"),
        _ => None,
    }
}

/// Why a port could not be listened on or dialled.
fn port_reason(kind: ErrorKind) -> Option<&'static str> {
    match kind {
        ErrorKind::AddrInUse => Some("taken"),
        ErrorKind::AddrNotAvailable => Some("no such address"),
        ErrorKind::ConnectionRefused => Some("nobody listens there"),
        ErrorKind::ConnectionReset => Some("the other side broke it off"),
        ErrorKind::HostUnreachable => Some("the host is not reached"),
        ErrorKind::NetworkUnreachable => Some("the network is not reached"),
        ErrorKind::TimedOut => Some("no answer"),
        _ => None,
    }
}

/// Whether the system says by this number that no descriptor is left.
fn is_want_of_descriptors(number: Option<i32>) -> bool {
    match number {
        Some(number) => number == NO_DESCRIPTOR || number == NO_DESCRIPTOR_AT_ALL,
        None => false,
    }
}

/// Why a call of the system was refused, in words.
pub fn reason(error: &Error) -> &'static str {
    let kind = error.kind();
    if kind == ErrorKind::PermissionDenied {
        return "not allowed";
    }
    if let Some(words) = file_reason(kind) {
        return words;
    }
    if let Some(words) = port_reason(kind) {
        return words;
    }
    if is_want_of_descriptors(error.raw_os_error()) {
        "too many open files"
    } else {
        "refused by the system"
    }
}
