//! One line of `dlt.conf`: its key, and what its value sets.

ghost use Rattle.std.specs.Prelude.{◌≡◌, ◌≤◌, true, length, IfOk, IfSome, option_map};
ghost use Rattle.std.specs.List.{list_all};
ghost use Rattle.dl_bytes.specs.Conf.{is_printable};
ghost use Rattle.dl_conf.specs.Setting.{key_named, number_within, ecu_within, directory_within, map_ok, said_of, said_with, line_said, shown, IsWithin};

use crate::conf::ConfKind;
use dl_bytes::{DIRECTORY_LIMIT, Id, Level};
use dl_text::{number, parted_at, trimmed};

/// A key that the daemon reads.
#[derive(Clone, Copy, PartialEq, Eq)]
pub enum Key {
    /// `ECUId`
    Ecu,
    /// `ContextLogLevel`
    Level,
    /// `RingbufferMaxSize`
    Buffer,
    /// `OfflineTraceDirectory`
    Directory,
    /// `OfflineTraceFileSize`
    FileSize,
    /// `OfflineTraceMaxSize`
    MaxSize,
    /// `InjectionMode`
    Injection,
}

/// A key with the value that a line sets it to.
#[derive(Clone, Copy)]
pub enum Setting<'a> {
    /// The id of the control unit.
    Ecu(Id),
    /// The default level.
    Level(Level),
    /// The bytes of the backlog.
    Buffer(u32),
    /// The directory of trace files.
    Directory(&'a [u8]),
    /// The bytes of a trace file.
    FileSize(u32),
    /// The bytes of all trace files.
    MaxSize(u32),
    /// Whether injections are let through.
    Injection(bool),
}

/// The key of this name, where it is one that is read.
fn key_named(name: &[u8]) -> Option<Key>
    ensures { result ≡ key_named name.now }
{
    if name == b"ECUId".as_slice() {
        Some(Key::Ecu)
    } else if name == b"ContextLogLevel".as_slice() {
        Some(Key::Level)
    } else if name == b"RingbufferMaxSize".as_slice() {
        Some(Key::Buffer)
    } else if name == b"OfflineTraceDirectory".as_slice() {
        Some(Key::Directory)
    } else if name == b"OfflineTraceFileSize".as_slice() {
        Some(Key::FileSize)
    } else if name == b"OfflineTraceMaxSize".as_slice() {
        Some(Key::MaxSize)
    } else if name == b"InjectionMode".as_slice() {
        Some(Key::Injection)
    } else {
        None
    }
}

/// A number of 1 to 10 digits in a range.
fn number_within(value: &[u8], low: u32, high: u32) -> Result<u32, ConfKind>
    ensures value { result ≡ number_within low high value.now }
    ensures range { IfOk result (λ n. (low ≤ n) × (n ≤ high)) }
{
    if value.len() > 10 {
        return Err(ConfKind::NotNumber);
    }
    let n = number(value).ok_or(ConfKind::NotNumber)?;
    if u64::from(low) <= n && n <= u64::from(high) {
        Ok(n as u32)
    } else {
        Err(ConfKind::OutOfRange)
    }
}

/// A level, 0 to 6.
fn level(value: &[u8]) -> Result<Level, ConfKind>
    ensures { result ≡ number_within 0 6 value.now }
{
    let n = number_within(value, 0, 6)?;
    Level::of(n as u8).ok_or(ConfKind::OutOfRange)
}

/// An id: the first four bytes of the value.
fn ecu(value: &[u8]) -> Result<Id, ConfKind>
    ensures { result ≡ ecu_within value.now }
{
    let name = &value[..value.len().min(4)];
    match Id::from_name(name) {
        Ok(id) => Ok(id),
        Err(_) => Err(ConfKind::BadText),
    }
}

/// Whether all are printable ASCII letters.
fn are_printable(text: &[u8]) -> bool
    ensures { result ≡ list_all is_printable text.now }
{
    text.iter().all(|b| 0x20 <= *b && *b <= 0x7e)
}

/// A directory of printable letters.
fn directory(value: &[u8]) -> Result<&[u8], ConfKind>
    ensures value { map_ok (λ d. d.now) result ≡ directory_within value.now }
    ensures range { IfOk result (λ d. (length d.now ≤ 200) × (list_all is_printable d.now ≡ true)) }
{
    if value.len() <= DIRECTORY_LIMIT && are_printable(value) {
        Ok(value)
    } else {
        Err(ConfKind::BadText)
    }
}

/// What a value sets a key to.
fn set(key: Key, value: &[u8]) -> Result<Setting<'_>, ConfKind>
    ensures value { map_ok shown result ≡ said_of key value.now }
    ensures range { IfOk result (λ s. IsWithin (shown s)) }
{
    match key {
        Key::Ecu => Ok(Setting::Ecu(ecu(value)?)),
        Key::Level => Ok(Setting::Level(level(value)?)),
        Key::Buffer => Ok(Setting::Buffer(number_within(value, 10_000, 50_000_000)?)),
        Key::Directory => Ok(Setting::Directory(directory(value)?)),
        Key::FileSize => Ok(Setting::FileSize(number_within(value, 2000, 100_000_000)?)),
        Key::MaxSize => Ok(Setting::MaxSize(number_within(value, 4000, 1_000_000_000)?)),
        Key::Injection => Ok(Setting::Injection(number_within(value, 0, 1)? == 1)),
    }
}

/// What a line sets: nothing where it has no key that is read.
pub fn line_setting(line: &[u8]) -> Result<Option<Setting<'_>>, ConfKind>
    ensures value { map_ok (option_map shown) result ≡ line_said line.now }
    ensures range { IfOk result (λ set. IfSome set (λ s. IsWithin (shown s))) }
{
    let line = trimmed(line);
    let (name, value) = match parted_at(line, b'=') {
        Some((name, value)) => (name, Some(trimmed(value))),
        None => (line, None),
    };
    let Some(key) = key_named(trimmed(name)) else {
        return Ok(None);
    };
    let Some(value) = value else {
        return Err(ConfKind::NoValue);
    };
    if value.is_empty() && key != Key::Directory {
        return Err(ConfKind::NoValue);
    }
    match set(key, value) {
        Ok(setting) => Ok(Some(setting)),
        Err(kind) => Err(kind),
    }
}
