//! What the daemon says once it has begun: where it listens, which configuration it has, and where its trace goes.

use dl_bytes::{Id, Level};
use dl_outside::Folder;
use dl_startup::conf_in;
use dl_text::{lines, number, parted_at, trimmed};
use dl_words::DaemonWords;
use std::alloc::{AllocError, Global};
use std::net::IpAddr;
use std::str::from_utf8;

/// What a daemon begins with, in words.
#[derive(Drop)]
pub struct Begin {
    /// Whether there is a file of the configuration's name.
    pub has_conf: bool,
    /// The line on its keys that aren't read, where it has some.
    pub unused: Option<String>,
    /// The directory of the trace files; empty where none are kept, or the configuration is refused.
    pub directory: String,
    /// The id of the control unit, where the configuration is not refused.
    pub ecu: Option<Id>,
    /// At which level the daemon logs as a program of its own, where it does; or the number of the first line, from 1, that says no level.
    pub own: Result<Option<Level>, u32>,
}

/// What is read of a configuration: the id of the control unit, and the directory of the trace files.
fn conf_of<F: Folder>(alloc: Global, folder: &mut F, name: &str) -> Option<(Id, String)> {
    let conf = conf_in(alloc, folder, name).ok()?;
    let text = from_utf8(conf.directory.all()).ok()?;
    let directory = String::from_str(alloc, text).ok()?;
    Some((conf.ecu, directory))
}

/// Whether there is a file of this name. One that can't be looked at is there: it is refused later, when it is read.
fn is_there<F: Folder>(folder: &mut F, name: &str) -> bool {
    match folder.size(name) {
        Ok(None) => false,
        Ok(Some(_)) | Err(_) => true,
    }
}

/// The keys that the daemon reads.
const USED: [&[u8]; 8] = [
    b"ECUId",
    b"ContextLogLevel",
    b"RingbufferMaxSize",
    b"OfflineTraceDirectory",
    b"OfflineTraceFileSize",
    b"OfflineTraceMaxSize",
    b"InjectionMode",
    OWN_LEVEL,
];

/// The key of the level at which the daemon logs as a program of its own.
const OWN_LEVEL: &[u8] = b"DaemonLogLevel";

/// The most keys that are named.
const MOST_KEYS: usize = 64;

/// The key of a line that is no comment, where it sets one that isn't read.
fn unused_key(line: &[u8]) -> Option<&[u8]> {
    let line = trimmed(line);
    if line.starts_with(b"#") {
        return None;
    }
    let (key, _) = parted_at(line, b'=')?;
    let key = trimmed(key);
    if USED.iter().any(|used| *used == key) {
        None
    } else {
        Some(key)
    }
}

/// The keys of a configuration that aren't read, each once, and the first of them alone where they are many.
fn unused_keys<'a>(alloc: Global, text: &'a [u8]) -> Result<Vec<&'a str>, AllocError> {
    let mut keys: Vec<&'a str> = Vec::new(alloc);
    for line in lines(text) {
        let Some(key) = unused_key(line) else {
            continue;
        };
        let Ok(key) = from_utf8(key) else {
            continue;
        };
        if keys.len() < MOST_KEYS && !keys.iter().any(|other| *other == key) {
            keys.push(key)?;
        }
    }
    Ok(keys)
}

/// The level that a value says: a number of 1 to 10 digits, from 0 to 6.
fn level_in(value: &[u8]) -> Option<Level> {
    if value.len() > 10 {
        return None;
    }
    match number(value) {
        Some(n) if n <= 6 => Level::of(n as u8),
        _ => None,
    }
}

/// The value of a line that sets the daemon's own level.
fn own_value(line: &[u8]) -> Option<&[u8]> {
    let (key, value) = parted_at(trimmed(line), b'=')?;
    if trimmed(key) == OWN_LEVEL {
        Some(trimmed(value))
    } else {
        None
    }
}

/// The level that the last line says which sets it; or the number of the first line, from 1, that says none.
fn own_level(text: &[u8]) -> Result<Option<Level>, u32> {
    let mut said = None;
    let mut at: u32 = 0;
    for line in lines(text) {
        at = at.saturating_add(1);
        let Some(value) = own_value(line) else {
            continue;
        };
        said = Some(level_in(value).ok_or(at)?);
    }
    Ok(said)
}

/// The same of the configuration of this name.
fn own_in<F: Folder>(folder: &mut F, name: &str) -> Result<Option<Level>, u32> {
    match folder.read(name) {
        Ok(Some(text)) => own_level(text.all()),
        Ok(None) | Err(_) => Ok(None),
    }
}

/// The line on the keys of a configuration that aren't read, where it has some.
fn unused_line(alloc: Global, name: &str, text: &[u8]) -> Option<String> {
    let keys = unused_keys(alloc, text).ok()?;
    let (first, others) = keys.split_first()?;
    let mut line = format!(in alloc; "dlt_daemon: {name}: not used here: {first}").ok()?;
    for key in others {
        line.push_str(", ").ok()?;
        line.push_str(key).ok()?;
    }
    Some(line)
}

/// The same of the configuration of this name.
fn unused_in<F: Folder>(alloc: Global, folder: &mut F, name: &str) -> Option<String> {
    let text = folder.read(name).ok()??;
    unused_line(alloc, name, text.all())
}

/// Looks at the configuration of this name.
pub fn look<F: Folder>(alloc: Global, folder: &mut F, name: &str) -> Begin {
    let has_conf = is_there(folder, name);
    let conf = if has_conf {
        conf_of(alloc, folder, name)
    } else {
        None
    };
    let Some((ecu, directory)) = conf else {
        // One that is refused is not read once more.
        return Begin {
            has_conf,
            unused: None,
            directory: String::new(alloc),
            ecu: None,
            own: Ok(None),
        };
    };
    Begin {
        has_conf,
        unused: unused_in(alloc, folder, name),
        directory,
        ecu: Some(ecu),
        own: own_in(folder, name),
    }
}

/// The line that is said once the ports are open, where there is memory for it.
pub fn line(
    alloc: Global,
    begin: &Begin,
    said: &DaemonWords,
    address: IpAddr,
    users: IpAddr,
) -> Option<String> {
    let (clients, programs, conf) = (said.port, said.users, said.conf);
    let at = if users == address {
        String::new(alloc)
    } else {
        format!(in alloc; "{users} ").ok()?
    };
    let there = if begin.has_conf { "" } else { " (not there)" };
    let trace = if begin.directory.is_empty() {
        "none"
    } else {
        begin.directory.as_str()
    };
    let unused = match &begin.unused {
        Some(line) => line.as_str(),
        None => "",
    };
    let end = if unused.is_empty() { "" } else { "\n" };
    format!(in alloc;
        "dlt_daemon: clients at {address} port {clients}, programs at {at}port {programs}; configuration {conf}{there}; trace {trace}{end}{unused}"
    ).ok()
}
