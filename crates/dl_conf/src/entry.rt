//! One line of the stored configuration.

ghost use Rattle.std.specs.Prelude.{◌≡◌};
ghost use Rattle.dl_conf.specs.Stored.{default_of, own_of, level_digit, own_said, level_said, line_said, default_in, own_in};

use dl_bytes::{Level, StoredLevel};
use dl_text::{parted_at, read_id};

/// What a line says.
#[derive(Clone, Copy, PartialEq, Eq)]
pub enum StoredLine {
    /// Nothing: it is empty.
    Nothing,
    /// The default level.
    Default(Level),
    /// The own level of a context.
    Own(StoredLevel),
}

impl StoredLine {
    /// The default level, where the line says it.
    fn default(&self) -> Option<Level>
        ensures { result ≡ default_of self.now }
    {
        match self {
            StoredLine::Default(level) => Some(*level),
            _ => None,
        }
    }

    /// The own level, where the line says one.
    fn own(&self) -> Option<StoredLevel>
        ensures { result ≡ own_of self.now }
    {
        match self {
            StoredLine::Own(own) => Some(*own),
            _ => None,
        }
    }
}

/// A level, one digit.
fn level(text: &[u8]) -> Option<Level>
    ensures { result ≡ level_digit text.now }
{
    match text {
        [digit @ b'0'..=b'6'] => Level::of(*digit - b'0'),
        _ => None,
    }
}

/// The own level of the context with these ids.
fn own(apid: &[u8], ctid: &[u8], level: Level) -> Option<StoredLine>
    ensures { result ≡ own_said apid.now ctid.now level }
{
    if apid.is_empty() || ctid.is_empty() {
        return None;
    }
    let apid = read_id(apid)?;
    let ctid = read_id(ctid)?;
    Some(StoredLine::Own(StoredLevel { apid, ctid, level }))
}

/// The default level where neither id is there, else an own level.
fn by_ids(apid: &[u8], ctid: &[u8], level: Level) -> Option<StoredLine>
    ensures { result ≡ level_said apid.now ctid.now level }
{
    if apid.is_empty() && ctid.is_empty() {
        Some(StoredLine::Default(level))
    } else {
        own(apid, ctid, level)
    }
}

/// What a line says, where it is of the form.
#[tactic(auto, unfolding(crate::specs::Stored::line_said))]
pub fn stored_line(line: &[u8]) -> Option<StoredLine>
    ensures { result ≡ line_said line.now }
{
    if line.is_empty() {
        return Some(StoredLine::Nothing);
    }
    let (apid, rest) = parted_at(line, b':')?;
    let (ctid, rest) = parted_at(rest, b':')?;
    by_ids(apid, ctid, level(rest)?)
}

/// The default level that a line says.
pub fn default_on(line: &[u8]) -> Option<Level>
    ensures { result ≡ default_in line.now }
{
    let said = stored_line(line)?;
    said.default()
}

/// The own level that a line says.
pub fn own_on(line: &[u8]) -> Option<StoredLevel>
    ensures { result ≡ own_in line.now }
{
    let said = stored_line(line)?;
    said.own()
}
