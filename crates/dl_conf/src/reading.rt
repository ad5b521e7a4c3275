//! The lines of `dlt.conf`, one after the other.

ghost use Rattle.std.specs.Prelude.{◌≡◌, ◌≤◌, [], ◌∷◌, Some, length};
ghost use Rattle.std.specs.Option.{unwrap_or};
ghost use Rattle.dl_text.specs.Faults.{size_limit};
ghost use Rattle.dl_text.specs.Lines.{lines_of};
ghost use Rattle.dl_conf.specs.Setting.{shown, IsWithin};
ghost use Rattle.dl_conf.specs.Conf.{defaults, set_to, size_at, without_return};
ghost use Rattle.dl_conf.specs.Outcome.{drafted, ReadsLines};

use crate::conf::ConfKind;
use crate::draft::Draft;
use crate::setting::{Setting, line_setting};
use dl_bytes::{Id, Level, Severity};
use dl_text::lines;

impl<'a> Draft<'a> {
    /// The defaults.
    pub fn new() -> Draft<'a>
        ensures values { drafted result ≡ defaults }
        ensures sizes_line { result.sizes_line ≡ 0 }
    {
        Draft {
            ecu: Id::from_bytes(*b"ECU1"),
            level: Level::from(Severity::Info),
            buffer: 10_000_000,
            directory: &[],
            file_size: 1_000_000,
            max_size: 4_000_000,
            injection: true,
            sizes_line: 0,
        }
    }

    /// The line with this number sets a value.
    fn set(&mut self, setting: Setting<'a>, number: u32)
        requires { IsWithin (shown setting) }
        ensures values { drafted self.new ≡ set_to (drafted self.old) (shown setting.entry ∷ []) }
        ensures sizes_line { self.new.sizes_line ≡ unwrap_or (size_at number (Some (shown setting.entry))) self.old.sizes_line }
    {
        match setting {
            Setting::Ecu(ecu) => self.ecu = ecu,
            Setting::Level(level) => self.level = level,
            Setting::Buffer(buffer) => self.buffer = buffer,
            Setting::Directory(directory) => self.directory = directory,
            Setting::FileSize(file_size) => {
                self.file_size = file_size;
                self.sizes_line = number;
            }
            Setting::MaxSize(max_size) => {
                self.max_size = max_size;
                self.sizes_line = number;
            }
            Setting::Injection(injection) => self.injection = injection,
        }
    }
}

/// The text without the carriage return at its end, where it has one. So a carriage return ends the last line as it does
/// the others, though no line feed follows it.
pub fn without_return(text: &[u8]) -> &[u8]
    ensures value { result.now ≡ without_return text.now }
    ensures len { length result.now ≤ length text.now }
{
    if text.len() > 0 && text[text.len() - 1] == b'\r' {
        &text[..text.len() - 1]
    } else {
        text
    }
}

/// What the lines of a text set, or the first of them that is at fault.
pub fn read_lines(text: &[u8]) -> Result<Draft<'_>, (u32, ConfKind)>
    requires { length text.now ≤ size_limit }
    ensures { ReadsLines (lines_of text.now) result }
{
    let mut draft = Draft::new();
    let mut number = 0;
    for line in lines(text) {
        number += 1;
        match line_setting(line) {
            Ok(Some(setting)) => draft.set(setting, number),
            Ok(None) => {}
            Err(kind) => return Err((number, kind)),
        }
    }
    Ok(draft)
}
