//! How a program ends: its exit status, and the line that it says on standard error.

ghost use Rattle.std.specs.Prelude.{◌≡◌, ◌≢◌, OnErr, OnOk};
ghost use Rattle.dl_outside.specs.Written.{Wrote, WroteAll, WroteFront, WroteNothing};
ghost use Rattle.dl_startup.specs.Status.{line_of, number, short_line, trouble, usage_line};
ghost use Rattle.dl_startup.specs.declared.status.Status.{Status};

use crate::output::write_pieces;
use crate::refusal::{conf_word, say_refusal, script_word, storage_word, stored_word};
use crate::storage_kind::StorageKind;
use dl_conf::{ConfKind, StoredKind};
use dl_outside::{Sink, WriteError, write_text};
use dl_script_fields::ScriptKind;

/// What stands between the parts of a line, and at its end.
const COLON: &[u8] = b": ";

const USAGE: &[u8] = b": usage: ";

const END: &[u8] = b"\n";

/// How a program ended. Its number is the exit status. No program has them all.
#[derive(Clone, Copy, PartialEq, Eq)]
pub enum Status {
    /// The report was written whole.
    Ok,
    /// The words after the program's name aren't of a known form.
    WordsRefused,
    /// `dlt.conf` isn't of the form.
    ConfRefused {
        /// The first line at fault, from 1; 0 for the whole text.
        line: u32,
        /// What is wrong with it.
        kind: ConfKind,
    },
    /// The stored configuration isn't of the form.
    StoredRefused {
        /// The first line at fault, from 1; 0 for the whole text.
        line: u32,
        /// What is wrong with it.
        kind: StoredKind,
    },
    /// The script or the scenario isn't of the form, or the scenario isn't there.
    ScriptRefused {
        /// The first line at fault, from 1; 0 for the whole text.
        line: u32,
        /// What is wrong with it.
        kind: ScriptKind,
    },
    /// The output failed.
    WriteFault,
    /// The folder failed.
    FolderFault,
    /// A net failed.
    NetFault,
    /// Memory ran out.
    OutOfMemory,
    /// A frame needed a trace file with a number above 999999.
    NamesSpent,
    /// The input failed.
    ReadFault,
    /// The journal had 1,000,000 events or more.
    JournalFull,
    /// The filters of the log storage aren't of the form.
    StorageRefused {
        /// The first line at fault, from 1; 0 for the whole text.
        line: u32,
        /// What is wrong with it.
        kind: StorageKind,
    },
}

/// Writes the line `PROGRAM: usage: USAGE`.
fn write_usage<E: Sink>(err: &mut E, program: &[u8], usage: &[u8]) -> Result<(), WriteError>
    ensures ok { OnOk result (WroteAll (E.told err.old) (E.told err.new) (usage_line program.now usage.now)) }
    ensures front { OnErr result (WroteFront (E.told err.old) (E.told err.new) (usage_line program.now usage.now)) }
{
    write_pieces(err, &[program, USAGE, usage, END])
}

/// Writes the line `PROGRAM: TEXT`.
fn write_trouble<E: Sink>(err: &mut E, program: &[u8], text: &[u8]) -> Result<(), WriteError>
    ensures ok { OnOk result (WroteAll (E.told err.old) (E.told err.new) (short_line program.now text.now)) }
    ensures front { OnErr result (WroteFront (E.told err.old) (E.told err.new) (short_line program.now text.now)) }
{
    write_pieces(err, &[program, COLON, text, END])
}

impl Status {
    /// The exit status.
    pub fn number(self) -> u8
        ensures { result ≡ number self }
    {
        match self {
            Status::Ok => 0,
            Status::WordsRefused => 2,
            Status::ConfRefused { .. } | Status::StoredRefused { .. } => 3,
            Status::ScriptRefused { .. } => 4,
            Status::WriteFault => 6,
            Status::FolderFault => 7,
            Status::NetFault => 8,
            Status::OutOfMemory => 9,
            Status::NamesSpent => 10,
            Status::ReadFault => 11,
            Status::JournalFull => 12,
            Status::StorageRefused { .. } => 13,
        }
    }

    /// What went wrong, in words, where the line names no line of a text.
    fn trouble(self) -> &'static [u8]
        ensures { result.now ≡ trouble self }
    {
        match self {
            Status::WriteFault => b"write fault",
            Status::FolderFault => b"folder fault",
            Status::NetFault => b"net fault",
            Status::OutOfMemory => b"out of memory",
            Status::NamesSpent => b"trace names spent",
            Status::ReadFault => b"read fault",
            Status::JournalFull => b"journal full",
            Status::Ok
            | Status::WordsRefused
            | Status::ConfRefused { .. }
            | Status::StoredRefused { .. }
            | Status::ScriptRefused { .. }
            | Status::StorageRefused { .. } => b"",
        }
    }

    /// Writes the line on standard error.
    #[tactic(auto, unfolding(crate::specs::Status::line_of))]
    fn write_line<E: Sink>(
        self,
        program: &[u8],
        usage: &[u8],
        err: &mut E,
    ) -> Result<(), WriteError>
        ensures ok { OnOk result (WroteAll (E.told err.old) (E.told err.new) (line_of program.now usage.now self)) }
        ensures front { OnErr result (WroteFront (E.told err.old) (E.told err.new) (line_of program.now usage.now self)) }
    {
        match self {
            Status::Ok => write_text(err, b""),
            Status::WordsRefused => write_usage(err, program, usage),
            Status::ConfRefused { line, kind } => say_refusal(
                err,
                program,
                b"conf",
                line,
                conf_word(kind),
            ),
            Status::StoredRefused { line, kind } => say_refusal(
                err,
                program,
                b"stored",
                line,
                stored_word(kind),
            ),
            Status::ScriptRefused { line, kind } => say_refusal(
                err,
                program,
                b"script",
                line,
                script_word(kind),
            ),
            Status::StorageRefused { line, kind } => say_refusal(
                err,
                program,
                b"storage",
                line,
                storage_word(kind),
            ),
            Status::WriteFault
            | Status::FolderFault
            | Status::NetFault
            | Status::OutOfMemory
            | Status::NamesSpent
            | Status::ReadFault
            | Status::JournalFull => write_trouble(err, program, self.trouble()),
        }
    }

    /// Says on standard error how a program ended, in one line that begins with its name; nothing where all went well. Where
    /// the words were refused, the line says the program's usage. A fault there changes nothing.
    pub fn say<E: Sink>(self, program: &[u8], usage: &[u8], err: &mut E)
        ensures silent { self ≡ Status.Ok → WroteNothing (E.told err.old) (E.told err.new) }
        ensures told { self ≢ Status.Ok → Wrote (E.told err.old) (E.told err.new) (line_of program.now usage.now self) }
    {
        match self {
            Status::Ok => {}
            _ => {
                let _ = self.write_line(program, usage, err);
            }
        }
    }
}
