//! How an account ends: its exit status, and the line that it says on standard error.

ghost use Rattle.std.specs.Prelude.{◌≡◌, ◌++◌, [], OnOk, codes, option_map};
ghost use Rattle.std.specs.Fmt.{decimal};
ghost use Rattle.std.specs.Option.{option_map_or};
ghost use Rattle.dl_trace_why.specs.Says.{Says, SaysLine};
ghost use Rattle.dl_trace_why.specs.Status.{file_in, file_words, fault_status, is_ok, line_of, number, place_in, words_of};

use dl_bytes::OutOfMemory;
use dl_outside::{FolderFault, Name, Sink, write_text};
use itoa::Buffer;
use std::alloc::Global;

/// How an account ended. Its number is the exit status.
#[derive(Drop)]
pub enum Status {
    /// The account was written, and the picture where one is wanted.
    Ok,
    /// No message begins with the bytes at a place of a file. Nothing was written.
    BadMessage {
        /// The file.
        file: Name,
        /// The place in bytes, from 0.
        place: u64,
    },
    /// There is no file of this name. Nothing was written.
    NoFile {
        /// The name.
        file: Name,
    },
    /// No file is named, and the current folder has no trace file.
    NoTrace,
    /// The output failed, when the picture was written.
    WriteFault,
    /// The folder failed when it was read. Nothing was written.
    ReadFault,
    /// The folder failed when the picture was to be written. Nothing else was written.
    PictureFault,
    /// Memory ran out. Nothing was written.
    OutOfMemory,
}

/// The status of a folder that could not be read.
pub fn fault_status(fault: FolderFault) -> Status
    ensures { result ≡ fault_status fault }
{
    match fault {
        FolderFault::Failed => Status::ReadFault,
        FolderFault::OutOfMemory => Status::OutOfMemory,
    }
}

/// Adds the file that a line is about, where there is one.
fn push_file(text: &mut Vec<u8>, file: Option<&Name>) -> Result<(), OutOfMemory>
    ensures { OnOk result (text.new.items ≡ text.old.items ++ option_map_or (λ name. file_words name.now) file.entry []) }
{
    let Some(name) = file else {
        return Ok(());
    };
    text.extend_from_slice(name.as_str().as_bytes())?;
    text.extend_from_slice(b": ")
}

/// Adds a place and the end of the line, where there is one.
fn push_place(text: &mut Vec<u8>, place: Option<u64>) -> Result<(), OutOfMemory>
    ensures { OnOk result (text.new.items ≡ text.old.items ++ option_map_or (λ n. decimal n ++ codes "\n") place []) }
{
    let Some(number) = place else {
        return Ok(());
    };
    let mut buffer = Buffer::new();
    text.extend_from_slice(buffer.format(number).as_bytes())?;
    text.extend_from_slice(b"\n")
}

impl Status {
    /// The exit status.
    pub fn number(&self) -> u8
        ensures { result ≡ number self.now }
    {
        match self {
            Status::Ok => 0,
            Status::BadMessage { .. } => 3,
            Status::NoFile { .. } => 4,
            Status::NoTrace => 4,
            Status::WriteFault => 6,
            Status::ReadFault => 7,
            Status::PictureFault => 7,
            Status::OutOfMemory => 9,
        }
    }

    /// Whether all went well.
    fn is_ok(&self) -> bool
        ensures { result ≡ is_ok self.now }
    {
        match self {
            Status::Ok => true,
            Status::BadMessage { .. } => false,
            Status::NoFile { .. } => false,
            Status::NoTrace => false,
            Status::WriteFault => false,
            Status::ReadFault => false,
            Status::PictureFault => false,
            Status::OutOfMemory => false,
        }
    }

    /// The words of its line.
    fn words(&self) -> &'static [u8]
        ensures { result.now ≡ words_of self.now }
    {
        match self {
            Status::Ok => b"",
            Status::BadMessage { .. } => b"bad message at byte ",
            Status::NoFile { .. } => b"no such file\n",
            Status::NoTrace => b"no trace file\n",
            Status::WriteFault => b"write fault\n",
            Status::ReadFault => b"read fault\n",
            Status::PictureFault => b"picture fault\n",
            Status::OutOfMemory => b"out of memory\n",
        }
    }

    /// The file that its line is about, where there is one.
    fn file(&self) -> Option<&Name>
        ensures { option_map (λ name. name.now) result ≡ file_in self.now }
    {
        match self {
            Status::BadMessage { file, place: _ } => Some(file),
            Status::NoFile { file } => Some(file),
            Status::Ok => None,
            Status::NoTrace => None,
            Status::WriteFault => None,
            Status::ReadFault => None,
            Status::PictureFault => None,
            Status::OutOfMemory => None,
        }
    }

    /// The place that its line ends with, where it has one.
    fn place(&self) -> Option<u64>
        ensures { result ≡ place_in self.now }
    {
        match self {
            Status::BadMessage { file: _, place } => Some(*place),
            Status::Ok => None,
            Status::NoFile { .. } => None,
            Status::NoTrace => None,
            Status::WriteFault => None,
            Status::ReadFault => None,
            Status::PictureFault => None,
            Status::OutOfMemory => None,
        }
    }

    /// Adds the line on standard error, with its line feed.
    fn push_line(&self, text: &mut Vec<u8>) -> Result<(), OutOfMemory>
        ensures { OnOk result (text.new.items ≡ text.old.items ++ line_of self.now) }
    {
        text.extend_from_slice(b"dlt_why: ")?;
        push_file(text, self.file())?;
        text.extend_from_slice(self.words())?;
        push_place(text, self.place())
    }

    /// Writes the line on standard error, where there is memory for it.
    fn say_line<E: Sink>(&self, alloc: Global, err: &mut E)
        ensures { SaysLine self.now (E.told err.old) (E.told err.new) }
    {
        let mut line = Vec::new(alloc);
        if let Ok(()) = self.push_line(&mut line) {
            let _ = write_text(err, &line);
        }
    }

    /// Says on standard error how the account ended, in one line; nothing where all went well, or where there is no memory for the line. A
    /// fault there changes nothing.
    pub fn say<E: Sink>(&self, alloc: Global, err: &mut E)
        ensures { Says self.now (E.told err.old) (E.told err.new) }
    {
        if self.is_ok() {
            return;
        }
        self.say_line(alloc, err);
    }
}
