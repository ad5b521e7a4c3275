//! Whose account is wanted, and which files that are.

ghost use Rattle.dl_outside.specs.Folder.{Answers};
ghost use Rattle.dl_trace_files.specs.Left.{ReadsFolder};
ghost use Rattle.dl_trace_why.specs.Wanted.{files_wanted};

use dl_outside::{Folder, FolderFault, NameList};
use dl_trace_files::{alone, files_asked};
use std::alloc::Global;

/// Which files are to be read.
#[derive(Clone, Copy)]
pub enum FilesWanted<'a> {
    /// The trace files that these names of files and folders stand for, in their order; without a name those of the current folder.
    Traces(&'a [&'a str]),
    /// The file of this name alone.
    Stream(&'a str),
}

/// What is wanted.
#[derive(Clone, Copy)]
pub struct Wanted<'a> {
    /// The files whose account it is.
    pub files: FilesWanted<'a>,
    /// The name of the file that a picture goes into, where one is wanted.
    pub picture: Option<&'a str>,
}

/// The names of the files that are wanted, in their order.
pub fn names_wanted<F: Folder>(
    alloc: Global,
    folder: &mut F,
    files: FilesWanted<'_>,
) -> Result<NameList, FolderFault>
    ensures found { Answers (F.told folder.old).files result (files_wanted files.entry) }
    ensures looks { ReadsFolder (F.told folder.old) (F.told folder.new) result }
{
    match files {
        FilesWanted::Traces(names) => files_asked(alloc, folder, names),
        FilesWanted::Stream(name) => match alone(alloc, name) {
            Ok(names) => Ok(names),
            Err(_) => Err(FolderFault::OutOfMemory),
        },
    }
}
