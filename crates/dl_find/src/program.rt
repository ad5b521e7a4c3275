//! A message is searched in files, and where it is is written.

ghost use Rattle.std.specs.Prelude.{◌≡◌, List};
ghost use Rattle.dl_find.specs.Finds.{Met};
ghost use Rattle.dl_find.specs.Found.{Answers, Ends, Finds, Searches, Stops};
ghost use Rattle.dl_find.specs.Meets.{IsSearch};
ghost use Rattle.dl_find.specs.Searches.{StopsFirst};
ghost use Rattle.dl_find_words.specs.declared.question.Question.{Question};
ghost use Rattle.dl_trace_files.specs.Left.{IsLeft};
ghost use Rattle.dl_trace_why.specs.Account.{seen};
ghost use Rattle.dl_trace_why.specs.Wanted.{files_wanted};

use crate::answer::push_answer;
use crate::search::{Search, Stop};
use dl_find_words::Question;
use dl_outside::{Name, Sink, write_text};
use dl_pieces::ReadAt;
use dl_trace_why::{FilesWanted, Status, fault_status, names_wanted};
use std::alloc::Global;

/// The status of a search that stopped at the file of this name.
fn stop_status(alloc: Global, stop: Stop, name: &Name) -> Status
    ensures { StopsFirst stop name.now result }
{
    let Ok(text) = String::from_str(alloc, name.as_str()) else {
        return Status::OutOfMemory;
    };
    let file = Name::over(text);
    match stop {
        Stop::Bad(place) => Status::BadMessage { file, place },
        Stop::Missing => Status::NoFile { file },
        Stop::Failed => Status::ReadFault,
        Stop::OutOfMemory => Status::OutOfMemory,
    }
}

/// Searches the files of these names, one behind the other.
fn search_files<F: ReadAt>(
    alloc: Global,
    folder: &mut F,
    question: Question,
    names: &[Name],
) -> Result<Search, Status>
    ensures searches { Searches question names.now (F.told folder.old) (F.told folder.new) result }
    ensures left { IsLeft (F.told folder.old) (F.told folder.new) }
{
    let mut search = Search::new(alloc, question);
    let mut file = 0;
    while file < names.len() {
        let name = &names[file];
        match search.search_file(folder, file as u64, name.as_str()) {
            Ok(()) => {}
            Err(stop) => return Err(stop_status(alloc, stop, name)),
        }
        file += 1;
    }
    Ok(search)
}

/// Writes the answer of a search in the files of these names.
fn write_answer<O: Sink>(alloc: Global, names: &[Name], search: &Search, out: &mut O) -> Status
    ensures { (q : Question) (mets : List Met) → IsSearch q mets search.now → Answers q names.now mets (O.told out.old) (O.told out.new) result }
{
    let mut text = Vec::new(alloc);
    if push_answer(&mut text, names, &search.question, &search.finding).is_err() {
        return Status::OutOfMemory;
    }
    match write_text(out, &text) {
        Ok(()) => Status::Ok,
        Err(_) => Status::WriteFault,
    }
}

/// Searches the files of these names, of which there must be one, and writes the answer.
fn find_in<F: ReadAt, O: Sink>(
    alloc: Global,
    question: Question,
    names: &[Name],
    folder: &mut F,
    out: &mut O,
) -> Status
    ensures { let s = seen F.told O.told in Ends (λ files. names.now) question (s folder.old out.old) (s folder.new out.new) result }
{
    if names.is_empty() {
        return Status::NoTrace;
    }
    match search_files(alloc, folder, question, names) {
        Ok(search) => write_answer(alloc, names, &search, out),
        Err(status) => status,
    }
}

/// Searches the files that are asked for, and writes the answer.
fn find_asked<F: ReadAt, O: Sink>(
    alloc: Global,
    files: FilesWanted<'_>,
    question: Question,
    folder: &mut F,
    out: &mut O,
) -> Status
    ensures { let s = seen F.told O.told in Ends (files_wanted files.entry) question (s folder.old out.old) (s folder.new out.new) result }
{
    match names_wanted(alloc, folder, files) {
        Ok(names) => find_in(alloc, question, names.all(), folder, out),
        Err(fault) => fault_status(fault),
    }
}

/// Writes where a message is, in one line: that it is here, with its file, its offset and its text; what the records tell of it where it isn't; or what
/// they leave open. The answer is the exit status. Each status but the good one is said on `err` in one line, where there is memory for it, and a fault of
/// `err` changes nothing.
pub fn find<F: ReadAt, O: Sink, E: Sink>(
    alloc: Global,
    files: FilesWanted<'_>,
    question: Question,
    folder: &mut F,
    out: &mut O,
    err: &mut E,
) -> u8
    ensures { let s = seen F.told O.told in Finds (files_wanted files.entry) question
        (s folder.old out.old) (s folder.new out.new) (E.told err.old) (E.told err.new) result }
{
    let status = find_asked(alloc, files, question, folder, out);
    status.say(alloc, err);
    status.number()
}
