//! Files are searched, one behind the other.

ghost use Rattle.std.specs.Prelude.{◌≡◌, ◌++◌, ◌∷◌, [], List, None, OnOk, Some, length};
ghost use Rattle.dl_bytes.specs.Htyp.{len_of};
ghost use Rattle.dl_find.specs.Finds.{Met, met};
ghost use Rattle.dl_find.specs.Meets.{IsSearch, met_at};
ghost use Rattle.dl_find.specs.Rests.{HasGiven, rest_of};
ghost use Rattle.dl_find.specs.Searches.{SearchesFile, fault_stop};
ghost use Rattle.dl_find_words.specs.declared.question.Question.{Question};
ghost use Rattle.dl_headers.specs.Reading.{front_fault};
ghost use Rattle.dl_sessions.specs.Stream.{first_place};
ghost use Rattle.dl_trace_files.specs.Left.{IsLeft};

use crate::finding::{no_finding, note};
use crate::reader::{Front, LIMIT, Reader};
use dl_bytes::OutOfMemory;
use dl_find_words::{Finding, Question, Spot};
use dl_outside::FolderFault;
use dl_pieces::ReadAt;
use dl_sessions::{Place, Told, behind, told_first};
use std::alloc::Global;

/// Why a file can't be searched.
#[derive(Clone, Copy, PartialEq, Eq)]
pub enum Stop {
    /// No message begins with its bytes at this offset.
    Bad(u64),
    /// It isn't there.
    Missing,
    /// The folder failed.
    Failed,
    /// Memory ran out.
    OutOfMemory,
}

/// The stop of a folder that could not be read.
fn fault_stop(fault: FolderFault) -> Stop
    ensures { result ≡ fault_stop fault }
{
    match fault {
        FolderFault::Failed => Stop::Failed,
        FolderFault::OutOfMemory => Stop::OutOfMemory,
    }
}

/// A search for a message in files.
#[derive(Drop)]
pub struct Search {
    alloc: Global,
    /// What is asked for.
    pub question: Question,
    /// What is found.
    pub finding: Finding,
}

impl Search {
    /// A search to which no message came.
    pub fn new(alloc: Global, question: Question) -> Search
        ensures { IsSearch question [] result }
    {
        Search {
            alloc,
            question,
            finding: no_finding(),
        }
    }

    /// Notes the next message.
    fn add(&mut self, spot: Spot, told: &Told, message: &[u8]) -> Result<(), OutOfMemory>
        requires front { front_fault message.now ≡ None }
        requires len { length message.now ≡ len_of message.now }
        ensures { (q : Question) (mets : List Met) → IsSearch q mets self.old
            → OnOk result (IsSearch q (mets ++ met spot told.now message.now ∷ []) self.new) }
    {
        note(
            &mut self.finding,
            self.alloc,
            &self.question,
            spot,
            told,
            message,
        )
    }

    /// Notes the message at the front of what is left of a file, which gives it.
    fn take(&mut self, reader: &mut Reader, file: u64, place: &Place) -> Result<(), OutOfMemory>
        requires { first_place (rest_of reader.old) ≡ Some place.now }
        ensures adds { (q : Question) (mets : List Met) → IsSearch q mets self.old
            → OnOk result (IsSearch q (mets ++ met_at file reader.old.offset place.now (rest_of reader.old) ∷ []) self.new) }
        ensures gives { OnOk result (HasGiven reader.old place.now reader.new) }
    {
        let rest = reader.rest();
        let offset = reader.offset().saturating_add(place.before as u64);
        let told = told_first(rest, place);
        let message = &behind(rest, place.before)[..place.len as usize];
        self.add(Spot { file, offset }, &told, message)?;
        reader.give(place);
        Ok(())
    }

    /// Searches the file of this name, which has this number.
    pub fn search_file<F: ReadAt>(
        &mut self,
        folder: &mut F,
        file: u64,
        name: &str,
    ) -> Result<(), Stop>
        ensures searches { (q : Question) (before : List Met) → IsSearch q before self.old
            → SearchesFile q before name.now file (F.told folder.old) (F.told folder.new) self.new result }
        ensures left { IsLeft (F.told folder.old) (F.told folder.new) }
    {
        let mut reader = Reader::new(self.alloc);
        while reader.offset() < LIMIT {
            let place = match reader.front(folder, name) {
                Ok(Front::Message(place)) => place,
                Ok(Front::End) => return Ok(()),
                Ok(Front::Bad) => return Err(Stop::Bad(reader.offset())),
                Ok(Front::Missing) => return Err(Stop::Missing),
                Err(fault) => return Err(fault_stop(fault)),
            };
            if self.take(&mut reader, file, &place).is_err() {
                return Err(Stop::OutOfMemory);
            }
        }
        Err(Stop::OutOfMemory)
    }
}
