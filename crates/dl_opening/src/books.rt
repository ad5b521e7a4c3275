//! The writers of a scenario, and their books.

ghost use Rattle.std.specs.Prelude.{◌≡◌, ◌≢◌, ℕ, ◌<◌, ◌≤◌, ◌+◌, ◌++◌, ◌∷◌, ◌^◌, List, [], IfOk, IfSome, length};
ghost use Rattle.dl_desk.specs.Made.{IsMadeWith, MakesWriter};
ghost use Rattle.dl_opening.specs.Opening.{AreBooksOf, HasRoomFor, IsBookOf, StaysSo};
ghost use Rattle.dl_crew.specs.Calls.{count_in, count_of};
ghost use Rattle.dl_opening.specs.Scenario.{apps, number_in, opened_from, specs_of, writer_in, writers};

use dl_bytes::{AppSpec, Id, OutOfMemory};
use dl_desk::{AppList, Desk};
use dl_script_model::ScenarioLine;
use dl_writer::{Book, BookList};
use std::alloc::Global;

/// The book of each writer, in the order of their lines.
pub fn books(
    alloc: Global,
    lines: &[ScenarioLine],
    list: &mut AppList,
    desk: &mut Desk,
) -> Result<BookList, OutOfMemory>
    requires few { HasRoomFor lines.now }
    requires apps { list.old ≡ opened_from lines.now [] 0 (apps lines.now) }
    requires specs { desk.old.apps ≡ specs_of lines.now }
    requires first { desk.old.owners ≡ [] }
    ensures apps { IfOk result (λ _. list.new ≡ opened_from lines.now (writers lines.now) 0 (apps lines.now)) }
    ensures desk { IfOk result (λ _. StaysSo desk.old desk.new) }
    ensures books { IfOk result (AreBooksOf lines.now desk.new) }
{
    let mut books = BookList::none();
    for line in lines {
        if let Some(apid) = writer_in(line) {
            books.add(book(alloc, lines, apid, list, desk)?);
        }
    }
    Ok(books)
}

// The application of the writer that a line declares.
fn writer_in(line: &ScenarioLine) -> Option<Id>
    ensures { result ≡ writer_in line.now }
{
    match line {
        ScenarioLine::Writer { apid } => Some(*apid),
        _ => None,
    }
}

// The book of the next writer, of this application.
fn book(
    alloc: Global,
    lines: &[ScenarioLine],
    apid: Id,
    list: &mut AppList,
    desk: &mut Desk,
) -> Result<Book, OutOfMemory>
    requires few { HasRoomFor lines.now }
    requires apps { (made : List (List ℕ)) × (list.old ≡ opened_from lines.now made 0 (apps lines.now)) }
    requires specs { desk.old.apps ≡ specs_of lines.now }
    ensures apps { IfOk result (λ _. (made : List (List ℕ)) → list.old ≡ opened_from lines.now made 0 (apps lines.now)
        → list.new ≡ opened_from lines.now (made ++ apid ∷ []) 0 (apps lines.now)) }
    ensures book { IfOk result (IsBookOf lines.now apid) }
    ensures number { IfOk result (λ b. b.writer.push.number ≡ length desk.old.owners + 1) }
    ensures room { IfOk result (λ _. length desk.old.owners ≢ 32) }
    ensures made { IfOk result (λ b. IsMadeWith desk.new b.writer) }
    ensures desk { IfOk result (λ b. MakesWriter b.writer.app desk.old desk.new) }
{
    let Some(place) = number_in(desk.apps(), apid) else {
        return Err(OutOfMemory);
    };
    let Ok(writer) = list.of_mut(place).writer(desk) else {
        return Err(OutOfMemory);
    };
    let room = count(lines, writer.number());
    match Book::make(alloc, writer, room) {
        Ok(book) => Ok(book),
        Err(_) => Err(OutOfMemory),
    }
}

// The number of the application with this id.
fn number_in(specs: &[AppSpec], apid: Id) -> Option<u32>
    requires { length specs.now ≤ 16 }
    ensures value { result ≡ number_in apid specs.now }
    ensures within { IfSome result (λ place. place < length specs.now) }
{
    match place_in(specs, apid) {
        Some(place) => Some(place as u32),
        None => None,
    }
}

// Its place among the applications.
fn place_in(specs: &[AppSpec], apid: Id) -> Option<usize>
    ensures value { result ≡ number_in apid specs.now }
    ensures within { IfSome result (λ place. place < length specs.now) }
{
    specs.iter().position(|spec| spec.apid == apid)
}

// How many calls the lines ask of a writer.
fn count(lines: &[ScenarioLine], writer: u8) -> u32
    requires { count_of writer lines.now < 2 ^ 32 }
    ensures { result ≡ count_of writer lines.now }
{
    let mut count = 0;
    for line in lines {
        count += count_in(line, writer);
    }
    count
}

// How many calls a line asks of a writer.
fn count_in(line: &ScenarioLine, writer: u8) -> u32
    ensures { result ≡ count_in writer line.now }
{
    match line {
        ScenarioLine::Calls {
            writer: number,
            count,
            ..
        } if *number == writer => *count,
        _ => 0,
    }
}
