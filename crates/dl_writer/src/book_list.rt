//! The books of all writers.

ghost use Rattle.std.specs.Prelude.{◌≡◌, ◌<◌, ◌≤◌, ◌↔◌, ◌++◌, ◌∷◌, [], List, length, Some, slice_get, IfSome, IfNone, IsTrue};
ghost use Rattle.std.specs.Option.{option_to_list};
ghost use Rattle.dl_cells.specs.Views.{times};
ghost use Rattle.dl_writer.specs.State.{BookState, numbers};

use crate::book::Book;
use arrayvec::ArrayVec;
use std::marker::Model;

/// At most 32 books, kept in place. None of its calls takes memory.
#[derive(Drop)]
pub struct BookList {
    books: ArrayVec<Option<Book>, 32>,
}

impl Model for BookList {
    ghost use Rattle.std.specs.Prelude.{◌≡◌, List, map, Some};
    ghost use Rattle.dl_events.specs.Records.{given};
    ghost use Rattle.dl_writer.specs.State.{BookState};

    ghost Value = { List BookState };

    ghost view = { λ b. given b.books.items };

    ghost invariant = { λ b. b.books.items ≡ map Some (given b.books.items) };
}

impl BookList {
    /// No book.
    pub fn none() -> BookList
        ensures { result ≡ [] }
    {
        BookList {
            books: ArrayVec::new(),
        }
    }

    /// Adds a book behind the others.
    pub fn add(&mut self, book: Book)
        requires { length self.old < 32 }
        ensures { self.new ≡ self.old ++ book ∷ [] }
    {
        self.books.try_push(Some(book)).unwrap();
    }

    /// How many books there are.
    pub fn len(&self) -> u32
        ensures { result ≡ length self.now }
    {
        self.books.len() as u32
    }

    /// The book at this place, from 0.
    pub fn of(&self, place: u32) -> &Book
        requires { place < length self.now }
        ensures { slice_get self.now place ≡ Some result.now }
    {
        let Some(book) = &self.books[place as usize] else {
            unreachable!()
        };
        book
    }

    /// Takes the last book out. None exactly where there is no book.
    pub fn pop(&mut self) -> Option<Book>
        ensures taken { self.old ≡ self.new ++ option_to_list result }
        ensures none { IfNone result (self.old ≡ []) }
    {
        self.books.pop()?
    }

    /// Takes the first book out. None exactly where there is no book.
    pub fn take_first(&mut self) -> Option<Book>
        ensures taken { self.old ≡ option_to_list result ++ self.new }
        ensures none { IfNone result (self.old ≡ []) }
    {
        if self.books.is_empty() {
            return None;
        }
        self.books.remove(0)
    }

    /// Whether the book of the writer with this number is among them.
    pub fn has(&self, number: u8) -> bool
        ensures { IsTrue result ↔ (1 ≤ times number (numbers self.now)) }
    {
        self.place_of(number).is_some()
    }

    /// Takes the book of the writer with this number out. The others stay in their order. None exactly where it isn't
    /// among them.
    pub fn take(&mut self, number: u8) -> Option<Book>
        ensures taken { IfSome result (λ book. (before : List BookState) × (after : List BookState) × (self.old ≡ before ++ book ∷ after) × (self.new ≡ before ++ after)) }
        ensures of_number { IfSome result (λ book. book.writer.push.number ≡ number) }
        ensures none { IfNone result (times number (numbers self.old) ≡ 0) }
        ensures same { IfNone result (self.new ≡ self.old) }
    {
        let place = self.place_of(number)?;
        self.books.remove(place)
    }

    // Where the book of the writer with this number stands.
    fn place_of(&self, number: u8) -> Option<usize>
        ensures found { IfSome result (λ place. (book : BookState) × (slice_get self.now place ≡ Some book) × (book.writer.push.number ≡ number)) }
        ensures none { IfNone result (times number (numbers self.now) ≡ 0) }
    {
        for place in 0..self.len() {
            if self.of(place).number() == number {
                return Some(place as usize);
            }
        }
        None
    }
}
