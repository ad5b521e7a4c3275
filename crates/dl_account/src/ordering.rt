//! The books of all writers, put in the order of their writers' numbers.

ghost use Rattle.std.specs.Prelude.{◌≡◌, ◌≤◌, ◌<◌, ℕ, length, IfSome, IfNone};
ghost use Rattle.dl_cells.specs.Views.{times};
ghost use Rattle.dl_writer.specs.State.{numbers};
ghost use Rattle.dl_account.specs.Making.{AreAmong, AreInOrder, AreNumberedTo, IsAmong};

use dl_writer::BookList;

/// The first number from 1 on of which no book is among these, up to this one.
pub fn missing(books: &BookList, made: u8) -> Option<u8>
    ensures missing { IfSome result (λ number. (1 ≤ number) × (number ≤ made) × (times number (numbers books.now) ≡ 0)) }
    ensures first { IfSome result (λ number. (lower : ℕ) → 1 ≤ lower → lower < number → IsAmong books.now lower) }
    ensures all { IfNone result (AreAmong books.now made) }
{
    for number in 1..=made {
        if !books.has(number) {
            return Some(number);
        }
    }
    None
}

/// The same books, by their writers' numbers from 1.
pub fn in_order(books: BookList, made: u8) -> BookList
    requires few { made ≤ 32 }
    requires numbered { AreNumberedTo made books }
    ensures order { AreInOrder books result }
    ensures count { length result ≡ made }
{
    let mut books = books;
    let mut ordered = BookList::none();
    for done in 0..made {
        let Some(book) = books.take(done + 1) else {
            unreachable!()
        };
        ordered.add(book);
    }
    ordered
}
