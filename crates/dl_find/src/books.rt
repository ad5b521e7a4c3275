//! The accounts that a program gave of the context's calls, message after message.

ghost use Rattle.std.specs.Prelude.{◌≡◌};
ghost use Rattle.dl_find.specs.Finds.{book_by, holds, is_ahead, is_behind};
ghost use Rattle.dl_find.specs.Steps.{book_with, books_with, next_with, no_books, since_with};
ghost use Rattle.dl_sessions.specs.Ledger.{no_since, with_account, with_message};

use dl_find_words::{
    Book, Books, Hole, Point, Question, Seen, Spot, is_about, is_account, is_of_context,
};
use dl_sessions::{Entry, Since, gap, latest_of};

/// What came of a context where nothing came.
fn no_since() -> Since
    ensures { result ≡ no_since }
{
    Since {
        accounts: 0,
        messages: 0,
        missing: 0,
        last: None,
    }
}

/// The same with one message more.
fn with_message(since: &Since, entry: &Entry) -> Since
    ensures { result ≡ with_message since.now entry.now }
{
    Since {
        accounts: since.accounts,
        messages: since.messages.saturating_add(1),
        missing: since.missing.saturating_add(gap(since.last, entry) as u64),
        last: Some(latest_of(entry)),
    }
}

/// The same with one account more.
fn with_account(since: &Since) -> Since
    ensures { result ≡ with_account since.now }
{
    Since {
        accounts: since.accounts.saturating_add(1),
        messages: 0,
        missing: 0,
        last: None,
    }
}

/// No account yet.
pub fn no_books() -> Books
    ensures { result ≡ no_books }
{
    Books {
        since: no_since(),
        own: no_since(),
        last: None,
        book: None,
        next: None,
    }
}

/// Whether one message stands before another one.
fn is_ahead(a: &Spot, b: &Spot) -> bool
    ensures { result ≡ is_ahead a.now b.now }
{
    a.file < b.file || (a.file == b.file && a.offset < b.offset)
}

/// Whether the question points between two accounts.
fn holds(point: &Point, hole: Option<Hole>, last: &Seen, seen: &Seen) -> bool
    ensures { result ≡ holds point.now hole last.now seen.now }
{
    match point {
        Point::Time(ticks) => last.entry.ticks < *ticks && *ticks < seen.entry.ticks,
        Point::Counter(_) => match hole {
            Some(hole) => is_ahead(&last.spot, &hole.before.spot),
            None => false,
        },
    }
}

/// Two accounts, one behind the other, where the question points between them.
fn book_by(point: &Point, hole: Option<Hole>, books: &Books, seen: &Seen) -> Option<Book>
    ensures { result ≡ book_by point.now hole books.now.last seen.now books.now.since books.now.own }
{
    let last = books.last?;
    if holds(point, hole, &last, seen) {
        let own = with_message(&books.own, &seen.entry);
        Some(Book {
            before: last,
            behind: *seen,
            since: books.since,
            lacking: own.missing,
        })
    } else {
        None
    }
}

/// The same where the message is an account of the context.
fn book_with(
    about: bool,
    point: &Point,
    hole: Option<Hole>,
    books: &Books,
    seen: &Seen,
) -> Option<Book>
    ensures { result ≡ book_with about point.now hole books.now seen.now }
{
    if about {
        book_by(point, hole, books, seen)
    } else {
        None
    }
}

/// Whether an account is at or behind the time that is asked for.
fn is_behind(point: &Point, seen: &Seen) -> bool
    ensures { result ≡ is_behind point.now seen.now }
{
    match point {
        Point::Time(ticks) => *ticks <= seen.entry.ticks,
        Point::Counter(_) => false,
    }
}

/// The same where the message is an account of the context.
fn next_with(about: bool, point: &Point, seen: &Seen) -> Option<Seen>
    ensures { result ≡ next_with about point.now seen.now }
{
    if about && is_behind(point, seen) {
        Some(*seen)
    } else {
        None
    }
}

/// What came with one message more: an account, another message that counts, or neither.
fn since_with(about: bool, own: bool, since: &Since, entry: &Entry) -> Since
    ensures { result ≡ since_with about own since.now entry.now }
{
    if about {
        with_account(since)
    } else if own {
        with_message(since, entry)
    } else {
        *since
    }
}

/// With one message more. The hole of the context is where the question points.
pub fn books_with(question: &Question, hole: Option<Hole>, books: &Books, seen: &Seen) -> Books
    ensures { result ≡ books_with question.now hole books.now seen.now }
{
    let entry = &seen.entry;
    let about = is_about(question, entry);
    let book = book_with(about, &question.point, hole, books, seen);
    let next = next_with(about, &question.point, seen);
    Books {
        since: since_with(about, is_of_context(question, entry), &books.since, entry),
        own: since_with(false, is_account(question, entry), &books.own, entry),
        last: if about { Some(*seen) } else { books.last },
        book: books.book.or(book),
        next: books.next.or(next),
    }
}
