//! The handles of all writers, taken back by the daemon's.

ghost use Rattle.std.specs.Prelude.{◌≡◌, ◌<◌, ◌≤◌, ◌++◌, List, length, map, min, All, ◌^◌, ◌-◌, vec_len};
ghost use Rattle.dl_desk.specs.Lists.{At};
ghost use Rattle.dl_writer.specs.Claiming.{TellsClaims};
ghost use Rattle.dl_writer.specs.Records.{TellAll};
ghost use Rattle.dl_writer.specs.State.{IsWhole};
ghost use Rattle.dl_account.specs.Books.{given_by, injected_of};
ghost use Rattle.dl_account.specs.Entries.{entries_of};
ghost use Rattle.dl_account.specs.Joining.{join_books, join_firsts, join_writer, FitsHandles, FitFirsts};

use crate::entries::Entries;
use arrayvec::ArrayVec;
use dl_desk::{DaemonHandles, FirstHandles};
use dl_writer::{BookList, Writer};

/// How many injections the writers of each application were given.
pub fn injections_given(books: &BookList, apps: u8) -> ArrayVec<u64, 16>
    requires { apps ≤ 16 }
    ensures { result.items ≡ given_by apps books.now }
{
    let mut all = ArrayVec::new();
    for app in 0..apps {
        all.push(injected_of(books, app));
    }
    all
}

/// How many those of one application were given.
fn injected_of(books: &BookList, app: u8) -> u64
    ensures { result ≡ min (2 ^ 64 - 1) (injected_of app books.now) }
{
    let mut given = 0u64;
    for place in 0..books.len() {
        let book = books.of(place);
        if book.app() == app {
            given = given.saturating_add(book.injected());
        }
    }
    given
}

/// Takes back the writers of these books, and gives what stands in the books, in order.
pub fn join_books(handles: &mut DaemonHandles, books: BookList) -> Entries
    requires fit { All (λ b. FitsHandles handles.old b.writer) books }
    requires few { length books ≤ 32 }
    ensures handles { handles.new ≡ join_books handles.old books }
    ensures entries { result ≡ entries_of books }
    ensures told { All (λ b. IsWhole b → TellAll b.writer b.records b.claims) books }
    ensures claimed { All (λ b. TellsClaims b.writer) books }
{
    let mut books = books;
    let mut entries = Entries::none();
    while let Some(book) = books.take_first() {
        let (writer, records, claims) = book.into_parts();
        writer.have_claims();
        let refusals = join_writer(handles, writer);
        entries.add(records, claims, refusals);
    }
    entries
}

/// Takes back one writer, and answers how many of its pushes its ring refused.
fn join_writer(handles: &mut DaemonHandles, writer: Writer) -> u64
    requires { FitsHandles handles.old writer }
    ensures joined { handles.new ≡ join_writer handles.old writer }
    ensures refusals { result ≡ writer.push.refusals }
{
    let app = writer.app();
    let own = writer.into_handles();
    let refusals = handles.join_passes(app, own.push, own.injections);
    handles.join_words(own.reader, own.losses);
    refusals
}

/// Takes back the handles of which those of the writers were split, application by application, the last one first.
pub fn join_firsts(handles: &mut DaemonHandles, firsts: Vec<FirstHandles>)
    requires few { vec_len firsts ≤ 16 }
    requires fit { FitFirsts handles.old firsts.items }
    ensures { handles.new ≡ join_firsts 0 firsts.items handles.old }
{
    let mut firsts = firsts;
    while let Some(first) = firsts.pop() {
        let app = firsts.len() as u8;
        handles.join_passes(app, first.push, first.injections);
    }
}
