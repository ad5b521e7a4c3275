//! The library that programs link to log, and the account of all that was logged.
//!
//! Programs declare applications and contexts and make writers with a desk (`dl_desk`). Once the threads have ended, the
//! daemon's side takes back all writers with their books:
//!
//! ```
//! fn settle<R: Wait>(rt: &R, desk: Desk, books: BookList, journal: Kept, ends: Ends) -> Option<Account> {
//!     let Ok(mut closing) = Closing::make(desk, books) else {
//!         return None;
//!     };
//!     for app in 0..closing.apps().len() as u8 {
//!         while let Some(item) = closing.take(rt, app) {
//!             match item {
//!                 RingItem::Log(call) => (), // the daemon notes the call in its journal
//!                 RingItem::Register(claim) => (), // it registers the context that the writer claimed
//!             }
//!         }
//!         let lost = closing.losses(app);
//!     }
//!     Some(closing.finish(journal, ends))
//! }
//! ```
//!
//! From then on nothing is pushed and nothing is lost: what the rings hold and what the words count is all there is. Once all
//! of it was taken, `Closing::finish` makes the account. Its records tell what became of each call, and what was taken and
//! reported is just that (`Account::records`, `Account::claims`, `laws`).
//!
//! Proved, for every schedule: once all writers are back with their books, a ring gives nothing exactly where it is empty (`Closing::take`); the
//! losses told are all that were counted (`losses`); what the rings gave is what the writers pushed, each in its order; places that writers claimed
//! differ, and the table was full only where more than 64 were asked for (`AreClaimed`); each injection was given once or is left (`gathered`,
//! `Account::records`). Where all books are whole, records and journal are the account of `dl_model` (`records_are_an_account`,
//! `an_account_is_accounted`). `Closing::make` hands everything back exactly where a book is missing.
//!
//! Not said: that a program whose books aren't whole has an account.
//!
//! Chosen: books are put in the order of their numbers first, so that a missing one is found before anything is taken back. How many calls wait in a
//! ring is computed once, from what books say was queued and the desk took, and counted down: `is_drained` and `finish` make no step.
#![tactic(auto)]

mod account;
mod closing;
mod entries;
mod joining;
pub mod laws;
mod ordering;
mod waiting;
mod writer_control;

pub use account::Account;
pub use closing::Closing;
pub use dl_bytes::{Claim, Ends, LinkEnd, TraceState};
pub use dl_desk::{
    Answer, App, AppFault, AppList, AppSpec, Book, BookFault, BookList, Ctx, Desk, LogFault,
    Record, RegisterFault, RingItem, Taken, WRITER_CALL_LIMIT, Worn, Writer, WriterControl,
    WriterFault,
};
pub use dl_events::{ClaimList, Kept, RecordList};
