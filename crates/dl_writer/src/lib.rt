//! How a program logs: a writer makes the calls of one thread, and its book keeps what became of each.
//!
//! A call is one load of the context's level, and where that lets the message through one push into the application's
//! ring. It takes no memory and no lock, and its answer tells which of three things became of the message:
//!
//! ```
//! fn log_start<R: Wait>(rt: &R, book: &mut Book, ctx: &Ctx) -> &'static str {
//!     let message = Payload::new();
//!     match book.log(rt, ctx, Severity::Info, 100, &message) {
//!         Ok(Answer::Queued) => "the daemon will take it",
//!         Ok(Answer::Filtered) => "the level of its context is below info",
//!         Ok(Answer::Lost) => "the ring was full, and the daemon will tell the loss",
//!         Err(_) => "no call: the book is full, the context foreign, or the writer spent",
//!     }
//! }
//! ```
//!
//! A book that was made of a writer without calls and claims has a record of each of its calls, and each claim that the ring
//! took. Then these tell all that the writer did (`Book::records`), and with the daemon's journal they are the writer's account
//! (`laws`).
//!
//! A context that wasn't declared before the writer was made is claimed by the writer (`Book::register`, `Writer::register`).
//! The claim waits where the ring is full, and goes into it by a later `announce`.
//!
//! Proved: `Writer::log` and `send` make one load and are filtered exactly where that level doesn't let the severity through; else they make one
//! push, and the call is lost only where that met a full ring, counted once (`after`, `Sends`); a call is refused for its exact cause (`call_fault`).
//! A record tells what became of its call (`Tells`), and the records and claims of a whole book all that its writer did (`TellAll`; laws
//! `records_are_an_account`, `losses_are_lost_calls`). `register` makes one claim step, whose number is the context's place, or is refused with the
//! exact cause (`Registers`, `IsTableFull`), and `announce` puts waiting claims into the ring in order (`Announces`).
//!
//! Not said: that the ring was full at a moment that something later is tied to, as for rings.
//!
//! Chosen: a book is *whole* where it has as many records as its writer made calls. The message counter is how many items the writer pushed and how
//! many losses it counted, modulo 256. All records are made, blank, with the book, and a call fills the next one where it lies.
#![tactic(auto)]

mod book;
mod book_list;
mod claim_room;
mod fault;
pub mod laws;
mod register;
mod writer;

pub use book::Book;
pub use book_list::BookList;
pub use claim_room::ClaimRoom;
pub use dl_bytes::{Claim, WRITER_CALL_LIMIT};
pub use dl_events::{Answer, Record};
pub use fault::{BookFault, LogFault, RegisterFault};
pub use writer::{Owner, Writer, WriterHandles};
