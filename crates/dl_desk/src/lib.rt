//! What a program declares to log: a desk for the daemon, an application for each part that logs, and writers that log from
//! any thread.
//!
//! A program makes a desk of its applications, declares contexts, and gives each thread a writer of its own. A writer claims
//! further contexts while it logs (`Writer::register`):
//!
//! ```
//! fn log_start<R: Wait>(rt: &R, alloc: Global, specs: &[AppSpec], level: OwnLevel) -> Result<(), Failure> {
//!     let (mut desk, mut apps) = Desk::make(alloc, specs)?;
//!     let app = apps.of_mut(0);
//!     let ctx = app.context(Id::of("MAIN")?, b"the main loop", level)?;
//!     let mut writer = app.writer(&mut desk)?;
//!     let record = writer.log(rt, &ctx, Severity::Info, 100, &Payload::new())?;
//!     match record.answer {
//!         Answer::Queued | Answer::Filtered | Answer::Lost => Ok(()),
//!     }
//! }
//! ```
//!
//! The daemon takes the calls and claims of each ring from the desk, and takes and tells the losses. Once the threads have ended, whoever
//! gathers them takes the desk apart (`Desk::into_parts`) and joins the writers' handles with the daemon's (`DaemonHandles`).
//!
//! Proved: `App::context` declares at most 64 contexts, each of an id of its own, with the exact refusal (`context_fault`); `hello` tells them in
//! order; `App::writer` gives the next of at most 32 numbers and ends of the desk's own rings, words and queues, and it stays so (`made_stays`).
//! `Desk::take`, `losses`, `set` and `inject` change nothing else; `DaemonHandles` take back what the writers had.
//!
//! Chosen: an application of which a writer was made declares no context more (`AppFault::Started`): the places behind are for those that writers
//! claim. The one memory that a writer takes, that of its waiting claims, is taken before anything is split off, so that a refusal leaves desk and
//! application as they were. A logged payload is filled where it lies in its item, since to move one costs all that it has room for. That ids differ
//! or aren't zero is not asked here: no promise of the desk rests on it.
#![tactic(auto)]

mod app;
mod app_handles;
mod counted_take;
mod desk;
mod fault;
mod handles;
pub mod laws;
mod parts;
mod writer_control;

pub use app::{App, AppList};
pub use app_handles::{AppHandles, FirstHandles};
pub use counted_take::CountedTake;
pub use desk::{Desk, DeskParts};
pub use dl_bytes::{AppSpec, Ctx};
pub use dl_cells::Worn;
pub use dl_events::{Answer, Record};
pub use dl_ring::{RingItem, Taken};
pub use dl_writer::{
    Book, BookFault, BookList, LogFault, RegisterFault, WRITER_CALL_LIMIT, Writer,
};
pub use fault::{AppFault, WriterFault};
pub use handles::DaemonHandles;
pub use writer_control::WriterControl;
