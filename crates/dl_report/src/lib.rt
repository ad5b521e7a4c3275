//! The report: the text that a run prints at its end, a line for each client, the backlog, each application, each trace file, and what went
//! wrong; and what waits for the next client then.
//!
//! The daemon keeps the frames of its backlog while it runs; an account has none of them. So `left_of` tells the numbers of the backlog from the
//! journal and its records alone: who came and went, and how many bytes each frame has.
//!
//! Proved: `report` writes the text of the definition, of exactly the records, events, applications, ends, backlog and frames that it is given; out
//! of memory is the only other answer. `left_of`: what is left of the backlog after these events, in one pass and with no memory; it asks for what
//! holds of a well-formed journal that records account for (`clients_come_and_go`, `records_account_for_a_journal`).
//!
//! Chosen: losses are added up in 128 bits, in a table as long as the list of applications: so nothing is asked of their number. A client without a
//! Close has no line.
#![tactic(auto)]

mod batch;
mod count;
mod frame;
mod left;
pub mod left_laws;
mod line;
mod waiting;
mod whole;

pub use batch::{Batch, Sources, admitted_by, record_of, reports};
pub use left::{left_of, note};
pub use waiting::Waiting;
pub use whole::report;
