//! The words that threads share: the log level of each slot, which the daemon changes and every writer reads; the lost calls of each
//! application, which every writer adds to and the daemon takes; and the claimed numbers of each application. None waits.
//!
//! `Views` has the words for rules over the views of many threads, `sharing` the owners of what those threads share.
//!
//! Proved, for every schedule: `LevelReader::load` adds one read, of the level in its slot's history at the version that it answers, and no earlier
//! read of that reader found a later version; `LevelKeeper::set` refuses exactly at version 2^56 - 1. Between any two steps of any threads the word
//! of lost calls and what was reported make what all writers counted (`LossWriter::count`, `LossKeeper::take`), and the numbers of an application
//! that were given are those below its word and below 64, each to one claim (`claim`, `given`). No call waits; only `make_levels`, `make_losses` and
//! `make_claims` take memory.
//!
//! Not said: order between threads, which thread gets which number, which take reports which loss, progress, fairness.
//!
//! Chosen: 64 owners are made beforehand, since to clone a shared owner may fail and a split must not (`splits_left`). A join tells nothing by
//! itself, so the keeper has one call more, `settle`. The right to count, and to claim, is dealt in 65 shares, the first writer's among them: a
//! keeper that has all knows that nothing else is counted.
#![tactic(auto)]

mod claim_keeper;
mod claim_words;
mod claimer;
mod level_history;
mod level_keeper;
mod level_reader;
mod level_words;
mod loss_keeper;
mod loss_words;
mod loss_writer;
mod sharing;

pub use claim_keeper::{ClaimKeeper, make_claims};
pub use claimer::{Claimer, Given};
pub use level_history::{Change, Read, Seen};
pub use level_keeper::{LevelKeeper, Worn, make_levels};
pub use level_reader::LevelReader;
pub use loss_keeper::{LossKeeper, Report, make_losses};
pub use loss_writer::LossWriter;
pub use sharing::{one_more, owners};
