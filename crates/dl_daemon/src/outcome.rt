//! How a daemon ended.

use crate::left::Left;
use dl_startup::Status;

/// How a daemon ended, and what is left where it closed.
#[derive(Drop)]
pub struct Outcome<L> {
    /// The status.
    pub status: Status,
    /// What is left.
    pub left: Option<Left<L>>,
}
