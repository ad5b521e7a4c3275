//! How serving ended, before it is said.

use crate::closed::Closed;
use dl_startup::Status;

/// How serving ended, and what is left where the closing was made.
#[derive(Drop)]
pub struct Outcome<L> {
    /// The status.
    pub status: Status,
    /// What is left.
    pub closed: Option<Closed<L>>,
}
