//! Why a message isn't there: a step script is played and explained, what is printed of its log calls and the picture of them, and the
//! account of traces and streams.
//!
//! Proved: `tell_why`: each status has its cause; what is written for `steps` is the row of each log call, in the order of its lines, and the report
//! of the run (`explained`). A row says, for a client that never comes and for each that came, what `what_became_of` says, the function of the law of
//! causes; of a lost call the line that tells of it; of one that was filtered before its slot had a level, the line of the claim; of one that was
//! taken, where it is stored. The picture shows the same (`drawn`), and no other file is to change. With `trace` and `stream` it is `account` of
//! `dl_trace_why`.
//!
//! Chosen: the script is played without a trace, so its files can't fail; a folder that fails where its files are looked at is status 7 with nothing
//! written.
#![tactic(auto)]

mod drawing;
mod explanation;
mod program;
mod script;
mod steps_status;

pub use dl_startup::Status;
pub use explanation::{Explanation, explain};
pub use program::tell_why;
pub use script::{Script, read_script};
pub use steps_status::StepsStatus;
