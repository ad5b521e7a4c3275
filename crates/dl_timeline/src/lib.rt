//! What sessions have, column by column of time: the timeline of a stream of messages, as a picture with a row for each session.
//!
//! Proved: `timeline_of`: the picture has a row for each session, in the order of their first messages; each of its 120 columns has the messages of
//! its time, what is missing before them by the counting that the session follows, and what its application and its ECU's buffer reported meanwhile
//! (`timeline`).
#![tactic(auto)]

mod timeline;

pub use timeline::{Report, ReportSpot, Spot, SpotMark, Timeline, timeline_of};
