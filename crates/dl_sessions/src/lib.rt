//! The account of a stream of messages, session by session: which messages are missing, where, and what the stream tells of their cause.
//!
//! Proved: `Follower` counts files that come in any pieces as what their bytes tell, message by message, one file behind the other (`Follows`,
//! `IsAt`); totals, holes and losses are functions of that list (`IsAfter`), and so is the text (`printed`, `accounts_text`). Law
//! `missing_are_calls`: of a writer whose calls are counted as records say, the number missing of its session is that of the calls that passed their
//! levels and that the stream lacks, where fewer than 256 stand in a row.
//!
//! Chosen: a session goes on from one file of a rotation to the next. Where another counter was due, and the message has counter 0 or an earlier
//! timestamp, the program may have been started again: what is missing there is left open. A session is counted by context where messages show that;
//! where nothing shows which counting it follows, both are said. An overflow message names no session, and its ECU is the daemon's, so what it tells is
//! told of the application, by its APID alone; it belongs to the last hole that the application's last message ends, or to the next one, and decides it
//! only where it fits modulo 256 and the application has one session here, which counts by session. Of the time before a session's first message and behind its last nothing is said: 256 messages that are lost in a row pass over no
//! counter. Counts stop at the greatest number of 64 bits.
#![tactic(auto)]

mod account;
mod applications;
mod calls;
mod follower;
pub mod laws;
mod ledger;
mod session;
mod stream;
mod text;
mod told;

pub use account::{Account, gap, goes_on, latest_of, of_context, of_session};
pub use follower::Follower;
pub use session::{
    Calls, Context, Entry, Hole, Latest, Losses, Lost, Position, Session, Since, Source, Tally,
    Told, Totals, Turn,
};
pub use stream::{End, Place, behind, behind_first, end_of, first_place, told_first};
pub use text::{missing_here, push_counted, push_lacking, push_number, push_session, push_time};
pub use told::told_of;
