//! The daemon that serves external applications for a number of rounds: what it begins with, its rounds, its closing, and the top call `serve`.
//!
//! Proved: `serve`: each status has its cause (`Ends`, `EndsEarly`); 12 comes exactly where 1,000,000 events or more were there at the begin of a
//! round. In each round who is there is served (`ServesRound`): each link of an open client or channel gave a byte or idled, and took all of what
//! waits or was busy. What that comes to (`IsComeTo`): the journal is well-formed, each client has its Close for a cause that its link shows
//! (`EachCloseHasCause`), each channel's User events are the messages of all that its link gave, in order, each once, however the bytes came (`AllAdmitted`),
//! external applications that ended show why (`AllShowEnds`), and are sent the levels of their contexts in the journal's order (`AllTookLevels`).
//! Law: `how_each_round_serves`, from the steps of `dl_server`.
//!
//! Not said: the order of what happens within a round, the moments of single messages, folder and core between two rounds, how much is received of a
//! link at once.
#![tactic(auto)]

mod beginning;
mod closed;
mod closing;
mod faults;
mod finishing;
pub mod laws;
mod opened;
mod opening;
mod outcome;
mod program;
mod rounds;
mod served;

pub use beginning::{Begun, begin, begin_as};
pub use closed::Closed;
pub use closing::{close, trace_told};
pub use opened::Opened;
pub use opening::{listen, open};
pub use program::serve;
pub use rounds::serve_rounds;
pub use served::Served;
