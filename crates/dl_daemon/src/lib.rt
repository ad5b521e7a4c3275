//! The daemon that does not end: it serves clients and external applications for as long as it runs.
//!
//! It is the server of `dl_server` over a journal that keeps no event, so its memory does not grow: what it keeps is taken at the begin. Its top call
//! is `keep`. That goes round until its [`Watch`] says that it is to end, and then closes; the program's own watch says so where a session ends. A contract speaks of
//! calls that return alone, and so it speaks of a daemon that some watch ended. Since that may be at the begin of any round, and a watch changes nothing
//! that the daemon goes by, what is promised then is what holds of the program at each of its rounds, were it closed there.
//!
//! Proved: `keep`, at whatever moment its watch ends it (`IsKeeping`): each early end has its cause (`EndsEarly`); 12 comes exactly where the turn of
//! a channel might admit more than 2^40 frames in all. Each round serves who is there (`ServesRound`), and before it a restart of an offline trace
//! that has ended is tried just where that is due (`Renews`), at most once a minute by the timestamps, and not where the last number is used up. What
//! that comes to is said as of `dl_serve`: `IsComeTo`, or after a restart `HasRestartedTrace`. `status_line`: the text of the figures; `set_aside`: a
//! stored configuration that isn't of the form is under another name then (`SetsAside`). `Limits::end`, `Figures::behind`: when a session ends for its
//! numbers, and what is counted over several.
//!
//! Rests on tests: that a round is made within some time, and so when a try comes that is due; what the traces before the last one stored; how much
//! memory is held (`tests/daemon`, `tests/rests`).
//!
//! Chosen: a fault in the rounds is told in the status line, and doesn't decide the status. A trace is restarted only where the overflow message that
//! tells what is missing could be stored, so no loss is told twice, but where two are wanted (more than 4,294,967,295 messages) and the second fails.
//! A message counts as not stored where its piece was refused, and each one behind it. 65,535 clients may come in one `keep`, as channels may: it is a
//! session of the program, which begins the next one where few of these numbers are left (`Limits::end`), and adds up what they count. `--help` and
//! `--version` are answered by `main`; `keep` refuses such words.
#![tactic(auto)]

mod aside;
mod beginning;
mod closing;
mod counting;
mod figures;
pub mod laws;
mod left;
mod limits;
mod line;
mod opened;
mod opening;
mod outcome;
mod program;
mod renewing;
mod rounds;
mod session;
mod sums;
mod teller;
mod watch;

pub use aside::{BAD_NAME, BadStored, set_aside};
pub use counting::figures_of;
pub use dl_server::Server;
pub use figures::{ChannelEnds, Figures, Passed};
pub use left::Left;
pub use limits::Limits;
pub use line::status_line;
pub use opened::Opened;
pub use opening::open;
pub use outcome::Outcome;
pub use program::{USAGE, keep};
pub use renewing::{Renewal, Tries};
pub use rounds::{Stop, go_round};
pub use session::Numbers;
pub use sums::{closes_behind, ends_behind};
pub use teller::Teller;
pub use watch::{Watch, Watched};
