//! The words of the programs that run live: what they ask for, as `clap` reads them.
//!
//! Proved: `run_words`, `serve_words` and `daemon_words` give the configuration, ports, scenario and rounds that `clap` finds in the words, in their
//! range, and refuse exactly where `clap` has a fault for them, but for out of memory. Rests on tests: `tests/live`, `tests/daemon`.
//!
//! Chosen: what a simple command of `clap` takes is taken: `--port 007` is 7, `-- --conf` plays a scenario of that name. `--serve` is looked for at
//! the first place alone; what stands behind it is read by a command of its own.
#![tactic(auto)]

mod command;
mod daemon;
mod parse;
mod run;
mod serve;

pub use daemon::{DaemonWords, daemon_words};
pub use parse::{ParseFault, WordsFault};
pub use run::{RunWords, run_words};
pub use serve::{ServeWords, asks_to_serve, serve_words};
