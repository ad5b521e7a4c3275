//! What holds of the definitions of a daemon, whatever happened: laws of streams and their frames, of trace files, of well-formed journals and of
//! registries. Each law is the contract of a function that does nothing.
//!
//! Proved, of streams: what a client is sent is unbroken: behind what was due to it stands every frame that was admitted between its Connect and its
//! Close (`streams_are_unbroken`), each tells its length (`lengths`), and `add_frames` cuts a stream into just its frames. The backlog accounts for
//! itself: the first frame that it refuses, and each one after it, is refused and counted (`the_backlog_accounts_for_itself`), and nothing is refused
//! while there is room (`nothing_is_refused_while_there_is_room`). A client that is closed as slow was behind (`a_slow_client_was_behind`).
//!
//! Of trace files: those of this run that stand, put together, are the newest of what was stored (`what_stands_is_the_newest`); a file is full before
//! the next one begins (`a_file_is_full_before_the_next`), and the closed ones have room beside the open one (`trace_files_have_room`).
//!
//! Of journals: a client comes and goes once (`a_client_comes_once`), and once a level was told it is in force (`levels_are_in_force`).
#![tactic(auto)]

mod cut;
pub mod files;
pub mod journals;
pub mod lengths;
pub mod registries;
pub mod stream_frames;
pub mod streams;
pub mod traces;

pub use cut::add_frames;
