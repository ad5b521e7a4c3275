//! The real outside of a daemon: clients over TCP, the clocks, and what it looks after while it runs: lines that wait for nobody, the end of standard
//! input, the lock of its folder, the sync of its trace.
//!
//! Proved: the same of sockets that never wait; when a call on a socket may be left out since it would find nothing (`Way::is_empty`); the address to
//! listen on; the moment as a function of two durations. Rests on tests: that sockets and lines carry the bytes (`test_real`, `tests/daemon`,
//! `tests/rests`).
//!
//! Chosen: loopback unless `DLT_BIND_ADDRESS` says otherwise, since nobody who connects is asked who they are; port 0 listens on a free port. A rest
//! ends when something comes: all sockets, and standard input where its end is waited for, are in one `epoll` set, each once, which tells of changes
//! alone; a daemon waits a second at most, a net beside writers of its own process a millisecond, up to twenty once nobody is there. What is known of
//! a socket isn't asked of the system again; one that took nothing is asked again behind each rest in vain. Where the system refuses the set, or
//! doesn't tell of something, rests are short. The folder itself is locked (`flock`), so a killed daemon leaves no lock. A line for which standard
//! output or standard error has no room at once is left out: a daemon waits for no reader. What is no file and has a trace file's name counts as a
//! file of no bytes. With `--until-eof` programs are heard until no message came for a fifth of a second, five seconds at most. Ticks of the clock
//! count from its making, modulo 2^32. Where all seats of a net are taken, one through which nothing went for long makes room (`SeatRule`). A net that
//! listens on a port stays so when it is to listen there again.
#![tactic(auto)]

mod alive;
mod answers;
mod attendance;
mod bind;
mod client;
mod clock;
mod folder_lock;
mod input_end;
mod known;
mod newcomer;
mod own_link;
mod prompt;
mod readiness;
mod resting;
mod seats;
mod streams;
mod tcp;
mod trace_sync;
mod waiter;

pub use bind::{BIND_ADDRESS, BindFault, USERS_ADDRESS, bind_address, users_address};
pub use clock::{OpenGate, SystemClock};
pub use folder_lock::{FolderLock, LockFault, lock_folder};
pub use input_end::InputEnd;
pub use own_link::OwnLink;
pub use prompt::PromptOutput;
pub use readiness::Readiness;
pub use seats::{MadeRoom, SeatRule};
pub use tcp::{TcpLink, TcpNet};
pub use trace_sync::TraceSync;
