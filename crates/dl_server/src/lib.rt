//! A daemon that serves clients and external applications: what it is between two calls, one round of it, and its closing.
//!
//! A server is made of a core and a journal, and goes round and round: one accept of a client and one of a program; each open client is listened to,
//! and each channel; each open client is sent what waits for it, and each channel. It does not know whether its rounds end: over a journal that keeps
//! its events it is the daemon of a run that ends, over one that counts them that of one which does not.
//!
//! Proved: `Server::round` makes one accept on each net that has not failed, listens to each open client and then each channel, sends each what
//! waits, and shuts the links of clients that are gone (`IsRound`); it answers whether anything moved (`has_moved`), and rests just where nothing
//! did. `Server::close` ends each channel and gives each client its closing turns and its Close (`IsClosed`), or memory ran out (`IsHalfClosed`).
//! What is true between two calls goes on (`IsServer`). Laws: rounds and closing are their events, and a well-formed journal stays so (`GoesOn`,
//! `GoesOnUntilClosed`).
//!
//! Not said: that a byte which the link of an external application took counts as something that moved; it doesn't. That the links of gone clients
//! are looked through no more often than they need.
#![tactic(auto)]

mod accepting;
mod closing;
pub mod laws;
mod making;
mod rounds;
mod server;
mod steps;

pub use server::Server;
