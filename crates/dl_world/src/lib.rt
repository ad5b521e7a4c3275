//! Play: the steps of a script through the daemon's core, one event after the other.
//!
//! A [`World`](world) is the core with all that a script moves around it: the log calls and claims up to the rings, the injections that wait,
//! what clients and channels sent, up to the requests and messages that it makes whole, and the streams that the clients took. Each line of a
//! script is one call of it.
//!
//! Proved: `play`: records, claims, journal, each client's stream, applications, the ends of links, the backlog and the trace are those of the run of
//! the steps, for some answers of the folder to the Stores and Resets that asked it (`IsPlayed`); each line is an act of the definition of steps
//! (`Does`). The folder holds the rotation rule's files of what the trace stored; where it failed at no request, the stored configuration is what the
//! journal made of it. A client's bytes are cut into its requests (`Clients::cut`, `Asks`), a channel's into its messages (`Channels::cut`, `Tells`),
//! whatever the pieces.
//!
//! Not said: what `dlt_stored.cfg` holds where the folder failed at a Store or a Reset: a failure may leave any content, or no file.
//!
//! Chosen: `play` asks that the steps can be played, that the trace was made of the same configuration, and that it stored nothing yet; `replay`
//! meets these with what it read. Where an outbox had no room, or 2^40 frames were admitted, `play` answers out of memory; no script reaches either.
//! At the end open clients are closed, in the order in which they came.
#![tactic(auto)]

mod channels;
mod claiming;
mod clients;
mod connections;
mod delivery;
mod ending;
mod levels;
mod logging;
mod messages;
mod played;
mod playing;
mod requests;
mod steps;
mod taking;
mod world;

pub use channels::Channels;
pub use clients::{Client, Clients};
pub use played::Played;
pub use playing::play;
