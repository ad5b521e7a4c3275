//! The hub: the backlog that waits for a client, and the outbox of each client that is connected.
//!
//! All memory is taken in `Hub::make`. A frame that is admitted is copied once for each open client, and once for the
//! backlog only where no client is open.
//!
//! Proved: after any calls each client's outbox is the client's stream less what its link took, and the backlog is what waits (`connect`, `admit`,
//! `reply`, `close` by `Adds`; `took` and `pump` by `Pumps` and law `what_links_take`): nothing is lost, and nothing sent twice. The first frame that
//! doesn't fit the backlog, and each one after it, is refused and counted. Of each open client the hub knows which frames its link has not taken to
//! their last byte, and of one that went, how many messages these told of (`left_messages`, `untaken_messages`; law `frames_of_a_stream`). The streams are those of `dl_model`; the hub has no rule of its own.
//!
//! Not said: who closes a client that is too slow: `admit` and `reply` ask for room, which their caller looks for (`room`). That a pump ends with
//! nothing left depends on the link.
//!
//! Chosen: a client's outbox is one of eight that are made with the hub, and goes back emptied. While a client is open the backlog is empty. How many
//! clients may come is part of the hub's value: 32 for a run that ends (`make`), any number for one that is made for more (`make_for`). How many
//! bytes were left when a client went is kept, so that its end can be told complete or cut.
#![tactic(auto)]

mod client;
mod hub;
pub mod laws;
mod ring;
mod store;

pub use client::Client;
pub use dl_bytes::Backlog;
pub use hub::{Hub, HubFault, Pumped};
