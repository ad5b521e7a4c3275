//! Bytes and texts of each format by its tables, and what other programs wrote: arguments, messages, requests, user messages and stored configurations; and a
//! registry whose slots are worn. It is compiled for its tests alone.
//!
//! Tested alone: eight streams of a real dlt-daemon, cut in any pieces: what they say is to the letter what an independent decoder printed.
#![tactic(auto)]

#[cfg(test)]
mod captures;
#[cfg(test)]
mod controls;
#[cfg(test)]
mod messages;
#[cfg(test)]
mod payloads;
#[cfg(test)]
mod registry;
#[cfg(test)]
mod shown;
#[cfg(test)]
mod stored;
#[cfg(test)]
mod streams;
#[cfg(test)]
mod user_faults;
#[cfg(test)]
mod users;
