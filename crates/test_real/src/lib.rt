//! The adapters over real files, sockets and clocks, and the objects in memory that threads share. It is compiled for its
//! tests alone.
//!
//! Tested alone: a file of 20,000 bytes, a folder that refuses, 100,000 frames to one client beside one that doesn't read, an idle link that answers
//! at once.
#![tactic(auto)]

#[cfg(test)]
mod addresses;
#[cfg(test)]
mod clocks;
#[cfg(test)]
mod files;
#[cfg(test)]
mod gates;
#[cfg(test)]
mod links;
#[cfg(test)]
mod sockets;
