//! What of the daemon no program shows, over objects in memory: scenarios that threads play, with what stands in their accounts; and a core that admits. It
//! is compiled for its tests alone.
//!
//! Tested alone: a link that is too slow; writers that wait for a client, or for each other; claims of contexts; more calls at once than there is
//! room for.
#![tactic(auto)]

#[cfg(test)]
mod admission;
#[cfg(test)]
mod playing;
#[cfg(test)]
mod scenarios;
