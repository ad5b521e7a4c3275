//! Words, rings and queues of injections, alone and between real threads, and programs that log, on one thread and on many.
//! It is compiled for its tests alone.
//!
//! Proved, for every schedule, and run: eight threads count ten thousand losses each, eight claim sixteen numbers each, of which 64 are given, each
//! once; four readers see no version fall. Run alone: rings and queues of injections filled to the brim by threads, levels set while threads log, and
//! calls, contexts and writers past their limits.
//!
//! Chosen: tests with threads stand in a crate of their own, since to prove such a test costs about as much as the crate that it tests.
#![tactic(auto)]

#[cfg(test)]
mod claims;
#[cfg(test)]
mod counts;
#[cfg(test)]
mod crowds;
#[cfg(test)]
mod exact;
#[cfg(test)]
mod injections;
#[cfg(test)]
mod jobs;
#[cfg(test)]
mod levels;
#[cfg(test)]
mod limits;
#[cfg(test)]
mod losses;
#[cfg(test)]
mod programs;
#[cfg(test)]
mod rings;
#[cfg(test)]
mod slots;
#[cfg(test)]
mod tests;
