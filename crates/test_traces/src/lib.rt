//! Traces in memory that are read in pieces, of which one read may fail.
//!
//! Tested alone: `dl_trace_why`, where each read of a trace fails in turn, and where none does.
#![tactic(auto)]

#[cfg(test)]
mod faults;
