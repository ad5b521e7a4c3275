//! The files of a trace in a folder: those that are named, and the trace files of the folders that are named.
//!
//! Proved: `files_asked`: a name that a file has stands for itself, every other for the trace files of that folder, or for itself where there are
//! none, each file once; without a name those of the current folder. No look changes a file, and each failed one raised the count of faults
//! (`ReadsFolder`).
#![tactic(auto)]

mod files;
mod names;

pub use files::{alone, files_asked, has};
