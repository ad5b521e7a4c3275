//! Lemmas of lists, options, truth values and numbers that the standard library lacks and that the proofs of several crates here need. There is
//! nothing to call.
//!
//! Proved: each lemma is the contract of a function that does nothing, and a proof names it where it needs it. Nothing here is a definition that
//! anybody has to believe.
#![tactic(auto)]
