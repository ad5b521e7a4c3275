//! Laws of every script that can be played: what holds of its runs without a further condition. Each law is the contract of a function
//! that does nothing.
//!
//! Proved, of every script that can be played, after any of its lines and at the end: its journal is well-formed (`scripts_are_well_formed`), since
//! claims that the daemon takes are of applications that are there (`claims_of_a_script_are_present`); each call has one cause, for every client
//! (`every_call_of_a_script_has_one_cause`); places differ (`places_of_a_script_differ`); a call under a claimed place is filtered until the daemon
//! takes the claim (`calls_of_a_script_are_filtered_until_their_claim_is_taken`), from when on it is in the registry
//! (`claims_of_a_script_are_registered`); a call loads a slot of the context that the registry has under its ids, and so holds its level
//! (`calls_of_a_script_load_the_slots_of_their_ids`, `calls_hold_the_levels_of_their_ids`).
#![tactic(auto)]

pub mod laws;
