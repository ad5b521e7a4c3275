//! What a daemon does, as a list of steps: the state of any daemon, the kinds of step with the cause of each, and lemmas that give each relation of the
//! crates below as such a list. There is nothing to call.
//!
//! Proved over these steps: what `dl_serve` and `dl_daemon` promise of whole servings, by kind of step (`Steps`, `IsStep`); the relations of the live
//! layers are shown to be such lists of steps.
//!
//! Chosen: the contracts of the live calls are still the relations of their crates. That they could be steps was tried and goes; docs/internals.md
//! says what was found.
#![tactic(auto)]
