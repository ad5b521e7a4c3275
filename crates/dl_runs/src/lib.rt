//! What holds of the runs of scripts: laws of whole runs and of the records and journals that they leave, and examples of runs, each computed
//! from the definitions alone. Each law is the contract of a function that does nothing.
//!
//! Proved, of every run of steps, every well-formed journal, or every journal with an account: a hole has one cause of seven (`a_hole_has_one_cause`,
//! `every_call_of_a_run_has_one_cause`); of two calls that a client heard in a row, the second one's counter says how many between were lost, modulo
//! 256 (`counters_tell_holes`); nothing is lost unsaid (`nothing_is_lost_unsaid`), and a lost call met a full ring (`lost_calls_met_a_full_ring`); a
//! client that was there throughout hears each queued call once (`a_client_hears_all`); each ring is admitted in order, each call and claim once
//! (`admitted_in_order`, `claims_are_announced_in_order`), and a writer and a number name one call (`numbers_name_calls`); a filtered call's severity
//! is above the level that it held, any other's isn't (`levels_filter`), and no later call of a writer holds an older level
//! (`levels_are_seen_in_time`); no place is claimed twice (`no_place_is_claimed_twice`); bytes come to the same in any pieces
//! (`cut_requests_come_to_the_same`, `cut_messages_come_to_the_same`); journals are well-formed (`runs_are_well_formed`), and a finished run owes
//! nothing (`a_finished_run_owes_nothing`).
//!
//! Programs are bound to them: `dl_replay` prints the report of just such a run, and `dl_live` is held to the same definitions. The laws hold of
//! every list of lines, also of lists that no script has, since a line that finds nothing to do leaves no mark.
#![tactic(auto)]

pub mod accounts;
pub mod call_frames;
pub mod causes;
pub mod claims;
pub mod cutting;
pub mod examples;
pub mod in_order;
pub mod runs;
