//! What is asked of a message, what is found of it, and the words of the answer.
//!
//! Proved: `question_of`: what the words ask for a message, or that they ask for none; `push_hits` and `push_verdict` write the line of what is said,
//! which begins with its word (`verdict_text`, `word_of`). Rests on tests: `tests/find`.
#![tactic(auto)]

mod answer;
mod arguments;
mod asking;
mod found;
mod question;
mod seen;
mod verdict;

pub use answer::{fits, push_hits, push_verdict};
pub use arguments::behind_standard;
pub use asking::question_of;
pub use found::{Book, Books, Finding, Gone, Hole, Reports, Track};
pub use question::{Point, Question, is_about, is_account, is_asked, is_named, is_of_context};
pub use seen::{Hit, Seen, Spot};
pub use verdict::{Verdict, Word, decides, word_of};
