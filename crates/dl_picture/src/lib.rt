//! A picture of what sessions have: one row each, time from left to right, as an SVG text that holds no script and loads nothing.
//!
//! Proved: the text that `draw` writes is a function of the chart (`picture`), a row for each of its rows; `Tally` keeps what each column of each row
//! has of all marks (`bin_of`); `Axis` gives the column of a number, and where a column begins.
#![tactic(auto)]

mod axis;
mod chart;
mod element;
mod head;
mod row;
mod tally;

pub use axis::Axis;
pub use chart::{Bin, COLUMNS, Picture, Row};
pub use element::{Label, Rect, push_label, push_rect};
pub use head::draw;
pub use row::push_row;
pub use tally::{Cell, Mark, Tally, joined, no_bin};
