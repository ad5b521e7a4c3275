//! A stretch of numbers, as of times or of lines, cut into columns.

ghost use Rattle.std.specs.Prelude.{◌≡◌, ◌<◌};
ghost use Rattle.dl_picture.specs.Axis.{column_of, span_of, start_of};

use crate::chart::COLUMNS;

/// A stretch of numbers, from the first to the last.
#[derive(Clone, Copy, PartialEq, Eq)]
pub struct Axis {
    /// The first.
    pub first: u64,
    /// The last.
    pub last: u64,
}

impl Axis {
    /// How many numbers it has, at least one.
    fn span(&self) -> u128
        ensures { result ≡ span_of self.now }
    {
        self.last.saturating_sub(self.first) as u128 + 1
    }

    /// The column in which a number is. What is left of the first column is in it, and what is right of the last one in that.
    pub fn column(&self, number: u64) -> u64
        ensures column { result ≡ column_of self.now number }
        ensures within { result < 120 }
    {
        let behind = number.saturating_sub(self.first) as u128;
        (behind * COLUMNS as u128 / self.span()).min(119) as u64
    }

    /// The number with which a column begins, for the columns that there are.
    pub fn start(&self, column: u8) -> u128
        ensures { result ≡ start_of self.now column }
    {
        self.first as u128 + column as u128 * self.span() / COLUMNS as u128
    }
}
