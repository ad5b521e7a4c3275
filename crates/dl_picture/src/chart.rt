//! Plain types: what a picture shows.

/// How many columns a picture has. With it the size of a picture is bounded by its rows, whatever the messages are.
pub const COLUMNS: u64 = 120;

/// What is counted in one column of a row.
#[derive(Clone, Copy, PartialEq, Eq)]
pub struct Bin {
    /// Messages that are there.
    pub messages: u64,
    /// Messages that are missing.
    pub missing: u64,
    /// Messages that a record tells as lost.
    pub lost: u64,
    /// Calls that a level filtered.
    pub filtered: u64,
    /// The first line of a script that counts here; 0 where none is told.
    pub first_line: u64,
    /// The last one; 0 where none is told.
    pub last_line: u64,
}

/// A row of a picture.
#[derive(Drop)]
pub struct Row {
    /// Its name.
    pub name: Vec<u8>,
    /// What is said of it, below its name.
    pub note: Vec<u8>,
    /// Its columns, from left to right.
    pub bins: Vec<Bin>,
}

/// What a picture shows.
#[derive(Drop)]
pub struct Picture {
    /// What is said of it, above all rows.
    pub title: Vec<u8>,
    /// The names of its columns, from left to right.
    pub columns: Vec<Vec<u8>>,
    /// Its rows, from top to bottom.
    pub rows: Vec<Row>,
    /// Whether a level can have filtered something: only then the key names it.
    pub filters: bool,
}
