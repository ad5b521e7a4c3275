//! What each column of each row counts, added up mark by mark.

ghost use Rattle.std.specs.Prelude.{◌≡◌, ◌++◌, ◌∷◌, [], List, IfOk, OnOk, unwrap_or};
ghost use Rattle.std.specs.HashMap as hash;
ghost use Rattle.dl_picture.specs.Tally.{Keeps, bin_of, bins_of, first_of, joined, no_bin, same_cell};
ghost use Rattle.dl_picture.specs.declared.tally.Mark.{Mark};

use crate::chart::{Bin, COLUMNS};
use dl_bytes::OutOfMemory;
use std::alloc::Global;
use std::collections::HashMap;

/// A column of a row, by their numbers from 0.
#[derive(Clone, Copy, PartialEq, Eq, Hash)]
pub struct Cell {
    /// The row.
    pub row: u64,
    /// The column.
    pub column: u64,
}

/// What is to be counted in a cell.
#[derive(Clone, Copy, PartialEq, Eq)]
pub struct Mark {
    /// The cell.
    pub cell: Cell,
    /// So much of each kind.
    pub bin: Bin,
}

/// The counts of cells. It takes memory for each cell in which something is counted.
#[derive(Drop)]
pub struct Tally {
    /// The counts.
    bins: HashMap<Cell, Bin>,
}

/// Nothing.
pub fn no_bin() -> Bin
    ensures { result ≡ no_bin }
{
    Bin {
        messages: 0,
        missing: 0,
        lost: 0,
        filtered: 0,
        first_line: 0,
        last_line: 0,
    }
}

/// The first of two lines, where 0 is none.
fn first_of(a: u64, b: u64) -> u64
    ensures { result ≡ first_of a b }
{
    if a == 0 {
        b
    } else if b == 0 {
        a
    } else {
        a.min(b)
    }
}

/// Two counts in one, and the lines of both. A count stops at the greatest number of 64 bits.
pub fn joined(a: &Bin, b: &Bin) -> Bin
    ensures { result ≡ joined a.now b.now }
{
    Bin {
        messages: a.messages.saturating_add(b.messages),
        missing: a.missing.saturating_add(b.missing),
        lost: a.lost.saturating_add(b.lost),
        filtered: a.filtered.saturating_add(b.filtered),
        first_line: first_of(a.first_line, b.first_line),
        last_line: a.last_line.max(b.last_line),
    }
}

/// What a cell has so far.
fn so_far(bins: &HashMap<Cell, Bin>, cell: &Cell) -> Bin
    ensures { result ≡ unwrap_or (hash.get same_cell bins.now cell.now) no_bin }
{
    match bins.get(cell) {
        Some(bin) => *bin,
        None => no_bin(),
    }
}

impl Tally {
    /// No counts yet.
    pub fn new(alloc: Global) -> Tally
        ensures { Keeps result [] }
    {
        Tally {
            bins: HashMap::new(alloc),
        }
    }

    /// Counts a mark.
    pub fn add(&mut self, mark: &Mark) -> Result<(), OutOfMemory>
        ensures { (marks : List Mark) → Keeps self.old marks → OnOk result (Keeps self.new (marks ++ mark.now ∷ [])) }
    {
        let bin = joined(&so_far(&self.bins, &mark.cell), &mark.bin);
        self.bins.insert(mark.cell, bin)?;
        Ok(())
    }

    /// What the columns of a row have, from left to right.
    pub fn bins(&self, alloc: Global, row: u64) -> Result<Vec<Bin>, OutOfMemory>
        ensures { (marks : List Mark) → Keeps self.now marks → IfOk result (λ bins. bins.items ≡ bins_of row marks) }
    {
        let mut bins = Vec::new(alloc);
        for column in 0..COLUMNS {
            bins.push(so_far(&self.bins, &Cell { row, column }))?;
        }
        Ok(bins)
    }
}
