//! The words of the slots, the rule that they keep, and what each kind of step tells.

use crate::level_history::{Change, Read};
use atomic_table::{Join, Play, Split, Table, TableRule};
use std::alloc::Global;
use std::collections::LinkedList;

/// What a seat at the words knows. No value of it is made.
pub struct View {
    /// The version that each slot begins at.
    pub first: u64,
    /// Whether it is the keeper's.
    pub keeps: bool,
    /// What was set, in order.
    pub sets: LinkedList<Change>,
    /// What was read, in order.
    pub reads: LinkedList<Read>,
}

/// How many slots there are, and the version that each begins at.
#[derive(Drop)]
pub struct Shape {
    /// The number of slots.
    pub slots: u64,
    /// The first version of each.
    pub first: u64,
}

/// Between any two steps each word has the last entry of its slot's history, and each read is an entry.
pub struct LevelRule;

impl TableRule<(), View, Shape> for LevelRule {
    ghost use Rattle.dl_cells.specs.LevelRule.{Keeps, opening_view};

    ghost holds = { Keeps };

    ghost first = { opening_view };
}

/// A load: the read that it adds.
pub struct Load;

impl Play<(), View> for Load {
    ghost use Rattle.dl_cells.specs.LevelRule.{loaded};

    ghost then = { loaded };
}

/// A swap: the change that it adds.
pub struct Swap;

impl Play<(), View> for Swap {
    ghost use Rattle.dl_cells.specs.LevelRule.{swapped};

    ghost then = { swapped };
}

/// A new seat knows the reads of the old one, and a seat that takes in another knows the reads of both.
pub struct Seats;

impl Split<View> for Seats {
    ghost use Rattle.dl_cells.specs.LevelRule.{reader_view};

    ghost left = { λ v. v };

    ghost right = { reader_view };
}

impl Join<View> for Seats {
    ghost use Rattle.dl_cells.specs.LevelRule.{joined_view, spent_view};

    ghost both = { joined_view };

    ghost spent = { spent_view };
}

/// The words of all slots, which the keeper and the readers share.
pub type Words = Table<(), View, Shape, LevelRule, Global>;
