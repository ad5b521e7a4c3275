//! The words of the applications, the rule that they keep, and what each kind of step tells.

use crate::loss_keeper::Report;
use atomic_table::{Join, Play, Split, Table, TableRule};
use std::alloc::Global;
use std::collections::LinkedList;

/// What a seat at the words knows. No value of it is made.
pub struct View {
    /// Whether it is the keeper's.
    pub keeps: bool,
    /// How many of all shares it has.
    pub shares: u64,
    /// The application of each loss that it counted, in order.
    pub counted: LinkedList<u8>,
    /// What each take gave, in order.
    pub reported: LinkedList<Report>,
}

/// Between any two steps what a word holds and what was reported is what was counted.
pub struct LossRule;

impl TableRule<(), View, u64> for LossRule {
    ghost use Rattle.dl_cells.specs.LossRule.{Keeps, opening_view};

    ghost holds = { Keeps };

    ghost first = { λ _. opening_view };
}

/// A fetch-and-add: the loss that it counts.
pub struct Count;

impl Play<(), View> for Count {
    ghost use Rattle.dl_cells.specs.LossRule.{counts};

    ghost then = { counts };
}

/// A swap to 0: the report that it adds.
pub struct Take;

impl Play<(), View> for Take {
    ghost use Rattle.dl_cells.specs.LossRule.{takes};

    ghost then = { takes };
}

/// A load by the keeper, which adds nothing.
pub struct Look;

impl Play<(), View> for Look {
    ghost use Rattle.dl_cells.specs.LossRule.{looks};

    ghost then = { looks };
}

/// The first seat becomes the keeper's, and the first writer has all shares.
pub struct Passes;

impl Split<View> for Passes {
    ghost use Rattle.dl_cells.specs.Views.{all_shares};
    ghost use Rattle.dl_cells.specs.LossRule.{kept_view, writer_view};

    ghost left = { λ v. kept_view v all_shares };

    ghost right = { λ _. writer_view all_shares };
}

/// A new writer gets one share, and the keeper takes in what a writer has.
pub struct Writers;

impl Split<View> for Writers {
    ghost use Rattle.dl_cells.specs.LossRule.{kept_view, writer_view};

    ghost left = { λ v. kept_view v 1 };

    ghost right = { λ _. writer_view 1 };
}

impl Join<View> for Writers {
    ghost use Rattle.dl_cells.specs.LossRule.{joined_view, writer_view};

    ghost both = { joined_view };

    ghost spent = { writer_view 0 };
}

/// The words of all applications, which the keeper and the writers share.
pub type Words = Table<(), View, u64, LossRule, Global>;
