//! The words of the applications, the rule that they keep, and what each kind of step tells.

use crate::claimer::Given;
use atomic_table::{Join, Play, Split, Table, TableRule};
use std::alloc::Global;
use std::collections::LinkedList;

/// What a seat at the words knows. No value of it is made.
pub struct View {
    /// Whether it is the keeper's.
    pub keeps: bool,
    /// How many of all shares it has.
    pub shares: u64,
    /// Each number that it was given, in order.
    pub given: LinkedList<Given>,
    /// The application of each claim that found none left, in order.
    pub refused: LinkedList<u8>,
}

/// Between any two steps each number below 64 and below an application's word was given once, and no other one.
pub struct ClaimRule;

impl TableRule<(), View, u64> for ClaimRule {
    ghost use Rattle.dl_cells.specs.ClaimRule.{Keeps, opening_view};

    ghost holds = { Keeps };

    ghost first = { λ _. opening_view };
}

/// A fetch-and-add: the number that it gives, or that it finds none left.
pub struct Claim;

impl Play<(), View> for Claim {
    ghost use Rattle.dl_cells.specs.ClaimRule.{claims};

    ghost then = { claims };
}

/// A load by the keeper, which adds nothing.
pub struct Look;

impl Play<(), View> for Look {
    ghost use Rattle.dl_cells.specs.ClaimRule.{looks};

    ghost then = { looks };
}

/// The first seat becomes the keeper's, and the first claimer has all shares.
pub struct Passes;

impl Split<View> for Passes {
    ghost use Rattle.dl_cells.specs.Views.{all_shares};
    ghost use Rattle.dl_cells.specs.ClaimRule.{kept_view, claimer_view};

    ghost left = { λ v. kept_view v all_shares };

    ghost right = { λ _. claimer_view all_shares };
}

/// A new claimer gets one share, and the keeper takes in what a claimer has.
pub struct Writers;

impl Split<View> for Writers {
    ghost use Rattle.dl_cells.specs.ClaimRule.{kept_view, claimer_view};

    ghost left = { λ v. kept_view v 1 };

    ghost right = { λ _. claimer_view 1 };
}

impl Join<View> for Writers {
    ghost use Rattle.dl_cells.specs.ClaimRule.{joined_view, claimer_view};

    ghost both = { joined_view };

    ghost spent = { claimer_view 0 };
}

/// The words of all applications, which the keeper and the claimers share.
pub type Words = Table<(), View, u64, ClaimRule, Global>;
