//! What each pass of a ring knows, and what each kind of step makes of it.

use crate::item::RingItem;
use std::collections::LinkedList;

/// What a pass knows. No value of it is made: it stands in proofs alone.
pub struct View {
    /// It may push, under its number.
    pub pushes: bool,
    /// The number of its writer.
    pub number: u8,
    /// What it pushed, in order.
    pub pushed: LinkedList<RingItem>,
    /// It may give numbers to new passes.
    pub gives: bool,
    /// The numbers that it gave to further passes.
    pub given: LinkedList<u8>,
    /// It may take.
    pub takes: bool,
    /// What it took, in order.
    pub taken: LinkedList<RingItem>,
    /// The passes that it took in.
    pub joined: LinkedList<Sent>,
}

/// What a joined pass had pushed, under its number.
pub struct Sent {
    /// The number of its writer.
    pub number: u8,
    /// What it had pushed, in order.
    pub items: LinkedList<RingItem>,
}
