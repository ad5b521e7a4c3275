//! What each pass of a queue of injections knows.

use dl_bytes::Injection;
use std::collections::LinkedList;

/// An injection as it lies in the queue: with its number among those pushed, from 0.
#[derive(Drop)]
pub struct Entry {
    /// Its number.
    pub number: u64,
    /// The injection.
    pub injection: Injection,
}

/// What a pass knows. No value of it is made: it stands in proofs alone.
pub struct View {
    /// It may push.
    pub pushes: bool,
    /// What it pushed, in order.
    pub pushed: LinkedList<Injection>,
    /// It may take.
    pub takes: bool,
    /// What it took, in order.
    pub taken: LinkedList<Entry>,
    /// It may make further passes that take.
    pub gives: bool,
    /// How many it made.
    pub splits: u64,
    /// What each pass that it took in had taken.
    pub joined: LinkedList<LinkedList<Entry>>,
}
