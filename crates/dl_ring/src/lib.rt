//! The queues of an application that threads share: its ring, a bounded queue into which its writers push their log calls and their claims,
//! and from which the daemon takes them; and the queue of its injections, into which the daemon pushes, and from which its writers take.
//!
//! Proved, for every schedule: what was taken of a ring, followed by what it holds, has of each writer just what it pushed, calls and claims in one
//! order (`Rest`, `AllJoined`); an injection is taken once, by one taker, or is left, and at most 16 are left. A ring holds boxes that it makes
//! beforehand, so no push or take moves a whole item or takes memory (`push_call`, `take_into`).
//!
//! Rests on tests, and on the promise of the toolchain's queue: that an item comes back *exactly* where the ring is full, and none is found *exactly*
//! where it is empty (`MetFull` speaks of one moment; `test_threads` looks at it). Not said: that a call returns, fairness, the order between pushes
//! of two threads.
//!
//! Chosen: refused pushes and empty finds are counted in 64 bits; at the last number, which no run reaches, the call waits. Entries of the queue of
//! injections carry their number as data; rings need none, since each item has its writer's number.
#![tactic(auto)]

mod call;
mod injection_push;
mod injection_queue;
mod injection_take;
mod injection_view;
mod item;
mod push;
mod ring;
mod take;
mod view;

pub use call::Call;
pub use injection_push::InjectPush;
pub use injection_queue::make_injections;
pub use injection_take::InjectTake;
pub use injection_view::Entry;
pub use item::{RingItem, Taken};
pub use push::RingPush;
pub use ring::make_ring;
pub use take::RingTake;
