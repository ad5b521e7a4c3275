//! The end of the loss words that a writer has: one fetch-and-add a lost call, and never a wait.

ghost use Rattle.std.specs.Prelude.{◌≡◌, ◌-◌, ◌^◌, ◌<◌, [], ◌∷◌, ◌++◌, length};

use crate::loss_words::{Count, View, Words, Writers};
use atomic_table::Seat;
use std::alloc::Global;
use std::marker::Model;
use std::sync::Arc;

/// Counts the lost calls of each application. It may be sent to another thread, and its calls never wait.
#[derive(Drop)]
pub struct LossWriter {
    pub(crate) words: Arc<Words, Global>,
    pub(crate) seat: Seat<(), View>,
    // an owner of the words for each writer that can still be split off, so that a split takes no memory
    pub(crate) spare: Vec<Arc<Words, Global>>,
}

impl Model for LossWriter {
    ghost use Rattle.dl_cells.specs.LossStates.{WriterState};

    ghost Value = { WriterState };

    ghost use Rattle.dl_cells.specs.LossPasses.{writer_state, IsWriter};

    ghost view = { writer_state };

    ghost invariant = { IsWriter };
}

impl LossWriter {
    /// Counts one lost call of an application: one fetch-and-add. A writer counts up to 2^40.
    pub fn count(&mut self, app: u8)
        requires app { app < self.old.apps }
        requires few { length self.old.counted < 2 ^ 40 }
        ensures { self.new ≡ record self.old { counted = self.old.counted ++ app ∷ [] } }
    {
        let words = &self.words.shared;
        words.fetch_add::<Count>(&mut self.seat, usize::from(app), 1);
    }

    /// A writer for another thread, which has counted nothing. The writer that `make_losses` gave can be split 64 times,
    /// and one that was split off can't. No memory.
    pub fn split(&mut self) -> LossWriter
        requires { 0 < self.old.splits_left }
        ensures this { self.new ≡ record self.old { splits_left = self.old.splits_left - 1 } }
        ensures other { result ≡ record self.old { counted = []; splits_left = 0 } }
    {
        let Some(words) = self.spare.pop() else {
            unreachable!()
        };
        let seat = words.shared.split_seat::<Writers>(&mut self.seat);
        LossWriter {
            words,
            seat,
            spare: Vec::new(*self.spare.allocator()),
        }
    }
}
