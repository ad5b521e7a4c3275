//! The end of the level words that a writer has: one load a look, and never a wait. Its claims go by the claim words.

ghost use Rattle.std.specs.Prelude.{◌≡◌, ◌-◌, ◌*◌, ◌/◌, ◌%◌, ◌<◌, ◌≤◌, [], ◌∷◌, ◌++◌, length, IfSome, IfNone, OnSome, IsNone};
ghost use Rattle.dl_cells.specs.Claims.{given, given_of, refused_of};
ghost use Rattle.dl_cells.specs.ClaimStates.{once_refused};
ghost use Rattle.dl_cells.specs.LevelHistory.{read, NoneAbove};

use crate::Claimer;
use crate::level_history::Seen;
use crate::level_words::{Load, Seats, View, Words};
use atomic_table::Seat;
use dl_bytes::Level;
use std::alloc::Global;
use std::marker::Model;
use std::sync::Arc;

/// Reads the level of each slot, and claims numbers of each application. It may be sent to another thread, and its calls
/// never wait.
#[derive(Drop)]
pub struct LevelReader {
    pub(crate) words: Arc<Words, Global>,
    pub(crate) seat: Seat<(), View>,
    pub(crate) claimer: Claimer,
    // an owner of the words for each reader that can still be split off, so that a split takes no memory
    pub(crate) spare: Vec<Arc<Words, Global>>,
}

impl Model for LevelReader {
    ghost use Rattle.dl_cells.specs.LevelStates.{ReaderState};

    ghost Value = { ReaderState };

    ghost use Rattle.dl_cells.specs.LevelPasses.{reader_state, IsReader};

    ghost view = { reader_state };

    ghost invariant = { IsReader };
}

// What a word says of its slot.
fn seen(word: u64) -> Seen
    requires { word % 16 ≤ 6 }
    ensures version { result.version ≡ word / 16 }
    ensures level { result.level ≡ word % 16 }
{
    let Some(level) = Level::of((word % 16) as u8) else {
        unreachable!()
    };
    Seen {
        version: word / 16,
        level,
    }
}

impl LevelReader {
    /// The level of a slot, found by one load. No earlier read of this reader found a later version.
    pub fn load(&mut self, slot: u16) -> Seen
        requires { slot < self.old.slots }
        ensures reads { self.new ≡ record self.old { reads = self.old.reads ++ read slot result.version result.level ∷ [] } }
        ensures newest { NoneAbove slot result.version self.old.reads }
    {
        let words = &self.words.shared;
        let word = words.load::<Load>(&mut self.seat, usize::from(slot));
        seen(word)
    }

    /// A number of an application that nobody else was given: one fetch-and-add, whose number found is given where it is
    /// below 64. Otherwise none is left, and later claims of the application by this reader make no step.
    pub fn claim(&mut self, app: u8) -> Option<u8>
        requires { 64 * app < self.old.slots }
        ensures given { IfSome result (λ number. self.new ≡ record self.old { given = self.old.given ++ given app number ∷ [] }) }
        ensures range { IfSome result (λ number. number < 64) }
        ensures few { OnSome result (length (given_of app self.new.given) ≤ 64) }
        ensures none { IfNone result (self.new ≡ record self.old { refused = once_refused app self.old.refused }) }
        ensures over { 0 < refused_of app self.old.refused → IsNone result }
    {
        self.claimer.claim(app)
    }

    /// A reader for another thread, which has read what this one has and claimed nothing. The reader that `make_levels`
    /// gave can be split 64 times, and one that was split off can't. No memory.
    pub fn split(&mut self) -> LevelReader
        requires { 0 < self.old.splits_left }
        ensures this { self.new ≡ record self.old { splits_left = self.old.splits_left - 1 } }
        ensures other { result ≡ record self.old { splits_left = 0; given = []; refused = [] } }
    {
        let Some(words) = self.spare.pop() else {
            unreachable!()
        };
        let seat = words.shared.split_seat::<Seats>(&mut self.seat);
        LevelReader {
            words,
            seat,
            claimer: self.claimer.split(),
            spare: Vec::new(*self.spare.allocator()),
        }
    }
}
