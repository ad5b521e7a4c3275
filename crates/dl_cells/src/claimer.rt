//! The end of the claim words that a writer has: one fetch-and-add a claim, and never a wait.

ghost use Rattle.std.specs.Prelude.{◌≡◌, ◌-◌, ◌<◌, ◌≤◌, [], ◌∷◌, ◌++◌, length, IfSome, IfNone, OnSome, IsNone};
ghost use Rattle.dl_cells.specs.Claims.{given, given_of, refused_of};
ghost use Rattle.dl_cells.specs.ClaimStates.{once_refused};

use crate::claim_words::{Claim, View, Words, Writers};
use atomic_table::Seat;
use std::alloc::Global;
use std::marker::Model;
use std::sync::Arc;

// How many numbers an application has.
const NUMBERS: u64 = 64;

/// A number that a claim gave. Contracts alone speak of it.
pub struct Given {
    /// The application's number.
    pub app: u8,
    /// The number that is given, below 64.
    pub number: u8,
}

/// Claims numbers of each application. It may be sent to another thread, and its calls never wait.
#[derive(Drop)]
pub struct Claimer {
    pub(crate) words: Arc<Words, Global>,
    pub(crate) seat: Seat<(), View>,
    // by application: whether a claim found none left
    pub(crate) none_left: [bool; 256],
    // an owner of the words for each claimer that can still be split off, so that a split takes no memory
    pub(crate) spare: Vec<Arc<Words, Global>>,
}

impl Model for Claimer {
    ghost use Rattle.dl_cells.specs.ClaimStates.{ClaimerState};

    ghost Value = { ClaimerState };

    ghost use Rattle.dl_cells.specs.ClaimPasses.{claimer_state, IsClaimer};

    ghost view = { claimer_state };

    ghost invariant = { IsClaimer };
}

impl Claimer {
    /// A number of an application that nobody else was given: one fetch-and-add, whose number found is given where it is
    /// below 64. Otherwise none is left, and later claims of the application by this claimer make no step.
    pub fn claim(&mut self, app: u8) -> Option<u8>
        requires { app < self.old.apps }
        ensures given { IfSome result (λ number. self.new ≡ record self.old { given = self.old.given ++ given app number ∷ [] }) }
        ensures range { IfSome result (λ number. number < 64) }
        ensures few { OnSome result (length (given_of app self.new.given) ≤ 64) }
        ensures none { IfNone result (self.new ≡ record self.old { refused = once_refused app self.old.refused }) }
        ensures over { 0 < refused_of app self.old.refused → IsNone result }
    {
        let place = usize::from(app);
        if self.none_left[place] {
            return None;
        }
        let words = &self.words.shared;
        let found = words.fetch_add::<Claim>(&mut self.seat, place, 1);
        if found < NUMBERS {
            return Some(found as u8);
        }
        self.none_left[place] = true;
        None
    }

    /// A claimer for another thread, which has claimed nothing. The claimer that `make_claims` gave can be split 64 times,
    /// and one that was split off can't. No memory.
    pub fn split(&mut self) -> Claimer
        requires { 0 < self.old.splits_left }
        ensures this { self.new ≡ record self.old { splits_left = self.old.splits_left - 1 } }
        ensures other { result ≡ record self.old { given = []; refused = []; splits_left = 0 } }
    {
        let Some(words) = self.spare.pop() else {
            unreachable!()
        };
        let seat = words.shared.split_seat::<Writers>(&mut self.seat);
        Claimer {
            words,
            seat,
            none_left: [false; 256],
            spare: Vec::new(*self.spare.allocator()),
        }
    }
}
