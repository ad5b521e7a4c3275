//! The daemon's end of the claim words, which knows what was given once the claimers have joined.

ghost use Rattle.std.specs.Prelude.{◌≡◌, ◌+◌, ◌<◌, ◌≤◌, ℕ, [], ◌++◌, length, nat_lt, IfOk};
ghost use Rattle.dl_cells.specs.Views.{bit, times, all_shares};
ghost use Rattle.dl_cells.specs.Claims.{given_of, refused_of};

use crate::claim_words::{Look, Passes, View, Words, Writers};
use crate::claimer::Claimer;
use crate::owners;
use atomic_table::Seat;
use dl_bytes::OutOfMemory;
use std::alloc::Global;
use std::marker::Model;
use std::sync::Arc;

// How often the first claimer can be split.
const SPLITS: usize = 64;

/// Knows which numbers of each application were given. There is one for all claimers.
#[derive(Drop)]
pub struct ClaimKeeper {
    words: Arc<Words, Global>,
    seat: Seat<(), View>,
}

impl Model for ClaimKeeper {
    ghost use Rattle.dl_cells.specs.ClaimStates.{KeeperState};

    ghost Value = { KeeperState };

    ghost use Rattle.dl_cells.specs.ClaimPasses.{keeper_state, IsKeeper};

    ghost view = { keeper_state };

    ghost invariant = { IsKeeper };
}

impl ClaimKeeper {
    /// How many numbers of an application were given, which are the first ones: one load. Contracts know it for certain
    /// once every claimer has joined.
    pub fn given(&mut self, app: u8) -> u8
        requires { app < self.old.apps }
        ensures same { self.new ≡ self.old }
        ensures range { result ≤ 64 }
        ensures apart { (n : ℕ) → times n (given_of app self.old.given) ≤ bit (nat_lt n result) }
        ensures few { length (given_of app self.old.given) ≤ result }
        ensures all { self.old.shares ≡ all_shares → (n : ℕ) → times n (given_of app self.old.given) ≡ bit (nat_lt n result) }
        ensures count { self.old.shares ≡ all_shares → length (given_of app self.old.given) ≡ result }
        ensures full { 0 < refused_of app self.old.refused → result ≡ 64 }
    {
        let words = &self.words.shared;
        let found = words.load::<Look>(&mut self.seat, usize::from(app));
        found.min(64) as u8
    }

    /// Takes back a claimer of these words, with all that it was given or refused. Once each claimer has joined, the first
    /// one among them, `given` knows that nothing else was given.
    pub fn join(&mut self, claimer: Claimer)
        requires { claimer.table ≡ self.old.table }
        ensures { self.new ≡ record self.old { given = self.old.given ++ claimer.given; refused = self.old.refused ++ claimer.refused; shares = self.old.shares + claimer.splits_left + 1 } }
    {
        let Claimer {
            words: _,
            seat,
            none_left: _,
            spare: _,
        } = claimer;
        let words = &self.words.shared;
        words.join_seat::<Writers>(&mut self.seat, seat);
    }
}

/// The words of `apps` applications, of which no number was given.
pub fn make_claims(alloc: Global, apps: u16) -> Result<(ClaimKeeper, Claimer), OutOfMemory>
    requires { 1 ≤ apps }
    ensures keeper { IfOk result (λ made. made.0 ≡ record { table = made.0.table; apps = apps; given = []; refused = []; shares = 0 }) }
    ensures claimer { IfOk result (λ made. made.1 ≡ record { table = made.0.table; apps = apps; given = []; refused = []; splits_left = 64 }) }
{
    let row = Vec::from_elem(alloc, 0, usize::from(apps))?;
    let (table, mut seat) = Words::of_words(alloc, &row, &u64::from(apps))?;
    let claims = table.shared.split_seat::<Passes>(&mut seat);
    let words = Arc::new(alloc, table)?;
    let claimer = Claimer {
        words: Arc::try_clone(&words)?,
        seat: claims,
        none_left: [false; 256],
        spare: owners(alloc, &words, SPLITS)?,
    };
    let keeper = ClaimKeeper { words, seat };
    Ok((keeper, claimer))
}
