//! The daemon's end of the loss words, which alone takes the counts.

ghost use Rattle.std.specs.Prelude.{◌≡◌, ◌+◌, ◌^◌, ◌<◌, ◌≤◌, [], ◌∷◌, ◌++◌, IfOk};
ghost use Rattle.dl_cells.specs.Losses.{report, counted_of, reported_of};
ghost use Rattle.dl_cells.specs.Views.{all_shares};

use crate::loss_words::{Look, Passes, Take, View, Words, Writers};
use crate::loss_writer::LossWriter;
use crate::owners;
use atomic_table::Seat;
use dl_bytes::OutOfMemory;
use std::alloc::Global;
use std::marker::Model;
use std::sync::Arc;

// How often the first writer can be split.
const SPLITS: usize = 64;

/// What one take gave. Contracts alone speak of it.
pub struct Report {
    /// The application's number.
    pub app: u8,
    /// How many lost calls were counted since the take before.
    pub count: u64,
}

/// Takes the lost calls of each application. There is one for all writers.
#[derive(Drop)]
pub struct LossKeeper {
    words: Arc<Words, Global>,
    seat: Seat<(), View>,
}

impl Model for LossKeeper {
    ghost use Rattle.dl_cells.specs.LossStates.{KeeperState};

    ghost Value = { KeeperState };

    ghost use Rattle.dl_cells.specs.LossPasses.{keeper_state, IsKeeper};

    ghost view = { keeper_state };

    ghost invariant = { IsKeeper };
}

impl LossKeeper {
    /// How many lost calls of an application were counted since the last take: one swap to 0. None is lost between a look
    /// and the write, since both are one step.
    pub fn take(&mut self, app: u8) -> u64
        requires { app < self.old.apps }
        ensures reported { self.new ≡ record self.old { reported = self.old.reported ++ report app result ∷ [] } }
        ensures joined { counted_of app self.old.counted ≤ reported_of app self.new.reported }
        ensures all { self.old.shares ≡ all_shares → reported_of app self.new.reported ≡ counted_of app self.old.counted }
        ensures small { reported_of app self.new.reported < 2 ^ 47 }
    {
        let words = &self.words.shared;
        words.swap::<Take>(&mut self.seat, usize::from(app), 0)
    }

    /// How many lost calls of an application wait to be taken: one load.
    pub fn pending(&mut self, app: u8) -> u64
        requires { app < self.old.apps }
        ensures same { self.new ≡ self.old }
        ensures joined { counted_of app self.old.counted ≤ reported_of app self.old.reported + result }
        ensures all { self.old.shares ≡ all_shares → reported_of app self.old.reported + result ≡ counted_of app self.old.counted }
        ensures small { reported_of app self.old.reported + result < 2 ^ 47 }
    {
        let words = &self.words.shared;
        words.load::<Look>(&mut self.seat, usize::from(app))
    }

    /// Takes back a writer of these words, with all that it counted. Once each writer has joined, the first one among
    /// them, `take` and `pending` know that nothing else is counted.
    pub fn join(&mut self, writer: LossWriter)
        requires { writer.table ≡ self.old.table }
        ensures { self.new ≡ record self.old { counted = self.old.counted ++ writer.counted; shares = self.old.shares + writer.splits_left + 1 } }
    {
        let LossWriter {
            words: _,
            seat,
            spare: _,
        } = writer;
        let words = &self.words.shared;
        words.join_seat::<Writers>(&mut self.seat, seat);
    }
}

/// The words of `apps` applications, each with no lost call.
pub fn make_losses(alloc: Global, apps: u8) -> Result<(LossKeeper, LossWriter), OutOfMemory>
    requires { 1 ≤ apps }
    ensures keeper { IfOk result (λ made. made.0 ≡ record { table = made.0.table; apps = apps; counted = []; shares = 0; reported = [] }) }
    ensures writer { IfOk result (λ made. made.1 ≡ record { table = made.0.table; apps = apps; counted = []; splits_left = 64 }) }
{
    let row = Vec::from_elem(alloc, 0, usize::from(apps))?;
    let (table, mut seat) = Words::of_words(alloc, &row, &u64::from(apps))?;
    let counts = table.shared.split_seat::<Passes>(&mut seat);
    let words = Arc::new(alloc, table)?;
    let writer = LossWriter {
        words: Arc::try_clone(&words)?,
        seat: counts,
        spare: owners(alloc, &words, SPLITS)?,
    };
    let keeper = LossKeeper { words, seat };
    Ok((keeper, writer))
}
