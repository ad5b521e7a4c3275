//! The daemon's end of the level words, which alone sets them, and of the claim words.

ghost use Rattle.std.specs.Prelude.{◌≡◌, ◌+◌, ◌-◌, ◌*◌, ◌^◌, ◌<◌, ◌≤◌, ◌↔◌, ℕ, [], ◌∷◌, ◌++◌, length, nat_lt, IfOk, IsErr, OnOk, OnErr, All};
ghost use Rattle.dl_cells.specs.Views.{bit, times, all_shares};
ghost use Rattle.dl_cells.specs.Claims.{given_of, refused_of};
ghost use Rattle.dl_cells.specs.declared.level_history.Read.{Read};
ghost use Rattle.dl_cells.specs.LevelHistory.{change, current_version, IsEntry};

use crate::level_reader::LevelReader;
use crate::level_words::{Load, Seats, Shape, Swap, View, Words};
use crate::{ClaimKeeper, make_claims, owners};
use atomic_table::Seat;
use dl_bytes::{LAST_VERSION, Level, OutOfMemory};
use std::alloc::Global;
use std::marker::Model;
use std::sync::Arc;

// How often the first reader can be split.
const SPLITS: usize = 64;

// How many slots an application has.
const SLOTS_EACH: u16 = 64;

/// The slot was set as often as its version can count.
#[derive(Clone, Copy, Debug, PartialEq, Eq)]
pub struct Worn;

/// Sets the level of each slot, and knows which numbers of each application were given. There is one for all readers.
#[derive(Drop)]
pub struct LevelKeeper {
    words: Arc<Words, Global>,
    seat: Seat<(), View>,
    claims: ClaimKeeper,
    // the last version of each slot
    versions: Vec<u64>,
}

impl Model for LevelKeeper {
    ghost use Rattle.dl_cells.specs.LevelStates.{KeeperState};

    ghost Value = { KeeperState };

    ghost use Rattle.dl_cells.specs.LevelPasses.{keeper_state, IsKeeper};

    ghost view = { keeper_state };

    ghost invariant = { IsKeeper };
}

impl LevelKeeper {
    /// Sets a slot to a level, at the slot's next version: one swap. `Worn` where the version can't rise.
    pub fn set(&mut self, slot: u16, level: Level) -> Result<(), Worn>
        requires { slot < self.old.slots }
        ensures worn { IsErr result ↔ (current_version self.old.first slot self.old.sets ≡ 2 ^ 56 - 1) }
        ensures set { OnOk result (self.new ≡ record self.old { sets = self.old.sets ++ change slot level ∷ [] }) }
        ensures kept { OnErr result (self.new ≡ self.old) }
    {
        let place = usize::from(slot);
        let version = self.versions[place];
        if version == LAST_VERSION {
            return Err(Worn);
        }
        let word = 16 * (version + 1) + u64::from(level.number());
        let words = &self.words.shared;
        words.swap::<Swap>(&mut self.seat, place, word);
        self.versions[place] = version + 1;
        Ok(())
    }

    /// The version that a slot has.
    pub fn version(&self, slot: u16) -> u64
        requires { slot < self.now.slots }
        ensures { result ≡ current_version self.now.first slot self.now.sets }
    {
        self.versions[usize::from(slot)]
    }

    /// How many numbers of an application were given, which are the first ones: one load. Contracts know it for certain
    /// once every reader has joined.
    pub fn given(&mut self, app: u8) -> u8
        requires { 64 * app < self.old.slots }
        ensures same { self.new ≡ self.old }
        ensures range { result ≤ 64 }
        ensures apart { (n : ℕ) → times n (given_of app self.old.given) ≤ bit (nat_lt n result) }
        ensures few { length (given_of app self.old.given) ≤ result }
        ensures all { self.old.shares ≡ all_shares → (n : ℕ) → times n (given_of app self.old.given) ≡ bit (nat_lt n result) }
        ensures count { self.old.shares ≡ all_shares → length (given_of app self.old.given) ≡ result }
        ensures full { 0 < refused_of app self.old.refused → result ≡ 64 }
    {
        self.claims.given(app)
    }

    /// Takes back a reader of these words, with all that it read and what it was given or refused. Once each reader has
    /// joined, the first one among them, `given` knows that nothing else was given.
    pub fn join(&mut self, reader: LevelReader)
        requires table { reader.table ≡ self.old.table }
        requires claims { reader.claims ≡ self.old.claims }
        ensures { let s = self.old in self.new ≡ record s {
          reads = s.reads ++ reader.reads;
          given = s.given ++ reader.given;
          refused = s.refused ++ reader.refused;
          shares = s.shares + reader.splits_left + 1;
        } }
    {
        let LevelReader {
            words: _,
            seat,
            claimer,
            spare: _,
        } = reader;
        let words = &self.words.shared;
        words.join_seat::<Seats>(&mut self.seat, seat);
        self.claims.join(claimer);
    }

    /// One load of slot 0, after which each read of the readers that joined is known to be an entry of its slot's history.
    pub fn settle(&mut self)
        ensures entries { All (IsEntry self.old.first self.old.sets) self.new.reads }
        ensures reads { (r : Read) × (r.slot ≡ 0) × (self.new ≡ record self.old { reads = self.old.reads ++ r ∷ [] }) }
    {
        let words = &self.words.shared;
        words.load::<Load>(&mut self.seat, 0);
    }
}

/// The words of `slots` slots, each with level 0 at version `first`, which is below 2^56, and the claim words of an
/// application for each 64 slots or part of them.
pub fn make_levels(
    alloc: Global,
    slots: u16,
    first: u64,
) -> Result<(LevelKeeper, LevelReader), OutOfMemory>
    requires slots { 1 ≤ slots }
    requires first { first < 2 ^ 56 }
    ensures keeper { IfOk result (λ made. made.0 ≡ record { table = made.0.table; slots = slots; first = first; sets = []; reads = []; claims = made.0.claims; given = []; refused = []; shares = 0 }) }
    ensures reader { IfOk result (λ made. made.1 ≡ record { table = made.0.table; slots = slots; reads = []; splits_left = 64; claims = made.0.claims; given = []; refused = [] }) }
{
    let count = usize::from(slots);
    let row = Vec::from_elem(alloc, 16 * first, count)?;
    let versions = Vec::from_elem(alloc, first, count)?;
    let shape = Shape {
        slots: u64::from(slots),
        first,
    };
    let (table, mut seat) = Words::of_words(alloc, &row, &shape)?;
    let readers = table.shared.split_seat::<Seats>(&mut seat);
    let words = Arc::new(alloc, table)?;
    let (claims, claimer) = make_claims(alloc, slots.div_ceil(SLOTS_EACH))?;
    let reader = LevelReader {
        words: Arc::try_clone(&words)?,
        seat: readers,
        claimer,
        spare: owners(alloc, &words, SPLITS)?,
    };
    let keeper = LevelKeeper {
        words,
        seat,
        claims,
        versions,
    };
    Ok((keeper, reader))
}
