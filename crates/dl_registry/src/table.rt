//! The slots of all contexts: what the level word of each holds, and which ones wait for another level.

ghost use Rattle.std.specs.Prelude.{◌≡◌, ◌<◌, ◌≤◌, ◌+◌, ◌*◌, ◌/◌, ◌==◌, ℕ, IfOk, IfSome, Some, None, length, replicate, if◌then◌else◌};
ghost use Rattle.dl_bytes.specs.Limits.{last_version};
ghost use Rattle.dl_model.specs.Registry.{slot_of as slot_number};
ghost use Rattle.std.specs.Option.{option_map_or};
ghost use Rattle.dl_registry.specs.Table.{held_at, wanted_at, unset, waiting_at, next_waiting, held_after, IsFresh, IsFirstFree, IsFirstWaiting};

use dl_bytes::{Level, OutOfMemory, SLOTS};
use dl_model::{LevelChange, Slot};
use std::alloc::Global;
use std::marker::Model;

/// The slots of 16 applications with 64 contexts each.
const TABLE_LEN: usize = SLOTS as usize;

/// The contexts of one application at most.
pub const PLACES: u8 = 64;

/// What each slot holds, and the level that its context is to have. Only the slots from `from` to before `to` may wait for
/// another level, so that the next one is found without a look at all slots.
#[derive(Drop)]
pub struct SlotTable {
    first: u64,
    held: Vec<Slot>,
    wanted: Vec<Option<Level>>,
    from: usize,
    to: usize,
}

impl Model for SlotTable {
    ghost use Rattle.dl_registry.specs.Table.{Table, Holds};

    ghost Value = { Table };

    ghost view = { λ t. record { first = t.first; held = t.held.items; wanted = t.wanted.items } };

    ghost invariant = { λ t. Holds (record { first = t.first; held = t.held.items; wanted = t.wanted.items }) t.from t.to };
}

/// The level that lets nothing through.
fn off() -> Level
    ensures { result ≡ 0 }
{
    Level::of(0).unwrap()
}

/// No level for any slot.
#[tactic(auto, using(std::proofs::lemmas::List::replicate_more))]
fn no_levels(alloc: Global) -> Result<Vec<Option<Level>>, OutOfMemory>
    ensures { IfOk result (λ levels. levels.items ≡ replicate 1024 None) }
{
    let mut levels = Vec::with_capacity(alloc, TABLE_LEN)?;
    for _slot in 0..TABLE_LEN {
        levels.push(None)?;
    }
    Ok(levels)
}

impl SlotTable {
    /// A table without contexts, each slot at this version with level 0.
    pub fn make(alloc: Global, first: u64) -> Result<SlotTable, OutOfMemory>
        requires { first ≤ last_version }
        ensures { IfOk result (λ table. table ≡ record { first = first; held = replicate 1024 (unset first); wanted = replicate 1024 None }) }
    {
        let unset = Slot {
            version: first,
            level: off(),
        };
        let held = Vec::from_elem(alloc, unset, TABLE_LEN)?;
        let wanted = no_levels(alloc)?;
        Ok(SlotTable {
            first,
            held,
            wanted,
            from: 0,
            to: 0,
        })
    }

    /// The table has each of the 1024 slots.
    pub fn has_all_slots(&self)
        ensures { length self.now.held ≡ 1024 }
    {
        let _held = &self.held;
    }

    /// What a slot holds.
    pub fn held(&self, slot: u16) -> Slot
        ensures value { result ≡ held_at self.now.first self.now.held slot }
        ensures range { result.version ≤ last_version }
    {
        match self.held.get(slot as usize) {
            Some(held) => *held,
            None => Slot {
                version: self.first,
                level: off(),
            },
        }
    }

    /// The level of the context that has a slot.
    pub fn wanted(&self, slot: u16) -> Option<Level>
        ensures { result ≡ wanted_at self.now slot }
    {
        match self.wanted.get(slot as usize) {
            Some(wanted) => *wanted,
            None => None,
        }
    }

    /// The first place of an application, by its number, that no context has.
    pub fn free_place(&self, number: u8) -> Option<u8>
        ensures { IsFirstFree self.now number result }
    {
        for place in 0..PLACES {
            if self.wanted(slot_of(number, place)).is_none() {
                return Some(place);
            }
        }
        None
    }

    /// The context that has a slot gets this level. A slot that has it already is not looked at again.
    pub fn give(&mut self, slot: u16, level: Level)
        ensures first { self.new.first ≡ self.old.first }
        ensures held { self.new.held ≡ self.old.held }
        ensures beyond { (other : ℕ) → 1024 ≤ other → wanted_at self.new other ≡ wanted_at self.old other }
        ensures level { (other : ℕ) → slot < 1024 → wanted_at self.new other ≡ (if other == slot then Some level else wanted_at self.old other) }
        ensures outside { 1024 ≤ slot → self.new ≡ self.old }
    {
        let slot = slot as usize;
        if slot < TABLE_LEN && self.wanted[slot] != Some(level) {
            self.wanted[slot] = Some(level);
            if self.from >= self.to {
                self.from = slot;
                self.to = slot + 1;
            } else {
                self.from = self.from.min(slot);
                self.to = self.to.max(slot + 1);
            }
        }
    }

    /// No context has the slot any more.
    pub fn clear(&mut self, slot: u16)
        ensures first { self.new.first ≡ self.old.first }
        ensures held { self.new.held ≡ self.old.held }
        ensures level { (other : ℕ) → wanted_at self.new other ≡ (if other == slot then None else wanted_at self.old other) }
    {
        let slot = slot as usize;
        if slot < TABLE_LEN {
            self.wanted[slot] = None;
        }
    }

    /// No context has a slot of the application any more that has this number.
    pub fn clear_app(&mut self, number: u8)
        ensures first { self.new.first ≡ self.old.first }
        ensures held { self.new.held ≡ self.old.held }
        ensures level { (slot : ℕ) → wanted_at self.new slot ≡ (if number == slot / 64 then None else wanted_at self.old slot) }
    {
        for place in 0..PLACES {
            self.clear(slot_of(number, place));
        }
    }

    /// The first slot that waits for another level, with that level.
    fn waiting(&self) -> Option<LevelChange>
        ensures { IsFirstWaiting self.now result }
    {
        for slot in self.from..self.to {
            let held = self.held[slot].level;
            if let Some(level) = self.wanted[slot]
                && level != held
            {
                return Some(LevelChange {
                    slot: slot as u16,
                    level,
                });
            }
        }
        None
    }

    /// The first slot that waits for another level gets it, and that is its next version.
    pub fn next(&mut self) -> Option<LevelChange>
        requires fresh { IsFresh self.old }
        ensures change { result ≡ next_waiting self.old }
        ensures first { self.new.first ≡ self.old.first }
        ensures wanted { self.new.wanted ≡ self.old.wanted }
        ensures held { self.new.held ≡ option_map_or (held_after self.old.first self.old.held) result self.old.held }
        ensures still_fresh { IsFresh self.new }
        ensures version { IfSome result (λ change. (held_at self.old.first self.old.held change.slot).version < last_version) }
    {
        match self.waiting() {
            None => {
                self.from = self.to;
                None
            }
            Some(change) => {
                let slot = change.slot as usize;
                let version = self.held[slot].version + 1;
                self.held[slot] = Slot {
                    version,
                    level: change.level,
                };
                self.from = slot + 1;
                Some(change)
            }
        }
    }
}

/// The slot of an application's context, by the application's number and the context's place.
pub fn slot_of(number: u8, place: u8) -> u16
    ensures { result ≡ slot_number number place }
{
    64 * number as u16 + place as u16
}
