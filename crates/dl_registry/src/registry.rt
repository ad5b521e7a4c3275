//! The registry: who is there, at which levels, and what each slot holds.

ghost use Rattle.std.specs.Prelude.{◌≡◌, ◌<◌, ◌≤◌, ◌==◌, ◌++◌, Some, length, IfOk, IfSome, IsSome, OnOk};
ghost use Rattle.std.specs.List.{find};
ghost use Rattle.std.specs.Map.{values_of};
ghost use Rattle.std.specs.Option.{option_map, option_or};
ghost use Rattle.dl_bytes.specs.Limits.{last_version};
ghost use Rattle.dl_model.specs.Registry.{IsInOrder, app_of, level_at, stored_level, owns_now, owns_of_app};
ghost use Rattle.dl_registry.specs.Kept.{slots, made, owed_change, with_change, with_registry, slot_named, channel_at, first_app, position_at};

use crate::{SlotTable, slot_of};
use dl_apps::apps::first_of_channel;
use dl_apps::{Application, Apps};
use dl_bytes::{Bytes, Id, Level, OutOfMemory, OwnLevel, Sequence, Stored, StoredLevel};
use dl_model::{Description, LevelChange, Slot};
use indexmap::IndexMap;
use std::alloc::Global;
use std::marker::Model;

/// The applications and contexts that are there, with their levels, and what the level word of each slot holds.
#[derive(Drop)]
pub struct Registry {
    pub(crate) alloc: Global,
    pub(crate) level: Level,
    pub(crate) stored: Sequence<StoredLevel>,
    pub(crate) apps: Apps,
    pub(crate) table: SlotTable,
}

impl Model for Registry {
    ghost use Rattle.dl_registry.specs.Kept.{Kept, Fits, kept_of};

    ghost Value = { Kept };

    ghost view = { λ r. kept_of (record { level = r.level; stored = r.stored; apps = r.apps.entries }) r.table };

    ghost invariant = { λ r. Fits (record { level = r.level; stored = r.stored; apps = r.apps.entries }) r.table };
}

/// A copy of a description.
pub(crate) fn copied(alloc: Global, text: &Bytes) -> Result<Bytes, OutOfMemory>
    ensures { IfOk result (λ copy. copy ≡ text.now) }
{
    Ok(Bytes::over(Vec::from_slice(alloc, text.all())?))
}

/// A copy of a description that a context tells.
pub(crate) fn described(alloc: Global, text: &Bytes) -> Result<Description, OutOfMemory>
    ensures { IfOk result (λ copy. copy ≡ text.now) }
{
    Ok(Description::told(copied(alloc, text)?))
}

/// The own level of this level.
fn own_of(level: Level) -> OwnLevel
    ensures { result ≡ Some level }
{
    OwnLevel::of(level.number() as i8).unwrap()
}

/// The own level of a context that comes: the stored one for both ids, or else the one that it asks for.
pub(crate) fn own_for(stored: &Sequence<StoredLevel>, apid: Id, ctid: Id, own: OwnLevel) -> OwnLevel
    ensures { result ≡ option_or (stored_level stored.now apid ctid) own }
{
    match stored_for(stored, apid, ctid) {
        Some(level) => own_of(level),
        None => own,
    }
}

/// The level that was stored for both ids, the last where there are several.
fn stored_for(stored: &Sequence<StoredLevel>, apid: Id, ctid: Id) -> Option<Level>
    ensures { result ≡ stored_level stored.now apid ctid }
{
    let found = stored
        .all()
        .iter()
        .rev()
        .find(|stored| stored.apid == apid && stored.ctid == ctid)?;
    Some(found.level)
}

/// Adds the own levels of an application's contexts.
fn push_owns(owns: &mut Vec<StoredLevel>, apid: Id, app: &Application) -> Result<(), OutOfMemory>
    ensures { OnOk result (owns.new.items ≡ owns.old.items ++ owns_of_app (apid, app.now)) }
{
    for (ctid, context) in app.contexts().iter() {
        if let Some(level) = level_of(context.own) {
            let ctid = *ctid;
            owns.push(StoredLevel { apid, ctid, level })?;
        }
    }
    Ok(())
}

/// The level that an own level is, where it is one.
fn level_of(own: OwnLevel) -> Option<Level>
    ensures { result ≡ own }
{
    match own.number() {
        -1 => None,
        number => Level::of(number as u8),
    }
}

impl Registry {
    /// A registry without applications. The default level is the stored one, or else `level`; every slot begins at version
    /// `first`, with level 0.
    pub fn make(
        alloc: Global,
        level: Level,
        stored: Stored,
        first: u64,
    ) -> Result<Registry, OutOfMemory>
        requires { first ≤ last_version }
        ensures { IfOk result (λ registry. registry ≡ made level stored first) }
    {
        let table = SlotTable::make(alloc, first)?;
        Ok(Registry {
            alloc,
            level: stored.level.unwrap_or(level),
            stored: stored.own,
            apps: IndexMap::new(alloc),
            table,
        })
    }

    /// What always holds of the slots, for callers whose own promise rests on it. It costs nothing.
    pub fn slots_are_apart(&self)
        // So a slot tells the number of one application and the place of one context.
        ensures order { IsInOrder self.now.registry }
        ensures all { length self.now.held ≡ 1024 }
    {
        self.table.has_all_slots();
    }

    /// The level that filters where a context has none of its own.
    pub fn default_level(&self) -> Level
        ensures { result ≡ self.now.registry.level }
    {
        self.level
    }

    /// What a slot holds: the level that was set last, and its version.
    pub fn held(&self, slot: u16) -> Slot
        ensures { result ≡ slots self.now slot }
    {
        self.table.held(slot)
    }

    /// The slot of the context that has both ids.
    pub fn find(&self, apid: Id, ctid: Id) -> Option<u16>
        ensures slot { result ≡ slot_named self.now.registry apid ctid }
        // So a slot tells the number of one application and the place of one context.
        ensures order { IsInOrder self.now.registry }
    {
        let app = self.apps.get(&apid)?;
        let context = app.context(ctid)?;
        Some(slot_of(app.number(), context.place))
    }

    /// The channel of the application that has this number.
    pub fn channel_of(&self, app: u8) -> Option<u16>
        ensures { result ≡ channel_at self.now.registry app }
    {
        let found = self.app_numbered(app as u16)?;
        Some(found.channel())
    }

    /// The application of a channel that came first, of those that are there.
    pub fn first_app(&self, channel: u16) -> Option<Id>
        ensures first { result ≡ first_app self.now.registry channel }
        // An id names one application.
        ensures there { IfSome result (λ apid. IsSome (app_of self.now.registry channel apid)) }
    {
        first_of_channel(&self.apps, channel)
    }

    /// The application that has this number.
    fn app_numbered(&self, number: u16) -> Option<&Application>
        ensures { option_map (λ r. r.now) result ≡ find (λ app. app.number == number) (values_of self.now.registry.apps) }
    {
        self.apps.values().find(|app| app.number() as u16 == number)
    }

    /// The level that filters the context of this slot.
    pub fn effective(&self, slot: u16) -> Option<Level>
        ensures { result ≡ level_at self.now.registry slot }
    {
        self.table.wanted(slot)
    }

    /// Where the context of this slot stands in its application's own table, as its application told it last.
    pub fn position(&self, slot: u16) -> Option<u32>
        ensures { result ≡ position_at self.now.registry slot }
    {
        let app = self.app_numbered(slot / 64)?;
        let context = app.context_at(slot % 64)?;
        Some(context.position)
    }

    /// The stored list is replaced: what follows it are the contexts that come from now on.
    pub fn keep(&mut self, stored: Stored)
        ensures { self.new ≡ with_registry self.old (record self.old.registry { stored = stored.own }) }
    {
        self.stored = stored.own;
    }

    /// The default level and the own levels of now, as they are stored: contexts in the registry's order.
    pub fn stored_now(&self) -> Result<Stored, OutOfMemory>
        ensures level { IfOk result (λ stored. stored.level ≡ Some self.now.registry.level) }
        ensures own { IfOk result (λ stored. stored.own ≡ owns_now self.now.registry) }
    {
        let mut own = Vec::new(self.alloc);
        for (apid, app) in self.apps.iter() {
            push_owns(&mut own, *apid, app)?;
        }
        Ok(Stored {
            level: Some(self.level),
            own: Sequence::over(own),
        })
    }

    /// The next level that is owed: the least slot whose context has another level than the slot holds. The slot then holds
    /// that level, at its next version. It looks at no slots but those that a change since the last call may have concerned.
    pub fn next_change(&mut self) -> Option<LevelChange>
        ensures change { result ≡ owed_change self.old }
        ensures held { self.new ≡ with_change self.old result }
        ensures version { IfSome result (λ change. (slots self.old change.slot).version < last_version) }
    {
        self.table.next()
    }

    /// The application of a channel that has this id.
    pub(crate) fn app_of(&self, channel: u16, apid: Id) -> Option<&Application>
        ensures { option_map (λ r. r.now) result ≡ app_of self.now.registry channel apid }
    {
        let app = self.apps.get(&apid)?;
        if app.channel() == channel {
            Some(app)
        } else {
            None
        }
    }
}
