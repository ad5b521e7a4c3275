//! Levels that clients set: own levels, the default level, and both again as at the beginning.

ghost use Rattle.std.specs.Prelude.{◌≡◌, ◌≢◌, ◌==◌, ◌&&◌, not, ◌<◌, ◌≤◌, ℕ, is_ok, false, if◌then◌else◌, [], length, reverse, IfOk, Some};
ghost use Rattle.std.specs.List.{IsDistinct, list_any};
ghost use Rattle.std.specs.Map.{keys_of, lookup, values_of};
ghost use Rattle.std.specs.Option.{option_map_or, option_or};
ghost use Rattle.std.specs.Str.{bytes_eq};
ghost use Rattle.dl_bytes.specs.Limits.{last_version};
ghost use Rattle.dl_model.specs.Registry.{slot_of as slot_number, is_worn, wears, wears_app, wears_context, unless_worn, is_pattern, matching, matching_in, own_set, default_set, reset, no_own, set_matching};
ghost use Rattle.dl_apps.specs.Change.{relevel_of};
ghost use Rattle.dl_registry.specs.Kept.{Sets, slots};
ghost use Rattle.dl_registry.specs.Refresh.{has_slot, level_in_app, level_in_apps, level_named};
ghost use Rattle.dl_registry.specs.Table.{held_at, wanted_at};

use crate::registry::Registry;
use crate::{SlotTable, slot_of};
use dl_apps::{Application, Apps, Relevel, apps, is_match, is_pattern, named};
use dl_bytes::{Id, LAST_VERSION, Level, OwnLevel, Sequence, StoredLevel};
use dl_model::{Context, SetFault};
use std::alloc::Global;

/// A default level, with own levels for contexts.
#[derive(Clone, Copy)]
struct NewLevels {
    level: Level,
    own: Relevel,
}

/// The ids that match all contexts.
const ALL: [u8; 4] = [0; 4];

impl Registry {
    /// Sets the own level of all contexts that both ids match, and tells how many they are. The zero id matches all, and an id
    /// that ends in `*` those that begin with what is before it. Nothing is set where a slot at its last version would change.
    pub fn set_own(&mut self, apid: Id, ctid: Id, level: OwnLevel) -> Result<u32, SetFault>
        ensures set { Sets (own_set (slots self.old) self.old.registry apid ctid level) self.old result self.new }
        ensures count { IfOk result (λ count. count ≡ length (matching self.old.registry apid ctid)) }
    {
        if !is_pattern(apid) && !is_pattern(ctid) {
            return self.set_one(apid, ctid, level);
        }
        let count = self.matching(apid, ctid);
        if count == 0 {
            return Err(SetFault::Nobody);
        }
        match self.relevel_own(apid, ctid, level) {
            Ok(()) => Ok(count),
            Err(fault) => Err(fault),
        }
    }

    /// The same where the ids name one context: no other one is looked at.
    fn set_one(&mut self, apid: Id, ctid: Id, own: OwnLevel) -> Result<u32, SetFault>
        requires app { is_pattern apid ≡ false }
        requires context { is_pattern ctid ≡ false }
        ensures set { Sets (own_set (slots self.old) self.old.registry apid ctid own) self.old result self.new }
        ensures count { IfOk result (λ count. count ≡ length (matching self.old.registry apid ctid)) }
    {
        let Some(app) = named(&self.apps, apid) else {
            return Err(SetFault::Nobody);
        };
        let Some(context) = named(app.contexts(), ctid) else {
            return Err(SetFault::Nobody);
        };
        let number = app.number();
        let old = context.own.effective(self.level);
        let new = own.effective(self.level);
        if would_wear(&self.table, number, context, old, new) {
            return Err(SetFault::Worn);
        }
        give_places(&mut self.table, number, context, new);
        apps::set_own(&mut self.apps, apid, ctid, own);
        Ok(1)
    }

    /// Sets the default level, which all contexts follow that have none of their own.
    pub fn set_default(&mut self, level: Level) -> Result<(), SetFault>
        ensures { Sets (default_set (slots self.old) self.old.registry level) self.old result self.new }
    {
        let own = Relevel::Keep;
        self.relevel(&NewLevels { level, own })
    }

    /// Sets the default level, takes all own levels away, and forgets what was stored.
    pub fn reset(&mut self, level: Level) -> Result<(), SetFault>
        ensures { Sets (reset (slots self.old) self.old.registry level) self.old result self.new }
    {
        let own = none_of_their_own();
        match self.relevel(&NewLevels { level, own }) {
            Ok(()) => {
                self.stored = nothing_stored(self.alloc);
                Ok(())
            }
            Err(fault) => Err(fault),
        }
    }

    /// Whether `reset` with this level would be done.
    pub fn reset_fits(&self, level: Level) -> bool
        ensures { result ≡ is_ok (reset (slots self.now) self.now.registry level) }
    {
        let own = none_of_their_own();
        !self.wears(&NewLevels { level, own })
    }

    /// Sets the own level of all contexts that both ids match, unless a slot at its last version would change. Where one
    /// application is named, no other one is looked at.
    fn relevel_own(&mut self, apid: Id, ctid: Id, own: OwnLevel) -> Result<(), SetFault>
        ensures { Sets (unless_worn (slots self.old) self.old.registry self.old.registry.level (set_matching apid ctid own)) self.old result self.new }
    {
        let level = self.level;
        let own = Relevel::Set { apid, ctid, own };
        let new = NewLevels { level, own };
        if is_pattern(apid) {
            return self.relevel(&new);
        }
        if self.wears_in(&new, apid) {
            return Err(SetFault::Worn);
        }
        apps::relevel_in(&mut self.apps, apid, &new.own);
        refresh_in(&mut self.table, self.level, &self.apps, apid);
        Ok(())
    }

    /// How many contexts both ids match, at most the 1024 that there can be. Where one application is named, no other one
    /// is looked at.
    fn matching(&self, apid: Id, ctid: Id) -> u32
        ensures { result ≡ length (matching self.now.registry apid ctid) }
    {
        if is_pattern(apid) {
            return self.matching_anywhere(apid, ctid);
        }
        match named(&self.apps, apid) {
            Some(app) => app.matching(ctid) as u32,
            None => 0,
        }
    }

    /// The same, application by application.
    fn matching_anywhere(&self, apid: Id, ctid: Id) -> u32
        ensures { result ≡ length (matching self.now.registry apid ctid) }
    {
        let mut count: usize = 0;
        for (id, app) in self.apps.iter() {
            count = count.saturating_add(matching_of(apid, ctid, *id, app));
        }
        count as u32
    }

    /// Whether a slot of a context is at its last version, and these levels would change its effective level.
    fn wears_context(
        &self,
        new: &NewLevels,
        apid: Id,
        app: &Application,
        ctid: Id,
        context: &Context,
    ) -> bool
        ensures { result ≡ wears_context (slots self.now) self.now.registry.level new.now.level (relevel_of new.now.own) (apid, app.now) (ctid, context.now) }
    {
        let own = new.own.own(apid, ctid, context.own);
        would_wear(
            &self.table,
            app.number(),
            context,
            context.own.effective(self.level),
            own.effective(new.level),
        )
    }

    /// The same of any context of an application.
    fn wears_app(&self, new: &NewLevels, apid: Id, app: &Application) -> bool
        ensures { result ≡ wears_app (slots self.now) self.now.registry.level new.now.level (relevel_of new.now.own) (apid, app.now) }
    {
        app.contexts().iter().any(|(ctid, context)| self.wears_context(
            new, apid, app, *ctid, context,
        ))
    }

    /// The same of any context.
    fn wears(&self, new: &NewLevels) -> bool
        ensures { result ≡ wears (slots self.now) self.now.registry new.now.level (relevel_of new.now.own) }
    {
        self.apps
            .iter()
            .any(|(apid, app)| self.wears_app(new, *apid, app))
    }

    /// The same of any context of the application that an id names.
    fn wears_in(&self, new: &NewLevels, apid: Id) -> bool
        ensures wears { result ≡ option_map_or (λ app. wears_app (slots self.now) self.now.registry.level new.now.level (relevel_of new.now.own) (apid, app)) (lookup (bytes_eq apid) self.now.registry.apps) false }
        // It names no other one.
        ensures apart { IsDistinct bytes_eq (keys_of self.now.registry.apps) }
    {
        match named(&self.apps, apid) {
            Some(app) => self.wears_app(new, apid, app),
            None => false,
        }
    }

    /// Sets these levels, unless a slot at its last version would change.
    fn relevel(&mut self, new: &NewLevels) -> Result<(), SetFault>
        ensures { Sets (unless_worn (slots self.old) self.old.registry new.now.level (relevel_of new.now.own)) self.old result self.new }
    {
        if self.wears(new) {
            return Err(SetFault::Worn);
        }
        self.level = new.level;
        apps::relevel(&mut self.apps, &new.own);
        refresh(&mut self.table, self.level, &self.apps);
        Ok(())
    }
}

/// How many contexts of an application both ids match.
fn matching_of(apid: Id, ctid: Id, id: Id, app: &Application) -> usize
    ensures { result ≡ length (matching_in apid ctid (id, app.now)) }
{
    if is_match(apid, id) {
        app.matching(ctid)
    } else {
        0
    }
}

/// Whether a slot is at its last version.
fn is_last(table: &SlotTable, slot: u16) -> bool
    ensures { result ≡ ((held_at table.now.first table.now.held slot).version == last_version) }
{
    table.held(slot).version == LAST_VERSION
}

/// Whether a slot of these places of an application is.
fn is_any_last(table: &SlotTable, number: u8, places: &[u8]) -> bool
    ensures { result ≡ list_any (λ place. (held_at table.now.first table.now.held (slot_number number place)).version == last_version) places.now }
{
    places
        .iter()
        .any(|place| is_last(table, slot_of(number, *place)))
}

/// Whether a slot of a context is, by the number of its application.
fn is_worn(table: &SlotTable, number: u8, context: &Context) -> bool
    ensures { result ≡ is_worn (held_at table.now.first table.now.held) number context.now }
{
    is_last(table, slot_of(number, context.place))
        || is_any_last(table, number, context.further.all())
}

/// Whether a slot of a context is, and would go from one level to another.
fn would_wear(table: &SlotTable, number: u8, context: &Context, old: Level, new: Level) -> bool
    ensures { result ≡ (is_worn (held_at table.now.first table.now.held) number context.now && not (old == new)) }
{
    is_worn(table, number, context) && old != new
}

/// No context has a level of its own.
fn none_of_their_own() -> Relevel
    ensures { relevel_of result ≡ no_own }
{
    let all = Id::from_bytes(ALL);
    Relevel::Set {
        apid: all,
        ctid: all,
        own: OwnLevel::of(-1).unwrap(),
    }
}

/// No stored levels.
fn nothing_stored(alloc: Global) -> Sequence<StoredLevel>
    ensures { result ≡ [] }
{
    Sequence::over(Vec::new(alloc))
}

/// The effective level of each context goes to its slot.
fn refresh(table: &mut SlotTable, level: Level, apps: &Apps)
    ensures first { table.new.first ≡ table.old.first }
    ensures held { table.new.held ≡ table.old.held }
    ensures outside { (slot : ℕ) → 1024 ≤ slot → wanted_at table.new slot ≡ wanted_at table.old slot }
    ensures levels { (slot : ℕ) → slot < 1024 → wanted_at table.new slot ≡ option_or (level_in_apps level (reverse (values_of apps.now.entries)) slot) (wanted_at table.old slot) }
{
    for app in apps.values() {
        refresh_app(table, level, app);
    }
}

/// The same of the application that an id names.
fn refresh_in(table: &mut SlotTable, level: Level, apps: &Apps, apid: Id)
    ensures first { table.new.first ≡ table.old.first }
    ensures held { table.new.held ≡ table.old.held }
    ensures outside { (slot : ℕ) → 1024 ≤ slot → wanted_at table.new slot ≡ wanted_at table.old slot }
    ensures levels { (slot : ℕ) → slot < 1024 → wanted_at table.new slot ≡ option_or (level_named level apps.now.entries apid slot) (wanted_at table.old slot) }
{
    if let Some(app) = named(apps, apid) {
        refresh_app(table, level, app);
    }
}

/// The effective level of each context of an application goes to its slot.
fn refresh_app(table: &mut SlotTable, level: Level, app: &Application)
    ensures first { table.new.first ≡ table.old.first }
    ensures held { table.new.held ≡ table.old.held }
    ensures outside { (slot : ℕ) → 1024 ≤ slot → wanted_at table.new slot ≡ wanted_at table.old slot }
    ensures levels { (slot : ℕ) → slot < 1024 → wanted_at table.new slot ≡ option_or (level_in_app level app.now slot) (wanted_at table.old slot) }
{
    let number = app.number();
    for context in app.contexts().values() {
        give_places(table, number, context, context.own.effective(level));
    }
}

/// This level goes to each slot of a context.
fn give_places(table: &mut SlotTable, number: u8, context: &Context, level: Level)
    ensures first { table.new.first ≡ table.old.first }
    ensures held { table.new.held ≡ table.old.held }
    ensures outside { (slot : ℕ) → 1024 ≤ slot → wanted_at table.new slot ≡ wanted_at table.old slot }
    ensures levels { (slot : ℕ) → slot < 1024 → wanted_at table.new slot ≡ (if has_slot number slot context.now then Some level else wanted_at table.old slot) }
{
    table.give(slot_of(number, context.place), level);
    give_further(table, number, context.further.all(), level);
}

/// This level goes to the slots of these places of an application.
fn give_further(table: &mut SlotTable, number: u8, places: &[u8], level: Level)
    ensures first { table.new.first ≡ table.old.first }
    ensures held { table.new.held ≡ table.old.held }
    ensures outside { (slot : ℕ) → 1024 ≤ slot → wanted_at table.new slot ≡ wanted_at table.old slot }
    ensures levels { (slot : ℕ) → slot < 1024 → wanted_at table.new slot ≡ (if list_any (λ place. slot == slot_number number place) places.now then Some level else wanted_at table.old slot) }
{
    for place in places {
        table.give(slot_of(number, *place), level);
    }
}
