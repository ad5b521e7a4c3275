//! User messages: who comes, who tells itself anew, and who goes.

ghost use Rattle.std.specs.Prelude.{◌≡◌, ◌||◌, ◌==◌, ℕ, false, if◌then◌else◌, Ok, Err, None, IfSome, IsSomeAnd};
ghost use Rattle.std.specs.List.{list_any};
ghost use Rattle.std.specs.Option.{option_map_or};
ghost use Rattle.dl_model.specs.declared.registry.RegistryFault.TheVariants as fault;
ghost use Rattle.std.specs.Map.{lookup};
ghost use Rattle.std.specs.Str.{bytes_eq};
ghost use Rattle.dl_bytes.specs.Id.{zero_id};
ghost use Rattle.dl_bytes.specs.declared.user.UserMsg.TheVariants as msgs;
ghost use Rattle.dl_model.specs.Registry.{applied, app_of, app_registered, app_unregistered, context_of, context_registered, context_unregistered, for_app, slot_of as slot_number};
ghost use Rattle.dl_apps.specs.Change.{changed_app, changed_context, told_again, context_told_again};
ghost use Rattle.dl_registry.specs.Kept.{Applies, slots};
ghost use Rattle.dl_registry.specs.Refresh.{has_slot};
ghost use Rattle.dl_registry.specs.Table.{wanted_at};

use crate::registry::{Registry, copied, described, own_for};
use crate::{SlotTable, slot_of};
use dl_apps::{Application, apps};
use dl_bytes::{Bytes, Id, LAST_VERSION, OwnLevel, UserMsg};
use dl_model::{Context, Places, RegistryFault};

/// Whether an id has no letter.
fn is_zero(id: Id) -> bool
    ensures { result ≡ bytes_eq id zero_id }
{
    id == Id::from_bytes([0; 4])
}

impl Registry {
    /// What a user message of a channel makes of the registry. One that is refused changes nothing.
    pub fn apply(&mut self, channel: u16, msg: &UserMsg) -> Result<(), RegistryFault>
        ensures { Applies (applied (slots self.old) self.old.registry channel msg.now) self.old result self.new }
    {
        match msg {
            UserMsg::RegisterApp { apid, pid, text } => {
                self.register_app(channel, *apid, *pid, text)
            }
            UserMsg::UnregisterApp { apid, .. } => self.unregister_app(channel, *apid),
            UserMsg::RegisterContext {
                apid,
                ctid,
                position,
                level,
                text,
                ..
            } => self.register_context(channel, *apid, *ctid, *position, *level, text),
            UserMsg::UnregisterContext { apid, ctid, .. } => {
                self.unregister_context(channel, *apid, *ctid)
            }
            UserMsg::Log(_)
            | UserMsg::LogLevel { .. }
            | UserMsg::Injection { .. }
            | UserMsg::Overflow { .. } => Ok(()),
        }
    }

    /// An application registers on a channel, or tells itself anew.
    fn register_app(
        &mut self,
        channel: u16,
        apid: Id,
        pid: u32,
        text: &Bytes,
    ) -> Result<(), RegistryFault>
        ensures { Applies (applied (slots self.old) self.old.registry channel (msgs.RegisterApp apid pid text.now)) self.old result self.new }
    {
        if is_zero(apid) {
            return Err(RegistryFault::ZeroId);
        }
        match self.apps.get(&apid) {
            None => self.add_app(channel, apid, pid, text),
            Some(app) => {
                if app.channel() != channel {
                    return Err(RegistryFault::Taken);
                }
                self.tell_app(apid, pid, text)
            }
        }
    }

    /// An application that is there tells itself anew.
    fn tell_app(&mut self, apid: Id, pid: u32, text: &Bytes) -> Result<(), RegistryFault>
        ensures { Applies (Ok (record self.old.registry { apps = changed_app apid (told_again pid text.now) self.old.registry.apps })) self.old result self.new }
    {
        let text = copied(self.alloc, text)?;
        apps::tell_app(&mut self.apps, apid, pid, text);
        Ok(())
    }

    /// An application comes.
    fn add_app(
        &mut self,
        channel: u16,
        apid: Id,
        pid: u32,
        text: &Bytes,
    ) -> Result<(), RegistryFault>
        requires { lookup (bytes_eq apid) self.old.registry.apps ≡ None }
        ensures { Applies (app_registered self.old.registry channel apid pid text.now None) self.old result self.new }
    {
        let Some(number) = apps::free_number(&self.apps) else {
            return Err(RegistryFault::AppsFull);
        };
        let text = copied(self.alloc, text)?;
        let app = Application::make(self.alloc, channel, number, pid, text)?;
        apps::add_app(&mut self.apps, apid, app)?;
        Ok(())
    }

    /// An application goes, with its contexts.
    fn unregister_app(&mut self, channel: u16, apid: Id) -> Result<(), RegistryFault>
        ensures { Applies (app_unregistered self.old.registry apid (app_of self.old.registry channel apid)) self.old result self.new }
    {
        let Some(app) = self.app_of(channel, apid) else {
            return Err(RegistryFault::UnknownApp);
        };
        let number = app.number();
        apps::remove_app(&mut self.apps, apid);
        self.table.clear_app(number);
        Ok(())
    }

    /// A context of an application registers, or tells itself anew.
    fn register_context(
        &mut self,
        channel: u16,
        apid: Id,
        ctid: Id,
        position: u32,
        own: OwnLevel,
        text: &Bytes,
    ) -> Result<(), RegistryFault>
        ensures { Applies (if bytes_eq apid zero_id || bytes_eq ctid zero_id then Err fault.ZeroId
            else for_app (app_of self.old.registry channel apid) (λ app. context_registered (slots self.old) self.old.registry apid ctid position own text.now app (context_of app ctid)))
            self.old result self.new }
    {
        if is_zero(apid) || is_zero(ctid) {
            return Err(RegistryFault::ZeroId);
        }
        let Some(app) = self.app_of(channel, apid) else {
            return Err(RegistryFault::UnknownApp);
        };
        let number = app.number();
        match app.context(ctid) {
            Some(_) => self.tell_context(apid, ctid, position, text),
            None => self.add_context(apid, ctid, number, position, own, text),
        }
    }

    /// A context that is there tells itself anew, and keeps its own level.
    fn tell_context(
        &mut self,
        apid: Id,
        ctid: Id,
        position: u32,
        text: &Bytes,
    ) -> Result<(), RegistryFault>
        ensures { Applies (Ok (record self.old.registry { apps = changed_app apid (changed_context ctid (context_told_again position text.now)) self.old.registry.apps })) self.old result self.new }
    {
        let text = described(self.alloc, text)?;
        apps::tell_context(&mut self.apps, apid, ctid, position, text);
        Ok(())
    }

    /// A context comes, of the application that has this number.
    fn add_context(
        &mut self,
        apid: Id,
        ctid: Id,
        number: u8,
        position: u32,
        own: OwnLevel,
        text: &Bytes,
    ) -> Result<(), RegistryFault>
        requires { IsSomeAnd (lookup (bytes_eq apid) self.old.registry.apps) (λ app. (app.number ≡ number) × (context_of app ctid ≡ None)) }
        ensures { IfSome (lookup (bytes_eq apid) self.old.registry.apps) (λ app.
            Applies (context_registered (slots self.old) self.old.registry apid ctid position own text.now app None) self.old result self.new) }
    {
        let Some(place) = self.table.free_place(number) else {
            return Err(RegistryFault::ContextsFull);
        };
        let slot = slot_of(number, place);
        if self.table.held(slot).version == LAST_VERSION {
            return Err(RegistryFault::Worn);
        }
        let own = own_for(&self.stored, apid, ctid, own);
        let text = described(self.alloc, text)?;
        let context = Context {
            place,
            further: Places::none(),
            own,
            position,
            text,
        };
        let level = own.effective(self.level);
        apps::add_context(&mut self.apps, apid, ctid, context);
        self.table.give(slot, level);
        Ok(())
    }

    /// A context goes.
    fn unregister_context(&mut self, channel: u16, apid: Id, ctid: Id) -> Result<(), RegistryFault>
        ensures { Applies (for_app (app_of self.old.registry channel apid) (λ app. context_unregistered self.old.registry apid ctid app (context_of app ctid))) self.old result self.new }
    {
        let Some(app) = self.app_of(channel, apid) else {
            return Err(RegistryFault::UnknownApp);
        };
        if app.context(ctid).is_none() {
            return Err(RegistryFault::UnknownContext);
        }
        let number = app.number();
        let gone = apps::remove_context(&mut self.apps, apid, ctid)?;
        clear_gone(&mut self.table, number, &gone);
        Ok(())
    }
}

/// No context has the places of one that is gone.
fn clear_gone(table: &mut SlotTable, number: u8, gone: &Option<Context>)
    ensures first { table.new.first ≡ table.old.first }
    ensures held { table.new.held ≡ table.old.held }
    ensures levels { (slot : ℕ) → wanted_at table.new slot ≡ (if option_map_or (has_slot number slot) gone.now false then None else wanted_at table.old slot) }
{
    if let Some(context) = gone {
        clear_context(table, number, context);
    }
}

/// No context has the places of this one any more, which was of the application that has this number.
fn clear_context(table: &mut SlotTable, number: u8, context: &Context)
    ensures first { table.new.first ≡ table.old.first }
    ensures held { table.new.held ≡ table.old.held }
    ensures levels { (slot : ℕ) → wanted_at table.new slot ≡ (if has_slot number slot context.now then None else wanted_at table.old slot) }
{
    table.clear(slot_of(number, context.place));
    clear_places(table, number, context.further.all());
}

/// No context has these places of an application any more.
fn clear_places(table: &mut SlotTable, number: u8, places: &[u8])
    ensures first { table.new.first ≡ table.old.first }
    ensures held { table.new.held ≡ table.old.held }
    ensures levels { (slot : ℕ) → wanted_at table.new slot ≡ (if list_any (λ place. slot == slot_number number place) places.now then None else wanted_at table.old slot) }
{
    for place in places {
        table.clear(slot_of(number, *place));
    }
}
