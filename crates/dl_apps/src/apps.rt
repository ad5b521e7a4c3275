//! The applications by their ids, in the order in which they came.

ghost use Rattle.std.specs.Prelude.{◌≡◌, ◌==◌, ◌++◌, ◌∷◌, ◌<◌, ◌≤◌, [], OnOk, OnErr, IfOk, IfSome, IsSome, None, length, map, slice_get};
ghost use Rattle.std.specs.List.{find, list_any, position};
ghost use Rattle.std.specs.Map.{lookup, remove_entry, values_of};
ghost use Rattle.std.specs.Option.{option_and_then, option_map};
ghost use Rattle.std.specs.Str.{bytes_eq};
ghost use Rattle.dl_model.specs.Registry.{IsNumbered, numbers, least_free, context_of, of_channel, with_new_context, without, releveled_app};
ghost use Rattle.dl_apps.specs.Change.{changed_app, told_again, changed_context, context_told_again, placed_again, leveled, without_context, relevel_of, releveled_in, changed_entry};

use crate::application::Application;
use crate::relevel::Relevel;
use dl_bytes::{Bytes, Id, OutOfMemory, OwnLevel};
use dl_model::{Context, Description};
use indexmap::IndexMap;

/// Applications by their ids.
pub type Apps = IndexMap<Id, Application>;

/// The least number that no application has, where one of the 16 is free.
#[tactic(auto, using(crate::proofs::Entries::any_number))]
pub fn free_number(apps: &Apps) -> Option<u8>
    requires { IsNumbered 16 (numbers apps.now.entries) }
    ensures none { result ≡ None → 16 ≤ length apps.now.entries }
    ensures some { IfSome result (λ number. (number ≡ least_free (numbers apps.now.entries)) × (length apps.now.entries < 16)) }
{
    for number in 0..16 {
        if !has_number(apps, number) {
            return Some(number);
        }
    }
    None
}

/// The id of the application that has this number.
pub fn apid_numbered(apps: &Apps, number: u8) -> Option<Id>
    ensures { result ≡ option_map (λ entry. entry.0) (find (λ entry. entry.1.number == number) apps.now.entries) }
{
    match place_numbered(apps, number) {
        Some(place) => id_at(apps, place),
        None => None,
    }
}

/// The place of the application that has this number.
fn place_numbered(apps: &Apps, number: u8) -> Option<usize>
    ensures { result ≡ position (λ app. app.number == number) (values_of apps.now.entries) }
{
    apps.values().position(|app| app.number() == number)
}

/// Whether an application has this number.
fn has_number(apps: &Apps, number: u8) -> bool
    ensures { result ≡ list_any (λ app. number == app.number) (values_of apps.now.entries) }
{
    apps.values().any(|app| number == app.number())
}

/// The id of the first application of a channel.
pub fn first_of_channel(apps: &Apps, channel: u16) -> Option<Id>
    ensures first { result ≡ option_map (λ entry. entry.0) (find (λ entry. entry.1.channel == channel) apps.now.entries) }
    ensures there { IfSome result (λ apid. IsSome (option_and_then (of_channel channel) (lookup (bytes_eq apid) apps.now.entries))) }
{
    match first_place(apps, channel) {
        Some(place) => id_at(apps, place),
        None => None,
    }
}

/// The place of the first application of a channel.
fn first_place(apps: &Apps, channel: u16) -> Option<usize>
    ensures { result ≡ position (λ app. app.channel == channel) (values_of apps.now.entries) }
{
    apps.values().position(|app| app.channel() == channel)
}

/// The id of the application at this place of the order.
fn id_at(apps: &Apps, place: usize) -> Option<Id>
    ensures id { result ≡ option_map (λ entry. entry.0) (slice_get apps.now.entries place) }
    ensures leads { IfSome result (λ apid. lookup (bytes_eq apid) apps.now.entries ≡ option_map (λ entry. entry.1) (slice_get apps.now.entries place)) }
{
    match apps.get_index(place) {
        Some((apid, _)) => Some(*apid),
        None => None,
    }
}

/// The application of this id tells itself anew.
pub fn tell_app(apps: &mut Apps, apid: Id, pid: u32, text: Bytes)
    ensures { apps.new.entries ≡ changed_app apid (told_again pid text) apps.old.entries }
{
    if let Some(app) = apps.get_mut(&apid) {
        app.tell(pid, text);
    }
}

/// A context of the application of this id tells itself anew.
pub fn tell_context(apps: &mut Apps, apid: Id, ctid: Id, position: u32, text: Description)
    ensures { apps.new.entries ≡ changed_app apid (changed_context ctid (context_told_again position text)) apps.old.entries }
{
    if let Some(app) = apps.get_mut(&apid) {
        app.tell_context(ctid, position, text);
    }
}

/// A context of the application of this id gets this own level.
pub fn set_own(apps: &mut Apps, apid: Id, ctid: Id, own: OwnLevel)
    ensures { apps.new.entries ≡ changed_app apid (changed_context ctid (leveled own)) apps.old.entries }
{
    if let Some(app) = apps.get_mut(&apid) {
        app.set_own(ctid, own);
    }
}

/// An application that was not there comes, as the last.
pub fn add_app(apps: &mut Apps, apid: Id, app: Application) -> Result<(), OutOfMemory>
    requires { lookup (bytes_eq apid) apps.old.entries ≡ None }
    ensures added { OnOk result (apps.new.entries ≡ apps.old.entries ++ (apid, app) ∷ []) }
    ensures unchanged { OnErr result (apps.new.entries ≡ apps.old.entries) }
{
    apps.insert(apid, app)?;
    Ok(())
}

/// A context of the application of this id gets a further place.
pub fn add_place(apps: &mut Apps, apid: Id, ctid: Id, place: u8)
    requires { IfSome (lookup (bytes_eq apid) apps.old.entries) (λ app. IfSome (context_of app ctid) (λ context. length context.further < 63)) }
    ensures { apps.new.entries ≡ changed_app apid (changed_context ctid (placed_again place)) apps.old.entries }
{
    if let Some(app) = apps.get_mut(&apid) {
        app.add_place(ctid, place);
    }
}

/// A context that was not there comes, as the last of its application.
pub fn add_context(apps: &mut Apps, apid: Id, ctid: Id, context: Context)
    requires { IfSome (lookup (bytes_eq apid) apps.old.entries) (λ app. (context_of app ctid ≡ None) × (length app.contexts < 64)) }
    ensures { apps.new.entries ≡ changed_app apid (λ app. with_new_context app ctid context) apps.old.entries }
{
    if let Some(app) = apps.get_mut(&apid) {
        app.add_context(ctid, context);
    }
}

/// The application of this id goes, with its contexts. The others keep their order.
pub fn remove_app(apps: &mut Apps, apid: Id)
    ensures gone { apps.new.entries ≡ without apid apps.old.entries }
    ensures once { remove_entry (bytes_eq apid) apps.old.entries ≡ without apid apps.old.entries }
{
    apps.shift_remove(&apid);
}

/// A context of the application of this id goes, and is given back.
pub fn remove_context(apps: &mut Apps, apid: Id, ctid: Id) -> Result<Option<Context>, OutOfMemory>
    ensures context { IfOk result (λ gone. gone ≡ option_and_then (λ app. context_of app ctid) (lookup (bytes_eq apid) apps.old.entries)) }
    ensures gone { OnOk result (apps.new.entries ≡ changed_app apid (without_context ctid) apps.old.entries) }
    ensures unchanged { OnErr result (apps.new.entries ≡ changed_app apid (λ app. app) apps.old.entries) }
    ensures once { OnOk result (IfSome (lookup (bytes_eq apid) apps.old.entries) (λ app. remove_entry (bytes_eq ctid) app.contexts ≡ without ctid app.contexts)) }
{
    match apps.get_mut(&apid) {
        Some(app) => app.remove_context(ctid),
        None => Ok(None),
    }
}

/// The contexts of all applications get these own levels.
pub fn relevel(apps: &mut Apps, levels: &Relevel)
    ensures { apps.new.entries ≡ map (releveled_app (relevel_of levels.now)) apps.old.entries }
{
    for place in 0..apps.len() {
        relevel_at(apps, place, levels);
    }
}

/// The contexts of the application at this place of the order get their own levels.
fn relevel_at(apps: &mut Apps, place: usize, levels: &Relevel)
    ensures { apps.new.entries ≡ changed_entry (releveled_app (relevel_of levels.now)) apps.old.entries place }
{
    let Some((apid, _)) = apps.get_index(place) else {
        return;
    };
    let apid = *apid;
    if let Some(app) = apps.get_index_mut(place) {
        app.relevel(apid, levels);
    }
}

/// The contexts of the application of this id get these own levels.
pub fn relevel_in(apps: &mut Apps, apid: Id, levels: &Relevel)
    ensures { apps.new.entries ≡ changed_app apid (releveled_in (relevel_of levels.now) apid) apps.old.entries }
{
    if let Some(app) = apps.get_mut(&apid) {
        app.relevel(apid, levels);
    }
}
