//! One application, with its contexts.

ghost use Rattle.std.specs.Prelude.{◌≡◌, ◌==◌, ◌+◌, ◌<◌, ◌≤◌, ◌++◌, ◌∷◌, [], length, IfOk, IfSome, OnOk, OnErr, None};
ghost use Rattle.std.specs.List.{IsDistinct, filter, find, list_any};
ghost use Rattle.std.specs.Map.{keys_of, lookup, remove_entry, values_of};
ghost use Rattle.std.specs.Option.{option_map};
ghost use Rattle.std.specs.Str.{bytes_eq};
ghost use Rattle.indexmap.specs.IndexMap.{spare};
ghost use Rattle.dl_model.specs.Registry.{context_of, has_place, matches, names, with_new_context, without, releveled_context};
ghost use Rattle.dl_apps.specs.Change.{told_again, context_told_again, placed_again, changed_context, leveled, without_context, relevel_of, releveled_in, changed_entry};

use crate::relevel::{Relevel, is_match};
use dl_bytes::{Bytes, CONTEXT_LIMIT, Id, OutOfMemory, OwnLevel};
use dl_model::{Context, Description};
use indexmap::IndexMap;
use std::alloc::Global;
use std::marker::Model;

/// An application that has registered.
#[derive(Drop)]
pub struct Application {
    channel: u16,
    number: u8,
    pid: u32,
    text: Bytes,
    contexts: IndexMap<Id, Context>,
}

impl Model for Application {
    ghost use Rattle.std.specs.Prelude.{◌+◌, ◌≤◌, length};
    ghost use Rattle.indexmap.specs.IndexMap.{spare};
    ghost use Rattle.dl_model.specs.Registry.{App};

    ghost Value = { App };

    ghost view = { λ a. record { channel = a.channel; number = a.number; pid = a.pid; text = a.text; contexts = a.contexts.entries } };

    // There is room for all contexts that it can have.
    ghost invariant = { λ a. 64 ≤ length a.contexts.entries + spare a.contexts };
}

/// For how many contexts an application takes room: for all, and for one more, which one that goes leaves free.
const ROOM: usize = CONTEXT_LIMIT + 1;

/// What an id names.
pub fn named<V>(entries: &IndexMap<Id, V>, id: Id) -> Option<&V>
    ensures value { option_map (λ r. r.now) result ≡ lookup (bytes_eq id) entries.now.entries }
    // It names nothing else.
    ensures apart { IsDistinct bytes_eq (keys_of entries.now.entries) }
{
    // `len` is called for its clause that no two keys are the same.
    let _len = entries.len();
    entries.get(&id)
}

/// Whether a place is among these.
fn is_among(place: u16, places: &[u8]) -> bool
    ensures { result ≡ list_any (λ other. place == other) places.now }
{
    places.iter().any(|other| place == *other as u16)
}

/// Whether a context has this place.
fn is_at(context: &Context, place: u16) -> bool
    ensures { result ≡ has_place place context.now }
{
    place == context.place as u16 || is_among(place, context.further.all())
}

/// Makes room for all contexts, and one more.
fn make_room(contexts: &mut IndexMap<Id, Context>) -> Result<(), OutOfMemory>
    ensures same { contexts.new.entries ≡ contexts.old.entries }
    ensures kept { spare contexts.old ≤ spare contexts.new }
    ensures room { OnOk result (65 ≤ length contexts.new.entries + spare contexts.new) }
{
    let room = ROOM.saturating_sub(contexts.len());
    contexts.reserve(room)
}

/// Takes out the context of this id.
fn take_out(contexts: &mut IndexMap<Id, Context>, ctid: Id) -> Option<Context>
    ensures context { result ≡ lookup (bytes_eq ctid) contexts.old.entries }
    ensures gone { contexts.new.entries ≡ without ctid contexts.old.entries }
    ensures once { remove_entry (bytes_eq ctid) contexts.old.entries ≡ without ctid contexts.old.entries }
    ensures room { length contexts.old.entries + spare contexts.old ≤ length contexts.new.entries + spare contexts.new + 1 }
{
    contexts.shift_remove(&ctid)
}

/// Puts in a context as the last, whose id was not there.
fn put_in(contexts: &mut IndexMap<Id, Context>, ctid: Id, context: Context)
    requires absent { lookup (bytes_eq ctid) contexts.old.entries ≡ None }
    requires room { 0 < spare contexts.old }
    ensures added { contexts.new.entries ≡ contexts.old.entries ++ (ctid, context) ∷ [] }
    ensures room { spare contexts.old ≤ spare contexts.new + 1 }
{
    contexts.insert(ctid, context).unwrap();
}

impl Application {
    /// An application without contexts. Room for all that it can have is taken now.
    pub fn make(
        alloc: Global,
        channel: u16,
        number: u8,
        pid: u32,
        text: Bytes,
    ) -> Result<Application, OutOfMemory>
        ensures { IfOk result (λ app. app ≡ record { channel = channel; number = number; pid = pid; text = text; contexts = [] }) }
    {
        let contexts = IndexMap::with_capacity(alloc, ROOM)?;
        Ok(Application {
            channel,
            number,
            pid,
            text,
            contexts,
        })
    }

    /// The channel on which it registered.
    pub fn channel(&self) -> u16
        ensures { result ≡ self.now.channel }
    {
        self.channel
    }

    /// Its number, which is the least that was free when it came.
    pub fn number(&self) -> u8
        ensures { result ≡ self.now.number }
    {
        self.number
    }

    /// Its description.
    pub fn text(&self) -> &[u8]
        ensures { result.now ≡ self.now.text }
    {
        self.text.all()
    }

    /// Its contexts by their ids, in the order in which they came.
    pub fn contexts(&self) -> &IndexMap<Id, Context>
        ensures { result.now.entries ≡ self.now.contexts }
    {
        &self.contexts
    }

    /// Its context of this id.
    pub fn context(&self, ctid: Id) -> Option<&Context>
        ensures { option_map (λ r. r.now) result ≡ context_of self.now ctid }
    {
        self.contexts.get(&ctid)
    }

    /// Its context that has this place.
    pub fn context_at(&self, place: u16) -> Option<&Context>
        ensures { option_map (λ r. r.now) result ≡ find (has_place place) (values_of self.now.contexts) }
    {
        self.contexts.values().find(|context| is_at(context, place))
    }

    /// How many of its contexts the id matches.
    pub fn matching(&self, ctid: Id) -> usize
        ensures { result ≡ length (filter (λ entry. matches ctid entry.0) self.now.contexts) }
    {
        self.contexts
            .iter()
            .filter(|(id, _)| is_match(ctid, **id))
            .count()
    }

    /// How many of its contexts the id names; the zero id names all.
    pub fn named(&self, ctid: Id) -> usize
        ensures { result ≡ length (filter (λ entry. names ctid entry.0) self.now.contexts) }
    {
        if ctid.is_zero() {
            return self.contexts.len();
        }
        match named(&self.contexts, ctid) {
            Some(_) => 1,
            None => 0,
        }
    }

    /// It tells itself anew.
    pub fn tell(&mut self, pid: u32, text: Bytes)
        ensures { self.new ≡ told_again pid text self.old }
    {
        self.pid = pid;
        self.text = text;
    }

    /// A context of it tells itself anew, and keeps its own level.
    pub fn tell_context(&mut self, ctid: Id, position: u32, text: Description)
        ensures { self.new ≡ changed_context ctid (context_told_again position text) self.old }
    {
        if let Some(context) = self.contexts.get_mut(&ctid) {
            context.position = position;
            context.text = text;
        }
    }

    /// A context of it gets this own level.
    pub fn set_own(&mut self, ctid: Id, own: OwnLevel)
        ensures { self.new ≡ changed_context ctid (leveled own) self.old }
    {
        if let Some(context) = self.contexts.get_mut(&ctid) {
            context.own = own;
        }
    }

    /// A context of it gets a further place. No memory is taken.
    pub fn add_place(&mut self, ctid: Id, place: u8)
        requires { IfSome (context_of self.old ctid) (λ context. length context.further < 63) }
        ensures { self.new ≡ changed_context ctid (placed_again place) self.old }
    {
        if let Some(context) = self.contexts.get_mut(&ctid) {
            context.further.add(place);
        }
    }

    /// A context that was not there comes, as the last. No memory is taken.
    pub fn add_context(&mut self, ctid: Id, context: Context)
        requires absent { context_of self.old ctid ≡ None }
        requires room { length self.old.contexts < 64 }
        ensures { self.new ≡ with_new_context self.old ctid context }
    {
        put_in(&mut self.contexts, ctid, context);
    }

    /// A context goes, and is given back. The others keep their order.
    pub fn remove_context(&mut self, ctid: Id) -> Result<Option<Context>, OutOfMemory>
        ensures context { IfOk result (λ gone. gone ≡ context_of self.old ctid) }
        ensures gone { OnOk result (self.new ≡ without_context ctid self.old) }
        ensures unchanged { OnErr result (self.new ≡ self.old) }
        ensures once { OnOk result (remove_entry (bytes_eq ctid) self.old.contexts ≡ without ctid self.old.contexts) }
    {
        make_room(&mut self.contexts)?;
        Ok(take_out(&mut self.contexts, ctid))
    }

    /// Its contexts get these own levels. `apid` is its own id.
    pub fn relevel(&mut self, apid: Id, levels: &Relevel)
        ensures { self.new ≡ releveled_in (relevel_of levels.now) apid self.old }
    {
        for place in 0..self.contexts.len() {
            relevel_at(&mut self.contexts, place, apid, levels);
        }
    }
}

/// The context at this place of the order gets its own level.
fn relevel_at(contexts: &mut IndexMap<Id, Context>, place: usize, apid: Id, levels: &Relevel)
    ensures room { spare contexts.new ≡ spare contexts.old }
    ensures levels { contexts.new.entries ≡ changed_entry (releveled_context (relevel_of levels.now) apid) contexts.old.entries place }
{
    let Some((ctid, _)) = contexts.get_index(place) else {
        return;
    };
    let ctid = *ctid;
    if let Some(context) = contexts.get_index_mut(place) {
        context.own = levels.own(apid, ctid, context.own);
    }
}
