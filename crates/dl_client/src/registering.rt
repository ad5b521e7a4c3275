//! Registrations of applications and of contexts, as user messages.

ghost use Rattle.std.specs.Prelude.{◌≡◌, ◌<◌, ◌≤◌, ◌+◌, ◌^◌, ◌++◌, ℕ, List, [], length, true, false, negsuc};
ghost use Rattle.dl_bytes.specs.declared.user.UserMsg.TheVariants.{RegisterApp, UnregisterApp, UnregisterContext};
ghost use Rattle.dl_client.specs.Area.{held};
ghost use Rattle.dl_client.specs.Outcomes.{IsAnnounced, IsClosed, IsNoOpening, IsOpened, IsRegistered, opening_bytes};
ghost use Rattle.dl_client.specs.Program.{IsFull, registration_front, with_bytes};
ghost use Rattle.dl_client.specs.Seen.{seen, IsSame};
ghost use Rattle.dl_user.specs.Layout.{user_message, signed, level_number};

use crate::area::{Area, append, room};
use crate::client::Client;
use crate::context::{Context, Opening};
use crate::levels::settle;
use crate::outcome::Answer;
use crate::state::{context_at, set_context};
use dl_bytes::{OwnLevel, TEXT_LIMIT};

/// The marker of a user message, DUH and 1, and kind 2: an application is there.
const REGISTER_APP: [u8; 8] = [0x44, 0x55, 0x48, 0x01, 2, 0, 0, 0];

/// The marker, and kind 3: an application is gone.
const UNREGISTER_APP: [u8; 8] = [0x44, 0x55, 0x48, 0x01, 3, 0, 0, 0];

/// The marker, and kind 4: an application has a context.
const REGISTER_CONTEXT: [u8; 8] = [0x44, 0x55, 0x48, 0x01, 4, 0, 0, 0];

/// The marker, and kind 5: a context is gone.
const UNREGISTER_CONTEXT: [u8; 8] = [0x44, 0x55, 0x48, 0x01, 5, 0, 0, 0];

/// The trace status that contexts ask for, which this project does not use.
const NO_TRACE: [u8; 1] = [0];

/// Gives this place to a context, and queues its registration. The account of the context that had the place is told before.
pub fn open(client: &mut Client, place: usize, opening: &Opening, ticks: u32) -> Answer
    ensures { IsOpened result place opening.now ticks client.old client.new }
{
    if place >= client.contexts.len() || !is_opening(place, opening) {
        return Answer::Refused;
    }
    if !settle(client, place, ticks) {
        return Answer::Waits;
    }
    let context = Context {
        apid: opening.apid,
        ctid: opening.ctid,
        level: opening.level,
        mcnt: 0,
        filtered: 0,
        queued: 0,
        lost: 0,
    };
    if !push_registration(client, place, &context, opening) {
        return Answer::Waits;
    }
    set_context(client, place, context);
    Answer::Done
}

/// Queues that the context at this place is gone, behind its account. The place can then be given to another one.
pub fn close(client: &mut Client, place: usize, pid: u32, ticks: u32) -> Answer
    ensures { IsClosed result place pid ticks client.old client.new }
{
    if place >= client.contexts.len() {
        return Answer::Refused;
    }
    if !settle(client, place, ticks) {
        return Answer::Waits;
    }
    let context = context_at(client, place);
    if push_gone(client, &context, pid) {
        return Answer::Done;
    }
    Answer::Waits
}

/// Queues that an application is there, with a description of at most 255 bytes.
pub fn register_app(client: &mut Client, apid: &[u8; 4], pid: u32, text: &[u8]) -> Answer
    ensures { IsRegistered result apid.now pid text.now client.old client.new }
{
    if text.len() > TEXT_LIMIT {
        return Answer::Refused;
    }
    if room(&client.queue) < 16 + apid.len() + text.len() {
        return Answer::Waits;
    }
    push_app(&mut client.queue, apid, pid, text);
    Answer::Done
}

/// Queues that an application is gone.
pub fn unregister_app(client: &mut Client, apid: &[u8; 4], pid: u32) -> Answer
    ensures { IsAnnounced result (UnregisterApp apid.now pid) client.old client.new }
{
    if room(&client.queue) < 12 + apid.len() {
        return Answer::Waits;
    }
    push_app_gone(&mut client.queue, apid, pid);
    Answer::Done
}

/// Whether a context can be registered at this place.
fn is_opening(place: usize, opening: &Opening) -> bool
    ensures good { result ≡ true → (place < 2 ^ 32) × (length opening.now.text.now ≤ 255) }
    ensures bad { result ≡ false → IsNoOpening place opening.now }
{
    place <= 0xffff_ffff && opening.level <= 6 && opening.text.len() <= TEXT_LIMIT
}

/// Queues the registration of a context, where there is room for it.
fn push_registration(
    client: &mut Client,
    place: usize,
    context: &Context,
    opening: &Opening,
) -> bool
    requires place { place < 2 ^ 32 }
    requires text { length opening.now.text.now ≤ 255 }
    ensures pushed { result ≡ true → (taken : List ℕ) → seen client.new taken ≡ with_bytes (seen client.old taken) (opening_bytes place context.now opening.now) }
    ensures full { result ≡ false → IsFull (seen client.new []) (opening_bytes place context.now opening.now) }
    ensures same { result ≡ false → IsSame client.old client.new }
    ensures contexts { client.new.contexts.now ≡ client.old.contexts.now }
{
    if room(&client.queue) < 22 + context.apid.len() + context.ctid.len() + opening.text.len() {
        return false;
    }
    push_context(&mut client.queue, place as u32, context, opening);
    true
}

/// Adds the registration of a context.
fn push_context(queue: &mut Area, place: u32, context: &Context, opening: &Opening)
    requires text { length opening.now.text.now ≤ 255 }
    requires room { length (held queue.old) + (30 + length opening.now.text.now) ≤ length queue.old.bytes.now }
    ensures held { held queue.new ≡ held queue.old ++ opening_bytes place context.now opening.now }
    ensures size { length queue.new.bytes.now ≡ length queue.old.bytes.now }
{
    push_front(queue, place, context, opening.own);
    append(queue, &opening.pid.to_le_bytes());
    append(queue, &(opening.text.len() as u32).to_le_bytes());
    append(queue, opening.text);
}

/// Adds the first fields of the registration, up to the trace status.
fn push_front(queue: &mut Area, place: u32, context: &Context, own: OwnLevel)
    requires { length (held queue.old) + 22 ≤ length queue.old.bytes.now }
    ensures held { held queue.new ≡ held queue.old ++ registration_front place context.now own }
    ensures more { length (held queue.new) ≡ length (held queue.old) + 22 }
    ensures size { length queue.new.bytes.now ≡ length queue.old.bytes.now }
{
    append(queue, &REGISTER_CONTEXT);
    append(queue, &context.apid);
    append(queue, &context.ctid);
    append(queue, &place.to_le_bytes());
    push_level(queue, own);
    append(queue, &NO_TRACE);
}

/// Adds the level that a context asks for, as a signed byte: -1 where it follows the daemon's default level.
fn push_level(queue: &mut Area, own: OwnLevel)
    requires { length (held queue.old) + 1 ≤ length queue.old.bytes.now }
    ensures held { held queue.new ≡ held queue.old ++ signed (level_number (negsuc 0) own) }
    ensures size { length queue.new.bytes.now ≡ length queue.old.bytes.now }
{
    append(queue, &own.number().to_le_bytes());
}

/// Queues that a context is gone, where there is room for it.
fn push_gone(client: &mut Client, context: &Context, pid: u32) -> bool
    ensures pushed { result ≡ true → (taken : List ℕ) → seen client.new taken ≡ with_bytes (seen client.old taken) (user_message (UnregisterContext context.now.apid context.now.ctid pid)) }
    ensures full { result ≡ false → IsFull (seen client.new []) (user_message (UnregisterContext context.now.apid context.now.ctid pid)) }
    ensures same { result ≡ false → IsSame client.old client.new }
    ensures contexts { client.new.contexts.now ≡ client.old.contexts.now }
{
    if room(&client.queue) < 12 + context.apid.len() + context.ctid.len() {
        return false;
    }
    push_context_gone(&mut client.queue, context, pid);
    true
}

/// Adds that a context is gone.
fn push_context_gone(queue: &mut Area, context: &Context, pid: u32)
    requires { length (held queue.old) + 20 ≤ length queue.old.bytes.now }
    ensures held { held queue.new ≡ held queue.old ++ user_message (UnregisterContext context.now.apid context.now.ctid pid) }
    ensures size { length queue.new.bytes.now ≡ length queue.old.bytes.now }
{
    append(queue, &UNREGISTER_CONTEXT);
    append(queue, &context.apid);
    append(queue, &context.ctid);
    append(queue, &pid.to_le_bytes());
}

/// Adds that an application is there.
fn push_app(queue: &mut Area, apid: &[u8; 4], pid: u32, text: &[u8])
    requires text { length text.now ≤ 255 }
    requires room { length (held queue.old) + (20 + length text.now) ≤ length queue.old.bytes.now }
    ensures held { held queue.new ≡ held queue.old ++ user_message (RegisterApp apid.now pid text.now) }
    ensures size { length queue.new.bytes.now ≡ length queue.old.bytes.now }
{
    append(queue, &REGISTER_APP);
    append(queue, apid);
    append(queue, &pid.to_le_bytes());
    append(queue, &(text.len() as u32).to_le_bytes());
    append(queue, text);
}

/// Adds that an application is gone.
fn push_app_gone(queue: &mut Area, apid: &[u8; 4], pid: u32)
    requires { length (held queue.old) + 16 ≤ length queue.old.bytes.now }
    ensures held { held queue.new ≡ held queue.old ++ user_message (UnregisterApp apid.now pid) }
    ensures size { length queue.new.bytes.now ≡ length queue.old.bytes.now }
{
    append(queue, &UNREGISTER_APP);
    append(queue, apid);
    append(queue, &pid.to_le_bytes());
}
