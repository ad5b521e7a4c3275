//! Log calls: a call is filtered, or its message is queued, or it is lost.

ghost use Rattle.std.specs.Prelude.{◌≡◌, ◌<◌, ◌≤◌, ◌+◌, ◌-◌, ◌^◌, ℕ, List, [], length, true, false, slice_get, Some, ◌⊎◌};
ghost use Rattle.dl_client.specs.declared.context.Context.{Context};
ghost use Rattle.dl_client.specs.Outcomes.{CountsAreFull, IsDecided, IsLogged, IsNotCounted, IsNotFiltered, NoneLostBelow, OnlyAccounts, filters};
ghost use Rattle.dl_client.specs.Program.{Does, Filters, Loses, Runs, NoneLost, CannotTell, IsFull, message_of, with_bytes, with_context, one_queued};
ghost use Rattle.dl_client.specs.Seen.{seen, IsSame};

use crate::account::tell;
use crate::area::room;
use crate::client::Client;
use crate::context::{Call, Context};
use crate::message::{Source, message_len, push_message};
use crate::outcome::Logged;
use crate::state::{context_at, set_context};
use dl_bytes::PAYLOAD_LIMIT;

/// Whether a call of this severity is filtered at this place; then it is counted. For callers that make the arguments of a call
/// only where it is not filtered, and then call [`log`].
pub fn is_filtered(client: &mut Client, place: usize, severity: u8) -> bool
    ensures filtered { result ≡ true → (context : Context) × ((taken : List ℕ) → Does (seen client.old taken) (Filters place context severity) (seen client.new taken)) }
    ensures passed { result ≡ false → IsNotFiltered client.old.contexts.now place severity }
    ensures same { result ≡ false → IsSame client.old client.new }
    ensures places { length client.new.contexts.now ≡ length client.old.contexts.now }
{
    if place >= client.contexts.len() {
        return false;
    }
    let context = context_at(client, place);
    if context.level < severity {
        return count_filtered(client, place, &context, severity);
    }
    false
}

/// So many calls of the context at this place were filtered by its level, and are counted. For callers that look at the level themselves.
pub fn count_calls(client: &mut Client, place: usize, count: u64) -> bool
    ensures counted { result ≡ true → (context : Context) × ((taken : List ℕ) → Runs (seen client.old taken) (filters place context count) (seen client.new taken)) }
    ensures refused { result ≡ false → IsNotCounted client.old.contexts.now place count }
    ensures same { result ≡ false → IsSame client.old client.new }
{
    if place >= client.contexts.len() {
        return false;
    }
    let context = context_at(client, place);
    if context.filtered > u64::MAX - count {
        return false;
    }
    let filtered = context.filtered + count;
    set_context(
        client,
        place,
        Context {
            filtered,
            ..context
        },
    );
    true
}

/// A log call of the context at this place, whose payload has at most 1390 bytes. Before its message each loss is told.
pub fn log(client: &mut Client, place: usize, call: &Call, payload: &[u8]) -> Logged
    ensures { IsLogged result place call.now payload.now client.old client.new }
{
    if place >= client.contexts.len() || !is_call(call, payload) {
        return Logged::Refused;
    }
    if is_filtered(client, place, call.severity) {
        return Logged::Filtered;
    }
    let told = tell_losses(client, call.ticks);
    decide(client, place, call, payload, told)
}

/// Whether there are such a severity and so long a payload.
fn is_call(call: &Call, payload: &[u8]) -> bool
    ensures good { result ≡ true → (1 ≤ call.now.severity) × (call.now.severity ≤ 6) × (length payload.now ≤ 1390) }
    ensures bad { result ≡ false → ((call.now.severity ≡ 0) ⊎ (6 < call.now.severity)) ⊎ (1390 < length payload.now) }
{
    1 <= call.severity && call.severity <= 6 && payload.len() <= PAYLOAD_LIMIT
}

/// What becomes of a call where each loss was told, or one can't be.
fn decide(client: &mut Client, place: usize, call: &Call, payload: &[u8], told: bool) -> Logged
    requires place { place < length client.old.contexts.now }
    requires severity { call.now.severity ≤ 6 }
    requires payload { length payload.now ≤ 1390 }
    requires told { told ≡ true → NoneLost client.old.contexts.now }
    requires untold { told ≡ false → CannotTell (seen client.old []) call.now.ticks }
    ensures { IsDecided result place call.now payload.now client.old client.new }
{
    let context = context_at(client, place);
    if context.level < call.severity {
        return filter(client, place, &context, call);
    }
    if counts_are_full(&context) {
        return Logged::Refused;
    }
    if told {
        return queue(client, place, &context, call, payload);
    }
    count_lost(client, place, &context, call, payload);
    Logged::Lost
}

/// Filters a call, as far as it can be counted.
fn filter(client: &mut Client, place: usize, context: &Context, call: &Call) -> Logged
    requires place { place < length client.old.contexts.now }
    requires at { slice_get client.old.contexts.now place ≡ Some context.now }
    requires above { context.now.level < call.now.severity }
    ensures { (payload : List ℕ) → IsDecided result place call.now payload client.old client.new }
{
    if count_filtered(client, place, context, call.severity) {
        return Logged::Filtered;
    }
    Logged::Refused
}

/// Queues the message of a call that passes its level, or counts the call as lost.
fn queue(
    client: &mut Client,
    place: usize,
    context: &Context,
    call: &Call,
    payload: &[u8],
) -> Logged
    requires place { place < length client.old.contexts.now }
    requires at { slice_get client.old.contexts.now place ≡ Some context.now }
    requires passes { call.now.severity ≤ context.now.level }
    requires told { NoneLost client.old.contexts.now }
    requires severity { call.now.severity ≤ 6 }
    requires payload { length payload.now ≤ 1390 }
    requires countable { (context.now.queued < 2 ^ 64 - 1) × (context.now.lost < 2 ^ 64 - 1) }
    ensures { IsDecided result place call.now payload.now client.old client.new }
{
    if push_call(client, context, call, payload) {
        count_queued(client, place, context);
        return Logged::Queued;
    }
    count_lost(client, place, context, call, payload);
    Logged::Lost
}

/// Whether a call that passes its level can't be counted.
fn counts_are_full(context: &Context) -> bool
    ensures full { result ≡ true → CountsAreFull context.now }
    ensures countable { result ≡ false → (context.now.queued < 2 ^ 64 - 1) × (context.now.lost < 2 ^ 64 - 1) }
{
    context.queued == u64::MAX || context.lost == u64::MAX
}

/// Counts a filtered call, as far as can be counted.
fn count_filtered(client: &mut Client, place: usize, context: &Context, severity: u8) -> bool
    requires place { place < length client.old.contexts.now }
    requires at { slice_get client.old.contexts.now place ≡ Some context.now }
    requires above { context.now.level < severity }
    ensures counted { result ≡ true → (taken : List ℕ) → Does (seen client.old taken) (Filters place context.now severity) (seen client.new taken) }
    ensures full { result ≡ false → context.now.filtered ≡ 2 ^ 64 - 1 }
    ensures same { result ≡ false → IsSame client.old client.new }
    ensures places { length client.new.contexts.now ≡ length client.old.contexts.now }
{
    if context.filtered == u64::MAX {
        return false;
    }
    set_context(
        client,
        place,
        Context {
            filtered: context.filtered + 1,
            ..*context
        },
    );
    true
}

/// Counts a lost call.
fn count_lost(client: &mut Client, place: usize, context: &Context, call: &Call, payload: &[u8])
    requires place { place < length client.old.contexts.now }
    requires at { slice_get client.old.contexts.now place ≡ Some context.now }
    requires passes { call.now.severity ≤ context.now.level }
    requires countable { context.now.lost < 2 ^ 64 - 1 }
    requires cause { IsFull (seen client.old []) (message_of client.old.sender context.now call.now payload.now) ⊎ CannotTell (seen client.old []) call.now.ticks }
    ensures { (taken : List ℕ) → Does (seen client.old taken) (Loses place context.now call.now payload.now) (seen client.new taken) }
{
    set_context(
        client,
        place,
        Context {
            mcnt: context.mcnt.wrapping_add(1),
            lost: context.lost + 1,
            ..*context
        },
    );
}

/// Counts a call whose message is queued.
fn count_queued(client: &mut Client, place: usize, context: &Context)
    requires place { place < length client.old.contexts.now }
    requires countable { context.now.queued < 2 ^ 64 - 1 }
    ensures { (taken : List ℕ) → seen client.new taken ≡ with_context (seen client.old taken) place (one_queued context.now) }
{
    set_context(
        client,
        place,
        Context {
            mcnt: context.mcnt.wrapping_add(1),
            queued: context.queued + 1,
            ..*context
        },
    );
}

/// Queues the message of a call, where there is room for it.
fn push_call(client: &mut Client, context: &Context, call: &Call, payload: &[u8]) -> bool
    requires severity { call.now.severity ≤ 6 }
    requires payload { length payload.now ≤ 1390 }
    ensures pushed { result ≡ true → (taken : List ℕ) → seen client.new taken ≡ with_bytes (seen client.old taken) (message_of client.old.sender context.now call.now payload.now) }
    ensures full { result ≡ false → IsFull (seen client.new []) (message_of client.new.sender context.now call.now payload.now) }
    ensures same { result ≡ false → IsSame client.old client.new }
    ensures contexts { client.new.contexts.now ≡ client.old.contexts.now }
    ensures sender { client.new.sender ≡ client.old.sender }
{
    let sender = client.sender;
    let source = Source {
        apid: context.apid,
        ctid: context.ctid,
        mcnt: context.mcnt,
    };
    if room(&client.queue) < message_len(&sender, &source, call, payload) {
        return false;
    }
    push_message(&mut client.queue, &sender, &source, call, payload);
    true
}

/// Tells each loss, where any may be untold. Where there is no room for an account, the rest stays.
fn tell_losses(client: &mut Client, ticks: u32) -> bool
    ensures accounts { OnlyAccounts client.old client.new }
    ensures told { result ≡ true → NoneLost client.new.contexts.now }
    ensures untold { result ≡ false → CannotTell (seen client.new []) ticks }
    ensures places { length client.new.contexts.now ≡ length client.old.contexts.now }
{
    if !client.untold {
        return true;
    }
    if !tell_each(client, ticks) {
        return false;
    }
    client.untold = false;
    true
}

/// Tells the losses of each context.
fn tell_each(client: &mut Client, ticks: u32) -> bool
    ensures accounts { OnlyAccounts client.old client.new }
    ensures told { result ≡ true → NoneLost client.new.contexts.now }
    ensures untold { result ≡ false → CannotTell (seen client.new []) ticks }
    ensures places { length client.new.contexts.now ≡ length client.old.contexts.now }
{
    for place in 0..client.contexts.len() {
        if !tell_loss(client, place, ticks) {
            return false;
        }
    }
    true
}

/// Tells what the context at this place lost, where it lost any.
fn tell_loss(client: &mut Client, place: usize, ticks: u32) -> bool
    requires { place < length client.old.contexts.now }
    ensures accounts { OnlyAccounts client.old client.new }
    ensures told { result ≡ true → NoneLostBelow place client.old.contexts.now → NoneLostBelow (place + 1) client.new.contexts.now }
    ensures untold { result ≡ false → CannotTell (seen client.new []) ticks }
    ensures places { length client.new.contexts.now ≡ length client.old.contexts.now }
{
    let context = context_at(client, place);
    if context.lost == 0 {
        return true;
    }
    tell(client, place, &context, ticks)
}
