//! What C programs call of the library `dl_client`. Each function says what the one that it calls says. Answers are numbers: of a
//! log call 0 filtered, 1 queued, 2 lost, 3 refused; of all else 0 done, 1 it has to wait for room in the queue, 2 refused.
//!
//! Proved: each exported function says the clauses of the one that it calls, with no condition on its caller but what its types say: of an area no
//! more bytes are used than it has.
//!
//! Rests on tests: the C around it, `clib/`, by `tests/clib/run`: threads, forks, levels, injections, daemons that are away, and one call of each
//! kind beside libdlt 2.18.
#![tactic(auto)]

ghost use Rattle.std.specs.Prelude.{◌≡◌, ◌<◌, ◌≤◌, ◌++◌, ℕ, List, length, true, false, take, Option, Some};
ghost use Rattle.dl_bytes.specs.declared.user.UserMsg.TheVariants.{UnregisterApp};
ghost use Rattle.dl_client.specs.Area.{held};
ghost use Rattle.dl_client.specs.Outcomes.{Ends, IsAnnounced, IsClosed, IsLogged, IsNotCounted, IsNotFiltered, IsObeyed, IsRegistered, IsToldAt, NoRoomToTell, OnlyAccounts, filters};
ghost use Rattle.dl_client.specs.Program.{Does, Filters, Opens, Runs, Takes};
ghost use Rattle.dl_client.specs.Seen.{seen, IsSame};
ghost use Rattle.dl_bytes.specs.Level.{own_level_of};
ghost use Rattle.dl_client.specs.declared.context.Context.{Context};
ghost use Rattle.dl_client_c.specs.Registered.{registered, IsNoRegistration, WaitsToOpen};

mod payload;
mod registration;

use dl_bytes::OwnLevel;
use dl_client::{Answer, Call, Client, Logged, Opening};
pub use payload::{
    dl_client_c_add_named_bool, dl_client_c_add_named_number, dl_client_c_add_named_raw,
    dl_client_c_add_named_text, dl_client_c_add_number, dl_client_c_add_plain, dl_client_c_add_raw,
    dl_client_c_add_text,
};
pub use registration::Registration;

/// Whether a call of this severity is filtered at this place; then it is counted.
#[unsafe(no_mangle)]
pub extern "C" fn dl_client_c_is_filtered(client: &mut Client, place: usize, severity: u8) -> bool
    ensures filtered { result ≡ true → (context : Context) × ((taken : List ℕ) → Does (seen client.old taken) (Filters place context severity) (seen client.new taken)) }
    ensures passed { result ≡ false → IsNotFiltered client.old.contexts.now place severity }
    ensures same { result ≡ false → IsSame client.old client.new }
{
    dl_client::is_filtered(client, place, severity)
}

/// So many calls of the context at this place were filtered by its level, and are counted.
#[unsafe(no_mangle)]
pub extern "C" fn dl_client_c_count(client: &mut Client, place: usize, count: u64) -> bool
    ensures counted { result ≡ true → (context : Context) × ((taken : List ℕ) → Runs (seen client.old taken) (filters place context count) (seen client.new taken)) }
    ensures refused { result ≡ false → IsNotCounted client.old.contexts.now place count }
    ensures same { result ≡ false → IsSame client.old client.new }
{
    dl_client::count_calls(client, place, count)
}

/// A log call of the context at this place, whose payload has at most 1390 bytes.
#[unsafe(no_mangle)]
pub extern "C" fn dl_client_c_log(
    client: &mut Client,
    place: usize,
    call: &Call,
    payload: &[u8],
) -> u8
    ensures filtered { result ≡ 0 → IsLogged Logged.Filtered place call.now payload.now client.old client.new }
    ensures queued { result ≡ 1 → IsLogged Logged.Queued place call.now payload.now client.old client.new }
    ensures lost { result ≡ 2 → IsLogged Logged.Lost place call.now payload.now client.old client.new }
    ensures refused { result ≡ 3 → IsLogged Logged.Refused place call.now payload.now client.old client.new }
    ensures known { result ≤ 3 }
{
    match dl_client::log(client, place, call, payload) {
        Logged::Filtered => 0,
        Logged::Queued => 1,
        Logged::Lost => 2,
        Logged::Refused => 3,
    }
}

/// Tells the account of the context at this place, where any of its calls isn't told yet.
#[unsafe(no_mangle)]
pub extern "C" fn dl_client_c_tell(client: &mut Client, place: usize, ticks: u32) -> u8
    ensures told { result ≡ 0 → OnlyAccounts client.old client.new × IsToldAt client.new.contexts.now place }
    ensures waits { result ≡ 1 → IsSame client.old client.new × NoRoomToTell client.old place ticks }
    ensures refused { result ≡ 2 → IsSame client.old client.new × (length client.old.contexts.now ≤ place) }
    ensures known { result ≤ 2 }
{
    if place >= client.contexts.len() {
        return 2;
    }
    if dl_client::settle(client, place, ticks) {
        return 0;
    }
    1
}

/// The context at this place has this level, 0 to 6, from now on.
#[unsafe(no_mangle)]
pub extern "C" fn dl_client_c_obey(client: &mut Client, place: usize, level: u8, ticks: u32) -> u8
    ensures done { result ≡ 0 → IsObeyed Answer.Done place level ticks client.old client.new }
    ensures waits { result ≡ 1 → IsObeyed Answer.Waits place level ticks client.old client.new }
    ensures refused { result ≡ 2 → IsObeyed Answer.Refused place level ticks client.old client.new }
    ensures known { result ≤ 2 }
{
    match dl_client::obey(client, place, level, ticks) {
        Answer::Done => 0,
        Answer::Waits => 1,
        Answer::Refused => 2,
    }
}

/// The link took this many of the bytes that wait, the first ones. Where fewer wait, nothing is done.
#[unsafe(no_mangle)]
pub extern "C" fn dl_client_c_took(client: &mut Client, count: usize)
    ensures took { count ≤ length (held client.old.queue) → (taken : List ℕ) → Does (seen client.old taken) (Takes count) (seen client.new (taken ++ take count (held client.old.queue))) }
    ensures none { length (held client.old.queue) < count → IsSame client.old client.new }
{
    if count <= dl_client::filled(&client.queue).len() {
        dl_client::took(client, count);
    }
}

/// Queues that the context at this place is gone, behind its account.
#[unsafe(no_mangle)]
pub extern "C" fn dl_client_c_close(client: &mut Client, place: usize, pid: u32, ticks: u32) -> u8
    ensures done { result ≡ 0 → IsClosed Answer.Done place pid ticks client.old client.new }
    ensures waits { result ≡ 1 → IsClosed Answer.Waits place pid ticks client.old client.new }
    ensures refused { result ≡ 2 → IsClosed Answer.Refused place pid ticks client.old client.new }
    ensures known { result ≤ 2 }
{
    match dl_client::close(client, place, pid, ticks) {
        Answer::Done => 0,
        Answer::Waits => 1,
        Answer::Refused => 2,
    }
}

/// Gives this place to a context, and queues its registration. The account of the context that had the place is told before.
#[unsafe(no_mangle)]
pub extern "C" fn dl_client_c_open(
    client: &mut Client,
    place: usize,
    context: &Registration,
    text: &[u8],
    ticks: u32,
) -> u8
    ensures done { result ≡ 0 → (own : Option ℕ) × (own_level_of context.now.own ≡ Some own) × Ends client.old (Opens place (registered context.now) own context.now.pid text.now) client.new }
    ensures waits { result ≡ 1 → (own : Option ℕ) × (own_level_of context.now.own ≡ Some own) × WaitsToOpen place context.now own text.now ticks client.old client.new }
    ensures refused { result ≡ 2 → IsSame client.old client.new × IsNoRegistration place context.now text.now client.old }
    ensures known { result ≤ 2 }
{
    let Some(own) = OwnLevel::of(context.own) else {
        return 2;
    };
    let opening = Opening {
        apid: context.apid,
        ctid: context.ctid,
        level: context.level,
        own,
        pid: context.pid,
        text,
    };
    match dl_client::open(client, place, &opening, ticks) {
        Answer::Done => 0,
        Answer::Waits => 1,
        Answer::Refused => 2,
    }
}

/// Queues that an application is there, with a description of at most 255 bytes.
#[unsafe(no_mangle)]
pub extern "C" fn dl_client_c_register_app(
    client: &mut Client,
    app: &Registration,
    text: &[u8],
) -> u8
    ensures done { result ≡ 0 → IsRegistered Answer.Done app.now.apid app.now.pid text.now client.old client.new }
    ensures waits { result ≡ 1 → IsRegistered Answer.Waits app.now.apid app.now.pid text.now client.old client.new }
    ensures refused { result ≡ 2 → IsRegistered Answer.Refused app.now.apid app.now.pid text.now client.old client.new }
    ensures known { result ≤ 2 }
{
    match dl_client::register_app(client, &app.apid, app.pid, text) {
        Answer::Done => 0,
        Answer::Waits => 1,
        Answer::Refused => 2,
    }
}

/// Queues that an application is gone.
#[unsafe(no_mangle)]
pub extern "C" fn dl_client_c_unregister_app(client: &mut Client, app: &Registration) -> u8
    ensures done { result ≡ 0 → IsAnnounced Answer.Done (UnregisterApp app.now.apid app.now.pid) client.old client.new }
    ensures waits { result ≡ 1 → IsAnnounced Answer.Waits (UnregisterApp app.now.apid app.now.pid) client.old client.new }
    ensures known { result ≤ 1 }
{
    match dl_client::unregister_app(client, &app.apid, app.pid) {
        Answer::Done => 0,
        Answer::Waits => 1,
        Answer::Refused => unreachable!(),
    }
}
