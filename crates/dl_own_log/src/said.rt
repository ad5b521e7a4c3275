//! The messages. Each call adds the arguments of one to a payload, and answers how many there are, or 0 where there was no room for all of them.

ghost use Rattle.std.specs.Prelude.{◌≡◌, ◌<◌, ◌+◌, ◌*◌, ◌++◌, length, true};
ghost use Rattle.std.specs.List.{concat};
ghost use Rattle.dl_client.specs.Area.{held};
ghost use Rattle.dl_own_log.specs.Said.{Says, SaysAsked, application_fields, client_payload, clients_payload, connected_fields, context_fields, disconnected_fields, ended_fields, level_fields, restarted_fields, session_fields, trace_file_fields, untaken_fields};

use crate::part::{Part, push_parts};
use crate::standing::Standing;
use dl_bytes::Id;
use dl_client::Area;

/// The most clients that a message names.
const MOST_CLIENTS: usize = 100;

/// A context has this level, and why.
pub fn say_level(payload: &mut Area, standing: &Standing, why: &'static [u8]) -> u8
    ensures { Says result payload.old payload.new (level_fields standing.now why.now) }
{
    let parts = [
        Part::Name(standing.apid),
        Part::Name(standing.ctid),
        Part::Word(b"level"),
        Part::Number(standing.level.number() as u64),
        Part::Word(why),
    ];
    if push_parts(payload, &parts) { 5 } else { 0 }
}

/// Adds a client by its number.
#[tactic(auto, unfolding(crate::specs::Said::client_payload))]
fn push_client(payload: &mut Area, client: u64) -> bool
    ensures { result ≡ true → held payload.new ≡ held payload.old ++ client_payload client }
{
    let parts = [Part::Word(b"client"), Part::Number(client)];
    push_parts(payload, &parts)
}

/// Adds these clients, each by its number.
fn push_clients(payload: &mut Area, clients: &[u64]) -> bool
    ensures { result ≡ true → held payload.new ≡ held payload.old ++ clients_payload clients.now }
{
    for client in clients {
        if !push_client(payload, *client) {
            return false;
        }
    }
    true
}

/// A context has this level by a request of one of these clients, a hundred at most.
pub fn say_asked(payload: &mut Area, standing: &Standing, clients: &[u64]) -> u8
    ensures { SaysAsked result payload.old payload.new standing.now clients.now }
{
    if clients.len() > MOST_CLIENTS {
        return 0;
    }
    let said = say_level(payload, standing, b"requested by");
    if said > 0 && push_clients(payload, clients) {
        said + 2 * clients.len() as u8
    } else {
        0
    }
}

/// A context came, or is gone.
pub fn say_context(payload: &mut Area, apid: Id, ctid: Id, what: &'static [u8]) -> u8
    ensures { Says result payload.old payload.new (context_fields apid ctid what.now) }
{
    let parts = [
        Part::Word(b"context"),
        Part::Name(apid),
        Part::Name(ctid),
        Part::Word(what),
    ];
    if push_parts(payload, &parts) { 4 } else { 0 }
}

/// An application came, or is gone.
pub fn say_application(payload: &mut Area, apid: Id, what: &'static [u8]) -> u8
    ensures { Says result payload.old payload.new (application_fields apid what.now) }
{
    let parts = [
        Part::Word(b"application"),
        Part::Name(apid),
        Part::Word(what),
    ];
    if push_parts(payload, &parts) { 3 } else { 0 }
}

/// A client or an external application has connected.
pub fn say_connected(payload: &mut Area, who: &'static [u8], number: u64) -> u8
    ensures { Says result payload.old payload.new (connected_fields who.now number) }
{
    let parts = [
        Part::Word(who),
        Part::Number(number),
        Part::Word(b"connected"),
    ];
    if push_parts(payload, &parts) { 3 } else { 0 }
}

/// A client or an external application has disconnected, and why.
pub fn say_disconnected(
    payload: &mut Area,
    who: &'static [u8],
    number: u64,
    why: &'static [u8],
) -> u8
    ensures { Says result payload.old payload.new (disconnected_fields who.now number why.now) }
{
    let parts = [
        Part::Word(who),
        Part::Number(number),
        Part::Word(b"disconnected"),
        Part::Word(why),
    ];
    if push_parts(payload, &parts) { 4 } else { 0 }
}

/// So many bytes that were put into the streams of the clients that have disconnected were not taken by their links.
pub fn say_untaken(payload: &mut Area, bytes: u64) -> u8
    ensures { Says result payload.old payload.new (untaken_fields bytes) }
{
    let parts = [Part::Word(b"bytes not taken"), Part::Number(bytes)];
    if push_parts(payload, &parts) { 2 } else { 0 }
}

/// The trace goes on in the file of this number, and so many older files were removed.
pub fn say_trace_file(payload: &mut Area, number: u64, removed: u64) -> u8
    ensures { Says result payload.old payload.new (trace_file_fields number removed) }
{
    let parts = [
        Part::Word(b"trace file"),
        Part::Number(number),
        Part::Word(b"begun, files removed"),
        Part::Number(removed),
    ];
    if push_parts(payload, &parts) { 4 } else { 0 }
}

/// The trace has ended, and why.
pub fn say_ended(payload: &mut Area, why: &'static [u8]) -> u8
    ensures { Says result payload.old payload.new (ended_fields why.now) }
{
    let parts = [Part::Word(b"offline trace ended"), Part::Word(why)];
    if push_parts(payload, &parts) { 2 } else { 0 }
}

/// The trace was begun anew, and so many messages since it had ended are in no trace file.
pub fn say_restarted(payload: &mut Area, missing: u64) -> u8
    ensures { Says result payload.old payload.new (restarted_fields missing) }
{
    let parts = [
        Part::Word(b"offline trace restarted, messages in no trace file"),
        Part::Number(missing),
    ];
    if push_parts(payload, &parts) { 2 } else { 0 }
}

/// A session began, since few numbers of clients or of external applications were left, and so many messages that waited for a client are lost with the
/// one before it.
pub fn say_session(payload: &mut Area, number: u64, lost: u64) -> u8
    ensures { Says result payload.old payload.new (session_fields number lost) }
{
    let parts = [
        Part::Word(b"session"),
        Part::Number(number),
        Part::Word(b"begun, messages lost that waited for a client"),
        Part::Number(lost),
    ];
    if push_parts(payload, &parts) { 4 } else { 0 }
}
