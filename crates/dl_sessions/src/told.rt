//! What a message tells an account.

ghost use Rattle.std.specs.Option.{option_map_or};
ghost use Rattle.std.specs.Prelude.{◌≡◌, length, None};
ghost use Rattle.dl_bytes.specs.Htyp.{len_of};
ghost use Rattle.dl_bytes.specs.Id.{zero_id};
ghost use Rattle.dl_headers.specs.Reading.{front_fault};
ghost use Rattle.dl_sessions.specs.Stream.{calls_by, entry_in, is_of_account, lost_by, told_by, told_of};

use crate::calls::{calls_of, no_calls};
use crate::session::{Calls, Entry, Lost, Session, Source, Told};
use crate::stream::behind;
use dl_bytes::Id;
use dl_headers::{Extended, Standard};
use dl_message::read_message;
use dl_receive::{Kind, kind_of};

/// The context of accounts.
const ACCOUNTS: [u8; 4] = *b"DLTC";

/// The daemon's application, and its context of what a trace did not store.
const DAEMON: [u8; 4] = *b"DA1\0";

const UNSTORED: [u8; 4] = *b"TRCE";

/// Whether an extended header may be an account's: of a log message of severity info with ten verbose arguments, of the context of accounts.
fn is_of_account(head: &Extended) -> bool
    ensures { result ≡ is_of_account head.now.msin head.now.noar head.now.ctid }
{
    head.msin == 0x41 && head.noar == 10 && head.ctid == Id::from_bytes(ACCOUNTS)
}

/// What a message with this extended header and this payload tells of a context's calls.
fn calls_by(head: &Extended, payload: &[u8]) -> Calls
    ensures { result ≡ calls_by head.now.msin head.now.noar head.now.ctid payload.now }
{
    if is_of_account(head) {
        calls_of(payload)
    } else {
        no_calls()
    }
}

/// What a message with these headers and this payload tells, of this ECU and with this timestamp: whatever its type, it takes a message counter of its
/// session, where it tells one.
fn entry_in(
    standard: &Standard,
    extended: Option<Extended>,
    payload: &[u8],
    ecu: Id,
    ticks: u32,
) -> Told
    ensures { result ≡ entry_in standard.now extended payload.now ecu ticks }
{
    let Some(extended) = extended else {
        return Told::Other;
    };
    match standard.session {
        Some(seid) => Told::Log(Entry {
            session: Session {
                ecu,
                apid: extended.apid,
                seid,
            },
            ctid: extended.ctid,
            mcnt: standard.mcnt,
            ticks,
            calls: calls_by(&extended, payload),
        }),
        None => Told::Other,
    }
}

/// The context that an extended header names.
fn context_in(extended: Option<Extended>) -> Id
    ensures { result ≡ option_map_or (λ head. head.ctid) extended zero_id }
{
    match extended {
        Some(head) => head.ctid,
        None => Id::from_bytes([0; 4]),
    }
}

/// What a report of lost messages tells. With APID `DA1` and CTID `TRCE` those were not stored, and no ring or buffer was full.
fn lost_by(apid: Id, ctid: Id, count: u32) -> Told
    ensures { result ≡ lost_by apid ctid count }
{
    if apid == Id::from_bytes(DAEMON) && ctid == Id::from_bytes(UNSTORED) {
        return Told::Unstored(count);
    }
    Told::Lost(Lost {
        source: Source { apid },
        count,
    })
}

/// What a message of this kind tells, of this context: the report of lost messages, or the entry that any other one is.
fn told_by(kind: Kind, context: Id, entry: Told) -> Told
    ensures { result ≡ told_by kind context entry }
{
    match kind {
        Kind::Overflow { apid, counter } => lost_by(apid, context, counter),
        Kind::Log { .. } => entry,
        Kind::Other { .. } => entry,
    }
}

/// What a whole message tells; it is of this ECU where it doesn't name one itself.
pub fn told_of(ecu: Id, message: &[u8]) -> Told
    requires front { front_fault message.now ≡ None }
    requires len { length message.now ≡ len_of message.now }
    ensures { result ≡ told_of ecu message.now }
{
    let Ok(parts) = read_message(message) else {
        return Told::Other;
    };
    let standard = parts.standard;
    let own = standard.ecu.unwrap_or(ecu);
    let ticks = standard.ticks.unwrap_or(0);
    let payload = behind(message, parts.start);
    let entry = entry_in(&standard, parts.extended, payload, own, ticks);
    told_by(kind_of(message), context_in(parts.extended), entry)
}
