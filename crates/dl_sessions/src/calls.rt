//! What an account of a program's library tells.

ghost use Rattle.std.specs.Prelude.{◌≡◌, length};
ghost use Rattle.dl_sessions.specs.Calls.{calls_at, calls_of, context_told, is_written, no_calls};

use crate::session::Calls;
use byteorder::{ByteOrder, LittleEndian};
use dl_bytes::Id;
use dl_client::{Area, Context, filled, push_account_payload};

/// How many bytes the payload of an account has.
const ACCOUNT_LEN: usize = 115;

/// What a message tells that is no account.
pub fn no_calls() -> Calls
    ensures { result ≡ no_calls }
{
    Calls {
        are_told: false,
        ctid: Id::from_bytes([0, 0, 0, 0]),
        level: 0,
        filtered: 0,
        queued: 0,
        lost: 0,
    }
}

/// The id, the level and the counts at the places that they have in an account.
fn calls_at(payload: &[u8]) -> Calls
    requires { length payload.now ≡ 115 }
    ensures { result ≡ calls_at payload.now }
{
    Calls {
        are_told: true,
        ctid: Id::from_bytes([payload[18], payload[19], payload[20], payload[21]]),
        level: payload[39],
        filtered: LittleEndian::read_u64(&payload[59..]),
        queued: LittleEndian::read_u64(&payload[84..]),
        lost: LittleEndian::read_u64(&payload[107..]),
    }
}

/// The context of which the library would tell these calls.
fn context_told(calls: &Calls) -> Context
    ensures { result ≡ context_told calls.now }
{
    Context {
        apid: [0; 4],
        ctid: calls.ctid.bytes(),
        level: calls.level,
        mcnt: 0,
        filtered: calls.filtered,
        queued: calls.queued,
        lost: calls.lost,
    }
}

/// Whether the library writes this payload of these calls.
#[tactic(auto, unfolding(crate::specs::Calls::is_written))]
fn is_written(calls: &Calls, payload: &[u8]) -> bool
    ensures { result ≡ is_written calls.now payload.now }
{
    let mut bytes = [0; 128];
    let mut area = Area {
        bytes: &mut bytes,
        used: 0,
    };
    push_account_payload(&mut area, &context_told(calls));
    payload == filled(&area)
}

/// What a payload tells of a context's calls, where it is an account's.
pub fn calls_of(payload: &[u8]) -> Calls
    ensures { result ≡ calls_of payload.now }
{
    if payload.len() != ACCOUNT_LEN {
        return no_calls();
    }
    let calls = calls_at(payload);
    if is_written(&calls, payload) {
        calls
    } else {
        no_calls()
    }
}
