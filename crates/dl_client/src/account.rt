//! Accounts: what became of a context's calls, as a message of the context DLTC of its application.

ghost use Rattle.std.specs.Prelude.{◌≡◌, ◌<◌, ◌≤◌, ◌+◌, ◌-◌, ◌^◌, ◌++◌, ℕ, List, [], length, true, false, slice_get, Some, min, None};
ghost use Rattle.dl_args.specs.Argument.{written};
ghost use Rattle.dl_args.specs.declared.arg.Arg.TheVariants.{Text};
ghost use Rattle.dl_client.specs.Account.{account, account_of_whom, account_of_what, account_payload, count, level_argument, overflow};
ghost use Rattle.dl_client.specs.Area.{held};
ghost use Rattle.dl_client.specs.Message.{message, user_log};
ghost use Rattle.dl_client.specs.Program.{Does, Tells, IsFull, next_account, told, with_bytes, with_context};
ghost use Rattle.dl_client.specs.Seen.{seen, IsSame};

use crate::area::{Area, append, filled, room};
use crate::arguments::push_argument;
use crate::client::Client;
use crate::context::{Call, Context, Sender};
use crate::message::{Source, message_len, push_message};
use crate::state::set_context;

/// The type info of a text in UTF-8.
const TEXT: u32 = 0x8200;

/// The type info of an unsigned number of 8 bits.
const NUMBER_8: u32 = 0x41;

/// The type info of an unsigned number of 64 bits.
const NUMBER_64: u32 = 0x44;

/// The context of accounts.
const ACCOUNTS: [u8; 4] = *b"DLTC";

/// The severity of accounts: info.
const INFO: u8 = 4;

/// How many arguments an account has.
const ARGUMENTS: u8 = 10;

/// The marker of a user message, DUH and 1, and kind 8: messages were lost.
const OVERFLOW: [u8; 8] = [0x44, 0x55, 0x48, 0x01, 8, 0, 0, 0];

/// Queues the account of this context at this place, and counts its calls anew. Where calls were lost an Overflow user message
/// follows the account. Answers whether there was room for both.
pub fn tell(client: &mut Client, place: usize, context: &Context, ticks: u32) -> bool
    requires place { place < length client.old.contexts.now }
    requires at { slice_get client.old.contexts.now place ≡ Some context.now }
    ensures told { result ≡ true → (taken : List ℕ) → Does (seen client.old taken) (Tells place context.now client.old.accounts ticks) (seen client.new taken) }
    ensures full { result ≡ false → IsFull (seen client.old []) (account client.old.sender context.now client.old.accounts ticks) }
    ensures same { result ≡ false → IsSame client.old client.new }
    ensures places { length client.new.contexts.now ≡ length client.old.contexts.now }
{
    if !push_account(client, context, ticks) {
        return false;
    }
    count_anew(client, place, context);
    true
}

/// The context's calls are told by one account more.
fn count_anew(client: &mut Client, place: usize, context: &Context)
    requires { place < length client.old.contexts.now }
    ensures told { (taken : List ℕ) → seen client.new taken ≡ next_account (with_context (seen client.old taken) place (told context.now)) }
    ensures places { length client.new.contexts.now ≡ length client.old.contexts.now }
{
    client.accounts = client.accounts.wrapping_add(1);
    set_context(
        client,
        place,
        Context {
            filtered: 0,
            queued: 0,
            lost: 0,
            ..*context
        },
    );
}

/// Queues an account, where there is room for it.
fn push_account(client: &mut Client, context: &Context, ticks: u32) -> bool
    ensures pushed { result ≡ true → (taken : List ℕ) → seen client.new taken ≡ with_bytes (seen client.old taken) (account client.old.sender context.now client.old.accounts ticks) }
    ensures full { result ≡ false → IsFull (seen client.old []) (account client.old.sender context.now client.old.accounts ticks) }
    ensures same { result ≡ false → IsSame client.old client.new }
    ensures contexts { client.new.contexts.now ≡ client.old.contexts.now }
{
    let mut bytes = [0; 128];
    let mut payload = Area {
        bytes: &mut bytes,
        used: 0,
    };
    push_account_payload(&mut payload, context);
    push_told(client, context, ticks, filled(&payload))
}

/// Queues an account with this payload and what follows it, where there is room for both.
fn push_told(client: &mut Client, context: &Context, ticks: u32, payload: &[u8]) -> bool
    requires payload { payload.now ≡ account_payload context.now }
    requires len { length payload.now ≤ 128 }
    ensures pushed { result ≡ true → (taken : List ℕ) → seen client.new taken ≡ with_bytes (seen client.old taken) (account client.old.sender context.now client.old.accounts ticks) }
    ensures full { result ≡ false → IsFull (seen client.old []) (account client.old.sender context.now client.old.accounts ticks) }
    ensures same { result ≡ false → IsSame client.old client.new }
    ensures contexts { client.new.contexts.now ≡ client.old.contexts.now }
{
    let sender = client.sender;
    let source = Source {
        apid: context.apid,
        ctid: ACCOUNTS,
        mcnt: client.accounts,
    };
    let call = Call {
        severity: INFO,
        verbose: true,
        args: ARGUMENTS,
        ticks,
    };
    if room(&client.queue) < message_len(&sender, &source, &call, payload) + overflow_len(context) {
        return false;
    }
    push_both(&mut client.queue, &sender, &source, &call, payload, context);
    true
}

/// Adds an account's message, and an Overflow user message where calls were lost.
fn push_both(
    queue: &mut Area,
    sender: &Sender,
    source: &Source,
    call: &Call,
    payload: &[u8],
    context: &Context,
)
    requires severity { call.now.severity ≤ 6 }
    requires payload { length payload.now ≤ 1390 }
    requires room { length (held queue.old) + (length (user_log (message sender.now source.now call.now payload.now)) + length (overflow context.now)) ≤ length queue.old.bytes.now }
    ensures held { held queue.new ≡ held queue.old ++ (user_log (message sender.now source.now call.now payload.now) ++ overflow context.now) }
    ensures size { length queue.new.bytes.now ≡ length queue.old.bytes.now }
{
    push_message(queue, sender, source, call, payload);
    push_overflow(queue, context);
}

/// Writes the arguments of a context's account into a payload of 128 bytes that has none: the account tells its calls since the one before. Who reads
/// accounts writes one of what was read, and compares.
pub fn push_account_payload(payload: &mut Area, context: &Context)
    requires empty { length (held payload.old) ≡ 0 }
    requires room { length payload.old.bytes.now ≡ 128 }
    ensures held { held payload.new ≡ account_payload context.now }
    ensures len { length (held payload.new) ≤ 128 }
{
    push_whom(payload, context);
    push_what(payload, context);
}

/// Adds which context it is, and the level that decided.
fn push_whom(payload: &mut Area, context: &Context)
    requires { length (held payload.old) + 40 ≤ length payload.old.bytes.now }
    ensures held { held payload.new ≡ held payload.old ++ account_of_whom context.now }
    ensures more { length (held payload.new) ≡ length (held payload.old) + 40 }
    ensures size { length payload.new.bytes.now ≡ length payload.old.bytes.now }
{
    push_text(payload, b"calls");
    push_text(payload, &context.ctid);
    push_text(payload, b"level");
    push_level(payload, context.level);
}

/// Adds the three counts.
fn push_what(payload: &mut Area, context: &Context)
    requires { length (held payload.old) + 75 ≤ length payload.old.bytes.now }
    ensures held { held payload.new ≡ held payload.old ++ account_of_what context.now }
    ensures more { length (held payload.new) ≡ length (held payload.old) + 75 }
    ensures size { length payload.new.bytes.now ≡ length payload.old.bytes.now }
{
    push_text(payload, b"filtered");
    push_count(payload, context.filtered);
    push_text(payload, b"queued");
    push_count(payload, context.queued);
    push_text(payload, b"lost");
    push_count(payload, context.lost);
}

/// Adds a text.
fn push_text(payload: &mut Area, text: &[u8])
    requires len { length text.now ≤ 255 }
    requires room { length (held payload.old) + (7 + length text.now) ≤ length payload.old.bytes.now }
    ensures held { held payload.new ≡ held payload.old ++ written (Text None text.now true) }
    ensures more { length (held payload.new) ≡ length (held payload.old) + (7 + length text.now) }
    ensures size { length payload.new.bytes.now ≡ length payload.old.bytes.now }
{
    let size = ((text.len() + 1) as u16).to_le_bytes();
    push_argument(payload, TEXT, &[&size, text, &[0]]);
}

/// Adds a level.
fn push_level(payload: &mut Area, level: u8)
    requires { length (held payload.old) + 5 ≤ length payload.old.bytes.now }
    ensures held { held payload.new ≡ held payload.old ++ written (level_argument level) }
    ensures more { length (held payload.new) ≡ length (held payload.old) + 5 }
    ensures size { length payload.new.bytes.now ≡ length payload.old.bytes.now }
{
    push_argument(payload, NUMBER_8, &[&level.to_le_bytes()]);
}

/// Adds a number of calls.
fn push_count(payload: &mut Area, n: u64)
    requires { length (held payload.old) + 12 ≤ length payload.old.bytes.now }
    ensures held { held payload.new ≡ held payload.old ++ written (count n) }
    ensures more { length (held payload.new) ≡ length (held payload.old) + 12 }
    ensures size { length payload.new.bytes.now ≡ length payload.old.bytes.now }
{
    push_argument(payload, NUMBER_64, &[&n.to_le_bytes()]);
}

/// How many bytes tell of lost calls.
fn overflow_len(context: &Context) -> usize
    ensures { result ≡ length (overflow context.now) }
{
    if context.lost == 0 {
        0
    } else {
        12 + context.apid.len()
    }
}

/// Tells how many calls were lost, where any were.
fn push_overflow(queue: &mut Area, context: &Context)
    requires { length (held queue.old) + length (overflow context.now) ≤ length queue.old.bytes.now }
    ensures held { held queue.new ≡ held queue.old ++ overflow context.now }
    ensures size { length queue.new.bytes.now ≡ length queue.old.bytes.now }
{
    if context.lost != 0 {
        append(queue, &OVERFLOW);
        append(queue, &lost_number(context.lost).to_le_bytes());
        append(queue, &context.apid);
    }
}

/// A number of lost calls in four bytes. More are told as the most that these can say.
fn lost_number(lost: u64) -> u32
    ensures { result ≡ min lost (2 ^ 32 - 1) }
{
    if lost < 0xffff_ffff {
        lost as u32
    } else {
        u32::MAX
    }
}
