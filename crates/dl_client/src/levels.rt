//! Levels that the daemon tells.

ghost use Rattle.std.specs.Prelude.{◌≡◌, ◌<◌, ◌≤◌, length, true, false};
ghost use Rattle.dl_client.specs.Outcomes.{IsObeyed, IsToldAt, NoRoomToTell, OnlyAccounts};
ghost use Rattle.dl_client.specs.Program.{IsTold};
ghost use Rattle.dl_client.specs.Seen.{IsSame};

use crate::account::tell;
use crate::client::Client;
use crate::context::Context;
use crate::outcome::Answer;
use crate::state::{context_at, set_context};

/// The context at this place has this level, 0 to 6, from now on. Its account is told before, so that all calls of an account
/// had one level.
pub fn obey(client: &mut Client, place: usize, level: u8, ticks: u32) -> Answer
    ensures { IsObeyed result place level ticks client.old client.new }
{
    if place >= client.contexts.len() || level > 6 {
        return Answer::Refused;
    }
    if !settle(client, place, ticks) {
        return Answer::Waits;
    }
    let context = context_at(client, place);
    set_context(client, place, Context { level, ..context });
    Answer::Done
}

/// Tells the account of the context at this place, where any of its calls isn't told yet.
pub fn settle(client: &mut Client, place: usize, ticks: u32) -> bool
    requires { place < length client.old.contexts.now }
    ensures accounts { OnlyAccounts client.old client.new }
    ensures told { result ≡ true → IsToldAt client.new.contexts.now place }
    ensures full { result ≡ false → NoRoomToTell client.old place ticks }
    ensures same { result ≡ false → IsSame client.old client.new }
    ensures places { length client.new.contexts.now ≡ length client.old.contexts.now }
{
    let context = context_at(client, place);
    if is_told(&context) {
        return true;
    }
    tell(client, place, &context, ticks)
}

/// Whether nothing was counted since the last account.
fn is_told(context: &Context) -> bool
    ensures { result ≡ true → IsTold context.now }
{
    context.filtered == 0 && context.queued == 0 && context.lost == 0
}
