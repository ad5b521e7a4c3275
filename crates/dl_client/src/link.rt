//! What the link to the daemon took.

ghost use Rattle.std.specs.Prelude.{◌≤◌, ◌++◌, ℕ, List, length, take};
ghost use Rattle.dl_client.specs.Area.{held};
ghost use Rattle.dl_client.specs.Program.{Does, Takes};
ghost use Rattle.dl_client.specs.Seen.{seen};

use crate::area::drop_front;
use crate::client::Client;

/// The link took this many of the bytes that wait, the first ones.
pub fn took(client: &mut Client, count: usize)
    requires { count ≤ length (held client.old.queue) }
    ensures { (taken : List ℕ) → Does (seen client.old taken) (Takes count) (seen client.new (taken ++ take count (held client.old.queue))) }
{
    drop_front(&mut client.queue, count);
}
