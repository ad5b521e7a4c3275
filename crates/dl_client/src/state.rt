//! The contexts of a client by their places.

ghost use Rattle.std.specs.Prelude.{◌≡◌, ◌<◌, ℕ, List, length, slice_get, Some, false};
ghost use Rattle.dl_client.specs.Program.{with_context};
ghost use Rattle.dl_client.specs.Seen.{seen};

use crate::client::Client;
use crate::context::Context;

/// The context at this place.
#[tactic(auto, using(std::proofs::lemmas::Option::gets))]
pub fn context_at(client: &Client, place: usize) -> Context
    requires { place < length client.now.contexts.now }
    ensures { slice_get client.now.contexts.now place ≡ Some result }
{
    client.contexts[place]
}

/// Sets the context at this place.
pub fn set_context(client: &mut Client, place: usize, context: Context)
    requires { place < length client.old.contexts.now }
    ensures set { (taken : List ℕ) → seen client.new taken ≡ with_context (seen client.old taken) place context }
    ensures places { length client.new.contexts.now ≡ length client.old.contexts.now }
{
    client.untold = is_untold(client.untold, &context);
    let contexts = &mut *client.contexts;
    contexts[place] = context;
}

/// Whether a loss may be untold, of this context too.
fn is_untold(others: bool, context: &Context) -> bool
    ensures { result ≡ false → (others ≡ false) × (context.now.lost ≡ 0) }
{
    others || context.lost != 0
}
