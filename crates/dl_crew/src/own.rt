//! The contexts that a worker's writer claimed.

ghost use Rattle.std.specs.Prelude.{◌≡◌, ◌<◌, ◌∷◌, ◌++◌, [], IfSome, false, true, length};
ghost use Rattle.std.specs.Option.{option_map_or};
ghost use Rattle.dl_model.specs.Along.{last_that};
ghost use Rattle.dl_crew.specs.Calls.{has_name};

use arrayvec::ArrayVec;
use dl_bytes::{Ctx, Id};
use std::marker::Model;

/// The contexts that a writer claimed so far, 64 at most, in order. They take no memory. Contracts see a list.
#[derive(Drop)]
pub struct Own {
    contexts: ArrayVec<Option<Ctx>, 64>,
}

impl Model for Own {
    ghost use Rattle.std.specs.Prelude.{List};
    ghost use Rattle.dl_bytes.specs.Context.{Context};
    ghost use Rattle.dl_crew.specs.OwnInside.{AreAll, own_contexts};

    ghost Value = { List Context };

    ghost view = { own_contexts };

    ghost invariant = { AreAll };
}

impl Own {
    /// None yet.
    pub fn none() -> Own
        ensures { result ≡ [] }
    {
        Own {
            contexts: ArrayVec::new(),
        }
    }

    /// One more.
    pub fn add(&mut self, ctx: Ctx)
        requires { length self.old < 64 }
        ensures { self.new ≡ self.old ++ ctx ∷ [] }
    {
        self.contexts.push(Some(ctx));
    }

    /// The last of them that is of this application and has this id.
    pub fn last(&self, app: u8, ctid: Id) -> Option<Ctx>
        ensures found { result ≡ last_that (has_name app ctid) self.now }
        ensures own { IfSome result (λ ctx. ctx.app ≡ app) }
    {
        let mut last = None;
        for ctx in self.contexts.iter() {
            if is_named(ctx, app, ctid) {
                last = *ctx;
            }
        }
        last
    }
}

// Whether it is a context of this application that has this id.
fn is_named(ctx: &Option<Ctx>, app: u8, ctid: Id) -> bool
    ensures named { result ≡ option_map_or (has_name app ctid) ctx.now false }
    ensures app { result ≡ true → IfSome ctx.now (λ ctx. ctx.app ≡ app) }
{
    match ctx {
        Some(ctx) => ctx.app() == app && ctx.ctid() == ctid,
        None => false,
    }
}
