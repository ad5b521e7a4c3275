//! What a served request reaches of the programs that log, once their writers are back.

use crate::closing::Closing;
use dl_bytes::{Injection, Level};
use dl_cells::Worn;
use dl_desk::WriterControl;
use std::sync::Wait;

impl WriterControl for Closing {
    ghost use Rattle.std.specs.Prelude.{◌≡◌, length, refl};
    ghost use Rattle.std.proofs.Common.{◌∙◌};
    ghost use Rattle.dl_desk.specs.QueuedInjections.{rest_of};
    ghost use Rattle.dl_desk.specs.Told.{told_by};

    ghost told = { λ c. told_by (length c.apps) c.handles };

    ghost same_rest = { λ old new. record new { handles = rest_of new.handles } ≡ record old { handles = rest_of old.handles } };

    fn set(&mut self, slot: u16, level: Level) -> Result<(), Worn> {
        Closing::set(self, slot, level)
    }

    fn inject<R: Wait>(&mut self, rt: &R, app: u8, item: Injection) -> Result<(), Injection> {
        self.have_handles();
        Closing::inject(self, rt, app, item)
    }

    ghost rest_refl = { λ p. refl };

    ghost rest_trans = { λ p q r first second. second ∙ first };
}
