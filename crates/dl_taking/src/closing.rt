//! What stands for the desk once the writers are back.

use crate::call_source::CallSource;
use dl_account::Closing;
use dl_bytes::{Id, Item};
use dl_desk::Taken;
use std::sync::Wait;

impl CallSource for Closing {
    ghost use Rattle.std.specs.Prelude.{◌≡◌, refl};
    ghost use Rattle.std.proofs.Common.{ap, sym, ◌∙◌};
    ghost use Rattle.dl_account.specs.Known.{IsEmpty, IsTold};
    ghost use Rattle.dl_account.specs.State.{ClosingState};
    ghost use Rattle.dl_taking.specs.Resting.{empties_still, took_still};
    ghost use Rattle.dl_taking.specs.Took.{HasLosses, empties_of, took_by, untaken, without_taken};

    ghost took = { λ c. took_by c.handles };

    ghost specs = { λ c. c.apps };

    ghost empties = { λ c. empties_of c.handles };

    ghost has_given = { IsEmpty };

    ghost has_losses = { HasLosses };

    ghost has_told = { IsTold };

    ghost same_but_taken = { λ old new. record new { handles = untaken new.handles } ≡ record old { handles = untaken old.handles } };

    fn take_into<R: Wait>(&mut self, rt: &R, app: u8, item: &mut Item) -> Taken {
        self.have_handles();
        Closing::take_into(self, rt, app, item)
    }

    fn losses(&mut self, app: u8) -> u64 {
        Closing::losses(self, app)
    }

    fn apid(&self, app: u8) -> Id {
        self.apps()[usize::from(app)].apid
    }

    ghost taken_refl = { λ p. refl };

    ghost taken_trans = { λ p q r first second. second ∙ first };

    ghost rest_took = { λ p q same. sym (took_still q.handles) ∙ ap (λ (c : ClosingState). took_by c.handles) same ∙ took_still p.handles };

    ghost rest_empties = { λ p q same. sym (empties_still q.handles) ∙ ap (λ (c : ClosingState). empties_of c.handles) same ∙ empties_still p.handles };

    ghost rest_taken = { λ p q same. ap (λ (c : ClosingState). record c { handles = without_taken c.handles }) same };

    ghost taken_specs = { λ p q same. ap (λ (c : ClosingState). c.apps) same };

    ghost specs_told = { λ p. refl };
}
