//! The desk, while the writers log.

use crate::call_source::CallSource;
use dl_bytes::{Id, Item};
use dl_desk::{Desk, Taken};
use std::sync::Wait;

impl CallSource for Desk {
    ghost use Rattle.std.specs.Prelude.{◌≡◌, refl};
    ghost use Rattle.std.proofs.Common.{ap, sym, ◌∙◌};
    ghost use Rattle.dl_desk.specs.State.{DeskState};
    ghost use Rattle.dl_taking.specs.Resting.{empties_still, took_still};
    ghost use Rattle.dl_taking.specs.Took.{empties_of, took_by, untaken, without_taken};

    ghost took = { λ d. took_by d.handles };

    ghost specs = { λ d. d.apps };

    ghost empties = { λ d. empties_of d.handles };

    // writers may push and count at any time
    ghost has_given = { λ d app. Unit {0} };

    ghost has_losses = { λ d app. Unit {0} };

    // so that it is never known that none will come
    ghost has_told = { λ d app. Unit {0} };

    ghost same_but_taken = { λ old new. record new { handles = untaken new.handles } ≡ record old { handles = untaken old.handles } };

    fn take_into<R: Wait>(&mut self, rt: &R, app: u8, item: &mut Item) -> Taken {
        self.have_handles();
        Desk::take_into(self, rt, app, item)
    }

    fn losses(&mut self, app: u8) -> u64 {
        Desk::losses(self, app)
    }

    fn apid(&self, app: u8) -> Id {
        self.apps()[usize::from(app)].apid
    }

    ghost taken_refl = { λ p. refl };

    ghost taken_trans = { λ p q r first second. second ∙ first };

    ghost rest_took = { λ p q same. sym (took_still q.handles) ∙ ap (λ (d : DeskState). took_by d.handles) same ∙ took_still p.handles };

    ghost rest_empties = { λ p q same. sym (empties_still q.handles) ∙ ap (λ (d : DeskState). empties_of d.handles) same ∙ empties_still p.handles };

    ghost rest_taken = { λ p q same. ap (λ (d : DeskState). record d { handles = without_taken d.handles }) same };

    ghost taken_specs = { λ p q same. ap (λ (d : DeskState). d.apps) same };

    ghost specs_told = { λ p. refl };
}
