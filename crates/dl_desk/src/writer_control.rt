//! What a served request reaches of the programs that log: the levels of their contexts, and their injections.

ghost use Rattle.std.specs.Prelude.{◌≡◌, ◌-◌, ◌*◌, ◌^◌, ◌<◌, ◌≤◌, ◌↔◌, length, IfErr, IsErr, OnOk, OnErr, refl};
ghost use Rattle.dl_cells.specs.LevelHistory.{current_version};
ghost use Rattle.dl_desk.specs.Told.{ControlTold, with_pushed, with_refused, with_set};

use crate::desk::Desk;
use dl_bytes::{Injection, Level};
use dl_cells::Worn;
use std::sync::Wait;

/// Sets levels and injects, before and after the writers are taken back.
pub trait WriterControl {
    /// What it tells of itself: how many applications there are, at which version each slot began, the levels that were set, and what the
    /// queue of each application took and refused.
    ghost told: { Self → ControlTold };

    /// All else that contracts see of the two is the same.
    ghost same_rest: { Self → Self → Type 0 };

    /// Sets the level of a slot at its next version. `Worn` at version 2^56 - 1.
    fn set(&mut self, slot: u16, level: Level) -> Result<(), Worn>
        requires { slot < 64 * (told self.old).apps }
        ensures worn { IsErr result ↔ (current_version (told self.old).first slot (told self.old).sets ≡ 2 ^ 56 - 1) }
        ensures set { OnOk result (told self.new ≡ with_set slot level (told self.old)) }
        ensures kept { OnErr result (told self.new ≡ told self.old) }
        ensures rest { same_rest self.old self.new };

    /// Puts an injection into the queue of an application. It comes back only where at least 16 were put before.
    fn inject<R: Wait>(&mut self, rt: &R, app: u8, item: Injection) -> Result<(), Injection>
        requires { app < (told self.old).apps }
        ensures pushed { OnOk result (told self.new ≡ with_pushed app item (told self.old)) }
        ensures refused { OnErr result (told self.new ≡ with_refused app (told self.old)) }
        ensures full { OnErr result (16 ≤ length ((told self.old).pushed app)) }
        ensures back { IfErr result (λ back. back ≡ item) }
        ensures rest { same_rest self.old self.new };

    /// What is the same stays the same: of one with itself, and of one after another.
    ghost rest_refl: { (p : Self) → same_rest p p };

    /// The same.
    ghost rest_trans: { (p q r : Self) → same_rest p q → same_rest q r → same_rest p r };
}

impl WriterControl for Desk {
    ghost use Rattle.std.specs.Prelude.{◌≡◌, length, refl};
    ghost use Rattle.std.proofs.Common.{◌∙◌};
    ghost use Rattle.dl_desk.specs.QueuedInjections.{rest_of};
    ghost use Rattle.dl_desk.specs.Told.{told_by};

    ghost told = { λ d. told_by (length d.apps) d.handles };

    ghost same_rest = { λ old new. record new { handles = rest_of new.handles } ≡ record old { handles = rest_of old.handles } };

    fn set(&mut self, slot: u16, level: Level) -> Result<(), Worn> {
        Desk::set(self, slot, level)
    }

    fn inject<R: Wait>(&mut self, rt: &R, app: u8, item: Injection) -> Result<(), Injection> {
        self.have_handles();
        Desk::inject(self, rt, app, item)
    }

    ghost rest_refl = { λ p. refl };

    ghost rest_trans = { λ p q r first second. second ∙ first };
}
