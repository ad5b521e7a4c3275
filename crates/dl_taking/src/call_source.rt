//! What takes calls, claims and losses: the desk while the writers log, and what stands for it once they are back.

ghost use Rattle.std.specs.Prelude.{◌≡◌, ◌<◌, ◌^◌, ℕ, false, List, ◌∷◌, [], length, IfSome, IfNone, OnSome};
ghost use Rattle.dl_bytes.specs.declared.conf.AppSpec.{AppSpec as spec_type};
ghost use Rattle.dl_cells.specs.Losses.{reported_of};
ghost use Rattle.dl_ring.specs.Items as ring;
ghost use Rattle.dl_desk.specs.Lists.{At};
ghost use Rattle.dl_taking.specs.Took.{Took, with_empty, with_items, with_losses};

use dl_bytes::{Id, Item};
use dl_desk::{Taken, WriterControl};
use std::sync::Wait;

/// Takes the calls and the claims in the rings of applications, and their losses.
pub trait CallSource: WriterControl {
    /// What was taken so far.
    ghost took: { Self → Took };

    /// The applications, by their numbers.
    ghost specs: { Self → List spec_type };

    /// How often a take found the ring of an application empty.
    ghost empties: { Self → ℕ → ℕ };

    /// All that will ever be pushed into the ring of an application is known to be taken.
    ghost has_given: { Self → ℕ → Type 0 };

    /// Losses of an application may be found that were not reported.
    ghost has_losses: { Self → ℕ → Type 0 };

    /// All losses of an application that will ever be counted are known to be reported.
    ghost has_told: { Self → ℕ → Type 0 };

    /// All else that contracts see of the two is the same, but what they tell of levels and injections.
    ghost same_but_taken: { Self → Self → Type 0 };

    /// Takes the oldest of an application's ring: a call into one that the caller keeps, and a claim into the answer. Nothing came only where the
    /// ring was empty at that step; the caller's call stays but where one came.
    fn take_into<R: Wait>(&mut self, rt: &R, app: u8, item: &mut Item) -> Taken
        requires { app < length (specs self.old) }
        ensures taken { IfSome (ring.took result item.new) (λ x. took self.new ≡ with_items app (x ∷ []) (took self.old)) }
        ensures none { IfNone (ring.took result item.new) (took self.new ≡ took self.old) }
        ensures full { OnSome (ring.took result item.new) (empties self.new ≡ empties self.old) }
        ensures empty { IfNone (ring.took result item.new) (empties self.new ≡ with_empty app (empties self.old)) }
        ensures given { IfNone (ring.took result item.new) (has_given self.new app) }
        ensures kept { ring.is_call result ≡ false → item.new ≡ item.old }
        ensures told { Self.told self.new ≡ Self.told self.old }
        ensures rest { same_but_taken self.old self.new };

    /// How many calls of an application were lost since the last call of this kind.
    fn losses(&mut self, app: u8) -> u64
        requires { app < length (specs self.old) }
        ensures reported { took self.new ≡ with_losses app result (took self.old) }
        ensures small { reported_of app (took self.new).reported < 2 ^ 47 }
        ensures some { 0 < result → has_losses self.old app }
        ensures all { has_told self.new app }
        ensures empties { empties self.new ≡ empties self.old }
        ensures told { Self.told self.new ≡ Self.told self.old }
        ensures rest { same_but_taken self.old self.new };

    /// The id of an application.
    fn apid(&self, app: u8) -> Id
        requires { app < length (specs self.now) }
        ensures { At (specs self.now) app (λ spec. result ≡ spec.apid) };

    /// What is the same stays the same: of one with itself, and of one after another.
    ghost taken_refl: { (p : Self) → same_but_taken p p };

    /// The same.
    ghost taken_trans: { (p q r : Self) → same_but_taken p q → same_but_taken q r → same_but_taken p r };

    /// What sets levels and injects leaves what was taken, and what stays while that is taken.
    ghost rest_took: { (p q : Self) → Self.same_rest p q → took q ≡ took p };

    /// The same.
    ghost rest_empties: { (p q : Self) → Self.same_rest p q → empties q ≡ empties p };

    /// The same.
    ghost rest_taken: { (p q : Self) → Self.same_rest p q → same_but_taken p q };

    /// The applications are among what stays.
    ghost taken_specs: { (p q : Self) → same_but_taken p q → specs q ≡ specs p };

    /// There are as many as are told.
    ghost specs_told: { (p : Self) → (Self.told p).apps ≡ length (specs p) };
}
