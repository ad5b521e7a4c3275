//! Laws of taking: it is its events, and the journal tells just what was taken.

ghost use Rattle.std.specs.Prelude.{◌<◌, ◌==◌, ℕ, List, length, if◌then◌else◌};
ghost use Rattle.dl_bytes.specs.declared.conf.AppSpec.{AppSpec};
ghost use Rattle.dl_cells.specs.Views.{bit};
ghost use Rattle.dl_core.specs.Admission.{lost_frames};
ghost use Rattle.dl_taking.specs.Drained.{IsDrain, IsTake};
ghost use Rattle.dl_taking.specs.Draining.{DrainsAll};
ghost use Rattle.dl_taking.specs.Side.{Side};
ghost use Rattle.dl_taking.specs.Takes.{Reports, TakesSome};
ghost use Rattle.dl_taking.specs.declared.taking.Got.{Got};

/// Calls of an application, with a claim after them, are their events when they are taken; so are its losses. Where a journal told just what was
/// taken, it does so with these events.
pub fn what_is_taken_is_told()
    ensures calls { (specs : List AppSpec) (app most : ℕ) (got : Got) (old new : Side) → app < length specs → TakesSome app most got old new
        → IsTake specs got.calls (bit got.claimed) got.calls old new }
    ensures losses { (specs : List AppSpec) (app count : ℕ) (old new : Side) → app < length specs → (reports : Reports specs app count old new)
        → IsTake specs (if count == 0 then 0 else 1) 0 (length (lost_frames old.part.core.ecu reports.apid count)) old new }
{}

/// A drain is its events: they are admitted, each in its turn, in each run that gives what was taken; and they tell just that.
pub fn a_drain_is_its_events()
    ensures { (specs : List AppSpec) (old new : Side) → DrainsAll specs old new → IsDrain specs old new }
{}
