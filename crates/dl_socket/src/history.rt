//! The levels that were set and the injections that were refused, as contracts see them. They exist in proofs alone: they take no memory, and
//! the functions do nothing at run time.

ghost use Rattle.std.specs.Prelude.{◌≡◌, ◌++◌, ◌∷◌, [], ℕ, List};
ghost use Rattle.std.specs.Borrow.{ftrue};
ghost use Rattle.dl_cells.specs.LevelHistory.{change};
ghost use Rattle.dl_cells.specs.declared.level_history.Change.{Change};
ghost use Rattle.dl_socket.specs.History.{with_version};

use dl_bytes::Level;
use std::marker::Model;

/// The levels that were set, in order, and the applications whose injections were refused, the last first. It owns nothing, so proofs may
/// choose the lists: `new`, `and_level`, `and_version` and `and_refusal` alone do.
#[derive(Drop)]
pub struct History {
    pub ghost sets: { List Change },
    pub ghost refused: { List ℕ },
}

impl Model for History {
    ghost also_owns = { λ _. ftrue };
}

// It owns nothing, so another thread may have it.
unsafe impl Send for History {}

impl History {
    /// Nothing was set yet.
    pub fn new() -> History
        ensures { (result.sets ≡ []) × (result.refused ≡ []) }
    {
        History {}
    }

    /// A level was set in a slot.
    pub fn set(&mut self, slot: u16, level: Level)
        ensures { self.new ≡ record self.old { sets = self.old.sets ++ change slot level ∷ [] } }
    {
        *self = self.and_level(&slot, &level);
    }

    /// A slot is at this version: so many levels were set in it.
    pub fn resume(&mut self, slot: u16, version: u64)
        ensures { self.new ≡ record self.old { sets = with_version slot version self.old.sets } }
    {
        *self = self.and_version(&slot, &version);
    }

    /// An injection of an application was refused.
    pub fn refuse(&mut self, app: u8)
        ensures { self.new ≡ record self.old { refused = app ∷ self.old.refused } }
    {
        *self = self.and_refusal(&app);
    }

    /// With a level more, which was set in a slot.
    fn and_level(&self, slot: &u16, level: &Level) -> History
        ensures { (result.sets ≡ self.now.sets ++ change slot.now level.now ∷ []) × (result.refused ≡ self.now.refused) }
    {
        History {}
    }

    /// With a slot at this version.
    fn and_version(&self, slot: &u16, version: &u64) -> History
        ensures { (result.sets ≡ with_version slot.now version.now self.now.sets) × (result.refused ≡ self.now.refused) }
    {
        History {}
    }

    /// With an injection more that was refused.
    fn and_refusal(&self, app: &u8) -> History
        ensures { (result.sets ≡ self.now.sets) × (result.refused ≡ app.now ∷ self.now.refused) }
    {
        History {}
    }
}
