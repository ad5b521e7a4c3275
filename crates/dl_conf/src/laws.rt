//! Laws over the definitions.

ghost use Rattle.std.specs.Prelude.{◌≡◌, ◌≤◌, ℕ, true, List, length, Some, Ok};
ghost use Rattle.std.specs.List.{list_all};
ghost use Rattle.dl_bytes.specs.declared.conf.StoredLevel.{StoredLevel};
ghost use Rattle.dl_conf.specs.Stored.{stored_text, stored_said, is_storable, are_different};

/// What is written of a default level, and of at most 1024 own levels of different contexts, is read again as these.
pub fn what_is_written_is_read()
    ensures { (level : ℕ) (own : List StoredLevel) → level ≤ 6 → length own ≤ 1024 → list_all is_storable own ≡ true
        → are_different own ≡ true → stored_said (stored_text level own) ≡ Ok (record { level = Some level; own = own }) }
{}
