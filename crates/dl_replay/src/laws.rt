//! Laws on the contract of `replay`: folder and script decide what is printed.

ghost use Rattle.std.specs.Prelude.{ℕ, List};
ghost use Rattle.dl_outside.specs.Folder.{Files};
ghost use Rattle.dl_replay.specs.Decided.{EndsWell, EndsWellOver, PrintsFor, WriteOneText};
ghost use Rattle.dl_replay.specs.Told.{Told};

/// What is written with status 0 is what `dl_model` prints for the steps, by the name `printed`. So the laws on that text hold of it: with
/// `steps`, that bytes of clients and of channels may come in any lines.
pub fn what_is_written_is_printed()
    ensures { (words : List (List ℕ)) (old new : Told) → EndsWell words old new → PrintsFor words old new }
{}

/// Two runs over the same words, input and files, both with status 0, wrote the same text.
pub fn one_text_is_written()
    ensures { (words : List (List ℕ)) (script : List ℕ) (files : Files) (first first_now second second_now : Told) →
        EndsWellOver words script files first first_now → EndsWellOver words script files second second_now → WriteOneText first first_now second second_now }
{}
