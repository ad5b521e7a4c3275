//! Laws of answers.

ghost use Rattle.dl_find.specs.Answer.{BeginsWithItsWord};

/// An answer begins with the word of what is said.
pub fn begins_with_its_word()
    ensures { BeginsWithItsWord }
{}
