//! Laws over the definitions.

ghost use Rattle.std.specs.Prelude.{◌≡◌, ℕ, ◌==◌, nat_lt, not, true, List, [], ◌∷◌, ◌++◌, Some};
ghost use Rattle.std.specs.List.{list_all};
ghost use Rattle.dl_text.specs.IdText.{id_text, id_of_text};
ghost use Rattle.dl_text.specs.Lines.{lines_of, parted_at};

/// The text of an id, whatever its four bytes are, is read as that id.
pub fn id_text_is_read(a: u8, b: u8, c: u8, d: u8)
    ensures { id_of_text (id_text (a ∷ b ∷ c ∷ d ∷ [])) ≡ Some (a ∷ b ∷ c ∷ d ∷ []) }
{}

/// A text is parted at the first mark.
pub fn first_mark_parts()
    ensures { (mark : ℕ) (before behind : List ℕ) → list_all (λ b. not (b == mark)) before ≡ true
        → parted_at mark (before ++ mark ∷ behind) ≡ Some (before, behind) }
{}

/// A line that ends with a line feed, and holds no byte that ends one, is the first line of a text.
pub fn a_line_feed_ends_a_line()
    ensures { (line rest : List ℕ) → list_all (λ b. nat_lt 13 b) line ≡ true → lines_of (line ++ 10 ∷ rest) ≡ line ∷ lines_of rest }
{}
