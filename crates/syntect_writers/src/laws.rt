//! Laws of the definitions. Each is the contract of a function that does nothing.
ghost use Rattle.std.specs.Prelude.{◌≡◌, List, ℕ, true};
ghost use Rattle.std.specs.List.{concat, list_all};
ghost use Rattle.syntect_writers.specs.Entities.{escaped};
ghost use Rattle.syntect_writers.specs.Names.{shown_text, is_harmless};
ghost use Rattle.syntect_writers.specs.Lines.{lines_of, are_lines};

/// A text in HTML has no `<`, `>` and quotes, and one pass over its names gives the text back.
pub fn escapes_show_the_text()
    ensures shown { (text : List ℕ) → shown_text (escaped text) ≡ text }
    ensures harmless { (text : List ℕ) → list_all is_harmless (escaped text) ≡ true }
{}

/// The lines of a text join to it; none is empty, each but the last ends with a newline, and a
/// newline stands nowhere else in them.
pub fn lines_join()
    ensures joined { (text : List ℕ) → concat (lines_of text) ≡ text }
    ensures ended { (text : List ℕ) → are_lines (lines_of text) ≡ true }
{}
