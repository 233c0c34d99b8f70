//! Past one character.
ghost use Rattle.std.specs.Prelude.{◌≡◌, IfSome, IsCharBoundary};
ghost use Rattle.syntect_pattern.specs.Sets.{from_to, holds, range};
ghost use Rattle.syntect_pattern.specs.Text.{char_at};
ghost use Rattle.syntect_pattern_table.specs.Table.{set_of};
ghost use Rattle.syntect_pattern_steps.specs.Steps.{after_char, after_letters};
ghost use Rattle.syntect_pattern.specs.Letters.{letters_of};

use crate::text::char_at;
use syntect_pattern_table::node::{Class, Letters};
use syntect_pattern_table::sets::is_alike;

/// The place after the character at the place, if it is this one.
pub fn past_char(text: &str, place: usize, wanted: char) -> Option<usize>
    requires { IsCharBoundary text.now place }
    ensures value { result
        ≡ after_char (holds (range wanted wanted)) (char_at text.now place) place }
    ensures boundary { IfSome result (λ j. IsCharBoundary text.now j) }
{
    let c = char_at(text, place)?;
    if c == wanted {
        Some(place + c.len_utf8())
    } else {
        None
    }
}

/// The place after the character at the place, if the class holds it.
pub fn past_class(text: &str, place: usize, class: &Class) -> Option<usize>
    requires { IsCharBoundary text.now place }
    ensures value { result
        ≡ after_char (holds (set_of class.now)) (char_at text.now place) place }
    ensures boundary { IfSome result (λ j. IsCharBoundary text.now j) }
{
    let c = char_at(text, place)?;
    if class.holds(c) {
        Some(place + c.len_utf8())
    } else {
        None
    }
}

/// The place after the letter at the place, if it is this one.
pub fn past_letter(text: &str, place: usize, fold: bool, letter: u8) -> Option<usize>
    requires { IsCharBoundary text.now place }
    ensures value { result
        ≡ after_char (holds (from_to fold letter letter)) (char_at text.now place) place }
    ensures boundary { IfSome result (λ j. IsCharBoundary text.now j) }
{
    let wanted = letter as char;
    if !fold {
        return past_char(text, place, wanted);
    }
    let c = char_at(text, place)?;
    if is_alike(wanted, wanted, c) {
        Some(place + c.len_utf8())
    } else {
        None
    }
}

/// The place after the letters, if they stand at the place.
pub fn past_letters(text: &str, place: usize, letters: &Letters) -> Option<usize>
    requires { IsCharBoundary text.now place }
    ensures value { result
        ≡ after_letters text.now letters.now.fold (letters_of letters.now) place }
    ensures boundary { IfSome result (λ j. IsCharBoundary text.now j) }
{
    let mut at = past_letter(text, place, letters.fold, letters.first)?;
    for letter in letters.others() {
        at = past_letter(text, at, letters.fold, *letter)?;
    }
    Some(at)
}
