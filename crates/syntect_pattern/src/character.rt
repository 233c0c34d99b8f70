//! Tests of a character.
ghost use Rattle.std.specs.Prelude.{◌≡◌};
ghost use Rattle.syntect_pattern.specs.Sets as sets;
ghost use Rattle.syntect_pattern.specs.Escapes as escapes;

use ucd_case::simple_fold;
use ucd_category::{GeneralCategory, GeneralCategoryGroup};

/// Whether the character is one of a word: a letter, a mark, a decimal digit or a connector.
#[tactic(auto, unfolding(crate::specs::Sets::is_word))]
pub fn is_word(c: char) -> bool
    ensures { result ≡ sets.is_word c }
{
    let category = GeneralCategory::for_char(c);
    GeneralCategoryGroup::Letter.contains(category)
        || GeneralCategoryGroup::Mark.contains(category)
        || category == GeneralCategory::DecimalNumber
        || category == GeneralCategory::ConnectorPunctuation
}

/// Whether simple folding makes the characters equal.
#[tactic(auto, unfolding(crate::specs::Sets::same_fold))]
pub fn same_fold(c: char, d: char) -> bool
    ensures { result ≡ sets.same_fold c d }
{
    simple_fold(c) == simple_fold(d)
}

/// Whether the character is a letter or a decimal digit, of any script.
pub fn is_letter_or_digit(c: char) -> bool
    ensures { result ≡ escapes.is_letter_or_digit c }
{
    let category = GeneralCategory::for_char(c);
    GeneralCategoryGroup::Letter.contains(category) || category == GeneralCategory::DecimalNumber
}
