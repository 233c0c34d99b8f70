//! The sets of characters that have names.
ghost use Rattle.std.specs.Prelude.{◌≡◌, ◌||◌, ◌==◌};
ghost use Rattle.ucd_category.specs.GeneralCategoryGroup.{in_group};
ghost use Rattle.syntect_pattern.specs.Sets.{holds, is_word, is_word_category};
ghost use Rattle.syntect_pattern.specs.NamedSets.{set_of_named};

use crate::character::is_word;
use unicode::properties::{GeneralCategory, GeneralCategoryGroup};

/// The sets that have names.
#[derive(Clone, Copy, Debug)]
pub enum Named {
    Category(GeneralCategory),
    /// A category of one letter.
    Categories(GeneralCategoryGroup),
    Word,
    Space,
    HexDigit,
    LetterOrNumber,
    Blank,
    Ascii,
}

impl Named {
    /// Whether the character is in the set.
    pub fn holds(self, c: char) -> bool
        ensures { result ≡ holds (set_of_named self) c }
    {
        match self {
            Named::Category(category) => GeneralCategory::for_char(c) == category,
            Named::Categories(group) => group.contains(GeneralCategory::for_char(c)),
            Named::Word => is_word(c),
            Named::Space => c.is_whitespace(),
            Named::HexDigit => c.is_ascii_hexdigit(),
            Named::LetterOrNumber => is_letter_or_number(GeneralCategory::for_char(c)),
            Named::Blank => c == ' ' || c == '\t',
            Named::Ascii => c.is_ascii(),
        }
    }
}

fn is_letter_or_number(category: GeneralCategory) -> bool
    ensures { result ≡ (in_group GeneralCategoryGroup.Letter category
        || in_group GeneralCategoryGroup.Number category) }
{
    GeneralCategoryGroup::Letter.contains(category)
        || GeneralCategoryGroup::Number.contains(category)
}
