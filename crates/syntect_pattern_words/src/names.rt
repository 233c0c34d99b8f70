//! The sets that escapes and brackets name.
ghost use Rattle.std.specs.Prelude.{◌≡◌, chars, map, option_map};
ghost use Rattle.syntect_pattern.specs.NamedSets.{set_of_named};
ghost use Rattle.syntect_pattern.specs.Escapes.{named_set, category_names};
ghost use Rattle.syntect_pattern.specs.Classes.{posix_names};
ghost use Rattle.syntect_pattern_words.specs.Names.{entry_named};

use crate::text::spells;
use syntect_pattern::named::Named;
use unicode::properties::{GeneralCategory, GeneralCategoryGroup};

/// A name, which is ASCII, and its set.
type Entry = (&'static str, Named);

/// What `\p{..}` names.
static CATEGORIES: [Entry; 37] = [
    ("L", Named::Categories(GeneralCategoryGroup::Letter)),
    ("M", Named::Categories(GeneralCategoryGroup::Mark)),
    ("N", Named::Categories(GeneralCategoryGroup::Number)),
    ("P", Named::Categories(GeneralCategoryGroup::Punctuation)),
    ("S", Named::Categories(GeneralCategoryGroup::Symbol)),
    ("Z", Named::Categories(GeneralCategoryGroup::Separator)),
    ("C", Named::Categories(GeneralCategoryGroup::Other)),
    ("Lu", Named::Category(GeneralCategory::UppercaseLetter)),
    ("Ll", Named::Category(GeneralCategory::LowercaseLetter)),
    ("Lt", Named::Category(GeneralCategory::TitlecaseLetter)),
    ("Lm", Named::Category(GeneralCategory::ModifierLetter)),
    ("Lo", Named::Category(GeneralCategory::OtherLetter)),
    ("Mn", Named::Category(GeneralCategory::NonspacingMark)),
    ("Mc", Named::Category(GeneralCategory::SpacingMark)),
    ("Me", Named::Category(GeneralCategory::EnclosingMark)),
    ("Nd", Named::Category(GeneralCategory::DecimalNumber)),
    ("Nl", Named::Category(GeneralCategory::LetterNumber)),
    ("No", Named::Category(GeneralCategory::OtherNumber)),
    ("Pc", Named::Category(GeneralCategory::ConnectorPunctuation)),
    ("Pd", Named::Category(GeneralCategory::DashPunctuation)),
    ("Ps", Named::Category(GeneralCategory::OpenPunctuation)),
    ("Pe", Named::Category(GeneralCategory::ClosePunctuation)),
    ("Pi", Named::Category(GeneralCategory::InitialPunctuation)),
    ("Pf", Named::Category(GeneralCategory::FinalPunctuation)),
    ("Po", Named::Category(GeneralCategory::OtherPunctuation)),
    ("Sm", Named::Category(GeneralCategory::MathSymbol)),
    ("Sc", Named::Category(GeneralCategory::CurrencySymbol)),
    ("Sk", Named::Category(GeneralCategory::ModifierSymbol)),
    ("So", Named::Category(GeneralCategory::OtherSymbol)),
    ("Zs", Named::Category(GeneralCategory::SpaceSeparator)),
    ("Zl", Named::Category(GeneralCategory::LineSeparator)),
    ("Zp", Named::Category(GeneralCategory::ParagraphSeparator)),
    ("Cc", Named::Category(GeneralCategory::Control)),
    ("Cf", Named::Category(GeneralCategory::Format)),
    ("Cs", Named::Category(GeneralCategory::Surrogate)),
    ("Co", Named::Category(GeneralCategory::PrivateUse)),
    ("Cn", Named::Category(GeneralCategory::Unassigned)),
];

/// What `[:..:]` names.
static BRACKETS: [Entry; 12] = [
    ("alpha", Named::Categories(GeneralCategoryGroup::Letter)),
    ("alnum", Named::LetterOrNumber),
    ("lower", Named::Category(GeneralCategory::LowercaseLetter)),
    ("upper", Named::Category(GeneralCategory::UppercaseLetter)),
    ("digit", Named::Category(GeneralCategory::DecimalNumber)),
    ("space", Named::Space),
    ("word", Named::Word),
    ("xdigit", Named::HexDigit),
    ("blank", Named::Blank),
    ("cntrl", Named::Category(GeneralCategory::Control)),
    (
        "punct",
        Named::Categories(GeneralCategoryGroup::Punctuation),
    ),
    ("ascii", Named::Ascii),
];

/// The set that the table has for the name.
fn find_named(table: &[Entry], name: &str) -> Option<Named>
    ensures { result ≡ entry_named (map (λ e. (e.0.now, e.1)) table.now) (chars name.now) }
{
    for entry in table {
        if spells(name, entry.0) {
            return Some(entry.1);
        }
    }
    None
}

/// The set of a category.
pub fn category_named(name: &str) -> Option<Named>
    ensures { named_set category_names (chars name.now) ≡ option_map set_of_named result }
{
    find_named(&CATEGORIES, name)
}

/// The set of a bracket.
pub fn bracket_named(name: &str) -> Option<Named>
    ensures { named_set posix_names (chars name.now) ≡ option_map set_of_named result }
{
    find_named(&BRACKETS, name)
}
