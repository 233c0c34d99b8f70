//! Laws of patterns. Each is the contract of a function that does nothing.
ghost use Rattle.syntect_pattern.specs.Found.{FindsPatternMatches};
ghost use Rattle.syntect_pattern.specs.Grammar.{ReadsEnough, NumbersGroups};
ghost use Rattle.syntect_pattern.specs.Nesting.{FindsMatches, TurnsEnough};

/// The law of every search: but for groups in lookarounds, each group lies in the match and between
/// characters, and two groups lie apart or one in the other.
pub fn matches_are_laid_out()
    ensures { FindsMatches }
{}

/// The law of searches for a pattern that is given as its text: what `pattern_found` finds is a
/// match of the pattern's tree.
pub fn pattern_matches_are_laid_out()
    ensures { FindsPatternMatches }
{}

/// The law of the reading: the number that bounds its calls has no effect where it is above the
/// length of the text.
pub fn reading_has_room()
    ensures { ReadsEnough }
{}

/// The groups of a pattern are numbered from 1, by their opening.
pub fn groups_are_numbered()
    ensures { NumbersGroups }
{}

/// The law of loops: the number that bounds the turns has no effect where it is above what is left
/// of the text.
pub fn loops_have_room()
    ensures { TurnsEnough }
{}
