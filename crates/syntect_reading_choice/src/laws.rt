//! What the search of a match rests on.
ghost use Rattle.std.specs.Prelude.{◌≡◌};
ghost use Rattle.syntect_reading_choice.specs.declared.position.TheConstants.{MOST_LEVELS, MOST_IDLE};
ghost use Rattle.syntect_reading_choice.specs.Found.{FindsInText, FindsOnBoundaries};
ghost use Rattle.syntect_reading_choice.specs.Engine.{dialect};

/// What the dialect finds stands in the text, on character boundaries.
pub fn dialect_finds_in_text()
    ensures { FindsInText dialect }
{
    crate::below::pattern::laws::matches_are_laid_out();
}

/// Each group of what the dialect finds, those in lookarounds too, stands on character boundaries.
pub fn dialect_finds_on_boundaries()
    ensures { FindsOnBoundaries dialect }
{
    crate::below::pattern::laws::pattern_matches_are_laid_out();
}

/// A push is passed over once a hundred levels are open, and at one place a thousand empty pushes
/// and sets are made at most.
pub fn limits_of_reading()
    ensures levels { MOST_LEVELS ≡ 100 }
    ensures idle { MOST_IDLE ≡ 1000 }
{}
