//! Laws of sets and of what they are linked from.
ghost use Rattle.syntect_laws.specs.syntect_grammar.Patterns.{RoomIsNotFelt, RoomIsNotFeltAt};
ghost use Rattle.syntect_laws.specs.syntect_reading_state.Places.{PlacesArePatterns};
ghost use Rattle.syntect_laws.specs.syntect_grammar.PlainText.{PlainTextIsPlain};
ghost use Rattle.syntect_laws.specs.syntect_grammar_linker.Reached.{PrototypesReach, MarksReach};

/// The room for includes is never felt.
pub fn room_is_not_felt()
    ensures alone { RoomIsNotFelt }
    ensures held { RoomIsNotFeltAt }
{}

/// As many steps as there are contexts reach from a prototype what any number of steps reach.
pub fn prototypes_reach()
    ensures { PrototypesReach }
{}

/// As many includes as there are contexts lead to each mark of back references that any number of
/// them leads to.
#[tactic(auto, using(crate::proofs::ReachLaws::marks_reach))]
pub fn marks_reach()
    ensures { MarksReach }
{}

/// The places that a walk of a context gives are where the patterns stand that it gives.
pub fn places_are_patterns()
    ensures { PlacesArePatterns }
{}

/// The grammar of plain text gives a syntax named `Plain Text`, of the extension `txt` and the
/// scope `text.plain`, with a `main` that has no patterns.
pub fn plain_text_is_plain()
    ensures { PlainTextIsPlain }
{}
