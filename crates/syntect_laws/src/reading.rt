//! More laws of reading, which no other crate calls: each is the contract of a function that does
//! nothing. And readings of small grammars, computed by their definitions.
ghost use Rattle.syntect_parsing.specs.Laws.{AnswersJoin, AnswersPart};
ghost use Rattle.syntect_parsing.specs.Open.{StackHasVisible, OpenIsVisible};
ghost use Rattle.syntect_laws.specs.ReadingLaws.{ReadsOnce, RefusesOnce, AnswersOnce, CoversLine, EachLineEnds, PlacesAreBoundaries};

/// A line that is accepted has one reading.
#[tactic(auto, using(crate::proofs::Once::reads_once))]
pub fn reads_once()
    ensures { ReadsOnce }
{}

/// A line that is refused has one refusal.
#[tactic(auto, using(crate::proofs::Once::refuses_once))]
pub fn refuses_once()
    ensures { RefusesOnce }
{}

/// Lines have one list of answers.
#[tactic(auto, using(crate::proofs::Once::answers_once))]
pub fn answers_once()
    ensures { AnswersOnce }
{}

/// Each byte of an accepted line has its scopes.
#[tactic(auto, using(crate::proofs::Cover::covers_line))]
pub fn covers_line()
    ensures { CoversLine }
{}

/// Every line is accepted or refused, within so many turns.
pub fn each_line_ends()
    ensures { EachLineEnds }
{}

/// Each turn of a text begins on a character boundary.
#[tactic(auto, using(crate::proofs::Boundaries::places_are_boundaries))]
pub fn places_are_boundaries()
    ensures { PlacesAreBoundaries }
{}

/// The answers to a list of lines are those to its first lines and then those to the others, from
/// the state that these lead to.
#[tactic(auto, using(syntect_parsing::proofs::AnswerLaws::answers_join, syntect_parsing::proofs::AnswerLaws::answers_part))]
pub fn answers_join_and_part()
    ensures join { AnswersJoin }
    ensures part { AnswersPart }
{}

/// The stack that the levels make has their visible scopes. Where no context of a set clears, these
/// are the open ones, and the stack remembers nothing.
#[tactic(auto, using(syntect_parsing::proofs::StackLaws::stack_has_visible, syntect_parsing::proofs::StackLaws::open_is_visible))]
pub fn stack_has_visible_scopes()
    ensures visible { StackHasVisible }
    ensures open { OpenIsVisible }
{}
