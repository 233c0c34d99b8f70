//! Laws of reading.
ghost use Rattle.syntect_parsing.specs.Laws.{NeverBoth, AnswersMore, StackIsOpen, LaysGroupsOut};
ghost use Rattle.syntect_parsing.specs.Refusals.{RefusesUnresolved, LinksClosed};
ghost use Rattle.syntect_parsing.specs.Standing.{BytesHaveScopes};
ghost use Rattle.syntect_reading_choice.specs.Engine.{dialect};

pub use syntect_reading_choice::laws::dialect_finds_in_text;

/// No line is both accepted and refused.
#[tactic(auto, using(crate::proofs::AnswerLaws::never_both))]
pub fn never_both()
    ensures { NeverBoth }
{}

/// One more line is answered at the state that the lines before it lead to.
#[tactic(auto, using(crate::proofs::AnswerLaws::answers_more))]
pub fn answers_more()
    ensures { AnswersMore }
{}

/// If what the first accepted line pushes makes the stack that of the levels,
/// it is so before each line.
#[tactic(auto, using(crate::proofs::Open::stack_is_open))]
pub fn stack_is_open()
    ensures { StackIsOpen }
{}

/// The groups of a match that stand in no lookaround lie in the match, and each two of them are
/// apart or one in the other: so their scopes are pushed and popped as on a stack.
pub fn dialect_lays_groups_out()
    ensures { LaysGroupsOut dialect }
{
    crate::below::pattern::laws::matches_are_laid_out();
    crate::below::pattern::laws::groups_are_numbered();
}

/// A text that begins in a context that is never left is refused exactly where a picked match names
/// a reference without target, with the refusal of that reference.
pub fn refuses_unresolved()
    ensures { RefusesUnresolved }
{}

/// A text that begins in a context with a scope that is never left has a scope on each byte of each
/// accepted line.
#[tactic(auto, using(crate::proofs::StandingLaws::bytes_have_scopes))]
pub fn bytes_have_scopes()
    ensures { BytesHaveScopes }
{}

/// A set that is linked of definitions whose references are all by name leads nowhere out of it.
pub fn links_closed()
    ensures { LinksClosed }
{}
