//! What a highlighter of lines holds between two of them.
ghost use Rattle.std.specs.Prelude.{◌≡◌, ◌↔◌, IsTrue, IfOk};
ghost use Rattle.syntect_buffer.specs.States.{IsLeft, StandSame};

use crate::below::parsing::parser::{self, ParseState};
use crate::below::style::state::{self, HighlightState};
use std::alloc::{AllocError, Global};
use std::marker::Model;
use std::rc::Rc;

/// The states of the styles and of the reader of lines, at the start of a line.
#[derive(Drop)]
pub(crate) struct LineStates {
    pub(crate) styles: HighlightState,
    pub(crate) reader: ParseState,
}

/// Whether two places of texts are told apart by nothing that is read there.
fn are_same(a: &LineStates, b: &LineStates) -> bool
    ensures { IsTrue result ↔ StandSame a.now b.now }
{
    parser::is_same_state(&a.reader, &b.reader) && state::is_same_state(&a.styles, &b.styles)
}

/// States that lines share where they stand alike. Seen as the states.
#[derive(Drop)]
pub(crate) struct SharedStates {
    states: Rc<LineStates>,
}

impl Model for SharedStates {
    ghost use Rattle.syntect_buffer.specs.declared.states.LineStates.{LineStates};

    ghost Value = { LineStates };

    ghost view = { λ s. s.states.value };
}

impl SharedStates {
    /// States that no line shares yet.
    pub(crate) fn new(alloc: Global, states: LineStates) -> Result<SharedStates, AllocError>
        ensures { IfOk result (λ s. s ≡ states) }
    {
        Ok(SharedStates {
            states: Rc::new(alloc, states)?,
        })
    }

    /// The states.
    pub(crate) fn states(&self) -> &LineStates
        ensures { result.now ≡ self.now }
    {
        self.states.as_ref()
    }

    /// A copy of the states' handle, for one line more.
    fn share(&self) -> Result<SharedStates, AllocError>
        ensures { IfOk result (λ s. s ≡ self.now) }
    {
        Ok(SharedStates {
            states: self.states.clone()?,
        })
    }
}

/// Whether two places are told apart by nothing that is read there, by states that lines share.
pub(crate) fn stand_same(a: &SharedStates, b: &SharedStates) -> bool
    ensures { IsTrue result ↔ StandSame a.now b.now }
{
    are_same(a.states(), b.states())
}

/// What a line leaves that begins with the first states: those themselves where it ends as it
/// began, so that no line keeps states that the line before it has; and whether it does.
pub(crate) fn left(
    alloc: Global,
    before: &SharedStates,
    after: LineStates,
) -> Result<(SharedStates, bool), AllocError>
    ensures { IfOk result (λ p. IsLeft before.now after p.0 p.1) }
{
    if are_same(before.states(), &after) {
        Ok((before.share()?, true))
    } else {
        Ok((SharedStates::new(alloc, after)?, false))
    }
}

/// A copy of the state.
pub(crate) fn copied(reader: &ParseState) -> Result<ParseState, AllocError>
    ensures { IfOk result (λ s. s ≡ reader.now) }
{
    reader.clone()
}
