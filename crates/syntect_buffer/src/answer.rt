//! The answer to a line.
ghost use Rattle.std.specs.Prelude.{◌≡◌, ◌<◌, ◌^◌, IfOk};
ghost use Rattle.syntect_buffer.specs.Answers.{IsRefusal, total, ranges_from};
ghost use Rattle.syntect_buffer.specs.declared.answer.LineAnswer.TheVariants.{Refused};
ghost use Rattle.syntect_buffer.specs.syntect_grammar.declared.error.Error.TheVariants as AnError;

use crate::below::parsing::error::{Error, ParsingError};
use crate::below::parsing::within::LineLimit;
use crate::below::scope::stack::ScopeError;
use crate::below::theme::style::Style;
use std::alloc::{AllocError, Global};
use std::ops::Range;

/// What a highlighter answers to a line.
#[derive(Drop)]
pub enum LineAnswer {
    /// The line is accepted. The ranges of its bytes follow one another from its start to its end,
    /// and none is empty; each has its style.
    Pieces(Vec<(Style, Range<usize>)>),
    /// The line is refused, as it is by a new highlighter. That is never for lack of memory.
    Refused(Error),
    /// The line reached this limit of the buffer's. It leaves no trace: the next line is read as if
    /// this one were not there.
    LimitReached(LineLimit),
}

/// The answer to a line that is refused so.
pub(crate) fn refusal(e: ParsingError) -> Result<LineAnswer, AllocError>
    ensures { IfOk result (IsRefusal e) }
{
    match e {
        ParsingError::Memory => Err(AllocError),
        e => Ok(LineAnswer::Refused(Error::ParsingError(e))),
    }
}

/// The answer to a line of whose operations one is refused so, as only a definition made by hand
/// has them.
pub(crate) fn refused_operation(e: ScopeError) -> Result<LineAnswer, AllocError>
    ensures { IfOk result (λ answer. answer ≡ Refused (AnError.ScopeError e)) }
{
    match e {
        ScopeError::Memory => Err(AllocError),
        e => Ok(LineAnswer::Refused(Error::ScopeError(e))),
    }
}

/// The ranges of pieces that follow one another in a line.
pub(crate) fn ranges_of(
    alloc: Global,
    pieces: &[(Style, &str)],
) -> Result<Vec<(Style, Range<usize>)>, AllocError>
    ensures { IfOk result (λ ranges. total pieces.now < 2 ^ 64
        → ranges.items ≡ ranges_from 0 pieces.now) }
{
    let mut ranges = Vec::with_capacity(alloc, pieces.len())?;
    let mut start = 0usize;
    for (style, piece) in pieces {
        // pieces of a line don't reach past its end, so that nothing is cut off here
        let end = start.saturating_add(piece.len());
        ranges.push((*style, start..end))?;
        start = end;
    }
    Ok(ranges)
}
