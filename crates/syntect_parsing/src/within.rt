//! Why a line was not read within limits.
use crate::below::grammar::syntax_definition::ContextId;
use crate::parser::ParsingError;
use std::alloc::AllocError;
use syntect_reading_choice::halt::Halt;
use thiserror::Error;

/// Which limit of a line was reached, and at which place of the line, a byte position.
#[derive(Clone, Copy, Debug, PartialEq, Eq, Error)]
pub enum LineLimit {
    /// The line's searches made as many steps as they may, the last for the pattern at this index
    /// of the context; or too few were left to put the texts of groups into it.
    #[error("too many steps at byte {place}, for entry {index} of the context with ID '{context:?}'")]
    Steps {
        context: ContextId,
        index: usize,
        place: usize,
    },
    /// The line made as many turns as it may.
    #[error("too many turns at byte {place}")]
    Turns {
        place: usize,
    },
    /// There were more open contexts than there may be.
    #[error("{open_contexts} open contexts at byte {place}")]
    Levels {
        place: usize,
        open_contexts: usize,
    },
    /// The line had more operations than it may.
    #[error("{operations} operations up to byte {place}")]
    Operations {
        place: usize,
        operations: usize,
    },
}

/// Why a line was not read within limits.
#[derive(Debug, Drop, PartialEq, Eq, Error)]
pub enum ReadWithinError {
    /// The line is refused as it is without limits.
    #[error("{0}")]
    Refused(ParsingError),
    /// The line reached a limit.
    #[error("{0}")]
    LimitReached(LineLimit),
}

impl From<ParsingError> for ReadWithinError {
    ghost use Rattle.std.specs.Prelude.{◌≡◌};
    ghost use Rattle.syntect_parsing.specs.declared.within.ReadWithinError.TheVariants.{Refused};

    ghost from_gives = { λ e w. w ≡ Refused e };

    fn from(e: ParsingError) -> ReadWithinError {
        ReadWithinError::Refused(e)
    }
}

impl From<AllocError> for ReadWithinError {
    ghost use Rattle.std.specs.Prelude.{◌≡◌};
    ghost use Rattle.syntect_parsing.specs.declared.within.ReadWithinError.TheVariants.{Refused};
    ghost use Rattle.syntect_parsing.specs.syntect_grammar_contexts.declared.error.ParsingError.TheVariants.{Memory};

    ghost from_gives = { λ _ w. w ≡ Refused Memory };

    fn from(_e: AllocError) -> ReadWithinError {
        ReadWithinError::Refused(ParsingError::Memory)
    }
}

impl From<Halt> for ReadWithinError {
    ghost use Rattle.std.specs.Prelude.{◌≡◌};
    ghost use Rattle.syntect_parsing.specs.Within.{stop_of};

    ghost from_gives = { λ h w. w ≡ stop_of h };

    fn from(halt: Halt) -> ReadWithinError {
        match halt {
            Halt::Memory => ReadWithinError::Refused(ParsingError::Memory),
            Halt::Spent { pattern, place } => ReadWithinError::LimitReached(LineLimit::Steps {
                context: pattern.context,
                index: pattern.index,
                place,
            }),
        }
    }
}
