//! Why a line was not highlighted within limits.
ghost use Rattle.std.specs.Prelude.{◌≡◌};
ghost use Rattle.syntect_easy.specs.Within.{refusal_of};

use crate::below::scope::stack::ScopeError;
use std::alloc::AllocError;
use std::fmt;
use syntect_parsing::error::Error;
use syntect_parsing::within::{LineLimit, ReadWithinError};
use thiserror::Error as ThisError;

/// Why a line was not highlighted within limits.
#[derive(Drop, ThisError)]
pub enum HighlightWithinError {
    /// The line is refused as it is without limits.
    #[error("{0}")]
    Refused(Error),
    /// The line reached a limit.
    #[error("{0}")]
    LimitReached(LineLimit),
}

/// The message, with the cause where the message leaves it out: `main` shows it of an
/// error that it answers.
impl fmt::Debug for HighlightWithinError {
    fn fmt<W: fmt::Write>(&self, f: &mut fmt::Formatter<W>) -> fmt::Result {
        match self {
            HighlightWithinError::Refused(e) => write!(f, "{e:?}"),
            HighlightWithinError::LimitReached(_) => write!(f, "{self}"),
        }
    }
}

impl From<AllocError> for HighlightWithinError {
    ghost use Rattle.std.specs.Prelude.{◌≡◌};
    ghost use Rattle.syntect_easy.specs.declared.within.HighlightWithinError.TheVariants.{Refused};
    ghost use Rattle.syntect_easy.specs.syntect_grammar.declared.error.Error.TheVariants.{Memory};

    ghost from_gives = { λ _ e. e ≡ Refused Memory };

    fn from(_e: AllocError) -> HighlightWithinError {
        HighlightWithinError::Refused(Error::Memory)
    }
}

impl From<Error> for HighlightWithinError {
    ghost use Rattle.std.specs.Prelude.{◌≡◌};
    ghost use Rattle.syntect_easy.specs.declared.within.HighlightWithinError.TheVariants.{Refused};

    ghost from_gives = { λ e r. r ≡ Refused e };

    fn from(e: Error) -> HighlightWithinError {
        HighlightWithinError::Refused(e)
    }
}

impl From<ScopeError> for HighlightWithinError {
    ghost use Rattle.std.specs.Prelude.{◌≡◌};
    ghost use Rattle.syntect_easy.specs.declared.within.HighlightWithinError.TheVariants.{Refused};
    ghost use Rattle.syntect_easy.specs.syntect_grammar.Passing.{from_scope};

    ghost from_gives = { λ e r. r ≡ Refused (from_scope e) };

    fn from(e: ScopeError) -> HighlightWithinError {
        HighlightWithinError::Refused(Error::from(e))
    }
}

impl From<ReadWithinError> for HighlightWithinError {
    ghost use Rattle.std.specs.Prelude.{◌≡◌};
    ghost use Rattle.syntect_easy.specs.Within.{from_reading};

    ghost from_gives = { λ e r. r ≡ from_reading e };

    fn from(e: ReadWithinError) -> HighlightWithinError {
        match e {
            ReadWithinError::Refused(e) => HighlightWithinError::Refused(Error::from(e)),
            ReadWithinError::LimitReached(limit) => HighlightWithinError::LimitReached(limit),
        }
    }
}

/// The refusal of a line that is read without limits.
pub(crate) fn refusal(e: HighlightWithinError) -> Error
    ensures { result ≡ refusal_of e }
{
    match e {
        HighlightWithinError::Refused(e) => e,
        // never, as nothing is limited
        HighlightWithinError::LimitReached(_) => Error::Memory,
    }
}
