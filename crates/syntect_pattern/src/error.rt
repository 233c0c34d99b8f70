//! Why a text is no pattern.
use std::alloc::{AllocError, AllocFailed};
use thiserror::Error;

/// Why a text was not made a pattern.
#[derive(Clone, Copy, Debug, PartialEq, Eq, Error)]
pub enum PatternError {
    /// The text is no pattern of the dialect.
    #[error("NotAPattern")]
    NotAPattern,
    /// There was not enough memory.
    #[error("Memory")]
    Memory,
}

impl From<AllocError> for PatternError {
    ghost use Rattle.std.specs.Prelude.{◌≡◌};
    ghost use Rattle.syntect_pattern.specs.declared.error.PatternError.TheVariants.{Memory};

    ghost from_gives = { λ _ e. e ≡ Memory };

    fn from(_: AllocError) -> Self {
        PatternError::Memory
    }
}
