//! Why a text was not read.
ghost use Rattle.std.specs.Prelude.{◌≡◌};

use std::alloc::{AllocError, AllocFailed};
use thiserror::Error;

/// Why a text was not read.
#[derive(Clone, Copy, Debug, PartialEq, Eq, Error)]
pub enum ReadError {
    /// The text has no value.
    #[error("the text is no value of the YAML that is read here")]
    NoValue,
    /// Memory ran out.
    #[error("out of memory")]
    Memory,
}

impl From<AllocError> for ReadError {
    ghost use Rattle.syntect_yaml.specs.declared.error.ReadError.TheVariants.{Memory};

    ghost from_gives = { λ _ e. e ≡ Memory };

    fn from(_refused: AllocError) -> ReadError {
        ReadError::Memory
    }
}

impl<T: Drop> From<AllocFailed<T>> for ReadError {
    ghost use Rattle.syntect_yaml.specs.declared.error.ReadError.TheVariants.{Memory};

    ghost from_gives = { λ _ e. e ≡ Memory };

    fn from(_refused: AllocFailed<T>) -> ReadError {
        ReadError::Memory
    }
}

/// Why a part of a text was not read.
#[derive(Clone, Copy)]
pub(crate) enum Refusal {
    /// The text is refused, so many bytes before its end.
    At(usize),
    /// Memory ran out.
    Memory,
}

impl From<AllocError> for Refusal {
    ghost use Rattle.syntect_yaml.specs.declared.error.Refusal.TheVariants.{Memory};

    ghost from_gives = { λ _ e. e ≡ Memory };

    fn from(_refused: AllocError) -> Refusal {
        Refusal::Memory
    }
}

impl<T: Drop> From<AllocFailed<T>> for Refusal {
    ghost use Rattle.syntect_yaml.specs.declared.error.Refusal.TheVariants.{Memory};

    ghost from_gives = { λ _ e. e ≡ Memory };

    fn from(_refused: AllocFailed<T>) -> Refusal {
        Refusal::Memory
    }
}
