//! Why settings give no set of metadata.
use crate::below::scope::repository::ParseScopeError;
use std::alloc::{AllocError, AllocFailed};
use thiserror::Error;

/// Why the settings of a scope text give no set of metadata.
#[derive(Debug, Drop, PartialEq, Eq, Error)]
pub enum MetadataError {
    /// None of the keys that are read is there.
    #[error("Skipped")]
    Skipped,
    /// The value of a key is of the wrong kind.
    #[error("BadItems")]
    BadItems,
    /// A scope of the selectors is refused.
    #[error("BadSelector")]
    BadSelector(ParseScopeError),
    /// There was no memory.
    #[error("Memory")]
    Memory,
}

impl From<AllocError> for MetadataError {
    ghost use Rattle.std.specs.Prelude.{◌≡◌};
    ghost use Rattle.syntect_metadata.specs.declared.error.MetadataError.TheVariants.{Memory};

    ghost from_gives = { λ _ e. e ≡ Memory };

    fn from(_e: AllocError) -> MetadataError {
        MetadataError::Memory
    }
}

impl<T: Drop> From<AllocFailed<T>> for MetadataError {
    ghost use Rattle.std.specs.Prelude.{◌≡◌};
    ghost use Rattle.syntect_metadata.specs.declared.error.MetadataError.TheVariants.{Memory};

    ghost from_gives = { λ _ e. e ≡ Memory };

    fn from(_e: AllocFailed<T>) -> MetadataError {
        MetadataError::Memory
    }
}
