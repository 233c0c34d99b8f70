//! Why a text is no syntax.
use std::alloc::{AllocError, AllocFailed};
use syntect_pattern::error::PatternError;
use syntect_scope::repository::ParseScopeError;
use thiserror::Error;

/// Why a text is no syntax definition.
#[derive(Debug, Drop, PartialEq, Eq, Error)]
pub enum ParseSyntaxError {
    /// The text is not of the YAML that is read.
    #[error("Invalid YAML file syntax")]
    InvalidYaml,
    /// The text has no node.
    #[error("The file must contain at least one YAML document")]
    EmptyFile,
    /// The text lacks this key, which it must have.
    #[error("Missing mandatory key in YAML file: {0}")]
    MissingMandatoryKey(&'static str),
    /// A pattern, given as it was tested, is refused.
    #[error("Error while compiling regex '{0}': {1}")]
    RegexCompileError(String, PatternError),
    /// A text is no scope.
    #[error("Invalid scope: {0}")]
    InvalidScope(ParseScopeError),
    /// A reference to another file is malformed. No call answers it.
    #[error("Invalid file reference")]
    BadFileRef,
    /// There is no context of the name `main`.
    #[error("Context 'main' is missing")]
    MainMissing,
    /// A value is of the wrong kind.
    #[error("Type mismatch")]
    TypeMismatch,
    /// There was no memory.
    #[error("Memory")]
    Memory,
}

impl From<AllocError> for ParseSyntaxError {
    ghost use Rattle.std.specs.Prelude.{◌≡◌};
    ghost use Rattle.syntect_base.specs.declared.syntax.ParseSyntaxError.TheVariants.{Memory};

    ghost from_gives = { λ _ e. e ≡ Memory };

    fn from(_e: AllocError) -> ParseSyntaxError {
        ParseSyntaxError::Memory
    }
}

impl<T: Drop> From<AllocFailed<T>> for ParseSyntaxError {
    ghost use Rattle.std.specs.Prelude.{◌≡◌};
    ghost use Rattle.syntect_base.specs.declared.syntax.ParseSyntaxError.TheVariants.{Memory};

    ghost from_gives = { λ _ e. e ≡ Memory };

    fn from(_e: AllocFailed<T>) -> ParseSyntaxError {
        ParseSyntaxError::Memory
    }
}
