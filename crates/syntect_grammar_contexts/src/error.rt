//! What can go wrong with a line or a reference.
use crate::below::values::text::Text;
use crate::context::{ContextId, ContextReference};
use std::alloc::{AllocError, AllocFailed};
use std::fmt;
use thiserror::Error as ThisError;

/// Why a line is refused, or a reference has no context.
#[derive(Debug, Drop, PartialEq, Eq, ThisError)]
pub enum ParsingError {
    /// No context is open any more, or the syntax has no context `__start`.
    #[error("Somehow main context was popped from the stack")]
    MissingMainContext,
    /// The set lacks the context of this number.
    #[error("Missing context with ID '{0:?}'")]
    MissingContext(ContextId),
    /// No match pattern stands at this place of a context.
    #[error("Bad index to match_at: {0}")]
    BadMatchIndex(usize),
    /// A reference leads to no context.
    #[error("Tried to use a ContextReference that has not been resolved yet: {0}")]
    UnresolvedContextReference(ContextReference),
    /// There was no memory.
    #[error("Memory")]
    Memory,
}

/// The name that it has in its grammar. The scope of another syntax has no
/// text without the repository.
impl fmt::Display for ContextReference {
    fn fmt<W: fmt::Write>(&self, f: &mut fmt::Formatter<W>) -> fmt::Result {
        match self {
            ContextReference::Named(name) | ContextReference::Inline(name) => {
                write!(f, "'{}'", name.as_str())
            }
            ContextReference::ByScope { sub_context, .. } => {
                write_sub_context(f, sub_context)?;
                write!(f, "the syntax of a scope")
            }
            ContextReference::File {
                name,
                sub_context,
                ..
            } => {
                write_sub_context(f, sub_context)?;
                write!(f, "the syntax '{}'", name.as_str())
            }
            ContextReference::Direct(id) => write!(f, "{id:?}"),
        }
    }
}

/// Writes the name of a context of another syntax, if a reference has it.
fn write_sub_context<W: fmt::Write>(
    f: &mut fmt::Formatter<W>,
    sub_context: &Option<Text>,
) -> fmt::Result {
    match sub_context {
        Some(name) => write!(f, "'{}' of ", name.as_str()),
        None => Ok(()),
    }
}

impl From<AllocError> for ParsingError {
    ghost use Rattle.std.specs.Prelude.{◌≡◌};
    ghost use Rattle.syntect_grammar_contexts.specs.declared.error.ParsingError.TheVariants.{Memory};

    ghost from_gives = { λ _ e. e ≡ Memory };

    fn from(_e: AllocError) -> ParsingError {
        ParsingError::Memory
    }
}

impl<T: Drop> From<AllocFailed<T>> for ParsingError {
    ghost use Rattle.std.specs.Prelude.{◌≡◌};
    ghost use Rattle.syntect_grammar_contexts.specs.declared.error.ParsingError.TheVariants.{Memory};

    ghost from_gives = { λ _ e. e ≡ Memory };

    fn from(_e: AllocFailed<T>) -> ParsingError {
        ParsingError::Memory
    }
}
