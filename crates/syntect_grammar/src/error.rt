//! What can go wrong.
use crate::below::base::loading::{LoadingError, SettingsError};
use crate::below::base::syntax::ParseSyntaxError;
use crate::below::base::theme::ParseThemeError;
pub use crate::below::grammar_contexts::error::ParsingError;
use crate::below::regexes::error::PatternError;
use crate::below::scope::repository::ParseScopeError;
use crate::below::scope::stack::ScopeError;
use std::alloc::{AllocError, AllocFailed};
use std::io::ErrorKind;
use std::{fmt, io};
use thiserror::Error as ThisError;

/// Why a call was refused for one of several causes. `?` makes it from each refusal of a call.
#[derive(Drop, ThisError)]
pub enum Error {
    /// A file or a folder was not loaded.
    #[error("Loading error: {0}")]
    LoadingError(LoadingError),
    /// A line was not read.
    #[error("Parsing error: {0}")]
    ParsingError(ParsingError),
    /// An operation on a stack of scopes was refused.
    #[error("Scope error: {0}")]
    ScopeError(ScopeError),
    /// A text could not be formatted. No call of this crate answers it.
    #[error("Formatting error: {0}")]
    Fmt(fmt::Error),
    /// A file or reader failed, or its bytes aren't UTF-8.
    #[error("IO Error: {0}")]
    Io(io::Error),
    /// No syntax fits a file.
    #[error("NoSyntax")]
    NoSyntax,
    /// There was no memory. `?` makes this of any refusal for lack of memory.
    #[error("Memory")]
    Memory,
    /// No syntax definition. `?` alone makes it, of what `SyntaxDefinition::load_from_str` answers.
    #[error("Syntax error: {0}")]
    ParseSyntax(ParseSyntaxError),
    /// A text is no scope. `?` alone makes it.
    #[error("Scope error: {0}")]
    ParseScope(ParseScopeError),
    /// A text is no pattern. `?` alone makes it.
    #[error("Pattern error: {0}")]
    Pattern(PatternError),
}

/// The message, with the cause where it leaves that out: `main` shows it of an error it answers.
impl fmt::Debug for Error {
    fn fmt<W: fmt::Write>(&self, f: &mut fmt::Formatter<W>) -> fmt::Result {
        match self {
            Error::LoadingError(e) => write!(f, "Loading error: {e:?}"),
            Error::NoSyntax => write!(f, "{self}: no syntax fits the file"),
            _ => write!(f, "{self}"),
        }
    }
}

impl From<AllocError> for Error {
    ghost use Rattle.std.specs.Prelude.{◌≡◌};
    ghost use Rattle.syntect_grammar.specs.declared.error.Error.TheVariants.{Memory};

    ghost from_gives = { λ _ e. e ≡ Memory };

    fn from(_e: AllocError) -> Error {
        Error::Memory
    }
}

impl<T: Drop> From<AllocFailed<T>> for Error {
    ghost use Rattle.std.specs.Prelude.{◌≡◌};
    ghost use Rattle.syntect_grammar.specs.declared.error.Error.TheVariants.{Memory};

    ghost from_gives = { λ _ e. e ≡ Memory };

    fn from(_e: AllocFailed<T>) -> Error {
        Error::Memory
    }
}

impl From<LoadingError> for Error {
    ghost use Rattle.std.specs.Prelude.{◌≡◌};
    ghost use Rattle.syntect_grammar.specs.Passing.{from_loading};

    ghost from_gives = { λ e r. r ≡ from_loading e };

    fn from(e: LoadingError) -> Error {
        match e {
            LoadingError::Memory => Error::Memory,
            e => Error::LoadingError(e),
        }
    }
}

impl From<ParsingError> for Error {
    ghost use Rattle.std.specs.Prelude.{◌≡◌};
    ghost use Rattle.syntect_grammar.specs.Passing.{from_parsing};

    ghost from_gives = { λ e r. r ≡ from_parsing e };

    fn from(e: ParsingError) -> Error {
        match e {
            ParsingError::Memory => Error::Memory,
            e => Error::ParsingError(e),
        }
    }
}

impl From<ScopeError> for Error {
    ghost use Rattle.std.specs.Prelude.{◌≡◌};
    ghost use Rattle.syntect_grammar.specs.Passing.{from_scope};

    ghost from_gives = { λ e r. r ≡ from_scope e };

    fn from(e: ScopeError) -> Error {
        match e {
            ScopeError::Memory => Error::Memory,
            e => Error::ScopeError(e),
        }
    }
}

impl From<io::Error> for Error {
    ghost use Rattle.std.specs.Prelude.{◌≡◌};
    ghost use Rattle.syntect_grammar.specs.Passing.{from_io};

    ghost from_gives = { λ e r. r ≡ from_io e };

    fn from(e: io::Error) -> Error {
        match e.kind() {
            ErrorKind::OutOfMemory => Error::Memory,
            _ => Error::Io(e),
        }
    }
}

/// A text that could not be formatted.
impl From<fmt::Error> for Error {
    ghost use Rattle.std.specs.Prelude.{◌≡◌};
    ghost use Rattle.syntect_grammar.specs.declared.error.Error.TheVariants.{Fmt};

    ghost from_gives = { λ e r. r ≡ Fmt e };

    fn from(e: fmt::Error) -> Error {
        Error::Fmt(e)
    }
}

impl From<ParseSyntaxError> for Error {
    ghost use Rattle.std.specs.Prelude.{◌≡◌};
    ghost use Rattle.syntect_grammar.specs.Passing.{from_syntax};

    ghost from_gives = { λ e r. r ≡ from_syntax e };

    fn from(e: ParseSyntaxError) -> Error {
        match e {
            ParseSyntaxError::Memory => Error::Memory,
            e => Error::ParseSyntax(e),
        }
    }
}

impl From<ParseScopeError> for Error {
    ghost use Rattle.std.specs.Prelude.{◌≡◌};
    ghost use Rattle.syntect_grammar.specs.Passing.{from_scope_text};

    ghost from_gives = { λ e r. r ≡ from_scope_text e };

    fn from(e: ParseScopeError) -> Error {
        match e {
            ParseScopeError::Memory => Error::Memory,
            e => Error::ParseScope(e),
        }
    }
}

impl From<PatternError> for Error {
    ghost use Rattle.std.specs.Prelude.{◌≡◌};
    ghost use Rattle.syntect_grammar.specs.Passing.{from_pattern};

    ghost from_gives = { λ e r. r ≡ from_pattern e };

    fn from(e: PatternError) -> Error {
        match e {
            PatternError::Memory => Error::Memory,
            e => Error::Pattern(e),
        }
    }
}

/// As a refusal to load a theme. Lack of memory is passed on as such.
impl From<ParseThemeError> for Error {
    ghost use Rattle.std.specs.Prelude.{◌≡◌};
    ghost use Rattle.syntect_grammar.specs.Passing.{from_theme_value};

    ghost from_gives = { λ e r. r ≡ from_theme_value e };

    fn from(e: ParseThemeError) -> Error {
        Error::from(LoadingError::from(e))
    }
}

impl From<SettingsError> for Error {
    ghost use Rattle.std.specs.Prelude.{◌≡◌};
    ghost use Rattle.syntect_grammar.specs.Passing.{from_settings_value};

    ghost from_gives = { λ e r. r ≡ from_settings_value e };

    fn from(e: SettingsError) -> Error {
        Error::from(LoadingError::from(e))
    }
}
