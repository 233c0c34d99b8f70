//! Why a value is no theme.
use crate::syntect_values::text::Text;
use std::alloc::{AllocError, AllocFailed};
use syntect_scope::repository::ParseScopeError;
use thiserror::Error;

/// Why a value is no theme, or no part of one.
#[derive(Debug, Drop, PartialEq, Eq, Error)]
pub enum ParseThemeError {
    /// A value names no way of underlining.
    #[error("Incorrect underline option")]
    IncorrectUnderlineOption,
    /// A word, or a value that is no text, names no font style.
    #[error("Incorrect font style: {0}")]
    IncorrectFontStyle(Text),
    /// A value is no colour.
    #[error("Incorrect color")]
    IncorrectColor,
    /// The theme is no object, or a part of it is missing or of the wrong kind.
    #[error("Incorrect syntax")]
    IncorrectSyntax,
    /// A rule has no `settings`.
    #[error("Incorrect settings")]
    IncorrectSettings,
    /// The first of a theme's settings has no `settings`.
    #[error("Undefined settings")]
    UndefinedSettings,
    /// A rule has no settings of this name. No call answers it.
    #[error("Undefined scope settings: {0}")]
    UndefinedScopeSettings(Text),
    /// A rule, or its style, is no object.
    #[error("Color sheme scope is not object")]
    ColorShemeScopeIsNotObject,
    /// The settings of a theme are no object.
    #[error("Color sheme settings is not object")]
    ColorShemeSettingsIsNotObject,
    /// A value that is no text stands for a selector; the text here is empty where there is none.
    #[error("Scope selector is not string: {0}")]
    ScopeSelectorIsNotString(Text),
    /// Settings stand twice. No call answers it.
    #[error("Duplicate settings")]
    DuplicateSettings,
    /// A selector was not read.
    #[error("Scope parse error: {0}")]
    ScopeParse(ParseScopeError),
    /// There was no memory.
    #[error("Memory")]
    Memory,
}

impl From<AllocError> for ParseThemeError {
    ghost use Rattle.std.specs.Prelude.{◌≡◌};
    ghost use Rattle.syntect_base.specs.declared.theme.ParseThemeError.TheVariants.{Memory};

    ghost from_gives = { λ _ e. e ≡ Memory };

    fn from(_e: AllocError) -> ParseThemeError {
        ParseThemeError::Memory
    }
}

impl<T: Drop> From<AllocFailed<T>> for ParseThemeError {
    ghost use Rattle.std.specs.Prelude.{◌≡◌};
    ghost use Rattle.syntect_base.specs.declared.theme.ParseThemeError.TheVariants.{Memory};

    ghost from_gives = { λ _ e. e ≡ Memory };

    fn from(_e: AllocFailed<T>) -> ParseThemeError {
        ParseThemeError::Memory
    }
}

/// Lack of memory is passed on as such.
impl From<ParseScopeError> for ParseThemeError {
    ghost use Rattle.std.specs.Prelude.{◌≡◌};
    ghost use Rattle.syntect_base.specs.Refusals.{from_scopes};

    ghost from_gives = { λ e r. r ≡ from_scopes e };

    fn from(e: ParseScopeError) -> ParseThemeError {
        match e {
            ParseScopeError::Memory => ParseThemeError::Memory,
            e => ParseThemeError::ScopeParse(e),
        }
    }
}
