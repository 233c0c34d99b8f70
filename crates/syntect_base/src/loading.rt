//! Why a file or a folder was not loaded.
use crate::syntax::ParseSyntaxError;
use crate::theme::ParseThemeError;
use std::alloc::{AllocError, AllocFailed};
use std::io::ErrorKind;
use std::{fmt, io};
use thiserror::Error;

/// Why the bytes of a theme or of metadata are no value.
#[derive(Clone, Copy, Debug, PartialEq, Eq, Error)]
pub enum SettingsError {
    /// The bytes are no JSON, or have a number that is not whole.
    #[error("Json")]
    Json,
    /// There was no memory.
    #[error("Memory")]
    Memory,
}

/// What is to be known of a file that holds no settings.
pub const NO_SETTINGS: &str = "the text is no JSON, or a number in it is no whole one; \
docs/THEMES.md says how to make a property list JSON";

/// Why a file or a folder was not loaded.
#[derive(Drop, Error)]
pub enum LoadingError {
    /// The files of a folder were not found.
    #[error("error finding all the files in a directory")]
    WalkDir,
    /// A file was not read.
    #[error("error reading a file: {0}")]
    Io(io::Error),
    /// A file, whose name stands second, is no syntax.
    #[error("{1}: {0}")]
    ParseSyntax(ParseSyntaxError, String),
    /// A file is no metadata.
    #[error("Failed to parse JSON")]
    ParseMetadata,
    /// A value is no theme.
    #[error("Invalid syntax theme")]
    ParseTheme(ParseThemeError),
    /// A file has no value.
    #[error("Invalid syntax theme settings")]
    ReadSettings(SettingsError),
    /// A path is no file's. No call answers it.
    #[error("Invalid path")]
    BadPath,
    /// There was no memory.
    #[error("Memory")]
    Memory,
}

/// The message, with the cause where the message leaves it out: `main` shows it of an
/// error that it answers.
impl fmt::Debug for LoadingError {
    fn fmt<W: fmt::Write>(&self, f: &mut fmt::Formatter<W>) -> fmt::Result {
        match self {
            LoadingError::ParseTheme(e) => write!(f, "{self}: {e}"),
            LoadingError::ReadSettings(SettingsError::Json) => {
                write!(f, "{self}: {NO_SETTINGS}")
            }
            _ => write!(f, "{self}"),
        }
    }
}

impl From<AllocError> for SettingsError {
    ghost use Rattle.std.specs.Prelude.{◌≡◌};
    ghost use Rattle.syntect_base.specs.declared.loading.SettingsError.TheVariants.{Memory};

    ghost from_gives = { λ _ e. e ≡ Memory };

    fn from(_e: AllocError) -> SettingsError {
        SettingsError::Memory
    }
}

impl<T: Drop> From<AllocFailed<T>> for SettingsError {
    ghost use Rattle.std.specs.Prelude.{◌≡◌};
    ghost use Rattle.syntect_base.specs.declared.loading.SettingsError.TheVariants.{Memory};

    ghost from_gives = { λ _ e. e ≡ Memory };

    fn from(_e: AllocFailed<T>) -> SettingsError {
        SettingsError::Memory
    }
}

impl From<AllocError> for LoadingError {
    ghost use Rattle.std.specs.Prelude.{◌≡◌};
    ghost use Rattle.syntect_base.specs.declared.loading.LoadingError.TheVariants.{Memory};

    ghost from_gives = { λ _ e. e ≡ Memory };

    fn from(_e: AllocError) -> LoadingError {
        LoadingError::Memory
    }
}

impl<T: Drop> From<AllocFailed<T>> for LoadingError {
    ghost use Rattle.std.specs.Prelude.{◌≡◌};
    ghost use Rattle.syntect_base.specs.declared.loading.LoadingError.TheVariants.{Memory};

    ghost from_gives = { λ _ e. e ≡ Memory };

    fn from(_e: AllocFailed<T>) -> LoadingError {
        LoadingError::Memory
    }
}

/// A fault that is lack of memory is passed on as such.
impl From<io::Error> for LoadingError {
    ghost use Rattle.syntect_base.specs.Refusals.{IsReadFault};

    ghost from_gives = { λ e r. IsReadFault e r };

    fn from(e: io::Error) -> LoadingError {
        if e.kind() == ErrorKind::OutOfMemory {
            LoadingError::Memory
        } else {
            LoadingError::Io(e)
        }
    }
}

/// Lack of memory is passed on as such.
impl From<ParseThemeError> for LoadingError {
    ghost use Rattle.std.specs.Prelude.{◌≡◌};
    ghost use Rattle.syntect_base.specs.Refusals.{from_theme};

    ghost from_gives = { λ e r. r ≡ from_theme e };

    fn from(e: ParseThemeError) -> LoadingError {
        match e {
            ParseThemeError::Memory => LoadingError::Memory,
            e => LoadingError::ParseTheme(e),
        }
    }
}

/// Lack of memory is passed on as such.
impl From<SettingsError> for LoadingError {
    ghost use Rattle.std.specs.Prelude.{◌≡◌};
    ghost use Rattle.syntect_base.specs.Refusals.{from_settings};

    ghost from_gives = { λ e r. r ≡ from_settings e };

    fn from(e: SettingsError) -> LoadingError {
        match e {
            SettingsError::Memory => LoadingError::Memory,
            e => LoadingError::ReadSettings(e),
        }
    }
}

/// A value that isn't read as metadata. Lack of memory is passed on as such.
impl From<serde_json::Error> for LoadingError {
    ghost use Rattle.syntect_base.specs.Refusals.{IsMetadataFault};

    ghost from_gives = { λ e r. IsMetadataFault e r };

    fn from(e: serde_json::Error) -> LoadingError {
        if e.is_memory() {
            LoadingError::Memory
        } else {
            LoadingError::ParseMetadata
        }
    }
}
