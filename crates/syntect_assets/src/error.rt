//! Why a text isn't shown.
ghost use Rattle.std.specs.Prelude.{◌≡◌};
ghost use Rattle.syntect_assets.specs.Assets.{not_shown};

use std::alloc::{AllocError, AllocFailed};
use std::{fmt, io};
use syntect_easy::Error;
use thiserror::Error as ThisError;

/// Why a text isn't shown, or grammars and themes aren't loaded, in words for people.
#[derive(Drop, ThisError)]
pub enum AssetsError {
    /// A folder, a grammar or a theme isn't loaded. The text names the file, and the line and
    /// column where they are known.
    #[error("{0}")]
    NotLoaded(String),
    /// No syntax has the name that stands first; those that there are stand after it.
    #[error("no language is called '{0}'; there are: {1}")]
    UnknownLanguage(String, String),
    /// No theme has the name that stands first; those that there are stand after it.
    #[error("no theme is called '{0}'; there are: {1}")]
    UnknownTheme(String, String),
    /// A file isn't read, or isn't UTF-8. The text names it.
    #[error("{0}")]
    NotRead(String),
    /// A text isn't shown: a line is refused, or no syntax fits.
    #[error("{0}")]
    NotShown(Error),
    /// There was no memory.
    #[error("out of memory")]
    Memory,
}

/// The message: `main` shows it of an error that it answers.
impl fmt::Debug for AssetsError {
    fn fmt<W: fmt::Write>(&self, f: &mut fmt::Formatter<W>) -> fmt::Result {
        match self {
            AssetsError::NotShown(e) => write!(f, "{e:?}"),
            _ => write!(f, "{self}"),
        }
    }
}

impl From<AllocError> for AssetsError {
    ghost use Rattle.syntect_assets.specs.declared.error.AssetsError.TheVariants.{Memory};

    ghost from_gives = { λ _ e. e ≡ Memory };

    fn from(_e: AllocError) -> AssetsError {
        AssetsError::Memory
    }
}

impl<T: Drop> From<AllocFailed<T>> for AssetsError {
    ghost use Rattle.syntect_assets.specs.declared.error.AssetsError.TheVariants.{Memory};

    ghost from_gives = { λ _ e. e ≡ Memory };

    fn from(_e: AllocFailed<T>) -> AssetsError {
        AssetsError::Memory
    }
}

impl From<Error> for AssetsError {
    ghost from_gives = { λ e r. r ≡ not_shown e };

    fn from(e: Error) -> AssetsError {
        match e {
            Error::Memory => AssetsError::Memory,
            e => AssetsError::NotShown(e),
        }
    }
}

impl From<io::Error> for AssetsError {
    fn from(e: io::Error) -> AssetsError {
        AssetsError::from(Error::from(e))
    }
}
