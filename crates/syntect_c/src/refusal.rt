//! Why a call is refused, with a text that tells of it.
ghost use Rattle.std.specs.Prelude.{◌≡◌, ◌≢◌, pos};

use crate::kind::Kind;
use std::alloc::{AllocError, AllocFailed, Global};
use syntect_assets::below::base::limits::LoadWithinError;
use syntect_assets::below::base::loading::LoadingError;
use syntect_assets::below::base::syntax::ParseSyntaxError;
use syntect_assets::error::AssetsError;

/// Why a call is refused.
#[derive(Drop)]
pub struct Refusal {
    /// What for.
    pub kind: Kind,
    /// A text that tells of it, where there is more to tell than its kind.
    pub told: Option<String>,
}

impl From<AllocError> for Refusal {
    fn from(_e: AllocError) -> Refusal {
        Refusal::of(Kind::Memory)
    }
}

impl<T: Drop> From<AllocFailed<T>> for Refusal {
    fn from(_e: AllocFailed<T>) -> Refusal {
        Refusal::of(Kind::Memory)
    }
}

impl Refusal {
    /// A refusal of which no more is told than its kind.
    pub fn of(kind: Kind) -> Refusal {
        Refusal { kind, told: None }
    }

    /// A refusal with its text, or lack of memory where there was none for the text.
    fn told(kind: Kind, told: Result<String, AllocError>) -> Refusal {
        match told {
            Ok(told) => Refusal {
                kind,
                told: Some(told),
            },
            Err(_) => Refusal::of(Kind::Memory),
        }
    }

    /// Why a grammar isn't loaded, with the name of its file.
    pub fn of_grammar(alloc: Global, file: &str, e: &LoadWithinError) -> Refusal {
        let kind = match e {
            LoadWithinError::Refused(ParseSyntaxError::Memory) => {
                return Refusal::of(Kind::Memory);
            }
            LoadWithinError::Refused(_) => Kind::Grammar,
            LoadWithinError::LimitReached(_) => Kind::Limit,
        };
        Refusal::told(kind, format!(in alloc; "{file}: {e}"))
    }

    /// Why a theme isn't loaded, with its name.
    pub fn of_theme(alloc: Global, name: &str, e: &LoadingError) -> Refusal {
        if let LoadingError::Memory = e {
            return Refusal::of(Kind::Memory);
        }
        Refusal::told(Kind::Theme, format!(in alloc; "{name}: {e:?}"))
    }

    /// Why a text isn't shown.
    pub fn of_assets(alloc: Global, e: &AssetsError) -> Refusal {
        let kind = match e {
            AssetsError::Memory => return Refusal::of(Kind::Memory),
            AssetsError::UnknownLanguage(..) => Kind::Language,
            AssetsError::UnknownTheme(..) => Kind::ThemeName,
            AssetsError::NotRead(_) => Kind::Text,
            AssetsError::NotLoaded(_) => Kind::Grammar,
            AssetsError::NotShown(_) => Kind::Line,
        };
        Refusal::told(kind, format!(in alloc; "{e}"))
    }

    /// The number that C gets, and the text, which is empty where there is no memory for it.
    pub fn into_told(self, alloc: Global) -> (i32, String)
        ensures { result.0 ≢ pos 0 }
    {
        let Refusal { kind, told } = self;
        let told = match told {
            Some(told) => told,
            None => match String::from_str(alloc, kind.words()) {
                Ok(words) => words,
                Err(_) => String::new(alloc),
            },
        };
        (kind.number(), told)
    }
}
