//! How much a grammar may ask for while it is loaded, and what is answered where it asks for more.
ghost use Rattle.std.specs.Prelude.{◌≡◌};
ghost use Rattle.syntect_base.specs.Limiting.{unlimited, usual};

use crate::syntax::ParseSyntaxError;
use crate::syntect_values::text::Text;
use std::alloc::{AllocError, AllocFailed};
use std::fmt;
use thiserror::Error;

/// How much a grammar may ask for, as it is loaded and as a line is read by it.
/// `usize::MAX` is no limit.
///
/// There may be more limits in later versions: `Limits { pattern: 4096, ..Limits::default() }`
/// stays as it is then.
#[derive(Clone, Copy, Debug, PartialEq, Eq)]
pub struct Limits {
    /// How many bytes a grammar's text has at most.
    pub text: usize,
    /// How many bytes a pattern has at most with its variables expanded, each use of a variable
    /// that is come to for that counted as 64 bytes more.
    pub pattern: usize,
    /// How many bytes all patterns of a grammar have together at most, counted as those of one
    /// pattern are.
    pub patterns: usize,
    /// How many bytes the texts of all grammars of a folder have together at most. A grammar that
    /// is loaded by itself is not counted here.
    pub folder: usize,
    /// How many steps the searches of one line make together at most.
    pub steps: usize,
    /// How many turns one line takes at most.
    pub turns: usize,
    /// How many contexts are open at most, before each turn of a line and after its last.
    pub levels: usize,
    /// How many operations on the stack of scopes one line has at most, before each turn and after
    /// its last.
    pub operations: usize,
}

impl Limits {
    /// No limits.
    pub fn unlimited() -> Limits
        ensures { result ≡ unlimited }
    {
        Limits {
            text: usize::MAX,
            pattern: usize::MAX,
            patterns: usize::MAX,
            folder: usize::MAX,
            steps: usize::MAX,
            turns: usize::MAX,
            levels: usize::MAX,
            operations: usize::MAX,
        }
    }
}

/// A hundred times what the greatest of 75 grammars in use asks for, and for a folder what all of
/// them do; of all patterns forty times, since one of their bytes may take fifty of memory, and of
/// open contexts seven, since each turn goes through them.
impl Default for Limits {
    ghost is_default = { λ l. l ≡ usual };

    fn default() -> Limits {
        Limits {
            text: 12_500_000,
            pattern: 3_000_000,
            patterns: 4_000_000,
            folder: 200_000_000,
            steps: 30_000_000,
            turns: 1_000_000,
            levels: 200,
            operations: 1_000_000,
        }
    }
}

/// A pattern of a grammar, and where it stands.
#[derive(Debug, Drop, PartialEq, Eq)]
pub struct PatternPlace {
    /// The name of the context, one of those at the grammar's `contexts`, that has it in one of its
    /// items, be it within contexts there.
    pub context: Text,
    /// The number of that item, from 0.
    pub item: usize,
    /// The pattern's text before its variables are expanded.
    pub pattern: Text,
}

impl fmt::Display for PatternPlace {
    fn fmt<W: fmt::Write>(&self, f: &mut fmt::Formatter<W>) -> fmt::Result {
        let PatternPlace {
            context,
            item,
            pattern,
        } = self;
        write!(f, "'{pattern}' in item {item} of context '{context}'")
    }
}

/// Which limit a grammar would pass, and where.
#[derive(Debug, Drop, PartialEq, Eq, Error)]
pub enum LimitReached {
    /// The grammar's text has more bytes than `Limits::text`.
    #[error("The text has too many bytes")]
    Text,
    /// A pattern has more bytes than `Limits::pattern`, counted as is said there.
    #[error("Too many bytes in the pattern {0}")]
    Pattern(PatternPlace),
    /// The patterns up to this one have more bytes together than `Limits::patterns`.
    #[error("Too many bytes in the patterns up to {0}")]
    Patterns(PatternPlace),
    /// With this grammar's text those of the folder have more bytes together than `Limits::folder`.
    /// Only where a folder is added.
    #[error("Too many bytes in the grammars of the folder")]
    Folder,
}

/// Why a grammar was not loaded within limits.
#[derive(Debug, Drop, PartialEq, Eq, Error)]
pub enum LoadWithinError {
    /// Its text is no grammar, or there was no memory.
    #[error("{0}")]
    Refused(ParseSyntaxError),
    /// The grammar would pass a limit.
    #[error("{0}")]
    LimitReached(LimitReached),
}

impl From<AllocError> for LoadWithinError {
    ghost use Rattle.std.specs.Prelude.{◌≡◌};
    ghost use Rattle.syntect_base.specs.declared.limits.LoadWithinError.TheVariants.{Refused};
    ghost use Rattle.syntect_base.specs.declared.syntax.ParseSyntaxError.TheVariants.{Memory};

    ghost from_gives = { λ _ e. e ≡ Refused Memory };

    fn from(_e: AllocError) -> LoadWithinError {
        LoadWithinError::Refused(ParseSyntaxError::Memory)
    }
}
