//! What can go wrong.
ghost use Rattle.std.specs.Prelude.{◌≡◌, IfOk, string_bytes};
ghost use Rattle.syntect_cat.specs.Faults.{plain_line, fault_line, fault_of, limit_text};

use crate::below::base::limits::LimitReached;
use crate::below::easy::Error;
use std::alloc::{AllocError, Global};

/// What is written where the words ask for nothing.
pub const USAGE: &str = "usage: syncat FOLDER THEME html|term FILE\n";

/// Why a text is not shown. Lack of memory is the fault of the step that it came in.
#[derive(Debug, Drop, PartialEq, Eq)]
pub enum Fault {
    /// The folder was not read, or a grammar in it is none.
    Syntaxes,
    /// The grammar in the folder whose path stands second would pass a limit.
    Limit(LimitReached, String),
    /// The theme was not read, or is none.
    Theme,
    /// The file was not read, or is no UTF-8.
    File,
    /// A line of the file was refused.
    Highlighting,
    /// The text was not written.
    Writing,
}

impl Fault {
    /// The line that tells of it, without what a limit says.
    pub fn plain_line(&self) -> &'static str
        ensures { result.now ≡ plain_line self.now }
    {
        match self {
            Fault::Syntaxes | Fault::Limit(..) => "syncat: cannot load syntaxes\n",
            Fault::Theme => "syncat: cannot load theme\n",
            Fault::File => "syncat: cannot read file\n",
            Fault::Highlighting => "syncat: cannot highlight\n",
            Fault::Writing => "syncat: cannot write\n",
        }
    }

    /// The line that tells of it.
    pub fn line(&self, alloc: Global) -> Result<String, AllocError>
        ensures { IfOk result (λ s. string_bytes s ≡ fault_line self.now) }
    {
        match self {
            Fault::Limit(reached, path) => {
                let told = limit_text(alloc, reached)?;
                format!(in alloc; "syncat: cannot load syntaxes: {path}: {told}\n")
            }
            _ => String::from_str(alloc, self.plain_line()),
        }
    }
}

/// What a limit says that is reached: which it is, and where.
fn limit_text(alloc: Global, reached: &LimitReached) -> Result<String, AllocError>
    ensures { IfOk result (λ s. string_bytes s ≡ limit_text reached.now) }
{
    match reached {
        LimitReached::Text => String::from_str(alloc, "too many bytes in the text"),
        LimitReached::Pattern(place) => {
            let item = place.item;
            let context = place.context.as_str();
            format!(in alloc; "too many bytes in a pattern of item {item} of context '{context}'")
        }
        LimitReached::Patterns(place) => {
            let item = place.item;
            let context = place.context.as_str();
            format!(in alloc;
                "too many bytes in the patterns up to item {item} of context '{context}'"
            )
        }
        LimitReached::Folder => {
            String::from_str(alloc, "too many bytes in the grammars of the folder")
        }
    }
}

impl From<Error> for Fault {
    ghost from_gives = { λ e fault. fault ≡ fault_of e };

    fn from(e: Error) -> Fault {
        match e {
            Error::Io(_) => Fault::File,
            _ => Fault::Highlighting,
        }
    }
}
