//! What a pattern keeps.
ghost use Rattle.std.specs.Prelude.{◌≡◌};
ghost use Rattle.syntect_regex.specs.Body.{outline_in};

use crate::below::pattern_table::starts::Places;
use crate::compiled::Kept;
use crate::details::Details;
use crate::outline::Outline;

/// What a pattern keeps, in a place of its own: an entry of a context has room for a pattern also
/// where it holds none, and that room is to be small.
#[derive(Drop)]
pub(crate) struct RegexBody {
    /// What can stand where a match begins, part by part, which takes less room than `Places`.
    pub ascii: u128,
    pub text: String,
    pub kept: Kept,
    pub details: Details,
    pub wide: bool,
    pub end: bool,
    /// Whether a match is seen at once to begin where a word does, or ends.
    pub at_edges: bool,
    /// Whether a match is seen at once to begin where a line does.
    pub at_lines: bool,
}

impl RegexBody {
    /// What is kept of a pattern.
    pub(crate) fn new(text: String, kept: Kept, outline: Outline) -> RegexBody
        ensures text { result.text ≡ text }
        ensures kept { result.kept ≡ kept }
        ensures outline { outline_in result ≡ outline }
    {
        let Outline {
            begins,
            at_edges,
            at_lines,
            details,
        } = outline;
        RegexBody {
            ascii: begins.ascii,
            text,
            kept,
            details,
            wide: begins.wide,
            end: begins.end,
            at_edges,
            at_lines,
        }
    }

    /// What can stand at a place where a match begins.
    pub(crate) fn begins(&self) -> Places
        ensures { result ≡ (outline_in self.now).begins }
    {
        Places {
            ascii: self.ascii,
            wide: self.wide,
            end: self.end,
        }
    }
}
