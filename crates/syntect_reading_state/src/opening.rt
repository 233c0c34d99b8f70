//! The match that opened a level.
ghost use Rattle.std.specs.Prelude.{◌≡◌, ◌≤◌, ◌<◌, length, string_bytes, IfNone, IfOk, IfSome};
ghost use Rattle.std.specs.Cmp.{partial_equiv_from_equiv};
ghost use Rattle.syntect_reading_state.specs.syntect_grammar_contexts.Substitution.{AreOnBoundaries, substituted};
ghost use Rattle.syntect_reading_state.specs.Openings.{same_opening, same_opening-equiv};

use crate::below::regexes::region::Region;
use crate::below::values::text::Text;
use std::alloc::{AllocError, Global};
use std::marker::Model;
use syntect_grammar::syntax_definition::MatchPattern;

/// The match that opened a level: where its groups stand, and its line.
#[derive(Drop)]
pub struct Opening {
    region: Region,
    line: Text,
}

impl Model for Opening {
    ghost use Rattle.syntect_reading_state.specs.syntect_grammar_contexts.Substitution as substitution;

    ghost Value = { substitution.Opening };

    ghost view = { λ o. record { region = o.region; line = o.line } };

    ghost invariant = { λ o. substitution.AreOnBoundaries o.line o.region };
}

impl Opening {
    /// A match in a line. Takes no memory.
    pub fn new(region: Region, line: Text) -> Opening
        requires { AreOnBoundaries line region }
        ensures { result ≡ record { region = region; line = line } }
    {
        Opening { region, line }
    }

    /// A copy of the match.
    pub fn clone(&self, alloc: Global) -> Result<Opening, AllocError>
        ensures { IfOk result (λ o. o ≡ self.now) }
    {
        Ok(Opening {
            region: self.region.clone(alloc)?,
            line: self.line.clone()?,
        })
    }

    /// How many bytes the match's line has.
    pub fn line_len(&self) -> usize
        ensures { result ≡ length self.now.line }
    {
        self.line.len()
    }

    /// The text of a pattern with this match's groups for its back references, if it has at most so
    /// many bytes.
    pub fn text_within(
        &self,
        pattern: &MatchPattern,
        most: usize,
    ) -> Result<Option<String>, AllocError>
        ensures some { IfOk result (λ o. IfSome o (λ s.
            string_bytes s ≡ substituted pattern.now.regex self.now.region self.now.line)) }
        ensures few { IfOk result (λ o. IfSome o (λ s. length (string_bytes s) ≤ most)) }
        ensures none { IfOk result (λ o. IfNone o
            (most < length (substituted pattern.now.regex self.now.region self.now.line))) }
    {
        pattern.text_with_refs(&self.region, self.line.as_str(), most)
    }
}

impl PartialEq for Opening {
    ghost eq = { same_opening };

    ghost laws = { partial_equiv_from_equiv same_opening-equiv };

    fn eq(&self, other: &Opening) -> bool {
        self.region == other.region && self.line == other.line
    }
}

impl Eq for Opening {
    ghost laws = { same_opening-equiv };
}
