//! The match that a turn takes.
ghost use Rattle.std.specs.Prelude.{◌≤◌, length, IsUtf8};
ghost use Rattle.std.proofs.Props.{props};
ghost use Rattle.syntect_parsing.specs.syntect_grammar_contexts.Substitution.{AreOnBoundaries};

use crate::below::grammar::syntax_set::SyntaxSet;
use crate::below::regexes::region::Region;
use std::alloc::Global;
use syntect_reading_choice::search::Candidate;

/// A match that a turn takes: the set that it was found with, the line that it stands in, and its
/// groups, which stand on boundaries of the line's characters.
#[derive(Clone, Copy)]
pub struct Taken<'s, 't> {
    pub alloc: Global,
    pub set: &'t SyntaxSet,
    pub line: &'t str,
    pub candidate: &'t Candidate<'s>,
    pub region: &'t Region,
    pub ghost text: { IsUtf8 line.now } by { Prim.hlevel props },
    pub ghost ordered: { candidate.now.start ≤ candidate.now.end },
    pub ghost within: { candidate.now.end ≤ length line.now },
    pub ghost on_boundaries: { AreOnBoundaries line.now region.now },
}
