//! What the calls are given, besides the set and the theme of the crates below.
use std::alloc::Global;
use syntect_easy::parsing::{ParseState, SyntaxSet};

/// A line of the grammar.
pub const LINE: &str = "a \"b\" <<q # c\n";

/// The state before the first line.
pub fn state_of(alloc: Global, set: &SyntaxSet) -> Option<ParseState> {
    let syntax = set.syntaxes().first()?;
    ParseState::new(alloc, syntax).ok()
}
