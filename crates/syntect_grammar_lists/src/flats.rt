//! The patterns of a context's walk, each with what decides whether a search for it is worth while.
use crate::below::pattern_table::starts::Places;
use syntect_grammar_contexts::context::ContextId;

/// A pattern of a context's walk.
#[derive(Clone, Copy)]
pub struct Flat {
    /// What can stand at a place where a match of it begins.
    pub begins: Places,
    /// What can come after a word in which a match of it begins.
    pub words: Places,
    /// What can come after white space in which one does.
    pub blanks: Places,
    /// Whether it is known that its matches begin only where a word begins or ends.
    pub at_edges: bool,
    /// Whether it is known that its matches begin only where a line begins.
    pub at_lines: bool,
    /// The context that holds it.
    pub context: ContextId,
    /// Its index among that context's entries.
    pub index: usize,
    /// Whether it has back references into the match that opened its context.
    pub has_captures: bool,
}

/// Where a pattern of a walk stands.
#[derive(Clone, Copy)]
pub struct Origin {
    /// The context that holds it.
    pub context: ContextId,
    /// Its index among that context's entries.
    pub index: usize,
}

/// What is seen of a place.
#[derive(Clone, Copy)]
pub struct Outlook {
    /// What stands there: an ASCII character, 128 for any other one, or 129 for the end.
    pub here: u8,
    /// Whether white space stands there, as far as that was looked at: it is only where a pattern
    /// asks for it.
    pub blank: bool,
    /// What comes after the white space, or else the word's characters that stand there, which may
    /// be none.
    pub behind: u8,
    /// Whether it is known that no word begins or ends there.
    pub off_edges: bool,
    /// Whether it is known that no line begins there.
    pub off_lines: bool,
}
