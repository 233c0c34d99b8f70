//! The tests that read nothing.

/// A place where nothing is read.
#[derive(Clone, Copy, Debug, PartialEq, Eq)]
pub enum Anchor {
    /// The text's start, and after a newline that isn't last.
    LineStart,
    /// The text's end, and before a newline.
    LineEnd,
    /// The text's start alone.
    TextStart,
    /// The text's end alone.
    TextEnd,
    /// The text's end, and before a newline that is last.
    LastLineEnd,
    /// Between a character of a word and one of none, or an edge.
    WordEdge,
    /// Where no word begins or ends.
    NoWordEdge,
}
