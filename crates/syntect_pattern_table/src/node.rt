//! The tree of a pattern as a table of nodes, each of which comes after its parts.
pub use crate::sets::Class;
pub use syntect_pattern::anchor::Anchor;
pub use syntect_pattern::letters::Letters;

/// A node of a tree. A part is given by its place in the table.
#[derive(Debug, Drop)]
pub enum Node {
    /// Reads nothing.
    Nothing,
    /// A single character.
    Char(char),
    /// One character of the class.
    Class(Class),
    /// Reads nothing, where the anchor holds.
    Anchor(Anchor),
    /// The text of the group again, with `fold` by simple folding.
    Same {
        fold: bool,
        group: usize,
    },
    /// The letters, one after the other, and then the part.
    Text {
        letters: Letters,
        rest: usize,
    },
    /// One part after the other.
    Sequence(usize, usize),
    /// One of two parts, of which the first is preferred.
    Alternation(usize, usize),
    /// Turns of the part, at least so many and at most so many, if there is a limit. A greedy loop
    /// prefers more.
    Repeat {
        greedy: bool,
        least: u32,
        most: Option<u32>,
        body: usize,
    },
    /// The group with the number.
    Group {
        number: usize,
        body: usize,
    },
    /// The part's first match alone.
    Atomic(usize),
    /// Reads nothing, where the part matches from here on, or with `negated` doesn't.
    Ahead {
        negated: bool,
        body: usize,
    },
    /// Reads nothing, where the part matches up to here, or with `negated` doesn't.
    Behind {
        negated: bool,
        body: usize,
    },
}
