//! Where the reader of a line stands.
use crate::below::values::seq::Seq;
use crate::levels::Levels;

/// The number of open levels at which a push is passed over.
pub const MOST_LEVELS: usize = 100;

/// The greatest number of empty pushes and sets at one place.
pub const MOST_IDLE: usize = 1000;

/// The last empty push of a line: where it was, and how many levels there were before it, and one.
#[derive(Clone, Copy, Debug, PartialEq, Eq)]
pub struct Record {
    pub place: usize,
    pub height: usize,
}

/// What a turn begins with. `idle` counts the empty pushes and sets since the place was reached.
#[derive(Drop)]
pub struct Position {
    pub levels: Levels,
    pub cuts: Seq<usize>,
    pub place: usize,
    pub last: Option<Record>,
    pub idle: usize,
}
