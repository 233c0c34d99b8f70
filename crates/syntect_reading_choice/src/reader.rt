//! What a turn looks for its match with.
ghost use Rattle.std.specs.Prelude.{IsCharBoundary, IsUtf8};
ghost use Rattle.std.proofs.Props.{props};

use crate::below::grammar::syntax_set::SyntaxSet;
use crate::position::Position;
use std::alloc::Global;

/// A line that is being read, the set that it is read with, and where its reader stands: before a
/// character or at the end.
#[derive(Clone, Copy)]
pub struct LineReader<'s, 't> {
    pub alloc: Global,
    pub set: &'s SyntaxSet,
    pub line: &'t str,
    pub position: &'t Position,
    pub ghost text: { IsUtf8 line.now } by { Prim.hlevel props },
    pub ghost boundary: { IsCharBoundary line.now position.now.place },
}
