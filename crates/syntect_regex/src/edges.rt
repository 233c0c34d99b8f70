//! Patterns whose matches begin where a word does, or ends, or where a line does.
ghost use Rattle.std.specs.Prelude.{◌≡◌, true, slice_index_or};
ghost use Rattle.syntect_regex.specs.syntect_pattern.Trees.{nothing};
ghost use Rattle.syntect_regex.specs.syntect_pattern_table.Program.{trees_of};
ghost use Rattle.syntect_regex.specs.Begins.{IsAtEdges, IsAtLines};

use crate::below::pattern::anchor::Anchor;
use crate::below::pattern_steps::first::first_part;
use crate::below::pattern_table::node::Node;
use crate::below::pattern_table::program::Program;

/// Whether a match of the program is seen to begin with `\b`.
pub(crate) fn is_at_edges(program: &Program) -> bool
    ensures { result ≡ true
        → IsAtEdges (slice_index_or (trees_of program.now) program.now.root nothing) }
{
    matches!(
        first_part(program, program.root),
        Some(Node::Anchor(Anchor::WordEdge))
    )
}

/// Into how many branches in one another it is looked.
const BRANCHES: u32 = 4;

/// Whether a match of the node is seen to begin with `^` or `\A`, each branch of it.
fn begins_lines(program: &Program, node: usize, looks: u32) -> bool
    ensures { result ≡ true
        → IsAtLines (slice_index_or (trees_of program.now) node nothing) }
{
    if looks == 0 {
        return false;
    }
    match first_part(program, node) {
        Some(Node::Anchor(Anchor::LineStart | Anchor::TextStart)) => true,
        Some(Node::Alternation(first, second)) => {
            begins_lines(program, *first, looks - 1) && begins_lines(program, *second, looks - 1)
        }
        _ => false,
    }
}

/// Whether a match of the program is seen to begin with `^` or `\A`.
pub(crate) fn is_at_lines(program: &Program) -> bool
    ensures { result ≡ true
        → IsAtLines (slice_index_or (trees_of program.now) program.now.root nothing) }
{
    begins_lines(program, program.root, BRANCHES)
}
