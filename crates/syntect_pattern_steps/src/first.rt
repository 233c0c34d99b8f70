//! What matches of a node begin with.
ghost use Rattle.std.specs.Prelude.{IfSome, slice_index_or};
ghost use Rattle.syntect_pattern.specs.Trees.{nothing};
ghost use Rattle.syntect_pattern_table.specs.Program.{trees_of};
ghost use Rattle.syntect_pattern_table.specs.Table.{node_tree};
ghost use Rattle.syntect_pattern_steps.specs.First.{BeginsWith};

use syntect_pattern_table::node::Node;
use syntect_pattern_table::program::Program;

/// How many parts are looked into.
const LOOKS: u32 = 8;

/// The first part of the node, or the first part of that, and so on, that is no sequence, no group
/// and nothing that is looked for ahead; `None` where it isn't among the first eight.
pub fn first_part(program: &Program, node: usize) -> Option<&Node>
    ensures { IfSome result (λ part. BeginsWith (node_tree (trees_of program.now) part.now)
        (slice_index_or (trees_of program.now) node nothing)) }
{
    let mut first = node;
    for _ in 0..LOOKS {
        let found = program.node(first)?;
        first = match found {
            Node::Sequence(first, _) => *first,
            Node::Group { number: _, body } => *body,
            Node::Atomic(body) => *body,
            Node::Ahead {
                negated: false,
                body,
            } => *body,
            _ => return Some(found),
        };
    }
    None
}
