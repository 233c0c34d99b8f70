//! How often a text is gone through for lookbehinds, before places are marked.
ghost use Rattle.std.specs.Prelude.{◌≡◌, ◌+◌, ℕ, IfOk, List, false, slice_index_or};
ghost use Rattle.syntect_pattern_plan.specs.syntect_pattern.Trees.{Tree, nothing};
ghost use Rattle.syntect_pattern_plan.specs.syntect_pattern_table.Program.{trees_of};
ghost use Rattle.syntect_pattern_plan.specs.syntect_pattern_table.Table.{AreSpelt, is_text, node_tree, trees};
ghost use Rattle.syntect_pattern_plan.specs.Order.{AreSizes, in_64_bits};
ghost use Rattle.syntect_pattern_plan.specs.Passes.{ArePasses};
ghost use Rattle.syntect_pattern_plan.specs.Passes as spec;

use crate::order::{node_size, number_at, size_at};
use crate::syntect_pattern_table::node::Node;
use crate::syntect_pattern_table::program::Program;
use std::alloc::{AllocError, Global};

/// How many passes two parts take, by those of each, at most the largest number.
#[tactic(auto, unfolding(crate::specs::Order::in_64_bits))]
fn sum_of(first: usize, second: usize) -> usize
    ensures { (a b : ℕ) → first ≡ in_64_bits a → second ≡ in_64_bits b
        → result ≡ in_64_bits (a + b) }
{
    first.saturating_add(second)
}

/// How many passes the lookbehinds of a node take, by the sizes of the nodes before it
/// and by their passes.
#[tactic(auto, unfolding(crate::specs::Order::in_64_bits))]
fn node_passes(node: &Node, sizes: &[usize], before: &[usize]) -> usize
    ensures { (ts : List Tree) → AreSizes sizes.now ts → ArePasses before.now ts
        → is_text node.now ≡ false → result ≡ in_64_bits (spec.passes (node_tree ts node.now)) }
{
    match node {
        Node::Sequence(first, second) | Node::Alternation(first, second) => {
            sum_of(number_at(before, *first), number_at(before, *second))
        }
        Node::Repeat { body, .. } | Node::Group { body, .. } => number_at(before, *body),
        Node::Atomic(body) | Node::Ahead { body, .. } => number_at(before, *body),
        Node::Behind { body, .. } => size_at(sizes, *body),
        Node::Nothing | Node::Char(_) | Node::Class(_) | Node::Anchor(_) => 0,
        Node::Same { .. } | Node::Text { .. } => 0,
    }
}

/// How many passes over a text the lookbehinds of a program take, none of whose nodes holds letters
/// in a row: one for each node of what they look for.
pub fn passes_of(alloc: Global, program: &Program) -> Result<usize, AllocError>
    requires { AreSpelt program.now.nodes }
    ensures { IfOk result (λ n. n
        ≡ in_64_bits
        (spec.passes (slice_index_or (trees_of program.now) program.now.root nothing))) }
{
    let mut sizes = Vec::new(alloc);
    let mut passes = Vec::new(alloc);
    for node in program.nodes.as_slice() {
        let size = node_size(node, sizes.as_slice());
        let more = node_passes(node, sizes.as_slice(), passes.as_slice());
        sizes.push(size)?;
        passes.push(more)?;
    }
    Ok(number_at(passes.as_slice(), program.root))
}
