//! The order in which the cells of a plan are gone through at a place.
//!
//! What a cell has to know at a place it learns from lower ones: the cells of its parts, and the
//! one that goes on at the place. With the lowest first, each is known when it is asked for, so
//! that calls lie in one another but one deep, however deep the pattern is. What is found does not
//! depend on the order.
ghost use Rattle.std.specs.Prelude.{◌≡◌, ◌+◌, ◌&&◌, ℕ, suc, nat_lt, if◌then◌else◌, [], IfOk, IsPermutation, IsSorted, List, false, length, slice_index_or};
ghost use Rattle.syntect_pattern_plan.specs.syntect_pattern.Trees.{Tree};
ghost use Rattle.syntect_pattern_plan.specs.syntect_pattern_table.Program.{trees_of};
ghost use Rattle.syntect_pattern_plan.specs.syntect_pattern_table.Table.{AreSpelt, is_text, node_tree, trees};
ghost use Rattle.syntect_pattern_plan.specs.Cells as spec;
ghost use Rattle.syntect_pattern_plan.specs.Cells.{heights_from, tree_size};
ghost use Rattle.syntect_pattern_plan.specs.Facts.{AreFacts};
ghost use Rattle.syntect_pattern_plan.specs.Order.{AreCapped, AreSizes, in_64_bits, levels};
ghost use Rattle.syntect_pattern_plan.specs.PlanOf.{IsPlanOf};

use crate::cells::{Cell, CellPart, cell_at};
use crate::facts::{Facts, facts_at};
use crate::plan::Plan;
use crate::syntect_pattern_table::node::Node;
use crate::syntect_pattern_table::program::Program;
use std::alloc::{AllocError, Global};

/// The number at the place.
pub(crate) fn number_at(numbers: &[usize], place: usize) -> usize
    ensures { result ≡ slice_index_or numbers.now place 0 }
{
    numbers.get(place).copied().unwrap_or(0)
}

/// The size of the node with the number.
pub(crate) fn size_at(sizes: &[usize], node: usize) -> usize
    ensures { result ≡ slice_index_or sizes.now node 1 }
{
    sizes.get(node).copied().unwrap_or(1)
}

/// How many nodes two parts have with the node that they are in.
#[tactic(auto, unfolding(crate::specs::Order::in_64_bits))]
fn size_of_two(first: usize, second: usize) -> usize
    ensures { (a b : ℕ) → first ≡ in_64_bits a → second ≡ in_64_bits b
        → result ≡ in_64_bits (suc (a + b)) }
{
    first.saturating_add(second).saturating_add(1)
}

/// The number with so many more.
#[tactic(auto, unfolding(crate::specs::Order::in_64_bits))]
fn larger(size: usize, more: usize) -> usize
    ensures { (a : ℕ) → size ≡ in_64_bits a → result ≡ in_64_bits (a + more) }
{
    size.saturating_add(more)
}

/// How many nodes a node has with those of its parts, and one more for a part that is matched on
/// its own.
#[tactic(auto, unfolding(crate::specs::Order::in_64_bits))]
pub(crate) fn node_size(node: &Node, before: &[usize]) -> usize
    ensures { (ts : List Tree) → AreSizes before.now ts → is_text node.now ≡ false
        → result ≡ in_64_bits (tree_size (node_tree ts node.now)) }
{
    match node {
        Node::Sequence(first, second) | Node::Alternation(first, second) => {
            size_of_two(size_at(before, *first), size_at(before, *second))
        }
        Node::Repeat { body, .. } | Node::Group { body, .. } | Node::Behind { body, .. } => {
            larger(size_at(before, *body), 1)
        }
        Node::Atomic(body) | Node::Ahead { body, .. } => larger(size_at(before, *body), 2),
        Node::Nothing | Node::Char(_) | Node::Class(_) | Node::Anchor(_) => 1,
        Node::Same { .. } | Node::Text { .. } => 1,
    }
}

/// Of each node, how many nodes it has with those of its parts, as `node_size` counts them.
fn sizes_of(alloc: Global, nodes: &[Node]) -> Result<Vec<usize>, AllocError>
    ensures { IfOk result (λ sizes. AreSpelt nodes.now → AreSizes sizes.items (trees nodes.now)) }
{
    let mut sizes = Vec::new(alloc);
    for node in nodes {
        let size = node_size(node, sizes.as_slice());
        sizes.push(size)?;
    }
    Ok(sizes)
}

/// How much can be gone through at one place of a part so large, before so much that goes
/// on at the place.
#[tactic(auto, unfolding(crate::specs::Order::in_64_bits))]
fn height_from(size: usize, reads: bool, rest: usize) -> usize
    ensures { (a b : ℕ) → size ≡ in_64_bits a → rest ≡ in_64_bits b
        → result ≡ in_64_bits (a + (if reads then 0 else b)) }
{
    if reads {
        return size;
    }
    size.saturating_add(rest)
}

/// Whether each match of a loop reads something, by whether each of its body does.
fn loop_reads(least: u32, reads: bool) -> bool
    ensures { result ≡ (nat_lt 0 least && reads) }
{
    least > 0 && reads
}

/// How much of the pattern can be gone through at one place from the cell on.
fn cell_height(cell: Cell, sizes: &[usize], facts: &[Facts], before: &[usize]) -> usize
    ensures { (ts : List Tree) (heights : List ℕ) → AreFacts facts.now ts → AreSizes sizes.now ts
        → AreCapped before.now heights → result ≡ in_64_bits (spec.cell_height ts heights cell) }
{
    let rest = number_at(before, cell.empty);
    match cell.item {
        CellPart::End => 0,
        CellPart::Node(node) => {
            let reads = facts_at(facts, node).reads;
            height_from(size_at(sizes, node), reads, rest)
        }
        CellPart::Turns {
            greedy: _,
            least,
            most: _,
            body,
        } => {
            let reads = loop_reads(least, facts_at(facts, body).reads);
            height_from(larger(size_at(sizes, body), 1), reads, rest)
        }
    }
}

/// Of each cell, how much of the pattern can be gone through at one place from it on.
fn heights_of(alloc: Global, plan: &Plan, sizes: &[usize]) -> Result<Vec<usize>, AllocError>
    ensures heights { IfOk result (λ heights. (ts : List Tree) → AreFacts plan.now.facts ts
        → AreSizes sizes.now ts → AreCapped heights.items (heights_from ts [] plan.now.cells)) }
    ensures long { IfOk result (λ heights. length heights.items ≡ length plan.now.cells) }
{
    let mut heights = Vec::new(alloc);
    for number in 0..plan.cells.len() {
        let cell = cell_at(plan.cells.as_slice(), number);
        let height = cell_height(cell, sizes, plan.facts.as_slice(), heights.as_slice());
        heights.push(height)?;
    }
    Ok(heights)
}

/// The cells, each after its height, the lowest first.
pub fn order_of(
    alloc: Global,
    program: &Program,
    plan: &Plan,
) -> Result<Vec<(usize, usize)>, AllocError>
    ensures all { IfOk result (λ order. IsPlanOf program.now plan.now
        → IsPermutation (levels (trees_of program.now) plan.now.cells (length plan.now.cells))
        order.items) }
    ensures ascends { IfOk result (λ order. IsSorted ⟦<(usize, usize) as Ord>⟧.cmp order.items) }
{
    let sizes = sizes_of(alloc, program.nodes.as_slice())?;
    let heights = heights_of(alloc, plan, sizes.as_slice())?;
    let mut order = Vec::new(alloc);
    for cell in 0..heights.len() {
        order.push((number_at(heights.as_slice(), cell), cell))?;
    }
    order.sort()?;
    Ok(order)
}

/// The cell that comes so late in the order.
pub fn cell_in(order: &[(usize, usize)], late: usize) -> usize {
    match order.get(late) {
        Some((_, cell)) => *cell,
        None => 0,
    }
}
