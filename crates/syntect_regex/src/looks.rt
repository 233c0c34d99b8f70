//! Which groups of a tree stand in lookarounds, found in one walk from the root.
ghost use Rattle.std.specs.Prelude.{◌≡◌, ◌<◌, ◌≤◌, ℕ, suc, IfOk, OnOk, None, Some, length, replicate, slice_index_or, true};
ghost use Rattle.syntect_regex.specs.syntect_pattern_table.Table.{IsOrdered, parts_before, trees};
ghost use Rattle.syntect_regex.specs.Looks as spec;
ghost use Rattle.syntect_regex.specs.Looks.{AreLooks, NoGroupBefore, marked, met_before, own_mark, passed_on};

use crate::below::pattern_table::node::Node;
use crate::below::pattern_table::program::Program;
use crate::below::values::seq::Seq;
use std::alloc::{AllocError, Global};

/// The mark, and that it was met so. A mark tells whether a node or a group was met, and if so
/// whether within a lookaround.
fn joined(mark: Option<bool>, within: bool) -> Option<bool>
    ensures { result ≡ spec.joined mark (Some within) }
{
    match mark {
        Some(other) => Some(other | within),
        None => Some(within),
    }
}

/// The mark at the place, which is none past the end.
fn mark_at(marks: &[Option<bool>], place: usize) -> Option<bool>
    ensures { result ≡ slice_index_or marks.now place None }
{
    marks.get(place).copied().unwrap_or(None)
}

/// What the place marks was met so.
fn mark(marks: &mut Vec<Option<bool>>, place: usize, within: bool)
    requires { place < length marks.old.items }
    ensures { marks.new.items ≡ marked marks.old.items place within }
{
    marks[place] = joined(marks[place], within);
}

/// The node was met so: its parts were too, and within a lookaround if it is one.
fn mark_parts(marks: &mut Vec<Option<bool>>, node: &Node, within: bool)
    requires { parts_before (length marks.old.items) node.now ≡ true }
    ensures { marks.new.items ≡ passed_on marks.old.items within node.now }
{
    match node {
        Node::Text { letters: _, rest } => mark(marks, *rest, within),
        Node::Sequence(first, second) => {
            mark(marks, *first, within);
            mark(marks, *second, within);
        }
        Node::Alternation(first, second) => {
            mark(marks, *first, within);
            mark(marks, *second, within);
        }
        Node::Repeat { body, .. } => mark(marks, *body, within),
        Node::Group { number: _, body } => mark(marks, *body, within),
        Node::Atomic(body) => mark(marks, *body, within),
        Node::Ahead { negated: _, body } => mark(marks, *body, true),
        Node::Behind { negated: _, body } => mark(marks, *body, true),
        _ => {}
    }
}

/// Places for marks of groups up to the one of this number.
fn make_room(looks: &mut Vec<Option<bool>>, number: usize) -> Result<(), AllocError>
    ensures room { OnOk result (number < length looks.new.items) }
    ensures kept { OnOk result ((n : ℕ) → slice_index_or looks.new.items n None
        ≡ slice_index_or looks.old.items n None) }
{
    while looks.len() <= number {
        looks.push(None)?;
    }
    Ok(())
}

/// The node was met so: if it is a group, its group was.
fn mark_group(looks: &mut Vec<Option<bool>>, node: &Node, within: bool) -> Result<(), AllocError>
    ensures { OnOk result ((n : ℕ) → slice_index_or looks.new.items n None
        ≡ spec.joined (slice_index_or looks.old.items n None) (own_mark within node.now n)) }
{
    let Node::Group { number, body: _ } = node else {
        return Ok(());
    };
    make_room(looks, *number)?;
    mark(looks, *number, within);
    Ok(())
}

/// Passes the mark of the node at the place on to its parts, and to its group if it is one.
fn pass_on(
    nodes: &[Node],
    place: usize,
    marks: &mut Vec<Option<bool>>,
    looks: &mut Vec<Option<bool>>,
) -> Result<(), AllocError>
    requires ordered { IsOrdered nodes.now }
    requires inside { place < length nodes.now }
    requires room { place < length marks.old.items }
    ensures count { OnOk result (length marks.new.items ≡ length marks.old.items) }
    ensures passed { OnOk result ((n : ℕ) → spec.joined (slice_index_or looks.new.items n None)
        (met_before marks.new.items (trees nodes.now) place n)
        ≡ spec.joined (slice_index_or looks.old.items n None)
        (met_before marks.old.items (trees nodes.now) (suc place) n)) }
{
    let Some(within) = mark_at(marks.as_slice(), place) else {
        return Ok(());
    };
    let node = &nodes[place];
    mark_group(looks, node, within)?;
    mark_parts(marks, node, within);
    Ok(())
}

/// A list of so many marks, none of which is set yet.
fn unmarked(alloc: Global, count: usize) -> Result<Vec<Option<bool>>, AllocError>
    ensures { IfOk result (λ marks. marks.items ≡ replicate count None) }
{
    let mut marks = Vec::new(alloc);
    marks.resize(count, None)?;
    Ok(marks)
}

/// Whether the node is a group.
fn is_group(node: &Node) -> bool
    ensures { result ≡ spec.is_group node.now }
{
    match node {
        Node::Group { number: _, body: _ } => true,
        _ => false,
    }
}

/// The place of the first group, or of the root where no group stands before it.
fn first_group(nodes: &[Node], root: usize) -> usize
    requires { root < length nodes.now }
    ensures inside { result ≤ root }
    ensures first { NoGroupBefore nodes.now result }
{
    let mut place = 0;
    while place < root && !is_group(&nodes[place]) {
        place += 1;
    }
    place
}

/// Of each group whether it stands in a lookaround, and none of what is no group. Each node comes
/// after its parts, so one walk from the root to the first group meets each of them after all nodes
/// that it is a part of. Of many patterns the root is the only group, and none is met.
fn looks_of(
    alloc: Global,
    nodes: &[Node],
    root: usize,
    groups: usize,
) -> Result<Seq<Option<bool>>, AllocError>
    requires ordered { IsOrdered nodes.now }
    requires inside { root < length nodes.now }
    ensures { IfOk result (λ looks. AreLooks nodes.now root looks) }
{
    let mut looks = unmarked(alloc, groups)?;
    let first = first_group(nodes, root);
    if first == root {
        return Ok(Seq::from_vec(looks));
    }
    let mut marks = unmarked(alloc, root + 1)?;
    mark(&mut marks, root, false);
    let mut place = root + 1;
    while place > first {
        place -= 1;
        pass_on(nodes, place, &mut marks, &mut looks)?;
    }
    Ok(Seq::from_vec(looks))
}

/// Of each group of a program whether it stands in a lookaround. Nothing is kept of a program that
/// has no group but the whole match.
pub(crate) fn looks_in(alloc: Global, program: &Program) -> Result<Seq<Option<bool>>, AllocError>
    ensures { IfOk result (λ looks. AreLooks program.now.nodes program.now.root looks) }
{
    let nodes = program.nodes.as_slice();
    if program.root >= nodes.len() {
        return Ok(Seq::new(alloc));
    }
    let mut looks = looks_of(alloc, nodes, program.root, program.groups)?;
    if looks.len() < 2 {
        return Ok(Seq::new(alloc));
    }
    looks.shrink_to_fit();
    Ok(looks)
}
