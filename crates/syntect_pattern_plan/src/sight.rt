//! Where matches end that begin in given places, of what lookbehinds look for.
ghost use Rattle.std.specs.Prelude.{◌≡◌, ◌||◌, ℕ, IfOk, IsCharBoundary, IsUtf8, List, slice_index_or, true, if◌then◌else◌};
ghost use Rattle.syntect_pattern_plan.specs.syntect_pattern.Trees.{Tree, nothing};
ghost use Rattle.syntect_pattern_plan.specs.syntect_pattern.Text as places;
ghost use Rattle.syntect_pattern_plan.specs.syntect_pattern_table.Program.{trees_of};
ghost use Rattle.syntect_pattern_plan.specs.syntect_pattern_table.Table.{AreSpelt, node_tree};
ghost use Rattle.syntect_pattern_plan.specs.Onward.{plain};
ghost use Rattle.syntect_pattern_plan.specs.PlanOf.{IsPlanOf};
ghost use Rattle.syntect_pattern_plan.specs.Sights.{AreBounds, AreSights, IsImage, flag_of, is_single, with_place, single_end};

use crate::facts::facts_at;
use crate::plan::Plan;
use crate::syntect_pattern_table::node::Node;
use crate::syntect_pattern_table::program::Program;
use crate::syntect_values::seq::Seq;
use std::alloc::{AllocError, Global};
use syntect_pattern_steps::anchor::anchor_holds;
use syntect_pattern_steps::past::{past_char, past_class};
use syntect_pattern_steps::text::is_boundary;

/// Whether the place is in the row.
fn is_in(row: &[bool], place: usize) -> bool
    ensures { result ≡ flag_of row.now place }
{
    row.get(place).copied().unwrap_or(false)
}

/// One place more.
fn mark(row: &mut Vec<bool>, place: Option<usize>)
    ensures { row.new.items ≡ with_place row.old.items place }
{
    if let Some(place) = place {
        if place < row.len() {
            row[place] = true;
        }
    }
}

/// Where a node without parts ends.
fn step(text: &str, place: usize, node: &Node) -> Option<usize>
    requires { IsCharBoundary text.now place }
    ensures { (ts : List Tree) → is_single (node_tree ts node.now) ≡ true
        → result ≡ single_end text.now (node_tree ts node.now) place }
{
    match node {
        Node::Nothing => Some(place),
        Node::Char(wanted) => past_char(text, place, *wanted),
        Node::Class(class) => past_class(text, place, class),
        Node::Anchor(anchor) => {
            if anchor_holds(text, place, *anchor) {
                Some(place)
            } else {
                None
            }
        }
        _ => None,
    }
}

/// Marks where the node ends, if the place is in the row `before`.
fn advance(row: &mut Vec<bool>, text: &str, node: &Node, before: &[bool], place: usize)
    requires { AreBounds text.now before.now }
    ensures { (ts : List Tree) → is_single (node_tree ts node.now) ≡ true
        → row.new.items ≡ (if flag_of before.now place
        then with_place row.old.items (single_end text.now (node_tree ts node.now) place)
        else row.old.items) }
{
    if is_in(before, place) {
        mark(row, step(text, place, node));
    }
}

/// The places where a node without parts ends that begins in the row.
fn past_single(
    alloc: Global,
    text: &str,
    node: &Node,
    before: &[bool],
) -> Result<Vec<bool>, AllocError>
    requires { AreBounds text.now before.now }
    ensures { IfOk result (λ row. (ts : List Tree) → is_single (node_tree ts node.now) ≡ true
        → IsImage text.now (node_tree ts node.now) before.now row.items) }
{
    let mut row = vec![in alloc; false; text.len() + 1]?;
    for place in 0..before.len() {
        advance(&mut row, text, node, before, place);
    }
    Ok(row)
}

/// The places in one row or the other.
fn either(alloc: Global, one: &[bool], other: &[bool]) -> Result<Vec<bool>, AllocError>
    ensures { IfOk result (λ row. (j : ℕ) → flag_of row.items j
        ≡ (flag_of one.now j || flag_of other.now j)) }
{
    let mut row = Vec::new(alloc);
    for place in 0..one.len().max(other.len()) {
        row.push(is_in(one, place) || is_in(other, place))?;
    }
    Ok(row)
}

/// The places where matches of the node end that begin in the row.
fn past(
    alloc: Global,
    program: &Program,
    text: &str,
    node: usize,
    before: &[bool],
) -> Result<Vec<bool>, AllocError>
    requires utf8 { IsUtf8 text.now }
    requires spelt { AreSpelt program.now.nodes }
    requires plain { plain (slice_index_or (trees_of program.now) node nothing) ≡ true }
    requires bounds { AreBounds text.now before.now }
    ensures { IfOk result (λ row. IsImage text.now (slice_index_or (trees_of program.now) node
        nothing) before.now row.items) }
{
    match program.node(node) {
        Some(Node::Sequence(first, second)) => {
            let middle = past(alloc, program, text, *first, before)?;
            past(alloc, program, text, *second, middle.as_slice())
        }
        Some(Node::Alternation(first, second)) => {
            let one = past(alloc, program, text, *first, before)?;
            let other = past(alloc, program, text, *second, before)?;
            either(alloc, one.as_slice(), other.as_slice())
        }
        Some(Node::Group { body, .. }) => past(alloc, program, text, *body, before),
        Some(node) => past_single(alloc, text, node, before),
        None => past_single(alloc, text, &Node::Nothing, before),
    }
}

/// Where characters begin, and the text's end.
fn bounds(alloc: Global, text: &str) -> Result<Vec<bool>, AllocError>
    ensures { IfOk result (λ row. (j : ℕ) → flag_of row.items j ≡ places.is_boundary text.now j) }
{
    let mut row = Vec::new(alloc);
    for place in 0..text.len() + 1 {
        row.push(is_boundary(text, place))?;
    }
    Ok(row)
}

/// Of each lookbehind of the plan the places where it finds what it looks for.
pub fn sights_of(
    alloc: Global,
    program: &Program,
    plan: &Plan,
    text: &str,
) -> Result<Vec<Seq<bool>>, AllocError>
    requires { IsPlanOf program.now plan.now }
    ensures { IfOk result (λ sights. AreSights text.now (trees_of program.now) plan.now.behinds
        sights.items) }
{
    let mut sights = Vec::new(alloc);
    if plan.behinds.is_empty() {
        return Ok(sights);
    }
    let starts = bounds(alloc, text)?;
    for node in plan.behinds.as_slice() {
        let row = if facts_at(plan.facts.as_slice(), *node).plain {
            past(alloc, program, text, *node, starts.as_slice())?
        } else {
            Vec::new(alloc)
        };
        sights.push(Seq::from_vec(row))?;
    }
    Ok(sights)
}
