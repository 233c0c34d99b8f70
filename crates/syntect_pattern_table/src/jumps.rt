//! Jumps past branches of long alternations.
ghost use Rattle.std.specs.Prelude.{◌≡◌, ◌<◌, ◌≤◌, IfOk, IfSome, List, length};
ghost use Rattle.syntect_pattern.specs.Trees.{Tree};
ghost use Rattle.syntect_pattern_table.specs.Table.{IsOrdered, trees};
ghost use Rattle.syntect_pattern_table.specs.Starts.{AreFirsts};
ghost use Rattle.syntect_pattern_table.specs.Jumps.{AreJumps, IsJump, jump_to, places_of};

use crate::node::Node;
use crate::place_list::PlaceList;
use crate::starts::{Places, either, nowhere};
use std::alloc::{AllocError, Global};
use syntect_values::seq::Seq;

/// How many alternations in a row, each the second part of the next, make a list with jumps.
const LONG: usize = 8;

/// How many branches each of two jumps passes at most that are put together.
const FAR: u32 = 1 << 30;

/// From a node to one after some of its branches.
#[derive(Clone, Copy)]
pub struct Jump {
    /// Where matches of those branches can begin, in parts, which take less room than `Places`.
    ascii: u128,
    pub to: usize,
    /// How many branches are passed.
    pub count: u32,
    wide: bool,
    end: bool,
}

impl Jump {
    /// To the node past so many branches, whose matches can begin there.
    fn new(to: usize, count: u32, places: Places) -> Jump
        ensures { result ≡ jump_to to count places }
    {
        Jump {
            ascii: places.ascii,
            to,
            count,
            wide: places.wide,
            end: places.end,
        }
    }

    /// Where matches of the branches that it passes can begin.
    #[inline]
    pub fn places(&self) -> Places
        ensures { result ≡ places_of self.now }
    {
        Places {
            ascii: self.ascii,
            wide: self.wide,
            end: self.end,
        }
    }
}

/// Whether the node is an alternation whose second part is the node right before it.
fn is_link(node: &Node, place: usize) -> bool {
    match node {
        Node::Alternation(_, second) => *second == place.saturating_sub(1),
        _ => false,
    }
}

/// How many of the nodes from the one place on to before the other are such alternations.
fn links(nodes: &[Node], low: usize, high: usize) -> usize {
    let mut count = 0usize;
    for place in low..high.min(nodes.len()) {
        if is_link(&nodes[place], place) {
            count = count.saturating_add(1);
        }
    }
    count
}

/// Where about the first long list of branches begins, or the table's end: not all nodes are seen.
pub fn long_from(nodes: &[Node]) -> usize
    ensures { result ≤ length nodes.now }
{
    let mut place = LONG;
    while place < nodes.len() {
        if is_link(&nodes[place], place) {
            let low = place - (LONG - 1);
            if links(nodes, low, place.saturating_add(LONG)) >= LONG {
                return low;
            }
        }
        place = place.saturating_add(LONG);
    }
    nodes.len()
}

/// The jump of the node, if one is kept: the first one is that of the node `from`.
#[inline]
pub fn jump_of(jumps: &[Jump], from: usize, node: usize) -> Option<Jump>
    ensures { (ts : List Tree) → AreJumps from jumps.now ts
        → IfSome result (λ j. IsJump ts node j) }
{
    if node < from {
        return None;
    }
    jumps.get(node - from).copied()
}

/// The jump of the node: past the first branch of an alternation, and past what two jumps of one
/// length that follow pass, so n branches take about log n jumps. Other nodes lead to themselves.
fn jump_from(nodes: &[Node], place: usize, firsts: &PlaceList, before: &[Jump], from: usize) -> Jump
    requires ordered { IsOrdered nodes.now }
    requires inside { place < length nodes.now }
    requires count { length firsts.now ≡ length nodes.now }
    requires firsts { AreFirsts firsts.now (trees nodes.now) }
    requires jumps { AreJumps from before.now (trees nodes.now) }
    ensures { IsJump (trees nodes.now) place result }
{
    let Node::Alternation(first, second) = &nodes[place] else {
        return Jump::new(place, 0, nowhere());
    };
    let places = firsts.get(*first).unwrap_or(nowhere());
    if let Some(near) = jump_of(before, from, *second) {
        if let Some(far) = jump_of(before, from, near.to) {
            if near.count == far.count && near.count < FAR {
                let behind = either(near.places(), far.places());
                return Jump::new(far.to, near.count + far.count + 1, either(places, behind));
            }
        }
    }
    Jump::new(*second, 1, places)
}

/// The jumps of the nodes from this one on.
pub fn jumps_of(
    alloc: Global,
    nodes: &[Node],
    firsts: &PlaceList,
    from: usize,
) -> Result<Seq<Jump>, AllocError>
    requires ordered { IsOrdered nodes.now }
    requires count { length firsts.now ≡ length nodes.now }
    requires firsts { AreFirsts firsts.now (trees nodes.now) }
    requires from { from ≤ length nodes.now }
    ensures { IfOk result (λ js. AreJumps from js (trees nodes.now)) }
{
    let mut jumps = Vec::with_capacity(alloc, nodes.len() - from)?;
    for place in from..nodes.len() {
        let next = jump_from(nodes, place, firsts, jumps.as_slice(), from);
        jumps.push(next)?;
    }
    Ok(Seq::from_vec(jumps))
}
