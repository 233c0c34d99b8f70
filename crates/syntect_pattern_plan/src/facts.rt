//! What the matches of nodes have in common.
ghost use Rattle.std.specs.Prelude.{◌≡◌, Bool, IfOk, List};
ghost use Rattle.syntect_pattern_plan.specs.syntect_pattern.Trees.{Tree, ahead, alt, behind, repeat, seq};
ghost use Rattle.syntect_pattern_plan.specs.syntect_pattern_table.Table.{node_tree, trees};
ghost use Rattle.syntect_pattern_plan.specs.Facts as spec;
ghost use Rattle.syntect_pattern_plan.specs.Onward as onward;
ghost use Rattle.syntect_pattern_plan.specs.Facts.{AreFacts};

use crate::syntect_pattern_table::node::Node;
use crate::syntect_values::seq::Seq;
use std::alloc::{AllocError, Global};

/// What is known of a node's matches.
#[derive(Clone, Copy)]
pub struct Facts {
    /// Each of them reads something.
    pub reads: bool,
    /// A lookbehind can look for the node.
    pub plain: bool,
    /// There is no back reference, what lookbehinds look for is plain and sets no groups, and no
    /// lookahead in a loop of more turns than one sets groups.
    pub free: bool,
    /// There is no group.
    pub bare: bool,
    /// No lookahead there sets groups.
    pub calm: bool,
}

/// A node that reads nothing.
const STAYS: Facts = Facts {
    reads: false,
    plain: true,
    free: true,
    bare: true,
    calm: true,
};

/// A character.
const READS: Facts = Facts {
    reads: true,
    plain: true,
    free: true,
    bare: true,
    calm: true,
};

/// The text of a group once more.
const SAME: Facts = Facts {
    reads: false,
    plain: false,
    free: false,
    bare: true,
    calm: true,
};

/// What is known of the node with the number.
#[inline]
pub fn facts_at(facts: &[Facts], node: usize) -> Facts
    ensures { result ≡ spec.facts_at facts.now node }
{
    facts.get(node).copied().unwrap_or(STAYS)
}

/// One part after the other.
fn in_sequence(a: Facts, b: Facts) -> Facts
    ensures { (t u : Tree) → a ≡ spec.facts_of t → b ≡ spec.facts_of u
        → result ≡ spec.facts_of (seq t u) }
{
    Facts {
        reads: a.reads || b.reads,
        plain: a.plain && b.plain,
        free: a.free && b.free,
        bare: a.bare && b.bare,
        calm: a.calm && b.calm,
    }
}

/// One of two parts.
fn one_of_two(a: Facts, b: Facts) -> Facts
    ensures { (t u : Tree) → a ≡ spec.facts_of t → b ≡ spec.facts_of u
        → result ≡ spec.facts_of (alt t u) }
{
    Facts {
        reads: a.reads && b.reads,
        plain: a.plain && b.plain,
        free: a.free && b.free,
        bare: a.bare && b.bare,
        calm: a.calm && b.calm,
    }
}

/// Whether a loop of so many turns takes at most one.
fn is_once(most: Option<u32>) -> bool
    ensures { result ≡ onward.is_once most }
{
    match most {
        Some(most) => most < 2,
        None => false,
    }
}

/// A part again and again, at least so many times and at most so many, if there is a limit.
fn in_loop(a: Facts, least: u32, most: Option<u32>) -> Facts
    ensures { (greedy : Bool) (t : Tree) → a ≡ spec.facts_of t
        → result ≡ spec.facts_of (repeat greedy least most t) }
{
    Facts {
        reads: least > 0 && a.reads,
        plain: false,
        free: a.free && (is_once(most) || a.calm),
        ..a
    }
}

/// A part looked for ahead.
fn in_lookahead(a: Facts, negated: bool) -> Facts
    ensures { (t : Tree) → a ≡ spec.facts_of t
        → result ≡ spec.facts_of (ahead negated t) }
{
    Facts {
        reads: false,
        plain: false,
        calm: negated || a.bare,
        ..a
    }
}

/// A part looked for behind.
fn in_lookbehind(a: Facts, negated: bool) -> Facts
    ensures { (t : Tree) → a ≡ spec.facts_of t
        → result ≡ spec.facts_of (behind negated t) }
{
    Facts {
        reads: false,
        plain: false,
        free: a.plain && (negated || a.bare),
        bare: a.bare,
        calm: true,
    }
}

/// What is known of the node, by what is known of those before it.
fn node_facts(node: &Node, before: &[Facts]) -> Facts
    ensures { (ts : List Tree) → AreFacts before.now ts
        → result ≡ spec.facts_of (node_tree ts node.now) }
{
    match node {
        Node::Nothing | Node::Anchor(_) => STAYS,
        Node::Char(_) | Node::Class(_) => READS,
        Node::Same { .. } => SAME,
        Node::Text { letters: _, rest } => in_sequence(READS, facts_at(before, *rest)),
        Node::Sequence(first, second) => {
            in_sequence(facts_at(before, *first), facts_at(before, *second))
        }
        Node::Alternation(first, second) => {
            one_of_two(facts_at(before, *first), facts_at(before, *second))
        }
        Node::Repeat {
            least,
            most,
            body,
            ..
        } => in_loop(facts_at(before, *body), *least, *most),
        Node::Group { body, .. } => Facts {
            bare: false,
            ..facts_at(before, *body)
        },
        Node::Atomic(body) => Facts {
            plain: false,
            ..facts_at(before, *body)
        },
        Node::Ahead { negated, body } => in_lookahead(facts_at(before, *body), *negated),
        Node::Behind { negated, body } => in_lookbehind(facts_at(before, *body), *negated),
    }
}

/// What is known of each node.
pub fn facts_of(alloc: Global, nodes: &[Node]) -> Result<Seq<Facts>, AllocError>
    ensures { IfOk result (λ fs. AreFacts fs (trees nodes.now)) }
{
    let mut facts = Vec::new(alloc);
    for node in nodes {
        let next = node_facts(node, facts.as_slice());
        facts.push(next)?;
    }
    Ok(Seq::from_vec(facts))
}
