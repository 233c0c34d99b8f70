//! How many bytes matches of nodes read.
ghost use Rattle.std.specs.Prelude.{◌≡◌, ◌+◌, ◌*◌, ℕ, Bool, IfOk, List, Some, length, max, true};
ghost use Rattle.syntect_pattern.specs.Sets.{Set, from_to, range};
ghost use Rattle.syntect_pattern.specs.Letters.{letters_tree};
ghost use Rattle.syntect_pattern.specs.Trees.{Tree, one_of, seq, alt, repeat};
ghost use Rattle.syntect_pattern_table.specs.SetTable.{is_wide};
ghost use Rattle.syntect_pattern_table.specs.Table.{IsOrdered, node_tree, parts_before, trees};
ghost use Rattle.syntect_pattern_table.specs.Lengths.{AreLengths, HasLengths, IsMadeOf};

use crate::node::Node;
use crate::sets::is_alike_wide;
use std::alloc::{AllocError, Global};
use syntect_values::seq::Seq;

/// How many bytes matches of a node read.
#[derive(Clone, Copy)]
pub struct Lengths {
    /// No match reads fewer.
    pub least: u32,
    /// No match reads more, if there is a limit that is known.
    pub most: Option<u32>,
}

/// Exactly so many bytes.
fn exactly(count: u32) -> Lengths
    ensures least { result.least ≡ count }
    ensures most { result.most ≡ Some count }
{
    Lengths {
        least: count,
        most: Some(count),
    }
}

/// Any number of bytes.
pub(crate) fn any_number() -> Lengths
    ensures { (t : Tree) → HasLengths t result }
{
    Lengths {
        least: 0,
        most: None,
    }
}

/// The sum of two limits, if both are known and it is no larger than numbers are.
fn sum(a: Option<u32>, b: Option<u32>) -> Option<u32>
    ensures { (n : ℕ) → result ≡ Some n → IsMadeOf (λ x y. x + y) a b n }
{
    let first = a?;
    let second = b?;
    first.checked_add(second)
}

/// The product of two limits, if both are known and it is no larger than numbers are.
fn product(a: Option<u32>, b: Option<u32>) -> Option<u32>
    ensures { (n : ℕ) → result ≡ Some n → IsMadeOf (λ x y. x * y) a b n }
{
    let first = a?;
    let second = b?;
    first.checked_mul(second)
}

/// The greater one of two limits, if both are known.
fn greater(a: Option<u32>, b: Option<u32>) -> Option<u32>
    ensures { (n : ℕ) → result ≡ Some n → IsMadeOf max a b n }
{
    let first = a?;
    let second = b?;
    Some(first.max(second))
}

/// Of a character.
fn lengths_of_char(wanted: char) -> Lengths
    ensures { HasLengths (one_of (range wanted wanted)) result }
{
    exactly(wanted.len_utf8() as u32)
}

/// Of a character that may be beyond ASCII, or else of one of ASCII.
fn lengths_of_one(wide: bool) -> Lengths
    ensures { (a : Set) → wide ≡ is_wide a → HasLengths (one_of a) result }
{
    let most = if wide { 4 } else { 1 };
    Lengths {
        least: 1,
        most: Some(most),
    }
}

/// Of the one after the other.
fn in_sequence(a: Lengths, b: Lengths) -> Lengths
    ensures { (t u : Tree) → HasLengths t a → HasLengths u b → HasLengths (seq t u) result }
{
    Lengths {
        least: a.least.saturating_add(b.least),
        most: sum(a.most, b.most),
    }
}

/// Of a letter.
fn lengths_of_letter(fold: bool, letter: u8) -> Lengths
    ensures { HasLengths (one_of (from_to fold letter letter)) result }
{
    let wanted = letter as char;
    if fold {
        lengths_of_one(is_alike_wide(wanted, wanted))
    } else {
        lengths_of_char(wanted)
    }
}

/// Of letters before what reads so many.
fn before_rest(fold: bool, letters: &[u8], rest: Lengths) -> Lengths
    ensures { (t : Tree) → HasLengths t rest
        → HasLengths (letters_tree fold letters.now t) result }
{
    match letters.split_first() {
        Some((first, others)) => in_sequence(
            lengths_of_letter(fold, *first),
            before_rest(fold, others, rest),
        ),
        None => rest,
    }
}

/// Of one of the two.
fn one_of_two(a: Lengths, b: Lengths) -> Lengths
    ensures { (t u : Tree) → HasLengths t a → HasLengths u b → HasLengths (alt t u) result }
{
    Lengths {
        least: a.least.min(b.least),
        most: greater(a.most, b.most),
    }
}

/// Of a loop with at least so many turns and at most so many, if there is a limit.
fn in_loop(a: Lengths, least: u32, most: Option<u32>) -> Lengths
    ensures { (t : Tree) (greedy : Bool) → HasLengths t a
        → HasLengths (repeat greedy least most t) result }
{
    Lengths {
        least: least.saturating_mul(a.least),
        most: product(most, a.most),
    }
}

/// Of the node, by those of the nodes before it.
fn lengths_of(node: &Node, before: &[Lengths]) -> Lengths
    requires { parts_before (length before.now) node.now ≡ true }
    ensures { (ts : List Tree) → AreLengths before.now ts
        → HasLengths (node_tree ts node.now) result }
{
    match node {
        Node::Nothing | Node::Anchor(_) | Node::Ahead { .. } | Node::Behind { .. } => exactly(0),
        Node::Char(wanted) => lengths_of_char(*wanted),
        Node::Class(class) => lengths_of_one(class.is_wide()),
        Node::Same { fold: _, group: _ } => any_number(),
        Node::Text { letters, rest } => in_sequence(
            lengths_of_letter(letters.fold, letters.first),
            before_rest(letters.fold, letters.others(), before[*rest]),
        ),
        Node::Sequence(first, second) => in_sequence(before[*first], before[*second]),
        Node::Alternation(first, second) => one_of_two(before[*first], before[*second]),
        Node::Repeat {
            least,
            most,
            body,
            ..
        } => in_loop(before[*body], *least, *most),
        Node::Group { number: _, body } => before[*body],
        Node::Atomic(body) => before[*body],
    }
}

/// The lengths of each node, if wanted: none are kept of a table without a lookbehind.
pub fn lengths_in(alloc: Global, nodes: &[Node], wanted: bool) -> Result<Seq<Lengths>, AllocError>
    requires { IsOrdered nodes.now }
    ensures { IfOk result (λ ls. AreLengths ls (trees nodes.now)) }
{
    if !wanted {
        return Ok(Seq::new(alloc));
    }
    let mut lengths = Vec::with_capacity(alloc, nodes.len())?;
    for place in 0..nodes.len() {
        let next = lengths_of(&nodes[place], lengths.as_slice());
        lengths.push(next)?;
    }
    Ok(Seq::from_vec(lengths))
}
