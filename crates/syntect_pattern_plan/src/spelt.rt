//! Programs whose letters stand each in a node of its own, as plans are made of them.
ghost use Rattle.std.specs.Prelude.{◌≡◌, ℕ, IfOk, List, false, length, slice_index_or, true};
ghost use Rattle.syntect_pattern_plan.specs.syntect_pattern.Trees.{Tree, nothing};
ghost use Rattle.syntect_pattern_plan.specs.syntect_pattern_table.Program.{IsProgramOf, trees_of};
ghost use Rattle.syntect_pattern_plan.specs.syntect_pattern_table.Table.{AreSpelt, IsOrdered, is_text, node_tree, parts_before, trees};
ghost use Rattle.syntect_pattern_plan.specs.syntect_pattern_table.declared.node.Node.{Node as ANode};
ghost use Rattle.syntect_pattern_plan.specs.Spelt.{AllBelow, ArePlaces};
ghost use Rattle.syntect_pattern_plan.specs.Spelt as spec;

use crate::syntect_pattern_table::node::{Class, Node};
use crate::syntect_pattern_table::program::Program;
use crate::syntect_pattern_table::sets::Part;
use crate::syntect_pattern_table::starts::places_of;
use crate::syntect_values::seq::Seq;
use std::alloc::{AllocError, Global};

/// The nodes so far, none of which holds letters in a row.
#[derive(Drop)]
struct Spelling {
    nodes: Seq<Node>,
    ghost ordered: { IsOrdered nodes },
    ghost spelt: { AreSpelt nodes },
}

/// The place that the node has among the new ones.
fn place_at(places: &[usize], node: usize) -> usize
    ensures { result ≡ spec.place_at places.now node }
{
    places.get(node).copied().unwrap_or(0)
}

/// The node with its parts at their new places: it has the same tree wherever these hold the trees
/// of its parts. Letters in a row, which have no copy, give an empty node.
fn copy_of(alloc: Global, node: &Node, places: &[usize]) -> Result<Node, AllocError>
    ensures spelt { IfOk result (λ copy. is_text copy ≡ false) }
    ensures before { IfOk result (λ copy. (n : ℕ) → AllBelow n places.now
        → parts_before (length places.now) node.now ≡ true → parts_before n copy ≡ true) }
    ensures tree { IfOk result (λ copy. (ts : List Tree) (nodes : List ANode)
        → is_text node.now ≡ false → parts_before (length places.now) node.now ≡ true
        → ArePlaces ts nodes places.now → node_tree (trees nodes) copy ≡ node_tree ts node.now) }
{
    let at = |node: usize| place_at(places, node);
    Ok(match *node {
        Node::Nothing | Node::Text { .. } => Node::Nothing,
        Node::Char(wanted) => Node::Char(wanted),
        Node::Class(ref class) => Node::Class(class.copy(alloc)?),
        Node::Anchor(anchor) => Node::Anchor(anchor),
        Node::Same { fold, group } => Node::Same { fold, group },
        Node::Sequence(first, second) => Node::Sequence(at(first), at(second)),
        Node::Alternation(first, second) => Node::Alternation(at(first), at(second)),
        Node::Repeat {
            greedy,
            least,
            most,
            body,
        } => Node::Repeat {
            greedy,
            least,
            most,
            body: at(body),
        },
        Node::Group { number, body } => Node::Group {
            number,
            body: at(body),
        },
        Node::Atomic(body) => Node::Atomic(at(body)),
        Node::Ahead { negated, body } => Node::Ahead {
            negated,
            body: at(body),
        },
        Node::Behind { negated, body } => Node::Behind {
            negated,
            body: at(body),
        },
    })
}

impl Spelling {
    ghost use Rattle.std.specs.Prelude.{◌<◌, OnOk};
    ghost use Rattle.syntect_pattern_plan.specs.syntect_pattern.Sets.{from_to};
    ghost use Rattle.syntect_pattern_plan.specs.syntect_pattern.Trees.{one_of};
    ghost use Rattle.syntect_pattern_plan.specs.syntect_pattern.Letters.{letters_tree};
    ghost use Rattle.syntect_pattern_plan.specs.syntect_pattern_table.Builder.{Grows, Holds, tree_in};

    /// Appends a node.
    fn push(&mut self, node: Node) -> Result<usize, AllocError>
        requires before { parts_before (length self.old.nodes) node ≡ true }
        requires spelt { is_text node ≡ false }
        ensures grows { OnOk result (Grows self.old.nodes self.new.nodes) }
        ensures holds { IfOk result (λ k. Holds self.new.nodes k
            (node_tree (trees self.old.nodes) node)) }
    {
        let place = self.nodes.len();
        self.nodes.push(node)?;
        Ok(place)
    }

    /// Appends a letter.
    fn push_letter(&mut self, fold: bool, letter: u8) -> Result<usize, AllocError>
        ensures grows { OnOk result (Grows self.old.nodes self.new.nodes) }
        ensures holds { IfOk result (λ k. Holds self.new.nodes k
            (one_of (from_to fold letter letter))) }
    {
        let wanted = letter as char;
        if !fold {
            return self.push(Node::Char(wanted));
        }
        let alloc = self.nodes.allocator();
        let class = Class::of_one(alloc, Part::Alike(wanted, wanted))?;
        self.push(Node::Class(class))
    }

    /// Puts letters before the node.
    fn push_letters(&mut self, fold: bool, letters: &[u8], rest: usize) -> Result<usize, AllocError>
        requires { rest < length self.old.nodes }
        ensures grows { OnOk result (Grows self.old.nodes self.new.nodes) }
        ensures holds { IfOk result (λ k. Holds self.new.nodes k
            (letters_tree fold letters.now (tree_in self.old.nodes rest))) }
    {
        let Some((first, others)) = letters.split_first() else {
            return Ok(rest);
        };
        let rest = self.push_letters(fold, others, rest)?;
        let first = self.push_letter(fold, *first)?;
        self.push(Node::Sequence(first, rest))
    }

    /// Appends a copy of the node, whose parts have these new places.
    fn push_node(&mut self, node: &Node, places: &[usize]) -> Result<usize, AllocError>
        requires below { AllBelow (length self.old.nodes) places.now }
        requires before { parts_before (length places.now) node.now ≡ true }
        ensures grows { OnOk result (Grows self.old.nodes self.new.nodes) }
        ensures holds { IfOk result (λ k. (ts : List Tree)
            → ArePlaces ts self.old.nodes places.now
            → Holds self.new.nodes k (node_tree ts node.now)) }
    {
        if let Node::Text { letters, rest } = node {
            let rest = place_at(places, *rest);
            let rest = self.push_letters(letters.fold, letters.others(), rest)?;
            let first = self.push_letter(letters.fold, letters.first)?;
            return self.push(Node::Sequence(first, rest));
        }
        let alloc = self.nodes.allocator();
        let copy = copy_of(alloc, node, places)?;
        self.push(copy)
    }

    /// The new place of the node with the number, which is nothing past the end.
    fn push_root(&mut self, places: &[usize], root: usize) -> Result<usize, AllocError>
        ensures grows { OnOk result (Grows self.old.nodes self.new.nodes) }
        ensures holds { IfOk result (λ k. (ts : List Tree) → length ts ≡ length places.now
            → ArePlaces ts self.old.nodes places.now
            → Holds self.new.nodes k (slice_index_or ts root nothing)) }
    {
        match places.get(root) {
            Some(place) => Ok(*place),
            None => self.push(Node::Nothing),
        }
    }
}

/// The program with each letter in a node of its own.
pub fn spelt(alloc: Global, program: &Program) -> Result<Program, AllocError>
    ensures spelt { IfOk result (λ p. AreSpelt p.nodes) }
    ensures root { IfOk result (λ p. slice_index_or (trees_of p) p.root nothing
        ≡ slice_index_or (trees_of program.now) program.now.root nothing) }
    ensures program { IfOk result (λ p. (tree : Tree) → IsProgramOf program.now tree
        → IsProgramOf p tree) }
{
    let mut spelling = Spelling {
        nodes: Seq::new(alloc),
    };
    let mut places = Vec::new(alloc);
    for node in program.nodes.as_slice() {
        let place = spelling.push_node(node, places.as_slice())?;
        places.push(place)?;
    }
    let root = spelling.push_root(places.as_slice(), program.root)?;
    let firsts = places_of(alloc, spelling.nodes.as_slice())?;
    Program::new(
        alloc,
        spelling.nodes,
        root,
        program.groups,
        firsts,
        program.needs,
        false,
    )
}
