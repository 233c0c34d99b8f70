//! The making of a program's table of nodes.
ghost use Rattle.std.specs.Prelude.{◌≡◌, IfSome};
ghost use Rattle.syntect_pattern.specs.Sets.{from_to};
ghost use Rattle.syntect_pattern.specs.Trees.{Tree, one_of, seq};
ghost use Rattle.syntect_pattern.specs.Letters.{letters_of, letters_tree};
ghost use Rattle.syntect_pattern_table.specs.Table.{IsOrdered};
ghost use Rattle.syntect_pattern_compile.specs.JoinViews.{behind_letters};

use crate::classes::{SET_ROOM, SetBuilder, part_of};
use crate::syntect_values::seq::Seq;
use std::alloc::AllocError;
use syntect_pattern_table::node::{Letters, Node};
use syntect_pattern_table::sets::Class;
use syntect_pattern_words::members::Leaf;
use syntect_pattern_words::tokens::Looping;

/// The nodes so far, each after its parts.
#[derive(Drop)]
pub struct Builder {
    pub nodes: Seq<Node>,
    pub ghost ordered: { IsOrdered nodes },
}

/// What stands in a sequence.
#[derive(Clone, Copy)]
pub enum Item {
    /// The node at the place.
    Node(usize),
    /// A letter, which has no node yet.
    Letter { fold: bool, letter: u8 },
}

/// The end of a sequence: letters, if there are some, and the node at the place after them.
#[derive(Clone, Copy)]
struct End {
    letters: Option<Letters>,
    rest: usize,
}

/// The letters with one more in front, if there are some to which it fits.
fn with_letter(letters: Option<Letters>, fold: bool, letter: u8) -> Option<Letters>
    ensures { IfSome result (λ more. (t : Tree) → letters_tree more.fold (letters_of more) t
        ≡ seq (one_of (from_to fold letter letter)) (behind_letters letters t)) }
{
    let letters = letters?;
    if letters.fold != fold {
        return None;
    }
    letters.with_first(letter)
}

impl Builder {
    ghost use Rattle.std.specs.Prelude.{◌<◌, [], IfOk, OnOk, length, true};
    ghost use Rattle.syntect_pattern_table.specs.SetTable.{set_in};
    ghost use Rattle.syntect_pattern_words.specs.MemberViews.{leaf_set};
    ghost use Rattle.syntect_pattern_words.specs.TokenViews.{looped_tree};
    ghost use Rattle.syntect_pattern.specs.Trees.{alt_all, seq_all};
    ghost use Rattle.syntect_pattern_table.specs.Table.{node_tree, parts_before, trees};
    ghost use Rattle.syntect_pattern_table.specs.Builder.{Grows, Holds, tree_in};
    ghost use Rattle.syntect_pattern_compile.specs.JoinViews.{AllBelow, AreItemsIn, IsEnd, IsItemIn, IsItemOf, end_tree, item_tree, item_trees, trees_in};

    /// Appends a node.
    pub fn push(&mut self, node: Node) -> Result<usize, AllocError>
        requires { parts_before (length self.old.nodes) node ≡ true }
        ensures grows { OnOk result (Grows self.old.nodes self.new.nodes) }
        ensures holds { IfOk result (λ k. Holds self.new.nodes k
            (node_tree (trees self.old.nodes) node)) }
    {
        let place = self.nodes.len();
        self.nodes.push(node)?;
        Ok(place)
    }

    /// Puts all branches together, one of which is tried after the other. They are taken off, and
    /// their memory stays.
    pub fn branches(&mut self, parts: &mut Seq<usize>) -> Result<usize, AllocError>
        requires { AllBelow (length self.old.nodes) parts.old }
        ensures grows { OnOk result (Grows self.old.nodes self.new.nodes) }
        ensures none { OnOk result (parts.new ≡ []) }
        ensures holds { IfOk result (λ k. Holds self.new.nodes k
            (alt_all (trees_in self.old.nodes parts.old))) }
    {
        let Some(last) = parts.pop() else {
            return self.push(Node::Nothing);
        };
        let mut rest = last;
        while let Some(part) = parts.pop() {
            rest = self.push(Node::Alternation(part, rest))?;
        }
        Ok(rest)
    }

    /// The node of an item.
    fn push_item(&mut self, item: Item) -> Result<usize, AllocError>
        requires { IsItemIn (length self.old.nodes) item }
        ensures grows { OnOk result (Grows self.old.nodes self.new.nodes) }
        ensures holds { IfOk result (λ k. Holds self.new.nodes k (item_tree self.old.nodes item)) }
    {
        match item {
            Item::Node(place) => Ok(place),
            Item::Letter { fold, letter } => self.push_char(fold, letter as char),
        }
    }

    /// The node of an end.
    fn push_end(&mut self, end: End) -> Result<usize, AllocError>
        requires { end.rest < length self.old.nodes }
        ensures grows { OnOk result (Grows self.old.nodes self.new.nodes) }
        ensures holds { IfOk result (λ k. Holds self.new.nodes k (end_tree self.old.nodes end)) }
    {
        match end.letters {
            Some(letters) => self.push(Node::Text {
                letters,
                rest: end.rest,
            }),
            None => Ok(end.rest),
        }
    }

    /// The item before the end.
    fn before(&mut self, item: Item, end: End) -> Result<End, AllocError>
        requires item { IsItemIn (length self.old.nodes) item }
        requires end { end.rest < length self.old.nodes }
        ensures grows { OnOk result (Grows self.old.nodes self.new.nodes) }
        ensures holds { IfOk result (λ more. IsEnd self.new.nodes more
            (seq (item_tree self.old.nodes item) (end_tree self.old.nodes end))) }
    {
        match item {
            Item::Node(place) => {
                let rest = self.push_end(end)?;
                let rest = self.push(Node::Sequence(place, rest))?;
                Ok(End {
                    letters: None,
                    rest,
                })
            }
            Item::Letter { fold, letter } => {
                let letters = with_letter(end.letters, fold, letter);
                if letters.is_some() {
                    return Ok(End {
                        letters,
                        rest: end.rest,
                    });
                }
                let rest = self.push_end(end)?;
                Ok(End {
                    letters: Some(Letters::one(fold, letter)),
                    rest,
                })
            }
        }
    }

    /// Puts all items together, one after the other. They are taken off, and their memory stays.
    pub fn sequence(&mut self, items: &mut Seq<Item>) -> Result<usize, AllocError>
        requires { AreItemsIn (length self.old.nodes) items.old }
        ensures grows { OnOk result (Grows self.old.nodes self.new.nodes) }
        ensures none { OnOk result (items.new ≡ []) }
        ensures holds { IfOk result (λ k. Holds self.new.nodes k
            (seq_all (item_trees self.old.nodes items.old))) }
    {
        let Some(last) = items.pop() else {
            return self.push(Node::Nothing);
        };
        let mut end = End {
            letters: None,
            rest: self.push_item(last)?,
        };
        while let Some(item) = items.pop() {
            end = self.before(item, end)?;
        }
        self.push_end(end)
    }

    /// Appends a class.
    pub fn push_class(&mut self, sets: SetBuilder, root: usize) -> Result<usize, AllocError>
        ensures grows { OnOk result (Grows self.old.nodes self.new.nodes) }
        ensures holds { IfOk result (λ k. Holds self.new.nodes k
            (one_of (set_in sets.parts root))) }
    {
        let alloc = self.nodes.allocator();
        let class = Class::new(alloc, sets.parts, root)?;
        self.push(Node::Class(class))
    }

    /// Appends a set of characters.
    pub fn push_leaf(&mut self, leaf: Leaf) -> Result<usize, AllocError>
        ensures grows { OnOk result (Grows self.old.nodes self.new.nodes) }
        ensures holds { IfOk result (λ k. Holds self.new.nodes k (one_of (leaf_set leaf))) }
    {
        let alloc = self.nodes.allocator();
        if let Some(part) = part_of(leaf) {
            let class = Class::of_one(alloc, part)?;
            return self.push(Node::Class(class));
        }
        let mut sets = SetBuilder::new(alloc, SET_ROOM)?;
        let root = sets.push_leaf(leaf)?;
        self.push_class(sets, root)
    }

    /// Appends a character, with `fold` all of equal simple folding.
    pub fn push_char(&mut self, fold: bool, c: char) -> Result<usize, AllocError>
        ensures grows { OnOk result (Grows self.old.nodes self.new.nodes) }
        ensures holds { IfOk result (λ k. Holds self.new.nodes k (one_of (from_to fold c c))) }
    {
        if fold {
            self.push_leaf(Leaf::Span {
                fold,
                low: c,
                high: c,
            })
        } else {
            self.push(Node::Char(c))
        }
    }

    /// A character as an item. Beyond ASCII it has a node of its own.
    pub fn char_item(&mut self, fold: bool, c: char) -> Result<Item, AllocError>
        ensures grows { OnOk result (Grows self.old.nodes self.new.nodes) }
        ensures inside { IfOk result (IsItemIn (length self.new.nodes)) }
        ensures is { IfOk result (IsItemOf self.new.nodes (one_of (from_to fold c c))) }
    {
        if c.is_ascii() {
            return Ok(Item::Letter {
                fold,
                letter: c as u8,
            });
        }
        Ok(Item::Node(self.push_char(fold, c)?))
    }

    /// Appends the node of a loop.
    pub fn push_looping(&mut self, looping: Looping, node: usize) -> Result<usize, AllocError>
        requires { node < length self.old.nodes }
        ensures grows { OnOk result (Grows self.old.nodes self.new.nodes) }
        ensures holds { IfOk result (λ k. Holds self.new.nodes k
            (looped_tree looping (tree_in self.old.nodes node))) }
    {
        match looping {
            Looping::Once => Ok(node),
            Looping::Loop {
                greedy,
                possessive,
                least,
                most,
            } => {
                let repeat = self.push(Node::Repeat {
                    greedy,
                    least,
                    most,
                    body: node,
                })?;
                if possessive {
                    self.push(Node::Atomic(repeat))
                } else {
                    Ok(repeat)
                }
            }
        }
    }

    /// A character with its quantifier.
    pub fn looped_char(&mut self, looping: Looping, fold: bool, c: char) -> Result<Item, AllocError>
        ensures grows { OnOk result (Grows self.old.nodes self.new.nodes) }
        ensures inside { IfOk result (IsItemIn (length self.new.nodes)) }
        ensures is { IfOk result (IsItemOf self.new.nodes
            (looped_tree looping (one_of (from_to fold c c)))) }
    {
        match looping {
            Looping::Once => self.char_item(fold, c),
            looping => {
                let node = self.push_char(fold, c)?;
                Ok(Item::Node(self.push_looping(looping, node)?))
            }
        }
    }
}
