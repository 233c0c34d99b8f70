//! A pattern that is ready to be searched.
ghost use Rattle.std.specs.Prelude.{◌≡◌, ◌≤◌, ◌<◌, ◌-◌, ℕ, [], List, IfOk, IfSome, IsCharBoundary, length, min, slice_index, slice_index_or, true, false};
ghost use Rattle.syntect_pattern_table.specs.Table.{IsOrdered, trees};
ghost use Rattle.syntect_pattern_table.specs.Builder.{tree_in};
ghost use Rattle.syntect_pattern_table.specs.Starts.{AreFirsts, AreStarts};
ghost use Rattle.syntect_pattern_table.specs.Jumps.{AreJumps};
ghost use Rattle.syntect_pattern_table.specs.Lengths.{AreLengths};

use crate::jumps::{Jump, jump_of, jumps_of, long_from};
use crate::lengths::{Lengths, any_number, lengths_in};
use crate::needs::TwoNeeds;
use crate::node::Node;
use crate::place_list::PlaceList;
use crate::starts::{flags_of, is_in, nowhere, start_at};
use std::alloc::{AllocError, Global};
use syntect_values::seq::Seq;

/// The tree of a pattern as a table of nodes, each of which comes after its parts.
#[derive(Drop)]
pub struct Program {
    pub nodes: Seq<Node>,
    /// The place of the node of the whole match, which is group 0.
    pub root: usize,
    /// How many groups there are, group 0 among them.
    pub groups: usize,
    /// Whether a match can begin where this stands: ASCII, 128 for others, 129 for the text's end.
    pub starts: Seq<bool>,
    /// Where matches of each node can begin.
    pub firsts: PlaceList,
    /// The node whose jump is the first one.
    pub jumps_from: usize,
    /// Jumps past branches, of the nodes from that one on; none where no list of branches is long.
    pub jumps: Seq<Jump>,
    /// What each match needs.
    pub needs: TwoNeeds,
    /// How many bytes matches of each node read. There are none where nothing looks back.
    pub lengths: Seq<Lengths>,
    pub ghost ordered: { IsOrdered nodes },
    pub ghost begun: { AreFirsts firsts (trees nodes) },
    pub ghost jumping: { ∥ AreJumps jumps_from jumps (trees nodes) ∥₁ },
    pub ghost measured: { AreLengths lengths (trees nodes) },
}

impl Program {
    ghost use Rattle.syntect_pattern.specs.Trees.{nothing};
    ghost use Rattle.syntect_pattern_table.specs.Table.{AreSpelt, is_text};
    ghost use Rattle.syntect_pattern_table.specs.Program.{CannotBegin, IsNodeOf, trees_of};
    ghost use Rattle.syntect_pattern_table.specs.Jumps.{LeadsPast};
    ghost use Rattle.syntect_pattern_table.specs.Lengths.{HasLengths};
    ghost use Rattle.syntect_pattern.specs.Matches.{Groups, matches};

    /// The program whose whole match is the root's, with where matches begin and what they need. If
    /// it looks back, it keeps how many bytes they read; else its lookbehinds may read any number.
    pub fn new(
        alloc: Global,
        nodes: Seq<Node>,
        root: usize,
        groups: usize,
        firsts: PlaceList,
        needs: TwoNeeds,
        looks_back: bool,
    ) -> Result<Program, AllocError>
        requires ordered { IsOrdered nodes }
        requires inside { root < length nodes }
        requires count { length firsts ≡ length nodes }
        requires begun { AreFirsts firsts (trees nodes) }
        ensures nodes { IfOk result (λ p. p.nodes ≡ nodes) }
        ensures root { IfOk result (λ p. p.root ≡ root) }
        ensures groups { IfOk result (λ p. p.groups ≡ groups) }
        ensures starts { IfOk result (λ p. AreStarts p.starts (tree_in nodes root)) }
        ensures needs { IfOk result (λ p. p.needs ≡ needs) }
    {
        let starts = flags_of(alloc, firsts.get(root).unwrap_or(nowhere()))?;
        let jumps_from = long_from(nodes.as_slice());
        let jumps = jumps_of(alloc, nodes.as_slice(), &firsts, jumps_from)?;
        let lengths = lengths_in(alloc, nodes.as_slice(), looks_back)?;
        Ok(Program {
            nodes,
            root,
            groups,
            starts,
            firsts,
            jumps_from,
            jumps,
            needs,
            lengths,
        })
    }

    /// The node at the place: its tree is made of those of its parts. There is none past the end.
    pub fn node(&self, place: usize) -> Option<&Node>
        ensures spelt { AreSpelt self.now.nodes → IfSome result (λ n. is_text n.now ≡ false) }
        ensures is { IsNodeOf (trees_of self.now) place result }
    {
        self.nodes.get(place)
    }

    /// How many bytes matches of the node read, if that is known.
    pub fn length_of(&self, node: usize) -> Lengths
        ensures { HasLengths (slice_index_or (trees_of self.now) node nothing) result }
    {
        match self.lengths.get(node) {
            Some(lengths) => *lengths,
            None => any_number(),
        }
    }

    /// Whether no match of the node begins at the place, as what stands there tells.
    #[inline]
    pub fn none_begins_at(&self, text: &str, place: usize, node: usize) -> bool
        requires { IsCharBoundary text.now place }
        ensures { result ≡ true → (g : Groups)
            → matches text.now (slice_index_or (trees_of self.now) node nothing) place g ≡ [] }
    {
        match self.firsts.get(node) {
            Some(places) => !is_in(places, start_at(text, place)),
            None => false,
        }
    }

    /// The node after the first branches of a long alternation, which have no match at the place,
    /// as what stands there tells. None where they may have one, and for other nodes.
    #[inline]
    pub fn past_branches(&self, text: &str, place: usize, node: usize) -> Option<usize>
        requires { IsCharBoundary text.now place }
        ensures { IfSome result (λ rest. ∥ LeadsPast text.now place
            (slice_index_or (trees_of self.now) node nothing)
            (slice_index_or (trees_of self.now) rest nothing) ∥₁) }
    {
        let Some(jump) = jump_of(self.jumps.as_slice(), self.jumps_from, node) else {
            return None;
        };
        if jump.count == 0 || is_in(jump.places(), start_at(text, place)) {
            return None;
        }
        Some(jump.to)
    }

    /// How many of these places, from this one back, have no match of the node, as is seen there.
    pub fn dead_ends(&self, text: &str, place: usize, count: usize, node: usize) -> usize
        requires { (m : ℕ) → m < count → IsCharBoundary text.now (place - m) }
        ensures inside { result ≤ count }
        ensures dead { (m : ℕ) → m < result → (g : Groups)
            → matches text.now (slice_index_or (trees_of self.now) node nothing) (place - m) g
            ≡ [] }
    {
        let mut ends = 0;
        while ends < count && self.none_begins_at(text, place.saturating_sub(ends), node) {
            ends += 1;
        }
        ends
    }

    /// The first place from here to `end` where a match can begin, as the bytes tell, or `end`.
    pub fn next_start_up_to(&self, text: &str, place: usize, end: usize) -> usize
        requires order { place ≤ end }
        requires within { end ≤ length text.now }
        ensures later { place ≤ result }
        ensures inside { result ≤ end }
        ensures skipped { (k : ℕ) → place ≤ k → k < result → CannotBegin text.now self.now k }
    {
        next_flagged(self.starts.as_slice(), text.as_bytes(), place, end)
    }
}

/// The first place from this one on whose byte is flagged, or `end`.
fn next_flagged(flags: &[bool], text: &[u8], place: usize, end: usize) -> usize
    requires order { place ≤ end }
    requires within { end ≤ length text.now }
    ensures later { place ≤ result }
    ensures inside { result ≤ end }
    ensures skipped { (k : ℕ) → place ≤ k → k < result
        → slice_index_or flags.now (min (slice_index text.now k) 128) true ≡ false }
{
    let mut next = place;
    while next < end && !flag_at(flags, text[next].min(128)) {
        next += 1;
    }
    next
}

/// The flag of what stands at a place, which is true past the end.
fn flag_at(flags: &[bool], c: u8) -> bool
    ensures { result ≡ slice_index_or flags.now c true }
{
    flags.get(c as usize).copied().unwrap_or(true)
}
