//! Places of a text that are alike for a plan: the same character stands at both, the rows after it
//! are equal, and anchors and lookbehinds hold at both or at neither. Their rows are equal then, so
//! that one of them is enough.
ghost use Rattle.std.specs.Prelude.{◌≡◌, ◌<◌, ℕ, IfSome, false, is_some, length, true};
ghost use Rattle.syntect_pattern_linear.specs.Alike as spec;
ghost use Rattle.syntect_pattern_linear.specs.Alike.{AreAlike, IsLoose, IsSpot, SeesAlike};
ghost use Rattle.syntect_pattern_linear.specs.Ground.{IsIn, ends_at};
ghost use Rattle.syntect_pattern_linear.specs.Marks.{IsMarked};
ghost use Rattle.syntect_pattern_plan.specs.Sights.{row_flag};

use crate::ground::Ground;
use crate::marks::Marks;
use crate::rows::flag_at;
use crate::syntect_pattern::anchor::Anchor;
use crate::syntect_pattern_steps::anchor::anchor_holds;
use crate::syntect_pattern_steps::text::{char_at, is_boundary};
use crate::syntect_pattern_table::node::Node;
use std::alloc::{AllocError, Global};
use syntect_pattern_plan::cells::{CellPart, cell_at};

/// In how many slots a place like another one is looked for.
const SLOTS: usize = 1024;

/// What stands at a place.
#[derive(Clone, Copy)]
struct Spot {
    place: usize,
    c: char,
    /// The row of the place after the character.
    row: usize,
    at_edge: bool,
    at_line: bool,
}

/// What stands at the place, unless it is the first or one of the last two of the text, where
/// anchors hold that hold nowhere else.
fn spot_at(text: &str, place: usize) -> Option<Spot>
    ensures { IfSome result (λ v. IsSpot text.now place v) }
{
    if place == 0 || place >= text.len().saturating_sub(1) || !is_boundary(text, place) {
        return None;
    }
    let c = char_at(text, place)?;
    Some(Spot {
        place,
        c,
        row: text.len() - (place + c.len_utf8()),
        at_edge: anchor_holds(text, place, Anchor::WordEdge),
        at_line: anchor_holds(text, place, Anchor::LineStart),
    })
}

/// Whether lookbehinds hold at both places or at neither.
fn sees_alike(ground: &Ground, place: usize, other: usize) -> bool
    ensures { result ≡ true → SeesAlike ground.now place other }
{
    for row in 0..ground.sights.len() {
        if flag_at(ground.sights, row, place) != flag_at(ground.sights, row, other) {
            return false;
        }
    }
    true
}

impl Spot {
    /// The slot of the places that are alike.
    fn slot(self, marks: &Marks) -> usize
        ensures { result < 1024 }
    {
        let row = marks.number(self.row).wrapping_mul(0x9e37_79b9);
        let mut sum = row.wrapping_add(self.c as usize);
        sum = sum.wrapping_mul(4);
        if self.at_edge {
            sum = sum.wrapping_add(1);
        }
        if self.at_line {
            sum = sum.wrapping_add(2);
        }
        (sum.wrapping_mul(0x85eb_ca6b) >> 15) % SLOTS
    }

    /// Whether they are alike.
    fn is_like(self, other: Spot, ground: &Ground, marks: &Marks) -> bool
        requires here { IsSpot ground.now.text.now self.place self }
        requires there { IsSpot ground.now.text.now other.place other }
        ensures { result ≡ true → AreAlike ground.now marks.now self.place other.place }
    {
        self.c == other.c
            && self.at_edge == other.at_edge
            && self.at_line == other.at_line
            && marks.are_same(self.row, other.row)
            && sees_alike(ground, self.place, other.place)
    }
}

/// Places that were marked, each in the slot of those that are like it.
#[derive(Drop)]
pub struct Seen {
    slots: Vec<usize>,
}

impl Seen {
    /// No place.
    pub fn new(alloc: Global) -> Result<Seen, AllocError> {
        let mut slots = Vec::with_capacity(alloc, SLOTS)?;
        for _slot in 0..SLOTS {
            slots.push(0)?;
        }
        Ok(Seen { slots })
    }

    /// The place that stands in the slot, in whose stead this one stands there from now on.
    fn replace(&mut self, slot: usize, place: usize) -> usize {
        if slot >= self.slots.len() {
            return 0;
        }
        let other = self.slots[slot];
        self.slots[slot] = place;
        other
    }

    /// The row of a later place that is like this one, if one is seen.
    /// This one is seen from then on.
    pub fn row_like(&mut self, ground: &Ground, marks: &Marks, place: usize) -> Option<usize>
        requires marked { IsMarked ground.now marks.now place }
        requires loose { IsLoose ground.now }
        ensures there { IfSome result (λ row. row < length marks.now) }
        ensures leads { IfSome result (λ row. (k : ℕ) → IsIn ground.now k
            → row_flag marks.now row k ≡ is_some (ends_at ground.now k place)) }
    {
        let here = spot_at(ground.text, place)?;
        let other = self.replace(here.slot(marks), place);
        if other <= place {
            return None;
        }
        let there = spot_at(ground.text, other)?;
        if here.is_like(there, ground, marks) {
            Some(ground.text.len() - other)
        } else {
            None
        }
    }
}

/// Whether the cell is an atomic group.
fn is_atomic(ground: &Ground, cell: usize) -> bool
    ensures { result ≡ spec.is_atomic_at ground.now cell }
{
    let CellPart::Node(node) = cell_at(ground.plan.cells.as_slice(), cell).item else {
        return false;
    };
    matches!(ground.program.node(node), Some(Node::Atomic(_)))
}

/// Whether no cell is an atomic group.
pub fn is_loose(ground: &Ground) -> bool
    ensures { result ≡ true → IsLoose ground.now }
{
    for cell in 0..ground.plan.cells.len() {
        if is_atomic(ground, cell) {
            return false;
        }
    }
    true
}
