//! The plan of a search: the cells of a pattern.
//!
//! What may read nothing can stand before one thing that goes on at its place and another after it:
//! the body of a loop does, since a turn that reads nothing leaves the loop. Such a cell stands
//! beside one of the same item before what goes on after it alone, and their parts share their
//! cells as far as each match of a part reads something. So a part takes one cell, and one more for
//! each loop around it that it lets through without reading; only turns that are counted take cells
//! for each.
ghost use Rattle.std.specs.Prelude.{◌≡◌, ℕ, ◌<◌, ◌≤◌, ◌+◌, ◌-◌, [], ◌∷◌, ◌++◌, Bool, IfOk, IfNone, IfSome, OnOk, is_some, List, length, option_map, slice_index_or, is_none, ◌&&◌, ◌==◌, Some, true, false};
ghost use Rattle.syntect_pattern_plan.specs.Build as build;
ghost use Rattle.syntect_pattern_plan.specs.syntect_pattern.Trees.{Tree, alt, group, nothing, repeat, seq};

use crate::cells::{Cell, CellPart, Parts, Source, cell_at, partner_of, parts_at};
use crate::facts::{Facts, facts_at, facts_of};
use crate::syntect_pattern_table::node::Node;
use crate::syntect_pattern_table::program::Program;
use crate::syntect_values::seq::Seq;
use std::alloc::{AllocError, Global};
use syntect_count::count::GhostCount;

/// At most about so many cells a plan has; so many bytes of a pattern count where steps are worked
/// out.
pub const MOST_CELLS: usize = 40000;

/// No parts.
const NO_PARTS: Parts = Parts {
    first: 0,
    second: 0,
};

/// The cells of a pattern.
#[derive(Drop)]
pub struct Plan {
    /// Cell 0 is the end, and cell 1 is that of the whole pattern.
    pub cells: Seq<Cell>,
    /// The cells of their parts.
    pub parts: Seq<Parts>,
    /// What lookbehinds look for.
    pub behinds: Seq<usize>,
    /// What is known of each node.
    pub facts: Seq<Facts>,
}

impl Plan {
    ghost use Rattle.syntect_pattern_plan.specs.syntect_pattern_table.Program.{trees_of};
    ghost use Rattle.syntect_pattern_plan.specs.syntect_pattern_table.Table.{AreSpelt, is_text, node_tree};
    ghost use Rattle.syntect_pattern_plan.specs.Cells as spec;
    ghost use Rattle.syntect_pattern_plan.specs.Facts.{AreFacts};
    ghost use Rattle.syntect_pattern_plan.specs.Linear.{is_linear, most_cells};
    ghost use Rattle.syntect_pattern_plan.specs.Onward.{is_free};
    ghost use Rattle.syntect_pattern_plan.specs.Plan.{IsEasy, IsHard, IsPart, IsPlanned, LooksFor, cells_of, others_of, plan_cells};
    ghost use Rattle.syntect_pattern_plan.specs.Build.{Adds, AddsMore, AreBuilt, Expands, IsSame, Makes, MakesBeside, MakesOwn, all_cells, tree_at};
    ghost use Rattle.syntect_pattern_plan.specs.PlanOf.{IsPlanOf};

    /// One cell more.
    fn push(&mut self, cell: Cell) -> Result<usize, AllocError>
        ensures number { IfOk result (λ k. k ≡ length self.old.cells) }
        ensures cells { IfOk result (λ _. self.new.cells ≡ self.old.cells ++ cell ∷ []) }
        ensures others { self.new ≡ record self.old { cells = self.new.cells } }
    {
        let number = self.cells.len();
        self.cells.push(cell)?;
        Ok(number)
    }

    /// A cell for the node, before the same at its place and after it.
    fn push_own(&mut self, node: usize, next: usize) -> Result<usize, AllocError>
        ensures cell { IfOk result (λ k. (ts : List Tree) → AreBuilt ts self.old.cells
            → next < length self.old.cells → is_free (tree_at ts node) ≡ true
            → Adds ts self.old.cells (tree_at ts node) next next (cells_of (tree_at ts node)) k
            self.new.cells) }
        ensures number { IfOk result (λ k. k ≡ length self.old.cells) }
        ensures others { self.new ≡ record self.old { cells = self.new.cells } }
    {
        self.push(Cell {
            item: CellPart::Node(node),
            empty: next,
            next,
            source: Source::Own,
        })
    }

    /// A cell for the node, which has a cell already, before something else at its place. Where
    /// each match of the node reads something nothing goes on at its place, so the cell that it has
    /// will do.
    fn push_beside(&mut self, node: usize, cell: usize, empty: usize) -> Result<usize, AllocError>
        ensures cell { IfOk result (λ k. (ts : List Tree) (f g : ℕ) → AreFacts self.old.facts ts
            → AreBuilt ts self.old.cells → empty < length self.old.cells
            → IsPart ts self.old.cells cell (tree_at ts node) f g
            → Adds ts self.old.cells (tree_at ts node) empty g (others_of (tree_at ts node)) k
            self.new.cells) }
        ensures others { self.new ≡ record self.old { cells = self.new.cells } }
    {
        if facts_at(self.facts.as_slice(), node).reads {
            return Ok(cell);
        }
        let next = cell_at(self.cells.as_slice(), cell).next;
        let partner = partner_of(self.cells.as_slice(), cell);
        self.push(Cell {
            item: CellPart::Node(node),
            empty,
            next,
            source: Source::Beside(partner),
        })
    }

    /// The cell of a loop after a turn, which may be the loop's own.
    fn push_more(
        &mut self,
        number: usize,
        next: usize,
        greedy: bool,
        least: u32,
        most: Option<u32>,
        body: usize,
    ) -> Result<usize, AllocError>
        ensures cell { IfOk result (λ more. (ts : List Tree) → AreBuilt ts self.old.cells
            → IsSame ts self.old.cells number (repeat greedy least most (tree_at ts body)) next
            → (most ≡ Some 0 → ⊥)
            → AddsMore ts self.old.cells next greedy least most (tree_at ts body) more
            self.new.cells) }
        ensures others { self.new ≡ record self.old { cells = self.new.cells } }
    {
        if stays_same(least, most) {
            return Ok(number);
        }
        let item = CellPart::Turns {
            greedy,
            least: least.saturating_sub(1),
            most: one_less(most),
            body,
        };
        self.push(Cell {
            item,
            empty: next,
            next,
            source: turn_source(number, least, most),
        })
    }

    /// The parts of a loop, before the same at its place and after it.
    fn own_turns(
        &mut self,
        number: usize,
        next: usize,
        greedy: bool,
        least: u32,
        most: Option<u32>,
        body: usize,
    ) -> Result<Parts, AllocError>
        ensures step { IfOk result (λ p. (ts : List Tree) → AreFacts self.old.facts ts
            → MakesOwn ts self.old number next (repeat greedy least most (tree_at ts body)) p
            self.new) }
        ensures others { self.new ≡ record self.old { cells = self.new.cells } }
    {
        if most == Some(0) {
            return Ok(NO_PARTS);
        }
        let more = self.push_more(number, next, greedy, least, most, body)?;
        let turn = self.push_own(body, more)?;
        let first = self.push_beside(body, turn, next)?;
        Ok(Parts { first, second: 0 })
    }

    /// The parts of a sequence, before the same at its place and after it.
    fn own_sequence(
        &mut self,
        next: usize,
        first: usize,
        second: usize,
    ) -> Result<Parts, AllocError>
        ensures step { IfOk result (λ p. (ts : List Tree) (number : ℕ)
            → MakesOwn ts self.old number next (seq (tree_at ts first) (tree_at ts second)) p
            self.new) }
        ensures others { self.new ≡ record self.old { cells = self.new.cells } }
    {
        let behind = self.push_own(second, next)?;
        let first = self.push_own(first, behind)?;
        Ok(Parts { first, second: 0 })
    }

    /// Two parts, either of which goes on as the node does.
    fn own_branches(
        &mut self,
        next: usize,
        first: usize,
        second: usize,
    ) -> Result<Parts, AllocError>
        ensures step { IfOk result (λ p. (ts : List Tree) (number : ℕ)
            → MakesOwn ts self.old number next (alt (tree_at ts first) (tree_at ts second)) p
            self.new) }
        ensures others { self.new ≡ record self.old { cells = self.new.cells } }
    {
        let first = self.push_own(first, next)?;
        let second = self.push_own(second, next)?;
        Ok(Parts { first, second })
    }

    /// One part.
    fn own_part(&mut self, part: usize, next: usize) -> Result<Parts, AllocError>
        ensures cell { IfOk result (λ p. (ts : List Tree) → AreBuilt ts self.old.cells
            → next < length self.old.cells → is_free (tree_at ts part) ≡ true
            → Adds ts self.old.cells (tree_at ts part) next next (cells_of (tree_at ts part))
            p.first self.new.cells) }
        ensures others { self.new ≡ record self.old { cells = self.new.cells } }
    {
        let first = self.push_own(part, next)?;
        Ok(Parts { first, second: 0 })
    }

    /// The number of what a lookbehind looks for. In a loop that is spelt out it is the same for
    /// each turn.
    fn look_for(&mut self, body: usize) -> Result<usize, AllocError>
        ensures there { IfOk result (λ k. (ts : List Tree)
            → LooksFor ts self.new.behinds k (tree_at ts body)) }
        ensures kept { OnOk result ((ts : List Tree) (n : ℕ) (a : Tree)
            → LooksFor ts self.old.behinds n a → LooksFor ts self.new.behinds n a) }
        ensures others { self.new ≡ record self.old { behinds = self.new.behinds } }
    {
        for number in 0..self.behinds.len() {
            if self.behinds.as_slice()[number] == body {
                return Ok(number);
            }
        }
        let number = self.behinds.len();
        self.behinds.push(body)?;
        Ok(number)
    }

    /// The parts of a node, before the same at its place and after it.
    fn own_node(&mut self, node: &Node, number: usize, next: usize) -> Result<Parts, AllocError>
        requires spelt { is_text node.now ≡ false }
        ensures step { IfOk result (λ p. (ts : List Tree) → AreFacts self.old.facts ts
            → MakesOwn ts self.old number next (node_tree ts node.now) p self.new) }
        ensures facts { self.new.facts ≡ self.old.facts }
        ensures parts { self.new.parts ≡ self.old.parts }
    {
        match node {
            Node::Sequence(first, second) => self.own_sequence(next, *first, *second),
            Node::Alternation(first, second) => self.own_branches(next, *first, *second),
            Node::Repeat {
                greedy,
                least,
                most,
                body,
            } => self.own_turns(number, next, *greedy, *least, *most, *body),
            Node::Group { number: _, body } => self.own_part(*body, next),
            Node::Atomic(body) => self.own_part(*body, 0),
            Node::Ahead { negated: _, body } => self.own_part(*body, 0),
            Node::Behind { negated: _, body } => {
                let first = self.look_for(*body)?;
                Ok(Parts { first, second: 0 })
            }
            _ => Ok(NO_PARTS),
        }
    }

    /// The parts of a cell that has cells of its own for them.
    fn own_parts(
        &mut self,
        program: &Program,
        number: usize,
        cell: Cell,
    ) -> Result<Parts, AllocError>
        requires spelt { AreSpelt program.now.nodes }
        requires facts { AreFacts self.old.facts (trees_of program.now) }
        requires built { AreBuilt (trees_of program.now) self.old.cells }
        requires inside { number < length self.old.cells }
        requires cell { spec.cell_at self.old.cells number ≡ cell }
        requires alike { cell.empty ≡ cell.next }
        ensures step { IfOk result (λ p. Makes (trees_of program.now) self.old.cells
            self.old.behinds cell.next cell.next (spec.item_tree (trees_of program.now) cell.item)
            (cells_of (spec.item_tree (trees_of program.now) cell.item)) p self.new.cells
            self.new.behinds) }
        ensures facts { self.new.facts ≡ self.old.facts }
        ensures parts { self.new.parts ≡ self.old.parts }
    {
        match cell.item {
            CellPart::End => Ok(NO_PARTS),
            CellPart::Node(node) => match program.node(node) {
                Some(node) => self.own_node(node, number, cell.next),
                None => Ok(NO_PARTS),
            },
            CellPart::Turns {
                greedy,
                least,
                most,
                body,
            } => self.own_turns(number, cell.next, greedy, least, most, body),
        }
    }

    /// The parts of a sequence, beside those that it has before what goes on after it alone.
    fn beside_sequence(
        &mut self,
        empty: usize,
        parts: Parts,
        first: usize,
        second: usize,
    ) -> Result<Parts, AllocError>
        ensures step { IfOk result (λ p. (ts : List Tree) (g : ℕ) → AreFacts self.old.facts ts
            → MakesBeside ts self.old empty g
            (seq (tree_at ts first) (tree_at ts second)) parts p self.new) }
        ensures others { self.new ≡ record self.old { cells = self.new.cells } }
    {
        let behind = cell_at(self.cells.as_slice(), parts.first).next;
        let at = self.push_beside(second, behind, empty)?;
        let first = self.push_beside(first, parts.first, at)?;
        Ok(Parts { first, second: 0 })
    }

    /// The parts of two branches, beside those that they have before what goes on after them alone.
    fn beside_branches(
        &mut self,
        empty: usize,
        parts: Parts,
        first: usize,
        second: usize,
    ) -> Result<Parts, AllocError>
        ensures step { IfOk result (λ p. (ts : List Tree) (g : ℕ) → AreFacts self.old.facts ts
            → MakesBeside ts self.old empty g
            (alt (tree_at ts first) (tree_at ts second)) parts p self.new) }
        ensures others { self.new ≡ record self.old { cells = self.new.cells } }
    {
        let first = self.push_beside(first, parts.first, empty)?;
        let second = self.push_beside(second, parts.second, empty)?;
        Ok(Parts { first, second })
    }

    /// The parts of a loop, beside those that it has before what goes on after it alone. After a
    /// turn the loop goes on as it does there, since something was read then.
    fn beside_turns(
        &mut self,
        empty: usize,
        parts: Parts,
        most: Option<u32>,
        body: usize,
    ) -> Result<Parts, AllocError>
        ensures step { IfOk result (λ p. (ts : List Tree) (g least : ℕ) (greedy : Bool)
            → AreFacts self.old.facts ts → MakesBeside ts self.old empty g
            (repeat greedy least most (tree_at ts body)) parts p self.new) }
        ensures others { self.new ≡ record self.old { cells = self.new.cells } }
    {
        if most == Some(0) {
            return Ok(NO_PARTS);
        }
        let first = self.push_beside(body, parts.first, empty)?;
        Ok(Parts { first, second: 0 })
    }

    /// The parts of a group, beside those that it has before what goes on after it alone.
    fn beside_group(&mut self, empty: usize, parts: Parts, body: usize) -> Result<Parts, AllocError>
        ensures step { IfOk result (λ p. (ts : List Tree) (g n : ℕ) → AreFacts self.old.facts ts
            → MakesBeside ts self.old empty g (group n (tree_at ts body)) parts p self.new) }
        ensures others { self.new ≡ record self.old { cells = self.new.cells } }
    {
        let first = self.push_beside(body, parts.first, empty)?;
        Ok(Parts { first, second: 0 })
    }

    /// The parts of a node, beside those that it has before what goes on after it alone. What is
    /// matched on its own does not depend on what goes on, so its part is there already.
    fn beside_node(&mut self, node: &Node, empty: usize, parts: Parts) -> Result<Parts, AllocError>
        requires spelt { is_text node.now ≡ false }
        ensures step { IfOk result (λ p. (ts : List Tree) (g : ℕ) → AreFacts self.old.facts ts
            → MakesBeside ts self.old empty g (node_tree ts node.now) parts p self.new) }
        ensures others { self.new ≡ record self.old { cells = self.new.cells } }
    {
        match node {
            Node::Sequence(first, second) => self.beside_sequence(empty, parts, *first, *second),
            Node::Alternation(first, second) => {
                self.beside_branches(empty, parts, *first, *second)
            }
            Node::Repeat {
                greedy: _,
                least: _,
                most,
                body,
            } => self.beside_turns(empty, parts, *most, *body),
            Node::Group { number: _, body } => self.beside_group(empty, parts, *body),
            _ => Ok(parts),
        }
    }

    /// The parts of a cell's item, beside those that it has before what goes on after it alone.
    fn beside_parts(
        &mut self,
        program: &Program,
        item: CellPart,
        empty: usize,
        parts: Parts,
    ) -> Result<Parts, AllocError>
        requires spelt { AreSpelt program.now.nodes }
        ensures step { IfOk result (λ p. (g : ℕ) → AreFacts self.old.facts (trees_of program.now)
            → MakesBeside (trees_of program.now) self.old empty g
            (spec.item_tree (trees_of program.now) item) parts p self.new) }
        ensures others { self.new ≡ record self.old { cells = self.new.cells } }
    {
        match item {
            CellPart::End => Ok(NO_PARTS),
            CellPart::Node(node) => match program.node(node) {
                Some(node) => self.beside_node(node, empty, parts),
                None => Ok(NO_PARTS),
            },
            CellPart::Turns {
                greedy: _,
                least: _,
                most,
                body,
            } => self.beside_turns(empty, parts, most, body),
        }
    }

    /// The parts of the first cell that has none yet.
    fn expand(&mut self, program: &Program, number: usize) -> Result<Parts, AllocError>
        requires spelt { AreSpelt program.now.nodes }
        requires facts { AreFacts self.old.facts (trees_of program.now) }
        requires built { AreBuilt (trees_of program.now) self.old.cells }
        requires planned { IsPlanned (trees_of program.now) self.old.cells self.old.parts
            self.old.behinds program.now.root }
        requires first { number ≡ length self.old.parts }
        requires inside { number < length self.old.cells }
        ensures step { IfOk result (λ p. Expands (trees_of program.now) self.old.cells
            self.old.behinds number p self.new.cells self.new.behinds) }
        ensures facts { self.new.facts ≡ self.old.facts }
        ensures parts { self.new.parts ≡ self.old.parts }
    {
        let cell = cell_at(self.cells.as_slice(), number);
        match cell.source {
            Source::Own => self.own_parts(program, number, cell),
            Source::Shared(from) => Ok(parts_at(self.parts.as_slice(), from)),
            Source::Beside(from) => {
                let parts = parts_at(self.parts.as_slice(), from);
                self.beside_parts(program, cell.item, cell.empty, parts)
            }
        }
    }

    /// The end and the whole pattern.
    fn begin(alloc: Global, program: &Program, facts: Seq<Facts>) -> Result<Plan, AllocError>
        requires facts { AreFacts facts (trees_of program.now) }
        requires free { is_free (slice_index_or (trees_of program.now) program.now.root nothing)
            ≡ true }
        ensures facts { IfOk result (λ plan. AreFacts plan.facts (trees_of program.now)) }
        ensures none { IfOk result (λ plan. plan.parts ≡ []) }
        ensures cost { IfOk result (λ plan. all_cells (trees_of program.now) plan.cells
            ≡ plan_cells (slice_index_or (trees_of program.now) program.now.root nothing)) }
        ensures built { IfOk result (λ plan. AreBuilt (trees_of program.now) plan.cells) }
        ensures planned { IfOk result (λ plan. IsPlanned (trees_of program.now) plan.cells
            plan.parts plan.behinds program.now.root) }
    {
        let mut cells = Seq::new(alloc);
        cells.push(Cell {
            item: CellPart::End,
            empty: 0,
            next: 0,
            source: Source::Own,
        })?;
        let mut plan = Plan {
            cells,
            parts: Seq::new(alloc),
            behinds: Seq::new(alloc),
            facts,
        };
        plan.push_own(program.root, 0)?;
        Ok(plan)
    }

    /// The plan of a program none of whose nodes holds letters in a row, in a step for each cell.
    /// There is none for a pattern that has a back reference, a lookbehind for more than
    /// characters, anchors, sequences and branches, and groups if it is negated, or a lookahead
    /// that sets groups in a loop of more turns than one, nor where too many cells are needed.
    pub fn new(
        alloc: Global,
        program: &Program,
        count: &mut GhostCount,
    ) -> Result<Option<Plan>, AllocError>
        requires spelt { AreSpelt program.now.nodes }
        ensures plan { IfOk result (λ found. IfSome found (λ plan. IsPlanOf program.now plan)) }
        ensures count { IfOk result (λ found. IfSome found (λ plan. length plan.cells
            ≡ plan_cells (slice_index_or (trees_of program.now) program.now.root nothing))) }
        ensures easy { IfOk result (λ found. IfSome found (λ plan. IsEasy most_cells
            (slice_index_or (trees_of program.now) program.now.root nothing))) }
        ensures none { IfOk result (λ found. IfNone found (IsHard most_cells
            (slice_index_or (trees_of program.now) program.now.root nothing))) }
        ensures linear { IfOk result (λ found. is_some found
            ≡ is_linear (slice_index_or (trees_of program.now) program.now.root nothing)) }
        ensures steps { OnOk result (count.new.made ≤ count.old.made
            + plan_cells (slice_index_or (trees_of program.now) program.now.root nothing)) }
        ensures counted { IfOk result (λ found. IfSome found (λ plan. count.new.made
            ≡ count.old.made + length plan.cells)) }
        ensures rises { OnOk result (count.old.made ≤ count.new.made) }
    {
        let facts = facts_of(alloc, program.nodes.as_slice())?;
        if !facts_at(facts.as_slice(), program.root).free {
            return Ok(None);
        }
        let mut plan = Plan::begin(alloc, program, facts)?;
        'cells: while plan.parts.len() < plan.cells.len() {
            if plan.cells.len() > MOST_CELLS {
                return Ok(None);
            }
            count.tick();
            let number = plan.parts.len();
            let parts = plan.expand(program, number)?;
            plan.parts.push(parts)?;
        }
        Ok(Some(plan))
    }
}

/// Whether a loop is the same after a turn.
fn stays_same(least: u32, most: Option<u32>) -> bool
    ensures { result ≡ ((least == 0) && is_none most) }
{
    least == 0 && most.is_none()
}

/// Where the loop after a turn has its parts from: after its one turn a loop without a limit has
/// the parts that it had.
fn turn_source(number: usize, least: u32, most: Option<u32>) -> Source
    ensures { result ≡ build.turn_source number least most }
{
    if least == 1 && most.is_none() {
        Source::Shared(number)
    } else {
        Source::Own
    }
}

/// One turn less, if there is a limit.
pub fn one_less(most: Option<u32>) -> Option<u32>
    ensures { result ≡ option_map (λ k. k - 1) most }
{
    match most {
        Some(most) => Some(most.saturating_sub(1)),
        None => None,
    }
}
