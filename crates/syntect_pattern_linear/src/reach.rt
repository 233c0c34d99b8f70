//! Where the whole match ends from a cell at a place, by the rows of the places after it.
ghost use Rattle.std.specs.Prelude.{◌≡◌, ◌<◌, ℕ, suc, length, true, false, not, if◌then◌else◌};
ghost use Rattle.syntect_pattern_linear.specs.syntect_pattern_table.Table.{is_text};
ghost use Rattle.syntect_pattern_plan.specs.Onward.{end_if, has_turn, prefer_end};
ghost use Rattle.syntect_pattern_linear.specs.Ground.{IsIn, IsReady, Knows, ends_at, height_of};
ghost use Rattle.syntect_pattern_linear.specs.Steps.{Takes};
ghost use Rattle.syntect_pattern_linear.specs.Step.{IsLoopAt, IsNodeAt};

use crate::ground::{Ground, Known};
use crate::known::{keep, known_at};
use crate::rows::{end_at, end_from, flag_at};
use crate::syntect_count::count::GhostCount;
use crate::syntect_pattern_steps::anchor::anchor_holds;
use crate::syntect_pattern_steps::past::{past_char, past_class};
use crate::syntect_pattern_table::node::Node;
use syntect_pattern_plan::cells::{CellPart, cell_at, parts_at};

/// Where the whole match ends, if the cell goes on at the place.
#[cycle(reach)]
#[inline(always)]
pub fn reach(
    ground: &Ground,
    now: &mut Known,
    count: &mut GhostCount,
    place: usize,
    cell: usize,
) -> Option<usize>
    requires ready { IsReady ground.now place }
    requires cell { IsIn ground.now cell }
    requires known { Knows ground.now place now.old.items }
    requires long { length now.old.items ≡ length ground.now.plan.now.cells }
    ensures value { result ≡ ends_at ground.now cell place }
    ensures known { Knows ground.now place now.new.items }
    ensures steps { Takes ground.now (suc (height_of ground.now cell)) now.old.items count.old.made
        now.new.items count.new.made 1 }
    ensures counted { count.old.made < count.new.made }
{
    count.tick();
    if let Some(known) = known_at(now.as_slice(), cell) {
        return known;
    }
    let end = reach_item(ground, now, count, place, cell);
    keep(now, cell, Some(end));
    end
}

/// Where the whole match ends, if the test holds and the cell goes on at the place; else none.
#[cycle(reach)]
#[inline(always)]
fn reach_if(
    ground: &Ground,
    now: &mut Known,
    count: &mut GhostCount,
    place: usize,
    cell: usize,
    test: bool,
) -> Option<usize>
    requires ready { IsReady ground.now place }
    requires cell { test ≡ true → IsIn ground.now cell }
    requires known { Knows ground.now place now.old.items }
    requires long { length now.old.items ≡ length ground.now.plan.now.cells }
    ensures value { result ≡ end_if test (ends_at ground.now cell place) }
    ensures known { Knows ground.now place now.new.items }
    ensures steps { (high : ℕ) → (test ≡ true → height_of ground.now cell < high)
        → Takes ground.now high now.old.items count.old.made now.new.items count.new.made 1 }
{
    if test {
        reach(ground, now, count, place, cell)
    } else {
        None
    }
}

/// Where the whole match ends, if the cell goes on at the place, by the cell's item.
#[cycle(reach)]
#[inline(never)]
fn reach_item(
    ground: &Ground,
    now: &mut Known,
    count: &mut GhostCount,
    place: usize,
    cell: usize,
) -> Option<usize>
    requires ready { IsReady ground.now place }
    requires cell { IsIn ground.now cell }
    requires known { Knows ground.now place now.old.items }
    requires long { length now.old.items ≡ length ground.now.plan.now.cells }
    ensures value { result ≡ ends_at ground.now cell place }
    ensures known { Knows ground.now place now.new.items }
    ensures steps { Takes ground.now (height_of ground.now cell) now.old.items count.old.made
        now.new.items count.new.made 2 }
{
    let at = cell_at(ground.plan.cells.as_slice(), cell);
    match at.item {
        CellPart::End => Some(place),
        CellPart::Turns {
            greedy,
            least,
            most,
            body: _,
        } => reach_loop(ground, now, count, place, cell, greedy, least, most),
        CellPart::Node(node) => match ground.program.node(node) {
            Some(node) => reach_node(ground, now, count, place, cell, node),
            None => reach(ground, now, count, place, at.empty),
        },
    }
}

/// Where the whole match ends, if the cell of a node goes on at the place.
#[cycle(reach)]
fn reach_node(
    ground: &Ground,
    now: &mut Known,
    count: &mut GhostCount,
    place: usize,
    cell: usize,
    node: &Node,
) -> Option<usize>
    requires ready { IsReady ground.now place }
    requires node { IsNodeAt ground.now cell node.now }
    requires spelt { is_text node.now ≡ false }
    requires known { Knows ground.now place now.old.items }
    requires long { length now.old.items ≡ length ground.now.plan.now.cells }
    ensures value { result ≡ ends_at ground.now cell place }
    ensures known { Knows ground.now place now.new.items }
    ensures steps { Takes ground.now (height_of ground.now cell) now.old.items count.old.made
        now.new.items count.new.made 2 }
{
    let at = cell_at(ground.plan.cells.as_slice(), cell);
    let parts = parts_at(ground.plan.parts.as_slice(), cell);
    match node {
        Node::Nothing => reach(ground, now, count, place, at.empty),
        Node::Char(wanted) => {
            let next = past_char(ground.text, place, *wanted);
            end_from(ground.rows, ground.text, next, at.next)
        }
        Node::Class(class) => {
            let next = past_class(ground.text, place, class);
            end_from(ground.rows, ground.text, next, at.next)
        }
        Node::Anchor(anchor) => {
            let holds = anchor_holds(ground.text, place, *anchor);
            reach_if(ground, now, count, place, at.empty, holds)
        }
        Node::Same { .. } | Node::Text { .. } => None,
        Node::Sequence(_, _) => reach(ground, now, count, place, parts.first),
        Node::Alternation(_, _) => {
            if let Some(end) = reach(ground, now, count, place, parts.first) {
                return Some(end);
            }
            reach(ground, now, count, place, parts.second)
        }
        Node::Repeat {
            greedy,
            least,
            most,
            body: _,
        } => reach_loop(ground, now, count, place, cell, *greedy, *least, *most),
        Node::Group { .. } => reach(ground, now, count, place, parts.first),
        Node::Atomic(_) => {
            let end = reach(ground, now, count, place, parts.first)?;
            if end == place {
                return reach(ground, now, count, place, at.empty);
            }
            end_at(ground.rows, ground.text.len().saturating_sub(end), at.next)
        }
        Node::Ahead { negated, body: _ } => {
            let found = reach(ground, now, count, place, parts.first).is_some();
            reach_if(ground, now, count, place, at.empty, looks(found, *negated))
        }
        Node::Behind { negated, body: _ } => {
            let found = flag_at(ground.sights, parts.first, place);
            reach_if(ground, now, count, place, at.empty, looks(found, *negated))
        }
    }
}

/// Where the whole match ends, if the cell of a loop goes on at the place.
#[cycle(reach)]
fn reach_loop(
    ground: &Ground,
    now: &mut Known,
    count: &mut GhostCount,
    place: usize,
    cell: usize,
    greedy: bool,
    least: u32,
    most: Option<u32>,
) -> Option<usize>
    requires ready { IsReady ground.now place }
    requires turns { IsLoopAt ground.now cell greedy least most }
    requires known { Knows ground.now place now.old.items }
    requires long { length now.old.items ≡ length ground.now.plan.now.cells }
    ensures value { result ≡ ends_at ground.now cell place }
    ensures known { Knows ground.now place now.new.items }
    ensures steps { Takes ground.now (height_of ground.now cell) now.old.items count.old.made
        now.new.items count.new.made 2 }
{
    let at = cell_at(ground.plan.cells.as_slice(), cell);
    let parts = parts_at(ground.plan.parts.as_slice(), cell);
    let turn = reach_if(ground, now, count, place, parts.first, may_turn(most));
    let leave = reach_if(ground, now, count, place, at.empty, least == 0);
    prefer(greedy, turn, leave)
}

/// Whether a lookaround holds, by whether its part was found.
pub fn looks(found: bool, negated: bool) -> bool
    ensures { result ≡ (if negated then not found else found) }
{
    found != negated
}

/// Whether there may be a turn.
pub fn may_turn(most: Option<u32>) -> bool
    ensures { result ≡ has_turn most }
{
    match most {
        Some(0) => false,
        _ => true,
    }
}

/// The one end or the other: a greedy loop prefers a turn.
fn prefer(greedy: bool, turn: Option<usize>, leave: Option<usize>) -> Option<usize>
    ensures { result ≡ prefer_end greedy turn leave }
{
    if greedy {
        turn.or(leave)
    } else {
        leave.or(turn)
    }
}
