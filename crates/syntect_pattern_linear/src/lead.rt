//! Whether the whole match ends anywhere from a cell at a place, by what is known of the cells that
//! it goes on with: of those at the place, and of all at later places. Where a match ends is not
//! asked, so that atomic groups can't be decided.
ghost use Rattle.std.specs.Prelude.{◌≡◌, ◌-◌, IfSome, false, true, is_some, length, option_map, unwrap_or};
ghost use Rattle.std.specs.Option.{option_or};
ghost use Rattle.syntect_pattern_linear.specs.syntect_pattern_table.Table.{is_text};
ghost use Rattle.syntect_pattern_plan.specs.Onward.{end_if};
ghost use Rattle.syntect_pattern_linear.specs.Ground.{IsGround, IsIn, ends_at};
ghost use Rattle.syntect_pattern_linear.specs.Marks.{IsMarked, KnowsLeads};
ghost use Rattle.syntect_pattern_plan.specs.Sights.{row_flag};
ghost use Rattle.syntect_pattern_linear.specs.Step.{IsLoopAt, IsNodeAt};

use crate::ground::Ground;
use crate::known::known_at;
use crate::marks::Marks;
use crate::reach::{looks, may_turn};
use crate::rows::flag_at;
use crate::syntect_pattern_steps::anchor::anchor_holds;
use crate::syntect_pattern_steps::past::{past_char, past_class};
use crate::syntect_pattern_table::node::Node;
use syntect_pattern_plan::cells::{CellPart, cell_at, parts_at};

/// Whether the whole match ends anywhere, if the cell goes on at the place, as far as it is known.
#[inline]
fn lead(ground: &Ground, here: &[Option<bool>], place: usize, cell: usize) -> Option<bool>
    requires { KnowsLeads ground.now place here.now }
    ensures { IfSome result (λ b. b ≡ is_some (ends_at ground.now cell place)) }
{
    known_at(here, cell)
}

/// Whether the whole match ends anywhere, if the test holds and the cell goes on at the place, as
/// far as it is known.
#[inline]
fn lead_if(
    ground: &Ground,
    here: &[Option<bool>],
    place: usize,
    cell: usize,
    test: bool,
) -> Option<bool>
    requires { KnowsLeads ground.now place here.now }
    ensures { IfSome result (λ b. b ≡ is_some (end_if test (ends_at ground.now cell place))) }
{
    if test {
        lead(ground, here, place, cell)
    } else {
        Some(false)
    }
}

/// Whether the whole match ends anywhere, if either of two cells goes on at the place, as far as it
/// is known.
fn lead_either(
    ground: &Ground,
    here: &[Option<bool>],
    place: usize,
    first: usize,
    second: usize,
) -> Option<bool>
    requires { KnowsLeads ground.now place here.now }
    ensures { IfSome result (λ b. b
        ≡ is_some (option_or (ends_at ground.now first place) (ends_at ground.now second place))) }
{
    if lead(ground, here, place, first)? {
        return Some(true);
    }
    lead(ground, here, place, second)
}

/// Whether the whole match ends anywhere, if the cell goes on at a later place;
/// false if there is none.
#[inline]
fn lead_past(ground: &Ground, marks: &Marks, next: Option<usize>, cell: usize) -> bool
    ensures { result ≡ unwrap_or (option_map
        (λ j. row_flag marks.now (length ground.now.text.now - j) cell) next) false }
{
    match next {
        Some(place) => marks.leads(ground.text.len().saturating_sub(place), cell),
        None => false,
    }
}

/// Whether the whole match ends anywhere from a cell at a place.
pub fn lead_by(
    ground: &Ground,
    marks: &Marks,
    here: &[Option<bool>],
    place: usize,
    cell: usize,
) -> Option<bool>
    requires marked { IsMarked ground.now marks.now place }
    requires cell { IsIn ground.now cell }
    requires known { KnowsLeads ground.now place here.now }
    ensures { IfSome result (λ b. b ≡ is_some (ends_at ground.now cell place)) }
{
    let at = cell_at(ground.plan.cells.as_slice(), cell);
    match at.item {
        CellPart::End => Some(true),
        CellPart::Turns {
            greedy,
            least,
            most,
            body: _,
        } => lead_loop(ground, here, place, cell, greedy, least, most),
        CellPart::Node(node) => match ground.program.node(node) {
            Some(node) => lead_node(ground, marks, here, place, cell, node),
            None => lead(ground, here, place, at.empty),
        },
    }
}

/// Whether the whole match ends anywhere from the cell of a node at a place, as far as it is known.
fn lead_node(
    ground: &Ground,
    marks: &Marks,
    here: &[Option<bool>],
    place: usize,
    cell: usize,
    node: &Node,
) -> Option<bool>
    requires marked { IsMarked ground.now marks.now place }
    requires node { IsNodeAt ground.now cell node.now }
    requires spelt { is_text node.now ≡ false }
    requires known { KnowsLeads ground.now place here.now }
    ensures { IfSome result (λ b. b ≡ is_some (ends_at ground.now cell place)) }
{
    let at = cell_at(ground.plan.cells.as_slice(), cell);
    let parts = parts_at(ground.plan.parts.as_slice(), cell);
    match node {
        Node::Nothing => lead(ground, here, place, at.empty),
        Node::Char(wanted) => {
            let next = past_char(ground.text, place, *wanted);
            Some(lead_past(ground, marks, next, at.next))
        }
        Node::Class(class) => {
            let next = past_class(ground.text, place, class);
            Some(lead_past(ground, marks, next, at.next))
        }
        Node::Anchor(anchor) => {
            let holds = anchor_holds(ground.text, place, *anchor);
            lead_if(ground, here, place, at.empty, holds)
        }
        Node::Sequence(_, _) => lead(ground, here, place, parts.first),
        Node::Alternation(_, _) => lead_either(ground, here, place, parts.first, parts.second),
        Node::Repeat {
            greedy,
            least,
            most,
            body: _,
        } => lead_loop(ground, here, place, cell, *greedy, *least, *most),
        Node::Group { .. } => lead(ground, here, place, parts.first),
        Node::Ahead { negated, body: _ } => {
            let found = lead(ground, here, place, parts.first)?;
            lead_if(ground, here, place, at.empty, looks(found, *negated))
        }
        Node::Behind { negated, body: _ } => {
            let found = flag_at(ground.sights, parts.first, place);
            lead_if(ground, here, place, at.empty, looks(found, *negated))
        }
        Node::Atomic(_) | Node::Same { .. } | Node::Text { .. } => None,
    }
}

/// Whether the whole match ends anywhere from the cell of a loop at a place, as far as it is known.
/// Which of its ways is preferred makes no difference.
fn lead_loop(
    ground: &Ground,
    here: &[Option<bool>],
    place: usize,
    cell: usize,
    greedy: bool,
    least: u32,
    most: Option<u32>,
) -> Option<bool>
    requires ground { IsGround ground.now place }
    requires turns { IsLoopAt ground.now cell greedy least most }
    requires known { KnowsLeads ground.now place here.now }
    ensures { IfSome result (λ b. b ≡ is_some (ends_at ground.now cell place)) }
{
    let at = cell_at(ground.plan.cells.as_slice(), cell);
    let parts = parts_at(ground.plan.parts.as_slice(), cell);
    let turn = lead_if(ground, here, place, parts.first, may_turn(most))?;
    if turn {
        return Some(true);
    }
    lead_if(ground, here, place, at.empty, least == 0)
}
