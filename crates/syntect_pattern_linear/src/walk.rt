//! The match that the marks lead along, without a step back.
ghost use Rattle.std.specs.Prelude.{◌≡◌, ◌<◌, suc, ◌&&◌, ◌==◌, not, is_some, slice_set, IfErr, IfOk, OnOk, Some, true, false, if◌then◌else◌};
ghost use Rattle.syntect_pattern_linear.specs.syntect_count.Meter.{Advances, StopsAt};
ghost use Rattle.syntect_pattern_linear.specs.syntect_pattern_table.Table.{is_text};
ghost use Rattle.syntect_pattern_linear.specs.Ground.{IsIn, ends_at};
ghost use Rattle.syntect_pattern_plan.specs.Onward.{end_if, has_turn};
ghost use Rattle.syntect_pattern_plan.specs.Cells as spec;
ghost use Rattle.syntect_pattern_linear.specs.Step.{IsLoopAt, IsNodeAt};
ghost use Rattle.syntect_pattern_linear.specs.Steps.{Costs};
ghost use Rattle.syntect_pattern_linear.specs.Walk.{IsFilled, Walks};

use crate::ground::Ground;
use crate::marks::Marks;
use crate::reach::may_turn;
use crate::syntect_count::meter::Meter;
use crate::syntect_count::stop::Stop;
use crate::syntect_pattern_steps::past::{past_char, past_class};
use crate::syntect_pattern_table::node::Node;
use syntect_pattern_plan::cells::{CellPart, cell_at, parts_at};
use syntect_pattern_plan::facts::facts_at;
use syntect_pattern_plan::plan::one_less;

/// From one place to another.
pub type Span = (usize, usize);

/// Whether the whole match ends anywhere from the cell on.
pub(crate) fn leads(ground: &Ground, marks: &Marks, place: usize, cell: usize) -> bool
    requires filled { IsFilled ground.now marks.now place }
    requires cell { IsIn ground.now cell }
    ensures { result ≡ is_some (ends_at ground.now cell place) }
{
    let row = ground.text.len().saturating_sub(place);
    marks.leads(row, cell)
}

/// The group matched this span.
fn close(groups: &mut Vec<Option<Span>>, group: usize, start: usize, end: usize)
    ensures { groups.new.items ≡ slice_set groups.old.items group (Some (start, end)) }
{
    if group < groups.len() {
        groups[group] = Some((start, end));
    }
}

/// Goes through the cell's item from the place on, to where its match ends, and sets the groups.
/// Each cell is a step, paid before it is entered.
#[cycle(walk)]
pub fn walk(
    ground: &Ground,
    marks: &Marks,
    place: usize,
    cell: usize,
    groups: &mut Vec<Option<Span>>,
    meter: &mut Meter,
) -> Result<usize, Stop>
    requires filled { IsFilled ground.now marks.now place }
    requires cell { IsIn ground.now cell }
    requires real { spec.is_end (spec.cell_at ground.now.plan.now.cells cell).item ≡ false }
    requires found { is_some (ends_at ground.now cell place) ≡ true }
    ensures walks { IfOk result (λ end. Walks ground.now cell place groups.old.items end
        groups.new.items) }
    ensures steps { IfOk result (λ end. Costs ground.now cell place meter.old.made end
        meter.new.made) }
    ensures counted { OnOk result (meter.old.made < meter.new.made) }
    ensures advances { Advances meter.old meter.new }
    ensures stops { IfErr result (StopsAt meter.new) }
{
    meter.spend(1)?;
    let at = cell_at(ground.plan.cells.as_slice(), cell);
    match at.item {
        CellPart::End => Ok(place),
        CellPart::Turns {
            greedy,
            least,
            most,
            body: _,
        } => walk_turns(
            ground, marks, place, cell, groups, meter, greedy, least, most,
        ),
        CellPart::Node(node) => match ground.program.node(node) {
            Some(node) => walk_node(ground, marks, place, cell, groups, meter, node),
            None => Ok(place),
        },
    }
}

/// Goes through a cell's node from the place on, to where its match ends, and sets the groups.
#[cycle(walk)]
fn walk_node(
    ground: &Ground,
    marks: &Marks,
    place: usize,
    cell: usize,
    groups: &mut Vec<Option<Span>>,
    meter: &mut Meter,
    node: &Node,
) -> Result<usize, Stop>
    requires filled { IsFilled ground.now marks.now place }
    requires node { IsNodeAt ground.now cell node.now }
    requires spelt { is_text node.now ≡ false }
    requires found { is_some (ends_at ground.now cell place) ≡ true }
    ensures walks { IfOk result (λ end. Walks ground.now cell place groups.old.items end
        groups.new.items) }
    ensures steps { IfOk result (λ end. Costs ground.now cell place meter.old.made end
        (suc meter.new.made)) }
    ensures advances { Advances meter.old meter.new }
    ensures stops { IfErr result (StopsAt meter.new) }
{
    let parts = parts_at(ground.plan.parts.as_slice(), cell);
    match node {
        Node::Char(wanted) => Ok(past_char(ground.text, place, *wanted).unwrap_or(place)),
        Node::Class(class) => Ok(past_class(ground.text, place, class).unwrap_or(place)),
        Node::Sequence(_, _) => {
            let middle = walk(ground, marks, place, parts.first, groups, meter)?;
            let second = follows(ground, parts.first, middle == place);
            walk(ground, marks, middle, second, groups, meter)
        }
        Node::Alternation(_, _) => {
            if leads(ground, marks, place, parts.first) {
                return walk(ground, marks, place, parts.first, groups, meter);
            }
            walk(ground, marks, place, parts.second, groups, meter)
        }
        Node::Repeat {
            greedy,
            least,
            most,
            body: _,
        } => walk_turns(
            ground, marks, place, cell, groups, meter, *greedy, *least, *most,
        ),
        Node::Group { number, .. } => {
            let end = walk(ground, marks, place, parts.first, groups, meter)?;
            close(groups, *number, place, end);
            Ok(end)
        }
        Node::Atomic(_) => walk(ground, marks, place, parts.first, groups, meter),
        Node::Ahead { negated, body } => {
            if *negated {
                return Ok(place);
            }
            if facts_at(ground.plan.facts.as_slice(), *body).bare {
                return Ok(place);
            }
            walk(ground, marks, place, parts.first, groups, meter)?;
            Ok(place)
        }
        Node::Nothing => Ok(place),
        Node::Anchor(_) => Ok(place),
        Node::Same { .. } => Ok(place),
        Node::Text { .. } => Ok(place),
        Node::Behind { .. } => Ok(place),
    }
}

/// What goes on at the cell's place, or after it.
fn follows(ground: &Ground, cell: usize, empty: bool) -> usize
    ensures { result ≡ (if empty then (spec.cell_at ground.now.plan.now.cells cell).empty
        else (spec.cell_at ground.now.plan.now.cells cell).next) }
{
    let at = cell_at(ground.plan.cells.as_slice(), cell);
    if empty { at.empty } else { at.next }
}

/// Whether a loop takes a turn at the place, which it leaves else.
fn takes_turn(
    ground: &Ground,
    marks: &Marks,
    place: usize,
    cell: usize,
    greedy: bool,
    least: u32,
    most: Option<u32>,
) -> bool
    requires filled { IsFilled ground.now marks.now place }
    requires turns { IsLoopAt ground.now cell greedy least most }
    ensures { result ≡ (if greedy
        then is_some (end_if (has_turn most)
        (ends_at ground.now (spec.parts_at ground.now.plan.now.parts cell).first place))
        else not (is_some (end_if (least == 0)
        (ends_at ground.now (spec.cell_at ground.now.plan.now.cells cell).empty place)))) }
{
    if greedy {
        let first = parts_at(ground.plan.parts.as_slice(), cell).first;
        return may_turn(most) && leads(ground, marks, place, first);
    }
    let empty = cell_at(ground.plan.cells.as_slice(), cell).empty;
    !(least == 0 && leads(ground, marks, place, empty))
}

/// Goes through a cell's loop from the place on, to where its match ends, and sets the groups.
#[cycle(walk)]
fn walk_turns(
    ground: &Ground,
    marks: &Marks,
    place: usize,
    cell: usize,
    groups: &mut Vec<Option<Span>>,
    meter: &mut Meter,
    greedy: bool,
    least: u32,
    most: Option<u32>,
) -> Result<usize, Stop>
    requires filled { IsFilled ground.now marks.now place }
    requires turns { IsLoopAt ground.now cell greedy least most }
    requires found { is_some (ends_at ground.now cell place) ≡ true }
    ensures walks { IfOk result (λ end. Walks ground.now cell place groups.old.items end
        groups.new.items) }
    ensures steps { IfOk result (λ end. Costs ground.now cell place meter.old.made end
        (suc meter.new.made)) }
    ensures advances { Advances meter.old meter.new }
    ensures stops { IfErr result (StopsAt meter.new) }
{
    let mut at = place;
    let mut turn = cell;
    let mut least = least;
    let mut most = most;
    'turns: while takes_turn(ground, marks, at, turn, greedy, least, most) {
        let first = parts_at(ground.plan.parts.as_slice(), turn).first;
        let end = walk(ground, marks, at, first, groups, meter)?;
        if end == at {
            return Ok(end);
        }
        turn = follows(ground, first, false);
        at = end;
        least = least.saturating_sub(1);
        most = one_less(most);
    }
    Ok(at)
}
