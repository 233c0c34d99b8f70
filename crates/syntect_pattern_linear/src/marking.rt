//! The marks of a text, from its end on.
ghost use Rattle.std.specs.Prelude.{◌≡◌, ◌<◌, ◌≤◌, ◌+◌, ◌*◌, ℕ, IfErr, IfOk, IfSome, OnOk, None, false, true, is_some, length, slice_index_or, Some, if◌then◌else◌};
ghost use Rattle.syntect_pattern_linear.specs.syntect_pattern.Text as spec;
ghost use Rattle.syntect_pattern_linear.specs.syntect_pattern_table.Program.{trees_of};
ghost use Rattle.syntect_pattern_plan.specs.PlanOf.{IsPlanOf};
ghost use Rattle.syntect_pattern_linear.specs.Alike.{IsLoose};
ghost use Rattle.syntect_pattern_linear.specs.Ground.{IsIn, ends_at};
ghost use Rattle.syntect_pattern_linear.specs.Marks.{AreMarks, IsMarked, KnowsLeads};
ghost use Rattle.syntect_pattern_linear.specs.Steps.{stops};
ghost use Rattle.syntect_pattern_linear.specs.syntect_count.Meter.{Advances, StopsAt};
ghost use Rattle.syntect_pattern_plan.specs.Sights.{AreSights};

use crate::alike::{Seen, is_loose};
use crate::fill::rows_from;
use crate::ground::Ground;
use crate::known::{keep, nothing_known};
use crate::lead::lead_by;
use crate::marks::{Marks, marks_of};
use crate::syntect_count::meter::Meter;
use crate::syntect_count::stop::Stop;
use crate::syntect_pattern_steps::text::is_boundary;
use crate::syntect_pattern_table::program::Program;
use crate::syntect_values::seq::Seq;
use std::alloc::{AllocError, Global};
use syntect_pattern_plan::order::{cell_in, order_of};
use syntect_pattern_plan::plan::Plan;

/// What is known of a place once each cell was asked, the lowest first.
fn known_of(
    alloc: Global,
    ground: &Ground,
    marks: &Marks,
    order: &[(usize, usize)],
    place: usize,
) -> Result<Vec<Option<bool>>, AllocError>
    requires { IsMarked ground.now marks.now place }
    ensures knows { IfOk result (λ here. KnowsLeads ground.now place here.items) }
    ensures long { IfOk result (λ here. length here.items ≡ length ground.now.plan.now.cells) }
{
    let cells = ground.plan.cells.len();
    let mut here = nothing_known(alloc, cells)?;
    for late in 0..cells {
        let cell = cell_in(order, late).min(cells - 1);
        let leads = lead_by(ground, marks, here.as_slice(), place, cell);
        keep(&mut here, cell, leads);
    }
    Ok(here)
}

/// The row of a place, if all is known of it.
fn row_of(alloc: Global, here: &[Option<bool>]) -> Result<Option<Seq<bool>>, AllocError>
    ensures { IfOk result (λ made. IfSome made (λ row. (k : ℕ) → k < length here.now
        → slice_index_or here.now k None ≡ Some (slice_index_or row k false))) }
{
    let mut row = Vec::with_capacity(alloc, here.len())?;
    for known in here {
        match known {
            Some(leads) => row.push(*leads)?,
            None => return Ok(None),
        }
    }
    Ok(Some(Seq::from_vec(row)))
}

/// The row of a place, if it can be known without where matches end. Each cell is a step, paid
/// before it is asked.
fn marked(
    alloc: Global,
    ground: &Ground,
    marks: &Marks,
    order: &[(usize, usize)],
    place: usize,
    meter: &mut Meter,
) -> Result<Option<Seq<bool>>, Stop>
    requires { IsMarked ground.now marks.now place }
    ensures leads { IfOk result (λ made. IfSome made (λ row. (k : ℕ) → IsIn ground.now k
        → slice_index_or row k false ≡ is_some (ends_at ground.now k place))) }
    ensures steps { OnOk result (meter.new.made
        ≡ meter.old.made + length ground.now.plan.now.cells) }
    ensures advances { Advances meter.old meter.new }
    ensures stops { IfErr result (StopsAt meter.new) }
{
    meter.spend(ground.plan.cells.len())?;
    let here = known_of(alloc, ground, marks, order, place)?;
    let row = row_of(alloc, here.as_slice())?;
    Ok(row)
}

/// Marks one place more, the one before those that are marked, if that can be known without where
/// matches end. The row of a place like one that was marked is a step.
fn mark_place(
    alloc: Global,
    ground: &Ground,
    marks: &mut Marks,
    seen: &mut Seen,
    order: &[(usize, usize)],
    place: usize,
    meter: &mut Meter,
) -> Result<bool, Stop>
    requires plan { IsPlanOf ground.now.program.now ground.now.plan.now }
    requires sights { AreSights ground.now.text.now (trees_of ground.now.program.now)
        ground.now.plan.now.behinds ground.now.sights.now }
    requires loose { IsLoose ground.now }
    requires marks { AreMarks ground.now.text.now (trees_of ground.now.program.now)
        ground.now.plan.now.cells marks.old }
    requires there { length marks.old + place ≡ length ground.now.text.now }
    ensures marks { IfOk result (λ told. told ≡ true → AreMarks ground.now.text.now
        (trees_of ground.now.program.now) ground.now.plan.now.cells marks.new) }
    ensures there { IfOk result (λ told. told ≡ true → length marks.new ≡ length marks.old + 1) }
    ensures steps { OnOk result (meter.new.made
        ≤ meter.old.made + length ground.now.plan.now.cells) }
    ensures counted { IfOk result (λ told. told ≡ true → meter.old.made
        + (if spec.is_boundary ground.now.text.now place then 1 else 0) ≤ meter.new.made) }
    ensures advances { Advances meter.old meter.new }
    ensures stops { IfErr result (StopsAt meter.new) }
{
    if !is_boundary(ground.text, place) {
        marks.push(Seq::new(alloc))?;
        return Ok(true);
    }
    if let Some(row) = seen.row_like(ground, marks, place) {
        meter.spend(1)?;
        marks.repeat(row)?;
        return Ok(true);
    }
    let Some(row) = marked(alloc, ground, marks, order, place, meter)? else {
        return Ok(false);
    };
    marks.push(row)?;
    Ok(true)
}

/// The marks of the places from the text's end down to this one, if they can be known without where
/// matches end.
fn marked_from(
    alloc: Global,
    program: &Program,
    plan: &Plan,
    text: &str,
    sights: &[Seq<bool>],
    begin: usize,
    meter: &mut Meter,
) -> Result<Option<Marks>, Stop>
    requires plan { IsPlanOf program.now plan.now }
    requires sights { AreSights text.now (trees_of program.now) plan.now.behinds sights.now }
    requires begin { begin ≤ length text.now }
    ensures marks { IfOk result (λ made. IfSome made (λ marks. AreMarks text.now
        (trees_of program.now) plan.now.cells marks)) }
    ensures there { IfOk result (λ made. IfSome made (λ marks.
        length marks + begin ≡ length text.now + 1)) }
    ensures steps { OnOk result (meter.new.made
        ≤ meter.old.made + length plan.now.cells * (length text.now + 1)) }
    ensures counted { IfOk result (λ made. IfSome made (λ marks.
        meter.old.made + stops text.now (length marks) ≤ meter.new.made)) }
    ensures advances { Advances meter.old meter.new }
    ensures stops { IfErr result (StopsAt meter.new) }
{
    let order = order_of(alloc, program, plan)?;
    let ground = Ground {
        program,
        plan,
        text,
        sights,
        rows: &[],
    };
    if !is_loose(&ground) {
        return Ok(None);
    }
    let mut marks = Marks::new(alloc);
    let mut seen = Seen::new(alloc)?;
    let mut left = text.len() - begin + 1;
    'places: while left > 0 {
        left -= 1;
        let place = begin + left;
        if !mark_place(
            alloc,
            &ground,
            &mut marks,
            &mut seen,
            order.as_slice(),
            place,
            meter,
        )? {
            return Ok(None);
        }
    }
    Ok(Some(marks))
}

/// The marks of the places from the text's end down to this one. With atomic groups where matches
/// end is worked out first. A place where a character begins is a step at least.
pub fn marks_from(
    alloc: Global,
    program: &Program,
    plan: &Plan,
    text: &str,
    sights: &[Seq<bool>],
    begin: usize,
    meter: &mut Meter,
) -> Result<Marks, Stop>
    requires plan { IsPlanOf program.now plan.now }
    requires sights { AreSights text.now (trees_of program.now) plan.now.behinds sights.now }
    requires begin { begin ≤ length text.now }
    ensures marks { IfOk result (λ marks. AreMarks text.now (trees_of program.now) plan.now.cells
        marks) }
    ensures there { IfOk result (λ marks. length marks + begin ≡ length text.now + 1) }
    ensures steps { OnOk result (meter.new.made
        ≤ meter.old.made + 7 * length plan.now.cells * (length text.now + 1)) }
    ensures counted { IfOk result (λ marks.
        meter.old.made + stops text.now (length marks) ≤ meter.new.made) }
    ensures advances { Advances meter.old meter.new }
    ensures stops { IfErr result (StopsAt meter.new) }
{
    if let Some(marks) = marked_from(alloc, program, plan, text, sights, begin, meter)? {
        return Ok(marks);
    }
    let rows = rows_from(alloc, program, plan, text, sights, begin, meter)?;
    let marks = marks_of(alloc, rows.as_slice())?;
    Ok(marks)
}
