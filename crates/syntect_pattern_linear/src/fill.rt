//! The rows of a text, from its end on.
ghost use Rattle.std.specs.Prelude.{◌≡◌, ◌<◌, ◌≤◌, ◌+◌, ◌-◌, ◌*◌, ℕ, None, IfErr, IfOk, OnOk, length, slice_index_or};
ghost use Rattle.syntect_pattern_linear.specs.syntect_pattern_table.Program.{trees_of};
ghost use Rattle.syntect_pattern_linear.specs.Ground.{IsIn, IsReady, Knows, ends_at};
ghost use Rattle.syntect_pattern_plan.specs.PlanOf.{IsPlanOf};
ghost use Rattle.syntect_pattern_linear.specs.Rows.{AreRows};
ghost use Rattle.syntect_pattern_linear.specs.syntect_count.Meter.{Advances, StopsAt};
ghost use Rattle.syntect_pattern_plan.specs.Sights.{AreSights};
ghost use Rattle.syntect_pattern_linear.specs.Steps.{stops, unknown};

use crate::ground::{Ground, Known};
use crate::known::nothing_known;
use crate::reach::reach;
use crate::syntect_count::count::GhostCount;
use crate::syntect_count::meter::Meter;
use crate::syntect_count::stop::Stop;
use crate::syntect_pattern_steps::text::is_boundary;
use crate::syntect_pattern_table::program::Program;
use crate::syntect_values::seq::Seq;
use std::alloc::{AllocError, Global};
use syntect_pattern_plan::order::{cell_in, order_of};
use syntect_pattern_plan::plan::Plan;

/// What is known of a place before anything is.
fn known_of(
    alloc: Global,
    ground: &Ground,
    order: &[(usize, usize)],
    count: &mut GhostCount,
    place: usize,
) -> Result<Known, AllocError>
    requires { IsReady ground.now place }
    ensures knows { IfOk result (λ now. Knows ground.now place now.items) }
    ensures long { IfOk result (λ now. length now.items ≡ length ground.now.plan.now.cells) }
    ensures steps { IfOk result (λ now. count.new.made + 4 * unknown now.items
        ≤ count.old.made + 5 * length ground.now.plan.now.cells) }
    ensures counted { OnOk result (count.old.made + length ground.now.plan.now.cells
        ≤ count.new.made) }
{
    let cells = ground.plan.cells.len();
    let mut now = nothing_known(alloc, cells)?;
    for late in 0..cells {
        let cell = cell_in(order, late).min(cells - 1);
        let _ = reach(ground, &mut now, count, place, cell);
    }
    Ok(now)
}

/// Where the whole match ends from each cell at a place.
fn row_of(
    alloc: Global,
    ground: &Ground,
    order: &[(usize, usize)],
    count: &mut GhostCount,
    place: usize,
) -> Result<Seq<Option<usize>>, AllocError>
    requires { IsReady ground.now place }
    ensures ends { IfOk result (λ row. (k : ℕ) → IsIn ground.now k
        → slice_index_or row k None ≡ ends_at ground.now k place) }
    ensures steps { OnOk result (count.new.made
        ≤ count.old.made + 6 * length ground.now.plan.now.cells) }
    ensures counted { OnOk result (count.old.made + 2 * length ground.now.plan.now.cells
        ≤ count.new.made) }
{
    let mut now = known_of(alloc, ground, order, count, place)?;
    let mut row = Vec::with_capacity(alloc, now.len())?;
    for cell in 0..ground.plan.cells.len() {
        let end = reach(ground, &mut now, count, place, cell);
        row.push(end)?;
    }
    Ok(Seq::from_vec(row))
}

/// Pays for the row of a place: six steps for each of so many cells.
fn pay_row(meter: &mut Meter, cells: usize) -> Result<(), Stop>
    ensures made { OnOk result (meter.new.made ≡ meter.old.made + 6 * cells) }
    ensures advances { Advances meter.old meter.new }
    ensures stops { IfErr result (StopsAt meter.new) }
{
    for _time in 0..6usize {
        meter.spend(cells)?;
    }
    Ok(())
}

/// The rows of the places from the text's end down to this one,
/// each paid for before it is worked out.
pub fn rows_from(
    alloc: Global,
    program: &Program,
    plan: &Plan,
    text: &str,
    sights: &[Seq<bool>],
    begin: usize,
    meter: &mut Meter,
) -> Result<Vec<Seq<Option<usize>>>, Stop>
    requires plan { IsPlanOf program.now plan.now }
    requires sights { AreSights text.now (trees_of program.now) plan.now.behinds sights.now }
    requires begin { begin ≤ length text.now }
    ensures rows { IfOk result (λ rows. AreRows text.now (trees_of program.now) plan.now.cells
        rows.items) }
    ensures there { IfOk result (λ rows. length rows.items + begin ≡ length text.now + 1) }
    ensures steps { OnOk result (meter.new.made
        ≤ meter.old.made + 6 * length plan.now.cells * (length text.now + 1)) }
    ensures counted { IfOk result (λ rows. meter.old.made
        + 2 * length plan.now.cells * stops text.now (length rows.items) ≤ meter.new.made) }
    ensures advances { Advances meter.old meter.new }
    ensures stops { IfErr result (StopsAt meter.new) }
{
    let order = order_of(alloc, program, plan)?;
    let mut left = text.len() - begin + 1;
    let mut rows = Vec::with_capacity(alloc, left)?;
    'places: while left > 0 {
        left -= 1;
        let ground = Ground {
            program,
            plan,
            text,
            sights,
            rows: rows.as_slice(),
        };
        let place = begin + left;
        let row = if is_boundary(text, place) {
            pay_row(meter, plan.cells.len())?;
            row_of(
                alloc,
                &ground,
                order.as_slice(),
                &mut GhostCount::none(),
                place,
            )?
        } else {
            Seq::new(alloc)
        };
        let Ok(()) = rows.push(row) else {
            return Err(Stop::Memory);
        };
    }
    Ok(rows)
}
