//! Rows of ends and of flags.
ghost use Rattle.std.specs.Prelude.{◌≡◌, ◌-◌, length, option_and_then, None, Some};
ghost use Rattle.syntect_pattern_linear.specs.Rows as spec;
ghost use Rattle.syntect_pattern_plan.specs.Sights.{row_flag};

use crate::syntect_values::seq::Seq;

/// The end that the row has for the cell.
#[inline]
pub fn end_at(rows: &[Seq<Option<usize>>], row: usize, cell: usize) -> Option<usize>
    ensures { result ≡ spec.row_end rows.now row cell }
{
    let Some(ends) = rows.get(row) else {
        return None;
    };
    match ends.as_slice().get(cell) {
        Some(end) => *end,
        None => None,
    }
}

/// The flag that the row has for the place.
#[inline]
pub fn flag_at(rows: &[Seq<bool>], row: usize, place: usize) -> bool
    ensures { result ≡ row_flag rows.now row place }
{
    let Some(flags) = rows.get(row) else {
        return false;
    };
    match flags.as_slice().get(place) {
        Some(flag) => *flag,
        None => false,
    }
}

/// The end from the place on, if there is one.
#[inline]
pub fn end_from(
    rows: &[Seq<Option<usize>>],
    text: &str,
    place: Option<usize>,
    cell: usize,
) -> Option<usize>
    ensures { result ≡ option_and_then (λ j. spec.row_end rows.now (length text.now - j) cell)
        place }
{
    match place {
        Some(place) => end_at(rows, text.len().saturating_sub(place), cell),
        None => None,
    }
}
