//! The sides of a place that tell which patterns can begin there, and which rows of a
//! table are of each.
ghost use Rattle.std.specs.Prelude.{◌≡◌, ◌≤◌};
ghost use Rattle.syntect_grammar_lists.specs.Sides as spec;

use crate::below::pattern_table::starts::Places;
use crate::flats::Flat;

/// A side of a place of which something is seen.
#[derive(Clone, Copy)]
pub enum Side {
    /// What stands at the place.
    Here,
    /// What comes after the word there.
    Word,
    /// What comes after the white space there.
    Blank,
}

/// The row of places where no word begins or ends.
pub(crate) const EDGES: usize = 130;

/// The row of places where no line begins.
pub(crate) const LINES: usize = 131;

/// The first row of what comes after a word: so many stand before it.
const WORDS: usize = 132;

/// The first row of what comes after white space.
const BLANKS: usize = 262;

/// How many rows there are: 130 for each side, which are each ASCII character, any other one, and
/// the end, one for places where no word begins or ends, and one for those where no line begins.
const ROWS: usize = 392;

/// The first of the rows that are of a side.
#[inline]
pub(crate) fn first_row(side: Side) -> usize
    ensures value { result ≡ spec.first_row side }
    ensures bound { result ≤ 262 }
{
    match side {
        Side::Here => 0,
        Side::Word => WORDS,
        Side::Blank => BLANKS,
    }
}

/// What can stand on a side of a place where a match of the pattern begins.
#[inline]
pub(crate) fn places_on(flat: &Flat, side: Side) -> Places
    ensures { result ≡ spec.places_on side flat.now }
{
    match side {
        Side::Here => flat.begins,
        Side::Word => flat.words,
        Side::Blank => flat.blanks,
    }
}

/// Whether all can stand there.
#[inline]
pub(crate) fn is_everything(places: Places) -> bool {
    places.ascii == u128::MAX && places.wide && places.end
}

/// How many rows a table of these patterns has: those of what stands at a place, of edges and of
/// lines alone
/// where what follows rules none out, and those before the ones of white space where what follows
/// those doesn't. A row past a table's end rules out none.
pub(crate) fn row_count(asks: bool, flats: &[Flat]) -> usize
    ensures { result ≤ 392 }
{
    if !asks {
        WORDS
    } else if flats.iter().all(|flat| is_everything(flat.blanks)) {
        BLANKS
    } else {
        ROWS
    }
}
