//! Which cells lead to the end of a match, at each place of a text from its end on. Equal rows are
//! kept once.
ghost use Rattle.std.specs.Prelude.{◌≡◌, ◌<◌, ◌≤◌, ◌++◌, ◌∷◌, [], ℕ, IfOk, OnOk, is_some, length, map, true};
ghost use Rattle.syntect_pattern_linear.specs.Marks.{row_at};
ghost use Rattle.syntect_pattern_plan.specs.Sights.{row_flag};

use crate::syntect_values::seq::Seq;
use std::alloc::{AllocError, Global};
use std::marker::Model;

/// In how many slots an equal row is looked for.
const SLOTS: usize = 512;

/// Rows, each of them once as far as that is seen.
#[derive(Drop)]
struct Rows {
    rows: Vec<Seq<bool>>,
    /// Where an equal row may stand, by its sum.
    slots: [usize; SLOTS],
}

/// The slot of a row.
fn slot_of(row: &[bool]) -> usize
    ensures { result < 512 }
{
    let mut sum: usize = 0;
    for mark in row {
        sum = sum.wrapping_mul(31).wrapping_add(if *mark { 7 } else { 1 });
    }
    (sum >> 7) % SLOTS
}

impl Rows {
    /// Where the row stands, as it is put in if it is not seen there.
    fn place_of(&mut self, row: Seq<bool>) -> Result<usize, AllocError>
        ensures found { IfOk result (λ i. row_at self.new.rows.items i ≡ row) }
        ensures within { IfOk result (λ i. i < length self.new.rows.items) }
        ensures grows { length self.old.rows.items ≤ length self.new.rows.items }
        ensures stays { (i : ℕ) → i < length self.old.rows.items
            → row_at self.new.rows.items i ≡ row_at self.old.rows.items i }
    {
        let slot = slot_of(row.as_slice());
        let at = self.slots[slot];
        if let Some(kept) = self.rows.get(at) {
            if *kept == row {
                return Ok(at);
            }
        }
        let at = self.rows.len();
        self.rows.push(row)?;
        self.slots[slot] = at;
        Ok(at)
    }
}

/// Which cells lead to the end of a match, row by row, seen as the list of the rows.
#[derive(Drop)]
pub struct Marks {
    rows: Rows,
    /// Where the row of each place stands.
    places: Vec<usize>,
}

impl Model for Marks {
    ghost use Rattle.std.specs.Prelude.{List, Bool, ◌<◌, length, map};
    ghost use Rattle.syntect_pattern_linear.specs.Marks.{row_at};
    ghost use Rattle.std.specs.List.{All};

    ghost Value = { List (List Bool) };

    ghost view = { λ m. map (λ i. row_at m.rows.rows.items i) m.places.items };

    ghost invariant = { λ m. All (λ i. i < length m.rows.rows.items) m.places.items };
}

impl Marks {
    /// No row. Takes no memory.
    pub fn new(alloc: Global) -> Marks
        ensures { result ≡ [] }
    {
        Marks {
            rows: Rows {
                rows: Vec::new(alloc),
                slots: [0; SLOTS],
            },
            places: Vec::new(alloc),
        }
    }

    /// How many rows there are.
    pub fn len(&self) -> usize
        ensures { result ≡ length self.now }
    {
        self.places.len()
    }

    /// One row more.
    pub fn push(&mut self, row: Seq<bool>) -> Result<(), AllocError>
        ensures { OnOk result (self.new ≡ self.old ++ row ∷ []) }
    {
        let place = self.rows.place_of(row)?;
        self.places.push(place)?;
        Ok(())
    }

    /// The row once more.
    pub fn repeat(&mut self, row: usize) -> Result<(), AllocError>
        requires { row < length self.old }
        ensures { OnOk result (self.new ≡ self.old ++ row_at self.old row ∷ []) }
    {
        let place = self.places[row];
        self.places.push(place)?;
        Ok(())
    }

    /// Where the row stands among those that are kept.
    pub fn number(&self, row: usize) -> usize {
        match self.places.get(row) {
            Some(place) => *place,
            None => 0,
        }
    }

    /// Whether both rows are known to be equal.
    pub fn are_same(&self, row: usize, other: usize) -> bool
        ensures { result ≡ true → row_at self.now row ≡ row_at self.now other }
    {
        match (self.places.get(row), self.places.get(other)) {
            (Some(place), Some(there)) => place == there,
            _ => false,
        }
    }

    /// Whether the cell leads on in the row.
    #[inline]
    pub fn leads(&self, row: usize, cell: usize) -> bool
        ensures { result ≡ row_flag self.now row cell }
    {
        let Some(place) = self.places.get(row) else {
            return false;
        };
        let Some(marks) = self.rows.rows.get(*place) else {
            return false;
        };
        match marks.as_slice().get(cell) {
            Some(mark) => *mark,
            None => false,
        }
    }
}

/// Which cells have an end in the row.
fn marks_in(alloc: Global, ends: &[Option<usize>]) -> Result<Seq<bool>, AllocError>
    ensures { IfOk result (λ row. row ≡ map (λ end. is_some end) ends.now) }
{
    let mut row = Vec::with_capacity(alloc, ends.len())?;
    for end in ends {
        row.push(end.is_some())?;
    }
    Ok(Seq::from_vec(row))
}

/// Which cells have an end, row by row.
pub fn marks_of(alloc: Global, rows: &[Seq<Option<usize>>]) -> Result<Marks, AllocError>
    ensures { IfOk result (λ marks. marks ≡ map (λ row. map (λ end. is_some end) row) rows.now) }
{
    let mut marks = Marks::new(alloc);
    for ends in rows {
        marks.push(marks_in(alloc, ends.as_slice())?)?;
    }
    Ok(marks)
}
