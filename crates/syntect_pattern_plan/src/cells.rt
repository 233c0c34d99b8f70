//! The cells of a plan: parts of a pattern with what follows them there.
ghost use Rattle.std.specs.Prelude.{◌≡◌};
ghost use Rattle.syntect_pattern_plan.specs.Cells as spec;

/// What a cell matches.
#[derive(Clone, Copy)]
pub enum CellPart {
    /// Nothing: the whole match ends here.
    End,
    /// The node.
    Node(usize),
    /// Turns of the node, at least so many and at most so many, if there is a limit.
    Turns {
        greedy: bool,
        least: u32,
        most: Option<u32>,
        body: usize,
    },
}

/// Where the cells of a cell's parts come from.
#[derive(Clone, Copy)]
pub enum Source {
    /// The cell's own: the same goes on at its place and after it.
    Own,
    /// The cells of the parts of another cell, a loop that takes one turn at least where this one
    /// may take none.
    Shared(usize),
    /// Besides its own, those of another cell, which has the same item before what goes on after
    /// this one alone.
    Beside(usize),
}

/// An item, the cell that goes on at its place where it reads nothing, and the one that goes on
/// after it.
#[derive(Clone, Copy)]
pub struct Cell {
    pub item: CellPart,
    pub empty: usize,
    pub next: usize,
    pub source: Source,
}

/// The cells of the parts of a cell's item.
#[derive(Clone, Copy)]
pub struct Parts {
    pub first: usize,
    pub second: usize,
}

/// The cell with the number.
#[inline]
pub fn cell_at(cells: &[Cell], cell: usize) -> Cell
    ensures { result ≡ spec.cell_at cells.now cell }
{
    cells.get(cell).copied().unwrap_or(Cell {
        item: CellPart::End,
        empty: 0,
        next: 0,
        source: Source::Own,
    })
}

/// The cell of the same item before what goes on after this one alone, which may be this one.
pub fn partner_of(cells: &[Cell], cell: usize) -> usize
    ensures { result ≡ spec.partner_of cells.now cell }
{
    match cell_at(cells, cell).source {
        Source::Beside(partner) => partner,
        _ => cell,
    }
}

/// The cells of its parts.
#[inline]
pub fn parts_at(parts: &[Parts], cell: usize) -> Parts
    ensures { result ≡ spec.parts_at parts.now cell }
{
    parts.get(cell).copied().unwrap_or(Parts {
        first: 0,
        second: 0,
    })
}
