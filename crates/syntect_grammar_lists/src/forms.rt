//! The two forms in which a list's patterns are kept.
use crate::below::pattern_table::starts::Places;
use crate::packed::Packed;
use crate::slims::Slim;
use crate::spots::Spot;

/// Where the patterns of a list stand, and rows of bits that tell all else of them.
#[derive(Drop)]
pub struct Table {
    /// Where each of the patterns stands.
    pub spots: Vec<Spot>,
    /// A row of bits for each thing that can be seen at a place, each of so many words: which
    /// patterns can begin there.
    pub rows: Packed,
    /// Of how many words a row is.
    pub words: u16,
}

/// The patterns of a list.
#[derive(Drop)]
pub enum Form {
    /// Each by itself, with what can stand where its matches begin, or after that.
    Plain {
        slims: Vec<Slim>,
        places: Vec<Places>,
    },
    /// All by a table, which is searched faster, and of a long list takes less memory.
    Tabled(Box<Table>),
}
