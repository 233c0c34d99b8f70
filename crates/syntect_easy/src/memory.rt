//! Memory that is kept from line to line.
use std::alloc::Global;
use std::marker::Model;
use syntect_parsing::parser::Regions;

/// The memory of searches, which contracts see as nothing: what is in it makes no difference.
#[derive(Drop)]
pub(crate) struct SearchMemory {
    regions: Regions,
}

impl Model for SearchMemory {
    ghost Value = { Unit {0} };

    ghost view = { λ m. tt };
}

impl SearchMemory {
    /// No memory is held yet.
    pub(crate) fn new(alloc: Global) -> SearchMemory {
        SearchMemory {
            regions: Regions::new(alloc),
        }
    }

    /// The memory, lent to a reader of lines.
    pub(crate) fn lend(&mut self) -> &mut Regions {
        &mut self.regions
    }
}
