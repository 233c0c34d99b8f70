//! A search under way: its choices stand in lists of its own.
ghost use Rattle.std.specs.Prelude.{◌≡◌, ◌+◌, ◌++◌, ◌∷◌, [], length, IfOk, OnOk, None};

use std::alloc::{AllocError, Global};

/// From one place to another.
pub type Span = (usize, usize);

/// The turns of a loop that are left, and its node.
#[derive(Clone, Copy)]
pub struct Turns {
    pub node: usize,
    /// More than the text has bytes left, as a bound.
    pub left: usize,
    pub least: u32,
    pub most: Option<u32>,
}

/// What follows a node.
#[derive(Clone, Copy)]
pub enum Continuation {
    /// The node of this number.
    Run(usize),
    /// The end of the group that began at the place.
    Close { group: usize, start: usize },
    /// Another turn of the loop, if the one that began at the place read something.
    Again { turns: Turns, start: usize },
    /// Nothing, where the place is this one.
    EndsAt(usize),
}

/// The first item of a list, and the others' number: 0 is the empty list, n + 1 is that of cell n.
#[derive(Clone, Copy)]
pub struct Cell {
    pub item: Continuation,
    pub next: usize,
}

/// What goes on after a part of which the first match counts alone.
#[derive(Clone, Copy)]
pub enum Bound {
    /// The list from where that match ends.
    Whole,
    /// The list from where the part began, if it matches.
    Holds,
    /// The list from where the part began, if it doesn't match.
    Fails,
}

/// What a search comes back to.
#[derive(Clone, Copy)]
pub enum Frame {
    /// Match the node at the place.
    Enter {
        node: usize,
        list: usize,
        place: usize,
        cells: usize,
    },
    /// Go on with the list at the place.
    Leave {
        list: usize,
        place: usize,
        cells: usize,
    },
    /// Go on with the list at so many places: this one and those right before it, the last first.
    Stretch {
        list: usize,
        count: usize,
        place: usize,
        cells: usize,
    },
    /// Match the node at so many places, from this one back, as far as characters begin there.
    Starts {
        node: usize,
        list: usize,
        count: usize,
        place: usize,
        cells: usize,
    },
    /// A part of which the first match counts alone began at the place, and the list follows it.
    Within {
        bound: Bound,
        list: usize,
        place: usize,
        cells: usize,
    },
    /// Give the group its old value back.
    Restore {
        group: usize,
        old: Option<Span>,
    },
}

/// What a search does next.
#[derive(Clone, Copy)]
pub enum Next {
    /// Match the node, and then the list.
    Enter { node: usize, list: usize },
    /// Take a turn of the loop, if some are left, and then the list.
    Turn { turns: Turns, list: usize },
    /// Go on with the list.
    Leave { list: usize },
    Fail,
    Found,
}

/// A search under way, and the memory that it keeps for the next one.
#[derive(Drop)]
pub struct Search {
    pub cells: Vec<Cell>,
    pub frames: Vec<Frame>,
    pub groups: Vec<Option<Span>>,
    pub place: usize,
    /// How many steps are left, where the search is limited.
    pub left: usize,
    /// How many characters stretches have read since `begin`; who asks sets it to 0 before a try.
    pub read: usize,
    /// As how many steps these count, besides one for each stretch.
    pub worth: usize,
}

impl Search {
    ghost use Rattle.std.specs.Prelude.{replicate};

    /// A search that keeps no memory yet. Takes no memory.
    pub fn new(alloc: Global) -> Search {
        Search {
            cells: Vec::new(alloc),
            frames: Vec::new(alloc),
            groups: Vec::new(alloc),
            place: 0,
            left: 0,
            read: 0,
            worth: 0,
        }
    }

    /// Forgets what was, with so many groups that are unset.
    pub fn begin(&mut self, groups: usize, place: usize) -> Result<(), AllocError>
        ensures cells { OnOk result (self.new.cells.items ≡ []) }
        ensures frames { OnOk result (self.new.frames.items ≡ []) }
        ensures groups { OnOk result (self.new.groups.items ≡ replicate groups None) }
        ensures place { OnOk result (self.new.place ≡ place) }
        ensures left { OnOk result (self.new.left ≡ self.old.left) }
    {
        self.cells.clear();
        self.frames.clear();
        self.groups.clear();
        self.groups.resize(groups, None)?;
        self.place = place;
        self.read = 0;
        self.worth = 0;
        Ok(())
    }

    /// Puts the item before the list.
    pub fn cons(&mut self, item: Continuation, next: usize) -> Result<usize, AllocError>
        ensures cells { OnOk result
            (self.new.cells.items ≡ self.old.cells.items
            ++ record { item = item; next = next } ∷ []) }
        ensures list { IfOk result (λ k. k ≡ length self.old.cells.items + 1) }
        ensures others { self.new ≡ record self.old { cells = self.new.cells } }
    {
        self.cells.push(Cell { item, next })?;
        Ok(self.cells.len())
    }

    /// Puts the frame on the stack.
    pub fn save(&mut self, frame: Frame) -> Result<(), AllocError>
        ensures frames { OnOk result (self.new.frames.items ≡ self.old.frames.items ++ frame ∷ []) }
        ensures others { self.new ≡ record self.old { frames = self.new.frames } }
    {
        self.frames.push(frame)?;
        Ok(())
    }
}
