//! Which patterns of a turn's chain are out, since the first match that they have
//! in it doesn't count.
ghost use Rattle.std.specs.Prelude.{◌≡◌, ◌<◌, ℕ, [], OnOk, length};
ghost use Rattle.syntect_reading_state.specs.Losses.{LosesAt, LosesOf, is_lost, marks_of};

use std::alloc::{AllocError, Global};
use std::marker::Model;

/// Which patterns of a part are out, by their indexes, up to the last that is; seen as a list.
#[derive(Drop)]
pub struct Marks {
    kept: Vec<bool>,
}

/// Which patterns of a chain are out, by the number of their part, up to the last with one; seen as
/// a list of lists.
#[derive(Drop)]
pub struct Losses {
    parts: Vec<Marks>,
}

impl Model for Marks {
    ghost use Rattle.std.specs.Prelude.{List, Bool};

    ghost Value = { List Bool };

    ghost view = { λ m. m.kept.items };
}

impl Model for Losses {
    ghost use Rattle.std.specs.Prelude.{List, Bool};

    ghost Value = { List (List Bool) };

    ghost view = { λ l. l.parts.items };
}

impl Marks {
    /// None is out. Takes no memory.
    fn new(alloc: Global) -> Marks
        ensures { result ≡ [] }
    {
        Marks {
            kept: Vec::new(alloc),
        }
    }

    /// Whether the pattern at the index is out.
    fn has(&self, index: usize) -> bool
        ensures { result ≡ is_lost self.now index }
    {
        self.kept.get(index).copied().unwrap_or(false)
    }

    /// Makes room for a mark at the index.
    fn reach(&mut self, index: usize) -> Result<(), AllocError>
        ensures room { OnOk result (index < length self.new) }
        ensures same { OnOk result ((k : ℕ) → is_lost self.new k ≡ is_lost self.old k) }
    {
        while self.kept.len() <= index {
            self.kept.push(false)?;
        }
        Ok(())
    }

    /// The pattern at the index is out from now on.
    fn add(&mut self, index: usize) -> Result<(), AllocError>
        ensures { OnOk result (LosesAt index self.old self.new) }
    {
        self.reach(index)?;
        self.kept[index] = true;
        Ok(())
    }
}

impl Losses {
    /// None is out. Takes no memory.
    pub fn new(alloc: Global) -> Losses
        ensures { result ≡ [] }
    {
        Losses {
            parts: Vec::new(alloc),
        }
    }

    /// Whether the pattern of a part at an index is out.
    pub fn has(&self, part: usize, index: usize) -> bool
        ensures { result ≡ is_lost (marks_of self.now part) index }
    {
        match self.parts.get(part) {
            Some(marks) => marks.has(index),
            None => false,
        }
    }

    /// Makes room for the marks of a part.
    fn reach(&mut self, part: usize) -> Result<(), AllocError>
        ensures room { OnOk result (part < length self.new) }
        ensures same { OnOk result ((k : ℕ) → marks_of self.new k ≡ marks_of self.old k) }
    {
        let alloc = *self.parts.allocator();
        while self.parts.len() <= part {
            self.parts.push(Marks::new(alloc))?;
        }
        Ok(())
    }

    /// The pattern of a part at an index is out from now on.
    pub fn add(&mut self, part: usize, index: usize) -> Result<(), AllocError>
        ensures { OnOk result (LosesOf part index self.old self.new) }
    {
        self.reach(part)?;
        self.parts[part].add(index)
    }
}
