//! What is known, while a line is read, of patterns that are searched in the place of others, with
//! the texts of groups put in.
ghost use Rattle.std.specs.Prelude.{◌≡◌, ◌<◌, List, ℕ, IfSome, length, slice_index_or, string_bytes};
ghost use Rattle.syntect_reading_state.specs.syntect_pattern_seek.Prospect.{IsProspectOf};
ghost use Rattle.syntect_reading_state.specs.Memory.{AreHintsIn, IsHintOf};
ghost use Rattle.syntect_reading_state.specs.declared.hints.Hint.{Hint as AHint};

use crate::below::pattern_seek::prospect::Prospect;
use std::alloc::{AllocError, Global};
use std::marker::Model;

/// How many are kept: with one more all earlier ones are forgotten.
const MOST: usize = 16;

/// What is known of a pattern.
#[derive(Drop)]
pub struct Hint {
    pub pattern: String,
    pub prospect: Prospect,
}

/// What is known of such patterns, seen as a list.
pub struct Hints {
    kept: Vec<Hint>,
}

/// Written out, so that crates above call it and needn't prove each part's drop again.
impl Drop for Hints {
    fn drop(self) {
        let Hints { kept: _ } = self;
    }
}

impl Model for Hints {
    ghost use Rattle.std.specs.Prelude.{List};
    ghost use Rattle.syntect_reading_state.specs.declared.hints.Hint.{Hint as AHint};

    ghost Value = { List AHint };

    ghost view = { λ h. h.kept.items };
}

impl Hints {
    /// Nothing is known. Takes no memory.
    pub fn new(alloc: Global) -> Hints
        ensures { (line : List ℕ) → AreHintsIn line result }
    {
        Hints {
            kept: Vec::new(alloc),
        }
    }

    /// Forgets everything.
    pub fn forget(&mut self)
        ensures { (line : List ℕ) → AreHintsIn line self.new }
    {
        self.kept.clear();
    }

    /// What is known of the pattern.
    pub fn recall(&self, pattern: &str) -> Prospect
        ensures { (line : List ℕ) → AreHintsIn line self.now
            → IsProspectOf pattern.now line result }
    {
        for hint in self.kept.as_slice() {
            if hint.pattern.as_str() == pattern {
                return hint.prospect;
            }
        }
        Prospect::new()
    }

    /// Keeps one more.
    fn push(&mut self, hint: Hint) -> Result<(), AllocError>
        ensures { (line : List ℕ) → AreHintsIn line self.old → IsHintOf line hint
            → AreHintsIn line self.new }
    {
        self.kept.push(hint)?;
        Ok(())
    }

    /// Forgets everything where no more are kept.
    fn make_room(&mut self)
        ensures { (line : List ℕ) → AreHintsIn line self.old → AreHintsIn line self.new }
    {
        if self.kept.len() >= MOST {
            self.kept.clear();
        }
    }

    /// Where the pattern's stands.
    fn place_of(&self, pattern: &str) -> Option<usize>
        ensures inside { IfSome result (λ i. i < length self.now) }
        ensures same { IfSome result (λ i. (hint : AHint)
            → string_bytes (slice_index_or self.now i hint).pattern ≡ pattern.now) }
    {
        for place in 0..self.kept.len() {
            if self.kept[place].pattern.as_str() == pattern {
                return Some(place);
            }
        }
        None
    }

    /// What stands there is another prospect from now on.
    fn put(&mut self, place: usize, prospect: Prospect)
        requires { place < length self.old }
        ensures { (line : List ℕ) → AreHintsIn line self.old
            → ((hint : AHint) → IsProspectOf
            (string_bytes (slice_index_or self.old place hint).pattern) line prospect)
            → AreHintsIn line self.new }
    {
        self.kept[place].prospect = prospect;
    }

    /// Keeps in mind what is known of the pattern. Where there is no memory, nothing is kept.
    pub fn keep(&mut self, pattern: &str, prospect: Prospect)
        ensures { (line : List ℕ) → AreHintsIn line self.old
            → IsProspectOf pattern.now line prospect → AreHintsIn line self.new }
    {
        if let Some(place) = self.place_of(pattern) {
            self.put(place, prospect);
            return;
        }
        self.make_room();
        let alloc = *self.kept.allocator();
        if let Ok(pattern) = String::from_str(alloc, pattern) {
            let _ = self.push(Hint { pattern, prospect });
        }
    }
}
