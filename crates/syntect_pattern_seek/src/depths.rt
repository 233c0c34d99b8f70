//! What is kept of patterns that backed up too often, while a text is read: their plans, with the
//! marks of the text.
ghost use Rattle.std.specs.Prelude.{◌≡◌, ◌≤◌, ◌<◌, ◌+◌, ◌*◌, ℕ, List, IfErr, IfNone, IfOk, IfSome, OnOk, Some, false, true, length, string_bytes};
ghost use Rattle.syntect_pattern_seek.specs.syntect_count.Meter.{Advances, StopsAt};
ghost use Rattle.syntect_pattern_seek.specs.syntect_pattern.Trees.{Tree, group};
ghost use Rattle.syntect_pattern_seek.specs.syntect_pattern.Pattern.{pattern_tree};
ghost use Rattle.syntect_pattern_compile.specs.Compiled.{IsCompiled};
ghost use Rattle.syntect_pattern_seek.specs.syntect_pattern_table.declared.program.Program.{Program};
ghost use Rattle.syntect_pattern_seek.specs.syntect_pattern_plan.Linear.{is_linear};
ghost use Rattle.syntect_pattern_linear.specs.Finds.{FindsAt, groups_of};
ghost use Rattle.syntect_pattern_linear.specs.Steps.{look_cost, walk_cost};
ghost use Rattle.syntect_pattern_seek.specs.Bounds.{root_tree};
ghost use Rattle.syntect_pattern_seek.specs.Depths.{AreDepthsIn, IsDepthOf};

use crate::syntect_count::meter::Meter;
use crate::syntect_count::stop::Stop;
use std::alloc::{AllocError, Global};
use std::marker::Model;
use syntect_pattern_linear::find::Guide;
use syntect_pattern_linear::walk::Span;

/// How many places are marked of all that are kept, but for the last one's: with more all earlier
/// ones are dropped.
const MOST: usize = 4_000_000;

/// A pattern's plan with the marks of a text, or none where the pattern is not linear.
#[derive(Drop)]
pub struct Depth {
    pub pattern: String,
    pub guide: Option<Guide>,
}

/// What is kept of a text, seen as a list.
pub struct Depths {
    kept: Vec<Depth>,
    /// How many places are marked of them.
    places: usize,
}

/// Written out, so that crates above call it and needn't prove each part's drop again.
impl Drop for Depths {
    fn drop(self) {
        let Depths { kept: _, places: _ } = self;
    }
}

impl Model for Depths {
    ghost use Rattle.std.specs.Prelude.{List};
    ghost use Rattle.syntect_pattern_seek.specs.declared.depths.Depth.{Depth as ADepth};

    ghost Value = { List ADepth };

    ghost view = { λ d. d.kept.items };
}

impl Depths {
    /// Nothing is kept, of any text. Takes no memory.
    pub fn new(alloc: Global) -> Depths
        ensures { (text : List ℕ) → AreDepthsIn text result }
    {
        Depths {
            kept: Vec::new(alloc),
            places: 0,
        }
    }

    /// Forgets everything: what is known of a text says nothing of another one.
    pub fn forget(&mut self)
        ensures { (text : List ℕ) → AreDepthsIn text self.new }
    {
        self.kept.clear();
        self.places = 0;
    }

    /// What is kept of the pattern.
    fn of(&self, pattern: &str) -> Option<&Depth>
        ensures { (text : List ℕ) → AreDepthsIn text self.now
            → IfSome result (λ d. IsDepthOf text pattern.now d.now) }
    {
        for depth in self.kept.as_slice() {
            if depth.pattern.as_str() == pattern {
                return Some(depth);
            }
        }
        None
    }

    /// Whether it is known that the pattern is not linear.
    pub(crate) fn is_hard(&self, pattern: &str) -> bool
        ensures { result ≡ true → (text : List ℕ) → AreDepthsIn text self.now → (tree : Tree)
            → pattern_tree pattern.now ≡ Some tree → is_linear (group 0 tree) ≡ false }
    {
        match self.of(pattern) {
            Some(depth) => depth.guide.is_none(),
            None => false,
        }
    }

    /// Whether a match of the pattern begins at the place of the text, where that is marked. Where
    /// one does, the groups are the match's.
    pub(crate) fn begins_at(
        &self,
        pattern: &str,
        text: &str,
        place: usize,
        groups: &mut Vec<Option<Span>>,
        meter: &mut Meter,
    ) -> Result<Option<bool>, Stop>
        requires { AreDepthsIn text.now self.now }
        ensures finds { (p : Program) → IsCompiled pattern.now p → IfOk result (λ told.
            IfSome told (λ found. FindsAt text.now p place (groups_of found groups.new.items))) }
        ensures none { IfOk result (λ told. IfNone told (meter.new.made ≡ meter.old.made)) }
        ensures advances { Advances meter.old meter.new }
        ensures stops { IfErr result (StopsAt meter.new) }
        ensures counted { IfOk result (λ told. told ≡ Some true
            → meter.old.made < meter.new.made) }
        ensures steps { (p : Program) → IsCompiled pattern.now p → OnOk result (meter.new.made
            ≤ meter.old.made + (walk_cost (root_tree p) + look_cost (root_tree p))
            * (length text.now + 1)) }
    {
        let Some(depth) = self.of(pattern) else {
            return Ok(None);
        };
        let Some(guide) = &depth.guide else {
            return Ok(None);
        };
        if !guide.tells(text, place) {
            return Ok(None);
        }
        let found = guide.begins_at(text, place, groups, meter)?;
        Ok(Some(found))
    }

    /// Lets all go where too much is kept, and counts so many places more.
    fn make_room(&mut self, places: usize)
        ensures { (text : List ℕ) → AreDepthsIn text self.old → AreDepthsIn text self.new }
    {
        if self.places >= MOST {
            self.kept.truncate(0);
            self.places = places;
            return;
        }
        self.places = self.places.saturating_add(places);
    }

    /// Keeps one more.
    pub(crate) fn push(&mut self, depth: Depth) -> Result<(), AllocError>
        ensures { (text : List ℕ) → AreDepthsIn text self.old
            → IsDepthOf text (string_bytes depth.pattern) depth
            → OnOk result (AreDepthsIn text self.new) }
    {
        self.make_room(places_of(&depth));
        self.kept.push(depth)?;
        Ok(())
    }
}

/// How many places are marked.
fn places_of(depth: &Depth) -> usize {
    match &depth.guide {
        Some(guide) => guide.marks.len(),
        None => 0,
    }
}
