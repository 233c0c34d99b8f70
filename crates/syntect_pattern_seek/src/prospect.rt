//! What is known of a pattern in a text in which it is tried at place after place.
ghost use Rattle.std.specs.Prelude.{◌≡◌, ◌≤◌, ◌+◌, List, ℕ, false, length, true};
ghost use Rattle.syntect_pattern_compile.specs.Compiled.{IsCompiled};
ghost use Rattle.syntect_pattern_seek.specs.Prospect.{IsProspectOf, NoneBeginsIn};

use crate::syntect_pattern_table::program::Program;
use syntect_pattern_backtrack::needed::Met;

/// A try of so few steps is not counted.
const FEW: usize = 16;

/// How many bytes of the text that are looked at for what matches need count as a step.
const LOOKED_A_STEP: usize = 64;

/// From where on no match of the pattern begins, how far what its matches need was met, and how
/// many steps are left for its tries, or that its plan tells of the text. It is of one pattern in
/// one text.
#[derive(Clone, Copy)]
pub struct Prospect {
    /// No match begins from here on to the text's end: the greatest number where nothing
    /// of that is known.
    from: usize,
    met: Met,
    /// The greatest number before such a try, and 0 where the plan tells.
    left: usize,
}

impl Prospect {
    /// Nothing is known, of any pattern and any text.
    #[inline]
    pub fn new() -> Prospect
        ensures { (pattern text : List ℕ) → IsProspectOf pattern text result }
    {
        Prospect {
            from: usize::MAX,
            met: Met::new(),
            left: usize::MAX,
        }
    }

    /// Whether something else is known than there.
    #[inline]
    pub fn differs(&self, other: &Prospect) -> bool {
        self.met.differs(&other.met) || self.from != other.from || self.left != other.left
    }

    /// Whether it is known that no match begins at the place.
    #[inline]
    pub fn rules_out(&self, place: usize) -> bool
        ensures { result ≡ true → (pattern text : List ℕ) → IsProspectOf pattern text self.now
            → NoneBeginsIn pattern text place (place + 1) }
    {
        self.from <= place && place < usize::MAX
    }

    /// Whether what matches need stands at the place or after it, as far as is known. Where it
    /// doesn't, that is known from then on.
    #[inline]
    pub fn is_left(&mut self, program: &Program, text: &str, place: usize) -> bool
        ensures none { result ≡ false → (pattern : List ℕ) → IsCompiled pattern program.now
            → NoneBeginsIn pattern text.now place (place + 1) }
        ensures known { (pattern : List ℕ) → IsCompiled pattern program.now
            → IsProspectOf pattern text.now self.old → IsProspectOf pattern text.now self.new }
    {
        if place > text.len() || self.met.may_begin_from(program, text, place) {
            return true;
        }
        self.from = place;
        false
    }

    /// As how many steps it counts that what matches need was looked for from the place on, by what
    /// was known before.
    #[inline]
    pub fn look_steps(&self, before: &Prospect, text: &str, place: usize) -> usize
        ensures { result ≤ length text.now }
    {
        if text.len().saturating_sub(place) < LOOKED_A_STEP {
            return 0;
        }
        let seen = if self.from <= place {
            text.len()
        } else {
            self.met.farthest().min(text.len())
        };
        seen.saturating_sub(before.met.farthest().max(place)) / LOOKED_A_STEP
    }

    /// Whether its plan has told of the text before.
    #[inline]
    pub fn is_settled(&self) -> bool {
        self.left == 0
    }

    /// Its plan tells of the text from now on.
    pub fn settle(&mut self)
        ensures { (pattern text : List ℕ) → IsProspectOf pattern text self.old
            → IsProspectOf pattern text self.new }
    {
        self.left = 0;
    }

    /// Tries have all steps again.
    pub fn renew(&mut self)
        ensures { (pattern text : List ℕ) → IsProspectOf pattern text self.old
            → IsProspectOf pattern text self.new }
    {
        self.left = usize::MAX;
    }

    /// In how many steps a try may back up, of so many that a pattern has in all.
    #[inline]
    pub fn allowed(&self, all: usize) -> usize
        ensures { result ≤ all }
    {
        self.left.min(all)
    }

    /// A try took so many of all these steps.
    #[inline]
    pub fn spend(&mut self, all: usize, steps: usize)
        ensures { (pattern text : List ℕ) → IsProspectOf pattern text self.old
            → IsProspectOf pattern text self.new }
    {
        if steps > FEW {
            self.left = self.left.min(all).saturating_sub(steps).max(1);
        }
    }
}
