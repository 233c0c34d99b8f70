//! The levels that are open while a line is read.
ghost use Rattle.std.specs.Prelude.{◌≡◌, ◌++◌, ◌∷◌, ◌-◌, ◌<◌, ◌↔◌, [], length, take, IsSome, OnOk, OnErr};
ghost use Rattle.std.specs.Option.{option_to_list};
ghost use Rattle.syntect_reading_choice.specs.Bare.{AreBare};

use crate::below::values::seq::Seq;
use crate::level::Level;
use std::alloc::AllocFailed;
use std::marker::Model;

/// Open levels, lowest first, seen as their list. How many of the lowest have no prototypes is
/// counted, so that no turn looks at those for some.
#[derive(Drop)]
pub struct Levels {
    items: Seq<Level>,
    /// So many of the lowest have none, as far as there are so many.
    bare: usize,
}

impl Model for Levels {
    ghost use Rattle.std.specs.Prelude.{List};
    ghost use Rattle.syntect_reading_choice.specs.declared.level.Level.{Level as ALevel};
    ghost use Rattle.syntect_reading_choice.specs.Bare.{AreBare};

    ghost Value = { List ALevel };

    ghost view = { λ a. a.items };

    ghost invariant = { λ a. AreBare a.bare a.items };
}

/// How many of the lowest levels have no prototypes.
fn bare_of(levels: &[Level]) -> usize
    ensures { AreBare result levels.now }
{
    let mut bare = 0;
    while bare < levels.len() && levels[bare].prototypes.is_empty() {
        bare += 1;
    }
    bare
}

impl Levels {
    /// The levels of a sequence. Takes no memory.
    pub fn from_seq(items: Seq<Level>) -> Levels
        ensures { result ≡ items }
    {
        let bare = bare_of(items.as_slice());
        Levels { items, bare }
    }

    /// The sequence of the levels. Takes no memory.
    pub fn into_seq(self) -> Seq<Level>
        ensures { result ≡ self }
    {
        let Levels { items, bare: _ } = self;
        items
    }

    /// The levels.
    pub fn as_slice(&self) -> &[Level]
        ensures { result.now ≡ self.now }
    {
        self.items.as_slice()
    }

    /// How many levels there are.
    pub fn len(&self) -> usize
        ensures { result ≡ length self.now }
    {
        self.items.len()
    }

    /// So many of the lowest levels have no prototypes, as far as there are so many.
    #[inline]
    pub fn bare(&self) -> usize
        ensures { AreBare result self.now }
    {
        let _ = &self.items;
        self.bare
    }

    /// Opens a level above the others. Without memory for it they stay, and the refusal holds it.
    pub fn push(&mut self, level: Level) -> Result<(), AllocFailed<Level>>
        ensures ok { OnOk result (self.new ≡ self.old ++ level ∷ []) }
        ensures err { OnErr result (self.new ≡ self.old) }
    {
        let height = self.items.len();
        let is_bare = self.bare >= height && level.prototypes.is_empty();
        self.items.push(level)?;
        self.bare = if is_bare {
            self.items.len()
        } else {
            self.bare.min(height)
        };
        Ok(())
    }

    /// Leaves the highest level, if there is one.
    pub fn pop(&mut self) -> Option<Level>
        ensures levels { self.old ≡ self.new ++ option_to_list result }
        ensures variant { IsSome result ↔ (0 < length self.old) }
        ensures rest { self.new ≡ take (length self.old - 1) self.old }
    {
        self.items.pop()
    }
}
