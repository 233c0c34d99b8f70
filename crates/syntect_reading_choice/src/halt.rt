//! Why a turn has no answer.

use crate::below::grammar_lists::flats::Origin;
use std::alloc::AllocError;

/// Why a turn has no answer.
#[derive(Clone, Copy)]
pub enum Halt {
    /// There was no memory.
    Memory,
    /// No step was left, when this pattern was tried at this place of the line, a byte position, or
    /// was made for a turn from there.
    Spent { pattern: Origin, place: usize },
}

impl From<AllocError> for Halt {
    ghost use Rattle.std.specs.Prelude.{◌≡◌};
    ghost use Rattle.syntect_reading_choice.specs.declared.halt.Halt.TheVariants.{Memory};

    ghost from_gives = { λ _ e. e ≡ Memory };

    fn from(_e: AllocError) -> Halt {
        Halt::Memory
    }
}
