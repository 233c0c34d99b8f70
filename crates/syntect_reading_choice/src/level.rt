//! What is open while a text is read.
ghost use Rattle.std.specs.Prelude.{◌≡◌};

use crate::below::grammar::syntax_definition::ContextId;
use crate::below::values::seq::Seq;
use std::alloc::{AllocError, AllocFailed};
use syntect_reading_state::opening::Opening;

/// An open context, its prototypes, and the match that opened it where that is kept.
#[derive(Drop, PartialEq, Eq)]
pub struct Level {
    pub context: ContextId,
    pub prototypes: Seq<ContextId>,
    pub opening: Option<Opening>,
}

impl Clone for Level {
    ghost is_clone = { λ x y. y ≡ x };

    fn clone(&self) -> Result<Level, AllocError> {
        let opening = match &self.opening {
            Some(opening) => Some(opening.clone(self.prototypes.allocator())?),
            None => None,
        };
        Ok(Level {
            context: self.context,
            prototypes: self.prototypes.clone()?,
            opening,
        })
    }
}
