//! The count of turns.
ghost use Rattle.std.specs.Prelude.{◌≡◌, ℕ, ◌+◌, true};
ghost use Rattle.std.specs.Cmp.Rules.{comparing};
ghost use Rattle.std.proofs.Common.{rules};
ghost use base.Fml.{ftrue};

use std::alloc::AllocError;
use std::marker::{Model, PhantomData};

/// How many turns were made so far: a whole number without limit, which contracts alone see. It
/// takes no bytes, and nothing is done for it at run time.
#[derive(Drop)]
pub struct GhostCount {
    marker: PhantomData<()>,
    pub ghost made: { ℕ },
}

impl Model for GhostCount {
    ghost also_owns = { λ count. ftrue };
}

impl Clone for GhostCount {
    ghost is_clone = { λ x y. y ≡ x };

    fn clone(&self) -> Result<GhostCount, AllocError> {
        Ok(self.copy())
    }
}

/// No comparison tells two counts apart.
impl PartialEq for GhostCount {
    ghost eq = { λ a b. true };

    ghost laws = { Prim.search (comparing, rules) };

    fn eq(&self, _other: &GhostCount) -> bool {
        true
    }
}

impl Eq for GhostCount {
    ghost laws = { Prim.search (comparing, rules) };
}

impl GhostCount {
    /// Before the first turn.
    pub fn none() -> GhostCount
        ensures { result.made ≡ 0 }
    {
        GhostCount {
            marker: PhantomData,
        }
    }

    /// One turn more. A function that makes a turn calls it once.
    pub fn tick(&mut self)
        ensures { self.new.made ≡ self.old.made + 1 }
    {}

    /// Adds so many turns.
    pub fn add(&mut self, more: usize)
        ensures { self.new.made ≡ self.old.made + more }
    {
        for _step in 0..more {
            self.tick();
        }
    }

    /// A copy of the number.
    pub fn copy(&self) -> GhostCount
        ensures { result ≡ self.now }
    {
        GhostCount {
            marker: PhantomData,
        }
    }
}
