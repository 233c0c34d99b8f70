//! The names of the contexts of a syntax.
ghost use Rattle.std.specs.Prelude.{◌≡◌, ◌==◌, [], position};
ghost use Rattle.std.specs.Cmp.Lexicographic.{pointwise, slice_cmp};
ghost use Rattle.std.specs.List.Sorted.{IsStrictlySortedBy};
ghost use Rattle.std.specs.Ordering.{nat_cmp};

use crate::below::values::seq::Seq;
use crate::below::values::text::Text;
use std::alloc::{AllocError, Global};
use std::marker::Model;

/// Names in the order of their bytes, each of them once, seen as their list.
#[derive(Drop)]
pub struct ContextNames {
    names: Seq<Text>,
}

impl Model for ContextNames {
    ghost use Rattle.std.specs.Prelude.{List, ℕ};
    ghost use Rattle.std.specs.Cmp.Lexicographic.{slice_cmp};
    ghost use Rattle.std.specs.List.Sorted.{IsStrictlySortedBy};
    ghost use Rattle.std.specs.Ordering.{nat_cmp};

    ghost Value = { List (List ℕ) };

    ghost view = { λ a. a.names };

    ghost invariant = { λ a. IsStrictlySortedBy (slice_cmp nat_cmp) a.names };
}

impl ContextNames {
    /// No names. Takes no memory.
    #[tactic(auto, using(crate::proofs::ContextNamesLaws::none_in_order))]
    pub fn new(alloc: Global) -> ContextNames
        ensures { result ≡ [] }
    {
        ContextNames {
            names: Seq::new(alloc),
        }
    }

    /// The names of a vector, which stand in order. Takes no memory.
    pub fn from_vec(names: Vec<Text>) -> ContextNames
        requires { IsStrictlySortedBy (slice_cmp nat_cmp) names.items }
        ensures { result ≡ names.items }
    {
        ContextNames {
            names: Seq::from_vec(names),
        }
    }

    /// The names. Takes no memory.
    pub fn into_seq(self) -> Seq<Text>
        ensures { result ≡ self }
    {
        let ContextNames { names } = self;
        names
    }

    /// The place of a name, found by halving what is left.
    pub fn number_of(&self, name: &str) -> Option<usize>
        ensures { result ≡ position (pointwise ◌==◌ name.now) self.now }
    {
        let names = self.names.as_slice();
        names
            .binary_search_by(|other| other.as_str().cmp(name))
            .ok()
    }
}

impl Clone for ContextNames {
    ghost is_clone = { λ x y. y ≡ x };

    fn clone(&self) -> Result<ContextNames, AllocError> {
        Ok(ContextNames {
            names: self.names.clone()?,
        })
    }
}
