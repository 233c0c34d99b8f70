//! The keys of a map that is being read.
ghost use Rattle.std.specs.Prelude.{◌≡◌, ◌||◌, not, IfOk, OnOk};
ghost use Rattle.syntect_yaml.specs.Node.{same_scalar, has_scalar};
ghost use Rattle.syntect_yaml.specs.declared.value.Scalar.{Scalar as Leaf};

use crate::value::Scalar;
use std::alloc::AllocError;
use std::collections::BTreeSet;

/// Adds a key, and says whether it is new.
pub(crate) fn add_key(keys: &mut BTreeSet<Scalar>, key: &Scalar) -> Result<bool, AllocError>
    ensures added { IfOk result (λ new. new ≡ not (has_scalar key.now keys.old.keys)) }
    ensures updates { OnOk result
        ((q : Leaf) → has_scalar q keys.new.keys
        ≡ (same_scalar key.now q || has_scalar q keys.old.keys)) }
{
    Ok(keys.insert(key.clone()?)?)
}
