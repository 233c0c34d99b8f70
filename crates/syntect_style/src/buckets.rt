//! Single rules by the first atoms of their scopes.
ghost use Rattle.std.specs.Prelude.{◌≡◌, ◌<◌, ◌==◌, slice_index, IfOk};
ghost use Rattle.std.specs.List.{filter};
ghost use Rattle.syntect_style.specs.Buckets.{may_match, bucket_of, AreBuckets};

use crate::scores::Rule;
use crate::syntect_scope::scope::Scope;
use crate::syntect_values::seq::Seq;
use std::alloc::{AllocError, Global};

/// How many buckets there are.
pub(crate) const BUCKETS: usize = 32;

/// The number of the bucket for a scope.
pub(crate) fn bucket_of(scope: Scope) -> usize
    ensures number { result ≡ bucket_of scope }
    ensures within { result < 32 }
{
    usize::from(scope.atom_at(0)) % BUCKETS
}

/// Whether a rule can match a scope of a bucket: one of no atoms matches each scope.
fn may_match(bucket: usize, rule: &Rule) -> bool
    ensures { result ≡ may_match bucket rule.now }
{
    rule.scope.is_empty() || bucket_of(rule.scope) == bucket
}

/// The rules that can match a scope of a bucket, in their order.
fn bucket(alloc: Global, rules: &[Rule], number: usize) -> Result<Seq<Rule>, AllocError>
    ensures { IfOk result (λ all. all ≡ filter (may_match number) rules.now) }
{
    let mut all = Seq::new(alloc);
    for rule in rules {
        if may_match(number, rule) {
            all.push(*rule)?;
        }
    }
    Ok(all)
}

/// The buckets.
pub(crate) fn bucketed(alloc: Global, rules: &[Rule]) -> Result<Vec<Seq<Rule>>, AllocError>
    ensures { IfOk result (λ buckets. AreBuckets rules.now buckets.items) }
{
    let mut buckets = Vec::new(alloc);
    for number in 0..BUCKETS {
        buckets.push(bucket(alloc, rules, number)?)?;
    }
    Ok(buckets)
}
