//! How paths of scopes are found in stacks.
ghost use Rattle.std.specs.Prelude.{◌≡◌, ◌+◌, ◌<◌, ◌≤◌, [], ◌∷◌, drop, length, is_some, IfOk, Some, None};
ghost use Rattle.syntect_scope.specs.Choice.{least_choice, path_score, stack_score, selector_score, union_score, greater_score};

use crate::power::MatchPower;
use crate::scope::Scope;
use crate::selector::{ScopeSelector, ScopeSelectors};
use crate::stack::ScopeStack;
use std::alloc::{AllocError, Global};

/// Whether a path is found in a stack.
fn is_found(path: &[Scope], stack: &[Scope]) -> bool
    ensures { result ≡ is_some (least_choice path.now stack.now) }
{
    let mut rest = path;
    for scope in stack {
        match rest.split_first() {
            None => return true,
            Some((first, others)) => {
                if first.is_prefix_of(*scope) {
                    rest = others;
                }
            }
        }
    }
    rest.is_empty()
}

/// The score of a path in a stack, if it is found there: each of its scopes at the first place
/// after the one before it.
fn path_power(
    alloc: Global,
    path: &[Scope],
    stack: &[Scope],
) -> Result<Option<MatchPower>, AllocError>
    ensures { IfOk result (λ power. power ≡ path_score path.now stack.now) }
{
    if !is_found(path, stack) {
        return Ok(None);
    }
    let mut power = MatchPower::new(alloc);
    let mut rest = path;
    for (place, scope) in stack.iter().enumerate() {
        match rest.split_first() {
            None => return Ok(Some(power)),
            Some((first, others)) => {
                if first.is_prefix_of(*scope) {
                    power.add(first.len(), place)?;
                    rest = others;
                }
            }
        }
    }
    if rest.is_empty() {
        Ok(Some(power))
    } else {
        Ok(None)
    }
}

/// The greater of two scores.
fn greater(a: Option<MatchPower>, b: Option<MatchPower>) -> Option<MatchPower>
    ensures { result ≡ greater_score a b }
{
    match (a, b) {
        (None, b) => b,
        (a, None) => a,
        (Some(a), Some(b)) => { if a < b { Some(b) } else { Some(a) } }
    }
}

impl ScopeStack {
    /// The score of this stack as a path in another one, the bottom scope first, if it is found
    /// there. A stack of no scopes is found nowhere.
    pub fn does_match(&self, stack: &[Scope]) -> Result<Option<MatchPower>, AllocError>
        ensures { IfOk result (λ power. power ≡ stack_score self.now.scopes stack.now) }
    {
        if self.is_empty() {
            return Ok(None);
        }
        path_power(self.scopes.allocator(), self.as_slice(), stack)
    }
}

impl ScopeSelector {
    /// The score of this selector in a stack, the bottom scope first: none where an exclusion is
    /// empty or found, or the path isn't found; 1 for an empty path.
    pub fn does_match(&self, stack: &[Scope]) -> Result<Option<MatchPower>, AllocError>
        ensures { IfOk result (λ power. power ≡ selector_score self.now stack.now) }
    {
        for exclusion in self.excludes.as_slice() {
            if is_found(exclusion.as_slice(), stack) {
                return Ok(None);
            }
        }
        if self.path.is_empty() {
            let one = MatchPower::from_u64(self.path.scopes.allocator(), 1)?;
            return Ok(Some(one));
        }
        path_power(self.path.scopes.allocator(), self.path.as_slice(), stack)
    }
}

impl ScopeSelectors {
    /// The greatest of the scores of the selectors in a stack, the bottom scope first,
    /// if one has a score.
    pub fn does_match(&self, stack: &[Scope]) -> Result<Option<MatchPower>, AllocError>
        ensures { IfOk result (λ power. power ≡ union_score self.now.selectors stack.now) }
    {
        let mut best = None;
        for selector in self.selectors.as_slice() {
            let score = selector.does_match(stack)?;
            best = greater(best, score);
        }
        Ok(best)
    }
}
