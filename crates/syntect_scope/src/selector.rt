//! Selectors: which stacks of scopes a rule speaks of.
ghost use Rattle.std.specs.Prelude.{◌≡◌, IfOk, [], option_copied};
ghost use Rattle.syntect_scope.specs.SelectorText.{selector_of, sole_scope};

use crate::scope::Scope;
use crate::stack::ScopeStack;
use std::alloc::{AllocError, Global};
use syntect_values::seq::Seq;

/// A path of scopes that has to be found in a stack, and paths that must not be found there.
#[derive(Debug, Drop, PartialEq, Eq)]
pub struct ScopeSelector {
    /// The scopes of the path, the outermost first.
    pub path: ScopeStack,
    /// The exclusions: a stack in which one of them is found is not matched.
    pub excludes: Seq<ScopeStack>,
}

/// Selectors of which any one has to fit.
#[derive(Debug, Drop, PartialEq, Eq)]
pub struct ScopeSelectors {
    /// The selectors, in the order of the text.
    pub selectors: Seq<ScopeSelector>,
}

impl ScopeSelector {
    /// The selector of an empty path, without exclusions. Takes no memory.
    pub fn default(alloc: Global) -> ScopeSelector
        ensures { result ≡ selector_of [] }
    {
        ScopeSelector {
            path: ScopeStack::new(alloc),
            excludes: Seq::new(alloc),
        }
    }

    /// A copy of the selector.
    pub fn clone(&self) -> Result<ScopeSelector, AllocError>
        ensures { IfOk result (λ selector. selector ≡ self.now) }
    {
        Ok(ScopeSelector {
            path: self.path.clone()?,
            excludes: self.excludes.clone()?,
        })
    }

    /// The scope of the path, where it has just one and there is no exclusion.
    pub fn extract_single_scope(&self) -> Option<Scope>
        ensures { result ≡ sole_scope self.now }
    {
        if !self.excludes.is_empty() {
            return None;
        }
        match self.path.as_slice() {
            [scope] => Some(*scope),
            _ => None,
        }
    }

    /// The scopes of the path, the outermost first.
    pub fn extract_scopes(&self) -> Result<Vec<Scope>, AllocError>
        ensures { IfOk result (λ scopes. scopes.items ≡ self.now.path.scopes) }
    {
        let mut scopes = Vec::new(self.path.scopes.allocator());
        scopes.extend_from_slice(self.path.as_slice())?;
        Ok(scopes)
    }
}

impl Clone for ScopeSelector {
    ghost is_clone = { λ x y. y ≡ x };

    fn clone(&self) -> Result<ScopeSelector, AllocError> {
        ScopeSelector::clone(self)
    }
}

impl ScopeSelectors {
    /// No selectors. Takes no memory.
    pub fn default(alloc: Global) -> ScopeSelectors
        ensures { result.selectors ≡ [] }
    {
        ScopeSelectors {
            selectors: Seq::new(alloc),
        }
    }

    /// A copy of the selectors.
    pub fn clone(&self) -> Result<ScopeSelectors, AllocError>
        ensures { IfOk result (λ selectors. selectors ≡ self.now) }
    {
        Ok(ScopeSelectors {
            selectors: self.selectors.clone()?,
        })
    }
}

impl Clone for ScopeSelectors {
    ghost is_clone = { λ x y. y ≡ x };

    fn clone(&self) -> Result<ScopeSelectors, AllocError> {
        ScopeSelectors::clone(self)
    }
}
