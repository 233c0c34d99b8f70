//! Selectors read from texts.
ghost use Rattle.std.specs.Prelude.{◌≡◌, ◌==◌, ◌++◌, length, map, take, IfOk, OnOk, IfErr, None};
ghost use Rattle.std.specs.List.{slice_split, flat_map};
ghost use Rattle.syntect_scope.specs.Repository.{with_scopes, first_refusal, IsRefusalOrMemory, IsRepository};
ghost use Rattle.syntect_scope.specs.SelectorText.{union_parts, hyphen_parts, selector_words, union_words, stack_in, selector_of, selector_in, selectors_in};
ghost use Rattle.syntect_scope.specs.Words.{words};

use crate::repository::{ParseScopeError, ScopeRepository};
use crate::selector::{ScopeSelector, ScopeSelectors};
use crate::stack::ScopeStack;
use std::alloc::{AllocError, Global};
use syntect_values::seq::Seq;

/// The parts of a text between its commas.
fn between_commas(alloc: Global, s: &str) -> Result<Vec<&str>, AllocError>
    ensures { IfOk result (λ v. map (λ x. x.now) v.items ≡ slice_split (λ b. b == 44) s.now) }
{
    s.split(',').collect(alloc)
}

/// The parts of a text between its bars.
fn between_bars(alloc: Global, s: &str) -> Result<Vec<&str>, AllocError>
    ensures { IfOk result (λ v. map (λ x. x.now) v.items ≡ slice_split (λ b. b == 124) s.now) }
{
    s.split('|').collect(alloc)
}

/// The parts of a union.
fn parts_of_union(alloc: Global, s: &str) -> Result<Vec<&str>, AllocError>
    ensures { IfOk result (λ v. map (λ x. x.now) v.items ≡ union_parts s.now) }
{
    let mut parts = Vec::new(alloc);
    for part in &between_commas(alloc, s)? {
        parts.append(&mut between_bars(alloc, part)?)?;
    }
    Ok(parts)
}

/// The parts of a selector.
fn parts_of_selector(alloc: Global, s: &str) -> Result<Vec<&str>, AllocError>
    ensures { IfOk result (λ v. map (λ x. x.now) v.items ≡ hyphen_parts s.now) }
{
    let mut parts = Vec::new(alloc);
    let mut rest = s;
    while let Some((part, others)) = rest.split_once(" -") {
        parts.push(part)?;
        rest = others;
    }
    parts.push(rest)?;
    Ok(parts)
}

/// The stacks that the texts name, one after another.
fn stacks_of(
    alloc: Global,
    texts: &[&str],
    repository: &mut ScopeRepository,
) -> Result<Vec<ScopeStack>, ParseScopeError>
    ensures atoms { OnOk result (repository.new ≡ with_scopes repository.old
        (flat_map words (map (λ x. x.now) texts.now))) }
    ensures stacks { IfOk result
        (λ stacks. stacks.items ≡ map (stack_in repository.new) (map (λ x. x.now) texts.now)) }
    ensures accepted { OnOk result
        (first_refusal repository.old (flat_map words (map (λ x. x.now) texts.now)) ≡ None) }
    ensures refused { IfErr result (IsRefusalOrMemory
        (first_refusal repository.old (flat_map words (map (λ x. x.now) texts.now)))) }
    ensures whole { IsRepository repository.new }
    ensures kept { take (length repository.old) repository.new ≡ repository.old }
{
    repository.is_whole();
    let mut stacks = Vec::new(alloc);
    for text in texts {
        match ScopeStack::from_text(alloc, text, repository) {
            Ok(stack) => stacks.push(stack)?,
            Err(e) => return Err(e),
        }
    }
    Ok(stacks)
}

impl ScopeSelector {
    /// The selector that a text names. The text is cut at each space with a hyphen after it: first
    /// comes the path, then come the exclusions, each of scopes separated by white space. A refusal
    /// is that of the first scope that is refused, or lack of memory; the repository may then have
    /// more atoms, and the old ones keep their numbers.
    pub fn from_text(
        alloc: Global,
        s: &str,
        repository: &mut ScopeRepository,
    ) -> Result<ScopeSelector, ParseScopeError>
        ensures atoms { OnOk result
            (repository.new ≡ with_scopes repository.old (selector_words s.now)) }
        ensures selector { IfOk result (λ selector. selector ≡ selector_in repository.new s.now) }
        ensures accepted { OnOk result
            (first_refusal repository.old (selector_words s.now) ≡ None) }
        ensures refused { IfErr result
            (IsRefusalOrMemory (first_refusal repository.old (selector_words s.now))) }
        ensures whole { IsRepository repository.new }
        ensures kept { take (length repository.old) repository.new ≡ repository.old }
    {
        repository.is_whole();
        let parts = parts_of_selector(alloc, s)?;
        match stacks_of(alloc, parts.as_slice(), repository) {
            Ok(stacks) => Ok(selector_from(alloc, stacks)),
            Err(e) => Err(e),
        }
    }
}

/// The selector of a path and exclusions.
fn selector_from(alloc: Global, mut stacks: Vec<ScopeStack>) -> ScopeSelector
    ensures { result ≡ selector_of stacks.items }
{
    if stacks.is_empty() {
        return ScopeSelector::default(alloc);
    }
    let path = stacks.remove(0);
    ScopeSelector {
        path,
        excludes: Seq::from_vec(stacks),
    }
}

impl ScopeSelectors {
    /// The selectors that a text names, which is cut at commas and bars. Refusals are those of
    /// `ScopeSelector::from_text`, the first one's.
    pub fn from_text(
        alloc: Global,
        s: &str,
        repository: &mut ScopeRepository,
    ) -> Result<ScopeSelectors, ParseScopeError>
        ensures atoms { OnOk result
            (repository.new ≡ with_scopes repository.old (union_words s.now)) }
        ensures selectors { IfOk result
            (λ selectors. selectors.selectors ≡ selectors_in repository.new s.now) }
        ensures accepted { OnOk result (first_refusal repository.old (union_words s.now) ≡ None) }
        ensures refused { IfErr result
            (IsRefusalOrMemory (first_refusal repository.old (union_words s.now))) }
        ensures whole { IsRepository repository.new }
        ensures kept { take (length repository.old) repository.new ≡ repository.old }
    {
        repository.is_whole();
        let parts = parts_of_union(alloc, s)?;
        let mut selectors = Vec::new(alloc);
        for part in &parts {
            match ScopeSelector::from_text(alloc, part, repository) {
                Ok(selector) => selectors.push(selector)?,
                Err(e) => return Err(e),
            }
        }
        Ok(ScopeSelectors {
            selectors: Seq::from_vec(selectors),
        })
    }
}
