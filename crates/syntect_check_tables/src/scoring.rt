//! Scopes, stacks of them and selectors, from texts.
use crate::below::scope::power::MatchPower;
use crate::below::scope::repository::{ParseScopeError, ScopeRepository};
use crate::below::scope::scope::Scope;
use crate::below::scope::selector::{ScopeSelector, ScopeSelectors};
use crate::below::scope::stack::{ClearAmount, ScopeStack, ScopeStackOp};
use std::alloc::Global;

/// How many numbers a score is compared with.
const SCORES: u64 = 2000;

/// Adds the numbers of a scope's atoms, or why there is no scope.
pub fn write_atoms(text: &str, repository: &mut ScopeRepository, out: &mut String) -> Option<()> {
    match repository.build(text) {
        Ok(scope) => write_numbers(scope, out),
        Err(ParseScopeError::TooLong) => out.push_str("TooLong").ok(),
        Err(ParseScopeError::TooManyAtoms) => out.push_str("TooManyAtoms").ok(),
        Err(ParseScopeError::Memory) => None,
    }
}

/// Adds the numbers of a scope's eight atoms.
fn write_numbers(scope: Scope, out: &mut String) -> Option<()> {
    write!(out, "{}", scope.atom_at(0)).ok()?;
    for place in 1..8usize {
        write!(out, " {}", scope.atom_at(place)).ok()?;
    }
    Some(())
}

/// Adds the number that a score is.
fn write_power(alloc: Global, score: &MatchPower, out: &mut String) -> Option<()> {
    for number in 0..SCORES {
        if MatchPower::from_u64(alloc, number).ok()? == *score {
            return write!(out, "{number}").ok();
        }
    }
    None
}

/// Adds the score of a union of selectors in a stack, which comes after a tab.
pub fn write_score(
    alloc: Global,
    question: &str,
    repository: &mut ScopeRepository,
    out: &mut String,
) -> Option<()> {
    let (union, stack) = question.split_once('\t')?;
    let union = ScopeSelectors::from_text(alloc, union, repository).ok()?;
    let stack = ScopeStack::from_text(alloc, stack, repository).ok()?;
    match union.does_match(stack.as_slice()).ok()? {
        Some(score) => write_power(alloc, &score, out),
        None => out.push_str("none").ok(),
    }
}

/// Adds the score of a stack as a path in a stack, which comes after a tab.
pub fn write_path_score(
    alloc: Global,
    question: &str,
    repository: &mut ScopeRepository,
    out: &mut String,
) -> Option<()> {
    let (path, stack) = question.split_once('\t')?;
    let path = ScopeStack::from_text(alloc, path, repository).ok()?;
    let stack = ScopeStack::from_text(alloc, stack, repository).ok()?;
    match path.does_match(stack.as_slice()).ok()? {
        Some(score) => write_power(alloc, &score, out),
        None => out.push_str("none").ok(),
    }
}

/// Adds the scopes of a stack, with a space between each two.
fn write_scopes(stack: &ScopeStack, repository: &ScopeRepository, out: &mut String) -> Option<()> {
    let scopes = stack.build_string(repository).ok()?;
    out.push_str(scopes.as_str().trim_end()).ok()
}

/// Adds a selector: its path, and after dashes what it excludes.
fn write_selector(
    selector: &ScopeSelector,
    repository: &ScopeRepository,
    out: &mut String,
) -> Option<()> {
    write_scopes(&selector.path, repository, out)?;
    for exclusion in &selector.excludes {
        out.push_str(" - ").ok()?;
        write_scopes(exclusion, repository, out)?;
    }
    out.push(';').ok()
}

/// Adds the selectors of a union.
pub fn write_union(
    alloc: Global,
    question: &str,
    repository: &mut ScopeRepository,
    out: &mut String,
) -> Option<()> {
    let union = ScopeSelectors::from_text(alloc, question, repository).ok()?;
    for selector in &union.selectors {
        write_selector(selector, repository, out)?;
    }
    Some(())
}

/// The operation of a text.
pub(crate) fn operation_of(text: &str, repository: &mut ScopeRepository) -> Option<ScopeStackOp> {
    let (word, rest) = text.split_once(' ').unwrap_or((text, ""));
    match word {
        "push" => Some(ScopeStackOp::Push(repository.build(rest).ok()?)),
        "pop" => Some(ScopeStackOp::Pop(rest.parse::<usize>().ok()?)),
        "clear" => Some(match rest.parse::<usize>() {
            Ok(count) => ScopeStackOp::Clear(ClearAmount::TopN(count)),
            Err(_) => ScopeStackOp::Clear(ClearAmount::All),
        }),
        "restore" => Some(ScopeStackOp::Restore),
        _ => Some(ScopeStackOp::Noop),
    }
}

/// Adds what a stack becomes by operations, and `refused` for each that is refused: the scopes and
/// the operations have commas between.
pub fn write_stack(
    alloc: Global,
    question: &str,
    repository: &mut ScopeRepository,
    out: &mut String,
) -> Option<()> {
    let (scopes, operations) = question.split_once(", ")?;
    let mut stack = ScopeStack::from_text(alloc, scopes, repository).ok()?;
    for text in operations.split(", ") {
        let operation = operation_of(text, repository)?;
        if stack.apply(&operation).is_err() {
            out.push_str("refused ").ok()?;
        }
    }
    write_scopes(&stack, repository, out)
}
