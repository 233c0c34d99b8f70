//! Operations on the scopes that references to contexts bring. Each function appends operations to
//! a list, at a byte position of the line; where memory ends, the list may hold some of them, and
//! is for throwing away.
ghost use Rattle.std.specs.Prelude.{◌≡◌, ◌<◌, ◌++◌, [], length, OnOk, is_none};
ghost use Rattle.std.specs.List.{filter_map};
ghost use Rattle.std.specs.Option.{option_map_or, option_copied, option_and_then};
ghost use Rattle.syntect_grammar.specs.Contexts.{context_at};
ghost use Rattle.syntect_reading_state.specs.syntect_grammar_contexts.Contexts.{target};
ghost use Rattle.syntect_reading_state.specs.Opens.{clearing, metas, contents, opens, has_no_scope, clear_nothing, clears, restores, all_below, all_here};
ghost use Rattle.syntect_reading_state.specs.syntect_scope.Replay.{pushes, pops};

use crate::below::scope::scope::Scope;
use crate::below::scope::stack::{ClearAmount, ScopeStackOp};
use std::alloc::AllocError;
use syntect_grammar::syntax_definition::{Context, ContextReference};
use syntect_grammar::syntax_set::SyntaxSet;

/// Operations of a line, each with its byte position.
pub type Ops = Vec<(usize, ScopeStackOp)>;

/// Pushes scopes, the first one first.
pub fn push_scopes(ops: &mut Ops, at: usize, scopes: &[Scope]) -> Result<(), AllocError>
    ensures { OnOk result (ops.new.items ≡ ops.old.items ++ pushes at scopes.now) }
{
    for scope in scopes {
        ops.push((at, ScopeStackOp::Push(*scope)))?;
    }
    Ok(())
}

/// Pops so many scopes by one operation; none are popped by none.
pub fn pop_scopes(ops: &mut Ops, at: usize, count: usize) -> Result<(), AllocError>
    ensures { OnOk result (ops.new.items ≡ ops.old.items ++ pops at count) }
{
    if count > 0 {
        ops.push((at, ScopeStackOp::Pop(count)))?;
    }
    Ok(())
}

/// Clears by an amount, if there is one.
fn clear(ops: &mut Ops, at: usize, amount: Option<ClearAmount>) -> Result<(), AllocError>
    ensures { OnOk result (ops.new.items ≡ ops.old.items ++ clears at amount) }
{
    if let Some(amount) = amount {
        ops.push((at, ScopeStackOp::Clear(amount)))?;
    }
    Ok(())
}

/// Puts back what was cleared by an amount, if there was one.
pub fn restore(ops: &mut Ops, at: usize, amount: Option<ClearAmount>) -> Result<(), AllocError>
    ensures { OnOk result (ops.new.items ≡ ops.old.items ++ restores at amount) }
{
    if amount.is_some() {
        ops.push((at, ScopeStackOp::Restore))?;
    }
    Ok(())
}

/// The context that a reference stands for, if the set has it.
fn context_of<'s>(set: &'s SyntaxSet, r: &ContextReference) -> Option<&'s Context>
    ensures { option_copied result ≡ option_and_then (context_at set.now) (target r.now) }
{
    set.context_at(r.target()?)
}

/// Opens the contexts that references stand for below a match: each clears,
/// and pushes its `meta_scope`.
#[tactic(auto, using(crate::proofs::OpenLaws::below_step))]
pub fn open_below(
    ops: &mut Ops,
    at: usize,
    set: &SyntaxSet,
    refs: &[ContextReference],
) -> Result<(), AllocError>
    ensures { OnOk result (ops.new.items ≡ ops.old.items ++ all_below at set.now refs.now) }
{
    for r in refs {
        if let Some(context) = context_of(set, r) {
            clear(ops, at, context.clear_scopes)?;
            push_scopes(ops, at, context.meta_scope.as_slice())?;
        }
    }
    Ok(())
}

/// Opens them to stay: each clears, and pushes its `meta_scope` and its `meta_content_scope`.
#[tactic(auto, using(crate::proofs::OpenLaws::here_step))]
pub fn open_here(
    ops: &mut Ops,
    at: usize,
    set: &SyntaxSet,
    refs: &[ContextReference],
) -> Result<(), AllocError>
    ensures { OnOk result (ops.new.items ≡ ops.old.items ++ all_here at set.now refs.now) }
{
    for r in refs {
        if let Some(context) = context_of(set, r) {
            clear(ops, at, context.clear_scopes)?;
            push_scopes(ops, at, context.meta_scope.as_slice())?;
            push_scopes(ops, at, context.meta_content_scope.as_slice())?;
        }
    }
    Ok(())
}

/// Pushes the `meta_scope`s of the contexts that references stand for.
#[tactic(auto, using(crate::proofs::OpenLaws::pushes_step))]
pub fn push_metas(
    ops: &mut Ops,
    at: usize,
    set: &SyntaxSet,
    refs: &[ContextReference],
) -> Result<(), AllocError>
    ensures { OnOk result (ops.new.items ≡ ops.old.items ++ pushes at (metas set.now refs.now)) }
{
    for r in refs {
        if let Some(context) = context_of(set, r) {
            push_scopes(ops, at, context.meta_scope.as_slice())?;
        }
    }
    Ok(())
}

/// Pushes the `meta_content_scope`s of the contexts that references stand for.
#[tactic(auto, using(crate::proofs::OpenLaws::pushes_both))]
pub fn push_opens(
    ops: &mut Ops,
    at: usize,
    set: &SyntaxSet,
    refs: &[ContextReference],
) -> Result<(), AllocError>
    ensures { OnOk result (ops.new.items ≡ ops.old.items ++ pushes at (opens set.now refs.now)) }
{
    for r in refs {
        if let Some(context) = context_of(set, r) {
            push_scopes(ops, at, context.meta_scope.as_slice())?;
            push_scopes(ops, at, context.meta_content_scope.as_slice())?;
        }
    }
    Ok(())
}

/// How many `meta_scope`s the contexts that references stand for have.
#[tactic(auto, using(crate::proofs::OpenLaws::count_step))]
pub fn count_metas(set: &SyntaxSet, refs: &[ContextReference]) -> usize
    requires { length (metas set.now refs.now) < 18446744073709551616 }
    ensures { result ≡ length (metas set.now refs.now) }
{
    let mut count = 0;
    for r in refs {
        if let Some(context) = context_of(set, r) {
            count += context.meta_scope.as_slice().len();
        }
    }
    count
}

/// Whether the context that a reference stands for clears nothing.
fn clears_nothing(set: &SyntaxSet, r: &ContextReference) -> bool
    ensures { result ≡ is_none (option_and_then (λ id. clearing set.now id) (target r.now)) }
{
    match context_of(set, r) {
        Some(context) => context.clear_scopes.is_none(),
        None => true,
    }
}

/// Whether no context that references stand for clears.
#[tactic(auto, using(crate::proofs::OpenLaws::clear_step))]
pub fn clear_nothing(set: &SyntaxSet, refs: &[ContextReference]) -> bool
    ensures { result ≡ clear_nothing set.now (filter_map target refs.now) }
{
    for r in refs {
        if !clears_nothing(set, r) {
            return false;
        }
    }
    true
}

/// Whether the context that a reference stands for has no `meta_content_scope`.
fn no_content(set: &SyntaxSet, r: &ContextReference) -> bool
    ensures { result ≡ has_no_scope (option_map_or (λ c. c.meta_content_scope)
        (option_and_then (context_at set.now) (target r.now)) []) }
{
    match context_of(set, r) {
        Some(context) => context.meta_content_scope.as_slice().is_empty(),
        None => true,
    }
}

/// Whether no context that references stand for has a `meta_content_scope`.
#[tactic(auto, using(crate::proofs::OpenLaws::none_step))]
pub fn no_contents(set: &SyntaxSet, refs: &[ContextReference]) -> bool
    ensures { result ≡ has_no_scope (contents set.now refs.now) }
{
    for r in refs {
        if !no_content(set, r) {
            return false;
        }
    }
    true
}
