//! The contexts that a match names.
ghost use Rattle.std.specs.Prelude.{◌≡◌, find, is_none, IfOk, IfErr, None};
ghost use Rattle.std.specs.Option.{option_copied, option_to_list};
ghost use Rattle.std.specs.List.{filter_map};
ghost use Rattle.syntect_grammar.specs.Contexts.{context_at};
ghost use Rattle.syntect_reading_state.specs.syntect_grammar_contexts.Contexts.{list_of, named, target};
ghost use Rattle.syntect_reading_state.specs.Names.{refusal};
ghost use Rattle.syntect_reading_state.specs.syntect_grammar_contexts.Errors.{MayBe};

use std::alloc::{AllocError, Global};
use syntect_grammar::error::ParsingError;
use syntect_grammar::syntax_definition::{
    ContextId, ContextReference, MatchOperation, MatchPattern,
};
use syntect_grammar::syntax_set::SyntaxSet;

/// The list of a push or a set.
fn list_of(operation: &MatchOperation) -> Option<&[ContextReference]>
    ensures { option_copied result ≡ list_of operation.now }
{
    match operation {
        MatchOperation::Push(refs) => Some(refs.as_slice()),
        MatchOperation::Set(refs) => Some(refs.as_slice()),
        MatchOperation::Pop => None,
        MatchOperation::None => None,
    }
}

/// The first reference that a match names and that isn't resolved.
fn unresolved_in(pattern: &MatchPattern) -> Option<&ContextReference>
    ensures { option_copied result ≡ find (λ r. is_none (target r)) (named pattern.now) }
{
    let refs = list_of(&pattern.operation)?;
    for r in refs {
        if r.target().is_none() {
            return Some(r);
        }
    }
    let last = pattern.with_prototype.as_ref()?;
    if last.target().is_none() {
        Some(last)
    } else {
        None
    }
}

/// Whether the set lacks what a reference stands for.
fn lacks(set: &SyntaxSet, r: &ContextReference) -> Option<ContextId>
    ensures { result ≡ find (λ id. is_none (context_at set.now id))
        (option_to_list (target r.now)) }
{
    let id = r.target()?;
    if set.context_at(id).is_none() {
        Some(id)
    } else {
        None
    }
}

/// The first context that a match names and that the set lacks.
fn missing_in(set: &SyntaxSet, pattern: &MatchPattern) -> Option<ContextId>
    ensures { result ≡ find (λ id. is_none (context_at set.now id))
        (filter_map target (named pattern.now)) }
{
    let refs = list_of(&pattern.operation)?;
    for r in refs {
        if let Some(id) = lacks(set, r) {
            return Some(id);
        }
    }
    lacks(set, pattern.with_prototype.as_ref()?)
}

/// Refuses a match that names what isn't resolved, or what the set lacks.
pub fn check_names(set: &SyntaxSet, pattern: &MatchPattern) -> Result<(), ParsingError>
    ensures accepted { IfOk result (λ _. refusal set.now pattern.now ≡ None) }
    ensures refused { IfErr result (MayBe (refusal set.now pattern.now)) }
{
    if let Some(r) = unresolved_in(pattern) {
        return Err(ParsingError::UnresolvedContextReference(r.clone()?));
    }
    if let Some(id) = missing_in(set, pattern) {
        return Err(ParsingError::MissingContext(id));
    }
    Ok(())
}

/// What references stand for.
pub fn targets(alloc: Global, refs: &[ContextReference]) -> Result<Vec<ContextId>, AllocError>
    ensures { IfOk result (λ v. v.items ≡ filter_map target refs.now) }
{
    let mut ids = Vec::with_capacity(alloc, refs.len())?;
    for r in refs {
        if let Some(id) = r.target() {
            ids.push(id)?;
        }
    }
    Ok(ids)
}
