//! Which syntaxes of a set put back what their contexts clear in the order in which it was cleared,
//! by a look at their definitions alone.
use crate::below::grammar::syntax_set::{SyntaxReference, SyntaxSet};
use std::alloc::Global;
use syntect_reading_state::syntax_definition::{
    Context, ContextReference, MatchOperation, Pattern, context_iter,
};

/// The context that a reference stands for, if the set has it.
fn context_of<'s>(set: &'s SyntaxSet, reference: &ContextReference) -> Option<&'s Context> {
    set.context_at(reference.target()?)
}

/// Whether that context clears.
fn clears(set: &SyntaxSet, reference: &ContextReference) -> bool {
    match context_of(set, reference) {
        Some(context) => context.clear_scopes.is_some(),
        None => false,
    }
}

/// Whether a context after the first of a list clears.
fn clears_behind_first(set: &SyntaxSet, references: &[ContextReference]) -> bool {
    let mut is_first = true;
    for reference in references {
        if !is_first && clears(set, reference) {
            return true;
        }
        is_first = false;
    }
    false
}

/// Whether each match of a pattern is orderly where the context on top clears, or doesn't.
fn is_orderly(set: &SyntaxSet, pattern: &Pattern, top_clears: bool) -> bool {
    let Pattern::Match(pattern) = pattern else {
        return true;
    };
    match &pattern.operation {
        MatchOperation::Push(references) => !clears_behind_first(set, references.as_slice()),
        MatchOperation::Set(references) => {
            !top_clears && !clears_behind_first(set, references.as_slice())
        }
        _ => true,
    }
}

/// Whether the matches of a context's patterns are orderly where the context on top clears,
/// or doesn't.
fn are_orderly(
    alloc: Global,
    set: &SyntaxSet,
    context: &Context,
    top_clears: bool,
) -> Option<bool> {
    for item in context_iter(alloc, set, context) {
        let (holder, index) = item.ok()?;
        if let Some(pattern) = holder.patterns.get(index) {
            if !is_orderly(set, pattern, top_clears) {
                return Some(false);
            }
        }
    }
    Some(true)
}

/// The prototype that a pattern brings along, if it is in the set.
fn brought_by<'s>(set: &'s SyntaxSet, pattern: &Pattern) -> Option<&'s Context> {
    match pattern {
        Pattern::Match(pattern) => context_of(set, pattern.with_prototype.as_ref()?),
        Pattern::Include(_) => None,
    }
}

/// Whether so are those of the prototypes that patterns bring along, whatever context is on top.
fn brings_orderly(alloc: Global, set: &SyntaxSet, patterns: &[Pattern]) -> Option<bool> {
    for pattern in patterns {
        if let Some(context) = brought_by(set, pattern) {
            if !are_orderly(alloc, set, context, true)? {
                return Some(false);
            }
        }
    }
    Some(true)
}

/// Whether the matches that are made in a context are orderly.
fn is_orderly_in(alloc: Global, set: &SyntaxSet, context: &Context) -> Option<bool> {
    let top_clears = context.clear_scopes.is_some();
    if let Some(id) = context.prototype {
        if let Some(prototype) = set.context_at(id) {
            if !are_orderly(alloc, set, prototype, top_clears)? {
                return Some(false);
            }
        }
    }
    if !brings_orderly(alloc, set, context.patterns.as_slice())? {
        return Some(false);
    }
    are_orderly(alloc, set, context, top_clears)
}

/// Adds the name of a syntax, if contexts of it clear: how many do,
/// and whether all its matches are orderly.
fn write_orderly_of(
    alloc: Global,
    set: &SyntaxSet,
    syntax: &SyntaxReference,
    out: &mut String,
) -> Option<()> {
    let mut count = 0u64;
    let mut all = true;
    for context in &syntax.contexts {
        if context.clear_scopes.is_some() {
            count = count.saturating_add(1);
        }
        all &= is_orderly_in(alloc, set, context)?;
    }
    if count == 0 {
        return Some(());
    }
    let name = syntax.name.as_str();
    let told = if all { "orderly" } else { "not orderly" };
    writeln!(out, "{name}\t{count}\t{told}").ok()
}

/// Adds the syntaxes of which contexts clear, each with how many do and whether all
/// its matches are orderly.
pub fn write_orderly(alloc: Global, set: &SyntaxSet, out: &mut String) -> Option<()> {
    for syntax in set.syntaxes() {
        write_orderly_of(alloc, set, syntax, out)?;
    }
    Some(())
}
