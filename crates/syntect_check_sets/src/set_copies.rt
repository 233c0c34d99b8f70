//! Copies of definitions, of what they hold, and of syntaxes.
use crate::below::grammar::syntax_definition::{Context, MatchPattern, Pattern, SyntaxDefinition};
use crate::below::grammar::syntax_set::{SyntaxReference, SyntaxSetBuilder};
use crate::below::scope::repository::ScopeRepository;
use crate::copies::copy;
use crate::set_given::{builder_of, definition_of, set_of};
use crate::sets::{show_definitions, show_name};
use std::alloc::AllocError;
use syntect_check_calls::marks::{TIMES, answer, begin, end};

/// What is copied of a definition.
#[derive(Clone, Copy)]
enum Part {
    Definition,
    Context,
    Entry,
    Pattern,
    Operation,
    Reference,
}

/// Copies what a pattern holds, or all of it.
fn copy_of_pattern(rt: &impl Print, pattern: &MatchPattern, part: Part) {
    match (part, &pattern.with_prototype) {
        (Part::Operation, _) => copy(rt, &pattern.operation),
        (Part::Reference, Some(reference)) => copy(rt, reference),
        (Part::Reference, None) => {}
        _ => copy(rt, pattern),
    }
}

/// Copies a context, its last entry, or what that one holds.
fn copy_of_context(rt: &impl Print, context: &Context, part: Part) {
    match (part, context.patterns.as_slice().last()) {
        (Part::Context, _) => copy(rt, context),
        (Part::Entry, Some(entry)) => copy(rt, entry),
        (_, Some(Pattern::Match(pattern))) => copy_of_pattern(rt, pattern, part),
        _ => {}
    }
}

fn copy_of_definition(rt: &impl Print, definition: &SyntaxDefinition, part: Part) {
    if let Part::Definition = part {
        copy(rt, definition);
        return;
    }
    for (name, context) in definition.contexts.as_map().iter() {
        if name.as_str() == "main" {
            copy_of_context(rt, context, part);
        }
    }
}

fn copy_part(rt: &(impl Print + AllocGlobal), part: Part) {
    let mut repository = ScopeRepository::new(rt.alloc());
    if let Some(definition) = definition_of(rt.alloc(), &mut repository) {
        copy_of_definition(rt, &definition, part);
    }
}

fn builder_clone(rt: &(impl Print + AllocGlobal)) {
    let mut repository = ScopeRepository::new(rt.alloc());
    let builder = builder_of(rt.alloc(), &mut repository);
    for _ in 0..TIMES {
        begin(rt);
        let copy: Result<SyntaxSetBuilder, AllocError> = builder.clone();
        end(rt);
        match &copy {
            Ok(copy) => show_definitions(rt, copy, &repository),
            Err(e) => answer(rt, e),
        }
    }
}

fn syntax_clone(rt: &(impl Print + AllocGlobal)) {
    let mut repository = ScopeRepository::new(rt.alloc());
    let set = set_of(rt.alloc(), &mut repository);
    let Some(syntax) = set.syntaxes().first() else {
        return;
    };
    for _ in 0..TIMES {
        begin(rt);
        let copy: Result<SyntaxReference, AllocError> = syntax.clone();
        end(rt);
        match &copy {
            Ok(copy) => show_name(rt, Some(copy)),
            Err(e) => answer(rt, e),
        }
    }
}

/// The calls.
pub const NAMES: [&str; 8] = [
    "SyntaxDefinition::clone",
    "Context::clone",
    "Pattern::clone",
    "MatchPattern::clone",
    "MatchOperation::clone",
    "ContextReference::clone",
    "SyntaxSetBuilder::clone",
    "SyntaxReference::clone",
];

/// Makes the call of this name, if there is one.
pub fn make(rt: &(impl Print + AllocGlobal), name: &str) {
    match name {
        "SyntaxDefinition::clone" => copy_part(rt, Part::Definition),
        "Pattern::clone" => copy_part(rt, Part::Entry),
        "Context::clone" => copy_part(rt, Part::Context),
        "MatchPattern::clone" => copy_part(rt, Part::Pattern),
        "MatchOperation::clone" => copy_part(rt, Part::Operation),
        "ContextReference::clone" => copy_part(rt, Part::Reference),
        "SyntaxSetBuilder::clone" => builder_clone(rt),
        "SyntaxReference::clone" => syntax_clone(rt),
        _ => {}
    }
}
