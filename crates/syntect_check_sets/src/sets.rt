//! Calls of definitions and of sets.
use crate::below::grammar::syntax_definition::SyntaxDefinition;
use crate::below::grammar::syntax_set::{SyntaxReference, SyntaxSet, SyntaxSetBuilder};
use crate::below::scope::repository::ScopeRepository;
use crate::set_given::{GRAMMAR, builder_of, definition_of, set_of};
use std::alloc::AllocError;
use syntect_check_calls::marks::{TIMES, answer, begin, end, left};
use syntect_check_shown::definitions::write_definitions;

/// Shows all that definitions hold.
pub fn show_definitions(
    rt: &(impl Print + AllocGlobal),
    builder: &SyntaxSetBuilder,
    repository: &ScopeRepository,
) {
    let mut out = String::new(rt.alloc());
    let _ = write_definitions(builder.syntaxes(), repository, &mut out);
    answer(rt, &out);
}

/// Shows all that a set's definitions hold.
fn show_set(rt: &(impl Print + AllocGlobal), set: SyntaxSet, repository: &ScopeRepository) {
    if let Ok(builder) = set.into_builder(rt.alloc()) {
        show_definitions(rt, &builder, repository);
    }
}

/// Shows the name of a syntax.
pub fn show_name(rt: &impl Print, syntax: Option<&SyntaxReference>) {
    match syntax {
        Some(syntax) => answer(rt, syntax.name.as_str()),
        None => answer(rt, "none"),
    }
}

/// Shows all that a definition holds.
fn show_definition(
    rt: &(impl Print + AllocGlobal),
    definition: SyntaxDefinition,
    repository: &ScopeRepository,
) {
    let mut builder = SyntaxSetBuilder::new(rt.alloc());
    let _ = builder.add(definition);
    show_definitions(rt, &builder, repository);
}

fn load_from_str(rt: &(impl Print + AllocGlobal)) {
    let alloc = rt.alloc();
    for _ in 0..TIMES {
        let mut repository = ScopeRepository::new(alloc);
        begin(rt);
        let loaded = SyntaxDefinition::load_from_str(alloc, GRAMMAR, true, None, &mut repository);
        end(rt);
        match loaded {
            Ok(definition) => show_definition(rt, definition, &repository),
            Err(e) => answer(rt, &e),
        }
    }
}

fn builder_add(rt: &(impl Print + AllocGlobal)) {
    let alloc = rt.alloc();
    let mut repository = ScopeRepository::new(alloc);
    let mut builder = SyntaxSetBuilder::new(alloc);
    left(rt, builder.syntaxes().len());
    for _ in 0..TIMES {
        let Some(definition) = definition_of(alloc, &mut repository) else {
            return;
        };
        begin(rt);
        let added = builder.add(definition);
        end(rt);
        answer(rt, &added);
        left(rt, builder.syntaxes().len());
    }
}

fn builder_add_plain_text(rt: &(impl Print + AllocGlobal)) {
    let alloc = rt.alloc();
    let mut repository = ScopeRepository::new(alloc);
    let mut builder = SyntaxSetBuilder::new(alloc);
    left(rt, builder.syntaxes().len());
    for _ in 0..TIMES {
        begin(rt);
        let added = builder.add_plain_text_syntax(alloc, &mut repository);
        end(rt);
        answer(rt, &added);
        left(rt, builder.syntaxes().len());
    }
}

fn builder_build(rt: &(impl Print + AllocGlobal)) {
    let alloc = rt.alloc();
    for _ in 0..TIMES {
        let mut repository = ScopeRepository::new(alloc);
        let builder = builder_of(alloc, &mut repository);
        begin(rt);
        let built = builder.build(alloc, &mut repository);
        end(rt);
        match built {
            Ok(set) => show_set(rt, set, &repository),
            Err(e) => answer(rt, &e),
        }
    }
}

fn set_into_builder(rt: &(impl Print + AllocGlobal)) {
    let alloc = rt.alloc();
    for _ in 0..TIMES {
        let mut repository = ScopeRepository::new(alloc);
        let set = set_of(alloc, &mut repository);
        begin(rt);
        let builder = set.into_builder(alloc);
        end(rt);
        match &builder {
            Ok(builder) => show_definitions(rt, builder, &repository),
            Err(e) => answer(rt, e),
        }
    }
}

fn set_clone(rt: &(impl Print + AllocGlobal)) {
    let alloc = rt.alloc();
    let mut repository = ScopeRepository::new(alloc);
    let set = set_of(alloc, &mut repository);
    for _ in 0..TIMES {
        begin(rt);
        let copy: Result<SyntaxSet, AllocError> = set.clone();
        end(rt);
        match copy {
            Ok(copy) => show_set(rt, copy, &repository),
            Err(e) => answer(rt, &e),
        }
    }
}

fn find_by_first_line(rt: &(impl Print + AllocGlobal)) {
    let mut repository = ScopeRepository::new(rt.alloc());
    let set = set_of(rt.alloc(), &mut repository);
    for _ in 0..TIMES {
        begin(rt);
        let found = set.find_syntax_by_first_line("#!/bin/t");
        end(rt);
        match found {
            Ok(syntax) => show_name(rt, syntax),
            Err(e) => answer(rt, &e),
        }
    }
}

fn find_unlinked(rt: &(impl Print + AllocGlobal)) {
    let alloc = rt.alloc();
    let mut repository = ScopeRepository::new(alloc);
    let set = set_of(alloc, &mut repository);
    for _ in 0..TIMES {
        begin(rt);
        let texts = set.find_unlinked_contexts(alloc, &repository);
        end(rt);
        answer(rt, &texts);
    }
}

/// The calls.
pub const NAMES: [&str; 8] = [
    "SyntaxDefinition::load_from_str",
    "SyntaxSetBuilder::add",
    "SyntaxSetBuilder::add_plain_text_syntax",
    "SyntaxSetBuilder::build",
    "SyntaxSet::into_builder",
    "SyntaxSet::clone",
    "SyntaxSet::find_syntax_by_first_line",
    "SyntaxSet::find_unlinked_contexts",
];

/// Makes the call of this name, if there is one.
pub fn make(rt: &(impl Print + AllocGlobal), name: &str) {
    match name {
        "SyntaxDefinition::load_from_str" => load_from_str(rt),
        "SyntaxSetBuilder::add" => builder_add(rt),
        "SyntaxSetBuilder::add_plain_text_syntax" => builder_add_plain_text(rt),
        "SyntaxSetBuilder::build" => builder_build(rt),
        "SyntaxSet::into_builder" => set_into_builder(rt),
        "SyntaxSet::clone" => set_clone(rt),
        "SyntaxSet::find_syntax_by_first_line" => find_by_first_line(rt),
        "SyntaxSet::find_unlinked_contexts" => find_unlinked(rt),
        _ => {}
    }
}
