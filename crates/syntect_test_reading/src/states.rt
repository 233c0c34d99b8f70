//! States, copies, and contexts by their numbers.
use crate::below::parsing::parser::{ParseState, ParsingError, Regions};
use crate::below::parsing::syntax_definition::{
    Context, ContextId, ContextReference, MatchOperation, SyntaxDefinition,
};
use crate::below::parsing::syntax_set::{SyntaxSet, SyntaxSetBuilder};
use crate::below::scope::repository::ScopeRepository;
use crate::below::scope::stack::ScopeStackOp;
use crate::below::values::text::Text;
use crate::found::{equal, holds};
use std::alloc::Global;
use std::process::Abort;

/// `x` pushes the context `a`, which `b` leaves.
const GRAMMAR: &str =
    "name: T\nscope: source.t\nfirst_line_match: ^x\ncontexts:\n  main: [{match: x, push: a}]\n  a: [{match: b, pop: true}]\n";

/// Two grammars, the first of which leads into the second.
const GRAMMAR_A: &str =
    "name: A\nscope: source.a\nfile_extensions: [a]\ncontexts:\n  main:\n    - match: 'a'\n      scope: a\n    - match: 'go_b'\n      push: scope:source.b#main\n";

const GRAMMAR_B: &str =
    "name: B\nscope: source.b\nfile_extensions: [b]\ncontexts:\n  main:\n    - match: 'b'\n      scope: b\n";

/// The set of the grammar, of a builder with a copy of its definition.
fn built(rt: &impl Abort, alloc: Global, repository: &mut ScopeRepository) -> SyntaxSet {
    let definition = SyntaxDefinition::load_from_str(alloc, GRAMMAR, true, None, repository).expect(
        rt,
        "a grammar",
    );
    let copy = definition.clone().expect(rt, "memory");
    let mut builder = SyntaxSetBuilder::new(alloc);
    builder.add(copy).expect(rt, "memory");
    builder
        .clone()
        .expect(rt, "memory")
        .build(alloc, repository)
        .expect(rt, "a set")
}

/// A state and its copy read a line alike, and are alike again after it.
fn copies_read_alike(rt: &impl Abort, alloc: Global, set: &SyntaxSet) {
    let syntax = set.syntaxes().first().expect(rt, "a syntax");
    let mut state = ParseState::new(alloc, syntax).expect(rt, "an answer");
    let before = state.clone().expect(rt, "memory");
    let mut copy = state.clone().expect(rt, "memory");
    holds(rt, copy == state);
    let first = state.parse_line(alloc, "x\n", set).expect(rt, "an answer");
    holds(rt, state != before);
    let again = copy.parse_line(alloc, "x\n", set).expect(rt, "an answer");
    holds(rt, first.as_slice() == again.as_slice());
    holds(rt, copy == state);
}

#[test]
fn copies_are_read_as_the_first(rt: HostRuntime) {
    let alloc = rt.alloc();
    let mut repository = ScopeRepository::new(alloc);
    let set = built(&rt, alloc, &mut repository)
        .clone()
        .expect(&rt, "memory");
    copies_read_alike(&rt, alloc, &set);
    let syntax = set.find_syntax_by_first_line("xy").expect(&rt, "an answer");
    holds(&rt, syntax.is_some());
}

/// A copy of a set reads on where the first is gone.
#[test]
fn a_copied_set(rt: HostRuntime) {
    let alloc = rt.alloc();
    let mut repository = ScopeRepository::new(alloc);
    let mut builder = SyntaxSetBuilder::new(alloc);
    for text in [GRAMMAR_A, GRAMMAR_B] {
        let definition = SyntaxDefinition::load_from_str(alloc, text, true, None, &mut repository);
        builder
            .add(definition.expect(&rt, "a grammar"))
            .expect(&rt, "memory");
    }
    let first = builder.build(alloc, &mut repository).expect(&rt, "a set");
    let set = first.clone().expect(&rt, "memory");
    drop(first);
    let syntax = set.find_syntax_by_extension("a").expect(&rt, "a syntax");
    let mut state = ParseState::new(alloc, syntax).expect(&rt, "an answer");
    let ops = state
        .parse_line(alloc, "a go_b b", &set)
        .expect(&rt, "an answer");
    let b = repository.build("b").expect(&rt, "a scope");
    holds(&rt, ops.contains(&(7, ScopeStackOp::Push(b))));
}

/// A state stays where the one after a line is asked for.
#[test]
fn the_state_behind_a_line(rt: HostRuntime) {
    let alloc = rt.alloc();
    let mut repository = ScopeRepository::new(alloc);
    let set = built(&rt, alloc, &mut repository);
    let syntax = set.syntaxes().first().expect(&rt, "a syntax");
    let mut state = ParseState::new(alloc, syntax).expect(&rt, "an answer");
    let before = state.clone().expect(&rt, "memory");
    let mut regions = Regions::new(alloc);
    let (after, ops) = state
        .after_line(alloc, "x\n", &set, &mut regions)
        .expect(&rt, "an answer");
    holds(&rt, state == before);
    let read = state
        .parse_line(alloc, "x\n", &set)
        .expect(&rt, "an answer");
    holds(&rt, after == state);
    holds(&rt, ops.as_slice() == read.as_slice());
}

/// A context's patterns are listed alike whether they are kept or walked anew.
#[test]
fn patterns_of_a_context(rt: HostRuntime) {
    let alloc = rt.alloc();
    let mut repository = ScopeRepository::new(alloc);
    let set = built(&rt, alloc, &mut repository);
    let main = ContextId {
        syntax_index: 0,
        context_index: 3,
    };
    let kept = set.flats_of(main).map(|flats| flats.len());
    let walked = set.flats_walked(alloc, main).expect(&rt, "memory");
    equal(&rt, kept, Some(1));
    equal(&rt, walked.len(), 1);
}

/// The last context of the set, `main`.
fn last_context(rt: &impl Abort, set: &SyntaxSet) -> Context {
    let last = ContextReference::Direct(ContextId {
        syntax_index: 0,
        context_index: 3,
    });
    last.resolve(set)
        .expect(rt, "an answer")
        .clone()
        .expect(rt, "memory")
}

#[test]
fn numbers_of_contexts(rt: HostRuntime) {
    let alloc = rt.alloc();
    let mut repository = ScopeRepository::new(alloc);
    let set = built(&rt, alloc, &mut repository);
    let main = last_context(&rt, &set);
    equal(&rt, main.patterns.len(), 1);
    let pattern = main
        .match_at(0)
        .expect(&rt, "an answer")
        .clone()
        .expect(&rt, "memory");
    let pushed = match &pattern.operation {
        MatchOperation::Push(references) => references.as_slice().first(),
        _ => None,
    };
    let reference = pushed.expect(&rt, "a push");
    equal(
        &rt,
        reference.id().expect(&rt, "an answer").context_index,
        2,
    );
    holds(
        &rt,
        matches!(&main.match_at(1), Err(ParsingError::BadMatchIndex(1))),
    );
}

/// A reference by name has no number of its own.
#[test]
fn a_name_has_no_number(rt: HostRuntime) {
    let alloc = rt.alloc();
    let named = ContextReference::Named(Text::from_str(alloc, "none").expect(&rt, "an answer"));
    let copy = named.clone().expect(&rt, "memory");
    let wanted = ParsingError::UnresolvedContextReference(copy);
    holds(&rt, named.id() == Err(wanted));
}
