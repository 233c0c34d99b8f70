//! How many turns lines take.
use crate::below::parsing::parser::{ParseState, turns_of_line};
use crate::below::parsing::syntax_definition::SyntaxDefinition;
use crate::below::parsing::syntax_set::{SyntaxSet, SyntaxSetBuilder};
use crate::below::scope::repository::ScopeRepository;
use crate::below::scope::stack::ScopeStackOp;
use crate::found::equal;
use std::alloc::Global;
use std::process::Abort;

/// The set of a grammar that stands alone, or beside plain text.
fn set_of(rt: &impl Abort, alloc: Global, grammar: &str, plain_text: bool) -> SyntaxSet {
    let mut repository = ScopeRepository::new(alloc);
    let mut builder = SyntaxSetBuilder::new(alloc);
    if plain_text {
        builder
            .add_plain_text_syntax(alloc, &mut repository)
            .expect(rt, "an answer");
    }
    let definition = SyntaxDefinition::load_from_str(
        alloc,
        grammar,
        false,
        None,
        &mut repository,
    ).expect(rt, "a grammar");
    builder.add(definition).expect(rt, "memory");
    builder.build(alloc, &mut repository).expect(rt, "a set")
}

/// The turns of two lines, one after the other, in the grammar's syntax.
fn turns_of_two(
    rt: &impl Abort,
    alloc: Global,
    grammar: &str,
    plain_text: bool,
    lines: (&str, &str),
) -> (u64, u64) {
    let set = set_of(rt, alloc, grammar, plain_text);
    let syntax = set.find_syntax_by_name("T").expect(rt, "a syntax");
    let mut state = ParseState::new(alloc, syntax).expect(rt, "an answer");
    let first = turns_of_line(alloc, &state, lines.0, &set).expect(rt, "an answer");
    state
        .parse_line(alloc, lines.0, &set)
        .expect(rt, "an answer");
    let second = turns_of_line(alloc, &state, lines.1, &set).expect(rt, "an answer");
    (first, second)
}

/// Words, and a context that ends by itself.
const WORDS: &str =
    "name: T\nscope: source.t\ncontexts:\n  main:\n    - match: A\n      scope: scope.a.first\n      push: context-a\n    - match: b\n      scope: scope.b\n    - match: \\w+\n      scope: scope.other\n  context-a:\n    - match: a+\n      scope: scope.a.rest\n    - match: (?=.)\n      pop: true\n";

/// A context that is left at once.
const LEFT: &str =
    "name: T\nscope: source.t\ncontexts:\n  main:\n    - match: (?=.)\n      push: test\n  test:\n    - match: \\w+\n      scope: word\n    - match: (?=.)\n      pop: true\n";

/// Sets that go round in circles.
const IDLE: &str =
    "name: T\nscope: source.t\ncontexts:\n  main:\n    - match: (?=x)\n      set: m2\n  m2:\n    - match: (?=x)\n      set: main\n";

/// A syntax that is not there, in whose place plain text is embedded.
const EMBED: &str =
    "name: T\nscope: source.t\ncontexts:\n  main:\n    - match: x\n      embed: scope:none\n      escape: y\n";

/// A context whose sets bring the same two patterns once more each time.
const REPEATED: &str =
    "name: T\nscope: source.t\ncontexts:\n  main:\n    - match: <\n      push: inside\n  inside:\n    - meta_scope: meta.inside.t\n    - match: '>'\n      set: inside\n      with_prototype:\n        - match: x\n          scope: word.x.t\n        - match: ';'\n          pop: true\n";

#[test]
fn turns_of_words(rt: HostRuntime) {
    let line = " Aaaabxxx";
    let turns = turns_of_two(&rt, rt.alloc(), WORDS, false, (line, line));
    equal(&rt, turns.0, 7);
    equal(&rt, turns.1, 6);
}

#[test]
fn turns_of_a_context_left_at_once(rt: HostRuntime) {
    let turns = turns_of_two(&rt, rt.alloc(), LEFT, false, (" hello", ""));
    equal(&rt, turns.0, 5);
}

#[test]
fn turns_of_idle_sets(rt: HostRuntime) {
    let turns = turns_of_two(&rt, rt.alloc(), IDLE, false, ("xa", ""));
    equal(&rt, turns.0, 1002);
}

#[test]
fn turns_of_an_embedded_text(rt: HostRuntime) {
    let turns = turns_of_two(&rt, rt.alloc(), EMBED, true, ("xay", ""));
    equal(&rt, turns.0, 5);
}

/// How many scopes an operation takes off, or none where it puts one on.
fn taken(op: &ScopeStackOp) -> Option<usize> {
    match op {
        ScopeStackOp::Pop(count) => Some(*count),
        _ => None,
    }
}

/// The patterns that are there once more change nothing: the operations are the crate's.
#[test]
fn prototypes_that_repeat(rt: HostRuntime) {
    let alloc = rt.alloc();
    let set = set_of(&rt, alloc, REPEATED, false);
    let syntax = set.find_syntax_by_name("T").expect(&rt, "a syntax");
    let mut state = ParseState::new(alloc, syntax).expect(&rt, "an answer");
    let ops = state
        .parse_line(alloc, "<>>>xy;;x", &set)
        .expect(&rt, "an answer");
    let mut found = Vec::new(alloc);
    for (place, op) in ops.as_slice() {
        found.push((*place, taken(op))).expect(&rt, "memory");
    }
    let wanted = [
        (0, None),
        (0, None),
        (1, None),
        (2, Some(2)),
        (2, None),
        (2, None),
        (3, Some(2)),
        (3, None),
        (3, None),
        (4, Some(2)),
        (4, None),
        (4, None),
        (5, Some(1)),
        (7, Some(1)),
    ];
    equal(&rt, found.as_slice(), wanted.as_slice());
}
