//! Grammars whose patterns are counted by hand, and limits at that number and one below.
use crate::below::base::limits::{LimitReached, Limits, LoadWithinError, PatternPlace};
use crate::below::base::syntax::ParseSyntaxError;
use crate::below::grammar_loader::definition::SyntaxDefinition;
use crate::below::scope::repository::ScopeRepository;
use crate::found::{equal, holds};
use std::alloc::Global;
use std::process::Abort;
use syntect_grammar_limits::within::load_from_str_within;

/// Of 130 bytes. The patterns of `main` have 5, 1 and 7 bytes with their variables expanded:
/// `xyxyz`, `q` and `xyxyz\b`. For the first and the last 3 variables are used: with those they
/// count as 197, 1 and 199 bytes, together 397.
const PLAIN: &str =
    "scope: source.t\nvariables: {a: xy, b: '{{a}}{{a}}z'}\ncontexts:\n  main:\n    - match: '{{b}}'\n    - match: q\n    - match: '{{b}}\\b'\n";

/// The patterns of `main` have 1, 2, 3 and 6 bytes: `e`, then `xy`, at which the `escape` leaves,
/// `abc` and `(?=xy)`, which looks ahead for the `escape`. The second and the last use a variable:
/// they count as 66 and 70 bytes, and all together as 140. An item that sets something has none.
const ESCAPED: &str =
    "scope: source.t\nvariables: {a: xy}\ncontexts:\n  main:\n    - {meta_scope: m.t, match: none}\n    - match: e\n      embed: [{match: abc}]\n      escape: '{{a}}'\n";

/// Where a limit is reached.
#[derive(Debug, Drop, PartialEq, Eq)]
enum Found {
    Loaded,
    Refused,
    Text,
    Pattern(usize),
    Patterns(usize),
    Folder,
}

/// The item of a place in `main`.
fn item_of(rt: &impl Abort, place: PatternPlace) -> usize {
    equal(rt, place.context.as_str(), "main");
    place.item
}

fn seen(rt: &impl Abort, answer: Result<SyntaxDefinition, LoadWithinError>) -> Found {
    match answer {
        Ok(_) => Found::Loaded,
        Err(LoadWithinError::Refused(_)) => Found::Refused,
        Err(LoadWithinError::LimitReached(LimitReached::Text)) => Found::Text,
        Err(LoadWithinError::LimitReached(LimitReached::Pattern(place))) => {
            Found::Pattern(item_of(rt, place))
        }
        Err(LoadWithinError::LimitReached(LimitReached::Patterns(place))) => {
            Found::Patterns(item_of(rt, place))
        }
        Err(LoadWithinError::LimitReached(LimitReached::Folder)) => Found::Folder,
    }
}

/// What is answered of a text; where a limit is reached, no scope was taken up.
fn loaded(rt: &impl Abort, alloc: Global, text: &str, limits: &Limits) -> Found {
    let mut repository = ScopeRepository::new(alloc);
    let result = load_from_str_within(alloc, text, true, None, &mut repository, limits);
    let found = seen(rt, result);
    let is_held = !matches!(found, Found::Loaded | Found::Refused);
    holds(rt, !is_held || repository.atom_count() == 0);
    found
}

fn of_pattern(pattern: usize) -> Limits {
    Limits {
        pattern,
        ..Limits::unlimited()
    }
}

fn of_patterns(patterns: usize) -> Limits {
    Limits {
        patterns,
        ..Limits::unlimited()
    }
}

#[test]
fn text_of_a_grammar(rt: HostRuntime) {
    let alloc = rt.alloc();
    let text = |bytes| Limits {
        text: bytes,
        ..Limits::unlimited()
    };
    equal(&rt, loaded(&rt, alloc, PLAIN, &text(130)), Found::Loaded);
    equal(&rt, loaded(&rt, alloc, PLAIN, &text(129)), Found::Text);
}

#[test]
fn one_pattern(rt: HostRuntime) {
    let alloc = rt.alloc();
    equal(
        &rt,
        loaded(&rt, alloc, PLAIN, &of_pattern(199)),
        Found::Loaded,
    );
    equal(
        &rt,
        loaded(&rt, alloc, PLAIN, &of_pattern(198)),
        Found::Pattern(2),
    );
    equal(
        &rt,
        loaded(&rt, alloc, PLAIN, &of_pattern(196)),
        Found::Pattern(0),
    );
    equal(
        &rt,
        loaded(&rt, alloc, ESCAPED, &of_pattern(70)),
        Found::Loaded,
    );
    equal(
        &rt,
        loaded(&rt, alloc, ESCAPED, &of_pattern(69)),
        Found::Pattern(1),
    );
}

#[test]
fn all_patterns(rt: HostRuntime) {
    let alloc = rt.alloc();
    equal(
        &rt,
        loaded(&rt, alloc, PLAIN, &of_patterns(397)),
        Found::Loaded,
    );
    equal(
        &rt,
        loaded(&rt, alloc, PLAIN, &of_patterns(396)),
        Found::Patterns(2),
    );
    equal(
        &rt,
        loaded(&rt, alloc, PLAIN, &of_patterns(197)),
        Found::Patterns(1),
    );
    equal(
        &rt,
        loaded(&rt, alloc, ESCAPED, &of_patterns(140)),
        Found::Loaded,
    );
    equal(
        &rt,
        loaded(&rt, alloc, ESCAPED, &of_patterns(139)),
        Found::Patterns(1),
    );
}

/// The variables' texts double 30 times: with them expanded the pattern has 2^31 bytes.
#[test]
fn texts_that_double(rt: HostRuntime) {
    let alloc = rt.alloc();
    let mut text = String::from_str(alloc, "scope: source.t\nvariables:\n  v0: ab\n").expect(
        &rt, "memory",
    );
    for i in 0..30u32 {
        let line = format!(in alloc; "  v{}: '{{{{v{i}}}}}{{{{v{i}}}}}'\n", i + 1).expect(
            &rt, "memory",
        );
        text.push_str(line.as_str()).expect(&rt, "memory");
    }
    text.push_str("contexts:\n  main:\n    - match: a\n    - match: '{{v30}}'\n")
        .expect(&rt, "memory");
    let limits = Limits {
        pattern: 20_000,
        ..Limits::default()
    };
    let found = loaded(&rt, alloc, text.as_str(), &limits);
    equal(&rt, found, Found::Pattern(1));
}

/// A grammar in which each of so many variables uses the one before it, and the first stands for
/// nothing; so many patterns use the last one, and come to nothing.
fn chained(rt: &impl Abort, alloc: Global, variables: u32, patterns: u32) -> String {
    let mut text = String::from_str(alloc, "scope: source.t\nvariables:\n  v1: ''\n").expect(
        rt, "memory",
    );
    for i in 1..variables {
        let line = format!(in alloc; "  v{}: '{{{{v{i}}}}}'\n", i + 1).expect(rt, "memory");
        text.push_str(line.as_str()).expect(rt, "memory");
    }
    text.push_str("contexts:\n  main:\n").expect(rt, "memory");
    for _ in 0..patterns {
        let line = format!(in alloc; "    - match: 'a{{{{v{variables}}}}}'\n").expect(rt, "memory");
        text.push_str(line.as_str()).expect(rt, "memory");
    }
    text
}

/// A use counts, though its variable stands for nothing: each pattern uses 100 variables
/// and has 1 byte.
#[test]
fn variables_that_come_to_nothing(rt: HostRuntime) {
    let alloc = rt.alloc();
    let text = chained(&rt, alloc, 100, 3);
    let found = |limits: &Limits| loaded(&rt, alloc, text.as_str(), limits);
    equal(&rt, found(&of_pattern(6401)), Found::Loaded);
    equal(&rt, found(&of_pattern(6400)), Found::Pattern(0));
    equal(&rt, found(&of_patterns(19_203)), Found::Loaded);
    equal(&rt, found(&of_patterns(19_202)), Found::Patterns(2));
    equal(&rt, found(&of_patterns(6401)), Found::Patterns(1));
}

/// A use of no variable counts, and so does one of a variable within its own text.
#[test]
fn uses_that_are_not_gone_into(rt: HostRuntime) {
    let alloc = rt.alloc();
    let text =
        "scope: source.t\nvariables: {a: 'x{{a}}'}\ncontexts: {main: [{match: '{{a}}{{b}}'}]}\n";
    let found = |limits: &Limits| loaded(&rt, alloc, text, limits);
    equal(&rt, found(&of_pattern(193)), Found::Loaded);
    equal(&rt, found(&of_pattern(192)), Found::Pattern(0));
}

/// The limit of a folder is none of a grammar that is loaded by itself.
#[test]
fn no_folder(rt: HostRuntime) {
    let limits = Limits {
        folder: 0,
        ..Limits::unlimited()
    };
    equal(&rt, loaded(&rt, rt.alloc(), PLAIN, &limits), Found::Loaded);
}

/// A fault is refused as without limits.
#[test]
fn faults_within_limits(rt: HostRuntime) {
    let alloc = rt.alloc();
    let mut repository = ScopeRepository::new(alloc);
    let result = load_from_str_within(
        alloc,
        "scope: source.t\ncontexts: {other: []}\n",
        true,
        None,
        &mut repository,
        &Limits::default(),
    );
    let is_same = matches!(
        result,
        Err(LoadWithinError::Refused(ParseSyntaxError::MainMissing))
    );
    holds(&rt, is_same);
}
