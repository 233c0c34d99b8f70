//! The proved callers, each once.
use crate::below::easy::highlighting::{Color, Theme, ThemeSet};
use crate::below::easy::html::ClassStyle;
use crate::below::easy::parsing::{ScopeRepository, SyntaxDefinition, SyntaxSetBuilder};
use crate::found::{equal, holds};
use std::alloc::Global;
use std::process::Abort;
use syntect_callers::classed::classed_page_of;
use syntect_callers::third::third_line;
use syntect_callers::whole::{page_of, third_line_of};

/// A string that begins with a word after `<<`, and ends at the line of that word.
const HEREDOC: &str =
    "name: T\nscope: source.t\ncontexts:\n  main: [{match: '<<(\\w+)', push: doc}]\n  doc:\n    - meta_scope: string.doc\n    - {match: '^\\1$', pop: true}\n";

/// A context that is left at once.
const LEFT: &str =
    "name: T\nscope: source.t\ncontexts:\n  main: [{match: (?=.), push: test}]\n  test:\n    - {match: \\w+, scope: word}\n    - {match: (?=.), pop: true}\n";

/// One rule.
const THEME: &str =
    r##"{"settings":[{"settings":{}},{"scope":"string.doc","settings":{"foreground":"#030303"}}]}"##;

const PAGE: &str =
    "<pre style=\"background-color:#ffffff;\">\n<span style=\"color:#030303;\">&lt;&lt;E\n</span></pre>\n";

/// Three.
const THREE: Color = Color {
    r: 3,
    g: 3,
    b: 3,
    a: 255,
};

/// The theme.
fn theme_of(rt: &impl Abort, alloc: Global, repository: &mut ScopeRepository) -> Theme {
    let mut bytes = THEME.as_bytes();
    ThemeSet::load_from_reader(alloc, &mut bytes, repository).expect(rt, "a theme")
}

/// A builder with a grammar, and whether its lines have their newlines.
fn builder_of(
    rt: &impl Abort,
    alloc: Global,
    (text, newlines): (&str, bool),
    repository: &mut ScopeRepository,
) -> SyntaxSetBuilder {
    let mut builder = SyntaxSetBuilder::new(alloc);
    let definition = SyntaxDefinition::load_from_str(alloc, text, newlines, None, repository);
    builder
        .add(definition.expect(rt, "a grammar"))
        .expect(rt, "memory");
    builder
}

#[test]
fn pages_of_one_line(rt: HostRuntime) {
    let alloc = rt.alloc();
    let mut repository = ScopeRepository::new(alloc);
    let theme = theme_of(&rt, alloc, &mut repository);
    let page = page_of(alloc, &mut repository, HEREDOC, &theme, "<<E\n").expect(&rt, "an answer");
    let page = page.expect(&rt, "a page");
    equal(&rt, page.as_str(), PAGE);
}

#[test]
fn third_lines_of_grammars(rt: HostRuntime) {
    let alloc = rt.alloc();
    let mut repository = ScopeRepository::new(alloc);
    let theme = theme_of(&rt, alloc, &mut repository);
    let grammars = (HEREDOC, "scope: s\ncontexts: {main: []}\n");
    let lines = ("<<E\n", "x\n", "E\n");
    let pieces = third_line_of(alloc, &mut repository, grammars, &theme, lines).expect(
        &rt,
        "an answer",
    );
    let pieces = pieces.expect(&rt, "pieces");
    equal(&rt, pieces.len(), 2);
}

#[test]
fn third_lines_of_a_builder(rt: HostRuntime) {
    let alloc = rt.alloc();
    let mut repository = ScopeRepository::new(alloc);
    let theme = theme_of(&rt, alloc, &mut repository);
    let builder = builder_of(&rt, alloc, (HEREDOC, true), &mut repository);
    let pieces = third_line(
        alloc,
        builder,
        &mut repository,
        &theme,
        "<<E\n",
        "x\n",
        "E\n",
    )
    .expect(&rt, "an answer");
    let pieces = pieces.expect(&rt, "pieces");
    holds(
        &rt,
        pieces
            .as_slice()
            .first()
            .is_some_and(|p| p.0.foreground == THREE && p.1 == "E"),
    );
}

#[test]
fn pages_with_classes(rt: HostRuntime) {
    let alloc = rt.alloc();
    let mut repository = ScopeRepository::new(alloc);
    let builder = builder_of(&rt, alloc, (LEFT, false), &mut repository);
    let set = builder
        .build(alloc, &mut repository)
        .expect(&rt, "an answer");
    let syntax = set.find_syntax_by_name("T").expect(&rt, "a syntax");
    let style = ClassStyle::Spaced;
    let page = classed_page_of(alloc, " hello", &set, syntax, &repository, style).expect(
        &rt,
        "an answer",
    );
    let wanted = "<span class=\"source t\"> <span class=\"word\">hello</span></span>";
    equal(&rt, page.as_str(), wanted);
}
