//! Long texts, and sets that lack a context.
use crate::below::easy::highlighting::{Theme, ThemeSet};
use crate::below::easy::html::{highlighted_html_for_reader, highlighted_html_for_string};
use crate::below::easy::parsing::{ScopeRepository, SyntaxSet, SyntaxSetBuilder};
use crate::below::parsing::parser::{ParseState, ParsingError};
use crate::below::parsing::syntax_definition::{
    Context, ContextId, ContextReference, MatchOperation, Pattern, SyntaxDefinition,
};
use crate::below::values::seq::Seq;
use crate::below::values::text::Text;
use crate::found::holds;
use std::alloc::Global;
use std::process::Abort;

const OPENING: &str = "<pre style=\"background-color:#ffffff;\">\n";

const CLOSING: &str = "</pre>\n";

const SPAN: &str = "<span style=\"color:#000000;\">";

/// `x` pushes the context `a`.
const GRAMMAR: &str =
    "name: T\nscope: source.t\ncontexts:\n  main: [{match: x, push: a}]\n  a: []\n";

/// The number of a context that no set here has.
const LACKING: ContextId = ContextId {
    syntax_index: 0,
    context_index: 99,
};

/// The set of plain text.
fn plain(rt: &impl Abort, alloc: Global, repository: &mut ScopeRepository) -> SyntaxSet {
    let mut builder = SyntaxSetBuilder::new(alloc);
    builder
        .add_plain_text_syntax(alloc, repository)
        .expect(rt, "memory");
    builder.build(alloc, repository).expect(rt, "memory")
}

/// The theme without rules.
fn bare_theme(rt: &impl Abort, alloc: Global, repository: &mut ScopeRepository) -> Theme {
    let mut bytes = r#"{"settings":[{"settings":{}}]}"#.as_bytes();
    ThemeSet::load_from_reader(alloc, &mut bytes, repository).expect(rt, "a theme")
}

/// The page of a text, by both calls.
fn pages(rt: &impl Abort, alloc: Global, text: &str) -> (String, String) {
    let mut repository = ScopeRepository::new(alloc);
    let set = plain(rt, alloc, &mut repository);
    let theme = bare_theme(rt, alloc, &mut repository);
    let syntax = set.find_syntax_plain_text().expect(rt, "plain text");
    let first = highlighted_html_for_string(alloc, text, &set, syntax, &theme).expect(rt, "a page");
    let second = highlighted_html_for_reader(alloc, text.as_bytes(), &set, syntax, &theme).expect(
        rt, "a page",
    );
    (first, second)
}

/// More lines than 16 bits count.
#[test]
fn a_page_of_many_lines(rt: HostRuntime) {
    let alloc = rt.alloc();
    let mut text = String::new(alloc);
    let mut page = String::from_str(alloc, OPENING).expect(&rt, "memory");
    for _ in 0..70_000 {
        text.push_str("x\n").expect(&rt, "memory");
        page.push_str(SPAN).expect(&rt, "memory");
        page.push_str("x\n</span>").expect(&rt, "memory");
    }
    page.push_str(CLOSING).expect(&rt, "memory");
    let (first, second) = pages(&rt, alloc, text.as_str());
    holds(&rt, first.as_str() == page.as_str());
    holds(&rt, second.as_str() == page.as_str());
}

/// A line longer than any buffer.
#[test]
fn a_line_of_a_million_bytes(rt: HostRuntime) {
    let alloc = rt.alloc();
    let mut line = String::new(alloc);
    for _ in 0..100_000 {
        line.push_str("0123456789").expect(&rt, "memory");
    }
    let mut page = String::from_str(alloc, OPENING).expect(&rt, "memory");
    page.push_str(SPAN).expect(&rt, "memory");
    page.push_str(line.as_str()).expect(&rt, "memory");
    page.push_str("</span>").expect(&rt, "memory");
    page.push_str(CLOSING).expect(&rt, "memory");
    let (first, second) = pages(&rt, alloc, line.as_str());
    holds(&rt, first.as_str() == page.as_str());
    holds(&rt, second.as_str() == page.as_str());
}

/// What the first line of a text is refused for, by the grammar with a context changed.
fn refusal(
    rt: &impl Abort,
    alloc: Global,
    definition: SyntaxDefinition,
    repository: &mut ScopeRepository,
) -> Option<ParsingError> {
    let mut builder = SyntaxSetBuilder::new(alloc);
    builder.add(definition).expect(rt, "memory");
    let set = builder.build(alloc, repository).expect(rt, "a set");
    let syntax = set.syntaxes().first().expect(rt, "a syntax");
    let mut state = ParseState::new(alloc, syntax).expect(rt, "memory");
    let before = state.clone().expect(rt, "memory");
    let refused = state.parse_line(alloc, "x\n", &set).err();
    assert!(rt; state == before);
    refused
}

/// The grammar's definition.
fn loaded(rt: &impl Abort, alloc: Global, repository: &mut ScopeRepository) -> SyntaxDefinition {
    SyntaxDefinition::load_from_str(alloc, GRAMMAR, true, None, repository).expect(rt, "a grammar")
}

/// The grammar with this context in place of the one of its name is refused as it is to be.
fn is_lacked(
    rt: &impl Abort,
    alloc: Global,
    definition: SyntaxDefinition,
    context: (Text, Context),
    repository: &mut ScopeRepository,
) {
    let mut definition = definition;
    definition
        .contexts
        .insert(context.0, context.1)
        .expect(rt, "memory");
    let refused = refusal(rt, alloc, definition, repository);
    assert!(rt; refused == Some(ParsingError::MissingContext(LACKING)));
}

#[test]
fn a_prototype_that_the_set_lacks(rt: HostRuntime) {
    let alloc = rt.alloc();
    let mut repository = ScopeRepository::new(alloc);
    let mut definition = loaded(&rt, alloc, &mut repository);
    let name = Text::from_str(alloc, "__main").expect(&rt, "memory");
    let mut context = definition.contexts.remove(&name).expect(&rt, "a context");
    context.prototype = Some(LACKING);
    is_lacked(&rt, alloc, definition, (name, context), &mut repository);
}

#[test]
fn a_pushed_context_that_the_set_lacks(rt: HostRuntime) {
    let alloc = rt.alloc();
    let mut repository = ScopeRepository::new(alloc);
    let mut definition = loaded(&rt, alloc, &mut repository);
    let name = Text::from_str(alloc, "main").expect(&rt, "memory");
    let mut context = definition.contexts.remove(&name).expect(&rt, "a context");
    if let Some(Pattern::Match(pattern)) = context.patterns.pop() {
        let mut pattern = pattern;
        let mut references = Seq::new(alloc);
        references
            .push(ContextReference::Direct(LACKING))
            .expect(&rt, "memory");
        pattern.operation = MatchOperation::Push(references);
        context
            .patterns
            .push(Pattern::Match(pattern))
            .expect(&rt, "memory");
    }
    is_lacked(&rt, alloc, definition, (name, context), &mut repository);
}
