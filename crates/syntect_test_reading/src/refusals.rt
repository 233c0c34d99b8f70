//! Named refusals of reading, each through each call that can answer it.
use crate::below::easy::Error;
use crate::below::easy::easy::{HighlightFile, HighlightLines, HighlightWithinError};
use crate::below::easy::highlighting::Theme;
use crate::below::easy::html::{
    ClassStyle, ClassedHTMLGenerator, highlighted_html_for_file, highlighted_html_for_reader,
    highlighted_html_for_string, line_tokens_to_classed_spans,
};
use crate::below::easy::parsing::{
    Limits, ParseSyntaxError, ReadWithinError, ScopeRepository, SyntaxDefinition, SyntaxSet,
    SyntaxSetBuilder,
};
use crate::below::parsing::parser::{ParseState, ParsingError, Regions, turns_of_line};
use crate::below::parsing::syntax_definition::{ContextId, ContextReference};
use crate::below::scope::repository::ParseScopeError;
use crate::below::scope::stack::{ScopeStack, ScopeStackOp};
use crate::below::values::text::Text;
use crate::found::holds;
use crate::within;
use std::alloc::Global;
use std::path::Path;
use std::process::Abort;
use std::rt::Files;
use syntect_buffer::buffer::LineBuffer;

/// `x` pushes a context that is not there; the other one is left by `x`. Files whose name is `null`
/// are of this syntax.
const GRAMMAR: &str =
    "name: T\nscope: source.t\nfile_extensions: ['null']\ncontexts:\n  main: [{match: x, push: none}]\n  left: [{match: x, pop: true}]\n";

fn loaded(rt: &impl Abort, alloc: Global, repository: &mut ScopeRepository) -> SyntaxDefinition {
    SyntaxDefinition::load_from_str(alloc, GRAMMAR, true, None, repository).expect(rt, "a grammar")
}

fn text(rt: &impl Abort, alloc: Global, name: &str) -> Text {
    Text::from_str(alloc, name).expect(rt, "memory")
}

/// The set of a definition.
fn set_of(rt: &impl Abort, alloc: Global, definition: SyntaxDefinition) -> SyntaxSet {
    let mut repository = ScopeRepository::new(alloc);
    let mut builder = SyntaxSetBuilder::new(alloc);
    builder.add(definition).expect(rt, "memory");
    builder.build(alloc, &mut repository).expect(rt, "a set")
}

/// The set of the grammar without `__start`.
fn without_a_start(rt: &impl Abort, alloc: Global) -> SyntaxSet {
    let mut repository = ScopeRepository::new(alloc);
    let mut definition = loaded(rt, alloc, &mut repository);
    let start = definition.contexts.remove(&text(rt, alloc, "__start"));
    holds(rt, start.is_some());
    set_of(rt, alloc, definition)
}

/// The set of a grammar with its context `left` as `__start`.
pub fn started_in_left(rt: &impl Abort, alloc: Global, grammar: &str) -> SyntaxSet {
    let mut repository = ScopeRepository::new(alloc);
    let read = SyntaxDefinition::load_from_str(alloc, grammar, true, None, &mut repository);
    let mut definition = read.expect(rt, "a grammar");
    let left = definition.contexts.remove(&text(rt, alloc, "left"));
    definition
        .contexts
        .insert(text(rt, alloc, "__start"), left.expect(rt, "a context"))
        .expect(rt, "memory");
    set_of(rt, alloc, definition)
}

/// The refusal of a line that an error is.
fn of_a_line(e: Error) -> Option<ParsingError> {
    match e {
        Error::ParsingError(e) => Some(e),
        _ => None,
    }
}

fn is_refused(rt: &impl Abort, found: Option<ParsingError>, wanted: &ParsingError) {
    holds(rt, found.is_some_and(|e| e == *wanted));
}

fn is_refused_line<T: Drop>(rt: &impl Abort, found: Result<T, Error>, wanted: &ParsingError) {
    is_refused(rt, found.err().and_then(of_a_line), wanted);
}

/// The refusal of a line that is one without limits too.
fn of_a_line_within(e: HighlightWithinError) -> Option<ParsingError> {
    match e {
        HighlightWithinError::Refused(e) => of_a_line(e),
        HighlightWithinError::LimitReached(_) => None,
    }
}

fn of_a_reading_within(e: ReadWithinError) -> Option<ParsingError> {
    match e {
        ReadWithinError::Refused(e) => Some(e),
        ReadWithinError::LimitReached(_) => None,
    }
}

/// A line of a set's first syntax, read with a set, after lines that are accepted.
#[derive(Clone, Copy)]
struct Reading<'s> {
    syntaxes: &'s SyntaxSet,
    set: &'s SyntaxSet,
    before: &'s str,
    line: &'s str,
}

/// The states after lines refuse the line so.
fn states_refuse(rt: &impl Abort, alloc: Global, read: Reading<'_>, wanted: &ParsingError) {
    let syntax = read.syntaxes.syntaxes().first().expect(rt, "a syntax");
    let mut state = ParseState::new(alloc, syntax).expect(rt, "a state");
    if !read.before.is_empty() {
        holds(rt, state.parse_line(alloc, read.before, read.set).is_ok());
    }
    let told = turns_of_line(alloc, &state, read.line, read.set);
    is_refused(rt, told.err(), wanted);
    let mut regions = Regions::new(alloc);
    let after = state.after_line(alloc, read.line, read.set, &mut regions);
    is_refused(rt, after.err(), wanted);
    let ops = state.parse_line(alloc, read.line, read.set);
    is_refused(rt, ops.err(), wanted);
    let limits = Limits::default();
    let after = state.after_line_within(alloc, read.line, read.set, &limits, &mut regions);
    is_refused(rt, after.err().and_then(of_a_reading_within), wanted);
    let ops = state.parse_line_within(alloc, read.line, read.set, &limits);
    is_refused(rt, ops.err().and_then(of_a_reading_within), wanted);
}

/// A highlighter after lines, and pages of the whole, are refused so.
fn pages_refuse(rt: &impl Abort, alloc: Global, read: Reading<'_>, wanted: &ParsingError) {
    let theme = Theme::default(alloc);
    let syntax = read.syntaxes.syntaxes().first().expect(rt, "a syntax");
    let mut lines = HighlightLines::new(alloc, syntax, &theme).expect(rt, "a highlighter");
    if !read.before.is_empty() {
        holds(
            rt,
            lines.highlight_line(alloc, read.before, read.set).is_ok(),
        );
    }
    is_refused_line(rt, lines.highlight_line(alloc, read.line, read.set), wanted);
    let refused = lines.highlight_line_within(alloc, read.line, read.set, &Limits::default());
    is_refused(rt, refused.err().and_then(of_a_line_within), wanted);
    let refused = lines.highlight_line_or_plain(alloc, read.line, read.set, &Limits::default());
    is_refused_line(rt, refused, wanted);
    let all = format!(in alloc; "{}{}", read.before, read.line).expect(rt, "memory");
    let page = highlighted_html_for_string(alloc, all.as_str(), read.set, syntax, &theme);
    is_refused_line(rt, page, wanted);
    let page = highlighted_html_for_reader(alloc, all.as_bytes(), read.set, syntax, &theme);
    is_refused_line(rt, page, wanted);
}

/// A generator of pages with classes, after lines, refuses the line so.
fn generators_refuse(rt: &impl Abort, alloc: Global, read: Reading<'_>, wanted: &ParsingError) {
    let repository = ScopeRepository::new(alloc);
    let syntax = read.syntaxes.syntaxes().first().expect(rt, "a syntax");
    let mut page = ClassedHTMLGenerator::new_with_class_style(
        alloc,
        syntax,
        read.set,
        &repository,
        ClassStyle::Spaced,
    ).expect(rt, "a generator");
    if !read.before.is_empty() {
        let first = page.parse_html_for_line_which_includes_newline(read.before);
        holds(rt, first.is_ok());
    }
    let refused = page.parse_html_for_line_which_includes_newline(read.line);
    is_refused_line(rt, refused, wanted);
    let limits = Limits::default();
    let refused = page.parse_html_for_line_which_includes_newline_within(read.line, &limits);
    is_refused(rt, refused.err().and_then(of_a_line_within), wanted);
}

/// Each call that reads lines refuses the line so.
fn all_refuse(rt: &impl Abort, alloc: Global, read: Reading<'_>, wanted: &ParsingError) {
    states_refuse(rt, alloc, read, wanted);
    pages_refuse(rt, alloc, read, wanted);
    generators_refuse(rt, alloc, read, wanted);
}

#[test]
fn a_reference_that_leads_nowhere(rt: HostRuntime) {
    let alloc = rt.alloc();
    let mut repository = ScopeRepository::new(alloc);
    let set = set_of(&rt, alloc, loaded(&rt, alloc, &mut repository));
    let read = Reading {
        syntaxes: &set,
        set: &set,
        before: "y\n",
        line: "x\n",
    };
    let none = ContextReference::Named(text(&rt, alloc, "none"));
    let wanted = ParsingError::UnresolvedContextReference(none);
    all_refuse(&rt, alloc, read, &wanted);
}

#[test]
fn a_set_that_lacks_the_context(rt: HostRuntime) {
    let alloc = rt.alloc();
    let mut repository = ScopeRepository::new(alloc);
    let set = set_of(&rt, alloc, loaded(&rt, alloc, &mut repository));
    let none = SyntaxSet::new(alloc);
    let syntax = set.syntaxes().first().expect(&rt, "a syntax");
    let start = syntax.context_named("__start").expect(&rt, "a context");
    let read = Reading {
        syntaxes: &set,
        set: &none,
        before: "",
        line: "x\n",
    };
    all_refuse(&rt, alloc, read, &ParsingError::MissingContext(start));
}

#[test]
fn a_text_that_left_its_start(rt: HostRuntime) {
    let alloc = rt.alloc();
    let set = started_in_left(&rt, alloc, GRAMMAR);
    let read = Reading {
        syntaxes: &set,
        set: &set,
        before: "x\n",
        line: "y\n",
    };
    all_refuse(&rt, alloc, read, &ParsingError::MissingMainContext);
}

/// Whatever begins a text is refused in a syntax without a start.
#[test]
fn a_syntax_without_a_start(rt: HostRuntime) {
    let alloc = rt.alloc();
    let set = without_a_start(&rt, alloc);
    let syntax = set.syntaxes().first().expect(&rt, "a syntax");
    let theme = Theme::default(alloc);
    let wanted = ParsingError::MissingMainContext;
    is_refused(&rt, ParseState::new(alloc, syntax).err(), &wanted);
    is_refused_line(&rt, HighlightLines::new(alloc, syntax, &theme), &wanted);
    is_refused_line(&rt, LineBuffer::new(alloc, syntax, &set, &theme), &wanted);
    let whole = within::set_of(&rt, alloc);
    let start = within::syntax_of(&rt, &whole);
    let mut lines = HighlightLines::new(alloc, start, &theme).expect(&rt, "a highlighter");
    is_refused_line(&rt, lines.begin_anew(alloc, syntax), &wanted);
    let within = LineBuffer::new_within(alloc, syntax, &set, &theme, Limits::default());
    is_refused_line(&rt, within, &wanted);
    let page = highlighted_html_for_string(alloc, "", &set, syntax, &theme);
    is_refused_line(&rt, page, &wanted);
    let page = highlighted_html_for_reader(alloc, "".as_bytes(), &set, syntax, &theme);
    is_refused_line(&rt, page, &wanted);
    let repository = ScopeRepository::new(alloc);
    let generator = ClassedHTMLGenerator::new_with_class_style(
        alloc,
        syntax,
        &set,
        &repository,
        ClassStyle::Spaced,
    );
    is_refused_line(&rt, generator, &wanted);
}

/// The syntax of a file that is there has no start.
#[test]
fn a_file_in_a_syntax_without_a_start(rt: HostRuntime) {
    let alloc = rt.alloc();
    let set = without_a_start(&rt, alloc);
    let theme = Theme::default(alloc);
    let wanted = ParsingError::MissingMainContext;
    let path = Path::new("/dev/null");
    let file = HighlightFile::new(&rt, alloc, path, &set, &theme);
    is_refused_line(&rt, file, &wanted);
    let page = highlighted_html_for_file(&rt, alloc, path, &set, &theme);
    is_refused_line(&rt, page, &wanted);
}

/// The number of a context that a set lacks, and a reference by name.
#[test]
fn references_that_are_asked(rt: HostRuntime) {
    let alloc = rt.alloc();
    let none = SyntaxSet::new(alloc);
    let id = ContextId {
        syntax_index: 7,
        context_index: 9,
    };
    let lacking = ContextReference::Direct(id).resolve(&none).err();
    is_refused(&rt, lacking, &ParsingError::MissingContext(id));
    let named = ContextReference::Named(text(&rt, alloc, "none"));
    let copy = ContextReference::Named(text(&rt, alloc, "none"));
    let wanted = ParsingError::UnresolvedContextReference(copy);
    is_refused(&rt, named.resolve(&none).err(), &wanted);
    is_refused(&rt, named.id().err(), &wanted);
}

/// The scope of plain text can't be told in a repository that is full.
#[test]
fn plain_text_in_a_full_repository(rt: HostRuntime) {
    let alloc = rt.alloc();
    let mut repository = ScopeRepository::new(alloc);
    for i in 0..65534 {
        let name = format!(in alloc; "{i}").expect(&rt, "memory");
        holds(&rt, repository.build(name.as_str()).is_ok());
    }
    let mut builder = SyntaxSetBuilder::new(alloc);
    let added = builder.add_plain_text_syntax(alloc, &mut repository);
    let wanted = ParseSyntaxError::InvalidScope(ParseScopeError::TooManyAtoms);
    holds(&rt, added.is_err_and(|e| e == wanted));
    holds(&rt, builder.syntaxes().is_empty());
}

/// An operation that restores, where nothing was cleared.
#[test]
fn spans_of_an_operation_that_is_refused(rt: HostRuntime) {
    let repository = ScopeRepository::new(rt.alloc());
    let mut stack = ScopeStack::new(rt.alloc());
    let ops = [(0, ScopeStackOp::Restore)];
    let refused = line_tokens_to_classed_spans(
        rt.alloc(),
        "x",
        &ops,
        ClassStyle::Spaced,
        &mut stack,
        &repository,
    );
    holds(&rt, matches!(refused, Err(Error::ScopeError(_))));
}
