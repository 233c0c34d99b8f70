//! Refusals that `?` takes.
use crate::below::easy::Error;
use crate::below::easy::easy::HighlightLines;
use crate::below::easy::explain::why_not_read;
use crate::below::easy::highlighting::{Color, Theme, ThemeSet};
use crate::below::easy::parsing::{
    Regex, ScopeRepository, SyntaxDefinition, SyntaxSet, SyntaxSetBuilder,
};
use crate::found::{equal, holds};
use std::alloc::Global;
use std::fmt;
use std::process::Abort;

/// A grammar whose main has one match, which pushes this.
fn pushing(alloc: Global, name: &str) -> Result<String, Error> {
    let head = "scope: source.t\ncontexts:\n  main:\n    - match: x\n      push: ";
    Ok(format!(in alloc; "{head}{name}\n")?)
}

fn set_of(alloc: Global, text: &str, repository: &mut ScopeRepository) -> Result<SyntaxSet, Error> {
    let definition = SyntaxDefinition::load_from_str(alloc, text, true, None, repository)?;
    let mut builder = SyntaxSetBuilder::new(alloc);
    builder.add(definition)?;
    Ok(builder.build(alloc, repository)?)
}

/// Reads a line.
fn read_line(alloc: Global, lines: &mut HighlightLines<'_>, set: &SyntaxSet) -> Result<(), Error> {
    lines.highlight_line(alloc, "x\n", set)?;
    Ok(())
}

/// Reads a line by a grammar whose match pushes this.
fn read(
    rt: &impl Abort,
    alloc: Global,
    name: &str,
    repository: &mut ScopeRepository,
) -> Result<(), Error> {
    let grammar = pushing(alloc, name).expect(rt, "memory");
    let set = set_of(alloc, grammar.as_str(), repository).expect(rt, "a set");
    let theme = Theme::default(alloc);
    let syntax = set.syntaxes().first().expect(rt, "a syntax");
    let mut lines = HighlightLines::new(alloc, syntax, &theme).expect(rt, "an answer");
    read_line(alloc, &mut lines, &set)
}

fn colour(text: &str) -> Result<Color, Error> {
    Ok(Color::from_text(text)?)
}

fn scope(text: &str, repository: &mut ScopeRepository) -> Result<(), Error> {
    repository.build(text)?;
    Ok(())
}

fn pattern(alloc: Global, text: &str) -> Result<(), Error> {
    match Regex::try_compile(alloc, text) {
        Some(e) => Err(Error::from(e)),
        None => Ok(()),
    }
}

fn theme(alloc: Global, text: &str, repository: &mut ScopeRepository) -> Result<(), Error> {
    ThemeSet::load_from_reader(alloc, &mut text.as_bytes(), repository)?;
    Ok(())
}

fn unwritten() -> Result<(), Error> {
    Err(Error::from(fmt::Error))
}

/// Whether there is an answer.
fn passes<T: Drop>(answer: Result<T, Error>) -> bool {
    answer.is_ok()
}

/// The refusal.
fn refusal<T: Drop>(rt: &impl Abort, answer: Result<T, Error>) -> Error {
    answer.err().expect(rt, "a refusal")
}

/// A refusal's message.
fn told<T: Drop>(rt: &impl Abort, alloc: Global, answer: Result<T, Error>) -> String {
    let e = refusal(rt, answer);
    format!(in alloc; "{e}").expect(rt, "memory")
}

/// What `main` shows of a refusal.
fn shown<T: Drop>(rt: &impl Abort, alloc: Global, answer: Result<T, Error>) -> String {
    let e = refusal(rt, answer);
    format!(in alloc; "{e:?}").expect(rt, "memory")
}

/// What is reported of a line's refusal, with the scopes' names.
fn explained(
    rt: &impl Abort,
    alloc: Global,
    answer: Result<(), Error>,
    repository: &ScopeRepository,
) -> String {
    match &answer {
        Err(Error::ParsingError(e)) => why_not_read(alloc, repository, e).expect(rt, "memory"),
        _ => String::new(alloc),
    }
}

#[test]
fn refusals_of_texts_are_taken(rt: HostRuntime) {
    let alloc = rt.alloc();
    let mut repository = ScopeRepository::new(alloc);
    let no_contexts = told(&rt, alloc, set_of(alloc, "scope: s", &mut repository));
    equal(
        &rt,
        no_contexts.as_str(),
        "Syntax error: Missing mandatory key in YAML file: contexts",
    );
    let long = told(&rt, alloc, scope("a.b.c.d.e.f.g.h.i", &mut repository));
    equal(
        &rt,
        long.as_str(),
        "Scope error: Too long scope. Scopes can be at most 8 atoms long.",
    );
    let open = told(&rt, alloc, pattern(alloc, "(a"));
    equal(&rt, open.as_str(), "Pattern error: NotAPattern");
    let red = told(&rt, alloc, colour("red"));
    equal(&rt, red.as_str(), "Loading error: Invalid syntax theme");
    let unwritten = told(&rt, alloc, unwritten());
    holds(&rt, unwritten.as_str().starts_with("Formatting error: "));
}

#[test]
fn texts_that_are_none_are_taken_as_well(rt: HostRuntime) {
    let alloc = rt.alloc();
    let mut repository = ScopeRepository::new(alloc);
    holds(
        &rt,
        passes(set_of(alloc, "scope: s\ncontexts: {main: []}", &mut repository)),
    );
    holds(&rt, passes(scope("a.b.c.d.e.f.g.h", &mut repository)));
    holds(&rt, passes(pattern(alloc, "(a)")));
    holds(&rt, passes(colour("#f00")));
}

#[test]
fn debug_texts_have_the_cause(rt: HostRuntime) {
    let alloc = rt.alloc();
    let mut repository = ScopeRepository::new(alloc);
    let red = shown(&rt, alloc, colour("red"));
    equal(
        &rt,
        red.as_str(),
        "Loading error: Invalid syntax theme: Incorrect color",
    );
    let no_json = shown(&rt, alloc, theme(alloc, "<plist/>", &mut repository));
    equal(
        &rt,
        no_json.as_str(),
        "Loading error: Invalid syntax theme settings: the text is no JSON, or a number in it is no whole one; docs/THEMES.md says how to make a property list JSON",
    );
    let no_contexts = shown(&rt, alloc, set_of(alloc, "scope: s", &mut repository));
    equal(
        &rt,
        no_contexts.as_str(),
        "Syntax error: Missing mandatory key in YAML file: contexts",
    );
}

#[test]
fn unresolved_references_are_named(rt: HostRuntime) {
    let alloc = rt.alloc();
    let mut repository = ScopeRepository::new(alloc);
    let named = told(&rt, alloc, read(&rt, alloc, "none", &mut repository));
    equal(
        &rt,
        named.as_str(),
        "Parsing error: Tried to use a ContextReference that has not been resolved yet: 'none'",
    );
    let outside = told(
        &rt,
        alloc,
        read(
            &rt,
            alloc,
            "Packages/C/C.sublime-syntax#part",
            &mut repository,
        ),
    );
    equal(
        &rt,
        outside.as_str(),
        "Parsing error: Tried to use a ContextReference that has not been resolved yet: 'part' of the syntax 'C'",
    );
    let answer = read(&rt, alloc, "scope:source.c", &mut repository);
    let by_scope = explained(&rt, alloc, answer, &repository);
    equal(
        &rt,
        by_scope.as_str(),
        "Tried to use a ContextReference that has not been resolved yet: the syntax of a scope source.c",
    );
}
