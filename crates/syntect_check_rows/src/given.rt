//! What a row's file gives: grammars, a theme and a text.
use crate::below::check_queries::escapes::unescaped;
use crate::below::parsing::syntax_definition::SyntaxDefinition;
use crate::below::parsing::syntax_set::{SyntaxReference, SyntaxSet, SyntaxSetBuilder};
use crate::below::scope::repository::ScopeRepository;
use crate::below::theme::theme::Theme;
use crate::below::theme_files::theme_set::ThemeSet;
use std::alloc::Global;
use std::path::Path;
use std::rt::Files;
use syntect_check_tables::row_file::{Part, body_of};

/// What lines are read with.
#[derive(Clone, Copy)]
pub struct Given<'a> {
    pub alloc: Global,
    pub parts: &'a [Part<'a>],
    pub text: &'a str,
    /// Whether the lines are given without their newlines.
    pub is_bare: bool,
    pub set: &'a SyntaxSet,
    pub syntax: Option<&'a SyntaxReference>,
    pub theme: &'a Theme,
}

/// Whether a heading is that of something given.
pub fn is_given(heading: &str) -> bool {
    matches!(
        heading,
        "grammar"
            | "bare grammar"
            | "plain text"
            | "folder"
            | "taken apart"
            | "syntax"
            | "theme"
            | "text"
            | "bare text"
            | "escaped text"
            | "given pieces"
            | "given operations"
            | "given stack"
    )
}

/// Adds a grammar of a text.
fn add_grammar(
    alloc: Global,
    text: &str,
    newlines: bool,
    builder: &mut SyntaxSetBuilder,
    repository: &mut ScopeRepository,
) -> Option<()> {
    let definition = SyntaxDefinition::load_from_str(alloc, text, newlines, None, repository).ok()?;
    builder.add(definition).ok()
}

/// Adds the grammars of a part: one of its text, those of a folder it names, or that of plain text.
pub fn add_part(
    files: &impl Files,
    alloc: Global,
    part: Part<'_>,
    builder: &mut SyntaxSetBuilder,
    repository: &mut ScopeRepository,
) -> Option<()> {
    match part.heading {
        "plain text" => builder.add_plain_text_syntax(alloc, repository).ok(),
        "grammar" => add_grammar(alloc, part.body, true, builder, repository),
        "bare grammar" => add_grammar(alloc, part.body, false, builder, repository),
        "folder" => {
            let folder = Path::new(part.body);
            let added = builder.add_from_folder(files, alloc, folder, true, repository);
            added.ok()
        }
        _ => Some(()),
    }
}

/// The builder of the set that is built of a builder.
fn taken_apart(
    alloc: Global,
    builder: SyntaxSetBuilder,
    repository: &mut ScopeRepository,
) -> Option<SyntaxSetBuilder> {
    let set = builder.build(alloc, repository).ok()?;
    set.into_builder(alloc).ok()
}

/// The set of a row's grammars, in order. What is before `taken apart` is built and taken apart.
pub fn set_of(
    files: &impl Files,
    alloc: Global,
    parts: &[Part<'_>],
    repository: &mut ScopeRepository,
) -> Option<SyntaxSet> {
    let mut builder = SyntaxSetBuilder::new(alloc);
    for part in parts {
        if part.heading == "taken apart" {
            builder = taken_apart(alloc, builder, repository)?;
        } else {
            add_part(files, alloc, *part, &mut builder, repository)?;
        }
    }
    builder.build(alloc, repository).ok()
}

/// The theme of a row, from JSON; the one without rules where the row has none.
pub fn theme_of(
    alloc: Global,
    parts: &[Part<'_>],
    repository: &mut ScopeRepository,
) -> Option<Theme> {
    match body_of(parts, "theme") {
        Some(text) => {
            let mut bytes = text.as_bytes();
            ThemeSet::load_from_reader(alloc, &mut bytes, repository).ok()
        }
        None => Some(Theme::default(alloc)),
    }
}

/// The text of a row: as it stands, or one in which characters are escaped.
pub fn text_of(alloc: Global, parts: &[Part<'_>]) -> Option<String> {
    if let Some(text) = body_of(parts, "escaped text") {
        return unescaped(alloc, text).ok();
    }
    let text = match body_of(parts, "bare text") {
        Some(text) => text,
        None => body_of(parts, "text").unwrap_or(""),
    };
    String::from_str(alloc, text).ok()
}

/// The syntax that a row names, else the first of the set.
pub fn syntax_of<'s>(set: &'s SyntaxSet, parts: &[Part<'_>]) -> Option<&'s SyntaxReference> {
    match body_of(parts, "syntax") {
        Some(name) => set.find_syntax_by_name(name),
        None => set.syntaxes().first(),
    }
}

/// A line as it is given.
pub fn line_as_given<'t>(line: &'t str, is_bare: bool) -> &'t str {
    if is_bare {
        line.strip_suffix('\n').unwrap_or(line)
    } else {
        line
    }
}
