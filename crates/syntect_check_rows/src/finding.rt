//! Syntaxes of a set: which fits, what contexts hold, what linking left unresolved.
use crate::below::check_queries::escapes::unescaped;
use crate::below::parsing::syntax_definition::{Pattern, context_iter};
use crate::below::parsing::syntax_set::{SyntaxReference, SyntaxSet, SyntaxSetBuilder};
use crate::below::scope::repository::ScopeRepository;
use crate::below::values::text::Text;
use crate::given::{Given, add_part};
use std::alloc::Global;
use std::path::Path;
use std::rt::Files;
use syntect_check_shown::definitions::write_definitions;
use syntect_easy::Error;

/// Adds the name of a syntax, or a dash where there is none.
fn write_name(syntax: Option<&SyntaxReference>, out: &mut String) -> Option<()> {
    match syntax {
        Some(syntax) => out.push_str(syntax.name.as_str()).ok(),
        None => out.push('-').ok(),
    }
}

/// Adds the syntax of a scope.
fn write_of_scope(
    set: &SyntaxSet,
    scope: &str,
    repository: &mut ScopeRepository,
    out: &mut String,
) -> Option<()> {
    let scope = repository.build(scope).ok()?;
    write_name(set.find_syntax_by_scope(scope), out)
}

/// Adds the syntax of a file, or `Io`.
fn write_of_file(files: &impl Files, given: Given<'_>, path: &str, out: &mut String) -> Option<()> {
    match given
        .set
        .find_syntax_for_file(files, given.alloc, Path::new(path))
    {
        Ok(syntax) => write_name(syntax, out),
        Err(Error::Io(_)) => out.push_str("Io").ok(),
        Err(_) => None,
    }
}

/// Adds the name of the syntax that is found so: by `extension`, `token`, `name`, `scope`,
/// `first_line`, `path` or `file`, with a space and what is asked for after it, or by `plain_text`.
pub fn write_found(
    files: &impl Files,
    given: Given<'_>,
    question: &str,
    repository: &mut ScopeRepository,
    out: &mut String,
) -> Option<()> {
    let set = given.set;
    let (kind, word) = question.split_once(' ').unwrap_or((question, ""));
    let word = unescaped(given.alloc, word).ok()?;
    let word = word.as_str();
    match kind {
        "extension" => write_name(set.find_syntax_by_extension(word), out),
        "token" => write_name(set.find_syntax_by_token(word), out),
        "name" => write_name(set.find_syntax_by_name(word), out),
        "plain_text" => write_name(set.find_syntax_plain_text(), out),
        "scope" => write_of_scope(set, word, repository, out),
        "first_line" => write_name(set.find_syntax_by_first_line(word).ok()?, out),
        "path" => write_name(set.find_syntax_by_path(word).ok()?, out),
        "file" => write_of_file(files, given, word, out),
        _ => None,
    }
}

/// Adds the names of a set's syntaxes, in their order.
pub fn write_syntaxes(set: &SyntaxSet, out: &mut String) -> Option<()> {
    for syntax in set.syntaxes() {
        writeln!(out, "{}", syntax.name.as_str()).ok()?;
    }
    Some(())
}

/// Adds the texts of what linking left unresolved.
pub fn write_unlinked(
    alloc: Global,
    set: &SyntaxSet,
    repository: &ScopeRepository,
    out: &mut String,
) -> Option<()> {
    let texts = set.find_unlinked_contexts(alloc, repository).ok()?;
    for text in &texts {
        writeln!(out, "{}", text.as_str()).ok()?;
    }
    Some(())
}

/// Adds the definitions of a row's grammars, as they are loaded.
pub fn write_loaded(
    files: &impl Files,
    given: Given<'_>,
    repository: &mut ScopeRepository,
    out: &mut String,
) -> Option<()> {
    let mut builder = SyntaxSetBuilder::new(given.alloc);
    for part in given.parts {
        add_part(files, given.alloc, *part, &mut builder, repository)?;
    }
    write_definitions(builder.syntaxes(), repository, out)
}

/// Adds the definitions of a set's builder, which are linked.
pub fn write_linked(
    given: Given<'_>,
    repository: &ScopeRepository,
    out: &mut String,
) -> Option<()> {
    let copy = given.set.clone().ok()?;
    let builder = copy.into_builder(given.alloc).ok()?;
    write_definitions(builder.syntaxes(), repository, out)
}

/// Adds the place of a pattern in its context, and its text.
fn write_place(index: usize, pattern: Option<&Pattern>, out: &mut String) -> Option<()> {
    match pattern {
        Some(Pattern::Match(pattern)) => {
            writeln!(out, "{index} {}", pattern.regex.regex_str()).ok()
        }
        _ => None,
    }
}

/// Adds the places of patterns of the first syntax's `__main`: of a builder's copy, and by the set.
pub fn write_places(given: Given<'_>, out: &mut String) -> Option<()> {
    let copy = given.set.clone().ok()?;
    let builder = copy.into_builder(given.alloc).ok()?;
    let name = Text::from_str(given.alloc, "__main").ok()?;
    let context = builder.syntaxes().first()?.contexts.get(&name)?;
    for item in context_iter(given.alloc, given.set, context) {
        let (holder, index) = item.ok()?;
        write_place(index, holder.patterns.get(index), out)?;
    }
    Some(())
}
