//! Refusals explained to people: which file, which line, and what helps.
//!
//! The messages of the errors themselves are the crate's. Where these leave out what was asked for,
//! the calls here say it.
use crate::below::base::loading::LoadingError;
use crate::below::base::syntax::ParseSyntaxError;
use crate::below::base::tree::{Tree, read_text};
use crate::below::scope::repository::ScopeRepository;
use crate::below::yaml::read::refused_at;
use std::alloc::{AllocError, Global};
use std::path::Path;
use syntect_parsing::parser::ParsingError;
use syntect_parsing::syntax_definition::ContextReference;

/// Why what stands at a path was not loaded, in one line that begins with the path: as the error's
/// message says it, with its cause. Of a grammar that is no YAML the line and column are given, and
/// of a theme that is a property list in XML how it is converted to JSON: the file is read once
/// more for it.
pub fn why_not_loaded<T: Tree>(
    tree: &T,
    alloc: Global,
    path: Path<'_>,
    e: &LoadingError,
) -> Result<String, AllocError> {
    match e {
        LoadingError::ParseSyntax(ParseSyntaxError::InvalidYaml, file) => {
            no_yaml(tree, alloc, file.as_str())
        }
        LoadingError::ParseSyntax(_, _) => format!(in alloc; "{e}"),
        LoadingError::ReadSettings(_) if is_xml(tree, alloc, path) => {
            format!(in alloc;
                "{}: this is XML; docs/THEMES.md says how to make it JSON",
                path.as_str()
            )
        }
        e => format!(in alloc; "{}: {e:?}", path.as_str()),
    }
}

/// Where a grammar's file is no YAML.
fn no_yaml<T: Tree>(tree: &T, alloc: Global, file: &str) -> Result<String, AllocError> {
    let reason = ParseSyntaxError::InvalidYaml;
    let Ok(text) = read_text(tree, alloc, file) else {
        return format!(in alloc; "{file}: {reason}");
    };
    match refused_at(alloc, text.as_str())? {
        Some(place) => {
            let (line, column) = (place.line, place.column);
            format!(in alloc; "{file}:{line}:{column}: {reason}")
        }
        None => format!(in alloc; "{file}: {reason}"),
    }
}

/// Whether a file begins as XML does.
fn is_xml<T: Tree>(tree: &T, alloc: Global, path: Path<'_>) -> bool {
    match read_text(tree, alloc, path.as_str()) {
        Ok(text) => text.as_str().trim_start().starts_with('<'),
        Err(_) => false,
    }
}

/// Why a line was not read: the error's message, with the text of a scope that it names.
pub fn why_not_read(
    alloc: Global,
    repository: &ScopeRepository,
    e: &ParsingError,
) -> Result<String, AllocError> {
    match e {
        ParsingError::UnresolvedContextReference(ContextReference::ByScope { scope, .. }) => {
            let scope = repository.to_string(*scope)?;
            format!(in alloc; "{e} {scope}")
        }
        e => format!(in alloc; "{e}"),
    }
}
