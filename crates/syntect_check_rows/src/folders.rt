//! Folders of grammars.
use crate::below::base::loading::LoadingError;
use crate::below::parsing::syntax_set::SyntaxSetBuilder;
use crate::below::scope::repository::ScopeRepository;
use crate::given::Given;
use std::path::Path;
use std::rt::Files;

/// Adds what adding a folder's grammars comes to, `ok` or the refusal, and the names of these.
pub fn write_grammar_folder(
    files: &impl Files,
    given: Given<'_>,
    folder: &str,
    repository: &mut ScopeRepository,
    out: &mut String,
) -> Option<()> {
    let mut builder = SyntaxSetBuilder::new(given.alloc);
    let folder = Path::new(folder);
    match builder.add_from_folder(files, given.alloc, folder, false, repository) {
        Ok(()) => out.push_str("ok").ok()?,
        Err(LoadingError::Io(_)) => out.push_str("Io").ok()?,
        Err(refusal) => write!(out, "{refusal}").ok()?,
    }
    for definition in builder.syntaxes() {
        write!(out, "; {}", definition.name.as_str()).ok()?;
    }
    Some(())
}
