//! Grammars and themes from files.
use crate::below::easy::highlighting::{Theme, ThemeSet};
use crate::below::easy::parsing::{ScopeRepository, SyntaxReference, SyntaxSet, SyntaxSetBuilder};
use std::alloc::Global;
use std::path::Path;
use std::rt::Files;

/// What texts are read with.
#[derive(Drop)]
pub struct Given {
    pub set: SyntaxSet,
    pub theme: Theme,
}

/// Plain text and the grammars in a folder, for lines with their newlines.
fn set_of(
    files: &impl Files,
    alloc: Global,
    folder: &str,
    repository: &mut ScopeRepository,
) -> Option<SyntaxSet> {
    let mut builder = SyntaxSetBuilder::new(alloc);
    builder.add_plain_text_syntax(alloc, repository).ok()?;
    let folder = Path::new(folder);
    builder
        .add_from_folder(files, alloc, folder, true, repository)
        .ok()?;
    builder.build(alloc, repository).ok()
}

/// Plain text, the grammars in a folder, and the theme of a file.
pub fn given_of(files: &impl Files, alloc: Global, folder: &str, theme: &str) -> Option<Given> {
    let mut repository = ScopeRepository::new(alloc);
    let set = set_of(files, alloc, folder, &mut repository)?;
    let theme = ThemeSet::get_theme(files, alloc, Path::new(theme), &mut repository).ok()?;
    Some(Given { set, theme })
}

/// The syntax of a file.
pub fn syntax_of<'s>(
    files: &impl Files,
    alloc: Global,
    set: &'s SyntaxSet,
    path: &str,
) -> Option<&'s SyntaxReference> {
    match set
        .find_syntax_for_file(files, alloc, Path::new(path))
        .ok()?
    {
        Some(syntax) => Some(syntax),
        None => set.find_syntax_plain_text(),
    }
}
