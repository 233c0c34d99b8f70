//! Grammars, themes and texts from files.
use std::alloc::Global;
use std::path::Path;
use std::rt::Files;
use syntect::highlighting::{Theme, ThemeSet};
use syntect::parsing::{ScopeRepository, SyntaxReference, SyntaxSet, SyntaxSetBuilder};

/// Plain text and the grammars of a folder, for lines with their newlines.
pub fn set_of(
    files: &impl Files,
    alloc: Global,
    folder: &str,
    repository: &mut ScopeRepository,
) -> Option<SyntaxSet> {
    let mut builder = SyntaxSetBuilder::new(alloc);
    builder.add_plain_text_syntax(alloc, repository).ok()?;
    let folder = Path::new(folder);
    builder
        .add_from_folder(files, alloc, folder, true, repository)
        .ok()?;
    builder.build(alloc, repository).ok()
}

/// The syntax of a file.
pub fn syntax_of<'s>(
    files: &impl Files,
    alloc: Global,
    set: &'s SyntaxSet,
    path: &str,
) -> Option<&'s SyntaxReference> {
    match set
        .find_syntax_for_file(files, alloc, Path::new(path))
        .ok()?
    {
        Some(syntax) => Some(syntax),
        None => set.find_syntax_plain_text(),
    }
}

/// The theme of a file.
pub fn theme_of(
    files: &impl Files,
    alloc: Global,
    path: &str,
    repository: &mut ScopeRepository,
) -> Option<Theme> {
    ThemeSet::get_theme(files, alloc, Path::new(path), repository).ok()
}
