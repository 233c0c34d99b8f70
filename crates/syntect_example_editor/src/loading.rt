//! Grammars and themes from files.
use std::alloc::Global;
use std::path::Path;
use std::rt::Files;
use syntect::highlighting::{Theme, ThemeSet};
use syntect::parsing::{ScopeRepository, SyntaxSet, SyntaxSetBuilder};

/// The grammars in a folder, for lines with their newlines.
pub fn set_of(
    files: &impl Files,
    alloc: Global,
    folder: &str,
    repository: &mut ScopeRepository,
) -> Option<SyntaxSet> {
    let mut builder = SyntaxSetBuilder::new(alloc);
    let folder = Path::new(folder);
    builder
        .add_from_folder(files, alloc, folder, true, repository)
        .ok()?;
    builder.build(alloc, repository).ok()
}

/// The theme of a file.
pub fn theme_of(
    files: &impl Files,
    alloc: Global,
    path: &str,
    repository: &mut ScopeRepository,
) -> Option<Theme> {
    ThemeSet::get_theme(files, alloc, Path::new(path), repository).ok()
}
