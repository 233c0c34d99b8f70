//! Folders and files of themes.
use crate::below::base::loading::LoadingError;
use crate::below::scope::repository::ScopeRepository;
use crate::themes::write_whole;
use std::alloc::Global;
use std::path::Path;
use std::rt::Files;
use syntect_theme_files::theme_set::ThemeSet;

/// Adds the themes of a set, by their files' names, each with its own.
fn write_themes(set: &ThemeSet, out: &mut String) -> Option<()> {
    for (file, theme) in set.themes.as_map().iter() {
        write!(out, " {}", file.as_str()).ok()?;
        if let Some(name) = &theme.name {
            write!(out, " {}", name.as_str()).ok()?;
        }
        out.push(';').ok()?;
    }
    Some(())
}

/// Adds what adding folders of themes to one set comes to, `ok` or the refusal's message for each,
/// and the themes of the set. The folders have spaces between.
pub fn write_theme_folders(
    files: &impl Files,
    alloc: Global,
    question: &str,
    repository: &mut ScopeRepository,
    out: &mut String,
) -> Option<()> {
    let mut set = ThemeSet::new(alloc);
    for folder in question.split(' ') {
        match set.add_from_folder(files, alloc, Path::new(folder), repository) {
            Ok(()) => out.push_str("ok;").ok()?,
            Err(refusal) => write!(out, "{refusal};").ok()?,
        }
    }
    write_themes(&set, out)
}

/// Adds the theme of a file: its name and the number of its rules,
/// or `Io` or the refusal's message.
pub fn write_theme_file(
    files: &impl Files,
    alloc: Global,
    path: &str,
    repository: &mut ScopeRepository,
    out: &mut String,
) -> Option<()> {
    match ThemeSet::get_theme(files, alloc, Path::new(path), repository) {
        Ok(theme) => write_whole(&theme, out),
        Err(LoadingError::Io(_)) => out.push_str("Io").ok(),
        Err(refusal) => write!(out, "{refusal}").ok(),
    }
}

/// Adds the paths of the theme files in a folder, each with a semicolon after it.
pub fn write_theme_paths(
    files: &impl Files,
    alloc: Global,
    folder: &str,
    out: &mut String,
) -> Option<()> {
    let paths = ThemeSet::discover_theme_paths(files, alloc, Path::new(folder)).ok()?;
    for path in paths.as_slice() {
        write!(out, "{};", path.as_path().to_string_lossy()).ok()?;
    }
    Some(())
}
