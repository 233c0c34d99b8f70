//! What is printed of the user's own theme files.
use crate::below::base::loading::LoadingError;
use crate::below::base::utils::files_below;
use crate::below::scope::repository::ScopeRepository;
use crate::below::theme::theme::Theme;
use crate::below::theme_files::theme_set::ThemeSet;
use crate::styles::cannot_read;
use std::io;
use std::path::Path;
use std::process::ExitCode;
use std::rt::Files;

/// Prints a theme's name and the number of its rules, or why there is none.
fn print_theme(rt: &impl Print, path: &str, theme: &Result<Theme, LoadingError>) -> io::Result<()> {
    let theme = match theme {
        Ok(theme) => theme,
        Err(e) => return println!(rt; "{path}: {e:?}"),
    };
    let rules = theme.scopes.len();
    match &theme.name {
        Some(name) => println!(rt; "{path}: {}, {rules} rules", name.as_str()),
        None => println!(rt; "{path}: {rules} rules"),
    }
}

/// Prints the name of a file's theme and the number of its rules, or why it has none. Answers
/// whether it has one.
fn show_theme(
    rt: &(impl Print + AllocGlobal + Files),
    path: &str,
    repository: &mut ScopeRepository,
) -> io::Result<bool> {
    let theme = ThemeSet::get_theme(rt, rt.alloc(), Path::new(path), repository);
    print_theme(rt, path, &theme)?;
    Ok(theme.is_ok())
}

/// Prints of each file of a folder the name of its theme and the number of the rules, or why it has
/// none. The status is 1 if one has none.
pub fn show_themes(
    rt: &(impl Print + Eprint + AllocGlobal + Files),
    folder: &str,
) -> io::Result<ExitCode> {
    let alloc = rt.alloc();
    let Ok(paths) = files_below(rt, alloc, Path::new(folder)) else {
        return cannot_read(rt, folder);
    };
    let mut repository = ScopeRepository::new(alloc);
    let mut failed = false;
    for path in paths.as_slice() {
        failed |= !show_theme(rt, path.as_str(), &mut repository)?;
    }
    Ok(ExitCode::from(u8::from(failed)))
}
