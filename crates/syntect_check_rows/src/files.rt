//! Scopes of texts in files by folders of grammars: the ten that are here, and others to compare.
use crate::below::parsing::syntax_set::{SyntaxReference, SyntaxSet, SyntaxSetBuilder};
use crate::below::scope::repository::ScopeRepository;
use crate::below::theme::theme::Theme;
use crate::finding::write_unlinked;
use crate::given::Given;
use crate::runs::write_scopes;
use std::alloc::Global;
use std::path::Path;
use std::process::ExitCode;
use std::rt::Files;
use std::{fs, io};
use syntect_check_shown::linear::write_linear;
use syntect_check_shown::orderly::write_orderly;

/// The folder of the ten grammars.
const GRAMMARS: &str = "ten/grammars";

/// The texts, whose syntaxes are found by their extensions.
const TEXTS: [&str; 10] = [
    "deploy.sh",
    "moons.json",
    "night.css",
    "orbit.diff",
    "orbit.rs",
    "period.lisp",
    "planets.csv",
    "settings.ini",
    "tour.html",
    "tour.md",
];

/// The set of the plain text syntax and the grammars of a folder, for lines with their line feeds.
fn set_with_plain_text(
    files: &impl Files,
    alloc: Global,
    folder: &str,
    repository: &mut ScopeRepository,
) -> Option<SyntaxSet> {
    let mut builder = SyntaxSetBuilder::new(alloc);
    builder.add_plain_text_syntax(alloc, repository).ok()?;
    builder
        .add_from_folder(files, alloc, Path::new(folder), true, repository)
        .ok()?;
    builder.build(alloc, repository).ok()
}

/// The syntax of a file: that of its name or first line, else plain text.
fn syntax_of_file<'a>(
    files: &impl Files,
    alloc: Global,
    set: &'a SyntaxSet,
    path: &str,
) -> Option<&'a SyntaxReference> {
    match set
        .find_syntax_for_file(files, alloc, Path::new(path))
        .ok()?
    {
        Some(syntax) => Some(syntax),
        None => set.find_syntax_plain_text(),
    }
}

/// Adds the scopes of a file's lines.
fn write_scopes_of(
    files: &(impl AllocGlobal + Files),
    set: &SyntaxSet,
    theme: &Theme,
    repository: &ScopeRepository,
    path: &str,
    out: &mut String,
) -> Option<()> {
    let alloc = files.alloc();
    let text = fs::read_to_string(files, path).ok()?;
    let given = Given {
        alloc,
        parts: &[],
        text: text.as_str(),
        is_bare: false,
        set,
        syntax: syntax_of_file(files, alloc, set, path),
        theme,
    };
    write_scopes(given, repository, out)
}

/// Whether the scopes of a text are those in the file of its name.
fn has_scopes(
    rt: &(impl AllocGlobal + Files),
    set: &SyntaxSet,
    theme: &Theme,
    repository: &ScopeRepository,
    name: &str,
) -> Option<bool> {
    let path = format!(in rt.alloc(); "ten/texts/{name}").ok()?;
    let mut out = String::new(rt.alloc());
    write_scopes_of(rt, set, theme, repository, path.as_str(), &mut out)?;
    let answered = format!(in rt.alloc(); "ten/scopes/{name}").ok()?;
    let wanted = fs::read_to_string(rt, answered.as_str()).ok()?;
    Some(out == wanted)
}

/// Prints of each text whether its scopes come out. False if not all do, or no grammars are loaded.
pub fn run_scope_rows(rt: &(impl Print + AllocGlobal + Files)) -> io::Result<bool> {
    let mut repository = ScopeRepository::new(rt.alloc());
    let Some(set) = set_with_plain_text(rt, rt.alloc(), GRAMMARS, &mut repository) else {
        return Ok(false);
    };
    let theme = Theme::default(rt.alloc());
    let mut all = true;
    for name in &TEXTS {
        let holds = has_scopes(rt, &set, &theme, &repository, *name) == Some(true);
        let outcome = if holds { "ok" } else { "fails" };
        all &= holds;
        println!(rt; "row {name} scopes {outcome}")?;
    }
    Ok(all)
}

/// What is printed of the grammars of a folder.
#[derive(Clone, Copy)]
pub enum Asked<'a> {
    /// What linking left unresolved.
    Unlinked,
    /// Which syntaxes clear scopes, and whether they put them back in order.
    Orderly,
    /// How many patterns each syntax has, and those that are not searched in linear time.
    Linear,
    /// The syntax of each file in a list, a path a line.
    Syntaxes(&'a str),
    /// The scopes of each stretch of a file's lines.
    Scopes(&'a str),
}

/// Adds of each file in a list the name of its syntax.
fn write_syntaxes_of(
    files: &(impl AllocGlobal + Files),
    set: &SyntaxSet,
    list: &str,
    out: &mut String,
) -> Option<()> {
    let paths = fs::read_to_string(files, list).ok()?;
    for path in paths.as_str().lines() {
        let name = match set.find_syntax_for_file(files, files.alloc(), Path::new(path)) {
            Ok(Some(syntax)) => syntax.name.as_str(),
            Ok(None) => "-",
            Err(_) => "!",
        };
        writeln!(out, "{path}\t{name}").ok()?;
    }
    Some(())
}

/// Adds what is asked of the grammars of a folder.
fn write_asked(
    files: &(impl AllocGlobal + Files),
    folder: &str,
    asked: Asked<'_>,
    out: &mut String,
) -> Option<()> {
    let alloc = files.alloc();
    let mut repository = ScopeRepository::new(alloc);
    let set = set_with_plain_text(files, alloc, folder, &mut repository)?;
    match asked {
        Asked::Unlinked => write_unlinked(alloc, &set, &repository, out),
        Asked::Orderly => write_orderly(alloc, &set, out),
        Asked::Linear => write_linear(alloc, &set, out),
        Asked::Syntaxes(list) => write_syntaxes_of(files, &set, list, out),
        Asked::Scopes(path) => {
            let theme = Theme::default(alloc);
            write_scopes_of(files, &set, &theme, &repository, path, out)
        }
    }
}

/// Prints what is asked of a folder's grammars. Status 1 where they aren't loaded or a file fails.
pub fn show_asked(
    rt: &(impl Print + Eprint + AllocGlobal + Files),
    folder: &str,
    asked: Asked<'_>,
) -> io::Result<ExitCode> {
    let mut out = String::new(rt.alloc());
    if write_asked(rt, folder, asked, &mut out).is_none() {
        eprintln!(rt; "syntect_bench: cannot read {folder}")?;
        return Ok(ExitCode::from(1));
    }
    print!(rt; "{out}")?;
    Ok(ExitCode::SUCCESS)
}
