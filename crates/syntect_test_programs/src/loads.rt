//! Sets of a folder's grammars and of its themes, each loaded by one call; what is answered where a
//! file of them is faulty, and where no syntax fits a file.
use crate::below::easy::easy::HighlightFile;
use crate::below::easy::highlighting::{Theme, ThemeSet};
use crate::below::easy::html::highlighted_html_for_file;
use crate::below::easy::parsing::{
    FindWithinError, GhostCount, Limits, ParseSyntaxError, ScopeRepository, SyntaxSet,
    find_syntax_for_file_within,
};
use crate::below::easy::{Error, LoadingError};
use crate::files::within;
use crate::found::{equal, holds};
use crate::metadata::{File, written};
use std::fs;
use std::io::BufRead;
use std::path::{Path, PathBuf};
use std::process::Abort;
use std::rt::Files;

const FILES: [File; 3] = [
    (
        "T.sublime-syntax",
        "scope: source.t\ncontexts: {main: []}\n",
    ),
    ("N.tmTheme", r#"{"settings":[{"settings":{}}]}"#),
    ("notes.txt", "none of both"),
];

/// A grammar without `main`, and a theme that is a property list.
pub const FAULTY: [File; 2] = [
    (
        "F.sublime-syntax",
        "scope: source.t\ncontexts: {other: []}\n",
    ),
    ("F.tmTheme", "<?xml version=\"1.0\"?>\n<plist/>\n"),
];

/// The set of a folder's grammars.
fn grammars_of(rt: &(impl Files + AllocGlobal + Abort), folder: &PathBuf) -> SyntaxSet {
    let mut repository = ScopeRepository::new(rt.alloc());
    SyntaxSet::load_from_folder(rt, rt.alloc(), folder.as_path(), &mut repository).expect(
        rt, "grammars",
    )
}

/// A grammar without a name has that of its file.
#[test]
fn grammars_of_a_folder(rt: HostRuntime) {
    let folder = written(&rt, "syntect_loaded_grammars", &FILES);
    let set = grammars_of(&rt, &folder);
    equal(&rt, set.syntaxes().len(), 1);
    holds(&rt, set.find_syntax_by_name("T").is_some());
}

#[test]
fn themes_of_a_folder(rt: HostRuntime) {
    let folder = written(&rt, "syntect_loaded_themes", &FILES);
    let mut repository = ScopeRepository::new(rt.alloc());
    let set = ThemeSet::load_from_folder(&rt, rt.alloc(), folder.as_path(), &mut repository).expect(
        &rt, "themes",
    );
    equal(&rt, set.themes.len(), 1);
    let name = set.themes.as_map().iter().next();
    holds(&rt, name.is_some_and(|(name, _)| name.as_str() == "N"));
}

/// A faulty file refuses its folder for what is wrong with it, and not as a fault of the walk.
#[test]
fn faulty_files_of_a_folder(rt: HostRuntime) {
    let folder = written(&rt, "syntect_faulty_files", &FAULTY);
    let mut repository = ScopeRepository::new(rt.alloc());
    let set = SyntaxSet::load_from_folder(&rt, rt.alloc(), folder.as_path(), &mut repository);
    let is_named = match &set {
        Err(LoadingError::ParseSyntax(ParseSyntaxError::MainMissing, path)) => {
            path.as_str().ends_with("F.sublime-syntax")
        }
        _ => false,
    };
    holds(&rt, is_named);
    let themes = ThemeSet::load_from_folder(&rt, rt.alloc(), folder.as_path(), &mut repository);
    holds(&rt, matches!(themes, Err(LoadingError::ReadSettings(_))));
}

/// Why a file is not opened by a set without plain text.
fn unopened(rt: &(impl Files + AllocGlobal), path: Path<'_>, set: &SyntaxSet) -> Option<Error> {
    let theme = Theme::default(rt.alloc());
    HighlightFile::new(rt, rt.alloc(), path, set, &theme).err()
}

/// Why there is no page of a file by a set without plain text.
fn unshown(rt: &(impl Files + AllocGlobal), path: Path<'_>, set: &SyntaxSet) -> Option<Error> {
    let theme = Theme::default(rt.alloc());
    highlighted_html_for_file(rt, rt.alloc(), path, set, &theme).err()
}

/// Whether no syntax fits a file.
fn fits_none(refusal: Option<Error>) -> bool {
    matches!(refusal, Some(Error::NoSyntax))
}

/// Whether a file is not read.
fn is_unread(refusal: Option<Error>) -> bool {
    matches!(refusal, Some(Error::Io(_)))
}

/// A file that no syntax fits, and one that isn't there.
#[test]
fn files_without_a_syntax(rt: HostRuntime) {
    let folder = written(&rt, "syntect_no_syntax", &FILES);
    let set = grammars_of(&rt, &folder);
    let notes = within(&rt, &folder, "notes.txt");
    holds(&rt, fits_none(unopened(&rt, notes.as_path(), &set)));
    holds(&rt, fits_none(unshown(&rt, notes.as_path(), &set)));
    let missing = within(&rt, &folder, "missing.txt");
    holds(&rt, is_unread(unopened(&rt, missing.as_path(), &set)));
    holds(&rt, is_unread(unshown(&rt, missing.as_path(), &set)));
}

/// A theme that is none.
const NO_THEME: [File; 1] = [("N.tmTheme", "[]")];

/// Whether a theme's value refuses the call.
fn is_no_theme<T: Drop>(answer: Result<T, LoadingError>) -> bool {
    matches!(answer.err(), Some(LoadingError::ParseTheme(_)))
}

#[test]
fn a_theme_that_is_none(rt: HostRuntime) {
    let alloc = rt.alloc();
    let folder = written(&rt, "syntect_no_theme", &NO_THEME);
    let mut repository = ScopeRepository::new(alloc);
    let all = ThemeSet::load_from_folder(&rt, alloc, folder.as_path(), &mut repository);
    holds(&rt, is_no_theme(all));
    let mut set = ThemeSet::new(alloc);
    let added = set.add_from_folder(&rt, alloc, folder.as_path(), &mut repository);
    holds(&rt, is_no_theme(added));
    let file = within(&rt, &folder, "N.tmTheme");
    let one = ThemeSet::get_theme(&rt, alloc, file.as_path(), &mut repository);
    holds(&rt, is_no_theme(one));
    let read = ThemeSet::load_from_reader(alloc, &mut "[]".as_bytes(), &mut repository);
    holds(&rt, is_no_theme(read));
}

/// Whether a folder's walk refuses the call.
fn is_no_walk<T: Drop>(answer: Result<T, LoadingError>) -> bool {
    matches!(answer.err(), Some(LoadingError::WalkDir))
}

#[test]
fn a_folder_that_is_missing(rt: HostRuntime) {
    let alloc = rt.alloc();
    let folder = written(&rt, "syntect_no_folder", &NO_THEME);
    let none = within(&rt, &folder, "none");
    let path = none.as_path();
    let mut repository = ScopeRepository::new(alloc);
    let all = ThemeSet::load_from_folder(&rt, alloc, path, &mut repository);
    holds(&rt, is_no_walk(all));
    let mut set = ThemeSet::new(alloc);
    let added = set.add_from_folder(&rt, alloc, path, &mut repository);
    holds(&rt, is_no_walk(added));
    holds(
        &rt,
        is_no_walk(ThemeSet::discover_theme_paths(&rt, alloc, path)),
    );
    let grammars = SyntaxSet::load_from_folder(&rt, alloc, path, &mut repository);
    holds(&rt, is_no_walk(grammars));
}

/// A grammar whose files are recognised by their first line, and such a file.
const SCRIPT: [File; 2] = [
    (
        "S.sublime-syntax",
        "name: S\nscope: source.s\nfirst_line_match: '^#!.*tool'\ncontexts: {main: []}\n",
    ),
    ("script", "#!a tool\nx\n"),
];

/// What a file's highlighter answers to its first line: there is one only where the first line was
/// asked, since the set has no plain text.
#[test]
fn a_script_without_an_extension(rt: HostRuntime) {
    let folder = written(&rt, "syntect_script", &SCRIPT);
    let set = grammars_of(&rt, &folder);
    let theme = Theme::default(rt.alloc());
    let path = within(&rt, &folder, "script");
    let mut file = HighlightFile::new(&rt, rt.alloc(), path.as_path(), &set, &theme).expect(
        &rt, "a file",
    );
    let mut line = String::new(rt.alloc());
    file.reader.read_line(&mut line).expect(&rt, "a line");
    equal(&rt, line.as_str(), "#!a tool\n");
    let pieces = file
        .highlight_lines
        .highlight_line(rt.alloc(), line.as_str(), &set);
    equal(&rt, pieces.expect(&rt, "pieces").len(), 1);
}

/// A script whose first line is no text.
#[test]
fn a_script_that_is_no_text(rt: HostRuntime) {
    let folder = written(&rt, "syntect_script_bytes", &SCRIPT);
    let set = grammars_of(&rt, &folder);
    let path = within(&rt, &folder, "script");
    fs::write(&rt, path.as_path(), b"#!\xff\nx\n").expect(&rt, "a file");
    holds(&rt, is_unread(unopened(&rt, path.as_path(), &set)));
}

/// A grammar whose `x` pushes a context that is not there, and a file with such a line.
const LACKING: [File; 2] = [
    (
        "L.sublime-syntax",
        "name: L\nscope: source.l\nfile_extensions: [l]\ncontexts: {main: [{match: x, push: none}]}\n",
    ),
    ("a.l", "a\nax\n"),
];

#[test]
fn a_file_with_a_line_that_is_refused(rt: HostRuntime) {
    let folder = written(&rt, "syntect_refused_line", &LACKING);
    let set = grammars_of(&rt, &folder);
    let theme = Theme::default(rt.alloc());
    let path = within(&rt, &folder, "a.l");
    let page = highlighted_html_for_file(&rt, rt.alloc(), path.as_path(), &set, &theme);
    holds(&rt, matches!(&page, Err(Error::ParsingError(_))));
}

#[test]
fn a_grammar_that_is_no_text(rt: HostRuntime) {
    let folder = written(&rt, "syntect_grammar_bytes", &SCRIPT);
    let path = within(&rt, &folder, "S.sublime-syntax");
    fs::write(&rt, path.as_path(), b"name: \xff\n").expect(&rt, "a file");
    let mut repository = ScopeRepository::new(rt.alloc());
    let set = SyntaxSet::load_from_folder(&rt, rt.alloc(), folder.as_path(), &mut repository);
    holds(&rt, matches!(set.err(), Some(LoadingError::Io(_))));
}

/// What is found for a file within the usual limits: whether there is a syntax, or whether it was
/// not read.
fn found_within(
    rt: &(impl Files + AllocGlobal + Abort),
    set: &SyntaxSet,
    path: Path<'_>,
    steps: usize,
) -> Result<bool, bool> {
    let alloc = rt.alloc();
    let limits = Limits {
        steps,
        ..Limits::default()
    };
    let mut count = GhostCount::none();
    match find_syntax_for_file_within(rt, alloc, set, path, &limits, &mut count) {
        Ok(found) => Ok(found.is_some()),
        Err(FindWithinError::Refused(e)) => Err(matches!(&e, Error::Io(_))),
        Err(FindWithinError::LimitReached(_)) => Err(false),
    }
}

/// A script that is recognised by its first line within limits, one whose first line takes more
/// steps, and one that isn't there.
#[test]
fn a_script_within_limits(rt: HostRuntime) {
    let folder = written(&rt, "syntect_script_within", &SCRIPT);
    let set = grammars_of(&rt, &folder);
    let path = within(&rt, &folder, "script");
    equal(&rt, found_within(&rt, &set, path.as_path(), 1000), Ok(true));
    equal(&rt, found_within(&rt, &set, path.as_path(), 1), Err(false));
    let path = within(&rt, &folder, "none");
    equal(
        &rt,
        found_within(&rt, &set, path.as_path(), 1000),
        Err(true),
    );
}
