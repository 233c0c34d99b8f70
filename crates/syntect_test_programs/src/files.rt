//! Files of grammars and themes: a page by them, and what is reported where they were not loaded.
use crate::below::easy::LoadingError;
use crate::below::easy::explain::why_not_loaded;
use crate::below::easy::highlighting::ThemeSet;
use crate::below::easy::parsing::{ScopeRepository, SyntaxSetBuilder};
use crate::found::{equal, holds};
use std::os::unix::fs::symlink;
use std::path::{Path, PathBuf};
use std::process::Abort;
use std::rt::{Env, Files};
use std::{env, fs};
use syntect_example_folder_page::folder::page_by_folder;

/// A grammar in which each word after a space is a `word`.
pub const GRAMMAR: &str = r#"%YAML 1.2
---
scope: source.t
file_extensions: [t]
contexts:
  main:
    - match: (?=.)
      push: test
  test:
    - match: \w+
      scope: word
    - match: (?=.)
      pop: true
"#;

/// A theme that shows words in one colour and all else in another.
pub const THEME: &str =
    r##"{"settings":[{"settings":{"foreground":"#010101","background":"#020202"}},{"scope":"word","settings":{"foreground":"#030303"}},{"scope":"word","settings":{"foreground":"none"}}]}"##;

/// A folder of this name among the temporary files.
pub fn folder(rt: &(impl Env + Files + AllocGlobal + Abort), name: &str) -> PathBuf {
    let mut folder = env::temp_dir(rt).expect(rt, "a folder");
    folder.push(name).expect(rt, "memory");
    let _ = fs::remove_dir_all(rt, folder.as_path());
    fs::create_dir(rt, folder.as_path()).expect(rt, "a folder");
    folder
}

/// A line about the grammars of a folder, without the folder's path.
/// It is empty where they are loaded.
fn told_of_grammars(rt: &(impl Files + AllocGlobal + Abort), folder: Path<'_>) -> String {
    let alloc = rt.alloc();
    let mut repository = ScopeRepository::new(alloc);
    let mut builder = SyntaxSetBuilder::new(alloc);
    match builder.add_from_folder(rt, alloc, folder, true, &mut repository) {
        Ok(()) => String::new(alloc),
        Err(e) => told(rt, folder, &e),
    }
}

/// A line about the theme in a file, without the file's path.
/// It is empty where the theme is loaded.
fn told_of_theme(rt: &(impl Files + AllocGlobal + Abort), path: Path<'_>) -> String {
    let alloc = rt.alloc();
    let mut repository = ScopeRepository::new(alloc);
    match ThemeSet::get_theme(rt, alloc, path, &mut repository) {
        Ok(_) => String::new(alloc),
        Err(e) => told(rt, path, &e),
    }
}

/// What is reported of a refusal, without the path that it begins with.
fn told(rt: &(impl Files + AllocGlobal + Abort), path: Path<'_>, e: &LoadingError) -> String {
    let alloc = rt.alloc();
    let text = why_not_loaded(rt, alloc, path, e).expect(rt, "memory");
    let text = text.as_str();
    let rest = text.strip_prefix(path.as_str()).unwrap_or(text);
    String::from_str(alloc, rest).expect(rt, "memory")
}

/// Texts of a grammar's file, and what is reported of them.
const GRAMMARS: [(&str, &str); 2] = [
    (
        "scope: s\n",
        "/a.sublime-syntax: Missing mandatory key in YAML file: contexts",
    ),
    (
        "scope: s\ncontexts:\n\tmain: []\n",
        "/a.sublime-syntax:3:1: Invalid YAML file syntax",
    ),
];

/// Texts of a theme's file, and what is reported of them.
const THEMES: [(&str, &str); 4] = [
    (
        "<?xml version=\"1.0\"?>\n<plist/>\n",
        ": this is XML; docs/THEMES.md says how to make it JSON",
    ),
    (
        "{\"name\":1.5}",
        ": Invalid syntax theme settings: the text is no JSON, or a number in it is no whole one; docs/THEMES.md says how to make a property list JSON",
    ),
    ("[]", ": Invalid syntax theme: Incorrect syntax"),
    ("{\"settings\":[{\"settings\":{}}]}", ""),
];

/// The path of a file in a folder.
pub fn within(rt: &impl Abort, folder: &PathBuf, name: &str) -> PathBuf {
    let mut file = folder.clone().expect(rt, "memory");
    file.push(name).expect(rt, "memory");
    file
}

#[test]
fn grammars_are_named_with_line_and_column(rt: HostRuntime) {
    let folder = folder(&rt, "syntect_told_grammars");
    let none = told_of_grammars(&rt, folder.as_path());
    equal(&rt, none.as_str(), "");
    let file = within(&rt, &folder, "a.sublime-syntax");
    for (text, wanted) in &GRAMMARS {
        fs::write(&rt, file.as_path(), *text).expect(&rt, "a folder");
        let told = told_of_grammars(&rt, folder.as_path());
        equal(&rt, told.as_str(), *wanted);
    }
    fs::remove_dir_all(&rt, folder.as_path()).expect(&rt, "a folder");
    let nothing = told_of_grammars(&rt, folder.as_path());
    equal(
        &rt,
        nothing.as_str(),
        ": error finding all the files in a directory",
    );
}

/// Grammars are added while the folder is walked: of two faults the earlier is reported, and the
/// grammars before it stay.
#[test]
fn the_first_fault_is_told(rt: HostRuntime) {
    let alloc = rt.alloc();
    let folder = folder(&rt, "syntect_first_fault");
    let link = within(&rt, &folder, "z");
    symlink(&rt, "nowhere", link.as_path()).expect(&rt, "a link");
    let first = within(&rt, &folder, "a.sublime-syntax");
    fs::write(&rt, first.as_path(), "scope: s\n").expect(&rt, "a file");
    let told = told_of_grammars(&rt, folder.as_path());
    equal(
        &rt,
        told.as_str(),
        "/a.sublime-syntax: Missing mandatory key in YAML file: contexts",
    );
    fs::write(&rt, first.as_path(), GRAMMAR).expect(&rt, "a file");
    let mut repository = ScopeRepository::new(alloc);
    let mut builder = SyntaxSetBuilder::new(alloc);
    let added = builder.add_from_folder(&rt, alloc, folder.as_path(), true, &mut repository);
    holds(&rt, matches!(&added, Err(LoadingError::WalkDir)));
    holds(&rt, builder.syntaxes().len() == 1);
    fs::remove_dir_all(&rt, folder.as_path()).expect(&rt, "a folder");
}

#[test]
fn themes_are_named_with_what_helps(rt: HostRuntime) {
    let folder = folder(&rt, "syntect_told_themes");
    let file = within(&rt, &folder, "a.json");
    for (text, wanted) in &THEMES {
        fs::write(&rt, file.as_path(), *text).expect(&rt, "a folder");
        let told = told_of_theme(&rt, file.as_path());
        equal(&rt, told.as_str(), *wanted);
    }
    fs::remove_dir_all(&rt, folder.as_path()).expect(&rt, "a folder");
    let nothing = told_of_theme(&rt, file.as_path());
    holds(
        &rt,
        nothing.as_str().starts_with(": error reading a file: "),
    );
}

/// The rule whose colour is none is left out.
#[test]
fn a_page_by_a_folder(rt: HostRuntime) {
    let alloc = rt.alloc();
    let folder = folder(&rt, "syntect_page_by_folder");
    let file = within(&rt, &folder, "T.sublime-syntax");
    fs::write(&rt, file.as_path(), GRAMMAR).expect(&rt, "a folder");
    let mut repository = ScopeRepository::new(alloc);
    let mut bytes = THEME.as_bytes();
    let theme = ThemeSet::load_from_reader(alloc, &mut bytes, &mut repository).expect(
        &rt, "a theme",
    );
    let path = folder.as_path();
    let page = page_by_folder(&rt, alloc, path, "t", &theme, " hello", &mut repository).expect(
        &rt, "a page",
    );
    let expected =
        "<pre style=\"background-color:#020202;\">\n<span style=\"color:#010101;\"> </span><span style=\"color:#030303;\">hello</span></pre>\n";
    equal(&rt, page.as_str(), expected);
    fs::remove_dir_all(&rt, path).expect(&rt, "a folder");
}
