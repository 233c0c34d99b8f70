//! Metadata from folders: which files are read, which are passed over,
//! and which sets replace others.
use crate::below::easy::parsing::{Scope, ScopeRepository, SyntaxSet, SyntaxSetBuilder};
use crate::files::{folder, within};
use std::fs;
use std::path::PathBuf;
use std::process::Abort;
use std::rt::{Env, Files};

/// A file's name and text.
pub type File = (&'static str, &'static str);

/// Two files of one scope, of which the later counts key by key; one of another scope; a property
/// list; and a file whose name has no extension.
const FIRST: [File; 5] = [
    (
        "one.tmPreferences",
        r#"{"scope":"source.rust","settings":{"increaseIndentPattern":"^.*\\{$","shellVariables":[{"name":"TM_COMMENT_START","value":"// "}]}}"#,
    ),
    (
        "two.tmPreferences",
        r#"{"scope":"source.rust","settings":{"increaseIndentPattern":"^.*\\($"}}"#,
    ),
    (
        "c.tmPreferences",
        r#"{"scope":"source.c","settings":{"shellVariables":[{"name":"TM_COMMENT_START","value":"/* "}]}}"#,
    ),
    (
        "plist.tmPreferences",
        "<?xml version=\"1.0\"?>\n<plist version=\"1.0\"><dict/></plist>\n",
    ),
    (
        ".tmPreferences",
        r#"{"scope":"source.rust","settings":{"increaseIndentPattern":"^.*x$"}}"#,
    ),
];

/// A set that replaces one of the first folder; two that are refused, so that they replace none;
/// and a file without a scope.
const SECOND: [File; 4] = [
    (
        "new.tmPreferences",
        r##"{"scope":"source.rust","settings":{"shellVariables":[{"name":"TM_COMMENT_START","value":"# "}]}}"##,
    ),
    (
        "none.tmPreferences",
        r#"{"scope":"source.c","settings":{"indentParens":"x"}}"#,
    ),
    (
        "nine.tmPreferences",
        r#"{"scope":"source.c, 1.2.3.4.5.6.7.8.9","settings":{"increaseIndentPattern":"^y"}}"#,
    ),
    (
        "other.tmPreferences",
        r#"{"settings":{"increaseIndentPattern":"^z"}}"#,
    ),
];

/// Writes the files into a new folder of this name.
pub fn written(
    rt: &(impl Env + Files + AllocGlobal + Abort),
    name: &str,
    files: &[File],
) -> PathBuf {
    let folder = folder(rt, name);
    for (name, text) in files {
        let path = within(rt, &folder, name);
        fs::write(rt, path.as_path(), *text).expect(rt, "a file");
    }
    folder
}

/// What is asked of a scope's metadata: whether a line after this one is indented more, and how a
/// comment begins.
type Row = (&'static str, &'static str, bool, &'static str);

/// Whether one set is for the row's scope, and answers so.
fn answers(rt: &impl Abort, set: &SyntaxSet, repository: &mut ScopeRepository, row: &Row) -> bool {
    let (scope, line, increases, comment) = *row;
    let scope = Scope::new(scope, repository).expect(rt, "a scope");
    let scoped = set
        .metadata()
        .metadata_for_scope(&[scope])
        .expect(rt, "memory");
    let increase = scoped.increase_indent(line).expect(rt, "an answer");
    (scoped.items.len() == 1) & (increase == increases) & (scoped.line_comment() == Some(comment))
}

/// The set answers all rows so.
fn all_answer(rt: &impl Abort, set: &SyntaxSet, repository: &mut ScopeRepository, rows: &[Row]) {
    for row in rows {
        assert!(rt; answers(rt, set, repository, row), "{}", row.0);
    }
}

/// The set of a builder and the files of a folder.
fn set_with(
    rt: &(impl Files + AllocGlobal + Abort),
    builder: SyntaxSetBuilder,
    folder: &PathBuf,
    repository: &mut ScopeRepository,
) -> SyntaxSet {
    let alloc = rt.alloc();
    let mut builder = builder;
    builder
        .add_from_folder(rt, alloc, folder.as_path(), true, repository)
        .expect(rt, "a set");
    builder.build(alloc, repository).expect(rt, "a set")
}

/// What the first folder's set answers.
const FIRST_ROWS: [Row; 4] = [
    ("source.rust", "f(", true, "// "),
    ("source.rust", "f {", false, "// "),
    ("source.rust", "x", false, "// "),
    ("source.c", "f(", false, "/* "),
];

/// What the set of both folders answers.
const SECOND_ROWS: [Row; 4] = [
    ("source.rust", "f(", false, "# "),
    ("source.c", "y", false, "/* "),
    ("source.c", "z", false, "/* "),
    ("source.c", "f(", false, "/* "),
];

#[test]
fn metadata_of_two_folders(rt: HostRuntime) {
    let alloc = rt.alloc();
    let first = written(&rt, "syntect_metadata_first", &FIRST);
    let second = written(&rt, "syntect_metadata_second", &SECOND);
    let mut repository = ScopeRepository::new(alloc);
    let set = set_with(&rt, SyntaxSetBuilder::new(alloc), &first, &mut repository);
    all_answer(&rt, &set, &mut repository, &FIRST_ROWS);
    let builder = set.into_builder(alloc).expect(&rt, "a set");
    let set = set_with(&rt, builder, &second, &mut repository);
    all_answer(&rt, &set, &mut repository, &SECOND_ROWS);
}
