//! Files that are shown, and runs of the program, by trees.
use crate::below::assets::assets::Assets;
use crate::below::assets::format::Format;
use crate::fake::{FakeTree, Thing};
use crate::found::{equal, holds};
use crate::given::{Entry, GRAMMAR, PAGE, PLAIN_PAGE, SCRIPT, SCRIPT_PAGE, THEME, tree_of};
use std::path::Path;
use std::process::Abort;
use syntect_cat::run;

/// Grammars, a theme and files.
const DESK: [Entry; 9] = [
    ("g", Thing::Folder(b"a.sublime-syntax\0s.sublime-syntax\0")),
    ("g/a.sublime-syntax", Thing::File(GRAMMAR)),
    ("g/s.sublime-syntax", Thing::File(SCRIPT)),
    ("theme", Thing::File(THEME)),
    ("a.t", Thing::File(b" hello")),
    ("script", Thing::File(b"#!tool\na\n")),
    ("bad.t", Thing::File(b" hello\n\xff\n")),
    ("gone", Thing::Gone),
    ("shut", Thing::Shut),
];

/// The page of a file whose bytes come so many at a time.
fn page_is(rt: &(impl AllocGlobal + Abort), width: usize, file: &str, page: &str) {
    let alloc = rt.alloc();
    let tree = FakeTree {
        entries: &DESK,
        width,
    };
    let Ok(mut assets) = Assets::from_folder(&tree, alloc, Path::new("g")) else {
        holds(rt, false);
        return;
    };
    let Ok(theme) = assets.theme_in(&tree, alloc, Path::new("theme")) else {
        holds(rt, false);
        return;
    };
    match assets.show_file(&tree, alloc, Path::new(file), &theme, Format::Html) {
        Ok(shown) => equal(rt, shown.text.as_str(), page),
        Err(_) => holds(rt, false),
    }
}

/// A page is the same however the bytes come; but of a first line no more is asked than the first
/// read gives.
#[test]
fn two_bytes_at_a_time(rt: HostRuntime) {
    page_is(&rt, usize::MAX, "a.t", PAGE);
    page_is(&rt, 2, "a.t", PAGE);
    page_is(&rt, usize::MAX, "script", SCRIPT_PAGE);
    page_is(&rt, 2, "script", PLAIN_PAGE);
}

/// A run for these words has this status, and writes this.
fn run_is(rt: &(impl AllocGlobal + Abort), asked: [&str; 4], status: u8, out: &str, err: &str) {
    let alloc = rt.alloc();
    let mut words = Vec::new(alloc);
    for word in &asked {
        let word = String::from_str(alloc, *word).expect(rt, "memory");
        words.push(word).expect(rt, "memory");
    }
    let (mut written, mut told) = (Vec::new(alloc), Vec::new(alloc));
    let found = run(
        &tree_of(&DESK),
        alloc,
        words.as_slice(),
        &mut written,
        &mut told,
    );
    equal(rt, found, status);
    equal(rt, written.as_slice(), out.as_bytes());
    equal(rt, told.as_slice(), err.as_bytes());
}

#[test]
fn runs_of_the_program(rt: HostRuntime) {
    run_is(&rt, ["g", "theme", "html", "a.t"], 0, PAGE, "");
    run_is(&rt, ["g", "theme", "html", "script"], 0, SCRIPT_PAGE, "");
    let (syntaxes, theme, file) = (
        "syncat: cannot load syntaxes\n",
        "syncat: cannot load theme\n",
        "syncat: cannot read file\n",
    );
    run_is(&rt, ["shut", "theme", "html", "a.t"], 1, "", syntaxes);
    run_is(&rt, ["g", "gone", "html", "a.t"], 1, "", theme);
    run_is(&rt, ["g", "theme", "html", "gone"], 1, "", file);
    run_is(&rt, ["g", "theme", "html", "shut"], 1, "", file);
    run_is(&rt, ["g", "theme", "html", "bad.t"], 1, "", file);
}
