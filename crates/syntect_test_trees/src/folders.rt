//! Folders whose files vanish, that fail half way, and that have names which are no text.
use crate::below::assets::assets::Assets;
use crate::below::assets::error::AssetsError;
use crate::below::easy::LoadingError;
use crate::below::easy::highlighting::ThemeSet;
use crate::below::easy::parsing::{ScopeRepository, SyntaxSetBuilder};
use crate::fake::Thing;
use crate::found::{equal, holds};
use crate::given::{Entry, GRAMMAR, SCRIPT, THEME, tree_of};
use std::path::Path;
use std::process::Abort;

/// What came of a folder's grammars.
#[derive(Clone, Copy, Debug, PartialEq, Eq)]
enum Came {
    Added,
    /// A fault of the walk.
    Walk,
    /// A file that wasn't read.
    Unread,
    Else,
}

/// What comes of the grammars of the folder `g`, and how many of them are added before that.
fn grammars(rt: &(impl AllocGlobal + Abort), entries: &[Entry], came: Came, added: usize) {
    let alloc = rt.alloc();
    let tree = tree_of(entries);
    let mut repository = ScopeRepository::new(alloc);
    let mut builder = SyntaxSetBuilder::new(alloc);
    let folder = Path::new("g");
    let found = match builder.add_from_folder(&tree, alloc, folder, true, &mut repository) {
        Ok(()) => Came::Added,
        Err(LoadingError::WalkDir) => Came::Walk,
        Err(LoadingError::Io(_)) => Came::Unread,
        Err(_) => Came::Else,
    };
    equal(rt, found, came);
    equal(rt, builder.syntaxes().len(), added);
}

/// The second grammar in byte order vanishes as it is read.
const VANISHED: [Entry; 5] = [
    (
        "g",
        Thing::Folder(b"b.sublime-syntax\0c.sublime-syntax\0a.sublime-syntax\0x.tmTheme\0"),
    ),
    ("g/a.sublime-syntax", Thing::File(GRAMMAR)),
    ("g/b.sublime-syntax", Thing::Gone),
    ("g/c.sublime-syntax", Thing::File(SCRIPT)),
    ("g/x.tmTheme", Thing::File(THEME)),
];

/// The grammar before it stays added.
#[test]
fn a_file_that_vanishes(rt: HostRuntime) {
    grammars(&rt, &VANISHED, Came::Unread, 1);
}

/// It is passed over, and told.
#[test]
fn what_loads_without_it(rt: HostRuntime) {
    let alloc = rt.alloc();
    let tree = tree_of(&VANISHED);
    let strict = Assets::from_folder(&tree, alloc, Path::new("g"));
    holds(&rt, matches!(strict, Err(AssetsError::NotLoaded(_))));
    let lenient = Assets::what_loads(&tree, alloc, Path::new("g"));
    let Ok((assets, told)) = lenient else {
        holds(&rt, false);
        return;
    };
    equal(&rt, told.len(), 1);
    // plain text, and the two that are there
    equal(&rt, assets.set.syntaxes().len(), 3);
    equal(&rt, assets.themes.themes.len(), 1);
}

/// Metadata that vanishes is passed over.
const NO_METADATA: [Entry; 3] = [
    ("g", Thing::Folder(b"m.tmPreferences\0a.sublime-syntax\0")),
    ("g/a.sublime-syntax", Thing::File(GRAMMAR)),
    ("g/m.tmPreferences", Thing::Gone),
];

/// A folder inside can't be listed, after the first grammar.
const HALF_WAY: [Entry; 4] = [
    (
        "g",
        Thing::Folder(b"a.sublime-syntax\0b\0c.sublime-syntax\0"),
    ),
    ("g/a.sublime-syntax", Thing::File(GRAMMAR)),
    ("g/b", Thing::Shut),
    ("g/c.sublime-syntax", Thing::File(SCRIPT)),
];

/// An entry that was listed is gone as it is looked at.
const NOT_TOLD: [Entry; 2] = [
    ("g", Thing::Folder(b"a.sublime-syntax\0b.sublime-syntax\0")),
    ("g/a.sublime-syntax", Thing::File(GRAMMAR)),
];

#[test]
fn a_folder_that_fails_half_way(rt: HostRuntime) {
    grammars(&rt, &NO_METADATA, Came::Added, 1);
    grammars(&rt, &HALF_WAY, Came::Walk, 1);
    grammars(&rt, &NOT_TOLD, Came::Walk, 1);
    grammars(&rt, &[("g", Thing::Shut)], Came::Walk, 0);
    let mut repository = ScopeRepository::new(rt.alloc());
    let folder = Path::new("g");
    let tree = tree_of(&HALF_WAY);
    let themes = ThemeSet::load_from_folder(&tree, rt.alloc(), folder, &mut repository);
    holds(&rt, matches!(themes, Err(LoadingError::WalkDir)));
}

/// A name that is no text, and can't be that of a grammar; and one that may be.
const OTHER_NAME: [Entry; 2] = [
    ("g", Thing::Folder(b"a.sublime-syntax\0\xff.txt\0")),
    ("g/a.sublime-syntax", Thing::File(GRAMMAR)),
];

const LOST_NAME: [Entry; 2] = [
    (
        "g",
        Thing::Folder(b"a.sublime-syntax\0\xff.sublime-syntax\0"),
    ),
    ("g/a.sublime-syntax", Thing::File(GRAMMAR)),
];

#[test]
fn names_that_are_no_text(rt: HostRuntime) {
    grammars(&rt, &OTHER_NAME, Came::Added, 1);
    grammars(&rt, &LOST_NAME, Came::Walk, 0);
    let mut repository = ScopeRepository::new(rt.alloc());
    let folder = Path::new("g");
    let tree = tree_of(&LOST_NAME);
    let themes = ThemeSet::load_from_folder(&tree, rt.alloc(), folder, &mut repository);
    let set = themes.expect(&rt, "an answer");
    holds(&rt, set.themes.len() == 0);
}

/// A link to a folder is passed over, whatever it leads to; a link to a file is that file.
const LINKS: [Entry; 4] = [
    ("g", Thing::Folder(b"a.sublime-syntax\0l\0")),
    ("g/a.sublime-syntax", Thing::File(GRAMMAR)),
    ("g/l", Thing::Neither),
    ("g/l/b.sublime-syntax", Thing::File(SCRIPT)),
];

#[test]
fn links(rt: HostRuntime) {
    grammars(&rt, &LINKS, Came::Added, 1);
}
