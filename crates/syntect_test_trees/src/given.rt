//! What the tests are given: entries of trees.
use crate::fake::{FakeTree, Thing};

/// A path, and what stands there.
pub type Entry = (&'static str, Thing);

/// A tree of these entries, whose files are read at once.
pub fn tree_of(entries: &[Entry]) -> FakeTree<'_> {
    FakeTree {
        entries,
        width: usize::MAX,
    }
}

/// A grammar in which each word after a space is a `word`.
pub const GRAMMAR: &[u8] =
    b"name: T\nscope: source.t\nfile_extensions: [t]\ncontexts:\n  main:\n    - match: (?=.)\n      push: test\n  test:\n    - match: \\w+\n      scope: word\n    - match: (?=.)\n      pop: true\n";

/// A grammar whose files are told by their first line.
pub const SCRIPT: &[u8] =
    b"name: S\nscope: source.s\nfirst_line_match: '^#!.*tool'\ncontexts:\n  main: [{match: a, scope: word}]\n";

pub const THEME: &[u8] =
    br##"{"name":"N","settings":[{"settings":{"foreground":"#010101","background":"#020202"}},{"scope":"word","settings":{"foreground":"#030303"}}]}"##;

/// A page of the text ` hello` in the grammar.
pub const PAGE: &str =
    "<pre style=\"background-color:#020202;\">\n<span style=\"color:#010101;\"> </span><span style=\"color:#030303;\">hello</span></pre>\n";

/// A script in the syntax that its first line tells.
pub const SCRIPT_PAGE: &str =
    "<pre style=\"background-color:#020202;\">\n<span style=\"color:#010101;\">#!tool\n</span>\
<span style=\"color:#030303;\">a\n</span></pre>\n";

/// The same as plain text.
pub const PLAIN_PAGE: &str =
    "<pre style=\"background-color:#020202;\">\n<span style=\"color:#010101;\">#!tool\n</span>\
<span style=\"color:#010101;\">a\n</span></pre>\n";
