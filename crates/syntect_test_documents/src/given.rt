//! What the tests begin with: grammars and a theme, and what is asked of what was found.
use std::fmt::Debug;
use std::path::PathBuf;
use std::process::Abort;
use std::rt::{Env, Files};
use std::{env, fs};
use syntect_documents::below::assets::assets::{Assets, Shown};
use syntect_documents::below::assets::error::AssetsError;

/// Words, whose scope is `word`.
const WORDS: &str = r#"%YAML 1.2
---
scope: source.t
file_extensions: [t]
contexts:
  main:
    - match: (?=.)
      push: test
  test:
    - match: \w+
      scope: word
    - match: (?=.)
      pop: true
"#;

/// A sign, names after `fn` with a block each, and notes to the line's end.
const BLOCKS: &str = r"
scope: source.t
file_extensions: [b]
contexts:
  main:
    - {match: '[+]', scope: keyword.operator.t}
    - {match: 'fn', scope: storage.t, push: [block, name]}
    - {match: '#', push: note}
  name:
    - meta_scope: meta.function.t
    - {match: '\w+', scope: entity.name.t, pop: true}
    - {match: '(?=\{)', pop: true}
  block:
    - meta_content_scope: meta.block.t
    - {match: '\{', scope: punctuation.begin.t}
    - {match: '\}', scope: punctuation.end.t, pop: true}
  note:
    - meta_scope: comment.t
    - {match: '\n', pop: true}
";

/// A pattern that costs much, and a word.
const COSTLY: &str =
    "scope: source.u\nfile_extensions: [u]\ncontexts: {main: [{match: '^(x+x+)+\\1y', scope: word}, {match: hello, scope: word}]}";

/// A reference that leads nowhere, at `u`.
const LOST: &str =
    "scope: source.l\nfile_extensions: [l]\ncontexts: {main: [{match: u, push: 'scope:none'}]}\n";

const SHADE: &str =
    r##"{"settings":[{"settings":{"foreground":"#010101","background":"#020202"}},{"scope":"word","settings":{"foreground":"#030303"}}]}"##;

const FILES: [(&str, &str); 6] = [
    ("Tee.sublime-syntax", WORDS),
    ("Bee.sublime-syntax", BLOCKS),
    ("U.sublime-syntax", COSTLY),
    ("L.sublime-syntax", LOST),
    ("shade.tmTheme", SHADE),
    ("a.t", " hello"),
];

/// A line that costs more than a line may, and one that doesn't.
pub const ROWS: &str = "xxxxxxxxxxxxxxxxxxxxxxxxxxxxxxxxxxxxxxxxxxxxxxxxxxxxxxxxxxxx\nhello";

/// The path of a file in a folder.
pub fn within(rt: &impl Abort, folder: &PathBuf, name: &str) -> PathBuf {
    let mut file = folder.clone().expect(rt, "memory");
    file.push(name).expect(rt, "memory");
    file
}

/// The grammars and the theme in a new folder of this name among the temporary files.
pub fn assets_in(rt: &(impl Env + Files + AllocGlobal + Abort), name: &str) -> (Assets, PathBuf) {
    let mut folder = env::temp_dir(rt).expect(rt, "a folder");
    folder.push(name).expect(rt, "memory");
    let _ = fs::remove_dir_all(rt, folder.as_path());
    fs::create_dir(rt, folder.as_path()).expect(rt, "a folder");
    for (name, text) in &FILES {
        let path = within(rt, &folder, name);
        fs::write(rt, path.as_path(), *text).expect(rt, "a file");
    }
    let assets = Assets::from_folder(rt, rt.alloc(), folder.as_path()).expect(rt, "assets");
    (assets, folder)
}

/// Ends the test where this does not hold.
pub fn holds(rt: &impl Abort, held: bool) {
    assert!(rt; held);
}

/// Ends the test where something else was found than is wanted.
pub fn equal<T: PartialEq + Debug + Drop>(rt: &impl Abort, found: T, wanted: T) {
    assert_eq!(rt; found, wanted);
}

/// The text is this one, and none of it is plain because of a limit.
pub fn is_text(rt: &impl Abort, shown: Result<Shown, AssetsError>, text: &str) {
    let shown = shown.expect(rt, "a text");
    equal(rt, shown.text.as_str(), text);
    holds(rt, shown.plain.is_none() & shown.first_line.is_none());
}
