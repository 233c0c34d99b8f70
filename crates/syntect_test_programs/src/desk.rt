//! A folder with what a run needs, and runs in it.
use std::path::PathBuf;
use std::process::Abort;
use std::rt::{Env, Files};
use std::{env, fs};
use syntect_cat::run;

/// What a run is asked for: a folder of grammars, a theme, a format, and a file.
pub type Asked = [&'static str; 4];

/// A grammar in which each word after a space is a `word`.
const GRAMMAR: &str = r#"%YAML 1.2
---
name: T
scope: source.t
file_extensions: [t]
contexts:
  main:
    - match: (?=.)
      push: test
  test:
    - match: \w+
      scope: word
    - match: (?=.)
      pop: true
"#;

const THEME: &str =
    r##"{"name":"N","settings":[{"settings":{"foreground":"#010101","background":"#020202"}},{"scope":"word","settings":{"foreground":"#030303"}},{"scope":1,"settings":{}}],"gutterSettings":{"background":"#040404"}}"##;

/// The files that each desk has.
const FILES: [(&str, &str); 3] = [
    ("grammars/T.sublime-syntax", GRAMMAR),
    ("theme.tmTheme", THEME),
    ("a.t", " hello"),
];

/// A folder with a folder `grammars`, a theme `theme.tmTheme` and a file `a.t`.
#[derive(Drop)]
pub struct Desk {
    folder: PathBuf,
}

/// A new folder of this name among the temporary files.
fn new_folder(rt: &(impl Env + Files + AllocGlobal + Abort), name: &str) -> PathBuf {
    let mut folder = env::temp_dir(rt).expect(rt, "a folder for files");
    folder.push(name).expect(rt, "memory");
    let _ = fs::remove_dir_all(rt, folder.as_path());
    fs::create_dir(rt, folder.as_path()).expect(rt, "a folder");
    folder
}

/// What a run came to.
#[derive(Drop)]
pub struct Outcome {
    pub status: u8,
    pub out: Vec<u8>,
    pub err: Vec<u8>,
}

impl Desk {
    /// Sets up a folder of this name.
    pub fn new(rt: &(impl Env + Files + AllocGlobal + Abort), name: &str) -> Desk {
        let desk = Desk {
            folder: new_folder(rt, name),
        };
        fs::create_dir(rt, desk.path(rt, "grammars")).expect(rt, "a folder");
        for (name, text) in &FILES {
            desk.write(rt, name, text.as_bytes());
        }
        desk
    }

    /// The path of a file in the folder.
    pub fn path(&self, rt: &(impl AllocGlobal + Abort), name: &str) -> String {
        let folder = self.folder.as_str();
        format!(in rt.alloc(); "{folder}/{name}").expect(rt, "memory")
    }

    /// Writes a file.
    pub fn write(&self, rt: &(impl Files + AllocGlobal + Abort), name: &str, bytes: &[u8]) {
        fs::write(rt, self.path(rt, name), bytes).expect(rt, "a file");
    }

    /// The words that ask for this, all of it in the folder.
    pub fn words(&self, rt: &(impl AllocGlobal + Abort), asked: Asked) -> Vec<String> {
        let [folder, theme, format, file] = asked;
        let mut words = Vec::new(rt.alloc());
        words.push(self.path(rt, folder)).expect(rt, "memory");
        words.push(self.path(rt, theme)).expect(rt, "memory");
        let format = String::from_str(rt.alloc(), format).expect(rt, "memory");
        words.push(format).expect(rt, "memory");
        words.push(self.path(rt, file)).expect(rt, "memory");
        words
    }

    /// Runs the program for this.
    pub fn outcome(&self, rt: &(impl Files + AllocGlobal + Abort), asked: Asked) -> Outcome {
        outcome_of(rt, self.words(rt, asked).as_slice())
    }

    /// Takes the folder away.
    pub fn close(self, rt: &(impl Files + AllocGlobal + Abort)) {
        fs::remove_dir_all(rt, self.folder.as_path()).expect(rt, "a folder");
    }
}

/// Runs the program.
pub fn outcome_of(rt: &(impl Files + AllocGlobal), words: &[String]) -> Outcome {
    let mut out = Vec::new(rt.alloc());
    let mut err = Vec::new(rt.alloc());
    let status = run(rt, rt.alloc(), words, &mut out, &mut err);
    Outcome { status, out, err }
}
