//! Runs that fail.
use crate::desk::{Asked, Desk, outcome_of};
use crate::found::{equal, holds};
use std::io;
use std::io::{ErrorKind, Write};
use std::process::Abort;
use std::rt::Files;
use syntect_cat::run;

const USAGE: &str = "usage: syncat FOLDER THEME html|term FILE\n";

const NO_SYNTAXES: &str = "syncat: cannot load syntaxes\n";

const NO_THEME: &str = "syncat: cannot load theme\n";

const NO_FILE: &str = "syncat: cannot read file\n";

const NOT_SHOWN: &str = "syncat: cannot highlight\n";

/// A run with these words fails with this line, and shows no text. The status is 2 where it shows
/// how it is used, and else 1.
fn words_fail(rt: &(impl Files + AllocGlobal + Abort), words: &[String], line: &str) {
    let outcome = outcome_of(rt, words);
    equal(rt, outcome.err.as_slice(), line.as_bytes());
    holds(rt, outcome.out.is_empty());
    holds(rt, outcome.status == if line == USAGE { 2 } else { 1 });
}

/// Each run that is asked for so fails with its line, and shows no text.
fn all_fail(rt: &(impl Files + AllocGlobal + Abort), desk: &Desk, runs: &[(Asked, &'static str)]) {
    for (asked, line) in runs {
        words_fail(rt, desk.words(rt, *asked).as_slice(), line);
    }
}

/// A run in each format fails with this line.
fn formats_fail(rt: &(impl Files + AllocGlobal + Abort), desk: &Desk, line: &str) {
    for format in &["html", "term"] {
        let asked = ["grammars", "theme.tmTheme", *format, "a.t"];
        words_fail(rt, desk.words(rt, asked).as_slice(), line);
    }
}

/// Runs for what is not there.
const NOT_THERE: [(Asked, &str); 4] = [
    (["none", "theme.tmTheme", "html", "a.t"], NO_SYNTAXES),
    (["grammars", "none", "html", "a.t"], NO_THEME),
    (["grammars", "theme.tmTheme", "html", "none"], NO_FILE),
    (["grammars", "theme.tmTheme", "term", "none"], NO_FILE),
];

/// Runs with several faults, of which the first is reported: the words are looked at first, then
/// the grammars, then the theme, then the file.
const SEVERAL: [(Asked, &str); 3] = [
    (["none", "none", "text", "none"], USAGE),
    (["none", "none", "html", "none"], NO_SYNTAXES),
    (["grammars", "none", "html", "none"], NO_THEME),
];

#[test]
fn what_is_not_there(rt: HostRuntime) {
    let desk = Desk::new(&rt, "syncat_not_there");
    all_fail(&rt, &desk, &NOT_THERE);
    all_fail(&rt, &desk, &SEVERAL);
    desk.close(&rt);
}

#[test]
fn words_of_another_number(rt: HostRuntime) {
    let desk = Desk::new(&rt, "syncat_words");
    let mut words = desk.words(&rt, ["grammars", "theme.tmTheme", "html", "a.t"]);
    let more = String::from_str(rt.alloc(), "more").expect(&rt, "memory");
    words.push(more).expect(&rt, "memory");
    words_fail(&rt, words.as_slice(), USAGE);
    let _ = words.pop();
    let _ = words.pop();
    words_fail(&rt, words.as_slice(), USAGE);
    words_fail(&rt, &[], USAGE);
    desk.close(&rt);
}

/// Files that are written one after the other, and the line of a run in each format.
const SOMETHING_ELSE: [(&str, &[u8], &str); 3] = [
    ("a.t", b" hello\n\xff\n", NO_FILE),
    ("theme.tmTheme", b"<plist></plist>", NO_THEME),
    ("grammars/U.sublime-syntax", b"scope: source.u", NO_SYNTAXES),
];

#[test]
fn files_that_hold_something_else(rt: HostRuntime) {
    let desk = Desk::new(&rt, "syncat_something_else");
    for (name, bytes, line) in &SOMETHING_ELSE {
        desk.write(&rt, name, bytes);
        formats_fail(&rt, &desk, line);
    }
    desk.close(&rt);
}

/// A grammar whose variables stand for ten times as much in each step, ten million letters in the
/// second item of `main`.
const GROWING: &str = r"scope: source.h
variables:
  a: '{{b}}{{b}}{{b}}{{b}}{{b}}{{b}}{{b}}{{b}}{{b}}{{b}}'
  b: '{{c}}{{c}}{{c}}{{c}}{{c}}{{c}}{{c}}{{c}}{{c}}{{c}}'
  c: '{{d}}{{d}}{{d}}{{d}}{{d}}{{d}}{{d}}{{d}}{{d}}{{d}}'
  d: '{{e}}{{e}}{{e}}{{e}}{{e}}{{e}}{{e}}{{e}}{{e}}{{e}}'
  e: '{{f}}{{f}}{{f}}{{f}}{{f}}{{f}}{{f}}{{f}}{{f}}{{f}}'
  f: '{{g}}{{g}}{{g}}{{g}}{{g}}{{g}}{{g}}{{g}}{{g}}{{g}}'
  g: xxxxxxxxxx
contexts:
  main:
    - match: '{{g}}'
    - match: '{{a}}'
";

/// The line names the file, the limit, the item and the context.
#[test]
fn a_grammar_that_passes_a_limit(rt: HostRuntime) {
    let desk = Desk::new(&rt, "syncat_limit");
    desk.write(&rt, "grammars/U.sublime-syntax", GROWING.as_bytes());
    let path = desk.path(&rt, "grammars/U.sublime-syntax");
    let line = format!(in rt.alloc();
        "syncat: cannot load syntaxes: {path}: too many bytes in a pattern of item 1 of context 'main'\n"
    );
    let line = line.expect(&rt, "memory");
    let asked = ["grammars", "theme.tmTheme", "html", "a.t"];
    words_fail(&rt, desk.words(&rt, asked).as_slice(), line.as_str());
    desk.close(&rt);
}

/// A grammar that names a syntax which is not there.
const LACKING: &str =
    "scope: source.u\nfile_extensions: [u]\ncontexts: {main: [{match: x, push: 'scope:source.none'}]}";

/// Runs for a file with a line that is refused.
const REFUSED: [(Asked, &str); 2] = [
    (["grammars", "theme.tmTheme", "html", "a.u"], NOT_SHOWN),
    (["grammars", "theme.tmTheme", "term", "a.u"], NOT_SHOWN),
];

/// The lines before a refused one are not shown either.
#[test]
fn a_line_that_is_refused(rt: HostRuntime) {
    let desk = Desk::new(&rt, "syncat_refused");
    desk.write(&rt, "grammars/U.sublime-syntax", LACKING.as_bytes());
    desk.write(&rt, "a.u", b"a\nax\n");
    all_fail(&rt, &desk, &REFUSED);
    desk.close(&rt);
}

/// A writer that takes some bytes, and fails after them.
#[derive(Drop)]
struct Full {
    room: usize,
}

impl Write for Full {
    fn write(&mut self, buf: &[u8]) -> io::Result<usize> {
        if self.room == 0 {
            return Err(io::Error::from(ErrorKind::StorageFull));
        }
        let count = buf.len().min(self.room);
        self.room -= count;
        Ok(count)
    }

    fn flush(&mut self) -> io::Result<()> {
        Ok(())
    }
}

/// The status of a run whose text is not taken.
fn unwritten(rt: &(impl Files + AllocGlobal + Abort), words: &[String]) -> u8 {
    let mut err = Vec::new(rt.alloc());
    let status = run(rt, rt.alloc(), words, &mut Full { room: 9 }, &mut err);
    equal(rt, err.as_slice(), "syncat: cannot write\n".as_bytes());
    status
}

/// The status of a run without words, whose usage is not taken.
fn untold(rt: &(impl Files + AllocGlobal + Abort)) -> u8 {
    let mut out = Vec::new(rt.alloc());
    let status = run(rt, rt.alloc(), &[], &mut out, &mut Full { room: 0 });
    holds(rt, out.is_empty());
    status
}

/// The status of a run of which neither is taken.
fn unheard(rt: &(impl Files + AllocGlobal), words: &[String]) -> u8 {
    let (mut out, mut err) = (Full { room: 0 }, Full { room: 3 });
    run(rt, rt.alloc(), words, &mut out, &mut err)
}

#[test]
fn writers_that_fail(rt: HostRuntime) {
    let desk = Desk::new(&rt, "syncat_writers");
    let words = desk.words(&rt, ["grammars", "theme.tmTheme", "html", "a.t"]);
    let words = words.as_slice();
    equal(&rt, unwritten(&rt, words), 1);
    equal(&rt, untold(&rt), 2);
    equal(&rt, unheard(&rt, words), 1);
    desk.close(&rt);
}
