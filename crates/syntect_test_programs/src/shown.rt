//! Files that are shown.
use crate::desk::{Asked, Desk};
use crate::found::{equal, holds};
use std::process::Abort;
use std::rt::Files;

/// A run that is asked for so shows this text, and tells of no fault.
fn shows(rt: &(impl Files + AllocGlobal + Abort), desk: &Desk, asked: Asked, text: &str) {
    let outcome = desk.outcome(rt, asked);
    equal(rt, outcome.out.as_slice(), text.as_bytes());
    holds(rt, (outcome.status == 0) & outcome.err.is_empty());
}

/// A page of the text ` hello` in the grammar of `files`.
pub const PAGE: &str =
    "<pre style=\"background-color:#020202;\">\n<span style=\"color:#010101;\"> </span><span style=\"color:#030303;\">hello</span></pre>\n";

/// The same text for a terminal.
pub const TEXT: &str =
    "\x1b[48;2;2;2;2m\x1b[38;2;1;1;1m \x1b[48;2;2;2;2m\x1b[38;2;3;3;3mhello\x1b[0m\n";

/// Two empty lines.
const LINES: &str = "\x1b[48;2;2;2;2m\x1b[38;2;1;1;1m\n\x1b[48;2;2;2;2m\x1b[38;2;1;1;1m\n\x1b[0m\n";

/// Texts of a file, and what is shown of them.
const TEXTS: [(&str, &str); 2] = [("", "\x1b[0m\n"), ("\n\n", LINES)];

/// A page of plain text.
const PLAIN: &str =
    "<pre style=\"background-color:#020202;\">\n<span style=\"color:#010101;\"> hello</span></pre>\n";

#[test]
fn a_page_and_text_for_a_terminal(rt: HostRuntime) {
    let desk = Desk::new(&rt, "syncat_shown");
    shows(
        &rt,
        &desk,
        ["grammars", "theme.tmTheme", "html", "a.t"],
        PAGE,
    );
    shows(
        &rt,
        &desk,
        ["grammars", "theme.tmTheme", "term", "a.t"],
        TEXT,
    );
    desk.close(&rt);
}

/// After the last line, once.
#[test]
fn the_terminal_has_its_own_colours_again(rt: HostRuntime) {
    let desk = Desk::new(&rt, "syncat_own_colours");
    for (text, shown) in &TEXTS {
        desk.write(&rt, "a.t", text.as_bytes());
        shows(
            &rt,
            &desk,
            ["grammars", "theme.tmTheme", "term", "a.t"],
            shown,
        );
    }
    desk.close(&rt);
}

/// Plain text is there where no grammar fits a file.
#[test]
fn a_file_of_no_grammar_is_plain_text(rt: HostRuntime) {
    let desk = Desk::new(&rt, "syncat_plain_text");
    desk.write(&rt, "b.none", b" hello");
    shows(
        &rt,
        &desk,
        ["grammars", "theme.tmTheme", "html", "b.none"],
        PLAIN,
    );
    desk.close(&rt);
}

/// A grammar whose files are recognised by their first line.
const SCRIPT: &str =
    "name: S\nscope: source.s\nfirst_line_match: '^#!.*tool'\ncontexts:\n  main: [{match: a, scope: word}]\n";

const SCRIPT_PAGE: &str =
    "<pre style=\"background-color:#020202;\">\n<span style=\"color:#010101;\">#!tool\n</span>\
<span style=\"color:#030303;\">a\n</span></pre>\n";

/// Of a script of one line without a newline.
const LINE_PAGE: &str =
    "<pre style=\"background-color:#020202;\">\n<span style=\"color:#010101;\">#!</span>\
<span style=\"color:#030303;\">a</span><span style=\"color:#010101;\"> tool</span></pre>\n";

/// The first line is asked where a name tells nothing, whether another line follows or not.
#[test]
fn a_script_is_told_by_its_first_line(rt: HostRuntime) {
    let desk = Desk::new(&rt, "syncat_script");
    desk.write(&rt, "grammars/S.sublime-syntax", SCRIPT.as_bytes());
    desk.write(&rt, "script", b"#!tool\na\n");
    let asked = ["grammars", "theme.tmTheme", "html", "script"];
    shows(&rt, &desk, asked, SCRIPT_PAGE);
    desk.write(&rt, "script", b"#!a tool");
    shows(&rt, &desk, asked, LINE_PAGE);
    desk.close(&rt);
}

/// A grammar with a pattern that tries each way to part a row of `x`, since it asks for a group's
/// text again.
pub const COSTLY: &str =
    "scope: source.u\nfile_extensions: [u]\ncontexts: {main: [{match: '^(x+x+)+\\1y', scope: word}, {match: hello, scope: word}]}";

/// A line that costs more than a line may, and one that doesn't.
pub const ROWS: &str = "xxxxxxxxxxxxxxxxxxxxxxxxxxxxxxxxxxxxxxxxxxxxxxxxxxxxxxxxxxxx\nhello";

/// What is shown of them: the first line plain, and the second one as if it stood alone.
pub const ROWS_SHOWN: &str =
    "<pre style=\"background-color:#020202;\">\n<span style=\"color:#010101;\">xxxxxxxxxxxxxxxxxxxxxxxxxxxxxxxxxxxxxxxxxxxxxxxxxxxxxxxxxxxx\n</span><span style=\"color:#030303;\">hello</span></pre>\n";

/// A line that reaches a limit is reported once, by its number, and the others are highlighted.
#[test]
fn a_line_that_reaches_a_limit_is_plain(rt: HostRuntime) {
    let desk = Desk::new(&rt, "syncat_spent");
    desk.write(&rt, "grammars/U.sublime-syntax", COSTLY.as_bytes());
    desk.write(&rt, "a.u", ROWS.as_bytes());
    let outcome = desk.outcome(&rt, ["grammars", "theme.tmTheme", "html", "a.u"]);
    equal(&rt, outcome.out.as_slice(), ROWS_SHOWN.as_bytes());
    let note = "syncat: line 1 is shown plain: too many steps at byte 0\n";
    equal(&rt, outcome.err.as_slice(), note.as_bytes());
    holds(&rt, outcome.status == 0);
    desk.close(&rt);
}

/// A grammar that has the same in its first-line pattern.
const COSTLY_FIRST: &str =
    "scope: source.v\nfirst_line_match: '^(x+x+)+\\1y'\ncontexts: {main: [{match: hello, scope: word}]}";

/// The page of the costly text's lines as plain text.
const ROWS_PLAIN: &str =
    "<pre style=\"background-color:#020202;\">\n<span style=\"color:#010101;\">xxxxxxxxxxxxxxxxxxxxxxxxxxxxxxxxxxxxxxxxxxxxxxxxxxxxxxxxxxxx\n</span><span style=\"color:#010101;\">hello</span></pre>\n";

/// A text for whose syntax the limit is reached is plain text, and that is reported.
#[test]
fn a_first_line_that_reaches_the_limit(rt: HostRuntime) {
    let desk = Desk::new(&rt, "syncat_first_spent");
    desk.write(&rt, "grammars/V.sublime-syntax", COSTLY_FIRST.as_bytes());
    desk.write(&rt, "rows", ROWS.as_bytes());
    let outcome = desk.outcome(&rt, ["grammars", "theme.tmTheme", "html", "rows"]);
    equal(&rt, outcome.out.as_slice(), ROWS_PLAIN.as_bytes());
    let note = "syncat: shown as plain text: too many steps for the first line\n";
    equal(&rt, outcome.err.as_slice(), note.as_bytes());
    holds(&rt, outcome.status == 0);
    desk.close(&rt);
}
