//! Lines whose operations restore what was never cleared, as no loaded grammar has them.
use crate::below::easy::Error;
use crate::below::easy::easy::{HighlightLines, HighlightWithinError};
use crate::below::easy::highlighting::Theme;
use crate::below::easy::html::{
    ClassStyle, ClassedHTMLGenerator, highlighted_html_for_file, highlighted_html_for_reader,
    highlighted_html_for_string,
};
use crate::below::easy::parsing::{Limits, ScopeRepository, SyntaxReference, SyntaxSet};
use crate::found::holds;
use crate::refusals::started_in_left;
use std::alloc::Global;
use std::path::PathBuf;
use std::process::Abort;
use std::rt::{Env, Files};
use std::{env, fs};
use syntect_buffer::answer::LineAnswer;
use syntect_buffer::buffer::LineBuffer;

/// The context that a text begins in here clears, so that `x`, which leaves it, restores. Files
/// whose name is `cleared` are of this syntax.
const GRAMMAR: &str =
    "name: T\nscope: source.t\nfile_extensions: [cleared]\ncontexts:\n  main: []\n  left: [{clear_scopes: 1}, {match: x, pop: true}]\n";

fn syntax_of<'s>(rt: &impl Abort, set: &'s SyntaxSet) -> &'s SyntaxReference {
    set.syntaxes().first().expect(rt, "a syntax")
}

/// An operation of the line is refused.
fn is_refused<T: Drop>(rt: &impl Abort, found: Result<T, Error>) {
    holds(rt, matches!(&found, Err(Error::ScopeError(_))));
}

/// An operation of the line, which is read within limits, is refused.
fn is_refused_within<T: Drop>(rt: &impl Abort, found: Result<T, HighlightWithinError>) {
    holds(
        rt,
        matches!(
            &found,
            Err(HighlightWithinError::Refused(Error::ScopeError(_)))
        ),
    );
}

#[test]
fn highlighted_lines_that_restore(rt: HostRuntime) {
    let alloc = rt.alloc();
    let set = started_in_left(&rt, alloc, GRAMMAR);
    let theme = Theme::default(alloc);
    let new = HighlightLines::new(alloc, syntax_of(&rt, &set), &theme);
    let mut lines = new.expect(&rt, "a highlighter");
    let limits = Limits::default();
    is_refused(&rt, lines.highlight_line(alloc, "x\n", &set));
    is_refused_within(
        &rt,
        lines.highlight_line_within(alloc, "x\n", &set, &limits),
    );
    is_refused(
        &rt,
        lines.highlight_line_or_plain(alloc, "x\n", &set, &limits),
    );
    holds(&rt, lines.highlight_line(alloc, "y\n", &set).is_ok());
}

#[test]
fn lines_with_classes_that_restore(rt: HostRuntime) {
    let alloc = rt.alloc();
    let set = started_in_left(&rt, alloc, GRAMMAR);
    let repository = ScopeRepository::new(alloc);
    let mut page = ClassedHTMLGenerator::new_with_class_style(
        alloc,
        syntax_of(&rt, &set),
        &set,
        &repository,
        ClassStyle::Spaced,
    )
    .expect(&rt, "a generator");
    is_refused(&rt, page.parse_html_for_line_which_includes_newline("x\n"));
    is_refused_within(
        &rt,
        page.parse_html_for_line_which_includes_newline_within("x\n", &Limits::default()),
    );
}

/// A file of the syntax among the temporary ones.
fn cleared_file(rt: &(impl Env + Files + AllocGlobal + Abort)) -> PathBuf {
    let mut file = env::temp_dir(rt).expect(rt, "a folder");
    file.push("syntect.cleared").expect(rt, "memory");
    fs::write(rt, file.as_path(), "x\n").expect(rt, "a file");
    file
}

#[test]
fn pages_that_restore(rt: HostRuntime) {
    let alloc = rt.alloc();
    let set = started_in_left(&rt, alloc, GRAMMAR);
    let theme = Theme::default(alloc);
    let syntax = syntax_of(&rt, &set);
    is_refused(
        &rt,
        highlighted_html_for_string(alloc, "x\n", &set, syntax, &theme),
    );
    let bytes = "x\n".as_bytes();
    is_refused(
        &rt,
        highlighted_html_for_reader(alloc, bytes, &set, syntax, &theme),
    );
    let file = cleared_file(&rt);
    is_refused(
        &rt,
        highlighted_html_for_file(&rt, alloc, file.as_path(), &set, &theme),
    );
    fs::remove_file(&rt, file.as_path()).expect(&rt, "a file");
}

/// The answer of a buffer to such a line is the refusal, and the line stands there.
#[test]
fn buffered_lines_that_restore(rt: HostRuntime) {
    let alloc = rt.alloc();
    let set = started_in_left(&rt, alloc, GRAMMAR);
    let theme = Theme::default(alloc);
    let new = LineBuffer::new(alloc, syntax_of(&rt, &set), &set, &theme);
    let mut buffer = new.expect(&rt, "a buffer");
    let line = String::from_str(alloc, "x\n").expect(&rt, "memory");
    holds(&rt, buffer.insert_line(alloc, 0, line) == Ok(1));
    let count = buffer.len();
    assert!(rt; 0 < count);
    let answer = buffer.answer(0);
    holds(
        &rt,
        matches!(answer, LineAnswer::Refused(Error::ScopeError(_))),
    );
}
