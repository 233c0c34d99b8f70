//! `syntect_example_editor GRAMMARS THEME SYNTAX` edits a text in a syntax of the folder's
//! grammars. Its input has an edit in each line, and it prints of each which lines were read again.
//! Lines are counted from 0:
//!
//! - `insert N TEXT` puts a line before line N, or after the last;
//! - `set N TEXT` puts a line in place of line N;
//! - `remove N` takes line N out;
//! - `page` prints the text as HTML.
//!
//! What is none of these, or names no line, is refused in one line, and the text stays as it is.
#![tactic(auto)]

mod edit;
mod loading;
mod page;

use crate::edit::{Asked, Edit, Refusal, apply, asked_of};
use crate::loading::{set_of, theme_of};
use crate::page::page_of;
use std::process::ExitCode;
use std::rt::Files;
use std::{env, io};
use syntect::buffer::LineBuffer;
use syntect::highlighting::Theme;
use syntect::parsing::{ScopeRepository, SyntaxReference, SyntaxSet};

fn main(rt: HostRuntime) -> io::Result<ExitCode> {
    let words: Vec<String> = env::args(&rt)?.skip(1).collect(rt.alloc())?;
    match words.as_slice() {
        [folder, theme, name] => open(&rt, folder.as_str(), theme.as_str(), name.as_str()),
        _ => fail(
            &rt,
            2,
            "usage: syntect_example_editor GRAMMARS THEME SYNTAX",
        ),
    }
}

/// Says why there is nothing to edit.
fn fail(rt: &impl Eprint, status: u8, why: &str) -> io::Result<ExitCode> {
    eprintln!(rt; "{why}")?;
    Ok(ExitCode::from(status))
}

/// Why there is no set or no theme.
const NOT_LOADED: &str = "syntect_example_editor: the grammars or the theme do not load";

/// Loads the grammars and the theme, and edits a text.
fn open(
    rt: &(impl Print + Eprint + Input + AllocGlobal + Files),
    folder: &str,
    theme: &str,
    name: &str,
) -> io::Result<ExitCode> {
    let mut repository = ScopeRepository::new(rt.alloc());
    let Some(set) = set_of(rt, rt.alloc(), folder, &mut repository) else {
        return fail(rt, 1, NOT_LOADED);
    };
    match theme_of(rt, rt.alloc(), theme, &mut repository) {
        Some(theme) => edit_in(rt, name, &set, &theme),
        None => fail(rt, 1, NOT_LOADED),
    }
}

/// Edits a text in the syntax of a name.
fn edit_in(
    rt: &(impl Print + Eprint + Input + AllocGlobal),
    name: &str,
    set: &SyntaxSet,
    theme: &Theme,
) -> io::Result<ExitCode> {
    match set.find_syntax_by_name(name) {
        Some(syntax) => edit_all(rt, syntax, set, theme),
        None => fail(rt, 1, "syntect_example_editor: no grammar has this name"),
    }
}

/// Does the edits of the input on a text without lines.
fn edit_all(
    rt: &(impl Print + Eprint + Input + AllocGlobal),
    syntax: &SyntaxReference,
    set: &SyntaxSet,
    theme: &Theme,
) -> io::Result<ExitCode> {
    match LineBuffer::new(rt.alloc(), syntax, set, theme) {
        Ok(mut buffer) => take_lines(rt, &mut buffer, theme),
        Err(_) => fail(
            rt,
            1,
            "syntect_example_editor: no text begins in this syntax",
        ),
    }
}

/// Does what the lines of the input ask for.
fn take_lines(
    rt: &(impl Print + Input + AllocGlobal),
    buffer: &mut LineBuffer<'_>,
    theme: &Theme,
) -> io::Result<ExitCode> {
    for line in rt.lines(rt.alloc()) {
        take_line(rt, buffer, theme, line)?;
    }
    Ok(ExitCode::SUCCESS)
}

/// Does what a line of the input asks for, where it is text.
fn take_line(
    rt: &(impl Print + AllocGlobal),
    buffer: &mut LineBuffer<'_>,
    theme: &Theme,
    line: io::Result<String>,
) -> io::Result<()> {
    match line {
        Ok(line) => do_asked(rt, buffer, theme, line.as_str()),
        Err(e) => refuse_line(rt, e),
    }
}

/// Says that a line is no text, where that is why it was not read.
fn refuse_line(rt: &impl Print, e: io::Error) -> io::Result<()> {
    if matches!(e.kind(), io::ErrorKind::InvalidData) {
        refuse(rt, Refusal::NotText)
    } else {
        Err(e)
    }
}

/// Does what a line asks for.
fn do_asked(
    rt: &(impl Print + AllocGlobal),
    buffer: &mut LineBuffer<'_>,
    theme: &Theme,
    line: &str,
) -> io::Result<()> {
    match asked_of(line) {
        Ok(Asked::Page) => print_page(rt, buffer, theme),
        Ok(Asked::Edit(edit)) => do_edit(rt, buffer, edit),
        Err(refusal) => refuse(rt, refusal),
    }
}

/// Does an edit, and says what came of it.
fn do_edit(
    rt: &(impl Print + AllocGlobal),
    buffer: &mut LineBuffer<'_>,
    edit: Edit<'_>,
) -> io::Result<()> {
    match apply(rt.alloc(), buffer, edit) {
        Ok(number) => print_number(rt, edit.place, number),
        Err(refusal) => refuse(rt, refusal),
    }
}

/// Says how many lines were read again, from which one on.
fn print_number(rt: &impl Print, place: usize, number: usize) -> io::Result<()> {
    match number {
        0 => println!(rt; "no line read again"),
        1 => println!(rt; "1 line read again: {place}"),
        _ => println!(rt; "{number} lines read again, from {place} on"),
    }
}

/// Says why nothing was done.
fn refuse(rt: &impl Print, refusal: Refusal) -> io::Result<()> {
    println!(rt; "refused: {refusal}")
}

/// Prints the text as HTML.
fn print_page(
    rt: &(impl Print + AllocGlobal),
    buffer: &LineBuffer<'_>,
    theme: &Theme,
) -> io::Result<()> {
    match page_of(rt.alloc(), buffer, theme) {
        Ok(page) => print!(rt; "{page}"),
        Err(_) => refuse(rt, Refusal::Memory),
    }
}
