//! Edits that files of rows ask for: the answer to each has to be what comes after it.
use crate::below::base::utils::files_below;
use crate::below::check_queries::escapes::unescaped;
use crate::below::easy::highlighting::Theme;
use crate::below::easy::parsing::SyntaxSet;
use crate::given::{Edit, apply, buffer_of, set_and_theme};
use crate::states::Lines;
use std::alloc::Global;
use std::path::Path;
use std::rt::Files;
use std::{fs, io};
use syntect_buffer::buffer::LineBuffer;
use syntect_check_tables::row_file::{Part, body_of, label_of, parts_of};

/// The folder of the rows.
const EDITS: &str = "edits";

/// The edit that a line asks for.
fn edit_of(question: &str) -> Option<Edit<'_>> {
    let (word, rest) = question.split_once(' ')?;
    let (number, text) = rest.split_once(' ').unwrap_or((rest, ""));
    let place = number.parse::<usize>().ok()?;
    match word {
        "insert" => Some(Edit::Insert(place, text)),
        "set" => Some(Edit::Set(place, text)),
        "remove" => Some(Edit::Remove(place)),
        _ => None,
    }
}

/// Does the edit that a line asks for. Answers how many lines were read again.
fn reread(alloc: Global, buffer: &mut LineBuffer<'_>, question: &str) -> Option<usize> {
    let question = unescaped(alloc, question).ok()?;
    apply(alloc, buffer, edit_of(question.as_str())?).ok()
}

/// Adds the answer to a question: to an edit how many lines were read again, and to `lines` those
/// with their answers.
fn write_answer(
    alloc: Global,
    buffer: &mut LineBuffer<'_>,
    question: &str,
    out: &mut String,
) -> Option<()> {
    if question == "lines" {
        return write!(out, "{}", Lines(buffer)).ok();
    }
    let number = reread(alloc, buffer, question)?;
    write!(out, "{number}").ok()
}

/// Adds each line of a table with its answer: what stands before the last tab is asked.
fn write_edits(
    alloc: Global,
    buffer: &mut LineBuffer<'_>,
    body: &str,
    out: &mut String,
) -> Option<()> {
    for line in body.lines() {
        let question = match line.rsplit_once('\t') {
            Some((question, _)) => question,
            None => line,
        };
        out.push_str(question).ok()?;
        out.push('\t').ok()?;
        write_answer(alloc, buffer, question, out)?;
        out.push('\n').ok()?;
    }
    Some(())
}

/// The grammar of a row, and whether it is for lines with their newlines.
fn grammar_of<'a>(parts: &[Part<'a>]) -> Option<(&'a str, bool)> {
    match body_of(parts, "grammar") {
        Some(grammar) => Some((grammar, true)),
        None => Some((body_of(parts, "bare grammar")?, false)),
    }
}

/// Whether edits come out as they are written, one after another on a buffer
/// that begins without lines.
fn edits_hold(alloc: Global, body: &str, set: &SyntaxSet, theme: &Theme) -> Option<bool> {
    let mut buffer = buffer_of(alloc, set, theme)?;
    let mut out = String::new(alloc);
    write_edits(alloc, &mut buffer, body, &mut out)?;
    Some(out.as_str().strip_suffix('\n') == Some(body))
}

/// Whether the edits of a row come out as they are written.
fn row_holds(alloc: Global, text: &str) -> Option<bool> {
    let parts = parts_of(alloc, text)?;
    let (grammar, newlines) = grammar_of(parts.as_slice())?;
    let body = body_of(parts.as_slice(), "edits")?;
    let (set, theme) = set_and_theme(alloc, grammar, newlines)?;
    edits_hold(alloc, body, &set, &theme)
}

/// Runs the row of a file, and prints whether it comes out as it is written.
/// Answers whether it does.
fn run_file(rt: &(impl Print + AllocGlobal + Files), path: &str) -> io::Result<bool> {
    let text = fs::read_to_string(rt, path)?;
    let holds = row_holds(rt.alloc(), text.as_str()) == Some(true);
    let outcome = if holds { "ok" } else { "fails" };
    println!(rt; "row {} {outcome}", label_of(text.as_str()))?;
    Ok(holds)
}

/// Runs the rows of the files, in byte order of their names. Answers whether all come out as they
/// are written.
pub fn run_edit_rows(rt: &(impl Print + AllocGlobal + Files)) -> io::Result<bool> {
    let Ok(paths) = files_below(rt, rt.alloc(), Path::new(EDITS)) else {
        return Ok(false);
    };
    let mut all = true;
    for path in paths.as_slice() {
        all &= run_file(rt, path.as_str())?;
    }
    Ok(all)
}
