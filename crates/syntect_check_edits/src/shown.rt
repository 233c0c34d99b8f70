//! Edits of a buffer, each shown with what stood before it and what stands after it. Where an edit
//! answers that memory ran out, it is done once more.
use crate::below::easy::highlighting::Theme;
use crate::below::easy::parsing::SyntaxSet;
use crate::cases::{CASES, Case, LONG};
use crate::given::{Edit, apply, buffer_of, set_and_theme};
use crate::states::Lines;
use std::alloc::{AllocError, Global};
use std::io;
use syntect_buffer::buffer::LineBuffer;

/// Puts lines after the last. Answers whether there was memory.
fn fill_once(alloc: Global, buffer: &mut LineBuffer<'_>, lines: &[&str]) -> bool {
    for line in lines {
        let end = buffer.len();
        let Ok(line) = String::from_str(alloc, line) else {
            return false;
        };
        if buffer.insert_line(alloc, end, line).is_err() {
            return false;
        }
    }
    true
}

/// Puts lines after the last, so many times. Answers whether there was memory.
fn fill(alloc: Global, buffer: &mut LineBuffer<'_>, lines: &[&str], times: u32) -> bool {
    for _ in 0..times {
        if !fill_once(alloc, buffer, lines) {
            return false;
        }
    }
    true
}

/// What the buffers of the cases are made of.
fn givens_of(alloc: Global, cases: &[Case]) -> Option<Vec<(SyntaxSet, Theme)>> {
    let mut givens = Vec::new(alloc);
    for case in cases {
        givens.push(set_and_theme(alloc, case.grammar, true)?).ok()?;
    }
    Some(givens)
}

/// The buffer of a case, with its lines.
fn buffer_with<'a>(
    alloc: Global,
    case: &Case,
    set: &'a SyntaxSet,
    theme: &'a Theme,
) -> Option<LineBuffer<'a>> {
    let mut buffer = buffer_of(alloc, set, theme)?;
    if fill(alloc, &mut buffer, case.lines, case.times) {
        Some(buffer)
    } else {
        None
    }
}

/// The buffers of the cases, with their lines.
fn buffers_of<'a>(
    alloc: Global,
    cases: &[Case],
    givens: &'a [(SyntaxSet, Theme)],
) -> Option<Vec<LineBuffer<'a>>> {
    let mut buffers = Vec::new(alloc);
    for (case, (set, theme)) in cases.iter().zip(givens.iter()) {
        buffers.push(buffer_with(alloc, case, set, theme)?).ok()?;
    }
    Some(buffers)
}

/// Shows an edit, and if there is no memory for it, the same edit once more.
fn show_edit(
    rt: &(impl Print + AllocGlobal),
    buffer: &mut LineBuffer<'_>,
    edit: Edit<'_>,
) -> io::Result<()> {
    println!(rt; "lines {}", Lines(buffer))?;
    if !show_try(rt, buffer, edit)? {
        let _ = show_try(rt, buffer, edit)?;
    }
    Ok(())
}

/// Does an edit, and shows its answer and the buffer after it. Answers whether there was memory.
fn show_try(
    rt: &(impl Print + AllocGlobal),
    buffer: &mut LineBuffer<'_>,
    edit: Edit<'_>,
) -> io::Result<bool> {
    let answer = apply(rt.alloc(), buffer, edit);
    match answer {
        Ok(number) => println!(rt; "answer {number}")?,
        Err(AllocError) => println!(rt; "answer Memory")?,
    }
    println!(rt; "lines {}", Lines(buffer))?;
    Ok(answer.is_ok())
}

/// Shows the edit of each case on its buffer.
fn show_each(
    rt: &(impl Print + AllocGlobal),
    cases: &[Case],
    buffers: &mut [LineBuffer<'_>],
) -> io::Result<()> {
    for (case, buffer) in cases.iter().zip(buffers.iter_mut()) {
        println!(rt; "edit {}", case.name)?;
        show_edit(rt, buffer, case.edit)?;
    }
    Ok(())
}

/// Does some edits, or one of a text of as many lines as a block of the buffer has, and shows each.
/// Answers whether there was memory for what stands before them; else it shows nothing.
pub fn show_edits(rt: &(impl Print + AllocGlobal), long: bool) -> io::Result<bool> {
    let cases = if long { LONG } else { CASES.as_slice() };
    let Some(givens) = givens_of(rt.alloc(), cases) else {
        return Ok(false);
    };
    let Some(mut buffers) = buffers_of(rt.alloc(), cases, givens.as_slice()) else {
        return Ok(false);
    };
    show_each(rt, cases, buffers.as_mut_slice())?;
    Ok(true)
}
