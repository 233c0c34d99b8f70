//! How long edits take, compared with a new highlighter that is given all lines.
use crate::below::easy::easy::HighlightLines;
use crate::below::easy::highlighting::Theme;
use crate::below::easy::parsing::{SyntaxReference, SyntaxSet};
use std::alloc::AllocError;
use std::io;
use std::rt::Clock;
use std::time::Instant;
use syntect_buffer::buffer::LineBuffer;

/// An edit at a line.
#[derive(Clone, Copy)]
pub enum Edit<'t> {
    Set(&'t str),
    Insert(&'t str),
    Remove,
}

/// What an edit took: nanoseconds, and lines that were read again.
#[derive(Clone, Copy)]
struct Took {
    nanos: u64,
    read: usize,
}

/// The time since a start, in nanoseconds.
fn since(rt: &impl Clock, start: Instant) -> io::Result<u64> {
    let elapsed = start.elapsed(rt)?.as_nanos();
    Ok(u64::try_from(elapsed).unwrap_or(u64::MAX))
}

/// Does an edit, if there is such a line, and times it.
fn timed(
    rt: &(impl AllocGlobal + Clock),
    buffer: &mut LineBuffer<'_>,
    place: usize,
    edit: Edit<'_>,
) -> io::Result<Took> {
    let alloc = rt.alloc();
    let text = match edit {
        Edit::Set(text) | Edit::Insert(text) => text,
        Edit::Remove => "",
    };
    let line = String::from_str(alloc, text)?;
    let count = buffer.len();
    if place >= count {
        return Ok(Took { nanos: 0, read: 0 });
    }
    let start = Instant::now(rt)?;
    let read = match edit {
        Edit::Set(_) => buffer.set_line(alloc, place, line),
        Edit::Insert(_) => buffer.insert_line(alloc, place, line),
        Edit::Remove => buffer.remove_line(alloc, place),
    };
    let nanos = since(rt, start)?;
    Ok(Took { nanos, read: read? })
}

/// Prints times in microseconds, the least, the middle one and the greatest.
fn print_times(rt: &impl Print, name: &str, times: &mut Vec<u64>, read: usize) -> io::Result<()> {
    times.sort()?;
    let at = |place: usize| times.get(place).copied().unwrap_or(0);
    let (least, median) = (at(0) / 1000, at(times.len() / 2) / 1000);
    let most = at(times.len().saturating_sub(1)) / 1000;
    println!(rt;
        "{name}: least {least} us, median {median} us, most {most} us, lines read again {read}"
    )
}

/// Does an edit, and adds the time that it took. Answers how many lines it read again.
fn add_time(
    rt: &(impl AllocGlobal + Clock),
    buffer: &mut LineBuffer<'_>,
    place: usize,
    edit: Edit<'_>,
    times: &mut Vec<u64>,
) -> io::Result<usize> {
    let took = timed(rt, buffer, place, edit)?;
    times.push(took.nanos)?;
    Ok(took.read)
}

/// Times two edits that undo each other, so many rounds, and prints how long each took and how many
/// lines it read again in the last round.
pub fn time_pair(
    rt: &(impl Print + AllocGlobal + Clock),
    buffer: &mut LineBuffer<'_>,
    place: usize,
    (name, edit): (&str, Edit<'_>),
    (back_name, back): (&str, Edit<'_>),
    rounds: u32,
) -> io::Result<()> {
    let (mut times, mut back_times) = (Vec::new(rt.alloc()), Vec::new(rt.alloc()));
    let (mut read, mut back_read) = (0, 0);
    for _ in 0..rounds {
        read = add_time(rt, buffer, place, edit, &mut times)?;
        back_read = add_time(rt, buffer, place, back, &mut back_times)?;
    }
    print_times(rt, name, &mut times, read)?;
    print_times(rt, back_name, &mut back_times, back_read)
}

/// Puts lines after the last, and prints how long that takes.
pub fn time_filling(
    rt: &(impl Print + AllocGlobal + Clock),
    buffer: &mut LineBuffer<'_>,
    lines: &[&str],
) -> io::Result<()> {
    let start = Instant::now(rt)?;
    for line in lines {
        let end = buffer.len();
        let line = String::from_str(rt.alloc(), line)?;
        let _ = buffer.insert_line(rt.alloc(), end, line)?;
    }
    let (count, micros) = (lines.len(), since(rt, start)? / 1000);
    println!(rt; "{count} lines put in: {micros} us")
}

/// Gives lines to a new highlighter. None where one is refused.
fn run(
    rt: &impl AllocGlobal,
    lines: &[&str],
    (syntax, set, theme): (&SyntaxReference, &SyntaxSet, &Theme),
) -> Option<usize> {
    let mut fresh = HighlightLines::new(rt.alloc(), syntax, theme).ok()?;
    let mut count = 0usize;
    for line in lines {
        let pieces = fresh.highlight_line(rt.alloc(), *line, set).ok()?;
        count = count.saturating_add(pieces.len());
    }
    Some(count)
}

/// Prints how long a new highlighter takes for lines.
pub fn time_fresh(
    rt: &(impl Print + AllocGlobal + Clock),
    lines: &[&str],
    given: (&SyntaxReference, &SyntaxSet, &Theme),
) -> io::Result<()> {
    let start = Instant::now(rt)?;
    let pieces = run(rt, lines, given).unwrap_or(0);
    let micros = since(rt, start)? / 1000;
    println!(rt; "a new highlighter: {micros} us, {pieces} pieces")
}
