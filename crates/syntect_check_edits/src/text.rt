//! A text that is edited twice: as a buffer, and as a plain list of its lines.
use crate::random::Random;
use std::alloc::{AllocError, Global};
use syntect_buffer::buffer::LineBuffer;

/// The text.
#[derive(Drop)]
pub struct Text<'a> {
    pub buffer: LineBuffer<'a>,
    pub plain: Vec<String>,
}

/// Puts a line before the one at a place, or after the last.
/// Answers how many lines were read again.
pub fn insert(
    alloc: Global,
    text: &mut Text<'_>,
    place: usize,
    line: &str,
) -> Result<usize, AllocError> {
    let (count, lines) = (text.buffer.len(), text.plain.len());
    if place > count || place > lines {
        return Ok(0);
    }
    text.plain.insert(place, String::from_str(alloc, line)?)?;
    text.buffer
        .insert_line(alloc, place, String::from_str(alloc, line)?)
}

/// Puts a line in place of another one.
pub fn set(
    alloc: Global,
    text: &mut Text<'_>,
    place: usize,
    line: &str,
) -> Result<usize, AllocError> {
    let (count, lines) = (text.buffer.len(), text.plain.len());
    if place >= count || place >= lines {
        return Ok(0);
    }
    text.plain[place] = String::from_str(alloc, line)?;
    text.buffer
        .set_line(alloc, place, String::from_str(alloc, line)?)
}

/// Takes a line out.
pub fn remove(alloc: Global, text: &mut Text<'_>, place: usize) -> Result<usize, AllocError> {
    let (count, lines) = (text.buffer.len(), text.plain.len());
    if place >= count || place >= lines {
        return Ok(0);
    }
    let _ = text.plain.remove(place);
    text.buffer.remove_line(alloc, place)
}

/// A line to be put in: one of these, or the front of one, with a newline after it.
fn random_line<'t>(random: &mut Random, lines: &[&'t str]) -> (&'t str, bool) {
    let count = lines.len();
    if count == 0 {
        return ("", true);
    }
    let line = lines[random.below(count)];
    if random.below(2) == 0 {
        return (line, false);
    }
    let end = random.below(line.len().saturating_add(1));
    match line.get(..end) {
        Some(front) => (front.trim_end_matches('\n'), true),
        None => (line, false),
    }
}

/// A line like these that looks random.
fn random_text(alloc: Global, random: &mut Random, lines: &[&str]) -> Result<String, AllocError> {
    let (line, cut) = random_line(random, lines);
    let mut line = String::from_str(alloc, line)?;
    if cut {
        line.push('\n')?;
    }
    Ok(line)
}

/// Does an edit that looks random, with a line like these. Answers how many lines were read again.
pub fn edit(
    alloc: Global,
    text: &mut Text<'_>,
    random: &mut Random,
    lines: &[&str],
) -> Result<usize, AllocError> {
    let line = random_text(alloc, random, lines)?;
    let count = text.buffer.len();
    let place = random.below(count.saturating_add(1));
    match random.below(3) {
        0 => insert(alloc, text, place, line.as_str()),
        1 => set(alloc, text, place, line.as_str()),
        _ => remove(alloc, text, place),
    }
}
