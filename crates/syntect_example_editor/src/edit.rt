//! The lines of the input.
use std::alloc::{AllocError, Global};
use syntect::buffer::LineBuffer;
use thiserror::Error;

/// What is done with a line.
#[derive(Clone, Copy)]
pub enum Kind {
    Insert,
    Set,
    Remove,
}

/// An edit, with the text of its line, if it has one.
#[derive(Clone, Copy)]
pub struct Edit<'t> {
    pub kind: Kind,
    pub place: usize,
    pub text: &'t str,
}

/// What a line of the input asks for.
#[derive(Clone, Copy)]
pub enum Asked<'t> {
    Edit(Edit<'t>),
    Page,
}

/// Why nothing is done.
#[derive(Clone, Copy, Debug, Error)]
pub enum Refusal {
    /// A line begins with no word of an edit.
    #[error("UnknownEdit, there are insert N TEXT, set N TEXT, remove N and page")]
    UnknownEdit,
    /// The word is not followed by a number.
    #[error("NoNumber, a line's number has to follow")]
    NoNumber,
    /// There is no such line, and none can be put there.
    #[error("NoSuchLine, the text has {0} lines")]
    NoSuchLine(usize),
    /// The input is no text.
    #[error("NotText, the line is not UTF-8")]
    NotText,
    /// There was no memory.
    #[error("Memory, the text is as it was")]
    Memory,
}

impl From<AllocError> for Refusal {
    fn from(_: AllocError) -> Refusal {
        Refusal::Memory
    }
}

/// What a line of the input asks for.
pub fn asked_of(line: &str) -> Result<Asked<'_>, Refusal> {
    let (word, rest) = line.split_once(' ').unwrap_or((line, ""));
    let kind = match word {
        "insert" => Kind::Insert,
        "set" => Kind::Set,
        "remove" => Kind::Remove,
        "page" => return Ok(Asked::Page),
        _ => return Err(Refusal::UnknownEdit),
    };
    let (number, text) = rest.split_once(' ').unwrap_or((rest, ""));
    match number.parse::<usize>() {
        Ok(place) => Ok(Asked::Edit(Edit { kind, place, text })),
        Err(_) => Err(Refusal::NoNumber),
    }
}

/// A line with its newline.
fn line_of(alloc: Global, text: &str) -> Result<String, AllocError> {
    let mut line = String::from_str(alloc, text)?;
    line.push('\n')?;
    Ok(line)
}

/// Puts a line before the one at a place, or after the last.
fn insert(
    alloc: Global,
    buffer: &mut LineBuffer<'_>,
    place: usize,
    text: &str,
) -> Result<usize, Refusal> {
    let count = buffer.len();
    if place > count {
        return Err(Refusal::NoSuchLine(count));
    }
    Ok(buffer.insert_line(alloc, place, line_of(alloc, text)?)?)
}

/// Puts a line in place of another one.
fn set(
    alloc: Global,
    buffer: &mut LineBuffer<'_>,
    place: usize,
    text: &str,
) -> Result<usize, Refusal> {
    let count = buffer.len();
    if place >= count {
        return Err(Refusal::NoSuchLine(count));
    }
    Ok(buffer.set_line(alloc, place, line_of(alloc, text)?)?)
}

/// Takes a line out.
fn remove(alloc: Global, buffer: &mut LineBuffer<'_>, place: usize) -> Result<usize, Refusal> {
    let count = buffer.len();
    if place >= count {
        return Err(Refusal::NoSuchLine(count));
    }
    Ok(buffer.remove_line(alloc, place)?)
}

/// Does an edit, and answers how many lines were read again. What is refused leaves the
/// text as it is.
pub fn apply(alloc: Global, buffer: &mut LineBuffer<'_>, edit: Edit<'_>) -> Result<usize, Refusal> {
    let Edit { kind, place, text } = edit;
    match kind {
        Kind::Insert => insert(alloc, buffer, place, text),
        Kind::Set => set(alloc, buffer, place, text),
        Kind::Remove => remove(alloc, buffer, place),
    }
}
