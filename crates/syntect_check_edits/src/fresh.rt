//! A buffer compared with a new highlighter that is given all lines.
use crate::below::easy::Error;
use crate::below::easy::easy::HighlightLines;
use crate::below::easy::highlighting::{Style, Theme};
use crate::below::easy::parsing::{SyntaxReference, SyntaxSet};
use crate::text::Text;
use std::alloc::Global;
use std::ops::Range;
use syntect_buffer::answer::LineAnswer;

/// Whether ranges are those of pieces that follow one another from a line's start,
/// with their styles.
fn are_ranges(ranges: &[(Style, Range<usize>)], pieces: &[(Style, &str)]) -> bool {
    let mut start = 0usize;
    for ((style, range), (fresh, piece)) in ranges.iter().zip(pieces.iter()) {
        let end = start.saturating_add(piece.len());
        if range.start != start || range.end != end || *style != *fresh {
            return false;
        }
        start = end;
    }
    ranges.len() == pieces.len()
}

/// Whether a buffer's answer is that of a new highlighter.
fn is_same(answer: &LineAnswer, fresh: &Result<Vec<(Style, &str)>, Error>) -> bool {
    match (answer, fresh) {
        (LineAnswer::Pieces(ranges), Ok(pieces)) => {
            are_ranges(ranges.as_slice(), pieces.as_slice())
        }
        (LineAnswer::Refused(Error::ParsingError(kept)), Err(Error::ParsingError(fresh))) => {
            kept == fresh
        }
        _ => false,
    }
}

/// How many lines of a buffer are not those of the plain list, or have another answer than a new
/// highlighter gives to that list's lines. None without memory.
pub fn differences(
    alloc: Global,
    text: &Text<'_>,
    syntax: &SyntaxReference,
    set: &SyntaxSet,
    theme: &Theme,
) -> Option<usize> {
    let mut lines = HighlightLines::new(alloc, syntax, theme).ok()?;
    let count = text.buffer.len();
    let mut different = count.abs_diff(text.plain.len());
    for (place, line) in text.plain.iter().enumerate() {
        if place < count {
            let fresh = lines.highlight_line(alloc, line.as_str(), set);
            let same = text.buffer.line(place) == line.as_str()
                && is_same(text.buffer.answer(place), &fresh);
            different = different.saturating_add(usize::from(!same));
        }
    }
    Some(different)
}
