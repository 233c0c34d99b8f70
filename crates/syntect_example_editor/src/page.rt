//! A text as HTML, from the answers that a buffer keeps.
use std::alloc::{AllocError, Global};
use std::ops::Range;
use syntect::buffer::{LineAnswer, LineBuffer};
use syntect::escape::push_escaped;
use syntect::highlighting::{Style, Theme};
use syntect::html::{
    IncludeBackground, append_highlighted_html_for_styled_line, start_highlighted_html_snippet,
};

/// The styled pieces of a line.
fn pieces_of<'t>(
    alloc: Global,
    line: &'t str,
    ranges: &[(Style, Range<usize>)],
) -> Result<Vec<(Style, &'t str)>, AllocError> {
    let mut pieces = Vec::with_capacity(alloc, ranges.len())?;
    for (style, range) in ranges {
        // the ranges of an answer lie in its line, between characters
        if let Some(text) = line.get(range.start..range.end) {
            pieces.push((*style, text))?;
        }
    }
    Ok(pieces)
}

/// Appends a line; a refused one, or one that reached a limit, without styles.
fn push_line(
    alloc: Global,
    line: &str,
    answer: &LineAnswer,
    behind: IncludeBackground,
    page: &mut String,
) -> Result<(), AllocError> {
    match answer {
        LineAnswer::Pieces(ranges) => {
            let pieces = pieces_of(alloc, line, ranges.as_slice())?;
            append_highlighted_html_for_styled_line(pieces.as_slice(), behind, page)
        }
        LineAnswer::Refused(_) | LineAnswer::LimitReached(_) => push_escaped(page, line),
    }
}

/// All lines as HTML.
pub fn page_of(
    alloc: Global,
    buffer: &LineBuffer<'_>,
    theme: &Theme,
) -> Result<String, AllocError> {
    let (mut page, color) = start_highlighted_html_snippet(alloc, theme)?;
    let behind = IncludeBackground::IfDifferent(color);
    for place in 0..buffer.len() {
        let (line, answer) = (buffer.line(place), buffer.answer(place));
        push_line(alloc, line, answer, behind, &mut page)?;
    }
    page.push_str("</pre>\n")?;
    Ok(page)
}
