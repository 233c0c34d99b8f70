//! What a buffer holds, written in one line.
use crate::below::easy::Error;
use crate::below::easy::highlighting::Style;
use crate::below::easy::parsing::ParsingError;
use std::fmt;
use std::ops::Range;
use syntect_buffer::answer::LineAnswer;
use syntect_buffer::buffer::LineBuffer;

/// The lines of a buffer without their newlines, each in brackets with its answer. Written without
/// memory of its own.
#[derive(Clone, Copy)]
pub struct Lines<'b, 'a>(pub &'b LineBuffer<'a>);

/// Writes styled ranges: the bytes of each and its foreground.
fn write_pieces<W: fmt::Write>(
    f: &mut fmt::Formatter<W>,
    pieces: &[(Style, Range<usize>)],
) -> fmt::Result {
    for (style, range) in pieces {
        let (start, end) = (range.start, range.end);
        let color = style.foreground;
        let (r, g, b) = (color.r, color.g, color.b);
        write!(f, " {start}..{end} {r:02x}{g:02x}{b:02x}")?;
    }
    Ok(())
}

/// Writes the answer to a line.
fn write_answer<W: fmt::Write>(f: &mut fmt::Formatter<W>, answer: &LineAnswer) -> fmt::Result {
    match answer {
        LineAnswer::Pieces(pieces) => write_pieces(f, pieces.as_slice()),
        LineAnswer::Refused(Error::ParsingError(ParsingError::UnresolvedContextReference(_))) => {
            f.write_str(" unresolved")
        }
        LineAnswer::Refused(_) => f.write_str(" refused"),
        LineAnswer::LimitReached(_) => f.write_str(" limited"),
    }
}

impl fmt::Display for Lines<'_, '_> {
    ghost use Rattle.std.specs.Prelude.{None};

    ghost output = { λ _. None };

    fn fmt<W: fmt::Write>(&self, f: &mut fmt::Formatter<W>) -> fmt::Result {
        let buffer = self.0;
        for place in 0..buffer.len() {
            f.write_str(if place > 0 { " [" } else { "[" })?;
            f.write_str(buffer.line(place).trim_end_matches('\n'))?;
            write_answer(f, buffer.answer(place))?;
            f.write_str("]")?;
        }
        Ok(())
    }
}
