//! Pieces of a line as C gets them.
ghost use Rattle.std.specs.Prelude.{◌≡◌, ◌<◌, ◌^◌, ◌*◌, ◌+◌, IfOk};
ghost use Rattle.syntect_c.specs.Spans.{all_bytes, color_number, span_at, spans_from};

use std::alloc::{AllocError, Global};
use syntect_assets::below::theme::style::{Color, Style};

/// A piece of a line: where it stands, and its style.
#[repr(C)]
#[derive(Clone, Copy)]
pub struct Span {
    /// The place of its first byte in the line.
    pub offset: usize,
    /// How many bytes it has.
    pub length: usize,
    /// The colour of its text, a byte each for red, green, blue and how opaque it is, the first the
    /// highest.
    pub foreground: u32,
    /// The colour behind it.
    pub background: u32,
    /// What its font is: 1 for bold, 2 for underlined and 4 for italic, added.
    pub flags: u32,
}

/// A colour in one number.
fn number_of(color: Color) -> u32
    ensures { result ≡ color_number color }
{
    let (red, green) = (color.r as u32 * 0x100_0000, color.g as u32 * 0x1_0000);
    red + green + color.b as u32 * 0x100 + color.a as u32
}

/// The span of a piece at a place.
fn span_of(style: Style, offset: usize, length: usize) -> Span
    ensures { result ≡ span_at style offset length }
{
    Span {
        offset,
        length,
        foreground: number_of(style.foreground),
        background: number_of(style.background),
        flags: style.font_style.bits() as u32,
    }
}

/// The spans of pieces that follow one another in a line.
pub fn spans_of(alloc: Global, pieces: &[(Style, &str)]) -> Result<Vec<Span>, AllocError>
    ensures { IfOk result (λ spans. all_bytes pieces.now < 2 ^ 64
        → spans.items ≡ spans_from 0 pieces.now) }
{
    let mut spans = Vec::with_capacity(alloc, pieces.len())?;
    let mut offset = 0usize;
    for (style, piece) in pieces {
        spans.push(span_of(*style, offset, piece.len()))?;
        // pieces of a line don't reach past its end, so that nothing is cut off here
        offset = offset.saturating_add(piece.len());
    }
    Ok(spans)
}
