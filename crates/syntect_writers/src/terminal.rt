//! Text for terminals.
ghost use Rattle.std.specs.Prelude.{◌≡◌, ◌++◌, string_bytes, codes, IfOk, OnOk};
ghost use Rattle.syntect_writers.specs.Terminal.{blended_part, blended, sequence, piece_text, terminal_text};

pub use crate::bytes::decimal;
use std::alloc::{AllocError, Global};
use syntect_theme::style::{Color, Style};

/// A part of a colour over that of another.
fn blend_part(opaque: u8, over: u8, under: u8) -> u8
    ensures { result ≡ blended_part opaque over under }
{
    let opaque = u32::from(opaque);
    let sum = u32::from(over) * opaque + u32::from(under) * (255 - opaque);
    (sum / 255) as u8
}

/// A colour over another, opaque.
pub fn blend(over: Color, under: Color) -> Color
    ensures { result ≡ blended over under }
{
    if over.a == 255 {
        return over;
    }
    Color {
        r: blend_part(over.a, over.r, under.r),
        g: blend_part(over.a, over.g, under.g),
        b: blend_part(over.a, over.b, under.b),
        a: 255,
    }
}

/// Appends the escape sequence of a colour.
fn push_sequence(out: &mut String, number: &str, color: Color) -> Result<(), AllocError>
    ensures { OnOk result (string_bytes out.new
        ≡ string_bytes out.old ++ sequence number.now color) }
{
    out.push_str("\x1b[")?;
    out.push_str(number)?;
    out.push_str(";2;")?;
    out.push_str(decimal(color.r))?;
    out.push_str(";")?;
    out.push_str(decimal(color.g))?;
    out.push_str(";")?;
    out.push_str(decimal(color.b))?;
    out.push_str("m")?;
    Ok(())
}

/// Appends a piece.
fn push_piece(out: &mut String, style: Style, text: &str, bg: bool) -> Result<(), AllocError>
    ensures { OnOk result (string_bytes out.new
        ≡ string_bytes out.old ++ piece_text bg (style, text.entry)) }
{
    if bg {
        push_sequence(out, "48", style.background)?;
    }
    push_sequence(out, "38", blend(style.foreground, style.background))?;
    out.push_str(text)
}

/// Puts styled pieces last, as `as_24_bit_terminal_escaped` shows them. Without memory a part of
/// them may have been put there.
pub fn push_24_bit_terminal_escaped(
    out: &mut String,
    v: &[(Style, &str)],
    bg: bool,
) -> Result<(), AllocError>
    ensures { OnOk result (string_bytes out.new ≡ string_bytes out.old ++ terminal_text bg v.now) }
{
    for (style, text) in v {
        push_piece(out, *style, *text, bg)?;
    }
    Ok(())
}

/// Styled pieces with the escape sequences of a terminal that has 24 bit colours; `bg` asks for the
/// colours behind the text as well. What is not opaque is shown over the colour behind it. Nothing
/// is put back to the terminal's own colours at the end.
pub fn as_24_bit_terminal_escaped(
    alloc: Global,
    v: &[(Style, &str)],
    bg: bool,
) -> Result<String, AllocError>
    ensures { IfOk result (λ t. string_bytes t ≡ terminal_text bg v.now) }
{
    let mut out = String::new(alloc);
    push_24_bit_terminal_escaped(&mut out, v, bg)?;
    Ok(out)
}
