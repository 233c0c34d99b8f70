//! Styled pieces for a screen: with the flags of their fonts, in 24 bit colours or those of a
//! palette of 256, and with the screen's own colours behind them.
ghost use Rattle.std.specs.Prelude.{◌≡◌, ◌++◌, ◌≤◌, ◌<◌, OnOk, codes, string_bytes};
ghost use Rattle.syntect_assets.specs.Screen as screen;

use crate::below::theme::style::{Color, FontStyle, Style};
use crate::below::writers::terminal::{blend, decimal};
use crate::format::Colors;
use std::alloc::AllocError;

/// The level of the palette's cube nearest to a part of a colour.
fn level(part: u8) -> u32
    ensures value { result ≡ screen.level part }
    ensures bound { result ≤ 5 }
{
    if part < 48 {
        0
    } else if part < 115 {
        1
    } else {
        (u32::from(part) - 35) / 40
    }
}

/// The part of a level.
fn part_of(level: u32) -> u32
    requires { level ≤ 5 }
    ensures value { result ≡ screen.part_of level }
    ensures bound { result ≤ 255 }
{
    if level == 0 { 0 } else { 55 + 40 * level }
}

/// The gray nearest to a part.
fn gray(part: u32) -> u32
    requires { part ≤ 255 }
    ensures value { result ≡ screen.gray part }
    ensures bound { result ≤ 23 }
{
    if part < 8 {
        0
    } else if part > 238 {
        23
    } else {
        (part - 3) / 10
    }
}

/// The square of how far two parts are from each other.
fn square(a: u32, b: u32) -> u32
    requires first { a ≤ 255 }
    requires second { b ≤ 255 }
    ensures value { result ≡ screen.square a b }
    ensures bound { result ≤ 65025 }
{
    if a <= b {
        (b - a) * (b - a)
    } else {
        (a - b) * (a - b)
    }
}

/// How far a colour is from the one with these parts.
fn distance(color: Color, r: u32, g: u32, b: u32) -> u32
    requires red { r ≤ 255 }
    requires green { g ≤ 255 }
    requires blue { b ≤ 255 }
    ensures { result ≡ screen.distance color r g b }
{
    square(u32::from(color.r), r) + square(u32::from(color.g), g) + square(u32::from(color.b), b)
}

/// The colour's number in the palette of 256.
pub fn number_of(color: Color) -> u8
    ensures { result ≡ screen.number_of color }
{
    let sum = u32::from(color.r) + u32::from(color.g) + u32::from(color.b);
    let gray = gray(sum / 3);
    let shade = 8 + 10 * gray;
    let (r, g, b) = (level(color.r), level(color.g), level(color.b));
    let far = distance(color, part_of(r), part_of(g), part_of(b));
    if distance(color, shade, shade, shade) < far {
        (232 + gray) as u8
    } else {
        (16 + 36 * r + 6 * g + b) as u8
    }
}

/// Appends the parameters of the font's flags.
fn push_flags(out: &mut String, font: FontStyle) -> Result<(), AllocError>
    ensures { OnOk result (string_bytes out.new ≡ string_bytes out.old ++ screen.flags font) }
{
    if font.contains(FontStyle::BOLD) {
        out.push_str(";1")?;
    }
    if font.contains(FontStyle::ITALIC) {
        out.push_str(";3")?;
    }
    if font.contains(FontStyle::UNDERLINE) {
        out.push_str(";4")?;
    }
    Ok(())
}

/// Appends the parameters of a colour.
fn push_colour(out: &mut String, colors: Colors, color: Color) -> Result<(), AllocError>
    ensures { OnOk result (string_bytes out.new
        ≡ string_bytes out.old ++ screen.colour colors color) }
{
    match colors {
        Colors::Bits24 => {
            out.push_str(";38;2;")?;
            out.push_str(decimal(color.r))?;
            out.push_str(";")?;
            out.push_str(decimal(color.g))?;
            out.push_str(";")?;
            out.push_str(decimal(color.b))
        }
        Colors::Palette256 => {
            out.push_str(";38;5;")?;
            out.push_str(decimal(number_of(color)))
        }
    }
}

/// Appends a piece.
fn push_piece(out: &mut String, colors: Colors, style: Style, text: &str) -> Result<(), AllocError>
    ensures { OnOk result (string_bytes out.new
        ≡ string_bytes out.old ++ screen.screen_piece colors (style, text.entry)) }
{
    out.push_str("\x1b[0")?;
    push_flags(out, style.font_style)?;
    push_colour(out, colors, blend(style.foreground, style.background))?;
    out.push_str("m")?;
    out.push_str(text)
}

/// Appends styled pieces, each with the flags of its font and its colour; what isn't opaque is
/// shown over the colour behind it. Without memory a part of them may have been put there.
pub fn push_screen_text(
    out: &mut String,
    colors: Colors,
    pieces: &[(Style, &str)],
) -> Result<(), AllocError>
    ensures { OnOk result (string_bytes out.new
        ≡ string_bytes out.old ++ screen.screen_text colors pieces.now) }
{
    for (style, text) in pieces {
        push_piece(out, colors, *style, *text)?;
    }
    Ok(())
}
