//! HTML with inline styles.
ghost use Rattle.std.specs.Prelude.{◌≡◌, ◌++◌, string_bytes, codes, IfOk, OnOk, OnErr};
ghost use Rattle.syntect_writers.specs.Spans.{rgb_digits, rgb_text, color_digits, flags_text, same_color, same_style, tells_background, asked_for, color_property, background_text, open_tag, is_blank, joins_span, line_text, opening, background_of};
ghost use Rattle.syntect_theme.specs.Modifying.{bits_of};

use crate::bytes::hex_pair;
use crate::spans::SpanWriter;
use crate::tail::Tail;
use std::alloc::{AllocError, Global};
use std::mem::replace;
use syntect_theme::style::{Color, FontStyle, Style};
use syntect_theme::theme::Theme;

/// Whether spans give the colour behind their text.
#[derive(Clone, Copy, Debug, PartialEq, Eq)]
pub enum IncludeBackground {
    /// Spans don't give it.
    No,
    /// Spans give it.
    Yes,
    /// Spans give it where it is another colour than this one, which stands behind all of them.
    IfDifferent(Color),
}

/// Appends the digits of a colour, without how opaque it is.
#[tactic(auto, using(crate::proofs::SpanLaws::three_joined))]
fn push_rgb_digits(out: &mut Tail, color: Color) -> Result<(), AllocError>
    ensures front { out.new.front ≡ out.old.front }
    ensures back { OnOk result (out.new.back ≡ out.old.back ++ rgb_digits color) }
{
    out.push_str(hex_pair(color.r))?;
    out.push_str(hex_pair(color.g))?;
    out.push_str(hex_pair(color.b))?;
    Ok(())
}

/// Appends a colour as CSS has it, without how opaque it is.
fn put_rgb(out: &mut Tail, color: Color) -> Result<(), AllocError>
    ensures front { out.new.front ≡ out.old.front }
    ensures back { OnOk result (out.new.back ≡ out.old.back ++ rgb_text color) }
{
    out.push_str("#")?;
    push_rgb_digits(out, color)
}

/// Appends a colour as CSS has it, without how opaque it is. Without memory the text is as it was.
pub fn push_rgb(out: &mut String, color: Color) -> Result<(), AllocError>
    ensures text { OnOk result (string_bytes out.new ≡ string_bytes out.old ++ rgb_text color) }
    ensures err { OnErr result (string_bytes out.new ≡ string_bytes out.old) }
{
    let mut tail = Tail::behind(replace(out, String::new(*out.allocator())));
    match put_rgb(&mut tail, color) {
        Ok(()) => {
            *out = tail.into_text();
            Ok(())
        }
        Err(e) => {
            *out = tail.into_front();
            Err(e)
        }
    }
}

/// Appends the digits of a colour.
fn push_digits(out: &mut Tail, color: Color) -> Result<(), AllocError>
    ensures front { out.new.front ≡ out.old.front }
    ensures back { OnOk result (out.new.back ≡ out.old.back ++ color_digits color) }
{
    push_rgb_digits(out, color)?;
    if color.a != 255 {
        out.push_str(hex_pair(color.a))?;
    }
    Ok(())
}

/// Whether two colours are the same.
fn same_color(left: Color, right: Color) -> bool
    ensures { result ≡ same_color left right }
{
    left.r == right.r && left.g == right.g && left.b == right.b && left.a == right.a
}

/// Whether two styles are the same.
pub(crate) fn same_style(left: Style, right: Style) -> bool
    ensures { result ≡ same_style left right }
{
    same_color(left.foreground, right.foreground)
        && same_color(left.background, right.background)
        && left.font_style.bits() == right.font_style.bits()
}

/// Whether a span of this style gives the colour behind its text.
fn tells_background(bg: IncludeBackground, style: Style) -> bool
    ensures { result ≡ tells_background bg style }
{
    match bg {
        IncludeBackground::No => false,
        IncludeBackground::Yes => true,
        IncludeBackground::IfDifferent(color) => !same_color(style.background, color),
    }
}

/// Appends the text, if it is asked for.
#[tactic(auto, unfolding(crate::specs::Spans::asked_for))]
fn push_if(out: &mut Tail, asked: bool, text: &str) -> Result<(), AllocError>
    ensures front { out.new.front ≡ out.old.front }
    ensures back { OnOk result (out.new.back ≡ out.old.back ++ asked_for asked text.now) }
{
    if asked {
        out.push_str(text)?;
    }
    Ok(())
}

/// Appends the colour behind a text.
fn push_ground(out: &mut Tail, color: Color) -> Result<(), AllocError>
    ensures front { out.new.front ≡ out.old.front }
    ensures back { OnOk result (out.new.back
        ≡ out.old.back ++ color_property (codes "background-color:") color) }
{
    out.push_str("background-color:#")?;
    push_digits(out, color)?;
    out.push_str(";")?;
    Ok(())
}

/// Appends the colour behind a text, if it is written.
#[tactic(auto, unfolding(crate::specs::Spans::background_text, crate::specs::Spans::asked_for))]
fn push_background(out: &mut Tail, bg: IncludeBackground, style: Style) -> Result<(), AllocError>
    ensures front { out.new.front ≡ out.old.front }
    ensures back { OnOk result (out.new.back ≡ out.old.back ++ background_text bg style) }
{
    if tells_background(bg, style) {
        push_ground(out, style.background)?;
    }
    Ok(())
}

/// Appends the flags of a font, as CSS has them.
#[tactic(auto, using(crate::proofs::SpanLaws::three_joined), unfolding(crate::specs::Spans::flags_text))]
fn push_flags(out: &mut Tail, font: FontStyle) -> Result<(), AllocError>
    ensures front { out.new.front ≡ out.old.front }
    ensures back { OnOk result (out.new.back ≡ out.old.back ++ flags_text (bits_of font)) }
{
    let bits = font.bits();
    push_if(out, bits & 2 == 2, "text-decoration:underline;")?;
    push_if(out, bits & 1 == 1, "font-weight:bold;")?;
    push_if(out, bits & 4 == 4, "font-style:italic;")?;
    Ok(())
}

/// Whether the text is white space alone.
fn is_blank(text: &str) -> bool
    ensures { result ≡ is_blank text.now }
{
    text.chars().all(|c| c.is_whitespace())
}

/// Whether a piece goes into the span of this style.
pub(crate) fn joins_span(before: Style, style: Style, text: &str) -> bool
    ensures { result ≡ joins_span before (style, text.now) }
{
    same_style(style, before) || (same_color(style.background, before.background) && is_blank(text))
}

/// Appends the tag that opens a span of a style.
pub(crate) fn push_tag(
    out: &mut Tail,
    bg: IncludeBackground,
    style: Style,
) -> Result<(), AllocError>
    ensures front { out.new.front ≡ out.old.front }
    ensures back { OnOk result (out.new.back ≡ out.old.back ++ open_tag bg style) }
{
    out.push_str("<span style=\"")?;
    push_background(out, bg, style)?;
    push_flags(out, style.font_style)?;
    out.push_str("color:#")?;
    push_digits(out, style.foreground)?;
    out.push_str(";\">")?;
    Ok(())
}

/// Appends a line of styled pieces, as spans with inline styles. A piece of white space goes into
/// the span before it where the colour behind it is the same. Without memory the text is as it was.
pub fn append_highlighted_html_for_styled_line(
    v: &[(Style, &str)],
    bg: IncludeBackground,
    s: &mut String,
) -> Result<(), AllocError>
    ensures ok { OnOk result (string_bytes s.new ≡ string_bytes s.old ++ line_text bg v.now) }
    ensures err { OnErr result (string_bytes s.new ≡ string_bytes s.old) }
{
    SpanWriter::of_one_line(*s.allocator(), bg).append(v, s)
}

/// A line of styled pieces as spans with inline styles.
pub fn styled_line_to_highlighted_html(
    alloc: Global,
    v: &[(Style, &str)],
    bg: IncludeBackground,
) -> Result<String, AllocError>
    ensures { IfOk result (λ t. string_bytes t ≡ line_text bg v.now) }
{
    let mut s = String::new(alloc);
    append_highlighted_html_for_styled_line(v, bg, &mut s)?;
    Ok(s)
}

/// What stands before the lines of a theme, and the colour behind them.
pub fn start_highlighted_html_snippet(
    alloc: Global,
    t: &Theme,
) -> Result<(String, Color), AllocError>
    ensures text { IfOk result (λ p. string_bytes p.0 ≡ opening t.now) }
    ensures color { IfOk result (λ p. p.1 ≡ background_of t.now) }
{
    let color = t.settings.background.unwrap_or(Color::WHITE);
    let mut s = String::from_str(alloc, "<pre style=\"background-color:")?;
    push_rgb(&mut s, color)?;
    s.push_str(";\">\n")?;
    Ok((s, color))
}
