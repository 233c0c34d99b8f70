//! Text for LaTeX.
ghost use Rattle.std.specs.Prelude.{◌≡◌, ◌++◌, string_bytes, encode_utf8_all, None, IfOk, OnOk};
ghost use Rattle.syntect_writers.specs.Latex.{latex_char, latex_text, latex_color, latex_piece, latex_style, latex_behind};

use crate::html::same_style;
use std::alloc::{AllocError, Global};
use syntect_theme::style::{Color, Style};

/// Appends a character as LaTeX shows it.
fn push_char(out: &mut String, c: char) -> Result<(), AllocError>
    ensures { OnOk result (string_bytes out.new ≡ string_bytes out.old
        ++ encode_utf8_all (latex_char c)) }
{
    if c == '\\' || c == '{' || c == '}' {
        out.push('\\')?;
    }
    out.push(c)
}

/// Appends a text as LaTeX shows it.
fn push_text(out: &mut String, text: &str) -> Result<(), AllocError>
    ensures { OnOk result (string_bytes out.new ≡ string_bytes out.old ++ latex_text text.now) }
{
    for c in text.chars() {
        push_char(out, c)?;
    }
    Ok(())
}

/// Opens a group in the colour of a style.
fn push_color(out: &mut String, style: Style) -> Result<(), AllocError>
    ensures { OnOk result (string_bytes out.new ≡ string_bytes out.old ++ latex_color style) }
{
    let Color { r, g, b, .. } = style.foreground;
    write!(out, "\\textcolor[RGB]{{{r},{g},{b}}}{{")
}

/// Appends a piece after the group of a style. Answers the style of the group that is then open.
fn push_piece(
    out: &mut String,
    last: Option<Style>,
    style: Style,
    text: &str,
) -> Result<Style, AllocError>
    ensures written { OnOk result (string_bytes out.new ≡ string_bytes out.old
        ++ latex_piece last (style, text.entry)) }
    ensures style { IfOk result (λ s. s ≡ latex_style last (style, text.entry)) }
{
    if let Some(before) = last {
        if text == " " {
            out.push(' ')?;
            return Ok(before);
        }
        if text == "\n" {
            return Ok(before);
        }
        if same_style(style, before) {
            push_text(out, text)?;
            return Ok(style);
        }
        out.push('}')?;
    }
    push_color(out, style)?;
    push_text(out, text)?;
    Ok(style)
}

/// Styled pieces as LaTeX shows them, a group of `\textcolor[RGB]` for each stretch of one style.
/// After the first piece a space alone stays in the group before it, and a newline alone is left
/// out. The text ends with the last group, also where there are no pieces.
pub fn as_latex_escaped(alloc: Global, v: &[(Style, &str)]) -> Result<String, AllocError>
    ensures { IfOk result (λ t. string_bytes t ≡ latex_behind None v.now) }
{
    let mut out = String::new(alloc);
    let mut last = None;
    for (style, text) in v {
        last = Some(push_piece(&mut out, last, *style, *text)?);
    }
    out.push('}')?;
    Ok(out)
}
