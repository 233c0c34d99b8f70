//! What is written of styled pieces that a row gives.
use crate::below::scope::repository::ScopeRepository;
use crate::below::theme::style::{Color, FontStyle, Style};
use crate::below::theme::theme::Theme;
use crate::row_file::{Part, body_of};
use std::alloc::Global;
use syntect_check_queries::escapes::unescaped;
use syntect_writers::class_style::ClassStyle;
use syntect_writers::html::{IncludeBackground, styled_line_to_highlighted_html};
use syntect_writers::latex::as_latex_escaped;
use syntect_writers::lines::LinesWithEndings;
use syntect_writers::sheet::css_for_theme_with_class_style;
use syntect_writers::terminal::as_24_bit_terminal_escaped;

/// A piece and its style: the colours, the number of the flags and the text, with a space between
/// each two.
pub(crate) fn piece_of(line: &str) -> Option<(Style, &str)> {
    let (foreground, rest) = line.split_once(' ')?;
    let (background, rest) = rest.split_once(' ')?;
    let (flags, text) = rest.split_once(' ')?;
    let style = Style {
        foreground: Color::from_text(foreground).ok()?,
        background: Color::from_text(background).ok()?,
        font_style: FontStyle::from_bits(flags.parse::<u8>().ok()?)?,
    };
    Some((style, text))
}

/// The pieces that a row gives, one a line.
fn pieces_of<'a>(alloc: Global, parts: &[Part<'a>]) -> Option<Vec<(Style, &'a str)>> {
    let mut pieces = Vec::new(alloc);
    for line in body_of(parts, "given pieces")?.lines() {
        pieces.push(piece_of(line)?).ok()?;
    }
    Some(pieces)
}

/// Adds the text for a terminal, and a newline.
pub fn write_terminal(
    alloc: Global,
    parts: &[Part<'_>],
    behind: bool,
    out: &mut String,
) -> Option<()> {
    let pieces = pieces_of(alloc, parts)?;
    let text = as_24_bit_terminal_escaped(alloc, pieces.as_slice(), behind).ok()?;
    let text = text.as_str();
    for c in text.chars() {
        match c {
            '\x1b' => out.push_str("ESC").ok()?,
            other => out.push(other).ok()?,
        }
    }
    out.push('\n').ok()
}

/// Adds the spans of HTML, and a newline.
pub fn write_html(alloc: Global, parts: &[Part<'_>], behind: bool, out: &mut String) -> Option<()> {
    let pieces = pieces_of(alloc, parts)?;
    let behind = if behind {
        IncludeBackground::Yes
    } else {
        IncludeBackground::No
    };
    let text = styled_line_to_highlighted_html(alloc, pieces.as_slice(), behind).ok()?;
    writeln!(out, "{}", text.as_str()).ok()
}

/// Adds the text for LaTeX, and a newline.
pub fn write_latex(alloc: Global, parts: &[Part<'_>], out: &mut String) -> Option<()> {
    let pieces = pieces_of(alloc, parts)?;
    let text = as_latex_escaped(alloc, pieces.as_slice()).ok()?;
    writeln!(out, "{}", text.as_str()).ok()
}

/// Adds the style sheet of a theme.
pub fn write_sheet(
    alloc: Global,
    theme: &Theme,
    repository: &ScopeRepository,
    out: &mut String,
) -> Option<()> {
    let sheet = css_for_theme_with_class_style(alloc, theme, repository, ClassStyle::Spaced).ok()?;
    out.push_str(sheet.as_str()).ok()
}

/// Adds each line of a text, as Rust writes it, with a semicolon after it.
pub fn write_lines(alloc: Global, question: &str, out: &mut String) -> Option<()> {
    let text = unescaped(alloc, question).ok()?;
    for line in LinesWithEndings::from(text.as_str()) {
        write!(out, "{line:?};").ok()?;
    }
    Some(())
}
