//! Styled pieces and pages of lines.
use crate::below::scope::repository::ScopeRepository;
use crate::below::theme::style::Style;
use crate::below::theme::theme::Theme;
use crate::given::{Given, line_as_given};
use crate::operations::write_error;
use std::alloc::Global;
use syntect_check_tables::styles::write_style;
use syntect_easy::easy::HighlightLines;
use syntect_easy::html::{ClassStyle, ClassedHTMLGenerator, highlighted_html_for_string};
use syntect_easy::util::LinesWithEndings;

/// Adds each piece of a line: where it stands, and its style.
fn write_pieces_of(pieces: &[(Style, &str)], out: &mut String) -> Option<()> {
    let mut from = 0usize;
    for (style, text) in pieces {
        let to = from.saturating_add(text.len());
        write!(out, "{from}..{to} ").ok()?;
        write_style(*style, out)?;
        out.push('\n').ok()?;
        from = to;
    }
    Some(())
}

/// Highlights a line, and adds its pieces, or its refusal.
fn write_line(
    given: Given<'_>,
    line: &str,
    lines: &mut HighlightLines<'_>,
    repository: &ScopeRepository,
    out: &mut String,
) -> Option<()> {
    match lines.highlight_line(given.alloc, line, given.set) {
        Ok(pieces) => write_pieces_of(pieces.as_slice(), out),
        Err(error) => write_error(&error, repository, out),
    }
}

/// Adds the styled pieces of a text's lines: of each line its number, and then each piece.
pub fn write_pieces(
    given: Given<'_>,
    repository: &ScopeRepository,
    out: &mut String,
) -> Option<()> {
    let mut lines = HighlightLines::new(given.alloc, given.syntax?, given.theme).ok()?;
    let mut number = 0u64;
    for line in LinesWithEndings::from(given.text) {
        number = number.saturating_add(1);
        writeln!(out, "L{number}").ok()?;
        let line = line_as_given(line, given.is_bare);
        write_line(given, line, &mut lines, repository, out)?;
    }
    Some(())
}

/// A highlighter that is taken up again from its states. Adds the scopes that are open.
fn resumed<'t>(
    alloc: Global,
    theme: &'t Theme,
    lines: HighlightLines<'t>,
    repository: &ScopeRepository,
    out: &mut String,
) -> Option<HighlightLines<'t>> {
    let (highlight_state, parse_state) = lines.state();
    let open = highlight_state.path().build_string(repository).ok()?;
    writeln!(out, "open {}", open.as_str().trim_end()).ok()?;
    HighlightLines::from_state(alloc, theme, highlight_state, parse_state).ok()
}

/// Adds the pieces of a text's lines, by a highlighter taken up again after each, and open scopes.
pub fn write_resumed_pieces(
    given: Given<'_>,
    repository: &ScopeRepository,
    out: &mut String,
) -> Option<()> {
    let mut lines = HighlightLines::new(given.alloc, given.syntax?, given.theme).ok()?;
    for line in LinesWithEndings::from(given.text) {
        let line = line_as_given(line, given.is_bare);
        write_line(given, line, &mut lines, repository, out)?;
        lines = resumed(given.alloc, given.theme, lines, repository, out)?;
    }
    Some(())
}

/// Adds the page of a text, or its refusal.
pub fn write_page(given: Given<'_>, repository: &ScopeRepository, out: &mut String) -> Option<()> {
    let page = highlighted_html_for_string(
        given.alloc,
        given.text,
        given.set,
        given.syntax?,
        given.theme,
    );
    match page {
        Ok(page) => out.push_str(page.as_str()).ok(),
        Err(error) => write_error(&error, repository, out),
    }
}

/// Adds the text of a generator of spans with classes, after its lines.
fn write_lines_of(
    given: Given<'_>,
    mut generator: ClassedHTMLGenerator<'_>,
    repository: &ScopeRepository,
    out: &mut String,
) -> Option<()> {
    for line in LinesWithEndings::from(given.text) {
        let line = line_as_given(line, given.is_bare);
        if let Err(error) = generator.parse_html_for_line_which_includes_newline(line) {
            write_error(&error, repository, out)?;
        }
    }
    let text = generator.finalize().ok()?;
    writeln!(out, "{}", text.as_str()).ok()
}

/// Adds a text as spans with classes, and a newline; before that why lines are refused.
pub fn write_classed_page(
    given: Given<'_>,
    style: ClassStyle,
    repository: &ScopeRepository,
    out: &mut String,
) -> Option<()> {
    let generator = ClassedHTMLGenerator::new_with_class_style(
        given.alloc,
        given.syntax?,
        given.set,
        repository,
        style,
    );
    write_lines_of(given, generator.ok()?, repository, out)
}
