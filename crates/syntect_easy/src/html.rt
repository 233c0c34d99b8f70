//! Texts as HTML with inline styles.
//!
//! `highlighted_html_for_string` does it all; the other calls write lines
//! that were highlighted before.
ghost use Rattle.std.specs.Prelude.{◌≡◌, ℕ, List, [], IfOk, IfErr, string_bytes};
ghost use Rattle.std.specs.Path.{path_bytes};
ghost use Rattle.syntect_easy.specs.Built.{IsBuilt, IsSyntaxOfBuilt};
ghost use Rattle.syntect_easy.specs.Files.{IsPageOfFile, HasNoPageOfFile};
ghost use Rattle.syntect_easy.specs.Leads.{Leads};
ghost use Rattle.syntect_easy.specs.LineErrors.{error_of};
ghost use Rattle.syntect_easy.specs.Pages.{IsPage, IsWhyNoPage, IsPageOfBytes, HasNoPageOfBytes, IsStopped};
ghost use Rattle.syntect_easy.specs.Rows.{IsTextOf};
ghost use Rattle.syntect_easy.specs.syntect_grammar_loader.declared.definition.SyntaxDefinition.{SyntaxDefinition as ADefinition};
ghost use Rattle.syntect_easy.specs.syntect_grammar_contexts.declared.syntax_reference.SyntaxReference.{SyntaxReference as ASyntax};

use crate::below::base::lines::ReadLines;
use crate::below::base::tree::Tree;
use crate::below::theme::theme::Theme;
pub use crate::classed::{ClassStyle, ClassedHTMLGenerator, line_tokens_to_classed_spans};
use crate::easy::{HighlightFile, HighlightLines};
use crate::reading::{FileLines, LinesError, next_line, text_of};
use std::alloc::Global;
use std::path::Path;
use syntect_parsing::error::Error;
use syntect_parsing::syntax_set::{SyntaxReference, SyntaxSet};
pub use syntect_writers::html::{
    IncludeBackground, append_highlighted_html_for_styled_line, start_highlighted_html_snippet,
    styled_line_to_highlighted_html,
};
use syntect_writers::lines::LinesWithEndings;
pub use syntect_writers::sheet::css_for_theme_with_class_style;
pub use syntect_writers::spans::SpanWriter;

/// What ends a page.
const CLOSING: &str = "</pre>\n";

/// A text's lines as HTML with inline styles, in a `pre` of the theme's background: each byte has
/// the theme's style where the lines are orderly (`RunsOrderly`), as they all are where no context
/// clears. The set has to be that of the syntax. Where a line is refused, the text is, with that
/// line's refusal; `MissingMainContext` where the syntax has no context `__start`.
pub fn highlighted_html_for_string(
    alloc: Global,
    s: &str,
    ss: &SyntaxSet,
    syntax: &SyntaxReference,
    theme: &Theme,
) -> Result<String, Error>
    // the set was built of plain definitions
    ensures page { (definitions : List ADefinition) → IsSyntaxOfBuilt ss.now syntax.now definitions
        → IfOk result (λ page. IsPage ss.now theme.now syntax.now s.now (string_bytes page)) }
    ensures refused { (definitions : List ADefinition)
        → IsSyntaxOfBuilt ss.now syntax.now definitions
        → IfErr result (IsWhyNoPage ss.now syntax.now s.now) }
{
    let mut highlighter = HighlightLines::new(alloc, syntax, theme)?;
    let (mut page, color) = start_highlighted_html_snippet(alloc, theme)?;
    let mut writer = SpanWriter::new(alloc, IncludeBackground::IfDifferent(color));
    for line in LinesWithEndings::from(s) {
        let pieces = highlighter.highlight_line(alloc, line, ss)?;
        writer.append(pieces.as_slice(), &mut page)?;
    }
    page.push_str(CLOSING)?;
    Ok(page)
}

/// What a reader gives, as HTML with inline styles: as `highlighted_html_for_string` for its bytes.
/// The reader is any `BufRead`, or what else gives lines. Each line, up to and with its newline, is
/// tested for UTF-8 and highlighted before the next is read; `Io` where reading fails or a line is
/// not UTF-8, and no page then. What follows a line without a newline is not read.
#[tactic(auto, using(crate::proofs::ReaderLaws::no_page_of_bytes))]
pub fn highlighted_html_for_reader<R: ReadLines + Drop>(
    alloc: Global,
    reader: R,
    ss: &SyntaxSet,
    syntax: &SyntaxReference,
    theme: &Theme,
) -> Result<String, Error>
    // the set was built of plain definitions; the text is that of the reader, if it tells its bytes
    ensures page { (definitions : List ADefinition) → IsSyntaxOfBuilt ss.now syntax.now definitions
        → IfOk result (λ page. (text : List ℕ) × IsTextOf (R.ahead reader) text
        × IsPageOfBytes ss.now theme.now syntax.now text (string_bytes page)) }
    ensures refused { (definitions : List ADefinition)
        → IsSyntaxOfBuilt ss.now syntax.now definitions
        → IfErr result (λ e. (text : List ℕ) × IsTextOf (R.ahead reader) text
        × HasNoPageOfBytes (R.failed reader) ss.now syntax.now text e) }
{
    let highlighter = HighlightLines::new(alloc, syntax, theme)?;
    page_of_lines(alloc, reader, highlighter, ss, theme)
}

/// A file's lines as HTML with inline styles: as `highlighted_html_for_reader` for what the file
/// holds, in the syntax that `SyntaxSet::find_syntax_for_file` finds, or else plain text. A fault
/// of the file is `Io`, and `NoSyntax` comes where no syntax fits and the set has no `Plain Text`.
pub fn highlighted_html_for_file<T: Tree>(
    tree: &T,
    alloc: Global,
    path: Path<'_>,
    ss: &SyntaxSet,
    theme: &Theme,
) -> Result<String, Error>
    // the set was built of plain definitions
    ensures page { (definitions : List ADefinition) → IsBuilt ss.now definitions
        → IfOk result (λ page. IsPageOfFile (T.told tree.now) ss.now theme.now
        (path_bytes path.entry) (string_bytes page)) }
    ensures refused { (definitions : List ADefinition) → IsBuilt ss.now definitions
        → IfErr result (HasNoPageOfFile (T.told tree.now) ss.now (path_bytes path.entry)) }
{
    match HighlightFile::new(tree, alloc, path, ss, theme) {
        Ok(file) => {
            let lines = FileLines {
                tree,
                path: path.as_str(),
                reader: file.reader,
            };
            match page_of_reader(alloc, lines, file.highlight_lines, ss, theme) {
                Ok(page) => Ok(page),
                Err(e) => Err(e.into_error()),
            }
        }
        Err(e) => Err(e),
    }
}

/// The page of what a reader gives, as by `page_of_lines`.
fn page_of_reader<R: ReadLines + Drop>(
    alloc: Global,
    reader: R,
    highlighter: HighlightLines<'_>,
    ss: &SyntaxSet,
    theme: &Theme,
) -> Result<String, LinesError>
    ensures page { (definitions : List ADefinition) (syntax : ASyntax)
        → IsSyntaxOfBuilt ss.now syntax definitions
        → Leads ss.now theme.now syntax [] [] highlighter.entry
        → IfOk result (λ page. (text : List ℕ) × IsTextOf (R.ahead reader) text
        × IsPageOfBytes ss.now theme.now syntax text (string_bytes page)) }
    ensures refused { (definitions : List ADefinition) (syntax : ASyntax)
        → IsSyntaxOfBuilt ss.now syntax definitions
        → Leads ss.now theme.now syntax [] [] highlighter.entry
        → IfErr result (λ e. (text : List ℕ) × IsTextOf (R.ahead reader) text
        × IsStopped (R.failed reader) ss.now syntax text (error_of e)) }
{
    match page_of_lines(alloc, reader, highlighter, ss, theme) {
        Ok(page) => Ok(page),
        Err(e) => Err(LinesError::of(e)),
    }
}

/// The page of what a reader gives, by a highlighter that has read nothing yet.
fn page_of_lines<R: ReadLines + Drop>(
    alloc: Global,
    mut reader: R,
    mut highlighter: HighlightLines<'_>,
    ss: &SyntaxSet,
    theme: &Theme,
) -> Result<String, Error>
    ensures page { (definitions : List ADefinition) (syntax : ASyntax)
        → IsSyntaxOfBuilt ss.now syntax definitions
        → Leads ss.now theme.now syntax [] [] highlighter.entry
        → IfOk result (λ page. (text : List ℕ) × IsTextOf (R.ahead reader) text
        × IsPageOfBytes ss.now theme.now syntax text (string_bytes page)) }
    ensures refused { (definitions : List ADefinition) (syntax : ASyntax)
        → IsSyntaxOfBuilt ss.now syntax definitions
        → Leads ss.now theme.now syntax [] [] highlighter.entry
        → IfErr result (λ e. (text : List ℕ) × IsTextOf (R.ahead reader) text
        × IsStopped (R.failed reader) ss.now syntax text e) }
{
    let (mut page, color) = start_highlighted_html_snippet(alloc, theme)?;
    let mut spans = SpanWriter::new(alloc, IncludeBackground::IfDifferent(color));
    let mut bytes = Vec::new(alloc);
    for _ in 0..u64::MAX {
        if !next_line(&mut reader, &mut bytes)? {
            page.push_str(CLOSING)?;
            return Ok(page);
        }
        let line = text_of(bytes.as_slice())?;
        let pieces = highlighter.highlight_line(alloc, line, ss)?;
        spans.append(pieces.as_slice(), &mut page)?;
    }
    // no memory holds so many lines
    Err(Error::Memory)
}
