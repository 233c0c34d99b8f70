//! Texts as HTML with inline styles, each line in a span of its own.
ghost use Rattle.std.specs.Prelude.{◌≡◌, ◌<◌, ◌-◌, ◌^◌, ◌++◌, ℕ, List, [], IfOk, IfErr, OnOk, IsUtf8, string_bytes};
ghost use Rattle.std.specs.Path.{path_bytes};
ghost use Rattle.syntect_documents.specs.syntect_grammar_loader.declared.definition.SyntaxDefinition.{SyntaxDefinition as ADefinition};
ghost use Rattle.syntect_documents.specs.syntect_grammar_contexts.declared.syntax_reference.SyntaxReference.{SyntaxReference as ASyntax};
ghost use Rattle.syntect_documents.specs.syntect_easy.Built.{IsBuilt, IsSyntaxOfBuilt};
ghost use Rattle.syntect_documents.specs.syntect_easy.Files.{FaultsAre, IsLineFault};
ghost use Rattle.syntect_documents.specs.syntect_easy.Leads.{Leads};
ghost use Rattle.syntect_documents.specs.syntect_easy.LineErrors.{error_of};
ghost use Rattle.syntect_documents.specs.syntect_easy.Rows.{IsTextOf};
ghost use Rattle.syntect_documents.specs.syntect_assets.Assets.{RefusesLine, RefusesText, language_named};
ghost use Rattle.syntect_documents.specs.syntect_assets.Refusals.{RefusesReading};
ghost use Rattle.syntect_documents.specs.Numbered.{IsNumbered, NumbersFile, NumbersIn, NumbersText, numbered_line};

use crate::below::assets::assets::{Assets, Shown, refused_file};
use crate::below::assets::error::AssetsError;
use crate::below::assets::lines::{PlainLine, first_of};
use crate::below::base::limits::Limits;
use crate::below::base::lines::ReadLines;
use crate::below::base::tree::Tree;
use crate::below::easy::Error;
use crate::below::easy::easy::{HighlightFile, HighlightLines};
use crate::below::easy::html::{IncludeBackground, SpanWriter, start_highlighted_html_snippet};
use crate::below::easy::laws::{lines_of_readers, lines_within_limits};
use crate::below::easy::reading::{FileLines, LinesError, next_line, text_of};
use crate::below::parsing::syntax_set::{SyntaxReference, SyntaxSet};
use crate::below::theme::style::Style;
use crate::below::theme::theme::Theme;
use crate::lines::{LineForm, push_line_tag};
use std::alloc::{AllocError, Global};
use std::fmt;
use std::path::Path;

/// What ends a line.
const LINE_END: &str = "</span>";

/// What ends a text.
const CLOSING: &str = "</pre>\n";

/// Appends a line in styled pieces, as the one of a number.
fn push_numbered(
    out: &mut String,
    spans: &mut SpanWriter,
    form: LineForm<'_>,
    number: u64,
    pieces: &[(Style, &str)],
) -> Result<(), AllocError>
    ensures kept { spans.new ≡ spans.old }
    ensures text { OnOk result (string_bytes out.new
        ≡ string_bytes out.old ++ numbered_line form.entry spans.old number pieces.now) }
{
    push_line_tag(out, form, number)?;
    spans.append(pieces, out)?;
    out.push_str(LINE_END)?;
    Ok(())
}

/// What a reader's lines are, by a highlighter that has read nothing yet, and the first line that is
/// shown plain because it reached a limit. `Fmt` where the numbers come to 2^64 - 1.
fn numbered_lines<L: ReadLines + Drop>(
    alloc: Global,
    mut lines: L,
    mut highlighter: HighlightLines<'_>,
    form: LineForm<'_>,
    set: &SyntaxSet,
    theme: &Theme,
    limits: &Limits,
) -> Result<(String, Option<PlainLine>), Error>
    ensures text { (definitions : List ADefinition) (syntax : ASyntax)
        → IsSyntaxOfBuilt set.now syntax definitions
        → Leads set.now theme.now syntax [] [] highlighter.entry
        → IfOk result (λ r. (text : List ℕ) × IsTextOf (L.ahead lines) text × IsUtf8 text
        × IsNumbered limits.now form.entry set.now theme.now syntax text (string_bytes r.0) r.1) }
    ensures faults { IfErr result (FaultsAre (IsLineFault (L.failed lines) (L.ahead lines))) }
{
    lines_within_limits();
    lines_of_readers();
    let (mut page, color) = start_highlighted_html_snippet(alloc, theme)?;
    let mut spans = SpanWriter::new(alloc, IncludeBackground::IfDifferent(color));
    let mut bytes = Vec::new(alloc);
    let mut first = None;
    for number in form.first..u64::MAX {
        if !next_line(&mut lines, &mut bytes)? {
            page.push_str(CLOSING)?;
            return Ok((page, first));
        }
        let line = text_of(bytes.as_slice())?;
        let (pieces, limit) = highlighter.highlight_line_or_plain(alloc, line, set, limits)?;
        push_numbered(&mut page, &mut spans, form, number, pieces.as_slice())?;
        first = first_of(first, number - form.first, limit);
    }
    Err(Error::Fmt(fmt::Error))
}

/// The same of a file's lines, whose refusals are those of lines.
fn numbered_of_lines<L: ReadLines + Drop>(
    alloc: Global,
    lines: L,
    highlighter: HighlightLines<'_>,
    form: LineForm<'_>,
    set: &SyntaxSet,
    theme: &Theme,
    limits: &Limits,
) -> Result<(String, Option<PlainLine>), LinesError>
    ensures text { (definitions : List ADefinition) (syntax : ASyntax)
        → IsSyntaxOfBuilt set.now syntax definitions
        → Leads set.now theme.now syntax [] [] highlighter.entry
        → IfOk result (λ r. (text : List ℕ) × IsTextOf (L.ahead lines) text × IsUtf8 text
        × IsNumbered limits.now form.entry set.now theme.now syntax text (string_bytes r.0) r.1) }
    ensures faults { IfErr result
        (λ e. FaultsAre (IsLineFault (L.failed lines) (L.ahead lines)) (error_of e)) }
{
    match numbered_lines(alloc, lines, highlighter, form, set, theme, limits) {
        Ok(shown) => Ok(shown),
        Err(e) => Err(LinesError::of(e)),
    }
}

/// A text in a syntax of the set, by a theme, as HTML with inline styles: the page of `Format::Html`
/// with each line in a span of its own. A line that reaches a limit is shown plain, and the lines
/// after it are read as if it weren't there; the first one is told by its number from 1, whatever
/// the number of the first line is.
///
/// `NotShown` with the line's refusal, with `MissingMainContext` where the syntax has no context
/// `__start`, and with `Fmt` where the numbers of lines come to 2^64 - 1.
pub fn numbered_in(
    assets: &Assets,
    alloc: Global,
    text: &str,
    syntax: &SyntaxReference,
    theme: &Theme,
    form: LineForm<'_>,
) -> Result<Shown, AssetsError>
    // the set was built of plain definitions
    ensures shown { (definitions : List ADefinition)
        → IsSyntaxOfBuilt assets.now.set syntax.now definitions
        → IfOk result (NumbersIn assets.now text.now syntax.now theme.now form.entry) }
    ensures refused { IfErr result RefusesLine }
{
    let lines = HighlightLines::new(alloc, syntax, theme)?;
    let (text, plain) = numbered_lines(
        alloc,
        text.as_bytes(),
        lines,
        form,
        &assets.set,
        theme,
        &assets.limits,
    )?;
    Ok(Shown {
        text,
        plain,
        first_line: None,
    })
}

/// A text in the language of a name, as by `numbered_in`. `UnknownLanguage` where there is none.
pub fn numbered_text(
    assets: &Assets,
    alloc: Global,
    text: &str,
    language: &str,
    theme: &Theme,
    form: LineForm<'_>,
) -> Result<Shown, AssetsError>
    // the set was built of plain definitions
    ensures shown { (definitions : List ADefinition) → IsBuilt assets.now.set definitions
        → IfOk result (NumbersText assets.now text.now language.now theme.now form.entry) }
    ensures refused { IfErr result
        (RefusesText (language_named assets.now language.now) language.now) }
{
    let syntax = assets.language(alloc, language)?;
    numbered_in(assets, alloc, text, syntax, theme, form)
}

/// What a file holds, as by `numbered_in`, in the syntax that `SyntaxSet::find_syntax_for_file`
/// finds, or else as plain text.
///
/// `NotRead` with the path where the file isn't read or isn't UTF-8; `NotShown` with the line's
/// refusal, with `NoSyntax` where no syntax fits and there is no plain text, and with `Fmt` where
/// the numbers of lines come to 2^64 - 1.
pub fn numbered_file<T: Tree>(
    assets: &Assets,
    tree: &T,
    alloc: Global,
    path: Path<'_>,
    theme: &Theme,
    form: LineForm<'_>,
) -> Result<Shown, AssetsError>
    // the set was built of plain definitions
    ensures shown { (definitions : List ADefinition) → IsBuilt assets.now.set definitions
        → IfOk result (NumbersFile (T.told tree.now) assets.now (path_bytes path.entry)
        theme.now form.entry) }
    ensures refused { IfErr result (RefusesReading (T.told tree.now)
        assets.now.limits assets.now.set (path_bytes path.entry)) }
{
    let limits = &assets.limits;
    let opened = HighlightFile::new_or_plain(tree, alloc, path, &assets.set, theme, limits);
    let (file, first_line) = match opened {
        Ok(opened) => opened,
        Err(e) => return Err(refused_file(alloc, path, e)?),
    };
    let lines = FileLines {
        tree,
        path: path.as_str(),
        reader: file.reader,
    };
    let highlighter = file.highlight_lines;
    let written = numbered_of_lines(alloc, lines, highlighter, form, &assets.set, theme, limits);
    let (text, plain) = match written {
        Ok(written) => written,
        Err(e) => return Err(refused_file(alloc, path, e.into_error())?),
    };
    Ok(Shown {
        text,
        plain,
        first_line,
    })
}
