//! The lines of a text in a format, within limits.
ghost use Rattle.std.specs.Prelude.{◌≡◌, ◌<◌, ◌-◌, ◌^◌, ℕ, List, [], IfOk, IfErr, IsUtf8, string_bytes};
ghost use Rattle.syntect_assets.specs.syntect_grammar_loader.declared.definition.SyntaxDefinition.{SyntaxDefinition as ADefinition};
ghost use Rattle.syntect_assets.specs.syntect_grammar_contexts.declared.syntax_reference.SyntaxReference.{SyntaxReference as ASyntax};
ghost use Rattle.syntect_easy.specs.Built.{IsSyntaxOfBuilt};
ghost use Rattle.syntect_easy.specs.Files.{FaultsAre, IsLineFault};
ghost use Rattle.syntect_easy.specs.Leads.{Leads};
ghost use Rattle.syntect_easy.specs.LineErrors.{error_of};
ghost use Rattle.syntect_easy.specs.Rows.{IsTextOf};
ghost use Rattle.syntect_assets.specs.Texts.{IsWritten, first_of};

use crate::below::base::limits::Limits;
use crate::below::base::lines::ReadLines;
use crate::below::parsing::syntax_set::SyntaxSet;
use crate::below::parsing::within::LineLimit;
use crate::below::theme::theme::Theme;
use crate::format::Format;
use crate::writer::TextWriter;
use std::alloc::Global;
use syntect_easy::Error;
use syntect_easy::easy::HighlightLines;
use syntect_easy::laws::{lines_of_readers, lines_within_limits};
use syntect_easy::reading::{LinesError, next_line, text_of};

/// The number of a line, from 1, and the limit that it reached, so that it is shown plain.
pub type PlainLine = (u64, LineLimit);

/// The first plain line, with the one more that comes after so many lines.
pub fn first_of(
    first: Option<PlainLine>,
    before: u64,
    limit: Option<LineLimit>,
) -> Option<PlainLine>
    requires { before < 2 ^ 64 - 1 }
    ensures { result ≡ first_of first before limit }
{
    match (first, limit) {
        (Some(line), _) => Some(line),
        (None, Some(limit)) => Some((before + 1, limit)),
        (None, None) => None,
    }
}

/// What a reader's lines are in a format, by a highlighter that has read nothing yet, and the first
/// line that is shown plain because it reached a limit. Each line, up to and with its newline, is
/// tested for UTF-8 and read before the next; `Io` where reading fails or a line is not UTF-8, and
/// the refusal of a line that is refused for anything but a limit.
pub fn text_of_lines<L: ReadLines + Drop>(
    alloc: Global,
    lines: L,
    highlighter: HighlightLines<'_>,
    format: Format,
    set: &SyntaxSet,
    theme: &Theme,
    limits: &Limits,
) -> Result<(String, Option<PlainLine>), LinesError>
    ensures text { (definitions : List ADefinition) (syntax : ASyntax)
        → IsSyntaxOfBuilt set.now syntax definitions
        → Leads set.now theme.now syntax [] [] highlighter.entry
        → IfOk result (λ r. (text : List ℕ) × IsTextOf (L.ahead lines) text × IsUtf8 text
        × IsWritten limits.now format set.now theme.now syntax text (string_bytes r.0) r.1) }
    ensures faults { IfErr result
        (λ e. FaultsAre (IsLineFault (L.failed lines) (L.ahead lines)) (error_of e)) }
{
    match shown_lines(alloc, lines, highlighter, format, set, theme, limits) {
        Ok(shown) => Ok(shown),
        Err(e) => Err(LinesError::of(e)),
    }
}

/// What `text_of_lines` gives, with the error of all calls.
pub(crate) fn shown_lines<L: ReadLines + Drop>(
    alloc: Global,
    mut lines: L,
    mut highlighter: HighlightLines<'_>,
    format: Format,
    set: &SyntaxSet,
    theme: &Theme,
    limits: &Limits,
) -> Result<(String, Option<PlainLine>), Error>
    ensures text { (definitions : List ADefinition) (syntax : ASyntax)
        → IsSyntaxOfBuilt set.now syntax definitions
        → Leads set.now theme.now syntax [] [] highlighter.entry
        → IfOk result (λ r. (text : List ℕ) × IsTextOf (L.ahead lines) text × IsUtf8 text
        × IsWritten limits.now format set.now theme.now syntax text (string_bytes r.0) r.1) }
    ensures faults { IfErr result (FaultsAre (IsLineFault (L.failed lines) (L.ahead lines))) }
{
    lines_within_limits();
    lines_of_readers();
    let mut writer = TextWriter::new(alloc, format, theme)?;
    let mut bytes = Vec::new(alloc);
    let mut first = None;
    for before in 0..u64::MAX {
        if !next_line(&mut lines, &mut bytes)? {
            return Ok((writer.whole()?, first));
        }
        let line = text_of(bytes.as_slice())?;
        let (pieces, limit) = highlighter.highlight_line_or_plain(alloc, line, set, limits)?;
        writer.append(pieces.as_slice())?;
        first = first_of(first, before, limit);
    }
    // no memory holds so many lines
    Err(Error::Memory)
}
