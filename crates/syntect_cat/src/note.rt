//! What is reported of a text in which limits were reached.
ghost use Rattle.std.specs.Prelude.{◌≡◌, ◌⊎◌, IfOk, string_bytes};
ghost use Rattle.syntect_cat.specs.Notes.{Tells, note_line, note_of, reached_text, short_note, syntax_note};
ghost use Rattle.syntect_cat.specs.Written.{Begins};

use crate::below::grammar_limits::first_line_error::FirstLineLimit;
use crate::below::parsing::within::LineLimit;
use crate::put::put;
use std::alloc::{AllocError, Global};
use std::io::Write;
use syntect_assets::lines::PlainLine;

/// What is reported of a text in which limits were reached: the foremost of these.
#[derive(Clone, Copy)]
pub enum Note {
    /// The search for its syntax by the first line reached one, so that it is shown as plain text.
    Syntax,
    /// Its first plain line.
    Line(PlainLine),
}

/// What is reported of a text for whose syntax, or in whose first plain line, a limit was reached.
pub(crate) fn note_of(limit: Option<FirstLineLimit>, line: Option<PlainLine>) -> Option<Note>
    ensures { result ≡ note_of limit line }
{
    match (limit, line) {
        (Some(_), _) => Some(Note::Syntax),
        (None, Some(line)) => Some(Note::Line(line)),
        (None, None) => None,
    }
}

/// What is reported where the syntax was not found within limits.
const SYNTAX_NOTE: &str = "syncat: shown as plain text: too many steps for the first line\n";

/// What is reported where there is no memory for more.
const SHORT_NOTE: &str = "syncat: a line is shown plain\n";

/// Which limit a line reached, and at which byte of it.
fn reached_text(alloc: Global, limit: LineLimit) -> Result<String, AllocError>
    ensures { IfOk result (λ s. string_bytes s ≡ reached_text limit) }
{
    match limit {
        LineLimit::Steps { place, .. } => format!(in alloc; "too many steps at byte {place}"),
        LineLimit::Turns { place } => format!(in alloc; "too many turns at byte {place}"),
        LineLimit::Levels {
            place,
            open_contexts: _,
        } => format!(in alloc; "too many open contexts at byte {place}"),
        LineLimit::Operations {
            place,
            operations: _,
        } => format!(in alloc; "too many operations at byte {place}"),
    }
}

/// The line that tells of the first plain one.
fn note_line(alloc: Global, line: PlainLine) -> Result<String, AllocError>
    ensures { IfOk result (λ s. string_bytes s ≡ note_line line) }
{
    let number = line.0;
    let reached = reached_text(alloc, line.1)?;
    format!(in alloc; "syncat: line {number} is shown plain: {reached}\n")
}

/// Tells of plain text in place of a syntax. What can't be written changes nothing.
fn tell_of_syntax<E: Write>(err: &mut E)
    ensures { Begins (E.contents err.old) (E.contents err.new) syntax_note }
{
    let _ = put(err, SYNTAX_NOTE.as_bytes());
}

/// Tells of the first plain line. What can't be written changes nothing.
fn tell_of_plain<E: Write>(alloc: Global, line: PlainLine, err: &mut E)
    ensures { (Begins (E.contents err.old) (E.contents err.new) (note_line line))
        ⊎ (Begins (E.contents err.old) (E.contents err.new) short_note) }
{
    let _ = match note_line(alloc, line) {
        Ok(note) => put(err, note.as_bytes()),
        Err(_) => put(err, SHORT_NOTE.as_bytes()),
    };
}

/// Tells it. What can't be written changes nothing.
pub(crate) fn tell_note<E: Write>(alloc: Global, note: Note, err: &mut E)
    ensures { Tells (E.contents err.old) (E.contents err.new) note }
{
    match note {
        Note::Syntax => tell_of_syntax(err),
        Note::Line(line) => tell_of_plain(alloc, line, err),
    }
}
