//! The operations of lines, and why lines are refused.
use crate::below::parsing::parser::{ParseState, ParsingError};
use crate::below::scope::repository::ScopeRepository;
use crate::below::scope::stack::ScopeStackOp;
use crate::given::{Given, line_as_given};
use syntect_check_shown::definitions::write_reference;
use syntect_check_tables::changes::write_operation;
use syntect_easy::Error;
use syntect_easy::util::LinesWithEndings;

/// Adds why a line is refused.
pub fn write_refusal(
    refusal: &ParsingError,
    repository: &ScopeRepository,
    out: &mut String,
) -> Option<()> {
    match refusal {
        ParsingError::MissingMainContext => out.push_str("refused MissingMainContext\n").ok(),
        ParsingError::UnresolvedContextReference(reference) => {
            out.push_str("refused UnresolvedContextReference").ok()?;
            write_reference(reference, repository, out)?;
            out.push('\n').ok()
        }
        ParsingError::MissingContext(id) => {
            let (syntax, context) = (id.syntax_index, id.context_index);
            writeln!(out, "refused MissingContext {syntax} {context}").ok()
        }
        ParsingError::BadMatchIndex(index) => writeln!(out, "refused BadMatchIndex {index}").ok(),
        ParsingError::Memory => None,
    }
}

/// Adds why a line or a page is refused.
pub fn write_error(error: &Error, repository: &ScopeRepository, out: &mut String) -> Option<()> {
    match error {
        Error::ParsingError(refusal) => write_refusal(refusal, repository, out),
        Error::Io(_) => out.push_str("refused Io\n").ok(),
        Error::NoSyntax => out.push_str("refused NoSyntax\n").ok(),
        _ => None,
    }
}

/// Adds the operations of a line with their places.
fn write_each(
    operations: &[(usize, ScopeStackOp)],
    repository: &ScopeRepository,
    out: &mut String,
) -> Option<()> {
    for (place, operation) in operations {
        write!(out, "{place} ").ok()?;
        write_operation(operation, repository, out)?;
    }
    Some(())
}

/// Reads a line, and adds its operations, or its refusal and whether that changed the state.
fn write_line(
    given: Given<'_>,
    line: &str,
    state: &mut ParseState,
    repository: &ScopeRepository,
    out: &mut String,
) -> Option<()> {
    let before = state.clone().ok()?;
    match state.parse_line(given.alloc, line, given.set) {
        Ok(operations) => write_each(operations.as_slice(), repository, out),
        Err(refusal) => {
            write_refusal(&refusal, repository, out)?;
            let text = if *state == before {
                "state unchanged\n"
            } else {
                "state changed\n"
            };
            out.push_str(text).ok()
        }
    }
}

/// Adds the operations of a text's lines: each line's number, then each operation with its place.
pub fn write_operations(
    given: Given<'_>,
    repository: &ScopeRepository,
    out: &mut String,
) -> Option<()> {
    let mut state = ParseState::new(given.alloc, given.syntax?).ok()?;
    let mut number = 0u64;
    for line in LinesWithEndings::from(given.text) {
        number = number.saturating_add(1);
        writeln!(out, "L{number}").ok()?;
        let line = line_as_given(line, given.is_bare);
        write_line(given, line, &mut state, repository, out)?;
    }
    Some(())
}
