//! A text under operations that a row gives, in styled pieces.
use crate::below::scope::repository::ScopeRepository;
use crate::below::scope::stack::{ScopeStack, ScopeStackOp};
use crate::below::theme::theme::Theme;
use crate::changes::operations_of;
use crate::row_file::{Part, body_of};
use crate::styles::write_style;
use std::alloc::Global;
use syntect_operations::order::are_in_order;
use syntect_style::highlighter::Highlighter;
use syntect_style::pieces::{HighlightIterator, RangedHighlightIterator};
use syntect_style::state::HighlightState;

/// Adds the pieces that an iterator gives, one a line: style and text.
fn write_pieces(
    highlighter: &Highlighter<'_>,
    operations: &[(usize, ScopeStackOp)],
    text: &str,
    state: &mut HighlightState,
    out: &mut String,
) -> Option<()> {
    if !are_in_order(text, operations) {
        return None;
    }
    for item in HighlightIterator::new(state, operations, text, highlighter) {
        let (style, piece) = item.ok()?;
        write_style(style, out)?;
        writeln!(out, " {piece}").ok()?;
    }
    Some(())
}

/// Adds the pieces that an iterator with ranges gives, one a line: range, style and text.
fn write_ranged(
    highlighter: &Highlighter<'_>,
    operations: &[(usize, ScopeStackOp)],
    text: &str,
    state: &mut HighlightState,
    out: &mut String,
) -> Option<()> {
    if !are_in_order(text, operations) {
        return None;
    }
    for item in RangedHighlightIterator::new(state, operations, text, highlighter) {
        let (style, piece, range) = item.ok()?;
        write!(out, "{}..{} ", range.start, range.end).ok()?;
        write_style(style, out)?;
        writeln!(out, " {piece}").ok()?;
    }
    Some(())
}

/// Adds the styled pieces of a text under the operations that the row gives, from a new state on
/// the stack that it gives, if it gives one.
pub fn write_shown(
    alloc: Global,
    theme: &Theme,
    parts: &[Part<'_>],
    (heading, text): (&str, &str),
    repository: &mut ScopeRepository,
    out: &mut String,
) -> Option<()> {
    let operations = operations_of(alloc, parts, repository)?;
    let scopes = body_of(parts, "given stack").unwrap_or("");
    let path = ScopeStack::from_text(alloc, scopes, repository).ok()?;
    let highlighter = Highlighter::new(alloc, theme).ok()?;
    let mut state = HighlightState::new(&highlighter, path);
    let operations = operations.as_slice();
    if heading == "shown" {
        write_pieces(&highlighter, operations, text, &mut state, out)
    } else {
        write_ranged(&highlighter, operations, text, &mut state, out)
    }
}
