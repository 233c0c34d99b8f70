//! A line under operations that a row gives: as spans with classes, as text, and in ranges; and
//! what hooks hear.
use crate::below::scope::repository::ScopeRepository;
use crate::below::scope::stack::{BasicScopeStackOp, ClearAmount, ScopeStack, ScopeStackOp};
use crate::row_file::{Part, body_of};
use crate::scoring::operation_of;
use std::alloc::Global;
use syntect_operations::order::are_in_order;
use syntect_operations::print::debug_print_ops;
use syntect_operations::ranges::ScopeRangeIterator;
use syntect_writers::class_style::ClassStyle;
use syntect_writers::classed::line_tokens_to_classed_spans;

/// The operations that a row gives, one a line: the place and the operation, with a space between.
pub(crate) fn operations_of(
    alloc: Global,
    parts: &[Part<'_>],
    repository: &mut ScopeRepository,
) -> Option<Vec<(usize, ScopeStackOp)>> {
    let mut operations = Vec::new(alloc);
    for line in body_of(parts, "given operations")?.lines() {
        let (place, text) = line.split_once(' ')?;
        let place = place.parse::<usize>().ok()?;
        operations
            .push((place, operation_of(text, repository)?))
            .ok()?;
    }
    Some(operations)
}

/// Adds an operation, and a newline.
pub fn write_operation(
    operation: &ScopeStackOp,
    repository: &ScopeRepository,
    out: &mut String,
) -> Option<()> {
    match operation {
        ScopeStackOp::Push(scope) => {
            let scope = repository.to_string(*scope).ok()?;
            writeln!(out, "push {scope}").ok()
        }
        ScopeStackOp::Pop(count) => writeln!(out, "pop {count}").ok(),
        ScopeStackOp::Clear(ClearAmount::TopN(count)) => writeln!(out, "clear {count}").ok(),
        ScopeStackOp::Clear(ClearAmount::All) => out.push_str("clear all\n").ok(),
        ScopeStackOp::Restore => out.push_str("restore\n").ok(),
        ScopeStackOp::Noop => out.push_str("noop\n").ok(),
    }
}

/// Adds the spans of a line, and in the next line how many more of them are open after it.
fn write_spans(
    alloc: Global,
    line: &str,
    operations: &[(usize, ScopeStackOp)],
    repository: &ScopeRepository,
    out: &mut String,
) -> Option<()> {
    if !are_in_order(line, operations) {
        return None;
    }
    let mut stack = ScopeStack::new(alloc);
    let style = ClassStyle::Spaced;
    let spans = line_tokens_to_classed_spans(
        alloc, line, operations, style, &mut stack, repository,
    );
    let (text, number) = spans.ok()?;
    writeln!(out, "{}", text.as_str()).ok()?;
    writeln!(out, "{number}").ok()
}

/// Adds the operations below their line.
fn write_below(
    alloc: Global,
    line: &str,
    operations: &[(usize, ScopeStackOp)],
    repository: &ScopeRepository,
    out: &mut String,
) -> Option<()> {
    let mut bytes = Vec::new(alloc);
    debug_print_ops(line, operations, repository, &mut bytes).ok()?;
    out.push_str(std::str::from_utf8(bytes.as_slice()).ok()?)
        .ok()
}

/// Adds each range of a line, with the operation before it.
fn write_ranges(
    line: &str,
    operations: &[(usize, ScopeStackOp)],
    repository: &ScopeRepository,
    out: &mut String,
) -> Option<()> {
    if !are_in_order(line, operations) {
        return None;
    }
    for (range, operation) in ScopeRangeIterator::new(operations, line) {
        write!(out, "{}..{} ", range.start, range.end).ok()?;
        write_operation(&operation, repository, out)?;
    }
    Some(())
}

/// Adds what is made of a line and the operations that the row gives: spans with classes, ranges,
/// or the operations as text.
pub fn write_changes(
    alloc: Global,
    parts: &[Part<'_>],
    (heading, line): (&str, &str),
    repository: &mut ScopeRepository,
    out: &mut String,
) -> Option<()> {
    let operations = operations_of(alloc, parts, repository)?;
    let operations = operations.as_slice();
    match heading {
        "spans" => write_spans(alloc, line, operations, repository, out),
        "ranges" => write_ranges(line, operations, repository, out),
        _ => write_below(alloc, line, operations, repository, out),
    }
}

/// Adds what a hook hears of an operation on a stack, the two with a comma between: of each call
/// whether a scope is pushed or removed, and how many scopes it is shown.
pub fn write_hooks(
    alloc: Global,
    question: &str,
    repository: &mut ScopeRepository,
    out: &mut String,
) -> Option<()> {
    let (scopes, operation) = question.split_once(", ")?;
    let mut stack = ScopeStack::from_text(alloc, scopes, repository).ok()?;
    let operation = operation_of(operation, repository)?;
    let mut calls = Vec::new(alloc);
    let mut all = true;
    let applied = stack.apply_telling(
        &operation,
        &mut |what, shown| {
            all = calls.push((what, shown.len())).is_ok() && all;
        },
    );
    if applied.is_err() {
        return out.push_str("refused").ok();
    }
    for (what, shown) in &calls {
        let word = match what {
            BasicScopeStackOp::Push(_) => "push",
            BasicScopeStackOp::Pop => "pop",
        };
        write!(out, "{word} {shown};").ok()?;
    }
    if all { Some(()) } else { None }
}
