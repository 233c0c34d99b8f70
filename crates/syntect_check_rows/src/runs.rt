//! The scopes of each stretch of a text's lines.
use crate::below::parsing::parser::ParseState;
use crate::below::scope::repository::ScopeRepository;
use crate::below::scope::stack::{ScopeStack, ScopeStackOp};
use crate::given::{Given, line_as_given};
use crate::operations::write_refusal;
use std::alloc::Global;
use syntect_easy::util::LinesWithEndings;

/// A stretch of a line, and the scopes of its bytes.
#[derive(Drop)]
struct Run {
    from: usize,
    to: usize,
    scopes: String,
}

/// Adds the stretch up to a place, with the stack's scopes: to the one before it if that has them.
fn add_run(
    runs: &mut Vec<Run>,
    to: usize,
    stack: &ScopeStack,
    repository: &ScopeRepository,
) -> Option<()> {
    let from = match runs.last() {
        Some(run) => run.to,
        None => 0,
    };
    if to <= from {
        return Some(());
    }
    let scopes = stack.build_string(repository).ok()?;
    if let Some(last) = runs.last_mut() {
        if last.scopes == scopes {
            last.to = to;
            return Some(());
        }
    }
    runs.push(Run { from, to, scopes }).ok()
}

/// The stretches of a line of this length, by its operations.
fn runs_of(
    alloc: Global,
    length: usize,
    operations: &[(usize, ScopeStackOp)],
    stack: &mut ScopeStack,
    repository: &ScopeRepository,
) -> Option<Vec<Run>> {
    let mut runs = Vec::new(alloc);
    for (place, operation) in operations {
        add_run(&mut runs, *place, stack, repository)?;
        stack.apply(operation).ok()?;
    }
    add_run(&mut runs, length, stack, repository)?;
    Some(runs)
}

/// Adds stretches of a line.
fn add_runs(runs: &[Run], out: &mut String) -> Option<()> {
    for run in runs {
        let (from, to, scopes) = (run.from, run.to, run.scopes.as_str().trim_end());
        writeln!(out, "{from}..{to} {scopes}").ok()?;
    }
    Some(())
}

/// Reads a line, and adds its stretches, or its refusal.
fn write_line(
    given: Given<'_>,
    line: &str,
    state: &mut ParseState,
    stack: &mut ScopeStack,
    repository: &ScopeRepository,
    out: &mut String,
) -> Option<()> {
    match state.parse_line(given.alloc, line, given.set) {
        Ok(operations) => {
            let runs = runs_of(
                given.alloc,
                line.len(),
                operations.as_slice(),
                stack,
                repository,
            )?;
            add_runs(runs.as_slice(), out)
        }
        Err(refusal) => write_refusal(&refusal, repository, out),
    }
}

/// Adds of each of a text's lines its number, its length in bytes, and each stretch's place and
/// scopes, or why it is refused. None without a syntax or memory, or where an operation is refused.
pub fn write_scopes(
    given: Given<'_>,
    repository: &ScopeRepository,
    out: &mut String,
) -> Option<()> {
    let mut state = ParseState::new(given.alloc, given.syntax?).ok()?;
    let mut stack = ScopeStack::new(given.alloc);
    let mut number = 0u64;
    for line in LinesWithEndings::from(given.text) {
        let line = line_as_given(line, given.is_bare);
        number = number.saturating_add(1);
        let length = line.len();
        writeln!(out, "L{number} {length}").ok()?;
        write_line(given, line, &mut state, &mut stack, repository, out)?;
    }
    Some(())
}
