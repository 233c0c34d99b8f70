//! Tests of grammars in Sublime Text's form: below a line comments say which scopes it has.
use crate::scopes::{By, Reading, Run, told};
use std::alloc::Global;
use syntect::Error;
use syntect::assets::{Assets, AssetsError};
use syntect::highlighting::ScopeSelectors;
use syntect::parsing::{ScopeStack, SyntaxReference};
use syntect::util::LinesWithEndings;

/// What a comment says of the line above: from a column on, so many have scopes that a selector
/// fits. Columns count characters, from 0.
#[derive(Clone, Copy)]
pub struct Assertion<'t> {
    pub first: usize,
    pub count: usize,
    pub selector: &'t str,
}

/// What begins the comments of a test, and the grammar's file that its first line names.
pub fn header_of(line: &str) -> Option<(&str, &str)> {
    let (token, rest) = line.split_once(" SYNTAX TEST \"")?;
    let (name, _) = rest.split_once('"')?;
    Some((token.trim(), name))
}

/// How many characters of a text are this one before the first other.
fn count_of(text: &str, wanted: char) -> usize {
    text.chars().take_while(|c| *c == wanted).count()
}

/// How many characters of white space a text begins with.
fn indent_of(text: &str) -> usize {
    text.chars().take_while(|c| c.is_whitespace()).count()
}

/// The selector after the marks, without the end of a comment.
fn selector_in(text: &str) -> Option<&str> {
    let selector = text.trim();
    let selector = selector.strip_suffix("*/").unwrap_or(selector);
    let selector = selector.strip_suffix("-->").unwrap_or(selector).trim();
    let is_apart = text.chars().next().is_some_and(|c| c.is_whitespace());
    if is_apart && !selector.is_empty() {
        Some(selector)
    } else {
        None
    }
}

/// What a line says of the one above, if it says something.
pub fn assertion_of<'t>(line: &'t str, token: &str) -> Option<Assertion<'t>> {
    let before = indent_of(line);
    let rest = line.trim_start().strip_prefix(token)?;
    let (after, marks) = (indent_of(rest), rest.trim_start());
    if let Some(arrow) = marks.strip_prefix('<') {
        let count = count_of(arrow, '-');
        let selector = selector_in(arrow.trim_start_matches('-'))?;
        return Some(Assertion {
            first: before,
            count,
            selector,
        });
    }
    let selector = selector_in(marks.trim_start_matches('^'))?;
    Some(Assertion {
        first: before
            .saturating_add(token.chars().count())
            .saturating_add(after),
        count: count_of(marks, '^'),
        selector,
    })
}

/// The place of a column in a line, in bytes; none at its end.
fn place_of(line: &str, column: usize) -> Option<usize> {
    match line.char_indices().nth(column) {
        Some((place, _)) => Some(place),
        None => None,
    }
}

/// The scopes over a byte.
fn scopes_at(runs: &[Run], place: usize) -> Option<&ScopeStack> {
    for run in runs {
        if run.from <= place && place < run.to {
            return Some(&run.scopes);
        }
    }
    None
}

/// How a test went.
#[derive(Drop)]
pub struct Outcome {
    /// How many columns were looked at.
    pub looked: u64,
    /// How many of them have other scopes than are wanted.
    pub wrong: u64,
    /// A line for each of these.
    pub told: String,
}

/// Compares what an assertion says with the line above it, and adds what is otherwise.
fn compare(
    alloc: Global,
    assets: &mut Assets,
    said: &Assertion<'_>,
    line: &str,
    runs: &[Run],
    place: &str,
    outcome: &mut Outcome,
) -> Result<(), AssetsError> {
    let repository = &mut assets.repository;
    // a selector may begin with an exclusion, which is one after a space alone
    let selector = format!(in alloc; " {}", said.selector)?;
    let selectors = match ScopeSelectors::from_text(alloc, selector.as_str(), repository) {
        Ok(selectors) => selectors,
        Err(e) => return Err(AssetsError::from(Error::from(e))),
    };
    let nothing = ScopeStack::new(alloc);
    let line = line.strip_suffix('\n').unwrap_or(line);
    for column in said.first..said.first.saturating_add(said.count) {
        outcome.looked = outcome.looked.saturating_add(1);
        let place_in_line = place_of(line, column).unwrap_or(line.len());
        let stack = scopes_at(runs, place_in_line).unwrap_or(&nothing);
        if selectors.does_match(stack.as_slice())?.is_none() {
            outcome.wrong = outcome.wrong.saturating_add(1);
            let there = told(alloc, stack, &assets.repository)?;
            let (from, wanted) = (column.saturating_add(1), said.selector);
            let line = format!(in alloc;
                "{place}:{from}: {wanted} is wanted, and there is {there}\n"
            )?;
            outcome.told.push_str(line.as_str())?;
        }
    }
    Ok(())
}

/// Runs a test: each line is read in the syntax, and each comment that says something is held
/// against the last line before it that says nothing.
pub fn run(
    alloc: Global,
    assets: &mut Assets,
    syntax: &SyntaxReference,
    file: &str,
    text: &str,
    token: &str,
) -> Result<Outcome, AssetsError> {
    let mut outcome = Outcome {
        looked: 0,
        wrong: 0,
        told: String::new(alloc),
    };
    let mut reading = Reading::new(alloc, syntax)?;
    let mut above = String::new(alloc);
    let (mut runs_above, mut number_above) = (Vec::new(alloc), 0u64);
    let mut number = 0u64;
    for line in LinesWithEndings::from(text) {
        number = number.saturating_add(1);
        let runs = reading.line(alloc, (&assets.set, &assets.limits), line)?;
        let said = if number == 1 {
            None
        } else {
            assertion_of(line, token)
        };
        if let Some(said) = said {
            let place = format!(in alloc; "{file}:{number_above}")?;
            compare(
                alloc,
                assets,
                &said,
                above.as_str(),
                runs_above.as_slice(),
                place.as_str(),
                &mut outcome,
            )?;
        } else {
            above = String::from_str(alloc, line)?;
            runs_above = runs;
            number_above = number;
        }
    }
    Ok(outcome)
}

/// The scopes over a character of a text: by its line, from 1, and its column, from 0.
pub fn stack_at(
    alloc: Global,
    by: By<'_>,
    syntax: &SyntaxReference,
    text: &str,
    line: u64,
    column: usize,
) -> Result<Option<ScopeStack>, AssetsError> {
    let mut reading = Reading::new(alloc, syntax)?;
    let mut number = 0u64;
    for text in LinesWithEndings::from(text) {
        number = number.saturating_add(1);
        if number < line {
            reading.pass(alloc, by, text)?;
            continue;
        }
        let runs = reading.line(alloc, by, text)?;
        let place = place_of(text, column).unwrap_or(text.len());
        return match scopes_at(runs.as_slice(), place) {
            Some(stack) => Ok(Some(stack.clone()?)),
            None => Ok(None),
        };
    }
    Ok(None)
}
