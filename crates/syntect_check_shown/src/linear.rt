//! Which patterns of a set are not searched in time that is linear in the line.
use crate::below::grammar::syntax_set::{SyntaxReference, SyntaxSet};
use std::alloc::Global;
use syntect_reading_state::syntax_definition::{Context, Pattern};

/// How many patterns there are, and those that aren't linear as text, a line each.
#[derive(Drop)]
struct Told {
    count: u64,
    others: u64,
    lines: String,
}

/// Adds the patterns of a context.
fn tell_of(alloc: Global, context: &Context, told: &mut Told) -> Option<()> {
    for pattern in &context.patterns {
        if let Pattern::Match(pattern) = pattern {
            told.count = told.count.saturating_add(1);
            if !pattern.regex.is_linear(alloc).ok()? {
                told.others = told.others.saturating_add(1);
                let text = pattern.regex.regex_str();
                writeln!(&mut told.lines, "\t{text}").ok()?;
            }
        }
    }
    Some(())
}

/// Adds the name of a syntax, how many patterns it has and how many are not linear, and these.
fn write_linear_of(alloc: Global, syntax: &SyntaxReference, out: &mut String) -> Option<()> {
    let mut told = Told {
        count: 0,
        others: 0,
        lines: String::new(alloc),
    };
    for context in &syntax.contexts {
        tell_of(alloc, context, &mut told)?;
    }
    let (count, others) = (told.count, told.others);
    let name = syntax.name.as_str();
    let lines = told.lines.as_str();
    write!(out, "{name}\t{count}\t{others}\n{lines}").ok()
}

/// Adds each syntax with the patterns that aren't linear.
pub fn write_linear(alloc: Global, set: &SyntaxSet, out: &mut String) -> Option<()> {
    for syntax in set.syntaxes() {
        write_linear_of(alloc, syntax, out)?;
    }
    Some(())
}
