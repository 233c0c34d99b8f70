//! Variables of grammars: those that aren't there, that nothing uses, and that go round.
use crate::vulsangi_grammar::findings::{Findings, Lines};
use crate::vulsangi_grammar::grammar::{Grammar, Item};
use crate::vulsangi_grammar::place::Step;
use crate::vulsangi_grammar::rules::{
    NO_FIRST_LINE, NO_VARIABLE, UNUSED_VARIABLE, VARIABLE_CIRCLE,
};
use crate::vulsangi_grammar::syntect::parsing::Regex;
use std::alloc::{AllocError, Global};

/// Whether a text is the name of a variable.
fn is_name(text: &str) -> bool {
    !text.is_empty() && text.chars().all(|c| c.is_ascii_alphanumeric() || c == '_')
}

/// Adds the variables that a pattern names.
pub fn add_uses<'t>(text: &'t str, uses: &mut Vec<&'t str>) -> Result<(), AllocError> {
    for part in text.split("{{").skip(1) {
        if let Some((name, _)) = part.split_once("}}") {
            if is_name(name) {
                uses.push(name)?;
            }
        }
    }
    Ok(())
}

/// The keys at which patterns stand in an item.
const PATTERN_KEYS: &[&str] = &["match", "escape"];

/// Adds what is wrong with the variables that the text at a key names.
fn check_text(
    alloc: Global,
    grammar: &Grammar,
    lines: &Lines<'_>,
    steps: &[Step<'_>],
    key: &str,
    text: &str,
    findings: &mut Findings,
) -> Result<(), AllocError> {
    let mut names = Vec::new(alloc);
    add_uses(text, &mut names)?;
    for name in names.as_slice() {
        if variable(grammar, *name).is_none() {
            let message = format!(in alloc; "there is no variable `{name}`")?;
            findings.add_key(NO_VARIABLE, lines, steps, key, message)?;
        }
    }
    Ok(())
}

/// The text at a key of an item.
fn text_of<'y>(item: &Item<'y>, key: &str) -> &'y str {
    match item.map.get(key) {
        Some(value) => value.as_str().unwrap_or(""),
        None => "",
    }
}

/// The text of a variable.
pub fn variable<'y>(grammar: &'y Grammar, name: &str) -> Option<&'y str> {
    match grammar.get("variables") {
        Some(variables) => match variables.get(name) {
            Some(value) => Some(value.as_str().unwrap_or("")),
            None => None,
        },
        None => None,
    }
}

/// Whether a variable leads back to itself.
fn goes_round(alloc: Global, grammar: &Grammar, name: &str) -> Result<bool, AllocError> {
    let mut reached = Vec::new(alloc);
    add_uses(variable(grammar, name).unwrap_or(""), &mut reached)?;
    // each round looks at a name that was not met before
    for index in 0..grammar.text.len() {
        let Some(next) = reached.as_slice().get(index) else {
            break;
        };
        let next = *next;
        if next == name {
            return Ok(true);
        }
        let before = reached.as_slice().get(..index).unwrap_or(&[]);
        if !before.contains(&next) {
            add_uses(variable(grammar, next).unwrap_or(""), &mut reached)?;
        }
    }
    Ok(false)
}

/// Adds what is wrong with the variables that variables name, and adds these.
fn check_used<'y>(
    alloc: Global,
    grammar: &'y Grammar,
    lines: &Lines<'_>,
    uses: &mut Vec<&'y str>,
    findings: &mut Findings,
) -> Result<(), AllocError> {
    let steps = &[Step::Key("variables")];
    for entry in grammar.entries("variables") {
        let text = entry.1.as_str().unwrap_or("");
        let name = entry.0.as_str().unwrap_or("");
        check_text(alloc, grammar, lines, steps, name, text, findings)?;
        add_uses(text, uses)?;
    }
    Ok(())
}

/// Adds what is wrong with the variables themselves.
fn check_variables(
    alloc: Global,
    grammar: &Grammar,
    lines: &Lines<'_>,
    uses: &[&str],
    findings: &mut Findings,
) -> Result<(), AllocError> {
    let steps = &[Step::Key("variables")];
    for entry in grammar.entries("variables") {
        let Some(name) = entry.0.as_str() else {
            continue;
        };
        if !(&*uses).contains(&name) {
            let message = format!(in alloc; "nothing uses the variable `{name}`")?;
            findings.add_key(UNUSED_VARIABLE, lines, steps, name, message)?;
        }
        if goes_round(alloc, grammar, name)? {
            let message = format!(in alloc; "`{name}` leads back to itself")?;
            findings.add_key(VARIABLE_CIRCLE, lines, steps, name, message)?;
        }
    }
    Ok(())
}

/// Adds what is wrong with the pattern of first lines.
fn check_first_line(
    alloc: Global,
    grammar: &Grammar,
    lines: &Lines<'_>,
    findings: &mut Findings,
) -> Result<(), AllocError> {
    let Some(definition) = &grammar.definition else {
        return Ok(());
    };
    let Some(text) = &definition.first_line_match else {
        return Ok(());
    };
    if let Some(e) = Regex::try_compile(alloc, text.as_str()) {
        let message = format!(in alloc; "`first_line_match` is no pattern: {e}")?;
        findings.add_key(NO_FIRST_LINE, lines, &[], "first_line_match", message)?;
    }
    Ok(())
}

/// Adds what is wrong with the variables of a grammar, and with its pattern of first lines.
pub fn check<'y>(
    alloc: Global,
    grammar: &'y Grammar,
    lines: &Lines<'_>,
    items: &[Item<'y>],
    findings: &mut Findings,
) -> Result<(), AllocError> {
    let mut uses: Vec<&str> = Vec::new(alloc);
    for item in items {
        let (steps, pattern, escape) = (
            item.steps.as_slice(),
            text_of(item, "match"),
            text_of(item, "escape"),
        );
        check_text(alloc, grammar, lines, steps, "match", pattern, findings)?;
        check_text(alloc, grammar, lines, steps, "escape", escape, findings)?;
        add_uses(pattern, &mut uses)?;
        add_uses(escape, &mut uses)?;
    }
    check_used(alloc, grammar, lines, &mut uses, findings)?;
    check_variables(alloc, grammar, lines, uses.as_slice(), findings)?;
    check_first_line(alloc, grammar, lines, findings)
}
