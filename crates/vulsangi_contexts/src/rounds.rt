//! Contexts that open one another without reading, and a `main` that is left.
use crate::lists::{Entry, List, Way, flags, is_set, number_of, reach, set};
use std::alloc::Global;
use vulsangi_patterns::vulsangi_grammar::findings::{Findings, Lines};
use vulsangi_patterns::vulsangi_grammar::grammar::{Grammar, Item};
use vulsangi_patterns::vulsangi_grammar::place::Step;
use vulsangi_patterns::vulsangi_grammar::rules::{GOES_ROUND, LEAVES_MAIN};
use vulsangi_patterns::vulsangi_grammar::syntect::assets::AssetsError;
use vulsangi_patterns::vulsangi_grammar::syntect::parsing::syntax_definition::{
    Context, ContextReference, MatchOperation, MatchPattern, Pattern,
};

/// The context of the same grammar that a reference names.
fn named(reference: Option<&ContextReference>) -> Option<&str> {
    match reference {
        Some(ContextReference::Named(name)) => Some(name.as_str()),
        Some(ContextReference::Inline(name)) => Some(name.as_str()),
        _ => None,
    }
}

/// The context that a match opens last.
fn opens(pattern: &MatchPattern) -> Option<&str> {
    match &pattern.operation {
        MatchOperation::Push(references) => named(references.as_slice().last()),
        MatchOperation::Set(references) => named(references.as_slice().last()),
        _ => None,
    }
}

/// The context that one opens at once, where nothing is left of a line.
fn opens_at_once(alloc: Global, context: &Context) -> Result<Option<&str>, AssetsError> {
    for pattern in context.patterns.as_slice() {
        let Pattern::Match(pattern) = pattern else {
            return Ok(None);
        };
        if pattern.has_captures {
            return Ok(None);
        }
        let acts = pattern.operation != MatchOperation::None;
        if acts && pattern.regex.is_match(alloc, "")? {
            return Ok(opens(pattern));
        }
    }
    Ok(None)
}

/// Whether contexts open one another, from one back to it, in at most so many turns.
fn goes_round(
    alloc: Global,
    grammar: &Grammar,
    name: &str,
    most: usize,
) -> Result<bool, AssetsError> {
    let mut at = String::from_str(alloc, name)?;
    for _ in 0..most {
        let Some(context) = grammar.loaded(alloc, at.as_str())? else {
            return Ok(false);
        };
        let Some(next) = opens_at_once(alloc, context)? else {
            return Ok(false);
        };
        if next == name {
            return Ok(true);
        }
        at = String::from_str(alloc, next)?;
    }
    Ok(false)
}

/// Adds the contexts that open one another without reading.
pub fn check(
    alloc: Global,
    grammar: &Grammar,
    lines: &Lines<'_>,
    findings: &mut Findings,
) -> Result<(), AssetsError> {
    let contexts = grammar.entries("contexts");
    for entry in contexts {
        let name = entry.0.as_str().unwrap_or("");
        if goes_round(alloc, grammar, name, contexts.len())? {
            let message = format!(in alloc; "`{name}` is opened again before anything is read")?;
            findings.add_key(GOES_ROUND, lines, &[Step::Key("contexts")], name, message)?;
        }
    }
    Ok(())
}

/// Whether an entry leaves the context that asks it, or includes what does.
fn leaves(alloc: Global, lists: &[List<'_>], entry: &Entry) -> Result<bool, AssetsError> {
    if entry.way != Way::Includes {
        return Ok(entry.way == Way::Leaves);
    }
    let mut asked = flags(alloc, lists.len(), false)?;
    for target in entry.targets.as_slice() {
        set(asked.as_mut_slice(), target.unwrap_or(usize::MAX), true);
    }
    reach(lists, true, asked.as_mut_slice());
    for (number, list) in lists.iter().enumerate() {
        let has = list.entries.as_slice().iter().any(|e| e.way == Way::Leaves);
        if has && is_set(asked.as_slice(), number) {
            return Ok(true);
        }
    }
    Ok(false)
}

/// Adds the patterns of `main`, and its includes, that leave it.
pub fn check_main(
    alloc: Global,
    lines: &Lines<'_>,
    items: &[Item<'_>],
    lists: &[List<'_>],
    findings: &mut Findings,
) -> Result<(), AssetsError> {
    let Some(main) = number_of(lists, "main").and_then(|number| lists.get(number)) else {
        return Ok(());
    };
    for entry in main.entries.as_slice() {
        let Some(item) = items.get(entry.item) else {
            continue;
        };
        if !leaves(alloc, lists, entry)? {
            continue;
        }
        let (key, message) = if entry.way == Way::Includes {
            ("include", "`main` is left by what is included here")
        } else {
            ("pop", "`main` is left")
        };
        let message = String::from_str(alloc, message)?;
        findings.add_key(LEAVES_MAIN, lines, item.steps.as_slice(), key, message)?;
    }
    Ok(())
}
