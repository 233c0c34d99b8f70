//! Contexts that clear scopes out of order: so that these may come back otherwise than they went.
use crate::vulsangi_grammar::findings::{Findings, Lines};
use crate::vulsangi_grammar::grammar::{Grammar, Item};
use crate::vulsangi_grammar::rules::{CLEARS, OUT_OF_ORDER};
use crate::vulsangi_grammar::syntect::parsing::SyntaxDefinition;
use crate::vulsangi_grammar::syntect::parsing::syntax_definition::{
    Context, ContextReference, MatchOperation, Pattern,
};
use std::alloc::{AllocError, Global};
use vulsangi_contexts::lists::{Entry, List, Way, flags, is_set, number_of, reach, set};

/// The contexts that a match of an item opens.
fn opened<'y>(item: &Item<'y>) -> &'y [ContextReference] {
    let Some(Pattern::Match(pattern)) = item.pattern else {
        return &[];
    };
    match &pattern.operation {
        MatchOperation::Push(references) => references.as_slice(),
        MatchOperation::Set(references) => references.as_slice(),
        _ => &[],
    }
}

/// Whether a reference to another grammar is one to this.
fn leads_to(definition: &SyntaxDefinition, reference: &ContextReference) -> bool {
    match reference {
        ContextReference::ByScope { scope, .. } => definition.scope == *scope,
        ContextReference::File { name, .. } => definition.name.as_str() == name.as_str(),
        _ => false,
    }
}

/// The name of the context that a reference to another grammar leads to.
fn context_in(reference: &ContextReference) -> &str {
    let named = match reference {
        ContextReference::ByScope { sub_context, .. } => sub_context.as_ref(),
        ContextReference::File { sub_context, .. } => sub_context.as_ref(),
        _ => None,
    };
    match named {
        Some(name) => name.as_str(),
        None => "main",
    }
}

/// Whether a context clears.
fn clears(context: Option<&Context>) -> bool {
    match context {
        Some(context) => context.clear_scopes.is_some(),
        None => false,
    }
}

/// A context: the number of its grammar, its name, and what is loaded of it.
type Found<'g> = (usize, &'g str, &'g Context);

/// The context of a name in a grammar.
fn in_grammar<'g>(
    alloc: Global,
    grammars: &'g [Grammar],
    number: usize,
    name: &'g str,
) -> Result<Option<Found<'g>>, AllocError> {
    let Some(grammar) = grammars.get(number) else {
        return Ok(None);
    };
    match grammar.loaded(alloc, name)? {
        Some(context) => Ok(Some((number, name, context))),
        None => Ok(None),
    }
}

/// The context that a reference in a grammar leads to, in it or in another.
fn found_by<'g>(
    alloc: Global,
    grammars: &'g [Grammar],
    home: usize,
    reference: &'g ContextReference,
) -> Result<Option<Found<'g>>, AllocError> {
    match reference {
        ContextReference::Named(name) => return in_grammar(alloc, grammars, home, name.as_str()),
        ContextReference::Inline(name) => return in_grammar(alloc, grammars, home, name.as_str()),
        _ => {}
    }
    for (number, other) in grammars.iter().enumerate() {
        let Some(definition) = &other.definition else {
            continue;
        };
        if leads_to(definition, reference) {
            return in_grammar(alloc, grammars, number, context_in(reference));
        }
    }
    Ok(None)
}

/// So many contexts are gone through for a `set`.
const MOST_CONTEXTS: usize = 10_000;

/// Adds the contexts that one includes to those that wait, but for those that were seen; answers
/// whether it has a `set`.
fn add_included<'g>(
    alloc: Global,
    grammars: &'g [Grammar],
    (home, context): (usize, &'g Context),
    seen: &mut Vec<(usize, &'g str)>,
    waiting: &mut Vec<(usize, &'g Context)>,
) -> Result<bool, AllocError> {
    for pattern in context.patterns.as_slice() {
        let reference = match pattern {
            Pattern::Include(reference) => reference,
            Pattern::Match(pattern) => {
                if matches!(&pattern.operation, MatchOperation::Set(_)) {
                    return Ok(true);
                }
                continue;
            }
        };
        let Some((number, name, next)) = found_by(alloc, grammars, home, reference)? else {
            continue;
        };
        if !seen.as_slice().contains(&(number, name)) {
            seen.push((number, name))?;
            waiting.push((number, next))?;
        }
    }
    Ok(false)
}

/// Whether a context, or one that it includes, has a `set`.
fn has_set<'g>(
    alloc: Global,
    grammars: &'g [Grammar],
    home: usize,
    reference: &'g ContextReference,
) -> Result<bool, AllocError> {
    let mut seen = Vec::new(alloc);
    let mut waiting = Vec::new(alloc);
    if let Some((number, _, context)) = found_by(alloc, grammars, home, reference)? {
        waiting.push((number, context))?;
    }
    for _ in 0..MOST_CONTEXTS {
        let Some(next) = waiting.pop() else {
            return Ok(false);
        };
        if add_included(alloc, grammars, next, &mut seen, &mut waiting)? {
            return Ok(true);
        }
    }
    Ok(true)
}

/// Whether a match opens a context that clears after the first of those that it opens.
fn opens_clearing(
    alloc: Global,
    (home, grammars): (usize, &[Grammar]),
    item: &Item<'_>,
) -> Result<bool, AllocError> {
    for reference in opened(item).iter().skip(1) {
        if let Some((_, _, context)) = found_by(alloc, grammars, home, reference)? {
            if clears(Some(context)) {
                return Ok(true);
            }
        }
    }
    Ok(false)
}

/// Whether an item includes a context of another grammar which has a `set`.
fn includes_set(
    alloc: Global,
    (home, grammars): (usize, &[Grammar]),
    item: &Item<'_>,
) -> Result<bool, AllocError> {
    match item.pattern {
        Some(Pattern::Include(ContextReference::Named(_))) => Ok(false),
        Some(Pattern::Include(reference)) => has_set(alloc, grammars, home, reference),
        _ => Ok(false),
    }
}

/// Whether a `with_prototype` of an item has a `set`.
fn brings_set(
    alloc: Global,
    (home, grammars): (usize, &[Grammar]),
    item: &Item<'_>,
) -> Result<bool, AllocError> {
    match item.pattern {
        Some(Pattern::Match(pattern)) => match &pattern.with_prototype {
            Some(reference) => has_set(alloc, grammars, home, reference),
            None => Ok(false),
        },
        _ => Ok(false),
    }
}

/// The lists that are asked in contexts that clear.
fn asked_in_clearing(alloc: Global, lists: &[List<'_>]) -> Result<Vec<bool>, AllocError> {
    let mut asked = flags(alloc, lists.len(), false)?;
    let beneath = beneath_prototype(alloc, lists)?;
    for (number, list) in lists.iter().enumerate() {
        if !clears(Some(list.context)) {
            continue;
        }
        set(asked.as_mut_slice(), number, true);
        if list.context.meta_include_prototype && !is_set(beneath.as_slice(), number) {
            let prototype = number_of(lists, "prototype");
            set(asked.as_mut_slice(), prototype.unwrap_or(usize::MAX), true);
        }
    }
    reach(lists, true, asked.as_mut_slice());
    Ok(asked)
}

/// The lists that the prototype leads to, which don't ask it.
fn beneath_prototype(alloc: Global, lists: &[List<'_>]) -> Result<Vec<bool>, AllocError> {
    let mut beneath = flags(alloc, lists.len(), false)?;
    let prototype = number_of(lists, "prototype");
    set(
        beneath.as_mut_slice(),
        prototype.unwrap_or(usize::MAX),
        true,
    );
    reach(lists, false, beneath.as_mut_slice());
    Ok(beneath)
}

/// The key at which an item names the contexts that it opens.
fn key_of(item: &Item<'_>) -> &'static str {
    let keys: &[&str] = &["push", "set", "embed"];
    for key in keys {
        if item.map.get(*key).is_some() {
            return *key;
        }
    }
    "match"
}

/// Adds that an entry of a list clears out of order, if it does.
fn check_entry(
    alloc: Global,
    all: (usize, &[Grammar]),
    lines: &Lines<'_>,
    item: &Item<'_>,
    (entry, is_asked): (&Entry, bool),
    findings: &mut Findings,
) -> Result<(), AllocError> {
    let steps = item.steps.as_slice();
    if is_asked && entry.way == Way::Sets {
        let message = format!(in alloc; "this leaves a context that clears scopes by `set`")?;
        findings.add_key(OUT_OF_ORDER, lines, steps, "set", message)?;
    }
    if is_asked && entry.way == Way::Includes && includes_set(alloc, all, item)? {
        let message = format!(in alloc;
            "a `set` of what is included here leaves a context that clears scopes"
        )?;
        findings.add_key(OUT_OF_ORDER, lines, steps, "include", message)?;
    }
    if opens_clearing(alloc, all, item)? {
        let message = format!(in alloc;
            "this opens a context that clears scopes after another one"
        )?;
        findings.add_key(OUT_OF_ORDER, lines, steps, key_of(item), message)?;
    }
    Ok(())
}

/// Adds the contexts of a grammar that clear scopes, and the matches that do so out of order.
/// Answers whether patterns of a `with_prototype` may leave a context by a `set`.
pub fn check(
    alloc: Global,
    all: (usize, &[Grammar]),
    lines: &Lines<'_>,
    items: &[Item<'_>],
    lists: &[List<'_>],
    findings: &mut Findings,
) -> Result<bool, AllocError> {
    let mut brings = false;
    for item in items {
        if item.map.get("clear_scopes").is_some() {
            let message = format!(in alloc; "the context clears scopes")?;
            findings.add_key(
                CLEARS,
                lines,
                item.steps.as_slice(),
                "clear_scopes",
                message,
            )?;
        }
        brings = brings || brings_set(alloc, all, item)?;
    }
    let asked = asked_in_clearing(alloc, lists)?;
    for (number, list) in lists.iter().enumerate() {
        let is_asked = is_set(asked.as_slice(), number);
        for entry in list.entries.as_slice() {
            if let Some(item) = items.get(entry.item) {
                check_entry(alloc, all, lines, item, (entry, is_asked), findings)?;
            }
        }
    }
    Ok(brings)
}
