//! References of grammars: those that lead nowhere, and contexts that none leads to.
use std::alloc::{AllocError, Global};
use vulsangi_patterns::vulsangi_grammar::findings::{Findings, Lines};
use vulsangi_patterns::vulsangi_grammar::grammar::{Grammar, Item, steps_and};
use vulsangi_patterns::vulsangi_grammar::place::Step;
use vulsangi_patterns::vulsangi_grammar::rules::{LEADS_NOWHERE, MANY_PATTERNS, NOT_REACHED};
use vulsangi_patterns::vulsangi_grammar::syntect_yaml::value::Yaml;

/// A reference of an item.
#[derive(Drop)]
struct Reference<'y> {
    /// The number of the context that it stands in.
    from: usize,
    /// What it names.
    name: &'y str,
    key: &'static str,
    /// Whether it includes, in the context itself and not in one inside of it.
    is_include: bool,
    steps: Vec<Step<'y>>,
}

/// The keys at which references stand.
const KEYS: &[&str] = &["include", "push", "set", "embed", "with_prototype"];

/// Whether a key of an item includes, in a context with a name.
fn is_include(item: &Item<'_>, key: &str) -> bool {
    key == "include" && item.steps.len() == 3
}

/// Adds the references in a value.
fn add_named<'y>(
    alloc: Global,
    item: &Item<'y>,
    key: &'static str,
    value: &'y Yaml,
    references: &mut Vec<Reference<'y>>,
) -> Result<(), AllocError> {
    if let Some(name) = value.as_str() {
        references.push(Reference {
            from: item.context,
            name,
            key,
            is_include: is_include(item, key),
            steps: steps_and(alloc, item.steps.as_slice(), Step::Key(key))?,
        })?;
    }
    for one in value.as_list().unwrap_or(&[]) {
        if let Some(name) = one.as_str() {
            references.push(Reference {
                from: item.context,
                name,
                key,
                is_include: is_include(item, key),
                steps: steps_and(alloc, item.steps.as_slice(), Step::Key(key))?,
            })?;
        }
    }
    Ok(())
}

/// The references of items.
fn references_of<'y>(alloc: Global, items: &[Item<'y>]) -> Result<Vec<Reference<'y>>, AllocError> {
    let mut references = Vec::new(alloc);
    for item in items {
        add_item(alloc, item, &mut references)?;
    }
    Ok(references)
}

/// Adds those of an item.
fn add_item<'y>(
    alloc: Global,
    item: &Item<'y>,
    references: &mut Vec<Reference<'y>>,
) -> Result<(), AllocError> {
    for key in KEYS {
        if let Some(value) = item.map.get(*key) {
            add_named(alloc, item, *key, value, references)?;
        }
    }
    Ok(())
}

/// The name of a grammar's file, without its ending and its folders.
fn stem_of(path: &str) -> &str {
    let name = match path.rsplit_once('/') {
        Some((_, name)) => name,
        None => path,
    };
    name.strip_suffix(".sublime-syntax").unwrap_or(name)
}

/// Whether a grammar is the one that a text names, by its scope or its file.
fn is_named(grammar: &Grammar, name: &str) -> bool {
    match name.strip_prefix("scope:") {
        Some(scope) => match grammar.text_at("scope") {
            Some(own) => own.trim() == scope.trim(),
            None => false,
        },
        None => {
            let stem = stem_of(name);
            stem_of(grammar.path.as_str()) == stem || grammar.text_at("name") == Some(stem)
        }
    }
}

/// Whether a text names another grammar, perhaps with a context of it.
fn is_foreign(name: &str) -> bool {
    let (front, _) = name.split_once('#').unwrap_or((name, ""));
    front.starts_with("scope:") || front.ends_with(".sublime-syntax")
}

/// Whether a grammar has a context.
fn has_context(grammar: &Grammar, name: &str) -> bool {
    match grammar.get("contexts") {
        Some(contexts) => contexts.get(name).is_some(),
        None => false,
    }
}

/// Why a reference to another grammar leads nowhere, if it does.
fn why_foreign(
    alloc: Global,
    grammars: &[Grammar],
    name: &str,
) -> Result<Option<String>, AllocError> {
    let (front, context) = name.split_once('#').unwrap_or((name, "main"));
    let mut is_there = false;
    for grammar in grammars {
        if is_named(grammar, front) {
            is_there = true;
            if has_context(grammar, context) {
                return Ok(None);
            }
        }
    }
    let message = if is_there {
        format!(in alloc; "`{front}` has no context `{context}`")?
    } else {
        format!(in alloc; "no grammar here is `{front}`")?
    };
    Ok(Some(message))
}

/// Adds that a reference leads nowhere, if it does.
fn check_reference(
    alloc: Global,
    grammar: &Grammar,
    grammars: &[Grammar],
    lines: &Lines<'_>,
    reference: &Reference<'_>,
    findings: &mut Findings,
) -> Result<(), AllocError> {
    let name = reference.name;
    if is_foreign(name) {
        if let Some(message) = why_foreign(alloc, grammars, name)? {
            findings.add(LEADS_NOWHERE, lines, reference.steps.as_slice(), message)?;
        }
        return Ok(());
    }
    let (front, _) = name.split_once('#').unwrap_or((name, ""));
    if has_context(grammar, front) {
        return Ok(());
    }
    let key = reference.key;
    let message = format!(in alloc; "`{key}` names `{front}`, and there is no such context")?;
    findings.add(LEADS_NOWHERE, lines, reference.steps.as_slice(), message)
}

/// The number of a context.
fn number_of(grammar: &Grammar, name: &str) -> Option<usize> {
    let mut number = 0usize;
    for entry in grammar.entries("contexts") {
        if entry.0.as_str() == Some(name) {
            return Some(number);
        }
        number = number.saturating_add(1);
    }
    None
}

/// The ways from context to context: the numbers of both, and whether the first includes the
/// second.
fn ways_of(
    alloc: Global,
    grammar: &Grammar,
    references: &[Reference<'_>],
) -> Result<Vec<(usize, usize, bool)>, AllocError> {
    let mut ways = Vec::new(alloc);
    for reference in references {
        let (front, _) = reference
            .name
            .split_once('#')
            .unwrap_or((reference.name, ""));
        if is_foreign(reference.name) {
            continue;
        }
        if let Some(to) = number_of(grammar, front) {
            ways.push((reference.from, to, reference.is_include))?;
        }
    }
    Ok(ways)
}

/// Adds the contexts of other grammars that items name, as they name them.
pub fn add_foreign<'y>(
    alloc: Global,
    items: &[Item<'y>],
    foreign: &mut Vec<&'y str>,
) -> Result<(), AllocError> {
    for reference in references_of(alloc, items)?.as_slice() {
        let name: &'y str = reference.name;
        if name.contains('#') && is_foreign(name) {
            foreign.push(name)?;
        }
    }
    Ok(())
}

/// Whether a grammar that is looked through names a context of this one as another's.
pub fn is_named_elsewhere(grammar: &Grammar, foreign: &[&str], context: &str) -> bool {
    for name in foreign {
        if let Some((front, named)) = name.split_once('#') {
            if named == context && is_named(grammar, front) {
                return true;
            }
        }
    }
    false
}

/// Which contexts are reached at once: by name, or from other grammars.
fn first_reached(
    alloc: Global,
    grammar: &Grammar,
    foreign: &[&str],
) -> Result<Vec<bool>, AllocError> {
    let mut reached = Vec::new(alloc);
    for entry in grammar.entries("contexts") {
        let name = entry.0.as_str().unwrap_or("");
        let is_first = name == "main" || name == "prototype";
        reached.push(is_first || is_named_elsewhere(grammar, foreign, name))?;
    }
    Ok(reached)
}

/// Goes each way once, and answers whether a further context is reached.
fn reach_once(ways: &[(usize, usize, bool)], reached: &mut [bool]) -> bool {
    let mut is_new = false;
    for (from, to, _) in ways {
        if reached.get(*from) == Some(&true) {
            if let Some(place) = reached.get_mut(*to) {
                is_new |= !*place;
                *place = true;
            }
        }
    }
    is_new
}

/// Adds the contexts that nothing reaches.
fn check_reached(
    alloc: Global,
    grammar: &Grammar,
    foreign: &[&str],
    lines: &Lines<'_>,
    ways: &[(usize, usize, bool)],
    findings: &mut Findings,
) -> Result<(), AllocError> {
    let mut reached = first_reached(alloc, grammar, foreign)?;
    for _ in 0..reached.len() {
        if !reach_once(ways, reached.as_mut_slice()) {
            break;
        }
    }
    for (entry, is_reached) in grammar
        .entries("contexts")
        .iter()
        .zip(reached.as_slice().iter())
    {
        let name = entry.0.as_str().unwrap_or("");
        if !*is_reached {
            let message = format!(in alloc; "nothing reaches the context `{name}`")?;
            findings.add_key(NOT_REACHED, lines, &[Step::Key("contexts")], name, message)?;
        }
    }
    Ok(())
}

/// How many patterns a context has by itself.
fn own_patterns(value: &Yaml) -> usize {
    let mut count = 0usize;
    for item in value.as_list().unwrap_or(&[]) {
        if item.get("match").is_some() {
            count = count.saturating_add(1);
        }
    }
    count
}

/// How many patterns contexts have with their includes, by how many they have with those of one
/// turn less.
fn counted_once(
    alloc: Global,
    own: &[usize],
    ways: &[(usize, usize, bool)],
    before: &[usize],
) -> Result<Vec<usize>, AllocError> {
    let mut counts = Vec::new(alloc);
    for count in own {
        counts.push(*count)?;
    }
    for (from, to, is_include) in ways {
        let more = before.get(*to).copied().unwrap_or(0);
        if let Some(place) = counts.as_mut_slice().get_mut(*from) {
            if *is_include {
                *place = place.saturating_add(more);
            }
        }
    }
    Ok(counts)
}

/// So many turns of includes in includes are followed.
const MOST_TURNS: usize = 16;

/// A context of more patterns is told.
const MANY: usize = 1000;

/// Adds the contexts of many patterns.
fn check_size(
    alloc: Global,
    grammar: &Grammar,
    lines: &Lines<'_>,
    ways: &[(usize, usize, bool)],
    findings: &mut Findings,
) -> Result<(), AllocError> {
    let mut own = Vec::new(alloc);
    for entry in grammar.entries("contexts") {
        own.push(own_patterns(&entry.1))?;
    }
    let mut counts: Vec<usize> = Vec::new(alloc);
    for _ in 0..MOST_TURNS {
        counts = counted_once(alloc, own.as_slice(), ways, counts.as_slice())?;
    }
    for (entry, count) in grammar
        .entries("contexts")
        .iter()
        .zip(counts.as_slice().iter())
    {
        let name = entry.0.as_str().unwrap_or("");
        if *count > MANY {
            let message = format!(in alloc; "`{name}` has {count} patterns with its includes")?;
            findings.add_key(
                MANY_PATTERNS,
                lines,
                &[Step::Key("contexts")],
                name,
                message,
            )?;
        }
    }
    Ok(())
}

/// Adds the grammars that items name, of those that are looked through.
pub fn mark_named(
    alloc: Global,
    items: &[Item<'_>],
    grammars: &[Grammar],
    marks: &mut [bool],
) -> Result<(), AllocError> {
    for reference in references_of(alloc, items)?.as_slice() {
        let (front, _) = reference
            .name
            .split_once('#')
            .unwrap_or((reference.name, ""));
        if !is_foreign(reference.name) {
            continue;
        }
        for (grammar, mark) in grammars.iter().zip(marks.iter_mut()) {
            *mark |= is_named(grammar, front);
        }
    }
    Ok(())
}

/// Adds what is wrong with the references of a grammar, one of those that are looked through, whose
/// references to contexts of others are given too.
pub fn check<'y>(
    alloc: Global,
    grammar: &'y Grammar,
    (grammars, foreign): (&[Grammar], &[&str]),
    lines: &Lines<'_>,
    items: &[Item<'y>],
    findings: &mut Findings,
) -> Result<(), AllocError> {
    let references = references_of(alloc, items)?;
    for reference in references.as_slice() {
        check_reference(alloc, grammar, grammars, lines, reference, findings)?;
    }
    let ways = ways_of(alloc, grammar, references.as_slice())?;
    if grammar.definition.is_some() {
        check_reached(alloc, grammar, foreign, lines, ways.as_slice(), findings)?;
    }
    check_size(alloc, grammar, lines, ways.as_slice(), findings)
}
