//! Where a grammar is at fault that loading refuses.
//!
//! A refusal doesn't say where it comes from. So the parts of the grammar are loaded by themselves,
//! each in a small grammar, and the first one that is refused is told.
use crate::variables::{add_uses, variable};
use crate::vulsangi_grammar::findings::{Findings, Lines};
use crate::vulsangi_grammar::grammar::{Grammar, Item, steps_and};
use crate::vulsangi_grammar::place::{Place, Step, place_of};
use crate::vulsangi_grammar::rules::NOT_LOADED;
use crate::vulsangi_grammar::scan::closers_of;
use crate::vulsangi_grammar::syntect::assets::AssetsError;
use crate::vulsangi_grammar::syntect::parsing::{
    LimitReached, Limits, LoadWithinError, ParseSyntaxError, PatternPlace, Regex, ScopeRepository,
    load_from_str_within,
};
use crate::vulsangi_grammar::syntect_yaml::read::refused_at;
use std::alloc::{AllocError, Global};

/// Patterns up to this length are gone through for the place at which they can't be read.
const MOST_READ: usize = 1000;

/// Appends a text between quotes, as YAML has it.
fn push_quoted(out: &mut String, text: &str) -> Result<(), AllocError> {
    out.push('"')?;
    for c in text.chars() {
        match c {
            '"' => out.push_str("\\\"")?,
            '\\' => out.push_str("\\\\")?,
            '\n' => out.push_str("\\n")?,
            '\r' => out.push_str("\\r")?,
            '\t' => out.push_str("\\t")?,
            c => out.push(c)?,
        }
    }
    out.push('"')
}

/// A grammar of one pattern, with the variables of another.
fn small_grammar(alloc: Global, grammar: &Grammar, text: &str) -> Result<String, AllocError> {
    let mut out = String::from_str(alloc, "{\"scope\": \"source.a\", \"variables\": {")?;
    for entry in grammar.entries("variables") {
        push_quoted(&mut out, entry.0.as_str().unwrap_or(""))?;
        out.push_str(": ")?;
        push_quoted(&mut out, entry.1.as_str().unwrap_or(""))?;
        out.push_str(", ")?;
    }
    out.push_str("}, \"contexts\": {\"main\": [{\"match\": ")?;
    push_quoted(&mut out, text)?;
    out.push_str("}]}}")?;
    Ok(out)
}

/// Whether a pattern of a grammar is refused by itself.
fn is_refused(alloc: Global, grammar: &Grammar, text: &str) -> Result<bool, AssetsError> {
    let small = small_grammar(alloc, grammar, text)?;
    let mut repository = ScopeRepository::new(alloc);
    let limits = Limits::default();
    match load_from_str_within(alloc, small.as_str(), true, None, &mut repository, &limits) {
        Ok(_) => Ok(false),
        Err(LoadWithinError::Refused(ParseSyntaxError::Memory)) => Err(AssetsError::Memory),
        Err(e) => Ok(matches!(
            e,
            LoadWithinError::Refused(ParseSyntaxError::RegexCompileError(_, _))
        )),
    }
}

/// Up to which byte a text can be read as a pattern, if what is open is closed there.
fn read_up_to(alloc: Global, text: &str) -> Result<usize, AllocError> {
    for back in 0..=text.len() {
        let Some(front) = text.get(..text.len().saturating_sub(back)) else {
            continue;
        };
        let mut whole = String::from_str(alloc, front)?;
        whole.push_str(closers_of(alloc, front)?.as_str())?;
        if Regex::try_compile(alloc, whole.as_str()).is_none() {
            return Ok(front.len());
        }
    }
    Ok(0)
}

/// What is wrong with a pattern from a byte on.
fn told_rest(alloc: Global, text: &str, byte: usize) -> Result<String, AllocError> {
    let rest = text.get(byte..).unwrap_or("");
    if rest.is_empty() {
        let closers = closers_of(alloc, text)?;
        return format!(in alloc; "the pattern ends where `{closers}` is wanted");
    }
    let mut shown = String::new(alloc);
    for c in rest.chars().take(20) {
        shown.push(c)?;
    }
    format!(in alloc; "this can't be read as a pattern from `{shown}` on")
}

/// Adds that a pattern, to which steps lead, is refused.
fn add_pattern(
    alloc: Global,
    lines: &Lines<'_>,
    steps: &[Step<'_>],
    text: &str,
    findings: &mut Findings,
) -> Result<(), AssetsError> {
    let place = place_of(lines.lines.as_slice(), steps);
    if text.len() > MOST_READ || text.contains("{{") {
        let message = format!(in alloc; "with its variables put in this is no pattern")?;
        findings.add_at(NOT_LOADED, lines, place, message)?;
        return Ok(());
    }
    let byte = read_up_to(alloc, text)?;
    let place = lines.place_in(place, text, byte);
    let message = told_rest(alloc, text, byte)?;
    findings.add_at(NOT_LOADED, lines, place, message)?;
    Ok(())
}

/// The first variable of those that a text names which is no pattern by itself.
fn faulty_variable<'y>(
    alloc: Global,
    grammar: &'y Grammar,
    text: &'y str,
) -> Result<Option<(&'y str, &'y str)>, AllocError> {
    let mut names = Vec::new(alloc);
    add_uses(text, &mut names)?;
    for name in names.as_slice() {
        let inner = variable(grammar, *name).unwrap_or("");
        if !inner.contains("{{") && Regex::try_compile(alloc, inner).is_some() {
            return Ok(Some((*name, inner)));
        }
    }
    Ok(None)
}

/// Adds that a pattern is refused: at the variable that makes it so, where there is one.
fn add_refused(
    alloc: Global,
    grammar: &Grammar,
    lines: &Lines<'_>,
    steps: &[Step<'_>],
    text: &str,
    findings: &mut Findings,
) -> Result<(), AssetsError> {
    let Some((name, inner)) = faulty_variable(alloc, grammar, text)? else {
        return add_pattern(alloc, lines, steps, text, findings);
    };
    let steps = [Step::Key("variables"), Step::Key(name)];
    let mut own = Findings::new(alloc);
    add_pattern(alloc, lines, &steps, inner, &mut own)?;
    for finding in own.found {
        let is_told = match finding.place {
            Some(place) => findings.tells(place),
            None => false,
        };
        if !is_told {
            findings.found.push(finding)?;
        }
    }
    Ok(())
}

/// Adds the patterns of an item that are refused, and answers whether there are any.
fn check_item(
    alloc: Global,
    grammar: &Grammar,
    lines: &Lines<'_>,
    item: &Item<'_>,
    findings: &mut Findings,
) -> Result<bool, AssetsError> {
    let keys: &[&str] = &["match", "escape"];
    let mut any = false;
    for key in keys {
        let text = match item.map.get(*key) {
            Some(value) => value.as_str().unwrap_or(""),
            None => "",
        };
        if !text.is_empty() && is_refused(alloc, grammar, text)? {
            let steps = steps_and(alloc, item.steps.as_slice(), Step::Key(*key))?;
            add_refused(alloc, grammar, lines, steps.as_slice(), text, findings)?;
            any = true;
        }
    }
    Ok(any)
}

/// Whether an item lacks the pattern that it must have.
fn lacks_pattern(item: &Item<'_>) -> bool {
    let keys: &[&str] = &[
        "match",
        "include",
        "meta_scope",
        "meta_content_scope",
        "meta_include_prototype",
        "clear_scopes",
    ];
    for key in keys {
        if item.map.get(*key).is_some() {
            return false;
        }
    }
    true
}

/// Adds the items that are refused, and answers whether there are any.
fn check_items(
    alloc: Global,
    grammar: &Grammar,
    lines: &Lines<'_>,
    items: &[Item<'_>],
    findings: &mut Findings,
) -> Result<bool, AssetsError> {
    let mut any = false;
    for item in items {
        if lacks_pattern(item) {
            let message = format!(in alloc; "an item has a `match`, an `include`, or a `meta_`")?;
            findings.add(NOT_LOADED, lines, item.steps.as_slice(), message)?;
            any = true;
        } else {
            any |= check_item(alloc, grammar, lines, item, findings)?;
        }
    }
    Ok(any)
}

/// Adds that a pattern would pass a limit.
fn add_limit(
    lines: &Lines<'_>,
    place: &PatternPlace,
    message: String,
    findings: &mut Findings,
) -> Result<(), AssetsError> {
    let steps = [
        Step::Key("contexts"),
        Step::Key(place.context.as_str()),
        Step::Item(place.item),
    ];
    findings.add(NOT_LOADED, lines, &steps, message)?;
    Ok(())
}

/// Adds that a text is no YAML at a place, where it may have a tab that can't be seen.
fn add_yaml(
    alloc: Global,
    lines: &Lines<'_>,
    place: Place,
    message: String,
    findings: &mut Findings,
) -> Result<(), AssetsError> {
    let line = match lines.lines.get(place.line.saturating_sub(1)) {
        Some(line) => *line,
        None => "",
    };
    let spaces = line
        .len()
        .saturating_sub(line.trim_start_matches(' ').len());
    if !line.trim_start_matches(' ').starts_with('\t') {
        findings.add_at(NOT_LOADED, lines, place, message)?;
        return Ok(());
    }
    let place = Place {
        line: place.line,
        column: spaces.saturating_add(1),
    };
    let message = format!(in alloc; "a tab stands in the indentation, where YAML wants spaces")?;
    findings.add_at(NOT_LOADED, lines, place, message)?;
    Ok(())
}

/// Adds why a grammar isn't loaded, at the places that are at fault where they are known.
pub fn check(
    alloc: Global,
    grammar: &Grammar,
    lines: &Lines<'_>,
    items: &[Item<'_>],
    e: &LoadWithinError,
    findings: &mut Findings,
) -> Result<(), AssetsError> {
    let message = format!(in alloc; "{e}")?;
    match e {
        LoadWithinError::LimitReached(LimitReached::Pattern(place)) => {
            return add_limit(lines, place, message, findings);
        }
        LoadWithinError::LimitReached(LimitReached::Patterns(place)) => {
            return add_limit(lines, place, message, findings);
        }
        _ => {}
    }
    if let Some(place) = refused_at(alloc, grammar.text.as_str())? {
        let (line, column) = (place.line, place.column);
        return add_yaml(alloc, lines, Place { line, column }, message, findings);
    }
    if !check_items(alloc, grammar, lines, items, findings)? {
        findings.add_file(NOT_LOADED, lines.path, message)?;
    }
    Ok(())
}
