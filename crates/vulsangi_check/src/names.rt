//! Scopes outside the convention, and those that no theme knows.
use crate::vulsangi_grammar::findings::{Findings, Lines};
use crate::vulsangi_grammar::grammar::Item;
use crate::vulsangi_grammar::nearest::nearest;
use crate::vulsangi_grammar::rules::{NO_COLOUR, ODD_SCOPE};
use crate::vulsangi_grammar::syntect::Error;
use crate::vulsangi_grammar::syntect::highlighting::Theme;
use crate::vulsangi_grammar::syntect::parsing::ScopeRepository;
use crate::vulsangi_grammar::syntect_yaml::value::Yaml;
use std::alloc::{AllocError, Global};

/// What scopes begin with, by the convention.
const FRONTS: &[&str] = &[
    "comment",
    "constant",
    "entity",
    "invalid",
    "keyword",
    "markup",
    "meta",
    "punctuation",
    "source",
    "storage",
    "string",
    "support",
    "text",
    "variable",
];

/// The keys of an item at which scopes stand.
const KEYS: &[&str] = &["scope", "meta_scope", "meta_content_scope", "embed_scope"];

/// The keys of an item at which maps from groups to scopes stand.
const MAPS: &[&str] = &["captures", "escape_captures"];

/// What scopes begin with that are mostly without a rule.
const UNCOLOURED: &[&str] = &["meta", "punctuation", "source", "text"];

/// Adds the innermost scopes of the selectors of a theme's rules.
pub fn add_known(
    theme: &Theme,
    repository: &ScopeRepository,
    known: &mut Vec<String>,
) -> Result<(), Error> {
    for rule in theme.scopes.as_slice() {
        for selector in rule.scope.selectors.as_slice() {
            if let Some(scope) = selector.path.as_slice().last() {
                known.push(scope.build_string(repository)?)?;
            }
        }
    }
    Ok(())
}

/// Whether a rule of a theme is for a scope.
fn is_known(known: &[String], scope: &str) -> bool {
    for front in known {
        if let Some(rest) = scope.strip_prefix(front.as_str()) {
            if rest.is_empty() || rest.starts_with('.') {
                return true;
            }
        }
    }
    false
}

/// Adds the scopes of a text that are outside the convention.
fn check_scopes(
    alloc: Global,
    lines: &Lines<'_>,
    item: &Item<'_>,
    key: &str,
    text: &str,
    (known, findings): (&[String], &mut Findings),
) -> Result<(), AllocError> {
    for scope in text.split_whitespace() {
        let (front, _) = scope.split_once('.').unwrap_or((scope, ""));
        if FRONTS.contains(&front) {
            if !known.is_empty() && !UNCOLOURED.contains(&front) && !is_known(known, scope) {
                let message = format!(in alloc; "no theme here has a rule for `{scope}`")?;
                findings.add_key(NO_COLOUR, lines, item.steps.as_slice(), key, message)?;
            }
            continue;
        }
        let message = match nearest(FRONTS, front) {
            Some(word) => format!(in alloc; "themes don't know `{scope}`; is `{word}` meant?")?,
            None => format!(in alloc; "themes don't know `{scope}`")?,
        };
        findings.add_key(ODD_SCOPE, lines, item.steps.as_slice(), key, message)?;
    }
    Ok(())
}

/// The same of a map from groups to scopes.
fn check_map(
    alloc: Global,
    lines: &Lines<'_>,
    item: &Item<'_>,
    key: &str,
    map: &Yaml,
    (known, findings): (&[String], &mut Findings),
) -> Result<(), AllocError> {
    for entry in map.as_map().unwrap_or(&[]) {
        let text = entry.1.as_str().unwrap_or("");
        check_scopes(alloc, lines, item, key, text, (known, &mut *findings))?;
    }
    Ok(())
}

/// Adds the scopes of an item that are outside the convention, or that no theme knows.
pub fn check_item(
    alloc: Global,
    lines: &Lines<'_>,
    item: &Item<'_>,
    known: &[String],
    findings: &mut Findings,
) -> Result<(), AllocError> {
    for key in KEYS {
        if let Some(value) = item.map.get(*key) {
            let text = value.as_str().unwrap_or("");
            check_scopes(alloc, lines, item, *key, text, (known, &mut *findings))?;
        }
    }
    for key in MAPS {
        if let Some(map) = item.map.get(*key) {
            check_map(alloc, lines, item, *key, map, (known, &mut *findings))?;
        }
    }
    Ok(())
}
