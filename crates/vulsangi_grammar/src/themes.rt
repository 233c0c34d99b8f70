//! What is wrong with themes.
use crate::findings::{Findings, Lines};
use crate::nearest::nearest;
use crate::place::Place;
use crate::rules::{NO_THEME, NOT_A_COLOUR, NOT_A_FONT, Rule, SCOPE_LIST, THEME_KEY};
use serde_json::Value;
use std::alloc::{AllocError, Global};

/// The keys of a theme.
const TOP: &[&str] = &[
    "name",
    "author",
    "settings",
    "comment",
    "uuid",
    "colorSpaceName",
    "semanticClass",
];

/// The keys of a rule.
const RULE: &[&str] = &["name", "scope", "settings", "comment"];

/// The keys of what a rule for scopes sets.
const SETS: &[&str] = &["foreground", "background", "fontStyle"];

/// The words of fonts.
const FONTS: &[&str] = &["bold", "italic", "underline", "normal", "regular"];

/// Where a text of JSON stands in quotes, from a line on.
fn place_of(lines: &Lines<'_>, alloc: Global, text: &str) -> Result<Place, AllocError> {
    let quoted = format!(in alloc; "\"{text}\"")?;
    for (number, line) in lines.lines.as_slice().iter().enumerate() {
        if let Some((front, _)) = line.split_once(quoted.as_str()) {
            return Ok(Place {
                line: number.saturating_add(1),
                column: front.chars().count().saturating_add(1),
            });
        }
    }
    Ok(Place { line: 1, column: 1 })
}

/// Adds a finding on a text in quotes.
fn tell(
    alloc: Global,
    rule: Rule,
    lines: &Lines<'_>,
    text: &str,
    message: String,
    findings: &mut Findings,
) -> Result<(), AllocError> {
    let place = place_of(lines, alloc, text)?;
    findings.add_at(rule, lines, place, message)
}

/// Adds the keys of an object that mean nothing.
fn check_keys(
    alloc: Global,
    lines: &Lines<'_>,
    keys: &'static [&'static str],
    value: &Value,
    findings: &mut Findings,
) -> Result<(), AllocError> {
    let Some(members) = value.as_object() else {
        return Ok(());
    };
    for (key, _) in members.iter() {
        let key = key.as_str();
        if (&*keys).contains(&key) {
            continue;
        }
        let message = match nearest(keys, key) {
            Some(name) => format!(in alloc; "`{key}` means nothing; is `{name}` meant?")?,
            None => format!(in alloc; "`{key}` means nothing")?,
        };
        tell(alloc, THEME_KEY, lines, key, message, findings)?;
    }
    Ok(())
}

/// Whether a text is a colour with two digits for each part.
fn is_colour(text: &str) -> bool {
    match text.strip_prefix('#') {
        Some(digits) => {
            let length = digits.len();
            (length == 6 || length == 8) && digits.chars().all(|c| c.is_ascii_hexdigit())
        }
        None => false,
    }
}

/// Adds the colour at a key that is none.
fn check_colour(
    alloc: Global,
    lines: &Lines<'_>,
    value: Option<&Value>,
    findings: &mut Findings,
) -> Result<(), AllocError> {
    let Some(value) = value else {
        return Ok(());
    };
    let text = value.as_str().unwrap_or("");
    if is_colour(text) {
        return Ok(());
    }
    let message = format!(in alloc; "`{text}` is no colour; one is written as #rrggbb")?;
    tell(alloc, NOT_A_COLOUR, lines, text, message, findings)
}

/// Adds the words of a font that are none.
fn check_font(
    alloc: Global,
    lines: &Lines<'_>,
    value: Option<&Value>,
    findings: &mut Findings,
) -> Result<(), AllocError> {
    let text = match value {
        Some(value) => value.as_str().unwrap_or(""),
        None => "",
    };
    for word in text.split_whitespace() {
        if !FONTS.contains(&word) {
            let message = match nearest(FONTS, word) {
                Some(name) => format!(in alloc; "`{word}` is no font; is `{name}` meant?")?,
                None => format!(in alloc; "`{word}` is no font")?,
            };
            tell(alloc, NOT_A_FONT, lines, text, message, findings)?;
        }
    }
    Ok(())
}

/// Adds what is wrong with a rule.
fn check_rule(
    alloc: Global,
    lines: &Lines<'_>,
    rule: &Value,
    findings: &mut Findings,
) -> Result<(), AllocError> {
    check_keys(alloc, lines, RULE, rule, findings)?;
    let Some(scope) = rule.get("scope") else {
        return Ok(());
    };
    if scope.as_str().is_none() {
        let first = match scope.as_array() {
            Some(scopes) => match scopes.as_slice().first() {
                Some(first) => first.as_str().unwrap_or("scope"),
                None => "scope",
            },
            None => "scope",
        };
        let message = format!(in alloc; "`scope` wants one text, with commas between selectors")?;
        tell(alloc, SCOPE_LIST, lines, first, message, findings)?;
    }
    let Some(sets) = rule.get("settings") else {
        return Ok(());
    };
    check_keys(alloc, lines, SETS, sets, findings)?;
    check_colour(alloc, lines, sets.get("foreground"), findings)?;
    check_colour(alloc, lines, sets.get("background"), findings)?;
    check_font(alloc, lines, sets.get("fontStyle"), findings)
}

/// Adds where a text isn't JSON, and what is wrong with a theme that is.
pub fn check_theme(
    alloc: Global,
    path: &str,
    text: &str,
    findings: &mut Findings,
) -> Result<(), AllocError> {
    let lines = Lines::of(alloc, path, text)?;
    let theme = match Value::from_str(alloc, text) {
        Ok(theme) => theme,
        Err(e) if e.is_memory() => return Err(AllocError),
        Err(e) if text.trim_start().starts_with('<') => {
            let message = format!(in alloc; "this is XML; vulsangi convert makes it JSON: {e}")?;
            return findings.add_file(NO_THEME, path, message);
        }
        Err(e) => {
            let (line, column) = (e.line(), e.column());
            let message = format!(in alloc; "{e}")?;
            return findings.add_at(NO_THEME, &lines, Place { line, column }, message);
        }
    };
    check_keys(alloc, &lines, TOP, &theme, findings)?;
    let rules = match theme.get("settings") {
        Some(rules) => rules.as_array(),
        None => None,
    };
    let Some(rules) = rules else {
        return Ok(());
    };
    for rule in rules.as_slice() {
        check_rule(alloc, &lines, rule, findings)?;
    }
    Ok(())
}
