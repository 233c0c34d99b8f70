//! Themes of other editors as themes of this program.
use crate::loose::json_of as json_of_loose;
use crate::plist::{json_of as json_of_list, push_text};
use serde_json::Value;
use std::alloc::{AllocError, Global};
use std::fs;
use std::rt::Files;
use syntect::assets::AssetsError;
use syntect::highlighting::ThemeSet;
use syntect::parsing::ScopeRepository;

/// The colours of an editor that a theme has, by their names in both.
const COLORS: &[(&str, &str)] = &[
    ("editor.background", "background"),
    ("editor.foreground", "foreground"),
    ("editorCursor.foreground", "caret"),
    ("editor.lineHighlightBackground", "lineHighlight"),
    ("editor.selectionBackground", "selection"),
    ("editorGutter.background", "gutter"),
    ("editorLineNumber.foreground", "gutterForeground"),
    ("editorIndentGuide.background", "guide"),
];

/// A member of an object that is a text.
fn text_at<'v>(value: &'v Value, name: &str) -> Option<&'v str> {
    match value.get(name) {
        Some(member) => member.as_str(),
        None => None,
    }
}

/// Appends a member that is a text, after a comma where it isn't the first.
fn push_member(
    out: &mut String,
    is_first: &mut bool,
    name: &str,
    text: &str,
) -> Result<(), AllocError> {
    if !*is_first {
        out.push_str(", ")?;
    }
    *is_first = false;
    push_text(out, name)?;
    out.push_str(": ")?;
    push_text(out, text)
}

/// Appends the colours of the editor.
fn push_colors(out: &mut String, colors: &Value) -> Result<(), AllocError> {
    out.push_str("    { \"settings\": { ")?;
    let mut is_first = true;
    for (theirs, ours) in COLORS {
        if let Some(color) = text_at(colors, *theirs) {
            push_member(out, &mut is_first, *ours, color)?;
        }
    }
    out.push_str(" } }")
}

/// Appends the scopes of a rule, which are a text or a list of such.
fn scopes_of(alloc: Global, scope: &Value) -> Result<String, AllocError> {
    let mut out = String::new(alloc);
    if let Some(text) = scope.as_str() {
        out.push_str(text)?;
    }
    let Some(scopes) = scope.as_array() else {
        return Ok(out);
    };
    for scope in scopes {
        if !out.is_empty() {
            out.push_str(", ")?;
        }
        out.push_str(scope.as_str().unwrap_or(""))?;
    }
    Ok(out)
}

/// Appends what a rule sets.
fn push_settings(out: &mut String, settings: &Value) -> Result<(), AllocError> {
    out.push_str("\"settings\": { ")?;
    let mut is_first = true;
    for name in ["foreground", "background", "fontStyle"] {
        if let Some(text) = text_at(settings, name) {
            push_member(out, &mut is_first, name, text)?;
        }
    }
    out.push_str(" } }")
}

/// Appends a rule. One without scopes has the colours of text that no other rule styles.
fn push_rule(alloc: Global, out: &mut String, rule: &Value) -> Result<(), AllocError> {
    let Some(settings) = rule.get("settings") else {
        return Ok(());
    };
    out.push_str(",\n    { ")?;
    let mut is_first = true;
    if let Some(name) = text_at(rule, "name") {
        push_member(out, &mut is_first, "name", name)?;
    }
    if let Some(scope) = rule.get("scope") {
        let scopes = scopes_of(alloc, scope)?;
        push_member(out, &mut is_first, "scope", scopes.as_str())?;
    }
    if !is_first {
        out.push_str(",\n      ")?;
    }
    push_settings(out, settings)
}

/// An editor's theme of `tokenColors`, as a theme.
fn of_token_colors(alloc: Global, value: &Value, rules: &Vec<Value>) -> Result<String, AllocError> {
    let mut out = String::from_str(alloc, "{\n  ")?;
    if let Some(name) = text_at(value, "name") {
        push_member(&mut out, &mut true, "name", name)?;
        out.push_str(",\n  ")?;
    }
    out.push_str("\"settings\": [\n")?;
    push_colors(&mut out, value.get("colors").unwrap_or(value))?;
    for rule in rules {
        push_rule(alloc, &mut out, rule)?;
    }
    out.push_str("\n  ]\n}\n")?;
    Ok(out)
}

/// What is told of a file that is no theme.
fn no_theme(alloc: Global, file: &str, why: &str) -> Result<AssetsError, AllocError> {
    Ok(AssetsError::NotRead(format!(in alloc; "{file}: {why}")?))
}

/// The theme of a value.
fn of_value(alloc: Global, file: &str, value: &Value) -> Result<String, AssetsError> {
    if let Some(rules) = value.get("tokenColors") {
        return match rules.as_array() {
            Some(rules) => Ok(of_token_colors(alloc, value, rules)?),
            None => {
                let why = "its tokenColors stand in another file, which is to be converted";
                Err(no_theme(alloc, file, why)?)
            }
        };
    }
    if value.get("settings").is_none() {
        let why = "this is no theme: it has neither settings nor tokenColors";
        return Err(no_theme(alloc, file, why)?);
    }
    let mut text = value.to_string_pretty(alloc)?;
    text.push_str("\n")?;
    Ok(text)
}

/// The value that a file's text has.
fn value_of(alloc: Global, file: &str, text: &str) -> Result<Value, AssetsError> {
    let is_list = text.trim_start().starts_with('<');
    let json = if is_list {
        json_of_list(alloc, text)?
    } else {
        json_of_loose(alloc, text)?
    };
    match Value::from_str(alloc, json.as_str()) {
        Ok(value) => Ok(value),
        Err(e) if e.is_memory() => Err(AssetsError::Memory),
        Err(_) if is_list => Err(no_theme(alloc, file, "this is no whole property list")?),
        Err(e) => Err(AssetsError::NotRead(format!(in alloc;
            "{file}:{}:{}: this is no JSON",
            e.line(),
            e.column()
        )?)),
    }
}

/// Whether a text is read as a theme.
fn is_theme(alloc: Global, text: &str) -> bool {
    let mut repository = ScopeRepository::new(alloc);
    let mut bytes = text.as_bytes();
    ThemeSet::load_from_reader(alloc, &mut bytes, &mut repository).is_ok()
}

/// The theme that a file of another editor holds, as JSON: a property list, or a theme with
/// `tokenColors`.
pub fn converted(rt: &(impl AllocGlobal + Files), file: &str) -> Result<String, AssetsError> {
    let alloc = rt.alloc();
    let text = match fs::read_to_string(rt, file) {
        Ok(text) => text,
        Err(e) => return Err(AssetsError::NotRead(format!(in alloc; "{file}: {e}")?)),
    };
    let value = value_of(alloc, file, text.as_str())?;
    let theme = of_value(alloc, file, &value)?;
    if is_theme(alloc, theme.as_str()) {
        Ok(theme)
    } else {
        Err(no_theme(alloc, file, "what it holds is no theme")?)
    }
}
