//! Keys that mean nothing, and values that their keys don't want.
use crate::vulsangi_grammar::findings::{Findings, Lines};
use crate::vulsangi_grammar::grammar::{Grammar, Item};
use crate::vulsangi_grammar::nearest::is_near;
use crate::vulsangi_grammar::place::Step;
use crate::vulsangi_grammar::rules::{NOT_HERE, OTHER_KIND, UNKNOWN_KEY};
use crate::vulsangi_grammar::syntect_yaml::value::{Scalar, Yaml};
use std::alloc::{AllocError, Global};

/// What a key wants.
#[derive(Clone, Copy, Debug, PartialEq, Eq)]
enum Kind {
    Text,
    Truth,
    List,
    Map,
    /// The name of a context, or a list of names or items.
    Names,
    /// A number, or true.
    Amount,
    /// True, or 1: what stands at `pop` is not looked at.
    Leave,
    /// A map from numbers to texts.
    Groups,
    Any,
}

/// The keys of a grammar.
const TOP: &[(&str, Kind)] = &[
    ("name", Kind::Text),
    ("scope", Kind::Text),
    ("file_extensions", Kind::List),
    ("hidden_file_extensions", Kind::List),
    ("first_line_match", Kind::Text),
    ("hidden", Kind::Truth),
    ("variables", Kind::Map),
    ("contexts", Kind::Map),
    ("comment", Kind::Any),
    ("comments", Kind::Any),
    ("uuid", Kind::Any),
    ("author", Kind::Any),
    ("license", Kind::Any),
];

/// The keys of an item.
const ITEM: &[(&str, Kind)] = &[
    ("match", Kind::Text),
    ("scope", Kind::Text),
    ("captures", Kind::Groups),
    ("push", Kind::Names),
    ("set", Kind::Names),
    ("pop", Kind::Leave),
    ("embed", Kind::Names),
    ("embed_scope", Kind::Text),
    ("escape", Kind::Text),
    ("escape_captures", Kind::Groups),
    ("with_prototype", Kind::List),
    ("include", Kind::Names),
    ("meta_scope", Kind::Text),
    ("meta_content_scope", Kind::Text),
    ("meta_include_prototype", Kind::Truth),
    ("clear_scopes", Kind::Amount),
    ("comment", Kind::Any),
    ("comments", Kind::Any),
];

/// Keys of Sublime Text that are passed over here.
const ELSEWHERE: &[&str] = &[
    "version",
    "extends",
    "branch",
    "branch_point",
    "fail",
    "meta_prepend",
    "meta_append",
    "apply_prototype",
];

/// Whether a value is a map all keys of which are numbers.
fn has_numbers(value: &Yaml) -> bool {
    match value.as_map() {
        Some(entries) => entries.iter().all(|(key, _)| key.as_i64().is_some()),
        None => false,
    }
}

impl Kind {
    /// Whether a value is what is wanted.
    fn fits(self, value: &Yaml) -> bool {
        match self {
            Kind::Text => value.as_str().is_some(),
            Kind::Truth => value.as_bool().is_some(),
            Kind::List => value.as_list().is_some(),
            Kind::Map => value.as_map().is_some(),
            Kind::Names => value.as_str().is_some() || value.as_list().is_some(),
            Kind::Amount => value.as_i64().is_some() || value.as_bool().is_some(),
            Kind::Leave => value.as_bool() == Some(true) || value.as_i64() == Some(1),
            Kind::Groups => has_numbers(value),
            Kind::Any => true,
        }
    }

    /// What is wanted.
    fn name(self) -> &'static str {
        match self {
            Kind::Text => "a text",
            Kind::Truth => "true or false",
            Kind::List => "a list",
            Kind::Map => "a map",
            Kind::Names => "the name of a context, or a list",
            Kind::Amount => "a number, or true",
            Kind::Leave => "true: one context is left, whatever stands there",
            Kind::Groups => "a map from numbers of groups to scopes",
            Kind::Any => "a value",
        }
    }
}

/// What is wanted at a key.
fn wanted(keys: &[(&'static str, Kind)], key: &str) -> Option<Kind> {
    for (name, kind) in keys {
        if *name == key {
            return Some(*kind);
        }
    }
    None
}

/// The key that is meant by a misspelt one, perhaps.
fn meant(keys: &'static [(&'static str, Kind)], key: &str) -> Option<&'static str> {
    for (name, _) in keys {
        if is_near(*name, key) {
            return Some(*name);
        }
    }
    None
}

/// Adds what is wrong with a key, or with the value at it.
fn check_entry(
    alloc: Global,
    keys: &'static [(&'static str, Kind)],
    lines: &Lines<'_>,
    steps: &[Step<'_>],
    entry: &(Scalar, Yaml),
    findings: &mut Findings,
) -> Result<(), AllocError> {
    let Some(key) = entry.0.as_str() else {
        let message = format!(in alloc; "a key that is no text")?;
        return findings.add(UNKNOWN_KEY, lines, steps, message);
    };
    if let Some(kind) = wanted(keys, key) {
        if kind.fits(&entry.1) {
            return Ok(());
        }
        let message = format!(in alloc; "`{key}` wants {}", kind.name())?;
        return findings.add_key(OTHER_KIND, lines, steps, key, message);
    }
    for name in ELSEWHERE {
        if *name == key {
            let message = format!(in alloc; "`{key}` is passed over here")?;
            return findings.add_key(NOT_HERE, lines, steps, key, message);
        }
    }
    let message = match meant(keys, key) {
        Some(name) => format!(in alloc; "`{key}` means nothing; is `{name}` meant?")?,
        None => format!(in alloc; "`{key}` means nothing")?,
    };
    findings.add_key(UNKNOWN_KEY, lines, steps, key, message)
}

/// Adds what is wrong with the keys of a grammar.
pub fn check_top(
    alloc: Global,
    grammar: &Grammar,
    lines: &Lines<'_>,
    findings: &mut Findings,
) -> Result<(), AllocError> {
    let Some(yaml) = &grammar.yaml else {
        return Ok(());
    };
    for entry in yaml.as_map().unwrap_or(&[]) {
        check_entry(alloc, TOP, lines, &[], entry, findings)?;
    }
    for entry in grammar.entries("variables") {
        let name = entry.0.as_str().unwrap_or("");
        if entry.1.as_str().is_none() {
            let message = format!(in alloc; "the variable `{name}` wants a text")?;
            findings.add_key(OTHER_KIND, lines, &[Step::Key("variables")], name, message)?;
        }
    }
    check_texts(alloc, grammar, lines, "file_extensions", findings)?;
    check_texts(alloc, grammar, lines, "hidden_file_extensions", findings)
}

/// Adds the items of a list that are no texts.
fn check_texts(
    alloc: Global,
    grammar: &Grammar,
    lines: &Lines<'_>,
    key: &str,
    findings: &mut Findings,
) -> Result<(), AllocError> {
    let list = match grammar.get(key) {
        Some(value) => value.as_list().unwrap_or(&[]),
        None => return Ok(()),
    };
    for (number, one) in list.iter().enumerate() {
        if one.as_str().is_none() {
            let message = format!(in alloc; "`{key}` wants texts")?;
            let steps = [Step::Key(key), Step::Item(number)];
            findings.add(OTHER_KIND, lines, &steps, message)?;
        }
    }
    Ok(())
}

/// Adds what is wrong with the keys of an item.
pub fn check_item(
    alloc: Global,
    lines: &Lines<'_>,
    item: &Item<'_>,
    findings: &mut Findings,
) -> Result<(), AllocError> {
    for entry in item.map.as_map().unwrap_or(&[]) {
        check_entry(alloc, ITEM, lines, item.steps.as_slice(), entry, findings)?;
    }
    Ok(())
}
