//! Entries put together by their scope texts.
ghost use Rattle.std.specs.Prelude.{◌≡◌, [], ◌∷◌, map, option_map, string_bytes, unwrap_or, IfOk, OnOk};
ghost use Rattle.std.specs.List.{list_any};
ghost use Rattle.std.specs.Str.{bytes_eq};
ghost use Rattle.serde_json.specs.Data.{object};
ghost use Rattle.serde_json.specs.View.{view, items_view, members_view};
ghost use Rattle.syntect_metadata.specs.Items.{pattern_keys, parens_key};
ghost use Rattle.syntect_metadata.specs.Merging as merging;
ghost use Rattle.syntect_metadata.specs.Seen.{merged_view, table_seen, named};

use crate::below::values::text::Text;
use crate::raw::RawMetadataEntry;
use crate::values::{member_of, put};
use serde_json::{Map, Value};
use std::alloc::{AllocError, Global};
use std::collections::BTreeMap;
use std::path::Path;

/// What entries of one scope text say.
#[derive(Drop)]
pub struct Merged {
    /// The settings, without the variables.
    pub settings: Map<String, Value>,
    /// The variables, if an entry has the key.
    pub variables: Option<Map<String, Value>>,
}

/// A variable of a list: an object with a text as `name`, and a `value`.
fn variable_of(alloc: Global, value: Value) -> Result<Option<(String, Value)>, AllocError>
    ensures { IfOk result (λ v. option_map named v ≡ merging.variable_of (view value)) }
{
    let Some(name) = value.get("name").and_then(Value::as_str) else {
        return Ok(None);
    };
    let name = String::from_str(alloc, name)?;
    match member_of(value, "value") {
        Some(value) => Ok(Some((name, value))),
        None => Ok(None),
    }
}

/// The variables of a list, if all its values are some.
#[tactic(auto, using(crate::proofs::MergeLaws::one_more, crate::proofs::MergeLaws::one_spoils))]
fn all_variables(
    alloc: Global,
    items: Vec<Value>,
) -> Result<Option<Vec<(String, Value)>>, AllocError>
    ensures { IfOk result (λ vs. option_map (λ v. map named v.items) vs
        ≡ merging.all_variables (items_view items.items)) }
{
    let mut variables = Vec::with_capacity(alloc, items.len())?;
    for item in items {
        match variable_of(alloc, item)? {
            Some(variable) => variables.push(variable)?,
            None => return Ok(None),
        }
    }
    Ok(Some(variables))
}

/// The variables that a value adds: none unless it is a list of variables.
fn variables_of(alloc: Global, value: Value) -> Result<Vec<(String, Value)>, AllocError>
    ensures { IfOk result (λ vs. map named vs.items ≡ merging.variables_of (view value)) }
{
    match value {
        Value::Array(items) => match all_variables(alloc, items)? {
            Some(variables) => Ok(variables),
            None => Ok(Vec::new(alloc)),
        },
        _other => Ok(Vec::new(alloc)),
    }
}

/// The members with variables.
#[tactic(auto, using(crate::proofs::MergeLaws::variables_next))]
fn with_variables(
    variables: Vec<(String, Value)>,
    members: Map<String, Value>,
) -> Result<Map<String, Value>, AllocError>
    ensures { IfOk result (λ m. members_view m.entries
        ≡ merging.with_variables (map named variables.items) (members_view members.entries)) }
{
    let mut members = members;
    for (name, value) in variables {
        put(&mut members, name, value)?;
    }
    Ok(members)
}

/// Whether a key is that of a pattern or of a truth value.
fn is_plain(key: &str) -> bool
    ensures { result ≡ list_any (bytes_eq key.now) (parens_key ∷ pattern_keys) }
{
    key == "indentParens"
        || key == "increaseIndentPattern"
        || key == "decreaseIndentPattern"
        || key == "bracketIndentNextLinePattern"
        || key == "disableIndentNextLinePattern"
        || key == "unIndentedLinePattern"
}

/// What is said with one more member.
fn with_member(
    alloc: Global,
    key: String,
    value: Value,
    merged: Merged,
) -> Result<Merged, AllocError>
    ensures { IfOk result (λ m. merged_view m
        ≡ merging.with_member (string_bytes key) (view value) (merged_view merged)) }
{
    let Merged {
        mut settings,
        variables,
    } = merged;
    if key.as_str() == "shellVariables" {
        let members = match variables {
            Some(members) => members,
            None => Map::new(alloc),
        };
        let members = with_variables(variables_of(alloc, value)?, members)?;
        return Ok(Merged {
            settings,
            variables: Some(members),
        });
    }
    if is_plain(key.as_str()) {
        put(&mut settings, key, value)?;
    }
    Ok(Merged {
        settings,
        variables,
    })
}

/// What is said with the members of an object.
fn with_members(
    alloc: Global,
    members: Map<String, Value>,
    merged: Merged,
) -> Result<Merged, AllocError>
    ensures { IfOk result (λ m. merged_view m
        ≡ merging.with_members (members_view members.entries) (merged_view merged)) }
{
    let mut merged = merged;
    for (key, value) in members {
        merged = with_member(alloc, key, value, merged)?;
    }
    Ok(merged)
}

/// What entries before said, if there are some.
fn or_nothing(alloc: Global, merged: Option<Merged>) -> Merged
    ensures { merged_view result ≡ unwrap_or (option_map merged_view merged) merging.nothing }
{
    match merged {
        Some(merged) => merged,
        None => Merged {
            settings: Map::new(alloc),
            variables: None,
        },
    }
}

/// Adds settings to what stands at a scope text.
fn add_settings(
    alloc: Global,
    scope: Text,
    settings: Map<String, Value>,
    table: &mut BTreeMap<Text, Merged>,
) -> Result<(), AllocError>
    ensures { OnOk result (table_seen table.new.entries
        ≡ merging.with_settings scope (members_view settings.entries)
        (table_seen table.old.entries)) }
{
    let merged = or_nothing(alloc, table.remove(&scope));
    let merged = with_members(alloc, settings, merged)?;
    match table.insert(scope, merged) {
        Ok(_) => Ok(()),
        Err(_) => Err(AllocError),
    }
}

/// Adds an entry to what stands at its scope text.
fn add_entry(
    alloc: Global,
    entry: RawMetadataEntry,
    table: &mut BTreeMap<Text, Merged>,
) -> Result<(), AllocError>
    ensures { OnOk result (table_seen table.new.entries
        ≡ merging.with_entry entry (table_seen table.old.entries)) }
{
    let (scope, settings) = entry.into_parts();
    add_settings(alloc, scope, settings, table)
}

/// The entries put together.
#[tactic(auto, using(crate::proofs::MergeLaws::entries_next))]
pub(crate) fn put_together(
    alloc: Global,
    entries: Vec<RawMetadataEntry>,
) -> Result<BTreeMap<Text, Merged>, AllocError>
    ensures { IfOk result (λ t. table_seen t.entries ≡ merging.with_entries entries.items []) }
{
    let mut table = BTreeMap::new(alloc);
    for entry in entries {
        add_entry(alloc, entry, &mut table)?;
    }
    Ok(table)
}

/// The members of all that is said: the variables stand in it as an object too.
pub(crate) fn members_of(alloc: Global, merged: Merged) -> Result<Map<String, Value>, AllocError>
    ensures { IfOk result
        (λ m. object (members_view m.entries) ≡ merging.object_of (merged_view merged)) }
{
    let Merged {
        mut settings,
        variables,
    } = merged;
    if let Some(variables) = variables {
        let key = String::from_str(alloc, "shellVariables")?;
        put(&mut settings, key, Value::Object(variables))?;
    }
    Ok(settings)
}

/// Puts entries in the order of their paths.
pub(crate) fn sort_by_path(entries: &mut Vec<RawMetadataEntry>) -> Result<(), AllocError>
    ensures { OnOk result (merging.IsByPath entries.old.items entries.new.items) }
{
    entries.sort_by(|a, b| Path::new(a.path.as_str()).cmp(&Path::new(b.path.as_str())))?;
    Ok(())
}
