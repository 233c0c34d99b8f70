//! What the loader looks up in values, and the values that it makes.
ghost use Rattle.std.specs.Prelude.{◌≡◌, ◌++◌, ◌∷◌, [], map, option_map, IfOk, OnOk};
ghost use Rattle.syntect_grammar_loader.specs.LoadingValues as values;
ghost use Rattle.syntect_grammar_loader.specs.LoadingValues.{at, text_in, truth_in, number_in, list_in, map_in};
ghost use Rattle.syntect_yaml.specs.Node.{get};
ghost use Rattle.syntect_yaml.specs.View.{view, entry_view};
ghost use Rattle.syntect_yaml.specs.declared.value.Scalar.TheVariants as scalar;

use crate::below::values::text::Text;
use std::alloc::{AllocError, Global};
use syntect_yaml::value::{Scalar, Yaml};

/// The entries of a map.
type Entries = Vec<(Scalar, Yaml)>;

/// The values of a list.
#[tactic(auto, using(crate::proofs::LoadingLaws::values_seen))]
pub fn list_of(value: &Yaml) -> Option<&[Yaml]>
    ensures { option_map (λ v. map view v.now) result ≡ list_in (view value.now) }
{
    value.as_list()
}

/// The entries of a map.
#[tactic(auto, using(crate::proofs::LoadingLaws::pairs_seen))]
pub fn map_of(value: &Yaml) -> Option<&[(Scalar, Yaml)]>
    ensures { option_map (λ v. map entry_view v.now) result ≡ map_in (view value.now) }
{
    value.as_map()
}

/// The text at a key.
pub fn text_at<'a>(value: &'a Yaml, key: &str) -> Option<&'a str>
    ensures { option_map (λ t. t.now) result ≡ at text_in key.now (view value.now) }
{
    match value.get(key) {
        Some(v) => v.as_str(),
        None => None,
    }
}

/// The truth value at a key.
pub(crate) fn truth_at(value: &Yaml, key: &str) -> Option<bool>
    ensures { result ≡ at truth_in key.now (view value.now) }
{
    match value.get(key) {
        Some(v) => v.as_bool(),
        None => None,
    }
}

/// The number at a key.
pub(crate) fn number_at(value: &Yaml, key: &str) -> Option<i64>
    ensures { result ≡ at number_in key.now (view value.now) }
{
    match value.get(key) {
        Some(v) => v.as_i64(),
        None => None,
    }
}

/// The values of the list at a key.
pub fn list_at<'a>(value: &'a Yaml, key: &str) -> Option<&'a [Yaml]>
    ensures { option_map (λ v. map view v.now) result ≡ at list_in key.now (view value.now) }
{
    match value.get(key) {
        Some(v) => list_of(v),
        None => None,
    }
}

/// The entries of the map at a key.
pub fn map_at<'a>(value: &'a Yaml, key: &str) -> Option<&'a [(Scalar, Yaml)]>
    ensures { option_map (λ v. map entry_view v.now) result ≡ at map_in key.now (view value.now) }
{
    match value.get(key) {
        Some(v) => map_of(v),
        None => None,
    }
}

/// Whether a list begins with a map.
fn begins_with_map(items: &[Yaml]) -> bool
    ensures { result ≡ values.begins_with values.is_map (map view items.now) }
{
    match items.first() {
        Some(v) => v.as_map().is_some(),
        None => false,
    }
}

/// Whether the value is a list that begins with a map.
fn is_items(value: &Yaml) -> bool
    ensures { result ≡ values.is_list_with (values.begins_with values.is_map) (view value.now) }
{
    match list_of(value) {
        Some(items) => begins_with_map(items),
        None => false,
    }
}

/// Whether the value is an empty list.
fn is_empty_list(value: &Yaml) -> bool
    ensures { result ≡ values.is_list_with values.is_empty (view value.now) }
{
    match list_of(value) {
        Some(items) => items.is_empty(),
        None => false,
    }
}

/// Whether the value, which follows a push or a set, is a list of references.
pub fn is_several(value: &Yaml) -> bool
    ensures { result ≡ values.is_several (view value.now) }
{
    match list_of(value) {
        Some(items) => match items.first() {
            Some(v) => v.as_str().is_some() || is_items(v),
            None => false,
        },
        None => false,
    }
}

/// Whether the value, which follows a push or a set, begins with an empty list.
pub fn is_none(value: &Yaml) -> bool
    ensures { result ≡ values.is_none (view value.now) }
{
    match list_of(value) {
        Some(items) => match items.first() {
            Some(v) => is_empty_list(v),
            None => false,
        },
        None => false,
    }
}

/// A text.
fn text_value(alloc: Global, text: &str) -> Result<Yaml, AllocError>
    ensures { IfOk result (λ v. view v ≡ values.text_node text.now) }
{
    Ok(Yaml::Scalar(Scalar::Text(Text::from_str(alloc, text)?)))
}

/// A truth value.
fn truth_value(b: bool) -> Yaml
    ensures { view result ≡ values.truth_node b }
{
    Yaml::Scalar(Scalar::Truth(b))
}

/// Appends an entry.
fn push_entry(entries: &mut Entries, key: &str, value: Yaml) -> Result<(), AllocError>
    ensures { OnOk result (map entry_view entries.new.items
        ≡ map entry_view entries.old.items ++ (scalar.Text key.now, view value) ∷ []) }
{
    let alloc = *entries.allocator();
    let key = Scalar::Text(Text::from_str(alloc, key)?);
    entries.push((key, value))?;
    Ok(())
}

/// A map of one entry.
fn one_entry(alloc: Global, key: &str, value: Yaml) -> Result<Yaml, AllocError>
    ensures { IfOk result (λ v. view v ≡ values.map_node ((key.now, view value) ∷ [])) }
{
    let mut entries = Vec::new(alloc);
    push_entry(&mut entries, key, value)?;
    Ok(Yaml::Map(entries))
}

/// The item of a context that leaves at a pattern, perhaps with captures.
fn leaving(alloc: Global, pattern: Yaml, captures: Option<&Yaml>) -> Result<Yaml, AllocError>
    ensures { IfOk result (λ v. view v ≡ values.map_node
        (values.leaving (view pattern) (values.lent captures.entry))) }
{
    let mut entries = Vec::new(alloc);
    push_entry(&mut entries, "match", pattern)?;
    push_entry(&mut entries, "pop", truth_value(true))?;
    let Some(captures) = captures else {
        return Ok(Yaml::Map(entries));
    };
    push_entry(&mut entries, "captures", captures.clone()?)?;
    Ok(Yaml::Map(entries))
}

/// The items of the context that an `embed` pushes first.
pub fn escape_items(alloc: Global, item: &Yaml, escape: &Yaml) -> Result<Vec<Yaml>, AllocError>
    ensures { IfOk result (λ v. map view v.items
        ≡ values.escape_items (view item.now) (view escape.now)) }
{
    let mut items = Vec::new(alloc);
    items.push(one_entry(alloc, "meta_include_prototype", truth_value(false))?)?;
    if let Some(scope) = item.get("embed_scope") {
        items.push(one_entry(alloc, "meta_content_scope", scope.clone()?)?)?;
    }
    items.push(leaving(alloc, escape.clone()?, item.get("escape_captures"))?)?;
    Ok(items)
}

/// The items of the context that leaves wherever the text of this pattern stands ahead.
pub fn ahead_items(alloc: Global, text: &str) -> Result<Vec<Yaml>, AllocError>
    ensures { IfOk result (λ v. map view v.items ≡ values.ahead_items text.now) }
{
    let pattern = format!(in alloc; "(?={text})")?;
    let mut items = Vec::new(alloc);
    items.push(leaving(alloc, text_value(alloc, pattern.as_str())?, None)?)?;
    Ok(items)
}
