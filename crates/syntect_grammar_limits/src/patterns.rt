//! The texts of a grammar's patterns as they were written, each where the loader's
//! `yaml_load_contexts` comes to it.
ghost use Rattle.std.specs.Prelude.{◌≡◌, ◌++◌, codes, flat_map, map, option_map, OnOk};
ghost use Rattle.syntect_yaml.specs.Node.{get};
ghost use Rattle.syntect_grammar_limits.specs.Patterns as patterns;
ghost use Rattle.syntect_grammar_limits.specs.Patterns.{of_context};
ghost use Rattle.syntect_yaml.specs.View.{view};

use crate::below::grammar_loader::yaml_load_contexts::is_setting;
use crate::below::grammar_loader::yaml_load_values::{
    ahead_items, escape_items, is_none, is_several, list_at, list_of, map_of, text_at,
};
use crate::below::values::seq::Seq;
use crate::below::values::text::Text;
use std::alloc::{AllocError, Global};
use syntect_yaml::value::Yaml;

/// Adds what may stand there.
fn add_text(alloc: Global, found: &mut Seq<Text>, text: Option<&str>) -> Result<(), AllocError>
    ensures { OnOk result (found.new
        ≡ found.old ++ patterns.perhaps_one (option_map (λ t. t.now) text.entry)) }
{
    if let Some(text) = text {
        found.push(Text::from_str(alloc, text)?)?;
    }
    Ok(())
}

/// Adds those of a context, in which contexts nest less deep than this.
#[cycle(patterns)]
fn add_context(
    alloc: Global,
    found: &mut Seq<Text>,
    room: usize,
    items: &[Yaml],
) -> Result<(), AllocError>
    ensures { OnOk result (found.new ≡ found.old ++ of_context room (map view items.now)) }
{
    if room == 0 {
        return Ok(());
    }
    add_items(alloc, found, room - 1, items)
}

/// Adds those of some items.
#[cycle(patterns)]
fn add_items(
    alloc: Global,
    found: &mut Seq<Text>,
    room: usize,
    items: &[Yaml],
) -> Result<(), AllocError>
    ensures { OnOk result (found.new
        ≡ found.old ++ flat_map (patterns.of_item (of_context room)) (map view items.now)) }
{
    for value in items {
        add_item(alloc, found, room, value)?;
    }
    Ok(())
}

/// Adds those of an item, in which contexts nest less deep than this.
#[cycle(patterns)]
pub(crate) fn add_item(
    alloc: Global,
    found: &mut Seq<Text>,
    room: usize,
    value: &Yaml,
) -> Result<(), AllocError>
    ensures { OnOk result (found.new
        ≡ found.old ++ patterns.of_item (of_context room) (view value.now)) }
{
    if map_of(value).is_none() || is_setting(value) {
        return Ok(());
    }
    match value.get("include") {
        Some(named) => add_reference(alloc, found, room, named),
        None => add_match(alloc, found, room, value),
    }
}

/// Adds those of a reference.
#[cycle(patterns)]
fn add_reference(
    alloc: Global,
    found: &mut Seq<Text>,
    room: usize,
    value: &Yaml,
) -> Result<(), AllocError>
    ensures { OnOk result (found.new
        ≡ found.old ++ patterns.of_reference (of_context room) (view value.now)) }
{
    match list_of(value) {
        Some(items) => add_context(alloc, found, room, items),
        None => Ok(()),
    }
}

/// Adds those of several references.
#[cycle(patterns)]
fn add_each(
    alloc: Global,
    found: &mut Seq<Text>,
    room: usize,
    values: &[Yaml],
) -> Result<(), AllocError>
    ensures { OnOk result (found.new
        ≡ found.old ++ flat_map (patterns.of_reference (of_context room)) (map view values.now)) }
{
    for value in values {
        add_reference(alloc, found, room, value)?;
    }
    Ok(())
}

/// Adds those of what a push or a set names.
#[cycle(patterns)]
fn add_references(
    alloc: Global,
    found: &mut Seq<Text>,
    room: usize,
    value: &Yaml,
) -> Result<(), AllocError>
    ensures { OnOk result (found.new
        ≡ found.old ++ patterns.of_references (of_context room) (view value.now)) }
{
    if is_none(value) {
        return Ok(());
    }
    if !is_several(value) {
        return add_reference(alloc, found, room, value);
    }
    match list_of(value) {
        Some(values) => add_each(alloc, found, room, values),
        None => Ok(()),
    }
}

/// Adds those of an `embed`.
#[cycle(patterns)]
fn add_embedded(
    alloc: Global,
    found: &mut Seq<Text>,
    room: usize,
    map: &Yaml,
    value: &Yaml,
) -> Result<(), AllocError>
    ensures { OnOk result (found.new ≡ found.old ++ patterns.of_embed (of_context room)
        (view map.now) (view value.now) (get (codes "escape") (view map.now))) }
{
    let Some(escape) = map.get("escape") else {
        return Ok(());
    };
    let items = escape_items(alloc, map, escape)?;
    add_context(alloc, found, room, items.as_slice())?;
    add_reference(alloc, found, room, value)
}

/// Adds those of what a match does.
#[cycle(patterns)]
fn add_operation(
    alloc: Global,
    found: &mut Seq<Text>,
    room: usize,
    map: &Yaml,
) -> Result<(), AllocError>
    ensures { OnOk result (found.new
        ≡ found.old ++ patterns.of_operation (of_context room) (view map.now)) }
{
    if map.get("pop").is_some() {
        return Ok(());
    }
    if let Some(value) = map.get("push") {
        return add_references(alloc, found, room, value);
    }
    if let Some(value) = map.get("set") {
        return add_references(alloc, found, room, value);
    }
    match map.get("embed") {
        Some(value) => add_embedded(alloc, found, room, map, value),
        None => Ok(()),
    }
}

/// Adds those of a `with_prototype`, or the one that looks ahead for the `escape`.
#[cycle(patterns)]
fn add_prototype(
    alloc: Global,
    found: &mut Seq<Text>,
    room: usize,
    map: &Yaml,
) -> Result<(), AllocError>
    ensures { OnOk result (found.new
        ≡ found.old ++ patterns.of_prototype (of_context room) (view map.now)) }
{
    if let Some(items) = list_at(map, "with_prototype") {
        return add_context(alloc, found, room, items);
    }
    let Some(text) = text_at(map, "escape") else {
        return Ok(());
    };
    let items = ahead_items(alloc, text)?;
    add_context(alloc, found, room, items.as_slice())
}

/// Adds those of a match.
#[cycle(patterns)]
fn add_match(
    alloc: Global,
    found: &mut Seq<Text>,
    room: usize,
    map: &Yaml,
) -> Result<(), AllocError>
    ensures { OnOk result (found.new
        ≡ found.old ++ patterns.of_match (of_context room) (view map.now)) }
{
    add_text(alloc, found, text_at(map, "match"))?;
    add_operation(alloc, found, room, map)?;
    add_prototype(alloc, found, room, map)
}
