//! Block maps and lists.
ghost use Rattle.std.specs.Prelude.{◌≡◌, ◌+◌, ◌^◌, ◌<◌, ◌≤◌, ℕ, length, IfOk, OnErr, Err};
ghost use Rattle.syntect_yaml.specs.Blocks as blocks;
ghost use Rattle.syntect_yaml.specs.Node.{no_items, no_entries};
ghost use Rattle.syntect_yaml.specs.Reading.{Reads, Shortens, Finds, Stays};
ghost use Rattle.syntect_yaml.specs.Text.{place_of};
ghost use Rattle.syntect_yaml.specs.Begin.{start_view, StartsWithin};
ghost use Rattle.syntect_yaml.specs.View.{view, items_view, entries_view};

use crate::error::Refusal;
use crate::flow::flow;
use crate::keys::add_key;
use crate::literal::literal;
use crate::place::{Spot, next, next_line, next_visible, unread_behind};
use crate::plain::after_first;
use crate::quoted::{key, scalar};
use crate::text::{Class, byte_at, ends_line, first, line_tail, run_len, skip, split_run};
use crate::value::{Scalar, Yaml};
use std::alloc::Global;
use std::collections::BTreeSet;

/// A flow map or list, or a scalar on one line.
#[tactic(auto, unfolding(crate::specs::Blocks::flow_or_scalar))]
fn part(alloc: Global, text: &str, depth: usize) -> Result<(Yaml, &str), Refusal>
    ensures value { Reads view result (blocks.flow_or_scalar depth text.now) }
    ensures shorter { Shortens text.now result }
{
    let byte = first(text);
    if byte == b'[' || byte == b'{' {
        return flow(alloc, text, depth);
    }
    let (leaf, rest) = scalar(alloc, text, false)?;
    Ok((Yaml::Scalar(leaf), rest))
}

/// A value that begins on this line and is no block map or list.
#[tactic(auto, unfolding(crate::specs::Blocks::inline))]
fn inline(
    alloc: Global,
    text: &str,
    least: usize,
    depth: usize,
) -> Result<(Yaml, Spot<'_>), Refusal>
    ensures value { Finds view result (blocks.inline depth least text.now) }
    ensures within { Stays (length text.now) result }
{
    if first(text) == b'|' {
        let (inside, rest) = literal(alloc, text, least)?;
        return match next(rest) {
            Some(spot) => Ok((Yaml::Scalar(Scalar::Text(inside)), spot)),
            None => Err(Refusal::At(next_visible(rest).len())),
        };
    }
    let (value, rest) = part(alloc, text, depth)?;
    match next_line(rest) {
        Some(spot) => Ok((value, spot)),
        None => Err(Refusal::At(unread_behind(rest).len())),
    }
}

/// Whether an item of a list begins here.
#[tactic(auto, unfolding(crate::specs::Blocks::begins_item))]
fn begins_item(bytes: &[u8]) -> bool
    ensures { result ≡ blocks.begins_item bytes.now }
{
    byte_at(bytes, 0) == b'-' && (ends_line(after_first(bytes)) || byte_at(bytes, 1) == b' ')
}

/// Whether the list at a column goes on.
fn has_item(spot: Spot<'_>, column: usize) -> bool
    ensures { result ≡ blocks.has_item column (place_of spot.entry) }
{
    spot.column == column && begins_item(spot.rest.as_bytes())
}

/// Whether a value of an entry at a column stands here.
fn has_value(spot: Spot<'_>, column: usize) -> bool
    ensures { result ≡ blocks.has_value column (place_of spot.entry) }
{
    column < spot.column || has_item(spot, column)
}

/// Whether the map at a column goes on.
fn has_entry(spot: Spot<'_>, column: usize) -> bool
    ensures { result ≡ blocks.has_entry column (place_of spot.entry) }
{
    spot.column == column && !spot.rest.is_empty()
}

/// A deeper node, or nothing.
#[cycle(block)]
fn below(
    alloc: Global,
    spot: Spot<'_>,
    column: usize,
    deeper: bool,
    depth: usize,
) -> Result<(Yaml, Spot<'_>), Refusal>
    requires column { column < 2 ^ 63 }
    requires rest { spot.column + length spot.rest.now < 2 ^ 63 }
    ensures value { Finds view result
        (blocks.below (blocks.inline depth) (blocks.block depth) deeper column
        (place_of spot.entry)) }
    ensures within { Stays (spot.entry.column + length spot.entry.rest.now) result }
{
    if deeper {
        block(alloc, spot, column + 1, depth)
    } else {
        Ok((Yaml::Scalar(Scalar::Null), spot))
    }
}

/// The value of an entry, after its `:`.
#[cycle(block)]
fn value(
    alloc: Global,
    text: &str,
    column: usize,
    depth: usize,
) -> Result<(Yaml, Spot<'_>), Refusal>
    requires { column + length text.now < 2 ^ 63 }
    ensures value { Finds view result
        (blocks.value (blocks.inline depth) (blocks.block depth) column text.now) }
    ensures within { Stays (length text.now) result }
{
    match line_tail(text, false) {
        Some(after) => match next(after) {
            Some(spot) => {
                let deeper = has_value(spot, column);
                below(alloc, spot, column, deeper, depth)
            }
            None => Err(Refusal::At(next_visible(after).len())),
        },
        None => inline(alloc, split_run(text, Class::Space).1, column + 1, depth),
    }
}

/// An item, after its `-`.
#[cycle(block)]
fn item(alloc: Global, text: &str, column: usize, depth: usize) -> Result<(Yaml, Spot<'_>), Refusal>
    requires { column + 1 + length text.now < 2 ^ 63 }
    ensures value { Finds view result
        (blocks.item (blocks.inline depth) (blocks.block depth) column text.now) }
    ensures within { Stays (length text.now) result }
{
    match line_tail(text, false) {
        Some(after) => match next(after) {
            Some(spot) => {
                let deeper = spot.column > column;
                below(alloc, spot, column, deeper, depth)
            }
            None => Err(Refusal::At(next_visible(after).len())),
        },
        None => {
            let spaces = run_len(text.as_bytes(), Class::Space);
            let spot = Spot {
                column: column + 1 + spaces,
                rest: split_run(text, Class::Space).1,
            };
            block(alloc, spot, column + 1, depth)
        }
    }
}

/// The rest of a list, from just after a `-` on.
#[cycle(block)]
fn items(
    alloc: Global,
    text: &str,
    column: usize,
    depth: usize,
) -> Result<(Vec<Yaml>, Spot<'_>), Refusal>
    requires { column + 1 + length text.now < 2 ^ 63 }
    ensures value { (n : ℕ) → length text.now < n
        → Finds (λ v. items_view v.items) result
        (blocks.items (blocks.inline depth) (blocks.block depth) column n no_items text.now) }
    ensures within { Stays (length text.now) result }
{
    let mut found = Vec::new(alloc);
    let mut rest = text;
    'items: loop {
        let (value, spot) = match item(alloc, rest, column, depth) {
            Ok(read) => read,
            Err(e) => return Err(e),
        };
        found.push(value)?;
        if !has_item(spot, column) {
            return Ok((found, spot));
        }
        rest = skip(spot.rest, 1);
    }
}

/// The rest of a map, from just after a key and its `:` on.
#[cycle(block)]
fn entries(
    alloc: Global,
    first_key: Scalar,
    text: &str,
    column: usize,
    depth: usize,
) -> Result<(Vec<(Scalar, Yaml)>, Spot<'_>), Refusal>
    requires { column + length text.now < 2 ^ 63 }
    ensures value { (n : ℕ) → length text.now < n
        → Finds (λ v. entries_view v.items) result
        (blocks.entries (blocks.inline depth)
        (blocks.block depth) column n no_entries first_key text.now) }
    ensures within { Stays (length text.now) result }
{
    let mut found = Vec::new(alloc);
    let mut keys = BTreeSet::new(alloc);
    let mut name = first_key;
    let mut rest = text;
    'entries: loop {
        let is_new = add_key(&mut keys, &name)?;
        if !is_new {
            return Err(Refusal::At(rest.len()));
        }
        let (value, spot) = match value(alloc, rest, column, depth) {
            Ok(read) => read,
            Err(e) => return Err(e),
        };
        found.push((name, value))?;
        if !has_entry(spot, column) {
            return Ok((found, spot));
        }
        let (next_key, behind) = match key(alloc, spot.rest, false) {
            Ok(read) => read,
            Err(e) => return Err(e),
        };
        name = next_key;
        rest = behind;
    }
}

/// What begins a node.
#[derive(Drop)]
pub(crate) enum Start<'a> {
    Item,
    Entry(Scalar, &'a str),
    Part,
}

/// What begins here.
fn start_of(alloc: Global, text: &str) -> Result<Start<'_>, Refusal>
    ensures start { IfOk result (λ s. start_view s ≡ blocks.start text.now) }
    ensures memory { OnErr result (result ≡ Err Refusal.Memory) }
    ensures shorter { IfOk result (λ s. StartsWithin (length text.now) s) }
{
    if begins_item(text.as_bytes()) {
        return Ok(Start::Item);
    }
    match key(alloc, text, false) {
        Ok((name, rest)) => Ok(Start::Entry(name, rest)),
        Err(Refusal::At(_)) => Ok(Start::Part),
        Err(Refusal::Memory) => Err(Refusal::Memory),
    }
}

/// A node.
#[cycle(block)]
pub(crate) fn block(
    alloc: Global,
    spot: Spot<'_>,
    least: usize,
    depth: usize,
) -> Result<(Yaml, Spot<'_>), Refusal>
    requires { spot.column + length spot.rest.now < 2 ^ 63 }
    ensures value { Finds view result (blocks.block depth least (place_of spot.entry)) }
    ensures within { Stays (length spot.entry.rest.now) result }
{
    if depth == 0 {
        return inline(alloc, spot.rest, least, 0);
    }
    match start_of(alloc, spot.rest) {
        Ok(Start::Item) => match items(alloc, skip(spot.rest, 1), spot.column, depth - 1) {
            Ok((items, below)) => Ok((Yaml::List(items), below)),
            Err(e) => Err(e),
        },
        Ok(Start::Entry(name, rest)) => match entries(alloc, name, rest, spot.column, depth - 1) {
            Ok((entries, below)) => Ok((Yaml::Map(entries), below)),
            Err(e) => Err(e),
        },
        Ok(Start::Part) => inline(alloc, spot.rest, least, depth),
        Err(e) => Err(e),
    }
}
