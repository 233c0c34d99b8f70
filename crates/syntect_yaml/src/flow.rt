//! Flow maps and lists.
ghost use Rattle.std.specs.Prelude.{◌≡◌, ◌<◌, ◌≤◌, ℕ, length, IfOk};
ghost use Rattle.syntect_yaml.specs.Flow as flow;
ghost use Rattle.syntect_yaml.specs.Node.{no_items, no_entries};
ghost use Rattle.syntect_yaml.specs.Reading.{Gives, Reads, Shortens};
ghost use Rattle.syntect_yaml.specs.View.{view, items_view, entries_view};

use crate::error::Refusal;
use crate::keys::add_key;
use crate::place::next;
use crate::quoted::{key, scalar};
use crate::text::{Class, first, line_tail, skip, split_run};
use crate::value::{Scalar, Yaml};
use std::alloc::Global;
use std::collections::BTreeSet;

/// The next part.
#[tactic(auto, unfolding(crate::specs::Flow::gap))]
fn gap(text: &str) -> Result<&str, Refusal>
    ensures value { Gives (λ u. u.now) result (flow.gap text.now) }
    ensures within { IfOk result (λ u. length u.now ≤ length text.now) }
{
    match line_tail(text, false) {
        Some(after) => match next(after) {
            Some(spot) => Ok(spot.rest),
            None => Err(Refusal::At(text.len())),
        },
        None => Ok(split_run(text, Class::Space).1),
    }
}

/// After a part its comma is passed.
#[tactic(auto, unfolding(crate::specs::Flow::after_part))]
fn after_part(text: &str, closing: u8) -> Result<&str, Refusal>
    ensures value { Gives (λ u. u.now) result (flow.after_part closing text.now) }
    ensures within { IfOk result (λ u. length u.now ≤ length text.now) }
{
    let rest = match gap(text) {
        Ok(rest) => rest,
        Err(e) => return Err(e),
    };
    if first(rest) == b',' {
        Ok(skip(rest, 1))
    } else if first(rest) == closing {
        Ok(rest)
    } else {
        Err(Refusal::At(rest.len()))
    }
}

/// What begins with a mark.
#[derive(Clone, Copy)]
pub(crate) enum FlowOpening {
    List,
    Map,
    Nothing,
}

/// What begins here, where lists and maps may nest this deep.
fn opening_of(text: &str, depth: usize) -> FlowOpening
    ensures { result ≡ flow.opening_within depth text.now }
{
    if depth == 0 {
        return FlowOpening::Nothing;
    }
    match first(text) {
        b'[' => FlowOpening::List,
        b'{' => FlowOpening::Map,
        _ => FlowOpening::Nothing,
    }
}

/// A value in flow.
#[cycle(flow)]
pub(crate) fn flow(alloc: Global, text: &str, depth: usize) -> Result<(Yaml, &str), Refusal>
    ensures value { Reads view result (flow.flow depth text.now) }
    ensures shorter { Shortens text.now result }
{
    match opening_of(text, depth) {
        FlowOpening::List => match items(alloc, skip(text, 1), depth - 1) {
            Ok((items, rest)) => Ok((Yaml::List(items), rest)),
            Err(e) => Err(e),
        },
        FlowOpening::Map => match entries(alloc, skip(text, 1), depth - 1) {
            Ok((entries, rest)) => Ok((Yaml::Map(entries), rest)),
            Err(e) => Err(e),
        },
        FlowOpening::Nothing => match scalar(alloc, text, true) {
            Ok((scalar, rest)) => Ok((Yaml::Scalar(scalar), rest)),
            Err(e) => Err(e),
        },
    }
}

/// The rest of a list.
#[cycle(flow)]
fn items(alloc: Global, text: &str, depth: usize) -> Result<(Vec<Yaml>, &str), Refusal>
    ensures value { (n : ℕ) → length text.now < n
        → Reads (λ v. items_view v.items) result
        (flow.items (flow.flow depth) n no_items text.now) }
    ensures shorter { Shortens text.now result }
{
    let mut found = Vec::new(alloc);
    let mut rest = text;
    'items: loop {
        let start = match gap(rest) {
            Ok(start) => start,
            Err(e) => return Err(e),
        };
        if first(start) == b']' {
            return Ok((found, skip(start, 1)));
        }
        let (item, after) = match flow(alloc, start, depth) {
            Ok(read) => read,
            Err(e) => return Err(e),
        };
        found.push(item)?;
        rest = match after_part(after, b']') {
            Ok(behind) => behind,
            Err(e) => return Err(e),
        };
    }
}

/// The value of an entry, after its `:`.
#[cycle(flow)]
fn entry_value(alloc: Global, text: &str, depth: usize) -> Result<(Yaml, &str), Refusal>
    ensures value { Reads view result (flow.entry_value (flow.flow depth) text.now) }
    ensures within { IfOk result (λ p. length p.1.now ≤ length text.now) }
{
    let start = match gap(text) {
        Ok(start) => start,
        Err(e) => return Err(e),
    };
    flow(alloc, start, depth)
}

/// The rest of a map.
#[cycle(flow)]
fn entries(alloc: Global, text: &str, depth: usize) -> Result<(Vec<(Scalar, Yaml)>, &str), Refusal>
    ensures value { (n : ℕ) → length text.now < n
        → Reads (λ v. entries_view v.items) result
        (flow.entries (flow.flow depth) n no_entries text.now) }
    ensures shorter { Shortens text.now result }
{
    let mut found = Vec::new(alloc);
    let mut keys = BTreeSet::new(alloc);
    let mut rest = text;
    'entries: loop {
        let start = match gap(rest) {
            Ok(start) => start,
            Err(e) => return Err(e),
        };
        if first(start) == b'}' {
            return Ok((found, skip(start, 1)));
        }
        let (name, behind) = match key(alloc, start, true) {
            Ok(read) => read,
            Err(e) => return Err(e),
        };
        let is_new = add_key(&mut keys, &name)?;
        if !is_new {
            return Err(Refusal::At(start.len()));
        }
        let (value, after) = match entry_value(alloc, behind, depth) {
            Ok(read) => read,
            Err(e) => return Err(e),
        };
        found.push((name, value))?;
        rest = match after_part(after, b'}') {
            Ok(behind) => behind,
            Err(e) => return Err(e),
        };
    }
}
