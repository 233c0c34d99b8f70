//! The value of a text.
ghost use Rattle.std.specs.Prelude.{◌≡◌, ◌==◌, ◌+◌, ◌<◌, ◌≤◌, ℕ, false, length, option_map, Some, None, IfOk, IfSome, IsErrOf, IsSome, ◌↔◌};
ghost use Rattle.std.specs.List.{after_last};
ghost use Rattle.syntect_yaml.specs.Reading.{Gives};
ghost use Rattle.syntect_yaml.specs.Refused.{begins_character, IsPlaceBehind, IsPlaceIn};
ghost use Rattle.syntect_yaml.specs.Text.{place_of, IsWithin};
ghost use Rattle.syntect_yaml.specs.View.{view};
ghost use Rattle.syntect_yaml.specs.Yaml as yaml;
ghost use Rattle.syntect_yaml.specs.Yaml.{yaml_of};

use crate::block::block;
use crate::error::{ReadError, Refusal};
use crate::place::{Spot, is_line_of, next, next_visible, seek, unmarked};
use crate::text::{after_line, byte_at, first};
use crate::value::Yaml;
use std::alloc::{AllocError, Global};

/// Maps and lists nest no deeper than this.
const DEEPEST: usize = 100;

/// What a line is before the node.
#[derive(Clone, Copy)]
pub(crate) enum Heading {
    /// The line begins with `%`.
    Directive,
    /// The line is `---`.
    Start,
    /// The node begins with it.
    Body,
}

/// What the line at a place is before the node.
fn heading_of(spot: Spot<'_>) -> Heading
    ensures { result ≡ yaml.heading (place_of spot.entry) }
{
    if spot.column == 0 && first(spot.rest) == b'%' {
        Heading::Directive
    } else if spot.column == 0 && is_line_of(spot.rest, b'-') {
        Heading::Start
    } else {
        Heading::Body
    }
}

/// The text without a byte order mark.
#[tactic(auto, unfolding(crate::specs::Yaml::unmasked))]
fn unmasked(text: &str) -> &str
    ensures rest { result.now ≡ yaml.unmasked text.now }
    ensures within { length result.now ≤ length text.now }
{
    let bytes = text.as_bytes();
    if byte_at(bytes, 0) == 0xEF && byte_at(bytes, 1) == 0xBB && byte_at(bytes, 2) == 0xBF {
        text.split_at(3).1
    } else {
        text
    }
}

/// Where the node begins.
fn begin(text: &str) -> Option<Spot<'_>>
    ensures value { (n : ℕ) → length text.now < n
        → option_map place_of result ≡ yaml.begin n false text.now }
    ensures within { IsWithin text.now result }
{
    let mut rest = text;
    let mut directed = false;
    'lines: loop {
        let Some(spot) = seek(rest) else {
            return None;
        };
        match heading_of(spot) {
            Heading::Directive => {
                directed = true;
                rest = after_line(spot.rest);
            }
            Heading::Start => return next(after_line(spot.rest)),
            Heading::Body => {
                if directed {
                    return None;
                }
                return unmarked(spot);
            }
        }
    }
}

/// The value of a text without a byte order mark.
#[tactic(auto, unfolding(crate::specs::Yaml::value_of))]
fn value_of(alloc: Global, text: &str) -> Result<Option<Yaml>, Refusal>
    ensures { Gives (option_map view) result (yaml.value_of text.now) }
{
    let Some(spot) = begin(text) else {
        return Err(Refusal::At(next_visible(text).len()));
    };
    if spot.rest.is_empty() {
        return Ok(None);
    }
    let (value, below) = match block(alloc, spot, 0, DEEPEST) {
        Ok(found) => found,
        Err(e) => return Err(e),
    };
    if !below.rest.is_empty() {
        return Err(Refusal::At(below.rest.len()));
    }
    Ok(Some(value))
}

/// The value of a text, and none for a text without a node.
pub fn read(alloc: Global, text: &str) -> Result<Option<Yaml>, ReadError>
    ensures ok { IfOk result (λ v. yaml_of text.now ≡ Some (option_map view v)) }
    ensures refused { IsErrOf result ReadError.NoValue → yaml_of text.now ≡ None }
{
    match value_of(alloc, unmasked(text)) {
        Ok(value) => Ok(value),
        Err(Refusal::At(_)) => Err(ReadError::NoValue),
        Err(Refusal::Memory) => Err(ReadError::Memory),
    }
}

/// A place in a text, both numbers from 1 on.
#[derive(Clone, Copy, Debug, PartialEq, Eq)]
pub struct LinePlace {
    pub line: usize,
    pub column: usize,
}

/// Whether a character begins with this byte.
fn begins_character(byte: u8) -> bool
    ensures { result ≡ begins_character byte }
{
    byte < 0x80 || byte >= 0xC0
}

/// What comes after the last line feed.
fn last_line(bytes: &[u8]) -> &[u8]
    ensures { result.now ≡ after_last (λ b. b == 10) bytes.now }
{
    let mut from = bytes.len();
    while from > 0 && bytes[from - 1] != b'\n' {
        from -= 1;
    }
    bytes.split_at(from).1
}

/// The place after these bytes.
#[tactic(auto, using(crate::proofs::RefusedLaws::fits))]
fn place_behind(before: &[u8]) -> LinePlace
    ensures { IsPlaceBehind before.now result }
{
    let feeds = before.iter().filter(|b| **b == b'\n').count();
    let characters = last_line(before)
        .iter()
        .filter(|b| begins_character(**b))
        .count();
    LinePlace {
        line: feeds + 1,
        column: characters + 1,
    }
}

/// Where a text is refused, if it has no value: at the latest part that could not be read. A byte
/// order mark has no column.
pub fn refused_at(alloc: Global, text: &str) -> Result<Option<LinePlace>, AllocError>
    ensures refused { IfOk result (λ place. IsSome place ↔ (yaml_of text.now ≡ None)) }
    ensures place { IfOk result (λ found. IfSome found (IsPlaceIn (yaml.unmasked text.now))) }
{
    let whole = unmasked(text);
    match value_of(alloc, whole) {
        Ok(_) => Ok(None),
        Err(Refusal::At(left)) => {
            let count = whole.len().saturating_sub(left);
            Ok(Some(place_behind(whole.as_bytes().split_at(count).0)))
        }
        Err(Refusal::Memory) => Err(AllocError),
    }
}
