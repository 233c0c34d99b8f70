//! Patterns as a long flat list keeps them: where they stand. Of all else its table tells.
ghost use Rattle.std.specs.Prelude.{◌≡◌, map, IfOk, IfSome};
ghost use Rattle.std.specs.List.{list_any};
ghost use Rattle.syntect_grammar_lists.specs.Told.{entry_of, has_captures_in, spot_of, spot_origin};

use crate::flats::{Flat, Origin};
use std::alloc::{AllocError, Global};
use syntect_grammar_contexts::context::ContextId;

/// A pattern of a context's walk, without what a table tells of it. A long list has one for each
/// pattern, and so they are kept in eight bytes. A pattern whose numbers have no place there has no
/// spot: a list that has it keeps each pattern by itself.
#[derive(Clone, Copy)]
pub struct Spot {
    /// The place of the syntax of the context that holds it.
    pub syntax: u16,
    /// The place of that context in its syntax.
    pub context: u16,
    /// Twice its index among that context's entries, and one more if it has back references into
    /// the match that opened its context.
    pub entry: u32,
}

/// Where the pattern stands.
#[inline]
pub(crate) fn origin_of_spot(spot: &Spot) -> Origin
    ensures { result ≡ spot_origin spot.now }
{
    Origin {
        context: ContextId {
            syntax_index: spot.syntax as usize,
            context_index: spot.context as usize,
        },
        index: (spot.entry / 2) as usize,
    }
}

/// Whether one of the patterns uses back references.
pub(crate) fn any_spot_captures(spots: &[Spot]) -> bool
    ensures { result ≡ list_any (λ s. has_captures_in s.entry) spots.now }
{
    spots.iter().any(|spot| { spot.entry % 2 == 1 })
}

/// The place of a syntax or of a context, if sixteen bits have room for it.
fn place_of(number: usize) -> Option<u16>
    ensures { IfSome result (λ place. place ≡ number) }
{
    u16::try_from(number).ok()
}

/// Twice the index, and one more if there are back references, if there is room for it.
fn entry_of(index: usize, has_captures: bool) -> Option<u32>
    ensures { IfSome result (λ entry. entry ≡ entry_of index has_captures) }
{
    if index > (u32::MAX / 2) as usize {
        return None;
    }
    let twice = index as u32 * 2;
    if has_captures {
        Some(twice + 1)
    } else {
        Some(twice)
    }
}

/// A pattern without what a table tells of it, if a spot has room for its numbers.
fn spot_of(flat: &Flat) -> Option<Spot>
    ensures { IfSome result (λ spot. spot ≡ spot_of flat.now) }
{
    Some(Spot {
        syntax: place_of(flat.context.syntax_index)?,
        context: place_of(flat.context.context_index)?,
        entry: entry_of(flat.index, flat.has_captures)?,
    })
}

/// Patterns without what a table tells of them, if spots have room for the numbers of each.
pub(crate) fn spots_of(alloc: Global, flats: &[Flat]) -> Result<Option<Vec<Spot>>, AllocError>
    ensures { IfOk result (λ found. IfSome found (λ spots. spots.items ≡ map spot_of flats.now)) }
{
    let mut spots = Vec::with_capacity(alloc, flats.len())?;
    for flat in flats {
        let Some(spot) = spot_of(flat) else {
            return Ok(None);
        };
        spots.push(spot)?;
    }
    Ok(Some(spots))
}
