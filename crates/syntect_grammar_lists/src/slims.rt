//! Patterns as a short flat list keeps them: what can stand where their matches begin, or after
//! that, stands in a table, once for those that follow one another with the same.
ghost use Rattle.std.specs.Prelude.{◌≡◌, ◌<◌, ℕ, true, List, map, IfOk, IfSome, Some, slice_get};
ghost use Rattle.std.specs.List.{list_any};
ghost use Rattle.syntect_grammar_lists.specs.syntect_pattern_table.declared.starts.Places.{Places as APlaces};
ghost use Rattle.syntect_grammar_lists.specs.Rows.{IsCut, IsOut, behind_of};
ghost use Rattle.syntect_grammar_lists.specs.Slims.{IsSlimOf, origin_of, places_at, widened};

use crate::below::pattern_table::starts::{Places, is_in};
use crate::flats::{Flat, Origin, Outlook};
use std::alloc::{AllocError, Global};
use syntect_grammar_contexts::context::ContextId;

/// How many of the last entries of a table are looked at for one that is wanted. To look at all of
/// them for each pattern would take the square of the list's length.
const RECENT: usize = 8;

/// What is taken to stand at a number past a table's end.
const NOTHING: Places = Places {
    ascii: 0,
    wide: false,
    end: false,
};

/// A pattern of a context's walk, with numbers of a table for its places.
#[derive(Clone, Copy)]
pub struct Slim {
    /// The place of the syntax of the context that holds it.
    pub syntax: u32,
    /// The place of that context in its syntax.
    pub context: u32,
    /// Its index among that context's entries.
    pub index: u32,
    /// What can stand at a place where a match of it begins.
    pub begins: u32,
    /// What can come after a word in which a match of it begins.
    pub words: u32,
    /// What can come after white space in which one does.
    pub blanks: u32,
    /// Whether it is known that its matches begin only where a word begins or ends.
    pub at_edges: bool,
    /// Whether it is known that its matches begin only where a line begins.
    pub at_lines: bool,
    /// Whether it has back references into the match that opened its context.
    pub has_captures: bool,
}

/// What stands before the first pattern, as far as a look at the one before it goes.
const FIRST: Slim = Slim {
    syntax: 0,
    context: 0,
    index: 0,
    begins: 0,
    words: 0,
    blanks: 0,
    at_edges: false,
    at_lines: false,
    has_captures: false,
};

/// What stands in a table at a number.
#[inline]
fn places_at(table: &[Places], number: u32) -> Places
    ensures { result ≡ places_at table.now number }
{
    table.get(number as usize).copied().unwrap_or(NOTHING)
}

/// Where the pattern stands.
#[inline]
pub(crate) fn origin_of(slim: &Slim) -> Origin
    ensures { (table : List APlaces) → result ≡ origin_of (widened table slim.now) }
{
    Origin {
        context: ContextId {
            syntax_index: slim.syntax as usize,
            context_index: slim.context as usize,
        },
        index: slim.index as usize,
    }
}

/// What can come after white space, or else after a word, in which a match of the pattern begins.
#[inline]
fn behind_of(table: &[Places], blank: bool, slim: &Slim) -> Places
    ensures { result ≡ behind_of blank (widened table.now slim.now) }
{
    if blank {
        places_at(table, slim.blanks)
    } else {
        places_at(table, slim.words)
    }
}

/// Whether no match of the pattern begins where this is seen.
#[inline]
pub(crate) fn is_out(table: &[Places], slim: &Slim, outlook: Outlook) -> bool
    requires here { outlook.here < 130 }
    requires behind { outlook.behind < 130 }
    ensures { result ≡ true → IsOut outlook (widened table.now slim.now) }
{
    !is_in(places_at(table, slim.begins), outlook.here) || is_cut(table, slim, outlook)
}

/// Whether the pattern has no match that begins where this is seen, whatever stands there.
#[inline]
fn is_cut(table: &[Places], slim: &Slim, outlook: Outlook) -> bool
    requires { outlook.behind < 130 }
    ensures { result ≡ true → IsCut outlook (widened table.now slim.now) }
{
    if is_in(behind_of(table, outlook.blank, slim), outlook.behind) {
        (outlook.off_edges && slim.at_edges) || (outlook.off_lines && slim.at_lines)
    } else {
        true
    }
}

/// Whether one of the patterns uses back references.
pub(crate) fn any_captures(slims: &[Slim]) -> bool
    ensures { result ≡ list_any (λ s. s.has_captures) slims.now }
{
    slims.iter().any(|slim| { slim.has_captures })
}

/// Whether both are the same.
#[inline]
fn are_same(a: &Places, b: &Places) -> bool
    ensures { result ≡ true → a.now ≡ b.now }
{
    a.ascii == b.ascii && a.wide == b.wide && a.end == b.end
}

/// Whether these stand in a table at a number.
#[inline]
fn stand_at(table: &[Places], number: u32, wanted: &Places) -> bool
    ensures { result ≡ true → slice_get table.now number ≡ Some wanted.now }
{
    match table.get(number as usize) {
        Some(places) => are_same(places, wanted),
        None => false,
    }
}

/// The number of these among the last of a table, if they stand there.
fn recent(table: &[Places], wanted: &Places) -> Option<usize>
    ensures { IfSome result (λ n. slice_get table.now n ≡ Some wanted.now) }
{
    let mut next = table.len();
    let first = next.saturating_sub(RECENT);
    while next > first {
        next -= 1;
        if are_same(&table[next], wanted) {
            return Some(next);
        }
    }
    None
}

/// The number, in fewer bits. What has more entries than such numbers can tell apart has no place
/// in memory.
pub(crate) fn narrowed(number: usize) -> Result<u32, AllocError>
    ensures { IfOk result (λ n. n ≡ number) }
{
    match u32::try_from(number) {
        Ok(narrow) => Ok(narrow),
        Err(_) => Err(AllocError),
    }
}

/// The number of these in a table, to which they are added where they stand neither at this number
/// nor among the last.
fn number_of(table: &mut Vec<Places>, near: u32, wanted: &Places) -> Result<u32, AllocError>
    ensures number { IfOk result (λ n. slice_get table.new.items n ≡ Some wanted.now) }
    ensures stays { (n : ℕ) (p : APlaces) → slice_get table.old.items n ≡ Some p
        → slice_get table.new.items n ≡ Some p }
{
    if stand_at(table.as_slice(), near, wanted) {
        return Ok(near);
    }
    if let Some(found) = recent(table.as_slice(), wanted) {
        return narrowed(found);
    }
    let number = narrowed(table.len())?;
    table.push(*wanted)?;
    Ok(number)
}

/// A pattern as a list keeps it. Its places go into the table; most often they are those
/// of the one before.
fn slim_of(table: &mut Vec<Places>, before: Slim, flat: &Flat) -> Result<Slim, AllocError>
    ensures slim { IfOk result (IsSlimOf table.new.items flat.now) }
    ensures stays { (n : ℕ) (p : APlaces) → slice_get table.old.items n ≡ Some p
        → slice_get table.new.items n ≡ Some p }
{
    let begins = number_of(table, before.begins, &flat.begins)?;
    let words = number_of(table, before.words, &flat.words)?;
    let blanks = number_of(table, before.blanks, &flat.blanks)?;
    Ok(Slim {
        syntax: narrowed(flat.context.syntax_index)?,
        context: narrowed(flat.context.context_index)?,
        index: narrowed(flat.index)?,
        begins,
        words,
        blanks,
        at_edges: flat.at_edges,
        at_lines: flat.at_lines,
        has_captures: flat.has_captures,
    })
}

/// Patterns as a list keeps them, with the table of their places.
pub(crate) fn slims_of(
    alloc: Global,
    flats: &[Flat],
) -> Result<(Vec<Slim>, Vec<Places>), AllocError>
    ensures { IfOk result (λ r. map (widened r.1.items) r.0.items ≡ flats.now) }
{
    let mut slims = Vec::with_capacity(alloc, flats.len())?;
    let mut table = Vec::with_capacity(alloc, flats.len())?;
    let mut slim = FIRST;
    for flat in flats {
        slim = slim_of(&mut table, slim, flat)?;
        slims.push(slim)?;
    }
    table.shrink_to_fit();
    Ok((slims, table))
}
