//! A context's flat list, with a table that tells for each thing that can stand at a place, or
//! after the word or white space there, which patterns can begin at that place.
ghost use Rattle.std.specs.Prelude.{◌≡◌, ◌≤◌, ◌<◌, ◌*◌, List, ℕ, length, map, IfOk, IfSome, slice_index_or};
ghost use Rattle.std.specs.List.{list_any};
ghost use Rattle.syntect_grammar_lists.specs.Rows.{AreRowsOf, BeginIn, IsOut, TellsAlive, behind_row};
ghost use Rattle.syntect_grammar_lists.specs.Packed.{IsPacked, unpacked};
ghost use Rattle.syntect_grammar_lists.specs.Slims.{origin_of, widened};
ghost use Rattle.syntect_grammar_lists.specs.Told.{AreCoarser, KeepsAll};

use crate::below::pattern_table::starts::{Places, either, is_in, nowhere};
use crate::flats::{Flat, Origin, Outlook};
use crate::forms::{Form, Table};
use crate::packed::{Packed, rows_packed, word_in};
use crate::rows::rows_of;
use crate::sides::{EDGES, LINES, Side, first_row};
use crate::slims::{Slim, any_captures, is_out, narrowed, origin_of, slims_of};
use crate::spots::{any_spot_captures, origin_of_spot, spots_of};
use std::alloc::{AllocError, Global};
use std::marker::Model;

/// The least and the greatest length of a list that has a table:
/// a shorter one is gone through as fast.
const SHORT: usize = 8;

const LONG: usize = 65536;

/// A flat list, seen as the list of its patterns. Of a pattern of a table it is seen
/// what the table tells.
#[derive(Drop)]
pub struct FlatList {
    /// What can stand at a place where a match of one of the patterns begins, part by part, since
    /// that takes less room than `Places`.
    ascii: u128,
    form: Form,
    /// How many patterns there are.
    count: u32,
    wide: bool,
    end: bool,
    /// Whether it matters for one of the patterns what comes after a word or after white space.
    asks: bool,
}

impl Model for FlatList {
    ghost use Rattle.std.specs.Prelude.{List};
    ghost use Rattle.syntect_grammar_lists.specs.declared.flats.Flat.{Flat as AFlat};
    ghost use Rattle.syntect_grammar_lists.specs.Told.{IsKept, flats_in, places_of};

    ghost Value = { List AFlat };

    ghost view = { λ l. flats_in (places_of l.ascii l.wide l.end) l.form };

    ghost invariant = { λ l. IsKept (places_of l.ascii l.wide l.end) l.form l.count };
}

/// An index not below this one: no pattern from this one up to it can begin where this is seen, as
/// each tells.
fn next_seen(table: &[Places], slims: &[Slim], outlook: Outlook, from: usize) -> usize
    requires here { outlook.here < 130 }
    requires behind { outlook.behind < 130 }
    ensures later { from ≤ result }
    ensures passed { (k : ℕ) (d : Flat) → from ≤ k → k < result → k < length slims.now
        → IsOut outlook (slice_index_or (map (widened table.now) slims.now) k d) }
{
    let mut next = from;
    while next < slims.len() && is_out(table, &slims[next], outlook) {
        next += 1;
    }
    next
}

/// Whether something that comes after a word or after white space rules one of the patterns out.
fn any_asks(flats: &[Flat]) -> bool {
    flats
        .iter()
        .any(|flat| flat.words.ascii & flat.blanks.ascii != u128::MAX)
}

/// What can stand at a place where a match of one of the patterns begins.
fn any_of(flats: &[Flat]) -> Places
    ensures { BeginIn result flats.now }
{
    let mut any = nowhere();
    for flat in flats {
        any = either(any, flat.begins);
    }
    any
}

/// The row of what comes after the word or the white space.
#[inline]
fn behind_row(outlook: Outlook) -> usize
    requires { outlook.behind < 130 }
    ensures value { result ≡ behind_row outlook }
    ensures bound { result < 392 }
{
    let side = if outlook.blank {
        Side::Blank
    } else {
        Side::Word
    };
    first_row(side) + outlook.behind as usize
}

/// Which patterns of 64 in a row can begin where this is seen, a bit for each, wherever words and
/// lines begin.
#[inline]
fn alive_anywhere(rows: &Packed, words: u16, outlook: Outlook, word: usize) -> u64
    requires here { outlook.here < 130 }
    requires behind { outlook.behind < 130 }
    requires within { word < words }
    requires whole { IsPacked words rows.now }
    ensures { TellsAlive (unpacked words rows.now) words outlook word result }
{
    let here = word_in(rows, words, outlook.here as usize, word);
    let behind = word_in(rows, words, behind_row(outlook), word);
    here & behind
}

/// The same, wherever words begin.
#[inline]
fn alive_in_line(rows: &Packed, words: u16, outlook: Outlook, word: usize) -> u64
    requires here { outlook.here < 130 }
    requires behind { outlook.behind < 130 }
    requires within { word < words }
    requires whole { IsPacked words rows.now }
    ensures { TellsAlive (unpacked words rows.now) words outlook word result }
{
    let alive = alive_anywhere(rows, words, outlook, word);
    if outlook.off_lines {
        alive & word_in(rows, words, LINES, word)
    } else {
        alive
    }
}

/// Which patterns of 64 in a row can begin where this is seen, a bit for each.
#[inline]
fn alive(rows: &Packed, words: u16, outlook: Outlook, word: usize) -> u64
    requires here { outlook.here < 130 }
    requires behind { outlook.behind < 130 }
    requires within { word < words }
    requires whole { IsPacked words rows.now }
    ensures { TellsAlive (unpacked words rows.now) words outlook word result }
{
    let alive = alive_in_line(rows, words, outlook, word);
    if outlook.off_edges {
        alive & word_in(rows, words, EDGES, word)
    } else {
        alive
    }
}

/// An index not below this one: no pattern from this one up to it can begin where this is seen, as
/// rows of so many words tell.
#[inline]
fn next_alive(rows: &Packed, words: u16, count: usize, outlook: Outlook, from: usize) -> usize
    requires here { outlook.here < 130 }
    requires behind { outlook.behind < 130 }
    requires room { count ≤ words * 64 }
    requires whole { IsPacked words rows.now }
    ensures later { from ≤ result }
    ensures passed { (flats : List Flat) (k : ℕ) (d : Flat) → length flats ≡ count
        → AreRowsOf (unpacked words rows.now) words flats
        → from ≤ k → k < result → k < count → IsOut outlook (slice_index_or flats k d) }
{
    let mut next = from;
    while next < count {
        let rest = alive(rows, words, outlook, next / 64) >> (next % 64);
        if rest != 0 {
            return next + rest.trailing_zeros() as usize;
        }
        next = (next / 64 + 1) * 64;
    }
    next
}

/// The table of a list.
fn packed_of(alloc: Global, words: u16, asks: bool, flats: &[Flat]) -> Result<Packed, AllocError>
    requires some { 0 < words }
    requires few { length flats.now ≤ 65536 }
    ensures whole { IfOk result (IsPacked words) }
    ensures rows { IfOk result (λ p. AreRowsOf (unpacked words p) words flats.now) }
{
    let rows = rows_of(alloc, words, asks, flats)?;
    rows_packed(alloc, words, rows.as_slice())
}

/// Patterns, each kept by itself.
fn plain_form(alloc: Global, flats: &[Flat]) -> Result<Form, AllocError>
    ensures { IfOk result (KeepsAll flats.now) }
{
    let (slims, places) = slims_of(alloc, flats)?;
    Ok(Form::Plain { slims, places })
}

/// Patterns, kept by a table, if there is room in it for where each of them stands.
fn tabled_form(alloc: Global, asks: bool, flats: &[Flat]) -> Result<Option<Form>, AllocError>
    requires some { 0 < length flats.now }
    requires few { length flats.now ≤ 65536 }
    ensures { IfOk result (λ form. IfSome form (KeepsAll flats.now)) }
{
    let Some(spots) = spots_of(alloc, flats)? else {
        return Ok(None);
    };
    let words = ((flats.len() + 63) / 64) as u16;
    let rows = packed_of(alloc, words, asks, flats)?;
    let table = Table { spots, rows, words };
    Ok(Some(Form::Tabled(Box::new(alloc, table)?)))
}

/// Patterns in the form that serves a list of their length. Where one of them stands too far off
/// for a table, after 65536 syntaxes or contexts or 2147483648 entries, the list is kept without
/// one: that tells no less, but is gone through pattern by pattern.
fn form_of(alloc: Global, asks: bool, flats: &[Flat]) -> Result<Form, AllocError>
    ensures { IfOk result (KeepsAll flats.now) }
{
    if flats.len() >= SHORT && flats.len() <= LONG {
        if let Some(form) = tabled_form(alloc, asks, flats)? {
            return Ok(form);
        }
    }
    plain_form(alloc, flats)
}

impl FlatList {
    /// The list of these patterns, of each of which it may tell less.
    pub fn new(alloc: Global, flats: &[Flat]) -> Result<FlatList, AllocError>
        ensures { IfOk result (AreCoarser flats.now) }
    {
        let asks = any_asks(flats);
        let any = any_of(flats);
        let form = form_of(alloc, asks, flats)?;
        Ok(FlatList {
            ascii: any.ascii,
            form,
            count: narrowed(flats.len())?,
            wide: any.wide,
            end: any.end,
            asks,
        })
    }

    /// Whether it matters for one of the patterns what comes after a word or after white space. No
    /// contract says it: who looks for that in vain is only slower,
    /// and who doesn't passes over less.
    pub fn asks(&self) -> bool {
        self.asks
    }

    /// What can stand at a place where a match of one of the patterns begins: where something else
    /// stands none does.
    #[inline]
    pub fn any(&self) -> Places
        ensures { BeginIn result self.now }
    {
        let _ = &self.form;
        Places {
            ascii: self.ascii,
            wide: self.wide,
            end: self.end,
        }
    }

    /// How many patterns there are.
    #[inline]
    pub fn len(&self) -> usize
        ensures { result ≡ length self.now }
    {
        self.count as usize
    }

    /// Where the pattern at an index stands.
    #[inline]
    pub fn origin_at(&self, index: usize) -> Origin
        requires { index < length self.now }
        ensures { (d : Flat) → result ≡ origin_of (slice_index_or self.now index d) }
    {
        match &self.form {
            Form::Plain { slims, places: _ } => origin_of(&slims[index]),
            Form::Tabled(table) => {
                let table = &**table;
                origin_of_spot(&table.spots[index])
            }
        }
    }

    /// Whether a pattern uses back references.
    pub fn has_captures(&self) -> bool
        ensures { result ≡ list_any (λ f. f.has_captures) self.now }
    {
        match &self.form {
            Form::Plain { slims, places: _ } => any_captures(slims.as_slice()),
            Form::Tabled(table) => any_spot_captures(table.spots.as_slice()),
        }
    }

    /// An index not below this one: no pattern from this one up to it can begin where this is seen.
    /// That the pattern there can begin so, unless the list ends, is what makes a search fast; no
    /// contract says it.
    pub fn next(&self, outlook: Outlook, from: usize) -> usize
        requires here { outlook.here < 130 }
        requires behind { outlook.behind < 130 }
        ensures later { from ≤ result }
        ensures passed { (k : ℕ) (d : Flat) → from ≤ k → k < result → k < length self.now
            → IsOut outlook (slice_index_or self.now k d) }
    {
        if from == 0 && !is_in(self.any(), outlook.here) {
            return self.len();
        }
        match &self.form {
            Form::Plain { slims, places } => {
                next_seen(places.as_slice(), slims.as_slice(), outlook, from)
            }
            Form::Tabled(table) => {
                let table = &**table;
                next_alive(&table.rows, table.words, self.len(), outlook, from)
            }
        }
    }
}
