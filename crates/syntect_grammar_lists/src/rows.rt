//! Rows of bits, one for each thing that can stand on a side of a place, and one for places where
//! no word begins or ends: a bit for each pattern, which is set if a match of it can begin there. A
//! bit that is set for nothing does no harm.
ghost use Rattle.std.specs.Prelude.{◌≡◌, ◌≤◌, ◌<◌, ◌+◌, ◌*◌, ◌/◌, ◌%◌, ℕ, length, IfOk, slice_index_or, true};
ghost use Rattle.std.specs.Int.{bit_at};
ghost use Rattle.syntect_grammar_lists.specs.syntect_pattern_table.Starts.{is_in};
ghost use Rattle.syntect_grammar_lists.specs.Rows.{KeepsBits, TellsEdges, TellsLines, TellsSide, bit_of, has_bit};
ghost use Rattle.syntect_grammar_lists.specs.Sides.{first_row, places_on};

use crate::below::pattern_table::starts::{Places, is_in};
use crate::flats::Flat;
use crate::sides::{EDGES, LINES, Side, first_row, is_everything, places_on, row_count};
use std::alloc::{AllocError, Global};

/// Sets bits of a word, if there is one at the place.
#[inline]
fn set_bits(rows: &mut Vec<u64>, place: usize, bits: u64)
    ensures marks { (b : ℕ) → b < 64 → bit_at bits b ≡ 1
        → has_bit rows.new.items place b ≡ true }
    ensures others { KeepsBits rows.old.items rows.new.items }
{
    if place < rows.len() {
        let word = rows[place];
        rows[place] = word | bits;
    }
}

/// Sets the bit of a pattern in a row.
#[inline]
fn mark_row(rows: &mut Vec<u64>, words: u16, index: usize, row: usize)
    requires index { index < 65536 }
    requires row { row < 392 }
    ensures marks { bit_of rows.new.items words row index ≡ true }
    ensures others { KeepsBits rows.old.items rows.new.items }
{
    let place = row * words as usize + index / 64;
    set_bits(rows, place, 1 << (index % 64));
}

/// Sets the bit of a pattern in the row of something, if that can stand there.
#[inline]
fn mark_one(rows: &mut Vec<u64>, words: u16, index: usize, first: usize, places: Places, x: u8)
    requires index { index < 65536 }
    requires first { first ≤ 262 }
    requires row { x < 130 }
    ensures marks { is_in places x ≡ true → bit_of rows.new.items words (first + x) index ≡ true }
    ensures others { KeepsBits rows.old.items rows.new.items }
{
    if is_in(places, x) {
        mark_row(rows, words, index, first + x as usize);
    }
}

/// Sets the bit of a pattern in those of 64 rows from the first on that have their
/// bit set among these.
#[inline]
fn mark_half(rows: &mut Vec<u64>, words: u16, index: usize, first: usize, bits: u64)
    requires index { index < 65536 }
    requires first { first ≤ 326 }
    ensures marks { (x : ℕ) → x < 64 → bit_at bits x ≡ 1
        → bit_of rows.new.items words (first + x) index ≡ true }
    ensures others { KeepsBits rows.old.items rows.new.items }
{
    let mut row = first;
    let mut rest = bits;
    while rest != 0 {
        let skip = rest.trailing_zeros();
        row += skip as usize;
        mark_row(rows, words, index, row);
        rest = rest >> skip >> 1;
        row += 1;
    }
}

/// Sets the bit of a pattern in the rows, from the first on, of what can stand there.
fn mark(rows: &mut Vec<u64>, words: u16, index: usize, first: usize, places: Places)
    requires index { index < 65536 }
    requires first { first ≤ 262 }
    ensures marks { (x : ℕ) → x < 130 → is_in places x ≡ true
        → bit_of rows.new.items words (first + x) index ≡ true }
    ensures others { KeepsBits rows.old.items rows.new.items }
{
    mark_half(rows, words, index, first, (places.ascii % (1 << 64)) as u64);
    mark_half(rows, words, index, first + 64, (places.ascii >> 64) as u64);
    mark_one(rows, words, index, first, places, 128);
    mark_one(rows, words, index, first, places, 129);
}

/// Sets the bit of a pattern in the rows, from the first on, of what can stand there, unless its
/// bit is one of these.
#[inline]
fn mark_unless(
    rows: &mut Vec<u64>,
    words: u16,
    index: usize,
    first: usize,
    places: Places,
    bits: u64,
)
    requires index { index < 65536 }
    requires first { first ≤ 262 }
    ensures marks { (x : ℕ) → x < 130 → is_in places x ≡ true → bit_at bits (index % 64) ≡ 0
        → bit_of rows.new.items words (first + x) index ≡ true }
    ensures others { KeepsBits rows.old.items rows.new.items }
{
    if bits >> (index % 64) & 1 == 0 {
        mark(rows, words, index, first, places);
    }
}

/// Sets bits of one word in each of 130 rows from the first on.
fn mark_all(rows: &mut Vec<u64>, words: u16, first: usize, word: usize, bits: u64)
    requires first { first ≤ 262 }
    requires word { word < 1024 }
    ensures marks { (x b : ℕ) → x < 130 → b < 64 → bit_at bits b ≡ 1
        → has_bit rows.new.items ((first + x) * words + word) b ≡ true }
    ensures others { KeepsBits rows.old.items rows.new.items }
{
    let mut x = 0;
    while x < 130 {
        set_bits(rows, (first + x) * words as usize + word, bits);
        x += 1;
    }
}

/// Which of up to 64 patterns begin whatever stands on the side, a bit for each. It has no contract
/// and needs none: a pattern whose bit is set is marked in all rows of the side, and each other one
/// by itself, so that whatever it answers none is left out.
fn open_bits(flats: &[Flat], side: Side) -> u64 {
    let mut bits = 0;
    for (index, flat) in flats.iter().enumerate() {
        if is_everything(places_on(flat, side)) {
            bits |= 1u64 << (index % 64);
        }
    }
    bits
}

/// Sets the bits of the 64 patterns that a word is of in the rows of a side,
/// as far as there are so many.
fn mark_word(rows: &mut Vec<u64>, words: u16, flats: &[Flat], word: usize, side: Side)
    requires few { length flats.now ≤ 65536 }
    requires within { word * 64 < length flats.now }
    ensures marks { (x k : ℕ) (d : Flat) → x < 130 → k < length flats.now → k / 64 ≡ word
        → is_in (places_on side (slice_index_or flats.now k d)) x ≡ true
        → bit_of rows.new.items words (first_row side + x) k ≡ true }
    ensures others { KeepsBits rows.old.items rows.new.items }
{
    let first = first_row(side);
    let mut index = word * 64;
    let end = flats.len().min(index + 64);
    let open = open_bits(&flats[index..end], side);
    mark_all(rows, words, first, word, open);
    while index < end {
        let places = places_on(&flats[index], side);
        mark_unless(rows, words, index, first, places, open);
        index += 1;
    }
}

/// Sets the bits of patterns in the rows of a side.
fn mark_side(rows: &mut Vec<u64>, words: u16, flats: &[Flat], side: Side)
    requires { length flats.now ≤ 65536 }
    ensures marks { TellsSide side rows.new.items words flats.now }
    ensures others { KeepsBits rows.old.items rows.new.items }
{
    if first_row(side) * words as usize >= rows.len() {
        return;
    }
    let mut word = 0;
    while word * 64 < flats.len() {
        mark_word(rows, words, flats, word, side);
        word += 1;
    }
}

/// Sets the bits of patterns whose matches can begin where no word begins or ends.
fn mark_edges(rows: &mut Vec<u64>, words: u16, flats: &[Flat])
    requires { length flats.now ≤ 65536 }
    ensures marks { TellsEdges rows.new.items words flats.now }
    ensures others { KeepsBits rows.old.items rows.new.items }
{
    for (index, flat) in flats.iter().enumerate() {
        if !flat.at_edges {
            mark_row(rows, words, index, EDGES);
        }
    }
}

/// Sets the bits of patterns whose matches can begin where no line begins.
fn mark_lines(rows: &mut Vec<u64>, words: u16, flats: &[Flat])
    requires { length flats.now ≤ 65536 }
    ensures marks { TellsLines rows.new.items words flats.now }
    ensures others { KeepsBits rows.old.items rows.new.items }
{
    for (index, flat) in flats.iter().enumerate() {
        if !flat.at_lines {
            mark_row(rows, words, index, LINES);
        }
    }
}

/// The rows of these patterns. Where what comes after a word or after white space rules none of
/// them out, there are none of it.
pub(crate) fn rows_of(
    alloc: Global,
    words: u16,
    asks: bool,
    flats: &[Flat],
) -> Result<Vec<u64>, AllocError>
    requires { length flats.now ≤ 65536 }
    ensures sides { IfOk result (λ rows. (side : Side)
        → TellsSide side rows.items words flats.now) }
    ensures edges { IfOk result (λ rows. TellsEdges rows.items words flats.now) }
    ensures lines { IfOk result (λ rows. TellsLines rows.items words flats.now) }
{
    let mut rows = vec![in alloc; 0u64; row_count(asks, flats) * words as usize]?;
    mark_side(&mut rows, words, flats, Side::Here);
    mark_edges(&mut rows, words, flats);
    mark_lines(&mut rows, words, flats);
    mark_side(&mut rows, words, flats, Side::Word);
    mark_side(&mut rows, words, flats, Side::Blank);
    Ok(rows)
}
