//! Rows of bits, of which those that are equal are kept once. Most rows of a list are: most
//! characters differ for few of its patterns, be it as what one begins with or as what follows.
ghost use Rattle.std.specs.Prelude.{◌≡◌, ◌<◌, ◌≤◌, ◌+◌, ◌*◌, ℕ, List, length, take, drop, true, IfOk, IfSome, OnOk, slice_index_or};
ghost use Rattle.syntect_grammar_lists.specs.Packed.{IsPacked, IsRow, unpacked};

use std::alloc::{AllocError, Global};

/// How many slots there are for numbers of rows, one of which a sum over a row's words gives. Where
/// two rows share a slot the earlier one is no longer found there, and is kept once more if it
/// comes again.
const SLOTS: usize = 1024;

/// How many rows are told apart. A table that has more of them ends there, and says nothing of what
/// lies beyond it.
const MOST: u16 = 256;

/// Rows of words, each of which has a number among those that differ.
#[derive(Drop)]
pub struct Packed {
    /// The number of each row.
    pub numbers: Vec<u8>,
    /// The rows that differ, one after the other.
    pub bits: Vec<u64>,
}

/// A word of a row; after the table's end one whose bits are all set.
#[inline]
pub(crate) fn word_in(table: &Packed, words: u16, row: usize, word: usize) -> u64
    requires within { word < words }
    requires packed { IsPacked words table.now }
    ensures { result
        ≡ slice_index_or (unpacked words table.now) (row * words + word) 18446744073709551615 }
{
    match table.numbers.get(row) {
        Some(number) => table.bits[*number as usize * words as usize + word],
        None => u64::MAX,
    }
}

/// Whether these words stand there.
#[inline]
fn are_words(bits: &[u64], start: usize, row: &[u64]) -> bool
    requires { start + length row.now ≤ length bits.now }
    ensures { result ≡ true → take (length row.now) (drop start bits.now) ≡ row.now }
{
    let mut word = 0;
    while word < row.len() {
        if bits[start + word] != row[word] {
            return false;
        }
        word += 1;
    }
    true
}

/// Whether this is the row of the number.
#[inline]
fn is_row(bits: &[u64], words: u16, number: u8, row: &[u64]) -> bool
    ensures { result ≡ true → IsRow words bits.now row.now number }
{
    let start = number as usize * words as usize;
    let end = start + words as usize;
    end <= bits.len() && row.len() == words as usize && are_words(bits, start, row)
}

/// The slot of a row. Turning and multiplying by an odd number without pattern mix the bits of all
/// words, so that rows that differ in few bits seldom share one.
fn slot_of(row: &[u64]) -> usize
    ensures { result < 1024 }
{
    let mut sum = 0u64;
    for word in row {
        sum = (sum.rotate_left(5) ^ *word).wrapping_mul(0x9E37_79B9_7F4A_7C15);
    }
    (sum >> 32) as usize % SLOTS
}

/// The number of a row: the expected one, if it is that of an equal row, else that of the row
/// itself, which is added. None where no number is left.
fn number_of(
    bits: &mut Vec<u64>,
    words: u16,
    count: &mut u16,
    expected: u8,
    row: &[u64],
) -> Result<Option<u8>, AllocError>
    requires few { count.old < 257 }
    requires whole { length bits.old.items ≡ count.old * words }
    requires row { length row.now ≡ words }
    ensures few { count.new < 257 }
    ensures whole { OnOk result (length bits.new.items ≡ count.new * words) }
    ensures number { IfOk result (λ n. IfSome n (IsRow words bits.new.items row.now)) }
    ensures stays { (n : ℕ) (r : List ℕ) → IsRow words bits.old.items r n
        → IsRow words bits.new.items r n }
{
    if is_row(bits.as_slice(), words, expected, row) {
        return Ok(Some(expected));
    }
    if *count >= MOST {
        return Ok(None);
    }
    let number = *count as u8;
    bits.extend_from_slice(row)?;
    *count += 1;
    Ok(Some(number))
}

/// The number of a row: that of the row before it, if they are equal, else that of an equal one
/// whose number stands in its slot, or of the row itself, which is added.
/// None where no number is left.
#[inline]
fn next_number(
    bits: &mut Vec<u64>,
    words: u16,
    count: &mut u16,
    slots: &mut [u8; SLOTS],
    before: u8,
    row: &[u64],
) -> Result<Option<u8>, AllocError>
    requires few { count.old < 257 }
    requires whole { length bits.old.items ≡ count.old * words }
    requires row { length row.now ≡ words }
    ensures few { count.new < 257 }
    ensures whole { OnOk result (length bits.new.items ≡ count.new * words) }
    ensures number { IfOk result (λ n. IfSome n (IsRow words bits.new.items row.now)) }
    ensures stays { (n : ℕ) (r : List ℕ) → IsRow words bits.old.items r n
        → IsRow words bits.new.items r n }
{
    if is_row(bits.as_slice(), words, before, row) {
        return Ok(Some(before));
    }
    let slot = slot_of(row);
    let number = number_of(bits, words, count, slots[slot], row)?;
    slots[slot] = number.unwrap_or(0);
    Ok(number)
}

/// Rows of so many words as a table keeps them: all of them, or those before one for which no
/// number is left.
pub(crate) fn rows_packed(alloc: Global, words: u16, rows: &[u64]) -> Result<Packed, AllocError>
    requires { 0 < words }
    ensures packed { IfOk result (IsPacked words) }
    ensures same { IfOk result (λ p.
        take (length (unpacked words p)) rows.now ≡ unpacked words p) }
{
    let mut numbers = Vec::with_capacity(alloc, rows.len() / words as usize)?;
    let mut bits = Vec::new(alloc);
    let mut count = 0;
    // A slot that wasn't used says 0 too, which does no harm:
    // whether the rows are equal is looked at
    let mut slots = [0u8; SLOTS];
    let mut rest = rows;
    let mut last = 0;
    while rest.len() >= words as usize {
        let (row, behind) = rest.split_at(words as usize);
        let next = next_number(&mut bits, words, &mut count, &mut slots, last, row)?;
        let Some(number) = next else {
            break;
        };
        numbers.push(number)?;
        last = number;
        rest = behind;
    }
    bits.shrink_to_fit();
    Ok(Packed { numbers, bits })
}
