//! The ASCII characters of sets, a bit for each.
ghost use Rattle.std.specs.Prelude.{◌≡◌, ◌<◌, ◌≤◌, ◌||◌, ◌&&◌, ◌==◌, nat_le, nat_lt, not, ℕ, IfOk, List, length, take, true};
ghost use Rattle.std.specs.Int.{bit_at};
ghost use Rattle.std.specs.List.{list_any};
ghost use Rattle.std.specs.Char.{to_ascii_lowercase};
ghost use Rattle.ucd_case.specs.CaseFolding.{fold_pairs};
ghost use Rattle.unicode.specs.GeneralCategory.{general_category, general_category_eq};
ghost use Rattle.unicode.specs.GeneralCategoryGroup.{in_group};
ghost use Rattle.syntect_pattern.specs.Sets.{Set, holds, is_within, is_alike};
ghost use Rattle.syntect_pattern_table.specs.SetTable.{AreBits, AreOrdered, made_before, part_set, set_in};
ghost use Rattle.syntect_pattern.specs.NamedSets.{set_of_named};

use crate::sets::Part;
use std::alloc::{AllocError, Global};
use syntect_pattern::named::Named;
use ucd_case::simple_fold;
use unicode::case::fold_pairs;
use unicode::properties::{GeneralCategory, GeneralCategoryGroup};

/// The ASCII characters and one more.
#[tactic(auto, using(crate::proofs::PlaceLaws::put_in))]
pub fn put(ascii: u128, c: u32) -> u128
    requires { c < 128 }
    ensures { (x : ℕ) → (bit_at result x == 1) ≡ ((x == c) || (bit_at ascii x == 1)) }
{
    ascii | 1 << c
}

/// The ASCII characters of sets that are met often.
const WORD: u128 = 0x07ff_fffe_87ff_fffe_03ff_0000_0000_0000;

const LETTERS: u128 = 0x07ff_fffe_07ff_fffe_0000_0000_0000_0000;

const CAPITALS: u128 = 0x07ff_fffe_0000_0000_0000_0000;

const SMALL: u128 = 0x07ff_fffe_0000_0000_0000_0000_0000_0000;

const DIGITS: u128 = 0x03ff_0000_0000_0000;

const MATHS: u128 = 0x5000_0000_0000_0000_7000_0800_0000_0000;

const CONNECTORS: u128 = 0x8000_0000_0000_0000_0000_0000;

const SPACES: u128 = 0x0001_0000_3e00;

/// The characters of a named set.
fn named_bits(named: Named) -> u128
    ensures { (x : ℕ) → x < 128 → (bit_at result x == 1) ≡ holds (set_of_named named) x }
{
    match named {
        Named::Word => WORD,
        Named::Space => SPACES,
        Named::Category(category) => category_bits(category),
        Named::Categories(group) => group_bits(group),
        Named::LetterOrNumber => LETTERS | DIGITS,
        other => tested_bits(other),
    }
}

/// The characters of a category.
fn category_bits(category: GeneralCategory) -> u128
    ensures { (x : ℕ) → x < 128 → (bit_at result x == 1)
        ≡ general_category_eq category (general_category x) }
{
    match category {
        GeneralCategory::UppercaseLetter => CAPITALS,
        GeneralCategory::LowercaseLetter => SMALL,
        GeneralCategory::DecimalNumber => DIGITS,
        GeneralCategory::MathSymbol => MATHS,
        GeneralCategory::ConnectorPunctuation => CONNECTORS,
        GeneralCategory::TitlecaseLetter
        | GeneralCategory::ModifierLetter
        | GeneralCategory::OtherLetter
        | GeneralCategory::NonspacingMark
        | GeneralCategory::SpacingMark
        | GeneralCategory::LetterNumber
        | GeneralCategory::OtherSymbol => 0,
        other => tested_bits(Named::Category(other)),
    }
}

/// The characters of the categories of one letter.
fn group_bits(group: GeneralCategoryGroup) -> u128
    ensures { (x : ℕ) → x < 128 → (bit_at result x == 1) ≡ in_group group (general_category x) }
{
    match group {
        GeneralCategoryGroup::Letter => LETTERS,
        GeneralCategoryGroup::Number => DIGITS,
        GeneralCategoryGroup::Mark => 0,
        other => tested_bits(Named::Categories(other)),
    }
}

/// The characters of a named set, each of which is tested.
fn tested_bits(named: Named) -> u128
    ensures { (x : ℕ) → x < 128 → (bit_at result x == 1) ≡ holds (set_of_named named) x }
{
    let mut ascii = 0;
    for c in 0..128u8 {
        if named.holds(c as char) {
            ascii = put(ascii, u32::from(c));
        }
    }
    ascii
}

/// The characters whose simple folding is this one: it alone, or two letters, the second small.
fn folded_bits(folded: u32) -> u128
    ensures { (x : ℕ) → x < 128 → (bit_at result x == 1) ≡ (folded == to_ascii_lowercase x) }
{
    if folded >= 128 {
        return 0;
    }
    match folded {
        0x41..=0x5A => 0,
        0x61..=0x7A => put(put(0, folded - 32), folded),
        _ => put(0, folded),
    }
}

/// These characters, and that of a pair whose other one lies from the first to the last.
fn paired(ascii: u128, pair: (u32, u32), low: u32, high: u32) -> u128
    ensures { (x : ℕ) → x < 128 → (bit_at result x == 1) ≡ ((bit_at ascii x == 1)
        || ((pair.0 == x) && is_within low high pair.1)) }
{
    let (c, other) = pair;
    if c < 128 && low <= other && other <= high {
        put(ascii, c)
    } else {
        ascii
    }
}

/// The characters that have a pair whose other one lies from the first to the last.
fn paired_bits(pairs: &[(u32, u32)], low: u32, high: u32) -> u128
    ensures { (x : ℕ) → x < 128 → (bit_at result x == 1)
        ≡ list_any (λ p. (p.0 == x) && is_within low high p.1) pairs.now }
{
    let mut ascii = 0;
    for pair in pairs {
        ascii = paired(ascii, *pair, low, high);
    }
    ascii
}

/// How many pairs are of an ASCII character and another one: those that come first.
const NEAR_PAIRS: usize = 56;

/// The pairs of an ASCII character and another one that simple folding makes equal to it.
fn near_pairs() -> &'static [(u32, u32)]
    ensures { result.now ≡ take 56 fold_pairs }
{
    fold_pairs().split_at(NEAR_PAIRS).0
}

/// The characters that simple folding makes equal to one from the first to the last.
fn alike_bits(low: char, high: char) -> u128
    ensures { (x : ℕ) → x < 128 → (bit_at result x == 1) ≡ is_alike low high x }
{
    if low == high {
        return folded_bits(simple_fold(low) as u32);
    }
    let paired = paired_bits(near_pairs(), low as u32, high as u32);
    either(range_bits(low, high), paired)
}

/// The characters before this one.
#[tactic(auto, using(crate::proofs::PlaceLaws::bits_below, crate::proofs::PlaceLaws::none_below))]
fn bits_below(end: u32) -> u128
    requires { end ≤ 128 }
    ensures { (x : ℕ) → (bit_at result x == 1) ≡ nat_lt x end }
{
    if end == 0 {
        0
    } else {
        u128::MAX >> (128 - end)
    }
}

/// The characters from the first on, up to the end.
fn span_bits(first: u32, end: u32) -> u128
    requires order { first ≤ end }
    requires ascii { end ≤ 128 }
    ensures { (x : ℕ) → (bit_at result x == 1) ≡ (nat_le first x && nat_lt x end) }
{
    both(bits_below(end), others(bits_below(first)))
}

/// The characters from the first to the last.
fn range_bits(low: char, high: char) -> u128
    ensures { (x : ℕ) → x < 128 → (bit_at result x == 1) ≡ is_within low high x }
{
    let end = (high as u32 + 1).min(128);
    span_bits((low as u32).min(end), end)
}

/// The characters that are not among these.
#[tactic(auto, using(crate::proofs::PlaceLaws::bits_not))]
fn others(ascii: u128) -> u128
    ensures { (x : ℕ) → x < 128 → (bit_at result x == 1) ≡ not (bit_at ascii x == 1) }
{
    !ascii
}

/// The characters of one of the two.
#[tactic(auto, using(crate::proofs::PlaceLaws::bits_or))]
fn either(a: u128, b: u128) -> u128
    ensures { (x : ℕ) → (bit_at result x == 1) ≡ ((bit_at a x == 1) || (bit_at b x == 1)) }
{
    a | b
}

/// The characters of both.
#[tactic(auto, using(crate::proofs::PlaceLaws::bits_and))]
fn both(a: u128, b: u128) -> u128
    ensures { (x : ℕ) → (bit_at result x == 1) ≡ ((bit_at a x == 1) && (bit_at b x == 1)) }
{
    a & b
}

/// The characters of a part, by those of the parts before it.
pub(crate) fn bits_of(part: Part, before: &[u128]) -> u128
    requires { made_before (length before.now) part ≡ true }
    ensures { (ss : List Set) (x : ℕ) → x < 128 → AreBits x before.now ss
        → (bit_at result x == 1) ≡ holds (part_set ss part) x }
{
    match part {
        Part::Nothing => span_bits(0, 0),
        Part::Range(low, high) => range_bits(low, high),
        Part::Alike(low, high) => alike_bits(low, high),
        Part::Named(named) => named_bits(named),
        Part::Negated(part) => others(before[part]),
        Part::Either(rest, part) => either(before[rest], before[part]),
        Part::Both(rest, part) => both(before[rest], before[part]),
    }
}

/// The characters of the part at the place. Of many classes it is the only part.
pub fn ascii_bits(alloc: Global, parts: &[Part], root: usize) -> Result<u128, AllocError>
    requires { AreOrdered parts.now }
    ensures { IfOk result (λ bits. (x : ℕ) → x < 128
        → (bit_at bits x == 1) ≡ holds (set_in parts.now root) x) }
{
    if root >= parts.len() {
        return Ok(0);
    }
    if root == 0 {
        return Ok(bits_of(parts[0], &[]));
    }
    let mut before = Vec::with_capacity(alloc, root + 1)?;
    for place in 0..root + 1 {
        let next = bits_of(parts[place], before.as_slice());
        before.push_reserved(next);
    }
    Ok(before[root])
}
