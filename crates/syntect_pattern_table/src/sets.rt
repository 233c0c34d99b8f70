//! Sets of characters, kept so that an ASCII character is looked up at once.
ghost use Rattle.std.specs.Prelude.{◌≡◌, ◌<◌, ◌||◌, ◌&&◌, ◌==◌, [], nat_le, true, IfOk, slice_index_or};
ghost use Rattle.std.specs.Int.{bit_at};
ghost use Rattle.std.specs.List.{list_any};
ghost use Rattle.syntect_pattern.specs.Sets.{alike, holds, range, is_within, is_alike};
ghost use Rattle.syntect_pattern_table.specs.SetTable.{AreFlags, AreOrdered, is_wide, listed, made_before, part_set, set_in};
ghost use Rattle.syntect_pattern.specs.NamedSets.{set_of_named};

use crate::ascii::{ascii_bits, bits_of};
use std::alloc::{AllocError, Global};
use syntect_pattern::character::same_fold;
use syntect_pattern::folds::pairs_of;
use syntect_pattern::named::Named;
use syntect_values::seq::Seq;

fn is_within(low: char, high: char, c: char) -> bool
    ensures { result ≡ is_within low high c }
{
    low <= c && c <= high
}

/// Whether simple folding makes the character equal to one from the first to the last.
pub fn is_alike(low: char, high: char, c: char) -> bool
    ensures { result ≡ is_alike low high c }
{
    if is_within(low, high, c) {
        return true;
    }
    if low == high {
        return same_fold(low, c);
    }
    has_pair(pairs_of(c), low as u32, high as u32, c as u32)
}

/// Whether a pair of the character has its other one from the first to the last.
fn has_pair(pairs: &[(u32, u32)], low: u32, high: u32, c: u32) -> bool
    ensures { result ≡ list_any (λ p. (p.0 == c) && is_within low high p.1) pairs.now }
{
    pairs
        .iter()
        .any(|pair| pair.0 == c && low <= pair.1 && pair.1 <= high)
}

/// A part of a set. Other parts are given by their places in the table.
#[derive(Clone, Copy, Debug)]
pub enum Part {
    Nothing,
    Range(char, char),
    /// Each character that simple folding makes equal to one of the range.
    Alike(char, char),
    Named(Named),
    Negated(usize),
    Either(usize, usize),
    Both(usize, usize),
}

/// The part at the place, which holds nothing past the end.
fn part_at(parts: &[Part], place: usize) -> Part
    ensures { result ≡ slice_index_or parts.now place Part.Nothing }
{
    parts.get(place).copied().unwrap_or(Part::Nothing)
}

/// Whether the part holds the character. Sets nest on the right alone, no deeper than classes do.
fn holds_at(parts: &[Part], root: usize, c: char) -> bool
    requires { AreOrdered parts.now }
    ensures { result ≡ holds (set_in parts.now root) c }
{
    let mut place = root;
    'parts: loop {
        let part = part_at(parts, place);
        place = match part {
            Part::Nothing => return false,
            Part::Range(low, high) => return is_within(low, high, c),
            Part::Alike(low, high) => return is_alike(low, high, c),
            Part::Named(named) => return named.holds(c),
            Part::Negated(part) => return !holds_at(parts, part, c),
            Part::Either(rest, part) => {
                if holds_at(parts, part, c) {
                    return true;
                }
                rest
            }
            Part::Both(rest, part) => {
                if !holds_at(parts, part, c) {
                    return false;
                }
                rest
            }
        };
    }
}

/// Whether the character is beyond ASCII.
fn is_beyond(c: char) -> bool
    ensures { result ≡ nat_le 128 c }
{
    c as u32 >= 128
}

/// Whether the named set can hold a character beyond ASCII, as far as its form tells.
fn is_named_wide(named: Named) -> bool
    ensures { result ≡ is_wide (set_of_named named) }
{
    match named {
        Named::HexDigit | Named::Blank | Named::Ascii => false,
        _ => true,
    }
}

/// Whether simple folding makes a character beyond ASCII equal to one from the first to the last.
/// Two such characters fold to ASCII letters, to `k` and to `s`.
pub(crate) fn is_alike_wide(low: char, high: char) -> bool
    ensures { result ≡ is_wide (alike low high) }
{
    is_beyond(high)
        || is_within(low, high, 'K')
        || is_within(low, high, 'S')
        || is_within(low, high, 'k')
        || is_within(low, high, 's')
}

/// Whether the part at the place can hold a character beyond ASCII, as far as its form tells.
fn is_wide_at(parts: &[Part], root: usize) -> bool
    requires { AreOrdered parts.now }
    ensures { result ≡ is_wide (set_in parts.now root) }
{
    let mut place = root;
    'parts: loop {
        let part = part_at(parts, place);
        place = match part {
            Part::Nothing => return false,
            Part::Range(_, high) => return is_beyond(high),
            Part::Alike(low, high) => return is_alike_wide(low, high),
            Part::Named(named) => return is_named_wide(named),
            Part::Negated(_) => return true,
            Part::Either(rest, part) => {
                if is_wide_at(parts, part) {
                    return true;
                }
                rest
            }
            Part::Both(rest, part) => {
                if !is_wide_at(parts, part) {
                    return false;
                }
                rest
            }
        };
    }
}

/// The parts of a class. Most classes have a single one, which takes no list.
#[derive(Debug, Drop)]
pub enum Parts {
    One(Part),
    Several(Seq<Part>),
}

/// What a class is made of.
#[derive(Debug, Drop)]
struct ClassBody {
    parts: Parts,
    root: usize,
    /// A bit for each ASCII character.
    ascii: u128,
    /// Whether it can hold a character beyond ASCII, as far as its form tells.
    wide: bool,
    ghost ordered: { AreOrdered (listed parts) },
    ghost flagged: { AreFlags ascii (set_in (listed parts) root) },
    ghost widened: { wide ≡ is_wide (set_in (listed parts) root) },
}

/// A set of characters, of parts, with ASCII ones beside; in its own place, to keep nodes small.
#[derive(Debug, Drop)]
pub struct Class {
    body: Box<ClassBody>,
}

impl Class {
    ghost use Rattle.syntect_pattern_table.specs.Table.{set_of};

    /// The set of the part at the place.
    pub fn new(alloc: Global, parts: Seq<Part>, root: usize) -> Result<Class, AllocError>
        requires { AreOrdered parts }
        ensures { IfOk result (λ s. set_of s ≡ set_in parts root) }
    {
        let mut parts = parts;
        parts.shrink_to_fit();
        let ascii = ascii_bits(alloc, parts.as_slice(), root)?;
        let wide = is_wide_at(parts.as_slice(), root);
        let body = ClassBody {
            parts: Parts::Several(parts),
            root,
            ascii,
            wide,
        };
        Ok(Class {
            body: Box::new(alloc, body)?,
        })
    }

    /// The set of a part that is made of no other.
    #[tactic(auto, unfolding(crate::specs::SetTable::sets))]
    pub fn of_one(alloc: Global, part: Part) -> Result<Class, AllocError>
        requires { made_before 0 part ≡ true }
        ensures { IfOk result (λ s. set_of s ≡ part_set [] part) }
    {
        let body = ClassBody {
            parts: Parts::One(part),
            root: 0,
            ascii: bits_of(part, &[]),
            wide: is_wide_at(&[part], 0),
        };
        Ok(Class {
            body: Box::new(alloc, body)?,
        })
    }

    /// A copy of the class.
    pub fn copy(&self, alloc: Global) -> Result<Class, AllocError>
        ensures { IfOk result (λ s. set_of s ≡ set_of self.now) }
    {
        let parts = match &self.body.parts {
            Parts::One(part) => Parts::One(*part),
            Parts::Several(parts) => Parts::Several(Seq::from_slice(alloc, parts.as_slice())?),
        };
        let body = ClassBody {
            parts,
            root: self.body.root,
            ascii: self.body.ascii,
            wide: self.body.wide,
        };
        Ok(Class {
            body: Box::new(alloc, body)?,
        })
    }

    /// Its ASCII characters, a bit for each.
    pub fn ascii(&self) -> u128
        ensures { AreFlags result (set_of self.now) }
    {
        self.body.ascii
    }

    /// Whether it can hold a character beyond ASCII, as far as its form tells.
    pub fn is_wide(&self) -> bool
        ensures { result ≡ is_wide (set_of self.now) }
    {
        self.body.wide
    }

    /// Whether the character is in the set.
    pub fn holds(&self, c: char) -> bool
        ensures { result ≡ holds (set_of self.now) c }
    {
        if c.is_ascii() {
            has_bit(self.body.ascii, c as u32)
        } else {
            match &self.body.parts {
                Parts::One(part) => holds_at(&[*part], self.body.root, c),
                Parts::Several(parts) => holds_at(parts.as_slice(), self.body.root, c),
            }
        }
    }
}

/// Whether the bit is set.
#[inline(always)]
#[tactic(auto, using(crate::proofs::PlaceLaws::is_bit))]
pub fn has_bit(bits: u128, x: u32) -> bool
    requires { x < 128 }
    ensures { result ≡ (bit_at bits x == 1) }
{
    (bits >> x) & 1 == 1
}
