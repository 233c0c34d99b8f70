//! Scopes as lists of atom numbers.
ghost use Rattle.std.specs.Prelude.{◌≡◌, ℕ, ◌==◌, ◌<◌, ◌≤◌, ◌↔◌, [], ◌∷◌, ◌++◌, length, IsTrue, slice_index};
ghost use Rattle.std.specs.List.{slice_set};
ghost use Rattle.std.specs.Cmp.Lexicographic.{pointwise, slice_cmp, slice_partial_cmp};
ghost use Rattle.std.specs.Ordering.{nat_cmp, as_partial_cmp};
ghost use Rattle.std.specs.Hash as fed;
ghost use Rattle.std.proofs.Common.{rules};
ghost use Rattle.std.specs.Cmp.{partial_order_from_own_ties};
ghost use Rattle.std.specs.Cmp.Rules.{comparing, hashing};
ghost use Rattle.syntect_scope.specs.Atoms.{atoms_in, is_prefix, IsPacked};
ghost use Rattle.syntect_scope.specs.Packing.{places, high_of, low_of};

use std::cmp::Ordering;
use std::hash::{Hash, Hasher};
use std::marker::Model;

/// Two to this power, `2^3`, is the greatest number of atoms that a scope has.
pub const ATOM_LEN_BITS: u16 = 3;

/// How many bits an atom number takes.
const ATOM_BITS: u32 = 16;

/// How many atoms one word holds.
const WORD_ATOMS: u32 = 4;

/// A list of at most eight atom numbers of one repository. They stand in two words, the first one
/// in the highest bits, and unused bits are 0: the order of the words is that of the lists.
#[derive(Clone, Copy, Debug)]
pub struct Scope {
    high: u64,
    low: u64,
}

impl Model for Scope {
    ghost use Rattle.std.specs.Prelude.{List, ℕ, ◌<◌, ◌^◌};

    ghost Value = { List ℕ };

    ghost use Rattle.syntect_scope.specs.Atoms.{atoms_in, IsPacked};
    ghost use Rattle.syntect_scope.specs.Packing.{places_in, high_of, low_of, high_back, low_back};
    ghost use Rattle.std.proofs.Common.{refl};

    ghost view = { λ a. atoms_in (places_in a.high a.low) };

    ghost invariant = { λ a.
        (a.high < 2 ^ 64) × (a.low < 2 ^ 64) × IsPacked (places_in a.high a.low) };

    ghost inverse = { λ v. record { high = high_of v; low = low_of v } };

    ghost inverse_ok = { λ a h.
        rw (high_back a.high a.low h.0 h.2, low_back a.high a.low h.1 h.2) refl };
}

/// How many atoms stand in a word.
fn atoms_in_word(word: u64) -> u32
    requires { IsPacked (places 4 word) }
    ensures { result ≡ length (atoms_in (places 4 word)) }
{
    WORD_ATOMS - word.trailing_zeros() / ATOM_BITS
}

/// The number in one of the four places of a word.
fn place(word: u64, index: usize) -> u16
    requires { index < 4 }
    ensures { result ≡ slice_index (places 4 word) index }
{
    let unwanted = 48 - 16 * index;
    (word >> unwanted & 0xffff) as u16
}

/// A word with an atom in its first unused place.
fn put_atom(word: u64, atom: u16) -> u64
    requires packed { IsPacked (places 4 word) }
    requires room { length (atoms_in (places 4 word)) < 4 }
    ensures { places 4 result
        ≡ slice_set (places 4 word) (length (atoms_in (places 4 word))) atom }
{
    let unused = word.trailing_zeros() / ATOM_BITS;
    word | u64::from(atom) << (ATOM_BITS * (unused - 1))
}

/// Whether the atoms in a word begin those in another one.
fn begins(word: u64, other: u64) -> bool
    requires { IsPacked (places 4 word) }
    ensures { result ≡ is_prefix (atoms_in (places 4 word)) (atoms_in (places 4 other)) }
{
    if word == 0 {
        return true;
    }
    let unused = word.trailing_zeros() / ATOM_BITS * ATOM_BITS;
    other & u64::MAX << unused == word
}

impl Scope {
    /// The scope of no atoms.
    pub(crate) fn empty() -> Scope
        ensures { result ≡ [] }
    {
        Scope { high: 0, low: 0 }
    }

    /// How many atoms it has, at most 8.
    pub fn len(self) -> u32
        ensures atoms { result ≡ length self }
        ensures within { result ≤ 8 }
    {
        atoms_in_word(self.high) + atoms_in_word(self.low)
    }

    /// Whether it has no atoms.
    pub fn is_empty(self) -> bool
        ensures { IsTrue result ↔ (self ≡ []) }
    {
        self.high == 0
    }

    /// The number of the atom at a place, and 0 where there is none.
    pub fn atom_at(self, index: usize) -> u16
        requires { index < 8 }
        ensures { result ≡ slice_index self index }
    {
        if index < 4 {
            place(self.high, index)
        } else {
            place(self.low, index - 4)
        }
    }

    /// Adds an atom at the end.
    pub(crate) fn push(&mut self, atom: u16)
        requires room { length self.old < 8 }
        requires used { 0 < atom }
        ensures { self.new ≡ self.old ++ atom ∷ [] }
    {
        if atoms_in_word(self.high) < WORD_ATOMS {
            self.high = put_atom(self.high, atom);
        } else {
            self.low = put_atom(self.low, atom);
        }
    }

    /// Whether its atoms begin the list of atoms of `s`:
    /// `string.quoted` is a prefix of `string.quoted.json`.
    pub fn is_prefix_of(self, s: Scope) -> bool
        ensures { result ≡ is_prefix self s }
    {
        begins(self.high, s.high) && begins(self.low, s.low)
    }
}

impl PartialEq for Scope {
    ghost eq = { pointwise ◌==◌ };

    ghost laws = { Prim.search (comparing, rules) };

    fn eq(&self, other: &Scope) -> bool {
        self.high == other.high && self.low == other.low
    }
}

impl Eq for Scope {
    ghost laws = { Prim.search (comparing, rules) };
}

impl Ord for Scope {
    ghost cmp = { slice_cmp nat_cmp };

    ghost total = { Prim.search (comparing, rules) };

    ghost matches_partial_cmp = { Prim.search (comparing, rules) };

    ghost matches_eq = { Prim.search (comparing, rules) };

    fn cmp(&self, other: &Scope) -> Ordering {
        self.high.cmp(&other.high).then(self.low.cmp(&other.low))
    }
}

impl PartialOrd for Scope {
    ghost partial_cmp = { as_partial_cmp (slice_cmp nat_cmp) };

    ghost laws = { partial_order_from_own_ties (Prim.search (comparing, rules))
        (Prim.search (comparing, rules)) };

    fn partial_cmp(&self, other: &Scope) -> Option<Ordering> {
        Some(self.cmp(other))
    }
}

impl Hash for Scope {
    ghost hash_input = { λ s. fed.u64 (high_of s) ++ fed.u64 (low_of s) };

    ghost respects_eq = { Prim.search (hashing, rules) };

    fn hash<H: Hasher>(&self, state: &mut H) {
        self.high.hash(state);
        self.low.hash(state);
    }
}

impl Default for Scope {
    ghost is_default = { λ s. s ≡ [] };

    fn default() -> Scope {
        Scope::empty()
    }
}
